ghost use Rattle.std.specs.Prelude.{◌≡◌, ◌≢◌, ◌<◌, ◌+◌, ◌∷◌, ◌++◌, ◌==◌, [], IfOk, IfErr};
ghost use Rattle.std.specs.Prelude.{IfNone, IfSome, OnOk, OnErr, IsTrue, None, Some};
ghost use Rattle.std.specs.Prelude.{true, false, not, filter, length, map, vec_len};
ghost use Rattle.std.specs.Option.{option_copied, option_map};
ghost use Rattle.cast_types.specs.declared.names.DomainNo.{DomainNo};
ghost use Rattle.cast_message.specs.Receipts.{key_eq, message_under};
ghost use Rattle.cast_store.specs.Ids.{IsKeptOf, IsLedBy, KeepsAbcastRange, KeepsFirst};
ghost use Rattle.cast_store.specs.Ids.{KeepsNoAbcast, KeepsNoneOf, message_of};
ghost use Rattle.cast_store.specs.Store.{kept_in, next_in, is_rising};
ghost use Rattle.cast_store.specs.Lines.{line_of, line_or_empty, message_in, only};
ghost use Rattle.cast_store.specs.Lines.{receipts_in, receipts_of, slot_under};
ghost use Rattle.cast_store.specs.Lines.{slot_with, with_receipt, without_number};
ghost use Rattle.cast_store.specs.Lines.{ChangesLine, IsEmptied, IsFilled, IsPadded};
ghost use Rattle.slab.specs.Slab.{get as slot_at, Updates};

use crate::kept::Kept;
use crate::row::Row;
use crate::slot::Slot;
use cast_message::Message;
use cast_types::{DomainNo, Key, NoMemory, Source, Uid};
use slab::Slab;
use std::alloc::Global;
use std::marker::Model;

/// The messages that domains keep, each under a key of its domain. Contracts say `kept_in` of it
/// and a domain: the list of the domain's messages with their keys, in order of receipt; and
/// `next_in`: the number of the domain's next key.
#[derive(Drop)]
pub struct Store {
    // Of each domain the receipts of its messages, in order, at the place of its number.
    rows: Vec<Option<Row>>,
    // The messages of all domains.
    slots: Slab<Slot>,
}

impl Model for Store {
    ghost use Rattle.std.specs.Prelude.{List};
    ghost use Rattle.cast_store.specs.Store.{Shelf};

    ghost Value = { List Shelf };

    ghost use Rattle.slab.specs.Slab.{get as slot_at};
    ghost use Rattle.cast_store.specs.Lines.{receipts_in, shelves_by, IsStocked};

    ghost view = { λ s. shelves_by (slot_at s.slots) s.rows.items };

    ghost invariant = { λ s. IsStocked (receipts_in s.rows.items) (slot_at s.slots) };
}

impl Store {
    /// No messages, and the next key of each domain is 0.
    pub fn new(alloc: Global) -> Self
        ensures kept { (d : DomainNo) → kept_in result d ≡ [] }
        ensures next { (d : DomainNo) → next_in result d ≡ 0 }
    {
        Store {
            rows: Vec::new(alloc),
            slots: Slab::new(alloc),
        }
    }

    /// An equal value, with the same keys.
    pub fn copy(&self) -> Result<Self, NoMemory>
        ensures { IfOk result (λ store. store ≡ self.now) }
    {
        Ok(Store {
            rows: copy_rows(&self.rows)?,
            slots: copy_slots(&self.slots)?,
        })
    }

    /// Keeps a message for a domain, the last one in order of receipt, under the domain's next key,
    /// under which it kept none. The message comes back, and nothing is changed, where there is no
    /// memory or no key is left.
    pub fn put(&mut self, domain: DomainNo, message: Message) -> Result<Key, Message>
        ensures key { IfOk result (λ key. key ≡ record { 0 = next_in self.old domain }) }
        ensures kept { IfOk result (λ key. kept_in self.new domain
            ≡ kept_in self.old domain ++ record { key = key; message = message } ∷ []) }
        ensures next { OnOk result (next_in self.new domain ≡ next_in self.old domain + 1) }
        ensures free { message_under (kept_in self.old domain)
            (record { 0 = next_in self.old domain }) ≡ None }
        ensures back { IfErr result (λ back. back ≡ message) }
        ensures err { OnErr result (self.new ≡ self.old) }
        ensures others { (e : DomainNo) → e ≢ domain → (kept_in self.new e ≡ kept_in self.old e)
            × (next_in self.new e ≡ next_in self.old e) }
    {
        put_in(&mut self.rows, &mut self.slots, domain, message)
    }

    /// The message that a domain keeps under a key, `None` where it keeps none there. Takes no
    /// memory.
    pub fn get(&self, domain: DomainNo, key: Key) -> Option<&Message>
        ensures { option_copied result ≡ message_under (kept_in self.now domain) key }
    {
        match row_of(&self.rows, domain) {
            Some(row) => message_in(&self.slots, row.slot_under(key)),
            None => None,
        }
    }

    /// The first message of an id that a domain keeps, `None` where it keeps none. Takes no memory.
    pub fn find(&self, domain: DomainNo, id: Uid) -> Option<&Message>
        ensures { option_copied result ≡ message_of (kept_in self.now domain) id }
    {
        match row_of(&self.rows, domain) {
            Some(row) => message_in(&self.slots, row.slot_of(id)),
            None => None,
        }
    }

    /// The key of a message that a domain keeps and whose id passes. `None` says that each message
    /// has one of its source, with no greater count, whose id fails. Only the id with the least
    /// count of each source is asked for. Takes no memory.
    pub fn first_passing<F: Fn(Uid) -> bool>(&self, domain: DomainNo, passes: F) -> Option<Key>
        requires { F.IsAlwaysCallable passes }
        ensures some { IfSome result
            (IsKeptOf (λ id. F.post passes id true) (kept_in self.now domain)) }
        ensures none { IfNone result
            (IsLedBy (λ id. F.post passes id false) (kept_in self.now domain)) }
    {
        match row_of(&self.rows, domain) {
            Some(row) => row.first_passing(passes),
            None => None,
        }
    }

    /// Of the messages of a source that a domain keeps, the id and the key of the one with the
    /// least count. `None` where it keeps none. Takes no memory.
    pub fn first_of(&self, domain: DomainNo, source: Source) -> Option<(Uid, Key)>
        ensures some { IfSome result (KeepsFirst (kept_in self.now domain) source) }
        ensures none { IfNone result (KeepsNoneOf (kept_in self.now domain) source) }
    {
        match row_of(&self.rows, domain) {
            Some(row) => row.first_of(source),
            None => None,
        }
    }

    /// The least and the greatest count of the ABCASTs of a source that a domain keeps, `None`
    /// where it keeps none. Takes no memory.
    pub fn atomic_counts(&self, domain: DomainNo, source: Source) -> Option<(u32, u32)>
        ensures some { IfSome result (KeepsAbcastRange (kept_in self.now domain) source) }
        ensures none { IfNone result (KeepsNoAbcast (kept_in self.now domain) source) }
    {
        match row_of(&self.rows, domain) {
            Some(row) => row.atomic_counts(source),
            None => None,
        }
    }

    /// Gives back the message that a domain keeps under a key, and keeps it no longer; `None`
    /// changes nothing, where the domain keeps none there. Takes no memory.
    pub fn remove(&mut self, domain: DomainNo, key: Key) -> Option<Message>
        ensures value { result ≡ message_under (kept_in self.old domain) key }
        ensures kept { kept_in self.new domain
            ≡ filter (λ r. not (key_eq r.key key)) (kept_in self.old domain) }
        ensures next { next_in self.new domain ≡ next_in self.old domain }
        ensures none { IfNone result (self.new ≡ self.old) }
        ensures others { (e : DomainNo) → e ≢ domain → (kept_in self.new e ≡ kept_in self.old e)
            × (next_in self.new e ≡ next_in self.old e) }
    {
        remove_in(&mut self.rows, &mut self.slots, domain, key)
    }

    /// The key of the message that the domain keeps next. Takes no memory.
    pub fn next_key(&self, domain: DomainNo) -> Key
        ensures { result ≡ record { 0 = next_in self.now domain } }
    {
        match row_of(&self.rows, domain) {
            Some(row) => row.next_key(),
            None => Key(0),
        }
    }

    /// How many messages a domain keeps. Takes no memory.
    pub fn held(&self, domain: DomainNo) -> usize
        ensures { result ≡ length (kept_in self.now domain) }
    {
        self.messages(domain).len()
    }

    /// The messages that a domain keeps, each with its key, in order of receipt. Their keys rise,
    /// and are below the next one. Takes no memory.
    pub fn messages(&self, domain: DomainNo) -> Kept<'_>
        ensures value { result ≡ kept_in self.now domain }
        ensures rising { IsTrue (is_rising (next_in self.now domain) (kept_in self.now domain)) }
    {
        match row_of(&self.rows, domain) {
            Some(row) => Kept::new(row.receipts(), &self.slots),
            None => Kept::empty(&self.slots),
        }
    }

    /// Lets go of all messages that a domain keeps; its next key is 0 again. Takes no memory.
    pub fn drop_domain(&mut self, domain: DomainNo)
        ensures kept { kept_in self.new domain ≡ [] }
        ensures next { next_in self.new domain ≡ 0 }
        ensures others { (e : DomainNo) → e ≢ domain → (kept_in self.new e ≡ kept_in self.old e)
            × (next_in self.new e ≡ next_in self.old e) }
    {
        drop_row(&mut self.rows, domain);
        drop_slots(&mut self.slots, domain);
    }
}

// The receipts of a domain.
fn row_of(rows: &[Option<Row>], domain: DomainNo) -> Option<&Row>
    ensures { option_copied result ≡ line_of rows.now domain }
{
    rows.get(usize::from(domain.0))?.as_ref()
}

// The message in a slot, if there is one.
fn message_in(slots: &Slab<Slot>, slot: Option<usize>) -> Option<&Message>
    ensures { option_copied result ≡ message_in (slot_at slots.now) slot }
{
    let slot = slots.get(slot?)?;
    Some(&slot.message)
}

// Keeps a message for a domain.
fn put_in(
    rows: &mut Vec<Option<Row>>,
    slots: &mut Slab<Slot>,
    domain: DomainNo,
    message: Message,
) -> Result<Key, Message>
    ensures key { IfOk result
        (λ key. key ≡ record { 0 = (line_or_empty (line_of rows.old.items domain)).next }) }
    ensures ok { OnOk result (ChangesLine domain (Some (with_receipt slots.old.vacant_key message
        (line_or_empty (line_of rows.old.items domain)))) rows.old.items rows.new.items) }
    ensures filled { OnOk result
        (IsFilled (slot_with domain (line_or_empty (line_of rows.old.items domain)).next message)
        slots.old slots.new) }
    ensures free { slot_under (line_or_empty (line_of rows.old.items domain)).receipts
        (line_or_empty (line_of rows.old.items domain)).next ≡ None }
    ensures back { IfErr result (λ back. back ≡ message) }
    ensures err { OnErr result (IsPadded rows.old.items rows.new.items) }
    ensures slots_stay { OnErr result (slots.new.slots ≡ slots.old.slots) }
{
    if make_place(rows, domain).is_err() {
        return Err(message);
    }
    let alloc = *rows.allocator();
    let row = &mut rows[usize::from(domain.0)];
    put_at(row, slots, alloc, domain, message)
}

// Keeps a message in the row of a domain, which is a new one where there is none.
fn put_at(
    place: &mut Option<Row>,
    slots: &mut Slab<Slot>,
    alloc: Global,
    domain: DomainNo,
    message: Message,
) -> Result<Key, Message>
    ensures key { IfOk result (λ key. key ≡ record { 0 = (line_or_empty place.old).next }) }
    ensures ok { OnOk result
        (place.new ≡ Some (with_receipt slots.old.vacant_key message (line_or_empty place.old))) }
    ensures filled { OnOk result
        (IsFilled (slot_with domain (line_or_empty place.old).next message) slots.old slots.new) }
    ensures free { slot_under (line_or_empty place.old).receipts (line_or_empty place.old).next
        ≡ None }
    ensures back { IfErr result (λ back. back ≡ message) }
    ensures err { OnErr result (place.new ≡ place.old) }
    ensures slots_stay { OnErr result (slots.new.slots ≡ slots.old.slots) }
{
    match place {
        Some(row) => row.put(slots, domain, message),
        None => {
            let mut row = Row::new(alloc);
            let key = row.put(slots, domain, message)?;
            *place = Some(row);
            Ok(key)
        }
    }
}

// Makes the list long enough for the row of a domain: the places that it gets have none.
fn make_place(rows: &mut Vec<Option<Row>>, domain: DomainNo) -> Result<(), NoMemory>
    ensures within { OnOk result (domain.0 < vec_len rows.new) }
    ensures absent { OnErr result (line_of rows.old.items domain ≡ None) }
    ensures padded { IsPadded rows.old.items rows.new.items }
{
    let place = usize::from(domain.0);
    if rows.len() <= place {
        rows.resize_with(place + 1, || None)?;
    }
    Ok(())
}

// Lets go of the receipts of a domain.
fn drop_row(rows: &mut Vec<Option<Row>>, domain: DomainNo)
    ensures { ChangesLine domain None rows.old.items rows.new.items }
{
    if let Some(row) = rows.get_mut(usize::from(domain.0)) {
        *row = None;
    }
}

// Takes out a message of a domain.
fn remove_in(
    rows: &mut Vec<Option<Row>>,
    slots: &mut Slab<Slot>,
    domain: DomainNo,
    key: Key,
) -> Option<Message>
    ensures value { result
        ≡ message_in (slot_at slots.old) (slot_under (receipts_in rows.old.items domain) key.0) }
    ensures left { ChangesLine domain
        (option_map (without_number key.0) (line_of rows.old.items domain))
        rows.old.items rows.new.items }
    ensures gone { IsEmptied slots.old slots.new
        (slot_under (receipts_in rows.old.items domain) key.0) }
    ensures none { slot_under (receipts_in rows.old.items domain) key.0 ≡ None
        → rows.new.items ≡ rows.old.items }
{
    match rows.get_mut(usize::from(domain.0)) {
        Some(row) => remove_at(row, slots, key),
        None => None,
    }
}

// Takes out a message of the row of a domain, if there is one.
fn remove_at(place: &mut Option<Row>, slots: &mut Slab<Slot>, key: Key) -> Option<Message>
    ensures value { result
        ≡ message_in (slot_at slots.old) (slot_under (receipts_of place.old) key.0) }
    ensures left { place.new ≡ option_map (without_number key.0) place.old }
    ensures gone { IsEmptied slots.old slots.new (slot_under (receipts_of place.old) key.0) }
    ensures none { slot_under (receipts_of place.old) key.0 ≡ None → place.new ≡ place.old }
{
    let row = place.as_mut()?;
    match row.remove(key) {
        Some(slot) => take_out(slots, slot),
        None => None,
    }
}

// Takes out the message in a slot.
fn take_out(slots: &mut Slab<Slot>, slot: usize) -> Option<Message>
    ensures value { result ≡ option_map (λ s. s.message) (slot_at slots.old slot) }
    ensures gone { Updates slots.old slots.new slot None }
{
    let slot = slots.try_remove(slot)?;
    Some(slot.message)
}

// Keeps the messages of other domains.
fn drop_slots(slots: &mut Slab<Slot>, domain: DomainNo)
    ensures { slots.new.slots ≡ map (only (λ s. not (s.domain.0 == domain.0))) slots.old.slots }
{
    slots.retain(|_, slot| slot.domain != domain);
}

// Rows, copied.
fn copy_rows(rows: &Vec<Option<Row>>) -> Result<Vec<Option<Row>>, NoMemory>
    ensures { IfOk result (λ copy. copy.items ≡ rows.now.items) }
{
    rows.clone()
}

// Slots, copied: each message has the key that it had.
fn copy_slots(slots: &Slab<Slot>) -> Result<Slab<Slot>, NoMemory>
    ensures { IfOk result (λ copy. copy.slots ≡ slots.now.slots) }
{
    slots.clone()
}
