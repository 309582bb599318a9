ghost use Rattle.std.specs.Prelude.{◌≡◌, ◌<◌, ◌==◌, ◌++◌, ◌∷◌, [], cond, false};
ghost use Rattle.std.specs.Prelude.{get_or, IfOk, IfErr, IfNone, IfSome, OnOk};
ghost use Rattle.std.specs.Prelude.{OnErr, OnSome, Some, None, IsTrue, true, length};
ghost use Rattle.std.specs.List.{position, remove};
ghost use Rattle.std.specs.VecDeque.{deque_len};
ghost use Rattle.cast_types.specs.declared.names.Key.{Key};
ghost use Rattle.cast_types.specs.declared.names.Uid.{Uid};
ghost use Rattle.cast_index.specs.Index.{has};
ghost use Rattle.cast_index.specs.Rises.{rises};
ghost use Rattle.cast_store.specs.declared.receipt.Receipt.{Receipt};
ghost use Rattle.cast_store.specs.Lines.{is_abcast_named, is_named, is_numbered, key_of};
ghost use Rattle.cast_store.specs.Lines.{number_of, slot_of, slot_with, slot_under, with_receipt};
ghost use Rattle.cast_store.specs.Lines.{without_number, HasAbcastRange, HasNoAbcast, HasNoneOf};
ghost use Rattle.cast_store.specs.Lines.{IsFilled, IsFirstReceipt, IsLedByReceipts, IsReceivedOf};
ghost use Rattle.slab.specs.Slab.{get as slot_at};

use crate::receipt::Receipt;
use crate::row_ids::Ids;
use crate::slot::Slot;
use cast_message::Message;
use cast_types::{DomainNo, Key, NoMemory, Source, Uid, source_of};
use slab::Slab;
use std::alloc::Global;
use std::collections::VecDeque;
use std::marker::Model;

/// The receipts of the messages that one domain keeps, in order.
#[derive(Drop)]
pub(crate) struct Row {
    /// The number of the next receipt, above each that was given out.
    next: usize,
    receipts: VecDeque<Receipt>,
    ids: Ids,
}

impl Model for Row {
    ghost use Rattle.cast_store.specs.Lines.{Line, IsInOrder};

    ghost Value = { Line };

    ghost view = { λ r. record { next = r.next; receipts = r.receipts.items } };

    ghost invariant = { λ r. IsInOrder r.next r.receipts.items r.ids };
}

impl Clone for Row {
    ghost use Rattle.std.specs.Prelude.{◌≡◌};

    ghost is_clone = { λ x y. y ≡ x };

    fn clone(&self) -> Result<Self, NoMemory> {
        self.copy()
    }
}

impl Row {
    /// No receipts.
    pub(crate) fn new(alloc: Global) -> Self
        ensures { result ≡ record { next = 0; receipts = [] } }
    {
        Row {
            next: 0,
            receipts: VecDeque::new(alloc),
            ids: Ids::new(alloc),
        }
    }

    /// An equal value.
    pub(crate) fn copy(&self) -> Result<Self, NoMemory>
        ensures { IfOk result (λ row. row ≡ self.now) }
    {
        Ok(Row {
            next: self.next,
            receipts: copy_receipts(&self.receipts)?,
            ids: self.ids.copy()?,
        })
    }

    /// The next key.
    pub(crate) fn next_key(&self) -> Key
        ensures { result ≡ record { 0 = self.now.next } }
    {
        Key(self.next)
    }

    /// Keeps a message of a domain in a slot of its own, under the next key. It comes back, and
    /// nothing is changed, where there is no memory or no key is left.
    pub(crate) fn put(
        &mut self,
        slots: &mut Slab<Slot>,
        domain: DomainNo,
        message: Message,
    ) -> Result<Key, Message>
        ensures key { IfOk result (λ key. key ≡ record { 0 = self.old.next }) }
        ensures ok { OnOk result (self.new ≡ with_receipt slots.old.vacant_key message self.old) }
        ensures filled { OnOk result
            (IsFilled (slot_with domain self.old.next message) slots.old slots.new) }
        ensures free { slot_under self.old.receipts self.old.next ≡ None }
        ensures back { IfErr result (λ back. back ≡ message) }
        ensures err { OnErr result (self.new ≡ self.old) }
        ensures slots_stay { OnErr result (slots.new.slots ≡ slots.old.slots) }
    {
        let number = self.next;
        let Some(next) = number.checked_add(1) else {
            return Err(message);
        };
        if slots.reserve(1).is_err() {
            return Err(message);
        }
        let receipt = Receipt {
            number,
            slot: slots.vacant_key(),
            id: message.id,
            atomic: message.kind().is_atomic(),
        };
        if add(&mut self.receipts, &mut self.ids, receipt).is_err() {
            return Err(message);
        }
        slots.insert_reserved(Slot {
            domain,
            number,
            message,
        });
        self.next = next;
        Ok(Key(number))
    }

    /// The slot of the message under a key.
    pub(crate) fn slot_under(&self, key: Key) -> Option<usize>
        ensures { result ≡ slot_under self.now.receipts key.0 }
    {
        let place = place_under(&self.receipts, key)?;
        Some(self.receipts[place].slot)
    }

    /// Takes out the receipt of the message under a key, and gives its slot; `None` changes
    /// nothing.
    pub(crate) fn remove(&mut self, key: Key) -> Option<usize>
        ensures value { result ≡ slot_under self.old.receipts key.0 }
        ensures left { self.new ≡ without_number key.0 self.old }
        ensures none { IfNone result (self.new ≡ self.old) }
    {
        let place = place_under(&self.receipts, key)?;
        take_out(&mut self.receipts, &mut self.ids, place)
    }

    /// The slot of the first message of an id.
    pub(crate) fn slot_of(&self, id: Uid) -> Option<usize>
        ensures { result ≡ slot_of self.now.receipts id }
    {
        let key = self.ids.all.key_of(id)?;
        self.slot_under(key)
    }

    /// The key of a message that passes. `None` says that each message has one of its source, with
    /// no greater count, that fails.
    pub(crate) fn first_passing<F: Fn(Uid) -> bool>(&self, passes: F) -> Option<Key>
        requires { F.IsAlwaysCallable passes }
        ensures some { IfSome result
            (IsReceivedOf (λ id. F.post passes id true) self.now.receipts) }
        ensures none { IfNone result
            (IsLedByReceipts (λ id. F.post passes id false) self.now.receipts) }
    {
        let mut after = None;
        while let Some(id) = self.ids.all.first_behind(after) {
            if passes(id) {
                return self.ids.all.key_of(id);
            }
            after = Some(source_of(id));
        }
        None
    }

    /// Of the messages of a source, the id and the key of the one with the least count.
    pub(crate) fn first_of(&self, source: Source) -> Option<(Uid, Key)>
        ensures some { IfSome result (IsFirstReceipt self.now.receipts source) }
        ensures none { IfNone result (HasNoneOf self.now.receipts source) }
    {
        self.ids.all.first_of(source)
    }

    /// The least and the greatest count of the ABCASTs of a source, `None` where there is none.
    pub(crate) fn atomic_counts(&self, source: Source) -> Option<(u32, u32)>
        ensures some { IfSome result (HasAbcastRange self.now.receipts source) }
        ensures none { IfNone result (HasNoAbcast self.now.receipts source) }
    {
        if self.ids.abcasts.is_empty() {
            return None;
        }
        self.ids.abcasts.count_range(source)
    }

    /// The receipts, in order.
    pub(crate) fn receipts(&self) -> &VecDeque<Receipt>
        ensures value { result.now.items ≡ self.now.receipts }
        ensures numbered { IsTrue (is_numbered self.now.next self.now.receipts) }
    {
        &self.receipts
    }
}

// Adds a receipt, and its id. `NoMemory` leaves the receipts, and all ids but this one under this
// number.
fn add(receipts: &mut VecDeque<Receipt>, ids: &mut Ids, receipt: Receipt) -> Result<(), NoMemory>
    ensures added { OnOk result (receipts.new.items ≡ receipts.old.items ++ receipt ∷ []) }
    ensures named { OnOk result ((u : Uid) (k : Key)
        → has ids.new.all u k ≡ cond (is_named u k receipt) true (has ids.old.all u k)) }
    ensures named_abcast { OnOk result ((u : Uid) (k : Key) → has ids.new.abcasts u k
        ≡ cond (is_abcast_named u k receipt) true (has ids.old.abcasts u k)) }
    ensures same { OnErr result (receipts.new.items ≡ receipts.old.items) }
    ensures unnamed { OnErr result (has ids.old.all receipt.id (key_of receipt) ≡ false
        → (u : Uid) (k : Key) → has ids.new.all u k ≡ has ids.old.all u k) }
    ensures no_abcast { OnErr result (ids.new.abcasts ≡ ids.old.abcasts) }
{
    receipts.reserve(1)?;
    ids.insert(receipt)?;
    receipts.push_back_reserved(receipt);
    Ok(())
}

// Takes out the receipt of a place, and its id, and gives its slot.
fn take_out(receipts: &mut VecDeque<Receipt>, ids: &mut Ids, place: usize) -> Option<usize>
    requires { place < deque_len receipts.old }
    ensures value { (r : Receipt) → result ≡ Some (get_or receipts.old.items place r).slot }
    ensures left { receipts.new.items ≡ remove receipts.old.items place }
    ensures unnamed { (r : Receipt) (u : Uid) (k : Key) → has ids.new.all u k
        ≡ cond (is_named u k (get_or receipts.old.items place r)) false (has ids.old.all u k) }
    ensures no_abcast { (r : Receipt) (u : Uid) (k : Key)
        → has ids.new.abcasts u k ≡ cond (is_abcast_named u k (get_or receipts.old.items place r))
        false (has ids.old.abcasts u k) }
{
    let receipt = receipts.remove(place)?;
    ids.remove(receipt);
    Some(receipt.slot)
}

// Where the receipt of the message under a key stands.
fn place_under(receipts: &VecDeque<Receipt>, key: Key) -> Option<usize>
    requires { rises number_of receipts.now.items ≡ true }
    ensures place { result ≡ position (λ r. r.number == key.0) receipts.now.items }
    ensures within { IfSome result (λ i. i < deque_len receipts.now) }
{
    match receipts.binary_search_by_key(&key.0, |receipt| receipt.number) {
        Ok(place) => Some(place),
        Err(_) => None,
    }
}

// Receipts, copied.
fn copy_receipts(receipts: &VecDeque<Receipt>) -> Result<VecDeque<Receipt>, NoMemory>
    ensures { IfOk result (λ copy. copy.items ≡ receipts.now.items) }
{
    let (front, back) = receipts.as_slices();
    let mut copied = Vec::with_capacity(*receipts.allocator(), receipts.len())?;
    copied.extend_from_slice(front)?;
    copied.extend_from_slice(back)?;
    Ok(VecDeque::from_vec(copied))
}
