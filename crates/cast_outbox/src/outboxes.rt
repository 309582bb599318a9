ghost use Rattle.std.specs.Prelude.{◌≡◌, ◌≢◌, [], None, Some, IfOk, OnOk, OnErr, ◌==◌, ℕ, false};
ghost use Rattle.std.specs.Prelude.{drop, filter, length, map, not, slice_get, take};
ghost use Rattle.std.specs.Option.{option_copied};
ghost use Rattle.std.specs.List.{list_any};
ghost use Rattle.cast_types.specs.declared.names.DomainNo.{DomainNo};
ghost use Rattle.cast_outbox.specs.Pending.{Pending, with_entry, told_at};
ghost use Rattle.cast_outbox.specs.Outboxes.{outboxes_in, changed_at, is_of, key_in, only};
ghost use Rattle.cast_outbox.specs.Outboxes.{pending, slot_named, with_entries, Added};
ghost use Rattle.slab.specs.Slab.{get as slot_at, Updates};

use crate::outbox::{Outbox, Pushed};
use cast_message::Push;
use cast_types::{DomainNo, List, NoMemory};
use indexmap::IndexMap;
use slab::Slab;
use std::alloc::Global;
use std::marker::Model;

/// What the sessions of all domains were pushed and have not taken. Contracts say `outboxes_in` of
/// it, a domain and the serial of a session: the list of the entries that the session has not
/// taken, in the order in which it was pushed them.
#[derive(Drop)]
pub struct Outboxes {
    // The key of each outbox, by its domain and its serial.
    names: IndexMap<(u8, u32), usize>,
    // The outboxes of all domains.
    slots: Slab<Outbox>,
}

impl Model for Outboxes {
    ghost use Rattle.std.specs.Prelude.{List as Items, Option};
    ghost use Rattle.cast_outbox.specs.Pending.{Pending};

    ghost Value = { Items (Option Pending) };

    ghost use Rattle.cast_outbox.specs.Outboxes.{IsNamed};

    ghost view = { λ o. o.slots.slots };

    ghost invariant = { λ o. IsNamed o.names o.slots };
}

impl Outboxes {
    /// Each outbox is empty.
    #[tactic(auto, unfolding(crate::specs::Outboxes::outboxes_in))]
    pub fn new(alloc: Global) -> Self
        ensures { (d : DomainNo) → outboxes_in result d ≡ (λ k. []) }
    {
        Outboxes {
            names: IndexMap::new(alloc),
            slots: Slab::new(alloc),
        }
    }

    /// An equal value.
    pub fn copy(&self) -> Result<Self, NoMemory>
        ensures { IfOk result (λ outboxes. outboxes ≡ self.now) }
    {
        Ok(Outboxes {
            names: copy_names(&self.names)?,
            slots: copy_slots(&self.slots)?,
        })
    }

    /// The session of a serial begins in a domain: its outbox is empty, and what was there is
    /// dropped. `NoMemory` changes nothing.
    pub fn open(&mut self, domain: DomainNo, serial: u32) -> Result<(), NoMemory>
        ensures ok { OnOk result (outboxes_in self.new domain
            ≡ changed_at serial (λ _. []) (outboxes_in self.old domain)) }
        ensures err { OnErr result (self.new ≡ self.old) }
        ensures others { (e : DomainNo) → e ≢ domain
            → outboxes_in self.new e ≡ outboxes_in self.old e }
    {
        match key_of(&self.names, domain, serial) {
            Some(key) => {
                clear_at(&mut self.slots, key);
                Ok(())
            }
            None => open_first(&mut self.names, &mut self.slots, domain, serial),
        }
    }

    /// Adds an entry at the end of an outbox, and tells `Kept`. Where the outbox has `limit`
    /// entries or more, adds in place of the entry the one that the session is closed since its
    /// program is too slow, and tells `Slow`. An outbox that was never opened is an empty one.
    /// `NoMemory` changes nothing.
    pub fn push(
        &mut self,
        domain: DomainNo,
        serial: u32,
        limit: u32,
        entry: Push,
    ) -> Result<Pushed, NoMemory>
        ensures value { IfOk result (λ p. p ≡ told_at limit (outboxes_in self.old domain serial)) }
        ensures ok { OnOk result (outboxes_in self.new domain
            ≡ changed_at serial (with_entry limit entry) (outboxes_in self.old domain)) }
        ensures err { OnErr result (self.new ≡ self.old) }
        ensures others { (e : DomainNo) → e ≢ domain
            → outboxes_in self.new e ≡ outboxes_in self.old e }
    {
        match key_of(&self.names, domain, serial) {
            Some(key) => push_at(&mut self.slots, key, limit, entry),
            None => push_first(
                &mut self.names,
                &mut self.slots,
                domain,
                serial,
                limit,
                entry,
            ),
        }
    }

    /// Gives the first entries of an outbox, at most `most`, in their order, and removes them.
    /// `NoMemory`: the answer was refused memory; nothing is removed.
    pub fn take(&mut self, domain: DomainNo, serial: u32, most: u32) -> Result<List<Push>, NoMemory>
        ensures value { IfOk result
            (λ taken. taken ≡ take most (outboxes_in self.old domain serial)) }
        ensures ok { OnOk result (outboxes_in self.new domain
            ≡ changed_at serial (drop most) (outboxes_in self.old domain)) }
        ensures err { OnErr result (self.new ≡ self.old) }
        ensures others { (e : DomainNo) → e ≢ domain
            → outboxes_in self.new e ≡ outboxes_in self.old e }
    {
        match key_of(&self.names, domain, serial) {
            Some(key) => take_at(&mut self.slots, key, most),
            None => Ok(List::new(*self.names.allocator())),
        }
    }

    /// How many entries an outbox has. Takes no memory.
    pub fn len(&self, domain: DomainNo, serial: u32) -> usize
        ensures { result ≡ length (outboxes_in self.now domain serial) }
    {
        match outbox_of(&self.names, &self.slots, domain, serial) {
            Some(outbox) => outbox.len(),
            None => 0,
        }
    }

    /// The entry of a place in an outbox, counted from 0; `None` where it has no more than `place`
    /// entries. Takes no memory.
    pub fn at(&self, domain: DomainNo, serial: u32, place: usize) -> Option<&Push>
        ensures { option_copied result ≡ slice_get (outboxes_in self.now domain serial) place }
    {
        match outbox_of(&self.names, &self.slots, domain, serial) {
            Some(outbox) => outbox.at(place),
            None => None,
        }
    }

    /// The session of a serial is over: its outbox is dropped, and its memory with it. Takes no
    /// memory.
    pub fn close(&mut self, domain: DomainNo, serial: u32)
        ensures own { outboxes_in self.new domain
            ≡ changed_at serial (λ _. []) (outboxes_in self.old domain) }
        ensures gone { list_any (is_of domain serial) self.new ≡ false }
        ensures others { (e : DomainNo) → e ≢ domain
            → outboxes_in self.new e ≡ outboxes_in self.old e }
    {
        if let Some(key) = self.names.swap_remove(&(domain.0, serial)) {
            drop_at(&mut self.slots, key);
        }
    }

    /// All sessions of a domain are over: their outboxes are dropped. Takes no memory.
    pub fn drop_domain(&mut self, domain: DomainNo)
        ensures own { outboxes_in self.new domain ≡ (λ k. []) }
        ensures gone { (k : ℕ) → list_any (is_of domain k) self.new ≡ false }
        ensures others { (e : DomainNo) → e ≢ domain
            → outboxes_in self.new e ≡ outboxes_in self.old e }
    {
        drop_names(&mut self.names, domain);
        drop_slots(&mut self.slots, domain);
    }
}

// The key of an outbox.
fn key_of(names: &IndexMap<(u8, u32), usize>, domain: DomainNo, serial: u32) -> Option<usize>
    ensures { result ≡ key_in names.now (domain.0, serial) }
{
    names.get(&(domain.0, serial)).copied()
}

// An outbox, by its key.
fn outbox_of<'a>(
    names: &IndexMap<(u8, u32), usize>,
    slots: &'a Slab<Outbox>,
    domain: DomainNo,
    serial: u32,
) -> Option<&'a Outbox>
    ensures { option_copied result ≡ slot_named names.now slots.now (domain.0, serial) }
{
    match key_of(names, domain, serial) {
        Some(key) => slots.get(key),
        None => None,
    }
}

// Opens an outbox under a name that has none. `NoMemory` changes nothing.
fn open_first(
    names: &mut IndexMap<(u8, u32), usize>,
    slots: &mut Slab<Outbox>,
    domain: DomainNo,
    serial: u32,
) -> Result<(), NoMemory>
    ensures ok { OnOk result
        (Added (pending domain serial []) names.old names.new slots.old slots.new) }
    ensures names_stay { OnErr result (names.new.entries ≡ names.old.entries) }
    ensures slots_stay { OnErr result (slots.new.slots ≡ slots.old.slots) }
{
    let outbox = Outbox::new(*names.allocator(), domain, serial);
    add(names, slots, domain, serial, outbox)
}

// Adds the first entry under a name that has no outbox. `NoMemory` changes nothing.
fn push_first(
    names: &mut IndexMap<(u8, u32), usize>,
    slots: &mut Slab<Outbox>,
    domain: DomainNo,
    serial: u32,
    limit: u32,
    entry: Push,
) -> Result<Pushed, NoMemory>
    ensures value { IfOk result (λ p. p ≡ told_at limit []) }
    ensures ok { OnOk result (Added (pending domain serial (with_entry limit entry []))
        names.old names.new slots.old slots.new) }
    ensures names_stay { OnErr result (names.new.entries ≡ names.old.entries) }
    ensures slots_stay { OnErr result (slots.new.slots ≡ slots.old.slots) }
{
    let mut outbox = Outbox::new(*names.allocator(), domain, serial);
    let pushed = outbox.push(limit, entry)?;
    add(names, slots, domain, serial, outbox)?;
    Ok(pushed)
}

// Adds an outbox under a name that has none. `NoMemory` changes nothing.
fn add(
    names: &mut IndexMap<(u8, u32), usize>,
    slots: &mut Slab<Outbox>,
    domain: DomainNo,
    serial: u32,
    outbox: Outbox,
) -> Result<(), NoMemory>
    requires its { outbox.domain ≡ domain.0 }
    requires own { outbox.serial ≡ serial }
    ensures ok { OnOk result (Added outbox names.old names.new slots.old slots.new) }
    ensures names_stay { OnErr result (names.new.entries ≡ names.old.entries) }
    ensures slots_stay { OnErr result (slots.new.slots ≡ slots.old.slots) }
{
    slots.reserve(1)?;
    names.insert((domain.0, serial), slots.vacant_key())?;
    slots.insert_reserved(outbox);
    Ok(())
}

// Empties the outbox of a key.
fn clear_at(slots: &mut Slab<Outbox>, key: usize)
    ensures { (x : Pending) → slot_at slots.old key ≡ Some x
        → Updates slots.old slots.new key (Some (with_entries (λ _. []) x)) }
{
    if let Some(outbox) = slots.get_mut(key) {
        outbox.clear();
    }
}

// Adds an entry to the outbox of a key. `NoMemory` changes nothing.
fn push_at(
    slots: &mut Slab<Outbox>,
    key: usize,
    limit: u32,
    entry: Push,
) -> Result<Pushed, NoMemory>
    ensures value { IfOk result
        (λ p. (x : Pending) → slot_at slots.old key ≡ Some x → p ≡ told_at limit x.entries) }
    ensures ok { OnOk result ((x : Pending) → slot_at slots.old key ≡ Some x
        → Updates slots.old slots.new key (Some (with_entries (with_entry limit entry) x))) }
    ensures err { OnErr result (slots.new.slots ≡ slots.old.slots) }
{
    match slots.get_mut(key) {
        Some(outbox) => outbox.push(limit, entry),
        None => Ok(Pushed::Kept),
    }
}

// Takes the first entries out of the outbox of a key. `NoMemory` changes nothing.
fn take_at(slots: &mut Slab<Outbox>, key: usize, most: u32) -> Result<List<Push>, NoMemory>
    ensures value { IfOk result
        (λ taken. (x : Pending) → slot_at slots.old key ≡ Some x → taken ≡ take most x.entries) }
    ensures ok { OnOk result ((x : Pending) → slot_at slots.old key ≡ Some x
        → Updates slots.old slots.new key (Some (with_entries (drop most) x))) }
    ensures err { OnErr result (slots.new.slots ≡ slots.old.slots) }
{
    match slots.get_mut(key) {
        Some(outbox) => outbox.take(most),
        None => Err(std::alloc::AllocError),
    }
}

// Drops the outbox of a key.
fn drop_at(slots: &mut Slab<Outbox>, key: usize)
    ensures { Updates slots.old slots.new key None }
{
    slots.try_remove(key);
}

// Keeps the names of other domains.
fn drop_names(names: &mut IndexMap<(u8, u32), usize>, domain: DomainNo)
    ensures { names.new.entries ≡ filter (λ e. not (e.0.0 == domain.0)) names.old.entries }
{
    names.retain(|name, _| name.0 != domain.0);
}

// Keeps the outboxes of other domains.
fn drop_slots(slots: &mut Slab<Outbox>, domain: DomainNo)
    ensures { slots.new.slots ≡ map (only (λ x. not (x.domain == domain.0))) slots.old.slots }
{
    slots.retain(|_, outbox| !outbox.is_in(domain));
}

// The keys of the outboxes, copied.
fn copy_names(names: &IndexMap<(u8, u32), usize>) -> Result<IndexMap<(u8, u32), usize>, NoMemory>
    ensures { IfOk result (λ copy. copy.entries ≡ names.now.entries) }
{
    names.clone()
}

// The outboxes, copied: each has the key that it had.
fn copy_slots(slots: &Slab<Outbox>) -> Result<Slab<Outbox>, NoMemory>
    ensures { IfOk result (λ copy. copy.slots ≡ slots.now.slots) }
{
    slots.clone()
}
