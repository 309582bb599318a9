ghost use Rattle.std.specs.Prelude.{◌≡◌, ◌≤◌, ◌==◌, ◌++◌, [], IfOk, OnOk};
ghost use Rattle.std.specs.Prelude.{OnErr, length, slice_get, take, drop};
ghost use Rattle.std.specs.Option.{option_copied};
ghost use Rattle.std.specs.VecDeque.{deque_len, deque_capacity};
ghost use Rattle.cast_outbox.specs.Pending.{with_entry, told_at};

use cast_message::Push;
use cast_types::{DomainNo, List, NoMemory, Refusal};
use std::alloc::Global;
use std::collections::VecDeque;
use std::marker::Model;

/// What became of an entry that was pushed.
#[derive(Clone, Copy, Debug, PartialEq, Eq)]
pub enum Pushed {
    /// It was added.
    Kept,
    /// The outbox was full: in its place stands `Push::Closed` for the reason that the program was
    /// too slow.
    Slow,
}

/// What the session of a serial in a domain was pushed and has not taken, in order.
#[derive(Drop)]
pub(crate) struct Outbox {
    domain: u8,
    serial: u32,
    entries: VecDeque<Push>,
}

impl Model for Outbox {
    ghost use Rattle.cast_outbox.specs.Pending.{Pending};

    ghost Value = { Pending };

    ghost view = { λ o. record {
      domain = o.domain;
      serial = o.serial;
      entries = o.entries.items;
    } };
}

impl Clone for Outbox {
    ghost use Rattle.std.specs.Prelude.{◌≡◌};

    ghost is_clone = { λ x y. y ≡ x };

    fn clone(&self) -> Result<Self, NoMemory> {
        self.copy()
    }
}

impl Outbox {
    /// No entries.
    pub(crate) fn new(alloc: Global, domain: DomainNo, serial: u32) -> Self
        ensures { result ≡ record { domain = domain.0; serial = serial; entries = [] } }
    {
        Outbox {
            domain: domain.0,
            serial,
            entries: VecDeque::new(alloc),
        }
    }

    /// An equal value.
    pub(crate) fn copy(&self) -> Result<Self, NoMemory>
        ensures { IfOk result (λ outbox. outbox ≡ self.now) }
    {
        Ok(Outbox {
            domain: self.domain,
            serial: self.serial,
            entries: copy_entries(&self.entries)?,
        })
    }

    /// Whether it is one of a domain's.
    pub(crate) fn is_in(&self, domain: DomainNo) -> bool
        ensures { result ≡ (self.now.domain == domain.0) }
    {
        self.domain == domain.0
    }

    /// Lets go of all entries.
    pub(crate) fn clear(&mut self)
        ensures { self.new ≡ record self.old { entries = [] } }
    {
        self.entries.clear();
    }

    /// Adds an entry at the end, or where as many as the limit stand there, the end of the session
    /// in its place. `NoMemory` changes nothing.
    pub(crate) fn push(&mut self, limit: u32, entry: Push) -> Result<Pushed, NoMemory>
        ensures value { IfOk result (λ p. p ≡ told_at limit self.old.entries) }
        ensures ok { OnOk result
            (self.new ≡ record self.old { entries = with_entry limit entry self.old.entries }) }
        ensures err { OnErr result (self.new ≡ self.old) }
    {
        if limit as usize <= self.entries.len() {
            self.entries.push_back(Push::Closed(Refusal::Slow))?;
            Ok(Pushed::Slow)
        } else {
            self.entries.push_back(entry)?;
            Ok(Pushed::Kept)
        }
    }

    /// Takes out the first entries, at most so many. `NoMemory` changes nothing.
    pub(crate) fn take(&mut self, most: u32) -> Result<List<Push>, NoMemory>
        ensures value { IfOk result (λ taken. taken ≡ take most self.old.entries) }
        ensures ok { OnOk result
            (self.new ≡ record self.old { entries = drop most self.old.entries }) }
        ensures err { OnErr result (self.new ≡ self.old) }
    {
        let taken = take_first(&mut self.entries, most as usize)?;
        Ok(List::from_vec(taken.into_vec()))
    }

    /// How many entries there are.
    pub(crate) fn len(&self) -> usize
        ensures { result ≡ length self.now.entries }
    {
        self.entries.len()
    }

    /// The entry of a place, counted from 0.
    pub(crate) fn at(&self, place: usize) -> Option<&Push>
        ensures { option_copied result ≡ slice_get self.now.entries place }
    {
        self.entries.get(place)
    }
}

// Takes out the first entries, at most so many: room is made for them first. `NoMemory` changes
// nothing.
fn take_first(entries: &mut VecDeque<Push>, most: usize) -> Result<VecDeque<Push>, NoMemory>
    ensures value { IfOk result (λ taken. taken.items ≡ take most entries.old.items) }
    ensures ok { OnOk result (entries.new.items ≡ drop most entries.old.items) }
    ensures err { OnErr result (entries.new.items ≡ entries.old.items) }
{
    let count = most.min(entries.len());
    let mut taken = VecDeque::with_capacity(*entries.allocator(), count)?;
    move_first(entries, &mut taken, count);
    Ok(taken)
}

// Moves the first entries into an empty queue that has room for them.
fn move_first(from: &mut VecDeque<Push>, into: &mut VecDeque<Push>, count: usize)
    requires many { count ≤ deque_len from.old }
    requires room { count ≤ deque_capacity into.old }
    requires none { into.old.items ≡ [] }
    ensures moved { into.new.items ≡ take count from.old.items }
    ensures left { from.new.items ≡ drop count from.old.items }
{
    for _ in 0..count {
        if let Some(entry) = from.pop_front() {
            into.push_back_reserved(entry);
        }
    }
}

// Entries, copied.
fn copy_entries(entries: &VecDeque<Push>) -> Result<VecDeque<Push>, NoMemory>
    ensures { IfOk result (λ copy. copy.items ≡ entries.now.items) }
{
    let mut copied = Vec::with_capacity(*entries.allocator(), entries.len())?;
    let (front, back) = entries.as_slices();
    add_copies(&mut copied, front)?;
    add_copies(&mut copied, back)?;
    Ok(VecDeque::from_vec(copied))
}

// Adds equal entries.
fn add_copies(copied: &mut Vec<Push>, entries: &[Push]) -> Result<(), NoMemory>
    ensures { OnOk result (copied.new.items ≡ copied.old.items ++ entries.now) }
{
    for entry in entries {
        copied.push(entry.copy()?)?;
    }
    Ok(())
}
