ghost use Rattle.std.specs.Prelude.{◌≡◌, ◌+◌, ◌<◌, ◌≤◌, ◌^◌, [], ◌∷◌};
ghost use Rattle.std.specs.Prelude.{◌++◌, IfOk, OnOk, length, vec_len};
ghost use Rattle.std.specs.Vec.{vec_capacity};
ghost use Rattle.cast_trail.specs.Notes.{noted_of};
ghost use Rattle.cast_trail.specs.Room.{HasPlace, count_then, is_due, items_then};

use crate::limits::MAX_TRACE;
use cast_events::{Entry, Fault, Noted, Taken};
use cast_types::{DomainNo, List, NoMemory};
use std::alloc::Global;
use std::mem;

/// The last of the events that were taken: those since the trace was trimmed.
#[derive(Drop)]
pub struct Trail {
    pub entries: Vec<Entry>,
    /// How many events were taken before the first of them.
    pub count: u64,
}

/// What a trace keeps of an answer; nothing of an event that was not taken.
pub fn note_of(answer: &Result<Taken, Fault>) -> Option<Noted>
    ensures { result ≡ noted_of answer.now }
{
    match answer {
        Ok(Taken::Nothing) => Some(Noted::Nothing),
        Ok(Taken::Opened(serial)) => Some(Noted::Opened(*serial)),
        Ok(Taken::Refused(refusal)) => Some(Noted::Refused(*refusal)),
        Ok(Taken::Entries(entries)) => Some(Noted::Entries(entries.len())),
        Err(Fault::Halted(domain)) => Some(Noted::Halted(*domain)),
        Err(Fault::NoMemory) | Err(Fault::NoDomain) => None,
    }
}

/// The halted domains, in the room that there is for them. Takes no memory. Where there are none,
/// the room is given back: a trace has many entries.
pub fn fill(room: Vec<DomainNo>, halted: &[DomainNo]) -> List<DomainNo>
    requires empty { room.items ≡ [] }
    requires room { length halted.now ≤ vec_capacity room }
    ensures { result ≡ halted.now }
{
    if halted.is_empty() {
        return List::new(*room.allocator());
    }
    let mut room = room;
    room.extend_from_slice(halted).unwrap();
    List::from_vec(room)
}

impl Trail {
    /// Whether the trace is to be trimmed before one more entry: it has `MAX_TRACE`.
    pub fn is_due(&self) -> bool
        ensures { result ≡ is_due (length self.now.entries.items) }
    {
        self.entries.len() >= MAX_TRACE
    }

    /// Makes room for one more entry, and gives room for the domains that its event halts, at most
    /// so many. `NoMemory` changes nothing that is seen.
    pub fn room(&mut self, alloc: Global, most: usize) -> Result<Vec<DomainNo>, NoMemory>
        ensures place { OnOk result (HasPlace self.new) }
        ensures halted { IfOk result
            (λ halted. (halted.items ≡ []) × (most ≤ vec_capacity halted)) }
        ensures same { (self.new.entries.items ≡ self.old.entries.items)
            × (self.new.count ≡ self.old.count) }
    {
        let halted = Vec::with_capacity(alloc, most)?;
        if !self.is_due() {
            self.entries.reserve(1)?;
        }
        Ok(halted)
    }

    /// Adds an entry, after the trace was trimmed if that is due. Takes no memory.
    pub fn add(&mut self, entry: Entry)
        requires room { HasPlace self.old }
        requires few { self.old.count + length self.old.entries.items < 2 ^ 64 }
        ensures items { self.new.entries.items ≡ items_then self.old.entries.items ++ entry ∷ [] }
        ensures count { self.new.count
            ≡ count_then self.old.count (length self.old.entries.items) }
    {
        self.make_place();
        self.entries.push_reserved(entry);
    }

    // Trims the trace if that is due.
    fn make_place(&mut self)
        requires room { HasPlace self.old }
        requires few { self.old.count + length self.old.entries.items < 2 ^ 64 }
        ensures items { self.new.entries.items ≡ items_then self.old.entries.items }
        ensures count { self.new.count
            ≡ count_then self.old.count (length self.old.entries.items) }
        ensures room { vec_len self.new.entries < vec_capacity self.new.entries }
    {
        if self.is_due() {
            self.trim();
        }
    }

    /// The trace begins anew. Takes no memory.
    pub fn trim(&mut self)
        requires { self.old.count + length self.old.entries.items < 2 ^ 64 }
        ensures items { self.new.entries.items ≡ [] }
        ensures count { self.new.count ≡ self.old.count + length self.old.entries.items }
        ensures room { vec_capacity self.new.entries ≡ vec_capacity self.old.entries }
    {
        self.count += self.entries.len() as u64;
        self.entries.clear();
    }

    /// As `trim`, and hands on the events that the trace had. Its next events go into this room.
    pub fn cut(&mut self, room: Vec<Entry>) -> Vec<Entry>
        requires few { self.old.count + length self.old.entries.items < 2 ^ 64 }
        requires room { room.items ≡ [] }
        ensures entries { result.items ≡ self.old.entries.items }
        ensures items { self.new.entries.items ≡ [] }
        ensures count { self.new.count ≡ self.old.count + length self.old.entries.items }
    {
        self.count += self.entries.len() as u64;
        mem::replace(&mut self.entries, room)
    }
}
