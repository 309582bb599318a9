//! An event in a trace.

use crate::event::Event;
use cast_types::{DomainNo, List, Refusal};

/// What an event was answered, as a trace keeps it.
#[derive(Clone, Copy, Debug, PartialEq, Eq)]
pub enum Noted {
    Nothing,
    /// The serial of the new session.
    Opened(u32),
    Refused(Refusal),
    /// How many entries were taken.
    Entries(usize),
    /// The step of this domain found no memory; of a tick, the least number of those that it
    /// halted.
    Halted(DomainNo),
}

/// An event of a trace.
#[derive(Drop)]
pub struct Entry {
    pub event: Event,
    pub answer: Noted,
    /// The domains that the event halted, in the order of their numbers.
    pub halted: List<DomainNo>,
}
