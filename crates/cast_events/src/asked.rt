//! What is asked of a daemon's table.

use crate::event::Event;
use bytes::Bytes;
use cast_types::DomainNo;

/// What a worker is asked.
#[derive(Drop)]
pub enum Asked {
    /// To take in the frame that these bytes are, which came from another site.
    Datagram(Bytes),
    /// To take in an event.
    Event(Event),
    /// To show what a domain keeps and has done.
    Show(DomainNo),
}

/// What comes to a worker.
#[derive(Drop)]
pub struct Raw {
    /// Any number. What comes of it bears the same.
    pub number: u64,
    pub asked: Asked,
}
