//! What a daemon tells of itself beside its table.

/// How many datagrams a daemon sent and received.
#[derive(Clone, Copy, Debug, PartialEq, Eq)]
pub struct Datagrams {
    pub sent: u64,
    /// Those that came, whether they could be read or not.
    pub received: u64,
    /// Those that the system refused to send, or that found no memory.
    pub lost: u64,
    /// Those that came and are no frame, or found no memory.
    pub undecoded: u64,
}

/// How far the record of a daemon is.
#[derive(Clone, Copy, Debug, PartialEq, Eq)]
pub enum Recording {
    /// Nothing is recorded.
    Off,
    /// So many bytes wait to be written or still have their memory, and so many events were lost.
    Running { waiting: u64, lost: u64 },
    /// A write failed, and nothing more is written.
    Ended,
}

/// What a daemon tells of itself beside its table.
#[derive(Clone, Copy, Debug, PartialEq, Eq)]
pub struct Told {
    pub datagrams: Datagrams,
    pub record: Recording,
}
