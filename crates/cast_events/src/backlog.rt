use cast_types::Key;

/// How far a domain is behind with the messages that it keeps. Its keys rise by one with each
/// message that it receives.
#[derive(Clone, Copy, Debug, PartialEq, Eq)]
pub struct Backlog {
    /// The quota of kept messages, 1 to 1,024.
    pub limit: u32,
    /// The key of the message that was received first of those that are kept. `None` where none is
    /// kept.
    pub oldest: Option<Key>,
    /// The key of the message that is received next.
    pub next: Key,
}
