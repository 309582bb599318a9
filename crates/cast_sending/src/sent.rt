//! A message that was sent, and how often it may be sent again.
ghost use Rattle.std.specs.Prelude.{◌≤◌};

use cast_message::Message;
use std::time::Instant;

// So often it is sent again at most. Then it is left to the rules.
pub(crate) const REPEATS: u32 = 3;

// A message that was sent.
#[derive(Drop)]
pub(crate) struct Sent {
    pub(crate) message: Message,
    // When it was sent first. None if it may have come too soon: then its acknowledgement says
    // nothing of the way.
    pub(crate) first: Option<u64>,
    // When it was sent last.
    pub(crate) tick: u64,
    // When it was sent first, on the clock. None if that is not wanted.
    pub(crate) time: Option<Instant>,
    // How many of those that were sent later were acknowledged.
    pub(crate) later: u32,
    // How often it may be sent again.
    pub(crate) left: u32,
    ghost few: { left ≤ 3 },
}
