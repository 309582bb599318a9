//! What goes to the wire, and when: machines of plain values, with no lock, socket or clock. The
//! moment is handed in.
//!
//! # What is proved
//!
//! - A Stable tells that all sites of a view have the messages of a process up to a count. One that
//!   waits gives way only to one that tells all that it tells, to the same site. What is no Stable
//!   goes on, in order; what is taken is all that waits; and where memory is short, as many frames
//!   are missing as it says: `Stables::{hold, join, take}`.
//! - Over any list of these calls in which nothing is lost, each Stable that came is covered by one
//!   that went then or later, or waits; each other frame went on once, in order; and nothing goes
//!   that did not come, nor more often: `laws::what_comes_goes_on` (`covered`, `others`,
//!   `made_up`).
//! - A frame that is no message always passes, and so does one for a site that is not silent. What
//!   passes keeps its order, and only messages for silent sites are left out:
//!   `Silences::{tick, end, pass}` (`passed`, `silent`).
//! - Over all that happens to a site, it is silent once it has acknowledged nothing for 50 ticks
//!   since it was sent the first message behind its last acknowledgement. From one tick to the next
//!   a silent site is sent the first two messages, and no more:
//!   `laws::silent_sites_are_sent_few`.
//! - The mean time of acknowledgements and their mean deviation are those of RFC 6298, in eighths
//!   and quarters of a tick, with what is taken off rounded up to whole ticks:
//!   `RoundTrip::{note, late}`. The least time is that of the span so far and the one before:
//!   `Least::note`.
//! - Each frame that is to be sent again is for the domain and the site of the `Flight`, and has a
//!   message that is remembered. A message may go again three times once it is noted, and each time
//!   it goes it may go once less. It counts anew once the site enters its view, since before it may
//!   have come too soon. None is remembered more often than it was, at most 1,024 are, and
//!   as many that came too soon. An acknowledgement takes one of its id out before any is sent
//!   again, and a tick sends eight at most: `Flight::{note, enter, acknowledge, tick}`.
//! - A message that the rules send, and of which nothing is known, goes to the wire. One that is
//!   known goes once the rules sent it `2^n` times since it went last, and `2^n` times the ticks
//!   went by after which it is late. Each time it goes again, `n` grows by one, up to three. The
//!   eighth time it goes in any case. What is known of other messages stays. At most 4,096 are
//!   known: with one more, all before are forgotten. One that finds no memory stays unknown:
//!   `Dues::{note, forget, clear, is_due}`.
//! - Over any list of these calls, what is known of a message is when it went to the wire last, and
//!   how often the rules sent it in vain since then. Of eight times in a row that they send it, it
//!   goes once at least: `laws::none_is_held_back_for_ever` (`known`, `seven`).
//! - What an event tells of a site is the view of the group that its frame is about, and the
//!   message that it acknowledges: `heard_in`.
//! - The acknowledgements among the frames of an event are to wait, but for those of messages that
//!   it delivered: `WaitingAcks::hold` (`ok`, `err`). One waits until its message is delivered.
//!   Then it goes, or is counted as lost for want of memory. Until then no frame goes that
//!   acknowledges the message: `WaitingAcks::pass` (`passed`, `rest`). Only the earliest is ever
//!   forgotten, and only where 4,096 wait.
#![tactic(auto)]

mod acks;
mod dues;
mod flight;
mod frames;
mod heard;
pub mod laws;
mod round_trip;
mod sent;
mod silence;
mod stables;

pub use acks::WaitingAcks;
pub use flight::Flight;
pub use heard::{Heard, heard_in};
pub use round_trip::{Least, RoundTrip, Took};
pub use silence::Silences;
pub use stables::Stables;
