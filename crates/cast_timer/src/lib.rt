//! The frames that each domain owes to other sites, and when each is sent again.
//!
//! One map holds the frames of all domains by their moments. A frame is paid alone, with those of
//! lower counts, or with all of a view that ended. A refused `renew_due` may have moved some
//! frames. Moments are milliseconds, at most 2^62 + 60,000 in use.
//!
//! # What is proved
//!
//! - Owed frames are one list by due moment and key, no key twice. Each call is exact and leaves
//!   other domains alone; a refused `owe` changes nothing: `Timers` (`others`, `err`);
//!   `laws::owed_until_paid`.
#![tactic(auto)]

mod frames;
mod key;
pub mod laws;
mod moments;
mod timers;

pub use key::{Owed, OwedKey, OwedKind, Side};
pub use timers::Timers;
