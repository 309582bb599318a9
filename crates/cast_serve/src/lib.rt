//! The running daemon: its threads, from their start to their end, and the console.
//!
//! Acceptors let programs in, the ticker tells the domains the time, and workers serve ticks and
//! the begin and end of sessions. Promised: every call is safe.
#![tactic(auto)]

mod console;
mod daemon;
mod keys;

pub use daemon::serve;
