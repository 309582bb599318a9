//! What the threads of a daemon share.
//!
//! `Shared` is handed to each thread. A `SharedTable` is the table behind its lock: threads know it
//! by these calls alone. A `Desk` knows which programs are served, and which sessions are still to
//! end. A `Pace` lets the programs of a domain run only so far ahead, by its `Speed`. A `Tape` has
//! the events that are to be recorded. A thread needs a `Udp` to send datagrams. Promised: every
//! call is safe.
#![tactic(auto)]

mod desk;
mod pace;
mod record;
mod shared;
mod table;
mod udp;

pub use desk::{Desk, Opened, Opening, Purpose};
pub use pace::{Pace, Patience, Wakings, Wanted};
pub use record::{CUT, Record, Tape, run_recorder};
pub use shared::{Shared, Traffic, Turnstile};
pub use table::{Came, Instruction, Reply, Served, SharedTable};
pub use udp::Udp;
