//! The parts of the running daemon that need no table.
//!
//! A `Client` is a program that is served, with its pen; an `Outlet` gives it bytes.
//! `Unacknowledged` remembers what another site was sent, and answers what is to be sent again.
//! `Acknowledgements` are those that wait for the delivery of their messages. `Endings` are the
//! sessions that are not gone. A `Report` is what the operator has to know, and a `Count` how
//! often. A `Folder` holds a record.
//! Promised: every call is safe.
//!
//! # What is proved
//!
//! - A number is reported exactly where a power of ten is reached or passed since the last report:
//!   `Count` (`due`, `not_due`, `new`).
//! - Once the program of a session is gone, the session's Gone is to be handed in or is on the way,
//!   until the session is gone. While it is on the way, it is not handed in again:
//!   `laws::sessions_end` (`kept`, `once`), of `Endings`, whose calls are exact.
#![tactic(auto)]

mod acknowledgements;
mod client;
mod count;
mod endings;
mod folder;
pub mod laws;
mod output;
mod report;
mod unacknowledged;

pub use acknowledgements::Acknowledgements;
pub use client::{Client, Session};
pub use count::Count;
pub use endings::{End, Ending, Endings};
pub use folder::Folder;
pub use output::{Incoming, Outlet};
pub use report::{Report, report_last, run_reporter};
pub use unacknowledged::Unacknowledged;
