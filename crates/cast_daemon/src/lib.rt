//! A daemon: the table behind its lock, and the threads that serve it.
//!
//! A `LockedTable` is the `SharedTable` of the threads: it serves by the calls of `cast_pool` and
//! `cast_console` under the lock. A thread that serves an event of a domain takes the lane of the
//! domain first (`Lanes`), so that a tenant with many programs has one place at the lock. A
//! `Trimmer` keeps the trace short. `serve` makes a `LockedTable` and runs the threads. Promised:
//! every call is safe.
//!
//! # What is proved
//!
//! - Behind the lock a job is done with the kept table as `Kept::complete` says. Then the trace may
//!   be trimmed, and nothing else changes: `complete` of `table.rt` (`number`, `done`, `parts`),
//!   `Trimmer::{trim, cut_many, let_go, served}`.
//! - At the end the count of the threads is how many events the table took: `LockedTable::end`.
#![tactic(auto)]

mod daemon;
mod file;
mod lanes;
mod share;
mod table;
mod trimmer;

pub use cast_edge::Folder;
pub use daemon::serve;
pub use file::{check_file, serve_file};
