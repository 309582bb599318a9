//! The table that workers share under a lock, the trace of its events, and the workers.
//!
//! Not promised: who gets the lock first, that a job or an answer arrives.
//!
//! # What is proved
//!
//! - `Kept`: [promise 3](../../../docs/PROOFS.md#3-one-tenant-one-lock). A served event is applied,
//!   ends the trace and counts once; a trace of 4,096 events is trimmed first. Showing a domain, an
//!   event of no domain, no memory to begin with, and no number left change nothing:
//!   `Kept::serve_one` (`number`, `done`, `parts`).
//! - A trim empties the trace, counts its events and takes no memory: `Kept::trim`. `Kept::cut`
//!   does so too, and hands on the events of the trace in their order (`trimmed`, `entries`).
//!   `Kept::let_go` trims exactly where a job halted a domain; after a job, and only if that may
//!   be: `Kept::complete`, `work`. Shares add up: `Worked::{split, join}`. A datagram is decoded to
//!   its frame or fault: `decode`; what a job is can be read: `Job::{number, task}`.
//! - For each `Raw` taken, `work` sends one `Done`, in order, with its number and what came of it,
//!   until no more can come (`answered`, `over`). It has the table as a `Service` alone, so it
//!   changes no trace besides.
//! - Only module `kept` can make a `Job` or `Done` or change a `Kept`: their fields are private and
//!   none is `Clone`. `tools/sealed`, which `./check` runs, sees the compiler refuse code that
//!   does.
#![tactic(auto)]

pub mod configured;
pub mod kept;
pub mod post;
pub mod task;
pub mod worker;

pub use cast_events::{Asked, Entry, Noted, Raw};
pub use configured::can_keep;
pub use kept::{Done, Job, Kept, Worked, decode};
pub use post::{Channels, Post, hand_on};
pub use task::{Outcome, Task};
pub use worker::{Service, work};
