//! The trace: the last of the events that a table took, with their answers.
//!
//! Promised: an entry stands behind those that were added before it. A trim leaves none, and counts
//! them. Adding and trimming take no memory. Nothing is said of what the table is.
#![tactic(auto)]

pub mod limits;
pub mod trail;

pub use limits::MAX_TRACE;
pub use trail::{Trail, fill, note_of};
