//! Records: which of their lines are replayed.
//!
//! A record is a script in files. A part of it has the configuration of the first file and the
//! first events, up to a number of them, and none past a place where events are missing; of one
//! domain, or of all.
//!
//! # What is proved
//!
//! - What is joined of files is exactly the part of their lines: `Joined::new`, `Joined::add_file`
//!   (`lines`).
//! - In other words, parts are the whole record, the beginning of a longer part, or what a domain
//!   has apart from others: `laws`.
#![tactic(auto)]

mod joined;
pub mod laws;
mod line;

pub use joined::{Joined, Part, Progress};
