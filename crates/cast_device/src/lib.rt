//! Readers and writers that note the failures of their calls.
//!
//! # What is proved
//!
//! - Notes of a device's calls are exact: `Watched` (`failed`, `calls`, `interrupted`, `passed`);
//!   only `begin` clears them.
//! - A text is written whole, or a beginning where the writer fails: `write_whole`, `tell`. A
//!   writer's fault is answered exactly where a call failed, took no byte, or 2^32 in a row were
//!   interrupted: `write_whole` (`failed`).
#![tactic(auto)]

mod watched;
mod whole;

pub use watched::{PATIENCE, Watched};
pub use whole::{WriteFault, tell, write_whole};
