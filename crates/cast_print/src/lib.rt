//! The texts that are written: the log of a daemon, and scripts.
//!
//! A log is what a daemon answered, pushed and sent. A script is a configuration, and what happens
//! to a daemon that has it.
//!
//! # What is proved
//!
//! - The printed text is the log's: `print`.
//! - Lines of a script are added as defined, or none: `add_head`, `add_event` (`ok`, `err`). A
//!   printed script (`print_script`) is read back as it was; what is read can be printed, also in
//!   parts: `laws::{printed_is_read, read_is_printable, parts_join}`.
#![tactic(auto)]

mod event;
mod head;
pub mod laws;
mod log;
mod script;

pub use event::add_event;
pub use head::add_head;
pub use log::print;
pub use script::print_script;
