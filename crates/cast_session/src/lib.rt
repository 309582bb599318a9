//! The byte streams between a daemon and its programs, seen from both ends.
//!
//! Only tested: each whole frame that was read is handed on before more is read, and no call of a
//! writer by `pump_out` gets bytes of two frames.
//!
//! # What is proved
//!
//! - Commands are handed on as read, however bytes are cut, with `Bad` last at a fault: `pump_in`,
//!   `pump_on` (`pumped`); `laws::commands_stay`.
//! - Pushes and commands go out as spelled, or a beginning: `pump_out`, `write_command`
//!   (`written`); for one write they are spelled one behind the other, or nothing is left to write:
//!   `spell_out` (`ok`, `err`). The first push is read, no byte after it: `read_push` (`read`).
//! - A writer's fault is answered exactly where a call failed, took no byte, or 2^32 in a row were
//!   interrupted; that of `pump_on` where a call failed; another reader's where one failed, else
//!   only at the last of 2^32 (`failed`, `fault`).
#![tactic(auto)]

mod ahead;
mod client;
mod frames;
mod incoming;
pub mod laws;
mod outgoing;
mod sink;

pub use cast_device::{PATIENCE, Watched};
pub use client::{PushFault, read_push, write_command};
pub use incoming::{InEnd, pump_in, pump_on};
pub use outgoing::{OutFault, pump_out, spell_out};
pub use sink::Sink;
