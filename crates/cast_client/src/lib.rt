//! The bytes of the frames between a program and its daemon.
//!
//! # What is proved
//!
//! - The front of a stream is decoded exactly: a frame and its length, how many bytes are missing,
//!   or the first fault: `decode_client` (`found`, `only`, `more`, `exact`).
//! - A frame whose numbers are in range has one spelling, of 5 to 20,000 bytes: `encode_request`,
//!   `encode_push`, `encode_client`, and `add_push` behind other bytes; `laws::client_fits`.
//! - It is read back whatever follows; no spelling begins another; a part asks for the rest; more
//!   bytes change neither a frame nor a fault:
//!   `laws::{client_is_read, client_spellings_differ, part_wants_the_rest, more_comes}`.
#![tactic(auto)]

pub mod front;
pub mod laws;
mod reading;
mod writing;

pub use front::ClientRead;
pub use reading::decode_client;
pub use writing::{add_push, encode_client, encode_push, encode_request};
