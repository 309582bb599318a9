//! The bytes of the frames between sites. A frame whose message hands over the token has version 2,
//! every other frame version 1.
//!
//! # What is proved
//!
//! - Bytes are decoded exactly where they spell a frame, else to the first fault: `decode_site`
//!   (`found`, `only`, `exact`). A frame has one spelling: `encode_site`.
//! - A frame whose numbers are in range is read back from its spelling, shares it with no other,
//!   and has at most 60,000 bytes: `laws::{spelled_is_read, spellings_differ, spelled_fits}`.
#![tactic(auto)]

mod header;
pub mod laws;
mod reading;
mod writing;

pub use cast_field::FrameFault;
pub use reading::decode_site;
pub use writing::encode_site;
