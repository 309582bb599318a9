//! Sums of messages under keys, and datagrams behind such sums.
//!
//! # What is proved
//!
//! - The sum of a message under a key is HMAC with SHA-256, as RFC 2104 and FIPS 198-1 define it:
//!   `Key::new`, `Key::sum`.
//! - That under a key that is used for no other message is Poly1305, as RFC 8439 defines it:
//!   `one_time_sum`.
//! - A datagram is sealed as the definition says: `seal`. What is opened is the body of a datagram
//!   that a listed key seals, from that site to this one, and each such datagram is opened: `open`.
#![tactic(auto)]

mod key;
mod poly;
mod sealing;

pub use key::Key;
pub use poly::one_time_sum;
pub use sealing::{SEAL_LEN, SealKey, open, seal};
