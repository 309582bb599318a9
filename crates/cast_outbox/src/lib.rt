//! The outboxes of sessions: what was pushed to them and not taken yet, for all domains.
//!
//! # What is proved
//!
//! - An outbox is one list; a push to a full one instead adds that the program is too slow. Other
//!   domains stay, and a refused call changes nothing:
//!   `Outboxes::{new, open, push, take, len, at, close, drop_domain}` (`others`, `err`).
#![tactic(auto)]

mod outbox;
mod outboxes;

pub use outbox::Pushed;
pub use outboxes::Outboxes;
