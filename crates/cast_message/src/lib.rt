//! Messages, frames and commands as values. A copy is an equal value.
//!
//! # What is proved
//!
//! - Invariants: a `Payload` has at most 16,384 bytes; members of a `Membership` rise, the holder
//!   among them; a `Tail` has at most 576 ids; a `Placement` at most 64, and none only where it
//!   hands the token over; `KeptIds` rise and are at most 2,048.
#![tactic(auto)]

pub mod client;
pub mod kept_ids;
pub mod membership;
pub mod message;
pub mod payload;
pub mod placement;
pub mod site;

pub use client::{CastKind, ClientFrame, Command, MAX_CAST, Push, Request};
pub use kept_ids::KeptIds;
pub use membership::{Membership, Tail};
pub use message::{Body, Message, Received};
pub use payload::Payload;
pub use placement::Placement;
pub use site::{Change, SiteFrame};
