//! The rules of the protocol, over the whole history of one domain at one site.
//!
//! A history keeps all messages that were received, and all that each process delivered. What may
//! be delivered, kept, sent and answered is decided by membership of named ids. Nothing here runs.
//!
//! # What is proved
//!
//! - The rest ends, from any state and in one state: `laws::{rest_ends, deliveries_end}`. Then
//!   nothing is left to be done, in words and computed: `laws::rest_is_quiet` (`quiet`, `stays`,
//!   `computed`).
//! - In a domain of at most 32 groups a member's count can be raised, unless it is the last number:
//!   `laws::counts_can_be_raised`.
//! - What a history notes of a process is what it did: `laws::acts_are_noted`. Not that it sent all
//!   that was received under its name: a home that forges can forward more as a view ends.
//! - A refused event changes nothing; a refused request leads to its reply alone, with what a full
//!   outbox makes of that: `laws::refused_leaves`. The same events lead to the same outcome:
//!   `laws::runs_are_one`.
#![tactic(auto)]

pub mod laws;
