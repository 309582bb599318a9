//! Whole replays: a list of events applied to a daemon that has just started.
//!
//! # What is proved
//!
//! - `replay` (`replayed`): [promise
//!   4](../../../docs/PROOFS.md#4-isolation-and-causal-delivery-the-headline); a domain halts at an
//!   event of its own alone. Each event has one answer, "no domain" exactly where none is
//!   configured (`all`, `no_domain`).
//! - In two replays that have the same configuration and the same events for a domain, and halt it
//!   in neither, the domain answers, sends and pushes the same: `laws::own_events_decide`.
#![tactic(auto)]

pub mod laws;
pub mod replays;
mod watch;

pub use cast_events::{Config, DomainConfig, Event, Fault, Given, Log, Quotas, Taken};
pub use replays::{replay, replay_watched};
pub use watch::{Unwatched, Watch};
