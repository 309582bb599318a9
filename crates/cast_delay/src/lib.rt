//! The delay queue: which received message a process may deliver next.
//!
//! Whether a process may deliver a message is the rule of `cast_ready`. An ABCAST also waits for
//! its turn, which each question supplies (`Turn`). The rule speaks of the ids that a process
//! delivered; the queue keeps counts. If a call that changes the queue is refused memory, the queue
//! is of no further use.
//!
//! # What is proved
//!
//! - `Delay::next_ready` (`meaning`): the first message in order of receipt that is ready for a
//!   process, and none only where there is none; `laws::queue_means_the_rule`.
//! - Readiness is the delivery rule in words: `laws::readiness_is_the_rule_in_words`.
//! - Nothing is ready, whatever the turns, where `Delay::first_candidate` is `None` or `is_settled`
//!   says yes, and for processes that `busy_from` passes over (`idle`). A first candidate that is
//!   no ABCAST is the first message that is ready, whatever the turns (`meaning`). `has_delivered`,
//!   `delivered_prefix` (of admitted processes), `is_awaited` and `greatest_counts` answer
//!   according to what was delivered, in views that have not ended (`value`, `meaning`);
//!   `laws::queue_means_the_rule` (`awaited`).
//! - `Delay::least_delivered`: the least count that each member here delivered, 4,294,967,295 of no
//!   member. `Delay::{admitted_count, process_at}`: the processes in order of admission. The id
//!   that is offered under a key: `Delay::id_under`.
//! - `Delay::look` changes nothing that is seen: what it files for later answers is an invariant.
//! - Each call keeps the queue's meaning, where processes are admitted before they begin and
//!   dismissed once in no group, and views come in order: `laws::queue_keeps_its_meaning`.
#![tactic(auto)]

mod floor;
pub mod laws;
mod looked;
mod offers;
mod queue;
mod rows;
mod waits;

pub use queue::Delay;
