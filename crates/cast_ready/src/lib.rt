//! When a process may deliver a message, by what is kept of the process.
//!
//! The rule is that of Birman, Schiper and Stephenson, "Lightweight Causal and Atomic Group
//! Multicast", ACM TOCS 9(3), 1991, for overlapping groups: a message waits until its process has
//! delivered all that happened before it. An ABCAST also waits for its turn (`Turn`).
//!
//! Promised: `Row::is_ready` is the rule, with counts in place of ids. What the counts stand for is
//! said by `cast_delay`, whose laws compare them with the ids that a process delivered.
#![tactic(auto)]

pub mod delivered_counts;
pub mod gate;
pub mod offered;
pub mod row;
pub mod turn;

pub use delivered_counts::DeliveredCounts;
pub use gate::Gate;
pub use offered::Offered;
pub use row::{ProcessUpdate, Row};
pub use turn::Turn;
