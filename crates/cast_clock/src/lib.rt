//! Vector times: per group a view and, in that view, a count of messages per process.
//!
//! The rule is that of Birman, Schiper and Stephenson, "Lightweight Causal and Atomic Group
//! Multicast", ACM TOCS 9(3), 1991. The view beside the counts is this project's own: a later view
//! outranks an earlier one. A call that is refused memory changes nothing.
//!
//! # What is proved
//!
//! - Look-ups, `bump`, `enter`, `merge`, `has_room_for`, `at_most`, `stamp`, `copy` of `Times` are
//!   the definition's. `bump` and `merge` refuse a 65th count of a group and change nothing then
//!   (`fits`, `too_many`, `err`). `merge_but` and `has_room_but` answer the same, and do not look
//!   at the clocks of groups of which the caller knows that the time has as much.
//! - The join is pointwise and the least time above both; the order is pointwise; a bump raises one
//!   count alone: `laws::{join_is_pointwise, join_is_least, order_is_pointwise}`,
//!   `laws::{bump_raises_one, enter_begins_one, times_stay_times}`.
#![tactic(auto)]

mod clocks;
mod counts;
mod fault;
pub mod laws;
pub mod places;
mod times;

pub use fault::ClockFault;
pub use times::Times;
