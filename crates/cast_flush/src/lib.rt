//! What the reports of a flush decide.
//!
//! From the reports of a view's sites follow the cut (how many messages of each member belong to
//! the view), the messages that some sites lack, and the final order of its ABCASTs. So all who
//! pass to the next view deliver the same messages, as in Birman, Schiper and Stephenson,
//! "Lightweight Causal and Atomic Group Multicast", ACM TOCS 9(3), 1991.
//!
//! # What is proved
//!
//! - The cut, what is wanted from whom, and the order that ends a view are the definition's:
//!   `cut_from`, `wanted_ids`, `wants_of`, `order_from`;
//!   `laws::{cut_is_the_rule_in_words, needed_is_the_rule_in_words, order_is_the_rule_in_words}`.
//! - While the reports stay as they are, no more messages come to the home than they name:
//!   `laws::what_comes_is_bounded`.
#![tactic(auto)]

mod decisions;
pub mod laws;
mod report;
mod reports;
mod sets;

pub use decisions::order_from;
pub use report::Report;
pub use reports::{cut_from, has_report, is_complete, wanted_ids, wants_of};
