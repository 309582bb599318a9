//! The total order of a view's ABCASTs, as one site knows it, for all groups of a domain.
//!
//! The process that holds the token of a view delivers ABCASTs as they become ready and lists them
//! in set-order messages. All other members deliver in that order. The rule is that of Birman,
//! Schiper and Stephenson, "Lightweight Causal and Atomic Group Multicast", ACM TOCS 9(3), 1991. If
//! memory is refused to a call that changes the orders, they are of no further use.
//!
//! # What is proved
//!
//! - The known order is the ids told from place 1 on without a gap, of each place the first told:
//!   `laws::{order_is_the_rule_in_words, log_means_the_rule}`; `Orders::{learn, length}`.
//! - What comes next for a process, what a holder has to list, the first 64 of that, and the last
//!   512 ids are those of the whole order: `Orders::{next, ids_to_list, assign, tail}`.
//! - What is kept of each process that sets or did set the order is about it alone: from where it
//!   holds the token, what it has to list, how many places are settled:
//!   `laws::hands_keep_their_meaning`;
//!   `Orders::{hold, hand_over, tell, note, settled_places, first, hands}`.
//! - This still holds once first ids, never of the last 512, are forgotten, which all who go on
//!   have delivered; groups do not mix: `laws::{log_keeps_its_meaning, groups_do_not_mix}`;
//!   `Orders::{learn, pass, oldest, forget_first, forget}`.
//! - Once a view's end is told, the order is the closed one, but for ids that were forgotten, and
//!   it stays: `laws::a_closed_order_stays`; `Orders::close`.
//! - A set-order message adds at most the ids that it tells to what is kept, and the end of the
//!   order at most those told with it: `laws::what_is_kept_is_bounded`.
#![tactic(auto)]

mod hand;
pub mod laws;
mod log;
mod orders;

pub use hand::OrderHand;
pub use log::OrderLog;
pub use orders::Orders;
