//! Which messages every site of a view has received, and which may be released.
//!
//! A message of this site is stable once every other site of the view has acknowledged it and all
//! earlier ones of its process; a message of another site once that site says so. Counts without a
//! gap take no memory. Once a group has its next view, nothing is kept of earlier ones.
//!
//! # What is proved
//!
//! - `is_received`, `has_acked`, `stable_upto`, `is_stable`, `may_free`, `last_received` answer
//!   according to all that was received, acknowledged and told, for live sources, counts from 1 on
//!   and, for `stable_upto`, another site: `Acks` (`value`, `meaning`);
//!   `laws::records_mean_the_rule`, `laws::records_keep_their_meaning`.
//! - Changes are exact, and a refused call changes nothing:
//!   `Acks::{tell, receive, ack, learn_stable}` (`ok`, `err`);
//!   `Counted::{insert, contains, upto, greatest}`.
//! - The number of stable messages is the greatest that all other sites acknowledged without a gap:
//!   `laws::stable_is_greatest`.
//! - Each receipt, acknowledgement and news of stability adds at most two numbers to what is kept,
//!   and the end of a view takes only away: `laws::what_is_kept_is_bounded`.
#![tactic(auto)]

mod acks;
mod counted;
pub mod laws;
mod witness;

pub use acks::Acks;
pub use counted::Counted;
pub use witness::Witness;
