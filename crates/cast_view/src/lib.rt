//! The views of a group: how its home decides them, and how a site installs them.
//!
//! A view ends by a flush, after Birman, Schiper and Stephenson, "Lightweight Causal and Atomic
//! Group Multicast", ACM TOCS 9(3), 1991. That one site, the home, runs it is this project's own.
//! If memory is refused, a `MemberSide` is unchanged, and a `HomeSide` is of no further use.
//!
//! # What is proved
//!
//! - Each call on a group at the home and at a site is the definition's: `HomeSide`, `MemberSide`.
//!   A decided view has at most 64 members. `HomeSide::reckon` changes nothing that is seen, as
//!   `Delay::look` of `cast_delay`.
//! - The next view has the members that stay, the joins not at suspected sites, and nobody else:
//!   `laws::members_are_the_rule_in_words`.
//! - A repeated Prepare, Install or Out changes nothing: `laws::what_comes_again_changes_nothing`.
#![tactic(auto)]

mod flush;
mod home;
pub mod laws;
mod member;
mod phase;
mod procs;
mod sites;

pub use home::HomeSide;
pub use member::{MemberSide, Pending, PendingRequest, Verdict, is_taken_in};
pub use phase::{Answer, Decision, Phase};
pub use sites::{is_among, local_view, other_sites, sites_of};
