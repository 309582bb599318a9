//! Names, limits, refusals, and the small containers that all other crates use.
//!
//! # What is proved
//!
//! - Names of each sort have a total order that tells them apart: `laws::names_are_ordered`.
//! - Refusals and their numbers correspond: `Refusal::number`, `Refusal::from_number`.
//! - Each limit has the documented value: `laws::limits_are`.
//! - Containers behave as lists; a refused growth changes nothing where a clause `err` says so:
//!   `List`, `SortedMap`, `sorted::{find, put, insert}`, `Counts`, `Stamp`, `Clock::copy`,
//!   `clock::copy_clocks`.
//! - Invariants: `Counts` are at most 64, each at least 1, and rise; a `Stamp` has 1 to 32 clocks,
//!   of views from 1 on, and rises.
#![tactic(auto)]

pub mod clock;
pub mod counts;
pub mod laws;
pub mod limits;
pub mod list;
pub mod names;
pub mod refusal;
pub mod sorted;
pub mod sorted_map;
pub mod source;

pub use clock::{Clock, Stamp};
pub use counts::Counts;
pub use list::List;
pub use names::{DomainNo, GroupNo, Key, Kind, Proc, SiteNo, Standing, Uid};
pub use refusal::Refusal;
pub use sorted_map::SortedMap;
pub use source::{Source, source_of};

/// Want of memory: an allocation was refused.
pub type NoMemory = std::alloc::AllocError;
