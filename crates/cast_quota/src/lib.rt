//! What a domain may use of its daemon.
//!
//! No call takes memory.
//!
//! # What is proved
//!
//! - Room is tested as the rule says: `Quotas::{check_open, check_cast, check_order}`. A quota is
//!   set exactly within its range: `Quotas::set` (`ok`, `err`).
#![tactic(auto)]

pub mod limits;
pub mod quotas;

pub use quotas::{QuotaName, Quotas};
