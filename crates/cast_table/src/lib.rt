//! The table of domains: each event goes to the domain that it names.
//!
//! # What is proved
//!
//! - An event is the step of the first domain of its number, a tick of each in turn. A halted one
//!   refuses and stays as it is; one that halts is noted and shares nothing; without a domain, or
//!   memory to begin with, nothing changes: `Table::apply` (`applied`, `unchanged`, `halted`).
//! - What is shown of a domain is what its history says: `Table::{show, groups}` (`shown`,
//!   `meant`). Its quota of kept messages, and the keys of the oldest kept and of the next:
//!   `Table::backlog`.
//! - A new table has new domains and shares nothing; a copy has equal records: `Table::new`
//!   (`domains`, `unshared`); `Table::into_domains`; `place_of`; `Table::copy`.
#![tactic(auto)]

mod backlog;
pub mod table;

pub use cast_domain::{GroupShown, Shown};
pub use cast_events::{Backlog, Config, DomainConfig, Event, Fault, Outs, Quotas, Taken};
pub use table::{Table, place_of};
