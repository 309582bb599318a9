//! What a daemon is told, and what comes of it: configuration, events, answers, sessions, logs, and
//! what a trace keeps of an event and a daemon tells of itself.
//!
//! An `append` that runs out of memory adds nothing. A `Moment` never goes back.
//!
//! # What is proved
//!
//! - `Event::domain`, `Outs::{send, append}`, `Outs::push`, `Status::is_open` are exact.
#![tactic(auto)]

pub mod asked;
pub mod backlog;
pub mod config;
pub mod entry;
pub mod event;
pub mod limits;
pub mod log;
pub mod moment;
pub mod session;
pub mod told;

pub use asked::{Asked, Raw};
pub use backlog::Backlog;
pub use cast_quota::{QuotaName, Quotas};
pub use config::{Config, DomainConfig};
pub use entry::{Entry, Noted};
pub use event::{Event, Outs, Taken};
pub use log::{Fault, Given, Log};
pub use moment::Moment;
pub use session::Status;
pub use told::{Datagrams, Recording, Told};
