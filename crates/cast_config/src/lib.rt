//! The configuration: a TOML document, and the set-up of one site that it gives.
//!
//! `read` tests each number against its range, and that no two sites and no two domains share a
//! number. A fault comes with its field.
//!
//! # What is proved
//!
//! - A text gives a site exactly its set-up, or the first fault: `cast_config::read` (`exact`),
//!   which is said with its status: `complain`.
//! - So does the text of a host's keys: `read_keys` (`exact`).
#![tactic(auto)]

mod domains;
mod fault;
mod fields;
mod keys;
mod network;
mod setup;
mod sites;
mod text;

pub use fault::{Cause, ConfigFault, Field, complain};
pub use keys::{HostKey, read_keys};
pub use setup::{DomainSocket, Setup, read};
pub use sites::SiteAddress;
pub use text::Text;
