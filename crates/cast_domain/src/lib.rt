//! One domain at one site: what it keeps, and what the rules of several events do with it.
//!
//! Each call does what a definition of one of the `Calls` files in `specs`, or a rule of
//! `cast_rules`, says of the records (`made`). The lemmas say that records which stand for a
//! history (`Fits`) still do afterwards. The rest of the code is in `cast_handlers`, `cast_rest`,
//! `cast_commands` and, with the step, in `cast_step`.
//!
//! # What is proved
//!
//! - A new domain runs and stands for the opening state where its groups rise: `Domain::new`
//!   (`placed`, `running`, `begins`); `Shared::new`.
//! - A copy has equal records: `Domain::copy`, and the parts' `copy`.
#![tactic(auto)]

pub mod asking;
pub mod data;
pub mod domain;
pub mod flushes;
pub mod home;
pub mod keys;
pub mod leaving;
pub mod lent;
pub mod order;
pub mod owing;
pub mod record;
pub mod release;
pub mod rest;
pub mod room;
pub mod sending;
pub mod sessions;
pub mod shared;
pub mod show;
pub mod turns;
pub mod views;

pub use cast_events::{Config, DomainConfig, Event, Outs, QuotaName, Quotas, Status, Taken};
pub use domain::Domain;
pub use shared::Shared;
pub use show::{GroupShown, Shown};
