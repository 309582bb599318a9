//! A step of a domain: an event, and what follows from it.
//!
//! # What is proved
//!
//! - `cast_step::step` (`steps`): [promise 3](../../../docs/PROOFS.md#3-one-tenant-one-lock). After
//!   it the queue has no row of a process whose session is gone, and no message is kept that is
//!   free (`Represents`, parts `dismissed` and `freed`). So after a Data, an Ack or a Stable only
//!   messages of its source are looked at. Running out of memory adds nothing and halts the domain:
//!   of what is shared nothing is left to it, and others' parts are as they were. It then refuses
//!   each event as 13 and stays as it is (`halts`, `nothing`, `leaves`, `others`, `halted`,
//!   `running`). A running one gives a tick an empty answer (`unnamed`).
#![tactic(auto)]

mod domain;
mod events;
mod frames;

pub use domain::step;
