//! The messages that the domains of a daemon keep, each under a key. No key is reused until its
//! domain is dropped.
//!
//! # What is proved
//!
//! - A domain's messages are one list in order of receipt, each under a key that was free, from 0
//!   on: `Store::{put, get, messages, held, remove, next_key}`, `Kept::{len, at, id, is_atomic}`.
//!   Other domains stay as they were (`others`, also of `drop_domain`); a refused `put` returns the
//!   message and changes nothing (`back`, `err`).
//! - The first message of an id: `Store::find`. A message whose id passes; where none is given,
//!   each message has one of its source, with no greater count, whose id fails:
//!   `Store::first_passing`.
//! - Of the messages of a source that a domain keeps, the one with the least count; of its ABCASTs,
//!   the least and the greatest count. None is given only where none is kept:
//!   `Store::{first_of, atomic_counts}` (`some`, `none`).
#![tactic(auto)]

mod kept;
mod receipt;
mod row;
mod row_ids;
mod slot;
mod store;

pub use kept::Kept;
pub use store::Store;
