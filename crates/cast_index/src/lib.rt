//! An index of the ids of messages, each with the key under which its message is kept.
//!
//! # What is proved
//!
//! - An index has an id with a key from insertion to removal; a refused insertion changes nothing:
//!   `Index::{new, insert, remove, copy}`.
//! - The least key of an id; the least id of a later source, so that a walk over sources ends:
//!   `Index::{key_of, first_behind}` (`some`, `none`, `fewer`). The least id of a source, and its
//!   least and greatest count: `Index::{first_of, count_range}`. Whether there is an id at all:
//!   `Index::is_empty`.
#![tactic(auto)]

mod entry;
mod index;

pub use index::Index;
