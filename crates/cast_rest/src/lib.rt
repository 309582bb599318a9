//! What follows from an event, until nothing changes.
#![tactic(auto)]

mod flushes;
mod home;
mod order;
pub mod rest;
mod turns;
