//! What a domain makes of the commands of its programs, of ticks and of the end of sessions.
#![tactic(auto)]

pub mod commands;
pub mod events;
pub mod home;
pub mod leaving;
pub mod owing;
mod release;
mod sessions;
pub mod trim;
mod turns;
