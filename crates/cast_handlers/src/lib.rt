//! What a domain makes of a frame that comes from a site.
#![tactic(auto)]

mod asking;
mod data;
mod flushes;
pub mod frames;
mod home;
mod order;
mod requests;
mod room;
mod stability;
mod views;
