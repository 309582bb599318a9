//! The bytes of the fields of frames, read and written one by one.
//!
//! # What is proved
//!
//! - Each field is read exactly, or its first fault from the left is found; each is written as its
//!   one spelling: the calls of `reading` and `writing`. Each fault has its number:
//!   `FrameFault::number`.
#![tactic(auto)]

pub mod fault;
pub mod reading;
pub mod writing;

pub use fault::FrameFault;
