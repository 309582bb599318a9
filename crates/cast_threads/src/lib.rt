//! The threads that serve events.
//!
//! The thread that reads a program's stream serves its commands, one at a time, and the receiver
//! serves the datagrams. Each serves under the lock of the shared table, sends the frames outside
//! it, and writes what programs are pushed if no other thread does. A writer for each program
//! writes what they would have to wait for. The dispatcher passes on what the workers did.
//! Promised: every call is safe.
#![tactic(auto)]

mod dispatch;
mod program;
mod reader;
mod receiver;
mod server;

pub use dispatch::run_dispatcher;
pub use program::{run_program, server_of};
pub use receiver::run_receiver;
pub use server::Server;
