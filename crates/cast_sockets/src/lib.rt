//! The sockets of a daemon: one for the datagrams of each site, and one for the programs of each
//! domain.
//!
//! `bind` makes them. `Sockets::stop` removes their files and wakes who waits for them. Promised:
//! every call is safe.
#![tactic(auto)]

mod datagrams;
mod keyring;
mod sockets;

pub use datagrams::{Link, Peer, Received, widen};
pub use keyring::{Keyring, Keyrings, KeysFault, are_sealed};
pub use sockets::{Listening, SocketFault, Sockets, bind, resolve_all};
