//! Datagrams: frames go out, and what comes in goes to the workers.
//!
//! # What is proved
//!
//! - Each frame of an event is given to the wire once, spelled, in order, and counted as sent or
//!   lost; none when out of memory: `cast_link::send_all` (`given`, `counted`, `lost`, `err`). The
//!   first datagram is handed on, a device fault only where the device failed in that call, and
//!   then what waits is what waited: `cast_link::receive_one` (`handed`, `device`, `ok`, `memory`).
//!   Sending receives nothing (`waiting`), and receiving sends nothing (`given`).
//! - Where frames share datagrams, the wire is given for each site datagrams that carry the frames
//!   for it, each once and in order, alone or in a bundle within the limit, and each is counted as
//!   sent or lost; there are no more of them than frames, and none when out of memory:
//!   `cast_link::send_bundled` (`given`, `lost`, `counted`, `err`).
//! - Any datagram is bytes for one frame, the frames of a bundle, or begins as a bundle and is
//!   none: `cast_link::unpack`. The same bytes are no two bundles, and no frame begins as one:
//!   `cast_link::laws::bundles_are_read_back` (`unique`, `alone`). So of datagrams that carry
//!   frames each site reads those that were to go there, each once and in order (`sites`).
#![tactic(auto)]

mod bundle;
pub mod laws;
mod link;
mod packing;
mod wire;

pub use bundle::{Unpacked, unpack};
pub use link::{Sent, receive_one, send_all, send_bundled};
pub use wire::{LinkFault, Wire};
