//! Whole daemons whose wires carry bytes: laws that join datagrams to networks of frames.
//!
//! # What is proved
//!
//! - Each frame that is sent is a value of its type, and so are the numbers of its domain and of
//!   the site that it is for: `typed::frames_fit`. Two such frames that differ, or that are of
//!   different domains or sites, are spelled differently: `laws::spellings_of_types_differ`.
//! - So each frame that a site reads of a datagram is one that was sent to it, of that domain and
//!   from that site, alone or in a bundle: `laws::datagrams_are_frames` (`sent`). Daemons that take
//!   in such frames and their own events alone come only to what steps of a network of frames lead
//!   to (`networks`), so that the laws hold of each domain whose sites agree on its home: its
//!   deliveries are causal (`causal`), its views agree (`agree`), and its programs are told so
//!   (`told`). Of the frames of its steps a daemon may hold some back, leave some out, and give its
//!   wire some again.
//! - Of what a wire is given for a frame that has a spelling, the site reads that frame
//!   (`received`). Suppose that the sites of a domain agree on its home, and that the numbers of
//!   sites, domains and groups count from 1 in the configurations. Then each frame that was sent
//!   for the domain has a spelling (`spelled`), and of what a wire is given for it, its site reads
//!   that frame (`wired`). So nothing that such a daemon sends is refused as bad.
//! - With the same premises each run over frames is one over datagrams, if all that was sent are
//!   values of their types, so nothing is said of nothing: `laws::datagrams_are_frames` (`back`).
//! - Where the keys of two sites seal nothing but frames that the one sent to the other,
//!   `cast_trust` needs no other premise on the network of any domain:
//!   `laws::senders_seal_what_is_spelled`.
#![tactic(auto)]

pub mod laws;
pub mod typed;
