//! Networks of whole daemons, each of which serves many domains: laws that join what one event does
//! to a table to the networks of one domain.
//!
//! # What is proved
//!
//! - Each domain of a network of daemons whose sites agree on its home is a network of its own,
//!   whatever other domains there are and whatever happens to these: `laws::domains_are_networks`
//!   (`networks`). It goes on as the daemons do, and takes no more steps at a site where want of
//!   memory has halted it (`go_on`). So its deliveries are causal (`causal`), and its views agree
//!   (`agree`). All laws of what programs are told hold of its programs (`told`). The domains of a
//!   daemon have different numbers, and the groups of each rise.
#![tactic(auto)]

pub mod laws;
