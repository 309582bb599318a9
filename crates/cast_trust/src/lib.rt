//! Sites that take in sealed datagrams alone: laws that join seals to the network.
//!
//! # What is proved
//!
//! - Where nobody but a site makes seals for what it sends another one, each frame that opens there
//!   was sent, and a step of the network hands it over: `laws::sealed_frames_are_sent`. Sites of
//!   one home that take in such frames and their own events alone come only to what steps of a
//!   network lead to, so that all its laws hold: `laws::sealed_runs_are_networks` (`networks`).
//!   Deliveries are causal there (`causal`).
#![tactic(auto)]

pub mod laws;
