//! Daemons that read one configuration: what the laws ask of configurations holds for them.
//!
//! # What is proved
//!
//! - Where each daemon serves what one text gives its site, by `cast_config::read`, the sites of
//!   each domain name one home, and the numbers of sites, domains and groups count from 1:
//!   `laws::one_text_meets_the_premises` (`home`, `numbered`).
//! - So of configurations the laws of whole daemons whose wires carry bytes ask nothing more, but
//!   that daemons read one: `laws::installations_obey_the_laws` (`causal`, `agree`, `told`,
//!   `wired`).
#![tactic(auto)]

pub mod laws;
