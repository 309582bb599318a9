//! Scripts, which say how a daemon is configured and what happens to it.
//!
//! The functions of `words` and `domain` read a word, and the words that describe a domain, as
//! `parse` does.
//!
//! # What is proved
//!
//! - A text is read exactly as its script, or its first faulty line: `parse` (`exact`);
//!   `cast_script::laws::scripts_are_read`.
#![tactic(auto)]

pub mod domain;
mod events;
pub mod laws;
mod lines;
pub mod script;
pub mod words;

pub use domain::{list_words, place_words, quota_words};
pub use script::{Script, ScriptFault, parse};
pub use words::{
    LineFault, Reason, bytes_word, domain_word, group_word, long_number, number, proc_word,
    quota_name_word, site_word,
};
