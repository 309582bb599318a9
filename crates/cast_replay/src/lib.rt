//! The replay of a script: from the bytes of its file to the text of its log and the exit status.
//!
//! A record is replayed as the script that its files are (`replay_part`), of which `cast_record`
//! joins the lines.
//!
//! # What is proved
//!
//! - `printed_log` (`ends`): [promise
//!   4](../../../docs/PROOFS.md#4-isolation-and-causal-delivery-the-headline), or why there is no
//!   log. The program writes that text and ends with 0, or says exactly why not with 3, 4 or 5:
//!   `run_script`, `replay_read` (`ended`, `done`, `failed`); `complain`, `no_memory`.
#![tactic(auto)]

mod meter;
mod record;
mod run;

pub use cast_isolation::{Unwatched, Watch};
pub use cast_record::Part;
pub use meter::{Meter, is_on_terminal};
pub use record::replay_part;
pub use run::{RunFault, complain, no_memory, printed_log, replay_file, replay_read, run_script};
