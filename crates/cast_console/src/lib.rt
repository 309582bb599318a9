//! The console: one line in, one answer out.
//!
//! Not promised: that there is memory for the text.
//!
//! # What is proved
//!
//! - A line is read exactly: `cast_console::parse`. The text answered is exactly that of the line,
//!   an event is served under number 0 and its outcome handed on, and other lines change nothing:
//!   `cast_console::answer` (`text`, `done`, `same`).
#![tactic(auto)]

mod answers;
mod line;
mod said;
mod text;

pub use answers::answer;
pub use cast_events::{Datagrams, Recording, Told};
pub use line::{Line, LineFault, parse};
pub use said::Answer;
