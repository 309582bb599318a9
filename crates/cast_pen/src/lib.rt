//! Who writes to a program, and what.
//!
//! The pen of a program is the right to take the entries of its session and to write to its stream.
//! A `Pen` says who has it. It is a value: its lock, and the threads that wait for it, are in a
//! crate above. Whoever claims the pen gets a `Hold`, which nobody can copy or drop. `put_entries`
//! and `put_rest` write to a `Stream`.
//!
//! # What is proved
//!
//! - Each call answers, and makes of the pen, just what the definition says: `Pen`.
//! - What a stream takes of entries, and what is left, are together their spelling. All is written,
//!   or the stream failed, where nothing is left: `put_entries`, `put_rest`.
//!
//! The laws are about any list of moves in which threads keep to their part: what is for a thread
//! with the pen is done by such a one; it takes the outbox, and goes on, when it has written what
//! it took; it goes on only once nothing is left in the outbox; it passes what it has not written.
//!
//! - At most one thread has the pen, or it is on its way to the writer: `laws::one_has_the_pen`.
//! - Once the pen is free, the outbox was emptied behind each claim and call, unless a Take found
//!   no memory or the stream was closed: `laws::no_push_is_left` (`left`). Who has the pen keeps it
//!   until then (`goes_on`). After a Take without memory another is wanted (`missed`).
//! - What is taken comes to the stream as spelled, in the order of the Takes, none twice and none
//!   left out: `laws::bytes_keep_their_order` (`kept`, `all`). Nothing is written once who has the
//!   pen has closed the stream (`end`). What is put is written so, and the rest is in hand (`put`).
#![tactic(auto)]

pub mod laws;
mod pen;
mod writing;

pub use pen::{Hold, Pen};
pub use writing::{BATCH, Next, Stream, Unwritten, WriterTask, Written, put_entries, put_rest};
