//! Daemons of one domain at several sites and the network between them: laws of every list of
//! steps.
//!
//! A step is an event at a site, or a frame that was sent arrives at its site. Frames may be lost,
//! repeated, delayed and reordered. Groups may overlap, joins be in progress, sites be suspected
//! wrongly, and members be put out.
//!
//! # What is proved
//!
//! - `laws::causal_delivery` (`acts`, `listed`): [promise
//!   4](../../../docs/PROOFS.md#4-isolation-and-causal-delivery-the-headline). `laws::views_agree`:
//!   [promise 5](../../../docs/PROOFS.md#5-views-agree). What daemons tell obeys both:
//!   `World::{new, run, delivered}`, `laws::answers_agree`.
//! - What a process delivered and what its program is pushed agree with its acts:
//!   `laws::lists_are_acts` (`delivered`, `abcasts`); `laws::pushes_are_acts`.
//! - Programs are told what their processes do, over a whole run: all casts and views in their
//!   order, none made up, but for at most the last where the program is told that it was too slow:
//!   `laws::programs_are_told` (`all`, `while_open`, `closed`, `inside`, `over`). So the laws below
//!   hold of what programs are told: `laws::programs_are_told_in_order` (`causal`, `due`,
//!   `first_in_first_out`, `once`, `sending_view`, `views_rise`), `laws::programs_agree`
//!   (`installed`, `same_members`, `same_messages`, `same_order`, `prefix`).
//! - A stamp covers all that an earlier one covers, and that one does not cover the later message:
//!   `laws::stamps_rise`. View numbers in times and stamps were decided at the home before:
//!   `laws::views_are_decided`. A joining process enters a view above the one that it had heard of:
//!   `laws::joins_go_forward`.
//! - Causal and FIFO delivery: who delivers two messages, of which one happened before the other or
//!   was sent before it by the same process, delivers that one first: `laws::deliveries_keep_order`
//!   (`causal`, `first_in_first_out`). No duplication: no process delivers two messages of one id:
//!   `laws::no_duplication`.
//! - Sending view delivery: who sends a message, and who delivers it, is then in the view that the
//!   message names: `laws::messages_keep_to_views` (`sent`, `delivered`, `sending_view`).
//! - Local monotonicity: the views of a group that a process enters rise: `laws::views_rise`. Self
//!   inclusion: who enters a view does so by an Install of it that was sent, and each Install of it
//!   names the process as a member. All Installs of a view name the same members and holder:
//!   `laws::views_have_one_membership` (`installed`, `self_inclusion`, `same`).
//! - No process sends two messages of one name; what is delivered was sent by its sender:
//!   `laws::{names_are_unique, deliveries_were_sent}`.
//! - Delivery integrity, from the cast command on: a message that has a payload became one of those
//!   that its sender sent by a step of the run that is the command of the sender's program to cast
//!   this payload in this group. No two messages come from one step, and none is sent twice:
//!   `laws::deliveries_were_cast` (`delivered`, `sent`, `apart`, `once`).
//! - Self delivery: who passes to the next view has delivered all that it sent in the last one:
//!   `laws::self_delivery`.
//! - Mutual exclusion: at most one process holds the token of a view: `laws::tokens_are_held_once`.
//! - Whoever forges frames, a domain keeps few messages: `laws::what_is_kept_is_bounded`. After any
//!   events, with any frames in the name of any site, those that no waiting Install covers are at
//!   most twice the greatest `held` that was in force. All are of the views that their groups have,
//!   and an order has at most 4,000,000,000 places. Where the parts of frames are as their types
//!   say, no message is kept twice, and all that are kept are at most twice that `held` and the
//!   messages that the cuts of waiting Installs name. Only the type of its counts bounds how many a
//!   forged cut names.
//! - A process that passes to the next view delivered exactly the cut: `laws::passes_with_cut`. The
//!   places before those that an Install lists are known alike at each site with a member:
//!   `laws::starts_are_known`.
//! - Wherever a list of steps has led, a whole step whose event is refused changes nothing, and
//!   sends, delivers and pushes nothing. One whose request is refused leads to its reply alone,
//!   where the session is open and its outbox has room: `laws::refused_steps_leave` (`leaves`,
//!   `replies`).
#![tactic(auto)]

mod daemon;
pub mod laws;
pub mod step;
pub mod world;

pub use step::{Happening, Packet, Step};
pub use world::World;
