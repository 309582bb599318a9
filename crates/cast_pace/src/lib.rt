//! How far the programs of a domain may run ahead of its other sites, as plain values.
//!
//! A site keeps each message until all sites have it. So where it lets only some casts follow the
//! oldest message that it keeps, another site has room for the one that it lacks. A `Speed` says
//! how many casts may be on their way, so that they do not queue for long.
//!
//! # What is proved
//!
//! - All sites of a domain together take half of the room that one has, and their windows could not
//!   be greater; but each window is 1 at least: `window_of` (`window`). Long casts have the window
//!   that finds room in the sockets, and at least 2 where `window_of` allows that: `window_for`
//!   (`window`).
//! - What a site may keep, and the windows of all sites with a set-order message for each of their
//!   casts, are together what it has room for; it may keep nothing where the windows take all:
//!   `room_beside`. A site is crowded after an event
//!   exactly if the event received a message, and from the oldest one that the site keeps on it
//!   received more than there is room for: `is_crowded`.
//! - A cast has to wait exactly where as many casts of the site follow the oldest message as its
//!   window has: `Casts::awaited` (`some`, `none`). It waits until fewer do: `may_go_on`,
//!   `laws::who_goes_on_has_room`. Only the earliest cast is ever forgotten, and only where more
//!   are remembered than may be: `Casts::note` (`noted`, `refused`).
//! - How many casts may be on their way follows the time that acknowledgements take: which are
//!   late, when one makes the window less or greater, and by how much: `Speed::hear`. The window is
//!   4 at least and 65,536 at most: `Speed::window` (`least`, `most`). It becomes less only once
//!   for as many acknowledgements as it has: `laws::less_once_for_as_many`. It becomes greater only
//!   where a cast had to wait, and, after the first late acknowledgement, once for as many:
//!   `laws::greater_where_wanted`. The time that the slowest site takes at least is the longest
//!   that came with the last acknowledgements, with all or with more than 4,096:
//!   `laws::longest_is_of_the_last`. A program that writes many commands at once has a greater
//!   window: `Speed::allowed`. Of two windows the lower one counts, and at least 1: `least_window`.
#![tactic(auto)]

mod casts;
pub mod laws;
mod speed;
mod window;

pub use casts::{Casts, may_go_on};
pub use speed::Speed;
pub use window::{is_crowded, least_window, room_beside, window_for, window_of};
