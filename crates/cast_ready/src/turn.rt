ghost use Rattle.std.specs.Prelude.{◌≡◌};
ghost use Rattle.std.specs.List.{find};
ghost use Rattle.std.specs.Option.{option_copied};
ghost use Rattle.cast_types.specs.Names.{group_eq};
ghost use Rattle.cast_ready.specs.Ready.{has_turn, turn_in};

use cast_types::{GroupNo, Proc};

/// How an ABCAST of a group gets its place in the order of the group's view. An ABCAST is named by
/// its process and its count, from 1 on, in the group's current view.
#[derive(Clone, Copy, Debug, PartialEq, Eq)]
pub enum Turn {
    /// The process sets the order: an ABCAST gets the next place as the process delivers it.
    /// Whether there is room for one more.
    Holding(bool),
    /// Another process sets the order, or none does: the ABCAST that stands next in the order that
    /// is known here, after those that the process has delivered. `None` where no place after them
    /// is known.
    Following(Option<(Proc, u32)>),
}

impl Turn {
    /// Whether it is the turn of an ABCAST.
    pub fn is_of(self, process: Proc, count: u32) -> bool
        ensures { result ≡ has_turn self (process, count) }
    {
        match self {
            Turn::Holding(room) => room,
            Turn::Following(None) => false,
            Turn::Following(Some(next)) => process == next.0 && count == next.1,
        }
    }
}

/// The turn of a group: that of the first entry for it. Where there is none, no ABCAST of the group
/// has its turn.
pub fn turn_in(turns: &[(GroupNo, Turn)], group: GroupNo) -> Turn
    ensures { result ≡ turn_in turns.now group }
{
    match entry_of(turns, group) {
        Some(entry) => entry.1,
        None => Turn::Following(None),
    }
}

// The first entry for a group.
fn entry_of(turns: &[(GroupNo, Turn)], group: GroupNo) -> Option<&(GroupNo, Turn)>
    ensures { option_copied result ≡ find (λ t. group_eq t.0 group) turns.now }
{
    turns.iter().find(|turn| turn.0 == group)
}
