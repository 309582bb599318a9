ghost use Rattle.std.specs.Prelude.{◌≡◌};
ghost use Rattle.cast_types.specs.Sources.{is_ended, source_of};

use crate::names::{GroupNo, Proc, Uid};

/// Where messages come from: a process in a view of a group.
#[derive(Clone, Copy, Debug, PartialEq, Eq, PartialOrd, Ord)]
pub struct Source {
    pub group: GroupNo,
    pub view: u32,
    pub process: Proc,
}

impl Source {
    /// Whether it is of a view of the group that has ended, where this is the number of the view
    /// that stands.
    pub fn is_ended(self, group: GroupNo, number: u32) -> bool
        ensures { result ≡ is_ended group number self }
    {
        self.group == group && self.view < number
    }
}

/// Where messages of an id come from.
pub fn source_of(id: Uid) -> Source
    ensures { result ≡ source_of id }
{
    Source {
        group: id.group,
        view: id.view,
        process: id.proc,
    }
}
