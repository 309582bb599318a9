ghost use Rattle.std.specs.Prelude.{◌≡◌, IfOk, IsTrue};
ghost use Rattle.std.specs.Option.{option_copied};
ghost use Rattle.std.specs.FinMap.Entries.{find};
ghost use Rattle.cast_types.specs.Names.{group_cmp};
ghost use Rattle.cast_types.specs.Stamps.{is_stamp};

use crate::counts::Counts;
use crate::names::GroupNo;
use crate::{NoMemory, sorted};
use std::alloc::Global;
use std::marker::Model;
use std::sync::Arc;

/// What a time says of one group: a view, and a count of its messages for each process.
#[derive(Drop)]
pub struct Clock {
    pub view: u32,
    pub counts: Counts,
}

impl Clock {
    /// An equal value.
    pub fn copy(&self) -> Result<Self, NoMemory>
        ensures { IfOk result (λ c. c ≡ self.now) }
    {
        Ok(Clock {
            view: self.view,
            counts: self.counts.copy()?,
        })
    }
}

/// Equal clocks, group by group.
pub fn copy_clocks(
    alloc: Global,
    clocks: &[(GroupNo, Clock)],
) -> Result<Vec<(GroupNo, Clock)>, NoMemory>
    ensures { IfOk result (λ v. v.items ≡ clocks.now) }
{
    let mut copied = Vec::new(alloc);
    for (group, clock) in clocks {
        copied.push((*group, clock.copy()?))?;
    }
    Ok(copied)
}

/// The vector time that a message bears: 1 to 32 clocks of views from 1 on. It is never changed, so
/// its copies share one list. Contracts see the list of clocks in rising order of their groups.
#[derive(Drop)]
pub struct Stamp {
    clocks: Arc<Vec<(GroupNo, Clock)>, Global>,
}

impl Model for Stamp {
    ghost use Rattle.std.specs.Prelude.{List, IsTrue};
    ghost use Rattle.cast_types.specs.declared.names.GroupNo.{GroupNo};
    ghost use Rattle.cast_types.specs.declared.clock.Clock.{Clock};
    ghost use Rattle.std.specs.Arc.{arc_value};
    ghost use Rattle.cast_types.specs.Stamps.{is_stamp};

    ghost Value = { List (GroupNo × Clock) };

    ghost view = { λ s. (arc_value s.clocks).items };

    ghost invariant = { λ s. IsTrue (is_stamp (arc_value s.clocks).items) };
}

impl Stamp {
    /// The clocks of a vector. `NoMemory`: there is no room to share them from.
    pub fn from_clocks(clocks: Vec<(GroupNo, Clock)>) -> Result<Self, NoMemory>
        requires { IsTrue (is_stamp clocks.items) }
        ensures { IfOk result (λ s. s ≡ clocks.items) }
    {
        let alloc = *clocks.allocator();
        Ok(Stamp {
            clocks: Arc::new(alloc, clocks)?,
        })
    }

    /// The clocks in rising order of their groups, 1 to 32.
    pub fn clocks(&self) -> &[(GroupNo, Clock)]
        ensures value { result.now ≡ self.now }
        ensures valid { IsTrue (is_stamp self.now) }
    {
        &self.clocks
    }

    /// The clock of a group, `None` where the time says nothing of it.
    pub fn get(&self, group: GroupNo) -> Option<&Clock>
        ensures { option_copied result ≡ find group_cmp group self.now }
    {
        sorted::find(&self.clocks, &group)
    }

    /// An equal value, which shares the clocks of this one. Takes no memory. `NoMemory`: the clocks
    /// are shared by as many values as can be counted.
    pub fn copy(&self) -> Result<Self, NoMemory>
        ensures { IfOk result (λ s. s ≡ self.now) }
    {
        Ok(Stamp {
            clocks: Arc::try_clone(&self.clocks)?,
        })
    }
}
