ghost use Rattle.std.specs.Prelude.{◌≡◌, ◌<◌, ◌↔◌, true, false, IfOk, OnOk};
ghost use Rattle.std.specs.Prelude.{OnErr, IsTrue, Some, None, if◌then◌else◌};
ghost use Rattle.std.specs.Option.{option_copied};
ghost use Rattle.std.specs.FinMap.Entries.{find, is_sorted};
ghost use Rattle.cast_types.specs.declared.names.GroupNo.{GroupNo};
ghost use Rattle.cast_types.specs.Names.{group_cmp};
ghost use Rattle.cast_types.specs.Stamps.{is_stamp};
ghost use Rattle.cast_clock.specs.Times.{no_time, view_of, count_in, with_bump, entering};
ghost use Rattle.cast_clock.specs.Times.{join, has_room, at_most, is_time, clock_of, IsAtMost};
ghost use Rattle.cast_clock.specs.News.{AreKnown};

use crate::clocks::{
    all_at_most, all_fit, all_viewed, clock_among, counts_among, news, put_all, view_among,
};
use crate::counts::{count_among, has_place};
use crate::fault::ClockFault;
use cast_types::clock::copy_clocks;
use cast_types::limits::MAX_GROUPS;
use cast_types::{Clock, Counts, GroupNo, NoMemory, Proc, Stamp, sorted};
use std::alloc::Global;
use std::marker::Model;

/// A vector time: for each group a view and the counts of its processes, view 0 and no counts where
/// none is kept. Contracts see the list of clocks in rising order of their groups.
#[derive(Drop)]
pub struct Times {
    clocks: Vec<(GroupNo, Clock)>,
}

impl Model for Times {
    ghost use Rattle.std.specs.Prelude.{List, IsTrue};
    ghost use Rattle.cast_types.specs.declared.names.GroupNo.{GroupNo};
    ghost use Rattle.cast_types.specs.declared.clock.Clock.{Clock};
    ghost use Rattle.cast_clock.specs.Times.{is_time};

    ghost Value = { List (GroupNo × Clock) };

    ghost view = { λ t. t.clocks.items };

    ghost invariant = { λ t. IsTrue (is_time t.clocks.items) };
}

impl Times {
    /// The time of one that has heard of no view.
    pub fn new(alloc: Global) -> Self
        ensures { result ≡ no_time }
    {
        Times {
            clocks: Vec::new(alloc),
        }
    }

    /// The clocks in rising order of their groups.
    pub fn entries(&self) -> &[(GroupNo, Clock)]
        ensures value { result.now ≡ self.now }
        ensures sorted { IsTrue (is_sorted group_cmp self.now) }
        ensures valid { IsTrue (is_time self.now) }
    {
        &self.clocks
    }

    /// The clock of a group, `None` where none is kept.
    pub fn get(&self, group: GroupNo) -> Option<&Clock>
        ensures { option_copied result ≡ find group_cmp group self.now }
    {
        sorted::find(&self.clocks, &group)
    }

    /// The view of a group, 0 where none is kept.
    pub fn view(&self, group: GroupNo) -> u32
        ensures { result ≡ view_of self.now group }
    {
        view_among(&self.clocks, group)
    }

    /// The count of a process in the group's view, 0 where none is kept.
    pub fn count(&self, group: GroupNo, process: Proc) -> u32
        ensures { result ≡ count_in self.now group process }
    {
        count_among(counts_among(&self.clocks, group), process)
    }

    /// Raises the count of a process in a group by one. `TooMany`: the group has 64 counts of other
    /// processes. An error changes nothing.
    pub fn bump(&mut self, group: GroupNo, process: Proc) -> Result<(), ClockFault>
        requires { count_in self.old group process < 4294967295 }
        ensures ok { OnOk result (self.new ≡ with_bump self.old group process) }
        ensures fits { OnOk result (has_room (with_bump self.old group process) ≡ true) }
        ensures too_many { result ≡ Err ClockFault.TooMany
            → has_room (with_bump self.old group process) ≡ false }
        ensures err { OnErr result (self.new ≡ self.old) }
    {
        let mut clock = clock_among(*self.clocks.allocator(), &self.clocks, group)?;
        let count = clock.counts.get(process) + 1;
        if !has_place(&clock.counts, process, count) {
            return Err(ClockFault::TooMany);
        }
        clock.counts.set(process, count)?;
        sorted::put(&mut self.clocks, group, clock)?;
        Ok(())
    }

    /// Begins a view of a group, with no counts. `NoMemory` changes nothing.
    pub fn enter(&mut self, group: GroupNo, view: u32) -> Result<(), NoMemory>
        ensures ok { OnOk result (self.new ≡ entering self.old group view) }
        ensures err { OnErr result (self.new ≡ self.old) }
    {
        let clock = Clock {
            view,
            counts: Counts::new(*self.clocks.allocator()),
        };
        sorted::put(&mut self.clocks, group, clock)?;
        Ok(())
    }

    /// Whether no group of the join with a stamp has more than 64 counts. Takes no memory.
    pub fn has_room_for(&self, stamp: &Stamp) -> bool
        ensures { result ≡ has_room (join self.now stamp.now) }
    {
        self.has_room_but(stamp, &[])
    }

    /// Whether no group of the join with a stamp has more than 64 counts. Of these groups the
    /// stamp's clocks are at most the time's, and are not looked at. Takes no memory.
    pub fn has_room_but(&self, stamp: &Stamp, known: &[GroupNo]) -> bool
        requires { AreKnown self.now stamp.now known.now }
        ensures { result ≡ has_room (join self.now stamp.now) }
    {
        all_fit(&self.clocks, stamp.clocks(), known)
    }

    /// Joins the time with a stamp. `TooMany`: a group of the join has more than 64 counts. An
    /// error changes nothing.
    pub fn merge(&mut self, stamp: &Stamp) -> Result<(), ClockFault>
        ensures ok { OnOk result (self.new ≡ join self.old stamp.now) }
        ensures fits { OnOk result (has_room (join self.old stamp.now) ≡ true) }
        ensures too_many { result ≡ Err ClockFault.TooMany
            → has_room (join self.old stamp.now) ≡ false }
        ensures err { OnErr result (self.new ≡ self.old) }
    {
        self.merge_but(stamp, &[])
    }

    /// Joins the time with a stamp. Of these groups the stamp's clocks are at most the time's, and
    /// are not looked at. `TooMany`: a group of the join has more than 64 counts. An error changes
    /// nothing.
    pub fn merge_but(&mut self, stamp: &Stamp, known: &[GroupNo]) -> Result<(), ClockFault>
        requires { AreKnown self.old stamp.now known.now }
        ensures ok { OnOk result (self.new ≡ join self.old stamp.now) }
        ensures fits { OnOk result (has_room (join self.old stamp.now) ≡ true) }
        ensures too_many { result ≡ Err ClockFault.TooMany
            → has_room (join self.old stamp.now) ≡ false }
        ensures err { OnErr result (self.new ≡ self.old) }
    {
        let alloc = *self.clocks.allocator();
        let news = news(alloc, &self.clocks, stamp.clocks(), known)?;
        put_all(&mut self.clocks, news)?;
        Ok(())
    }

    /// Whether each clock is at most the other time's: an older view, or the same view with no
    /// count greater. Takes no memory.
    pub fn at_most(&self, other: &Times) -> bool
        ensures value { result ≡ at_most self.now other.now }
        ensures order { IsTrue result
            ↔ ((g : GroupNo) → IsAtMost (clock_of self.now g) (clock_of other.now g)) }
    {
        all_at_most(&self.clocks, &other.clocks)
    }

    /// The time as a message's stamp, `None` where it has no spelling: no clock, more than 32, or
    /// one of view 0.
    pub fn stamp(&self) -> Result<Option<Stamp>, NoMemory>
        ensures { IfOk result (λ o. o ≡ (if is_stamp self.now then Some self.now else None)) }
    {
        if self.clocks.is_empty() || self.clocks.len() > MAX_GROUPS || !all_viewed(&self.clocks) {
            return Ok(None);
        }
        let clocks = copy_clocks(*self.clocks.allocator(), &self.clocks)?;
        Ok(Some(Stamp::from_clocks(clocks)?))
    }

    /// An equal value.
    pub fn copy(&self) -> Result<Times, NoMemory>
        ensures { IfOk result (λ t. t ≡ self.now) }
    {
        Ok(Times {
            clocks: copy_clocks(*self.clocks.allocator(), &self.clocks)?,
        })
    }
}
