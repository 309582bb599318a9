ghost use Rattle.std.specs.Prelude.{◌≡◌, ◌&&◌, ℕ, List, true, IsTrue, Contains, OnOk, IfOk, IfSome};
ghost use Rattle.std.specs.Prelude.{◌-◌, ◌==◌, length, nat_le, not, unwrap_or};
ghost use Rattle.std.specs.List.{list_all, position};
ghost use Rattle.std.specs.Option.{option_copied};
ghost use Rattle.std.specs.FinMap.Entries.{is_sorted};
ghost use Rattle.cast_types.specs.declared.names.GroupNo.{GroupNo};
ghost use Rattle.cast_types.specs.declared.names.Standing.TheVariants.{Outside};
ghost use Rattle.cast_types.specs.Names.{group_cmp, uid_in};
ghost use Rattle.cast_types.specs.Stamps.{ClockList};
ghost use Rattle.cast_clock.specs.Times.{first_clock, join, has_room};
ghost use Rattle.cast_ready.specs.Ready.{is_member};
ghost use Rattle.cast_ready.specs.Rows.{needed_count, IsClockIn, HasCounted, AreLow};

use crate::delivered_counts::DeliveredCounts;
use crate::gate::{Gate, is_open_in, number_in};
use crate::offered::Offered;
use crate::turn::{Turn, turn_in};
use cast_clock::places::{find_near, stands_at};
use cast_clock::{ClockFault, Times};
use cast_types::{Clock, GroupNo, NoMemory, Proc, SortedMap, Source, Stamp, Standing, Uid};
use std::alloc::{AllocError, Global};

/// What is told of a process.
#[derive(Drop)]
pub enum ProcessUpdate {
    /// What it is in a group.
    Standing(GroupNo, Standing),
    /// Its time.
    Time(Times),
}

/// What the queue keeps of a process.
#[derive(Drop)]
pub struct Row {
    pub process: Proc,
    pub standings: SortedMap<GroupNo, Standing>,
    pub time: Times,
    /// How many messages of each source it has delivered.
    pub done: DeliveredCounts,
}

// The clock of a group, and the place behind it: at a place, or else found by halving. Where groups
// are asked for in rising order, each mostly stands behind the one before.
fn clock_near(times: &Stamp, place: usize, group: GroupNo) -> (Option<&Clock>, usize)
    ensures { IsClockIn times.now group (option_copied result.0) }
{
    let clocks = times.clocks();
    if place < clocks.len() && clocks[place].0.cmp(&group).is_eq() {
        return (Some(&clocks[place].1), place + 1);
    }
    match clocks.binary_search_by_key(&group, |entry| entry.0) {
        Ok(found) => (Some(&clocks[found].1), found + 1),
        Err(next) => (None, next),
    }
}

// The clock's view, 0 where the time says nothing of the group.
fn view_in(clock: Option<&Clock>) -> u32
    ensures { result ≡ (unwrap_or (option_copied clock.entry) (first_clock 0)).view }
{
    match clock {
        Some(clock) => clock.view,
        None => 0,
    }
}

// The clock's counts, none where the time says nothing of the group.
fn counts_in(clock: Option<&Clock>) -> &[(Proc, u32)]
    ensures { result.now ≡ (unwrap_or (option_copied clock.entry) (first_clock 0)).counts }
{
    match clock {
        Some(clock) => clock.counts.entries(),
        None => &[],
    }
}

// Whether a standing is that of a member, where none is kept of one that is outside.
fn is_membership(standing: Option<&Standing>) -> bool
    ensures { result ≡ is_member (unwrap_or (option_copied standing.entry) Outside) }
{
    match standing {
        Some(Standing::Member) => true,
        Some(Standing::Outside | Standing::Joining { .. }) | None => false,
    }
}

// Whether standings rise by their groups.
fn is_rising(standings: &[(GroupNo, Standing)]) -> bool
    ensures { IsTrue result → is_sorted group_cmp standings.now ≡ true }
{
    let mut place = 1;
    while place < standings.len() {
        if standings[place - 1].0.cmp(&standings[place].0).is_ge() {
            return false;
        }
        place += 1;
    }
    true
}

impl Row {
    ghost use Rattle.cast_ready.specs.Rows.{standing_in, done_in, needed_count, has_past};
    ghost use Rattle.cast_ready.specs.Rows.{row_allows, all_allow, is_causally_ready_row};
    ghost use Rattle.cast_ready.specs.Rows.{is_ready_row, has_delivered_in, passed_by};
    ghost use Rattle.cast_ready.specs.Rows.{awaits_row, delivered_row, ended_row, told_row};
    ghost use Rattle.cast_ready.specs.Rows.{new_row, lesser_by, awaits_now, holds_back};
    ghost use Rattle.cast_ready.specs.Rows.{has_passed_row, clock_of_one};
    ghost use Rattle.cast_clock.specs.Times.{clock_at_most, clock_of};

    /// A process that is in no group.
    pub fn new(alloc: Global, process: Proc) -> Self
        ensures { result ≡ new_row process }
    {
        Row {
            process,
            standings: SortedMap::new(alloc),
            time: Times::new(alloc),
            done: DeliveredCounts::new(alloc),
        }
    }

    /// An equal value.
    pub fn copy(&self) -> Result<Self, NoMemory>
        ensures { IfOk result (λ row. row ≡ self.now) }
    {
        Ok(Row {
            process: self.process,
            standings: self.standings.copy()?,
            time: self.time.copy()?,
            done: self.done.copy()?,
        })
    }

    /// What the process is in a group.
    pub fn standing(&self, group: GroupNo) -> Standing
        ensures { result ≡ standing_in self.now group }
    {
        match self.standings.get(&group) {
            Some(standing) => *standing,
            None => Standing::Outside,
        }
    }

    /// How many messages of a process were delivered in a view of a group.
    pub fn delivered_count(&self, group: GroupNo, view: u32, process: Proc) -> u32
        ensures { result ≡ done_in self.now group view process }
    {
        let source = Source {
            group,
            view,
            process,
        };
        self.done.get(source)
    }

    // Whether the process is a member of a group.
    fn is_member(&self, group: GroupNo) -> bool
        ensures { result ≡ is_member (standing_in self.now group) }
    {
        match self.standing(group) {
            Standing::Member => true,
            Standing::Outside | Standing::Joining { .. } => false,
        }
    }

    /// The lesser of a count and of how many messages of a process in a view of a group were
    /// delivered, where the row's process is a member of the group.
    pub fn lesser(&self, least: u32, group: GroupNo, view: u32, process: Proc) -> u32
        ensures { result ≡ lesser_by group view process least self.now }
    {
        if self.is_member(group) {
            return least.min(self.delivered_count(group, view, process));
        }
        least
    }

    // Whether the process is seen to be a member of all these groups. It is not where its standings
    // do not rise.
    fn is_member_of_all(&self, groups: &[GroupNo]) -> bool
        ensures { IsTrue result
            → list_all (λ g. is_member (standing_in self.now g)) groups.now ≡ true }
    {
        let standings = self.standings.entries();
        if !is_rising(standings) {
            return false;
        }
        let mut place = 0;
        for group in groups {
            let (standing, next) = find_near(standings, place, group);
            if !is_membership(standing) {
                return false;
            }
            place = next;
        }
        true
    }

    // These groups where the process is a member of all of them, else none.
    fn in_all<'a>(&self, groups: &'a [GroupNo]) -> &'a [GroupNo]
        ensures listed { (g : GroupNo) → Contains result.now g → Contains groups.now g }
        ensures members { (g : GroupNo) → Contains result.now g
            → is_member (standing_in self.now g) ≡ true }
    {
        if !groups.is_empty() && self.is_member_of_all(groups) {
            groups
        } else {
            &[]
        }
    }

    // Whether all of these counts but the message itself is delivered. The place is where the
    // counts are looked at first, and moves on behind what is found.
    fn has_past(
        &self,
        place: &mut usize,
        id: Uid,
        group: GroupNo,
        view: u32,
        counts: &[(Proc, u32)],
    ) -> bool
        ensures { result ≡ has_past self.now id group view counts.now }
    {
        for entry in counts {
            let source = Source {
                group,
                view,
                process: entry.0,
            };
            let (done, next) = self.done.near(*place, source);
            if !is_enough(done, id, group, view, *entry) {
                return false;
            }
            *place = next;
        }
        true
    }

    // Whether nothing of a group holds the message back, where this is the group's clock in the
    // message's time. The place is where the counts are looked at first, and moves on behind what
    // is found. Where the clock is low, all that it counts is delivered, and no count is looked at.
    fn allows(
        &self,
        place: &mut usize,
        number: u32,
        id: Uid,
        group: GroupNo,
        clock: Option<&Clock>,
        standing: Standing,
        is_low: bool,
    ) -> bool
        requires { IsTrue is_low
            → HasCounted self.now group (unwrap_or (option_copied clock) (first_clock 0)) }
        ensures { (times : ClockList) → IsClockIn times group (option_copied clock.entry)
            → result ≡ row_allows self.now number id times group standing }
    {
        let view = view_in(clock);
        match standing {
            Standing::Outside => true,
            Standing::Joining { heard, .. } => view <= heard,
            Standing::Member => {
                view < number
                    || (view == number
                        && (is_low || self.has_past(place, id, group, view, counts_in(clock))))
            }
        }
    }

    // Whether no group holds the message back. The process is a member of the low groups, and their
    // counts are not looked at.
    fn all_allow(
        &self,
        gates: &SortedMap<GroupNo, Gate>,
        id: Uid,
        times: &Stamp,
        low: &[GroupNo],
    ) -> bool
        requires low { AreLow self.now times.now low.now }
        requires members { (g : GroupNo) → Contains low.now g
            → is_member (standing_in self.now g) ≡ true }
        ensures { result ≡ all_allow gates.now self.now id times.now }
    {
        let mut place = 0;
        let mut done_at = 0;
        let mut passed = 0;
        for (group, standing) in self.standings.entries() {
            let (clock, next) = clock_near(times, place, *group);
            let number = number_in(gates, *group);
            let is_low = stands_at(low, passed, *group);
            if !self.allows(&mut done_at, number, id, *group, clock, *standing, is_low) {
                return false;
            }
            if is_low {
                passed += 1;
            }
            place = next;
        }
        true
    }

    // Whether no group holds the message back, and the join of the times has room.
    fn lets_in(
        &self,
        gates: &SortedMap<GroupNo, Gate>,
        id: Uid,
        times: &Stamp,
        low: &[GroupNo],
    ) -> bool
        requires { AreLow self.now times.now low.now }
        ensures { result
            ≡ (all_allow gates.now self.now id times.now
            && has_room (join self.now.time times.now)) }
    {
        let low = self.in_all(low);
        self.all_allow(gates, id, times, low) && self.time.has_room_but(times, low)
    }

    /// Whether all that happened before a message was delivered to the process, a member of its
    /// group in the current view that has not delivered the message, where the group is not frozen
    /// or the message is within its cut. In a low group of which the process is a member it has
    /// delivered all that the message's time counts, and its own time has as much. Where it is a
    /// member of all low groups, their counts are not looked at.
    pub fn is_causally_ready(
        &self,
        gates: &SortedMap<GroupNo, Gate>,
        id: Uid,
        times: &Stamp,
        low: &[GroupNo],
    ) -> bool
        requires { AreLow self.now times.now low.now }
        ensures { result ≡ is_causally_ready_row gates.now self.now id times.now }
    {
        self.is_member(id.group)
            && id.view == number_in(gates, id.group)
            && is_open_in(gates, id)
            && self.delivered_count(id.group, id.view, id.proc) < id.count
            && self.lets_in(gates, id, times, low)
    }

    /// Whether the process is no member of a source's group, or has delivered so many of the
    /// source's messages and counts them in its time.
    pub fn has_passed(&self, source: Source, count: u32) -> bool
        ensures { result ≡ has_passed_row self.now source count }
    {
        !self.is_member(source.group)
            || (count <= self.done.get(source) && self.counts(source, count))
    }

    // Whether the process's time counts so many messages of a source, or has a later view.
    fn counts(&self, source: Source, count: u32) -> bool
        ensures { result
            ≡ clock_at_most (clock_of_one source count) (clock_of self.now.time source.group) }
    {
        let view = self.time.view(source.group);
        source.view < view
            || (source.view == view && count <= self.time.count(source.group, source.process))
    }

    /// Whether a message may be delivered to the process now, where these are the turns of groups.
    /// The low groups are as in `is_causally_ready`.
    pub fn is_ready(
        &self,
        turns: &[(GroupNo, Turn)],
        gates: &SortedMap<GroupNo, Gate>,
        offered: &Offered,
        low: &[GroupNo],
    ) -> bool
        requires { AreLow self.now offered.now.times low.now }
        ensures { result ≡ is_ready_row turns.now gates.now self.now offered.now }
    {
        let id = offered.id;
        self.is_causally_ready(gates, id, &offered.times, low)
            && (!offered.atomic || turn_in(turns, id.group).is_of(id.proc, id.count))
    }

    /// Whether the process has delivered a message. Counts begin at 1.
    pub fn has_delivered(&self, id: Uid) -> bool
        ensures { result ≡ has_delivered_in self.now id }
    {
        0 < id.count && id.count <= self.delivered_count(id.group, id.view, id.proc)
    }

    // The place of the first of these ids of a view of a group that the process has not delivered.
    fn first_missing(&self, group: GroupNo, view: u32, ids: &[(Proc, u32)]) -> Option<usize>
        ensures { result
            ≡ position (λ e. not (has_delivered_in self.now (uid_in group view e))) ids.now }
    {
        ids.iter().position(|(proc, count)| !self.has_delivered(Uid {
            group,
            view,
            proc: *proc,
            count: *count,
        }))
    }

    /// How many of these ids, which are of a view of a group, the process has delivered before the
    /// first that it has not: 0 to their number.
    pub fn delivered_prefix(&self, group: GroupNo, view: u32, ids: &[(Proc, u32)]) -> usize
        ensures { result ≡ passed_by self.now group view ids.now }
    {
        match self.first_missing(group, view, ids) {
            Some(place) => place,
            None => ids.len(),
        }
    }

    /// Whether nothing was told of what the process is in any group.
    pub fn is_idle(&self) -> bool
        ensures { result ≡ (length self.now.standings == 0) }
    {
        self.standings.entries().is_empty()
    }

    /// Whether the process is a member of a message's group and has not delivered the message.
    pub fn awaits(&self, id: Uid) -> bool
        ensures { result ≡ awaits_row self.now id }
    {
        self.is_member(id.group) && self.delivered_count(id.group, id.view, id.proc) < id.count
    }

    /// Whether it does so, and the message's view is the one that stands.
    pub fn awaits_now(&self, gates: &SortedMap<GroupNo, Gate>, id: Uid) -> bool
        ensures { result ≡ awaits_now gates.now self.now id }
    {
        self.awaits(id) && id.view == number_in(gates, id.group)
    }

    /// The id of a message that is to be delivered to the process before another one, where one is
    /// found.
    pub fn missing_before(&self, gates: &SortedMap<GroupNo, Gate>, offered: &Offered) -> Option<Uid>
        ensures { IfSome result (λ id. holds_back gates.now self.now offered.now id ≡ true) }
    {
        for (group, _) in self.standings.entries() {
            let missing = self.missing_of(gates, offered, *group);
            if missing.is_some() {
                return missing;
            }
        }
        None
    }

    // That of a message of a group.
    fn missing_of(
        &self,
        gates: &SortedMap<GroupNo, Gate>,
        offered: &Offered,
        group: GroupNo,
    ) -> Option<Uid>
        ensures { IfSome result (λ id. holds_back gates.now self.now offered.now id ≡ true) }
    {
        let clock = offered.times.get(group)?;
        let view = clock.view;
        if !self.is_member(group) || view != number_in(gates, group) {
            return None;
        }
        for entry in clock.counts.entries() {
            let count = needed_count(offered.id, group, view, *entry);
            if self.delivered_count(group, view, entry.0) < count {
                return Some(Uid {
                    group,
                    view,
                    proc: entry.0,
                    count,
                });
            }
        }
        None
    }

    /// Notes that a message was delivered to the process. The low groups are as in
    /// `is_causally_ready`. After `NoMemory` the row may be of no use.
    pub fn deliver(&mut self, id: Uid, times: &Stamp, low: &[GroupNo]) -> Result<(), NoMemory>
        requires { AreLow self.old times.now low.now }
        ensures { OnOk result (self.new ≡ delivered_row id times.now self.old) }
    {
        let source = Source {
            group: id.group,
            view: id.view,
            process: id.proc,
        };
        let low = self.in_all(low);
        self.done.put(source, id.count)?;
        match self.time.merge_but(times, low) {
            Ok(()) => Ok(()),
            Err(ClockFault::TooMany) => Ok(()),
            Err(ClockFault::NoMemory) => Err(AllocError),
        }
    }

    /// Forgets what the process delivered of a group's views below a number. Takes no memory.
    pub fn end(&mut self, group: GroupNo, number: u32)
        ensures { self.new ≡ ended_row group number self.old }
    {
        self.done.end(group, number);
    }

    /// Takes a fact in. `NoMemory` changes nothing.
    pub fn tell(&mut self, fact: &ProcessUpdate) -> Result<(), NoMemory>
        ensures { OnOk result (self.new ≡ told_row fact.now self.old) }
    {
        match fact {
            ProcessUpdate::Standing(group, standing) => self.standings.put(*group, *standing),
            ProcessUpdate::Time(time) => {
                self.time = time.copy()?;
                Ok(())
            }
        }
    }
}

// How many messages of an entry must be delivered before a message.
fn needed_count(id: Uid, group: GroupNo, view: u32, entry: (Proc, u32)) -> u32
    ensures { result ≡ needed_count id group view entry }
{
    let (proc, count) = entry;
    let covered = Uid {
        group,
        view,
        proc,
        count,
    };
    if covered == id {
        count.saturating_sub(1)
    } else {
        count
    }
}

// Whether so many messages of an entry suffice before a message. Mostly they are as many as the
// entry counts.
fn is_enough(done: u32, id: Uid, group: GroupNo, view: u32, entry: (Proc, u32)) -> bool
    ensures { result ≡ nat_le (needed_count id group view entry) done }
{
    done >= entry.1 || done >= needed_count(id, group, view, entry)
}

/// Rows, copied.
pub fn copy_rows(alloc: Global, rows: &[Row]) -> Result<Vec<Row>, NoMemory>
    ensures { IfOk result (λ copy. copy.items ≡ rows.now) }
{
    let mut copied = Vec::with_capacity(alloc, rows.len())?;
    for row in rows {
        copied.push(row.copy()?)?;
    }
    Ok(copied)
}
