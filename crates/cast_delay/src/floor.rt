ghost use Rattle.std.specs.Prelude.{◌≡◌, ◌↔◌, ◌⊎◌, ◌≤◌, [], true, IsTrue, Contains};
ghost use Rattle.cast_types.specs.declared.names.GroupNo.{GroupNo};
ghost use Rattle.std.specs.List.{list_all};
ghost use Rattle.cast_ready.specs.DeliveredCounts.{count_at};
ghost use Rattle.cast_ready.specs.Rows.{has_passed_row};
ghost use Rattle.cast_delay.specs.Floors.{IsUnder, Rises, IsWithin, AreWithin, KeptIf, groups_of};

use cast_ready::{DeliveredCounts, Row};
use cast_types::{Clock, GroupNo, Key, Source, Stamp};
use std::alloc::Global;

/// A time of fewer groups is looked at row by row.
const FEW_GROUPS: usize = 4;

/// So many counts at most are raised for one message.
const TRIES: usize = 16;

/// How many messages of each source all members here have delivered, at least, and of which groups
/// the time of the message that came last counts no more.
#[derive(Drop)]
pub struct Floor {
    /// Each row whose process is a member of a source's group has delivered so many of the source's
    /// messages, and counts them in its time.
    pub counts: DeliveredCounts,
    /// The key of the message that came last.
    pub key: Key,
    /// The groups whose clocks in its time are within these counts, in rising order.
    pub groups: Vec<GroupNo>,
}

impl Floor {
    /// Nothing is known.
    pub fn new(alloc: Global) -> Self
        ensures counts { result.counts ≡ [] }
        ensures groups { result.groups.items ≡ [] }
    {
        Floor {
            counts: DeliveredCounts::new(alloc),
            key: Key(0),
            groups: Vec::new(alloc),
        }
    }

    /// Whether no count is known.
    pub fn is_empty(&self) -> bool
        ensures { IsTrue result ↔ (self.now.counts ≡ []) }
    {
        self.counts.is_empty()
    }

    /// Leaves nothing.
    pub fn clear(&mut self)
        ensures counts { self.new.counts ≡ [] }
        ensures groups { self.new.groups.items ≡ [] }
    {
        self.counts.clear();
        self.groups.clear();
    }

    /// Leaves nothing, unless it is to stay.
    pub fn keep_if(&mut self, stays: bool)
        ensures { KeptIf stays self.old self.new }
    {
        if !stays {
            self.clear();
        }
    }

    /// The groups that are known for the message under a key.
    pub fn groups_of(&self, key: Key) -> &[GroupNo]
        ensures { result.now ≡ groups_of self.now key }
    {
        if self.key == key { &self.groups } else { &[] }
    }

    /// Looks at the time of a message. Counts that are less than those of the time rise to them
    /// where all rows allow it, but few at once. It takes memory; without it less is known.
    pub fn look(&mut self, rows: &[Row], key: Key, times: &Stamp)
        requires { IsUnder self.old.counts rows.now }
        ensures under { IsUnder self.new.counts rows.now }
        ensures within { AreWithin self.new.counts times.now self.new.groups.items }
        ensures key { self.new.key ≡ key }
    {
        self.key = key;
        self.groups.clear();
        if times.clocks().len() < FEW_GROUPS {
            return;
        }
        let mut tries = TRIES;
        let mut place = 0;
        for (group, clock) in times.clocks() {
            let (within, next, left) = holds(&mut self.counts, rows, place, tries, *group, clock);
            place = next;
            tries = left;
            note(&mut self.groups, *group, within);
        }
    }
}

// Adds a group, if it is to be added. Without memory it is not.
fn note(groups: &mut Vec<GroupNo>, group: GroupNo, adds: bool)
    ensures { (g : GroupNo) → Contains groups.new.items g
        → Contains groups.old.items g ⊎ ((adds ≡ true) × (group ≡ g)) }
{
    if adds {
        let _ = groups.push(group);
    }
}

// Whether a group's clock is within the counts, once those were raised. The place is where a count
// is looked at first; behind it and the tries that are left the result has those that come next.
fn holds(
    counts: &mut DeliveredCounts,
    rows: &[Row],
    place: usize,
    tries: usize,
    group: GroupNo,
    clock: &Clock,
) -> (bool, usize, usize)
    requires { IsUnder counts.old rows.now }
    ensures under { IsUnder counts.new rows.now }
    ensures rises { Rises counts.old counts.new }
    ensures within { result.0 ≡ true → IsWithin counts.new group clock.now }
{
    let mut place = place;
    let mut tries = tries;
    for (process, count) in clock.counts.entries() {
        let source = Source {
            group,
            view: clock.view,
            process: *process,
        };
        let (kept, next) = counts.near(place, source);
        place = next;
        if *count == 0 {
            return (false, place, tries);
        }
        if kept < *count {
            if tries == 0 {
                return (false, place, tries);
            }
            tries -= 1;
            if !raise(counts, rows, source, *count) {
                return (false, place, tries);
            }
        }
    }
    (0 < clock.counts.entries().len(), place, tries)
}

// Raises the count of a source, where all rows have passed so many of its messages.
fn raise(counts: &mut DeliveredCounts, rows: &[Row], source: Source, count: u32) -> bool
    requires { IsUnder counts.old rows.now }
    ensures under { IsUnder counts.new rows.now }
    ensures rises { Rises counts.old counts.new }
    ensures raised { result ≡ true → count ≤ count_at counts.new source }
{
    if !have_passed(rows, source, count) {
        return false;
    }
    match counts.raise(source, count) {
        Ok(()) => true,
        Err(_) => false,
    }
}

// Whether all rows have passed so many messages of a source.
fn have_passed(rows: &[Row], source: Source, count: u32) -> bool
    ensures { result ≡ list_all (λ row. has_passed_row row source count) rows.now }
{
    rows.iter().all(|row| row.has_passed(source, count))
}
