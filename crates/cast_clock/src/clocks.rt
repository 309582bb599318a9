ghost use Rattle.std.specs.Prelude.{◌≡◌, ◌<◌, ◌≤◌, ◌+◌, IfOk, IsOk, OnOk, OnErr, IsTrue};
ghost use Rattle.std.specs.Prelude.{true, false, nat_lt, unwrap_or, length, Contains};
ghost use Rattle.std.specs.Prelude.{vec_len, vec_capacity};
ghost use Rattle.std.specs.Option.{option_copied};
ghost use Rattle.std.specs.List.{list_all};
ghost use Rattle.std.specs.FinMap.Entries.{put, is_sorted};
ghost use Rattle.cast_types.specs.Names.{group_cmp};
ghost use Rattle.cast_types.specs.Counts.{is_counts};
ghost use Rattle.cast_clock.specs.Times.{first_clock, clock_of, view_of, clock_at_most};
ghost use Rattle.cast_clock.specs.Times.{at_most, join_clocks, clock_has_room, is_time};
ghost use Rattle.cast_clock.specs.News.{is_known, news, put_all, AreKnown};

use crate::counts::{counts_at_most, covers, join_counts, joins_within};
use crate::fault::ClockFault;
use crate::places::{find_near, place_near, stands_at};
use cast_types::limits::MAX_MEMBERS;
use cast_types::{Clock, Counts, GroupNo, NoMemory, Proc, sorted};
use std::alloc::Global;
use std::cmp::Ordering;

/// The view of a group, 0 where the clocks have none of it.
pub fn view_among(clocks: &[(GroupNo, Clock)], group: GroupNo) -> u32
    ensures { result ≡ view_of clocks.now group }
{
    match sorted::find(clocks, &group) {
        Some(clock) => clock.view,
        None => 0,
    }
}

/// The counts of a group in rising order of their processes.
pub fn counts_among(clocks: &[(GroupNo, Clock)], group: GroupNo) -> &[(Proc, u32)]
    ensures value { result.now ≡ (clock_of clocks.now group).counts }
    ensures valid { IsTrue (is_counts result.now) }
{
    match sorted::find(clocks, &group) {
        Some(clock) => clock.counts.entries(),
        None => &[],
    }
}

/// A copy of the clock of a group.
pub fn clock_among(
    alloc: Global,
    clocks: &[(GroupNo, Clock)],
    group: GroupNo,
) -> Result<Clock, NoMemory>
    ensures { IfOk result (λ c. c ≡ clock_of clocks.now group) }
{
    match sorted::find(clocks, &group) {
        Some(clock) => clock.copy(),
        None => Ok(Clock {
            view: 0,
            counts: Counts::new(alloc),
        }),
    }
}

/// Whether a clock is at most that of a group among others.
pub fn is_at_most(clock: &Clock, others: &[(GroupNo, Clock)], group: GroupNo) -> bool
    ensures { result ≡ clock_at_most clock.now (clock_of others.now group) }
{
    let view = view_among(others, group);
    clock.view < view
        || (clock.view == view
            && counts_at_most(clock.counts.entries(), counts_among(others, group)))
}

/// Whether each clock is at most that of its group among others.
pub fn all_at_most(clocks: &[(GroupNo, Clock)], others: &[(GroupNo, Clock)]) -> bool
    ensures { result ≡ at_most clocks.now others.now }
{
    clocks.iter().all(|e| is_at_most(&e.1, others, e.0))
}

// A clock's view and counts: 0 and none where there is no clock.
fn parts(clock: Option<&Clock>) -> (u32, &[(Proc, u32)])
    ensures view { result.0 ≡ (unwrap_or (option_copied clock.entry) (first_clock 0)).view }
    ensures counts { result.1.now ≡ (unwrap_or (option_copied clock.entry) (first_clock 0)).counts }
    ensures valid { IsTrue (is_counts result.1.now) }
{
    match clock {
        Some(clock) => (clock.view, clock.counts.entries()),
        None => (0, &[]),
    }
}

/// Whether the joined clock has at most 64 counts. Takes no memory.
pub fn fits_joined(mine: Option<&Clock>, theirs: &Clock) -> bool
    ensures { result ≡ clock_has_room
        (join_clocks (unwrap_or (option_copied mine.entry) (first_clock 0)) theirs.now) }
{
    let (view, here) = parts(mine);
    let there = theirs.counts.entries();
    match view.cmp(&theirs.view) {
        Ordering::Less => there.len() <= MAX_MEMBERS,
        Ordering::Equal => joins_within(here, there),
        Ordering::Greater => here.len() <= MAX_MEMBERS,
    }
}

// Whether a clock is not looked at: its group stands at this place of the known groups.
fn is_passed(known: &[GroupNo], place: usize, group: GroupNo, clock: &Clock) -> bool
    ensures within { IsTrue result → place < length known.now }
    ensures listed { IsTrue result → Contains known.now group }
    ensures valid { IsTrue (is_counts clock.now.counts) }
{
    // The counts are valid, as all counts are. Nothing else of them is looked at.
    clock.counts.entries();
    stands_at(known, place, group)
}

/// Whether each clock, joined with that of its group, has at most 64 counts. The clocks of the
/// known groups are not looked at. Takes no memory.
pub fn all_fit(mine: &[(GroupNo, Clock)], theirs: &[(GroupNo, Clock)], known: &[GroupNo]) -> bool
    requires time { IsTrue (is_time mine.now) }
    requires viewed { list_all (λ e. nat_lt 0 e.1.view) theirs.now ≡ true }
    requires known { AreKnown mine.now theirs.now known.now }
    ensures { result
        ≡ list_all (λ e. clock_has_room (join_clocks (clock_of mine.now e.0) e.1)) theirs.now }
{
    let mut place = 0;
    let mut passed = 0;
    for (group, clock) in theirs {
        if is_passed(known, passed, *group, clock) {
            passed += 1;
            continue;
        }
        let (found, next) = find_near(mine, place, group);
        if !fits_joined(found, clock) {
            return false;
        }
        place = next;
    }
    true
}

/// Whether each clock has a view from 1 on.
pub fn all_viewed(clocks: &[(GroupNo, Clock)]) -> bool
    ensures { result ≡ list_all (λ e. nat_lt 0 e.1.view) clocks.now }
{
    clocks.iter().all(|e| e.1.view > 0)
}

// Whether a clock is kept that a join with the other leaves as it is.
fn is_known(mine: Option<&Clock>, theirs: &Clock) -> bool
    ensures { result ≡ is_known (option_copied mine.entry) theirs.now }
{
    match mine {
        Some(clock) => {
            theirs.view < clock.view
                || (clock.view == theirs.view
                    && covers(clock.counts.entries(), theirs.counts.entries()))
        }
        None => false,
    }
}

/// The clock of the greater view, or of equal views the maximum of each count.
#[tactic(auto, using(crate::proofs::Valid::joined_clock_valid))]
pub fn join_clock(alloc: Global, mine: Option<&Clock>, theirs: &Clock) -> Result<Clock, NoMemory>
    requires room { clock_has_room
        (join_clocks (unwrap_or (option_copied mine) (first_clock 0)) theirs.now) ≡ true }
    ensures value { IfOk result
        (λ c. c ≡ join_clocks (unwrap_or (option_copied mine.entry) (first_clock 0)) theirs.now) }
    ensures valid { IfOk result (λ c. IsTrue (is_counts c.counts)) }
{
    let (view, here) = parts(mine);
    let there = theirs.counts.entries();
    match view.cmp(&theirs.view) {
        Ordering::Less => theirs.copy(),
        Ordering::Equal => {
            let counts = join_counts(alloc, here, there)?;
            Ok(Clock { view, counts })
        }
        Ordering::Greater => {
            let counts = Counts::from_entries(Vec::from_slice(alloc, here)?);
            Ok(Clock { view, counts })
        }
    }
}

/// The joined clocks of the groups whose clock the join changes. The clocks of the known groups are
/// not looked at. `TooMany`: a joined clock has more than 64 counts.
pub fn news(
    alloc: Global,
    mine: &[(GroupNo, Clock)],
    theirs: &[(GroupNo, Clock)],
    known: &[GroupNo],
) -> Result<Vec<(GroupNo, Clock)>, ClockFault>
    requires time { IsTrue (is_time mine.now) }
    requires viewed { list_all (λ e. nat_lt 0 e.1.view) theirs.now ≡ true }
    requires known { AreKnown mine.now theirs.now known.now }
    ensures value { IfOk result (λ v. v.items ≡ news mine.now theirs.now) }
    ensures valid { IfOk result (λ v. list_all (λ e. is_counts e.1.counts) v.items ≡ true) }
    ensures fits { OnOk result
        (list_all (λ e. clock_has_room (join_clocks (clock_of mine.now e.0) e.1)) theirs.now
        ≡ true) }
    ensures too_many { result ≡ Err ClockFault.TooMany
        → list_all (λ e. clock_has_room (join_clocks (clock_of mine.now e.0) e.1))
        theirs.now ≡ false }
{
    let mut news = Vec::new(alloc);
    let mut place = 0;
    let mut passed = 0;
    for (group, clock) in theirs {
        if is_passed(known, passed, *group, clock) {
            passed += 1;
            continue;
        }
        let (found, next) = find_near(mine, place, group);
        if !is_known(found, clock) {
            if !fits_joined(found, clock) {
                return Err(ClockFault::TooMany);
            }
            news.push((*group, join_clock(alloc, found, clock)?))?;
        }
        place = next;
    }
    Ok(news)
}

/// Puts clocks in, one after the other. `NoMemory` changes nothing.
pub fn put_all(
    clocks: &mut Vec<(GroupNo, Clock)>,
    news: Vec<(GroupNo, Clock)>,
) -> Result<(), NoMemory>
    requires { is_sorted group_cmp clocks.old.items ≡ true }
    ensures ok { OnOk result (clocks.new.items ≡ put_all news.items clocks.old.items) }
    ensures err { OnErr result (clocks.new.items ≡ clocks.old.items) }
{
    clocks.reserve(news.len())?;
    let mut place = 0;
    for (group, clock) in news {
        place = put_near(clocks, place, group, clock)?;
    }
    Ok(())
}

// Sets the clock of a group. Answers the place behind it. The place that is given is looked at
// first.
fn put_near(
    clocks: &mut Vec<(GroupNo, Clock)>,
    place: usize,
    group: GroupNo,
    clock: Clock,
) -> Result<usize, NoMemory>
    requires { is_sorted group_cmp clocks.old.items ≡ true }
    ensures value { OnOk result (clocks.new.items ≡ put group_cmp group clock clocks.old.items) }
    ensures len { vec_len clocks.new ≤ vec_len clocks.old + 1 }
    ensures capacity { vec_capacity clocks.old ≤ vec_capacity clocks.new }
    ensures succeeds { vec_len clocks.old < vec_capacity clocks.old → IsOk result }
{
    match place_near(clocks, place, &group) {
        Ok(at) => {
            clocks[at].1 = clock;
            Ok(at + 1)
        }
        Err(at) => {
            clocks.insert(at, (group, clock))?;
            Ok(at + 1)
        }
    }
}
