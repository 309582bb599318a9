ghost use Rattle.std.specs.Prelude.{◌≡◌, ◌≤◌, length, IfOk, IsTrue, OnOk, max};
ghost use Rattle.std.specs.Prelude.{true, nat_le, not, is_some, count_by};
ghost use Rattle.std.specs.FinMap.Entries.{find, put, is_sorted};
ghost use Rattle.cast_types.specs.Names.{proc_cmp};
ghost use Rattle.cast_types.specs.Counts.{count_of, is_counts};
ghost use Rattle.cast_clock.specs.Times.{counts_at_most, join_counts};
ghost use Rattle.cast_clock.specs.News.{covers};

use crate::places::{find_near, place_near};
use cast_types::limits::MAX_MEMBERS;
use cast_types::{Counts, NoMemory, Proc, sorted};
use std::alloc::Global;

/// The count of a process among counts, 0 where none is kept.
pub fn count_among(counts: &[(Proc, u32)], process: Proc) -> u32
    ensures { result ≡ count_of counts.now process }
{
    match sorted::find(counts, &process) {
        Some(count) => *count,
        None => 0,
    }
}

/// Whether each count is at most the other's.
pub fn counts_at_most(mine: &[(Proc, u32)], theirs: &[(Proc, u32)]) -> bool
    ensures { result ≡ counts_at_most mine.now theirs.now }
{
    mine.iter().all(|e| e.1 <= count_among(theirs, e.0))
}

/// Whether each of the second counts is kept among the first, and at most that.
pub fn covers(mine: &[(Proc, u32)], theirs: &[(Proc, u32)]) -> bool
    requires { is_sorted proc_cmp mine.now ≡ true }
    ensures { result ≡ covers mine.now theirs.now }
{
    let mut place = 0;
    for (process, count) in theirs {
        let (found, next) = find_near(mine, place, process);
        match found {
            Some(kept) if count <= kept => place = next,
            _ => return false,
        }
    }
    true
}

/// Whether the join of two has at most 64 counts, as it always has where both together have no
/// more. Takes no memory.
pub fn joins_within(mine: &[(Proc, u32)], theirs: &[(Proc, u32)]) -> bool
    requires mine { IsTrue (is_counts mine.now) }
    requires theirs { IsTrue (is_counts theirs.now) }
    ensures { result ≡ nat_le (length (join_counts mine.now theirs.now)) 64 }
{
    mine.len() + theirs.len() <= MAX_MEMBERS || joined_len(mine, theirs) <= MAX_MEMBERS
}

// How many counts the join of two has.
fn joined_len(mine: &[(Proc, u32)], theirs: &[(Proc, u32)]) -> usize
    requires mine { IsTrue (is_counts mine.now) }
    requires theirs { IsTrue (is_counts theirs.now) }
    ensures { result ≡ length (join_counts mine.now theirs.now) }
{
    mine.len() + lacking_count(mine, theirs)
}

// How many of the second counts are of a process that the first lack.
fn lacking_count(mine: &[(Proc, u32)], theirs: &[(Proc, u32)]) -> usize
    requires { is_sorted proc_cmp mine.now ≡ true }
    ensures { result ≡ count_by (λ e. not (is_some (find proc_cmp e.0 mine.now))) theirs.now }
{
    let mut place = 0;
    let mut lacking = 0;
    for (process, _) in theirs {
        let (found, next) = find_near(mine, place, process);
        if found.is_none() {
            lacking += 1;
        }
        place = next;
    }
    lacking
}

/// Whether there is room for the count of a process: at most 64 counts are kept.
pub fn has_place(counts: &Counts, process: Proc, count: u32) -> bool
    ensures { result ≡ nat_le (length (put proc_cmp process count counts.now)) 64 }
{
    let entries = counts.entries();
    match sorted::find(entries, &process) {
        Some(_) => true,
        None => entries.len() < MAX_MEMBERS,
    }
}

/// The maximum of each count.
pub fn join_counts(
    alloc: Global,
    mine: &[(Proc, u32)],
    theirs: &[(Proc, u32)],
) -> Result<Counts, NoMemory>
    requires mine { IsTrue (is_counts mine.now) }
    requires theirs { IsTrue (is_counts theirs.now) }
    requires room { length (join_counts mine.now theirs.now) ≤ 64 }
    ensures { IfOk result (λ c. c ≡ join_counts mine.now theirs.now) }
{
    let mut joined = Vec::from_slice(alloc, mine)?;
    let mut place = 0;
    for (process, count) in theirs {
        place = raise_near(&mut joined, place, *process, *count)?;
    }
    Ok(Counts::from_entries(joined))
}

// Raises the count of a process to this one, where that is greater. Answers the place behind it.
// The place that is given is looked at first.
fn raise_near(
    counts: &mut Vec<(Proc, u32)>,
    place: usize,
    process: Proc,
    count: u32,
) -> Result<usize, NoMemory>
    requires { is_sorted proc_cmp counts.old.items ≡ true }
    ensures { OnOk result (counts.new.items
        ≡ put proc_cmp process (max (count_of counts.old.items process) count) counts.old.items) }
{
    match place_near(counts, place, &process) {
        Ok(at) => {
            counts[at].1 = counts[at].1.max(count);
            Ok(at + 1)
        }
        Err(at) => {
            counts.insert(at, (process, count))?;
            Ok(at + 1)
        }
    }
}
