ghost use Rattle.std.specs.Prelude.{◌≡◌, map, filter, take, unwrap_or, IfOk, OnOk};
ghost use Rattle.std.specs.Option.{option_copied};
ghost use Rattle.cast_types.specs.Names.{entry_eq, entry_cmp};
ghost use Rattle.cast_types.specs.Sets.{with_items, is_among, apart_from};
ghost use Rattle.cast_types.specs.Counts.{is_within};
ghost use Rattle.cast_types.specs.declared.limits.TheConstants.{MAX_PLACED, MAX_ORDER};
ghost use Rattle.cast_flush.specs.Decisions.{end_of, no_stretch, longest, unplaced_entries};
ghost use Rattle.cast_flush.specs.Decisions.{added_entries, ids_behind, order_from};

use crate::report::Report;
use crate::reports::is_within;
use crate::sets::{Ids, insert_id, list_of};
use cast_message::Tail;
use cast_types::limits::{MAX_ORDER, MAX_PLACED};
use cast_types::{Counts, NoMemory, Proc, SiteNo};
use std::alloc::Global;

// How far a part of an order reaches.
fn end_of(tail: &Tail) -> u64
    ensures { result ≡ end_of tail.now }
{
    u64::from(tail.start()) + tail.ids().len() as u64
}

// The order that reaches farthest of those that are reported, and of equal ones the first. None
// reaches nowhere.
fn longest_tail(reports: &[(SiteNo, Report)]) -> Option<&Tail>
    ensures { unwrap_or (option_copied result) no_stretch ≡ longest reports.now }
{
    let mut longest = None;
    let mut farthest = 0;
    for (_, report) in reports {
        let end = end_of(&report.tail);
        if farthest < end {
            farthest = end;
            longest = Some(&report.tail);
        }
    }
    longest
}

// Adds the marked ones of what a site keeps to a set.
fn add_unplaced(ids: &mut Ids, report: &Report) -> Result<(), NoMemory>
    ensures { OnOk result (ids.new.keys
        ≡ with_items entry_cmp ids.old.keys (map (λ k. k.0) (filter (λ k. k.1) report.now.kept))) }
{
    for (id, is_unplaced) in report.kept.entries() {
        if *is_unplaced {
            insert_id(ids, *id)?;
        }
    }
    Ok(())
}

// The ABCASTs that some site keeps and knows no place for.
fn unplaced_ids(alloc: Global, reports: &[(SiteNo, Report)]) -> Result<Vec<(Proc, u32)>, NoMemory>
    ensures { IfOk result (λ l. l.items ≡ unplaced_entries reports.now) }
{
    let mut ids = Ids::new(alloc);
    for (_, report) in reports {
        add_unplaced(&mut ids, report)?;
    }
    list_of(alloc, &ids)
}

// Those of them within the cut that an order lacks, at most 64.
fn added_ids(
    cut: &Counts,
    mut unplaced: Vec<(Proc, u32)>,
    placed: &[(Proc, u32)],
) -> Vec<(Proc, u32)>
    ensures { result.items ≡ take MAX_PLACED
        (apart_from entry_eq (filter (is_within cut.now) unplaced.items) placed.now) }
{
    unplaced.retain(|id| is_within(cut, *id));
    unplaced.retain(|id| !has_place(placed, *id));
    unplaced.truncate(MAX_PLACED);
    unplaced
}

// Whether an id is one of an order's.
fn has_place(placed: &[(Proc, u32)], id: (Proc, u32)) -> bool
    ensures { result ≡ is_among entry_eq id placed.now }
{
    placed.iter().any(|other| id == *other)
}

// A part of an order, within the cut, and behind it the ABCASTs without a place.
fn order_behind(
    alloc: Global,
    cut: &Counts,
    reports: &[(SiteNo, Report)],
    tail: &Tail,
) -> Result<Tail, NoMemory>
    ensures { IfOk result (λ t. t ≡ record {
      start = tail.now.start;
      ids = take MAX_ORDER
          (ids_behind cut.now reports.now tail.now.ids);
    }) }
{
    let mut ids = Vec::from_slice(alloc, tail.ids())?;
    ids.retain(|id| is_within(cut, *id));
    let more = added_ids(cut, unplaced_ids(alloc, reports)?, &ids);
    ids.extend_from_slice(&more)?;
    ids.truncate(MAX_ORDER);
    Ok(Tail::from_parts(tail.start(), ids))
}

/// The order that the old view ends with, within the cut: the longest that is reported, and behind
/// it at most 64 of the ABCASTs that some site keeps and knows no place for; at most 576 ids in
/// all. `NoMemory` where memory is refused.
pub fn order_from(
    alloc: Global,
    cut: &Counts,
    reports: &[(SiteNo, Report)],
) -> Result<Tail, NoMemory>
    ensures { IfOk result (λ t. t ≡ order_from cut.now reports.now) }
{
    match longest_tail(reports) {
        Some(tail) => order_behind(alloc, cut, reports, tail),
        None => order_behind(alloc, cut, reports, &Tail::new(alloc)),
    }
}
