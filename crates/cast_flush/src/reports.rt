ghost use Rattle.std.specs.Prelude.{◌≡◌, ◌≤◌, map, take, IfOk, OnOk, IsTrue, length};
ghost use Rattle.std.specs.List.{filter_map, list_all};
ghost use Rattle.cast_types.specs.Names.{proc_cmp, entry_cmp};
ghost use Rattle.cast_types.specs.Sets.{with_items};
ghost use Rattle.cast_types.specs.Counts.{is_within};
ghost use Rattle.cast_types.specs.declared.limits.TheConstants.{MAX_PLACED};
ghost use Rattle.cast_types.specs.Rising.{is_rising};
ghost use Rattle.cast_flush.specs.Reports.{has_report, is_complete, greatest_count};
ghost use Rattle.cast_flush.specs.Reports.{cut_from, keeps, all_kept, is_needed};
ghost use Rattle.cast_flush.specs.Reports.{keeper_of, has_body, wanting, want_of};

use crate::report::Report;
use crate::sets::{Ids, insert_id, list_of};
use cast_message::Message;
use cast_types::limits::MAX_PLACED;
use cast_types::{Counts, GroupNo, List, NoMemory, Proc, SiteNo, Uid};
use std::alloc::Global;

/// Whether a site has reported.
pub fn has_report(reports: &[(SiteNo, Report)], site: SiteNo) -> bool
    ensures { result ≡ has_report reports.now site }
{
    reports.iter().any(|report| report.0 == site)
}

/// Whether each of these sites has reported.
pub fn is_complete(awaited: &[SiteNo], reports: &[(SiteNo, Report)]) -> bool
    ensures { result ≡ is_complete awaited.now reports.now }
{
    awaited.iter().all(|site| has_report(reports, *site))
}

// The greatest count of a process that a site reports.
fn greatest_count(reports: &[(SiteNo, Report)], process: Proc) -> u32
    ensures { result ≡ greatest_count reports.now process }
{
    let mut greatest = 0;
    for (_, report) in reports {
        greatest = greatest.max(report.counts.get(process));
    }
    greatest
}

/// For each of these members, who rise and are at most 64, the greatest count that a site reports:
/// so many of its messages belong to the view. `NoMemory` where memory is refused.
pub fn cut_from(
    alloc: Global,
    members: &[Proc],
    reports: &[(SiteNo, Report)],
) -> Result<Counts, NoMemory>
    requires rising { IsTrue (is_rising proc_cmp members.now) }
    requires few { length members.now ≤ 64 }
    ensures { IfOk result (λ c. c ≡ cut_from members.now reports.now) }
{
    let mut entries = Vec::new(alloc);
    for member in members {
        let count = greatest_count(reports, *member);
        if 0 < count {
            entries.push((*member, count))?;
        }
    }
    Ok(Counts::from_entries(entries))
}

// Whether a site keeps a message, found by halving.
fn keeps(report: &Report, id: (Proc, u32)) -> bool
    ensures { result ≡ keeps report.now id }
{
    match report
        .kept
        .entries()
        .binary_search_by_key(&id, |kept| kept.0)
    {
        Ok(_) => true,
        Err(_) => false,
    }
}

/// Whether a message is within a cut.
pub(crate) fn is_within(cut: &Counts, id: (Proc, u32)) -> bool
    ensures { result ≡ is_within cut.now id }
{
    id.1 <= cut.get(id.0)
}

// All that sites report to keep, each once, in rising order.
fn all_kept(alloc: Global, reports: &[(SiteNo, Report)]) -> Result<Vec<(Proc, u32)>, NoMemory>
    ensures { IfOk result (λ l. l.items ≡ all_kept reports.now) }
{
    let mut ids = Ids::new(alloc);
    for (_, report) in reports {
        add_kept(&mut ids, report)?;
    }
    list_of(alloc, &ids)
}

// The first site that keeps a message.
fn keeper_of(reports: &[(SiteNo, Report)], id: (Proc, u32)) -> Option<SiteNo>
    ensures { result ≡ keeper_of reports.now id }
{
    let report = reports.iter().find(|report| keeps(&report.1, id))?;
    Some(report.0)
}

// Adds what a site keeps to a set.
fn add_kept(ids: &mut Ids, report: &Report) -> Result<(), NoMemory>
    ensures { OnOk result
        (ids.new.keys ≡ with_items entry_cmp ids.old.keys (map (λ k. k.0) report.now.kept)) }
{
    for (id, _) in report.kept.entries() {
        insert_id(ids, *id)?;
    }
    Ok(())
}

// Whether a message is within the cut, and some of the sites lack it.
fn is_needed(cut: &Counts, reports: &[(SiteNo, Report)], id: (Proc, u32)) -> bool
    ensures { result ≡ is_needed cut.now reports.now id }
{
    is_within(cut, id) && !is_kept_by_all(reports, id)
}

// Whether all sites keep a message.
fn is_kept_by_all(reports: &[(SiteNo, Report)], id: (Proc, u32)) -> bool
    ensures { result ≡ list_all (λ r. keeps r.1 id) reports.now }
{
    reports.iter().all(|(_, report)| keeps(report, id))
}

// Whether the message of a view is there.
fn has_body(group: GroupNo, view: u32, bodies: &[Message], id: (Proc, u32)) -> bool
    ensures { result ≡ has_body group view bodies.now id }
{
    let name = Uid {
        group,
        view,
        proc: id.0,
        count: id.1,
    };
    bodies.iter().any(|message| message.id == name)
}

/// The messages of a view within a cut, each a process and a count, that some of the sites keep and
/// others lack and that are not among those that came, in rising order. `NoMemory` where memory is
/// refused.
pub fn wanted_ids(
    alloc: Global,
    group: GroupNo,
    view: u32,
    cut: &Counts,
    reports: &[(SiteNo, Report)],
    bodies: &[Message],
) -> Result<Vec<(Proc, u32)>, NoMemory>
    ensures { IfOk result (λ l. l.items ≡ wanting group view cut.now reports.now bodies.now) }
{
    let mut ids = all_kept(alloc, reports)?;
    ids.retain(|id| is_needed(cut, reports, *id));
    ids.retain(|id| !has_body(group, view, bodies, *id));
    Ok(ids)
}

/// The first 64 of these messages, each with the least site that keeps it, from which it is wanted;
/// those that no site keeps are left out. `NoMemory` where memory is refused.
pub fn wants_of(
    alloc: Global,
    reports: &[(SiteNo, Report)],
    wanting: &[(Proc, u32)],
) -> Result<List<(SiteNo, (Proc, u32))>, NoMemory>
    ensures { IfOk result
        (λ l. l ≡ filter_map (want_of reports.now) (take MAX_PLACED wanting.now)) }
{
    let mut wants = Vec::new(alloc);
    for id in &wanting[..MAX_PLACED.min(wanting.len())] {
        if let Some(site) = keeper_of(reports, *id) {
            wants.push((site, *id))?;
        }
    }
    Ok(List::from_vec(wants))
}
