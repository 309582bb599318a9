ghost use Rattle.std.specs.Prelude.{◌≡◌, ◌<◌, OnOk, length, ◌≤◌, ◌&&◌, ◌==◌, min};
ghost use Rattle.std.specs.Prelude.{true, false, IfOk, vec_len, ◌||◌, ◌++◌, map, ◌+◌};
ghost use Rattle.std.specs.List.{list_any};
ghost use Rattle.cast_types.specs.declared.limits.TheConstants.{MAX_POSITION};
ghost use Rattle.cast_domain.specs.PartCalls.{record_at, added_if};
ghost use Rattle.cast_domain.specs.FlushCalls.{is_kept_of, with_name_of, is_abcast_named};
ghost use Rattle.cast_domain.specs.FlushCalls.{freeze_in, had_of, pend_in, report_at, pending_of};
ghost use Rattle.cast_domain.specs.FlushCalls.{last_sent_of, kept_of_view, is_unplaced_of};
ghost use Rattle.cast_domain.specs.Calls.{records};
ghost use Rattle.cast_rules.specs.Rules.Home.{start, wants};
ghost use Rattle.cast_domain.specs.Records.{Keeps, KeepsBeside, records_in, Makes};
ghost use Rattle.cast_domain.specs.Records.{MakesAlone, own_records, TellsAlone};
ghost use Rattle.cast_types.specs.Names.{entry_cmp, entry_of};
ghost use Rattle.cast_types.specs.Sets.{set_of};
ghost use Rattle.cast_order.specs.Log.{log_of, whole_kept};
ghost use Rattle.cast_view.specs.Sites.{is_at};
ghost use Rattle.cast_view.specs.MemberSide.{answers_prepare, verdict_of};
ghost use Rattle.cast_view.specs.declared.member.Verdict.TheVariants.{Pends};
ghost use Rattle.cast_rules.specs.Reports.{kept_list};
ghost use Rattle.cast_rules.specs.Rules.Data.{want_no_more, is_well_formed};
ghost use Rattle.cast_rules.specs.Rules.Flushes.{is_wanted_here, on_prepare, on_wanted};
ghost use Rattle.cast_rules.specs.Rules.Asking.{is_from_home, request};
ghost use Rattle.cast_rules.specs.Rules.Keys.{message_key};

use crate::asking::is_from_home;
use crate::data::{is_well_formed, want_no_more};
use crate::order::holder_here;
use cast_domain::Domain;
use cast_domain::keys::message_key;
use cast_domain::lent::Lent;
use cast_domain::record::{GroupRecord, freeze_at, pend_at, report_at};
use cast_flush::Report;
use cast_message::{KeptIds, Membership, Message, SiteFrame, Tail};
use cast_store::Kept;
use cast_timer::OwedKind;
use cast_types::limits::{MAX_KEPT, MAX_POSITION};
use cast_types::{Counts, List, NoMemory, Proc, SiteNo, sorted};

// Prepare: the home asks what the site has of a view. From the first answer on the group is frozen,
// and the site answers as often as it is asked, until an Install waits.
pub(crate) fn on_prepare(
    domain: &mut Domain,
    place: usize,
    from: SiteNo,
    view: u32,
    lent: &mut Lent<'_>,
) -> Result<(), NoMemory>
    requires { place < vec_len domain.old.groups }
    ensures stays { KeepsBeside domain.old lent.old domain.new lent.new }
    ensures made { OnOk result (Makes (λ r. on_prepare records r place from view)
        domain.old lent.old domain.new lent.new) }
{
    if !is_asked(domain, place, from, view) {
        return Ok(());
    }
    let group = domain.record(place).name;
    let report = report(domain, place, lent)?;
    freeze(domain, place, view)?;
    let frame = SiteFrame::Flushed {
        group,
        view,
        counts: report.counts,
        tail: report.tail,
        kept: report.kept,
    };
    domain.send(lent.outs, from, frame)?;
    Ok(())
}

// Whether the home asks for a report of the view of the group at a place, and no Install waits.
fn is_asked(domain: &Domain, place: usize, from: SiteNo, view: u32) -> bool
    requires { place < vec_len domain.now.groups }
    ensures { TellsAlone (λ r. is_from_home records r from
        && answers_prepare (record_at r.groups place).here view) domain.now result }
{
    is_from_home(domain, from) && domain.record(place).here.answers_prepare(view)
}

// A flush has frozen the group at a place, whose view it is.
fn freeze(domain: &mut Domain, place: usize, view: u32) -> Result<(), NoMemory>
    requires placed { place < vec_len domain.old.groups }
    requires answered { answers_prepare (record_at domain.old.groups.items place).here view ≡ true }
    ensures same { Keeps domain.old domain.new }
    ensures made { OnOk result (MakesAlone (λ r. freeze_in r place) domain.old domain.new) }
{
    let group = domain.record(place).name;
    freeze_at(&mut domain.groups, place, view);
    domain.delay.freeze(group)?;
    Ok(())
}

// The Install of the next view waits at the group of a place, and tells the end of the order of the
// one that ends.
pub(crate) fn pend(
    domain: &mut Domain,
    place: usize,
    view: u32,
    members: &Membership,
    request: u32,
    cut: &Counts,
    tail: &Tail,
) -> Result<(), NoMemory>
    requires placed { place < vec_len domain.old.groups }
    requires waits { verdict_of (record_at domain.old.groups.items place).here view ≡ Pends }
    ensures same { Keeps domain.old domain.new }
    ensures made { OnOk result
        (MakesAlone (λ r. pend_in r place (pending_of members.now request cut.now) tail.now)
        domain.old domain.new) }
{
    let group = domain.record(place).name;
    pend_at(&mut domain.groups, place, view, members, request, cut)?;
    domain.delay.pend(group, cut)?;
    domain.orders.close(group, tail, cut)?;
    Ok(())
}

// What the site has of the view of the group at a place.
fn report(domain: &Domain, place: usize, lent: &Lent<'_>) -> Result<Report, NoMemory>
    requires { place < vec_len domain.now.groups }
    ensures { IfOk result (λ report. report
        ≡ report_at (records_in domain.now lent.now) (record_at domain.now.groups.items place)) }
{
    let record = domain.record(place);
    let had = had(domain, record)?;
    let holder = holder_here(domain, record.name);
    let (start, ids) = domain.orders.tail(record.name, holder)?;
    let tail = tail_from(start, ids);
    let kept = kept_of(
        domain,
        record,
        holder,
        &lent.shared.store.messages(domain.config.domain),
    )?;
    record.here.flush_report(had.as_slice(), tail, kept)
}

// How far the messages of each process were delivered here in the view of a group, and the last
// ones that members here sent.
fn had(domain: &Domain, group: &GroupRecord) -> Result<Vec<(Proc, u32)>, NoMemory>
    ensures { IfOk result (λ had. had.items ≡ had_of (own_records domain.now) group.now) }
{
    let mut had = domain
        .delay
        .greatest_counts(group.name, group.here.number())?;
    for member in group.here.members() {
        add_sent(domain, group, *member, &mut had)?;
    }
    Ok(had)
}

// Adds the last message of the view of a group that a member sent, if it is here.
fn add_sent(
    domain: &Domain,
    group: &GroupRecord,
    member: Proc,
    had: &mut Vec<(Proc, u32)>,
) -> Result<(), NoMemory>
    ensures { OnOk result (had.new.items ≡ added_if (is_at domain.now.site member)
        (last_sent_of (own_records domain.now) group.now member) had.old.items) }
{
    if member.site != domain.site {
        return Ok(());
    }
    let sent = domain
        .acks
        .last_received(group.name, group.here.number(), member);
    had.push((member, sent))?;
    Ok(())
}

// The names of kept messages of the view of a group, in order, each marked where it is an ABCAST
// for which its order has no place.
fn kept_of(
    domain: &Domain,
    group: &GroupRecord,
    holder: Option<Proc>,
    kept: &Kept<'_>,
) -> Result<KeptIds, NoMemory>
    ensures { IfOk result (λ list. list ≡ kept_list (kept_of_view group.now kept.now)
        (whole_kept (log_of domain.now.orders group.now.name) holder)) }
{
    let mut names = names_of(domain, group, kept)?;
    names.truncate(MAX_KEPT);
    let marked = mark_names(domain, group, holder, kept, names.as_slice())?;
    Ok(KeptIds::from_entries(marked))
}

// The names of kept messages of the view of a group, in order.
fn names_of(
    domain: &Domain,
    group: &GroupRecord,
    kept: &Kept<'_>,
) -> Result<Vec<(Proc, u32)>, NoMemory>
    ensures { IfOk result (λ names. names.items
        ≡ set_of entry_cmp (map (λ m. entry_of m.id) (kept_of_view group.now kept.now))) }
{
    let mut names = Vec::new(*domain.groups.allocator());
    for position in 0..kept.len() {
        let (_, message) = kept.at(position);
        add_name(group, message, &mut names)?;
    }
    Ok(names)
}

// Names of messages of the view of a group, each marked where it is an ABCAST for which its order
// has no place.
fn mark_names(
    domain: &Domain,
    group: &GroupRecord,
    holder: Option<Proc>,
    kept: &Kept<'_>,
    names: &[(Proc, u32)],
) -> Result<Vec<((Proc, u32), bool)>, NoMemory>
    ensures { IfOk result (λ marked. marked.items ≡ map
        (λ e. (e, is_unplaced_of (own_records domain.now) group.now holder kept.now e)) names.now) }
{
    let mut marked = Vec::new(*domain.groups.allocator());
    for name in names {
        marked.push((*name, is_unplaced(domain, group, holder, kept, *name)))?;
    }
    Ok(marked)
}

// Whether a kept message of the view of a group is an ABCAST for which its order has no place.
fn is_unplaced(
    domain: &Domain,
    group: &GroupRecord,
    holder: Option<Proc>,
    kept: &Kept<'_>,
    name: (Proc, u32),
) -> bool
    ensures { result ≡ is_unplaced_of (own_records domain.now) group.now holder kept.now name }
{
    is_abcast_among(group, kept, name) && !domain.orders.knows(group.name, holder, name)
}

// Forward: a message that the site wants is received, for which no room is needed.
pub(crate) fn on_wanted(
    domain: &mut Domain,
    place: usize,
    from: SiteNo,
    message: &Message,
    lent: &mut Lent<'_>,
) -> Result<(), NoMemory>
    requires { place < vec_len domain.old.groups }
    ensures stays { KeepsBeside domain.old lent.old domain.new lent.new }
    ensures made { OnOk result (Makes (λ r. on_wanted records r place from message.now)
        domain.old lent.old domain.new lent.new) }
    ensures len { OnOk result (vec_len domain.new.groups ≡ vec_len domain.old.groups) }
{
    if !is_from_home(domain, from) || !is_wanted_here(domain, place, message, lent) {
        return Ok(());
    }
    domain.receive(message.copy()?, lent)?;
    want_no_more(domain, message.id, lent);
    Ok(())
}

// Whether an Install waits at the group of a place, and a message is wanted, of the view that ends
// and well formed in it.
fn is_wanted_here(domain: &Domain, place: usize, message: &Message, lent: &Lent<'_>) -> bool
    requires { place < vec_len domain.now.groups }
    ensures { result ≡ is_wanted_here records (records_in domain.now lent.now) place message.now }
{
    let here = &domain.record(place).here;
    let key = message_key(OwedKind::Want, message.id, domain.config.home);
    here.pending_install().is_some()
        && lent.shared.timers.is_owed(domain.config.domain, &key)
        && message.id.view == here.number()
        && is_well_formed(domain, here.members(), message)
}

// Whether a kept message is of the view of a group.
fn is_kept_of(group: &GroupRecord, message: &Message) -> bool
    ensures { result ≡ is_kept_of group.now message.now }
{
    message.id.group == group.name && message.id.view == group.here.number()
}

// Adds the name of a kept message to a set, if it is of the view of a group.
fn add_name(
    group: &GroupRecord,
    message: &Message,
    names: &mut Vec<(Proc, u32)>,
) -> Result<(), NoMemory>
    ensures { OnOk result (names.new.items ≡ with_name_of group.now message.now names.old.items) }
{
    if !is_kept_of(group, message) {
        return Ok(());
    }
    sorted::insert(names, (message.id.proc, message.id.count))?;
    Ok(())
}

// Whether one of the kept messages of the view of a group is an ABCAST of this name.
fn is_abcast_among(group: &GroupRecord, kept: &Kept<'_>, name: (Proc, u32)) -> bool
    ensures { result ≡ list_any
        (λ r. is_kept_of group.now r.message && is_abcast_named name r.message) kept.now }
{
    for position in 0..kept.len() {
        let (_, message) = kept.at(position);
        if is_kept_abcast(group, message, name) {
            return true;
        }
    }
    false
}

// Whether a kept message is of the view of a group, and an ABCAST of this name.
fn is_kept_abcast(group: &GroupRecord, message: &Message, name: (Proc, u32)) -> bool
    ensures { result ≡ (is_kept_of group.now message.now && is_abcast_named name message.now) }
{
    is_kept_of(group, message) && is_abcast(message, name)
}

// Whether a message is an ABCAST of this name.
fn is_abcast(message: &Message, name: (Proc, u32)) -> bool
    ensures { result ≡ is_abcast_named name message.now }
{
    message.kind().is_atomic() && (message.id.proc, message.id.count) == name
}

// The end of an order, behind so many ids: before it stand no more than there are places.
fn tail_from(start: usize, ids: List<(Proc, u32)>) -> Tail
    requires { length ids ≤ 512 }
    ensures { result ≡ record { start = min MAX_POSITION start; ids = ids } }
{
    Tail::from_parts(start.min(MAX_POSITION as usize) as u32, ids.into_vec())
}
