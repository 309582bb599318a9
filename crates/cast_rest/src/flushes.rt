ghost use Rattle.std.specs.Prelude.{◌≡◌, ◌<◌, OnOk, length, ◌≤◌, ◌&&◌, ◌==◌, true, false};
ghost use Rattle.std.specs.Prelude.{IfOk, vec_len, ◌||◌, ◌++◌, take, not, ◌+◌, Some};
ghost use Rattle.std.specs.List.{list_any, fold};
ghost use Rattle.cast_domain.specs.Records.{GivesBack, KeepsBeside, records_in, Makes};
ghost use Rattle.cast_domain.specs.Records.{own_records, MakesAtAnyCut, StaysUnless};
ghost use Rattle.cast_domain.specs.PartCalls.{record_at};
ghost use Rattle.cast_domain.specs.FlushCalls.{is_awaited_of, is_received_of, has_cut_in};
ghost use Rattle.cast_domain.specs.FlushCalls.{missing_in, missing_upto, with_unreceived};
ghost use Rattle.cast_domain.specs.Calls.{records, complete_in};
ghost use Rattle.cast_domain.specs.RestCalls.{resting_records};
ghost use Rattle.cast_types.specs.declared.limits.TheConstants.{MAX_PLACED};
ghost use Rattle.cast_domain.specs.Freed.{AreNotFree};
ghost use Rattle.cast_domain.specs.Flags.{goes_on as goes_on_at, goes_on_some, wants_own_more};
ghost use Rattle.cast_rules.specs.Rules.Flushes.{go_on, go_on_all, want_own};
ghost use Rattle.cast_rules.specs.Rules.Asking.{request};
ghost use Rattle.cast_rules.specs.Rules.Home.{wants};
ghost use Rattle.cast_rules.specs.Rules.Keys.{message_key};
ghost use Rattle.cast_rules.specs.Rules.Owing.{owe};
ghost use Rattle.cast_rules.specs.Rules.Release.{let_go};

use cast_domain::Domain;
use cast_domain::keys::message_key;
use cast_domain::lent::Lent;
use cast_domain::record::GroupRecord;
use cast_message::Membership;
use cast_timer::OwedKind;
use cast_types::limits::MAX_PLACED;
use cast_types::{Counts, NoMemory, Proc, Uid};

// Installs that wait are completed, or what the site lacks is wanted, by group. Answers whether
// anything changed.
pub(crate) fn go_on_all(domain: &mut Domain, lent: &mut Lent<'_>) -> Result<bool, NoMemory>
    ensures stays { KeepsBeside domain.old lent.old domain.new lent.new }
    ensures made { OnOk result
        (Makes (go_on_all records resting_records) domain.old lent.old domain.new lent.new) }
    ensures still { IfOk result (StaysUnless domain.old lent.old domain.new lent.new) }
    ensures told { IfOk result
        (λ changed. changed ≡ goes_on_some (records_in domain.old lent.old)) }
    ensures none { OnOk result (AreNotFree (records_in domain.old lent.old)
        → AreNotFree (records_in domain.new lent.new)) }
{
    let mut changed = false;
    for place in 0..domain.groups.len() {
        let gone_on = go_on(domain, place, lent)?;
        changed = changed | gone_on;
    }
    Ok(changed)
}

// The Install that waits at the group of a place, where one does, is completed once each member
// here has delivered its cut, and what is free then is let go; until then the site wants what is
// missing.
fn go_on(domain: &mut Domain, place: usize, lent: &mut Lent<'_>) -> Result<bool, NoMemory>
    ensures stays { KeepsBeside domain.old lent.old domain.new lent.new }
    ensures made { OnOk result (Makes (λ r. go_on records resting_records r place)
        domain.old lent.old domain.new lent.new) }
    ensures still { IfOk result (StaysUnless domain.old lent.old domain.new lent.new) }
    ensures told { IfOk result
        (λ changed. changed ≡ goes_on_at (records_in domain.old lent.old) place) }
    ensures none { OnOk result (AreNotFree (records_in domain.old lent.old)
        → AreNotFree (records_in domain.new lent.new)) }
{
    if place >= domain.groups.len() {
        return Ok(false);
    }
    let Some(pending) = domain.record(place).here.pending_install() else {
        return Ok(false);
    };
    if !has_cut(domain, place, &pending.cut) {
        return want_missing(domain, place, &pending.cut, lent);
    }
    let members = pending.members.copy()?;
    let request = pending.request;
    complete(domain, place, &members, request, lent)?;
    domain.let_go(lent);
    Ok(true)
}

// The Install of the next view is completed.
fn complete(
    domain: &mut Domain,
    place: usize,
    members: &Membership,
    request: u32,
    lent: &mut Lent<'_>,
) -> Result<(), NoMemory>
    requires placed { place < vec_len domain.old.groups }
    requires below { (record_at domain.old.groups.items place).here.number < 4294967295 }
    ensures stays { KeepsBeside domain.old lent.old domain.new lent.new }
    ensures made { OnOk result (MakesAtAnyCut (λ r. complete_in r place members.now request)
        domain.old lent.old domain.new lent.new) }
{
    let next = domain.record(place).here.number() + 1;
    domain.install_view(
        false,
        place,
        domain.config.home,
        next,
        members,
        request,
        lent,
    )?;
    Ok(())
}

// Whether each member here has delivered all messages of the view of the group at a place that a
// cut covers: the last one of each process.
fn has_cut(domain: &Domain, place: usize, cut: &Counts) -> bool
    requires { place < vec_len domain.now.groups }
    ensures { result ≡ has_cut_in (own_records domain.now) place cut.now }
{
    let record = domain.record(place);
    cut.entries()
        .iter()
        .all(|last| !domain.is_awaited_of(record, last.0, last.1))
}

// Owes Want for what is missing of a cut. Answers whether one of these was not owed.
fn want_missing(
    domain: &Domain,
    place: usize,
    cut: &Counts,
    lent: &mut Lent<'_>,
) -> Result<bool, NoMemory>
    requires { place < vec_len domain.now.groups }
    ensures back { GivesBack domain.now.config.domain lent.old lent.new }
    ensures made { OnOk result
        (Makes (λ r. fold (want_own records place) r (missing_in r place cut.now))
        domain.now lent.old domain.now lent.new) }
    ensures still { IfOk result (StaysUnless domain.now lent.old domain.now lent.new) }
    ensures told { IfOk result
        (λ changed. changed ≡ list_any (wants_own_more (records_in domain.now lent.old) place)
        (missing_in (records_in domain.now lent.old) place cut.now)) }
{
    let missing = missing_ids(domain, place, cut)?;
    let changed = want_all_missing(domain, place, missing.as_slice(), lent)?;
    Ok(changed)
}

// Owes Want for messages of the view of the group at a place. Answers whether one of them was not
// owed.
fn want_all_missing(
    domain: &Domain,
    place: usize,
    missing: &[(Proc, u32)],
    lent: &mut Lent<'_>,
) -> Result<bool, NoMemory>
    requires { place < vec_len domain.now.groups }
    ensures back { GivesBack domain.now.config.domain lent.old lent.new }
    ensures made { OnOk result (Makes (λ r. fold (want_own records place) r missing.now)
        domain.now lent.old domain.now lent.new) }
    ensures still { IfOk result (StaysUnless domain.now lent.old domain.now lent.new) }
    ensures told { IfOk result (λ changed.
        changed ≡ list_any (wants_own_more (records_in domain.now lent.old) place) missing.now) }
{
    let mut changed = false;
    for name in missing {
        let owed = want_own(domain, place, *name, lent)?;
        changed = changed | owed;
    }
    Ok(changed)
}

// Owes Want for a message of the view of the group at a place. Answers whether it was not owed.
fn want_own(
    domain: &Domain,
    place: usize,
    name: (Proc, u32),
    lent: &mut Lent<'_>,
) -> Result<bool, NoMemory>
    requires { place < vec_len domain.now.groups }
    ensures back { GivesBack domain.now.config.domain lent.old lent.new }
    ensures made { OnOk result
        (Makes (λ r. want_own records place r name) domain.now lent.old domain.now lent.new) }
    ensures still { IfOk result (StaysUnless domain.now lent.old domain.now lent.new) }
    ensures told { IfOk result
        (λ changed. changed ≡ wants_own_more (records_in domain.now lent.old) place name) }
{
    let record = domain.record(place);
    let id = Uid {
        group: record.name,
        view: record.here.number(),
        proc: name.0,
        count: name.1,
    };
    let key = message_key(OwedKind::Want, id, domain.config.home);
    if lent.shared.timers.is_owed(domain.config.domain, &key) {
        return Ok(false);
    }
    domain.owe(key, lent)?;
    Ok(true)
}

// The first messages of a cut that some member here has not delivered, and that were not received.
// It looks at those alone that not all have delivered: at most at the kept ones, and at 64 more.
fn missing_ids(domain: &Domain, place: usize, cut: &Counts) -> Result<Vec<(Proc, u32)>, NoMemory>
    requires { place < vec_len domain.now.groups }
    ensures { IfOk result
        (λ missing. missing.items ≡ missing_in (own_records domain.now) place cut.now) }
{
    let record = domain.record(place);
    let mut missing = Vec::new(*domain.groups.allocator());
    for (proc, last) in cut.entries() {
        add_missing(domain, record, *proc, *last, &mut missing)?;
    }
    Ok(missing)
}

// Adds the missing ones of a process, up to the last that is given, until there are 64.
fn add_missing(
    domain: &Domain,
    group: &GroupRecord,
    proc: Proc,
    last: u32,
    missing: &mut Vec<(Proc, u32)>,
) -> Result<(), NoMemory>
    requires { length missing.old.items ≤ 64 }
    ensures { OnOk result (missing.new.items ≡ take MAX_PLACED
        (missing.old.items ++ missing_upto (own_records domain.now) group.now (proc, last))) }
{
    let delivered = domain
        .delay
        .least_delivered(group.name, group.here.number(), proc);
    for before in delivered..last {
        if missing.len() >= MAX_PLACED {
            return Ok(());
        }
        add_unless_received(domain, group, proc, before + 1, missing)?;
    }
    Ok(())
}

// Adds a message of the view of a group, unless it was received.
fn add_unless_received(
    domain: &Domain,
    group: &GroupRecord,
    proc: Proc,
    count: u32,
    missing: &mut Vec<(Proc, u32)>,
) -> Result<(), NoMemory>
    ensures { OnOk result (missing.new.items
        ≡ with_unreceived (own_records domain.now) group.now (proc, count) missing.old.items) }
{
    if domain.is_received_of(group, proc, count) {
        return Ok(());
    }
    missing.push((proc, count))?;
    Ok(())
}
