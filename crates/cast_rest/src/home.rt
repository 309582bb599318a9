ghost use Rattle.std.specs.Prelude.{◌≡◌, ◌<◌, ◌&&◌, ◌==◌, true, false, IfOk, OnOk, vec_len, not};
ghost use Rattle.cast_rules.specs.Rules.Home.{wants, announce, decide, lead, lead_group};
ghost use Rattle.cast_rules.specs.Rules.Home.{owe_of_home, prepare, start, want, want_bodies};
ghost use Rattle.cast_domain.specs.Records.{GivesBack, KeepsBeside, records_in, Makes, StaysUnless};
ghost use Rattle.cast_domain.specs.PartCalls.{record_at};
ghost use Rattle.cast_domain.specs.Calls.{records};
ghost use Rattle.std.specs.List.{fold, list_any};
ghost use Rattle.cast_view.specs.Home.{may_start, may_decide};
ghost use Rattle.cast_domain.specs.Flags.{leads_in, leads_some, wants_more};
ghost use Rattle.cast_rules.specs.Rules.Keys.{home_key, want_key};
ghost use Rattle.cast_rules.specs.Rules.Owing.{owe};
ghost use Rattle.cast_rules.specs.Rules.Views.{install};

use cast_domain::Domain;
use cast_domain::keys::{home_key, want_key};
use cast_domain::lent::Lent;
use cast_domain::record::{decide_at, reckon_at, start_at};
use cast_timer::OwedKind;
use cast_types::{NoMemory, Proc, SiteNo};

// The home starts flushes and decides views, by group.
pub(crate) fn lead(domain: &mut Domain, lent: &mut Lent<'_>) -> Result<bool, NoMemory>
    ensures stays { KeepsBeside domain.old lent.old domain.new lent.new }
    ensures made { OnOk result (Makes (lead records) domain.old lent.old domain.new lent.new) }
    ensures still { IfOk result (StaysUnless domain.old lent.old domain.new lent.new) }
    ensures told { IfOk result (λ changed. changed ≡ leads_some (records_in domain.old lent.old)) }
{
    let mut changed = false;
    if domain.is_home() {
        for place in 0..domain.groups.len() {
            let led = lead_group(domain, place, lent)?;
            changed = changed | led;
        }
    }
    Ok(changed)
}

// The home starts a flush of the group at a place, wants what some sites lack, and decides the next
// view, where these are due.
fn lead_group(domain: &mut Domain, place: usize, lent: &mut Lent<'_>) -> Result<bool, NoMemory>
    requires { place < vec_len domain.old.groups }
    ensures stays { KeepsBeside domain.old lent.old domain.new lent.new }
    ensures made { OnOk result
        (Makes (λ r. lead_group records r place) domain.old lent.old domain.new lent.new) }
    ensures still { IfOk result (StaysUnless domain.old lent.old domain.new lent.new) }
    ensures told { IfOk result
        (λ changed. changed ≡ leads_in (records_in domain.old lent.old) place) }
    ensures len { vec_len domain.new.groups ≡ vec_len domain.old.groups }
{
    let started = start_and_reckon(domain, place, lent)?;
    let wanted = want_bodies(domain, place, lent)?;
    let decided = decide(domain, place, lent)?;
    Ok(started | wanted | decided)
}

// The home starts a flush where something is to change, and owes Prepare. Answers whether it did.
fn start(domain: &mut Domain, place: usize, lent: &mut Lent<'_>) -> Result<bool, NoMemory>
    requires { place < vec_len domain.old.groups }
    ensures stays { KeepsBeside domain.old lent.old domain.new lent.new }
    ensures made { OnOk result
        (Makes (λ r. start records r place) domain.old lent.old domain.new lent.new) }
    ensures still { IfOk result (StaysUnless domain.old lent.old domain.new lent.new) }
    ensures told { IfOk result
        (λ changed. changed ≡ may_start (record_at domain.old.groups.items place).home) }
    ensures len { vec_len domain.new.groups ≡ vec_len domain.old.groups }
{
    if !domain.record(place).home.may_start() {
        return Ok(false);
    }
    start_at(&mut domain.groups, place)?;
    prepare(domain, place, lent)?;
    Ok(true)
}

// The home starts a flush where something is to change. What some sites lack is reckoned once, and
// not in each pass. Answers whether it started one.
fn start_and_reckon(
    domain: &mut Domain,
    place: usize,
    lent: &mut Lent<'_>,
) -> Result<bool, NoMemory>
    requires { place < vec_len domain.old.groups }
    ensures stays { KeepsBeside domain.old lent.old domain.new lent.new }
    ensures made { OnOk result
        (Makes (λ r. start records r place) domain.old lent.old domain.new lent.new) }
    ensures still { IfOk result (StaysUnless domain.old lent.old domain.new lent.new) }
    ensures told { IfOk result
        (λ changed. changed ≡ may_start (record_at domain.old.groups.items place).home) }
    ensures len { vec_len domain.new.groups ≡ vec_len domain.old.groups }
{
    let started = start(domain, place, lent)?;
    reckon_at(&mut domain.groups, place)?;
    Ok(started)
}

// The home owes Want for messages that some sites lack. Answers whether one of them was not owed.
fn want_bodies(domain: &Domain, place: usize, lent: &mut Lent<'_>) -> Result<bool, NoMemory>
    requires { place < vec_len domain.now.groups }
    ensures back { GivesBack domain.now.config.domain lent.old lent.new }
    ensures made { OnOk result
        (Makes (λ r. want_bodies records r place) domain.now lent.old domain.now lent.new) }
    ensures still { IfOk result (StaysUnless domain.now lent.old domain.now lent.new) }
    ensures told { IfOk result
        (λ changed. changed ≡ list_any (wants_more (records_in domain.now lent.old) place)
        (wants records (records_in domain.now lent.old) place)) }
{
    let wants = domain.wants(place)?;
    let changed = want_all(domain, place, wants.as_slice(), lent)?;
    Ok(changed)
}

// Owes Want for messages. Answers whether one of them was not owed.
fn want_all(
    domain: &Domain,
    place: usize,
    wants: &[(SiteNo, (Proc, u32))],
    lent: &mut Lent<'_>,
) -> Result<bool, NoMemory>
    requires { place < vec_len domain.now.groups }
    ensures back { GivesBack domain.now.config.domain lent.old lent.new }
    ensures made { OnOk result (Makes (λ r. fold (want records place) r wants.now)
        domain.now lent.old domain.now lent.new) }
    ensures still { IfOk result (StaysUnless domain.now lent.old domain.now lent.new) }
    ensures told { IfOk result (λ changed.
        changed ≡ list_any (wants_more (records_in domain.now lent.old) place) wants.now) }
{
    let mut changed = false;
    for wanted in wants {
        let owed = want(domain, place, *wanted, lent)?;
        changed = changed | owed;
    }
    Ok(changed)
}

// Owes Want for a message. Answers whether it was not owed.
fn want(
    domain: &Domain,
    place: usize,
    wanted: (SiteNo, (Proc, u32)),
    lent: &mut Lent<'_>,
) -> Result<bool, NoMemory>
    requires { place < vec_len domain.now.groups }
    ensures back { GivesBack domain.now.config.domain lent.old lent.new }
    ensures made { OnOk result
        (Makes (λ r. want records place r wanted) domain.now lent.old domain.now lent.new) }
    ensures still { IfOk result (StaysUnless domain.now lent.old domain.now lent.new) }
    ensures told { IfOk result
        (λ changed. changed ≡ wants_more (records_in domain.now lent.old) place wanted) }
{
    let key = want_key(domain.record(place).name, wanted);
    if lent.shared.timers.is_owed(domain.config.domain, &key) {
        return Ok(false);
    }
    domain.owe(key, lent)?;
    Ok(true)
}

// The home decides the next view, where it is due, and owes Install. Answers whether it did.
fn decide(domain: &mut Domain, place: usize, lent: &mut Lent<'_>) -> Result<bool, NoMemory>
    requires { place < vec_len domain.old.groups }
    ensures stays { KeepsBeside domain.old lent.old domain.new lent.new }
    ensures made { OnOk result
        (Makes (λ r. decide records r place) domain.old lent.old domain.new lent.new) }
    ensures still { IfOk result (StaysUnless domain.old lent.old domain.new lent.new) }
    ensures told { IfOk result
        (λ changed. changed ≡ may_decide (record_at domain.old.groups.items place).name
        (record_at domain.old.groups.items place).home) }
    ensures len { vec_len domain.new.groups ≡ vec_len domain.old.groups }
{
    let record = domain.record(place);
    if !record.home.may_decide(record.name)? {
        return Ok(false);
    }
    decide_at(&mut domain.groups, place)?;
    announce(domain, place, lent)?;
    Ok(true)
}

// Owes Prepare to each site whose report the home awaits.
fn prepare(domain: &Domain, place: usize, lent: &mut Lent<'_>) -> Result<(), NoMemory>
    requires { place < vec_len domain.now.groups }
    ensures back { GivesBack domain.now.config.domain lent.old lent.new }
    ensures made { OnOk result
        (Makes (λ r. prepare records r place) domain.now lent.old domain.now lent.new) }
{
    let home = &domain.record(place).home;
    owe_of_home(
        domain,
        OwedKind::Prepare,
        place,
        home.phase().awaited_sites(),
        lent,
    )?;
    Ok(())
}

// Owes Install to each site that is to install the view.
fn announce(domain: &Domain, place: usize, lent: &mut Lent<'_>) -> Result<(), NoMemory>
    requires { place < vec_len domain.now.groups }
    ensures back { GivesBack domain.now.config.domain lent.old lent.new }
    ensures made { OnOk result
        (Makes (λ r. announce records r place) domain.now lent.old domain.now lent.new) }
{
    let home = &domain.record(place).home;
    owe_of_home(
        domain,
        OwedKind::Install,
        place,
        home.phase().sites_to_install(),
        lent,
    )?;
    Ok(())
}

// Owes a frame of the home about the group at a place to sites.
fn owe_of_home(
    domain: &Domain,
    kind: OwedKind,
    place: usize,
    sites: &[SiteNo],
    lent: &mut Lent<'_>,
) -> Result<(), NoMemory>
    requires { place < vec_len domain.now.groups }
    ensures back { GivesBack domain.now.config.domain lent.old lent.new }
    ensures made { OnOk result (Makes (λ r. fold (owe_of_home records kind place) r sites.now)
        domain.now lent.old domain.now lent.new) }
{
    for site in sites {
        owe_to(domain, kind, place, *site, lent)?;
    }
    Ok(())
}

// Owes a frame of the home about the group at a place to a site.
fn owe_to(
    domain: &Domain,
    kind: OwedKind,
    place: usize,
    to: SiteNo,
    lent: &mut Lent<'_>,
) -> Result<(), NoMemory>
    requires { place < vec_len domain.now.groups }
    ensures back { GivesBack domain.now.config.domain lent.old lent.new }
    ensures made { OnOk result
        (Makes (λ r. owe_of_home records kind place r to) domain.now lent.old domain.now lent.new) }
{
    domain.owe(home_key(kind, domain.record(place).name, to), lent)
}
