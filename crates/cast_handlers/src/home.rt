ghost use Rattle.std.specs.Prelude.{◌≡◌, ◌<◌, ◌&&◌, ◌==◌, None, IfOk, OnOk, vec_len, not, Some};
ghost use Rattle.cast_types.specs.Names.{entry_of, entry_eq, uid_eq, site_eq};
ghost use Rattle.std.specs.List.{find};
ghost use Rattle.std.specs.Option.{option_copied};
ghost use Rattle.cast_rules.specs.Rules.Home.{wants, forwardable, is_of_home};
ghost use Rattle.cast_rules.specs.Rules.Home.{on_forward, on_installed, on_want};
ghost use Rattle.cast_rules.specs.Rules.Commands.{body_of};
ghost use Rattle.cast_domain.specs.Records.{GivesBack, KeepsBeside, records_in, Makes, TellsAlone};
ghost use Rattle.cast_domain.specs.FlushCalls.{report_at};
ghost use Rattle.cast_domain.specs.Calls.{records, on_flushed_in};
ghost use Rattle.cast_rules.specs.Rules.Data.{is_well_formed};
ghost use Rattle.cast_rules.specs.Rules.Keys.{home_key, want_key};

use crate::data::is_well_formed;
use cast_domain::Domain;
use cast_domain::keys::{home_key, want_key};
use cast_domain::lent::Lent;
use cast_domain::record::{body_at, installed_at, report_at};
use cast_flush::Report;
use cast_message::{KeptIds, Message, SiteFrame, Tail};
use cast_timer::OwedKind;
use cast_types::{Counts, NoMemory, Proc, SiteNo, Uid};

// Installed: the home awaits no more that the site installs the view.
pub(crate) fn on_installed(
    domain: &mut Domain,
    place: usize,
    from: SiteNo,
    view: u32,
    lent: &mut Lent<'_>,
) -> Result<(), NoMemory>
    requires { place < vec_len domain.old.groups }
    ensures stays { KeepsBeside domain.old lent.old domain.new lent.new }
    ensures made { OnOk result (Makes (λ r. on_installed records r place from view)
        domain.old lent.old domain.new lent.new) }
{
    if domain.is_home() && domain.record(place).home.takes_installed(from, view) {
        let key = home_key(OwedKind::Install, domain.record(place).name, from);
        domain.pay(&key, lent);
        installed_at(&mut domain.groups, place, from, view);
    }
    Ok(())
}

// Flushed: a site's first report of the view that the home flushes counts, and Prepare is owed to
// it no more.
pub(crate) fn on_flushed(
    domain: &mut Domain,
    place: usize,
    from: SiteNo,
    view: u32,
    counts: &Counts,
    tail: &Tail,
    kept: &KeptIds,
    lent: &mut Lent<'_>,
) -> Result<(), NoMemory>
    requires { place < vec_len domain.old.groups }
    ensures stays { KeepsBeside domain.old lent.old domain.new lent.new }
    ensures made { OnOk result
        (Makes (λ r. on_flushed_in r place from view counts.now tail.now kept.now)
        domain.old lent.old domain.new lent.new) }
{
    if domain.is_home() && domain.record(place).home.takes_report(from, view) {
        let key = home_key(OwedKind::Prepare, domain.record(place).name, from);
        domain.pay(&key, lent);
        let report = Report {
            counts: counts.copy()?,
            tail: tail.copy()?,
            kept: kept.copy()?,
        };
        report_at(&mut domain.groups, place, from, view, report)?;
    }
    Ok(())
}

// Forward: a message that the home wants, of the view that it flushes, is wanted no more.
pub(crate) fn on_forward(
    domain: &mut Domain,
    place: usize,
    message: &Message,
    lent: &mut Lent<'_>,
) -> Result<(), NoMemory>
    requires { place < vec_len domain.old.groups }
    ensures stays { KeepsBeside domain.old lent.old domain.new lent.new }
    ensures made { OnOk result (Makes (λ r. on_forward records r place message.now)
        domain.old lent.old domain.new lent.new) }
{
    let Some(wanted) = want_for(domain, place, message.id)? else {
        return Ok(());
    };
    if !is_flushed_message(domain, place, message) {
        return Ok(());
    }
    let key = want_key(domain.record(place).name, wanted);
    domain.pay(&key, lent);
    body_at(&mut domain.groups, place, message.copy()?)?;
    Ok(())
}

// From which site the home wants a message, where it wants it.
fn want_for(
    domain: &Domain,
    place: usize,
    id: Uid,
) -> Result<Option<(SiteNo, (Proc, u32))>, NoMemory>
    requires { place < vec_len domain.now.groups }
    ensures { IfOk result
        (TellsAlone (λ r. find (λ x. entry_eq x.1 (entry_of id)) (wants records r place))
        domain.now) }
{
    let wants = domain.wants(place)?;
    Ok(want_of(wants.as_slice(), id).copied())
}

// Whether a Want is from this site itself, which is not the home.
fn is_own_want(domain: &Domain, from: SiteNo) -> bool
    ensures { result
        ≡ (site_eq from domain.now.site && not (site_eq domain.now.site domain.now.config.home)) }
{
    from == domain.site && !domain.is_home()
}

// Whether a message is of the view that the home decided last, and well formed in it.
fn is_flushed_message(domain: &Domain, place: usize, message: &Message) -> bool
    requires { place < vec_len domain.now.groups }
    ensures { TellsAlone (λ r. is_of_home records r place message.now) domain.now result }
{
    let home = &domain.record(place).home;
    message.id.view == home.number() && is_well_formed(domain, home.members().list(), message)
}

// Want: a message is forwarded that came because some sites lack it, or that is kept. A site sends
// itself none unless it is the home.
pub(crate) fn on_want(
    domain: &Domain,
    place: usize,
    from: SiteNo,
    id: Uid,
    lent: &mut Lent<'_>,
) -> Result<(), NoMemory>
    requires { place < vec_len domain.now.groups }
    ensures back { GivesBack domain.now.config.domain lent.old lent.new }
    ensures made { OnOk result
        (Makes (λ r. on_want records r place from id) domain.now lent.old domain.now lent.new) }
{
    if is_own_want(domain, from) {
        return Ok(());
    }
    match forwardable(domain, place, id, lent)? {
        Some(message) => {
            domain.send(lent.outs, from, SiteFrame::Forward(message))?;
            Ok(())
        }
        None => Ok(()),
    }
}

// The message of an id among those that came because some sites lack them, and else among the kept
// ones.
fn forwardable(
    domain: &Domain,
    place: usize,
    id: Uid,
    lent: &Lent<'_>,
) -> Result<Option<Message>, NoMemory>
    requires { place < vec_len domain.now.groups }
    ensures { IfOk result (λ m. m ≡ forwardable records (records_in domain.now lent.now) place id) }
{
    let found = match body_of(domain.record(place).home.bodies(), id) {
        Some(message) => Some(message),
        None => lent.shared.store.find(domain.config.domain, id),
    };
    match found {
        Some(message) => Ok(Some(message.copy()?)),
        None => Ok(None),
    }
}

// The entry of a message among those that are wanted.
fn want_of(wants: &[(SiteNo, (Proc, u32))], id: Uid) -> Option<&(SiteNo, (Proc, u32))>
    ensures { option_copied result ≡ find (λ w. entry_eq w.1 (entry_of id)) wants.now }
{
    wants.iter().find(|wanted| wanted.1 == (id.proc, id.count))
}

// The message of an id.
fn body_of(bodies: &[Message], id: Uid) -> Option<&Message>
    ensures { option_copied result ≡ find (λ m. uid_eq m.id id) bodies.now }
{
    bodies.iter().find(|message| message.id == id)
}
