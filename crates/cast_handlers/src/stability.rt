ghost use Rattle.std.specs.Prelude.{◌<◌, OnOk, vec_len, ◌&&◌, ◌==◌, not};
ghost use Rattle.cast_domain.specs.Records.{KeepsBeside, Makes, MakesWithOuts, TellsAlone};
ghost use Rattle.cast_domain.specs.Calls.{records};
ghost use Rattle.std.specs.List.{fold};
ghost use Rattle.cast_types.specs.Sets.{is_among};
ghost use Rattle.cast_rules.specs.Rules.Keys.{message_key};
ghost use Rattle.cast_events.specs.declared.event.Outs.{Outs};
ghost use Rattle.cast_rules.specs.Rules.Stability.{is_used_ack, on_ack, on_stable};
ghost use Rattle.cast_rules.specs.Rules.Stability.{tell_more, tell_stable, with_ack};

use cast_domain::Domain;
use cast_domain::keys::message_key;
use cast_domain::lent::Lent;
use cast_events::Outs;
use cast_message::SiteFrame;
use cast_timer::OwedKind;
use cast_types::{NoMemory, SiteNo, Uid};
use cast_view::is_among;

// Ack: another site of the view has an own message, and is owed it no more. Where more messages are
// stable now, all other sites are told; where that one was stable before, the site was not told and
// is told again.
pub(crate) fn on_ack(
    domain: &mut Domain,
    place: usize,
    from: SiteNo,
    id: Uid,
    lent: &mut Lent<'_>,
) -> Result<(), NoMemory>
    requires { place < vec_len domain.old.groups }
    ensures stays { KeepsBeside domain.old lent.old domain.new lent.new }
    ensures made { OnOk result
        (Makes (λ r. on_ack records r place from id) domain.old lent.old domain.new lent.new) }
{
    if !is_used_ack(domain, place, from, id) {
        return Ok(());
    }
    let before = domain.acks.stable_upto(id);
    take_ack(domain, from, id, lent)?;
    if id.count <= before {
        return tell_stable(domain, id, before, from, lent.outs);
    }
    tell_more(domain, id, before, lent.outs)
}

// Whether an acknowledgement is of a message of the current view of a local process, and from
// another site of it.
fn is_used_ack(domain: &Domain, place: usize, from: SiteNo, id: Uid) -> bool
    requires { place < vec_len domain.now.groups }
    ensures { TellsAlone (λ r. is_used_ack records r place from id) domain.now result }
{
    domain.record(place).here.is_current(id.view)
        && 0 < id.count
        && id.proc.site == domain.site
        && is_among(from, domain.acks.others(id.group))
}

// Takes in that a site has an own message.
fn take_ack(domain: &mut Domain, from: SiteNo, id: Uid, lent: &mut Lent<'_>) -> Result<(), NoMemory>
    ensures stays { KeepsBeside domain.old lent.old domain.new lent.new }
    ensures made { OnOk result
        (Makes (λ r. with_ack records r from id) domain.old lent.old domain.new lent.new) }
{
    domain.pay(&message_key(OwedKind::Data, id, from), lent);
    domain.acks.ack(from, id)?;
    Ok(())
}

// Tells a site that the first messages of a process, so many, are stable.
fn tell_stable(
    domain: &Domain,
    id: Uid,
    count: u32,
    to: SiteNo,
    outs: &mut Outs,
) -> Result<(), NoMemory>
    ensures { OnOk result (MakesWithOuts (λ r. tell_stable records id count r to)
        domain.now outs.old domain.now outs.new) }
{
    domain.send(outs, to, SiteFrame::Stable(Uid { count, ..id }))
}

// Tells all other sites of the view, where more messages are stable than before.
fn tell_more(domain: &Domain, id: Uid, before: u32, outs: &mut Outs) -> Result<(), NoMemory>
    ensures { OnOk result
        (MakesWithOuts (tell_more records id before) domain.now outs.old domain.now outs.new) }
{
    let upto = domain.acks.stable_upto(id);
    if before < upto {
        return tell_sites(domain, id, upto, domain.acks.others(id.group), outs);
    }
    Ok(())
}

// Tells sites that the first messages of a process, so many, are stable.
fn tell_sites(
    domain: &Domain,
    id: Uid,
    count: u32,
    sites: &[SiteNo],
    outs: &mut Outs,
) -> Result<(), NoMemory>
    ensures { OnOk result (MakesWithOuts (λ r. fold (tell_stable records id count) r sites.now)
        domain.now outs.old domain.now outs.new) }
{
    for site in sites {
        tell_stable(domain, id, count, *site, outs)?;
    }
    Ok(())
}

// Stable: the process's own site tells that its messages up to this one are stable.
pub(crate) fn on_stable(
    domain: &mut Domain,
    place: usize,
    from: SiteNo,
    id: Uid,
    lent: &mut Lent<'_>,
) -> Result<(), NoMemory>
    requires { place < vec_len domain.old.groups }
    ensures stays { KeepsBeside domain.old lent.old domain.new lent.new }
    ensures made { OnOk result
        (Makes (λ r. on_stable records r place from id) domain.old lent.old domain.new lent.new) }
{
    if domain.record(place).here.is_current(id.view) && id.proc.site == from {
        let key = message_key(OwedKind::Ack, id, from);
        lent.shared.pay_upto(domain.config.domain, &key);
        domain.acks.learn_stable(id)?;
    }
    Ok(())
}
