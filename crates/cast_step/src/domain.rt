ghost use Rattle.std.specs.Prelude.{◌<◌, ◌≡◌, true, false, None, IfOk, OnOk, OnErr};
ghost use Rattle.cast_domain.specs.Records.{number_of, is_halted, records_beside};
ghost use Rattle.cast_domain.specs.Records.{records_in, KeepsBeside, Makes};
ghost use Rattle.cast_domain.specs.Shared.{no_part, part_of, LeavesOthers};
ghost use Rattle.cast_domain.specs.Shows.{groups_shown};
ghost use Rattle.cast_events.specs.Events.{domain_of};
ghost use Rattle.cast_domain.specs.Stepped.{IsEmptied, IsSteppedBeside, IsRefusedBeside};
ghost use Rattle.cast_domain.specs.Calls.{answered_in, records};
ghost use Rattle.cast_domain.specs.RestCalls.{resting_records};
ghost use Rattle.cast_domain.specs.Freed.{frees_nothing, source_freed, AreNotFree, AreFreedBy};
ghost use Rattle.cast_events.specs.declared.event.Outs.{Outs};
ghost use Rattle.cast_rules.specs.Rules.Release.{let_go};

use crate::events::act;
use cast_commands::trim::trim_orders;
use cast_delay::Delay;
use cast_domain::lent::Lent;
use cast_domain::record::drop_homes;
use cast_domain::{Domain, Shared};
use cast_events::{Event, Outs, Taken};
use cast_message::SiteFrame;
use cast_order::Orders;
use cast_rest::rest::rest;
use cast_stable::Acks;
use cast_types::{NoMemory, Refusal, Source, source_of};

/// Makes one step: the event, and then what follows from it until nothing changes. What is sent,
/// delivered and pushed is added to `outs`. Of what is `shared` the parts of other domains stay as
/// they are. `NoMemory` halts the domain: it gives back all that it kept, owed and had to push, and
/// from then on answers each event `Refused(Halted)`.
pub fn step(
    domain: &mut Domain,
    shared: &mut Shared,
    event: &Event,
    outs: &mut Outs,
) -> Result<Taken, NoMemory>
    ensures unnamed { is_halted domain.old ≡ false → domain_of event.now ≡ None
        → IfOk result (λ t. t ≡ Taken.Nothing) }
    ensures number { number_of domain.new ≡ number_of domain.old }
    ensures running { is_halted domain.old ≡ false → OnOk result (is_halted domain.new ≡ false) }
    ensures halts { OnErr result (is_halted domain.new ≡ true) }
    ensures emptied { OnErr result (IsEmptied domain.new) }
    ensures leaves { OnErr result (part_of (number_of domain.old) shared.new ≡ no_part) }
    ensures halted { is_halted domain.old ≡ true
        → IsRefusedBeside domain.old shared.old outs.old domain.new shared.new outs.new result }
    ensures steps { is_halted domain.old ≡ false → IfOk result
        (IsSteppedBeside domain.old shared.old outs.old event.now domain.new shared.new outs.new) }
    ensures nothing { OnErr result (outs.new ≡ outs.old) }
    ensures others { LeavesOthers (number_of domain.old) shared.old shared.new }
{
    if domain.halted {
        return Ok(Taken::Refused(Refusal::Halted));
    }
    match serve(domain, event, shared, outs) {
        Ok(taken) => Ok(taken),
        Err(error) => {
            halt(domain, shared);
            Err(error)
        }
    }
}

// Halts the domain, and lets go of what it has but for what it shows. Takes no memory.
fn halt(domain: &mut Domain, shared: &mut Shared)
    ensures halts { is_halted domain.new ≡ true }
    ensures emptied { IsEmptied domain.new }
    ensures config { (domain.new.site ≡ domain.old.site)
        × (domain.new.config ≡ domain.old.config)
        × (domain.new.quotas ≡ domain.old.quotas) }
    ensures shows { groups_shown domain.new ≡ groups_shown domain.old }
    ensures counts { (domain.new.casts ≡ domain.old.casts)
        × (domain.new.moment ≡ domain.old.moment)
        × (domain.new.sessions ≡ domain.old.sessions) }
    ensures leaves { part_of domain.old.config.domain shared.new ≡ no_part }
    ensures others { LeavesOthers domain.old.config.domain shared.old shared.new }
{
    let alloc = *domain.groups.allocator();
    domain.halted = true;
    domain.delay = Delay::new(alloc);
    domain.acks = Acks::new(alloc, domain.site);
    domain.orders = Orders::new(alloc);
    drop_homes(&mut domain.groups);
    shared.drop_domain(domain.config.domain);
}

fn serve(
    domain: &mut Domain,
    event: &Event,
    shared: &mut Shared,
    outs: &mut Outs,
) -> Result<Taken, NoMemory>
    ensures answer { IfOk result
        (λ t. t ≡ answered_in (records_beside domain.old shared.old outs.old) event.now) }
    ensures same { (domain.new.site ≡ domain.old.site)
        × (domain.new.config ≡ domain.old.config)
        × (domain.new.halted ≡ domain.old.halted) }
    ensures others { LeavesOthers domain.old.config.domain shared.old shared.new }
    ensures steps { IfOk result
        (IsSteppedBeside domain.old shared.old outs.old event.now domain.new shared.new outs.new) }
    ensures nothing { OnErr result (outs.new ≡ outs.old) }
{
    let mut step = Outs::new(outs.frames.alloc());
    let mut lent = Lent {
        shared,
        outs: &mut step,
    };
    let taken = act(domain, event, &mut lent)?;
    let_go_after(domain, event, &mut lent);
    rest(domain, &mut lent)?;
    let kept = lent.shared.store.messages(domain.config.domain);
    trim_orders(domain, &kept);
    outs.append(step)?;
    Ok(taken)
}

// Lets go of what is free after an event. Where nothing was free before it, only what it set free
// is looked for.
fn let_go_after(domain: &mut Domain, event: &Event, lent: &mut Lent<'_>)
    ensures stays { KeepsBeside domain.old lent.old domain.new lent.new }
    ensures made { AreFreedBy event.now (records_in domain.old lent.old)
        → Makes (let_go records resting_records) domain.old lent.old domain.new lent.new }
    ensures none { AreFreedBy event.now (records_in domain.old lent.old)
        → AreNotFree (records_in domain.new lent.new) }
{
    if sets_nothing_free(event) {
        return;
    }
    match source_set_free(event) {
        Some(source) => domain.let_go_of(source, lent),
        None => domain.let_go(lent),
    }
}

// Whether an event sets no message free: entries of an outbox are taken, or a quota gets another
// value.
fn sets_nothing_free(event: &Event) -> bool
    ensures { result ≡ frees_nothing event.now }
{
    match event {
        Event::Quota { .. } | Event::Take { .. } => true,
        _ => false,
    }
}

// The source of the only messages that an event can set free, where that is known.
fn source_set_free(event: &Event) -> Option<Source>
    ensures { result ≡ source_freed event.now }
{
    match event {
        Event::Frame(_, _, SiteFrame::Data(message)) => Some(source_of(message.id)),
        Event::Frame(_, _, SiteFrame::Ack(id) | SiteFrame::Stable(id)) => Some(source_of(*id)),
        _ => None,
    }
}
