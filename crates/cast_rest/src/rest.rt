ghost use Rattle.std.specs.Prelude.{◌≡◌, ◌<◌, None, IfOk, Some, true, false, OnOk, ◌==◌};
ghost use Rattle.cast_domain.specs.Calls.{records};
ghost use Rattle.cast_domain.specs.RestCalls.{delivery_of, weight_of, resting_records};
ghost use Rattle.cast_domain.specs.RestCalls.{deliver_as, note_weight_in, take_delivery_in};
ghost use Rattle.cast_domain.specs.declared.rest.Weight.TheVariants.{Hands};
ghost use Rattle.cast_rules.specs.Rules.Rest.{told_of, tell_if, deliver_first};
ghost use Rattle.cast_rules.specs.Rules.Rest.{deliver_all, settle, pass};
ghost use Rattle.cast_domain.specs.Records.{Keeps, KeepsBeside, records_in, Makes};
ghost use Rattle.cast_domain.specs.Records.{MakesAlone, MakesWithOuts, StaysUnless};
ghost use Rattle.cast_rules.specs.Rules.Flushes.{go_on_all};
ghost use Rattle.cast_rules.specs.Rules.Home.{lead, wants};
ghost use Rattle.cast_rules.specs.Rules.Order.{set_orders};
ghost use Rattle.cast_events.specs.declared.event.Outs.{Outs};
ghost use Rattle.cast_domain.specs.Flags.{delivers_some, has_ready, passes_some};
ghost use Rattle.cast_domain.specs.Fits.{AreDismissed};
ghost use Rattle.cast_domain.specs.Freed.{AreNotFree, AreNotFreeBut};
ghost use Rattle.cast_domain.specs.Stepped.{IsRested};
ghost use Rattle.cast_rules.specs.Rules.Release.{let_go};

use crate::flushes::go_on_all;
use crate::home::lead;
use crate::order::{note_delivery, set_orders};
use crate::turns::next_ready;
use cast_domain::Domain;
use cast_domain::lent::Lent;
use cast_domain::rest::{Delivery, Weight};
use cast_events::Outs;
use cast_message::{Body, CastKind, Message, Push};
use cast_types::{Key, NoMemory, Proc, Source, Uid, source_of};
use std::alloc::AllocError;

// What follows from an event, until nothing changes. No run makes 2^64 passes.
pub fn rest(domain: &mut Domain, lent: &mut Lent<'_>) -> Result<(), NoMemory>
    ensures stays { KeepsBeside domain.old lent.old domain.new lent.new }
    ensures dismissed { OnOk result
        (AreNotFree (records_in domain.old lent.old) → AreDismissed (records_in domain.old lent.old)
        → AreDismissed (records_in domain.new lent.new)) }
    ensures rests { OnOk result (AreNotFree (records_in domain.old lent.old)
        → IsRested (records_in domain.old lent.old) (records_in domain.new lent.new)) }
    ensures none { OnOk result (AreNotFree (records_in domain.old lent.old)
        → AreNotFree (records_in domain.new lent.new)) }
{
    for _turn in 0..u64::MAX {
        if !pass(domain, lent)? {
            return Ok(());
        }
    }
    Err(AllocError)
}

// Deliveries by serial; then by group set-order messages; then by group Installs and what the site
// wants; then by group the home. Answers whether anything changed.
fn pass(domain: &mut Domain, lent: &mut Lent<'_>) -> Result<bool, NoMemory>
    ensures stays { KeepsBeside domain.old lent.old domain.new lent.new }
    ensures made { OnOk result (AreNotFree (records_in domain.old lent.old)
        → Makes (pass records resting_records) domain.old lent.old domain.new lent.new) }
    ensures still { IfOk result (StaysUnless domain.old lent.old domain.new lent.new) }
    ensures told { IfOk result (λ changed. AreNotFree (records_in domain.old lent.old)
        → changed ≡ passes_some (records_in domain.old lent.old)) }
    ensures none { OnOk result (AreNotFree (records_in domain.old lent.old)
        → AreNotFree (records_in domain.new lent.new)) }
{
    let settled = settle(domain, lent)?;
    let ordered = set_orders(domain, lent)?;
    let gone_on = go_on_all(domain, lent)?;
    let led = lead(domain, lent)?;
    Ok(settled | ordered | gone_on | led)
}

// Each process delivers until nothing is ready for it. Where each message is settled, nothing is.
fn settle(domain: &mut Domain, lent: &mut Lent<'_>) -> Result<bool, NoMemory>
    ensures stays { KeepsBeside domain.old lent.old domain.new lent.new }
    ensures made { OnOk result (AreNotFree (records_in domain.old lent.old)
        → Makes (settle records resting_records) domain.old lent.old domain.new lent.new) }
    ensures still { IfOk result (StaysUnless domain.old lent.old domain.new lent.new) }
    ensures told { IfOk result (λ changed. AreNotFree (records_in domain.old lent.old)
        → changed ≡ delivers_some (records_in domain.old lent.old)) }
    ensures none { OnOk result (AreNotFree (records_in domain.old lent.old)
        → AreNotFree (records_in domain.new lent.new)) }
{
    if domain.delay.is_settled() {
        return Ok(false);
    }
    settle_each(domain, lent)
}

// One process after the other delivers; those that are in no group are passed over.
fn settle_each(domain: &mut Domain, lent: &mut Lent<'_>) -> Result<bool, NoMemory>
    ensures stays { KeepsBeside domain.old lent.old domain.new lent.new }
    ensures made { OnOk result (AreNotFree (records_in domain.old lent.old)
        → Makes (settle records resting_records) domain.old lent.old domain.new lent.new) }
    ensures still { IfOk result (StaysUnless domain.old lent.old domain.new lent.new) }
    ensures told { IfOk result (λ changed. AreNotFree (records_in domain.old lent.old)
        → changed ≡ delivers_some (records_in domain.old lent.old)) }
    ensures none { OnOk result (AreNotFree (records_in domain.old lent.old)
        → AreNotFree (records_in domain.new lent.new)) }
{
    let count = domain.delay.admitted_count();
    let mut changed = false;
    let mut place = domain.delay.busy_from(domain.site, 0);
    while place < count {
        if let Some(process) = domain.delay.process_at(place) {
            let delivered = deliver_to(domain, process.serial, lent)?;
            changed = changed | delivered;
        }
        place = domain.delay.busy_from(domain.site, place + 1);
    }
    Ok(changed)
}

// A process looks at the messages that came since, and then delivers until nothing is ready for it.
fn deliver_to(domain: &mut Domain, serial: u32, lent: &mut Lent<'_>) -> Result<bool, NoMemory>
    ensures stays { KeepsBeside domain.old lent.old domain.new lent.new }
    ensures made { OnOk result (AreNotFree (records_in domain.old lent.old) → Makes (λ r.
        deliver_all records resting_records r serial) domain.old lent.old domain.new lent.new) }
    ensures still { IfOk result (StaysUnless domain.old lent.old domain.new lent.new) }
    ensures told { IfOk result
        (λ changed. changed ≡ has_ready (records_in domain.old lent.old) serial) }
    ensures none { OnOk result (AreNotFree (records_in domain.old lent.old)
        → AreNotFree (records_in domain.new lent.new)) }
{
    let process = domain.process(serial);
    domain.delay.look(process);
    deliver_all(domain, serial, lent)
}

// A process delivers until nothing is ready for it. It delivers no message twice.
fn deliver_all(domain: &mut Domain, serial: u32, lent: &mut Lent<'_>) -> Result<bool, NoMemory>
    ensures stays { KeepsBeside domain.old lent.old domain.new lent.new }
    ensures made { OnOk result (AreNotFree (records_in domain.old lent.old) → Makes (λ r.
        deliver_all records resting_records r serial) domain.old lent.old domain.new lent.new) }
    ensures still { IfOk result (StaysUnless domain.old lent.old domain.new lent.new) }
    ensures told { IfOk result
        (λ changed. changed ≡ has_ready (records_in domain.old lent.old) serial) }
    ensures none { OnOk result (AreNotFree (records_in domain.old lent.old)
        → AreNotFree (records_in domain.new lent.new)) }
{
    let mut changed = false;
    for _turn in 0..domain.held_count(lent) {
        if !deliver_first(domain, serial, lent)? {
            return Ok(changed);
        }
        changed = true;
    }
    Ok(changed)
}

// A process delivers the first message that is ready for it, and what is free then is let go.
// Answers whether there was one.
fn deliver_first(domain: &mut Domain, serial: u32, lent: &mut Lent<'_>) -> Result<bool, NoMemory>
    ensures stays { KeepsBeside domain.old lent.old domain.new lent.new }
    ensures made { OnOk result (AreNotFree (records_in domain.old lent.old) → Makes
        (deliver_first records resting_records serial) domain.old lent.old domain.new lent.new) }
    ensures still { IfOk result (StaysUnless domain.old lent.old domain.new lent.new) }
    ensures told { IfOk result
        (λ changed. changed ≡ has_ready (records_in domain.old lent.old) serial) }
    ensures none { OnOk result (AreNotFree (records_in domain.old lent.old)
        → AreNotFree (records_in domain.new lent.new)) }
{
    let process = domain.process(serial);
    let Some(key) = next_ready(domain, process, lent)? else {
        return Ok(false);
    };
    let Some(message) = lent.shared.store.get(domain.config.domain, key) else {
        return Ok(false);
    };
    let delivery = delivery_of(message)?;
    let source = source_of(domain.delay.id_under(key).unwrap_or(delivery.id));
    let full = domain.is_full(serial, lent);
    deliver(domain, process, key, delivery, lent)?;
    let_go_delivered(domain, full, source, lent);
    Ok(true)
}

// Lets go of what is free after a delivery. Where nothing was free before it, those are messages of
// one source, but where the outbox was full: the session may have been closed then, and its process
// have left all groups. Nothing is pushed of a set-order message.
fn let_go_delivered(domain: &mut Domain, full: bool, source: Source, lent: &mut Lent<'_>)
    ensures stays { KeepsBeside domain.old lent.old domain.new lent.new }
    ensures made { (full ≡ false → AreNotFreeBut source (records_in domain.old lent.old))
        → Makes (let_go records resting_records) domain.old lent.old domain.new lent.new }
    ensures none { (full ≡ false → AreNotFreeBut source (records_in domain.old lent.old))
        → AreNotFree (records_in domain.new lent.new) }
{
    if full {
        domain.let_go(lent);
    } else {
        domain.let_go_of(source, lent);
    }
}

// A process delivers the message under a key, and the program is told.
fn deliver(
    domain: &mut Domain,
    process: Proc,
    key: Key,
    delivery: Delivery,
    lent: &mut Lent<'_>,
) -> Result<(), NoMemory>
    ensures stays { KeepsBeside domain.old lent.old domain.new lent.new }
    ensures made { OnOk result
        (Makes (λ r. deliver_as r process key delivery) domain.old lent.old domain.new lent.new) }
{
    take_delivery(domain, process, key, delivery.id, lent.outs)?;
    note_weight(domain, delivery.weight, process, delivery.id)?;
    push_delivery(domain, process, delivery.push, lent)?;
    Ok(())
}

// Takes in that a process delivered the message under a key.
fn take_delivery(
    domain: &mut Domain,
    process: Proc,
    key: Key,
    id: Uid,
    outs: &mut Outs,
) -> Result<(), NoMemory>
    ensures same { Keeps domain.old domain.new }
    ensures made { OnOk result (MakesWithOuts (λ r. take_delivery_in r process key id)
        domain.old outs.old domain.new outs.new) }
{
    domain.delay.note_delivered(process, key)?;
    outs.delivered.push((domain.config.domain, process, id))?;
    Ok(())
}

// Notes for the order of its view that a process delivered a message.
fn note_weight(domain: &mut Domain, weight: Weight, process: Proc, id: Uid) -> Result<(), NoMemory>
    ensures same { Keeps domain.old domain.new }
    ensures made { OnOk result
        (MakesAlone (λ r. note_weight_in weight r process id) domain.old domain.new) }
{
    match weight {
        Weight::Nothing => Ok(()),
        Weight::Placed => note_delivery(domain, process, id),
        Weight::Hands(holder, first) => take_token(domain, holder, first, process, id),
    }
}

// Takes in that the token is handed over to a process, if that is this one.
fn take_token(
    domain: &mut Domain,
    holder: Proc,
    first: u32,
    process: Proc,
    id: Uid,
) -> Result<(), NoMemory>
    ensures same { Keeps domain.old domain.new }
    ensures made { OnOk result
        (MakesAlone (λ r. note_weight_in (Hands holder first) r process id) domain.old domain.new) }
{
    if holder == process {
        domain.orders.hold(id.group, process, first)?;
    }
    Ok(())
}

// Pushes what a process is told of a message that it delivered.
fn push_delivery(
    domain: &mut Domain,
    process: Proc,
    push: Option<Push>,
    lent: &mut Lent<'_>,
) -> Result<(), NoMemory>
    ensures stays { KeepsBeside domain.old lent.old domain.new lent.new }
    ensures made { OnOk result (Makes (λ r. tell_if records r process.serial push)
        domain.old lent.old domain.new lent.new) }
{
    match push {
        Some(push) => domain.push(process.serial, push, lent),
        None => Ok(()),
    }
}

// What the delivery of a message is to a domain.
fn delivery_of(message: &Message) -> Result<Delivery, NoMemory>
    ensures { IfOk result (λ d. d ≡ delivery_of message.now) }
{
    Ok(Delivery {
        id: message.id,
        weight: weight_of(&message.body),
        push: push_of(message)?,
    })
}

// What a delivery is to the order of its view.
fn weight_of(body: &Body) -> Weight
    ensures { result ≡ weight_of body.now }
{
    match body {
        Body::Causal(_) => Weight::Nothing,
        Body::Atomic(_) => Weight::Placed,
        Body::Order(places) => match places.holder() {
            Some(holder) => Weight::Hands(holder, places.first()),
            None => Weight::Nothing,
        },
    }
}

// What a program is told of a message that its process delivers: of a set-order message nothing.
fn push_of(message: &Message) -> Result<Option<Push>, NoMemory>
    ensures { IfOk result (λ p. p ≡ told_of message.now.id message.now.body) }
{
    let (kind, payload) = match &message.body {
        Body::Causal(payload) => (CastKind::Causal, payload.copy()?),
        Body::Atomic(payload) => (CastKind::Atomic, payload.copy()?),
        Body::Order(_) => return Ok(None),
    };
    Ok(Some(Push::Deliver {
        id: message.id,
        kind,
        payload,
    }))
}
