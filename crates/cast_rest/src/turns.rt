ghost use Rattle.std.specs.Prelude.{◌≡◌, ◌<◌, None, IfOk, length, ◌&&◌};
ghost use Rattle.std.specs.Prelude.{◌||◌, ◌==◌, min, nat_lt, Some};
ghost use Rattle.cast_domain.specs.Records.{records_in, own_records};
ghost use Rattle.cast_types.specs.declared.limits.TheConstants.{MAX_POSITION};
ghost use Rattle.cast_order.specs.Log.{log_of, places_by};
ghost use Rattle.cast_domain.specs.ReleaseCalls.{waiting_past, unsettled_at};
ghost use Rattle.cast_domain.specs.RestCalls.{ready_key_in, turn_at, turns_in};
ghost use Rattle.cast_domain.specs.RestCalls.{sets_order_at, has_room_at};

use cast_domain::Domain;
use cast_domain::lent::Lent;
use cast_domain::record::GroupRecord;
use cast_order::OrderLog;
use cast_ready::Turn;
use cast_types::limits::{MAX_POSITION, MAX_UNSETTLED};
use cast_types::{GroupNo, Key, NoMemory, Proc};

// The key of the first message that is ready for a process. Its turns are asked for only where an
// ABCAST may be.
pub(crate) fn next_ready(
    domain: &Domain,
    process: Proc,
    lent: &Lent<'_>,
) -> Result<Option<Key>, NoMemory>
    ensures { IfOk result (λ key. key ≡ ready_key_in (records_in domain.now lent.now) process) }
{
    let Some(candidate) = domain.delay.first_candidate(process) else {
        return Ok(None);
    };
    if !candidate.atomic {
        return Ok(Some(candidate.key));
    }
    let turns = turns(domain, process, lent)?;
    Ok(domain.delay.next_ready(process, &turns))
}

// The turns of a process, by group.
fn turns(domain: &Domain, process: Proc, lent: &Lent<'_>) -> Result<Vec<(GroupNo, Turn)>, NoMemory>
    ensures { IfOk result
        (λ turns. turns.items ≡ turns_in (records_in domain.now lent.now) process) }
{
    let alloc = *domain.groups.allocator();
    let mut turns = Vec::new(alloc);
    for record in domain.groups.as_slice() {
        turns.push((record.name, turn(domain, process, record, lent)))?;
    }
    Ok(turns)
}

// The turn of a process in a group.
fn turn(domain: &Domain, process: Proc, kept: &GroupRecord, lent: &Lent<'_>) -> Turn
    ensures { result ≡ turn_at (records_in domain.now lent.now) process kept.now }
{
    match domain.orders.log(kept.name) {
        Some(log) => turn_by(domain, log, process, kept, lent),
        None => Turn::Following(None),
    }
}

// The same by what is kept of the group's order.
fn turn_by(
    domain: &Domain,
    log: &OrderLog,
    process: Proc,
    kept: &GroupRecord,
    lent: &Lent<'_>,
) -> Turn
    requires { log.now ≡ log_of domain.now.orders kept.now.name }
    ensures { result ≡ turn_at (records_in domain.now lent.now) process kept.now }
{
    if log.first(process).is_some() && !kept.here.is_frozen() {
        return Turn::Holding(may_place(domain, log, process, kept, lent));
    }
    let ids = log.next(process);
    let passed = domain
        .delay
        .delivered_prefix(process, kept.name, kept.here.number(), ids);
    Turn::Following(ids.get(passed).copied())
}

// Whether a process holds the token of a group's view and sets its order, which it does while no
// flush has frozen the group.
pub(crate) fn is_held_by(domain: &Domain, kept: &GroupRecord, process: Proc) -> bool
    ensures { result
        ≡ sets_order_at (log_of domain.now.orders kept.now.name) process kept.now.here }
{
    domain.orders.first(kept.name, process).is_some() && !kept.here.is_frozen()
}

// Whether a process that holds the token may deliver one more ABCAST.
fn may_place(
    domain: &Domain,
    log: &OrderLog,
    process: Proc,
    kept: &GroupRecord,
    lent: &Lent<'_>,
) -> bool
    requires { log.now ≡ log_of domain.now.orders kept.now.name }
    ensures { result ≡ has_room_at (records_in domain.now lent.now) process kept.now }
{
    let places = log.places_by(process);
    domain.has_order_room(lent)
        && is_unsettled_below_most(domain, places, process, kept)
        && places < MAX_POSITION as usize
}

// Whether a process has delivered fewer ids past those places that it has settled than it may,
// where there are so many places up to the last id that it has to list. They are counted only where
// there are so many at all.
fn is_unsettled_below_most(
    domain: &Domain,
    places: usize,
    process: Proc,
    kept: &GroupRecord,
) -> bool
    requires { places
        ≡ min 18446744073709551615 (places_by (log_of domain.now.orders kept.now.name) process) }
    ensures { result
        ≡ nat_lt (unsettled_at (own_records domain.now) process kept.now) MAX_UNSETTLED }
{
    places < MAX_UNSETTLED || is_unsettled_past_few(domain, process, kept)
}

// The same where there are many.
fn is_unsettled_past_few(domain: &Domain, process: Proc, kept: &GroupRecord) -> bool
    ensures { result
        ≡ nat_lt (unsettled_at (own_records domain.now) process kept.now) MAX_UNSETTLED }
{
    let settled = domain.settled_to(process, kept);
    let known = domain.orders.length(kept.name).saturating_sub(settled);
    known.saturating_add(domain.waiting_past(process, kept.name, settled)) < MAX_UNSETTLED
        || domain.unsettled_count(process, kept) < MAX_UNSETTLED
}
