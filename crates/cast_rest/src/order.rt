ghost use Rattle.std.specs.Prelude.{◌≡◌, ◌<◌, OnOk, true, false, None};
ghost use Rattle.std.specs.Prelude.{IfOk, vec_len, ◌&&◌, ◌||◌, not, Some};
ghost use Rattle.cast_domain.specs.Records.{Keeps, KeepsBeside, records_in, Makes};
ghost use Rattle.cast_domain.specs.Records.{MakesAlone, own_records, StaysUnless, TellsAlone};
ghost use Rattle.cast_domain.specs.PartCalls.{record_at, added_if};
ghost use Rattle.cast_domain.specs.FlushCalls.{holds_here, holders_in};
ghost use Rattle.cast_domain.specs.Calls.{records};
ghost use Rattle.cast_domain.specs.RestCalls.{resting_records, sets_order_in, note_delivery_in};
ghost use Rattle.cast_domain.specs.RestCalls.{raised_at, may_list_of, told_in};
ghost use Rattle.std.specs.List.{fold};
ghost use Rattle.cast_types.specs.Names.{entry_of};
ghost use Rattle.cast_ready.specs.Ready.{is_member};
ghost use Rattle.cast_domain.specs.Freed.{AreNotFree};
ghost use Rattle.cast_domain.specs.Flags.{lists_some, orders_at, orders_each, orders_some};
ghost use Rattle.cast_rules.specs.Rules.Order.{may_list, send_places, set_order_by};
ghost use Rattle.cast_rules.specs.Rules.Order.{set_order, set_orders};

use crate::turns::is_held_by;
use cast_clock::Times;
use cast_domain::Domain;
use cast_domain::lent::Lent;
use cast_domain::turns::is_member;
use cast_message::{Body, Message, Placement};
use cast_order::OrderHand;
use cast_types::{GroupNo, NoMemory, Proc, Stamp, Uid};

// The processes here that hold the token of a group's view, by serial.
fn holders(domain: &Domain, group: GroupNo) -> Result<Vec<u32>, NoMemory>
    ensures { IfOk result (λ holders. holders.items ≡ holders_in (own_records domain.now) group) }
{
    let mut holders = Vec::new(*domain.groups.allocator());
    for hand in domain.orders.hands(group) {
        add_holder(domain, hand, &mut holders)?;
    }
    Ok(holders)
}

// Adds the serial of a process, if it holds the token.
fn add_holder(domain: &Domain, hand: &OrderHand, holders: &mut Vec<u32>) -> Result<(), NoMemory>
    ensures { OnOk result (holders.new.items ≡ added_if
        (holds_here (own_records domain.now) hand.now) hand.now.process.serial holders.old.items) }
{
    if domain.holds_here(hand) {
        holders.push(hand.process.serial)?;
    }
    Ok(())
}

// Notes that a process delivered an ABCAST: the holder of a group that is not frozen has one more
// to list, another process may have passed places.
pub(crate) fn note_delivery(domain: &mut Domain, process: Proc, id: Uid) -> Result<(), NoMemory>
    ensures same { Keeps domain.old domain.new }
    ensures made { OnOk result
        (MakesAlone (λ r. note_delivery_in r process id) domain.old domain.new) }
{
    if sets_order(domain, id.group, process) {
        return tell_delivery(domain, process, id);
    }
    let ids = domain.orders.next(id.group, process);
    let passed = domain
        .delay
        .delivered_prefix(process, id.group, id.view, ids);
    domain.orders.pass(id.group, process, passed)
}

// Notes that a process that holds the token delivered an ABCAST: it has one more to list, if that
// is not in the order known.
fn tell_delivery(domain: &mut Domain, process: Proc, id: Uid) -> Result<(), NoMemory>
    ensures same { Keeps domain.old domain.new }
    ensures made { OnOk result
        (MakesAlone (λ r. record r { orders = told_in id.group process (entry_of id) r.orders })
        domain.old domain.new) }
{
    if domain.orders.knows(id.group, None, (id.proc, id.count)) {
        return Ok(());
    }
    domain.orders.tell(id.group, process, (id.proc, id.count))
}

// Whether a process holds the token of a group's view and sets its order, which it does while no
// flush has frozen the group.
fn sets_order(domain: &Domain, group: GroupNo, process: Proc) -> bool
    ensures { TellsAlone (λ r. sets_order_in r group process) domain.now result }
{
    match domain.place_of(group) {
        Some(place) => is_held_by(domain, domain.record(place), process),
        None => false,
    }
}

// The holders at this site set orders, by group. Answers whether anything changed.
pub(crate) fn set_orders(domain: &mut Domain, lent: &mut Lent<'_>) -> Result<bool, NoMemory>
    ensures stays { KeepsBeside domain.old lent.old domain.new lent.new }
    ensures made { OnOk result
        (Makes (set_orders records resting_records) domain.old lent.old domain.new lent.new) }
    ensures still { IfOk result (StaysUnless domain.old lent.old domain.new lent.new) }
    ensures told { IfOk result (λ changed. changed ≡ orders_some (records_in domain.old lent.old)) }
    ensures none { OnOk result (AreNotFree (records_in domain.old lent.old)
        → AreNotFree (records_in domain.new lent.new)) }
{
    if !domain.orders.some_wait() {
        return Ok(false);
    }
    let mut changed = false;
    for place in 0..domain.groups.len() {
        let set = set_order(domain, place, lent)?;
        changed = changed | set;
    }
    Ok(changed)
}

// Each process here that holds the token of the group at a place sets its order.
fn set_order(domain: &mut Domain, place: usize, lent: &mut Lent<'_>) -> Result<bool, NoMemory>
    requires { place < vec_len domain.old.groups }
    ensures stays { KeepsBeside domain.old lent.old domain.new lent.new }
    ensures made { OnOk result (Makes (λ r. set_order records resting_records r place)
        domain.old lent.old domain.new lent.new) }
    ensures still { IfOk result (StaysUnless domain.old lent.old domain.new lent.new) }
    ensures told { IfOk result
        (λ changed. changed ≡ orders_at (records_in domain.old lent.old) place) }
    ensures len { vec_len domain.new.groups ≡ vec_len domain.old.groups }
    ensures none { OnOk result (AreNotFree (records_in domain.old lent.old)
        → AreNotFree (records_in domain.new lent.new)) }
{
    let group = domain.record(place).name;
    if !domain.orders.waits(group) {
        return Ok(false);
    }
    let holders = holders(domain, group)?;
    set_order_by_each(domain, place, holders.as_slice(), lent)
}

// Processes here set the order of the group at a place, one after another.
fn set_order_by_each(
    domain: &mut Domain,
    place: usize,
    holders: &[u32],
    lent: &mut Lent<'_>,
) -> Result<bool, NoMemory>
    requires { place < vec_len domain.old.groups }
    ensures stays { KeepsBeside domain.old lent.old domain.new lent.new }
    ensures made { OnOk result
        (Makes (λ r. fold (λ t k. set_order_by records resting_records t place k) r holders.now)
        domain.old lent.old domain.new lent.new) }
    ensures still { IfOk result (StaysUnless domain.old lent.old domain.new lent.new) }
    ensures told { IfOk result
        (λ changed. changed ≡ orders_each (records_in domain.old lent.old) place holders.now) }
    ensures len { vec_len domain.new.groups ≡ vec_len domain.old.groups }
    ensures none { OnOk result (AreNotFree (records_in domain.old lent.old)
        → AreNotFree (records_in domain.new lent.new)) }
{
    let mut changed = false;
    for serial in holders {
        let set = set_order_by(domain, place, *serial, lent)?;
        changed = changed | set;
    }
    Ok(changed)
}

// The holder lists ABCASTs, where it has some to list and there is room.
fn set_order_by(
    domain: &mut Domain,
    place: usize,
    serial: u32,
    lent: &mut Lent<'_>,
) -> Result<bool, NoMemory>
    requires { place < vec_len domain.old.groups }
    ensures stays { KeepsBeside domain.old lent.old domain.new lent.new }
    ensures made { OnOk result (Makes (λ r. set_order_by records resting_records r place serial)
        domain.old lent.old domain.new lent.new) }
    ensures still { IfOk result (StaysUnless domain.old lent.old domain.new lent.new) }
    ensures told { IfOk result
        (λ changed. changed ≡ lists_some (records_in domain.old lent.old) place serial) }
    ensures len { vec_len domain.new.groups ≡ vec_len domain.old.groups }
    ensures none { OnOk result (AreNotFree (records_in domain.old lent.old)
        → AreNotFree (records_in domain.new lent.new)) }
{
    let holder = domain.process(serial);
    let group = domain.record(place).name;
    let Some(places) = domain.orders.assign(group, holder)? else {
        return Ok(false);
    };
    if !may_list(domain, place, holder, lent) {
        return Ok(false);
    }
    let Some((time, stamp)) = domain.next_time(holder, group)? else {
        return Ok(false);
    };
    send_places(domain, place, serial, time, stamp, places, lent)?;
    domain.let_go(lent);
    Ok(true)
}

// Whether the holder is a member of the group at a place, which no flush has frozen, and there is
// room for one more set-order message.
fn may_list(domain: &Domain, place: usize, holder: Proc, lent: &Lent<'_>) -> bool
    requires { place < vec_len domain.now.groups }
    ensures { result ≡ may_list_of (records_in domain.now lent.now)
        (record_at domain.now.groups.items place) holder }
{
    let record = domain.record(place);
    is_member(domain.delay.standing(holder, record.name))
        && !record.here.is_frozen()
        && domain.has_order_room(lent)
}

// The holder of the group at a place lists ABCASTs in a set-order message.
fn send_places(
    domain: &mut Domain,
    place: usize,
    serial: u32,
    time: Times,
    stamp: Stamp,
    places: Placement,
    lent: &mut Lent<'_>,
) -> Result<(), NoMemory>
    requires placed { place < vec_len domain.old.groups }
    requires raised { time ≡ raised_at (own_records domain.old) place serial }
    requires stamped { stamp ≡ time }
    ensures stays { KeepsBeside domain.old lent.old domain.new lent.new }
    ensures made { OnOk result
        (Makes (λ r. send_places records resting_records r place serial places)
        domain.old lent.old domain.new lent.new) }
    ensures len { vec_len domain.new.groups ≡ vec_len domain.old.groups }
{
    let holder = domain.process(serial);
    let group = domain.record(place).name;
    let view = domain.record(place).here.number();
    let count = time.count(group, holder);
    let message = Message {
        id: Uid {
            group,
            view,
            proc: holder,
            count,
        },
        times: stamp,
        body: Body::Order(places),
    };
    domain.note_sent(holder, time, &message)?;
    domain.send_message(message, lent)?;
    Ok(())
}
