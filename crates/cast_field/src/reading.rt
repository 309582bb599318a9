ghost use Rattle.std.specs.Prelude.{◌≡◌, ◌≤◌, None, Ok, length};
ghost use Rattle.std.specs.Int.{w16, w32};
ghost use Rattle.cast_field.specs.Reading.{GivesAs, GivesField, above, atomic_at, body_at, byte_at};
ghost use Rattle.cast_field.specs.Reading.{bytes_at, causal_at, clock_above, count_at, counts_at};
ghost use Rattle.cast_field.specs.Reading.{domain_at, entry_above, entry_at, group_above, group_at};
ghost use Rattle.cast_field.specs.Reading.{group_of, holder_at, id_above, id_at, id_of, kept_at};
ghost use Rattle.cast_field.specs.Reading.{kind_at, many, least_ids, least_kind, mark_at};
ghost use Rattle.cast_field.specs.Reading.{marked_above, members_at, message_at, new_holder_at};
ghost use Rattle.cast_field.specs.Reading.{nothing_of, number_at, order_at, payload_at, proc_above};
ghost use Rattle.cast_field.specs.Reading.{proc_at, process_of, sequence_at, site_at, some_proc};
ghost use Rattle.cast_field.specs.Reading.{tail_at, times_at, uid_at};

use crate::fault::FrameFault;
use byteorder::{BigEndian, ByteOrder};
use bytes::Bytes;
use cast_message::{Body, KeptIds, Membership, Message, Payload, Placement, Tail};
use cast_types::limits::{
    MAX_GROUPS, MAX_KEPT, MAX_MEMBERS, MAX_NUMBER, MAX_PAYLOAD, MAX_PLACED, MAX_POSITION,
};
use cast_types::{Clock, Counts, DomainNo, GroupNo, Kind, Proc, SiteNo, Stamp, Uid};
use std::alloc::Global;

/// A byte from `low` to `high`.
#[tactic(auto, unfolding(crate::specs::Reading::byte_at, crate::specs::Reading::within_range))]
pub fn read_byte(low: u8, high: u8, bytes: &[u8]) -> Result<(u8, &[u8]), FrameFault>
    ensures { GivesField result (byte_at low high bytes.now) }
{
    match bytes {
        [] => Err(FrameFault::Short),
        [number, rest @ ..] => {
            if *number < low || *number > high {
                return Err(FrameFault::Range);
            }
            Ok((*number, rest))
        }
    }
}

/// Two bytes, a number from `low` to `high`.
#[tactic(auto, unfolding(crate::specs::Reading::number_at, crate::specs::Reading::within_range), using(crate::proofs::Numbers::two_bytes))]
pub fn read_short(low: u16, high: u16, bytes: &[u8]) -> Result<(u16, &[u8]), FrameFault>
    ensures { GivesField result (number_at w16 low high bytes.now) }
{
    if bytes.len() < 2 {
        return Err(FrameFault::Short);
    }
    let (front, rest) = bytes.split_at(2);
    let number = BigEndian::read_u16(front);
    if number < low || number > high {
        return Err(FrameFault::Range);
    }
    Ok((number, rest))
}

/// Four bytes, a number from `low` to `high`.
#[tactic(auto, unfolding(crate::specs::Reading::number_at, crate::specs::Reading::within_range), using(crate::proofs::Numbers::four_bytes))]
pub fn read_word(low: u32, high: u32, bytes: &[u8]) -> Result<(u32, &[u8]), FrameFault>
    ensures { GivesField result (number_at w32 low high bytes.now) }
{
    if bytes.len() < 4 {
        return Err(FrameFault::Short);
    }
    let (front, rest) = bytes.split_at(4);
    let number = BigEndian::read_u32(front);
    if number < low || number > high {
        return Err(FrameFault::Range);
    }
    Ok((number, rest))
}

/// The number of a domain.
#[tactic(auto, unfolding(crate::specs::Reading::domain_at))]
pub fn read_domain(bytes: &[u8]) -> Result<(DomainNo, &[u8]), FrameFault>
    ensures { GivesField result (domain_at bytes.now) }
{
    let (number, rest) = read_byte(1, 255, bytes)?;
    Ok((DomainNo(number), rest))
}

/// The number of a site.
#[tactic(auto, unfolding(crate::specs::Reading::site_at))]
pub fn read_site(bytes: &[u8]) -> Result<(SiteNo, &[u8]), FrameFault>
    ensures { GivesField result (site_at bytes.now) }
{
    let (number, rest) = read_short(1, u16::MAX, bytes)?;
    Ok((SiteNo(number), rest))
}

/// The number of a group.
#[tactic(auto, unfolding(crate::specs::Reading::group_at))]
pub fn read_group(bytes: &[u8]) -> Result<(GroupNo, &[u8]), FrameFault>
    ensures { GivesField result (group_at bytes.now) }
{
    let (number, rest) = read_short(1, u16::MAX, bytes)?;
    Ok((GroupNo(number), rest))
}

/// A view, a count, a serial or the number of a request: from 1 on.
#[tactic(auto, unfolding(crate::specs::Reading::count_at))]
pub fn read_count(bytes: &[u8]) -> Result<(u32, &[u8]), FrameFault>
    ensures { GivesField result (count_at bytes.now) }
{
    read_word(1, MAX_NUMBER, bytes)
}

/// A process: its site and its serial.
#[tactic(auto, unfolding(crate::specs::Reading::proc_at))]
pub fn read_proc(bytes: &[u8]) -> Result<(Proc, &[u8]), FrameFault>
    ensures { GivesField result (proc_at bytes.now) }
{
    let (site, rest) = read_site(bytes)?;
    let (serial, rest) = read_count(rest)?;
    Ok((Proc { site, serial }, rest))
}

/// The name of a message: group, view, process, count.
#[tactic(auto, unfolding(crate::specs::Reading::uid_at))]
pub fn read_uid(bytes: &[u8]) -> Result<(Uid, &[u8]), FrameFault>
    ensures { GivesField result (uid_at bytes.now) }
{
    let (group, rest) = read_group(bytes)?;
    let (view, rest) = read_count(rest)?;
    let (proc, rest) = read_proc(rest)?;
    let (count, rest) = read_count(rest)?;
    Ok((
        Uid {
            group,
            view,
            proc,
            count,
        },
        rest,
    ))
}

#[tactic(auto, unfolding(crate::specs::Reading::proc_above, crate::specs::Reading::above))]
fn read_proc_above(last: Option<Proc>, bytes: &[u8]) -> Result<(Proc, &[u8]), FrameFault>
    ensures { GivesField result (proc_above last bytes.now) }
{
    let (proc, rest) = read_proc(bytes)?;
    match last {
        Some(last) if !last.cmp(&proc).is_lt() => Err(FrameFault::NotSorted),
        _ => Ok((proc, rest)),
    }
}

#[tactic(auto, unfolding(crate::specs::Reading::group_above, crate::specs::Reading::above))]
fn read_group_above(last: Option<GroupNo>, bytes: &[u8]) -> Result<(GroupNo, &[u8]), FrameFault>
    ensures { GivesField result (group_above last bytes.now) }
{
    let (group, rest) = read_group(bytes)?;
    match last {
        Some(last) if !last.cmp(&group).is_lt() => Err(FrameFault::NotSorted),
        _ => Ok((group, rest)),
    }
}

#[tactic(auto, unfolding(crate::specs::Reading::entry_above))]
fn read_entry_above(last: Option<Proc>, bytes: &[u8]) -> Result<((Proc, u32), &[u8]), FrameFault>
    ensures { GivesField result (entry_above last bytes.now) }
{
    let (proc, rest) = read_proc_above(last, bytes)?;
    let (count, rest) = read_count(rest)?;
    Ok(((proc, count), rest))
}

fn read_entries(
    alloc: Global,
    count: u8,
    bytes: &[u8],
) -> Result<(Vec<(Proc, u32)>, &[u8]), FrameFault>
    ensures { GivesAs (λ x. (x.0.items, x.1.now))
        result (many entry_above process_of count None bytes.now) }
{
    let mut entries = Vec::new(alloc);
    let mut last = None;
    let mut rest = bytes;
    for _ in 0..count {
        let (entry, after) = read_entry_above(last, rest)?;
        last = Some(entry.0);
        entries.push(entry)?;
        rest = after;
    }
    Ok((entries, rest))
}

/// Counts: how many, and each process above the one before with its count.
#[tactic(auto, unfolding(crate::specs::Reading::counts_at))]
pub fn read_counts(alloc: Global, bytes: &[u8]) -> Result<(Counts, &[u8]), FrameFault>
    ensures { GivesField result (counts_at bytes.now) }
{
    let (count, rest) = read_byte(0, MAX_MEMBERS as u8, bytes)?;
    let (entries, rest) = read_entries(alloc, count, rest)?;
    Ok((Counts::from_entries(entries), rest))
}

#[tactic(auto, unfolding(crate::specs::Reading::clock_above))]
fn read_clock_above(
    alloc: Global,
    last: Option<GroupNo>,
    bytes: &[u8],
) -> Result<((GroupNo, Clock), &[u8]), FrameFault>
    ensures { GivesField result (clock_above last bytes.now) }
{
    let (group, rest) = read_group_above(last, bytes)?;
    let (view, rest) = read_count(rest)?;
    let (counts, rest) = read_counts(alloc, rest)?;
    Ok(((group, Clock { view, counts }), rest))
}

fn read_clocks(
    alloc: Global,
    count: u8,
    bytes: &[u8],
) -> Result<(Vec<(GroupNo, Clock)>, &[u8]), FrameFault>
    ensures { GivesAs (λ x. (x.0.items, x.1.now))
        result (many clock_above group_of count None bytes.now) }
{
    let mut clocks = Vec::new(alloc);
    let mut last = None;
    let mut rest = bytes;
    for _ in 0..count {
        let (clock, after) = read_clock_above(alloc, last, rest)?;
        last = Some(clock.0);
        clocks.push(clock)?;
        rest = after;
    }
    Ok((clocks, rest))
}

#[tactic(auto, unfolding(crate::specs::Reading::times_at))]
fn read_times(alloc: Global, bytes: &[u8]) -> Result<(Stamp, &[u8]), FrameFault>
    ensures { GivesField result (times_at bytes.now) }
{
    let (count, rest) = read_byte(1, MAX_GROUPS as u8, bytes)?;
    let (clocks, rest) = read_clocks(alloc, count, rest)?;
    Ok((Stamp::from_clocks(clocks)?, rest))
}

#[tactic(auto, unfolding(crate::specs::Reading::bytes_at))]
fn read_bytes(count: usize, bytes: &[u8]) -> Result<(&[u8], &[u8]), FrameFault>
    ensures { GivesAs (λ x. (x.0.now, x.1.now)) result (bytes_at count bytes.now) }
{
    if bytes.len() < count {
        return Err(FrameFault::Short);
    }
    Ok(bytes.split_at(count))
}

#[tactic(auto, unfolding(crate::specs::Reading::payload_at))]
fn read_payload(alloc: Global, bytes: &[u8]) -> Result<(Payload, &[u8]), FrameFault>
    ensures { GivesField result (payload_at bytes.now) }
{
    let (len, rest) = read_short(0, MAX_PAYLOAD as u16, bytes)?;
    let (payload, rest) = read_bytes(len as usize, rest)?;
    let payload = Bytes::copy_from_slice(alloc, payload)?;
    Ok((Payload::from_bytes(payload), rest))
}

#[tactic(auto, unfolding(crate::specs::Reading::entry_at, crate::specs::Reading::id_at))]
fn read_entry(bytes: &[u8]) -> Result<((Proc, u32), &[u8]), FrameFault>
    ensures { GivesField result (entry_at bytes.now) }
{
    let (proc, rest) = read_proc(bytes)?;
    let (count, rest) = read_count(rest)?;
    Ok(((proc, count), rest))
}

fn read_ids(
    alloc: Global,
    count: u16,
    bytes: &[u8],
) -> Result<(Vec<(Proc, u32)>, &[u8]), FrameFault>
    ensures { GivesAs (λ x. (x.0.items, x.1.now))
        result (many id_at nothing_of count tt bytes.now) }
{
    let mut ids = Vec::new(alloc);
    let mut rest = bytes;
    for _ in 0..count {
        let (id, after) = read_entry(rest)?;
        ids.push(id)?;
        rest = after;
    }
    Ok((ids, rest))
}

#[tactic(auto, unfolding(crate::specs::Reading::new_holder_at))]
fn read_new_holder(handing: bool, bytes: &[u8]) -> Result<(Option<Proc>, &[u8]), FrameFault>
    ensures { GivesField result (new_holder_at handing bytes.now) }
{
    if !handing {
        return Ok((None, bytes));
    }
    let (proc, rest) = read_proc(bytes)?;
    Ok((Some(proc), rest))
}

fn least_ids(handing: bool) -> u8
    ensures { result ≡ least_ids handing }
{
    if handing { 0 } else { 1 }
}

fn least_kind(handing: bool) -> u8
    ensures { result ≡ least_kind handing }
{
    if handing { 3 } else { 1 }
}

#[tactic(auto, unfolding(crate::specs::Reading::sequence_at))]
fn read_placement(
    alloc: Global,
    handing: bool,
    bytes: &[u8],
) -> Result<(Placement, &[u8]), FrameFault>
    ensures { GivesField result (sequence_at handing bytes.now) }
{
    let (first, rest) = read_word(1, MAX_POSITION, bytes)?;
    let (count, rest) = read_byte(least_ids(handing), MAX_PLACED as u8, rest)?;
    let (ids, rest) = read_ids(alloc, count as u16, rest)?;
    let (holder, rest) = read_new_holder(handing, rest)?;
    Ok((Placement::from_parts(first, ids, holder), rest))
}

#[tactic(auto, unfolding(crate::specs::Reading::kind_at))]
fn read_kind(handing: bool, bytes: &[u8]) -> Result<(Kind, &[u8]), FrameFault>
    ensures { GivesField result (kind_at handing bytes.now) }
{
    let (number, rest) = read_byte(least_kind(handing), 3, bytes)?;
    let kind = match number {
        1 => Kind::Causal,
        2 => Kind::Atomic,
        _ => Kind::Order,
    };
    Ok((kind, rest))
}

#[tactic(auto, unfolding(crate::specs::Reading::causal_at))]
fn read_causal(alloc: Global, bytes: &[u8]) -> Result<(Body, &[u8]), FrameFault>
    ensures { GivesField result (causal_at bytes.now) }
{
    let (payload, rest) = read_payload(alloc, bytes)?;
    Ok((Body::Causal(payload), rest))
}

#[tactic(auto, unfolding(crate::specs::Reading::atomic_at))]
fn read_atomic(alloc: Global, bytes: &[u8]) -> Result<(Body, &[u8]), FrameFault>
    ensures { GivesField result (atomic_at bytes.now) }
{
    let (payload, rest) = read_payload(alloc, bytes)?;
    Ok((Body::Atomic(payload), rest))
}

#[tactic(auto, unfolding(crate::specs::Reading::order_at))]
fn read_order(alloc: Global, handing: bool, bytes: &[u8]) -> Result<(Body, &[u8]), FrameFault>
    ensures { GivesField result (order_at handing bytes.now) }
{
    let (placement, rest) = read_placement(alloc, handing, bytes)?;
    Ok((Body::Order(placement), rest))
}

#[tactic(auto, unfolding(crate::specs::Reading::body_at))]
fn read_body(
    alloc: Global,
    handing: bool,
    kind: Kind,
    bytes: &[u8],
) -> Result<(Body, &[u8]), FrameFault>
    ensures { GivesField result (body_at handing kind bytes.now) }
{
    match kind {
        Kind::Causal => read_causal(alloc, bytes),
        Kind::Atomic => read_atomic(alloc, bytes),
        Kind::Order => read_order(alloc, handing, bytes),
    }
}

/// A message: its name, its kind, its times and what it holds.
///
/// Its bytes do not say whether it hands over the token of its view; `handing` does. Where it does
/// not, its kind is 1 to 3, and a set-order message has 1 to 64 ids. Where it does, its kind is 3,
/// it has 0 to 64 ids, and the 6 bytes of the new holder stand behind them. Another kind, or
/// another number of ids, is `Range`.
#[tactic(auto, unfolding(crate::specs::Reading::message_at))]
pub fn read_message(
    alloc: Global,
    handing: bool,
    bytes: &[u8],
) -> Result<(Message, &[u8]), FrameFault>
    ensures { GivesField result (message_at handing bytes.now) }
{
    let (id, rest) = read_uid(bytes)?;
    let (kind, rest) = read_kind(handing, rest)?;
    let (times, rest) = read_times(alloc, rest)?;
    let (body, rest) = read_body(alloc, handing, kind, rest)?;
    Ok((Message { id, times, body }, rest))
}

fn read_procs(alloc: Global, count: u8, bytes: &[u8]) -> Result<(Vec<Proc>, &[u8]), FrameFault>
    ensures { GivesAs (λ x. (x.0.items, x.1.now))
        result (many proc_above some_proc count None bytes.now) }
{
    let mut procs = Vec::new(alloc);
    let mut last = None;
    let mut rest = bytes;
    for _ in 0..count {
        let (proc, after) = read_proc_above(last, rest)?;
        last = Some(proc);
        procs.push(proc)?;
        rest = after;
    }
    Ok((procs, rest))
}

#[tactic(auto, unfolding(crate::specs::Reading::holder_at))]
fn read_holder<'a>(
    members: &[Proc],
    bytes: &'a [u8],
) -> Result<(Option<Proc>, &'a [u8]), FrameFault>
    requires { length members.now ≤ 64 }
    ensures { GivesField result (holder_at members.now bytes.now) }
{
    if members.is_empty() {
        return Ok((None, bytes));
    }
    let (place, rest) = read_byte(0, (members.len() - 1) as u8, bytes)?;
    Ok((members.get(place as usize).copied(), rest))
}

/// The members of a view: how many, each above the one before, and the holder by its place.
#[tactic(auto, unfolding(crate::specs::Reading::members_at))]
pub fn read_members(alloc: Global, bytes: &[u8]) -> Result<(Membership, &[u8]), FrameFault>
    ensures { GivesField result (members_at bytes.now) }
{
    let (count, rest) = read_byte(0, MAX_MEMBERS as u8, bytes)?;
    let (list, rest) = read_procs(alloc, count, rest)?;
    let (holder, rest) = read_holder(&list, rest)?;
    Ok((Membership::from_parts(list, holder), rest))
}

/// The end of an order: how many ids stand before it, how many it has, at most `most`, and the ids.
#[tactic(auto, unfolding(crate::specs::Reading::tail_at))]
pub fn read_tail(alloc: Global, most: u16, bytes: &[u8]) -> Result<(Tail, &[u8]), FrameFault>
    requires { most ≤ 576 }
    ensures { GivesField result (tail_at most bytes.now) }
{
    let (start, rest) = read_word(0, MAX_POSITION, bytes)?;
    let (count, rest) = read_short(0, most, rest)?;
    let (ids, rest) = read_ids(alloc, count, rest)?;
    Ok((Tail::from_parts(start, ids), rest))
}

#[tactic(auto, unfolding(crate::specs::Reading::id_above, crate::specs::Reading::above))]
fn read_id_above(
    last: Option<(Proc, u32)>,
    bytes: &[u8],
) -> Result<((Proc, u32), &[u8]), FrameFault>
    ensures { GivesField result (id_above last bytes.now) }
{
    let (id, rest) = read_entry(bytes)?;
    match last {
        Some(last) if !last.cmp(&id).is_lt() => Err(FrameFault::NotSorted),
        _ => Ok((id, rest)),
    }
}

#[tactic(auto, unfolding(crate::specs::Reading::mark_at))]
fn read_mark(bytes: &[u8]) -> Result<(bool, &[u8]), FrameFault>
    ensures { GivesField result (mark_at bytes.now) }
{
    let (number, rest) = read_byte(0, 1, bytes)?;
    Ok((number == 1, rest))
}

#[tactic(auto, unfolding(crate::specs::Reading::marked_above))]
fn read_marked_above(
    last: Option<(Proc, u32)>,
    bytes: &[u8],
) -> Result<(((Proc, u32), bool), &[u8]), FrameFault>
    ensures { GivesField result (marked_above last bytes.now) }
{
    let (id, rest) = read_id_above(last, bytes)?;
    let (mark, rest) = read_mark(rest)?;
    Ok(((id, mark), rest))
}

fn read_all_marked(
    alloc: Global,
    count: u16,
    bytes: &[u8],
) -> Result<(Vec<((Proc, u32), bool)>, &[u8]), FrameFault>
    ensures { GivesAs (λ x. (x.0.items, x.1.now))
        result (many marked_above id_of count None bytes.now) }
{
    let mut entries = Vec::new(alloc);
    let mut last = None;
    let mut rest = bytes;
    for _ in 0..count {
        let (entry, after) = read_marked_above(last, rest)?;
        last = Some(entry.0);
        entries.push(entry)?;
        rest = after;
    }
    Ok((entries, rest))
}

/// Kept messages: how many, and each id above the one before with its mark.
#[tactic(auto, unfolding(crate::specs::Reading::kept_at))]
pub fn read_kept(alloc: Global, bytes: &[u8]) -> Result<(KeptIds, &[u8]), FrameFault>
    ensures { GivesField result (kept_at bytes.now) }
{
    let (count, rest) = read_short(0, MAX_KEPT as u16, bytes)?;
    let (entries, rest) = read_all_marked(alloc, count, rest)?;
    Ok((KeptIds::from_entries(entries), rest))
}
