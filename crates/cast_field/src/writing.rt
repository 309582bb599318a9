ghost use Rattle.std.specs.Prelude.{◌≡◌, ◌++◌, ◌≤◌, length, OnOk};
ghost use Rattle.std.specs.List.{flat_map, position, position_or_len};
ghost use Rattle.cast_types.specs.Names.{proc_eq};
ghost use Rattle.cast_field.specs.Spelling.{kind_code, short, spelled_body, spelled_clock};
ghost use Rattle.cast_field.specs.Spelling.{spelled_counts, spelled_entry, spelled_holder};
ghost use Rattle.cast_field.specs.Spelling.{spelled_kept, spelled_marked, spelled_members};
ghost use Rattle.cast_field.specs.Spelling.{spelled_message, spelled_new_holder};
ghost use Rattle.cast_field.specs.Spelling.{spelled_payload, spelled_proc, spelled_sequence};
ghost use Rattle.cast_field.specs.Spelling.{spelled_tail, spelled_times, spelled_uid, word};

use bytes::BufMut;
use cast_message::{Body, KeptIds, Membership, Message, Payload, Placement, Tail};
use cast_types::{Clock, Counts, GroupNo, Kind, NoMemory, Proc, Stamp, Uid};

/// A process: its site and its serial.
#[tactic(auto, unfolding(crate::specs::Spelling::spelled_proc, crate::specs::Spelling::short, crate::specs::Spelling::word))]
pub fn put_proc(out: &mut Vec<u8>, proc: Proc) -> Result<(), NoMemory>
    ensures { OnOk result (out.new.items ≡ out.old.items ++ spelled_proc proc) }
{
    out.put_u16(proc.site.0)?;
    out.put_u32(proc.serial)?;
    Ok(())
}

#[tactic(auto, unfolding(crate::specs::Spelling::spelled_entry, crate::specs::Spelling::word))]
fn put_entry(out: &mut Vec<u8>, entry: (Proc, u32)) -> Result<(), NoMemory>
    ensures { OnOk result (out.new.items ≡ out.old.items ++ spelled_entry entry) }
{
    put_proc(out, entry.0)?;
    out.put_u32(entry.1)?;
    Ok(())
}

/// The name of a message: group, view, process, count.
#[tactic(auto, unfolding(crate::specs::Spelling::spelled_uid, crate::specs::Spelling::short, crate::specs::Spelling::word))]
pub fn put_uid(out: &mut Vec<u8>, id: Uid) -> Result<(), NoMemory>
    ensures { OnOk result (out.new.items ≡ out.old.items ++ spelled_uid id) }
{
    out.put_u16(id.group.0)?;
    out.put_u32(id.view)?;
    put_proc(out, id.proc)?;
    out.put_u32(id.count)?;
    Ok(())
}

fn put_entries(out: &mut Vec<u8>, entries: &[(Proc, u32)]) -> Result<(), NoMemory>
    ensures { OnOk result (out.new.items ≡ out.old.items ++ flat_map spelled_entry entries.now) }
{
    for entry in entries {
        put_entry(out, *entry)?;
    }
    Ok(())
}

/// Counts: how many, and each process with its count.
#[tactic(auto, unfolding(crate::specs::Spelling::spelled_counts, crate::specs::Spelling::byte))]
pub fn put_counts(out: &mut Vec<u8>, counts: &Counts) -> Result<(), NoMemory>
    ensures { OnOk result (out.new.items ≡ out.old.items ++ spelled_counts counts.now) }
{
    out.put_u8(counts.len() as u8)?;
    put_entries(out, counts.entries())?;
    Ok(())
}

#[tactic(auto, unfolding(crate::specs::Spelling::spelled_clock, crate::specs::Spelling::short, crate::specs::Spelling::word))]
fn put_clock(out: &mut Vec<u8>, group: GroupNo, clock: &Clock) -> Result<(), NoMemory>
    ensures { OnOk result (out.new.items ≡ out.old.items ++ spelled_clock (group, clock.now)) }
{
    out.put_u16(group.0)?;
    out.put_u32(clock.view)?;
    put_counts(out, &clock.counts)?;
    Ok(())
}

fn put_clocks(out: &mut Vec<u8>, clocks: &[(GroupNo, Clock)]) -> Result<(), NoMemory>
    ensures { OnOk result (out.new.items ≡ out.old.items ++ flat_map spelled_clock clocks.now) }
{
    for (group, clock) in clocks {
        put_clock(out, *group, clock)?;
    }
    Ok(())
}

#[tactic(auto, unfolding(crate::specs::Spelling::spelled_times, crate::specs::Spelling::byte))]
fn put_times(out: &mut Vec<u8>, times: &Stamp) -> Result<(), NoMemory>
    ensures { OnOk result (out.new.items ≡ out.old.items ++ spelled_times times.now) }
{
    let clocks = times.clocks();
    out.put_u8(clocks.len() as u8)?;
    put_clocks(out, clocks)?;
    Ok(())
}

#[tactic(auto, unfolding(crate::specs::Spelling::spelled_payload, crate::specs::Spelling::short))]
fn put_payload(out: &mut Vec<u8>, payload: &Payload) -> Result<(), NoMemory>
    ensures { OnOk result (out.new.items ≡ out.old.items ++ spelled_payload payload.now) }
{
    out.put_u16(payload.len() as u16)?;
    out.put_slice(payload.as_slice())?;
    Ok(())
}

#[tactic(auto, unfolding(crate::specs::Spelling::spelled_new_holder))]
fn put_new_holder(out: &mut Vec<u8>, holder: Option<Proc>) -> Result<(), NoMemory>
    ensures { OnOk result (out.new.items ≡ out.old.items ++ spelled_new_holder holder) }
{
    match holder {
        None => Ok(()),
        Some(holder) => put_proc(out, holder),
    }
}

#[tactic(auto, unfolding(crate::specs::Spelling::spelled_sequence, crate::specs::Spelling::byte, crate::specs::Spelling::word))]
fn put_placement(out: &mut Vec<u8>, placement: &Placement) -> Result<(), NoMemory>
    ensures { OnOk result (out.new.items ≡ out.old.items ++ spelled_sequence placement.now) }
{
    let ids = placement.ids();
    out.put_u32(placement.first())?;
    out.put_u8(ids.len() as u8)?;
    put_entries(out, ids)?;
    put_new_holder(out, placement.holder())?;
    Ok(())
}

#[tactic(auto, unfolding(crate::specs::Spelling::spelled_body))]
fn put_body(out: &mut Vec<u8>, body: &Body) -> Result<(), NoMemory>
    ensures { OnOk result (out.new.items ≡ out.old.items ++ spelled_body body.now) }
{
    match body {
        Body::Causal(payload) => put_payload(out, payload),
        Body::Atomic(payload) => put_payload(out, payload),
        Body::Order(placement) => put_placement(out, placement),
    }
}

fn code_of_kind(kind: Kind) -> u8
    ensures { result ≡ kind_code kind }
{
    match kind {
        Kind::Causal => 1,
        Kind::Atomic => 2,
        Kind::Order => 3,
    }
}

/// A message: its name, its kind, its times and what it holds. In a set-order message that hands
/// over the token of its view the new holder stands behind the ids.
#[tactic(auto, unfolding(crate::specs::Spelling::spelled_message, crate::specs::Spelling::byte))]
pub fn put_message(out: &mut Vec<u8>, message: &Message) -> Result<(), NoMemory>
    ensures { OnOk result (out.new.items ≡ out.old.items ++ spelled_message message.now) }
{
    put_uid(out, message.id)?;
    out.put_u8(code_of_kind(message.kind()))?;
    put_times(out, &message.times)?;
    put_body(out, &message.body)?;
    Ok(())
}

fn put_procs(out: &mut Vec<u8>, procs: &[Proc]) -> Result<(), NoMemory>
    ensures { OnOk result (out.new.items ≡ out.old.items ++ flat_map spelled_proc procs.now) }
{
    for proc in procs {
        put_proc(out, *proc)?;
    }
    Ok(())
}

fn position_of(members: &[Proc], holder: Proc) -> Option<usize>
    ensures { result ≡ position (proc_eq holder) members.now }
{
    members.iter().position(|member| holder == *member)
}

#[tactic(auto, using(cast_message::proofs::Places::position_or_len_found, cast_message::proofs::Places::position_or_len_within))]
fn place_of(members: &[Proc], holder: Proc) -> usize
    ensures place { result ≡ position_or_len (proc_eq holder) members.now }
    ensures bound { result ≤ length members.now }
{
    position_of(members, holder).unwrap_or(members.len())
}

#[tactic(auto, unfolding(crate::specs::Spelling::spelled_holder, crate::specs::Spelling::byte))]
fn put_holder(out: &mut Vec<u8>, members: &[Proc], holder: Option<Proc>) -> Result<(), NoMemory>
    requires { length members.now ≤ 64 }
    ensures { OnOk result (out.new.items ≡ out.old.items ++ spelled_holder members.now holder) }
{
    match holder {
        None => Ok(()),
        Some(holder) => {
            out.put_u8(place_of(members, holder) as u8)?;
            Ok(())
        }
    }
}

/// The members of a view: how many, the members, and the holder by its place.
#[tactic(auto, unfolding(crate::specs::Spelling::spelled_members, crate::specs::Spelling::byte))]
pub fn put_members(out: &mut Vec<u8>, members: &Membership) -> Result<(), NoMemory>
    ensures { OnOk result (out.new.items ≡ out.old.items ++ spelled_members members.now) }
{
    let list = members.list();
    out.put_u8(list.len() as u8)?;
    put_procs(out, list)?;
    put_holder(out, list, members.holder())?;
    Ok(())
}

/// The end of an order: how many ids stand before it, how many it has, and the ids.
#[tactic(auto, unfolding(crate::specs::Spelling::spelled_tail, crate::specs::Spelling::short, crate::specs::Spelling::word))]
pub fn put_tail(out: &mut Vec<u8>, tail: &Tail) -> Result<(), NoMemory>
    ensures { OnOk result (out.new.items ≡ out.old.items ++ spelled_tail tail.now) }
{
    let ids = tail.ids();
    out.put_u32(tail.start())?;
    out.put_u16(ids.len() as u16)?;
    put_entries(out, ids)?;
    Ok(())
}

#[tactic(auto, unfolding(crate::specs::Spelling::spelled_marked, crate::specs::Spelling::byte))]
fn put_marked(out: &mut Vec<u8>, marked: ((Proc, u32), bool)) -> Result<(), NoMemory>
    ensures { OnOk result (out.new.items ≡ out.old.items ++ spelled_marked marked) }
{
    put_entry(out, marked.0)?;
    out.put_u8(if marked.1 { 1 } else { 0 })?;
    Ok(())
}

fn put_all_marked(out: &mut Vec<u8>, entries: &[((Proc, u32), bool)]) -> Result<(), NoMemory>
    ensures { OnOk result (out.new.items ≡ out.old.items ++ flat_map spelled_marked entries.now) }
{
    for entry in entries {
        put_marked(out, *entry)?;
    }
    Ok(())
}

/// Kept messages: how many, and each id with its mark.
#[tactic(auto, unfolding(crate::specs::Spelling::spelled_kept, crate::specs::Spelling::short))]
pub fn put_kept(out: &mut Vec<u8>, kept: &KeptIds) -> Result<(), NoMemory>
    ensures { OnOk result (out.new.items ≡ out.old.items ++ spelled_kept kept.now) }
{
    let entries = kept.entries();
    out.put_u16(entries.len() as u16)?;
    put_all_marked(out, entries)?;
    Ok(())
}

/// A view: its group and its number.
#[tactic(auto, unfolding(crate::specs::Spelling::short, crate::specs::Spelling::word))]
pub fn put_view(out: &mut Vec<u8>, group: GroupNo, view: u32) -> Result<(), NoMemory>
    ensures { OnOk result (out.new.items ≡ out.old.items ++ (short group.0 ++ word view)) }
{
    out.put_u16(group.0)?;
    out.put_u32(view)?;
    Ok(())
}
