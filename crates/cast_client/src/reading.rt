ghost use Rattle.std.specs.Prelude.{◌≡◌, ◌++◌, ◌≤◌, ◌<◌, ◌-◌, IfOk, Ok, length, take, List, ℕ};
ghost use Rattle.cast_client.specs.declared.front.ClientRead.TheVariants.{Frame, More};
ghost use Rattle.cast_message.specs.declared.client.ClientFrame.{ClientFrame};
ghost use Rattle.cast_field.specs.Reading.{Gives, GivesField};
ghost use Rattle.cast_client.specs.Reading.{cast_at, cast_kind_at, client_frame_of, client_of};
ghost use Rattle.cast_client.specs.Reading.{closed_at, deliver_at, denied_at, ejected_at, end_at};
ghost use Rattle.cast_client.specs.Reading.{frame_of_length, join_at, leave_at, length_at};
ghost use Rattle.cast_client.specs.Reading.{length_of, opened_at, parts_at, pass_at, refusal_at};
ghost use Rattle.cast_client.specs.Reading.{replied_at, reply_at, short_end_at, tag_at, view_at};
ghost use Rattle.cast_client.specs.Spelled.{IsClient, IsFront, wanting};
ghost use Rattle.cast_client.specs.Spelling.{spelled_client};

use crate::front::{ClientRead, LENGTH_BYTES, MIN_CLIENT_FRAME};
use bytes::Bytes;
use cast_field::FrameFault;
use cast_field::reading::{
    read_byte, read_count, read_group, read_members, read_proc, read_uid, read_word,
};
use cast_message::{CastKind, ClientFrame, Payload, Push, Request};
use cast_types::Refusal;
use cast_types::limits::{MAX_CLIENT_FRAME, MAX_NUMBER, MAX_PAYLOAD};
use std::alloc::Global;

#[tactic(auto, unfolding(crate::specs::Reading::tag_at))]
fn read_tag(bytes: &[u8]) -> Result<(u32, &[u8]), FrameFault>
    ensures { GivesField result (tag_at bytes.now) }
{
    read_word(0, MAX_NUMBER, bytes)
}

#[tactic(auto, unfolding(crate::specs::Reading::cast_kind_at))]
fn read_cast_kind(bytes: &[u8]) -> Result<(CastKind, &[u8]), FrameFault>
    ensures { GivesField result (cast_kind_at bytes.now) }
{
    let (number, rest) = read_byte(1, 2, bytes)?;
    let kind = if number == 1 {
        CastKind::Causal
    } else {
        CastKind::Atomic
    };
    Ok((kind, rest))
}

// A refusal, or `None` for 0.
#[tactic(auto, unfolding(crate::specs::Reading::reply_at))]
fn read_reply(bytes: &[u8]) -> Result<(Option<Refusal>, &[u8]), FrameFault>
    ensures { GivesField result (reply_at bytes.now) }
{
    let (number, rest) = read_byte(0, 15, bytes)?;
    Ok((Refusal::from_number(number), rest))
}

#[tactic(auto, unfolding(crate::specs::Reading::refusal_at, crate::specs::Reading::named_refusal))]
fn read_refusal(bytes: &[u8]) -> Result<(Refusal, &[u8]), FrameFault>
    ensures { GivesField result (refusal_at bytes.now) }
{
    let (number, rest) = read_byte(1, 15, bytes)?;
    match Refusal::from_number(number) {
        Some(refusal) => Ok((refusal, rest)),
        None => Err(FrameFault::Range),
    }
}

// All bytes up to the end.
#[tactic(auto, unfolding(crate::specs::Reading::end_at))]
fn read_end(alloc: Global, bytes: &[u8]) -> Result<(Bytes, &[u8]), FrameFault>
    ensures { GivesField result (end_at bytes.now) }
{
    Ok((Bytes::copy_from_slice(alloc, bytes)?, &[]))
}

// All bytes up to the end, as many as a payload may have.
#[tactic(auto, unfolding(crate::specs::Reading::short_end_at))]
fn read_short_end(alloc: Global, bytes: &[u8]) -> Result<(Payload, &[u8]), FrameFault>
    ensures { GivesField result (short_end_at bytes.now) }
{
    if bytes.len() > MAX_PAYLOAD {
        return Err(FrameFault::Range);
    }
    let payload = Bytes::copy_from_slice(alloc, bytes)?;
    Ok((Payload::from_bytes(payload), &[]))
}

#[tactic(auto, unfolding(crate::specs::Reading::join_at))]
fn read_join(bytes: &[u8]) -> Result<(ClientFrame, &[u8]), FrameFault>
    ensures { GivesField result (join_at bytes.now) }
{
    let (tag, rest) = read_tag(bytes)?;
    let (group, rest) = read_group(rest)?;
    Ok((ClientFrame::Request(Request::Join { tag, group }), rest))
}

#[tactic(auto, unfolding(crate::specs::Reading::leave_at))]
fn read_leave(bytes: &[u8]) -> Result<(ClientFrame, &[u8]), FrameFault>
    ensures { GivesField result (leave_at bytes.now) }
{
    let (tag, rest) = read_tag(bytes)?;
    let (group, rest) = read_group(rest)?;
    Ok((ClientFrame::Request(Request::Leave { tag, group }), rest))
}

#[tactic(auto, unfolding(crate::specs::Reading::cast_at))]
fn read_cast(alloc: Global, bytes: &[u8]) -> Result<(ClientFrame, &[u8]), FrameFault>
    ensures { GivesField result (cast_at bytes.now) }
{
    let (tag, rest) = read_tag(bytes)?;
    let (group, rest) = read_group(rest)?;
    let (kind, rest) = read_cast_kind(rest)?;
    let (payload, rest) = read_end(alloc, rest)?;
    let request = Request::Cast {
        tag,
        group,
        kind,
        payload,
    };
    Ok((ClientFrame::Request(request), rest))
}

#[tactic(auto, unfolding(crate::specs::Reading::pass_at))]
fn read_pass(bytes: &[u8]) -> Result<(ClientFrame, &[u8]), FrameFault>
    ensures { GivesField result (pass_at bytes.now) }
{
    let (tag, rest) = read_tag(bytes)?;
    let (group, rest) = read_group(rest)?;
    let (to, rest) = read_proc(rest)?;
    Ok((ClientFrame::Request(Request::Pass { tag, group, to }), rest))
}

#[tactic(auto, unfolding(crate::specs::Reading::opened_at))]
fn read_opened(bytes: &[u8]) -> Result<(ClientFrame, &[u8]), FrameFault>
    ensures { GivesField result (opened_at bytes.now) }
{
    let (proc, rest) = read_proc(bytes)?;
    Ok((ClientFrame::Push(Push::Opened(proc)), rest))
}

#[tactic(auto, unfolding(crate::specs::Reading::replied_at))]
fn read_replied(bytes: &[u8]) -> Result<(ClientFrame, &[u8]), FrameFault>
    ensures { GivesField result (replied_at bytes.now) }
{
    let (tag, rest) = read_tag(bytes)?;
    let (refusal, rest) = read_reply(rest)?;
    Ok((ClientFrame::Push(Push::Reply { tag, refusal }), rest))
}

#[tactic(auto, unfolding(crate::specs::Reading::view_at))]
fn read_view(alloc: Global, bytes: &[u8]) -> Result<(ClientFrame, &[u8]), FrameFault>
    ensures { GivesField result (view_at bytes.now) }
{
    let (group, rest) = read_group(bytes)?;
    let (view, rest) = read_count(rest)?;
    let (members, rest) = read_members(alloc, rest)?;
    let push = Push::View {
        group,
        view,
        members,
    };
    Ok((ClientFrame::Push(push), rest))
}

#[tactic(auto, unfolding(crate::specs::Reading::deliver_at))]
fn read_deliver(alloc: Global, bytes: &[u8]) -> Result<(ClientFrame, &[u8]), FrameFault>
    ensures { GivesField result (deliver_at bytes.now) }
{
    let (id, rest) = read_uid(bytes)?;
    let (kind, rest) = read_cast_kind(rest)?;
    let (payload, rest) = read_short_end(alloc, rest)?;
    Ok((ClientFrame::Push(Push::Deliver { id, kind, payload }), rest))
}

#[tactic(auto, unfolding(crate::specs::Reading::ejected_at))]
fn read_ejected(bytes: &[u8]) -> Result<(ClientFrame, &[u8]), FrameFault>
    ensures { GivesField result (ejected_at bytes.now) }
{
    let (group, rest) = read_group(bytes)?;
    let (view, rest) = read_count(rest)?;
    Ok((ClientFrame::Push(Push::Ejected { group, view }), rest))
}

#[tactic(auto, unfolding(crate::specs::Reading::denied_at))]
fn read_denied(bytes: &[u8]) -> Result<(ClientFrame, &[u8]), FrameFault>
    ensures { GivesField result (denied_at bytes.now) }
{
    let (group, rest) = read_group(bytes)?;
    let (refusal, rest) = read_refusal(rest)?;
    Ok((ClientFrame::Push(Push::Denied { group, refusal }), rest))
}

#[tactic(auto, unfolding(crate::specs::Reading::closed_at))]
fn read_closed(bytes: &[u8]) -> Result<(ClientFrame, &[u8]), FrameFault>
    ensures { GivesField result (closed_at bytes.now) }
{
    let (refusal, rest) = read_refusal(bytes)?;
    Ok((ClientFrame::Push(Push::Closed(refusal)), rest))
}

// The parts of a frame of this type.
#[tactic(auto, unfolding(crate::specs::Reading::parts_at))]
fn read_parts(alloc: Global, number: u8, bytes: &[u8]) -> Result<(ClientFrame, &[u8]), FrameFault>
    ensures { GivesField result (parts_at number bytes.now) }
{
    match number {
        1 => read_join(bytes),
        2 => read_leave(bytes),
        3 => read_cast(alloc, bytes),
        4 => read_pass(bytes),
        65 => read_opened(bytes),
        66 => read_replied(bytes),
        67 => read_view(alloc, bytes),
        68 => read_deliver(alloc, bytes),
        69 => read_ejected(bytes),
        70 => read_denied(bytes),
        71 => read_closed(bytes),
        _ => Err(FrameFault::WrongType),
    }
}

// All that stands behind the length of a frame.
#[tactic(auto, unfolding(crate::specs::Reading::client_frame_of))]
fn read_client_frame(alloc: Global, bytes: &[u8]) -> Result<ClientFrame, FrameFault>
    ensures { Gives result (client_frame_of bytes.now) }
{
    let (number, rest) = read_byte(0, 255, bytes)?;
    let (frame, rest) = read_parts(alloc, number, rest)?;
    if !rest.is_empty() {
        return Err(FrameFault::Length);
    }
    Ok(frame)
}

#[tactic(auto, unfolding(crate::specs::Reading::length_at, crate::specs::Reading::length_of))]
fn read_length(bytes: &[u8]) -> Result<usize, FrameFault>
    ensures exact { Gives result (length_at bytes.now) }
    ensures bound { IfOk result (λ n. 5 ≤ n) }
{
    let (number, _) = read_word(0, MAX_NUMBER, bytes)?;
    let len = number as usize;
    if len < MIN_CLIENT_FRAME || len > MAX_CLIENT_FRAME {
        return Err(FrameFault::Length);
    }
    Ok(len)
}

// A frame of this many bytes, or how many of these are wanting.
#[tactic(auto, unfolding(crate::specs::Reading::frame_of_length))]
fn read_of_length(alloc: Global, len: usize, bytes: &[u8]) -> Result<ClientRead, FrameFault>
    requires { 5 ≤ len }
    ensures { Gives result (frame_of_length bytes.now len) }
{
    if bytes.len() < len {
        return Ok(ClientRead::More(len - bytes.len()));
    }
    let frame = &bytes[..len];
    let frame = read_client_frame(alloc, &frame[LENGTH_BYTES..])?;
    Ok(ClientRead::Frame(frame, len))
}

#[tactic(auto, unfolding(crate::specs::Reading::client_of))]
fn read_front(alloc: Global, bytes: &[u8]) -> Result<ClientRead, FrameFault>
    ensures { Gives result (client_of bytes.now) }
{
    if bytes.len() < LENGTH_BYTES {
        return Ok(ClientRead::More(LENGTH_BYTES - bytes.len()));
    }
    let len = read_length(bytes)?;
    read_of_length(alloc, len, bytes)
}

/// Reads what stands at the front of the bytes of a stream between a program and its daemon: a
/// frame and of how many bytes it is, or how many bytes are wanting. Bytes past the frame are not
/// looked at.
///
/// Below 4 bytes the rest of these is wanting. With 4 bytes the length that they say is tested:
/// outside 5 to 20,000 it is the fault `Length`. Then the rest of that length is wanting. Within
/// the frame the fault is the first one from left to right. `NoMemory` comes where an allocation
/// was refused, and says nothing of the bytes.
pub fn decode_client(alloc: Global, bytes: &[u8]) -> Result<ClientRead, FrameFault>
    // Which frame, or how many bytes, or which fault.
    ensures exact { Gives result (client_of bytes.now) }
    // What is read stands at the front, and what is said to be wanting is.
    ensures found { IfOk result (IsFront bytes.now) }
    // What stands at the front in its spelling is read, unless memory runs out.
    ensures only { (f : ClientFrame) (rest : List ℕ) → IsClient f
        → bytes.now ≡ spelled_client f ++ rest
        → Gives result (Ok (Frame f (length (spelled_client f)))) }
    // A part of a frame wants the rest of its length, and then the rest of itself.
    ensures more { (f : ClientFrame) (k : ℕ) → IsClient f → k < length (spelled_client f)
        → bytes.now ≡ take k (spelled_client f)
        → Gives result (Ok (More (wanting f k))) }
{
    read_front(alloc, bytes)
}
