ghost use Rattle.std.specs.Prelude.{◌≡◌, ◌++◌, ◌+◌, ◌≤◌, IfOk, IsTrue, OnOk, length};
ghost use Rattle.cast_message.specs.declared.client.ClientFrame.TheVariants as client;
ghost use Rattle.cast_message.specs.Fitting.{client_fits, request_fits};
ghost use Rattle.cast_message.specs.Replies.{reply_code};
ghost use Rattle.cast_client.specs.Spelling.{cast_code, push_code, request_code};
ghost use Rattle.cast_client.specs.Spelling.{spelled_client, spelled_push, spelled_request};
ghost use Rattle.cast_field.specs.Spelling.{byte, short, spelled_members, spelled_uid, word};

use crate::front::MIN_CLIENT_FRAME;
use bytes::{BufMut, Bytes};
use cast_field::writing::{put_members, put_proc, put_uid, put_view};
use cast_message::{CastKind, ClientFrame, Membership, Payload, Push, Request};
use cast_types::{GroupNo, NoMemory, Refusal, Uid};
use std::alloc::Global;

fn code_of_cast(kind: CastKind) -> u8
    ensures { result ≡ cast_code kind }
{
    match kind {
        CastKind::Causal => 1,
        CastKind::Atomic => 2,
    }
}

fn code_of_reply(refusal: Option<Refusal>) -> u8
    ensures { result ≡ reply_code refusal }
{
    match refusal {
        None => 0,
        Some(refusal) => refusal.number(),
    }
}

fn code_of_request(request: &Request) -> u8
    ensures { result ≡ request_code request.now }
{
    match request {
        Request::Join { .. } => 1,
        Request::Leave { .. } => 2,
        Request::Cast { .. } => 3,
        Request::Pass { .. } => 4,
    }
}

fn code_of_push(push: &Push) -> u8
    ensures { result ≡ push_code push.now }
{
    match push {
        Push::Opened(_) => 65,
        Push::Reply { .. } => 66,
        Push::View { .. } => 67,
        Push::Deliver { .. } => 68,
        Push::Ejected { .. } => 69,
        Push::Denied { .. } => 70,
        Push::Closed(_) => 71,
    }
}

// How many bytes members have in a frame.
#[tactic(auto, using(crate::proofs::Sizes::members_len))]
fn len_of_members(members: &Membership) -> usize
    ensures value { result ≡ length (spelled_members members.now) }
    ensures bound { result ≤ 386 }
{
    let holder = if members.holder().is_some() { 1 } else { 0 };
    1 + 6 * members.list().len() + holder
}

// How many bytes the parts of a request have.
#[tactic(auto, using(crate::proofs::Sizes::request_size))]
fn len_of_request(request: &Request) -> usize
    requires { IsTrue (request_fits request.now) }
    ensures value { result ≡ length (spelled_request request.now) }
    ensures bound { result ≤ 19995 }
{
    match request {
        Request::Join { .. } | Request::Leave { .. } => 6,
        Request::Cast { payload, .. } => 7 + payload.len(),
        Request::Pass { .. } => 12,
    }
}

// How many bytes the parts of a push have.
#[tactic(auto, using(crate::proofs::Sizes::push_size))]
fn len_of_push(push: &Push) -> usize
    ensures value { result ≡ length (spelled_push push.now) }
    ensures bound { result ≤ 19995 }
{
    match push {
        Push::Opened(_) | Push::Ejected { .. } => 6,
        Push::Reply { .. } => 5,
        Push::View { members, .. } => 6 + len_of_members(members),
        Push::Deliver { payload, .. } => 17 + payload.len(),
        Push::Denied { .. } => 3,
        Push::Closed(_) => 1,
    }
}

// The front of a frame of this type, whose parts have so many bytes.
#[tactic(auto, unfolding(cast_field::specs::Spelling::byte, cast_field::specs::Spelling::word))]
fn front_of_frame(alloc: Global, code: u8, parts: usize) -> Result<Vec<u8>, NoMemory>
    requires { parts ≤ 19995 }
    ensures { IfOk result (λ b. b.items ≡ word (5 + parts) ++ byte code) }
{
    let len = MIN_CLIENT_FRAME + parts;
    let mut out = Vec::with_capacity(alloc, len)?;
    out.put_u32(len as u32)?;
    out.put_u8(code)?;
    Ok(out)
}

#[tactic(auto, unfolding(cast_field::specs::Spelling::byte, cast_field::specs::Spelling::short, cast_field::specs::Spelling::word))]
fn put_cast(
    out: &mut Vec<u8>,
    tag: u32,
    group: GroupNo,
    kind: CastKind,
    payload: &Bytes,
) -> Result<(), NoMemory>
    ensures { OnOk result (out.new.items ≡ out.old.items
        ++ (word tag ++ (short group.0 ++ (byte (cast_code kind) ++ payload.now)))) }
{
    out.put_u32(tag)?;
    out.put_u16(group.0)?;
    out.put_u8(code_of_cast(kind))?;
    out.put_slice(payload.as_slice())?;
    Ok(())
}

#[tactic(auto, unfolding(crate::specs::Spelling::spelled_request, cast_field::specs::Spelling::short, cast_field::specs::Spelling::word))]
fn put_request(out: &mut Vec<u8>, request: &Request) -> Result<(), NoMemory>
    ensures { OnOk result (out.new.items ≡ out.old.items ++ spelled_request request.now) }
{
    match request {
        Request::Join { tag, group } | Request::Leave { tag, group } => {
            out.put_u32(*tag)?;
            out.put_u16(group.0)?;
            Ok(())
        }
        Request::Cast {
            tag,
            group,
            kind,
            payload,
        } => put_cast(out, *tag, *group, *kind, payload),
        Request::Pass { tag, group, to } => {
            out.put_u32(*tag)?;
            out.put_u16(group.0)?;
            put_proc(out, *to)?;
            Ok(())
        }
    }
}

#[tactic(auto, unfolding(cast_field::specs::Spelling::byte))]
fn put_deliver(
    out: &mut Vec<u8>,
    id: Uid,
    kind: CastKind,
    payload: &Payload,
) -> Result<(), NoMemory>
    ensures { OnOk result (out.new.items
        ≡ out.old.items ++ (spelled_uid id ++ (byte (cast_code kind) ++ payload.now))) }
{
    put_uid(out, id)?;
    out.put_u8(code_of_cast(kind))?;
    out.put_slice(payload.as_slice())?;
    Ok(())
}

#[tactic(auto, unfolding(crate::specs::Spelling::spelled_push, cast_field::specs::Spelling::byte, cast_field::specs::Spelling::short, cast_field::specs::Spelling::word))]
fn put_push(out: &mut Vec<u8>, push: &Push) -> Result<(), NoMemory>
    ensures { OnOk result (out.new.items ≡ out.old.items ++ spelled_push push.now) }
{
    match push {
        Push::Opened(proc) => put_proc(out, *proc),
        Push::Reply { tag, refusal } => {
            out.put_u32(*tag)?;
            out.put_u8(code_of_reply(*refusal))
        }
        Push::View {
            group,
            view,
            members,
        } => {
            put_view(out, *group, *view)?;
            put_members(out, members)
        }
        Push::Deliver { id, kind, payload } => put_deliver(out, *id, *kind, payload),
        Push::Ejected { group, view } => put_view(out, *group, *view),
        Push::Denied { group, refusal } => {
            out.put_u16(group.0)?;
            out.put_u8(refusal.number())
        }
        Push::Closed(refusal) => out.put_u8(refusal.number()),
    }
}

/// The one spelling of a request, of 5 to 20,000 bytes. `NoMemory` comes where an allocation was
/// refused.
#[tactic(auto, unfolding(crate::specs::Spelling::spelled_client))]
pub fn encode_request(alloc: Global, request: &Request) -> Result<Bytes, NoMemory>
    requires { IsTrue (request_fits request.now) }
    ensures { IfOk result (λ b. b ≡ spelled_client (client.Request request.now)) }
{
    let mut out = front_of_frame(alloc, code_of_request(request), len_of_request(request))?;
    put_request(&mut out, request)?;
    Ok(Bytes::from_vec(out)?)
}

/// The one spelling of a push, of 5 to 20,000 bytes. `NoMemory` comes where an allocation was
/// refused.
#[tactic(auto, unfolding(crate::specs::Spelling::spelled_client))]
pub fn encode_push(alloc: Global, push: &Push) -> Result<Bytes, NoMemory>
    ensures { IfOk result (λ b. b ≡ spelled_client (client.Push push.now)) }
{
    let mut out = front_of_frame(alloc, code_of_push(push), len_of_push(push))?;
    put_push(&mut out, push)?;
    Ok(Bytes::from_vec(out)?)
}

/// Adds the one spelling of a push behind other bytes. `NoMemory` comes where an allocation was
/// refused; then a beginning of the spelling may have been added.
#[tactic(auto, unfolding(crate::specs::Spelling::spelled_client, cast_field::specs::Spelling::byte, cast_field::specs::Spelling::word))]
pub fn add_push(out: &mut Vec<u8>, push: &Push) -> Result<(), NoMemory>
    ensures { OnOk result (out.new.items ≡ out.old.items ++ spelled_client (client.Push push.now)) }
{
    let len = MIN_CLIENT_FRAME + len_of_push(push);
    out.reserve(len)?;
    out.put_u32(len as u32)?;
    out.put_u8(code_of_push(push))?;
    put_push(out, push)
}

/// The one spelling of a frame between a program and its daemon, of 5 to 20,000 bytes where its
/// numbers are in their ranges. The frame is only read; `NoMemory` comes where an allocation was
/// refused.
pub fn encode_client(alloc: Global, frame: &ClientFrame) -> Result<Bytes, NoMemory>
    requires { IsTrue (client_fits frame.now) }
    ensures { IfOk result (λ b. b ≡ spelled_client frame.now) }
{
    match frame {
        ClientFrame::Request(request) => encode_request(alloc, request),
        ClientFrame::Push(push) => encode_push(alloc, push),
    }
}
