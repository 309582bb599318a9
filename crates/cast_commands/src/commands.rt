ghost use Rattle.std.specs.Prelude.{◌≡◌, ◌<◌, IfOk, length, ◌≤◌, None, OnOk};
ghost use Rattle.std.specs.Prelude.{vec_len, ◌||◌, ◌==◌, not, ◌+◌, Some};
ghost use Rattle.cast_rules.specs.Rules.Commands.{body_of, cast, leave, cast_at, on_command};
ghost use Rattle.cast_rules.specs.Rules.Commands.{join, join_at, pass_at, pass_token, on_request};
ghost use Rattle.cast_domain.specs.Records.{number_of, KeepsBeside, records_in};
ghost use Rattle.cast_domain.specs.Records.{Makes, own_records, Attempts};
ghost use Rattle.cast_domain.specs.PartCalls.{time_of};
ghost use Rattle.cast_domain.specs.ReleaseCalls.{place_to_pass_of};
ghost use Rattle.cast_domain.specs.Calls.{records, answered_in};
ghost use Rattle.cast_types.specs.declared.limits.TheConstants.{MAX_POSITION};
ghost use Rattle.cast_order.specs.Log.{places_by};
ghost use Rattle.cast_rules.specs.Rules.Sending.{send_message};
ghost use Rattle.cast_rules.specs.Rules.Asking.{request};
ghost use Rattle.cast_clock.specs.Times.{view_of};
ghost use Rattle.cast_domain.specs.declared.rest.Weight.TheVariants.{Hands};
ghost use Rattle.cast_rules.specs.Rules.Leaving.{close_session, tell};
ghost use Rattle.cast_events.specs.declared.event.Event.TheVariants as event;

use crate::turns::{awaits_own, places_by};
use bytes::Bytes;
use cast_domain::Domain;
use cast_domain::data::is_named;
use cast_domain::lent::Lent;
use cast_domain::record::GroupRecord;
use cast_events::Taken;
use cast_message::{Body, CastKind, Change, Command, Message, Payload, Placement, Request};
use cast_ready::ProcessUpdate;
use cast_types::limits::{MAX_NUMBER, MAX_PAYLOAD, MAX_POSITION};
use cast_types::{GroupNo, NoMemory, Proc, Refusal, Standing, Uid};

// A program does something.
pub fn command(
    domain: &mut Domain,
    serial: u32,
    command: &Command,
    lent: &mut Lent<'_>,
) -> Result<Taken, NoMemory>
    ensures answer { IfOk result (λ t. t ≡ answered_in (records_in domain.old lent.old)
        (event.Command (number_of domain.old) serial command.now)) }
    ensures stays { KeepsBeside domain.old lent.old domain.new lent.new }
    ensures made { OnOk result (Makes (λ r. on_command records r serial command.now)
        domain.old lent.old domain.new lent.new) }
{
    if !domain.is_open(serial) {
        return Ok(Taken::Refused(Refusal::NotOpen));
    }
    match command {
        Command::Request(request) => serve_request(domain, serial, request, lent)?,
        Command::Bad => domain.close_session(serial, Refusal::BadFrame, lent)?,
    }
    Ok(Taken::Nothing)
}

// Does what a program asks for, or refuses it, and replies.
fn serve_request(
    domain: &mut Domain,
    serial: u32,
    request: &Request,
    lent: &mut Lent<'_>,
) -> Result<(), NoMemory>
    ensures stays { KeepsBeside domain.old lent.old domain.new lent.new }
    ensures made { OnOk result (Makes (λ r. on_request records r serial request.now)
        domain.old lent.old domain.new lent.new) }
{
    match request {
        Request::Join { group, .. } => {
            let refusal = join(domain, serial, *group, lent)?;
            domain.push(serial, request.reply(refusal), lent)
        }
        Request::Leave { group, .. } => {
            let refusal = leave(domain, serial, *group, lent)?;
            domain.push(serial, request.reply(refusal), lent)
        }
        Request::Cast {
            group,
            kind,
            payload,
            ..
        } => {
            let refusal = cast(domain, serial, *group, *kind, payload, lent)?;
            domain.push(serial, request.reply(refusal), lent)
        }
        Request::Pass { group, to, .. } => {
            let refusal = pass_token(domain, serial, *group, *to, lent)?;
            domain.push(serial, request.reply(refusal), lent)
        }
    }
}

// Lets a process join a group, or says why not.
fn join(
    domain: &mut Domain,
    serial: u32,
    group: GroupNo,
    lent: &mut Lent<'_>,
) -> Result<Option<Refusal>, NoMemory>
    ensures stays { KeepsBeside domain.old lent.old domain.new lent.new }
    ensures made { IfOk result
        (Attempts (λ r. join records r serial group) domain.old lent.old domain.new lent.new) }
{
    match domain.place_of(group) {
        Some(place) => join_at(domain, place, serial, group, lent),
        None => Ok(Some(Refusal::NoGroup)),
    }
}

// Lets a process join the group at a place.
fn join_at(
    domain: &mut Domain,
    place: usize,
    serial: u32,
    group: GroupNo,
    lent: &mut Lent<'_>,
) -> Result<Option<Refusal>, NoMemory>
    requires { place < vec_len domain.old.groups }
    ensures stays { KeepsBeside domain.old lent.old domain.new lent.new }
    ensures made { IfOk result (Attempts (λ r. join_at records r serial group place)
        domain.old lent.old domain.new lent.new) }
{
    let process = domain.process(serial);
    match domain.delay.standing(process, group) {
        Standing::Outside => {}
        Standing::Joining { .. } | Standing::Member => {
            return Ok(Some(Refusal::AlreadyMember));
        }
    }
    let asked = domain.record(place).here.request_count();
    if asked == MAX_NUMBER {
        return Ok(Some(Refusal::HeldFull));
    }
    let standing = Standing::Joining {
        request: asked + 1,
        heard: heard(domain, process, group),
    };
    domain.tell(process, ProcessUpdate::Standing(group, standing))?;
    domain.request(place, Change::Join, process, lent)?;
    Ok(None)
}

// The view of a group in the time of a process.
fn heard(domain: &Domain, process: Proc, group: GroupNo) -> u32
    ensures { result ≡ view_of (time_of domain.now.delay process) group }
{
    match domain.delay.time(process) {
        Some(time) => time.view(group),
        None => 0,
    }
}

// Lets a process leave a group, or says why not.
fn leave(
    domain: &mut Domain,
    serial: u32,
    group: GroupNo,
    lent: &mut Lent<'_>,
) -> Result<Option<Refusal>, NoMemory>
    ensures stays { KeepsBeside domain.old lent.old domain.new lent.new }
    ensures made { IfOk result
        (Attempts (λ r. leave records r serial group) domain.old lent.old domain.new lent.new) }
{
    match domain.place_of(group) {
        Some(place) => domain.leave_at(place, serial, group, lent),
        None => Ok(Some(Refusal::NoGroup)),
    }
}

// Casts for a process, or says why not.
fn cast(
    domain: &mut Domain,
    serial: u32,
    group: GroupNo,
    kind: CastKind,
    payload: &Bytes,
    lent: &mut Lent<'_>,
) -> Result<Option<Refusal>, NoMemory>
    ensures stays { KeepsBeside domain.old lent.old domain.new lent.new }
    ensures made { IfOk result (Attempts (λ r. cast records r serial group kind payload.now)
        domain.old lent.old domain.new lent.new) }
{
    match domain.place_of(group) {
        Some(place) => cast_at(domain, place, serial, group, kind, payload, lent),
        None => Ok(Some(Refusal::NoGroup)),
    }
}

// Casts to the group at this place.
fn cast_at(
    domain: &mut Domain,
    at: usize,
    serial: u32,
    group: GroupNo,
    kind: CastKind,
    payload: &Bytes,
    lent: &mut Lent<'_>,
) -> Result<Option<Refusal>, NoMemory>
    requires { at < vec_len domain.old.groups }
    ensures stays { KeepsBeside domain.old lent.old domain.new lent.new }
    ensures made { IfOk result (Attempts (λ r. cast_at records r serial group kind payload.now at)
        domain.old lent.old domain.new lent.new) }
{
    let process = domain.process(serial);
    if payload.len() > MAX_PAYLOAD {
        return Ok(Some(Refusal::TooLong));
    }
    match domain.delay.standing(process, group) {
        Standing::Member => {}
        Standing::Outside | Standing::Joining { .. } => {
            return Ok(Some(Refusal::NotMember));
        }
    }
    if domain.record(at).here.is_frozen() {
        return Ok(Some(Refusal::Flushing));
    }
    if awaits_own(domain, process, lent) {
        return Ok(Some(Refusal::OwnAbcast));
    }
    if !domain.has_room(lent) {
        return Ok(Some(Refusal::HeldFull));
    }
    let Some((time, stamp)) = domain.next_time(process, group)? else {
        return Ok(Some(Refusal::HeldFull));
    };
    let content = payload_from(payload)?;
    let message = Message {
        id: Uid {
            group,
            view: domain.record(at).here.number(),
            proc: process,
            count: time.count(group, process),
        },
        times: stamp,
        body: body_of(kind, content),
    };
    domain.note_sent(process, time, &message)?;
    domain.send_message(message, lent)?;
    domain.casts = domain.casts.saturating_add(1);
    Ok(None)
}

// Hands the token of a group over for a process, or says why not.
fn pass_token(
    domain: &mut Domain,
    serial: u32,
    group: GroupNo,
    to: Proc,
    lent: &mut Lent<'_>,
) -> Result<Option<Refusal>, NoMemory>
    ensures stays { KeepsBeside domain.old lent.old domain.new lent.new }
    ensures made { IfOk result (Attempts (λ r. pass_token records r serial group «to»)
        domain.old lent.old domain.new lent.new) }
{
    match domain.place_of(group) {
        Some(place) => pass_at(domain, place, serial, group, to, lent),
        None => Ok(Some(Refusal::NoGroup)),
    }
}

// Hands the token of the group at this place over.
fn pass_at(
    domain: &mut Domain,
    at: usize,
    serial: u32,
    group: GroupNo,
    to: Proc,
    lent: &mut Lent<'_>,
) -> Result<Option<Refusal>, NoMemory>
    requires { at < vec_len domain.old.groups }
    ensures stays { KeepsBeside domain.old lent.old domain.new lent.new }
    ensures made { IfOk result (Attempts (λ r. pass_at records r serial group «to» at)
        domain.old lent.old domain.new lent.new) }
{
    let process = domain.process(serial);
    match domain.delay.standing(process, group) {
        Standing::Member => {}
        Standing::Outside | Standing::Joining { .. } => {
            return Ok(Some(Refusal::NotMember));
        }
    }
    let kept = domain.record(at);
    if !is_named(to, kept.here.members()) {
        return Ok(Some(Refusal::NotMember));
    }
    if kept.here.is_frozen() {
        return Ok(Some(Refusal::Flushing));
    }
    if awaits_own(domain, process, lent) {
        return Ok(Some(Refusal::OwnAbcast));
    }
    if domain.orders.first(kept.name, process).is_none() {
        return Ok(Some(Refusal::NotHolder));
    }
    if !domain.has_order_room(lent) {
        return Ok(Some(Refusal::HeldFull));
    }
    let Some((time, stamp)) = domain.next_time(process, group)? else {
        return Ok(Some(Refusal::HeldFull));
    };
    let Some(place) = place_to_pass(domain, process, kept) else {
        return Ok(Some(Refusal::HeldFull));
    };
    if to == process {
        return Ok(None);
    }
    let message = Message {
        id: Uid {
            group,
            view: kept.here.number(),
            proc: process,
            count: time.count(group, process),
        },
        times: stamp,
        body: Body::Order(Placement::from_parts(
            place,
            Vec::new(*domain.groups.allocator()),
            Some(to),
        )),
    };
    domain.note_sent(process, time, &message)?;
    domain.send_message(message, lent)?;
    Ok(None)
}

// The place from which another process would order.
fn place_to_pass(domain: &Domain, process: Proc, kept: &GroupRecord) -> Option<u32>
    ensures { result ≡ place_to_pass_of (own_records domain.now) process kept.now }
{
    let places = places_by(domain, kept.name, process);
    if domain.unsettled_count(process, kept) > 0 || places >= MAX_POSITION as usize {
        return None;
    }
    Some(places as u32 + 1)
}

// The body of a cast.
fn body_of(kind: CastKind, payload: Payload) -> Body
    ensures { result ≡ body_of kind payload }
{
    match kind {
        CastKind::Causal => Body::Causal(payload),
        CastKind::Atomic => Body::Atomic(payload),
    }
}

// The payload of a message.
fn payload_from(payload: &Bytes) -> Result<Payload, NoMemory>
    requires { length payload.now ≤ 16384 }
    ensures { IfOk result (λ p. p ≡ payload.now) }
{
    Ok(Payload::from_bytes(payload.clone()?))
}
