//! Acknowledgements that wait until their messages are delivered.
ghost use Rattle.std.specs.Prelude.{◌≡◌, ◌++◌, [], ◌∷◌, ◌<◌, filter, length, not, IfNone};
ghost use Rattle.std.specs.Prelude.{IfSome, OnOk, OnErr, if◌then◌else◌};
ghost use Rattle.std.specs.Bool.{OnTrue, OnFalse};
ghost use Rattle.std.specs.List.{flat_map, slice_index_or};
ghost use Rattle.cast_sending.specs.Acks.{acknowledged_by, is_delivered, is_early, undelivered};
ghost use Rattle.cast_sending.specs.Acks.{waits_for, Adds, AddsAll, AddsSome, LetsGo, NoneWaitsFor};
ghost use Rattle.cast_sending.specs.Acks.{IsTakenOut, Released, ReleasesOne, WaitingAck};

use crate::frames::{Outgoing, push};
use cast_events::Outs;
use cast_message::SiteFrame;
use cast_types::{DomainNo, List, NoMemory, Proc, SiteNo, Uid};
use std::alloc::{AllocError, Global};
use std::marker::Model;
use std::mem;

// So many wait at most. Where there are more, the earliest is forgotten, as if it had been lost:
// views that end leave some behind.
const MOST: usize = 4_096;

// That of a message of a domain, to a site.
type WaitingAck = (DomainNo, SiteNo, Uid);

// A message of a domain, and the process that it was delivered to.
type Delivery = (DomainNo, Proc, Uid);

/// Acknowledgements that wait until their messages are delivered here, each with its domain and the
/// site that it goes to.
#[derive(Drop)]
pub struct WaitingAcks {
    list: Vec<WaitingAck>,
}

impl Model for WaitingAcks {
    ghost use Rattle.std.specs.Prelude.{List};
    ghost use Rattle.cast_sending.specs.Acks.{WaitingAck};

    ghost Value = { List WaitingAck };

    ghost view = { λ a. a.list.items };
}

/// The message that a frame acknowledges.
pub(crate) fn acknowledged_by(frame: &SiteFrame) -> Option<Uid>
    ensures { result ≡ acknowledged_by frame.now }
{
    match frame {
        SiteFrame::Ack(id) => Some(*id),
        _ => None,
    }
}

// Whether a message of a domain was delivered.
fn is_delivered(delivered: &[Delivery], domain: DomainNo, id: Uid) -> bool
    ensures { result ≡ is_delivered delivered.now domain id }
{
    delivered.iter().any(|it| it.0 == domain && it.2 == id)
}

// Whether one of these waits for a message of a domain.
fn waits_for(acks: &[WaitingAck], domain: DomainNo, id: Uid) -> bool
    ensures { result ≡ waits_for acks.now domain id }
{
    acks.iter().any(|ack| ack.0 == domain && ack.2 == id)
}

// Whether a frame acknowledges a message for which one of these waits.
fn is_early(acks: &[WaitingAck], frame: &Outgoing) -> bool
    ensures { result ≡ is_early acks.now frame.now }
{
    match acknowledged_by(&frame.2) {
        Some(id) => waits_for(acks, frame.0, id),
        None => false,
    }
}

// Has one wait. False if there is no memory for it.
fn add(acks: &mut Vec<WaitingAck>, ack: WaitingAck) -> bool
    ensures added { OnTrue result (Adds acks.old.items ack acks.new.items) }
    ensures lost { OnFalse result (acks.new.items ≡ acks.old.items) }
{
    if acks.push(ack).is_err() {
        return false;
    }
    if acks.len() > MOST {
        acks.remove(0);
    }
    true
}

// Has the acknowledgement wait that a frame is, if its message was not delivered. False if there is
// no memory for it.
fn hold_one(acks: &mut Vec<WaitingAck>, delivered: &[Delivery], frame: &Outgoing) -> bool
    ensures held { OnTrue result
        (AddsAll acks.old.items (undelivered delivered.now frame.now) acks.new.items) }
    ensures lost { OnFalse result (acks.new.items ≡ acks.old.items) }
{
    let Some(id) = acknowledged_by(&frame.2) else {
        return true;
    };
    if is_delivered(delivered, frame.0, id) {
        return true;
    }
    add(acks, (frame.0, frame.1, id))
}

// Has those wait that are among these frames, and whose messages were not delivered. False if there
// is no memory for one: those of the frames before it wait.
fn hold_all(acks: &mut Vec<WaitingAck>, delivered: &[Delivery], frames: &[Outgoing]) -> bool
    ensures held { OnTrue result
        (AddsAll acks.old.items (flat_map (undelivered delivered.now) frames.now) acks.new.items) }
    ensures lost { OnFalse result
        (AddsSome acks.old.items delivered.now frames.now acks.new.items) }
{
    for place in 0..frames.len() {
        if !hold_one(acks, delivered, &frames[place]) {
            return false;
        }
    }
    true
}

// The place of the first of these that waits for a message of a domain.
fn place_of(acks: &[WaitingAck], domain: DomainNo, id: Uid) -> Option<usize>
    ensures within { IfSome result (λ i. i < length acks.now) }
    ensures domain { IfSome result
        (λ i. (d : WaitingAck) → (slice_index_or acks.now i d).0 ≡ domain) }
    ensures id { IfSome result (λ i. (d : WaitingAck) → (slice_index_or acks.now i d).2 ≡ id) }
    ensures none { IfNone result (NoneWaitsFor acks.now domain id) }
{
    acks.iter().position(|ack| ack.0 == domain && ack.2 == id)
}

// Takes out one that waits for a message of a domain, which was delivered: the site that it goes
// to.
fn take(acks: &mut Vec<WaitingAck>, domain: DomainNo, id: Uid) -> Option<SiteNo>
    ensures some { IfSome result
        (λ site. IsTakenOut acks.old.items (domain, site, id) acks.new.items) }
    ensures none { IfNone result (NoneWaitsFor acks.old.items domain id) }
    ensures same { IfNone result (acks.new.items ≡ acks.old.items) }
{
    match place_of(acks, domain, id) {
        Some(place) => {
            let (_, site, _) = acks.remove(place);
            Some(site)
        }
        None => None,
    }
}

// Takes out one that waits for a message, which was delivered, and adds its frame to the others.
// Answers whether it is lost for want of memory.
fn release_one(acks: &mut Vec<WaitingAck>, frames: &mut Vec<Outgoing>, delivery: Delivery) -> bool
    ensures { ReleasesOne acks.old.items frames.old.items delivery result acks.new.items
        frames.new.items }
{
    let (domain, _, id) = delivery;
    match take(acks, domain, id) {
        Some(site) => !push(frames, (domain, site, SiteFrame::Ack(id))),
        None => false,
    }
}

// The message at a place of those that were delivered.
fn delivery_at(delivered: &[Delivery], place: usize) -> Delivery
    requires { place < length delivered.now }
    ensures { result ≡ slice_index_or delivered.now place result }
{
    delivered[place]
}

// Takes out those that wait for messages which were delivered, and adds their frames to the others.
// Answers how many are lost for want of memory.
fn release_all(
    acks: &mut Vec<WaitingAck>,
    frames: &mut Vec<Outgoing>,
    delivered: &[Delivery],
) -> u64
    ensures { Released acks.old.items frames.old.items delivered.now frames.new.items acks.new.items
        result }
{
    let mut lost = 0;
    for place in 0..delivered.len() {
        if !release_one(acks, frames, delivery_at(delivered, place)) {
            continue;
        }
        lost += 1;
    }
    lost
}

// Leaves out the frames that acknowledge a message for which one of these waits.
fn leave_out(acks: &[WaitingAck], frames: &mut Vec<Outgoing>)
    ensures { frames.new.items ≡ filter (λ frame. not (is_early acks.now frame)) frames.old.items }
{
    frames.retain(|frame| !is_early(acks, frame));
}

impl WaitingAcks {
    /// None waits.
    pub fn new(alloc: Global) -> Self
        ensures { result ≡ [] }
    {
        WaitingAcks {
            list: Vec::new(alloc),
        }
    }

    /// An event received a message, and may not have delivered it. Then its acknowledgement waits,
    /// which is among the frames of the event: `pass` leaves it out. `NoMemory`: those of the first
    /// frames wait alone.
    pub fn hold(&mut self, outs: &Outs) -> Result<(), NoMemory>
        ensures ok { OnOk result (AddsAll self.old
            (flat_map (undelivered outs.now.delivered) outs.now.frames) self.new) }
        ensures err { OnErr result (AddsSome self.old outs.now.delivered outs.now.frames self.new) }
    {
        let delivered = outs.delivered.as_slice();
        if hold_all(&mut self.list, delivered, outs.frames.as_slice()) {
            Ok(())
        } else {
            Err(AllocError)
        }
    }

    /// Adds the acknowledgements that waited for the messages that an event delivered to its
    /// frames, and leaves out those that wait still. Answers how many are lost for want of memory.
    pub fn pass(&mut self, outs: &mut Outs) -> u64
        ensures passed { LetsGo self.old outs.old outs.new.frames self.new result }
        ensures rest { outs.new ≡ record outs.old { frames = outs.new.frames } }
    {
        let alloc = outs.frames.alloc();
        let mut frames = mem::replace(&mut outs.frames, List::new(alloc)).into_vec();
        let lost = release_all(&mut self.list, &mut frames, outs.delivered.as_slice());
        leave_out(&self.list, &mut frames);
        outs.frames = List::from_vec(frames);
        lost
    }

    /// How many wait.
    pub fn count(&self) -> usize
        ensures { result ≡ length self.now }
    {
        self.list.len()
    }
}
