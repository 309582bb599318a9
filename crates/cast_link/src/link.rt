ghost use Rattle.std.specs.Prelude.{◌≡◌, ◌+◌, ◌<◌, ◌≤◌, ◌^◌, IfOk, OnOk, OnErr, Err, length, map};
ghost use Rattle.cast_link.specs.Wires.{AddsAll, Stays};
ghost use Rattle.cast_link.specs.Packing.{AddsPacked};
ghost use Rattle.cast_link.specs.Links.{HandsOn, datagram_of, datagrams_of};

use crate::packing::pack;
use crate::wire::{LinkFault, Wire};
use bytes::Bytes;
use cast_events::{Asked, Outs, Raw};
use cast_frame::encode_site;
use cast_message::SiteFrame;
use cast_types::{DomainNo, List, NoMemory, SiteNo};
use std::alloc::Global;

/// What became of the frames that were to be sent.
#[derive(Clone, Copy, Debug, PartialEq, Eq)]
pub struct Sent {
    /// How many the device took.
    pub sent: u64,
    /// How many calls failed.
    pub lost: u64,
}

// The datagram of a frame.
fn datagram_of(
    alloc: Global,
    own: SiteNo,
    frame: &(DomainNo, SiteNo, SiteFrame),
) -> Result<(SiteNo, Bytes), NoMemory>
    ensures { IfOk result (λ d. d ≡ datagram_of own frame.now) }
{
    let bytes = encode_site(alloc, frame.0, own, &frame.2)?;
    Ok((frame.1, bytes))
}

// The datagrams of frames, in their order.
fn datagrams_of(
    alloc: Global,
    own: SiteNo,
    frames: &[(DomainNo, SiteNo, SiteFrame)],
) -> Result<Vec<(SiteNo, Bytes)>, NoMemory>
    ensures { IfOk result (λ d. d.items ≡ datagrams_of own frames.now) }
{
    let mut datagrams = Vec::new(alloc);
    for frame in frames {
        datagrams.push(datagram_of(alloc, own, frame)?)?;
    }
    Ok(datagrams)
}

// Gives the wire these datagrams, each once and in order.
fn send_each<W: Wire>(wire: &mut W, datagrams: &[(SiteNo, Bytes)]) -> Sent
    requires { W.failed wire.old + length datagrams.now < 2 ^ 64 }
    ensures given { AddsAll (W.given wire.old) (W.given wire.new) datagrams.now }
    ensures waiting { Stays (W.waiting wire.old) (W.waiting wire.new) }
    ensures counted { result.sent + result.lost ≡ length datagrams.now }
    ensures lost { W.failed wire.new ≡ W.failed wire.old + result.lost }
{
    let mut sent = Sent { sent: 0, lost: 0 };
    for datagram in datagrams {
        if wire.send(datagram.0, datagram.1.as_slice()) {
            sent.sent += 1;
        } else {
            sent.lost += 1;
        }
    }
    sent
}

/// Gives the wire the frames of an event, from the own site, each once and in order. All of them
/// are spelled before the first is sent: at `NoMemory` none was.
pub fn send_all<W: Wire>(
    alloc: Global,
    wire: &mut W,
    own: SiteNo,
    outs: &Outs,
) -> Result<Sent, NoMemory>
    requires { W.failed wire.old + length outs.now.frames < 2 ^ 64 }
    ensures given { OnOk result
        (AddsAll (W.given wire.old) (W.given wire.new) (datagrams_of own outs.now.frames)) }
    // It receives nothing.
    ensures waiting { Stays (W.waiting wire.old) (W.waiting wire.new) }
    ensures counted { IfOk result (λ s. s.sent + s.lost ≡ length outs.now.frames) }
    // Each that is lost is a call that failed.
    ensures lost { IfOk result (λ s. W.failed wire.new ≡ W.failed wire.old + s.lost) }
    ensures err { OnErr result (wire.new ≡ wire.old) }
{
    let datagrams = datagrams_of(alloc, own, outs.frames.as_slice())?;
    Ok(send_each(wire, &datagrams))
}

/// As `send_all`, but frames for the same site share datagrams: bundles of at most so many bytes. A
/// frame that has none to share with, or no room, goes as itself.
pub fn send_bundled<W: Wire>(
    alloc: Global,
    wire: &mut W,
    own: SiteNo,
    outs: &Outs,
    most: usize,
) -> Result<Sent, NoMemory>
    requires { W.failed wire.old + length outs.now.frames < 2 ^ 64 }
    // What is counted is the datagrams.
    ensures given { IfOk result (λ s. AddsPacked most (W.given wire.old) (W.given wire.new)
        (datagrams_of own outs.now.frames) (s.sent + s.lost)) }
    ensures waiting { Stays (W.waiting wire.old) (W.waiting wire.new) }
    // They are no more than the frames.
    ensures counted { IfOk result (λ s. s.sent + s.lost ≤ length outs.now.frames) }
    ensures lost { IfOk result (λ s. W.failed wire.new ≡ W.failed wire.old + s.lost) }
    ensures err { OnErr result (wire.new ≡ wire.old) }
{
    let frames = datagrams_of(alloc, own, outs.frames.as_slice())?;
    let datagrams = pack(alloc, frames, most)?;
    Ok(send_each(wire, &datagrams))
}

/// Hands on the datagram that is first, under this number. `Device` comes only where the wire
/// failed, and leaves what waits as it is. Nothing is sent.
pub fn receive_one<W: Wire>(wire: &mut W, number: u64) -> Result<Raw, LinkFault>
    requires { W.failed wire.old + 1 < 2 ^ 64 }
    ensures handed { HandsOn (W.waiting wire.old) (W.waiting wire.new) number result }
    ensures given { Stays (W.given wire.old) (W.given wire.new) }
    ensures device { result ≡ Err LinkFault.Device → W.failed wire.new ≡ W.failed wire.old + 1 }
    ensures ok { OnOk result (W.failed wire.new ≡ W.failed wire.old) }
    ensures memory { result ≡ Err LinkFault.NoMemory → W.failed wire.new ≡ W.failed wire.old }
{
    let bytes = wire.receive()?;
    Ok(Raw {
        number,
        asked: Asked::Datagram(bytes),
    })
}
