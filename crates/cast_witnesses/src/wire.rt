//! A wire that tells what it was given, and what waits.
ghost use Rattle.std.specs.Prelude.{◌≡◌, [], Some, IfOk};
ghost use Rattle.cast_link.specs.Links.{HandsOn, datagrams_of};

use bytes::Bytes;
use cast_events::{Outs, Raw};
use cast_link::{LinkFault, Wire, receive_one, send_all};
use cast_message::SiteFrame;
use cast_types::{DomainNo, GroupNo, NoMemory, Proc, SiteNo, Uid};
use std::alloc::{AllocError, Global};
use std::process::Abort;
use std::test::Fail;

// Keeps all that it is given, and hands on what waits. Without memory it stops the test.
#[derive(Drop)]
struct ListWire<'a, R: Abort> {
    rt: &'a R,
    alloc: Global,
    given: Vec<(SiteNo, Bytes)>,
    waiting: Vec<Bytes>,
}

impl<'a, R: Abort> ListWire<'a, R> {
    // Nothing was given, and nothing waits.
    fn new(rt: &'a R, alloc: Global) -> Self
        ensures given { result.given.items ≡ [] }
        ensures waiting { result.waiting.items ≡ [] }
    {
        ListWire {
            rt,
            alloc,
            given: Vec::new(alloc),
            waiting: Vec::new(alloc),
        }
    }
}

impl<R: Abort> Wire for ListWire<'_, R> {
    ghost given = { λ w. Some w.given.items };

    ghost waiting = { λ w. Some w.waiting.items };

    ghost failed = { λ w. 0 };

    fn send(&mut self, to: SiteNo, bytes: &[u8]) -> bool {
        let copy = Bytes::copy_from_slice(self.alloc, bytes).expect(self.rt, "memory");
        self.given.push((to, copy)).expect(self.rt, "memory");
        true
    }

    fn receive(&mut self) -> Result<Bytes, LinkFault> {
        if self.waiting.is_empty() {
            return Err(LinkFault::NoMemory);
        }
        Ok(self.waiting.remove(0))
    }

    fn failures(&self) -> u64 {
        0
    }
}

// What a wire is given that was given nothing before: the spellings of the frames, in order.
fn given<R: Abort>(
    rt: &R,
    alloc: Global,
    own: SiteNo,
    outs: &Outs,
) -> Result<Vec<(SiteNo, Bytes)>, NoMemory>
    ensures { IfOk result (λ given. given.items ≡ datagrams_of own outs.now.frames) }
{
    if outs.frames.len() as u64 == u64::MAX {
        return Err(AllocError);
    }
    let mut wire = ListWire::new(rt, alloc);
    send_all(alloc, &mut wire, own, outs)?;
    Ok(wire.given)
}

// The datagram that is first of these, and the others, which wait still.
fn received<R: Abort>(
    rt: &R,
    alloc: Global,
    number: u64,
    datagrams: Vec<Bytes>,
) -> (Result<Raw, LinkFault>, Vec<Bytes>)
    ensures { HandsOn (Some datagrams.items) (Some result.1.items) number result.0 }
{
    let mut wire = ListWire::new(rt, alloc);
    wire.waiting = datagrams;
    let raw = receive_one(&mut wire, number);
    (raw, wire.waiting)
}

// An acknowledgement of site 1 for site 2, in domain 1, as it is on the wire.
const ACK: [u8; 23] = [
    0x43, 0x44, 1, 2, 1, 0, 1, 0, 1, 0, 0, 0, 2, 0, 2, 0, 0, 0, 1, 0, 0, 0, 2,
];

#[test]
fn a_wire_is_given_the_spellings_of_frames(rt: HostRuntime) -> Result<(), Fail> {
    let alloc = rt.alloc();
    let mut outs = Outs::new(alloc);
    let id = Uid {
        group: GroupNo(1),
        view: 2,
        proc: Proc {
            site: SiteNo(2),
            serial: 1,
        },
        count: 2,
    };
    outs.frames
        .push((DomainNo(1), SiteNo(2), SiteFrame::Ack(id)))?;
    let given = given(&rt, alloc, SiteNo(1), &outs)?;
    assert!(rt; given.len() == 1);
    assert!(rt; given[0].0 == SiteNo(2));
    assert!(rt; given[0].1.as_slice() == ACK.as_slice());
    Ok(())
}

#[test]
fn the_first_that_waits_is_received(rt: HostRuntime) -> Result<(), Fail> {
    let alloc = rt.alloc();
    let mut datagrams = Vec::new(alloc);
    datagrams.push(Bytes::copy_from_slice(alloc, &ACK)?)?;
    datagrams.push(Bytes::copy_from_slice(alloc, &[1, 2])?)?;
    let (raw, left) = received(&rt, alloc, 7, datagrams);
    assert!(rt; raw.is_ok());
    assert!(rt; left.len() == 1);
    assert!(rt; left[0].as_slice() == [1, 2].as_slice());
    Ok(())
}
