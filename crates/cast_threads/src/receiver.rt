//! The receiver: it serves the datagrams that come.
use crate::server::{Server, session_of};
use bytes::Bytes;
use cast_edge::{Report, Session};
use cast_events::{Asked, Outs};
use cast_link::{LinkFault, Unpacked, Wire, receive_one, unpack};
use cast_message::SiteFrame;
use cast_sending::Stables;
use cast_shared::{Shared, SharedTable};
use cast_types::{DomainNo, SiteNo};
use std::rt::Clock;
use std::sync::Wait;
use std::sync::atomic::Ordering;
use std::thread;
use std::time::Duration;

// How many milliseconds the receiver waits after a call of the system failed, so that it does not
// turn in place.
const PAUSE: u64 = 10;

// After so many frames no more datagrams are served before what they pushed is written.
const GATHERED: u32 = 32;

// Of one bundle so many frames are.
const MOST_UNWRITTEN: u32 = 64;

// For so many sessions the receiver writes what datagrams pushed. The writers of the others do it
// themselves.
const DIRECT: usize = 2;

// What the receiver knows of the datagrams that it gathers.
#[derive(Drop)]
struct Receiver<'a, T: SharedTable> {
    server: Server<'a, T>,
    // The sessions that they pushed to, and for which it writes.
    pushed: Vec<Session>,
    // How many frames were served since it wrote.
    served: u32,
    // Another site waits for a frame that is gathered.
    is_urgent: bool,
}

// Whether another site waits for a frame: by an acknowledgement or a Stable it only forgets.
fn is_urgent(frame: &(DomainNo, SiteNo, SiteFrame)) -> bool {
    !matches!(frame.2, SiteFrame::Ack(_) | SiteFrame::Stable(_))
}

impl<T: SharedTable> Receiver<'_, T> {
    // Has the Stables of an event wait. Answers what else came of it.
    fn hold_stables<R: Wait>(&mut self, rt: &R, outs: Outs) -> Outs {
        if !Stables::are_in(&outs) {
            return outs;
        }
        let (others, lost) = self.server.shared.stables.lock(rt).hold(outs);
        self.server.count_unspelled(rt, lost);
        others
    }

    // Gathers the frames of an event. Its Stables wait.
    fn gather<R: Wait + Clock>(&mut self, rt: &R, outs: Outs) {
        self.server.note_messages(rt, &outs);
        let mut others = self.hold_stables(rt, outs);
        if others.frames.as_slice().iter().any(is_urgent) {
            self.is_urgent = true;
        }
        self.server.gather(rt, &mut others);
    }

    // Remembers the sessions that a datagram pushed to, or has their outboxes taken.
    fn note<R: Wait>(&mut self, rt: &R, outs: &Outs) {
        for push in outs.pushed.as_slice() {
            let session = session_of(push);
            let is_noted = self.pushed.contains(&session);
            if !is_noted && (self.pushed.len() >= DIRECT || self.pushed.push(session).is_err()) {
                self.server.shared.desk.lock(rt).call(rt, session);
            }
        }
    }

    // Serves a frame.
    fn serve_frame<R: Wait + Clock>(&mut self, rt: &R, frame: Asked) {
        if let Some(outs) = self.server.serve_frame(rt, frame) {
            self.note(rt, &outs);
            self.gather(rt, outs);
        }
        self.served = self.served.saturating_add(1);
    }

    // Serves a datagram: one frame, or each frame of a bundle as if it had come alone.
    fn serve<R: Wait + Clock>(&mut self, rt: &R, datagram: Bytes) {
        let shared = self.server.shared;
        shared.traffic.received.fetch_add(1, Ordering::SeqCst);
        match unpack(shared.alloc, datagram) {
            Ok(Unpacked::Alone(bytes)) => self.serve_frame(rt, Asked::Datagram(bytes)),
            Ok(Unpacked::Bundle(frames)) => {
                for bytes in frames.into_vec() {
                    self.serve_frame(rt, Asked::Datagram(bytes));
                    if self.served >= MOST_UNWRITTEN {
                        self.finish(rt);
                    }
                }
            }
            Ok(Unpacked::Bad) | Err(_) => shared.desk.lock(rt).count_unread(rt, 1),
        }
    }

    // Serves the datagrams that wait, and answers whether there may be more.
    fn serve_waiting<R: Wait + Clock>(&mut self, rt: &R) -> bool {
        for _ in 1..GATHERED {
            if self.served >= GATHERED {
                break;
            }
            match self.server.wire.receive_now() {
                Ok(Some(bytes)) => self.serve(rt, bytes),
                Ok(None) => return false,
                Err(_) => self.server.shared.desk.lock(rt).count_unread(rt, 1),
            }
        }
        true
    }

    // Serves a datagram and those that wait behind it, and finishes them. Answers whether there may
    // be more.
    fn serve_all<R: Wait + Clock>(&mut self, rt: &R, first: Bytes) -> bool {
        self.serve(rt, first);
        let is_more = self.serve_waiting(rt);
        self.finish(rt);
        is_more
    }

    // Writes what the frames that were served pushed, and sends what is gathered. If another site
    // waits for it, it goes first. Stables that could go with other frames are sent only once they
    // are many.
    fn finish<R: Wait>(&mut self, rt: &R) {
        if self.is_urgent {
            self.server.send_gathered(rt);
        }
        self.write_pushed(rt);
        self.server.send_gathered(rt);
        let shared = self.server.shared;
        let are_many = shared.stables.lock(rt).are_many();
        if are_many || shared.bundle.is_none() {
            self.server.send_stables(rt);
        }
        self.is_urgent = false;
        self.served = 0;
    }

    // Writes what was pushed to the sessions that are remembered.
    fn write_pushed<R: Wait>(&mut self, rt: &R) {
        for _ in 0..DIRECT {
            let Some(session) = self.pushed.pop() else {
                break;
            };
            let client = self.server.shared.desk.lock(rt).client(session);
            if let Some(client) = client {
                if let Some(hold) = client.claim(rt) {
                    self.server.write(rt, &client, hold, false);
                }
            }
        }
    }
}

/// Serves the datagrams that come, until the daemon stops.
pub fn run_receiver<T: SharedTable, R: Wait + Clock>(
    rt: &R,
    shared: &Shared<'_, T>,
    server: Server<'_, T>,
) {
    let mut receiver = Receiver {
        server,
        pushed: Vec::new(shared.alloc),
        served: 0,
        is_urgent: false,
    };
    let mut is_failing = false;
    for _ in rt.forever() {
        if receiver.server.wire.failures() == u64::MAX {
            break;
        }
        match receive_one(&mut receiver.server.wire, 0) {
            Ok(raw) => {
                is_failing = false;
                let Asked::Datagram(bytes) = raw.asked else {
                    continue;
                };
                if receiver.serve_all(rt, bytes) && shared.is_stopping(rt) {
                    break;
                }
            }
            Err(LinkFault::NoMemory) => {
                shared.desk.lock(rt).count_unread(rt, 1);
                thread::sleep(rt, Duration::from_millis(PAUSE));
            }
            Err(LinkFault::Device) => {
                if shared.is_stopping(rt) {
                    break;
                }
                if !is_failing {
                    shared.report(rt, Report::LinkFailed);
                }
                is_failing = true;
                thread::sleep(rt, Duration::from_millis(PAUSE));
            }
        }
    }
    let Receiver { server, .. } = receiver;
    server.end(rt);
}
