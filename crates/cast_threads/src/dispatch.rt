//! What becomes of what the workers and the console did.
use crate::server::Server;
use cast_edge::{Session, Unacknowledged};
use cast_events::{Fault, Taken};
use cast_shared::{Desk, Opened, Opening, Purpose, SharedTable};
use cast_types::{DomainNo, Refusal};
use crossbeam_channel::Receiver;
use std::sync::Wait;

// What a program is told that wants a session of a domain, which was asked for under a number.
fn opening_of(domain: DomainNo, number: u64, answer: &Result<Taken, Fault>) -> Opening {
    match answer {
        Ok(Taken::Opened(serial)) => {
            let serial = *serial;
            let session = Session { domain, serial };
            Opening::Opened(Opened { session, number })
        }
        Ok(Taken::Refused(refusal)) => Opening::Refused(*refusal),
        Err(Fault::Halted(_)) => Opening::Refused(Refusal::Halted),
        _ => Opening::Lost,
    }
}

// Tells who waits for the answer that bears a number.
fn tell<R: Wait>(rt: &R, desk: &mut Desk, number: u64, answer: &Result<Taken, Fault>) {
    match desk.purpose(number) {
        Purpose::Open(domain, to) => {
            desk.opened(rt, number, &to, opening_of(domain, number, answer));
        }
        Purpose::Gone => desk.gone(number, !matches!(answer, Err(Fault::NoMemory))),
        Purpose::Other => {}
    }
}

// What becomes of one answer.
fn dispatch<T: SharedTable, R: Wait>(rt: &R, server: &mut Server<'_, T>, done: T::Done) {
    let (number, came) = server.shared.table.parts(done);
    let Some((answer, outs)) = came else {
        return;
    };
    let shared = server.shared;
    tell(rt, &mut shared.desk.lock(rt), number, &answer);
    let mut outs = Unacknowledged::pass(rt, shared.alloc, shared.unacknowledged, outs);
    server.finish(rt, &mut outs);
    for pace in shared.paces {
        pace.wake_any(rt);
    }
}

/// Passes on what the workers and the console did, until nothing can come any more. Then reports
/// end: a halt just before the end is told.
pub fn run_dispatcher<T: SharedTable, R: Wait>(
    rt: &R,
    server: Server<'_, T>,
    answers: Receiver<T::Done>,
) {
    let mut server = server;
    for done in answers.iter(rt) {
        dispatch(rt, &mut server, done);
    }
    server.shared.desk.lock(rt).end_reports();
    server.end(rt);
}
