//! When events leave the trace: when there are many, when their payloads are many bytes, and when a
//! domain was halted.
ghost use Rattle.std.specs.Prelude.{◌≡◌};
ghost use Rattle.std.specs.Option.{is_none};
ghost use Rattle.cast_pool.specs.Served.{IsTrimmed};
ghost use Rattle.cast_daemon.specs.Trimming.{MayTrim};

use cast_events::Event;
use cast_message::{Body, Command, Request, SiteFrame};
use cast_pool::{Done, Job, Kept, Task};
use cast_shared::{CUT, Tape};
use std::sync::Wait;
use std::sync::atomic::{AtomicU64, Ordering};
use std::sync::ledger::Ledger;

// So many bytes of payloads the trace holds before it is trimmed. If it holds more, the processor
// finds none of them at hand.
const MOST_BYTES: u64 = 1_048_576;

/// Trims the trace, or, if a daemon is recorded, cuts its events off and gives them to the tape.
/// Its calls are made under the table's lock.
#[derive(Drop)]
pub struct Trimmer<'a> {
    tape: Option<&'a Tape>,
    // Bytes of the payloads in the trace, at most.
    held: AtomicU64,
}

/// How many bytes of payload a job has.
pub fn payload_len(job: &Job) -> u64 {
    let len = match job.task() {
        Task::Serve(
            Event::Command {
                command: Command::Request(Request::Cast { payload, .. }),
                ..
            },
        ) => payload.len(),
        Task::Serve(Event::Frame(_, _, SiteFrame::Data(message) | SiteFrame::Forward(message))) => {
            match &message.body {
                Body::Causal(payload) | Body::Atomic(payload) => payload.len(),
                Body::Order(_) => 0,
            }
        }
        Task::Serve(_) | Task::Show(_) => 0,
    };
    len as u64
}

// Cuts the events off the trace, and gives them to the tape.
fn cut<L: Ledger, R: Wait>(rt: &R, tape: &Tape, kept: &mut Kept<L>)
    ensures { IsTrimmed kept.old kept.new }
{
    let events = kept.events();
    let entries = kept.cut(tape.room(rt));
    if !entries.is_empty() {
        let before = events.saturating_sub(entries.len() as u64);
        tape.add(rt, before, entries);
    }
}

impl<'a> Trimmer<'a> {
    /// Of a trace without events. Those that are cut off it go to the tape, if there is one.
    pub fn new(tape: Option<&'a Tape>) -> Self {
        Trimmer {
            tape,
            held: AtomicU64::new(0),
        }
    }

    /// Whether the trace may be trimmed, so that its events are lost.
    pub fn may_lose(&self) -> bool
        ensures { result ≡ is_none self.now.tape }
    {
        self.tape.is_none()
    }

    /// Has no event stay in the trace.
    pub fn trim<L: Ledger, R: Wait>(&self, rt: &R, kept: &mut Kept<L>)
        ensures { IsTrimmed kept.old kept.new }
    {
        match self.tape {
            Some(tape) => cut(rt, tape, kept),
            None => kept.trim(),
        }
        self.held.store(0, Ordering::SeqCst);
    }

    /// Cuts the events off the trace, if they are recorded and there are many.
    pub fn cut_many<L: Ledger, R: Wait>(&self, rt: &R, kept: &mut Kept<L>)
        ensures { MayTrim kept.old kept.new }
    {
        if self.tape.is_some() && kept.trace_len() >= CUT {
            self.trim(rt, kept);
        }
    }

    /// Lets go of what a domain kept that a job halted, if events may be lost.
    pub fn let_go<L: Ledger>(&self, kept: &mut Kept<L>, done: &Done)
        ensures { MayTrim kept.old kept.new }
    {
        if self.may_lose() {
            kept.let_go(done);
        }
    }

    /// After a job with so many bytes of payload: no event stays in the trace if there are many, or
    /// many bytes of payloads.
    pub fn served<L: Ledger, R: Wait>(&self, rt: &R, kept: &mut Kept<L>, len: u64)
        ensures { MayTrim kept.old kept.new }
    {
        self.cut_many(rt, kept);
        let held = self.held.load(Ordering::SeqCst).saturating_add(len);
        self.held.store(held, Ordering::SeqCst);
        if held >= MOST_BYTES {
            self.trim(rt, kept);
        }
    }
}
