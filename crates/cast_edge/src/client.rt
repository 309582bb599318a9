//! A program that is served, and its pen.
//!
//! A thread that would have to wait for the program passes the pen to the program's writer, with
//! what is still to be written.
use crate::output::{Incoming, Outlet};
use cast_pen::{Hold, Pen, WriterTask};
use cast_types::DomainNo;
use std::net::Shutdown;
use std::os::unix::net::UnixStream;
use std::sync::{Condvar, Mutex, Wait};

/// The session of a program.
#[derive(Clone, Copy, Debug, PartialEq, Eq, PartialOrd, Ord)]
pub struct Session {
    /// The domain that it was opened in.
    pub domain: DomainNo,
    /// Its number there.
    pub serial: u32,
}

/// A program that is served.
#[derive(Drop)]
pub struct Client {
    /// The session that it has.
    pub session: Session,
    // The stream between it and the daemon. Only who has the pen writes to it.
    stream: UnixStream,
    pen: Mutex<Pen>,
    // There is a task, or nothing more is written.
    has_task: Condvar,
    // The outbox was taken, the pen became free, or nothing more is written.
    has_turned: Condvar,
}

impl Client {
    /// A program to which nothing was written. The pen is free.
    pub fn new(session: Session, stream: UnixStream) -> Self {
        Client {
            session,
            stream,
            pen: Mutex::new(Pen::new()),
            has_task: Condvar::new(),
            has_turned: Condvar::new(),
        }
    }

    /// What the program writes.
    pub fn incoming(&self) -> Incoming<'_> {
        Incoming {
            stream: &self.stream,
        }
    }

    /// The way to the program, for who has its pen.
    pub fn outlet<'a>(&'a self, _hold: &'a Hold) -> Outlet<'a> {
        Outlet {
            stream: &self.stream,
        }
    }

    /// Takes the pen. `None` if another thread has it, which then takes the outbox once more, or if
    /// nothing more is written.
    pub fn claim<R: Wait>(&self, rt: &R) -> Option<Hold> {
        self.pen.lock(rt).claim()
    }

    /// Whether nothing more is written.
    pub fn is_over<R: Wait>(&self, rt: &R) -> bool {
        self.pen.lock(rt).is_over()
    }

    /// The outbox was taken, and what it had is written. The pen is kept if the session was pushed
    /// to since. Else it is free.
    pub fn goes_on<R: Wait>(&self, rt: &R, hold: Hold) -> Option<Hold> {
        let mut pen = self.pen.lock(rt);
        let kept = pen.goes_on(hold);
        self.wake_reader(&pen);
        kept
    }

    /// Frees the pen after a Take that found no memory. The next tick wants another.
    pub fn gives_up<R: Wait>(&self, rt: &R, hold: Hold) {
        let mut pen = self.pen.lock(rt);
        pen.gives_up(hold);
        self.wake_reader(&pen);
    }

    /// The outbox was taken, and what it had is still to be written.
    pub fn was_taken<R: Wait>(&self, rt: &R, hold: &Hold) {
        let mut pen = self.pen.lock(rt);
        pen.was_taken(hold);
        self.wake_reader(&pen);
    }

    // Lets the reader go on that waits.
    fn wake_reader(&self, pen: &Pen) {
        if pen.is_awaited() {
            self.has_turned.notify_all();
        }
    }

    /// Passes the pen to the writer, with a task.
    pub fn pass<R: Wait>(&self, rt: &R, hold: Hold, task: WriterTask) {
        let mut pen = self.pen.lock(rt);
        pen.pass(hold, task);
        self.wake_reader(&pen);
        drop(pen);
        self.has_task.notify_one();
    }

    /// The session was pushed to: who has the pen takes the outbox once more. If the pen is free,
    /// the writer gets it.
    pub fn call<R: Wait>(&self, rt: &R) {
        let is_passed = self.pen.lock(rt).call();
        if is_passed {
            self.has_task.notify_one();
        }
    }

    /// Whether the last Take found no memory.
    pub fn is_missed<R: Wait>(&self, rt: &R) -> bool {
        self.pen.lock(rt).is_missed()
    }

    /// Waits until the outbox was taken so many times, the pen is free, or nothing more is written.
    /// False in the last case.
    pub fn wait<R: Wait>(&self, rt: &R, times: u64) -> bool {
        let mut pen = self.pen.lock(rt);
        let first = pen.turns();
        for _ in rt.forever() {
            if !pen.waits(first, times) {
                break;
            }
            pen = self.has_turned.wait(rt, pen);
        }
        !pen.is_over()
    }

    /// What the writer has to do next, and the pen for it. Waits for it. `None` if nothing more is
    /// written.
    pub fn next_task<R: Wait>(&self, rt: &R) -> Option<(Hold, WriterTask)> {
        let mut pen = self.pen.lock(rt);
        for _ in rt.forever() {
            if pen.is_over() {
                return None;
            }
            if let Some(next) = pen.next_task() {
                return Some(next);
            }
            pen = self.has_task.wait(rt, pen);
        }
        None
    }

    /// Closes the stream, so that nothing more is written, and wakes the threads that wait.
    pub fn close<R: Wait>(&self, rt: &R) {
        self.pen.lock(rt).close();
        self.end_stream();
    }

    /// As `close`, by who has the pen.
    pub fn end<R: Wait>(&self, rt: &R, hold: Hold) {
        self.pen.lock(rt).end(hold);
        self.end_stream();
    }

    // Closes the stream, and wakes the threads that wait.
    fn end_stream(&self) {
        let _ = self.stream.shutdown(Shutdown::Both);
        self.has_task.notify_all();
        self.has_turned.notify_all();
    }
}
