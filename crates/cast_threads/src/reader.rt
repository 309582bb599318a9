//! The reader of a program: it serves the program's commands, and writes what they push.
use crate::server::{Server, session_of};
use cast_device::Watched;
use cast_edge::{Client, Incoming, Session};
use cast_events::{Asked, Event, Fault, Outs, Taken};
use cast_message::{Command, Request};
use cast_pen::Hold;
use cast_session::{InEnd, Sink, pump_on};
use cast_shared::{Came, Pace, Patience, SharedTable, Wanted};
use cast_types::{NoMemory, Refusal};
use std::alloc::{AllocError, Global};
use std::io;
use std::io::Read;
use std::rt::Clock;
use std::sync::{Mutex, Wait};

// After so many answered commands a reader takes what the session's outbox holds, and waits where
// another thread takes it just then.
const UNTAKEN: u32 = 32;

// How often at most the outbox is taken after the end of what a program writes, while the program
// takes what it is told.
const LAST_TAKES: u64 = 16;

/// What the reader of a program knows.
#[derive(Drop)]
pub struct Reader<'a, T: SharedTable> {
    server: Server<'a, T>,
    client: &'a Client,
    // What its domain's casts wait for, if the domain has other sites.
    pace: Option<&'a Pace>,
    // How many answers were not taken.
    untaken: u32,
    // Its own commands pushed to it since it took the outbox last.
    is_pushed: bool,
    // What came of the last command. Its frames are still to be gathered.
    unsent: Option<Outs>,
    // The other sessions that its commands pushed to, and that were not called.
    pushed: Vec<Session>,
    // How many commands were served since it was read last, and between the two reads before.
    count: usize,
    last_count: usize,
}

impl<'a, T: SharedTable> Reader<'a, T> {
    /// The reader of a program that wrote nothing.
    pub fn new(server: Server<'a, T>, client: &'a Client) -> Self {
        let domain = client.session.domain;
        let pace = Pace::find(server.shared.paces, domain);
        let pushed = Vec::new(server.shared.alloc);
        Reader {
            server,
            client,
            pace,
            untaken: 0,
            is_pushed: true,
            unsent: None,
            pushed,
            count: 0,
            last_count: 0,
        }
    }

    /// Serves no more: gives the share of the count back.
    pub fn end<R: Wait>(self, rt: &R) {
        let Reader { server, .. } = self;
        server.end(rt);
    }

    // Serves a cast of so many bytes once its program may make it.
    fn cast<R: Wait + Clock>(&mut self, rt: &R, job: T::Job, pace: &Pace, len: usize) -> Came {
        let wanted = Wanted {
            len,
            at_once: self.count.max(self.last_count),
        };
        let (mut job, mut wakings) = match self.server.cast(rt, job, pace, Some(wanted)) {
            Ok(came) => return came,
            Err(back) => back,
        };
        let patience = Patience::new(rt);
        self.flush(rt);
        for _ in rt.forever() {
            let left = patience.left(rt);
            pace.wait(rt, wakings, left);
            let asks = if left.is_zero() { None } else { Some(wanted) };
            match self.server.cast(rt, job, pace, asks) {
                Ok(came) => return came,
                Err(back) => (job, wakings) = back,
            }
        }
        unreachable!()
    }

    // Serves the event of a command.
    fn serve_event<R: Wait + Clock>(&mut self, rt: &R, event: Event, len: Option<usize>) -> Came {
        match (self.pace, len) {
            (Some(pace), Some(len)) => match self.server.shared.job(rt, Asked::Event(event)) {
                Some(job) => self.cast(rt, job, pace, len),
                None => (Err(Fault::NoMemory), Outs::new(self.server.shared.alloc)),
            },
            _ => self.server.serve(rt, event),
        }
    }

    // Takes the pen of the program if its command is a cast, of so many bytes, that most likely
    // comes alone, in a domain without other sites. Then what the cast pushes to the program is
    // taken at once, so that the thread waits for the table once.
    fn take_pen_if_alone<R: Wait>(&self, rt: &R, len: Option<usize>) -> Option<Hold> {
        let is_alone = self.count == 1 && self.last_count <= 1;
        if self.pace.is_none() && len.is_some() && is_alone {
            self.client.claim(rt)
        } else {
            None
        }
    }

    // Serves a command. False if the stream is of no more use.
    fn serve<R: Wait + Clock>(&mut self, rt: &R, command: Command) -> bool {
        let len = match &command {
            Command::Request(Request::Cast { payload, .. }) => Some(payload.len()),
            _ => None,
        };
        self.count = self.count.saturating_add(1);
        self.gather_frames(rt);
        if self.client.is_over(rt) {
            return false;
        }
        let Session { domain, serial } = self.client.session;
        let event = Event::Command {
            domain,
            serial,
            command,
        };
        let hold = self.take_pen_if_alone(rt, len);
        let has_pen = hold.is_some();
        let (answer, outs) = match hold {
            Some(hold) => self.server.serve_and_write(rt, self.client, hold, event),
            None => self.serve_event(rt, event, len),
        };
        self.note(rt, &outs);
        if has_pen {
            self.is_pushed = false;
            self.untaken = 0;
        }
        self.unsent = Some(outs);
        if let Ok(Taken::Refused(Refusal::Halted)) | Err(_) = answer {
            self.client.close(rt);
            self.flush(rt);
            return false;
        }
        self.go_on(rt)
    }

    // A command was answered. Waits if too many answers were not taken. False if the stream is of
    // no more use.
    fn go_on<R: Wait + Clock>(&mut self, rt: &R) -> bool {
        self.untaken = self.untaken.saturating_add(1);
        if self.untaken < UNTAKEN {
            return true;
        }
        self.flush(rt);
        if self.untaken < UNTAKEN {
            return true;
        }
        self.untaken = 0;
        self.client.wait(rt, 1)
    }

    // Remembers the sessions that a command pushed to.
    fn note<R: Wait>(&mut self, rt: &R, outs: &Outs) {
        for push in outs.pushed.as_slice() {
            let session = session_of(push);
            if session == self.client.session {
                self.is_pushed = true;
            } else if !self.pushed.contains(&session) && self.pushed.push(session).is_err() {
                self.server.shared.desk.lock(rt).call(rt, session);
            }
        }
    }

    // Has the outboxes of the other sessions taken that were pushed to.
    fn call_others<R: Wait>(&mut self, rt: &R) {
        if self.pushed.is_empty() {
            return;
        }
        {
            let desk = self.server.shared.desk.lock(rt);
            for session in self.pushed.as_slice() {
                desk.call(rt, *session);
            }
        }
        self.pushed.clear();
    }

    // Gathers the frames of the last command with those of the commands before it.
    fn gather_frames<R: Wait + Clock>(&mut self, rt: &R) {
        if let Some(mut outs) = self.unsent.take() {
            self.server.note_messages(rt, &outs);
            self.server.gather(rt, &mut outs);
        }
    }

    // Sends the frames of the commands.
    fn send_frames<R: Wait + Clock>(&mut self, rt: &R) {
        self.gather_frames(rt);
        self.server.send_gathered(rt);
    }

    // Writes what the commands pushed to the program, unless another thread does so, and sends
    // their frames. These go first if the last command delivered nothing.
    fn flush<R: Wait + Clock>(&mut self, rt: &R) {
        let is_frame_first = match &self.unsent {
            Some(outs) => outs.delivered.is_empty(),
            None => false,
        };
        if is_frame_first {
            self.send_frames(rt);
        }
        if self.is_pushed || self.untaken >= UNTAKEN {
            self.is_pushed = false;
            if let Some(hold) = self.client.claim(rt) {
                self.untaken = 0;
                self.server.write(rt, self.client, hold, false);
            }
        }
        self.call_others(rt);
        self.send_frames(rt);
    }

    // Does what is to be done before the program is read again.
    fn read_on<R: Wait + Clock>(&mut self, rt: &R) {
        self.flush(rt);
        self.last_count = self.count;
        self.count = 0;
    }
}

// Serves the commands of a program.
#[derive(Drop)]
struct Serving<'a, 'b, T: SharedTable, R: Wait + Clock> {
    rt: &'b R,
    reader: &'b Mutex<Reader<'a, T>>,
}

impl<T: SharedTable, R: Wait + Clock> Sink for Serving<'_, '_, T, R> {
    fn take(&mut self, command: Command) -> Result<(), NoMemory> {
        if self.reader.lock(self.rt).serve(self.rt, command) {
            Ok(())
        } else {
            Err(AllocError)
        }
    }
}

// The stream of a program. Before it is read, what the commands before pushed is written.
#[derive(Drop)]
struct Flushing<'a, 'b, T: SharedTable, R: Wait + Clock> {
    rt: &'b R,
    reader: &'b Mutex<Reader<'a, T>>,
    incoming: Incoming<'b>,
}

impl<T: SharedTable, R: Wait + Clock> Read for Flushing<'_, '_, T, R> {
    fn read(&mut self, room: &mut [u8]) -> io::Result<usize> {
        self.reader.lock(self.rt).read_on(self.rt);
        self.incoming.read(room)
    }

    fn read_exact(&mut self, room: &mut [u8]) -> io::Result<()> {
        self.reader.lock(self.rt).read_on(self.rt);
        self.incoming.read_exact(room)
    }
}

// Reads on until the stream is closed: bytes were no frame, and the program is still to be told so.
fn wait_for_close(incoming: Incoming<'_>) {
    let mut reader = incoming;
    let mut room = [0; 512];
    for _ in 0..u64::MAX {
        match reader.read(&mut room) {
            Ok(0) | Err(_) => break,
            Ok(_) => {}
        }
    }
}

/// Serves what a program writes, until its stream ends or is of no more use. What it was pushed by
/// then is written, as long as the program takes it.
pub fn run_reader<T: SharedTable, R: Wait + Clock>(
    rt: &R,
    alloc: Global,
    client: &Client,
    reader: &Mutex<Reader<'_, T>>,
) {
    let source = Flushing {
        rt,
        reader,
        incoming: client.incoming(),
    };
    let mut source = Watched::new(source);
    let mut sink = Serving { rt, reader };
    let end = pump_on(rt, alloc, &mut source, &mut sink);
    reader.lock(rt).flush(rt);
    match end {
        InEnd::Bad(_) => wait_for_close(client.incoming()),
        InEnd::End => {
            let _ = client.wait(rt, LAST_TAKES);
        }
        InEnd::ReadFault | InEnd::NoMemory => {}
    }
}
