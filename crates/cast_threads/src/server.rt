//! A thread that serves events: under the table's lock for each, and sends the frames outside it.
use cast_edge::{Client, Report, Session, Unacknowledged};
use cast_events::{Asked, Event, Fault, Outs, Taken};
use cast_link::{Wire, send_all, send_bundled};
use cast_message::Push;
use cast_pen::{BATCH, Hold, Next, Unwritten, WriterTask, put_entries, put_rest};
use cast_sending::Heard;
use cast_shared::{Came, Pace, Shared, SharedTable, Udp, Wakings, Wanted};
use cast_types::{DomainNo, List, Refusal, SiteNo};
use std::mem;
use std::rt::Clock;
use std::sync::Wait;
use std::sync::atomic::Ordering;

// So often a thread takes an outbox in a row that is not the program's writer. Then the writer goes
// on.
const ROUNDS: u32 = 4;

// So many bytes of room are kept for what is to be written.
const ROOM: usize = 65_536;

// So many frames are gathered at most before they are sent.
const MOST_GATHERED: usize = 128;

/// What a thread needs to serve events.
#[derive(Drop)]
pub struct Server<'a, T: SharedTable> {
    pub shared: &'a Shared<'a, T>,
    share: T::Share,
    pub wire: Udp<'a>,
    // The bytes of entries that are to be written.
    room: Vec<u8>,
    // The frames that are gathered, to be sent together. None if each frame has a datagram of its
    // own.
    gathered: Outs,
    // What the last frame told that acknowledged nothing.
    heard: Option<Heard>,
}

// A Take of the outbox of a session.
fn take_of(session: Session) -> Event {
    Event::Take {
        domain: session.domain,
        serial: session.serial,
        most: BATCH,
    }
}

// After bytes were given to a program. Passes what is left of them on with the pen. `None` if the
// pen is gone, else the pen, and whether the outbox may have more entries.
fn go_on<R: Wait>(rt: &R, client: &Client, hold: Hold, next: Next) -> Option<(Hold, bool)> {
    match next {
        Next::GoOn(is_more) => Some((hold, is_more)),
        Next::Rest(unwritten) => {
            client.pass(rt, hold, WriterTask::Write(unwritten));
            None
        }
        Next::End => {
            client.end(rt, hold);
            None
        }
    }
}

// Keeps the pen if the outbox may have more entries, or if the session was pushed to since. Else it
// is free.
fn keep<R: Wait>(rt: &R, client: &Client, hold: Hold, is_more: bool) -> Option<Hold> {
    if is_more {
        Some(hold)
    } else {
        client.goes_on(rt, hold)
    }
}

/// The session that an entry was pushed to.
pub fn session_of(push: &(DomainNo, u32, Push)) -> Session {
    Session {
        domain: push.0,
        serial: push.1,
    }
}

impl<'a, T: SharedTable> Server<'a, T> {
    /// A thread that has this share of the count.
    pub fn new(shared: &'a Shared<'a, T>, share: T::Share) -> Self {
        Server {
            shared,
            share,
            wire: Udp::new(shared.alloc, shared.own, shared.links, shared.keyrings),
            room: Vec::new(shared.alloc),
            gathered: Outs::new(shared.alloc),
            heard: None,
        }
    }

    /// Serves no more: gives the share of the count back.
    pub fn end<R: Wait>(self, rt: &R) {
        let Server { shared, share, .. } = self;
        shared.table.give_back(rt, share);
    }

    // Does a job, and lets the readers go on that waited for what it released. Answers also whether
    // it received a message where there is little room.
    fn do_job<R: Wait>(&mut self, rt: &R, job: T::Job) -> (Came, bool) {
        let shared = self.shared;
        shared.turnstile.pass(rt);
        let served = shared.table.serve(rt, &mut self.share, job, shared.paces);
        self.wake_due(rt, served.due);
        (served.came, served.is_crowded)
    }

    // After a job: lets the readers go on that wait for this pace, if there is one.
    fn wake_due<R: Wait>(&self, rt: &R, due: usize) {
        if let Some(pace) = self.shared.paces.get(due) {
            pace.wake(rt);
        }
        self.shared.tape.let_go(rt);
    }

    /// Does the job of a cast at a pace. If it has to wait, the job comes back, with how
    /// often the readers were woken before.
    pub fn cast<R: Wait>(
        &mut self,
        rt: &R,
        job: T::Job,
        pace: &Pace,
        asks: Option<Wanted>,
    ) -> Result<Came, (T::Job, Wakings)> {
        let shared = self.shared;
        shared.turnstile.pass(rt);
        let served = shared.table.cast(rt, &mut self.share, job, pace, asks);
        shared.tape.let_go(rt);
        served
    }

    /// Serves a frame of the datagram that was received last. `None` if its bytes are no frame of
    /// the site that it came from. After an acknowledgement, what seems to be lost is sent again.
    pub fn serve_frame<R: Wait + Clock>(&mut self, rt: &R, frame: Asked) -> Option<Outs> {
        let job = self.shared.job(rt, frame)?;
        if self.shared.table.sender(&job) != self.wire.sender() {
            self.shared.desk.lock(rt).count_unread(rt, 1);
            return None;
        }
        let heard = self.shared.table.heard(&job);
        let (came, is_crowded) = self.do_job(rt, job);
        let (_, outs) = came;
        if let Some(heard) = heard {
            self.hear(rt, heard);
        }
        if is_crowded {
            self.shared.acknowledgements.hold(rt, &outs);
        }
        Some(outs)
    }

    // A frame told something of its site. Most tell nothing new. After an acknowledgement, what
    // seems to be lost is sent again.
    fn hear<R: Wait + Clock>(&mut self, rt: &R, heard: Heard) {
        if self.heard == Some(heard) {
            return;
        }
        let (domain, site) = (heard.domain, heard.site);
        let Some(unacknowledged) = Unacknowledged::find(self.shared.unacknowledged, domain, site)
        else {
            return;
        };
        let Some(id) = heard.acknowledged else {
            unacknowledged.enter(rt, heard.group, heard.view);
            self.heard = Some(heard);
            return;
        };
        self.end_silence(rt, site);
        let (mut again, took) = unacknowledged.acknowledge(rt, id);
        if let (Some(took), Some(pace)) = (took, Pace::find(self.shared.paces, domain)) {
            pace.hear(rt, took);
        }
        self.gather(rt, &mut again);
    }

    // A site acknowledged a message. If it was silent, all that it was sent may be sent again as if
    // for the first time.
    fn end_silence<R: Wait>(&self, rt: &R, site: SiteNo) {
        let was_silent = self.shared.silences.lock(rt).end(site);
        if was_silent {
            for unacknowledged in self.shared.unacknowledged {
                if unacknowledged.site == site {
                    unacknowledged.begin_anew(rt);
                }
            }
        }
    }

    /// Serves an event.
    pub fn serve<R: Wait>(&mut self, rt: &R, event: Event) -> Came {
        match self.shared.job(rt, Asked::Event(event)) {
            Some(job) => self.do_job(rt, job).0,
            None => (Err(Fault::NoMemory), Outs::new(self.shared.alloc)),
        }
    }

    /// Remembers the messages that are to be sent, until they are acknowledged.
    pub fn note_messages<R: Wait + Clock>(&self, rt: &R, outs: &Outs) {
        Unacknowledged::note_all(rt, self.shared.unacknowledged, outs);
    }

    /// Takes the frames of an event, to be sent with those of others at the latest by
    /// `send_gathered`, and tells the operator which domains it halted. If each frame has a
    /// datagram of its own, they are sent now.
    pub fn gather<R: Wait>(&mut self, rt: &R, outs: &mut Outs) {
        let lost = self.shared.acknowledgements.pass(rt, outs);
        self.count_unspelled(rt, lost);
        if self.shared.bundle.is_none() {
            self.send_frames(rt, outs);
        } else {
            self.gather_frames(rt, outs);
        }
        for domain in outs.halted.as_slice() {
            self.shared.note_halt();
            self.shared.report(rt, Report::Halted(*domain));
        }
    }

    // Gathers the frames of an event. Sends them once they are many.
    fn gather_frames<R: Wait>(&mut self, rt: &R, outs: &mut Outs) {
        let frames = mem::replace(&mut outs.frames, List::new(self.shared.alloc));
        for frame in frames.into_vec() {
            if self.gathered.frames.push(frame).is_err() {
                self.count_unspelled(rt, 1);
            }
            if self.gathered.frames.len() >= MOST_GATHERED {
                self.send_gathered(rt);
            }
        }
    }

    /// Sends the frames that are gathered, and the Stables that wait for the same sites.
    pub fn send_gathered<R: Wait>(&mut self, rt: &R) {
        if self.gathered.frames.is_empty() {
            return;
        }
        let mut outs = mem::replace(&mut self.gathered, Outs::new(self.shared.alloc));
        let lost = self.shared.stables.lock(rt).join(&mut outs);
        self.count_unspelled(rt, lost);
        self.send_frames(rt, &mut outs);
    }

    /// Sends the Stables that wait.
    pub fn send_stables<R: Wait>(&mut self, rt: &R) {
        let mut outs = self.shared.stables.lock(rt).take();
        self.send(rt, &mut outs);
    }

    /// Counts frames that are lost for want of memory.
    pub fn count_unspelled<R: Wait>(&self, rt: &R, count: u64) {
        if count > 0 {
            self.shared.desk.lock(rt).count_unspelled(rt, count);
        }
    }

    /// Sends the frames of an event, and tells the operator which domains it halted. Frames that
    /// were gathered before go with them.
    pub fn send<R: Wait>(&mut self, rt: &R, outs: &mut Outs) {
        let has_frames = !outs.frames.is_empty();
        self.gather(rt, outs);
        if has_frames {
            self.send_gathered(rt);
        }
    }

    // Sends frames, but for messages for silent sites beyond the first few.
    fn send_frames<R: Wait>(&mut self, rt: &R, outs: &mut Outs) {
        self.shared.silences.lock(rt).pass(outs);
        self.send_passed(rt, outs);
    }

    // Sends frames, if there is room to count one more failure of each. They share datagrams if
    // they may.
    fn send_passed<R: Wait>(&mut self, rt: &R, outs: &Outs) {
        let count = outs.frames.len() as u64;
        if count == 0 || count >= u64::MAX - self.wire.failures() {
            return;
        }
        let shared = self.shared;
        let given = match shared.bundle {
            Some(most) => send_bundled(shared.alloc, &mut self.wire, shared.own, outs, most),
            None => send_all(shared.alloc, &mut self.wire, shared.own, outs),
        };
        match given {
            Ok(sent) => {
                shared.traffic.sent.fetch_add(sent.sent, Ordering::SeqCst);
                if sent.lost > 0 {
                    shared.desk.lock(rt).count_unsent(sent.lost);
                }
            }
            Err(_) => self.count_unspelled(rt, count),
        }
    }

    /// Sends the frames of an event, and has the outboxes taken that it pushed to.
    pub fn finish<R: Wait>(&mut self, rt: &R, outs: &mut Outs) {
        self.send(rt, outs);
        let pushed = outs.pushed.as_slice();
        if pushed.is_empty() {
            return;
        }
        let desk = self.shared.desk.lock(rt);
        let mut last = None;
        for push in pushed {
            let session = session_of(push);
            if last != Some(session) {
                desk.call(rt, session);
            }
            last = Some(session);
        }
    }

    // Lets go of much room.
    fn shrink(&mut self) {
        if self.room.capacity() > ROOM {
            self.room = Vec::new(self.shared.alloc);
        }
    }

    // Writes what is unwritten, and waits where it has to. Answers as `write_taken` does.
    fn put_rest<R: Wait>(
        &mut self,
        rt: &R,
        client: &Client,
        hold: Hold,
        unwritten: Unwritten,
    ) -> Option<(Hold, bool)> {
        client.was_taken(rt, &hold);
        let next = put_rest(&mut client.outlet(&hold), unwritten);
        go_on(rt, client, hold, next)
    }

    /// As the writer of a program, writes what another thread left unwritten, and then what there
    /// is more.
    pub fn write_rest<R: Wait>(
        &mut self,
        rt: &R,
        client: &Client,
        hold: Hold,
        unwritten: Unwritten,
    ) {
        if let Some((hold, is_more)) = self.put_rest(rt, client, hold, unwritten)
            && let Some(hold) = keep(rt, client, hold, is_more)
        {
            self.write(rt, client, hold, true);
        }
    }

    // Writes what a Take of the outbox of a session had. `None` if the pen is gone, else the pen,
    // and whether there may be more.
    fn write_taken<R: Wait>(
        &mut self,
        rt: &R,
        client: &Client,
        hold: Hold,
        came: Came,
        may_wait: bool,
    ) -> Option<(Hold, bool)> {
        let (answer, mut outs) = came;
        self.send(rt, &mut outs);
        match answer {
            Ok(Taken::Entries(entries)) => self.put_entries(rt, client, hold, entries, may_wait),
            Ok(Taken::Refused(Refusal::Halted)) => {
                client.end(rt, hold);
                None
            }
            Err(_) => {
                client.gives_up(rt, hold);
                None
            }
            _ => Some((hold, false)),
        }
    }

    // Writes entries that were taken. Answers as `write_taken` does.
    fn put_entries<R: Wait>(
        &mut self,
        rt: &R,
        client: &Client,
        hold: Hold,
        entries: List<Push>,
        may_wait: bool,
    ) -> Option<(Hold, bool)> {
        let (alloc, entries) = (self.shared.alloc, entries.as_slice());
        let next = put_entries(&mut client.outlet(&hold), &mut self.room, alloc, entries);
        self.shrink();
        match next {
            Ok(Next::Rest(unwritten)) if may_wait => self.put_rest(rt, client, hold, unwritten),
            Ok(next) => go_on(rt, client, hold, next),
            Err(_) => {
                client.end(rt, hold);
                None
            }
        }
    }

    /// With the pen of a program, takes its outbox until that is empty, and writes what it had. If
    /// that would wait, or goes on for long, the pen is passed to the program's writer, unless this
    /// is the writer.
    pub fn write<R: Wait>(&mut self, rt: &R, client: &Client, hold: Hold, is_writer: bool) {
        let came = self.serve(rt, take_of(client.session));
        self.write_from(rt, client, hold, came, is_writer);
    }

    // With the pen of a program, and with what came of a Take of its outbox: writes that, and goes
    // on as `write` does.
    fn write_from<R: Wait>(
        &mut self,
        rt: &R,
        client: &Client,
        hold: Hold,
        came: Came,
        is_writer: bool,
    ) {
        let mut hold = hold;
        let mut came = came;
        let mut rounds: u32 = 0;
        for _ in rt.forever() {
            let Some((held, is_more)) = self.write_taken(rt, client, hold, came, is_writer) else {
                return;
            };
            let Some(kept) = keep(rt, client, held, is_more) else {
                return;
            };
            rounds = rounds.saturating_add(1);
            if rounds >= ROUNDS && !is_writer {
                client.pass(rt, kept, WriterTask::Take);
                return;
            }
            hold = kept;
            came = self.serve(rt, take_of(client.session));
        }
        client.gives_up(rt, hold);
    }

    // There is no memory for a job. The pen of a program is given back.
    fn give_up<R: Wait>(&self, rt: &R, client: &Client, hold: Hold) -> Came {
        client.gives_up(rt, hold);
        (Err(Fault::NoMemory), Outs::new(self.shared.alloc))
    }

    /// With the pen of a program, serves an event of its session, takes the outbox at once, and
    /// then writes as `write` does: the thread waits for the table once for both.
    pub fn serve_and_write<R: Wait>(
        &mut self,
        rt: &R,
        client: &Client,
        hold: Hold,
        event: Event,
    ) -> Came {
        let shared = self.shared;
        let Some(job) = shared.job(rt, Asked::Event(event)) else {
            return self.give_up(rt, client, hold);
        };
        let Some(take) = shared.job(rt, Asked::Event(take_of(client.session))) else {
            return self.give_up(rt, client, hold);
        };
        shared.turnstile.pass(rt);
        let (came, taken) = shared
            .table
            .serve_both(rt, &mut self.share, job, take, shared.paces);
        self.wake_due(rt, taken.due);
        self.write_from(rt, client, hold, taken.came, false);
        came
    }
}
