//! Which programs are served, what is asked of the workers, and which sessions are still to end.
use cast_edge::{Client, Count, Endings, Report, Session};
use cast_events::{Asked, Event, Raw};
use cast_types::{DomainNo, NoMemory, Refusal};
use crossbeam_channel::Sender;
use std::alloc::{AllocError, Global};
use std::collections::BTreeMap;
use std::sync::{Arc, Wait};

/// A session that was opened, and the number under which it was asked for. Its end is handed in
/// under the same number.
#[derive(Clone, Copy, Debug, PartialEq, Eq)]
pub struct Opened {
    pub session: Session,
    pub number: u64,
}

/// What became of a program that wants a session.
#[derive(Clone, Copy, Debug, PartialEq, Eq)]
pub enum Opening {
    /// It has one.
    Opened(Opened),
    Refused(Refusal),
    /// Memory ran out.
    Lost,
}

/// Why something was asked of the workers.
#[derive(Drop)]
pub enum Purpose {
    /// The thread of a new program of a domain waits for its session.
    Open(DomainNo, Sender<Opening>),
    /// A session is to end.
    Gone,
    /// Nobody waits.
    Other,
}

// Sends something if there is room for it, else answers false. It is proved for any type at once:
// at that of jobs alone a call of the channel takes fifteen times as long to prove.
fn send_now<T: Drop, R: Wait>(rt: &R, to: &Sender<T>, what: T) -> bool {
    to.try_send(rt, what).is_ok()
}

// Asks an event of the workers under a number. False if too many are on the way.
fn ask<R: Wait>(rt: &R, jobs: &Sender<Raw>, number: u64, event: Event) -> bool {
    let asked = Asked::Event(event);
    send_now(rt, jobs, Raw { number, asked })
}

// The Gone of a session.
fn gone_of(session: Session) -> Event {
    Event::Gone {
        domain: session.domain,
        serial: session.serial,
    }
}

/// What the threads of a daemon know of each other.
#[derive(Drop)]
pub struct Desk {
    jobs: Option<Sender<Raw>>,
    last: u64,
    waiting: BTreeMap<u64, Purpose>,
    // The number of the tick that is on the way; 0 if none is.
    tick: u64,
    ends: Endings,
    clients: BTreeMap<Session, Arc<Client, Global>>,
    reports: Option<Sender<Report>>,
    is_stopping: bool,
    // Whether the programs of a domain are no longer served, by its number.
    retired: [bool; 256],
    // Datagrams that are no frame of the site that they came from, or found no memory.
    unread: Count,
    // Datagrams that the system did not send.
    unsent: u64,
    // Datagrams that found no memory to be sent.
    unspelled: Count,
}

impl Desk {
    /// No program is served. Jobs go out by the first channel, and what an operator has to know by
    /// the second. Neither may wait for room: what finds none is refused.
    pub fn new(alloc: Global, jobs: Sender<Raw>, reports: Sender<Report>) -> Self {
        Desk {
            jobs: Some(jobs),
            reports: Some(reports),
            last: 0,
            waiting: BTreeMap::new(alloc),
            tick: 0,
            ends: Endings::new(alloc),
            clients: BTreeMap::new(alloc),
            is_stopping: false,
            retired: [false; 256],
            unread: Count::new(),
            unsent: 0,
            unspelled: Count::new(),
        }
    }

    // Asks an event of the workers under a number. False if it was refused: the daemon stops, or
    // too many are on the way.
    fn send<R: Wait>(&self, rt: &R, number: u64, event: Event) -> bool {
        match &self.jobs {
            Some(jobs) => ask(rt, jobs, number, event),
            None => false,
        }
    }

    // A number, from 1 on, that nothing else was asked under.
    fn number(&mut self) -> Result<u64, NoMemory> {
        let number = self.last.checked_add(1).ok_or(AllocError)?;
        self.last = number;
        Ok(number)
    }

    // A number whose answer finds this purpose.
    fn register(&mut self, purpose: Purpose) -> Result<u64, NoMemory> {
        let number = self.number()?;
        self.waiting.insert(number, purpose)?;
        Ok(number)
    }

    /// Asks for a session in a domain. False if that was refused. Room for what its end needs is
    /// made here, so that the end takes no memory.
    pub fn open<R: Wait>(&mut self, rt: &R, domain: DomainNo, to: Sender<Opening>) -> bool {
        let Ok(number) = self.register(Purpose::Open(domain, to)) else {
            return false;
        };
        let is_asked = self.ends.add(number).is_ok() && self.send(rt, number, Event::Open(domain));
        if !is_asked {
            drop(self.waiting.remove(&number));
            self.ends.remove(number);
        }
        is_asked
    }

    /// Asks that the domains are told the time, unless they are being told it.
    pub fn tick<R: Wait>(&mut self, rt: &R, millis: u64) {
        if self.tick != 0 {
            return;
        }
        let Ok(number) = self.number() else {
            return;
        };
        if self.send(rt, number, Event::Tick(millis)) {
            self.tick = number;
        }
    }

    /// The purpose of what was asked under a number, which has its answer.
    pub fn purpose(&mut self, number: u64) -> Purpose {
        if number == self.tick {
            self.tick = 0;
            return Purpose::Other;
        }
        match self.waiting.remove(&number) {
            Some(purpose) => purpose,
            None if self.ends.has(number) => Purpose::Gone,
            None => Purpose::Other,
        }
    }

    /// Tells a program what became of the session that it asked for under a number.
    pub fn opened<R: Wait>(&mut self, rt: &R, number: u64, to: &Sender<Opening>, opening: Opening) {
        let is_told = to.send(rt, opening).is_ok();
        match opening {
            Opening::Opened(opened) => {
                if !is_told {
                    self.leave(rt, opened);
                }
            }
            Opening::Refused(_) | Opening::Lost => self.ends.remove(number),
        }
    }

    /// Lets a program in. False if the daemon stops, or no longer serves its domain.
    pub fn add(&mut self, client: Arc<Client, Global>) -> Result<bool, NoMemory> {
        if self.is_stopping || self.is_retired(client.session.domain) {
            return Ok(false);
        }
        let session = client.session;
        self.clients.insert(session, client)?;
        Ok(true)
    }

    /// Forgets a program, and hands in that its session ends.
    pub fn leave<R: Wait>(&mut self, rt: &R, opened: Opened) {
        drop(self.clients.remove(&opened.session));
        self.ends.end(opened.number, opened.session);
        self.hand_in_ends(rt);
    }

    /// Hands in each Gone that is due, up to the first that is refused. What is not handed in stays
    /// due.
    pub fn hand_in_ends<R: Wait>(&mut self, rt: &R) {
        let Some(jobs) = &self.jobs else {
            return;
        };
        for _turn in 0..self.ends.count() {
            let Some((number, session)) = self.ends.next_due() else {
                return;
            };
            if !ask(rt, jobs, number, gone_of(session)) {
                return;
            }
            self.ends.ask(number);
        }
    }

    /// The Gone under a number has its answer. One that found no memory is due again.
    pub fn gone(&mut self, number: u64, is_done: bool) {
        if is_done {
            self.ends.remove(number);
        } else {
            self.ends.ask_again(number);
        }
    }

    /// The program of a session. `None` also if memory ran out.
    pub fn client(&self, session: Session) -> Option<Arc<Client, Global>> {
        let client = self.clients.get(&session)?;
        Arc::try_clone(client).ok()
    }

    /// A session was pushed to: its outbox is to be taken.
    pub fn call<R: Wait>(&self, rt: &R, session: Session) {
        if let Some(client) = self.clients.get(&session) {
            client.call(rt);
        }
    }

    /// The next program behind this one whose outbox is to be taken: of all programs, or of those
    /// whose last Take found no memory.
    pub fn next_client<R: Wait>(
        &self,
        rt: &R,
        behind: Option<Session>,
        all: bool,
    ) -> Option<Arc<Client, Global>> {
        for (session, client) in self.clients.iter() {
            if Some(*session) > behind && (all || client.is_missed(rt)) {
                return Arc::try_clone(client).ok();
            }
        }
        None
    }

    /// Counts datagrams that are no frame of the site that they came from, or found no memory.
    pub fn count_unread<R: Wait>(&mut self, rt: &R, more: u64) {
        if let Some(count) = self.unread.add(more) {
            self.report(rt, Report::Unread(count));
        }
    }

    /// Counts datagrams that the system did not send.
    pub fn count_unsent(&mut self, more: u64) {
        self.unsent = self.unsent.saturating_add(more);
    }

    /// Counts datagrams that found no memory to be sent.
    pub fn count_unspelled<R: Wait>(&mut self, rt: &R, more: u64) {
        if let Some(count) = self.unspelled.add(more) {
            self.report(rt, Report::Unspelled(count));
        }
    }

    /// How many datagrams could not be sent, and how many that came could not be read.
    pub fn failures(&self) -> (u64, u64) {
        let unsent = self.unsent.saturating_add(self.unspelled.so_far());
        (unsent, self.unread.so_far())
    }

    /// Tells the operator something. It is lost once reports have ended, or if much else waits to
    /// be told.
    pub fn report<R: Wait>(&self, rt: &R, what: Report) {
        if let Some(reports) = &self.reports {
            let _ = reports.try_send(rt, what);
        }
    }

    /// Nothing is reported any more. What was is still written.
    pub fn end_reports(&mut self) {
        drop(self.reports.take());
    }

    /// Whether the daemon stops.
    pub fn is_stopping(&self) -> bool {
        self.is_stopping
    }

    /// Whether the programs of a domain are no longer served.
    pub fn is_retired(&self, domain: DomainNo) -> bool {
        self.retired[usize::from(domain.0)]
    }

    /// Ends the threads of the programs of a domain, and lets no more of them in.
    pub fn retire<R: Wait>(&mut self, rt: &R, domain: DomainNo) {
        if !self.is_retired(domain) {
            self.report(rt, Report::Retired(domain));
        }
        self.retired[usize::from(domain.0)] = true;
        for client in self.clients.values() {
            if client.session.domain == domain {
                client.close(rt);
            }
        }
    }

    /// Ends the threads of every program, and lets no program in. What was asked is still served.
    pub fn stop<R: Wait>(&mut self, rt: &R) {
        self.is_stopping = true;
        drop(self.jobs.take());
        for client in self.clients.values() {
            client.close(rt);
        }
    }
}
