//! What the threads of a daemon share.
use crate::desk::Desk;
use crate::pace::Pace;
use crate::record::Tape;
use crate::table::SharedTable;
use cast_edge::{Acknowledgements, Report, Unacknowledged};
use cast_events::{Asked, Datagrams, Recording, Told};
use cast_sending::{Silences, Stables};
use cast_sockets::{Keyrings, Link};
use cast_types::SiteNo;
use std::alloc::Global;
use std::sync::atomic::{AtomicU64, Ordering};
use std::sync::{Mutex, Wait};

/// Lets the console at the table before the threads that serve. Where many events come, these take
/// the lock again and again before a thread that was woken for it.
#[derive(Drop)]
pub struct Turnstile {
    // Not 0 if the console waits for the table, or has it.
    is_closed: AtomicU64,
    /// The console has this meanwhile.
    pub way: Mutex<()>,
}

impl Turnstile {
    /// The console does not wait.
    pub fn new() -> Self {
        Turnstile {
            is_closed: AtomicU64::new(0),
            way: Mutex::new(()),
        }
    }

    /// Waits while the console waits for the table or has it.
    pub fn pass<R: Wait>(&self, rt: &R) {
        if self.is_closed.load(Ordering::SeqCst) != 0 {
            drop(self.way.lock(rt));
        }
    }

    /// The console wants the table. The threads that serve wait from now on.
    pub fn close(&self) {
        self.is_closed.store(1, Ordering::SeqCst);
    }

    /// The console has done with the table.
    pub fn open(&self) {
        self.is_closed.store(0, Ordering::SeqCst);
    }
}

/// How many datagrams a daemon sent and received.
#[derive(Drop)]
pub struct Traffic {
    pub sent: AtomicU64,
    pub received: AtomicU64,
}

impl Traffic {
    /// None yet.
    pub fn new() -> Self {
        Traffic {
            sent: AtomicU64::new(0),
            received: AtomicU64::new(0),
        }
    }
}

/// What the threads of a daemon share.
#[derive(Drop)]
pub struct Shared<'a, T: SharedTable> {
    pub alloc: Global,
    pub desk: &'a Mutex<Desk>,
    pub table: &'a T,
    pub links: &'a [Link],
    pub keyrings: &'a Keyrings,
    /// Of each domain that has other sites.
    pub paces: &'a [Pace],
    /// Of each domain and each of its other sites.
    pub unacknowledged: &'a [Unacknowledged],
    pub silences: &'a Mutex<Silences>,
    pub stables: &'a Mutex<Stables>,
    pub acknowledgements: &'a Acknowledgements,
    pub turnstile: &'a Turnstile,
    pub traffic: &'a Traffic,
    /// Not 0 if a domain was halted since the ticker trimmed the trace last.
    pub halts: &'a AtomicU64,
    /// What was cut off the trace, if what the daemon does is recorded.
    pub tape: &'a Tape,
    pub is_recorded: bool,
    pub own: SiteNo,
    /// The most bytes of a bundle. `None` if each frame has a datagram of its own.
    pub bundle: Option<usize>,
}

impl<T: SharedTable> Shared<'_, T> {
    /// Tells the operator something.
    pub fn report<R: Wait>(&self, rt: &R, what: Report) {
        self.desk.lock(rt).report(rt, what);
    }

    /// Notes that a domain was halted.
    pub fn note_halt(&self) {
        self.halts.store(1, Ordering::SeqCst);
    }

    /// Trims the trace, or cuts it if it is recorded, if a domain was halted, since the trace holds
    /// what the domain kept. Answers whether a domain was halted.
    pub fn trim_after_halt<R: Wait>(&self, rt: &R) -> bool {
        let is_halted = self.halts.swap(0, Ordering::SeqCst) != 0;
        if is_halted {
            self.table.trim(rt);
        }
        is_halted
    }

    // How many datagrams were passed over before their bytes were read.
    fn passed_over(&self) -> u64 {
        let mut all: u64 = 0;
        for link in self.links {
            all = all.saturating_add(link.passed_over());
        }
        all
    }

    /// What the daemon tells of itself beside its table.
    pub fn told<R: Wait>(&self, rt: &R) -> Told {
        let (lost, undecoded) = self.desk.lock(rt).failures();
        let passed_over = self.passed_over();
        let record = if self.is_recorded {
            self.tape.state(rt)
        } else {
            Recording::Off
        };
        Told {
            datagrams: Datagrams {
                sent: self.traffic.sent.load(Ordering::SeqCst),
                received: self
                    .traffic
                    .received
                    .load(Ordering::SeqCst)
                    .saturating_add(passed_over),
                lost,
                undecoded: undecoded.saturating_add(passed_over),
            },
            record,
        }
    }

    /// The job of what is asked. `None` for bytes that are no frame, and where memory ran out;
    /// either is counted.
    pub fn job<R: Wait>(&self, rt: &R, asked: Asked) -> Option<T::Job> {
        let job = self.table.job(asked);
        if job.is_none() {
            self.desk.lock(rt).count_unread(rt, 1);
        }
        job
    }

    /// Whether the daemon stops.
    pub fn is_stopping<R: Wait>(&self, rt: &R) -> bool {
        self.desk.lock(rt).is_stopping()
    }
}
