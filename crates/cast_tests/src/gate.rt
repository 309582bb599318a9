//! A table at which a worker waits until others have done their work.
ghost use Rattle.std.specs.Prelude.{◌≡◌, ◌<◌};
ghost use Rattle.cast_pool.specs.Served.{IsCompleted};

use cast_pool::{Channels, Done, Job, Kept, Post, Raw, Service, Worked};
use std::rt::Clock;
use std::sync::atomic::{AtomicU64, Ordering};
use std::sync::ledger::Ledger;
use std::sync::{Mutex, Wait};
use std::thread;
use std::time::Duration;

// A worker waits for so many turns at most, each a sleep of 50 microseconds.
const TURNS: u64 = 1_000_000;

/// Who was asked under a number from this one on waits.
pub const PATIENT: u64 = 1_000;

/// Where a worker waits.
#[derive(Clone, Copy, Debug)]
pub struct Place {
    /// Behind the lock, and not before it.
    pub is_served: bool,
    /// Until so much is sent.
    pub awaited: u64,
}

/// A table at which workers wait, and how much they have sent.
#[derive(Drop)]
pub struct Waits<'a, L: Ledger, R: Clock> {
    rt: &'a R,
    kept: Mutex<Kept<L>>,
    place: Place,
    sent: &'a AtomicU64,
    // How often somebody waited in vain.
    vain: AtomicU64,
}

impl<'a, L: Ledger, R: Clock> Waits<'a, L, R> {
    /// A table at which nobody has waited.
    pub fn new(rt: &'a R, kept: Kept<L>, place: Place, sent: &'a AtomicU64) -> Self {
        Waits {
            rt,
            kept: Mutex::new(kept),
            place,
            sent,
            vain: AtomicU64::new(0),
        }
    }

    /// The table, and whether nobody waited in vain.
    pub fn end(self) -> (Kept<L>, bool) {
        let was_passed = self.vain.load(Ordering::SeqCst) == 0;
        (self.kept.into_inner(), was_passed)
    }

    fn wait(&self, number: u64, is_served: bool) {
        if number < PATIENT || is_served != self.place.is_served {
            return;
        }
        for _turn in 0..TURNS {
            if self.sent.load(Ordering::SeqCst) >= self.place.awaited {
                return;
            }
            thread::sleep(self.rt, Duration::from_micros(50));
        }
        self.vain.fetch_add(1, Ordering::SeqCst);
    }
}

impl<L: Ledger, R: Clock> Service<L> for Waits<'_, L, R> {
    fn complete<W: Wait>(&self, rt: &W, mine: &mut Worked<L>, job: Job, may_trim: bool) -> Done {
        let number = job.number();
        self.wait(number, false);
        let done = self.kept.lock(rt).complete(mine, job, may_trim);
        self.wait(number, true);
        done
    }
}

/// The ends of two channels, at which it is counted what was sent.
#[derive(Drop)]
pub struct Counting<'a, R> {
    pub channels: Channels<'a, R>,
    pub sent: &'a AtomicU64,
}

impl<R: Wait> Post for Counting<'_, R> {
    fn take(&mut self) -> Option<Raw> {
        self.channels.take()
    }

    fn send(&mut self, done: Done) {
        self.channels.send(done);
        self.sent.fetch_add(1, Ordering::SeqCst);
    }
}
