//! How far the programs of a domain may run ahead of its other sites.
//!
//! A site keeps a limited number of messages of a domain, each until all sites have it. Where one
//! is lost on its way, those behind it wait at the receiver and take room there until the lost one
//! is sent again. Where they take all the room, the lost one is refused each time it comes. So a
//! site lets only some casts follow the oldest message that it keeps, and the others have room for
//! the one that they lack. A cast that would be one too many waits until messages are released,
//! but not for long: a site that is lost, and that nobody suspects, must not stop a program.
//!
//! Where the configuration says for how long casts may queue on their way, fewer may follow:
//! `Speed` says how many.
ghost use Rattle.std.specs.Prelude.{◌<◌};

use cast_events::{Backlog, DomainConfig};
use cast_pace::{
    Casts, Speed, is_crowded, least_window, may_go_on, room_beside, window_for, window_of,
};
use cast_sending::Took;
use cast_types::DomainNo;
use std::alloc::Global;
use std::rt::Clock;
use std::sync::atomic::{AtomicU64, Ordering};
use std::sync::{Condvar, Mutex, Wait};
use std::time::{Duration, Instant};

// For how many milliseconds a cast waits at most.
const PATIENCE: u64 = 250;

// No cast waits.
const NONE: u64 = u64::MAX;

/// How often the readers had been woken when a cast began to wait.
#[derive(Clone, Copy, Debug, PartialEq, Eq)]
pub struct Wakings(u64);

/// What a cast asks for.
#[derive(Clone, Copy, Debug, PartialEq, Eq)]
pub struct Wanted {
    /// How many bytes its payload has.
    pub len: usize,
    /// How many commands its program wrote at once. One that writes many wants many to be on their
    /// way.
    pub at_once: usize,
}

/// When a cast began to wait.
#[derive(Clone, Copy)]
pub struct Patience(Option<Instant>);

impl Patience {
    /// A cast that begins to wait now.
    pub fn new<R: Clock>(rt: &R) -> Self {
        Patience(Instant::now(rt).ok())
    }

    /// For how long it waits at most from now on. Without a clock it does not wait.
    pub fn left<R: Clock>(&self, rt: &R) -> Duration {
        let all = Duration::from_millis(PATIENCE);
        let Some(start) = self.0 else {
            return Duration::ZERO;
        };
        match start.elapsed(rt) {
            Ok(elapsed) => all.saturating_sub(elapsed),
            Err(_) => Duration::ZERO,
        }
    }
}

// The key of the oldest message that a domain keeps. None where none is kept.
fn oldest_of(backlog: Backlog) -> Option<u64> {
    match backlog.oldest {
        Some(oldest) => Some(oldest.0 as u64),
        None => None,
    }
}

// The casts that were served here last, and who waits.
#[derive(Drop)]
struct Waits {
    latest: Casts,
    wakings: u64,
    is_over: bool,
}

/// How far the programs of a domain may run ahead.
#[derive(Drop)]
pub struct Pace {
    pub domain: DomainNo,
    // How many sites the domain has.
    sites: u16,
    ghost others: { 1 < sites },
    // How many bytes of datagrams the socket of a site holds.
    room: u64,
    // Readers wait until the oldest message that is kept has this key.
    awaited: AtomicU64,
    waits: Mutex<Waits>,
    were_woken: Condvar,
    // None if casts may queue for as long as they like.
    speed: Option<Mutex<Speed>>,
}

impl Pace {
    /// The pace of a domain, over sockets that have room for so many bytes of datagrams. Casts may
    /// queue on their way for so many microseconds; at 0 for as long as they like.
    pub fn new(alloc: Global, config: &DomainConfig, room: u64, delay: u32) -> Self {
        let waits = Waits {
            latest: Casts::new(alloc),
            wakings: 0,
            is_over: false,
        };
        Pace {
            domain: config.domain,
            sites: u16::try_from(config.sites.len()).unwrap_or(u16::MAX).max(2),
            room,
            awaited: AtomicU64::new(NONE),
            waits: Mutex::new(waits),
            were_woken: Condvar::new(),
            speed: if delay > 0 {
                Some(Mutex::new(Speed::new(delay)))
            } else {
                None
            },
        }
    }

    /// The pace of a domain, of all these.
    pub fn find(all: &[Pace], domain: DomainNo) -> Option<&Pace> {
        all.iter().find(|pace| pace.domain == domain)
    }

    /// Notes how long an acknowledgement took.
    pub fn hear<R: Wait>(&self, rt: &R, took: Took) {
        if let Some(speed) = &self.speed {
            speed.lock(rt).hear(took.micros, took.least);
        }
    }

    // How many casts may be on their way, where a program wrote so many commands at once.
    fn allowed<R: Wait>(&self, rt: &R, at_once: usize) -> u32 {
        match &self.speed {
            Some(speed) => speed.lock(rt).allowed(at_once),
            None => u32::MAX,
        }
    }

    // Notes that a cast has to wait.
    fn use_up<R: Wait>(&self, rt: &R) {
        if let Some(speed) = &self.speed {
            speed.lock(rt).use_up();
        }
    }

    // How many casts may follow the oldest message that is kept, if the next has so many bytes.
    fn window(&self, limit: u32, len: usize) -> u32 {
        let len = u32::try_from(len).unwrap_or(u32::MAX);
        window_for(limit, self.sites, self.room, len)
    }

    /// Whether a cast has to wait, where the domain is so far behind: then how often the readers
    /// were woken before.
    pub fn must_wait<R: Wait>(&self, rt: &R, backlog: Backlog, wanted: Wanted) -> Option<Wakings> {
        let oldest = oldest_of(backlog)?;
        let allowed = self.allowed(rt, wanted.at_once);
        let window = least_window(self.window(backlog.limit, wanted.len), allowed);
        let waits = self.waits.lock(rt);
        if waits.is_over {
            return None;
        }
        let awaited = waits.latest.awaited(oldest, window)?;
        self.awaited.fetch_min(awaited, Ordering::SeqCst);
        self.use_up(rt);
        Some(Wakings(waits.wakings))
    }

    /// Notes that a cast was served. The domain was so far behind before it, and is so far after
    /// it. A cast that was refused is no message.
    pub fn note<R: Wait>(&self, rt: &R, before: Backlog, after: Backlog) {
        let key = before.next.0 as u64;
        if after.next.0 as u64 <= key {
            return;
        }
        let most = window_of(after.limit, self.sites);
        let _ = self.waits.lock(rt).latest.note(key, most);
    }

    // Readers wait until the oldest message that is kept has this key. None if none waits.
    fn awaited(&self) -> Option<u64> {
        match self.awaited.load(Ordering::SeqCst) {
            NONE => None,
            key => Some(key),
        }
    }

    /// Whether readers wait.
    pub fn is_awaited(&self) -> bool {
        self.awaited().is_some()
    }

    /// Whether readers wait, and may go on, where the domain is so far behind.
    pub fn is_due(&self, backlog: Backlog) -> bool {
        may_go_on(self.awaited(), oldest_of(backlog))
    }

    /// Whether an event received a message, so that the domain keeps more than there is room for
    /// beside what all sites may cast on. The domain was so far behind before it, and is so far
    /// after it.
    pub fn is_crowded(&self, before: Backlog, after: Backlog) -> bool {
        let room = room_beside(after.limit, self.sites);
        let next = after.next.0 as u64;
        is_crowded(before.next.0 as u64, next, oldest_of(after), room)
    }

    /// Wakes the readers that wait.
    pub fn wake<R: Wait>(&self, rt: &R) {
        let mut waits = self.waits.lock(rt);
        waits.wakings = waits.wakings.wrapping_add(1);
        self.awaited.store(NONE, Ordering::SeqCst);
        drop(waits);
        self.were_woken.notify_all();
    }

    /// Wakes the readers if any wait.
    pub fn wake_any<R: Wait>(&self, rt: &R) {
        if self.is_awaited() {
            self.wake(rt);
        }
    }

    /// Ends all waiting.
    pub fn end<R: Wait>(&self, rt: &R) {
        self.waits.lock(rt).is_over = true;
        self.wake(rt);
    }

    /// Waits until the readers are woken once more, at most for so long.
    pub fn wait<R: Wait + Clock>(&self, rt: &R, before: Wakings, most: Duration) {
        let waits = self.waits.lock(rt);
        if waits.wakings == before.0 && !waits.is_over {
            let (waits, _) = self.were_woken.wait_timeout(rt, waits, most);
            drop(waits);
        }
    }
}
