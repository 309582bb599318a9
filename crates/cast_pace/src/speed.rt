//! How many casts of a domain may be on their way, by the time that acknowledgements take.
//!
//! A program that casts as fast as it can fills whatever room there is: each cast then waits behind
//! all before it, on the way and at the sites. So the number of casts on their way is kept so low
//! that acknowledgements take little longer than at least, as in TCP Vegas (Brakmo, O'Malley and
//! Peterson, "TCP Vegas: New Techniques for Congestion Detection and Avoidance", SIGCOMM 1994).
//! What it takes at least is known for each site, since sites may be near and far. Beside a far
//! site casts may queue for longer at a near one, too: as many are on their way as the far one
//! needs, and they go to both at once.
ghost use Rattle.std.specs.Prelude.{◌≡◌, ◌≤◌, ◌-◌, ◌*◌, ◌^◌, max, min, true};
ghost use Rattle.cast_pace.specs.Speeds.{heard, heard_in_time, heard_late, is_late};
ghost use Rattle.cast_pace.specs.Speeds.{longest_least, may_grow, new_flow, no_least, slowest_with};

use std::marker::Model;

// How many casts may be on their way at first, at least, and at most.
const FIRST: usize = 16;

const LEAST: usize = 4;

const MOST: usize = 65_536;

// The longest time is that of the last so many acknowledgements, and of as many before them at
// most: a far site may be put out.
const SPAN: u32 = 4_096;

// The longest of the times that the sites take at least.
#[derive(Clone, Copy, Debug, PartialEq, Eq)]
struct Slowest {
    // In this span, and in the one before.
    now: u64,
    before: u64,
    // How many acknowledgements this span has.
    count: u32,
}

impl Slowest {
    // No acknowledgement came.
    fn new() -> Self
        ensures { result ≡ no_least }
    {
        Slowest {
            now: 0,
            before: 0,
            count: 0,
        }
    }

    // One came of a site that takes so long at least.
    fn with(self, least: u64) -> Self
        ensures { result ≡ slowest_with self least }
    {
        if self.count < SPAN {
            Slowest {
                now: self.now.max(least),
                before: self.before,
                count: self.count + 1,
            }
        } else {
            Slowest {
                now: least,
                before: self.now,
                count: 1,
            }
        }
    }

    // The longest in both spans.
    fn longest(self) -> u64
        ensures { result ≡ longest_least self }
    {
        self.now.max(self.before)
    }
}

/// How many casts of a domain may be on their way: their window. Contracts see a `Flow`.
#[derive(Drop)]
pub struct Speed {
    // For how many microseconds they may queue.
    delay: u32,
    window: usize,
    slowest: Slowest,
    // Until an acknowledgement was late, the window grows with each.
    was_late: bool,
    // A cast had to wait since the window grew. Only then more are wanted.
    has_waited: bool,
    // How many acknowledgements came since the window became less, counted up to `MOST`.
    since_less: usize,
    // How many came in time, each while a cast had waited, since the window grew and since the last
    // late one.
    in_time: usize,
}

impl Model for Speed {
    ghost use Rattle.std.specs.Prelude.{◌≤◌, ◌<◌, ◌^◌};
    ghost use Rattle.cast_pace.specs.Speeds.{Flow};

    ghost Value = { Flow };

    ghost view = { λ s. record {
      delay = s.delay;
      window = s.window;
      slowest = s.slowest;
      was_late = s.was_late;
      has_waited = s.has_waited;
      since_less = s.since_less;
      in_time = s.in_time;
    } };

    ghost invariant = { λ s. (s.delay < 2 ^ 32) × (4 ≤ s.window) × (s.window ≤ 65536)
        × (s.since_less ≤ 65536) × (s.in_time < s.window) };
}

impl Speed {
    /// Casts may queue for so many microseconds. No acknowledgement came, and 16 may be on their
    /// way.
    pub fn new(delay: u32) -> Self
        ensures { result ≡ new_flow delay }
    {
        Speed {
            delay,
            window: FIRST,
            slowest: Slowest::new(),
            was_late: false,
            has_waited: false,
            since_less: 0,
            in_time: 0,
        }
    }

    /// How many casts may be on their way: 4 to 65,536.
    pub fn window(&self) -> usize
        ensures window { result ≡ self.now.window }
        ensures least { 4 ≤ result }
        ensures most { result ≤ 65536 }
    {
        self.window
    }

    /// How many may be on their way where a program wrote so many commands at once: twice as many,
    /// if these are more than the window, and at most `u32::MAX`.
    pub fn allowed(&self, at_once: usize) -> u32
        ensures { result ≡ min (max self.now.window (2 * at_once)) (2 ^ 32 - 1) }
    {
        let allowed = self.window().max(at_once.saturating_mul(2));
        u32::try_from(allowed).unwrap_or(u32::MAX)
    }

    /// Notes that a cast has to wait since so many are on their way.
    pub fn use_up(&mut self)
        ensures { self.new ≡ record self.old { has_waited = true } }
    {
        self.has_waited = true;
    }

    // Whether an acknowledgement that took so many microseconds took longer than it may, of a site
    // that takes so many at least.
    fn is_late(&self, micros: u64, least: u64) -> bool
        ensures { result ≡ is_late self.now micros least }
    {
        micros.saturating_sub(least) > self.slowest.longest() / 2 + u64::from(self.delay)
    }

    // Notes that one was late.
    fn hear_late(&mut self)
        ensures { self.new ≡ heard_late self.old }
    {
        self.was_late = true;
        self.in_time = 0;
        if self.since_less >= self.window {
            self.window = (self.window - (self.window / 8 + 1)).max(LEAST);
            self.since_less = 0;
        }
    }

    // Whether the window may grow with one more in time.
    fn may_grow(&self) -> bool
        ensures { result ≡ may_grow self.now }
    {
        !self.was_late || self.in_time + 1 >= self.window
    }

    // Notes that one was in time.
    fn hear_in_time(&mut self)
        ensures { self.new ≡ heard_in_time self.old }
    {
        if !self.has_waited {
            return;
        }
        if self.may_grow() {
            self.window = (self.window + 1).min(MOST);
            self.has_waited = false;
            self.in_time = 0;
        } else {
            self.in_time += 1;
        }
    }

    /// Notes that an acknowledgement took so many microseconds, of a site that takes so many at
    /// least. If it was late, fewer casts may be on their way, once for as many as are; else more,
    /// if these are wanted.
    pub fn hear(&mut self, micros: u64, least: u64)
        ensures { self.new ≡ heard self.old micros least }
    {
        self.slowest = self.slowest.with(least);
        self.since_less = (self.since_less + 1).min(MOST);
        if self.is_late(micros, least) {
            self.hear_late();
        } else {
            self.hear_in_time();
        }
    }
}
