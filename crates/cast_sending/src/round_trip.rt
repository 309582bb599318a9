ghost use Rattle.std.specs.Prelude.{◌≡◌, ◌≤◌, ◌^◌};
ghost use Rattle.cast_sending.specs.RoundTrips.{late_after, trip_with, whole_mean};
ghost use Rattle.cast_sending.specs.RoundTrips.{least_of, no_times, times_with};

use std::marker::Model;

// The least time of an acknowledgement is that of the last so many, and of as many before them at
// most: a way may become longer.
const SPAN: u32 = 4_096;

// It is late once so many ticks at least went by since its acknowledgement was expected. Ticks are
// too coarse for less.
const LATE: u64 = 2;

// A time counts as so many ticks at most.
const LONGEST: u64 = 1 << 60;

/// The time from a message to its acknowledgement, in ticks: eight times the mean, and four times
/// the mean deviation from it. The latest count most, as in TCP (Paxson, Allman, Chu and Sargent,
/// "Computing TCP's Retransmission Timer", RFC 6298). A time counts from when the message was sent
/// first. So it is too long, and never too short, if the message was lost. Contracts see a `Trip`.
#[derive(Drop)]
pub struct RoundTrip {
    mean: u64,
    deviation: u64,
}

impl Model for RoundTrip {
    ghost use Rattle.std.specs.Prelude.{◌≤◌, ◌^◌};
    ghost use Rattle.cast_sending.specs.RoundTrips.{Trip};

    ghost Value = { Trip };

    ghost view = { λ r. record { mean = r.mean; deviation = r.deviation } };

    ghost invariant = { λ r. (r.mean ≤ 2 ^ 63) × (r.deviation ≤ 2 ^ 62) };
}

// The mean in whole ticks, rounded up.
fn whole_mean(mean: u64) -> u64
    requires { mean ≤ 2 ^ 63 }
    ensures { result ≡ whole_mean mean }
{
    (mean + 7) / 8
}

impl RoundTrip {
    /// No acknowledgement came.
    pub fn new() -> Self
        ensures { result ≡ record { mean = 0; deviation = 0 } }
    {
        RoundTrip {
            mean: 0,
            deviation: 0,
        }
    }

    /// One took so many ticks.
    pub fn note(&mut self, ticks: u64)
        ensures { self.new ≡ trip_with self.old ticks }
    {
        let time = ticks.min(LONGEST);
        let mean = whole_mean(self.mean);
        let distance = time.saturating_sub(mean).max(mean.saturating_sub(time));
        self.mean = self.mean - mean + time;
        self.deviation = self.deviation - (self.deviation + 3) / 4 + distance;
    }

    /// After how many ticks a message is late.
    pub fn late(&self) -> u64
        ensures { result ≡ late_after self.now }
    {
        whole_mean(self.mean) + self.deviation.max(LATE)
    }
}

/// How many microseconds it took a site to acknowledge a message, and how many it takes the site at
/// least.
#[derive(Clone, Copy, Debug, PartialEq, Eq)]
pub struct Took {
    /// This time.
    pub micros: u64,
    /// At least, by what it took lately.
    pub least: u64,
}

/// The least time that acknowledgements took. Contracts see the `Times`.
#[derive(Drop)]
pub struct Least {
    // In this span, and in the one before.
    now: u64,
    before: u64,
    // How many acknowledgements there were in this span.
    count: u32,
}

impl Model for Least {
    ghost use Rattle.std.specs.Prelude.{◌≤◌};
    ghost use Rattle.cast_sending.specs.RoundTrips.{Times};

    ghost Value = { Times };

    ghost view = { λ l. record { now = l.now; before = l.before; count = l.count } };

    ghost invariant = { λ l. l.count ≤ 4096 };
}

impl Least {
    /// No acknowledgement came.
    pub fn new() -> Self
        ensures { result ≡ no_times }
    {
        Least {
            now: u64::MAX,
            before: u64::MAX,
            count: 0,
        }
    }

    /// One took so many microseconds.
    pub fn note(&mut self, micros: u64) -> Took
        ensures noted { self.new ≡ times_with self.old micros }
        ensures took { result ≡ record { micros = micros; least = least_of self.new } }
    {
        if self.count >= SPAN {
            self.before = self.now;
            self.now = micros;
            self.count = 0;
        }
        self.count += 1;
        self.now = self.now.min(micros);
        Took {
            micros,
            least: self.now.min(self.before),
        }
    }
}
