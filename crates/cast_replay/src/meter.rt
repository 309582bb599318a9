//! How far a replay is, shown on a terminal.
use cast_isolation::Watch;
use std::fs;
use std::io::Write;
use std::rt::{Clock, Files};
use std::time::Instant;

// The time is looked at after so many events.
const EVENTS: u64 = 256;

// After so many milliseconds the line is written again.
const PAUSE: u64 = 200;

// So many bytes are a megabyte.
const MEGABYTE: u64 = 1_000_000;

/// Shows how far a replay is, in one line that is written again and again: how many bytes were read
/// and how many events applied, and how many of these in a second.
#[derive(Drop)]
pub struct Meter<'a, R, T> {
    clock: &'a R,
    // Nothing is shown if there is nothing to show it on.
    terminal: Option<T>,
    bytes: u64,
    events: u64,
    applied: u64,
    start: Option<Instant>,
    // When the line was written last, in milliseconds from the start. 0 if it was not.
    shown: u64,
}

impl<'a, R: Clock, T: Write> Meter<'a, R, T> {
    /// Nothing was read yet.
    pub fn new(clock: &'a R, terminal: Option<T>) -> Self {
        Meter {
            clock,
            terminal,
            bytes: 0,
            events: 0,
            applied: 0,
            start: None,
            shown: 0,
        }
    }

    /// So many bytes were read.
    pub fn read(&mut self, bytes: usize) {
        self.bytes = self.bytes.saturating_add(bytes as u64);
        let megabytes = self.bytes / MEGABYTE;
        if let Some(terminal) = &mut self.terminal {
            let _ = write!(terminal, "\rcastd: {megabytes} MB");
            let _ = terminal.flush();
            self.shown = self.shown.max(1);
        }
    }

    // How many milliseconds went by since the first event.
    fn millis(&mut self) -> u64 {
        if self.start.is_none() {
            self.start = Instant::now(self.clock).ok();
        }
        let Some(start) = &self.start else {
            return 0;
        };
        match start.elapsed(self.clock) {
            Ok(elapsed) => u64::try_from(elapsed.as_millis()).unwrap_or(u64::MAX),
            Err(_) => 0,
        }
    }

    // Writes the line, so many milliseconds after the first event.
    fn show(&mut self, millis: u64) {
        let megabytes = self.bytes / MEGABYTE;
        let events = self.events;
        let applied = self.applied;
        let rate = applied.saturating_mul(1_000) / millis.max(1);
        if let Some(terminal) = &mut self.terminal {
            let _ = write!(
                terminal,
                "\rcastd: {megabytes} MB, {applied} of {events} events, {rate} events a second"
            );
            let _ = terminal.flush();
        }
        self.shown = millis.max(1);
    }

    /// Ends the line, if there is one.
    pub fn end(&mut self) {
        if self.shown == 0 {
            return;
        }
        if let Some(terminal) = &mut self.terminal {
            let _ = writeln!(terminal);
        }
        self.shown = 0;
    }
}

impl<R: Clock, T: Write> Watch for Meter<'_, R, T> {
    fn begin(&mut self, events: usize) {
        self.events = events as u64;
        self.applied = 0;
    }

    fn applied(&mut self) {
        self.applied = self.applied.saturating_add(1);
        if self.terminal.is_none() {
            return;
        }
        if self.applied == self.events {
            let millis = self.millis();
            self.show(millis);
            self.end();
        } else if self.applied % EVENTS == 1 {
            let millis = self.millis();
            if millis >= self.shown.saturating_add(PAUSE) {
                self.show(millis);
            }
        }
    }
}

/// Whether the standard error of the program is a terminal, as far as the system tells by its name.
pub fn is_on_terminal<R: Files + AllocGlobal>(rt: &R) -> bool {
    match fs::read_link(rt, "/proc/self/fd/2") {
        Ok(path) => {
            let name = path.as_str();
            name.starts_with("/dev/pts/") || name.starts_with("/dev/tty")
        }
        Err(_) => false,
    }
}
