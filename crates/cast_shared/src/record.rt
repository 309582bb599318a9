//! The record of a daemon: each event that it served, in order, as a script that replays.
ghost use Rattle.std.specs.Prelude.{◌≡◌, []};

use crate::shared::Shared;
use crate::table::SharedTable;
use cast_edge::Report;
use cast_events::{Config, Entry, Event, Recording};
use cast_message::{Body, Command, Request, SiteFrame};
use cast_print::{add_event, add_head};
use cast_types::NoMemory;
use std::alloc::Global;
use std::io::Write;
use std::rt::Clock;
use std::sync::atomic::{AtomicU64, Ordering};
use std::sync::{Mutex, Wait};
use std::time::Duration;
use std::{io, mem, thread};

/// From so many events on, a thread that served one cuts them off the trace. At 4,096 it would be
/// trimmed, and they were lost: the difference is for what other threads serve meanwhile.
pub const CUT: usize = 3_840;

// So many bytes at most wait to be written. What finds no room is lost, and the record says so.
const MOST_WAITING: usize = 134_217_728;

// So many bytes are reckoned for an event, beside its payload.
const EVENT: usize = 2_048;

// A text of so many bytes is written before more is added to it.
const PIECE: usize = 65_536;

// So many vectors are kept at most for the events that come.
const ROOMS: usize = 4;

// So many milliseconds the recorder waits if nothing is to be written.
const PAUSE: u64 = 10;

// After so many waits it cuts what is in the trace, so that no event is unwritten for much longer
// than half a second.
const WAITS_TO_CUT: u32 = 50;

// Events that were cut off the trace, and how many events there were before them.
#[derive(Drop)]
struct Piece {
    before: u64,
    entries: Vec<Entry>,
}

// How many bytes the payload of an event has.
fn payload_len(event: &Event) -> usize {
    match event {
        Event::Command {
            command: Command::Request(Request::Cast { payload, .. }),
            ..
        } => payload.len(),
        Event::Frame(_, _, SiteFrame::Data(message) | SiteFrame::Forward(message)) => {
            match &message.body {
                Body::Causal(payload) | Body::Atomic(payload) => payload.bytes().len(),
                Body::Order(_) => 0,
            }
        }
        _ => 0,
    }
}

impl Piece {
    // How many bytes it has.
    fn size(&self) -> usize {
        let mut size: usize = 0;
        for entry in self.entries.as_slice() {
            size = size
                .saturating_add(EVENT)
                .saturating_add(payload_len(&entry.event));
        }
        size
    }
}

// What was cut off the trace.
#[derive(Drop)]
struct Waiting {
    // What is to be written.
    pieces: Vec<Piece>,
    // What was written, and still has its memory.
    written: Vec<Piece>,
    // How many bytes all these have.
    size: usize,
    // Vectors without events, for the trace.
    rooms: Vec<Vec<Entry>>,
    // How many events were lost, since too much waited, or there was no memory.
    lost: u64,
    // Nothing is written any more.
    is_over: bool,
}

/// What was cut off the trace of a daemon that is recorded, and is to be written.
#[derive(Drop)]
pub struct Tape {
    alloc: Global,
    waiting: Mutex<Waiting>,
    // Not 0 if something that was written may have its memory.
    has_written: AtomicU64,
}

impl Tape {
    /// Nothing waits.
    pub fn new(alloc: Global) -> Self {
        Tape {
            alloc,
            waiting: Mutex::new(Waiting {
                pieces: Vec::new(alloc),
                written: Vec::new(alloc),
                size: 0,
                rooms: Vec::new(alloc),
                lost: 0,
                is_over: false,
            }),
            has_written: AtomicU64::new(0),
        }
    }

    /// Adds events that were cut off the trace, and how many there were before them. They are lost
    /// if too much waits, or there is no memory.
    pub fn add<R: Wait>(&self, rt: &R, before: u64, entries: Vec<Entry>) {
        let piece = Piece { before, entries };
        let more = piece.size();
        let events = piece.entries.len() as u64;
        let mut waiting = self.waiting.lock(rt);
        if waiting.is_over {
            return;
        }
        let size = waiting.size.saturating_add(more);
        if size > MOST_WAITING || waiting.pieces.push(piece).is_err() {
            waiting.lost = waiting.lost.saturating_add(events);
        } else {
            waiting.size = size;
        }
    }

    // Takes all pieces that are to be written, and how many events were lost so far.
    fn take<R: Wait>(&self, rt: &R) -> (Vec<Piece>, u64) {
        let mut waiting = self.waiting.lock(rt);
        let pieces = mem::replace(&mut waiting.pieces, Vec::new(self.alloc));
        (pieces, waiting.lost)
    }

    // Gives back pieces that were written.
    fn give_back<R: Wait>(&self, rt: &R, pieces: Vec<Piece>) {
        let mut waiting = self.waiting.lock(rt);
        for piece in pieces {
            let size = piece.size();
            if waiting.written.push(piece).is_err() {
                waiting.size = waiting.size.saturating_sub(size);
            }
        }
        self.has_written.store(1, Ordering::SeqCst);
    }

    // Notes that nothing is written any more.
    fn end<R: Wait>(&self, rt: &R) {
        self.waiting.lock(rt).is_over = true;
    }

    // A piece that was written.
    fn written<R: Wait>(&self, rt: &R) -> Option<Piece> {
        let mut waiting = self.waiting.lock(rt);
        let piece = waiting.written.pop();
        if waiting.written.is_empty() {
            self.has_written.store(0, Ordering::SeqCst);
        }
        piece
    }

    /// Gives the memory back of one piece that was written, if there is one, outside the table's
    /// lock. The threads that serve do this rather than the recorder: the memory was theirs, and a
    /// thread that frees memory of others waits for them and lets them wait.
    pub fn let_go<R: Wait>(&self, rt: &R) {
        if self.has_written.load(Ordering::SeqCst) == 0 {
            return;
        }
        let Some(piece) = self.written(rt) else {
            return;
        };
        let size = piece.size();
        let Piece { before: _, entries } = piece;
        let mut room = entries;
        room.clear();
        let mut waiting = self.waiting.lock(rt);
        waiting.size = waiting.size.saturating_sub(size);
        if waiting.rooms.len() < ROOMS {
            let _ = waiting.rooms.push(room);
        }
    }

    /// A vector without events, for those that come.
    pub fn room<R: Wait>(&self, rt: &R) -> Vec<Entry>
        ensures { result.items ≡ [] }
    {
        let kept = self.waiting.lock(rt).rooms.pop();
        match kept {
            Some(room) if room.is_empty() => room,
            _ => Vec::new(self.alloc),
        }
    }

    /// How far the record is.
    pub fn state<R: Wait>(&self, rt: &R) -> Recording {
        let waiting = self.waiting.lock(rt);
        if waiting.is_over {
            return Recording::Ended;
        }
        Recording::Running {
            waiting: waiting.size as u64,
            lost: waiting.lost,
        }
    }
}

/// Writes a record. It is written in whole lines, first those of the configuration.
#[derive(Drop)]
pub struct Record<K> {
    alloc: Global,
    to: K,
    // What is to be written next, and a line of it. They keep their room: a thread that takes
    // memory waits for others that do.
    text: String,
    line: String,
    // How many events were added to a text or lost, and how many had been when a text was written
    // last.
    events: u64,
    written: u64,
    // A write failed. Nothing more is written.
    is_over: bool,
    is_behind_told: bool,
}

impl<K: Write + Drop> Record<K> {
    /// Begins a record. Fails where its first lines cannot be written.
    pub fn begin(alloc: Global, to: K, config: &Config) -> io::Result<Self> {
        let mut to = to;
        let mut head = String::new(alloc);
        add_head(alloc, &mut head, config)?;
        to.write_all(head.as_bytes())?;
        Ok(Record {
            alloc,
            to,
            text: String::new(alloc),
            line: String::new(alloc),
            events: 0,
            written: 0,
            is_over: false,
            is_behind_told: false,
        })
    }

    // Adds the line of an event, and one for each domain that it halted.
    fn add(&mut self, entry: &Entry) -> Result<(), NoMemory> {
        add_event(self.alloc, &mut self.text, &mut self.line, &entry.event)?;
        for domain in entry.halted.as_slice() {
            let number = domain.0;
            writeln!(self.text, "# domain {number} halted")?;
        }
        self.events = self.events.saturating_add(1);
        Ok(())
    }

    // Begins a text for more events, which says how many there were before.
    fn begin_text(&mut self) -> Result<(), NoMemory> {
        let events = self.events;
        self.text.clear();
        writeln!(self.text, "# {events} events before")
    }

    // Writes the text.
    fn put(&mut self) -> io::Result<()> {
        self.to.write_all(self.text.as_bytes())?;
        self.written = self.events;
        Ok(())
    }

    // Writes the events of a piece, and before them how many were lost.
    fn write_piece(&mut self, piece: &Piece) -> io::Result<()> {
        self.begin_text()?;
        if piece.before > self.events {
            let lost = piece.before - self.events;
            writeln!(self.text, "# gap {lost} events")?;
            self.events = piece.before;
        }
        for entry in piece.entries.as_slice() {
            if self.text.len() >= PIECE {
                self.put()?;
                self.begin_text()?;
            }
            self.add(entry)?;
        }
        self.put()
    }

    // Writes pieces, and hands them back. Answers what the operator has to know of it.
    fn write<R: Wait>(
        &mut self,
        rt: &R,
        tape: &Tape,
        pieces: Vec<Piece>,
        lost: u64,
    ) -> Option<Report> {
        let report = self.write_each(pieces.as_slice(), lost);
        if self.is_over {
            tape.end(rt);
        }
        tape.give_back(rt, pieces);
        report
    }

    // Writes pieces.
    fn write_each(&mut self, pieces: &[Piece], lost: u64) -> Option<Report> {
        if self.is_over {
            return None;
        }
        for piece in pieces {
            if self.write_piece(piece).is_err() {
                self.is_over = true;
                return Some(Report::RecordEnded(self.written));
            }
        }
        if lost > 0 && !self.is_behind_told {
            self.is_behind_told = true;
            return Some(Report::RecordBehind);
        }
        None
    }

    /// Writes all that is left. Nobody serves any more. Answers what the operator has to know of
    /// it.
    pub fn end<T: SharedTable, R: Wait>(self, rt: &R, tape: &Tape, table: &T) -> Option<Report> {
        let mut record = self;
        table.trim(rt);
        let (pieces, lost) = tape.take(rt);
        record.write(rt, tape, pieces, lost)
    }
}

// Writes what is cut off the trace, and cuts it about twice a second, until the daemon stops.
fn write_on<T: SharedTable, R: Wait + Clock, K: Write + Drop>(
    rt: &R,
    shared: &Shared<'_, T>,
    record: &mut Record<K>,
) {
    let mut waits: u32 = 0;
    for _ in rt.forever() {
        if shared.is_stopping(rt) {
            break;
        }
        if waits >= WAITS_TO_CUT {
            waits = 0;
            shared.table.trim(rt);
        }
        let (pieces, lost) = shared.tape.take(rt);
        if pieces.is_empty() {
            waits = waits.saturating_add(1);
            shared.tape.let_go(rt);
            thread::sleep(rt, Duration::from_millis(PAUSE));
        } else if let Some(report) = record.write(rt, shared.tape, pieces, lost) {
            shared.report(rt, report);
        }
    }
}

/// Writes a record until the daemon stops. Then the record is left for what is served until the
/// last thread ends.
pub fn run_recorder<T: SharedTable, R: Wait + Clock, K: Write + Drop>(
    rt: &R,
    shared: &Shared<'_, T>,
    record: &Mutex<Option<Record<K>>>,
) {
    let mut mine = record.lock(rt).take();
    if let Some(record) = &mut mine {
        write_on(rt, shared, record);
    }
    *record.lock(rt) = mine;
}
