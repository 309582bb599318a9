//! The table with its trace, and the jobs. Nothing outside this module changes a kept table, or
//! makes a job or what comes of it.
ghost use Rattle.std.specs.Prelude.{◌≡◌, ◌+◌, ◌<◌, ◌≤◌, ◌^◌, [], true};
ghost use Rattle.std.specs.Prelude.{Ok, IfOk, OnOk, OnErr, IfErr, length};
ghost use Rattle.cast_table.specs.Owns.{are_distinct, have_rising_groups};
ghost use Rattle.cast_pool.specs.Kept.{IsLed, Seen, events_of};
ghost use Rattle.cast_pool.specs.Served.{Completes, IsDone, IsTrimmed, IsTrimmedIf, Serves, halts};
ghost use Rattle.cast_pool.specs.Tasks.{IsUndecoded, task_of};

use crate::configured::copy_config;
use crate::task::{Outcome, Task};
use cast_events::{Asked, Config, Entry, Event, Fault, Outs, Raw, Taken};
use cast_frame::decode_site;
use cast_table::Table;
use cast_trail::{Trail, fill, note_of};
use cast_types::{NoMemory, Refusal};
use std::alloc::Global;
use std::marker::Model;
use std::sync::ledger::{Blank, Book, Ledger, Share};

/// A job: what is to be done with the table, under the number that was asked. `decode` alone makes
/// one.
#[derive(Drop)]
pub struct Job {
    number: u64,
    task: Task,
}

/// What came of a job, or why bytes were none, under the number that was asked. `decode` and
/// `Kept::serve_one` alone make one.
#[derive(Drop)]
pub struct Done {
    number: u64,
    outcome: Outcome,
}

/// The table of a daemon, what the daemon was opened with, and the trace: the last of the events
/// that the table took, with the number of those before them. Contracts see a `Seen`. Whenever
/// nobody is changing it, there are events before the trace, as many as are counted, and they and
/// the trace lead from the opening to what the table stands for.
#[derive(Drop)]
pub struct Kept<L: Ledger> {
    alloc: Global,
    config: Config,
    table: Table,
    trail: Trail,
    book: Book<L>,
}

impl<L: Ledger> Model for Kept<L> {
    ghost use Rattle.std.specs.Prelude.{◌≡◌, ◌+◌, ◌<◌, ◌^◌, length};
    ghost use Rattle.cast_pool.specs.Kept.{IsLed, Seen, seen_of};

    ghost Value = { Seen };

    ghost view = { λ k. seen_of k.config k.trail.count k.trail.entries.items k.table };

    ghost invariant = { λ k. IsLed (seen_of k.config k.trail.count k.trail.entries.items k.table)
        × (k.trail.count + length k.trail.entries.items ≡ k.book.total)
        × (k.trail.count + length k.trail.entries.items < 2 ^ 64) };
}

/// A worker's share of the count: how many events it took.
#[derive(Drop)]
pub struct Worked<L: Ledger> {
    taken: u64,
    parts: u64,
    share: Share<L>,
    ghost amount_is: { share.amount ≡ taken },
    ghost parts_are: { share.parts ≡ parts },
}

/// What is to be done where this is asked. The bytes of a datagram are read as a frame; why they
/// are none is an answer already.
pub fn decode(alloc: Global, raw: Raw) -> Result<Job, Done>
    ensures job { IfOk result
        (λ job. (job.number ≡ raw.number) × (task_of raw.asked ≡ Ok job.task)) }
    ensures fault { IfErr result
        (λ done. (done.number ≡ raw.number) × IsUndecoded raw.asked done.outcome) }
{
    let Raw { number, asked } = raw;
    match asked {
        Asked::Event(event) => Ok(Job {
            number,
            task: Task::Serve(event),
        }),
        Asked::Show(domain) => Ok(Job {
            number,
            task: Task::Show(domain),
        }),
        Asked::Datagram(bytes) => match decode_site(alloc, bytes.as_slice()) {
            Ok((domain, from, frame)) => Ok(Job {
                number,
                task: Task::Serve(Event::Frame(domain, from, frame)),
            }),
            Err(fault) => Err(Done {
                number,
                outcome: Outcome::Undecoded(fault),
            }),
        },
    }
}

impl Job {
    /// The number that was asked.
    pub fn number(&self) -> u64
        ensures { result ≡ self.now.number }
    {
        self.number
    }

    /// What is to be done.
    pub fn task(&self) -> &Task
        ensures { result.now ≡ self.now.task }
    {
        &self.task
    }
}

impl Done {
    /// The number that was asked.
    pub fn number(&self) -> u64
        ensures { result ≡ self.now.number }
    {
        self.number
    }

    /// What came of it.
    pub fn outcome(&self) -> &Outcome
        ensures { result.now ≡ self.now.outcome }
    {
        &self.outcome
    }

    /// The number that was asked, and what came of it.
    pub fn parts(self) -> (u64, Outcome)
        ensures { result ≡ (self.number, self.outcome) }
    {
        let Done { number, outcome } = self;
        (number, outcome)
    }
}

impl<L: Ledger> Worked<L> {
    /// How many events it took.
    pub fn event_count(&self) -> u64
        ensures { result ≡ self.now.taken }
    {
        self.taken
    }

    /// A share for another worker, which took none yet, with one part of the ledger.
    pub fn split(&mut self) -> Worked<L>
        requires { 1 < self.old.parts }
        ensures new { (result.taken ≡ 0) × (result.parts ≡ 1) }
        ensures rest { (self.new.taken ≡ self.old.taken) × (self.new.parts + 1 ≡ self.old.parts) }
    {
        let Worked {
            taken: _,
            parts,
            share,
        } = self;
        let cut = share.split_off(1, 0);
        *parts -= 1;
        Worked {
            taken: 0,
            parts: 1,
            share: cut,
        }
    }

    /// Adds up two shares. Gives both back where their sum passes the greatest u64.
    pub fn join(self, other: Worked<L>) -> Result<Worked<L>, (Worked<L>, Worked<L>)>
        requires { self.parts + other.parts < 2 ^ 64 }
        ensures ok { IfOk result
            (λ w. (w.taken ≡ self.taken + other.taken) × (w.parts ≡ self.parts + other.parts)) }
        ensures err { IfErr result (λ p. (p.0 ≡ self) × (p.1 ≡ other)) }
        ensures past { OnErr result (2 ^ 64 ≤ self.taken + other.taken) }
    {
        if self.taken > u64::MAX - other.taken {
            return Err((self, other));
        }
        let Worked {
            taken,
            parts,
            mut share,
        } = self;
        let Worked {
            taken: also,
            parts: more,
            share: theirs,
        } = other;
        share.merge(theirs);
        Ok(Worked {
            taken: taken + also,
            parts: parts + more,
            share,
        })
    }
}

impl<L: Ledger> Kept<L> {
    ghost use Rattle.std.specs.List.{AllZip};
    ghost use Rattle.cast_table.specs.Tables.{IsNew, SharesNothing, by_number, domains_of};
    ghost use Rattle.cast_pool.specs.Kept.{is_due};

    /// A table before its first event, with an empty trace, and the whole share of its count, in so
    /// many parts.
    pub fn new(
        alloc: Global,
        config: &Config,
        blank: Blank,
        parts: u64,
    ) -> Result<(Kept<L>, Worked<L>), NoMemory>
        requires distinct { are_distinct config.now.domains ≡ true }
        requires rising { have_rising_groups config.now.domains ≡ true }
        requires name { blank.name ≡ L.name }
        requires parts { (blank.parts ≡ L.parts) × (blank.parts ≡ parts) }
        ensures domains { IfOk result (λ r.
            AllZip (IsNew config.now.site) (by_number config.now.domains) (domains_of r.0.table)) }
        ensures unshared { IfOk result (λ r. SharesNothing r.0.table) }
        ensures begins { IfOk result
            (λ r. (r.0.config ≡ config.now) × (r.0.trace ≡ []) × (r.0.count ≡ 0)) }
        ensures worked { IfOk result
            (λ r. (r.1.taken ≡ 0) × (r.1.parts ≡ parts) × (r.1.parts ≡ L.parts)) }
    {
        let config = copy_config(alloc, config)?;
        let table = Table::new(alloc, &config)?;
        let (book, share) = blank.open::<L>();
        let trail = Trail {
            entries: Vec::new(alloc),
            count: 0,
        };
        let kept = Kept {
            alloc,
            config,
            table,
            trail,
            book,
        };
        Ok((
            kept,
            Worked {
                taken: 0,
                parts,
                share,
            },
        ))
    }

    /// The table. The trace leads to it.
    pub fn table(&self) -> &Table
        ensures { result.now ≡ self.now.table }
    {
        &self.table
    }

    /// What holds of a kept table whenever it is got: from the opening of each domain, its own
    /// events lead to what it stands for in the table. Each is a step of a daemon that serves the
    /// domain alone. The trace has the last of these events, with the answers that such a daemon
    /// gives. Before them came as many as are counted.
    pub fn trace_leads(&self)
        ensures leads { IsLed self.now }
        ensures counted { events_of self.now < 2 ^ 64 }
    {
        let _ = &self.alloc;
    }

    /// How many events were taken.
    pub fn events(&self) -> u64
        ensures { result ≡ events_of self.now }
    {
        self.trail.count + self.trail.entries.len() as u64
    }

    /// How many of them are in the trace.
    pub fn trace_len(&self) -> usize
        ensures { result ≡ length self.now.trace }
    {
        self.trail.entries.len()
    }

    /// Does a job. An event is applied to the table, and one that was taken is added to the trace,
    /// which is trimmed first where it has 4,096 events. Room for all of this is made before: where
    /// there is none, and where no domain has the number, nothing is changed. The event after the
    /// last one that can be counted is refused.
    pub fn serve_one(&mut self, mine: &mut Worked<L>, job: Job) -> Done
        requires { 0 < mine.old.parts }
        ensures number { result.number ≡ job.number }
        ensures done { IsDone job.task result.outcome self.old self.new mine.old.taken
            mine.new.taken }
        ensures parts { mine.new.parts ≡ mine.old.parts }
    {
        let Job { number, task } = job;
        let outcome = match task {
            Task::Show(domain) => Outcome::Shown(self.table.show(domain)),
            Task::Serve(event) => self.serve(mine, event),
        };
        Done { number, outcome }
    }

    // Serves an event.
    fn serve(&mut self, mine: &mut Worked<L>, event: Event) -> Outcome
        requires { 0 < mine.old.parts }
        ensures done { IsDone (Task.Serve event)
            result self.old self.new mine.old.taken mine.new.taken }
        ensures parts { mine.new.parts ≡ mine.old.parts }
    {
        let mut outs = Outs::new(self.alloc);
        if self.events() == u64::MAX {
            return Outcome::Answered(Ok(Taken::Refused(Refusal::Halted)), outs);
        }
        let Ok(room) = self.trail.room(self.alloc, self.table.len()) else {
            return Outcome::Answered(Err(Fault::NoMemory), outs);
        };
        let answer = self.table.apply(&event, &mut outs);
        let Some(noted) = note_of(&answer) else {
            return Outcome::Answered(answer, outs);
        };
        let Worked {
            taken,
            parts: _,
            share,
        } = mine;
        self.book.audit(share);
        let halted = fill(room, outs.halted.as_slice());
        self.trail.add(Entry {
            event,
            answer: noted,
            halted,
        });
        self.book.add(share, 1);
        *taken += 1;
        Outcome::Answered(answer, outs)
    }

    /// The trace begins anew, and its events are counted. Takes no memory.
    pub fn trim(&mut self)
        ensures { IsTrimmed self.old self.new }
    {
        self.trail.trim();
    }

    /// As `trim`, and hands on the events that the trace had, in their order. The trace goes on in
    /// the room that is given for it.
    pub fn cut(&mut self, room: Vec<Entry>) -> Vec<Entry>
        requires { room.items ≡ [] }
        ensures trimmed { IsTrimmed self.old self.new }
        ensures entries { result.items ≡ self.old.trace }
    {
        self.trail.cut(room)
    }

    /// If the job halted a domain, trims the trace, since its events hold what that domain kept.
    pub fn let_go(&mut self, done: &Done)
        ensures { IsTrimmedIf (halts done.now.outcome) self.old self.new }
    {
        if done.outcome.halts() {
            self.trim();
        }
    }

    /// Does a job, as `serve_one` does. If `may_trim` is set and the job halted a domain, then lets
    /// go of what that domain kept, as `let_go` does. Whoever records the events cuts the trace
    /// instead: a trim would lose them.
    pub fn complete(&mut self, mine: &mut Worked<L>, job: Job, may_trim: bool) -> Done
        requires { 0 < mine.old.parts }
        ensures number { result.number ≡ job.number }
        ensures done { Completes job.task may_trim result.outcome self.old self.new mine.old.taken
            mine.new.taken }
        ensures parts { mine.new.parts ≡ mine.old.parts }
    {
        self.trace_leads();
        let done = self.serve_one(mine, job);
        if may_trim {
            self.let_go(&done);
        }
        done
    }

    /// How many events were taken, where all shares were joined into one: as many as their holders
    /// took.
    pub fn total(&mut self, all: Worked<L>) -> u64
        requires { all.parts ≡ L.parts }
        ensures taken { result ≡ all.taken }
        ensures count { result ≡ events_of self.new }
        ensures same { self.new ≡ self.old }
    {
        let Worked {
            taken,
            parts: _,
            mut share,
        } = all;
        self.book.audit(&mut share);
        taken
    }
}
