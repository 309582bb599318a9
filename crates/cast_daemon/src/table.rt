//! The table behind its lock.
ghost use Rattle.std.specs.Prelude.{◌≡◌, ◌<◌, IfSome, IfOk, IfErr, OnErr};
ghost use Rattle.std.specs.Option.{is_none};
ghost use Rattle.cast_pool.specs.Kept.{events_of};
ghost use Rattle.cast_daemon.specs.Trimming.{CompletesHere};

use crate::lanes::Lanes;
use crate::share::{CountShare, SpareCount};
use crate::trimmer::{Trimmer, payload_len};
use cast_console::{Answer, Line, LineFault, answer, parse};
use cast_events::{Asked, Event, Fault, Outs, Raw, Told};
use cast_pool::{Channels, Done, Job, Kept, Outcome, Service, Task, Worked, decode, work};
use cast_sending::{Heard, heard_in};
use cast_shared::{Came, Instruction, Pace, Reply, Served, SharedTable, Wakings, Wanted};
use cast_types::{DomainNo, SiteNo};
use crossbeam_channel::{Receiver, Sender};
use std::alloc::Global;
use std::sync::ledger::Ledger;
use std::sync::{Mutex, MutexGuard, Wait};

/// The table of a daemon behind its lock, with the lanes of its domains, the part of the count that
/// no thread has, and what trims the trace.
#[derive(Drop)]
pub struct LockedTable<'a, L: Ledger> {
    alloc: Global,
    kept: Mutex<Kept<L>>,
    lanes: Lanes,
    spare: Mutex<Option<SpareCount<L>>>,
    trimmer: Trimmer<'a>,
}

// The domain that a job concerns, if it is one alone.
fn domain_of(job: &Job) -> Option<DomainNo> {
    match job.task() {
        Task::Serve(event) => event.domain(),
        Task::Show(domain) => Some(*domain),
    }
}

// Does a job. Then events leave the trace, if it is time.
fn complete<L: Ledger, R: Wait>(
    rt: &R,
    trimmer: &Trimmer<'_>,
    kept: &mut Kept<L>,
    mine: &mut Worked<L>,
    job: Job,
    may_trim: bool,
) -> Done
    requires { 0 < mine.old.parts }
    ensures number { result.number ≡ job.number }
    ensures done { CompletesHere job.task may_trim result.outcome kept.old kept.new mine.old.taken
        mine.new.taken }
    ensures parts { mine.new.parts ≡ mine.old.parts }
{
    let len = payload_len(&job);
    let done = kept.complete(mine, job, may_trim);
    trimmer.served(rt, kept, len);
    done
}

// Does the job of a thread that has this share. A trace that is recorded is cut, and not trimmed,
// so that none of its events is lost.
fn serve<L: Ledger, R: Wait>(
    rt: &R,
    trimmer: &Trimmer<'_>,
    kept: &mut Kept<L>,
    share: &mut CountShare<L>,
    job: Job,
) -> Done
    ensures number { result.number ≡ job.number }
    ensures done { CompletesHere job.task (is_none trimmer.now.tape) result.outcome kept.old
        kept.new share.old.worked.taken share.new.worked.taken }
{
    complete(
        rt,
        trimmer,
        kept,
        &mut share.worked,
        job,
        trimmer.may_lose(),
    )
}

// The place of the pace of a domain, else how many paces there are.
fn pace_of(paces: &[Pace], domain: Option<DomainNo>) -> usize {
    for index in 0..paces.len() {
        if Some(paces[index].domain) == domain {
            return index;
        }
    }
    paces.len()
}

// Does a job, and answers what a pace tells of it.
fn serve_and_look<L: Ledger, R: Wait>(
    rt: &R,
    trimmer: &Trimmer<'_>,
    kept: &mut Kept<L>,
    share: &mut CountShare<L>,
    job: Job,
    paces: &[Pace],
) -> (Done, usize, bool)
    ensures number { result.0.number ≡ job.number }
    ensures done { CompletesHere job.task (is_none trimmer.now.tape) result.0.outcome kept.old
        kept.new share.old.worked.taken share.new.worked.taken }
{
    let place = pace_of(paces, domain_of(&job));
    let Some(pace) = paces.get(place) else {
        let done = serve(rt, trimmer, kept, share, job);
        return (done, paces.len(), false);
    };
    let before = kept.table().backlog(pace.domain);
    let done = serve(rt, trimmer, kept, share, job);
    let (Some(before), Some(after)) = (before, kept.table().backlog(pace.domain)) else {
        return (done, paces.len(), false);
    };
    let due = if pace.is_due(after) {
        place
    } else {
        paces.len()
    };
    (done, due, pace.is_crowded(before, after))
}

// Does the job of a cast, unless its program has to wait: then the job comes back.
fn cast_and_look<L: Ledger, R: Wait>(
    rt: &R,
    trimmer: &Trimmer<'_>,
    kept: &mut Kept<L>,
    share: &mut CountShare<L>,
    job: Job,
    pace: &Pace,
    asks: Option<Wanted>,
) -> Result<Done, (Job, Wakings)>
    ensures number { IfOk result (λ done. done.number ≡ job.number) }
    ensures done { IfOk result (λ done. CompletesHere job.task (is_none trimmer.now.tape)
        done.outcome kept.old kept.new share.old.worked.taken share.new.worked.taken) }
    ensures back { IfErr result (λ back. back.0 ≡ job) }
    ensures same { OnErr result ((kept.new ≡ kept.old) × (share.new ≡ share.old)) }
{
    let before = kept.table().backlog(pace.domain);
    if let (Some(backlog), Some(wanted)) = (before, asks)
        && let Some(wakings) = pace.must_wait(rt, backlog, wanted)
    {
        return Err((job, wakings));
    }
    let done = serve(rt, trimmer, kept, share, job);
    if let (Some(before), Some(after)) = (before, kept.table().backlog(pace.domain)) {
        pace.note(rt, before, after);
    }
    Ok(done)
}

// What a line asks of the threads.
fn instruction_of<L: Ledger>(kept: &Kept<L>, line: &str) -> Option<Instruction> {
    match parse(line) {
        Ok(Line::Stop) => Some(Instruction::Stop),
        Ok(Line::Keys) => Some(Instruction::Keys),
        Ok(Line::Retire(domain)) if kept.table().show(domain).is_some() => {
            Some(Instruction::Retire(domain))
        }
        Ok(_) | Err(_) => None,
    }
}

// Answers a line, and cuts the trace as `serve` does.
fn answer_line<L: Ledger, R: Wait>(
    rt: &R,
    alloc: Global,
    trimmer: &Trimmer<'_>,
    kept: &mut Kept<L>,
    share: &mut CountShare<L>,
    told: &Told,
    line: &str,
) -> Reply<Done> {
    let Answer { text, done } = answer(alloc, kept, &mut share.worked, told, line);
    if let Some(done) = &done {
        trimmer.let_go(kept, done);
    }
    trimmer.cut_many(rt, kept);
    Reply {
        text,
        done,
        instruction: instruction_of(kept, line),
    }
}

// The answer to a line that is not UTF-8.
fn unread_line(alloc: Global) -> Reply<Done> {
    let fault = LineFault::UnknownWord;
    Reply {
        text: format!(in alloc; "{fault}"),
        done: None,
        instruction: None,
    }
}

// The answer of a job, and what came of its event.
fn came_of(alloc: Global, done: Done) -> Came {
    let (_, outcome) = done.parts();
    match outcome {
        Outcome::Answered(answer, outs) => (answer, outs),
        Outcome::Shown(_) | Outcome::Undecoded(_) => (Err(Fault::NoMemory), Outs::new(alloc)),
    }
}

impl<'a, L: Ledger> LockedTable<'a, L> {
    /// A table with the whole count, of which no thread has a share yet, the lanes of its domains,
    /// and what trims its trace.
    pub fn new(
        alloc: Global,
        kept: Kept<L>,
        lanes: Lanes,
        spare: SpareCount<L>,
        trimmer: Trimmer<'a>,
    ) -> Self {
        LockedTable {
            alloc,
            kept: Mutex::new(kept),
            lanes,
            spare: Mutex::new(Some(spare)),
            trimmer,
        }
    }

    /// The table, which nobody serves any more, and how many events it took, as the threads counted
    /// them: the count has so many parts. `None` if a thread did not give its share of it back.
    pub fn end(self, parts: u64) -> Option<(Kept<L>, u64)>
        requires { parts ≡ L.parts }
        ensures { IfSome result (λ r. r.1 ≡ events_of r.0) }
    {
        let LockedTable {
            alloc: _,
            kept,
            lanes: _,
            spare,
            trimmer: _,
        } = self;
        let mut kept = kept.into_inner();
        let all = spare.into_inner()?.whole(parts)?;
        let count = kept.total(all);
        Some((kept, count))
    }
}

impl<L: Ledger> LockedTable<'_, L> {
    // Locks the table. Of all threads that want to, one waits at its lock.
    fn lock<R: Wait>(&self, rt: &R) -> MutexGuard<'_, Kept<L>> {
        let _next = self.lanes.be_next(rt);
        self.kept.lock(rt)
    }
}

impl<L: Ledger> Service<L> for LockedTable<'_, L> {
    fn complete<R: Wait>(&self, rt: &R, mine: &mut Worked<L>, job: Job, may_trim: bool) -> Done {
        let _lane = self.lanes.enter(rt, domain_of(&job));
        let mut kept = self.lock(rt);
        complete(rt, &self.trimmer, &mut kept, mine, job, may_trim)
    }
}

impl<L: Ledger + Send + Sync> SharedTable for LockedTable<'_, L> {
    type Share = CountShare<L>;

    type Job = Job;

    type Done = Done;

    fn share<R: Wait>(&self, rt: &R) -> Option<CountShare<L>> {
        match &mut *self.spare.lock(rt) {
            Some(spare) => spare.share(),
            None => None,
        }
    }

    fn give_back<R: Wait>(&self, rt: &R, share: CountShare<L>) {
        let mut spare = self.spare.lock(rt);
        if let Some(mine) = spare.take() {
            *spare = Some(mine.with(share));
        }
    }

    fn job(&self, asked: Asked) -> Option<Job> {
        decode(self.alloc, Raw { number: 0, asked }).ok()
    }

    fn sender(&self, job: &Job) -> Option<SiteNo> {
        match job.task() {
            Task::Serve(Event::Frame(_, site, _)) => Some(*site),
            Task::Serve(_) | Task::Show(_) => None,
        }
    }

    fn heard(&self, job: &Job) -> Option<Heard> {
        match job.task() {
            Task::Serve(event) => heard_in(event),
            Task::Show(_) => None,
        }
    }

    fn serve<R: Wait>(
        &self,
        rt: &R,
        share: &mut CountShare<L>,
        job: Job,
        paces: &[Pace],
    ) -> Served {
        let (done, due, is_crowded) = {
            let _lane = self.lanes.enter(rt, domain_of(&job));
            let mut kept = self.lock(rt);
            serve_and_look(rt, &self.trimmer, &mut kept, share, job, paces)
        };
        Served {
            came: came_of(self.alloc, done),
            due,
            is_crowded,
        }
    }

    fn serve_both<R: Wait>(
        &self,
        rt: &R,
        share: &mut CountShare<L>,
        job: Job,
        then: Job,
        paces: &[Pace],
    ) -> (Came, Served) {
        let (first, second) = {
            let _lane = self.lanes.enter(rt, domain_of(&job));
            let mut kept = self.lock(rt);
            let first = serve(rt, &self.trimmer, &mut kept, share, job);
            let second = serve_and_look(rt, &self.trimmer, &mut kept, share, then, paces);
            (first, second)
        };
        let (second, due, is_crowded) = second;
        let served = Served {
            came: came_of(self.alloc, second),
            due,
            is_crowded,
        };
        (came_of(self.alloc, first), served)
    }

    fn cast<R: Wait>(
        &self,
        rt: &R,
        share: &mut CountShare<L>,
        job: Job,
        pace: &Pace,
        asks: Option<Wanted>,
    ) -> Result<Came, (Job, Wakings)> {
        let served = {
            let _lane = self.lanes.enter(rt, domain_of(&job));
            let mut kept = self.lock(rt);
            cast_and_look(rt, &self.trimmer, &mut kept, share, job, pace, asks)
        };
        match served {
            Ok(done) => Ok(came_of(self.alloc, done)),
            Err(back) => Err(back),
        }
    }

    fn work<R: Wait>(
        &self,
        rt: &R,
        share: CountShare<L>,
        asked: Receiver<Raw>,
        dones: Sender<Done>,
    ) {
        let CountShare { worked } = share;
        let mut post = Channels {
            rt,
            from: asked,
            to: dones,
        };
        let may_trim = self.trimmer.may_lose();
        let worked = work(rt, self.alloc, self, worked, may_trim, &mut post);
        self.give_back(rt, CountShare::new(worked));
    }

    fn answer<R: Wait>(
        &self,
        rt: &R,
        share: &mut CountShare<L>,
        told: &Told,
        line: Option<&str>,
    ) -> Reply<Done> {
        let Some(line) = line else {
            return unread_line(self.alloc);
        };
        let mut kept = self.lock(rt);
        answer_line(rt, self.alloc, &self.trimmer, &mut kept, share, told, line)
    }

    fn parts(&self, done: Done) -> (u64, Option<Came>) {
        let (number, outcome) = done.parts();
        match outcome {
            Outcome::Answered(answer, outs) => (number, Some((answer, outs))),
            Outcome::Shown(_) | Outcome::Undecoded(_) => (number, None),
        }
    }

    fn trim<R: Wait>(&self, rt: &R) {
        self.trimmer.trim(rt, &mut self.lock(rt));
    }
}
