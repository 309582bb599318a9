//! A worker: it takes what is asked, and decodes and sends outside the lock.
ghost use Rattle.std.specs.Prelude.{◌≡◌, ◌<◌};
ghost use Rattle.cast_pool.specs.Posts.{HasAnswered};
ghost use Rattle.cast_pool.specs.Served.{IsAnswered, IsCompleted};

use crate::kept::{Done, Job, Worked, decode};
use crate::post::Post;
use cast_events::Raw;
use std::alloc::Global;
use std::sync::Wait;
use std::sync::ledger::Ledger;

/// A table behind a lock, as threads do jobs with it. Whoever knows no more of it can neither trim
/// its trace nor cut events off it.
pub trait Service<L: Ledger> {
    /// Does a job under the lock, as `Kept::complete` does.
    fn complete<R: Wait>(&self, rt: &R, mine: &mut Worked<L>, job: Job, may_trim: bool) -> Done
        requires { 0 < mine.old.parts }
        ensures number { result.number ≡ job.number }
        ensures done { IsCompleted job.task may_trim result.outcome mine.old.taken mine.new.taken }
        ensures parts { mine.new.parts ≡ mine.old.parts };
}

/// Does what is asked until nothing more can be, sends what came of each, and gives the worker's
/// share of the count back. The table is told whether it may trim the trace after a job that halted
/// a domain.
pub fn work<L: Ledger, R: Wait, P: Post, S: Service<L>>(
    rt: &R,
    alloc: Global,
    service: &S,
    mine: Worked<L>,
    may_trim: bool,
    post: &mut P,
) -> Worked<L>
    requires { 0 < mine.parts }
    ensures parts { result.parts ≡ mine.parts }
    // For each that was taken one was sent, in the same order: what came of it, under its number.
    ensures answered { HasAnswered may_trim (P.taken post.old) (P.taken post.new) (P.sent post.old)
        (P.sent post.new) }
    ensures over { P.is_over post.new }
{
    let mut mine = mine;
    for _ in rt.forever() {
        let Some(raw) = post.take() else {
            break;
        };
        post.send(answer(rt, alloc, service, &mut mine, raw, may_trim));
    }
    mine
}

// Does what is asked, and gives what came of it.
fn answer<L: Ledger, R: Wait, S: Service<L>>(
    rt: &R,
    alloc: Global,
    service: &S,
    mine: &mut Worked<L>,
    raw: Raw,
    may_trim: bool,
) -> Done
    requires { 0 < mine.old.parts }
    ensures number { result.number ≡ raw.number }
    ensures answered { IsAnswered raw.asked may_trim result.outcome mine.old.taken mine.new.taken }
    ensures parts { mine.new.parts ≡ mine.old.parts }
{
    match decode(alloc, raw) {
        Ok(job) => service.complete(rt, mine, job, may_trim),
        Err(done) => done,
    }
}
