//! Two workers over one table.
ghost use Rattle.std.specs.Prelude.{◌≡◌, ◌<◌, IfOk, IfSome};

use crate::gate::{Counting, PATIENT, Place, Waits};
use crate::rows::{begun, cast_and_show, casts_and_takes, config, two_casts};
use cast_events::Taken;
use cast_message::Push;
use cast_pool::{
    Asked, Channels, Done, Kept, Outcome, Raw, Service, Worked, can_keep, decode, work,
};
use crossbeam_channel::{Receiver, Sender};
use std::alloc::Global;
use std::marker::Brand;
use std::rt::Clock;
use std::sync::Wait;
use std::sync::atomic::AtomicU64;
use std::sync::ledger::{Blank, Ledger};
use std::test::Fail;
use std::thread;
use std::thread::Threads;

// Serves one after another.
fn serve_all<L: Ledger>(alloc: Global, kept: &mut Kept<L>, mine: &mut Worked<L>, all: Vec<Asked>)
    requires { 0 < mine.old.parts }
    ensures { mine.new.parts ≡ mine.old.parts }
{
    for asked in all {
        if let Ok(job) = decode(alloc, Raw { number: 0, asked }) {
            drop(kept.serve_one(mine, job));
        }
    }
}

// The table before its first event, and the whole share of its count, which one worker can split
// once.
fn new<L: Ledger>(alloc: Global, blank: Blank) -> Result<(Kept<L>, Worked<L>), Fail>
    requires name { blank.name ≡ L.name }
    requires parts { (blank.parts ≡ L.parts) × (blank.parts ≡ 2) }
    ensures { IfOk result (λ r. r.1.parts ≡ 2) }
{
    let config = config(alloc)?;
    if !can_keep(&config) {
        return Err(Fail::new("no such table"));
    }
    Ok(Kept::<L>::new(alloc, &config, blank, 2)?)
}

// The ends of the channels that the workers take, and that at which what comes of the work is
// taken.
#[derive(Drop)]
struct Ends {
    queue: Receiver<Raw>,
    answers: Sender<Done>,
    answered: Receiver<Done>,
}

// Them, and where the work is asked.
fn ends_of(alloc: Global) -> Result<(Sender<Raw>, Ends), Fail> {
    let (jobs, queue) = crossbeam_channel::unbounded::<Raw, Global>(alloc)?;
    let (answers, answered) = crossbeam_channel::unbounded::<Done, Global>(alloc)?;
    Ok((
        jobs,
        Ends {
            queue,
            answers,
            answered,
        },
    ))
}

// Asks for all of this, and then for no more.
fn ask_all<R: Wait>(rt: &R, jobs: Sender<Raw>, asked: Vec<Raw>) {
    for raw in asked {
        let _ = jobs.send(rt, raw);
    }
}

// The ends that a worker has.
fn counting<'a, R>(
    rt: &'a R,
    from: Receiver<Raw>,
    to: Sender<Done>,
    sent: &'a AtomicU64,
) -> Counting<'a, R> {
    Counting {
        channels: Channels { rt, from, to },
        sent,
    }
}

// Two workers serve what was asked, and answer their shares, joined.
fn work_both<L: Ledger + Send + Sync, R: Threads + Wait + Sync, S: Service<L> + Sync>(
    rt: &R,
    alloc: Global,
    service: &S,
    mine: Worked<L>,
    queue: Receiver<Raw>,
    answers: Sender<Done>,
    sent: &AtomicU64,
) -> Option<Worked<L>>
    requires { mine.parts ≡ 2 }
    ensures { IfSome result (λ all. all.parts ≡ 2) }
{
    let mut one = mine;
    let two = one.split();
    let also_queue = queue.clone().ok()?;
    let also_answers = answers.clone().ok()?;
    let (one, two) = thread::join(
        rt,
        move || -> Worked<L>
            requires { one.parts ≡ 1 }
            ensures { result.parts ≡ 1 }
        {
            let mut post = counting(rt, queue, answers, sent);
            work(rt, alloc, service, one, true, &mut post)
        },
        move || -> Worked<L>
            requires { two.parts ≡ 1 }
            ensures { result.parts ≡ 1 }
        {
            let mut post = counting(rt, also_queue, also_answers, sent);
            work(rt, alloc, service, two, true, &mut post)
        },
    );
    one.join(two).ok()
}

// What came of what was asked, as it came.
fn gathered<R: Wait>(rt: &R, alloc: Global, answered: Receiver<Done>) -> Result<Vec<Done>, Fail> {
    let mut dones = Vec::new(alloc);
    for done in answered.iter(rt) {
        dones.push(done)?;
    }
    Ok(dones)
}

// What the workers came to.
#[derive(Drop)]
struct Ran {
    // What came of what was asked, as it came.
    dones: Vec<Done>,
    // How many events were taken, as the shares say, the table, and both.
    counts: [u64; 3],
    // How many of them the trace has.
    trace_len: usize,
    // Nobody waited in vain.
    was_passed: bool,
}

fn counted<L: Ledger>(kept: &mut Kept<L>, all: Worked<L>) -> [u64; 3]
    requires { all.parts ≡ L.parts }
{
    let taken = all.event_count();
    let events = kept.events();
    [taken, events, kept.total(all)]
}

// Two workers serve what was asked of a table that has served the first, and wait at this place.
fn run<L: Ledger + Send + Sync, R: Threads + Wait + Clock + Sync>(
    rt: &R,
    alloc: Global,
    blank: Blank,
    first: Vec<Asked>,
    asked: Vec<Raw>,
    place: Place,
) -> Result<Ran, Fail>
    requires name { blank.name ≡ L.name }
    requires parts { (blank.parts ≡ L.parts) × (blank.parts ≡ 2) }
{
    let (jobs, ends) = ends_of(alloc)?;
    ask_all(rt, jobs, asked);
    let Ends {
        queue,
        answers,
        answered,
    } = ends;
    let (mut kept, mut mine) = new::<L>(alloc, blank)?;
    serve_all(alloc, &mut kept, &mut mine, first);
    let sent = AtomicU64::new(0);
    let service = Waits::new(rt, kept, place, &sent);
    let worked = work_both(rt, alloc, &service, mine, queue, answers, &sent);
    let all = worked.ok_or("the workers ended")?;
    let dones = gathered(rt, alloc, answered)?;
    let (mut kept, was_passed) = service.end();
    let trace_len = kept.trace_len();
    let counts = counted(&mut kept, all);
    Ok(Ran {
        dones,
        counts,
        trace_len,
        was_passed,
    })
}

// Whether these are the numbers of what was asked, in this order.
fn are_numbered(dones: &[Done], numbers: &[u64]) -> bool {
    dones
        .iter()
        .map(|done| done.number())
        .eq(numbers.iter().copied())
}

// Whether of two casts the second is done while the worker of the first waits, within its turns.
fn passes<R: Threads + Wait + Clock + Sync>(
    rt: &R,
    alloc: Global,
    is_served: bool,
) -> Result<bool, Fail> {
    let (first, asked) = (begun(alloc, 0)?, two_casts(alloc)?);
    let place = Place {
        is_served,
        awaited: 1,
    };
    let ran = run::<Brand, _>(rt, alloc, Blank::new(2), first, asked, place)?;
    Ok(ran.was_passed && are_numbered(&ran.dones, &[2, PATIENT]) && ran.counts == [14; 3])
}

#[test]
fn decodes_outside_the_lock(rt: HostRuntime) -> Result<(), Fail> {
    assert!(rt; passes(&rt, rt.alloc(), false)?);
    Ok(())
}

#[test]
fn sends_outside_the_lock(rt: HostRuntime) -> Result<(), Fail> {
    assert!(rt; passes(&rt, rt.alloc(), true)?);
    Ok(())
}

// Whether one of these tells of so many casts.
fn tells_of(dones: &[Done], casts: u64) -> bool {
    dones.iter().any(|done| match done.outcome() {
        Outcome::Shown(Some(shown)) => shown.casts == casts,
        _ => false,
    })
}

// Whether a cast is shown that is done.
fn is_shown<R: Threads + Wait + Clock + Sync>(rt: &R, alloc: Global) -> Result<bool, Fail> {
    let (first, asked) = (begun(alloc, 0)?, cast_and_show(alloc)?);
    let place = Place {
        is_served: false,
        awaited: 1,
    };
    let ran = run::<Brand, _>(rt, alloc, Blank::new(2), first, asked, place)?;
    let is_counted = ran.counts == [13; 3];
    Ok(is_counted && are_numbered(&ran.dones, &[1, PATIENT]) && tells_of(&ran.dones, 1))
}

#[test]
fn a_cast_is_shown_once_it_is_done(rt: HostRuntime) -> Result<(), Fail> {
    assert!(rt; is_shown(&rt, rt.alloc())?);
    Ok(())
}

// Adds the tags of the replies that say that a request is done.
fn add_tags(tags: &mut Vec<u64>, entries: &[Push]) -> Result<(), Fail> {
    for entry in entries {
        if let Push::Reply { tag, refusal: None } = entry {
            tags.push(u64::from(*tag))?;
        }
    }
    Ok(())
}

// Those that a program was pushed which was taken under this number, in order.
fn tags_of(alloc: Global, dones: &[Done], number: u64) -> Result<Vec<u64>, Fail> {
    let mut tags = Vec::new(alloc);
    for done in dones {
        if done.number() == number
            && let Outcome::Answered(Ok(Taken::Entries(entries)), _) = done.outcome()
        {
            add_tags(&mut tags, entries.as_slice())?;
        }
    }
    tags.sort()?;
    Ok(tags)
}

// Whether these are 7 and the numbers from one on, up to another, each once.
fn has_seven_and(numbers: &[u64], from: u64, to: u64) -> bool {
    match numbers.split_first() {
        Some((7, rest)) => rest.iter().copied().eq(from..to),
        _ => false,
    }
}

// Whether each of 200 casts was answered once, and two Takes after them.
fn are_answered(alloc: Global, dones: &[Done]) -> Result<bool, Fail> {
    let mut numbers = Vec::new(alloc);
    for done in dones {
        numbers.push(done.number())?;
    }
    numbers.sort()?;
    let casts = numbers.iter().copied().take(200);
    let rest = numbers.get(200..).unwrap_or(&[]);
    Ok(casts.eq(101..301) && rest == [PATIENT + 1, PATIENT + 2].as_slice())
}

// Whether each cast has one reply, beside that of the join, tagged 7.
fn are_replied(alloc: Global, dones: &[Done]) -> Result<bool, Fail> {
    let first = tags_of(alloc, dones, PATIENT + 1)?;
    let second = tags_of(alloc, dones, PATIENT + 2)?;
    Ok(has_seven_and(&first, 101, 201) && has_seven_and(&second, 201, 301))
}

// Whether 200 casts and the Takes after them are done once each and counted, where the trace is
// trimmed meanwhile.
fn counts_once<R: Threads + Wait + Clock + Sync>(rt: &R, alloc: Global) -> Result<bool, Fail> {
    let (first, asked) = (begun(alloc, 3_900)?, casts_and_takes(alloc)?);
    let place = Place {
        is_served: false,
        awaited: 200,
    };
    let ran = run::<Brand, _>(rt, alloc, Blank::new(2), first, asked, place)?;
    let is_trimmed = ran.counts == [4_114; 3] && ran.trace_len == 18;
    Ok(is_trimmed && are_answered(alloc, &ran.dones)? && are_replied(alloc, &ran.dones)?)
}

#[test]
fn each_job_counts_once(rt: HostRuntime) -> Result<(), Fail> {
    assert!(rt; counts_once(&rt, rt.alloc())?);
    Ok(())
}
