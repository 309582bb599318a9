//! A post that tells what was taken of it, and what it was sent.
ghost use Rattle.std.specs.Prelude.{◌≡◌, ◌<◌, [], true, Some};
ghost use Rattle.std.specs.List.{AllZip};
ghost use Rattle.cast_pool.specs.Posts.{Answers};
ghost use Rattle.cast_witnesses.specs.Posts.{shows_of};

use cast_events::{Asked, Config, DomainConfig, Quotas, Raw};
use cast_pool::{Done, Job, Kept, Outcome, Post, Service, Worked, can_keep, work};
use cast_types::{DomainNo, GroupNo, List, NoMemory, SiteNo};
use std::alloc::Global;
use std::marker::Brand;
use std::process::Abort;
use std::sync::ledger::{Blank, Ledger};
use std::sync::{Mutex, Wait};
use std::test::Fail;

// Asks to show the domains that wait, each under a number. Keeps what was taken, and all that it is
// sent. Without memory it stops the test.
#[derive(Drop)]
struct ListPost<'a, R: Abort> {
    rt: &'a R,
    waiting: Vec<(u64, DomainNo)>,
    taken: Vec<(u64, DomainNo)>,
    sent: Vec<Done>,
}

impl<R: Abort> Post for ListPost<'_, R> {
    ghost taken = { λ p. Some (shows_of p.taken.items) };

    ghost sent = { λ p. Some p.sent.items };

    ghost is_over = { λ p. p.waiting.items ≡ [] };

    fn take(&mut self) -> Option<Raw> {
        if self.waiting.is_empty() {
            return None;
        }
        let (number, domain) = self.waiting.remove(0);
        self.taken.push((number, domain)).expect(self.rt, "memory");
        Some(Raw {
            number,
            asked: Asked::Show(domain),
        })
    }

    fn send(&mut self, done: Done) {
        self.sent.push(done).expect(self.rt, "memory");
    }
}

// The share of the worker, what it took, and what it sent.
#[derive(Drop)]
struct Ran<L: Ledger> {
    mine: Worked<L>,
    taken: Vec<(u64, DomainNo)>,
    sent: Vec<Done>,
}

// What a worker comes to that is asked to show these domains.
fn shown<L: Ledger, R: Abort + Wait, S: Service<L>>(
    rt: &R,
    alloc: Global,
    service: &S,
    mine: Worked<L>,
    waiting: Vec<(u64, DomainNo)>,
) -> Ran<L>
    requires { 0 < mine.parts }
    ensures { AllZip (Answers true) (shows_of result.taken.items) result.sent.items }
{
    let mut post = ListPost {
        rt,
        waiting,
        taken: Vec::new(alloc),
        sent: Vec::new(alloc),
    };
    let mine = work(rt, alloc, service, mine, true, &mut post);
    Ran {
        mine,
        taken: post.taken,
        sent: post.sent,
    }
}

// A table behind a lock.
#[derive(Drop)]
struct Locked<L: Ledger> {
    kept: Mutex<Kept<L>>,
}

impl<L: Ledger> Service<L> for Locked<L> {
    fn complete<R: Wait>(&self, rt: &R, mine: &mut Worked<L>, job: Job, may_trim: bool) -> Done {
        self.kept.lock(rt).complete(mine, job, may_trim)
    }
}

// A daemon at site 1 alone, of domain 1.
fn config(alloc: Global) -> Result<Config, NoMemory> {
    let mut domain = DomainConfig {
        domain: DomainNo(1),
        home: SiteNo(1),
        sites: List::new(alloc),
        groups: List::new(alloc),
        quotas: Quotas::new(),
    };
    domain.sites.push(SiteNo(1))?;
    domain.groups.push(GroupNo(1))?;
    let mut domains = List::new(alloc);
    domains.push(domain)?;
    Ok(Config {
        site: SiteNo(1),
        domains,
    })
}

// Whether a domain was shown, or there is none.
fn is_shown(done: &Done) -> Option<bool> {
    match done.outcome() {
        Outcome::Shown(shown) => Some(shown.is_some()),
        _ => None,
    }
}

// Domain 1 is there, and domain 2 is not.
const ASKED: [(u64, DomainNo); 2] = [(7, DomainNo(1)), (4, DomainNo(2))];

// Whether a worker of that daemon that is asked for these shows domain 1, and answers that there is
// no domain 2.
fn are_shown<L: Ledger, R: Abort + Wait>(rt: &R, alloc: Global, blank: Blank) -> Result<bool, Fail>
    requires name { blank.name ≡ L.name }
    requires parts { (blank.parts ≡ L.parts) × (blank.parts ≡ 1) }
{
    let config = config(alloc)?;
    if !can_keep(&config) {
        return Err(Fail::new("no such table"));
    }
    let (kept, mine) = Kept::<L>::new(alloc, &config, blank, 1)?;
    let service = Locked {
        kept: Mutex::new(kept),
    };
    let mut waiting = Vec::new(alloc);
    waiting.push(ASKED[0])?;
    waiting.push(ASKED[1])?;
    let ran = shown(rt, alloc, &service, mine, waiting);
    if ran.taken.as_slice() != ASKED.as_slice() || ran.sent.len() != 2 {
        return Ok(false);
    }
    let (first, last) = (&ran.sent[0], &ran.sent[1]);
    let are_numbered = first.number() == ASKED[0].0 && last.number() == ASKED[1].0;
    let is_counted = ran.mine.event_count() == 0;
    Ok(are_numbered && is_counted && is_shown(first) == Some(true) && is_shown(last) == Some(false))
}

// As `are_shown`, with a ledger of its own.
fn is_each_shown<R: Abort + Wait>(rt: &R, alloc: Global) -> Result<bool, Fail> {
    are_shown::<Brand, _>(rt, alloc, Blank::new(1))
}

#[test]
fn what_comes_of_each_is_sent_in_order(rt: HostRuntime) -> Result<(), Fail> {
    assert!(rt; is_each_shown(&rt, rt.alloc())?);
    Ok(())
}
