//! What another site was sent and has not acknowledged, behind a lock: a `Flight` says what goes to
//! the wire again.
use cast_events::Outs;
use cast_message::{Message, SiteFrame};
use cast_sending::{Flight, Least, Took};
use cast_types::{DomainNo, GroupNo, List, NoMemory, SiteNo, Uid};
use std::alloc::Global;
use std::mem;
use std::rt::Clock;
use std::sync::{Mutex, Wait};
use std::time::Instant;

// What is known of the messages that a site was sent.
#[derive(Drop)]
struct Known {
    flight: Flight,
    least: Least,
}

/// The messages of a domain that a site was sent, and has not acknowledged.
#[derive(Drop)]
pub struct Unacknowledged {
    /// The domain.
    pub domain: DomainNo,
    /// The site.
    pub site: SiteNo,
    // Whether it is wanted how long acknowledgements take.
    is_timed: bool,
    known: Mutex<Known>,
}

impl Unacknowledged {
    /// What a site was sent of a domain, of all these.
    pub fn find(all: &[Unacknowledged], domain: DomainNo, site: SiteNo) -> Option<&Unacknowledged> {
        all.iter()
            .find(|one| one.domain == domain && one.site == site)
    }

    /// Remembers the messages that are to be sent, each with what its site was sent of its domain.
    pub fn note_all<R: Wait + Clock>(rt: &R, all: &[Unacknowledged], outs: &Outs) {
        for (domain, site, frame) in outs.frames.as_slice() {
            if let SiteFrame::Data(message) = frame
                && let Some(one) = Self::find(all, *domain, *site)
            {
                one.note(rt, message);
            }
        }
    }

    /// No message was sent. How long acknowledgements take is looked at only if it `is_timed`.
    pub fn new(alloc: Global, domain: DomainNo, site: SiteNo, is_timed: bool) -> Self {
        Unacknowledged {
            domain,
            site,
            is_timed,
            known: Mutex::new(Known {
                flight: Flight::new(alloc, domain, site),
                least: Least::new(),
            }),
        }
    }

    /// Remembers a message that is about to be sent. If there is no memory for it, it is left to
    /// the rules.
    pub fn note<R: Wait + Clock>(&self, rt: &R, message: &Message) {
        if let Ok(message) = message.copy() {
            let time = if self.is_timed {
                Instant::now(rt).ok()
            } else {
                None
            };
            self.known.lock(rt).flight.note(message, time);
        }
    }

    /// Notes that the site acknowledged a message. Answers the frames that are to be sent again,
    /// and how long it took, if that is known.
    pub fn acknowledge<R: Wait + Clock>(&self, rt: &R, id: Uid) -> (Outs, Option<Took>) {
        let mut known = self.known.lock(rt);
        known.flight.enter(id.group, id.view);
        let (outs, time) = known.flight.acknowledge(id);
        let took = match micros_since(rt, time) {
            Some(micros) => Some(known.least.note(micros)),
            None => None,
        };
        (outs, took)
    }

    /// Notes that the site has entered a view of a group.
    pub fn enter<R: Wait>(&self, rt: &R, group: GroupNo, view: u32) {
        self.known.lock(rt).flight.enter(group, view);
    }

    /// All messages are due when the rules say so: the site was silent, and answers.
    pub fn begin_anew<R: Wait>(&self, rt: &R) {
        self.known.lock(rt).flight.begin_anew();
    }

    // Whether a frame that the rules send, most likely again, goes to the wire.
    fn lets_pass<R: Wait>(
        rt: &R,
        all: &[Unacknowledged],
        frame: &(DomainNo, SiteNo, SiteFrame),
    ) -> bool {
        if let SiteFrame::Data(message) = &frame.2
            && let Some(one) = Self::find(all, frame.0, frame.1)
        {
            return one.known.lock(rt).flight.is_due(message.id);
        }
        true
    }

    /// Of what a tick sends, what goes to the wire: all but messages that went there often, and not
    /// long ago.
    pub fn pass<R: Wait>(rt: &R, alloc: Global, all: &[Unacknowledged], outs: Outs) -> Outs {
        let mut outs = outs;
        let mut frames = mem::replace(&mut outs.frames, List::new(alloc)).into_vec();
        frames.retain(|frame| Self::lets_pass(rt, all, frame));
        outs.frames = List::from_vec(frames);
        outs
    }

    /// Notes that time goes by. Answers the frames that are to be sent again.
    pub fn tick<R: Wait>(&self, rt: &R) -> Outs {
        self.known.lock(rt).flight.tick()
    }
}

// How many microseconds went by since a time, if it is known.
fn micros_since<R: Clock>(rt: &R, time: Option<Instant>) -> Option<u64> {
    let elapsed = time?.elapsed(rt).ok()?;
    u64::try_from(elapsed.as_micros()).ok()
}
