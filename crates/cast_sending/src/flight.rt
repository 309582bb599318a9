//! The messages that another site was sent and has not acknowledged, and which of them are sent
//! again.
//!
//! The rules send a message once more after `resend`, which is long beside the time that an
//! acknowledgement takes, and what depends on a lost message waits meanwhile. A site that
//! acknowledges later messages, and not this one, has most likely not received it. So it is sent
//! again at once: this is the fast retransmit of TCP (Allman, Paxson and Blanton, "TCP Congestion
//! Control", RFC 5681). Without later ones it is sent again once it is late. The rules cannot tell
//! that from a network that delivers a datagram twice.
//!
//! What the rules send again goes to the wire ever more seldom, up to once in eight times `resend`,
//! since a site that has much to do would get more of what it has already. The rules cannot tell
//! that from a network that loses datagrams.
//!
//! A site passes over the messages of a view that it has not entered. That says nothing of the way
//! to it. So what was sent too soon is kept until a frame of the site tells that it has entered the
//! view. Then it counts as sent for the first time.
ghost use Rattle.std.specs.Prelude.{◌≡◌, ◌≤◌, ◌+◌, ◌-◌, ◌++◌, ◌∷◌, [], length};
ghost use Rattle.std.specs.Prelude.{IfSome, if◌then◌else◌};
ghost use Rattle.cast_message.specs.declared.site.SiteFrame.TheVariants.{Data};
ghost use Rattle.std.specs.Option.{option_to_list};
ghost use Rattle.cast_events.specs.Outs.{no_outs};
ghost use Rattle.cast_sending.specs.Flights.{Acknowledges, Answers, Enters, GoesAgain};
ghost use Rattle.cast_sending.specs.Flights.{IsKnown, IsPart, IsPlaceOf, Leaves, LosesOne, Notes};
ghost use Rattle.cast_sending.specs.Flights.{Repeats};
ghost use Rattle.cast_sending.specs.Marks.{mark_of, marks_of};

use crate::dues::Dues;
use crate::round_trip::RoundTrip;
use crate::sent::{REPEATS, Sent};
use cast_events::Outs;
use cast_message::{Message, SiteFrame};
use cast_types::limits::MAX_GROUPS;
use cast_types::{DomainNo, GroupNo, SiteNo, Uid};
use std::alloc::Global;
use std::collections::{BTreeMap, VecDeque};
use std::marker::Model;
use std::time::Instant;

// A message is sent again once so many later ones were acknowledged.
const LATER: u32 = 3;

// After so many ticks it is left to the rules.
const FORGOTTEN: u64 = 10;

// What was sent too soon is kept for so many ticks at most: ten seconds.
const TOO_SOON: u64 = 500;

// So many messages are remembered for each site, the latest, and so many are kept that were sent
// too soon.
const MOST: usize = 1_024;

// At a tick so many are sent again for each site, the earliest. A site that lacks one may have all
// behind it, and a site that is slow is not to get all twice.
const AT_A_TICK: usize = 8;

// It may have come too soon. What became of it does not count.
fn begin_anew(sent: Sent, tick: u64) -> Sent
    ensures { mark_of result ≡ (sent.message, 3) }
{
    let Sent { message, .. } = sent;
    Sent {
        message,
        first: None,
        tick,
        time: None,
        later: 0,
        left: REPEATS,
    }
}

// A message goes to the wire at this tick, and may be sent again so often after that.
fn sent_again(sent: Sent, tick: u64, left: u32) -> Sent
    requires { left ≤ 3 }
    ensures { mark_of result ≡ (sent.message, left) }
{
    let Sent {
        message,
        first,
        time,
        ..
    } = sent;
    Sent {
        message,
        first,
        tick,
        time,
        later: 0,
        left,
    }
}

// Forgets the first.
fn forget_first(line: &mut VecDeque<Sent>)
    ensures part { IsPart (marks_of line.new.items) (marks_of line.old.items) }
    ensures fewer { length line.new.items ≡ length line.old.items - 1 }
{
    if let Some(sent) = line.pop_front() {
        drop(sent);
    }
}

// Adds one as the latest. False if there is no memory for it.
fn push(line: &mut VecDeque<Sent>, sent: Sent) -> bool
    ensures part { IsPart (marks_of line.new.items) (marks_of line.old.items ++ mark_of sent ∷ []) }
    ensures more { length line.new.items ≤ length line.old.items + 1 }
{
    line.push_back(sent).is_ok()
}

// Remembers a message as the latest. Where there are most, the first is forgotten.
fn add(line: &mut VecDeque<Sent>, sent: Sent)
    requires { length line.old.items ≤ 1024 }
    ensures few { length line.new.items ≤ 1024 }
    ensures part { IsPart (marks_of line.new.items) (marks_of line.old.items ++ mark_of sent ∷ []) }
{
    if line.len() >= MOST {
        forget_first(line);
        let _ = push(line, sent);
        return;
    }
    let _ = push(line, sent);
}

// The place of the first message of this id.
fn place_of(line: &VecDeque<Sent>, id: Uid) -> Option<usize>
    ensures { IsPlaceOf (marks_of line.now.items) id result }
{
    for place in 0..line.len() {
        if line[place].message.id == id {
            return Some(place);
        }
    }
    None
}

// Of so many messages one more that was sent later is acknowledged.
fn count_later(line: &mut VecDeque<Sent>, count: usize)
    requires { count ≤ length line.old.items }
    ensures { marks_of line.new.items ≡ marks_of line.old.items }
{
    for place in 0..count {
        let later = line[place].later.saturating_add(1);
        line[place].later = later;
    }
}

// The place of the first message of so many that is to be sent again, since enough later ones were
// acknowledged.
fn first_lost(line: &VecDeque<Sent>, most: usize) -> Option<usize> {
    line.iter().take(most).position(|sent| sent.later >= LATER)
}

// Turns the first message to the end, or forgets it if it is of an earlier view of this group: the
// site acknowledges nothing more of it. One of this view that was late may have come too soon.
fn turn_sent(line: &mut VecDeque<Sent>, group: GroupNo, view: u32)
    requires { length line.old.items ≤ 1024 }
    ensures few { length line.new.items ≤ 1024 }
    ensures known { IsKnown (marks_of line.new.items) (marks_of line.old.items) }
{
    let Some(sent) = line.pop_front() else {
        return;
    };
    let id = sent.message.id;
    if id.group == group && id.view < view {
        return;
    }
    if id.group == group && id.view == view && sent.left < REPEATS {
        let tick = sent.tick;
        add(line, begin_anew(sent, tick));
        return;
    }
    add(line, sent);
}

// Turns the first message that was kept to the end, or forgets it if it is of an earlier view of
// this group. One of this view counts as sent now.
fn turn_early(
    sent: &mut VecDeque<Sent>,
    early: &mut VecDeque<Sent>,
    group: GroupNo,
    view: u32,
    tick: u64,
)
    requires sent { length sent.old.items ≤ 1024 }
    requires early { length early.old.items ≤ 1024 }
    ensures few_sent { length sent.new.items ≤ 1024 }
    ensures few_early { length early.new.items ≤ 1024 }
    ensures known { IsKnown (marks_of sent.new.items ++ marks_of early.new.items)
        (marks_of sent.old.items ++ marks_of early.old.items) }
{
    let Some(kept) = early.pop_front() else {
        return;
    };
    let id = kept.message.id;
    if id.group != group || id.view > view {
        add(early, kept);
        return;
    }
    if id.view == view {
        add(sent, begin_anew(kept, tick));
        return;
    }
}

// A copy, if there is memory for it.
fn copied(message: &Message) -> Option<Message>
    ensures { IfSome result (λ copy. copy ≡ message.now) }
{
    match message.copy() {
        Ok(copy) => Some(copy),
        Err(_) => None,
    }
}

// Adds the frame of a message. False if there is no memory for it.
fn send(outs: &mut Outs, domain: DomainNo, site: SiteNo, message: Message) -> bool
    ensures frames { outs.new.frames
        ≡ (if result
        then outs.old.frames ++ (domain, site, Data message) ∷ []
        else outs.old.frames) }
    ensures rest { outs.new ≡ record outs.old { frames = outs.new.frames } }
{
    outs.frames
        .push((domain, site, SiteFrame::Data(message)))
        .is_ok()
}

/// What a site was sent of a domain and has not acknowledged, in the order in which it was sent
/// last. Contracts see a `Flying`.
#[derive(Drop)]
pub struct Flight {
    alloc: Global,
    domain: DomainNo,
    site: SiteNo,
    sent: VecDeque<Sent>,
    // What was sent too soon: what is left to the rules, of views that the site has not entered.
    early: VecDeque<Sent>,
    // The latest view of each group that the site has entered, as far as its frames tell. Of no
    // more groups than a domain may have.
    views: BTreeMap<GroupNo, u32>,
    dues: Dues,
    tick: u64,
    round_trip: RoundTrip,
}

impl Model for Flight {
    ghost use Rattle.std.specs.Prelude.{◌≤◌, length};
    ghost use Rattle.cast_sending.specs.Flights.{Flying};
    ghost use Rattle.cast_sending.specs.Marks.{marks_of};

    ghost Value = { Flying };

    ghost view = { λ f. record {
      domain = f.domain;
      site = f.site;
      sent = marks_of f.sent.items;
      early = marks_of f.early.items;
    } };

    ghost invariant = { λ f. (length f.sent.items ≤ 1024) × (length f.early.items ≤ 1024) };
}

impl Flight {
    /// Nothing was sent.
    pub fn new(alloc: Global, domain: DomainNo, site: SiteNo) -> Self
        ensures { result ≡ record { domain = domain; site = site; sent = []; early = [] } }
    {
        Flight {
            alloc,
            domain,
            site,
            sent: VecDeque::new(alloc),
            early: VecDeque::new(alloc),
            views: BTreeMap::new(alloc),
            dues: Dues::new(alloc),
            tick: 0,
            round_trip: RoundTrip::new(),
        }
    }

    /// The domain.
    pub fn domain(&self) -> DomainNo
        ensures { result ≡ self.now.domain }
    {
        self.domain
    }

    /// The site.
    pub fn site(&self) -> SiteNo
        ensures { result ≡ self.now.site }
    {
        self.site
    }

    /// Remembers a message that is sent at this time.
    pub fn note(&mut self, message: Message, time: Option<Instant>)
        ensures { Notes self.old message self.new }
    {
        self.dues.note(message.id, self.tick, 0);
        add(
            &mut self.sent,
            Sent {
                message,
                first: Some(self.tick),
                tick: self.tick,
                time,
                later: 0,
                left: REPEATS,
            },
        );
    }

    // The acknowledgement of a message took until now, or longer.
    fn note_trip(&mut self, first: Option<u64>)
        ensures { self.new ≡ self.old }
    {
        if let Some(first) = first {
            self.round_trip.note(self.tick.saturating_sub(first));
        }
    }

    // Whether the site has entered the view of a message.
    fn has_entered(&self, id: Uid) -> bool {
        match self.views.get(&id.group) {
            Some(view) => *view >= id.view,
            None => false,
        }
    }

    // Leaves a message to the rules. Its acknowledgement takes at least as long as it was
    // remembered, if the site has entered its view. Else it is kept.
    fn leave(&mut self, sent: Sent)
        ensures { Leaves self.old (mark_of sent) self.new }
    {
        if self.has_entered(sent.message.id) {
            self.note_trip(sent.first);
            return;
        }
        add(&mut self.early, sent);
    }

    // Remembers a message that goes to the wire once more.
    fn go_again(&mut self, sent: Sent)
        ensures { GoesAgain self.old (mark_of sent) self.new }
    {
        if sent.left > 0 {
            add(&mut self.sent, sent);
            return;
        }
        self.leave(sent);
    }

    // Takes the message at a place, to be sent again, and remembers it as the latest. `None` if
    // there is no memory for that: then it is left to the rules.
    fn take(&mut self, place: usize) -> Option<Message>
        ensures { Repeats self.old self.new (option_to_list result) }
    {
        let sent = self.sent.remove(place)?;
        let left = sent.left.checked_sub(1)?;
        let copy = copied(&sent.message)?;
        let tick = self.tick;
        self.go_again(sent_again(sent, tick, left));
        Some(copy)
    }

    // Adds the frame of the message at a place, to be sent again. One that finds no memory is left
    // to the rules.
    fn repeat(&mut self, place: usize, outs: &mut Outs)
        ensures { Answers self.old self.new 1 outs.old outs.new }
    {
        let Some(message) = self.take(place) else {
            return;
        };
        let _ = send(outs, self.domain, self.site, message);
    }

    // Adds the frames of the first messages that seem to be lost, at most so many of the first.
    fn repeat_lost(&mut self, count: usize, outs: &mut Outs)
        ensures { Answers self.old self.new count outs.old outs.new }
    {
        for _turn in 0..count {
            let Some(place) = first_lost(&self.sent, count) else {
                return;
            };
            self.repeat(place, outs);
        }
    }

    // Adds the frames of the first messages, as long as the first is late.
    fn repeat_late(&mut self, outs: &mut Outs)
        ensures { Answers self.old self.new 8 outs.old outs.new }
    {
        for _turn in 0..AT_A_TICK {
            if !self.is_late() {
                return;
            }
            self.repeat(0, outs);
        }
    }

    // Learns that the site has entered a view of a group. Answers whether that is new.
    fn learn_view(&mut self, group: GroupNo, view: u32) -> bool
        ensures { self.new ≡ self.old }
    {
        match self.views.get(&group) {
            Some(known) if *known >= view => return false,
            None if self.views.len() >= MAX_GROUPS => return false,
            _ => {}
        }
        self.views.insert(group, view).is_ok()
    }

    /// A frame tells that the site has entered a view of a group. It acknowledges nothing more of
    /// the views before. What was late of this one may have come too soon, and what is kept of it
    /// counts as sent now.
    pub fn enter(&mut self, group: GroupNo, view: u32)
        ensures { Enters self.old self.new }
    {
        if !self.learn_view(group, view) {
            return;
        }
        self.dues.clear();
        for _turn in 0..self.sent.len() {
            turn_sent(&mut self.sent, group, view);
        }
        for _turn in 0..self.early.len() {
            turn_early(&mut self.sent, &mut self.early, group, view, self.tick);
        }
    }

    /// All messages are due when the rules say so: the site was silent, and answers.
    pub fn begin_anew(&mut self)
        ensures { self.new ≡ self.old }
    {
        self.dues.clear();
    }

    /// The rules send a message, most likely again. Answers whether it goes to the wire.
    pub fn is_due(&mut self, id: Uid) -> bool
        ensures { self.new ≡ self.old }
    {
        let late = self.round_trip.late();
        self.dues.is_due(id, self.tick, late)
    }

    // Takes out the message at a place, which was acknowledged. Answers when it was sent, if it was
    // sent once.
    fn end(&mut self, place: usize) -> Option<Instant>
        ensures { LosesOne self.old place self.new }
    {
        let sent = self.sent.remove(place)?;
        count_later(&mut self.sent, place);
        self.note_trip(sent.first);
        if sent.left < REPEATS {
            return None;
        }
        sent.time
    }

    /// A message was acknowledged. Answers the frames that are to be sent again, and when it was
    /// sent, if it was sent once.
    pub fn acknowledge(&mut self, id: Uid) -> (Outs, Option<Instant>)
        ensures { Acknowledges self.old id result.0 self.new }
    {
        let mut outs = Outs::new(self.alloc);
        self.dues.forget(id);
        let Some(place) = place_of(&self.sent, id) else {
            return (outs, None);
        };
        let time = self.end(place);
        self.repeat_lost(place, &mut outs);
        (outs, time)
    }

    // Leaves to the rules the message that was sent first.
    fn leave_first(&mut self)
        ensures { Repeats self.old self.new [] }
    {
        let Some(sent) = self.sent.pop_front() else {
            return;
        };
        self.leave(sent);
    }

    // Leaves to the rules what was remembered for long, and forgets what was kept for long.
    fn forget(&mut self)
        ensures { Repeats self.old self.new [] }
    {
        for _turn in 0..self.sent.len() {
            if self.ticks_since(self.sent.front()) < FORGOTTEN {
                break;
            }
            self.leave_first();
        }
        for _turn in 0..self.early.len() {
            if self.ticks_since(self.early.front()) < TOO_SOON {
                break;
            }
            forget_first(&mut self.early);
        }
    }

    /// Notes that time goes by. Answers the frames that are to be sent again.
    pub fn tick(&mut self) -> Outs
        ensures { Answers self.old self.new 8 no_outs result }
    {
        let mut outs = Outs::new(self.alloc);
        self.tick = self.tick.saturating_add(1);
        self.forget();
        self.repeat_late(&mut outs);
        outs
    }

    // How many ticks went by since a message was sent last.
    fn ticks_since(&self, sent: Option<&Sent>) -> u64 {
        match sent {
            Some(sent) => self.tick.saturating_sub(sent.tick),
            None => 0,
        }
    }

    // Whether the message that was sent first is late.
    fn is_late(&self) -> bool {
        self.ticks_since(self.sent.front()) >= self.round_trip.late()
    }
}
