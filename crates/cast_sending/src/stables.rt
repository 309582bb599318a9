ghost use Rattle.std.specs.Prelude.{◌≡◌, ◌⊎◌, ◌↔◌, ◌≤◌, ◌++◌, ◌∷◌, [], IsTrue, min, filter, not};
ghost use Rattle.std.specs.Prelude.{◌+◌, ◌-◌, ◌^◌, count_by, length, take};
ghost use Rattle.std.specs.Bool.{OnTrue, OnFalse};
ghost use Rattle.std.specs.List.{list_any};
ghost use Rattle.cast_events.specs.Outs.{no_outs};
ghost use Rattle.cast_sending.specs.Frames.{Covers, covers, is_other, is_stable};
ghost use Rattle.cast_sending.specs.Frames.{last_told, reaches};
ghost use Rattle.cast_sending.specs.Stables.{are_stables, is_joined, news_left, news_with};
ghost use Rattle.cast_sending.specs.Stables.{none_waits, AllWait, Holds, IsPlaceOfCovered};
ghost use Rattle.cast_sending.specs.Stables.{Joins, Waits};

use crate::frames::{Outgoing, push};
use cast_events::Outs;
use cast_message::SiteFrame;
use cast_types::{List, Uid};
use std::alloc::Global;
use std::marker::Model;
use std::mem;

// After so many that came since none waited they wait no longer.
const MANY: u32 = 8;

// Once so many wait, all are sent when the receiver has finished the frames that it serves. Until
// then more may wait.
const MOST: usize = 64;

/// Stables that wait to be sent. A later one says all that an earlier one does, and no site waits
/// for one. So where frames share datagrams they wait for one to their site. Contracts see the
/// `Waiting`.
#[derive(Drop)]
pub struct Stables {
    alloc: Global,
    waiting: Vec<Outgoing>,
    // How many came since none waited.
    news: u32,
}

impl Model for Stables {
    ghost use Rattle.std.specs.Prelude.{IsTrue};
    ghost use Rattle.cast_sending.specs.Stables.{Waiting, are_stables};

    ghost Value = { Waiting };

    ghost view = { λ s. record { frames = s.waiting.items; news = s.news } };

    ghost invariant = { λ s. IsTrue (are_stables s.waiting.items) };
}

// The last message of which a Stable tells. `None` of another frame.
fn last_told(frame: &SiteFrame) -> Option<Uid>
    ensures { result ≡ last_told frame.now }
{
    match frame {
        SiteFrame::Stable(upto) => Some(*upto),
        _ => None,
    }
}

// Whether a frame is a Stable.
fn is_stable(frame: &Outgoing) -> bool
    ensures { result ≡ is_stable frame.now }
{
    last_told(&frame.2).is_some()
}

// Whether what a Stable tells reaches as far as what another one does.
fn reaches(new: Option<Uid>, old: Option<Uid>) -> bool
    ensures { result ≡ reaches new old }
{
    match (new, old) {
        (Some(new), Some(old)) => {
            old.group == new.group
                && old.view == new.view
                && old.proc == new.proc
                && old.count <= new.count
        }
        _ => false,
    }
}

// Whether by the names and the counts a frame says all that a Stable does to the same site.
fn names_say_all(new: &Outgoing, old: &Outgoing) -> bool
    ensures { result ≡ covers new.now old.now }
{
    old.0 == new.0 && old.1 == new.1 && reaches(last_told(&new.2), last_told(&old.2))
}

// Whether a frame says all that a Stable does.
fn says_all(new: &Outgoing, old: &Outgoing) -> bool
    requires { IsTrue (is_stable old.now) }
    ensures { IsTrue result ↔ Covers new.now old.now }
{
    names_say_all(new, old)
}

// The place of the first of these Stables of which a frame says all.
fn covered_place(waiting: &[Outgoing], frame: &Outgoing) -> Option<usize>
    requires { IsTrue (are_stables waiting.now) }
    ensures { IsPlaceOfCovered waiting.now frame.now result }
{
    for (place, old) in waiting.iter().enumerate() {
        if says_all(frame, old) {
            return Some(place);
        }
    }
    None
}

// Has a Stable wait, in place of one of which it says all. False if there is no memory for it.
fn keep(waiting: &mut Vec<Outgoing>, frame: Outgoing) -> bool
    requires stables { IsTrue (are_stables waiting.old.items) }
    requires stable { IsTrue (is_stable frame) }
    ensures kept { OnTrue result (Waits waiting.old.items frame waiting.new.items) }
    ensures lost { OnFalse result (waiting.new.items ≡ waiting.old.items) }
    ensures stables { IsTrue (are_stables waiting.new.items) }
{
    if let Some(place) = covered_place(waiting, &frame) {
        drop(mem::replace(&mut waiting[place], frame));
        return true;
    }
    push(waiting, frame)
}

// How many Stables there are, as far as a `u32` counts.
fn count_stables(frames: &[Outgoing]) -> u32
    ensures { result ≡ min (count_by is_stable frames.now) (2 ^ 32 - 1) }
{
    let count = frames.iter().filter(|frame| is_stable(frame)).count();
    u32::try_from(count).unwrap_or(u32::MAX)
}

// Has a frame wait, if it is a Stable. Else adds it to the others. False if there is no memory for
// it.
fn hold_one(waiting: &mut Vec<Outgoing>, others: &mut Vec<Outgoing>, frame: Outgoing) -> bool
    requires { IsTrue (are_stables waiting.old.items) }
    ensures waits { OnTrue result (IsTrue (is_stable frame)
        → Waits waiting.old.items frame waiting.new.items
        × (others.new.items ≡ others.old.items)) }
    ensures goes { OnTrue result (IsTrue (is_other frame)
        → (waiting.new.items ≡ waiting.old.items)
        × (others.new.items ≡ others.old.items ++ frame ∷ [])) }
    ensures lost { OnFalse result ((waiting.new.items ≡ waiting.old.items)
        × (others.new.items ≡ others.old.items)) }
    ensures stables { IsTrue (are_stables waiting.new.items) }
{
    if is_stable(&frame) {
        return keep(waiting, frame);
    }
    push(others, frame)
}

// Has the Stables of these frames wait. Answers the others, and how many frames are lost for want
// of memory.
fn hold_all(
    alloc: Global,
    waiting: &mut Vec<Outgoing>,
    frames: Vec<Outgoing>,
) -> (Vec<Outgoing>, u64)
    requires { IsTrue (are_stables waiting.old.items) }
    ensures held { Holds waiting.old.items frames.items result.0.items waiting.new.items result.1 }
    ensures stables { IsTrue (are_stables waiting.new.items) }
{
    let mut others = Vec::new(alloc);
    let mut lost = 0;
    for frame in frames {
        let is_kept = hold_one(waiting, &mut others, frame);
        if !is_kept {
            lost += 1;
        }
    }
    (others, lost)
}

// Whether something goes to a site.
fn is_joined(going: &[Outgoing], frame: &Outgoing) -> bool
    ensures { result ≡ is_joined going.now frame.now }
{
    going.iter().any(|other| other.1 == frame.1)
}

// Whether one of the first so many of those that go goes to the site of a frame.
fn is_joined_by(going: &[Outgoing], count: usize, frame: &Outgoing) -> bool
    requires { count ≤ length going.now }
    ensures { result ≡ is_joined (take count going.now) frame.now }
{
    is_joined(&going[..count], frame)
}

// Adds a frame to those that go, if one of the first so many goes to its site. Else adds it to the
// others. False if there is no memory for it.
fn join_one(
    going: &mut Vec<Outgoing>,
    count: usize,
    others: &mut Vec<Outgoing>,
    frame: Outgoing,
) -> bool
    requires { count ≤ length going.old.items }
    ensures joins { OnTrue result (IsTrue (is_joined (take count going.old.items) frame)
        → (going.new.items ≡ going.old.items ++ frame ∷ [])
        × (others.new.items ≡ others.old.items)) }
    ensures waits { OnTrue result (IsTrue (not (is_joined (take count going.old.items) frame))
        → (going.new.items ≡ going.old.items)
        × (others.new.items ≡ others.old.items ++ frame ∷ [])) }
    ensures lost { OnFalse result ((going.new.items ≡ going.old.items)
        × (others.new.items ≡ others.old.items)) }
{
    if is_joined_by(going, count, &frame) {
        return push(going, frame);
    }
    push(others, frame)
}

// Adds those that wait to the frames that go, if one of these goes to the same site. Answers the
// others, and how many are lost for want of memory.
fn join_all(
    alloc: Global,
    waiting: Vec<Outgoing>,
    going: &mut Vec<Outgoing>,
) -> (Vec<Outgoing>, u64)
    ensures { Joins waiting.items going.old.items going.new.items result.0.items result.1 }
{
    let mut others = Vec::new(alloc);
    let mut lost = 0;
    let count = going.len();
    for frame in waiting {
        let is_kept = join_one(going, count, &mut others, frame);
        if !is_kept {
            lost += 1;
        }
    }
    (others, lost)
}

impl Stables {
    /// None waits.
    pub fn new(alloc: Global) -> Self
        ensures { result ≡ none_waits }
    {
        Stables {
            alloc,
            waiting: Vec::new(alloc),
            news: 0,
        }
    }

    /// Whether something came of an event that may wait.
    pub fn are_in(outs: &Outs) -> bool
        ensures { result ≡ list_any is_stable outs.now.frames }
    {
        outs.frames.as_slice().iter().any(is_stable)
    }

    /// Whether so many wait that they are to be sent.
    pub fn are_many(&self) -> bool
        ensures { IsTrue result ↔ ((8 ≤ self.now.news) ⊎ (64 ≤ length self.now.frames)) }
    {
        self.news >= MANY || self.waiting.len() >= MOST
    }

    /// Adds those that wait to frames that are to be sent, if one of these goes to the same site.
    /// Answers how many are lost for want of memory.
    pub fn join(&mut self, outs: &mut Outs) -> u64
        ensures joined { Joins self.old.frames outs.old.frames outs.new.frames self.new.frames
            result }
        ensures rest { outs.new ≡ record outs.old { frames = outs.new.frames } }
        ensures news { self.new.news ≡ news_left self.old.news self.new.frames }
    {
        let waiting = mem::replace(&mut self.waiting, Vec::new(self.alloc));
        let mut going = mem::replace(&mut outs.frames, List::new(self.alloc)).into_vec();
        let (others, lost) = join_all(self.alloc, waiting, &mut going);
        outs.frames = List::from_vec(going);
        if others.is_empty() {
            self.news = 0;
        }
        self.waiting = others;
        lost
    }

    /// Has the Stables of an event wait. Answers what else came of it, and how many of its frames
    /// are lost for want of memory.
    pub fn hold(&mut self, outs: Outs) -> (Outs, u64)
        ensures held { Holds self.old.frames outs.frames result.0.frames self.new.frames result.1 }
        ensures rest { result.0 ≡ record outs { frames = result.0.frames } }
        ensures news { self.new.news ≡ news_with self.old.news outs.frames }
    {
        let mut outs = outs;
        let frames = mem::replace(&mut outs.frames, List::new(self.alloc)).into_vec();
        self.news = self.news.saturating_add(count_stables(&frames));
        let (others, lost) = hold_all(self.alloc, &mut self.waiting, frames);
        outs.frames = List::from_vec(others);
        (outs, lost)
    }

    /// Hands on the Stables that wait, to be sent.
    pub fn take(&mut self) -> Outs
        ensures taken { result ≡ record no_outs { frames = self.old.frames } }
        ensures left { self.new ≡ none_waits }
    {
        self.news = 0;
        let mut outs = Outs::new(self.alloc);
        outs.frames = List::from_vec(mem::replace(&mut self.waiting, Vec::new(self.alloc)));
        outs
    }
}
