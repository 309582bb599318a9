ghost use Rattle.std.specs.Prelude.{◌≡◌, ◌<◌, filter, map, length, not, nat_lt, OnOk, IfOk, IfSome};
ghost use Rattle.std.specs.List.{find, list_any, position};
ghost use Rattle.std.specs.Ordering.{is_lt};
ghost use Rattle.std.specs.Option.{option_copied};
ghost use Rattle.cast_types.specs.Names.{entry_eq, proc_cmp, proc_eq};
ghost use Rattle.cast_types.specs.Sets.{is_among};
ghost use Rattle.cast_order.specs.Order.{last_upto};
ghost use Rattle.cast_order.specs.Hand.{new_hand, hold_from, hand_over, note_unlisted, note_placed};
ghost use Rattle.cast_order.specs.Hand.{note_order_sent, settled_by, hand_in, hand_opened};

use cast_types::{NoMemory, Proc};
use std::alloc::Global;
use std::marker::Model;

/// What a site keeps of a local process that orders a view's ABCASTs, or did. Contracts see a
/// `Hand`.
#[derive(Drop)]
pub struct OrderHand {
    pub process: Proc,
    first: Option<u32>,
    reached: usize,
    lists: Vec<(u32, usize)>,
    waiting: Vec<(Proc, u32)>,
}

impl Model for OrderHand {
    ghost use Rattle.cast_order.specs.Hand.{Hand};

    ghost Value = { Hand };

    ghost view = { λ h. record {
      process = h.process;
      first = h.first;
      reached = h.reached;
      lists = h.lists.items;
      waiting = h.waiting.items;
    } };
}

impl OrderHand {
    /// Nothing delivered or listed, and no token.
    pub fn new(alloc: Global, process: Proc) -> Self
        ensures { result ≡ new_hand process }
    {
        OrderHand {
            process,
            first: None,
            reached: 0,
            lists: Vec::new(alloc),
            waiting: Vec::new(alloc),
        }
    }

    /// An equal value.
    pub fn copy(&self) -> Result<Self, NoMemory>
        ensures { IfOk result (λ hand. hand ≡ self.now) }
    {
        let alloc = *self.waiting.allocator();
        Ok(OrderHand {
            process: self.process,
            first: self.first,
            reached: self.reached,
            lists: Vec::from_slice(alloc, &self.lists)?,
            waiting: Vec::from_slice(alloc, &self.waiting)?,
        })
    }

    /// Takes in that the process holds the token, and orders from this place on.
    pub fn hold(&mut self, first: u32)
        ensures { self.new ≡ hold_from first self.old }
    {
        self.first = Some(first);
    }

    /// Takes in that it holds the token no more.
    pub fn hand_over(&mut self)
        ensures { self.new ≡ hand_over self.old }
    {
        self.first = None;
    }

    /// Takes in that it delivered an ABCAST that is not in the order known.
    pub fn tell(&mut self, id: (Proc, u32)) -> Result<(), NoMemory>
        ensures { OnOk result (self.new ≡ note_unlisted id self.old) }
    {
        self.waiting.push(id)?;
        Ok(())
    }

    /// Takes in that ids joined the order known.
    pub fn place(&mut self, ids: &[(Proc, u32)])
        ensures { self.new ≡ note_placed ids.now self.old }
    {
        keep_without(&mut self.waiting, ids);
    }

    /// Takes in that it sent a set-order message of this count, which sets places up to the last.
    pub fn note(&mut self, count: u32, last: usize, stable: u32) -> Result<(), NoMemory>
        ensures { OnOk result (self.new ≡ note_order_sent count last stable self.old) }
    {
        self.reached = self.reached.max(last_upto(&self.lists, stable));
        keep_above(&mut self.lists, stable);
        self.lists.push((count, last))?;
        Ok(())
    }

    /// How many places it has settled.
    pub fn settled_places(&self, stable: u32) -> usize
        ensures { result ≡ settled_by stable self.now }
    {
        let before = match self.first {
            Some(first) => first.saturating_sub(1) as usize,
            None => 0,
        };
        before.max(self.reached.max(last_upto(&self.lists, stable)))
    }

    /// The first place that it orders, where it holds the token.
    pub fn first(&self) -> Option<u32>
        ensures { result ≡ self.now.first }
    {
        self.first
    }

    /// The ABCASTs that it has to list.
    pub fn ids_to_list(&self) -> &[(Proc, u32)]
        ensures { result.now ≡ self.now.waiting }
    {
        &self.waiting
    }
}

// Keeps the ids that are none of these.
fn keep_without(ids: &mut Vec<(Proc, u32)>, others: &[(Proc, u32)])
    ensures { ids.new.items ≡ filter (λ e. not (is_among entry_eq e others.now)) ids.old.items }
{
    ids.retain(|id| !holds(others, *id));
}

// Whether an id is one of these.
pub(crate) fn holds(ids: &[(Proc, u32)], id: (Proc, u32)) -> bool
    ensures { result ≡ is_among entry_eq id ids.now }
{
    ids.iter().any(|other| id == *other)
}

// Keeps the messages of counts above this one.
fn keep_above(lists: &mut Vec<(u32, usize)>, stable: u32)
    ensures { lists.new.items ≡ filter (λ x. nat_lt stable x.0) lists.old.items }
{
    lists.retain(|list| stable < list.0);
}

// The last place that messages up to a count set.
fn last_upto(lists: &[(u32, usize)], stable: u32) -> usize
    ensures { result ≡ last_upto stable lists.now }
{
    let mut last = 0;
    for (count, place) in lists {
        if *count <= stable {
            last = last.max(*place);
        }
    }
    last
}

// The hand of a process.
pub(crate) fn hand_among(hands: &[OrderHand], process: Proc) -> Option<&OrderHand>
    ensures { option_copied result ≡ find (λ h. proc_eq h.process process) hands.now }
{
    hands.iter().find(|hand| hand.process == process)
}

// Whether a process has a hand.
fn has_hand(hands: &[OrderHand], process: Proc) -> bool
    ensures { result ≡ list_any (λ h. proc_eq h.process process) hands.now }
{
    hands.iter().any(|hand| hand.process == process)
}

// Where the first hand stands of a process that comes behind this one.
fn place_behind(hands: &[OrderHand], process: Proc) -> Option<usize>
    ensures behind { result ≡ position (λ h. is_lt (proc_cmp process h.process)) hands.now }
    ensures within { IfSome result (λ i. i < length hands.now) }
{
    hands
        .iter()
        .position(|hand| process.cmp(&hand.process).is_lt())
}

// Adds a new hand for a process that has none, where it stands by the order of processes.
pub(crate) fn open_hand(hands: &mut Vec<OrderHand>, process: Proc) -> Result<(), NoMemory>
    ensures { OnOk result (hands.new.items ≡ hand_opened process hands.old.items) }
{
    if has_hand(hands, process) {
        return Ok(());
    }
    let alloc = *hands.allocator();
    let place = place_behind(hands, process).unwrap_or(hands.len());
    hands.insert(place, OrderHand::new(alloc, process))?;
    Ok(())
}

// Each hand takes in that ids joined the order known.
pub(crate) fn place_in(hands: &mut Vec<OrderHand>, ids: &[(Proc, u32)])
    ensures { hands.new.items ≡ map (note_placed ids.now) hands.old.items }
{
    for hand in hands.iter_mut() {
        hand.place(ids);
    }
}

// Whether a process has something to list.
pub(crate) fn some_wait(hands: &[OrderHand]) -> bool
    ensures { result ≡ list_any (λ h. nat_lt 0 (length h.waiting)) hands.now }
{
    hands.iter().any(|hand| 0 < hand.ids_to_list().len())
}

// Hands, copied.
pub(crate) fn copy_hands(alloc: Global, hands: &[OrderHand]) -> Result<Vec<OrderHand>, NoMemory>
    ensures { IfOk result (λ copy. copy.items ≡ hands.now) }
{
    let mut copied = Vec::with_capacity(alloc, hands.len())?;
    for hand in hands {
        copied.push(hand.copy()?)?;
    }
    Ok(copied)
}

// The hand of the process takes in that it holds the token.
pub(crate) fn hold_in(hands: &mut Vec<OrderHand>, process: Proc, first: u32)
    ensures { hands.new.items ≡ hand_in process (hold_from first) hands.old.items }
{
    for hand in hands.iter_mut() {
        if hand.process == process {
            hand.hold(first);
        }
    }
}

// And that it holds it no more.
pub(crate) fn hand_over_in(hands: &mut Vec<OrderHand>, process: Proc)
    ensures { hands.new.items ≡ hand_in process hand_over hands.old.items }
{
    for hand in hands.iter_mut() {
        if hand.process == process {
            hand.hand_over();
        }
    }
}

// And an ABCAST that it delivered.
pub(crate) fn tell_hand(
    hands: &mut Vec<OrderHand>,
    process: Proc,
    id: (Proc, u32),
) -> Result<(), NoMemory>
    ensures { OnOk result (hands.new.items ≡ hand_in process (note_unlisted id) hands.old.items) }
{
    for hand in hands.iter_mut() {
        if hand.process == process {
            hand.tell(id)?;
        }
    }
    Ok(())
}

// And a set-order message that it sent.
pub(crate) fn note_hand(
    hands: &mut Vec<OrderHand>,
    process: Proc,
    count: u32,
    last: usize,
    stable: u32,
) -> Result<(), NoMemory>
    ensures { OnOk result
        (hands.new.items ≡ hand_in process (note_order_sent count last stable) hands.old.items) }
{
    for hand in hands.iter_mut() {
        if hand.process == process {
            hand.note(count, last, stable)?;
        }
    }
    Ok(())
}
