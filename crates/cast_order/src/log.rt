ghost use Rattle.std.specs.Prelude.{◌≡◌, min, filter, take, drop, OnOk, IfOk};
ghost use Rattle.std.specs.List.{enumerate_from};
ghost use Rattle.cast_types.specs.Counts.{is_within};
ghost use Rattle.cast_types.specs.Names.{entry_eq};
ghost use Rattle.cast_types.specs.Sets.{is_among};
ghost use Rattle.cast_order.specs.Order.{id_at};
ghost use Rattle.cast_order.specs.Hand.{hold_from, hand_over, note_unlisted};
ghost use Rattle.cast_order.specs.Hand.{note_order_sent, settled_by};
ghost use Rattle.cast_order.specs.Log.{is_long, length_of, new_log, oldest_in, with_fact};
ghost use Rattle.cast_order.specs.Log.{with_facts, with_next, past, settle_log, place_of};
ghost use Rattle.cast_order.specs.Log.{with_placement};
ghost use Rattle.cast_order.specs.Log.{next_in, pass_ids, hand_here, with_hand, waits_in};
ghost use Rattle.cast_order.specs.Log.{next_places, places_by, known_past, waiting_of};
ghost use Rattle.cast_order.specs.Log.{whole_kept, tail_start_in, tail_ids_in, closed_by, forgot};

use crate::hand::{
    OrderHand, copy_hands, hand_among, hand_over_in, hold_in, holds, note_hand, open_hand,
    place_in, some_wait, tell_hand,
};
use cast_message::{Placement, Tail};
use cast_types::limits::{MAX_PLACED, MAX_POSITION, MAX_TAIL};
use cast_types::{Counts, GroupNo, List, NoMemory, Proc, SortedMap};
use std::alloc::{AllocError, Global};
use std::collections::BTreeMap;
use std::marker::Model;

/// What a site keeps of one group's order. Contracts see a `Log`.
#[derive(Drop)]
pub struct OrderLog {
    pub group: GroupNo,
    base: u32,
    window: Vec<(Proc, u32)>,
    later: BTreeMap<usize, (Proc, u32)>,
    places: SortedMap<Proc, usize>,
    hands: Vec<OrderHand>,
    closed: bool,
}

impl Model for OrderLog {
    ghost use Rattle.cast_order.specs.Log.{Log};

    ghost Value = { Log };

    ghost view = { λ l. record {
      group = l.group;
      base = l.base;
      window = l.window.items;
      later = l.later.entries;
      places = l.places;
      hands = l.hands.items;
      closed = l.closed;
    } };
}

impl OrderLog {
    /// Nothing told, delivered or listed.
    pub fn new(alloc: Global, group: GroupNo) -> Self
        ensures { result ≡ new_log group }
    {
        OrderLog {
            group,
            base: 0,
            window: Vec::new(alloc),
            later: BTreeMap::new(alloc),
            places: SortedMap::new(alloc),
            hands: Vec::new(alloc),
            closed: false,
        }
    }

    /// An equal value.
    pub fn copy(&self) -> Result<Self, NoMemory>
        ensures { IfOk result (λ log. log ≡ self.now) }
    {
        let alloc = *self.window.allocator();
        Ok(OrderLog {
            group: self.group,
            base: self.base,
            window: Vec::from_slice(alloc, &self.window)?,
            later: self.later.clone()?,
            places: self.places.copy()?,
            hands: copy_hands(alloc, &self.hands)?,
            closed: self.closed,
        })
    }

    /// Takes in what a set-order message tells, unless the order is closed.
    pub fn learn(&mut self, placement: &Placement) -> Result<(), NoMemory>
        ensures { OnOk result (self.new ≡ with_placement placement.now self.old) }
    {
        if self.closed {
            return Ok(());
        }
        let known = self.length();
        add_facts(&mut self.later, known, placement.first(), placement.ids())?;
        self.settle()?;
        Ok(())
    }

    // Adds to the order known what follows it without a gap, and keeps only the facts past that.
    // What it adds waits no more.
    fn settle(&mut self) -> Result<(), NoMemory>
        ensures { OnOk result (self.new ≡ settle_log self.old) }
    {
        let before = self.window.len();
        extend(&mut self.window, self.base, &self.later)?;
        let known = self.length();
        keep_past(&mut self.later, known);
        place_in(&mut self.hands, past_first(&self.window, before));
        Ok(())
    }

    /// How many ids are known, with those that are forgotten.
    pub fn length(&self) -> usize
        ensures { result ≡ length_of self.now }
    {
        self.base as usize + self.window.len()
    }

    /// How many places there are up to the last id that a process here has to list, as far as a
    /// number counts.
    pub fn places_by(&self, process: Proc) -> usize
        ensures { result ≡ min 18446744073709551615 (places_by self.now process) }
    {
        self.length()
            .saturating_add(self.ids_to_list(process).len())
    }

    /// Closes the order: it becomes its first ids and those of the tail, all that are kept without
    /// ids beyond the cut.
    pub fn close(&mut self, tail: &Tail, cut: &Counts) -> Result<(), NoMemory>
        ensures { OnOk result
            (self.new ≡ closed_by (is_within cut.now) tail.now.start tail.now.ids self.old) }
    {
        let start = tail.start();
        let kept = start.saturating_sub(self.base) as usize;
        self.window.truncate(kept);
        self.window.extend_from_slice(tail.ids())?;
        keep_within(&mut self.window, cut);
        self.base = self.base.min(start);
        self.later.clear();
        self.places = SortedMap::new(*self.window.allocator());
        self.closed = true;
        Ok(())
    }

    /// The first of the kept ids, as far as they may be forgotten.
    pub fn oldest(&self) -> &[(Proc, u32)]
        ensures { result.now ≡ oldest_in self.now }
    {
        if !self.is_long() {
            return &[];
        }
        first_ids(&self.window, self.window.len() - MAX_TAIL)
    }

    /// Whether as many ids are kept as two tails have, of an order that is not closed.
    pub fn is_long(&self) -> bool
        ensures { result ≡ is_long self.now }
    {
        !self.closed && 2 * MAX_TAIL <= self.window.len()
    }

    /// Forgets so many of the kept ids, the first ones, at most all of them.
    pub fn forget_first(&mut self, count: usize)
        ensures { self.new ≡ forgot count self.old }
    {
        let places = MAX_POSITION.saturating_sub(self.base);
        let more = count.min(self.window.len()).min(places as usize);
        remove_first(&mut self.window, more);
        self.base += more as u32;
    }

    /// The ids that a process has not passed.
    pub fn next(&self, process: Proc) -> &[(Proc, u32)]
        ensures { result.now ≡ next_in self.now process }
    {
        past_first(&self.window, self.place(process) - self.base as usize)
    }

    // How many of the first ids a process has passed, with those that are forgotten.
    fn place(&self, process: Proc) -> usize
        ensures { result ≡ place_of self.now process }
    {
        let base = self.base as usize;
        match self.places.get(&process) {
            Some(place) => base.max(*place),
            None => base,
        }
    }

    /// Takes in that a process passed so many of its next ids, at most all that are known.
    pub fn pass(&mut self, process: Proc, count: usize) -> Result<(), NoMemory>
        ensures { OnOk result (self.new ≡ pass_ids process count self.old) }
    {
        let place = self.place(process);
        let more = count.min(self.length().saturating_sub(place));
        self.places.put(process, place + more)?;
        Ok(())
    }

    /// Takes in that a process here holds the token, and orders from this place on.
    pub fn hold(&mut self, process: Proc, first: u32) -> Result<(), NoMemory>
        ensures { OnOk result (self.new ≡ with_hand process (hold_from first) self.old) }
    {
        open_hand(&mut self.hands, process)?;
        hold_in(&mut self.hands, process, first);
        Ok(())
    }

    /// Takes in that it holds the token no more.
    pub fn hand_over(&mut self, process: Proc) -> Result<(), NoMemory>
        ensures { OnOk result (self.new ≡ with_hand process hand_over self.old) }
    {
        open_hand(&mut self.hands, process)?;
        hand_over_in(&mut self.hands, process);
        Ok(())
    }

    /// Takes in that a process here delivered an ABCAST that is not in the order known.
    pub fn tell(&mut self, process: Proc, id: (Proc, u32)) -> Result<(), NoMemory>
        ensures { OnOk result (self.new ≡ with_hand process (note_unlisted id) self.old) }
    {
        open_hand(&mut self.hands, process)?;
        tell_hand(&mut self.hands, process, id)?;
        Ok(())
    }

    /// Takes in that a process here sent a set-order message of this count, which sets places up to
    /// the last.
    pub fn note(
        &mut self,
        process: Proc,
        count: u32,
        last: usize,
        stable: u32,
    ) -> Result<(), NoMemory>
        ensures { OnOk result
            (self.new ≡ with_hand process (note_order_sent count last stable) self.old) }
    {
        open_hand(&mut self.hands, process)?;
        note_hand(&mut self.hands, process, count, last, stable)?;
        Ok(())
    }

    /// Whether a process here has something to list.
    pub fn waits(&self) -> bool
        ensures { result ≡ waits_in self.now }
    {
        some_wait(&self.hands)
    }

    /// The first place that a process here orders, where it holds the token.
    pub fn first(&self, process: Proc) -> Option<u32>
        ensures { result ≡ (hand_here self.now process).first }
    {
        match hand_among(&self.hands, process) {
            Some(hand) => hand.first(),
            None => None,
        }
    }

    /// What is kept of processes that order the view's ABCASTs, or did, in rising order of the
    /// processes.
    pub fn hands(&self) -> &[OrderHand]
        ensures { result.now ≡ self.now.hands }
    {
        &self.hands
    }

    /// How many places it has settled.
    pub fn settled_places(&self, process: Proc, stable: u32) -> usize
        ensures { result ≡ settled_by stable (hand_here self.now process) }
    {
        match hand_among(&self.hands, process) {
            Some(hand) => hand.settled_places(stable),
            None => 0,
        }
    }

    /// The ABCASTs that it has to list.
    pub fn ids_to_list(&self, process: Proc) -> &[(Proc, u32)]
        ensures { result.now ≡ (hand_here self.now process).waiting }
    {
        match hand_among(&self.hands, process) {
            Some(hand) => hand.ids_to_list(),
            None => &[],
        }
    }

    // The ABCASTs that a process has to list, if there is a process.
    fn waiting_of(&self, holder: Option<Proc>) -> &[(Proc, u32)]
        ensures { result.now ≡ waiting_of self.now holder }
    {
        match holder {
            Some(process) => self.ids_to_list(process),
            None => &[],
        }
    }

    /// The ids kept of the order known past so many places.
    pub fn ids_past(&self, place: usize) -> &[(Proc, u32)]
        ensures { result.now ≡ known_past place self.now }
    {
        past_first(&self.window, place.saturating_sub(self.base as usize))
    }

    /// How many ids are forgotten.
    pub fn forgotten_count(&self) -> usize
        ensures { result ≡ self.now.base }
    {
        self.base as usize
    }

    /// The places that the next set-order message of a process sets.
    pub fn assign(&self, process: Proc) -> Result<Option<Placement>, NoMemory>
        ensures { IfOk result (λ q. q ≡ next_places self.now process) }
    {
        let waiting = self.ids_to_list(process);
        if waiting.is_empty() || MAX_POSITION as usize <= self.length() {
            return Ok(None);
        }
        let first = self.length() as u32 + 1;
        let ids = Vec::from_slice(*self.window.allocator(), first_ids(waiting, MAX_PLACED))?;
        Ok(Some(Placement::from_parts(first, ids, None)))
    }

    /// Whether an id is kept of the order known, or waits to be listed by the holder.
    pub fn knows(&self, holder: Option<Proc>, id: (Proc, u32)) -> bool
        ensures { result ≡ is_among entry_eq id (whole_kept self.now holder) }
    {
        holds(&self.window, id) || holds(self.waiting_of(holder), id)
    }

    /// How many ids stand before the tail of the whole order, and its ids, as far as they are kept.
    pub fn tail(&self, holder: Option<Proc>) -> Result<(usize, List<(Proc, u32)>), NoMemory>
        ensures { IfOk result
            (λ t. t ≡ (tail_start_in self.now holder, tail_ids_in self.now holder)) }
    {
        let waiting = self.waiting_of(holder);
        let known = self.length();
        // No memory holds more ids than a number counts.
        let Some(whole) = known.checked_add(waiting.len()) else {
            return Err(AllocError);
        };
        let base = self.base as usize;
        let start = base.max(whole.saturating_sub(MAX_TAIL));
        let alloc = *self.window.allocator();
        let mut ids = Vec::from_slice(alloc, past_first(&self.window, start - base))?;
        ids.extend_from_slice(past_first(waiting, start.saturating_sub(known)))?;
        Ok((start, List::from_vec(ids)))
    }
}

// The ids behind the first ones.
fn past_first(ids: &[(Proc, u32)], count: usize) -> &[(Proc, u32)]
    ensures { result.now ≡ drop count ids.now }
{
    &ids[count.min(ids.len())..]
}

// The first ids, at most so many.
fn first_ids(ids: &[(Proc, u32)], count: usize) -> &[(Proc, u32)]
    ensures { result.now ≡ take count ids.now }
{
    &ids[..count.min(ids.len())]
}

// Removes the first ids.
fn remove_first(ids: &mut Vec<(Proc, u32)>, count: usize)
    ensures { ids.new.items ≡ drop count ids.old.items }
{
    let count = count.min(ids.len());
    ids.drain(..count);
}

// The first id told for a place.
fn id_at(facts: &BTreeMap<usize, (Proc, u32)>, place: usize) -> Option<(Proc, u32)>
    ensures { result ≡ id_at facts.now.entries place }
{
    facts.get(&place).copied()
}

// Adds a fact of a place past those known, where it is the first one of the place.
fn add_fact(
    facts: &mut BTreeMap<usize, (Proc, u32)>,
    known: usize,
    place: usize,
    id: (Proc, u32),
) -> Result<(), NoMemory>
    ensures { OnOk result (facts.new.entries ≡ with_fact known facts.old.entries place id) }
{
    if known < place && place <= MAX_POSITION as usize && id_at(facts, place).is_none() {
        facts.insert(place, id)?;
    }
    Ok(())
}

// Adds the facts of a place and those after it.
fn add_facts(
    facts: &mut BTreeMap<usize, (Proc, u32)>,
    known: usize,
    first: u32,
    ids: &[(Proc, u32)],
) -> Result<(), NoMemory>
    ensures { OnOk result
        (facts.new.entries ≡ with_facts known facts.old.entries (enumerate_from first ids.now)) }
{
    let mut place = first as usize;
    for id in ids {
        add_fact(facts, known, place, *id)?;
        place += 1;
    }
    Ok(())
}

// Adds to the ids known behind the first ones what the facts tell of the places behind them, up to
// a gap.
fn extend(
    window: &mut Vec<(Proc, u32)>,
    base: u32,
    facts: &BTreeMap<usize, (Proc, u32)>,
) -> Result<(), NoMemory>
    ensures { OnOk result (window.new.items ≡ with_next base window.old.items facts.now.entries) }
{
    for place in base as usize + window.len() + 1..MAX_POSITION as usize + 1 {
        let Some(id) = id_at(facts, place) else {
            break;
        };
        window.push(id)?;
    }
    Ok(())
}

// Keeps the ids within the cut.
fn keep_within(ids: &mut Vec<(Proc, u32)>, cut: &Counts)
    ensures { ids.new.items ≡ filter (is_within cut.now) ids.old.items }
{
    ids.retain(|id| id.1 <= cut.get(id.0));
}

// Keeps the facts of places past those known.
fn keep_past(facts: &mut BTreeMap<usize, (Proc, u32)>, known: usize)
    ensures { facts.new.entries ≡ past known facts.old.entries }
{
    while let Some((place, _)) = facts.first_key_value() {
        if known < *place {
            break;
        }
        facts.pop_first();
    }
}
