ghost use Rattle.std.specs.Prelude.{◌≡◌, ℕ, ◌<◌, ◌≤◌, ◌∷◌, ◌++◌, [], true, IfOk};
ghost use Rattle.std.specs.Prelude.{IfSome, OnOk, OnErr, length, take, slice_get};
ghost use Rattle.std.specs.Prelude.{slice_range, slice_index_or, Some};
ghost use Rattle.std.specs.VecDeque.{deque_len};
ghost use Rattle.std.specs.List.{position, remove};
ghost use Rattle.std.specs.Option.{option_copied, option_map};
ghost use Rattle.cast_message.specs.Receipts.{key_eq};
ghost use Rattle.cast_index.specs.Rises.{rises, all_below};
ghost use Rattle.cast_delay.specs.Queue.{candidate_for, first_for, offered_under, but_offered};
ghost use Rattle.cast_ready.specs.Rows.{is_causally_ready_row, is_ready_row};
ghost use Rattle.cast_delay.specs.Offers.{key_of, none_of, is_ready_under};
ghost use Rattle.cast_delay.specs.Offers.{is_candidate_under, AreOrderly};

use cast_ready::{Gate, Offered, Row, Turn};
use cast_types::{GroupNo, Key, NoMemory, SortedMap};
use std::alloc::Global;
use std::collections::VecDeque;
use std::marker::Model;

/// Messages as the queue holds them, in order of receipt. Contracts see the list.
#[derive(Drop)]
pub struct Offers {
    messages: VecDeque<Offered>,
    /// A number above all keys, as long as the messages are orderly: keys rise in order of receipt.
    /// Then a message is found by halving.
    above: Option<usize>,
}

impl Model for Offers {
    ghost use Rattle.std.specs.Prelude.{List};
    ghost use Rattle.cast_ready.specs.declared.offered.Offered.{Offered};
    ghost use Rattle.cast_ready.specs.Rows.{is_causally_ready_row, is_ready_row};
    ghost use Rattle.cast_delay.specs.Offers.{AreOrderly};

    ghost Value = { List Offered };

    ghost view = { λ o. o.messages.items };

    ghost invariant = { λ o. AreOrderly o.above o.messages.items };
}

impl Offers {
    /// No messages.
    pub fn new(alloc: Global) -> Self
        ensures { result ≡ [] }
    {
        Offers {
            messages: VecDeque::new(alloc),
            above: Some(0),
        }
    }

    /// An equal value.
    pub fn copy(&self) -> Result<Self, NoMemory>
        ensures { IfOk result (λ copy. copy ≡ self.now) }
    {
        Ok(Offers {
            messages: copy_messages(&self.messages)?,
            above: self.above,
        })
    }

    /// How many there are.
    pub fn len(&self) -> usize
        ensures { result ≡ length self.now }
    {
        self.messages.len()
    }

    /// The message at a place.
    pub fn at(&self, place: usize) -> &Offered
        requires { place < length self.now }
        ensures { result.now ≡ slice_index_or self.now place result.now }
    {
        &self.messages[place]
    }

    /// Adds a message, the last one. `NoMemory` changes nothing.
    pub fn push(&mut self, offered: Offered) -> Result<(), NoMemory>
        ensures ok { OnOk result (self.new ≡ self.old ++ offered ∷ []) }
        ensures err { OnErr result (self.new ≡ self.old) }
    {
        let above = above_with(self.above, offered.key);
        self.messages.push_back(offered)?;
        self.above = above;
        Ok(())
    }

    /// The first message under a key.
    pub fn under(&self, key: Key) -> Option<&Offered>
        ensures { option_copied result ≡ offered_under self.now key }
    {
        match self.above {
            Some(_) => found_under(&self.messages, key),
            None => first_under(&self.messages, key),
        }
    }

    /// A number above all keys, where keys rise in order of receipt.
    pub fn above(&self) -> Option<usize>
        ensures { IfSome result
            (λ top. (rises key_of self.now ≡ true) × (all_below key_of top self.now ≡ true)) }
    {
        self.above
    }

    /// How many messages have keys below a number, where keys rise.
    pub fn count_below(&self, number: usize) -> usize
        requires { rises key_of self.now ≡ true }
        ensures within { result ≤ length self.now }
        ensures below { all_below key_of number (take result self.now) ≡ true }
    {
        self.messages
            .partition_point(|offered| offered.key.0 < number)
    }

    /// Whether the message under a key is ready for a row, where these are the turns of groups.
    pub fn is_ready(
        &self,
        key: Key,
        turns: &[(GroupNo, Turn)],
        gates: &SortedMap<GroupNo, Gate>,
        row: &Row,
    ) -> bool
        ensures { result ≡ is_ready_under turns.now gates.now row.now self.now key.0 }
    {
        match self.under(key) {
            Some(offered) => row.is_ready(turns, gates, offered, &[]),
            None => false,
        }
    }

    /// Whether it is so but for the turns of groups.
    pub fn is_candidate(&self, key: Key, gates: &SortedMap<GroupNo, Gate>, row: &Row) -> bool
        ensures { result ≡ is_candidate_under gates.now row.now self.now key.0 }
    {
        match self.under(key) {
            Some(offered) => row.is_causally_ready(gates, offered.id, &offered.times, &[]),
            None => false,
        }
    }

    /// The key of the first message that is ready for a row, where these are the turns of groups
    /// and none of the first ones is ready.
    pub fn first_ready(
        &self,
        first: usize,
        turns: &[(GroupNo, Turn)],
        gates: &SortedMap<GroupNo, Gate>,
        row: &Row,
    ) -> Option<Key>
        requires within { first ≤ length self.now }
        requires none { none_of (is_ready_row turns.now gates.now row.now) first self.now ≡ true }
        ensures { result
            ≡ option_map (λ o. o.key) (first_for turns.now gates.now self.now row.now) }
    {
        let offered = first_from(&self.messages, first, turns, gates, row)?;
        Some(offered.key)
    }

    /// The first message that is ready for a row but for the turns of groups, where none of the
    /// first ones is.
    pub fn first_candidate(
        &self,
        first: usize,
        gates: &SortedMap<GroupNo, Gate>,
        row: &Row,
    ) -> Option<&Offered>
        requires within { first ≤ length self.now }
        requires none { none_of (λ o. is_causally_ready_row gates.now row.now o.id o.times)
            first self.now ≡ true }
        ensures { option_copied result ≡ candidate_for gates.now self.now row.now }
    {
        candidate_from(&self.messages, first, gates, row)
    }

    /// Keeps what is under other keys. The result says how many of those are among the first ones.
    /// Takes no memory.
    pub fn forget(&mut self, key: Key, first: usize) -> usize
        requires { first ≤ length self.old }
        ensures items { self.new ≡ but_offered key self.old }
        ensures first { result ≡ length (but_offered key (take first self.old)) }
    {
        match self.above {
            Some(_) => forget_found(&mut self.messages, key, first),
            None => forget_all(&mut self.messages, key, first),
        }
    }
}

// A number above all keys, also with one more, where they rise then.
fn above_with(above: Option<usize>, key: Key) -> Option<usize>
    ensures { IfSome result (λ top. (n : ℕ) × (above ≡ Some n) × (n ≤ key.0) × (key.0 < top)) }
{
    let least = above?;
    if key.0 < least {
        return None;
    }
    key.0.checked_add(1)
}

// The first message from a place on that is ready for a row.
fn first_from<'a>(
    messages: &'a VecDeque<Offered>,
    first: usize,
    turns: &[(GroupNo, Turn)],
    gates: &SortedMap<GroupNo, Gate>,
    row: &Row,
) -> Option<&'a Offered>
    requires { first ≤ length messages.now.items }
    ensures { option_copied result ≡ first_for turns.now gates.now
        (slice_range messages.now.items first (deque_len messages.now)) row.now }
{
    messages
        .range(first..)
        .find(|offered| row.is_ready(turns, gates, offered, &[]))
}

// The first message from a place on that is ready for a row but for the turns of groups.
fn candidate_from<'a>(
    messages: &'a VecDeque<Offered>,
    first: usize,
    gates: &SortedMap<GroupNo, Gate>,
    row: &Row,
) -> Option<&'a Offered>
    requires { first ≤ length messages.now.items }
    ensures { option_copied result ≡ candidate_for gates.now
        (slice_range messages.now.items first (deque_len messages.now)) row.now }
{
    messages.range(first..).find(|offered| row.is_causally_ready(
        gates,
        offered.id,
        &offered.times,
        &[],
    ))
}

// The message at a place.
fn at(messages: &VecDeque<Offered>, place: usize) -> Option<&Offered>
    ensures { option_copied result ≡ slice_get messages.now.items place }
{
    messages.get(place)
}

// Where the message under a key stands.
fn place_under(messages: &VecDeque<Offered>, key: Key) -> Option<usize>
    requires { rises key_of messages.now.items ≡ true }
    ensures { result ≡ position (λ o. key_eq o.key key) messages.now.items }
{
    match messages.binary_search_by_key(&key.0, |offered| offered.key.0) {
        Ok(place) => Some(place),
        Err(_) => None,
    }
}

// The message under a key, where keys rise.
fn found_under(messages: &VecDeque<Offered>, key: Key) -> Option<&Offered>
    requires { rises key_of messages.now.items ≡ true }
    ensures { option_copied result ≡ offered_under messages.now.items key }
{
    let place = place_under(messages, key)?;
    at(messages, place)
}

// The first message under a key.
fn first_under(messages: &VecDeque<Offered>, key: Key) -> Option<&Offered>
    ensures { option_copied result ≡ offered_under messages.now.items key }
{
    messages.iter().find(|offered| offered.key == key)
}

// Keeps what is under other keys, where the messages are orderly. The result says how many of those
// are among the first ones.
fn forget_found(messages: &mut VecDeque<Offered>, key: Key, first: usize) -> usize
    requires rising { rises key_of messages.old.items ≡ true }
    requires first { first ≤ length messages.old.items }
    ensures items { messages.new.items ≡ but_offered key messages.old.items }
    ensures first { result ≡ length (but_offered key (take first messages.old.items)) }
{
    let Some(place) = place_under(messages, key) else {
        return first;
    };
    take_out(messages, place);
    if place < first { first - 1 } else { first }
}

// Takes out the message at a place.
fn take_out(messages: &mut VecDeque<Offered>, place: usize)
    requires { place < length messages.old.items }
    ensures { messages.new.items ≡ remove messages.old.items place }
{
    let _ = messages.remove(place);
}

// Keeps what is under other keys. The result says how many of those are among the first ones.
fn forget_all(messages: &mut VecDeque<Offered>, key: Key, first: usize) -> usize
    requires { first ≤ length messages.old.items }
    ensures items { messages.new.items ≡ but_offered key messages.old.items }
    ensures first { result ≡ length (but_offered key (take first messages.old.items)) }
{
    let kept = kept_among(messages, key, first);
    retain_others(messages, key);
    kept
}

// How many of the first messages are under other keys.
fn kept_among(messages: &VecDeque<Offered>, key: Key, first: usize) -> usize
    requires { first ≤ length messages.now.items }
    ensures { result ≡ length (but_offered key (take first messages.now.items)) }
{
    messages
        .range(..first)
        .filter(|offered| offered.key != key)
        .count()
}

// Keeps what is under other keys.
fn retain_others(messages: &mut VecDeque<Offered>, key: Key)
    ensures { messages.new.items ≡ but_offered key messages.old.items }
{
    messages.retain(|offered| offered.key != key);
}

// Messages, copied.
fn copy_messages(messages: &VecDeque<Offered>) -> Result<VecDeque<Offered>, NoMemory>
    ensures { IfOk result (λ copy. copy.items ≡ messages.now.items) }
{
    let mut copied = VecDeque::with_capacity(*messages.allocator(), messages.len())?;
    for message in messages {
        copied.push_back(message.copy()?)?;
    }
    Ok(copied)
}
