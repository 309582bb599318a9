ghost use Rattle.std.specs.Prelude.{◌≡◌, ◌⊎◌, ◌<◌, ◌≤◌, true, false, take, length, Contains, OnOk};
ghost use Rattle.std.specs.List.{find};
ghost use Rattle.std.specs.List.Sorted.{IsStrictlySortedBy};
ghost use Rattle.std.specs.Option.{option_copied, option_map};
ghost use Rattle.std.specs.Ordering.{nat_cmp};
ghost use Rattle.cast_index.specs.Index.{has};
ghost use Rattle.cast_index.specs.Rises.{rises, all_below};
ghost use Rattle.cast_ready.specs.declared.offered.Offered.{Offered};
ghost use Rattle.cast_delay.specs.Offers.{key_of, is_ready_under, is_candidate_under};
ghost use Rattle.cast_delay.specs.Waits.{is_awake, IsKnown, IsWithin, IsWaking, AreKnown, Adds};
ghost use Rattle.cast_ready.specs.Rows.{awaits_now};

use crate::offers::Offers;
use cast_index::Index;
use cast_ready::{Gate, Offered, Row, Turn};
use cast_types::{GroupNo, Key, NoMemory, Proc, SortedMap, Uid};
use std::alloc::Global;
use std::collections::BTreeSet;

/// What was looked at of the messages for a process, each once. A message that the process awaits
/// is awake, or filed under one id, until the process delivers it; so there are no more entries
/// than messages that it awaits, but for those that were forgotten before it had them. All go once
/// few messages wait, a view ends or the process enters or leaves a group.
#[derive(Drop)]
pub struct Looked {
    pub process: Proc,
    /// Messages whose keys are below it were looked at.
    pub below: usize,
    /// The keys of those that no missing message held back.
    pub awake: BTreeSet<usize>,
    /// The keys of the others, each under the id of a message that is to be delivered before.
    pub filed: Index,
}

impl Looked {
    /// Nothing was looked at.
    pub fn new(alloc: Global, process: Proc) -> Self
        ensures process { result.process ≡ process }
        ensures below { result.below ≡ 0 }
        ensures within { IsWithin result }
    {
        Looked {
            process,
            below: 0,
            awake: BTreeSet::new(alloc),
            filed: Index::new(alloc),
        }
    }

    /// The key of the first message that is awake and ready for the row, where these are the turns
    /// of groups.
    pub fn first_ready(
        &self,
        offered: &Offers,
        turns: &[(GroupNo, Turn)],
        gates: &SortedMap<GroupNo, Gate>,
        row: &Row,
    ) -> Option<Key>
        ensures value { option_map (λ k. k.0) result
            ≡ find (is_ready_under turns.now gates.now row.now offered.now) self.now.awake.keys }
        ensures rising { IsStrictlySortedBy nat_cmp self.now.awake.keys }
    {
        match found_ready(&self.awake, offered, turns, gates, row) {
            Some(key) => Some(Key(*key)),
            None => None,
        }
    }

    /// The key of the first message that is awake and ready for the row but for the turns of
    /// groups.
    pub fn first_candidate(
        &self,
        offered: &Offers,
        gates: &SortedMap<GroupNo, Gate>,
        row: &Row,
    ) -> Option<Key>
        ensures value { option_map (λ k. k.0) result
            ≡ find (is_candidate_under gates.now row.now offered.now) self.now.awake.keys }
        ensures rising { IsStrictlySortedBy nat_cmp self.now.awake.keys }
    {
        match found_candidate(&self.awake, offered, gates, row) {
            Some(key) => Some(Key(*key)),
            None => None,
        }
    }

    /// Looks at the messages from a place on. Their keys are below `above`, and those before them
    /// are known. After `NoMemory` it is of no further use.
    pub fn look(
        &mut self,
        above: usize,
        first: usize,
        offered: &Offers,
        gates: &SortedMap<GroupNo, Gate>,
        row: &Row,
    ) -> Result<(), NoMemory>
        requires above { all_below key_of above offered.now ≡ true }
        requires first { first ≤ length offered.now }
        requires before { (o : Offered) → Contains (take first offered.now) o
            → IsKnown gates.now row.now self.old o }
        requires within { IsWithin self.old }
        ensures known { OnOk result (AreKnown gates.now row.now offered.now self.new) }
        ensures process { self.new.process ≡ self.old.process }
    {
        self.below = self.below.max(above);
        for place in first..offered.len() {
            self.judge(gates, row, offered.at(place))?;
        }
        Ok(())
    }

    /// Takes in that the process delivered the message of an id, which has this key: looks again at
    /// what was filed under it. `false` after `NoMemory`, or where more was filed than there are
    /// messages: then it is of no further use.
    pub fn wake(
        &mut self,
        id: Uid,
        key: Key,
        offered: &Offers,
        gates: &SortedMap<GroupNo, Gate>,
        row: &Row,
    ) -> bool
        requires rising { rises key_of offered.now ≡ true }
        requires within { IsWithin self.old }
        requires waking { (o : Offered) → Contains offered.now o → o.key.0 < self.old.below
            → IsWaking gates.now row.now id self.old o }
        requires taken { (o : Offered) → Contains offered.now o → o.key.0 ≡ key.0
            → awaits_now gates.now row.now o.id ≡ false }
        ensures known { result ≡ true → AreKnown gates.now row.now offered.now self.new }
        ensures process { self.new.process ≡ self.old.process }
    {
        self.awake.remove(&key.0);
        for _turn in 0..=offered.len() {
            let Some(next) = self.filed.key_of(id) else {
                return true;
            };
            if self.wake_one(id, next, offered, gates, row).is_err() {
                return false;
            }
        }
        false
    }

    // Looks again at the message under a key that is filed under an id.
    fn wake_one(
        &mut self,
        id: Uid,
        key: Key,
        offered: &Offers,
        gates: &SortedMap<GroupNo, Gate>,
        row: &Row,
    ) -> Result<(), NoMemory>
        requires rising { rises key_of offered.now ≡ true }
        requires there { has self.old.filed id key ≡ true }
        requires within { IsWithin self.old }
        ensures within { OnOk result (IsWithin self.new) }
        ensures waking { OnOk result ((o : Offered) → Contains offered.now o
            → IsWaking gates.now row.now id self.old o → IsWaking gates.now row.now id self.new o) }
        ensures process { self.new.process ≡ self.old.process }
        ensures below { OnOk result (self.new.below ≡ self.old.below) }
    {
        self.filed.remove(id, key);
        if let Some(message) = offered.under(key) {
            self.judge(gates, row, message)?;
        }
        Ok(())
    }

    // Looks at a message: files it under one that it waits for, or else wakes it where it is
    // awaited.
    fn judge(
        &mut self,
        gates: &SortedMap<GroupNo, Gate>,
        row: &Row,
        offered: &Offered,
    ) -> Result<(), NoMemory>
        ensures known { OnOk result (IsKnown gates.now row.now self.new offered.now) }
        ensures adds { OnOk result (Adds offered.now.key self.old self.new) }
        ensures process { self.new.process ≡ self.old.process }
    {
        if !row.awaits_now(gates, offered.id) {
            return Ok(());
        }
        match row.missing_before(gates, offered) {
            Some(id) => {
                self.filed.insert(id, offered.key)?;
            }
            None => {
                self.awake.insert(offered.key.0)?;
            }
        }
        Ok(())
    }
}

// The first of these keys whose message is ready for the row.
fn found_ready<'a>(
    awake: &'a BTreeSet<usize>,
    offered: &Offers,
    turns: &[(GroupNo, Turn)],
    gates: &SortedMap<GroupNo, Gate>,
    row: &Row,
) -> Option<&'a usize>
    ensures value { option_copied result
        ≡ find (is_ready_under turns.now gates.now row.now offered.now) awake.now.keys }
    ensures rising { IsStrictlySortedBy nat_cmp awake.now.keys }
{
    awake
        .iter()
        .find(|key| offered.is_ready(Key(**key), turns, gates, row))
}

// The first of these keys whose message is ready for the row but for the turns of groups.
fn found_candidate<'a>(
    awake: &'a BTreeSet<usize>,
    offered: &Offers,
    gates: &SortedMap<GroupNo, Gate>,
    row: &Row,
) -> Option<&'a usize>
    ensures value { option_copied result
        ≡ find (is_candidate_under gates.now row.now offered.now) awake.now.keys }
    ensures rising { IsStrictlySortedBy nat_cmp awake.now.keys }
{
    awake
        .iter()
        .find(|key| offered.is_candidate(Key(**key), gates, row))
}
