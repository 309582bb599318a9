ghost use Rattle.std.specs.Prelude.{◌≡◌, ◌≤◌, ◌<◌, ◌++◌, ◌∷◌, ℕ, [], true, false, IfOk};
ghost use Rattle.std.specs.Prelude.{IfSome, OnOk, Some, not, length, slice_get, map, filter};
ghost use Rattle.cast_ready.specs.declared.row.Row.{Row};
ghost use Rattle.std.specs.Option.{option_copied, option_map, option_map_or, option_and_then};
ghost use Rattle.std.specs.FinMap.Entries.{put};
ghost use Rattle.cast_types.specs.Names.{proc_eq};
ghost use Rattle.cast_types.specs.declared.names.GroupNo.{GroupNo};
ghost use Rattle.cast_types.specs.declared.names.Proc.{Proc};
ghost use Rattle.cast_types.specs.declared.names.Standing.TheVariants.{Outside};
ghost use Rattle.cast_message.specs.Receipts.{key_eq};
ghost use Rattle.cast_ready.specs.declared.turn.Turn.{Turn};
ghost use Rattle.cast_ready.specs.Ready.{frozen_gate, pending_gate, has_delivered};
ghost use Rattle.cast_index.specs.Rises.{rises};
ghost use Rattle.cast_ready.specs.Rows.{ended_row, told_row, standing_in, AreLow};
ghost use Rattle.cast_ready.specs.Rows.{is_ready_row, is_causally_ready_row, new_row};
ghost use Rattle.cast_delay.specs.Offers.{key_of, none_of};
ghost use Rattle.cast_delay.specs.Waits.{next_under, looked_of, waits_despite, IsUnseen};
ghost use Rattle.cast_delay.specs.Waits.{IsUnseenBy, AreKnown, AreLookedAt, AreToWake};
ghost use Rattle.cast_ready.specs.DeliveredCounts.{counts_in};
ghost use Rattle.cast_delay.specs.Queue.{row_of, but_row, change_row, first_for};
ghost use Rattle.cast_delay.specs.Queue.{offered_under, next_key, candidate_for};
ghost use Rattle.cast_delay.specs.Queue.{candidate_in, delivered_in, passed_in, but_offered};
ghost use Rattle.cast_delay.specs.Queue.{is_awaited, least_in, after_delivery, reached_after};
ghost use Rattle.cast_delay.specs.Queue.{queue_viewing, queue_delivering, queue_gating};
ghost use Rattle.cast_delay.specs.Fits.{offer_of};
ghost use Rattle.cast_delay.specs.Settled.{is_settled, AreSettled, despite_fact};
ghost use Rattle.cast_delay.specs.Settled.{is_next_of, despite_delivery};
ghost use Rattle.std.specs.Prelude.{Contains, ◌||◌, ◌+◌};
ghost use Rattle.std.specs.List.{list_all};
ghost use Rattle.cast_clock.specs.Times.{at_most};
ghost use Rattle.cast_ready.specs.declared.offered.Offered.{Offered};
ghost use Rattle.cast_delay.specs.Floors.{IsUnder, IsFloor, covers_told, stays_delivered};
ghost use Rattle.cast_delay.specs.Floors.{groups_of};
ghost use Rattle.cast_delay.specs.Says.{SaysAwaited, SaysFirstReady, SaysMayDeliver};
ghost use Rattle.cast_delay.specs.Says.{SaysCandidate, SaysDelivered, SaysPassed};
ghost use Rattle.cast_delay.specs.Says.{SaysReached, SaysTime, SaysStanding};

use crate::floor::Floor;
use crate::looked::Looked;
use crate::offers::Offers;
use crate::rows::Rows;
use crate::waits::Waits;
use cast_clock::Times;
use cast_message::Message;
use cast_ready::gate::{copy_gates, frozen_in, number_in};
use cast_ready::{DeliveredCounts, Gate, Offered, ProcessUpdate, Row, Turn};
use cast_types::limits::MAX_NUMBER;
use cast_types::{
    Counts, GroupNo, Key, NoMemory, Proc, SiteNo, SortedMap, Source, Stamp, Standing, Uid,
};
use std::alloc::Global;
use std::marker::Model;

/// So many messages are looked at one by one; where more wait, it is noted what each waits for.
const FEW: usize = 16;

/// The delay queue of a domain: messages in order of receipt, and what decides for each local
/// process which of them it may deliver. Contracts see a `Queue`.
#[derive(Drop)]
pub struct Delay {
    gates: SortedMap<GroupNo, Gate>,
    offered: Offers,
    /// How many messages, from the first on, are known to be settled: no process here awaits them
    /// any more, or their view is not the one that stands. None of them is ready for any process,
    /// so a question looks at those behind them alone, and of these only at what is not known to
    /// wait for others.
    settled: usize,
    waits: Waits,
    rows: Rows,
    reached: DeliveredCounts,
    floor: Floor,
}

impl Model for Delay {
    ghost use Rattle.cast_delay.specs.Queue.{Queue};
    ghost use Rattle.cast_delay.specs.Waits.{MayBePassed};

    ghost Value = { Queue };

    ghost view = { λ d. record {
      gates = d.gates;
      offered = d.offered;
      rows = d.rows;
      reached = d.reached;
    } };

    ghost invariant = { λ d. MayBePassed d.gates d.rows d.offered d.settled d.waits d.floor };
}

impl Delay {
    /// No messages, no views and no processes.
    pub fn new(alloc: Global) -> Self
        ensures { result ≡ record { gates = []; offered = []; rows = []; reached = [] } }
    {
        Delay {
            gates: SortedMap::new(alloc),
            offered: Offers::new(alloc),
            settled: 0,
            waits: Waits::new(alloc),
            rows: Rows::new(alloc),
            reached: DeliveredCounts::new(alloc),
            floor: Floor::new(alloc),
        }
    }

    /// An equal value.
    pub fn copy(&self) -> Result<Self, NoMemory>
        ensures { IfOk result (λ queue. queue ≡ self.now) }
    {
        Ok(Delay {
            gates: copy_gates(&self.gates)?,
            offered: self.offered.copy()?,
            settled: self.settled,
            waits: Waits::new(self.gates.alloc()),
            rows: self.rows.copy()?,
            reached: self.reached.copy()?,
            floor: Floor::new(self.gates.alloc()),
        })
    }

    /// Adds a process that is in no group. `NoMemory` leaves the queue of no further use, as in all
    /// its calls.
    pub fn admit(&mut self, process: Proc) -> Result<(), NoMemory>
        ensures { OnOk result
            (self.new ≡ record self.old { rows = self.old.rows ++ new_row process ∷ [] }) }
    {
        self.floor.clear();
        self.rows.admit(process)
    }

    /// Forgets a process that is in no group. Takes no memory.
    pub fn dismiss(&mut self, process: Proc)
        ensures { self.new ≡ record self.old {
          rows = filter (λ r. not (proc_eq r.process process)) self.old.rows;
        } }
    {
        self.floor.clear();
        self.waits.forget(process);
        self.rows.dismiss(process);
    }

    /// How many processes are admitted: those that were, but the dismissed. Takes no memory.
    pub fn admitted_count(&self) -> usize
        ensures { result ≡ length self.now.rows }
    {
        self.rows.as_slice().len()
    }

    /// The admitted process at a place, in the order in which they were admitted, `None` past the
    /// last one. Takes no memory.
    pub fn process_at(&self, place: usize) -> Option<Proc>
        ensures { result ≡ option_map (λ r. r.process) (slice_get self.now.rows place) }
    {
        let row = self.rows.as_slice().get(place)?;
        Some(row.process)
    }

    /// Takes in a fact about a process.
    pub fn tell(&mut self, process: Proc, fact: &ProcessUpdate) -> Result<(), NoMemory>
        ensures { OnOk result (self.new
            ≡ record self.old { rows = change_row process (told_row fact.now) self.old.rows }) }
    {
        let settled = despite_fact(fact, self.settled);
        self.settled = 0;
        let mut waits = self.waits.take();
        tell_rows(
            &mut self.rows,
            &mut self.floor,
            &self.offered,
            process,
            fact,
        )?;
        forget_told(&mut waits, process, fact);
        self.waits = waits;
        self.settled = settled_from(&self.gates, &self.offered, &self.rows, settled);
        Ok(())
    }

    /// Takes in the number of a group's new view, which no flush has frozen. What was delivered of
    /// views below it is forgotten.
    pub fn note_view(&mut self, group: GroupNo, number: u32) -> Result<(), NoMemory>
        ensures { OnOk result (self.new ≡ queue_viewing group number self.old) }
    {
        self.settled = 0;
        self.floor.clear();
        self.waits.clear();
        self.gates.put(group, Gate::new(number))?;
        self.rows.end(group, number);
        self.reached.end(group, number);
        self.settled = settled_from(&self.gates, &self.offered, &self.rows, 0);
        Ok(())
    }

    /// Freezes a group: of its messages only those are delivered that are within its cut, where an
    /// Install waits.
    pub fn freeze(&mut self, group: GroupNo) -> Result<(), NoMemory>
        ensures { OnOk result (self.new ≡ queue_gating group frozen_gate self.old) }
    {
        let gate = frozen_in(&self.gates, group)?;
        self.gates.put(group, gate)?;
        Ok(())
    }

    /// Takes in that the Install of a group's next view waits, with this cut: the group is frozen,
    /// and of its messages those within the cut are delivered.
    pub fn pend(&mut self, group: GroupNo, cut: &Counts) -> Result<(), NoMemory>
        ensures { OnOk result (self.new ≡ queue_gating group (pending_gate cut.now) self.old) }
    {
        let number = number_in(&self.gates, group);
        let cut = Some(cut.copy()?);
        let gate = Gate {
            number,
            frozen: true,
            cut,
        };
        self.gates.put(group, gate)?;
        Ok(())
    }

    /// Adds a received message, the last one in order of receipt.
    pub fn offer(&mut self, key: Key, message: &Message) -> Result<(), NoMemory>
        ensures { OnOk result (self.new ≡ record self.old {
          offered = self.old.offered
              ++ offer_of (record { key = key; message = message.now }) ∷ [];
        }) }
    {
        self.offered.push(Offered {
            key,
            id: message.id,
            atomic: message.kind().is_atomic(),
            times: message.times.copy()?,
        })?;
        look_at(
            &mut self.floor,
            &self.rows,
            &self.offered,
            key,
            &message.times,
        );
        if self.offered.above().is_none() || !self.waits.are_upto(key.0) {
            self.waits.clear();
        }
        Ok(())
    }

    /// Offers the message under a key no more; where there is none, nothing changes. Takes no
    /// memory.
    pub fn forget(&mut self, key: Key)
        ensures { self.new ≡ record self.old {
          offered = filter (λ o. not (key_eq o.key key)) self.old.offered;
        } }
    {
        let settled = self.offered.forget(key, self.settled);
        self.settled = settled;
    }

    /// The id of the first message that is offered under a key, `None` where none is. Takes no
    /// memory.
    pub fn id_under(&self, key: Key) -> Option<Uid>
        ensures { result ≡ option_map (λ o. o.id) (offered_under self.now.offered key) }
    {
        let offered = self.offered.under(key)?;
        Some(offered.id)
    }

    /// Whether some process that is a member of a message's group has not delivered the message,
    /// whose view has not ended and whose count is from 1 on. Takes no memory.
    pub fn is_awaited(&self, id: Uid) -> bool
        ensures value { result ≡ is_awaited self.now.rows id }
        ensures meaning { SaysAwaited self.now id result }
    {
        self.rows.is_awaited(id)
    }

    /// The least count of a process's messages of a view that each member of the group here has
    /// delivered, 4,294,967,295 where there is no member. Takes no memory.
    pub fn least_delivered(&self, group: GroupNo, view: u32, process: Proc) -> u32
        ensures value { result ≡ least_in self.now.rows group view process }
    {
        least_in(self.rows.as_slice(), group, view, process)
    }

    /// Looks at the messages that came since the last call for the process, where these are many,
    /// and notes for each what it waits for. What is seen of the queue stays the same. It takes
    /// memory; without it later calls only take longer.
    pub fn look(&mut self, process: Proc)
        ensures { self.new ≡ self.old }
    {
        let Some(above) = self.offered.above() else {
            return;
        };
        if self.offered.len() - self.settled <= FEW {
            self.waits.forget(process);
            return;
        }
        let first = first_unseen_by(&self.waits, &self.offered, self.settled, process);
        if FEW < self.offered.len() - first {
            self.waits.look(
                process,
                above,
                first,
                &self.offered,
                &self.gates,
                &self.rows,
            );
        }
    }

    /// The first message in order of receipt that the process may deliver now, `None` where there
    /// is none. The first entry for a group in `turns` tells the process's turn there; an ABCAST of
    /// a group with none is not delivered. Takes no memory.
    pub fn next_ready(&self, process: Proc, turns: &[(GroupNo, Turn)]) -> Option<Key>
        ensures value { result ≡ next_key turns.now self.now process }
        ensures meaning { SaysFirstReady self.now process turns.now result }
    {
        let row = self.rows.find(process)?;
        if self.offered.len() - self.settled == 1 {
            return only_ready(
                &self.offered,
                self.settled,
                turns,
                &self.gates,
                row,
                &self.floor,
            );
        }
        match self.waits.find(process) {
            Some(looked) => {
                next_looked(looked, &self.offered, self.settled, turns, &self.gates, row)
            }
            None => self
                .offered
                .first_ready(self.settled, turns, &self.gates, row),
        }
    }

    /// The first message in order of receipt that is ready for the process but for the turns of
    /// groups. Where there is none, no message is ready for it, and where it is no ABCAST, it is
    /// the first that is ready, whatever the turns are. Takes no memory.
    pub fn first_candidate(&self, process: Proc) -> Option<&Offered>
        ensures value { option_copied result ≡ candidate_in self.now process }
        ensures meaning { SaysCandidate self.now process (option_copied result) }
    {
        let row = self.rows.find(process)?;
        if self.offered.len() - self.settled == 1 {
            return only_candidate(&self.offered, self.settled, &self.gates, row, &self.floor);
        }
        match self.waits.find(process) {
            Some(looked) => {
                candidate_looked(looked, &self.offered, self.settled, &self.gates, row)
            }
            None => self.offered.first_candidate(self.settled, &self.gates, row),
        }
    }

    /// Whether no message is ready for any process, whatever the turns of groups are, since each of
    /// the messages is settled. Takes no memory.
    pub fn is_settled(&self) -> bool
        ensures { (process : Proc) → SaysMayDeliver self.now process (not result) }
    {
        self.settled == self.offered.len()
    }

    /// The first place from one on, in the order in which processes were admitted, that is not
    /// known to be that of a process of this site which is in no group, and for which so no message
    /// is ready. Takes no memory.
    pub fn busy_from(&self, site: SiteNo, place: usize) -> usize
        ensures from { place ≤ result }
        ensures idle { (i : ℕ) (row : Row) → place ≤ i → i < result
            → slice_get self.now.rows i ≡ Some row
            → (row.process.site ≡ site) × SaysMayDeliver self.now row.process false }
    {
        self.rows.busy_from(site, place)
    }

    /// Whether the process, which was admitted, has delivered a message of a view that has not
    /// ended. Takes no memory.
    pub fn has_delivered(&self, process: Proc, id: Uid) -> bool
        ensures value { result ≡ delivered_in self.now process id }
        ensures meaning { SaysDelivered self.now process id result }
    {
        match self.rows.find(process) {
            Some(row) => row.has_delivered(id),
            None => false,
        }
    }

    /// How many of these ids, which are of a view of a group that has not ended, the process, which
    /// was admitted, has delivered before the first that it has not: 0 to their number. Takes no
    /// memory.
    pub fn delivered_prefix(
        &self,
        process: Proc,
        group: GroupNo,
        view: u32,
        ids: &[(Proc, u32)],
    ) -> usize
        ensures value { result ≡ passed_in self.now process group view ids.now }
        ensures meaning { SaysPassed self.now process group view ids.now result }
    {
        match self.rows.find(process) {
            Some(row) => row.delivered_prefix(group, view, ids),
            None => 0,
        }
    }

    /// Takes in that the process delivered a message.
    pub fn note_delivered(&mut self, process: Proc, key: Key) -> Result<(), NoMemory>
        ensures { OnOk result (self.new ≡ queue_delivering process key self.old) }
    {
        let settled = despite_delivery(
            self.rows.as_slice(),
            &self.offered,
            process,
            key,
            self.settled,
        );
        let next = next_kept(&self.waits, &self.rows, &self.offered, process, key);
        self.settled = 0;
        let mut waits = self.waits.take();
        deliver_rows(&mut self.rows, &mut self.floor, &self.offered, process, key)?;
        reach_in(&mut self.reached, &self.offered, key)?;
        wake_next(
            &mut waits,
            process,
            next,
            key,
            &self.offered,
            &self.gates,
            &self.rows,
        );
        self.waits = waits;
        self.settled = settled_from(&self.gates, &self.offered, &self.rows, settled);
        Ok(())
    }

    /// How far processes came in a view of a group that has not ended: of each process of whose
    /// messages one was delivered to a process here, also to one that is no member any more or was
    /// dismissed, the greatest count of these.
    pub fn greatest_counts(&self, group: GroupNo, view: u32) -> Result<Vec<(Proc, u32)>, NoMemory>
        ensures value { IfOk result
            (λ counts. counts.items ≡ counts_in group view self.now.reached) }
        ensures meaning { IfOk result (λ counts. SaysReached self.now group view counts.items) }
    {
        self.reached.counts(group, view)
    }

    /// The time of a process, `None` of one that was not admitted or was dismissed.
    pub fn time(&self, process: Proc) -> Option<&Times>
        ensures value { option_copied result
            ≡ option_map (λ r. r.time) (row_of self.now.rows process) }
        ensures meaning { SaysTime self.now process (λ t. t.now) result }
    {
        match self.rows.find(process) {
            Some(row) => Some(&row.time),
            None => None,
        }
    }

    /// What a process is in a group.
    pub fn standing(&self, process: Proc, group: GroupNo) -> Standing
        ensures value { result
            ≡ option_map_or (λ r. standing_in r group) (row_of self.now.rows process) Outside }
        ensures meaning { SaysStanding self.now process group result }
    {
        match self.rows.find(process) {
            Some(row) => row.standing(group),
            None => Standing::Outside,
        }
    }
}

// Whether a message is settled: no row awaits it, or its view is not the one that stands.
fn is_settled(gates: &SortedMap<GroupNo, Gate>, rows: &Rows, offered: &Offered) -> bool
    ensures { result ≡ is_settled gates.now rows.now offered.now }
{
    offered.id.view != number_in(gates, offered.id.group) || !rows.is_awaited(offered.id)
}

// How many messages from the first on are settled, where this many are.
fn settled_from(
    gates: &SortedMap<GroupNo, Gate>,
    offered: &Offers,
    rows: &Rows,
    first: usize,
) -> usize
    requires { AreSettled gates.now rows.now offered.now first }
    ensures { AreSettled gates.now rows.now offered.now result }
{
    let mut settled = first;
    while settled < offered.len() {
        if !is_settled(gates, rows, offered.at(settled)) {
            break;
        }
        settled += 1;
    }
    settled
}

// How many messages need not be looked at: so many are settled, and those behind them were looked
// at.
fn first_unseen(offered: &Offers, settled: usize, looked: &Looked) -> usize
    requires rising { rises key_of offered.now ≡ true }
    requires settled { settled ≤ length offered.now }
    ensures { IsUnseen offered.now settled looked.now result }
{
    settled.max(offered.count_below(looked.below))
}

// So many for a process, of which perhaps nothing is kept.
fn first_unseen_by(waits: &Waits, offered: &Offers, settled: usize, process: Proc) -> usize
    requires rising { rises key_of offered.now ≡ true }
    requires settled { settled ≤ length offered.now }
    ensures { IsUnseenBy offered.now settled (looked_of waits.now process) result }
{
    match waits.find(process) {
        Some(looked) => first_unseen(offered, settled, looked),
        None => settled,
    }
}

// The key of the first message that is ready for a row, of which this is kept, where so many
// messages are settled.
fn next_looked(
    looked: &Looked,
    offered: &Offers,
    settled: usize,
    turns: &[(GroupNo, Turn)],
    gates: &SortedMap<GroupNo, Gate>,
    row: &Row,
) -> Option<Key>
    requires rising { rises key_of offered.now ≡ true }
    requires settled { settled ≤ length offered.now }
    requires none { none_of (is_ready_row turns.now gates.now row.now) settled offered.now ≡ true }
    requires known { AreKnown gates.now row.now offered.now looked.now }
    ensures { result ≡ option_map (λ o. o.key) (first_for turns.now gates.now offered.now row.now) }
{
    match looked.first_ready(offered, turns, gates, row) {
        Some(key) => Some(key),
        None => {
            let first = first_unseen(offered, settled, looked);
            offered.first_ready(first, turns, gates, row)
        }
    }
}

// The first message that is ready for a row but for the turns of groups, of which this is kept,
// where so many messages are settled.
fn candidate_looked<'a>(
    looked: &Looked,
    offered: &'a Offers,
    settled: usize,
    gates: &SortedMap<GroupNo, Gate>,
    row: &Row,
) -> Option<&'a Offered>
    requires rising { rises key_of offered.now ≡ true }
    requires settled { settled ≤ length offered.now }
    requires none { none_of (λ o. is_causally_ready_row gates.now row.now o.id o.times)
        settled offered.now ≡ true }
    requires known { AreKnown gates.now row.now offered.now looked.now }
    ensures { option_copied result ≡ candidate_for gates.now offered.now row.now }
{
    match looked.first_candidate(offered, gates, row) {
        Some(key) => offered.under(key),
        None => {
            let first = first_unseen(offered, settled, looked);
            offered.first_candidate(first, gates, row)
        }
    }
}

// The key of the last message, where it is ready for a row and is the only one that is not settled.
fn only_ready(
    offered: &Offers,
    settled: usize,
    turns: &[(GroupNo, Turn)],
    gates: &SortedMap<GroupNo, Gate>,
    row: &Row,
    floor: &Floor,
) -> Option<Key>
    requires one { length offered.now ≡ settled + 1 }
    requires none { none_of (is_ready_row turns.now gates.now row.now) settled offered.now ≡ true }
    requires low { (o : Offered) → Contains offered.now o
        → AreLow row.now o.times (groups_of floor.now o.key) }
    ensures { result ≡ option_map (λ o. o.key) (first_for turns.now gates.now offered.now row.now) }
{
    let last = offered.at(settled);
    let low = floor.groups_of(last.key);
    row.is_ready(turns, gates, last, low).then_some(last.key)
}

// The last message, where it is ready for a row but for the turns of groups and is the only one
// that is not settled.
fn only_candidate<'a>(
    offered: &'a Offers,
    settled: usize,
    gates: &SortedMap<GroupNo, Gate>,
    row: &Row,
    floor: &Floor,
) -> Option<&'a Offered>
    requires one { length offered.now ≡ settled + 1 }
    requires none { none_of (λ o. is_causally_ready_row gates.now row.now o.id o.times)
        settled offered.now ≡ true }
    requires low { (o : Offered) → Contains offered.now o
        → AreLow row.now o.times (groups_of floor.now o.key) }
    ensures { option_copied result ≡ candidate_for gates.now offered.now row.now }
{
    let last = offered.at(settled);
    let low = floor.groups_of(last.key);
    row.is_causally_ready(gates, last.id, &last.times, low)
        .then_some(last)
}

// The id of the message under a key, where it is the next one of its source for a process.
fn next_under(rows: &Rows, offered: &Offers, process: Proc, key: Key) -> Option<Uid>
    ensures { result ≡ next_under rows.now offered.now process key }
{
    let row = rows.find(process)?;
    let id = offered.under(key)?.id;
    let done = row.delivered_count(id.group, id.view, id.proc);
    if done < id.count && id.count - done == 1 {
        Some(id)
    } else {
        None
    }
}

// So for a process of which something is kept.
fn next_kept(waits: &Waits, rows: &Rows, offered: &Offers, process: Proc, key: Key) -> Option<Uid>
    ensures { result ≡ option_and_then (λ l. next_under rows.now offered.now process key)
        (looked_of waits.now process) }
{
    waits.find(process)?;
    next_under(rows, offered, process, key)
}

// Takes in that a process delivered the message under a key: that of an id, where it was the next
// one of its source. Else nothing is left of the process.
fn wake_next(
    waits: &mut Waits,
    process: Proc,
    next: Option<Uid>,
    key: Key,
    offered: &Offers,
    gates: &SortedMap<GroupNo, Gate>,
    rows: &Rows,
)
    requires some { IfSome next
        (λ id. AreToWake gates.now rows.now offered.now process id key waits.old) }
    requires none { AreLookedAt gates.now rows.now offered.now
        (filter (λ l. not (proc_eq l.process process)) waits.old) }
    ensures { AreLookedAt gates.now rows.now offered.now waits.new }
{
    match next {
        Some(id) => waits.wake(process, id, key, offered, gates, rows),
        None => waits.forget(process),
    }
}

// Leaves nothing of a process that has taken in a fact that may make it wait for any message.
fn forget_told(waits: &mut Waits, process: Proc, fact: &ProcessUpdate)
    ensures { waits.new ≡ waits_despite fact.now process waits.old }
{
    match fact {
        ProcessUpdate::Standing(..) => waits.forget(process),
        ProcessUpdate::Time(_) => {}
    }
}

// How many of so many settled messages are settled still once a process has taken in a fact.
fn despite_fact(fact: &ProcessUpdate, settled: usize) -> usize
    ensures { result ≡ despite_fact fact.now settled }
{
    match fact {
        ProcessUpdate::Standing(..) => 0,
        ProcessUpdate::Time(_) => settled,
    }
}

// And once it has delivered the message under a key.
fn despite_delivery(
    rows: &[Row],
    offered: &Offers,
    process: Proc,
    key: Key,
    settled: usize,
) -> usize
    ensures { result ≡ despite_delivery offered.now process key rows.now settled }
{
    match offered.under(key) {
        Some(message) if is_next_of(rows, process, message.id) => settled,
        Some(_) => 0,
        None => settled,
    }
}

// Whether no row of a process has delivered a later message of a message's source.
fn is_next_of(rows: &[Row], process: Proc, id: Uid) -> bool
    ensures { result ≡ is_next_of process id rows.now }
{
    rows.iter().all(|row| row.process != process
        || row.delivered_count(id.group, id.view, id.proc) <= id.count)
}

// The least count of a process's messages of a view that each member of the group has delivered.
fn least_in(rows: &[Row], group: GroupNo, view: u32, process: Proc) -> u32
    ensures { result ≡ least_in rows.now group view process }
{
    rows.iter().fold(MAX_NUMBER, |least, row| {
        row.lesser(least, group, view, process)
    })
}

// Raises what is reached to the message under a key.
fn reach_in(reached: &mut DeliveredCounts, offered: &Offers, key: Key) -> Result<(), NoMemory>
    ensures { OnOk result (reached.new ≡ reached_after offered.now key reached.old) }
{
    let Some(message) = offered.under(key) else {
        return Ok(());
    };
    let source = Source {
        group: message.id.group,
        view: message.id.view,
        process: message.id.proc,
    };
    reached.raise(source, message.id.count)?;
    Ok(())
}

// Whether a delivery leaves what the rows have passed.
fn stays_delivered(rows: &[Row], offered: &Offers, process: Proc, key: Key) -> bool
    ensures { result ≡ stays_delivered offered.now process key rows.now }
{
    match offered.under(key) {
        Some(message) => is_next_of(rows, process, message.id),
        None => true,
    }
}

// Whether a floor that has a count stays under the rows at a delivery.
fn stays_under(floor: &Floor, rows: &[Row], offered: &Offers, process: Proc, key: Key) -> bool
    ensures { result ≡ true → stays_delivered offered.now process key rows.now ≡ true }
{
    !floor.is_empty() && stays_delivered(rows, offered, process, key)
}

// Whether a floor that has a count stays under the rows at a fact.
fn stays_told(floor: &Floor, rows: &[Row], process: Proc, fact: &ProcessUpdate) -> bool
    ensures { result ≡ true → covers_told fact.now process rows.now ≡ true }
{
    !floor.is_empty() && covers_told(rows, process, fact)
}

// Whether a fact leaves what the rows of a process have passed: it is a time that covers theirs.
fn covers_told(rows: &[Row], process: Proc, fact: &ProcessUpdate) -> bool
    ensures { result ≡ covers_told fact.now process rows.now }
{
    match fact {
        ProcessUpdate::Standing(..) => false,
        ProcessUpdate::Time(time) => covers_time(rows, process, time),
    }
}

// Whether a time covers those of a process's rows.
fn covers_time(rows: &[Row], process: Proc, time: &Times) -> bool
    ensures { result ≡ list_all (λ row. not (proc_eq row.process process)
        || at_most row.time time.now) rows.now }
{
    rows.iter()
        .all(|row| row.process != process || row.time.at_most(time))
}

// Looks at the time of the message that came last, which is under this key.
fn look_at(floor: &mut Floor, rows: &Rows, offered: &Offers, key: Key, times: &Stamp)
    requires under { IsUnder floor.old.counts rows.now }
    requires last { rises key_of offered.now ≡ true → (o : Offered) → Contains offered.now o
        → o.key ≡ key → o.times ≡ times.now }
    ensures { IsFloor rows.now offered.now floor.new }
{
    if offered.above().is_none() {
        floor.clear();
        return;
    }
    floor.look(rows.as_slice(), key, times);
}

// The rows take in a fact about a process, and the floor stays under them.
fn tell_rows(
    rows: &mut Rows,
    floor: &mut Floor,
    offered: &Offers,
    process: Proc,
    fact: &ProcessUpdate,
) -> Result<(), NoMemory>
    requires { IsFloor rows.old offered.now floor.old }
    ensures rows { OnOk result (rows.new
        ≡ change_row process (told_row fact.now) rows.old) }
    ensures floor { IsFloor rows.new offered.now floor.new }
{
    let stays = stays_told(floor, rows.as_slice(), process, fact);
    if let Err(refused) = rows.tell(process, fact) {
        floor.clear();
        return Err(refused);
    }
    floor.keep_if(stays);
    Ok(())
}

// The rows take in that a process delivered the message under a key, and the floor stays under
// them.
fn deliver_rows(
    rows: &mut Rows,
    floor: &mut Floor,
    offered: &Offers,
    process: Proc,
    key: Key,
) -> Result<(), NoMemory>
    requires { IsFloor rows.old offered.now floor.old }
    ensures rows { OnOk result (rows.new
        ≡ after_delivery offered.now process key rows.old) }
    ensures floor { IsFloor rows.new offered.now floor.new }
{
    let stays = stays_under(floor, rows.as_slice(), offered, process, key);
    if let Err(refused) = rows.deliver(offered, process, key, floor.groups_of(key)) {
        floor.clear();
        return Err(refused);
    }
    floor.keep_if(stays);
    Ok(())
}
