ghost use Rattle.std.specs.Prelude.{◌≡◌, [], not, filter, OnOk, IfOk};
ghost use Rattle.std.specs.List.{find, list_any};
ghost use Rattle.std.specs.Option.{option_copied};
ghost use Rattle.cast_types.specs.Counts.{is_within};
ghost use Rattle.cast_types.specs.Names.{entry_eq, group_eq};
ghost use Rattle.cast_types.specs.Sets.{is_among};
ghost use Rattle.cast_order.specs.Hand.{hold_from, hand_over, note_unlisted};
ghost use Rattle.cast_order.specs.Hand.{note_order_sent, settled_by};
ghost use Rattle.cast_order.specs.Log.{is_long, length_of, log_of, change_in, open_log};
ghost use Rattle.cast_order.specs.Log.{change_log, but_log, next_in, pass_ids, hand_here};
ghost use Rattle.cast_order.specs.Log.{with_placement};
ghost use Rattle.cast_order.specs.Log.{with_hand, waits_in, next_places, known_past, whole_kept};
ghost use Rattle.cast_order.specs.Log.{tail_start_in, tail_ids_in, closed_by, oldest_in, forgot};

use crate::hand::OrderHand;
use crate::log::OrderLog;
use cast_message::{Placement, Tail};
use cast_types::{Counts, GroupNo, List, NoMemory, Proc};
use std::alloc::Global;
use std::marker::Model;

/// The orders of the current views of a domain's groups, as one site knows them. Contracts see the
/// list of their logs.
#[derive(Drop)]
pub struct Orders {
    logs: Vec<OrderLog>,
}

impl Model for Orders {
    ghost use Rattle.std.specs.Prelude.{List as Items};
    ghost use Rattle.cast_order.specs.Log.{Log};

    ghost Value = { Items Log };

    ghost view = { λ o. o.logs.items };
}

impl Orders {
    /// Orders of which nothing is known.
    pub fn new(alloc: Global) -> Self
        ensures { result ≡ [] }
    {
        Orders {
            logs: Vec::new(alloc),
        }
    }

    /// An equal value.
    pub fn copy(&self) -> Result<Self, NoMemory>
        ensures { IfOk result (λ orders. orders ≡ self.now) }
    {
        Ok(Orders {
            logs: copy_logs(*self.logs.allocator(), &self.logs)?,
        })
    }

    /// Takes in a set-order message of a group's view, unless the view's order is closed. For each
    /// place the first id told for it counts. `NoMemory` leaves the orders of no further use, as in
    /// all calls.
    #[tactic(auto, using(crate::proofs::Logs::change_opened))]
    pub fn learn(&mut self, group: GroupNo, placement: &Placement) -> Result<(), NoMemory>
        ensures { OnOk result
            (self.new ≡ change_log group (with_placement placement.now) self.old) }
    {
        open_in(&mut self.logs, group)?;
        learn_in(&mut self.logs, group, placement)?;
        Ok(())
    }

    /// What is kept of a group's order, if there is something. Takes no memory.
    pub fn log(&self, group: GroupNo) -> Option<&OrderLog>
        ensures { option_copied result ≡ find (λ l. group_eq l.group group) self.now }
    {
        log_in(&self.logs, group)
    }

    /// How many ids of a group's order are known without a gap, from place 1 on, with those that
    /// are forgotten. Takes no memory.
    pub fn length(&self, group: GroupNo) -> usize
        ensures { result ≡ length_of (log_of self.now group) }
    {
        match log_in(&self.logs, group) {
            Some(log) => log.length(),
            None => 0,
        }
    }

    /// The ids known from the process's place on, each a process and a count: its next position is
    /// that of the first of them that it has not delivered. Takes no memory.
    pub fn next(&self, group: GroupNo, process: Proc) -> &[(Proc, u32)]
        ensures { result.now ≡ next_in (log_of self.now group) process }
    {
        match log_in(&self.logs, group) {
            Some(log) => log.next(process),
            None => &[],
        }
    }

    /// Takes in that the process delivered the first `count` ids of those that `next` gives, so
    /// that it passes them; where that gives fewer, all of them.
    #[tactic(auto, using(crate::proofs::Logs::change_opened))]
    pub fn pass(&mut self, group: GroupNo, process: Proc, count: usize) -> Result<(), NoMemory>
        ensures { OnOk result (self.new ≡ change_log group (pass_ids process count) self.old) }
    {
        open_in(&mut self.logs, group)?;
        pass_in(&mut self.logs, group, process, count)?;
        Ok(())
    }

    /// Takes in that a process here holds the token of the group's view, and orders from this place
    /// on.
    #[tactic(auto, using(crate::proofs::Logs::change_opened))]
    pub fn hold(&mut self, group: GroupNo, process: Proc, first: u32) -> Result<(), NoMemory>
        ensures { OnOk result
            (self.new ≡ change_log group (with_hand process (hold_from first)) self.old) }
    {
        open_in(&mut self.logs, group)?;
        hold_token_in(&mut self.logs, group, process, first)?;
        Ok(())
    }

    /// Takes in that a process here holds the token of the group's view no more.
    #[tactic(auto, using(crate::proofs::Logs::change_opened))]
    pub fn hand_over(&mut self, group: GroupNo, process: Proc) -> Result<(), NoMemory>
        ensures { OnOk result (self.new ≡ change_log group (with_hand process hand_over) self.old) }
    {
        open_in(&mut self.logs, group)?;
        hand_token_in(&mut self.logs, group, process)?;
        Ok(())
    }

    /// The first place that a process here orders, where it holds the token of the group's view.
    /// Takes no memory.
    pub fn first(&self, group: GroupNo, process: Proc) -> Option<u32>
        ensures { result ≡ (hand_here (log_of self.now group) process).first }
    {
        match log_in(&self.logs, group) {
            Some(log) => log.first(process),
            None => None,
        }
    }

    /// What is kept of processes here that order the ABCASTs of the group's view, or did, in rising
    /// order of the processes. Takes no memory.
    pub fn hands(&self, group: GroupNo) -> &[OrderHand]
        ensures { result.now ≡ (log_of self.now group).hands }
    {
        match log_in(&self.logs, group) {
            Some(log) => log.hands(),
            None => &[],
        }
    }

    /// Takes in that a process here delivered this ABCAST, which is not in the order known.
    #[tactic(auto, using(crate::proofs::Logs::change_opened))]
    pub fn tell(&mut self, group: GroupNo, process: Proc, id: (Proc, u32)) -> Result<(), NoMemory>
        ensures { OnOk result
            (self.new ≡ change_log group (with_hand process (note_unlisted id)) self.old) }
    {
        open_in(&mut self.logs, group)?;
        tell_in(&mut self.logs, group, process, id)?;
        Ok(())
    }

    /// The places that the next set-order message of a process here sets: those behind the order
    /// known, for the first ids that it delivered and that are not in that, at most 64. `None`
    /// where there is none, or no place is left.
    pub fn assign(&self, group: GroupNo, process: Proc) -> Result<Option<Placement>, NoMemory>
        ensures { IfOk result (λ q. q ≡ next_places (log_of self.now group) process) }
    {
        match log_in(&self.logs, group) {
            Some(log) => log.assign(process),
            None => Ok(None),
        }
    }

    /// Takes in that a process here sent a set-order message of this count, from 1 on, which sets
    /// places up to the last, and that its messages up to `stable` are stable, 0 where none is. Its
    /// ids wait until they join the order known, once they are learnt here, as at any other site:
    /// until then `assign` would set the same places again.
    #[tactic(auto, using(crate::proofs::Logs::change_opened))]
    pub fn note(
        &mut self,
        group: GroupNo,
        process: Proc,
        count: u32,
        last: usize,
        stable: u32,
    ) -> Result<(), NoMemory>
        ensures { OnOk result (self.new
            ≡ change_log group (with_hand process (note_order_sent count last stable)) self.old) }
    {
        open_in(&mut self.logs, group)?;
        note_in(&mut self.logs, group, process, count, last, stable)?;
        Ok(())
    }

    /// How many places a process here has settled, where its set-order messages up to count
    /// `stable` are stable: those before its first one, and those up to the last one that these
    /// messages set. Takes no memory.
    pub fn settled_places(&self, group: GroupNo, process: Proc, stable: u32) -> usize
        ensures { result ≡ settled_by stable (hand_here (log_of self.now group) process) }
    {
        match log_in(&self.logs, group) {
            Some(log) => log.settled_places(process, stable),
            None => 0,
        }
    }

    /// The ABCASTs that a process here delivered and that are not in the order known, in its order.
    /// Takes no memory.
    pub fn ids_to_list(&self, group: GroupNo, process: Proc) -> &[(Proc, u32)]
        ensures { result.now ≡ (hand_here (log_of self.now group) process).waiting }
    {
        match log_in(&self.logs, group) {
            Some(log) => log.ids_to_list(process),
            None => &[],
        }
    }

    /// The ids of the order known past so many places, but for those that are forgotten. Takes no
    /// memory.
    pub fn ids_past(&self, group: GroupNo, place: usize) -> &[(Proc, u32)]
        ensures { result.now ≡ known_past place (log_of self.now group) }
    {
        match log_in(&self.logs, group) {
            Some(log) => log.ids_past(place),
            None => &[],
        }
    }

    /// How many ids of the order known are forgotten. Takes no memory.
    pub fn forgotten_count(&self, group: GroupNo) -> usize
        ensures { result ≡ (log_of self.now group).base }
    {
        match log_in(&self.logs, group) {
            Some(log) => log.forgotten_count(),
            None => 0,
        }
    }

    /// Whether a process here delivered an ABCAST that is not in the order known. Takes no memory.
    pub fn waits(&self, group: GroupNo) -> bool
        ensures { result ≡ waits_in (log_of self.now group) }
    {
        match log_in(&self.logs, group) {
            Some(log) => log.waits(),
            None => false,
        }
    }

    /// Whether a process here delivered an ABCAST of any group that is not in the order known.
    /// Takes no memory.
    pub fn some_wait(&self) -> bool
        ensures { result ≡ list_any waits_in self.now }
    {
        self.logs.iter().any(|log| log.waits())
    }

    /// Whether an id has a place in the order known, or waits for one, having been delivered by the
    /// holder, if one is here: of what is not forgotten. Takes no memory.
    pub fn knows(&self, group: GroupNo, holder: Option<Proc>, id: (Proc, u32)) -> bool
        ensures { result ≡ is_among entry_eq id (whole_kept (log_of self.now group) holder) }
    {
        match log_in(&self.logs, group) {
            Some(log) => log.knows(holder, id),
            None => false,
        }
    }

    /// The last ids of the order known and, behind it, of what waits to be listed by the holder, if
    /// one is here, at most 512 and none that is forgotten, and how many stand before them.
    pub fn tail(
        &self,
        group: GroupNo,
        holder: Option<Proc>,
    ) -> Result<(usize, List<(Proc, u32)>), NoMemory>
        ensures { IfOk result (λ t. t ≡ (
          tail_start_in (log_of self.now group) holder,
          tail_ids_in (log_of self.now group) holder,
        )) }
    {
        match log_in(&self.logs, group) {
            Some(log) => log.tail(holder),
            None => Ok((0, List::new(*self.logs.allocator()))),
        }
    }

    /// Closes the order of a group's view, which has ended: it becomes the first ids known, as many
    /// as the tail says stand before it, all where fewer are known, and behind them the tail's ids,
    /// all that are kept without ids beyond the cut. Nothing more is learnt of it then, and each
    /// process is to go through it from the first id on that is not forgotten. What is kept of
    /// processes here that order it stays as it is.
    #[tactic(auto, using(crate::proofs::Logs::change_opened))]
    pub fn close(&mut self, group: GroupNo, tail: &Tail, cut: &Counts) -> Result<(), NoMemory>
        ensures { OnOk result (self.new ≡ change_log group
            (closed_by (is_within cut.now) tail.now.start tail.now.ids) self.old) }
    {
        open_in(&mut self.logs, group)?;
        close_in(&mut self.logs, group, tail, cut)?;
        Ok(())
    }

    /// The ids of a group's order that may be forgotten, the first of those that are kept: none
    /// until 1,024 are kept, and then all but the last 512 of these; none of an order that is
    /// closed. Takes no memory.
    pub fn oldest(&self, group: GroupNo) -> &[(Proc, u32)]
        ensures { result.now ≡ oldest_in (log_of self.now group) }
    {
        match log_in(&self.logs, group) {
            Some(log) => log.oldest(),
            None => &[],
        }
    }

    /// Whether there are ids that may be forgotten of any group's order. Takes no memory.
    pub fn some_are_long(&self) -> bool
        ensures { result ≡ list_any is_long self.now }
    {
        self.logs.iter().any(|log| log.is_long())
    }

    /// Forgets so many of the ids that are kept of a group's order, the first ones, at most all:
    /// each process is to have delivered them, and none of them is to be of the tail, as with those
    /// that `oldest` gives. Takes no memory.
    pub fn forget_first(&mut self, group: GroupNo, count: usize)
        ensures { self.new ≡ change_in group (forgot count) self.old }
    {
        forget_first_in(&mut self.logs, group, count);
    }

    /// Forgets all of a group's order: a new view has an empty one. Takes no memory.
    pub fn forget(&mut self, group: GroupNo)
        ensures { self.new ≡ filter (λ l. not (group_eq l.group group)) self.old }
    {
        forget_in(&mut self.logs, group);
    }
}

// The log of a group.
fn log_in(logs: &[OrderLog], group: GroupNo) -> Option<&OrderLog>
    ensures { option_copied result ≡ find (λ l. group_eq l.group group) logs.now }
{
    logs.iter().find(|log| log.group == group)
}

// Whether a group has a log.
fn has_log(logs: &[OrderLog], group: GroupNo) -> bool
    ensures { result ≡ list_any (λ l. group_eq l.group group) logs.now }
{
    logs.iter().any(|log| log.group == group)
}

// Adds a new log for a group that has none.
fn open_in(logs: &mut Vec<OrderLog>, group: GroupNo) -> Result<(), NoMemory>
    ensures { OnOk result (logs.new.items ≡ open_log group logs.old.items) }
{
    if has_log(logs, group) {
        return Ok(());
    }
    let alloc = *logs.allocator();
    logs.push(OrderLog::new(alloc, group))?;
    Ok(())
}

// Each log of the group takes in a set-order message.
fn learn_in(logs: &mut Vec<OrderLog>, group: GroupNo, placement: &Placement) -> Result<(), NoMemory>
    ensures { OnOk result
        (logs.new.items ≡ change_in group (with_placement placement.now) logs.old.items) }
{
    for log in logs.iter_mut() {
        if log.group == group {
            log.learn(placement)?;
        }
    }
    Ok(())
}

// Each log of the group takes in how many ids a process passed.
fn pass_in(
    logs: &mut Vec<OrderLog>,
    group: GroupNo,
    process: Proc,
    count: usize,
) -> Result<(), NoMemory>
    ensures { OnOk result
        (logs.new.items ≡ change_in group (pass_ids process count) logs.old.items) }
{
    for log in logs.iter_mut() {
        if log.group == group {
            log.pass(process, count)?;
        }
    }
    Ok(())
}

// Each log of the group takes in that a process holds the token.
fn hold_token_in(
    logs: &mut Vec<OrderLog>,
    group: GroupNo,
    process: Proc,
    first: u32,
) -> Result<(), NoMemory>
    ensures { OnOk result
        (logs.new.items ≡ change_in group (with_hand process (hold_from first)) logs.old.items) }
{
    for log in logs.iter_mut() {
        if log.group == group {
            log.hold(process, first)?;
        }
    }
    Ok(())
}

// And that it holds it no more.
fn hand_token_in(logs: &mut Vec<OrderLog>, group: GroupNo, process: Proc) -> Result<(), NoMemory>
    ensures { OnOk result
        (logs.new.items ≡ change_in group (with_hand process hand_over) logs.old.items) }
{
    for log in logs.iter_mut() {
        if log.group == group {
            log.hand_over(process)?;
        }
    }
    Ok(())
}

// And an ABCAST that it delivered.
fn tell_in(
    logs: &mut Vec<OrderLog>,
    group: GroupNo,
    process: Proc,
    id: (Proc, u32),
) -> Result<(), NoMemory>
    ensures { OnOk result
        (logs.new.items ≡ change_in group (with_hand process (note_unlisted id)) logs.old.items) }
{
    for log in logs.iter_mut() {
        if log.group == group {
            log.tell(process, id)?;
        }
    }
    Ok(())
}

// And a set-order message that it sent.
fn note_in(
    logs: &mut Vec<OrderLog>,
    group: GroupNo,
    process: Proc,
    count: u32,
    last: usize,
    stable: u32,
) -> Result<(), NoMemory>
    ensures { OnOk result (logs.new.items
        ≡ change_in group (with_hand process (note_order_sent count last stable)) logs.old.items) }
{
    for log in logs.iter_mut() {
        if log.group == group {
            log.note(process, count, last, stable)?;
        }
    }
    Ok(())
}

// Each log of the group takes in the end of the view's order.
fn close_in(
    logs: &mut Vec<OrderLog>,
    group: GroupNo,
    tail: &Tail,
    cut: &Counts,
) -> Result<(), NoMemory>
    ensures { OnOk result (logs.new.items ≡ change_in group
        (closed_by (is_within cut.now) tail.now.start tail.now.ids) logs.old.items) }
{
    for log in logs.iter_mut() {
        if log.group == group {
            log.close(tail, cut)?;
        }
    }
    Ok(())
}

// Each log of the group forgets its first ids.
fn forget_first_in(logs: &mut Vec<OrderLog>, group: GroupNo, count: usize)
    ensures { logs.new.items ≡ change_in group (forgot count) logs.old.items }
{
    for log in logs.iter_mut() {
        if log.group == group {
            log.forget_first(count);
        }
    }
}

// Keeps the logs of other groups.
fn forget_in(logs: &mut Vec<OrderLog>, group: GroupNo)
    ensures { logs.new.items ≡ but_log group logs.old.items }
{
    logs.retain(|log| log.group != group);
}

// Logs, copied.
fn copy_logs(alloc: Global, logs: &[OrderLog]) -> Result<Vec<OrderLog>, NoMemory>
    ensures { IfOk result (λ copy. copy.items ≡ logs.now) }
{
    let mut copied = Vec::with_capacity(alloc, logs.len())?;
    for log in logs {
        copied.push(log.copy()?)?;
    }
    Ok(copied)
}
