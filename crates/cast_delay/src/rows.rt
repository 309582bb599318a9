ghost use Rattle.std.specs.Prelude.{◌≡◌, ◌≤◌, ◌<◌, ◌++◌, ◌∷◌, ℕ, [], true, IfOk, OnErr};
ghost use Rattle.std.specs.Prelude.{OnOk, Some, get_or, length, map, slice_get, ◌&&◌};
ghost use Rattle.std.specs.List.Sorted.{IsNonDecreasing};
ghost use Rattle.std.specs.Vec.{vec_capacity};
ghost use Rattle.std.specs.Option.{option_copied};
ghost use Rattle.std.specs.Ordering.{is_lt};
ghost use Rattle.cast_types.specs.Names.{proc_cmp, site_eq};
ghost use Rattle.std.specs.Prelude.{Contains};
ghost use Rattle.cast_ready.specs.declared.offered.Offered.{Offered};
ghost use Rattle.cast_ready.specs.Rows.{AreLow};
ghost use Rattle.cast_delay.specs.Queue.{offered_under};
ghost use Rattle.cast_ready.specs.declared.row.Row.{Row};
ghost use Rattle.cast_delay.specs.Queue.{row_of, but_row, change_row, after_delivery, is_awaited};
ghost use Rattle.cast_ready.specs.Rows.{new_row, awaits_row, delivered_row, ended_row, told_row};
ghost use Rattle.cast_delay.specs.Admitted.{all_below, are_of, busy_places};
ghost use Rattle.cast_delay.specs.Admitted.{is_idle, rise, site_with};

use crate::offers::Offers;
use cast_ready::row::copy_rows;
use cast_ready::{Offered, ProcessUpdate, Row};
use cast_types::{GroupNo, Key, NoMemory, Proc, SiteNo, Uid};
use std::alloc::Global;
use std::marker::Model;

/// What the queue keeps of the processes that are admitted, in the order in which they were.
/// Contracts see the list.
#[derive(Drop)]
pub struct Rows {
    rows: Vec<Row>,
    /// The site of the process that was admitted first.
    site: SiteNo,
    /// Whether all processes are of this site, and each was admitted behind all lower ones, as
    /// those are whose serials rise. No two rows are then of one process, and a row is found by
    /// halving.
    rising: bool,
    /// The places of the rows of whose process's groups something was told, in rising order.
    busy: Vec<usize>,
    /// Whether these are kept up.
    kept_up: bool,
}

impl Model for Rows {
    ghost use Rattle.std.specs.Prelude.{List, ◌≡◌, true};
    ghost use Rattle.cast_ready.specs.declared.row.Row.{Row};
    ghost use Rattle.cast_delay.specs.Admitted.{are_of, rise, AreBusy};

    ghost Value = { List Row };

    ghost view = { λ r. r.rows.items };

    ghost invariant = { λ r.
        (r.rising ≡ true → (rise r.rows.items ≡ true) × (are_of r.site r.rows.items ≡ true))
        × AreBusy r.kept_up r.rows.items r.busy.items };
}

impl Rows {
    /// No processes.
    pub fn new(alloc: Global) -> Self
        ensures { result ≡ [] }
    {
        Rows {
            rows: Vec::new(alloc),
            site: SiteNo(0),
            rising: true,
            busy: Vec::new(alloc),
            kept_up: true,
        }
    }

    /// An equal value.
    pub fn copy(&self) -> Result<Self, NoMemory>
        ensures { IfOk result (λ rows. rows ≡ self.now) }
    {
        Ok(Rows {
            rows: copy_rows(*self.rows.allocator(), &self.rows)?,
            site: self.site,
            rising: self.rising,
            busy: copy_places(*self.rows.allocator(), &self.busy, self.rows.len())?,
            kept_up: self.kept_up,
        })
    }

    /// The rows.
    pub fn as_slice(&self) -> &[Row]
        ensures { result.now ≡ self.now }
    {
        &self.rows
    }

    /// The first row of a process.
    pub fn find(&self, process: Proc) -> Option<&Row>
        ensures { option_copied result ≡ row_of self.now process }
    {
        if self.rising {
            found_in(&self.rows, process)
        } else {
            first_in(&self.rows, process)
        }
    }

    /// The first place from one on that is not known to be that of the only row of a process of a
    /// site, which is in no group and was in none.
    pub fn busy_from(&self, site: SiteNo, place: usize) -> usize
        ensures from { place ≤ result }
        ensures idle { (i : ℕ) (row : Row) → place ≤ i → i < result
            → slice_get self.now i ≡ Some row
            → (row.process.site ≡ site) × (is_idle self.now row.process ≡ true) }
    {
        if self.rising && self.kept_up && self.site == site {
            first_busy(&self.rows, &self.busy, site, place)
        } else {
            place
        }
    }

    /// Whether some row awaits a message.
    pub fn is_awaited(&self, id: Uid) -> bool
        ensures { result ≡ is_awaited self.now id }
    {
        if self.kept_up {
            awaited_at_busy(&self.rows, &self.busy, id)
        } else {
            awaited_in(&self.rows, id)
        }
    }

    /// Adds a process that is in no group, the last one. `NoMemory` changes nothing.
    pub fn admit(&mut self, process: Proc) -> Result<(), NoMemory>
        ensures ok { OnOk result (self.new ≡ self.old ++ new_row process ∷ []) }
        ensures err { OnErr result (self.new ≡ self.old) }
    {
        let site = site_with(self.site, &self.rows, process);
        let rising = rises_with(self.rising, site, &self.rows, process);
        let row = Row::new(*self.rows.allocator(), process);
        make_room(&mut self.busy, self.rows.len() + 1)?;
        self.rows.push(row)?;
        self.site = site;
        self.rising = rising;
        Ok(())
    }

    /// Forgets a process. Takes no memory.
    pub fn dismiss(&mut self, process: Proc)
        ensures { self.new ≡ but_row process self.old }
    {
        dismiss_in(&mut self.rows, process);
        self.kept_up = note_busy(&self.rows, &mut self.busy);
    }

    /// Each row forgets what was delivered of a group's views below a number.
    pub fn end(&mut self, group: GroupNo, number: u32)
        ensures { self.new ≡ map (ended_row group number) self.old }
    {
        end_in(&mut self.rows, group, number);
    }

    /// Each row of the process takes in a fact.
    pub fn tell(&mut self, process: Proc, fact: &ProcessUpdate) -> Result<(), NoMemory>
        ensures { OnOk result (self.new ≡ change_row process (told_row fact.now) self.old) }
    {
        let rising = self.rising;
        self.rising = false;
        let told = tell_in(&mut self.rows, process, fact);
        match (&told, fact) {
            (Ok(()), ProcessUpdate::Time(_)) => {}
            _ => self.kept_up = note_busy(&self.rows, &mut self.busy),
        }
        told?;
        self.rising = rising;
        Ok(())
    }

    /// Each row of the process takes in that it delivered the message under a key.
    pub fn deliver(
        &mut self,
        offered: &Offers,
        process: Proc,
        key: Key,
        low: &[GroupNo],
    ) -> Result<(), NoMemory>
        requires { (row : Row) → Contains self.old row → (o : Offered)
            → offered_under offered.now key ≡ Some o → AreLow row o.times low.now }
        ensures { OnOk result (self.new ≡ after_delivery offered.now process key self.old) }
    {
        let rising = self.rising;
        self.rising = false;
        let delivered = deliver_in(&mut self.rows, rising, offered, process, key, low);
        if delivered.is_err() {
            self.kept_up = false;
        }
        delivered?;
        self.rising = rising;
        Ok(())
    }
}

// The first row of a process.
fn first_in(rows: &[Row], process: Proc) -> Option<&Row>
    ensures { option_copied result ≡ row_of rows.now process }
{
    rows.iter().find(|row| row.process == process)
}

// The row of a process, found by halving.
fn found_in(rows: &[Row], process: Proc) -> Option<&Row>
    requires { rise rows.now ≡ true }
    ensures { option_copied result ≡ row_of rows.now process }
{
    match rows.binary_search_by_key(&process, |row| row.process) {
        Ok(place) => Some(&rows[place]),
        Err(_) => None,
    }
}

// The first place from one on, of a row that is busy; behind all rows where there is none. Where
// all rows up to the place are busy, as where all are, the place stands in the list at itself.
fn first_busy(rows: &[Row], busy: &[usize], site: SiteNo, place: usize) -> usize
    requires rise { rise rows.now ≡ true }
    requires site { are_of site rows.now ≡ true }
    requires busy { busy.now ≡ busy_places 0 rows.now }
    ensures from { place ≤ result }
    ensures idle { (i : ℕ) (row : Row) → place ≤ i → i < result → slice_get rows.now i ≡ Some row
        → (row.process.site ≡ site) × (is_idle rows.now row.process ≡ true) }
{
    if place < busy.len() && busy[place] == place {
        return place;
    }
    let below = count_below(busy, place);
    if below < busy.len() {
        busy[below]
    } else {
        place.max(rows.len())
    }
}

// How many places are below one, found by halving.
fn count_below(places: &[usize], place: usize) -> usize
    requires { IsNonDecreasing places.now }
    ensures below { (i : ℕ) → i < result → i < length places.now → get_or places.now i 0 < place }
    ensures others { (i : ℕ) → result ≤ i → i < length places.now → place ≤ get_or places.now i 0 }
{
    places.partition_point(|at| *at < place)
}

// Finds the places of the busy rows anew, where there is room for those of all rows, and says
// whether there is. Takes no memory.
fn note_busy(rows: &[Row], busy: &mut Vec<usize>) -> bool
    ensures { result ≡ true → busy.new.items ≡ busy_places 0 rows.now }
{
    busy.clear();
    if busy.capacity() < rows.len() {
        return false;
    }
    note_each(rows, busy);
    true
}

// Notes the place of each busy row.
fn note_each(rows: &[Row], busy: &mut Vec<usize>)
    requires empty { busy.old.items ≡ [] }
    requires room { length rows.now ≤ vec_capacity busy.old }
    ensures { busy.new.items ≡ busy_places 0 rows.now }
{
    for (place, row) in rows.iter().enumerate() {
        if !row.is_idle() {
            busy.push_reserved(place);
        }
    }
}

// Makes room for so many places.
fn make_room(busy: &mut Vec<usize>, count: usize) -> Result<(), NoMemory>
    ensures items { busy.new.items ≡ busy.old.items }
    ensures room { OnOk result (count ≤ vec_capacity busy.new) }
{
    busy.reserve(count.saturating_sub(busy.len()))?;
    Ok(())
}

// Equal places, with room for so many.
fn copy_places(alloc: Global, places: &[usize], count: usize) -> Result<Vec<usize>, NoMemory>
    ensures { IfOk result (λ copied. copied.items ≡ places.now) }
{
    let mut copied = Vec::with_capacity(alloc, count)?;
    copied.extend_from_slice(places)?;
    Ok(copied)
}

// Whether some row awaits a message, where the places of the busy ones are known: no other does.
// Rows are asked from the last one on: processes deliver in the order of their rows, so it is the
// last ones that await a message while it is being delivered.
fn awaited_at_busy(rows: &[Row], busy: &[usize], id: Uid) -> bool
    requires { busy.now ≡ busy_places 0 rows.now }
    ensures { result ≡ is_awaited rows.now id }
{
    let mut left = busy.len();
    while 0 < left {
        left -= 1;
        if awaits_at(rows, busy[left], id) {
            return true;
        }
    }
    false
}

// Whether the row at a place awaits a message.
fn awaits_at(rows: &[Row], place: usize, id: Uid) -> bool
    requires { place < length rows.now }
    ensures { (row : Row) → result ≡ awaits_row (get_or rows.now place row) id }
{
    rows[place].awaits(id)
}

// Whether some row awaits a message.
fn awaited_in(rows: &[Row], id: Uid) -> bool
    ensures { result ≡ is_awaited rows.now id }
{
    rows.iter().any(|row| row.awaits(id))
}

// The site of the process that was admitted first, once a process stands behind the others.
fn site_with(site: SiteNo, rows: &[Row], process: Proc) -> SiteNo
    ensures { result ≡ site_with site process rows.now }
{
    if rows.is_empty() { process.site } else { site }
}

// Whether rows rise that did, or did not, once a process stands behind them.
fn rises_with(rising: bool, site: SiteNo, rows: &[Row], process: Proc) -> bool
    ensures { result ≡ (rising && (site_eq process.site site && all_below process rows.now)) }
{
    rising && process.site == site && are_below(rows, process)
}

// Whether the processes of all rows are below another one.
fn are_below(rows: &[Row], process: Proc) -> bool
    ensures { result ≡ all_below process rows.now }
{
    rows.iter().all(|row| is_below(row, process))
}

// Whether a row's process is below another one.
fn is_below(row: &Row, process: Proc) -> bool
    ensures { result ≡ is_lt (proc_cmp row.now.process process) }
{
    row.process.cmp(&process).is_lt()
}

// Keeps the rows of other processes.
fn dismiss_in(rows: &mut Vec<Row>, process: Proc)
    ensures { rows.new.items ≡ but_row process rows.old.items }
{
    rows.retain(|row| row.process != process);
}

// Each row forgets what was delivered of a group's views below a number.
fn end_in(rows: &mut Vec<Row>, group: GroupNo, number: u32)
    ensures { rows.new.items ≡ map (ended_row group number) rows.old.items }
{
    for row in rows.iter_mut() {
        row.end(group, number);
    }
}

// Each row of the process takes in a fact.
fn tell_in(rows: &mut Vec<Row>, process: Proc, fact: &ProcessUpdate) -> Result<(), NoMemory>
    ensures { OnOk result (rows.new.items ≡ change_row process (told_row fact.now) rows.old.items) }
{
    for row in rows.iter_mut() {
        if row.process == process {
            row.tell(fact)?;
        }
    }
    Ok(())
}

// Each row of the process takes in that it delivered the message under a key. Where rows rise,
// there is at most one.
fn deliver_in(
    rows: &mut Vec<Row>,
    rising: bool,
    offered: &Offers,
    process: Proc,
    key: Key,
    low: &[GroupNo],
) -> Result<(), NoMemory>
    requires rise { rising ≡ true → rise rows.old.items ≡ true }
    requires low { (row : Row) → Contains rows.old.items row → (o : Offered)
        → offered_under offered.now key ≡ Some o → AreLow row o.times low.now }
    ensures { OnOk result (rows.new.items ≡ after_delivery offered.now process key rows.old.items) }
{
    let Some(message) = offered.under(key) else {
        return Ok(());
    };
    if rising {
        deliver_found(rows, message, process, low)
    } else {
        deliver_each(rows, message, process)
    }
}

// The row of the process, found by halving, takes in that it delivered a message.
fn deliver_found(
    rows: &mut Vec<Row>,
    message: &Offered,
    process: Proc,
    low: &[GroupNo],
) -> Result<(), NoMemory>
    requires rise { rise rows.old.items ≡ true }
    requires low { (row : Row) → Contains rows.old.items row
        → AreLow row message.now.times low.now }
    ensures { OnOk result (rows.new.items
        ≡ change_row process (delivered_row message.now.id message.now.times) rows.old.items) }
{
    match rows.binary_search_by_key(&process, |row| row.process) {
        Ok(place) => rows[place].deliver(message.id, &message.times, low),
        Err(_) => Ok(()),
    }
}

// Each row of the process takes in that it delivered a message.
fn deliver_each(rows: &mut Vec<Row>, message: &Offered, process: Proc) -> Result<(), NoMemory>
    ensures { OnOk result (rows.new.items
        ≡ change_row process (delivered_row message.now.id message.now.times) rows.old.items) }
{
    for row in rows.iter_mut() {
        if row.process == process {
            row.deliver(message.id, &message.times, &[])?;
        }
    }
    Ok(())
}
