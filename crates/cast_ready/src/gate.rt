ghost use Rattle.std.specs.Prelude.{◌≡◌, IfOk};
ghost use Rattle.cast_types.specs.Names.{entry_of};
ghost use Rattle.cast_ready.specs.Ready.{open_gate, frozen_gate, is_cut_by, is_open_to};
ghost use Rattle.cast_ready.specs.Rows.{gate_in};

use cast_types::{Counts, GroupNo, NoMemory, SortedMap, Uid};
use std::alloc::Global;

/// What of a group decides whether its messages may be delivered.
#[derive(Drop)]
pub struct Gate {
    /// The number of its view, 0 before the first one.
    pub number: u32,
    /// Whether a flush of that view has begun. Then nothing of the group is delivered but what is
    /// within the cut.
    pub frozen: bool,
    /// How many messages of each process belong to the view that ends, while the Install of the
    /// next one waits.
    pub cut: Option<Counts>,
}

impl Gate {
    /// A group in a view of this number that no flush has frozen.
    pub fn new(number: u32) -> Self
        ensures { result ≡ open_gate number }
    {
        Gate {
            number,
            frozen: false,
            cut: None,
        }
    }

    /// Whether the group lets a message of its view be delivered: it is not frozen, or the message
    /// is within the cut.
    pub fn is_open_to(&self, id: Uid) -> bool
        ensures { result ≡ is_open_to self.now (entry_of id) }
    {
        !self.frozen || is_cut_by(&self.cut, id)
    }

    /// The same group, frozen, its cut as it is.
    pub fn to_frozen(&self) -> Result<Self, NoMemory>
        ensures { IfOk result (λ gate. gate ≡ frozen_gate self.now) }
    {
        Ok(Gate {
            number: self.number,
            frozen: true,
            cut: copy_of(&self.cut)?,
        })
    }
}

impl Gate {
    /// An equal value.
    pub fn copy(&self) -> Result<Self, NoMemory>
        ensures { IfOk result (λ gate. gate ≡ self.now) }
    {
        Ok(Gate {
            number: self.number,
            frozen: self.frozen,
            cut: copy_of(&self.cut)?,
        })
    }
}

/// The gates of groups, copied.
pub fn copy_gates(gates: &SortedMap<GroupNo, Gate>) -> Result<SortedMap<GroupNo, Gate>, NoMemory>
    ensures { IfOk result (λ copy. copy ≡ gates.now) }
{
    let copied = copy_entries(gates.alloc(), gates.entries())?;
    Ok(SortedMap::from_entries(copied))
}

// Their entries, copied.
fn copy_entries(
    alloc: Global,
    entries: &[(GroupNo, Gate)],
) -> Result<Vec<(GroupNo, Gate)>, NoMemory>
    ensures { IfOk result (λ copy. copy.items ≡ entries.now) }
{
    let mut copied = Vec::with_capacity(alloc, entries.len())?;
    for (group, gate) in entries {
        copied.push((*group, gate.copy()?))?;
    }
    Ok(copied)
}

// A cut, copied.
fn copy_of(cut: &Option<Counts>) -> Result<Option<Counts>, NoMemory>
    ensures { IfOk result (λ copy. copy ≡ cut.now) }
{
    match cut {
        Some(counts) => Ok(Some(counts.copy()?)),
        None => Ok(None),
    }
}

// Whether there is a cut that covers a message.
fn is_cut_by(cut: &Option<Counts>, id: Uid) -> bool
    ensures { result ≡ is_cut_by cut.now (entry_of id) }
{
    match cut {
        Some(counts) => id.count <= counts.get(id.proc),
        None => false,
    }
}

/// The number of a group's view, 0 where none was told.
pub fn number_in(gates: &SortedMap<GroupNo, Gate>, group: GroupNo) -> u32
    ensures { result ≡ (gate_in gates.now group).number }
{
    match gates.get(&group) {
        Some(gate) => gate.number,
        None => 0,
    }
}

/// Whether a message's group lets it be delivered, as far as flushes go. One of which nothing was
/// told does.
pub fn is_open_in(gates: &SortedMap<GroupNo, Gate>, id: Uid) -> bool
    ensures { result ≡ is_open_to (gate_in gates.now id.group) (entry_of id) }
{
    match gates.get(&id.group) {
        Some(gate) => gate.is_open_to(id),
        None => true,
    }
}

/// The gate of a group, frozen.
pub fn frozen_in(gates: &SortedMap<GroupNo, Gate>, group: GroupNo) -> Result<Gate, NoMemory>
    ensures { IfOk result (λ gate. gate ≡ frozen_gate (gate_in gates.now group)) }
{
    match gates.get(&group) {
        Some(gate) => gate.to_frozen(),
        None => Gate::new(0).to_frozen(),
    }
}
