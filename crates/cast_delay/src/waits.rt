ghost use Rattle.std.specs.Prelude.{◌≡◌, ◌≤◌, ◌++◌, ◌∷◌, [], true, nat_le, not};
ghost use Rattle.std.specs.Prelude.{filter, take, length, Contains, OnOk, OnErr};
ghost use Rattle.std.specs.List.{list_all, position};
ghost use Rattle.std.specs.Option.{option_copied};
ghost use Rattle.cast_types.specs.Names.{proc_eq};
ghost use Rattle.cast_index.specs.Rises.{rises, all_below};
ghost use Rattle.cast_delay.specs.Offers.{key_of};
ghost use Rattle.cast_ready.specs.declared.offered.Offered.{Offered};
ghost use Rattle.cast_delay.specs.declared.looked.Looked.{Looked};
ghost use Rattle.cast_delay.specs.Waits.{looked_of, IsKnown, AreKnown};
ghost use Rattle.cast_delay.specs.Waits.{AreLookedAt, AreSeen, AreToWake};

use crate::looked::Looked;
use crate::offers::Offers;
use crate::rows::Rows;
use cast_ready::{Gate, Row};
use cast_types::{GroupNo, Key, NoMemory, Proc, SortedMap, Uid};
use std::alloc::Global;
use std::marker::Model;

/// What was looked at of the messages for processes, at most one entry for each. Contracts see the
/// list.
#[derive(Drop)]
pub struct Waits {
    looked: Vec<Looked>,
}

impl Model for Waits {
    ghost use Rattle.std.specs.Prelude.{List};
    ghost use Rattle.cast_delay.specs.declared.looked.Looked.{Looked};

    ghost Value = { List Looked };

    ghost view = { λ w. w.looked.items };
}

impl Waits {
    /// Nothing was looked at for any process.
    pub fn new(alloc: Global) -> Self
        ensures { result ≡ [] }
    {
        Waits {
            looked: Vec::new(alloc),
        }
    }

    /// What was looked at, and leaves nothing.
    pub fn take(&mut self) -> Self
        ensures taken { result ≡ self.old }
        ensures left { self.new ≡ [] }
    {
        let none = Waits::new(*self.looked.allocator());
        std::mem::replace(self, none)
    }

    /// Leaves nothing.
    pub fn clear(&mut self)
        ensures { self.new ≡ [] }
    {
        self.looked.clear();
    }

    /// The first entry for a process.
    pub fn find(&self, process: Proc) -> Option<&Looked>
        ensures { option_copied result ≡ looked_of self.now process }
    {
        self.looked.iter().find(|looked| looked.process == process)
    }

    /// Leaves nothing for a process.
    pub fn forget(&mut self, process: Proc)
        ensures { self.new ≡ filter (λ l. not (proc_eq l.process process)) self.old }
    {
        self.looked.retain(|looked| looked.process != process);
    }

    /// Whether no message of a key from this number on was looked at.
    pub fn are_upto(&self, number: usize) -> bool
        ensures { result ≡ list_all (λ l. nat_le l.below number) self.now }
    {
        self.looked.iter().all(|looked| looked.below <= number)
    }

    /// Looks at the messages from a place on for a process. Their keys are below `above`, and those
    /// before them were looked at or are not awaited. Where memory is refused, nothing is left for
    /// the process.
    pub fn look(
        &mut self,
        process: Proc,
        above: usize,
        first: usize,
        offered: &Offers,
        gates: &SortedMap<GroupNo, Gate>,
        rows: &Rows,
    )
        requires rising { rises key_of offered.now ≡ true }
        requires above { all_below key_of above offered.now ≡ true }
        requires first { first ≤ length offered.now }
        requires known { AreLookedAt gates.now rows.now offered.now self.old }
        requires seen { AreSeen gates.now rows.now offered.now self.old process first }
        ensures { AreLookedAt gates.now rows.now offered.now self.new }
    {
        let Some(row) = rows.find(process) else {
            return;
        };
        match self.place_of(process) {
            Some(place) => {
                let looked = &mut self.looked[place];
                if looked.look(above, first, offered, gates, row).is_err() {
                    self.forget(process);
                }
            }
            None => {
                let _ = self.look_first(process, above, first, offered, gates, row);
            }
        }
    }

    // So for a process for which nothing was looked at. `NoMemory` changes nothing.
    fn look_first(
        &mut self,
        process: Proc,
        above: usize,
        first: usize,
        offered: &Offers,
        gates: &SortedMap<GroupNo, Gate>,
        row: &Row,
    ) -> Result<(), NoMemory>
        requires above { all_below key_of above offered.now ≡ true }
        requires first { first ≤ length offered.now }
        requires before { (l : Looked) (o : Offered) → Contains (take first offered.now) o
            → IsKnown gates.now row.now l o }
        ensures ok { OnOk result ((l : Looked)
            × (self.new ≡ self.old ++ l ∷ [])
            × (l.process ≡ process)
            × AreKnown gates.now row.now offered.now l) }
        ensures err { OnErr result (self.new ≡ self.old) }
    {
        let mut looked = Looked::new(*self.looked.allocator(), process);
        looked.look(above, first, offered, gates, row)?;
        self.looked.push(looked)?;
        Ok(())
    }

    /// Takes in that a process delivered the message of an id, which has this key: looks again at
    /// what was filed under it. Where memory is refused, nothing is left for the process.
    pub fn wake(
        &mut self,
        process: Proc,
        id: Uid,
        key: Key,
        offered: &Offers,
        gates: &SortedMap<GroupNo, Gate>,
        rows: &Rows,
    )
        requires { AreToWake gates.now rows.now offered.now process id key self.old }
        ensures { AreLookedAt gates.now rows.now offered.now self.new }
    {
        let Some(place) = self.place_of(process) else {
            return;
        };
        let Some(row) = rows.find(process) else {
            return;
        };
        let looked = &mut self.looked[place];
        if !looked.wake(id, key, offered, gates, row) {
            self.forget(process);
        }
    }

    // Where the first entry for a process stands.
    fn place_of(&self, process: Proc) -> Option<usize>
        ensures { result ≡ position (λ l. proc_eq l.process process) self.now }
    {
        self.looked
            .iter()
            .position(|looked| looked.process == process)
    }
}
