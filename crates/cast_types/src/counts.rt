ghost use Rattle.std.specs.Prelude.{◌≡◌, ◌<◌, ◌≤◌, [], IfOk, OnOk, OnErr, IsTrue, ◌↔◌, length};
ghost use Rattle.std.specs.FinMap.Entries.{put};
ghost use Rattle.cast_types.specs.Names.{proc_cmp};
ghost use Rattle.cast_types.specs.Counts.{count_of, is_counts};

use crate::names::Proc;
use crate::{NoMemory, sorted};
use std::alloc::Global;
use std::marker::Model;

/// A count for each process, 0 where none is kept: at most 64 counts of at least 1. Contracts see
/// the list of counts in rising order of their processes.
#[derive(Drop)]
pub struct Counts {
    entries: Vec<(Proc, u32)>,
}

impl Model for Counts {
    ghost use Rattle.std.specs.Prelude.{List, ℕ, IsTrue};
    ghost use Rattle.cast_types.specs.declared.names.Proc.{Proc};
    ghost use Rattle.cast_types.specs.Counts.{is_counts};

    ghost Value = { List (Proc × ℕ) };

    ghost view = { λ c. c.entries.items };

    ghost invariant = { λ c. IsTrue (is_counts c.entries.items) };
}

impl Counts {
    /// No counts.
    pub fn new(alloc: Global) -> Self
        ensures { result ≡ [] }
    {
        Counts {
            entries: Vec::new(alloc),
        }
    }

    /// The counts of a vector.
    pub fn from_entries(entries: Vec<(Proc, u32)>) -> Self
        requires { IsTrue (is_counts entries.items) }
        ensures { result ≡ entries.items }
    {
        Counts { entries }
    }

    /// The counts in rising order of their processes.
    pub fn entries(&self) -> &[(Proc, u32)]
        ensures value { result.now ≡ self.now }
        ensures valid { IsTrue (is_counts self.now) }
    {
        &self.entries
    }

    /// The count of a process, 0 where none is kept.
    pub fn get(&self, process: Proc) -> u32
        ensures { result ≡ count_of self.now process }
    {
        match sorted::find(&self.entries, &process) {
            Some(count) => *count,
            None => 0,
        }
    }

    /// How many counts are kept, at most 64.
    pub fn len(&self) -> usize
        ensures value { result ≡ length self.now }
        ensures bound { result ≤ 64 }
    {
        self.entries.len()
    }

    /// Whether no count is kept.
    pub fn is_empty(&self) -> bool
        ensures { IsTrue result ↔ (self.now ≡ []) }
    {
        self.entries.is_empty()
    }

    /// Sets the count of a process. `NoMemory` changes nothing.
    pub fn set(&mut self, process: Proc, count: u32) -> Result<(), NoMemory>
        requires positive { 0 < count }
        requires room { length (put proc_cmp process count self.old) ≤ 64 }
        ensures ok { OnOk result (self.new ≡ put proc_cmp process count self.old) }
        ensures err { OnErr result (self.new ≡ self.old) }
    {
        sorted::put(&mut self.entries, process, count)?;
        Ok(())
    }

    /// An equal value.
    pub fn copy(&self) -> Result<Self, NoMemory>
        ensures { IfOk result (λ c. c ≡ self.now) }
    {
        Ok(Counts {
            entries: Vec::from_slice(*self.entries.allocator(), &self.entries)?,
        })
    }
}
