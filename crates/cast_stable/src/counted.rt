ghost use Rattle.std.specs.Prelude.{◌≡◌, ℕ, ◌+◌, ◌<◌, ◌≤◌, ◌||◌, ◌==◌};
ghost use Rattle.std.specs.Prelude.{true, false, OnOk, OnErr, IfOk};
ghost use Rattle.cast_stable.specs.Runs.{no_counts, contains, greatest, absorb, insert_count};

use cast_types::NoMemory;
use std::alloc::Global;
use std::collections::BTreeSet;
use std::marker::Model;

/// A set of counts from 1 on. Counts without a gap from 1 on take no memory. Contracts see a `Run`.
#[derive(Drop)]
pub struct Counted {
    // All counts from 1 to this one are in the set.
    upto: u32,
    // The further ones, each above `upto + 1`.
    above: BTreeSet<u32>,
}

impl Model for Counted {
    ghost use Rattle.std.specs.Prelude.{IsTrue};
    ghost use Rattle.cast_stable.specs.Runs.{Run, is_run};

    ghost Value = { Run };

    ghost view = { λ c. record { upto = c.upto; above = c.above.keys } };

    ghost invariant = { λ c. IsTrue (is_run (record { upto = c.upto; above = c.above.keys })) };
}

impl Clone for Counted {
    ghost use Rattle.std.specs.Prelude.{◌≡◌};

    ghost is_clone = { λ x y. y ≡ x };

    fn clone(&self) -> Result<Self, NoMemory> {
        self.copy()
    }
}

impl Counted {
    /// No counts.
    pub fn new(alloc: Global) -> Self
        ensures { result ≡ no_counts }
    {
        Counted {
            upto: 0,
            above: BTreeSet::new(alloc),
        }
    }

    /// Puts a count into the set. Count 0 changes nothing, and neither does `NoMemory`.
    pub fn insert(&mut self, count: u32) -> Result<(), NoMemory>
        ensures ok { OnOk result (self.new ≡ insert_count self.old count) }
        ensures meaning { OnOk result
            ((m : ℕ) → 0 < m → contains self.new m ≡ (contains self.old m || m == count)) }
        ensures err { OnErr result (self.new ≡ self.old) }
    {
        if count <= self.upto {
            return Ok(());
        }
        if count == self.upto + 1 {
            self.upto = absorb(count, &mut self.above);
            return Ok(());
        }
        self.above.insert(count)?;
        Ok(())
    }

    /// Whether a count is in the set. Takes no memory.
    pub fn contains(&self, count: u32) -> bool
        ensures { result ≡ contains self.now count }
    {
        (0 < count && count <= self.upto) || self.above.contains(&count)
    }

    /// The greatest count such that all counts from 1 to it are in the set, 0 where count 1 is not.
    pub fn upto(&self) -> u32
        ensures value { result ≡ self.now.upto }
        ensures all { (m : ℕ) → 0 < m → m ≤ result → contains self.now m ≡ true }
        ensures next { contains self.now (result + 1) ≡ false }
    {
        self.upto
    }

    /// The greatest count in the set, 0 where it is empty. Takes no memory.
    pub fn greatest(&self) -> u32
        ensures value { result ≡ greatest self.now }
    {
        match self.above.last() {
            Some(last) => *last,
            None => self.upto,
        }
    }

    /// An equal value.
    pub fn copy(&self) -> Result<Self, NoMemory>
        ensures { IfOk result (λ c. c ≡ self.now) }
    {
        Ok(Counted {
            upto: self.upto,
            above: self.above.clone()?,
        })
    }
}

// The last count of the run that goes on from a count. What the run takes leaves the set.
fn absorb(count: u32, above: &mut BTreeSet<u32>) -> u32
    ensures last { result ≡ (absorb count above.old.keys).upto }
    ensures rest { above.new.keys ≡ (absorb count above.old.keys).above }
{
    let mut last = count;
    while let Some(next) = above.first() {
        if last.checked_add(1) != Some(*next) {
            return last;
        }
        last = *next;
        above.pop_first();
    }
    // An emptied set keeps a node until it is cleared.
    above.clear();
    last
}
