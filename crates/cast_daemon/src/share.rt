//! The count of events, cut into shares for the threads that serve them.
ghost use Rattle.std.specs.Prelude.{◌≡◌, ◌≤◌, ◌<◌, ◌+◌, ◌-◌, ◌^◌, ◌⊎◌, IfSome, IfNone};

use cast_pool::Worked;
use std::sync::ledger::Ledger;

/// A thread's share of the count of events. A thread needs one to serve events.
#[derive(Drop)]
pub struct CountShare<L: Ledger> {
    pub worked: Worked<L>,
    ghost one: { worked.parts ≡ 1 },
}

impl<L: Ledger> CountShare<L> {
    /// A share that has one part of the ledger.
    pub fn new(worked: Worked<L>) -> Self
        requires { worked.parts ≡ 1 }
        ensures { result.worked ≡ worked }
    {
        CountShare { worked }
    }
}

/// The part of the count that no thread has.
#[derive(Drop)]
pub struct SpareCount<L: Ledger> {
    worked: Worked<L>,
    // How many parts it has.
    left: u64,
    ghost left_is: { worked.parts ≡ left },
}

impl<L: Ledger> SpareCount<L> {
    /// So many parts.
    pub fn new(worked: Worked<L>, left: u64) -> Self
        requires { worked.parts ≡ left }
        ensures worked { result.worked ≡ worked }
        ensures left { result.left ≡ left }
    {
        SpareCount { worked, left }
    }

    /// A share for one more thread, which has counted nothing. `None` if no parts are left for it:
    /// one part stays here.
    pub fn share(&mut self) -> Option<CountShare<L>>
        ensures some { IfSome result
            (λ s. (s.worked.taken ≡ 0) × (self.new.left + 1 ≡ self.old.left)) }
        ensures none { IfNone result ((self.new.left ≡ self.old.left) × (self.old.left < 2)) }
        ensures taken { self.new.worked.taken ≡ self.old.worked.taken }
    {
        let SpareCount { worked, left } = self;
        if *left < 2 {
            return None;
        }
        let share = worked.split();
        *left -= 1;
        Some(CountShare::new(share))
    }

    /// This part of the count, and the share that a thread gives back. Where the count would go
    /// past the end of its type, the share is lost.
    pub fn with(self, share: CountShare<L>) -> Self
        ensures { ((result.left ≡ self.left + 1)
            × (result.worked.taken ≡ self.worked.taken + share.worked.taken))
            ⊎ ((result.left ≡ self.left) × (result.worked ≡ self.worked)
            × ((self.left ≡ 2 ^ 64 - 1)
            ⊎ (2 ^ 64 ≤ self.worked.taken + share.worked.taken))) }
    {
        let SpareCount { worked, left } = self;
        if left == u64::MAX {
            return SpareCount { worked, left };
        }
        match worked.join(share.worked) {
            Ok(worked) => SpareCount {
                worked,
                left: left + 1,
            },
            Err((worked, _)) => SpareCount { worked, left },
        }
    }

    /// The whole count, which has so many parts. `None` if a thread still has a share.
    pub fn whole(self, all: u64) -> Option<Worked<L>>
        ensures { IfSome result (λ worked. worked.parts ≡ all) }
    {
        let SpareCount { worked, left } = self;
        if left == all { Some(worked) } else { None }
    }
}
