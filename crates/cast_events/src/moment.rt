ghost use Rattle.std.specs.Prelude.{◌≡◌, ◌+◌, max, min};
ghost use Rattle.cast_types.specs.declared.limits.TheConstants.{MAX_MOMENT};

use cast_types::limits::MAX_MOMENT;
use std::marker::Model;

/// A moment, in milliseconds, at most `MAX_MOMENT`.
#[derive(Drop)]
pub struct Moment {
    millis: u64,
}

impl Model for Moment {
    ghost use Rattle.std.specs.Prelude.{ℕ, ◌≤◌};

    ghost Value = { ℕ };

    ghost view = { λ m. m.millis };

    ghost invariant = { λ m. m.millis ≤ 4611686018427387904 };
}

impl Moment {
    /// The first moment, 0.
    pub fn first() -> Self
        ensures { result ≡ 0 }
    {
        Moment { millis: 0 }
    }

    /// Goes on to a moment, and to the last one where it is past that; a moment that is over
    /// changes nothing.
    pub fn reach(&mut self, millis: u64)
        ensures { self.new ≡ max self.old (min millis MAX_MOMENT) }
    {
        self.millis = self.millis.max(millis.min(MAX_MOMENT));
    }

    /// In milliseconds.
    pub fn millis(&self) -> u64
        ensures { result ≡ self.now }
    {
        self.millis
    }

    /// The same moment.
    pub fn copy(&self) -> Self
        ensures { result ≡ self.now }
    {
        Moment {
            millis: self.millis,
        }
    }

    /// So many milliseconds later.
    pub fn after(&self, millis: u32) -> u64
        ensures { result ≡ self.now + millis }
    {
        self.millis + millis as u64
    }
}
