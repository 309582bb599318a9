ghost use Rattle.std.specs.Prelude.{◌≡◌};
ghost use Rattle.cast_clock.specs.declared.fault.ClockFault.TheVariants.{NoMemory};

use std::alloc::{AllocError, AllocFailed};

/// Why a time is not changed.
#[derive(Clone, Copy, Debug, PartialEq, Eq)]
pub enum ClockFault {
    /// A group would have more than 64 counts.
    TooMany,
    /// An allocation was refused.
    NoMemory,
}

impl From<AllocError> for ClockFault {
    ghost from_gives = { λ _ fault. fault ≡ NoMemory };

    fn from(_error: AllocError) -> ClockFault {
        ClockFault::NoMemory
    }
}

impl<T: Drop> From<AllocFailed<T>> for ClockFault {
    ghost from_gives = { λ _ fault. fault ≡ NoMemory };

    fn from(_error: AllocFailed<T>) -> ClockFault {
        ClockFault::NoMemory
    }
}
