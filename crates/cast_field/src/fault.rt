ghost use Rattle.std.specs.Prelude.{◌≡◌};
ghost use Rattle.cast_field.specs.declared.fault.FrameFault.TheVariants.{NoMemory};
ghost use Rattle.cast_field.specs.Faults.{fault_code};

use std::alloc::{AllocError, AllocFailed};
use thiserror::Error;

/// Why bytes are no frame: the first fault from left to right. Its number stands in printed text.
#[derive(Clone, Copy, Debug, PartialEq, Eq, Error)]
pub enum FrameFault {
    /// 1: bytes are wanting.
    #[error("bytes are wanting")]
    Short,
    /// 2: the first two bytes are not those of a frame.
    #[error("wrong magic")]
    Magic,
    /// 3: no frame is of this version.
    #[error("wrong version")]
    Version,
    /// 4: no frame has this type, or none of this version has it.
    #[error("wrong type")]
    WrongType,
    /// 5: bytes stand after the frame, or there are more than 60,000.
    #[error("wrong length")]
    Length,
    /// 6: an entry of a sorted list is not above the one before it.
    #[error("entries do not rise")]
    NotSorted,
    /// 7: a value is out of its range.
    #[error("a value is out of range")]
    Range,
    /// 8: an allocation was refused.
    #[error("no memory")]
    NoMemory,
}

impl FrameFault {
    /// The number of the fault, 1 to 8.
    pub fn number(self) -> u8
        ensures { result ≡ fault_code self }
    {
        match self {
            FrameFault::Short => 1,
            FrameFault::Magic => 2,
            FrameFault::Version => 3,
            FrameFault::WrongType => 4,
            FrameFault::Length => 5,
            FrameFault::NotSorted => 6,
            FrameFault::Range => 7,
            FrameFault::NoMemory => 8,
        }
    }
}

impl From<AllocError> for FrameFault {
    ghost from_gives = { λ _ e. e ≡ NoMemory };

    fn from(_error: AllocError) -> FrameFault {
        FrameFault::NoMemory
    }
}

impl<T: Drop> From<AllocFailed<T>> for FrameFault {
    ghost from_gives = { λ _ e. e ≡ NoMemory };

    fn from(_error: AllocFailed<T>) -> FrameFault {
        FrameFault::NoMemory
    }
}
