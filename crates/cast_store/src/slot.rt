ghost use Rattle.std.specs.Prelude.{◌≡◌, IfOk};

use cast_message::Message;
use cast_types::{DomainNo, NoMemory};

/// A message that a domain keeps, with the number of its receipt there.
#[derive(Drop)]
pub(crate) struct Slot {
    pub(crate) domain: DomainNo,
    pub(crate) number: usize,
    pub(crate) message: Message,
}

impl Clone for Slot {
    ghost use Rattle.std.specs.Prelude.{◌≡◌};

    ghost is_clone = { λ x y. y ≡ x };

    fn clone(&self) -> Result<Self, NoMemory> {
        self.copy()
    }
}

impl Slot {
    /// An equal value.
    pub(crate) fn copy(&self) -> Result<Self, NoMemory>
        ensures { IfOk result (λ slot. slot ≡ self.now) }
    {
        Ok(Slot {
            domain: self.domain,
            number: self.number,
            message: self.message.copy()?,
        })
    }
}
