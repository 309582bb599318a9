ghost use Rattle.std.specs.Prelude.{◌≡◌, IfOk};

use cast_types::{Key, NoMemory, Stamp, Uid};

/// A message as the queue holds it: the key under which its domain keeps it, its name, whether it
/// is an ABCAST, and its time.
#[derive(Drop)]
pub struct Offered {
    pub key: Key,
    pub id: Uid,
    pub atomic: bool,
    pub times: Stamp,
}

impl Offered {
    /// An equal value.
    pub fn copy(&self) -> Result<Self, NoMemory>
        ensures { IfOk result (λ offered. offered ≡ self.now) }
    {
        Ok(Offered {
            key: self.key,
            id: self.id,
            atomic: self.atomic,
            times: self.times.copy()?,
        })
    }
}
