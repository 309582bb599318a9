ghost use Rattle.std.specs.Prelude.{◌≡◌, [], IfOk, IsTrue};
ghost use Rattle.cast_message.specs.KeptIds.{is_kept};

use cast_types::{NoMemory, Proc};
use std::alloc::Global;
use std::marker::Model;

/// The messages that a site keeps of a view, at most 2,048, each a process and a count, in rising
/// order. A message is marked where it is atomic and the site knows no place for it. Contracts see
/// the list of ids with their marks.
#[derive(Drop)]
pub struct KeptIds {
    entries: Vec<((Proc, u32), bool)>,
}

impl Model for KeptIds {
    ghost use Rattle.std.specs.Prelude.{IsTrue};
    ghost use Rattle.cast_message.specs.KeptIds.{KeptList, is_kept};

    ghost Value = { KeptList };

    ghost view = { λ k. k.entries.items };

    ghost invariant = { λ k. IsTrue (is_kept k.entries.items) };
}

impl KeptIds {
    /// No messages.
    pub fn new(alloc: Global) -> Self
        ensures { result ≡ [] }
    {
        KeptIds {
            entries: Vec::new(alloc),
        }
    }

    /// The ids and marks of a vector.
    pub fn from_entries(entries: Vec<((Proc, u32), bool)>) -> Self
        requires { IsTrue (is_kept entries.items) }
        ensures { result ≡ entries.items }
    {
        KeptIds { entries }
    }

    /// The ids in rising order, at most 2,048, each with its mark.
    pub fn entries(&self) -> &[((Proc, u32), bool)]
        ensures value { result.now ≡ self.now }
        ensures valid { IsTrue (is_kept self.now) }
    {
        &self.entries
    }

    /// An equal value.
    pub fn copy(&self) -> Result<Self, NoMemory>
        ensures { IfOk result (λ k. k ≡ self.now) }
    {
        Ok(KeptIds {
            entries: Vec::from_slice(*self.entries.allocator(), &self.entries)?,
        })
    }
}
