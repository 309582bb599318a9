ghost use Rattle.std.specs.Prelude.{◌≡◌, IfOk, IsTrue};
ghost use Rattle.cast_message.specs.Placement.{is_placement};

use cast_types::{NoMemory, Proc};
use std::marker::Model;

/// Places of a view's order: the first of them, 1 to 4,000,000,000, and the ids that stand at it
/// and at those after it, 1 to 64, each a process and a count. They may hand over the token of the
/// view: then they name the process that holds it from the first place on, and there may be no ids.
/// Contracts see a `Placement`.
#[derive(Drop)]
pub struct Placement {
    first: u32,
    ids: Vec<(Proc, u32)>,
    holder: Option<Proc>,
}

impl Model for Placement {
    ghost use Rattle.std.specs.Prelude.{IsTrue};
    ghost use Rattle.cast_message.specs.Placement.{Placement, is_placement};

    ghost Value = { Placement };

    ghost view = { λ p. record { first = p.first; ids = p.ids.items; holder = p.holder } };

    ghost invariant = { λ p.
        IsTrue (is_placement (record { first = p.first; ids = p.ids.items; holder = p.holder })) };
}

impl Placement {
    /// These ids, from this place on, and the process to which the token is handed over, if it is.
    pub fn from_parts(first: u32, ids: Vec<(Proc, u32)>, holder: Option<Proc>) -> Self
        requires { IsTrue
            (is_placement (record { first = first; ids = ids.items; holder = holder })) }
        ensures { result ≡ record { first = first; ids = ids.items; holder = holder } }
    {
        Placement { first, ids, holder }
    }

    /// The place of the first id, 1 to 4,000,000,000.
    pub fn first(&self) -> u32
        ensures value { result ≡ self.now.first }
        ensures valid { IsTrue (is_placement self.now) }
    {
        self.first
    }

    /// The ids in their order, at most 64; where the token is not handed over, at least one.
    pub fn ids(&self) -> &[(Proc, u32)]
        ensures value { result.now ≡ self.now.ids }
        ensures valid { IsTrue (is_placement self.now) }
    {
        &self.ids
    }

    /// The process to which the token is handed over, if it is: it holds the token from the first
    /// place on.
    pub fn holder(&self) -> Option<Proc>
        ensures value { result ≡ self.now.holder }
        ensures valid { IsTrue (is_placement self.now) }
    {
        self.holder
    }

    /// An equal value.
    pub fn copy(&self) -> Result<Self, NoMemory>
        ensures { IfOk result (λ p. p ≡ self.now) }
    {
        Ok(Placement {
            first: self.first,
            ids: Vec::from_slice(*self.ids.allocator(), &self.ids)?,
            holder: self.holder,
        })
    }
}
