ghost use Rattle.std.specs.Prelude.{◌≡◌, [], None, IfOk, IsTrue};
ghost use Rattle.cast_message.specs.Membership.{is_members};
ghost use Rattle.cast_message.specs.Tail.{is_tail};

use cast_types::{NoMemory, Proc};
use std::alloc::Global;
use std::marker::Model;

/// The members of a view, at most 64 in rising order, and which of them sets the order: its holder.
/// Only where there are no members there is no holder. Contracts see a `Membership`.
#[derive(Drop)]
pub struct Membership {
    list: Vec<Proc>,
    holder: Option<Proc>,
}

impl Model for Membership {
    ghost use Rattle.std.specs.Prelude.{IsTrue};
    ghost use Rattle.cast_message.specs.Membership.{Membership, is_members};

    ghost Value = { Membership };

    ghost view = { λ m. record { list = m.list.items; holder = m.holder } };

    ghost invariant = { λ m.
        IsTrue (is_members (record { list = m.list.items; holder = m.holder })) };
}

impl Membership {
    /// No members.
    pub fn new(alloc: Global) -> Self
        ensures { result ≡ record { list = []; holder = None } }
    {
        Membership {
            list: Vec::new(alloc),
            holder: None,
        }
    }

    /// These members with this holder.
    pub fn from_parts(list: Vec<Proc>, holder: Option<Proc>) -> Self
        requires { IsTrue (is_members (record { list = list.items; holder = holder })) }
        ensures { result ≡ record { list = list.items; holder = holder } }
    {
        Membership { list, holder }
    }

    /// The members in rising order, at most 64.
    pub fn list(&self) -> &[Proc]
        ensures value { result.now ≡ self.now.list }
        ensures valid { IsTrue (is_members self.now) }
    {
        &self.list
    }

    /// The member that sets the order, `None` where there are no members.
    pub fn holder(&self) -> Option<Proc>
        ensures value { result ≡ self.now.holder }
        ensures valid { IsTrue (is_members self.now) }
    {
        self.holder
    }

    /// An equal value.
    pub fn copy(&self) -> Result<Self, NoMemory>
        ensures { IfOk result (λ m. m ≡ self.now) }
    {
        Ok(Membership {
            list: Vec::from_slice(*self.list.allocator(), &self.list)?,
            holder: self.holder,
        })
    }
}

/// The end of a view's order: how many ids stand before it, at most 4,000,000,000, and its ids, at
/// most 576, each a process and a count. Contracts see a `Tail`.
#[derive(Drop)]
pub struct Tail {
    start: u32,
    ids: Vec<(Proc, u32)>,
}

impl Model for Tail {
    ghost use Rattle.std.specs.Prelude.{IsTrue};
    ghost use Rattle.cast_message.specs.Tail.{Tail, is_tail};

    ghost Value = { Tail };

    ghost view = { λ t. record { start = t.start; ids = t.ids.items } };

    ghost invariant = { λ t. IsTrue (is_tail (record { start = t.start; ids = t.ids.items })) };
}

impl Tail {
    /// No ids, and none before them.
    pub fn new(alloc: Global) -> Self
        ensures { result ≡ record { start = 0; ids = [] } }
    {
        Tail {
            start: 0,
            ids: Vec::new(alloc),
        }
    }

    /// These ids, behind so many.
    pub fn from_parts(start: u32, ids: Vec<(Proc, u32)>) -> Self
        requires { IsTrue (is_tail (record { start = start; ids = ids.items })) }
        ensures { result ≡ record { start = start; ids = ids.items } }
    {
        Tail { start, ids }
    }

    /// How many ids stand before these, at most 4,000,000,000.
    pub fn start(&self) -> u32
        ensures value { result ≡ self.now.start }
        ensures valid { IsTrue (is_tail self.now) }
    {
        self.start
    }

    /// The ids in their order, at most 576.
    pub fn ids(&self) -> &[(Proc, u32)]
        ensures value { result.now ≡ self.now.ids }
        ensures valid { IsTrue (is_tail self.now) }
    {
        &self.ids
    }

    /// An equal value.
    pub fn copy(&self) -> Result<Self, NoMemory>
        ensures { IfOk result (λ t. t ≡ self.now) }
    {
        Ok(Tail {
            start: self.start,
            ids: Vec::from_slice(*self.ids.allocator(), &self.ids)?,
        })
    }
}
