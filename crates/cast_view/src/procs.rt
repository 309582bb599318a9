ghost use Rattle.std.specs.Prelude.{◌≡◌, [], filter, IfOk, OnOk, OnErr, IsTrue, ◌↔◌};
ghost use Rattle.cast_types.specs.Names.{proc_cmp, proc_eq, site_eq};
ghost use Rattle.cast_types.specs.Sets.{with_item, without, is_among};
ghost use Rattle.cast_types.specs.Rising.{is_rising};

use crate::sites::is_among;
use cast_types::{NoMemory, Proc, SiteNo, sorted};
use std::alloc::Global;
use std::marker::Model;

/// Processes in rising order, each once. Contracts see the list.
#[derive(Drop)]
pub struct Procs {
    list: Vec<Proc>,
}

impl Model for Procs {
    ghost use Rattle.std.specs.Prelude.{List, IsTrue};
    ghost use Rattle.cast_types.specs.declared.names.Proc.{Proc};
    ghost use Rattle.cast_types.specs.Names.{proc_cmp};
    ghost use Rattle.cast_types.specs.Rising.{is_rising};

    ghost Value = { List Proc };

    ghost view = { λ p. p.list.items };

    ghost invariant = { λ p. IsTrue (is_rising proc_cmp p.list.items) };
}

impl Procs {
    /// No processes.
    pub fn new(alloc: Global) -> Self
        ensures { result ≡ [] }
    {
        Procs {
            list: Vec::new(alloc),
        }
    }

    /// The processes in rising order.
    pub fn as_slice(&self) -> &[Proc]
        ensures value { result.now ≡ self.now }
        ensures rising { IsTrue (is_rising proc_cmp self.now) }
    {
        &self.list
    }

    /// The allocator that the list was made with.
    pub fn alloc(&self) -> Global {
        *self.list.allocator()
    }

    /// An equal value.
    pub fn copy(&self) -> Result<Self, NoMemory>
        ensures { IfOk result (λ procs. procs ≡ self.now) }
    {
        Ok(Procs {
            list: Vec::from_slice(self.alloc(), &self.list)?,
        })
    }

    /// Whether there is no process.
    pub fn is_empty(&self) -> bool
        ensures { IsTrue result ↔ (self.now ≡ []) }
    {
        self.list.is_empty()
    }

    /// Whether a process is one of them.
    pub fn contains(&self, process: Proc) -> bool
        ensures { result ≡ is_among proc_eq process self.now }
    {
        is_listed(process, &self.list)
    }

    /// Adds a process, where it is not there yet. `NoMemory` changes nothing.
    pub fn insert(&mut self, process: Proc) -> Result<(), NoMemory>
        ensures ok { OnOk result (self.new ≡ with_item proc_cmp process self.old) }
        ensures err { OnErr result (self.new ≡ self.old) }
    {
        sorted::insert(&mut self.list, process)?;
        Ok(())
    }

    /// Takes a process out. Takes no memory.
    pub fn remove(&mut self, process: Proc)
        ensures { self.new ≡ without proc_eq process self.old }
    {
        self.list.retain(|other| !(process == *other));
    }

    /// Keeps the processes of these sites. Takes no memory.
    pub fn keep_at(&mut self, sites: &[SiteNo])
        ensures { self.new ≡ filter (λ p. is_among site_eq p.site sites.now) self.old }
    {
        self.list.retain(|process| is_among(process.site, sites));
    }

    /// The processes as a vector.
    pub fn into_vec(self) -> Vec<Proc>
        ensures value { result.items ≡ self }
        ensures rising { IsTrue (is_rising proc_cmp self) }
    {
        let Procs { list } = self;
        list
    }
}

/// Whether a process is one of these.
pub(crate) fn is_listed(process: Proc, list: &[Proc]) -> bool
    ensures { result ≡ is_among proc_eq process list.now }
{
    list.iter().any(|other| process == *other)
}
