ghost use Rattle.std.specs.Prelude.{◌≡◌, ◌∷◌, ◌++◌, [], IfOk, OnOk};
ghost use Rattle.std.specs.Prelude.{OnErr, length, take, IsTrue, ◌↔◌};

use crate::NoMemory;
use std::alloc::Global;
use std::marker::Model;

/// A vector that contracts see as the list of its items.
#[derive(Drop)]
pub struct List<T> {
    cells: Vec<T>,
}

impl<T> Model for List<T> {
    ghost use Rattle.std.specs.Prelude.{List as Items};
    ghost use Rattle.std.specs.Coded.{coded_list};

    ghost Value = { Items T };

    ghost coded = { coded_list T.code };

    ghost view = { λ l. l.cells.items };
}

impl<T> List<T> {
    /// No items.
    pub fn new(alloc: Global) -> Self
        ensures { result ≡ [] }
    {
        List {
            cells: Vec::new(alloc),
        }
    }

    /// The items of a vector, in its order. Takes no memory.
    pub fn from_vec(cells: Vec<T>) -> Self
        ensures { result ≡ cells.items }
    {
        List { cells }
    }

    /// The items as a vector. Takes no memory.
    pub fn into_vec(self) -> Vec<T>
        ensures { result.items ≡ self }
    {
        let List { cells } = self;
        cells
    }

    /// The items.
    pub fn as_slice(&self) -> &[T]
        ensures { result.now ≡ self.now }
    {
        &self.cells
    }

    /// How many items there are.
    pub fn len(&self) -> usize
        ensures { result ≡ length self.now }
    {
        self.cells.len()
    }

    /// Whether there is no item.
    pub fn is_empty(&self) -> bool
        ensures { IsTrue result ↔ (self.now ≡ []) }
    {
        self.cells.is_empty()
    }

    /// The allocator that the list was made with.
    pub fn alloc(&self) -> Global {
        *self.cells.allocator()
    }
}

impl<T: Drop> List<T> {
    /// Adds an item at the end. `NoMemory` changes nothing.
    pub fn push(&mut self, item: T) -> Result<(), NoMemory>
        ensures ok { OnOk result (self.new ≡ self.old ++ item ∷ []) }
        ensures err { OnErr result (self.new ≡ self.old) }
    {
        self.cells.push(item)?;
        Ok(())
    }

    /// Adds items at the end; where there was none, takes them over as they lie. `NoMemory` changes
    /// nothing.
    pub fn append(&mut self, items: List<T>) -> Result<(), NoMemory>
        ensures ok { OnOk result (self.new ≡ self.old ++ items) }
        ensures err { OnErr result (self.new ≡ self.old) }
    {
        let mut more = items.into_vec();
        if self.cells.is_empty() {
            self.cells = more;
            return Ok(());
        }
        self.cells.append(&mut more)?;
        Ok(())
    }

    /// Keeps the first items, at most so many. Takes no memory.
    pub fn truncate(&mut self, len: usize)
        ensures { self.new ≡ take len self.old }
    {
        self.cells.truncate(len);
    }
}

impl<T: Copy> List<T> {
    /// An equal value.
    pub fn copy(&self) -> Result<Self, NoMemory>
        ensures { IfOk result (λ l. l ≡ self.now) }
    {
        Ok(List {
            cells: Vec::from_slice(self.alloc(), &self.cells)?,
        })
    }
}
