ghost use Rattle.std.specs.Prelude.{◌≡◌, [], IfOk, OnOk, OnErr};
ghost use Rattle.std.specs.Fn.{CalledAt};
ghost use Rattle.std.specs.List.Retain.{IsFiltered};
ghost use Rattle.std.specs.Option.{option_copied};
ghost use Rattle.std.specs.FinMap.Entries.{find, put};

use crate::{NoMemory, sorted};
use std::alloc::Global;
use std::marker::Model;

/// A value for each key, in rising order of the keys. Contracts see the list of entries.
#[derive(Drop)]
pub struct SortedMap<K, V> {
    entries: Vec<(K, V)>,
}

impl<K, V> Model for SortedMap<K, V> {
    ghost use Rattle.std.specs.Prelude.{List};
    ghost use Rattle.std.specs.Coded.{coded_list, coded×};

    ghost Value = { List (K × V) };

    ghost coded = { coded_list (coded× K.code V.code) };

    ghost view = { λ m. m.entries.items };
}

impl<K, V> SortedMap<K, V> {
    /// No entries.
    pub fn new(alloc: Global) -> Self
        ensures { result ≡ [] }
    {
        SortedMap {
            entries: Vec::new(alloc),
        }
    }

    /// The entries in rising order of their keys.
    pub fn entries(&self) -> &[(K, V)]
        ensures { result.now ≡ self.now }
    {
        &self.entries
    }

    /// Entries that stand in rising order of their keys. Takes no memory.
    pub fn from_entries(entries: Vec<(K, V)>) -> Self
        ensures { result ≡ entries.items }
    {
        SortedMap { entries }
    }

    /// The allocator that it was made with.
    pub fn alloc(&self) -> Global {
        *self.entries.allocator()
    }
}

impl<K: Copy, V: Copy> SortedMap<K, V> {
    /// An equal value.
    pub fn copy(&self) -> Result<Self, NoMemory>
        ensures { IfOk result (λ m. m ≡ self.now) }
    {
        Ok(SortedMap {
            entries: Vec::from_slice(self.alloc(), &self.entries)?,
        })
    }
}

impl<K: Ord, V> SortedMap<K, V> {
    /// The value at a key.
    pub fn get(&self, key: &K) -> Option<&V>
        ensures { option_copied result ≡ find K.cmp key.now self.now }
    {
        sorted::find(&self.entries, key)
    }
}

impl<K: Ord + Drop, V: Drop> SortedMap<K, V> {
    /// Sets the value at a key. `NoMemory` changes nothing.
    pub fn put(&mut self, key: K, value: V) -> Result<(), NoMemory>
        ensures ok { OnOk result (self.new ≡ put K.cmp key value self.old) }
        ensures err { OnErr result (self.new ≡ self.old) }
    {
        sorted::put(&mut self.entries, key, value)?;
        Ok(())
    }

    /// Keeps the entries at which `keeps` answers `true`. Takes no memory.
    pub fn retain<F: FnMut(&(K, V)) -> bool>(&mut self, keeps: F)
        requires { F.IsAlwaysCallable keeps }
        ensures { IsFiltered (CalledAt F.FnMut) keeps self.old self.new }
    {
        self.entries.retain(keeps);
    }
}
