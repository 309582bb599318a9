ghost use Rattle.std.specs.Prelude.{◌≡◌, cond, false, true, IfOk, OnErr, OnOk};
ghost use Rattle.cast_types.specs.declared.names.Key.{Key};
ghost use Rattle.cast_types.specs.declared.names.Uid.{Uid};
ghost use Rattle.cast_index.specs.Index.{has};
ghost use Rattle.cast_store.specs.Lines.{is_abcast_named, is_named, key_of};

use crate::receipt::Receipt;
use cast_index::Index;
use cast_types::{Key, NoMemory};
use std::alloc::Global;

/// The ids of messages, with the numbers of their receipts as keys.
#[derive(Drop)]
pub(crate) struct Ids {
    pub(crate) all: Index,
    /// Those of the ABCASTs alone.
    pub(crate) abcasts: Index,
}

impl Ids {
    /// No ids.
    pub(crate) fn new(alloc: Global) -> Self
        ensures all { (u : Uid) (k : Key) → has result.all u k ≡ false }
        ensures abcasts { (u : Uid) (k : Key) → has result.abcasts u k ≡ false }
    {
        Ids {
            all: Index::new(alloc),
            abcasts: Index::new(alloc),
        }
    }

    /// An equal value.
    pub(crate) fn copy(&self) -> Result<Self, NoMemory>
        ensures { IfOk result (λ ids. ids ≡ self.now) }
    {
        Ok(Ids {
            all: self.all.copy()?,
            abcasts: self.abcasts.copy()?,
        })
    }

    /// Adds the id of a receipt. `NoMemory` leaves all ids but this one under this number.
    pub(crate) fn insert(&mut self, receipt: Receipt) -> Result<(), NoMemory>
        ensures all { OnOk result ((u : Uid) (k : Key)
            → has self.new.all u k ≡ cond (is_named u k receipt) true (has self.old.all u k)) }
        ensures abcasts { OnOk result ((u : Uid) (k : Key) → has self.new.abcasts u k
            ≡ cond (is_abcast_named u k receipt) true (has self.old.abcasts u k)) }
        ensures unnamed { OnErr result (has self.old.all receipt.id (key_of receipt) ≡ false
            → (u : Uid) (k : Key) → has self.new.all u k ≡ has self.old.all u k) }
        ensures no_abcast { OnErr result (self.new.abcasts ≡ self.old.abcasts) }
    {
        let key = Key(receipt.number);
        self.all.insert(receipt.id, key)?;
        if receipt.atomic {
            if let Err(refused) = self.abcasts.insert(receipt.id, key) {
                self.all.remove(receipt.id, key);
                return Err(refused);
            }
        }
        Ok(())
    }

    /// Removes the id of a receipt. Takes no memory.
    pub(crate) fn remove(&mut self, receipt: Receipt)
        ensures all { (u : Uid) (k : Key)
            → has self.new.all u k ≡ cond (is_named u k receipt) false (has self.old.all u k) }
        ensures abcasts { (u : Uid) (k : Key) → has self.new.abcasts u k
            ≡ cond (is_abcast_named u k receipt) false (has self.old.abcasts u k) }
    {
        let key = Key(receipt.number);
        self.all.remove(receipt.id, key);
        if receipt.atomic {
            self.abcasts.remove(receipt.id, key);
        }
    }
}
