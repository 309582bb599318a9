ghost use Rattle.std.specs.Prelude.{◌≡◌, IfOk, OnOk, OnErr};
ghost use Rattle.cast_types.specs.Names.{entry_cmp};
ghost use Rattle.cast_types.specs.Sets.{with_item};

use cast_types::{NoMemory, Proc};
use std::alloc::Global;
use std::collections::BTreeSet;

/// Ids of messages, each a process and a count.
pub(crate) type Ids = BTreeSet<(Proc, u32)>;

/// Adds an id to a set. `NoMemory` changes nothing.
pub(crate) fn insert_id(ids: &mut Ids, id: (Proc, u32)) -> Result<(), NoMemory>
    ensures ok { OnOk result (ids.new.keys ≡ with_item entry_cmp id ids.old.keys) }
    ensures err { OnErr result (ids.new.keys ≡ ids.old.keys) }
{
    ids.insert(id)?;
    Ok(())
}

/// The ids of a set, in rising order.
pub(crate) fn list_of(alloc: Global, ids: &Ids) -> Result<Vec<(Proc, u32)>, NoMemory>
    ensures { IfOk result (λ l. l.items ≡ ids.now.keys) }
{
    let mut list = Vec::with_capacity(alloc, ids.len())?;
    for id in ids {
        list.push(*id)?;
    }
    Ok(list)
}
