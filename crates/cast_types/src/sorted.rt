ghost use Rattle.std.specs.Prelude.{◌≡◌, OnOk, OnErr};
ghost use Rattle.std.specs.Option.{option_copied};
ghost use Rattle.std.specs.FinMap.Entries.{find, put};
ghost use Rattle.cast_types.specs.Sets.{with_item};

use crate::NoMemory;
use std::cmp::Ordering;

/// The value at a key, among entries in any order: the first one.
pub fn find<'a, K: Ord, V>(entries: &'a [(K, V)], key: &K) -> Option<&'a V>
    ensures { option_copied result ≡ find K.cmp key.now entries.now }
{
    for (k, v) in entries {
        if key.cmp(k).is_eq() {
            return Some(v);
        }
    }
    None
}

/// Sets the value at a key, among entries in rising order of their keys. `NoMemory` changes
/// nothing.
pub fn put<K: Ord + Drop, V: Drop>(
    entries: &mut Vec<(K, V)>,
    key: K,
    value: V,
) -> Result<(), NoMemory>
    ensures ok { OnOk result (entries.new.items ≡ put K.cmp key value entries.old.items) }
    ensures err { OnErr result (entries.new.items ≡ entries.old.items) }
{
    let mut at = 0;
    while at < entries.len() {
        match key.cmp(&entries[at].0) {
            Ordering::Greater => at += 1,
            Ordering::Equal => {
                entries[at].1 = value;
                return Ok(());
            }
            Ordering::Less => break,
        }
    }
    entries.insert(at, (key, value))?;
    Ok(())
}

/// Adds an item to a set that stands in rising order, where it lacks it. `NoMemory` changes
/// nothing.
pub fn insert<T: Ord + Drop>(items: &mut Vec<T>, item: T) -> Result<(), NoMemory>
    ensures ok { OnOk result (items.new.items ≡ with_item T.cmp item items.old.items) }
    ensures err { OnErr result (items.new.items ≡ items.old.items) }
{
    let mut at = 0;
    while at < items.len() {
        match item.cmp(&items[at]) {
            Ordering::Greater => at += 1,
            Ordering::Equal => return Ok(()),
            Ordering::Less => break,
        }
    }
    items.insert(at, item)?;
    Ok(())
}
