ghost use Rattle.std.specs.Prelude.{◌≡◌, ◌<◌, length, true, IsTrue, Contains};
ghost use Rattle.std.specs.Option.{option_copied};
ghost use Rattle.std.specs.List.Sorted.{IsSearchInRange, IsBinarySearchResult};
ghost use Rattle.std.specs.FinMap.Entries.{find, is_sorted};

use cast_types::GroupNo;

/// Whether a group stands at a place. Where the groups that are asked for and those that stand here
/// both rise, none is missed if the place moves on behind each that is found.
pub fn stands_at(groups: &[GroupNo], place: usize, group: GroupNo) -> bool
    ensures within { IsTrue result → place < length groups.now }
    ensures listed { IsTrue result → Contains groups.now group }
{
    place < groups.len() && groups[place] == group
}

/// The place of a key among entries in rising order of their keys, or the place where it would
/// stand. The place that is given is looked at first: where keys are asked for in rising order,
/// each mostly stands behind the one before.
pub fn place_near<K: Ord + Copy, V>(
    entries: &[(K, V)],
    place: usize,
    key: &K,
) -> Result<usize, usize>
    ensures bound { IsSearchInRange result (length entries.now) }
    ensures position { IsBinarySearchResult (λ e. K.cmp e.0 key.now) entries.now result }
{
    if place < entries.len() && entries[place].0.cmp(key).is_eq() {
        return Ok(place);
    }
    place_by_halving(entries, key)
}

// The same, found by halving. It stays out of line, so that loops in which the given place is
// mostly right are small.
#[inline(never)]
fn place_by_halving<K: Ord + Copy, V>(entries: &[(K, V)], key: &K) -> Result<usize, usize>
    ensures bound { IsSearchInRange result (length entries.now) }
    ensures position { IsBinarySearchResult (λ e. K.cmp e.0 key.now) entries.now result }
{
    entries.binary_search_by_key(key, |entry| entry.0)
}

/// The value at a key, and the place behind it. The place that is given is looked at first.
pub fn find_near<'a, K: Ord + Copy, V>(
    entries: &'a [(K, V)],
    place: usize,
    key: &K,
) -> (Option<&'a V>, usize)
    requires { is_sorted K.cmp entries.now ≡ true }
    ensures { option_copied result.0 ≡ find K.cmp key.now entries.now }
{
    match place_near(entries, place, key) {
        Ok(at) => (Some(&entries[at].1), at + 1),
        Err(at) => (None, at),
    }
}
