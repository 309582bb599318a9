ghost use Rattle.std.specs.Prelude.{◌≡◌, ◌≢◌, ◌≤◌, ◌<◌, ◌++◌, ℕ, true, false, cond, length};
ghost use Rattle.std.specs.Prelude.{nat_lt, IfNone, IfOk, IfSome, IsTrue, OnOk, OnErr};
ghost use Rattle.cast_types.specs.declared.names.DomainNo.{DomainNo};
ghost use Rattle.cast_timer.specs.declared.key.Moment.{Moment};
ghost use Rattle.cast_timer.specs.declared.key.OwedKey.{OwedKey};
ghost use Rattle.cast_timer.specs.Owed.{due_at};
ghost use Rattle.cast_timer.specs.Rows.{owed_in, keys_at, is_filled, is_held, IsShaped, IsFilled};
ghost use Rattle.cast_timer.specs.Rows.{Changes, Holds, IsFree, IsNext, IsFirst, is_before};

use crate::key::{Moment, OwedKey};
use cast_types::{DomainNo, NoMemory};
use std::alloc::Global;
use std::collections::{BTreeMap, BTreeSet};

/// The keys of the frames that all domains owe, by the moments at which they are due. A moment at
/// which a domain owes no frame is not there.
pub(crate) type Moments = BTreeMap<Moment, BTreeSet<OwedKey>>;

/// Adds a key to those of a moment. `NoMemory` changes nothing.
pub(crate) fn add(
    moments: &mut Moments,
    alloc: Global,
    moment: Moment,
    key: OwedKey,
) -> Result<(), NoMemory>
    ensures ok { OnOk result (Holds moment key true moments.old.entries moments.new.entries) }
    ensures err { OnErr result (moments.new.entries ≡ moments.old.entries) }
{
    match moments.get_mut(&moment) {
        Some(keys) => {
            keys.insert(key)?;
            Ok(())
        }
        None => add_first(moments, alloc, moment, key),
    }
}

// Adds the first key of a moment. `NoMemory` changes nothing.
fn add_first(
    moments: &mut Moments,
    alloc: Global,
    moment: Moment,
    key: OwedKey,
) -> Result<(), NoMemory>
    requires { IsFree moments.old.entries moment }
    ensures ok { OnOk result (Holds moment key true moments.old.entries moments.new.entries) }
    ensures err { OnErr result (moments.new.entries ≡ moments.old.entries) }
{
    let mut keys = BTreeSet::new(alloc);
    keys.insert(key)?;
    moments.insert(moment, keys)?;
    Ok(())
}

/// Takes a key out of those of a moment, if it is there.
pub(crate) fn take(moments: &mut Moments, moment: &Moment, key: &OwedKey)
    ensures { Holds moment.now key.now false moments.old.entries moments.new.entries }
{
    if take_key(moments, moment, key) {
        moments.remove(moment);
    }
}

// Takes a key out of those of a moment, if it is there, and says whether the moment is there with
// no key.
fn take_key(moments: &mut Moments, moment: &Moment, key: &OwedKey) -> bool
    ensures taken { Changes moment.now key.now false moments.old.entries moments.new.entries }
    ensures empty { IsTrue result → (k : OwedKey)
        → is_held moments.new.entries moment.now k ≡ false }
    ensures left { result ≡ false → IsTrue (is_filled moments.new.entries moment.now) }
{
    match moments.get_mut(moment) {
        Some(keys) => {
            keys.remove(key);
            keys.is_empty()
        }
        None => false,
    }
}

/// The first moment from `from` to `upto` at which frames of the domain are due. It looks up the
/// moments between them at which frames of any domain are due, each at most twice, and no frames.
pub(crate) fn next_due(moments: &Moments, domain: DomainNo, from: u64, upto: u64) -> Option<u64>
    requires { from ≤ upto }
    ensures some { IfSome result (IsNext moments.now.entries domain from upto) }
    ensures none { IfNone result ((t : ℕ) → from ≤ t → t ≤ upto
        → IsFree moments.now.entries (record { due = t; domain = domain })) }
{
    let mut start = from;
    while let Some(moment) = first_between(moments, domain, start, upto) {
        if moment.domain == domain {
            return Some(moment.due);
        }
        start = if moment.domain < domain {
            moment.due
        } else {
            moment.due + 1
        };
    }
    None
}

// The first moment of any domain that is not before the domain's moment `from` and not after its
// moment `upto`.
fn first_between(moments: &Moments, domain: DomainNo, from: u64, upto: u64) -> Option<Moment>
    requires { from ≤ upto }
    ensures some { IfSome result (IsFirst moments.now.entries domain from upto) }
    ensures none { IfNone result ((t : ℕ) → from ≤ t → t ≤ upto
        → IsFree moments.now.entries (record { due = t; domain = domain })) }
{
    let start = Moment { due: from, domain };
    let end = Moment { due: upto, domain };
    match moments.range(start..=end).next() {
        Some((moment, _)) => Some(*moment),
        None => None,
    }
}

/// The keys of the domain's frames that are due at the moment `now`, in order of their moments and
/// then of their keys.
pub(crate) fn due_keys(
    moments: &Moments,
    alloc: Global,
    domain: DomainNo,
    now: u64,
) -> Result<Vec<OwedKey>, NoMemory>
    requires { IsShaped moments.now.entries }
    ensures { IfOk result (λ keys. keys.items ≡ due_at now (owed_in moments.now.entries domain)) }
{
    let mut keys = Vec::new(alloc);
    let mut from = 0;
    while let Some(due) = next_due(moments, domain, from, now) {
        add_keys(&mut keys, moments, &Moment { due, domain })?;
        if due == now {
            break;
        }
        from = due + 1;
    }
    Ok(keys)
}

/// Whether more than `limit` frames of the domain are due at the moment `now`.
pub(crate) fn are_more_due(moments: &Moments, domain: DomainNo, now: u64, limit: usize) -> bool
    requires { IsShaped moments.now.entries }
    ensures { result ≡ nat_lt limit (length (due_at now (owed_in moments.now.entries domain))) }
{
    let mut left = limit;
    let mut from = 0;
    while let Some(due) = next_due(moments, domain, from, now) {
        let count = count_at(moments, &Moment { due, domain });
        if left < count {
            return true;
        }
        left -= count;
        if due == now {
            break;
        }
        from = due + 1;
    }
    false
}

// How many keys a moment has.
fn count_at(moments: &Moments, moment: &Moment) -> usize
    ensures { result ≡ length (keys_at moments.now.entries moment.now) }
{
    match moments.get(moment) {
        Some(keys) => keys.len(),
        None => 0,
    }
}

// Adds the keys of a moment at the end of a list.
fn add_keys(keys: &mut Vec<OwedKey>, moments: &Moments, moment: &Moment) -> Result<(), NoMemory>
    ensures { OnOk result
        (keys.new.items ≡ keys.old.items ++ keys_at moments.now.entries moment.now) }
{
    if let Some(owed) = moments.get(moment) {
        for key in owed {
            keys.push(*key)?;
        }
    }
    Ok(())
}

/// Takes out all keys of the domain's moments up to `now`.
pub(crate) fn drop_due(moments: &mut Moments, domain: DomainNo, now: u64)
    requires { IsShaped moments.old.entries }
    ensures shaped { IsShaped moments.new.entries }
    ensures filled { IsFilled moments.old.entries → IsFilled moments.new.entries }
    ensures dropped { (p : Moment) (k : OwedKey) → is_held moments.new.entries p k
        ≡ cond (is_before domain now p) false (is_held moments.old.entries p k) }
{
    let mut from = 0;
    while let Some(due) = next_due(moments, domain, from, now) {
        moments.remove(&Moment { due, domain });
        if due == now {
            break;
        }
        from = due + 1;
    }
}
