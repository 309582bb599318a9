ghost use Rattle.std.specs.Prelude.{◌≡◌, ◌<◌, ◌&&◌, None, Some, cond, true, false, IfNone};
ghost use Rattle.std.specs.Prelude.{IfOk, IfSome, IsTrue, OnOk, OnErr, is_some, length};
ghost use Rattle.std.specs.Option.{option_map};
ghost use Rattle.cast_types.specs.Rising.{is_rising};
ghost use Rattle.cast_timer.specs.declared.key.Moment.{Moment};
ghost use Rattle.cast_timer.specs.declared.key.OwedKey.{OwedKey};
ghost use Rattle.cast_timer.specs.Owed.{key_cmp, key_eq, is_of_view, is_upto, due_at};
ghost use Rattle.cast_timer.specs.Rows.{has_key, is_of, is_held, owed_in, IsShaped, IsFilled};
ghost use Rattle.cast_timer.specs.Index.{due_of, is_due, renewed_due, renewed_dues};
ghost use Rattle.cast_timer.specs.Index.{moved_to, IsKept, Keeps, IsMoved};

use crate::key::{Moment, Owed, OwedKey, is_of_view, is_upto};
use crate::moments::{Moments, add, are_more_due, drop_due, due_keys, take};
use cast_types::{DomainNo, GroupNo, NoMemory};
use std::alloc::Global;
use std::collections::{BTreeMap, BTreeSet};

/// The moment at which the frame of each key of a domain is due.
pub(crate) type Dues = BTreeMap<OwedKey, u64>;

// Up to one in so many of a domain's frames are owed for another moment one by one, and more of
// them all at once: a search for each of a few takes less than a walk over all.
const ONE_IN: usize = 8;

/// Owes a frame of a domain whose key is not owed. `NoMemory` changes nothing.
pub(crate) fn owe_in(
    moments: &mut Moments,
    dues: &mut Dues,
    alloc: Global,
    domain: DomainNo,
    frame: Owed,
) -> Result<(), NoMemory>
    requires kept { IsKept domain moments.old.entries (due_of dues.old.entries) }
    requires fresh { due_of dues.old.entries frame.key ≡ None }
    ensures kept { Keeps domain moments.old.entries moments.new.entries (due_of dues.new.entries) }
    ensures ok { OnOk result ((q : OwedKey) → due_of dues.new.entries q ≡ cond (key_eq frame.key q)
        (Some frame.due) (due_of dues.old.entries q)) }
    ensures err { OnErr result (moments.new.entries ≡ moments.old.entries) }
{
    dues.insert(frame.key, frame.due)?;
    let moment = Moment {
        due: frame.due,
        domain,
    };
    match add(moments, alloc, moment, frame.key) {
        Ok(()) => Ok(()),
        Err(refused) => {
            dues.remove(&frame.key);
            Err(refused)
        }
    }
}

/// Owes the frame of a key of a domain no more.
pub(crate) fn pay_in(moments: &mut Moments, dues: &mut Dues, domain: DomainNo, key: &OwedKey)
    requires { IsKept domain moments.old.entries (due_of dues.old.entries) }
    ensures kept { Keeps domain moments.old.entries moments.new.entries (due_of dues.new.entries) }
    ensures paid { (q : OwedKey)
        → due_of dues.new.entries q ≡ cond (key_eq key.now q) None (due_of dues.old.entries q) }
    ensures fewer { IsTrue (is_some (due_of dues.old.entries key.now))
        → length dues.new.entries < length dues.old.entries }
{
    if let Some(due) = dues.remove(key) {
        take(moments, &Moment { due, domain }, key);
    }
}

/// Owes no more the frames of a domain whose keys differ from this one at most in a lower count.
pub(crate) fn pay_upto_in(moments: &mut Moments, dues: &mut Dues, domain: DomainNo, key: &OwedKey)
    requires { IsKept domain moments.old.entries (due_of dues.old.entries) }
    ensures kept { Keeps domain moments.old.entries moments.new.entries (due_of dues.new.entries) }
    ensures paid { (q : OwedKey)
        → due_of dues.new.entries q ≡ cond (is_upto key.now q) None (due_of dues.old.entries q) }
{
    while let Some(due) = upto(dues, key) {
        pay_in(moments, dues, domain, &due);
    }
}

// A key whose frame is owed, and that differs from this one at most in a lower count. It looks at
// the keys between the lowest such and this one alone.
fn upto(dues: &Dues, key: &OwedKey) -> Option<OwedKey>
    ensures some { IfSome result
        (λ k. IsTrue (is_upto key.now k) × IsTrue (is_some (due_of dues.now.entries k))) }
    ensures none { IfNone result
        ((q : OwedKey) → is_upto key.now q ≡ true → due_of dues.now.entries q ≡ None) }
{
    let lowest = OwedKey { count: 0, ..*key };
    for (owed, _) in dues.range(lowest..=*key) {
        if is_upto(key, owed) {
            return Some(*owed);
        }
    }
    None
}

/// Owes no more the frames that a domain's site owes for a view of the group.
pub(crate) fn pay_view_in(moments: &mut Moments, dues: &mut Dues, domain: DomainNo, group: GroupNo)
    requires { IsKept domain moments.old.entries (due_of dues.old.entries) }
    ensures kept { Keeps domain moments.old.entries moments.new.entries (due_of dues.new.entries) }
    ensures paid { (q : OwedKey)
        → due_of dues.new.entries q ≡ cond (is_of_view group q) None (due_of dues.old.entries q) }
{
    take_view(moments, dues, domain, group);
    dues.retain(|key, _| !is_of_view(group, key));
}

/// Owes nothing more of a domain.
pub(crate) fn drop_in(moments: &mut Moments, dues: &mut Dues, domain: DomainNo)
    requires { IsKept domain moments.old.entries (due_of dues.old.entries) }
    ensures kept { Keeps domain moments.old.entries moments.new.entries (due_of dues.new.entries) }
    ensures none { (q : OwedKey) → due_of dues.new.entries q ≡ None }
{
    while let Some((key, due)) = dues.pop_first() {
        take(moments, &Moment { due, domain }, &key);
    }
}

// Takes the keys that a domain's site owes for a view of the group out of their moments.
fn take_view(moments: &mut Moments, dues: &Dues, domain: DomainNo, group: GroupNo)
    requires { IsKept domain moments.old.entries (due_of dues.now.entries) }
    ensures shaped { IsShaped moments.new.entries }
    ensures filled { IsFilled moments.new.entries }
    ensures taken { (p : Moment) (k : OwedKey) → is_held moments.new.entries p k
        ≡ cond (is_of domain p && is_of_view group k) false (is_held moments.old.entries p k) }
{
    for (key, due) in dues {
        if is_of_view(group, key) {
            take(moments, &Moment { due: *due, domain }, key);
        }
    }
}

/// Owes all frames of a domain that are due at the moment `now` for the moment `due`, and for no
/// other. `NoMemory`: some of them may be owed so.
pub(crate) fn renew_due_in(
    moments: &mut Moments,
    dues: &mut Dues,
    alloc: Global,
    domain: DomainNo,
    now: u64,
    due: u64,
) -> Result<(), NoMemory>
    requires { IsKept domain moments.old.entries (due_of dues.old.entries) }
    ensures kept { Keeps domain moments.old.entries moments.new.entries (due_of dues.new.entries) }
    ensures ok { OnOk result ((q : OwedKey) → due_of dues.new.entries q
        ≡ option_map (renewed_due now due) (due_of dues.old.entries q)) }
{
    if now < due && are_more_due(moments, domain, now, dues.len() / ONE_IN) {
        renew_at_once(moments, dues, alloc, domain, now, due)
    } else {
        let keys = due_keys(moments, alloc, domain, now)?;
        renew_each(moments, dues, alloc, domain, &keys, due)
    }
}

// Owes the frames of keys for a moment, and for no other, one after the other. `NoMemory`: some of
// them may be owed so.
fn renew_each(
    moments: &mut Moments,
    dues: &mut Dues,
    alloc: Global,
    domain: DomainNo,
    keys: &[OwedKey],
    due: u64,
) -> Result<(), NoMemory>
    requires { IsKept domain moments.old.entries (due_of dues.old.entries) }
    ensures kept { Keeps domain moments.old.entries moments.new.entries (due_of dues.new.entries) }
    ensures ok { OnOk result ((q : OwedKey) → due_of dues.new.entries q
        ≡ moved_to due (has_key q keys.now) (due_of dues.old.entries q)) }
{
    for key in keys {
        renew(moments, dues, alloc, domain, Owed { due, key: *key })?;
    }
    Ok(())
}

// Owes a frame, if it is owed, for its moment and for no other.
fn renew(
    moments: &mut Moments,
    dues: &mut Dues,
    alloc: Global,
    domain: DomainNo,
    frame: Owed,
) -> Result<(), NoMemory>
    requires { IsKept domain moments.old.entries (due_of dues.old.entries) }
    ensures kept { Keeps domain moments.old.entries moments.new.entries (due_of dues.new.entries) }
    ensures ok { OnOk result ((q : OwedKey) → due_of dues.new.entries q
        ≡ moved_to frame.due (key_eq frame.key q) (due_of dues.old.entries q)) }
{
    match dues.get_mut(&frame.key) {
        Some(due) => {
            if *due == frame.due {
                Ok(())
            } else {
                move_to(moments, due, alloc, domain, frame)
            }
        }
        None => Ok(()),
    }
}

// Moves a frame from the moment `due` to its own. `NoMemory` changes nothing.
fn move_to(
    moments: &mut Moments,
    due: &mut u64,
    alloc: Global,
    domain: DomainNo,
    frame: Owed,
) -> Result<(), NoMemory>
    ensures moved { OnOk result
        (IsMoved domain frame.key due.old frame.due moments.old.entries moments.new.entries) }
    ensures ok { OnOk result (due.new ≡ frame.due) }
    ensures err { OnErr result (moments.new.entries ≡ moments.old.entries) }
    ensures due_stays { OnErr result (due.new ≡ due.old) }
{
    let moment = Moment {
        due: frame.due,
        domain,
    };
    add(moments, alloc, moment, frame.key)?;
    take(moments, &Moment { due: *due, domain }, &frame.key);
    *due = frame.due;
    Ok(())
}

// Owes all frames of a domain that are due at the moment `now` for the moment `due`, without a
// search for each.
fn renew_at_once(
    moments: &mut Moments,
    dues: &mut Dues,
    alloc: Global,
    domain: DomainNo,
    now: u64,
    due: u64,
) -> Result<(), NoMemory>
    requires kept { IsKept domain moments.old.entries (due_of dues.old.entries) }
    requires some { 0 < length (due_at now (owed_in moments.old.entries domain)) }
    requires later { now < due }
    ensures kept { Keeps domain moments.old.entries moments.new.entries (due_of dues.new.entries) }
    ensures ok { OnOk result ((q : OwedKey) → due_of dues.new.entries q
        ≡ option_map (renewed_due now due) (due_of dues.old.entries q)) }
{
    let keys = renewed_keys(dues, alloc, now, due)?;
    moments.insert(Moment { due, domain }, keys)?;
    drop_due(moments, domain, now);
    renew_dues(dues, now, due);
    Ok(())
}

// The keys that are due at the moment `due`, once all that are due at the moment `now` are owed for
// it.
fn renewed_keys(
    dues: &Dues,
    alloc: Global,
    now: u64,
    due: u64,
) -> Result<BTreeSet<OwedKey>, NoMemory>
    ensures rising { IfOk result (λ keys. IsTrue (is_rising key_cmp keys.keys)) }
    ensures keys { IfOk result (λ keys. (q : OwedKey) → has_key q keys.keys
        ≡ is_due due (option_map (renewed_due now due) (due_of dues.now.entries q))) }
{
    dues.iter()
        .filter(|(_, at)| renewed_due(**at, now, due) == due)
        .map(|(key, _)| *key)
        .collect(alloc)
}

// Owes all frames of a map of moments that are due at the moment `now` for the moment `due`, in one
// walk that keeps each.
fn renew_dues(dues: &mut Dues, now: u64, due: u64)
    ensures { dues.new.entries ≡ renewed_dues now due dues.old.entries }
{
    dues.retain(|_, at| {
        *at = renewed_due(*at, now, due);
        true
    });
}

// The moment of a frame, once all that are due at the moment `now` are owed for the moment `due`.
fn renewed_due(at: u64, now: u64, due: u64) -> u64
    ensures { result ≡ renewed_due now due at }
{
    if at <= now { due } else { at }
}
