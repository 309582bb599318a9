ghost use Rattle.std.specs.Prelude.{◌≡◌, ◌≢◌, ◌≤◌, ◌<◌, ◌==◌, ◌&&◌, true, false};
ghost use Rattle.std.specs.Prelude.{cond, IfOk, IfSome, IfNone, OnOk, OnErr};
ghost use Rattle.std.specs.Option.{option_copied};
ghost use Rattle.std.specs.List.{find};
ghost use Rattle.std.specs.List.Sorted.{IsStrictlySortedBy};
ghost use Rattle.cast_types.specs.declared.names.Uid.{Uid};
ghost use Rattle.cast_types.specs.declared.names.Key.{Key};
ghost use Rattle.cast_types.specs.Names.{uid_eq};
ghost use Rattle.cast_types.specs.Sources.{source_of};
ghost use Rattle.cast_index.specs.Index.{entry_cmp, has, is_below, is_pair, is_behind};
ghost use Rattle.cast_index.specs.Index.{is_from, is_upto, behind_count, lowest_of};
ghost use Rattle.cast_index.specs.Index.{lowest_past, IsCountRange, IsFirstEntry};
ghost use Rattle.cast_index.specs.Index.{IsFirstBehind, IsFirstOf, IsLastEntry};

use crate::entry::Entry;
use cast_types::{Key, NoMemory, Proc, Source, Uid, source_of};
use std::alloc::Global;
use std::collections::BTreeSet;
use std::marker::Model;

/// Ids with keys. Contracts say `has` of it.
#[derive(Drop)]
pub struct Index {
    entries: BTreeSet<Entry>,
}

impl Model for Index {
    ghost use Rattle.std.specs.Prelude.{List};
    ghost use Rattle.cast_index.specs.declared.entry.Entry.{Entry};

    ghost Value = { List Entry };

    ghost view = { λ i. i.entries.keys };
}

impl Index {
    /// No ids.
    pub fn new(alloc: Global) -> Self
        ensures { (u : Uid) (k : Key) → has result u k ≡ false }
    {
        Index {
            entries: BTreeSet::new(alloc),
        }
    }

    /// An equal value.
    pub fn copy(&self) -> Result<Self, NoMemory>
        ensures { IfOk result (λ index. index ≡ self.now) }
    {
        Ok(Index {
            entries: self.entries.clone()?,
        })
    }

    /// Notes that a message is kept under a key. `NoMemory` changes nothing.
    pub fn insert(&mut self, id: Uid, key: Key) -> Result<(), NoMemory>
        ensures ok { OnOk result ((u : Uid) (k : Key)
            → has self.new u k ≡ cond (is_pair id key u k) true (has self.old u k)) }
        ensures err { OnErr result (self.new ≡ self.old) }
    {
        self.entries.insert(Entry { id, number: key.0 })?;
        Ok(())
    }

    /// Notes that it is kept there no longer. Takes no memory.
    pub fn remove(&mut self, id: Uid, key: Key)
        ensures { (u : Uid) (k : Key)
            → has self.new u k ≡ cond (is_pair id key u k) false (has self.old u k) }
    {
        self.entries.remove(&Entry { id, number: key.0 });
    }

    /// Whether there are no ids. Takes no memory.
    pub fn is_empty(&self) -> bool
        ensures empty { result ≡ true → (u : Uid) (k : Key) → has self.now u k ≡ false }
        ensures some { result ≡ false → (u : Uid) × (k : Key) × (has self.now u k ≡ true) }
    {
        self.entries.is_empty()
    }

    /// The least key under an id. Takes no memory.
    pub fn key_of(&self, id: Uid) -> Option<Key>
        ensures some { IfSome result (λ key. (has self.now id key ≡ true)
            × ((k : Key) → has self.now id k ≡ true → key.0 ≤ k.0)) }
        ensures none { IfNone result ((k : Key) → has self.now id k ≡ false) }
    {
        let entry = first_from(&self.entries, Entry { id, number: 0 })?;
        if entry.id != id {
            return None;
        }
        Some(Key(entry.number))
    }

    /// The least id of a source that stands behind another one, the least of all where there is no
    /// other. Takes no memory.
    pub fn first_behind(&self, after: Option<Source>) -> Option<Uid>
        ensures some { IfSome result (IsFirstBehind self.now after) }
        ensures none { IfNone result
            ((u : Uid) (k : Key) → has self.now u k ≡ true → is_behind after u ≡ false) }
        ensures fewer { IfSome result (λ id.
            behind_count self.now (Some (source_of id)) < behind_count self.now after) }
    {
        let entry = entry_behind(&self.entries, after)?;
        Some(entry.id)
    }

    /// The least id of a source with a key, `None` where the source has none. Takes no memory.
    pub fn first_of(&self, source: Source) -> Option<(Uid, Key)>
        ensures some { IfSome result (IsFirstOf self.now source) }
        ensures none { IfNone result
            ((u : Uid) (k : Key) → has self.now u k ≡ true → source_of u ≢ source) }
    {
        let least = first_from(&self.entries, lowest_of(source))?;
        if source_of(least.id) != source {
            return None;
        }
        Some((least.id, Key(least.number)))
    }

    /// The least and the greatest count of the ids of a source, `None` where it has none. Takes no
    /// memory.
    pub fn count_range(&self, source: Source) -> Option<(u32, u32)>
        ensures some { IfSome result (IsCountRange self.now source) }
        ensures none { IfNone result
            ((u : Uid) (k : Key) → has self.now u k ≡ true → source_of u ≢ source) }
    {
        let first = self.first_of(source)?;
        let greatest = last_upto(&self.entries, source)?;
        Some((first.0.count, greatest.id.count))
    }
}

// The first entry of a source that stands behind another one, the first of all where there is no
// other.
fn entry_behind(entries: &BTreeSet<Entry>, after: Option<Source>) -> Option<&Entry>
    ensures some { IfSome result
        (λ e. IsFirstEntry entries.now.keys (λ x. is_behind after x.id) e.now) }
    ensures none { IfNone result
        ((u : Uid) (k : Key) → has entries.now.keys u k ≡ true → is_behind after u ≡ false) }
{
    match after {
        Some(source) if !are_more_behind(entries, source) => None,
        Some(source) => first_past(entries, source),
        None => entries.first(),
    }
}

// Whether some entry is of a source that stands behind another one. It looks at the last entry
// alone.
fn are_more_behind(entries: &BTreeSet<Entry>, source: Source) -> bool
    ensures { result ≡ false → (u : Uid) (k : Key) → has entries.now.keys u k ≡ true
        → is_behind (Some source) u ≡ false }
{
    match entries.last() {
        Some(last) => source < source_of(last.id),
        None => false,
    }
}

// The first entry at or above another one.
fn first_from(entries: &BTreeSet<Entry>, lowest: Entry) -> Option<&Entry>
    ensures some { IfSome result (λ e. IsFirstEntry entries.now.keys (is_from lowest) e.now) }
    ensures none { IfNone result ((u : Uid) (k : Key) → has entries.now.keys u k ≡ true
        → is_from lowest (record { id = u; number = k.0 }) ≡ false) }
{
    let entry = entries.range(lowest..).next()?;
    Some(entry)
}

// The first entry of a source that stands behind another one.
fn first_past(entries: &BTreeSet<Entry>, source: Source) -> Option<&Entry>
    ensures some { IfSome result
        (λ e. IsFirstEntry entries.now.keys (λ x. is_behind (Some source) x.id) e.now) }
    ensures none { IfNone result ((u : Uid) (k : Key) → has entries.now.keys u k ≡ true
        → is_behind (Some source) u ≡ false) }
{
    match lowest_past(source) {
        Some(lowest) => first_from(entries, lowest),
        None => found_past(entries, source),
    }
}

// So by looking at each, which is for a source of the greatest serial.
fn found_past(entries: &BTreeSet<Entry>, source: Source) -> Option<&Entry>
    ensures value { option_copied result
        ≡ find (λ e. is_behind (Some source) e.id) entries.now.keys }
    ensures rising { IsStrictlySortedBy entry_cmp entries.now.keys }
{
    entries.iter().find(|entry| source < source_of(entry.id))
}

// The last entry of a source that stands not behind another one.
fn last_upto(entries: &BTreeSet<Entry>, source: Source) -> Option<&Entry>
    ensures some { IfSome result
        (λ e. IsLastEntry entries.now.keys (λ x. is_upto source x.id) e.now) }
    ensures none { IfNone result
        ((u : Uid) (k : Key) → has entries.now.keys u k ≡ true → is_upto source u ≡ false) }
{
    match first_past(entries, source) {
        Some(bound) => last_below(entries, *bound),
        None => entries.last(),
    }
}

// The last entry below another one.
fn last_below(entries: &BTreeSet<Entry>, bound: Entry) -> Option<&Entry>
    ensures some { IfSome result (λ e. IsLastEntry entries.now.keys (is_below bound) e.now) }
    ensures none { IfNone result ((u : Uid) (k : Key) → has entries.now.keys u k ≡ true
        → is_below bound (record { id = u; number = k.0 }) ≡ false) }
{
    let entry = entries.range(..bound).next_back()?;
    Some(entry)
}

// The lowest entry that could be of a source.
fn lowest_of(source: Source) -> Entry
    ensures { result ≡ lowest_of source }
{
    Entry {
        id: Uid {
            group: source.group,
            view: source.view,
            proc: source.process,
            count: 0,
        },
        number: 0,
    }
}

// The lowest entry that could be of a source behind another one, `None` where that has the greatest
// serial.
fn lowest_past(source: Source) -> Option<Entry>
    ensures { IfSome result (λ e. e ≡ lowest_past source) }
{
    let Proc { site, serial } = source.process;
    let serial = serial.checked_add(1)?;
    Some(Entry {
        id: Uid {
            group: source.group,
            view: source.view,
            proc: Proc { site, serial },
            count: 0,
        },
        number: 0,
    })
}
