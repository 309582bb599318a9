ghost use Rattle.std.specs.Prelude.{◌≡◌, ◌↔◌, [], true, IfOk, IsTrue, OnOk, OnErr};
ghost use Rattle.std.specs.FinMap.Entries.{put, is_sorted};
ghost use Rattle.cast_types.specs.Sources.{source_cmp, but_ended};
ghost use Rattle.cast_ready.specs.DeliveredCounts.{count_at, counts_in, raised_at};

use cast_types::{GroupNo, NoMemory, Proc, Source};
use std::alloc::Global;
use std::marker::Model;

/// How many messages of each source, 0 where none is kept. Contracts see the list of counts in
/// rising order of their sources.
#[derive(Drop)]
pub struct DeliveredCounts {
    counts: Vec<(Source, u32)>,
}

impl Model for DeliveredCounts {
    ghost use Rattle.std.specs.Prelude.{List, ℕ};
    ghost use Rattle.cast_types.specs.declared.source.Source.{Source};

    ghost Value = { List (Source × ℕ) };

    ghost use Rattle.std.specs.Prelude.{◌≡◌, true};
    ghost use Rattle.std.specs.FinMap.Entries.{is_sorted};
    ghost use Rattle.cast_types.specs.Sources.{source_cmp};

    ghost view = { λ t. t.counts.items };

    ghost invariant = { λ t. is_sorted source_cmp t.counts.items ≡ true };
}

impl DeliveredCounts {
    /// No counts.
    pub fn new(alloc: Global) -> Self
        ensures { result ≡ [] }
    {
        DeliveredCounts {
            counts: Vec::new(alloc),
        }
    }

    /// Whether no count is kept.
    pub fn is_empty(&self) -> bool
        ensures { IsTrue result ↔ (self.now ≡ []) }
    {
        self.counts.is_empty()
    }

    /// Forgets all counts. Takes no memory.
    pub fn clear(&mut self)
        ensures { self.new ≡ [] }
    {
        self.counts.clear();
    }

    /// The count of a source, 0 where none is kept.
    pub fn get(&self, source: Source) -> u32
        ensures { result ≡ count_at self.now source }
    {
        found_in(&self.counts, source).0
    }

    /// The count of a source, 0 where none is kept, and the place behind it. The place that is
    /// given is looked at first: where sources are asked for in rising order, each mostly stands
    /// behind the one before.
    pub fn near(&self, place: usize, source: Source) -> (u32, usize)
        ensures { result.0 ≡ count_at self.now source }
    {
        near_in(&self.counts, place, source)
    }

    /// Sets the count of a source. `NoMemory` changes nothing.
    pub fn put(&mut self, source: Source, count: u32) -> Result<(), NoMemory>
        ensures ok { OnOk result (self.new ≡ put source_cmp source count self.old) }
        ensures err { OnErr result (self.new ≡ self.old) }
    {
        put_in(&mut self.counts, source, count)?;
        Ok(())
    }

    /// Raises the count of a source to this one, where this is greater. `NoMemory` changes nothing.
    pub fn raise(&mut self, source: Source, count: u32) -> Result<(), NoMemory>
        ensures ok { OnOk result (self.new ≡ raised_at source count self.old) }
        ensures err { OnErr result (self.new ≡ self.old) }
    {
        let greatest = self.get(source).max(count);
        self.put(source, greatest)
    }

    /// The counts of one view of a group.
    pub fn counts(&self, group: GroupNo, view: u32) -> Result<Vec<(Proc, u32)>, NoMemory>
        ensures { IfOk result (λ counts. counts.items ≡ counts_in group view self.now) }
    {
        let mut counts = Vec::new(*self.counts.allocator());
        for (source, count) in &self.counts {
            if source.group == group && source.view == view {
                counts.push((source.process, *count))?;
            }
        }
        Ok(counts)
    }

    /// An equal value.
    pub fn copy(&self) -> Result<Self, NoMemory>
        ensures { IfOk result (λ t. t ≡ self.now) }
    {
        Ok(DeliveredCounts {
            counts: Vec::from_slice(*self.counts.allocator(), &self.counts)?,
        })
    }

    /// Forgets the counts of a group's views below a number. Takes no memory.
    pub fn end(&mut self, group: GroupNo, number: u32)
        ensures { self.new ≡ but_ended group number self.old }
    {
        end_in(&mut self.counts, group, number);
    }
}

// The count of a source, 0 where none is kept, and the place behind it: at a place, or else found
// by halving.
fn near_in(counts: &[(Source, u32)], place: usize, source: Source) -> (u32, usize)
    requires { is_sorted source_cmp counts.now ≡ true }
    ensures { result.0 ≡ count_at counts.now source }
{
    if place < counts.len() && counts[place].0.cmp(&source).is_eq() {
        return (counts[place].1, place + 1);
    }
    found_in(counts, source)
}

// The count of a source, 0 where none is kept, and the place behind it, found by halving.
fn found_in(counts: &[(Source, u32)], source: Source) -> (u32, usize)
    requires { is_sorted source_cmp counts.now ≡ true }
    ensures { result.0 ≡ count_at counts.now source }
{
    match counts.binary_search_by_key(&source, |entry| entry.0) {
        Ok(place) => (counts[place].1, place + 1),
        Err(place) => (0, place),
    }
}

// Sets the count of a source, found by halving. `NoMemory` changes nothing.
fn put_in(counts: &mut Vec<(Source, u32)>, source: Source, count: u32) -> Result<(), NoMemory>
    requires { is_sorted source_cmp counts.old.items ≡ true }
    ensures ok { OnOk result (counts.new.items ≡ put source_cmp source count counts.old.items) }
    ensures err { OnErr result (counts.new.items ≡ counts.old.items) }
{
    match counts.binary_search_by_key(&source, |entry| entry.0) {
        Ok(place) => {
            counts[place].1 = count;
            Ok(())
        }
        Err(place) => {
            counts.insert(place, (source, count))?;
            Ok(())
        }
    }
}

// Keeps what is of other groups, or of views from this number on.
fn end_in(counts: &mut Vec<(Source, u32)>, group: GroupNo, number: u32)
    ensures { counts.new.items ≡ but_ended group number counts.old.items }
{
    counts.retain(|entry| !entry.0.is_ended(group, number));
}
