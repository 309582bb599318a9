ghost use Rattle.std.specs.Prelude.{◌≡◌, ◌≢◌, ◌<◌, true, [], OnOk, OnErr};
ghost use Rattle.std.specs.Prelude.{IfOk, not, ◌&&◌, unwrap_or, map, min};
ghost use Rattle.std.specs.List.{reduce};
ghost use Rattle.std.specs.FinMap.Entries.{find, put};
ghost use Rattle.std.specs.Option.{option_copied};
ghost use Rattle.cast_types.specs.Names.{uid_eq};
ghost use Rattle.cast_types.specs.Sets.{is_among};
ghost use Rattle.cast_types.specs.Sources.{source, but_ended, source_of};
ghost use Rattle.cast_stable.specs.Stable.{has_acked, stable_upto};
ghost use Rattle.cast_stable.specs.Fits.{upto_by, is_stable_by, WhileLive, SaysLast};
ghost use Rattle.cast_stable.specs.Runs.{no_counts, contains, insert_count};
ghost use Rattle.cast_stable.specs.Acks.{new_ledger, others_in, acked_run, acked_but_ended};
ghost use Rattle.cast_stable.specs.Acks.{told_count, told_ledger, received_ledger};
ghost use Rattle.cast_stable.specs.Acks.{acked_ledger, learnt_ledger, is_received_in};
ghost use Rattle.cast_stable.specs.Acks.{last_received_in, has_acked_in, upto_in, is_stable_in};

use crate::counted::Counted;
use crate::witness::Witness;
use cast_types::{GroupNo, List, NoMemory, Proc, SiteNo, SortedMap, Source, Uid, source_of};
use std::alloc::Global;
use std::collections::BTreeMap;
use std::marker::Model;

/// What a site keeps of who received which message: what it received itself, what other sites
/// acknowledged, and what it was told to be stable. Contracts see the `Acks`. What it answers means
/// what happened, for messages of live sources: those of which somebody may still ask.
#[derive(Drop)]
pub struct Acks {
    alloc: Global,
    here: SiteNo,
    others: SortedMap<GroupNo, List<SiteNo>>,
    received: BTreeMap<Source, Counted>,
    acked: BTreeMap<Witness, Counted>,
    told: BTreeMap<Source, u32>,
}

impl Model for Acks {
    ghost use Rattle.cast_stable.specs.Acks.{Acks};

    ghost Value = { Acks };

    ghost view = { λ a. record {
      here = a.here;
      others = a.others;
      received = a.received.entries;
      acked = a.acked.entries;
      told = a.told.entries;
    } };
}

impl Acks {
    /// The records of a site that knows no views and received nothing.
    pub fn new(alloc: Global, here: SiteNo) -> Self
        ensures { result ≡ new_ledger here }
    {
        Acks {
            alloc,
            here,
            others: SortedMap::new(alloc),
            received: BTreeMap::new(alloc),
            acked: BTreeMap::new(alloc),
            told: BTreeMap::new(alloc),
        }
    }

    /// An equal value.
    pub fn copy(&self) -> Result<Self, NoMemory>
        ensures { IfOk result (λ acks. acks ≡ self.now) }
    {
        Ok(Acks {
            alloc: self.alloc,
            here: self.here,
            others: copy_sites(&self.others)?,
            received: self.received.clone()?,
            acked: self.acked.clone()?,
            told: self.told.clone()?,
        })
    }

    /// Takes in the other sites of a group's new view, of this number. What was received,
    /// acknowledged and told of the views before it is forgotten. `NoMemory` changes nothing.
    pub fn tell(
        &mut self,
        group: GroupNo,
        number: u32,
        others: List<SiteNo>,
    ) -> Result<(), NoMemory>
        ensures ok { OnOk result (self.new ≡ told_ledger self.old group number others) }
        ensures err { OnErr result (self.new ≡ self.old) }
    {
        self.others.put(group, others)?;
        end_in(&mut self.received, group, number);
        end_acked_in(&mut self.acked, group, number);
        end_in(&mut self.told, group, number);
        Ok(())
    }

    /// Takes in that this site received a message. `NoMemory` changes nothing.
    pub fn receive(&mut self, id: Uid) -> Result<(), NoMemory>
        ensures ok { OnOk result (self.new ≡ received_ledger self.old id) }
        ensures err { OnErr result (self.new ≡ self.old) }
    {
        insert_count(&mut self.received, self.alloc, source_of(id), id.count)
    }

    /// Whether this site received a message. Takes no memory.
    pub fn is_received(&self, id: Uid) -> bool
        ensures value { result ≡ is_received_in self.now id }
        ensures meaning { WhileLive self.now (source_of id)
            (λ past. 0 < id.count → result ≡ is_among uid_eq id past.received) }
    {
        contains(self.received.get(&source_of(id)), id.count)
    }

    /// The greatest count of the messages of a process in a view of a group that this site
    /// received, 0 where it received none. Takes no memory.
    pub fn last_received(&self, group: GroupNo, view: u32, process: Proc) -> u32
        ensures value { result ≡ last_received_in self.now (source group view process) }
        ensures meaning { WhileLive self.now (source group view process)
            (λ past. SaysLast past.received (source group view process) result) }
    {
        match self.received.get(&Source {
            group,
            view,
            process,
        }) {
            Some(run) => run.greatest(),
            None => 0,
        }
    }

    /// Takes in that a site acknowledged a message. `NoMemory` changes nothing.
    pub fn ack(&mut self, from: SiteNo, id: Uid) -> Result<(), NoMemory>
        ensures ok { OnOk result (self.new ≡ acked_ledger self.old from id) }
        ensures err { OnErr result (self.new ≡ self.old) }
    {
        let witness = Witness {
            source: source_of(id),
            site: from,
        };
        insert_count(&mut self.acked, self.alloc, witness, id.count)
    }

    /// Whether a site acknowledged a message. Takes no memory.
    pub fn has_acked(&self, from: SiteNo, id: Uid) -> bool
        ensures value { result ≡ has_acked_in self.now from id }
        ensures meaning { WhileLive self.now (source_of id)
            (λ past. 0 < id.count → result ≡ has_acked past.acks id from) }
    {
        let witness = Witness {
            source: source_of(id),
            site: from,
        };
        contains(self.acked.get(&witness), id.count)
    }

    /// How many messages of the id's process in its view are stable: the least over the other sites
    /// of the group's view of the counts that each acknowledged without a gap, 0 where there is no
    /// other site. Takes no memory.
    pub fn stable_upto(&self, id: Uid) -> u32
        ensures value { result ≡ upto_in self.now id }
        ensures meaning { WhileLive self.now (source_of id)
            (λ past. past.others id.group ≢ [] → result ≡ upto_by past id) }
    {
        self.least_acked(source_of(id), self.others(id.group))
            .unwrap_or(0)
    }

    /// Takes in that the site of the id's process told its messages to this count to be stable.
    /// `NoMemory` changes nothing.
    pub fn learn_stable(&mut self, id: Uid) -> Result<(), NoMemory>
        ensures ok { OnOk result (self.new ≡ learnt_ledger self.old id) }
        ensures err { OnErr result (self.new ≡ self.old) }
    {
        let source = source_of(id);
        match self.told.get_mut(&source) {
            Some(told) => *told = (*told).max(id.count),
            None => {
                self.told.insert(source, id.count)?;
            }
        }
        Ok(())
    }

    /// Whether a message is known to be stable here: at once in a view of this site alone; a
    /// message of this site by the acknowledgements of all other sites; another by what its site
    /// told. Takes no memory.
    pub fn is_stable(&self, id: Uid) -> bool
        ensures value { result ≡ is_stable_in self.now id }
        ensures meaning { WhileLive self.now (source_of id)
            (λ past. 0 < id.count → result ≡ is_stable_by past id) }
    {
        if self.others(id.group).is_empty() {
            return true;
        }
        if id.proc.site == self.here {
            return id.count <= self.stable_upto(id);
        }
        id.count <= self.told_count(source_of(id))
    }

    /// Whether a kept message may be let go: it is stable, and no local process awaits it. Takes no
    /// memory.
    pub fn may_free(&self, id: Uid, is_awaited: bool) -> bool
        ensures value { result ≡ (is_stable_in self.now id && not is_awaited) }
        ensures meaning { WhileLive self.now (source_of id)
            (λ past. 0 < id.count → result ≡ (is_stable_by past id && not is_awaited)) }
    {
        self.is_stable(id) && !is_awaited
    }

    /// The other sites of a group's view, none of a group of which no view was told. Takes no
    /// memory.
    pub fn others(&self, group: GroupNo) -> &[SiteNo]
        ensures { result.now ≡ others_in self.now group }
    {
        match self.others.get(&group) {
            Some(others) => others.as_slice(),
            None => &[],
        }
    }

    // To which count a site acknowledged a source without a gap.
    fn acked_upto(&self, source: Source, site: SiteNo) -> u32
        ensures { result ≡ (acked_run self.now source site).upto }
    {
        match self.acked.get(&Witness { source, site }) {
            Some(run) => run.upto(),
            None => 0,
        }
    }

    // The least count to which these sites acknowledged a source without a gap, `None` of no site.
    fn least_acked(&self, source: Source, sites: &[SiteNo]) -> Option<u32>
        ensures { result
            ≡ reduce min (map (λ site. (acked_run self.now source site).upto) sites.now) }
    {
        sites
            .iter()
            .map(|site| self.acked_upto(source, *site))
            .min()
    }

    // To which count a source was told to be stable.
    fn told_count(&self, source: Source) -> u32
        ensures { result ≡ told_count self.now source }
    {
        match self.told.get(&source) {
            Some(count) => *count,
            None => 0,
        }
    }
}

// Keeps what is of other groups, or of views from this number on.
fn end_in<V: Drop>(entries: &mut BTreeMap<Source, V>, group: GroupNo, number: u32)
    ensures { entries.new.entries ≡ but_ended group number entries.old.entries }
{
    entries.retain(|source, _| !source.is_ended(group, number));
}

// Keeps what sites acknowledged of other groups, or of views from this number on.
fn end_acked_in(entries: &mut BTreeMap<Witness, Counted>, group: GroupNo, number: u32)
    ensures { entries.new.entries ≡ acked_but_ended group number entries.old.entries }
{
    entries.retain(|witness, _| !witness.source.is_ended(group, number));
}

// Whether a count is in a set, an absent one being empty.
fn contains(run: Option<&Counted>, count: u32) -> bool
    ensures { result ≡ contains (unwrap_or (option_copied run.entry) no_counts) count }
{
    match run {
        Some(run) => run.contains(count),
        None => false,
    }
}

// Puts a count into the set at a key, an absent one being empty. `NoMemory` changes nothing.
fn insert_count<K: Ord + Drop>(
    runs: &mut BTreeMap<K, Counted>,
    alloc: Global,
    key: K,
    count: u32,
) -> Result<(), NoMemory>
    ensures ok { OnOk result (runs.new.entries
        ≡ put K.cmp key (insert_count (unwrap_or (find K.cmp key runs.old.entries) no_counts) count)
        runs.old.entries) }
    ensures err { OnErr result (runs.new.entries ≡ runs.old.entries) }
{
    match runs.get_mut(&key) {
        Some(run) => run.insert(count),
        None => {
            let mut run = Counted::new(alloc);
            run.insert(count)?;
            runs.insert(key, run)?;
            Ok(())
        }
    }
}

// The sites of each group, copied.
fn copy_sites(
    others: &SortedMap<GroupNo, List<SiteNo>>,
) -> Result<SortedMap<GroupNo, List<SiteNo>>, NoMemory>
    ensures { IfOk result (λ copy. copy ≡ others.now) }
{
    let copied = copy_site_entries(others.alloc(), others.entries())?;
    Ok(SortedMap::from_entries(copied))
}

fn copy_site_entries(
    alloc: Global,
    entries: &[(GroupNo, List<SiteNo>)],
) -> Result<Vec<(GroupNo, List<SiteNo>)>, NoMemory>
    ensures { IfOk result (λ copy. copy.items ≡ entries.now) }
{
    let mut copied = Vec::with_capacity(alloc, entries.len())?;
    for (group, sites) in entries {
        copied.push((*group, sites.copy()?))?;
    }
    Ok(copied)
}
