ghost use Rattle.std.specs.Prelude.{◌≡◌, ◌≢◌, ◌<◌, ◌≤◌, ◌+◌, ◌++◌, Err, IfOk, IfSome};
ghost use Rattle.std.specs.Prelude.{None, OnErr, OnOk, length, nat_eq, vec_len};
ghost use Rattle.std.specs.List.{AllZip, insert};
ghost use Rattle.std.specs.Option.{option_copied};
ghost use Rattle.std.specs.Vec.{vec_capacity};
ghost use Rattle.indexmap.specs.IndexMap.{get as place_at};
ghost use Rattle.cast_domain.specs.Copies.{IsCopyOf as IsDomainCopy};
ghost use Rattle.cast_domain.specs.Records.{number_of};
ghost use Rattle.cast_events.specs.Events.{domain_of};
ghost use Rattle.cast_table.specs.Tables.{ArePlaces, AreTurns, IsApplied, IsAppliedTo, IsLeastOf};
ghost use Rattle.cast_table.specs.Tables.{IsNew, IsTicked, IsTurn, IsUnchanged, NotesHalts};
ghost use Rattle.cast_table.specs.Tables.{NotesOne, SharesNothing, answer_in_turn, by_number};
ghost use Rattle.cast_table.specs.Tables.{domains_of, halted_by, lower, place_above, place_for};
ghost use Rattle.cast_table.specs.Tables.{place_named, halted_in_turn, OnLent, InTable};
ghost use Rattle.cast_table.specs.Copies.{IsCopyOf};
ghost use Rattle.cast_table.specs.Backlogs.{backlog_at};
ghost use Rattle.cast_table.specs.Shows.{ShowsGroups, ShowsHistory, domain_at, groups_at, shown_at};

use crate::backlog::oldest_in;
use cast_domain::{Domain, GroupShown, Shared, Shown};
use cast_events::{Backlog, Config, Event, Fault, Outs, Taken};
use cast_step::step;
use cast_types::{DomainNo, List, NoMemory};
use indexmap::IndexMap;
use std::alloc::Global;
use std::marker::Model;
use std::mem;

/// The domains of a daemon, in the order of their numbers, and what they share. Contracts see both
/// as its `Contents`.
#[derive(Drop)]
pub struct Table {
    domains: Vec<Domain>,
    // Where the first domain of each number stands.
    places: IndexMap<u8, usize>,
    shared: Shared,
}

impl Model for Table {
    ghost use Rattle.cast_table.specs.Contents.{Contents};

    ghost Value = { Contents };

    ghost use Rattle.cast_table.specs.Tables.{ArePlaces};

    ghost view = { λ t. record { domains = t.domains.items; shared = t.shared } };

    ghost invariant = { λ t. ArePlaces t.places t.domains.items };
}

impl Table {
    /// Domains before their first event.
    pub fn new(alloc: Global, config: &Config) -> Result<Self, NoMemory>
        ensures domains { IfOk result (λ table.
            AllZip (IsNew config.now.site) (by_number config.now.domains) (domains_of table)) }
        ensures unshared { IfOk result SharesNothing }
    {
        let mut domains = Vec::new(alloc);
        for domain in config.domains.as_slice() {
            let tenant = Domain::new(alloc, config.site, domain.copy()?)?;
            put_in(&mut domains, tenant)?;
        }
        Table::of(domains, Shared::new(alloc))
    }

    /// A table whose domains keep the same, each with the same part of what is shared.
    pub fn copy(&self) -> Result<Self, NoMemory>
        ensures { IfOk result (λ copy. IsCopyOf self.now copy) }
    {
        Table::of(copy_domains(&self.domains)?, self.shared.copy()?)
    }

    /// How many domains there are.
    pub fn len(&self) -> usize
        ensures { result ≡ length (domains_of self.now) }
    {
        self.domains.len()
    }

    /// Makes the step of the domain that the event names, or, at a tick, of every domain in order
    /// of number: one that is halted is left as it is, and where one finds no memory the others go
    /// on. What is sent, delivered and pushed, and each domain that is halted, is added to `outs`.
    pub fn apply(&mut self, event: &Event, outs: &mut Outs) -> Result<Taken, Fault>
        ensures applied { InTable (IsApplied result event.now) self.old outs.old self.new outs.new }
        ensures unchanged { IsUnchanged result self.old self.new outs.old outs.new }
        ensures halted { NotesHalts result event.now (domains_of self.old) (domains_of self.new)
            outs.old.halted outs.new.halted }
    {
        match event.domain() {
            Some(number) => self.apply_named(number, event, outs),
            None => self.apply_to_all(event, outs),
        }
    }

    /// What the first domain of a number shows: how much it keeps and has done, and whether it is
    /// halted. `None` where no domain has the number.
    pub fn show(&self, number: DomainNo) -> Option<Shown>
        ensures shown { result ≡ shown_at number self.now }
        ensures meant { ShowsHistory number self.now result }
    {
        let domain = self.first_of(number)?;
        Some(domain.show(&self.shared))
    }

    /// What the first domain of a number shows of its groups, in the order of its configuration.
    /// `None` where no domain has the number.
    pub fn groups(
        &self,
        alloc: Global,
        number: DomainNo,
    ) -> Result<Option<List<GroupShown>>, NoMemory>
        ensures shown { IfOk result (λ groups. groups ≡ groups_at number self.now) }
        ensures meant { IfOk result (ShowsGroups number self.now) }
    {
        match self.first_of(number) {
            Some(domain) => Ok(Some(domain.show_groups(alloc)?)),
            None => Ok(None),
        }
    }

    /// How far the first domain of a number is behind with the messages that it keeps. `None` where
    /// no domain has the number. Takes no memory.
    pub fn backlog(&self, number: DomainNo) -> Option<Backlog>
        ensures { result ≡ backlog_at number self.now }
    {
        let first = self.first_of(number)?;
        let name = first.number();
        Some(Backlog {
            limit: first.quotas().held,
            oldest: oldest_in(&self.shared, name),
            next: self.shared.store.next_key(name),
        })
    }

    /// Its domains, in the order of their numbers.
    pub fn into_domains(self) -> Vec<Domain>
        ensures { result.items ≡ domains_of self }
    {
        self.domains
    }

    // A table of these domains, which share this.
    fn of(domains: Vec<Domain>, shared: Shared) -> Result<Self, NoMemory>
        ensures { IfOk result
            (λ table. table ≡ record { domains = domains.items; shared = shared }) }
    {
        Ok(Table {
            places: places_of(&domains)?,
            domains,
            shared,
        })
    }

    // The first domain of a number.
    fn first_of(&self, number: DomainNo) -> Option<&Domain>
        ensures { option_copied result ≡ domain_at number self.now }
    {
        let place = place_in(&self.places, number)?;
        Some(&self.domains[place])
    }

    // Makes the step of the first domain of this number, which the event names.
    fn apply_named(
        &mut self,
        number: DomainNo,
        event: &Event,
        outs: &mut Outs,
    ) -> Result<Taken, Fault>
        ensures applied { InTable (IsAppliedTo (Some number) result event.now)
            self.old outs.old self.new outs.new }
        ensures unchanged { IsUnchanged result self.old self.new outs.old outs.new }
        ensures halted { NotesOne result number outs.old.halted outs.new.halted }
    {
        let Some(place) = place_in(&self.places, number) else {
            return Err(Fault::NoDomain);
        };
        let Ok(mut halted) = halted_with_room(outs, 1) else {
            return Err(Fault::NoMemory);
        };
        let domain = &mut self.domains[place];
        let taken = turn(domain, &mut self.shared, event, outs, &mut halted);
        outs.halted = List::from_vec(halted);
        taken
    }

    // Makes the steps of all domains in turn: the event is a tick.
    fn apply_to_all(&mut self, event: &Event, outs: &mut Outs) -> Result<Taken, Fault>
        requires { domain_of event.now ≡ None }
        ensures applied { InTable (IsTicked result event.now) self.old outs.old self.new outs.new }
        ensures unchanged { IsUnchanged result self.old self.new outs.old outs.new }
        ensures halted { outs.new.halted
            ≡ outs.old.halted ++ halted_in_turn (domains_of self.old) (domains_of self.new) }
    {
        let Ok(mut halted) = halted_with_room(outs, self.domains.len()) else {
            return Err(Fault::NoMemory);
        };
        let noted = halted.len();
        turns(
            &mut self.domains,
            &mut self.shared,
            event,
            outs,
            &mut halted,
        );
        let least = least_of(&halted[noted..]);
        outs.halted = List::from_vec(halted);
        match least {
            Some(number) => Err(Fault::Halted(number)),
            None => Ok(Taken::Nothing),
        }
    }
}

// Domains, copied.
fn copy_domains(domains: &Vec<Domain>) -> Result<Vec<Domain>, NoMemory>
    ensures { IfOk result (λ copy. AllZip IsDomainCopy domains.now.items copy.items) }
{
    let mut copied = Vec::with_capacity(*domains.allocator(), domains.len())?;
    for domain in domains {
        copied.push(domain.copy()?)?;
    }
    Ok(copied)
}

// Puts a domain before the first whose number is above its own.
fn put_in(domains: &mut Vec<Domain>, domain: Domain) -> Result<(), NoMemory>
    ensures { OnOk result (domains.new.items
        ≡ insert domains.old.items (place_for (number_of domain) domains.old.items) domain) }
{
    let place = place_above(domains, domain.number()).unwrap_or(domains.len());
    domains.insert(place, domain)?;
    Ok(())
}

// Where the first domain stands whose number is above.
fn place_above(domains: &[Domain], number: DomainNo) -> Option<usize>
    ensures above { result ≡ place_above number domains.now }
    ensures within { IfSome result (λ i. i < length domains.now) }
{
    domains.iter().position(|domain| number < domain.number())
}

/// Where the first domain of a number stands.
pub fn place_of(domains: &[Domain], number: DomainNo) -> Option<usize>
    ensures named { result ≡ place_named number domains.now }
    ensures within { IfSome result (λ i. i < length domains.now) }
{
    domains.iter().position(|domain| domain.number() == number)
}

// Where the first domain of each number stands.
fn places_of(domains: &Vec<Domain>) -> Result<IndexMap<u8, usize>, NoMemory>
    ensures { IfOk result (λ places. ArePlaces places domains.now.items) }
{
    let mut places = IndexMap::with_capacity(*domains.allocator(), domains.len())?;
    for (place, domain) in domains.iter().enumerate() {
        places.entry(domain.number().0)?.or_insert(place);
    }
    Ok(places)
}

// Where the first domain of a number stands, by these places.
fn place_in(places: &IndexMap<u8, usize>, number: DomainNo) -> Option<usize>
    ensures { result ≡ place_at nat_eq places.now number.0 }
{
    places.get(&number.0).copied()
}

// Takes the halted domains out, with room for so many more. `NoMemory` changes nothing.
fn halted_with_room(outs: &mut Outs, more: usize) -> Result<Vec<DomainNo>, NoMemory>
    ensures taken { IfOk result (λ halted. halted.items ≡ outs.old.halted) }
    ensures room { IfOk result (λ halted. length halted.items + more ≤ vec_capacity halted) }
    ensures rest { OnOk result ((outs.new.frames ≡ outs.old.frames)
        × (outs.new.delivered ≡ outs.old.delivered)
        × (outs.new.pushed ≡ outs.old.pushed)) }
    ensures err { OnErr result (outs.new ≡ outs.old) }
{
    let empty = List::new(outs.halted.alloc());
    let mut halted = mem::replace(&mut outs.halted, empty).into_vec();
    match halted.reserve(more) {
        Ok(()) => Ok(halted),
        Err(error) => {
            outs.halted = List::from_vec(halted);
            Err(error)
        }
    }
}

// The step of one domain. Where it finds no memory, it is noted as halted.
fn turn(
    domain: &mut Domain,
    shared: &mut Shared,
    event: &Event,
    outs: &mut Outs,
    halted: &mut Vec<DomainNo>,
) -> Result<Taken, Fault>
    requires { length halted.old.items < vec_capacity halted.old }
    ensures turn { OnLent (IsTurn result event.now domain.old domain.new)
        shared.old outs.old halted.old.items shared.new outs.new halted.new.items }
    ensures begun { result ≢ Err Fault.NoMemory }
    ensures unnamed { domain_of event.now ≡ None → result ≡ answer_in_turn domain.old domain.new }
    ensures noted { halted.new.items ≡ halted.old.items ++ halted_by result }
    ensures room { vec_capacity halted.old ≤ vec_capacity halted.new }
{
    match step(domain, shared, event, outs) {
        Ok(taken) => Ok(taken),
        Err(_) => {
            let number = domain.number();
            halted.push(number).unwrap();
            Err(Fault::Halted(number))
        }
    }
}

// The steps of all domains in turn: the event is a tick. Each that is halted is noted.
fn turns(
    domains: &mut Vec<Domain>,
    shared: &mut Shared,
    event: &Event,
    outs: &mut Outs,
    halted: &mut Vec<DomainNo>,
)
    requires unnamed { domain_of event.now ≡ None }
    requires room { length halted.old.items + vec_len domains.old ≤ vec_capacity halted.old }
    ensures turns { OnLent (AreTurns event.now domains.old.items domains.new.items)
        shared.old outs.old halted.old.items shared.new outs.new halted.new.items }
    ensures noted { halted.new.items
        ≡ halted.old.items ++ halted_in_turn domains.old.items domains.new.items }
{
    for domain in domains.iter_mut() {
        let _ = turn(domain, shared, event, outs, halted);
    }
}

// The least of these numbers.
fn least_of(numbers: &[DomainNo]) -> Option<DomainNo>
    ensures { IsLeastOf result numbers.now }
{
    let mut least = None;
    for number in numbers {
        least = Some(lower(least, *number));
    }
    least
}

// The lower of two numbers, where the first is there.
fn lower(least: Option<DomainNo>, number: DomainNo) -> DomainNo
    ensures { result ≡ lower least number }
{
    match least {
        Some(other) if other <= number => other,
        _ => number,
    }
}
