ghost use Rattle.std.specs.Prelude.{◌≡◌, ◌-◌, ◌++◌, [], IfOk, OnOk, length, map, replicate};
ghost use Rattle.std.specs.List.{find};
ghost use Rattle.cast_domain.specs.Records.{number_of};
ghost use Rattle.cast_table.specs.Tables.{AreApplied, domain_eq, domains_of};
ghost use Rattle.cast_table.specs.Tables.{pick_domains, without, InTable};
ghost use Rattle.cast_isolation.specs.Replays.{AddsEntry, AnswersNoDomain, by_session};
ghost use Rattle.cast_isolation.specs.Replays.{frames_of, given_of, lacks_memory};
ghost use Rattle.cast_isolation.specs.Replays.{of_domain, without_domain, SaysReplay};

use crate::watch::{Unwatched, Watch};
use cast_domain::Domain;
use cast_events::{Config, Event, Fault, Given, Log, Outs, Taken};
use cast_message::{Push, SiteFrame};
use cast_table::{Table, place_of};
use cast_types::{DomainNo, List, NoMemory, SiteNo};
use std::alloc::{AllocError, Global};

/// Applies events one after another to a daemon that was just started. Until want of memory halts
/// it, each domain answers, sends and pushes what it does where it is served alone, with no other
/// event. `NoMemory` where an event finds no memory to begin with, or the log has no room.
pub fn replay(alloc: Global, config: Config, events: &[Event]) -> Result<Log, NoMemory>
    ensures all { IfOk result (λ log. length log.answers ≡ length events.now) }
    ensures replayed { IfOk result (SaysReplay config events.now) }
    ensures no_domain { IfOk result (λ log. AnswersNoDomain config events.now log) }
{
    replay_watched(alloc, config, events, &mut Unwatched)
}

/// As `replay`, and tells how far it is.
pub fn replay_watched<P: Watch>(
    alloc: Global,
    config: Config,
    events: &[Event],
    watch: &mut P,
) -> Result<Log, NoMemory>
    ensures all { IfOk result (λ log. length log.answers ≡ length events.now) }
    ensures replayed { IfOk result (SaysReplay config events.now) }
    ensures no_domain { IfOk result (λ log. AnswersNoDomain config events.now log) }
{
    let mut table = Table::new(alloc, &config)?;
    let mut outs = Outs::new(alloc);
    let answers = apply_each(alloc, &mut table, events, &mut outs, watch)?;
    let given = given_by_all(alloc, &config, table, &outs)?;
    Ok(Log { answers, given })
}

// Applies events one after another, and gathers the answers. `NoMemory` where an event finds no
// memory to begin with, or the answers have no room.
fn apply_each<P: Watch>(
    alloc: Global,
    table: &mut Table,
    events: &[Event],
    outs: &mut Outs,
    watch: &mut P,
) -> Result<List<Result<Taken, Fault>>, NoMemory>
    ensures { IfOk result
        (λ all. InTable (AreApplied all events.now) table.old outs.old table.new outs.new) }
{
    let mut answers = List::new(alloc);
    watch.begin(events.len());
    for event in events {
        let answer = table.apply(event, outs);
        if lacks_memory(&answer) {
            return Err(AllocError);
        }
        answers.push(answer)?;
        watch.applied();
    }
    Ok(answers)
}

// Whether there was no memory to begin with.
fn lacks_memory(answer: &Result<Taken, Fault>) -> bool
    ensures { result ≡ lacks_memory answer.now }
{
    matches!(answer, Err(Fault::NoMemory))
}

// What each domain gave, in the order of the configuration, where this came of all events.
fn given_by_all(
    alloc: Global,
    config: &Config,
    table: Table,
    outs: &Outs,
) -> Result<List<Given>, NoMemory>
    ensures { IfOk result (λ given.
        given ≡ map (given_of outs.now) (pick_domains config.now.domains (domains_of table))) }
{
    let mut domains = table.into_domains();
    let mut given = List::new(alloc);
    for config in config.domains.as_slice() {
        if let Some(domain) = take_of(&mut domains, config.domain) {
            given.push(given_by(alloc, &domain, outs)?)?;
        }
    }
    Ok(given)
}

// Takes out the first domain of a number.
fn take_of(domains: &mut Vec<Domain>, number: DomainNo) -> Option<Domain>
    ensures first { result ≡ find (λ d. domain_eq (number_of d) number) domains.old.items }
    ensures others { domains.new.items ≡ without number domains.old.items }
{
    let place = place_of(domains, number)?;
    Some(domains.remove(place))
}

// What a domain gave, where this came of all events.
fn given_by(alloc: Global, domain: &Domain, outs: &Outs) -> Result<Given, NoMemory>
    ensures { IfOk result (λ given. given ≡ given_of outs.now domain.now) }
{
    let number = domain.number();
    let pushed = pushed_for(alloc, number, outs.pushed.as_slice())?;
    Ok(Given {
        domain: number,
        pushes: by_session(alloc, pushed)?,
        sent: sent_for(alloc, number, outs.frames.as_slice())?,
        halted: domain.is_halted(),
    })
}

// The frames that were sent for a domain.
fn sent_for(
    alloc: Global,
    number: DomainNo,
    frames: &[(DomainNo, SiteNo, SiteFrame)],
) -> Result<List<(SiteNo, SiteFrame)>, NoMemory>
    ensures { IfOk result (λ sent. sent ≡ frames_of number frames.now) }
{
    let mut sent = List::new(alloc);
    for (domain, to, frame) in frames {
        if *domain == number {
            sent.push((*to, frame.copy()?))?;
        }
    }
    Ok(sent)
}

// The entries that were pushed for a domain.
fn pushed_for(
    alloc: Global,
    number: DomainNo,
    pushed: &[(DomainNo, u32, Push)],
) -> Result<List<(DomainNo, u32, Push)>, NoMemory>
    ensures { IfOk result (λ own. own ≡ of_domain number pushed.now) }
{
    let mut own = Outs::new(alloc);
    for (domain, serial, entry) in pushed {
        if *domain == number {
            own.push(*domain, *serial, entry)?;
        }
    }
    Ok(own.pushed)
}

// What was pushed to each session, from serial 1 on, where these entries were pushed for a domain.
fn by_session(
    alloc: Global,
    pushed: List<(DomainNo, u32, Push)>,
) -> Result<List<List<Push>>, NoMemory>
    ensures { IfOk result (λ sessions. sessions ≡ by_session (without_domain pushed)) }
{
    let mut sessions = Vec::new(alloc);
    for (_, serial, entry) in pushed.into_vec() {
        add_entry(alloc, &mut sessions, serial, entry)?;
    }
    Ok(List::from_vec(sessions))
}

// Adds an entry to those of its session.
fn add_entry(
    alloc: Global,
    sessions: &mut Vec<List<Push>>,
    serial: u32,
    entry: Push,
) -> Result<(), NoMemory>
    ensures { OnOk result (AddsEntry serial entry sessions.old.items sessions.new.items) }
{
    reach(alloc, sessions, serial as usize)?;
    if serial > 0 {
        sessions[serial as usize - 1].push(entry)?;
    }
    Ok(())
}

// Adds empty lists until there are so many.
fn reach(alloc: Global, sessions: &mut Vec<List<Push>>, len: usize) -> Result<(), NoMemory>
    ensures { OnOk result (sessions.new.items
        ≡ sessions.old.items ++ replicate (len - length sessions.old.items) []) }
{
    let missing = len.saturating_sub(sessions.len());
    for _more in 0..missing {
        sessions.push(List::new(alloc))?;
    }
    Ok(())
}
