ghost use Rattle.std.specs.Prelude.{◌≡◌, [], IfOk, filter, map};
ghost use Rattle.cast_script.specs.Words.{parts_at, texts};
ghost use Rattle.cast_script.specs.Scripts.{HasDomains, is_used as is_used_text};
ghost use Rattle.cast_script.specs.Readings.{GivesAt, domain_or_event_at, domains_on, end_after};
ghost use Rattle.cast_script.specs.Readings.{event_at, events_from, events_on, fault_at, no_events};
ghost use Rattle.cast_script.specs.Readings.{numbered_line, script_of, site_at, site_on, used_of};
ghost use Rattle.cast_script.specs.declared.words.Reason.TheVariants.{Order};
ghost use Rattle.cast_script.specs.declared.script.ScriptFault.TheVariants.{At, NoMemory};

use crate::lines::{DomainOrEvent, domain_or_event, event_line, site_line};
use crate::words::{LineFault, Reason};
use cast_events::{Config, DomainConfig, Event};
use cast_types::{List, NoMemory, SiteNo};
use std::alloc::{AllocError, AllocFailed, Global};
use thiserror::Error;

/// A script: a daemon, and what happens to it.
#[derive(Drop)]
pub struct Script {
    pub config: Config,
    pub events: List<Event>,
}

/// What is wrong with a script.
#[derive(Clone, Copy, Debug, PartialEq, Eq, Error)]
pub enum ScriptFault {
    /// The first line that cannot be used, counted from 1.
    #[error("line {line}: {reason}")]
    At { line: usize, reason: Reason },
    /// An allocation was refused.
    #[error("no memory")]
    NoMemory,
}

impl From<AllocError> for ScriptFault {
    ghost from_gives = { λ _ fault. fault ≡ NoMemory };

    fn from(_error: AllocError) -> ScriptFault {
        ScriptFault::NoMemory
    }
}

impl<T: Drop> From<AllocFailed<T>> for ScriptFault {
    ghost from_gives = { λ _ fault. fault ≡ NoMemory };

    fn from(_error: AllocFailed<T>) -> ScriptFault {
        ScriptFault::NoMemory
    }
}

// A line that is neither empty nor a comment, with its number from 1 on.
#[derive(Clone, Copy, Debug)]
struct Line<'a> {
    number: usize,
    text: &'a str,
}

impl Line<'_> {
    fn fault(&self, fault: LineFault) -> ScriptFault
        ensures { result ≡ fault_at self.now.number fault }
    {
        match fault {
            LineFault::Refused(reason) => ScriptFault::At {
                line: self.number,
                reason,
            },
            LineFault::NoMemory => ScriptFault::NoMemory,
        }
    }
}

/// Reads a script: one `site` line, 1 to 16 `domain` lines with different numbers, then the events.
///
/// The fault is the first of the first line that has one: its first word, its place, the count of
/// its words, and then its words from left to right. A script that ends before a `domain` line has
/// the fault `Order` at the line behind its last. `NoMemory` comes where an allocation was refused,
/// and says nothing of the text.
pub fn parse(alloc: Global, text: &str) -> Result<Script, ScriptFault>
    // Which script, or the line of the first fault with the reason.
    ensures exact { GivesAt result (script_of text.now) }
    // The daemon has 1 to 16 domains, each within its limits, and their numbers are all different.
    ensures valid { IfOk result (λ s. HasDomains s.config) }
{
    let lines = lines_of(alloc, text)?;
    let used = used_lines(alloc, &lines)?;
    parse_lines(alloc, &used, end_of(&lines))
}

// Reads a script from its used lines. The last number is that of the line behind them all.
#[tactic(auto, unfolding(crate::specs::Readings::site_on))]
fn parse_lines(alloc: Global, lines: &[Line<'_>], end: usize) -> Result<Script, ScriptFault>
    ensures { GivesAt result (site_on end (map numbered_line lines.now)) }
{
    let [line, lines @ ..] = lines else {
        return Err(missing(end));
    };
    let site = site_at(alloc, line)?;
    parse_domains(alloc, lines, site, end)
}

// Reads a script of this site from the used lines behind its first.
#[tactic(auto, unfolding(crate::specs::Readings::domains_on))]
fn parse_domains(
    alloc: Global,
    lines: &[Line<'_>],
    site: SiteNo,
    end: usize,
) -> Result<Script, ScriptFault>
    ensures { GivesAt result (domains_on site end [] (map numbered_line lines.now)) }
{
    let mut domains = List::new(alloc);
    for (index, line) in lines.iter().enumerate() {
        match domain_or_event_at(alloc, line, site, domains.as_slice())? {
            DomainOrEvent::Domain(domain) => domains.push(domain)?,
            DomainOrEvent::Event(first) => {
                return parse_events(alloc, &lines[index + 1..], site, domains, first);
            }
        }
    }
    eventless(alloc, site, domains, end)
}

// A script of these domains whose lines end with them.
#[tactic(auto, unfolding(crate::specs::Readings::no_events))]
fn eventless(
    alloc: Global,
    site: SiteNo,
    domains: List<DomainConfig>,
    end: usize,
) -> Result<Script, ScriptFault>
    ensures { GivesAt result (no_events site end domains) }
{
    if domains.is_empty() {
        return Err(missing(end));
    }
    Ok(Script {
        config: Config { site, domains },
        events: List::new(alloc),
    })
}

// Reads a script of these domains from the used lines behind its first event.
#[tactic(auto, unfolding(crate::specs::Readings::events_on))]
fn parse_events(
    alloc: Global,
    lines: &[Line<'_>],
    site: SiteNo,
    domains: List<DomainConfig>,
    first: Event,
) -> Result<Script, ScriptFault>
    ensures { GivesAt result (events_on site domains first (map numbered_line lines.now)) }
{
    let events = events_from(alloc, first, lines)?;
    Ok(Script {
        config: Config { site, domains },
        events,
    })
}

// The lines end too early.
fn missing(end: usize) -> ScriptFault
    ensures { result ≡ At end Order }
{
    ScriptFault::At {
        line: end,
        reason: Reason::Order,
    }
}

// The site of a line.
#[tactic(auto, using(crate::proofs::ScriptLines::fault_gives), unfolding(crate::specs::Readings::site_at))]
fn site_at(alloc: Global, line: &Line<'_>) -> Result<SiteNo, ScriptFault>
    ensures { GivesAt result (site_at (numbered_line line.now)) }
{
    match site_line(alloc, line.text) {
        Ok(site) => Ok(site),
        Err(fault) => Err(line.fault(fault)),
    }
}

// One more domain at this site, or the first event, of a line behind these domains.
#[tactic(auto, using(crate::proofs::ScriptLines::fault_gives), unfolding(crate::specs::Readings::domain_or_event_at))]
fn domain_or_event_at(
    alloc: Global,
    line: &Line<'_>,
    own: SiteNo,
    before: &[DomainConfig],
) -> Result<DomainOrEvent, ScriptFault>
    ensures { GivesAt result (domain_or_event_at own before.now (numbered_line line.now)) }
{
    match domain_or_event(alloc, line.text, own, before) {
        Ok(next) => Ok(next),
        Err(fault) => Err(line.fault(fault)),
    }
}

// The event of a line.
#[tactic(auto, using(crate::proofs::ScriptLines::fault_gives), unfolding(crate::specs::Readings::event_at))]
fn event_at(alloc: Global, line: &Line<'_>) -> Result<Event, ScriptFault>
    ensures { GivesAt result (event_at (numbered_line line.now)) }
{
    match event_line(alloc, line.text) {
        Ok(event) => Ok(event),
        Err(fault) => Err(line.fault(fault)),
    }
}

// The first event, and that of each line.
fn events_from(alloc: Global, first: Event, lines: &[Line<'_>]) -> Result<List<Event>, ScriptFault>
    ensures { GivesAt result (events_from first (map numbered_line lines.now)) }
{
    let mut events = List::new(alloc);
    events.push(first)?;
    for line in lines {
        events.push(event_at(alloc, line)?)?;
    }
    Ok(events)
}

// The lines of a text. What stands behind the last line feed is one of them, though it may be
// empty.
fn lines_of(alloc: Global, text: &str) -> Result<Vec<&str>, NoMemory>
    ensures { IfOk result (λ lines. texts lines.items ≡ parts_at 10 text.now) }
{
    text.split('\n').collect(alloc)
}

// The number of the line behind the last.
fn end_of(lines: &[&str]) -> usize
    ensures { result ≡ end_after 1 (texts lines.now) }
{
    match lines.last() {
        Some(last) if last.is_empty() => lines.len(),
        _ => lines.len() + 1,
    }
}

// The lines that are neither empty nor comments.
fn used_lines<'a>(alloc: Global, lines: &[&'a str]) -> Result<Vec<Line<'a>>, NoMemory>
    ensures { IfOk result (λ used. map numbered_line used.items ≡ used_of (texts lines.now)) }
{
    let mut used = Vec::new(alloc);
    for (index, text) in lines.iter().enumerate() {
        if is_used(text) {
            used.push(Line {
                number: index + 1,
                text,
            })?;
        }
    }
    Ok(used)
}

// Whether a line is neither empty nor a comment.
fn is_used(line: &str) -> bool
    ensures { result ≡ is_used_text line.now }
{
    match line.as_bytes() {
        [] | [b'#', ..] => false,
        _ => true,
    }
}
