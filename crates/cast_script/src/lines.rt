ghost use Rattle.std.specs.Prelude.{◌≡◌, IfOk};
ghost use Rattle.cast_script.specs.Words.{texts};
ghost use Rattle.cast_script.specs.WordReadings.{Gives};
ghost use Rattle.cast_script.specs.Lines.{words_of};
ghost use Rattle.cast_script.specs.LineReadings.{domain_or_event, domain_words, event_behind};
ghost use Rattle.cast_script.specs.LineReadings.{event_line, first_event, head_of};
ghost use Rattle.cast_script.specs.LineReadings.{next_domain, site_line, site_words};

use crate::domain::{list_words, place_words, quota_words};
use crate::events::{
    bad, cast, frame_event, gone, join, leave, open, pass, quota, suspect, take, tick,
};
use crate::words::{LineFault, Reason, site_word};
use cast_events::{DomainConfig, Event};
use cast_message::CastKind;
use cast_types::limits::MAX_DOMAINS;
use cast_types::{NoMemory, SiteNo};
use std::alloc::Global;

// What a line is about.
#[derive(Clone, Copy, Debug, PartialEq, Eq)]
enum Head {
    Site,
    Domain,
    Open,
    Join,
    Leave,
    Cast,
    Abcast,
    Pass,
    Bad,
    Gone,
    Frame,
    Suspect,
    Quota,
    Take,
    Tick,
}

/// What a line says behind the `site` line, up to the first event.
#[derive(Drop)]
pub enum DomainOrEvent {
    Domain(DomainConfig),
    Event(Event),
}

// The words of a line, parted by one space each.
fn words_of(alloc: Global, line: &str) -> Result<Vec<&str>, NoMemory>
    ensures { IfOk result (λ words. texts words.items ≡ words_of line.now) }
{
    line.split(' ').collect(alloc)
}

// What a line is about, by its first word.
fn head_of(word: &str) -> Result<Head, Reason>
    ensures { result ≡ head_of word.now }
{
    match word {
        "site" => Ok(Head::Site),
        "domain" => Ok(Head::Domain),
        "open" => Ok(Head::Open),
        "join" => Ok(Head::Join),
        "leave" => Ok(Head::Leave),
        "cast" => Ok(Head::Cast),
        "abcast" => Ok(Head::Abcast),
        "pass" => Ok(Head::Pass),
        "bad" => Ok(Head::Bad),
        "gone" => Ok(Head::Gone),
        "frame" => Ok(Head::Frame),
        "suspect" => Ok(Head::Suspect),
        "quota" => Ok(Head::Quota),
        "take" => Ok(Head::Take),
        "tick" => Ok(Head::Tick),
        _ => Err(Reason::UnknownWord),
    }
}

/// `site N`
#[tactic(auto, unfolding(crate::specs::LineReadings::site_line, crate::specs::LineReadings::behind_first, crate::specs::LineReadings::site_behind))]
pub fn site_line(alloc: Global, line: &str) -> Result<SiteNo, LineFault>
    ensures { Gives result (site_line line.now) }
{
    let words = words_of(alloc, line)?;
    let (first, words) = words.split_first().ok_or(Reason::UnknownWord)?;
    match head_of(first)? {
        Head::Site => Ok(site(words)?),
        _ => Err(LineFault::Refused(Reason::Order)),
    }
}

// `site N`, from the second word on
#[tactic(auto, unfolding(crate::specs::LineReadings::site_words))]
fn site(words: &[&str]) -> Result<SiteNo, Reason>
    ensures { result ≡ site_words (texts words.now) }
{
    let [site] = words else {
        return Err(Reason::WrongCount);
    };
    site_word(site)
}

// `domain D home S sites S,.. groups G,.. quotas SESSIONS HELD OUTBOX
// RESEND`, from the second word on, behind these domains.
#[tactic(auto, unfolding(crate::specs::LineReadings::domain_words, crate::specs::LineReadings::domain_parts))]
fn domain_words(
    alloc: Global,
    words: &[&str],
    own: SiteNo,
    before: &[DomainConfig],
) -> Result<DomainConfig, LineFault>
    ensures { Gives result (domain_words own before.now (texts words.now)) }
{
    if words.len() != 12 {
        return Err(LineFault::Refused(Reason::WrongCount));
    }
    let (domain, home) = place_words(&words[..3], before)?;
    let (sites, groups) = list_words(alloc, &words[3..7], home, own)?;
    let quotas = quota_words(&words[7..])?;
    Ok(DomainConfig {
        domain,
        home,
        sites,
        groups,
        quotas,
    })
}

/// A line behind the `site` line, where these domains and no event stand before: one more domain,
/// or the first event.
///
/// The fault is the first of the line: its first word, its place, the count of its words, and then
/// its words from left to right. `Order` is told at the place of a 17th domain and of an event
/// before any domain, and at the word that is a number used before.
#[tactic(auto, unfolding(crate::specs::LineReadings::domain_or_event, crate::specs::LineReadings::behind_first, crate::specs::LineReadings::domain_or_event_behind))]
pub fn domain_or_event(
    alloc: Global,
    line: &str,
    own: SiteNo,
    before: &[DomainConfig],
) -> Result<DomainOrEvent, LineFault>
    ensures { Gives result (domain_or_event own before.now line.now) }
{
    let words = words_of(alloc, line)?;
    let (first, words) = words.split_first().ok_or(Reason::UnknownWord)?;
    match head_of(first)? {
        Head::Domain => Ok(DomainOrEvent::Domain(next_domain(alloc, words, own, before)?)),
        head => Ok(DomainOrEvent::Event(first_event(alloc, words, head, before)?)),
    }
}

// One more domain behind these, from the second word on.
#[tactic(auto, unfolding(crate::specs::LineReadings::next_domain))]
fn next_domain(
    alloc: Global,
    words: &[&str],
    own: SiteNo,
    before: &[DomainConfig],
) -> Result<DomainConfig, LineFault>
    ensures { Gives result (next_domain own before.now (texts words.now)) }
{
    if before.len() < MAX_DOMAINS {
        domain_words(alloc, words, own, before)
    } else {
        Err(LineFault::Refused(Reason::Order))
    }
}

// The first event behind these domains, from the second word on.
#[tactic(auto, unfolding(crate::specs::LineReadings::first_event))]
fn first_event(
    alloc: Global,
    words: &[&str],
    head: Head,
    before: &[DomainConfig],
) -> Result<Event, LineFault>
    ensures { Gives result (first_event before.now head (texts words.now)) }
{
    match before {
        [] => Err(LineFault::Refused(Reason::Order)),
        _ => event_words(alloc, words, head),
    }
}

/// One of the lines behind the first event.
#[tactic(auto, unfolding(crate::specs::LineReadings::event_line, crate::specs::LineReadings::behind_first))]
pub fn event_line(alloc: Global, line: &str) -> Result<Event, LineFault>
    ensures { Gives result (event_line line.now) }
{
    let words = words_of(alloc, line)?;
    let (first, words) = words.split_first().ok_or(Reason::UnknownWord)?;
    event_words(alloc, words, head_of(first)?)
}

// An event, from the second word on.
#[tactic(auto, unfolding(crate::specs::LineReadings::event_behind))]
fn event_words(alloc: Global, words: &[&str], head: Head) -> Result<Event, LineFault>
    ensures { Gives result (event_behind head (texts words.now)) }
{
    match head {
        Head::Site | Head::Domain => Err(LineFault::Refused(Reason::Order)),
        Head::Open => Ok(open(words)?),
        Head::Join => Ok(join(words)?),
        Head::Leave => Ok(leave(words)?),
        Head::Cast => cast(alloc, words, CastKind::Causal),
        Head::Abcast => cast(alloc, words, CastKind::Atomic),
        Head::Pass => Ok(pass(words)?),
        Head::Bad => Ok(bad(words)?),
        Head::Gone => Ok(gone(words)?),
        Head::Frame => frame_event(alloc, words),
        Head::Suspect => Ok(suspect(words)?),
        Head::Quota => Ok(quota(words)?),
        Head::Take => Ok(take(words)?),
        Head::Tick => Ok(tick(words)?),
    }
}
