ghost use Rattle.std.specs.Prelude.{◌≡◌, ◌∷◌};
ghost use Rattle.std.specs.Option.{option_copied};
ghost use Rattle.cast_script.specs.Words.{parts_at};
ghost use Rattle.cast_console.specs.Lines.{IsSeen, bare, behind, fault_number, fault_of};
ghost use Rattle.cast_console.specs.Lines.{head_of, line_of, none_of, of_domain, one_of};
ghost use Rattle.cast_console.specs.Lines.{quota, suspect, three_of, two_of, words_of};

use cast_events::QuotaName;
use cast_script::{Reason, domain_word, number, quota_name_word, site_word};
use cast_types::{DomainNo, SiteNo};
use thiserror::Error;

/// A line of the console.
#[derive(Clone, Copy, Debug, PartialEq, Eq)]
pub enum Line {
    /// Which domains there are, and which of them are halted.
    Domains,
    /// How much a domain keeps and has done.
    Show(DomainNo),
    /// The view of each group of a domain.
    Groups(DomainNo),
    /// A site of a domain is suspected to have stopped.
    Suspect(DomainNo, SiteNo),
    /// A quota of a domain is to have another value.
    Quota(DomainNo, QuotaName, u32),
    /// The programs of a domain are no longer served here.
    Retire(DomainNo),
    /// How many events were taken, and how many of them are in the trace.
    Trace,
    /// How many datagrams were sent and received.
    Datagrams,
    /// How far the record is.
    Record,
    /// The keys are to be read again.
    Keys,
    /// The program is to end.
    Stop,
}

/// Why a line is none.
#[derive(Clone, Copy, Debug, PartialEq, Eq, Error)]
#[error("fault {}", self.number())]
pub enum LineFault {
    /// It is empty.
    Empty,
    /// Its first word is unknown, or the name of a quota.
    UnknownWord,
    /// It has more or fewer words than its first word asks for.
    WrongCount,
    /// A word is no number, or one out of its range.
    BadNumber,
}

impl LineFault {
    /// Its number, 1 to 4.
    pub fn number(self) -> u8
        ensures { result ≡ fault_number self }
    {
        match self {
            LineFault::Empty => 1,
            LineFault::UnknownWord => 2,
            LineFault::WrongCount => 3,
            LineFault::BadNumber => 4,
        }
    }
}

impl From<Reason> for LineFault {
    ghost from_gives = { λ reason fault. fault ≡ fault_of reason };

    fn from(reason: Reason) -> LineFault {
        match reason {
            Reason::UnknownWord => LineFault::UnknownWord,
            Reason::WrongCount => LineFault::WrongCount,
            _ => LineFault::BadNumber,
        }
    }
}

// What the first word of a line says that the line is about.
#[derive(Clone, Copy, Debug, PartialEq, Eq)]
pub(crate) enum Head {
    Domains,
    Show,
    Groups,
    Suspect,
    Quota,
    Retire,
    Trace,
    Datagrams,
    Record,
    Keys,
    Stop,
}

// What a first word says.
fn head_of(word: &str) -> Result<Head, LineFault>
    ensures { result ≡ head_of word.now }
{
    match word {
        "domains" => Ok(Head::Domains),
        "show" => Ok(Head::Show),
        "groups" => Ok(Head::Groups),
        "suspect" => Ok(Head::Suspect),
        "quota" => Ok(Head::Quota),
        "retire" => Ok(Head::Retire),
        "trace" => Ok(Head::Trace),
        "datagrams" => Ok(Head::Datagrams),
        "record" => Ok(Head::Record),
        "keys" => Ok(Head::Keys),
        "stop" => Ok(Head::Stop),
        _ => Err(LineFault::UnknownWord),
    }
}

// The first word of a text, and what stands behind the space after it.
fn cut(text: &str) -> (&str, Option<&str>)
    ensures { parts_at 32 text.now ≡ result.0.now ∷ words_of (option_copied result.1) }
{
    match text.split_once(' ') {
        Some((word, rest)) => (word, Some(rest)),
        None => (text, None),
    }
}

// No word.
fn no_word(rest: Option<&str>) -> Result<(), LineFault>
    ensures { result ≡ none_of (words_of (option_copied rest.entry)) }
{
    match rest {
        None => Ok(()),
        Some(_) => Err(LineFault::WrongCount),
    }
}

// One word.
fn one_word(rest: Option<&str>) -> Result<&str, LineFault>
    ensures { IsSeen (λ w. w.now) result (one_of (words_of (option_copied rest.entry))) }
{
    let Some(text) = rest else {
        return Err(LineFault::WrongCount);
    };
    let (word, rest) = cut(text);
    no_word(rest)?;
    Ok(word)
}

// Two words.
fn two_words(rest: Option<&str>) -> Result<(&str, &str), LineFault>
    ensures { IsSeen (λ w. (w.0.now, w.1.now))
        result (two_of (words_of (option_copied rest.entry))) }
{
    let Some(text) = rest else {
        return Err(LineFault::WrongCount);
    };
    let (first, rest) = cut(text);
    Ok((first, one_word(rest)?))
}

// Three words.
fn three_words(rest: Option<&str>) -> Result<(&str, &str, &str), LineFault>
    ensures { IsSeen (λ w. (w.0.now, w.1.now, w.2.now))
        result (three_of (words_of (option_copied rest.entry))) }
{
    let Some(text) = rest else {
        return Err(LineFault::WrongCount);
    };
    let (first, rest) = cut(text);
    let (second, third) = two_words(rest)?;
    Ok((first, second, third))
}

// A line of one word.
#[tactic(auto, unfolding(crate::specs::Lines::bare))]
fn bare(rest: Option<&str>, line: Line) -> Result<Line, LineFault>
    ensures { result ≡ bare line (words_of (option_copied rest.entry)) }
{
    no_word(rest)?;
    Ok(line)
}

// `show D`
#[tactic(auto, unfolding(crate::specs::Lines::of_domain))]
fn show(rest: Option<&str>) -> Result<Line, LineFault>
    ensures { result ≡ of_domain Line.Show (words_of (option_copied rest.entry)) }
{
    Ok(Line::Show(domain_word(one_word(rest)?)?))
}

// `groups D`
#[tactic(auto, unfolding(crate::specs::Lines::of_domain))]
fn groups(rest: Option<&str>) -> Result<Line, LineFault>
    ensures { result ≡ of_domain Line.Groups (words_of (option_copied rest.entry)) }
{
    Ok(Line::Groups(domain_word(one_word(rest)?)?))
}

// `retire D`
#[tactic(auto, unfolding(crate::specs::Lines::of_domain))]
fn retire(rest: Option<&str>) -> Result<Line, LineFault>
    ensures { result ≡ of_domain Line.Retire (words_of (option_copied rest.entry)) }
{
    Ok(Line::Retire(domain_word(one_word(rest)?)?))
}

// `suspect D S`
#[tactic(auto, unfolding(crate::specs::Lines::suspect))]
fn suspect(rest: Option<&str>) -> Result<Line, LineFault>
    ensures { result ≡ suspect (words_of (option_copied rest.entry)) }
{
    let (domain, site) = two_words(rest)?;
    Ok(Line::Suspect(domain_word(domain)?, site_word(site)?))
}

// `quota D NAME N`
#[tactic(auto, unfolding(crate::specs::Lines::quota))]
fn quota(rest: Option<&str>) -> Result<Line, LineFault>
    ensures { result ≡ quota (words_of (option_copied rest.entry)) }
{
    let (domain, name, value) = three_words(rest)?;
    Ok(Line::Quota(domain_word(domain)?, quota_name_word(name)?, number(value)?))
}

// What a line is by what stands behind its first word.
fn behind(head: Head, rest: Option<&str>) -> Result<Line, LineFault>
    ensures { result ≡ behind head (words_of (option_copied rest.entry)) }
{
    match head {
        Head::Domains => bare(rest, Line::Domains),
        Head::Show => show(rest),
        Head::Groups => groups(rest),
        Head::Suspect => suspect(rest),
        Head::Quota => quota(rest),
        Head::Retire => retire(rest),
        Head::Trace => bare(rest, Line::Trace),
        Head::Datagrams => bare(rest, Line::Datagrams),
        Head::Record => bare(rest, Line::Record),
        Head::Keys => bare(rest, Line::Keys),
        Head::Stop => bare(rest, Line::Stop),
    }
}

/// What a line is: its words are parted by one space each. Its fault is the first of: that it is
/// empty, that its first word is unknown, that it has another count of words, and then that of its
/// words from left to right. Takes no memory.
#[tactic(auto, unfolding(crate::specs::Lines::line_of))]
pub fn parse(line: &str) -> Result<Line, LineFault>
    ensures { result ≡ line_of line.now }
{
    if line.is_empty() {
        return Err(LineFault::Empty);
    }
    let (first, rest) = cut(line);
    behind(head_of(first)?, rest)
}
