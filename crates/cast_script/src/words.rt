ghost use Rattle.std.specs.Prelude.{◌≡◌, ◌≢◌, ◌≤◌, ◌<◌, ◌⊎◌, IfOk};
ghost use Rattle.std.specs.Prelude.{IsTrue, false, length, slice_index};
ghost use Rattle.cast_script.specs.Words.{groups_rise as are_rising_groups, parts_at};
ghost use Rattle.cast_script.specs.Words.{sites_rise as are_rising_sites, texts};
ghost use Rattle.cast_script.specs.WordReadings.{GivesAs, bytes_of, domain_of, each, fixed_of};
ghost use Rattle.cast_script.specs.WordReadings.{group_of, number_of, number_within, proc_of};
ghost use Rattle.cast_script.specs.WordReadings.{quota_name_of, site_and_serial, site_of};
ghost use Rattle.cast_script.specs.Reasons.{reason_text};
ghost use Rattle.cast_script.specs.declared.words.LineFault.TheVariants.{Refused, NoMemory};

use cast_events::QuotaName;
use cast_types::limits::MAX_NUMBER;
use cast_types::{DomainNo, GroupNo, Proc, SiteNo};
use std::alloc::{AllocError, AllocFailed, Global};
use thiserror::Error;

/// Why a line of a script is refused.
#[derive(Clone, Copy, Debug, PartialEq, Eq, Error)]
#[error("{}", self.text())]
pub enum Reason {
    /// The first word, the name of a quota, or a fixed word of a `domain` line.
    UnknownWord,
    /// The line has more or fewer words than its first word asks for.
    WrongCount,
    /// A word is no number or no process, or a number or how many there are of them is out of its
    /// range.
    BadNumber,
    /// A word is not an even number of hexadecimal digits, nor `-`.
    BadHex,
    /// The bytes are no frame.
    BadFrame,
    /// The line is in the wrong place, a domain's number was used before, or a list does not rise
    /// or lacks a site that it must have.
    Order,
}

impl Reason {
    /// What is said of it.
    pub fn text(self) -> &'static str
        ensures { result.now ≡ reason_text self }
    {
        match self {
            Reason::UnknownWord => "unknown word",
            Reason::WrongCount => "wrong count",
            Reason::BadNumber => "bad number",
            Reason::BadHex => "bad hex",
            Reason::BadFrame => "bad frame",
            Reason::Order => "order",
        }
    }
}

/// Why a line cannot be used.
#[derive(Clone, Copy, Debug, PartialEq, Eq)]
pub enum LineFault {
    Refused(Reason),
    NoMemory,
}

impl From<Reason> for LineFault {
    ghost from_gives = { λ reason fault. fault ≡ Refused reason };

    fn from(reason: Reason) -> LineFault {
        LineFault::Refused(reason)
    }
}

impl From<AllocError> for LineFault {
    ghost from_gives = { λ _ fault. fault ≡ NoMemory };

    fn from(_error: AllocError) -> LineFault {
        LineFault::NoMemory
    }
}

impl<T: Drop> From<AllocFailed<T>> for LineFault {
    ghost from_gives = { λ _ fault. fault ≡ NoMemory };

    fn from(_error: AllocFailed<T>) -> LineFault {
        LineFault::NoMemory
    }
}

// Whether a text begins with no sign, and with no zero before other digits.
fn is_plain(text: &[u8]) -> bool
    ensures plain { IsTrue result
        → (slice_index text.now 0 ≢ 43) × (slice_index text.now 0 ≡ 48 → length text.now ≤ 1) }
    ensures other { result ≡ false
        → (slice_index text.now 0 ≡ 43) ⊎ ((slice_index text.now 0 ≡ 48) × (1 < length text.now)) }
{
    match text {
        [b'+', ..] | [b'0', _, ..] => false,
        _ => true,
    }
}

/// A number: decimal digits with no sign and no leading zero.
pub fn long_number(word: &str) -> Result<u64, Reason>
    ensures { result ≡ number_of word.now }
{
    if !is_plain(word.as_bytes()) {
        return Err(Reason::BadNumber);
    }
    match word.parse::<u64>() {
        Ok(value) => Ok(value),
        Err(_) => Err(Reason::BadNumber),
    }
}

/// A number below 2^32.
#[tactic(auto, unfolding(crate::specs::WordReadings::number_within, crate::specs::WordReadings::within))]
pub fn number(word: &str) -> Result<u32, Reason>
    ensures { result ≡ number_within 0 4294967295 word.now }
{
    match u32::try_from(long_number(word)?) {
        Ok(value) => Ok(value),
        Err(_) => Err(Reason::BadNumber),
    }
}

/// A number within limits.
pub fn number_between(word: &str, least: u32, most: u32) -> Result<u32, Reason>
    ensures { result ≡ number_within least most word.now }
{
    let value = number(word)?;
    if least <= value && value <= most {
        Ok(value)
    } else {
        Err(Reason::BadNumber)
    }
}

/// The number of a domain.
#[tactic(auto, unfolding(crate::specs::WordReadings::domain_of))]
pub fn domain_word(word: &str) -> Result<DomainNo, Reason>
    ensures { result ≡ domain_of word.now }
{
    Ok(DomainNo(number_between(word, 1, 255)? as u8))
}

/// The number of a site.
#[tactic(auto, unfolding(crate::specs::WordReadings::site_of))]
pub fn site_word(word: &str) -> Result<SiteNo, Reason>
    ensures { result ≡ site_of word.now }
{
    Ok(SiteNo(number_between(word, 1, 65_535)? as u16))
}

/// The number of a group.
#[tactic(auto, unfolding(crate::specs::WordReadings::group_of))]
pub fn group_word(word: &str) -> Result<GroupNo, Reason>
    ensures { result ≡ group_of word.now }
{
    Ok(GroupNo(number_between(word, 1, 65_535)? as u16))
}

/// A process, as `2.1`: its site and its serial there.
#[tactic(auto, unfolding(crate::specs::WordReadings::proc_of))]
pub fn proc_word(word: &str) -> Result<Proc, Reason>
    ensures { result ≡ proc_of word.now }
{
    let (site, serial) = word.split_once('.').ok_or(Reason::BadNumber)?;
    site_and_serial(site, serial)
}

// A process: its site and its serial there.
#[tactic(auto, unfolding(crate::specs::WordReadings::site_and_serial))]
fn site_and_serial(site: &str, serial: &str) -> Result<Proc, Reason>
    ensures { result ≡ site_and_serial site.now serial.now }
{
    Ok(Proc {
        site: site_word(site)?,
        serial: number_between(serial, 1, MAX_NUMBER)?,
    })
}

// The pieces of a word, parted by commas.
fn pieces_of(alloc: Global, word: &str) -> Result<Vec<&str>, AllocError>
    ensures { IfOk result (λ pieces. texts pieces.items ≡ parts_at 44 word.now) }
{
    word.split(',').collect(alloc)
}

/// Numbers of sites, parted by commas.
pub fn site_list(alloc: Global, word: &str) -> Result<Vec<SiteNo>, LineFault>
    ensures { GivesAs (λ sites. sites.items) result (each site_of (parts_at 44 word.now)) }
{
    let pieces = pieces_of(alloc, word)?;
    let mut sites = Vec::new(alloc);
    for piece in pieces.as_slice() {
        sites.push(site_word(piece)?)?;
    }
    Ok(sites)
}

/// Numbers of groups, parted by commas.
pub fn group_list(alloc: Global, word: &str) -> Result<Vec<GroupNo>, LineFault>
    ensures { GivesAs (λ groups. groups.items) result (each group_of (parts_at 44 word.now)) }
{
    let pieces = pieces_of(alloc, word)?;
    let mut groups = Vec::new(alloc);
    for piece in pieces.as_slice() {
        groups.push(group_word(piece)?)?;
    }
    Ok(groups)
}

/// Whether each site is above the one before it, and the first above 0.
pub fn sites_rise(sites: &[SiteNo]) -> bool
    ensures { result ≡ are_rising_sites sites.now }
{
    let mut last = 0;
    for site in sites {
        if site.0 <= last {
            return false;
        }
        last = site.0;
    }
    true
}

/// Whether each group is above the one before it, and the first above 0.
pub fn groups_rise(groups: &[GroupNo]) -> bool
    ensures { result ≡ are_rising_groups groups.now }
{
    let mut last = 0;
    for group in groups {
        if group.0 <= last {
            return false;
        }
        last = group.0;
    }
    true
}

/// The quota that a word names.
pub fn quota_name_word(word: &str) -> Result<QuotaName, Reason>
    ensures { result ≡ quota_name_of word.now }
{
    match word {
        "sessions" => Ok(QuotaName::Sessions),
        "held" => Ok(QuotaName::Held),
        "outbox" => Ok(QuotaName::Outbox),
        "resend" => Ok(QuotaName::Resend),
        _ => Err(Reason::UnknownWord),
    }
}

/// A word that has to stand at its place.
#[tactic(auto, unfolding(crate::specs::WordReadings::fixed_of))]
pub fn fixed_word(word: &str, fixed: &str) -> Result<(), Reason>
    ensures { result ≡ fixed_of fixed.now word.now }
{
    if word == fixed {
        Ok(())
    } else {
        Err(Reason::UnknownWord)
    }
}

/// Bytes as an even number of hexadecimal digits of either case, or `-` where there are none.
#[tactic(auto, unfolding(crate::specs::WordReadings::bytes_of))]
pub fn bytes_word(alloc: Global, word: &str) -> Result<Vec<u8>, LineFault>
    ensures { GivesAs (λ bytes. bytes.items) result (bytes_of word.now) }
{
    if word == "-" {
        return Ok(Vec::new(alloc));
    }
    if word.is_empty() {
        return Err(LineFault::Refused(Reason::BadHex));
    }
    match hex::decode(alloc, word) {
        Ok(bytes) => Ok(bytes),
        Err(hex::FromHexError::OutOfMemory) => Err(LineFault::NoMemory),
        Err(_) => Err(LineFault::Refused(Reason::BadHex)),
    }
}
