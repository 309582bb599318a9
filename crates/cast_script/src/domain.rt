ghost use Rattle.std.specs.Prelude.{◌≡◌};
ghost use Rattle.cast_script.specs.Words.{is_configured as is_among, texts};
ghost use Rattle.cast_script.specs.WordReadings.{Gives, groups_of, list_words, new_domain_of};
ghost use Rattle.cast_script.specs.WordReadings.{place_words, quota_words, sites_of};

use crate::words::{
    LineFault, Reason, domain_word, fixed_word, group_list, groups_rise, number_between, site_list,
    site_word, sites_rise,
};
use cast_events::{DomainConfig, Quotas};
use cast_types::limits::{MAX_GROUPS, MAX_SITES};
use cast_types::{DomainNo, GroupNo, List, SiteNo};
use std::alloc::Global;

/// `D home S`, where these domains stand before. `Order` where one of them has the number, which is
/// told before what stands behind it.
#[tactic(auto, unfolding(crate::specs::WordReadings::place_words))]
pub fn place_words(words: &[&str], before: &[DomainConfig]) -> Result<(DomainNo, SiteNo), Reason>
    ensures { result ≡ place_words before.now (texts words.now) }
{
    let [domain, home_is, home] = words else {
        return Err(Reason::WrongCount);
    };
    let domain = new_domain_word(domain, before)?;
    fixed_word(home_is, "home")?;
    Ok((domain, site_word(home)?))
}

// The number of a domain, which none of these has.
#[tactic(auto, unfolding(crate::specs::WordReadings::new_domain_of))]
fn new_domain_word(word: &str, before: &[DomainConfig]) -> Result<DomainNo, Reason>
    ensures { result ≡ new_domain_of before.now word.now }
{
    let domain = domain_word(word)?;
    if is_configured(domain, before) {
        Err(Reason::Order)
    } else {
        Ok(domain)
    }
}

// Whether a domain of this number is among these.
fn is_configured(domain: DomainNo, configs: &[DomainConfig]) -> bool
    ensures { result ≡ is_among domain configs.now }
{
    configs.iter().any(|config| config.domain == domain)
}

/// `sites S,.. groups G,..`
#[tactic(auto, unfolding(crate::specs::WordReadings::list_words))]
pub fn list_words(
    alloc: Global,
    words: &[&str],
    home: SiteNo,
    own: SiteNo,
) -> Result<(List<SiteNo>, List<GroupNo>), LineFault>
    ensures { Gives result (list_words home own (texts words.now)) }
{
    let [sites_are, sites, groups_are, groups] = words else {
        return Err(LineFault::Refused(Reason::WrongCount));
    };
    fixed_word(sites_are, "sites")?;
    let sites = sites_word(alloc, sites, home, own)?;
    fixed_word(groups_are, "groups")?;
    Ok((sites, groups_word(alloc, groups)?))
}

// The sites of a domain: 1 to 16, rising, with its home and the own site among them.
#[tactic(auto, unfolding(crate::specs::WordReadings::sites_of, crate::specs::WordReadings::checked_sites))]
fn sites_word(
    alloc: Global,
    word: &str,
    home: SiteNo,
    own: SiteNo,
) -> Result<List<SiteNo>, LineFault>
    ensures { Gives result (sites_of home own word.now) }
{
    let sites = site_list(alloc, word)?;
    if sites.len() > MAX_SITES {
        return Err(LineFault::Refused(Reason::BadNumber));
    }
    if sites_rise(&sites) && sites.contains(&home) && sites.contains(&own) {
        Ok(List::from_vec(sites))
    } else {
        Err(LineFault::Refused(Reason::Order))
    }
}

// The groups of a domain: 1 to 32, rising.
#[tactic(auto, unfolding(crate::specs::WordReadings::groups_of, crate::specs::WordReadings::checked_groups))]
fn groups_word(alloc: Global, word: &str) -> Result<List<GroupNo>, LineFault>
    ensures { Gives result (groups_of word.now) }
{
    let groups = group_list(alloc, word)?;
    if groups.is_empty() || groups.len() > MAX_GROUPS {
        return Err(LineFault::Refused(Reason::BadNumber));
    }
    if groups_rise(&groups) {
        Ok(List::from_vec(groups))
    } else {
        Err(LineFault::Refused(Reason::Order))
    }
}

/// `quotas SESSIONS HELD OUTBOX RESEND`
#[tactic(auto, unfolding(crate::specs::WordReadings::quota_words))]
pub fn quota_words(words: &[&str]) -> Result<Quotas, Reason>
    ensures { result ≡ quota_words (texts words.now) }
{
    let [quotas_are, sessions, held, outbox, resend] = words else {
        return Err(Reason::WrongCount);
    };
    fixed_word(quotas_are, "quotas")?;
    Ok(Quotas {
        sessions: number_between(sessions, 1, 64)?,
        held: number_between(held, 1, 1_024)?,
        outbox: number_between(outbox, 1, 4_096)?,
        resend: number_between(resend, 10, 60_000)?,
    })
}
