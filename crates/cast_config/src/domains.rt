ghost use Rattle.std.specs.Prelude.{◌≡◌, IfOk, map};
ghost use Rattle.toml.specs.View.{table_view};
ghost use Rattle.cast_script.specs.WordReadings.{each};
ghost use Rattle.cast_config.specs.Faults.{Gives};
ghost use Rattle.cast_config.specs.Fields.{all_pass};
ghost use Rattle.cast_config.specs.Entries.{domain_of, groups_from, quotas_of, sites_from};
ghost use Rattle.cast_config.specs.Documents.{are_listed, checked_domains, domain_numbers};
ghost use Rattle.cast_config.specs.Documents.{domains_of, is_at, own_domains, placed};

use crate::fault::{Cause, ConfigFault, Field};
use crate::fields::{are_distinct, fault, number_at, number_at_or, numbers_at, text_at};
use crate::sites::{SiteAddress, is_listed};
use crate::text::Text;
use cast_events::{DomainConfig, Quotas};
use cast_types::limits::{MAX_GROUPS, MAX_SITES};
use cast_types::{DomainNo, GroupNo, List, NoMemory, SiteNo};
use std::alloc::Global;
use toml::Table;

/// A domain of the document.
#[derive(Drop)]
pub struct DomainEntry {
    pub config: DomainConfig,
    /// The path of the domain's socket.
    pub socket: Text,
}

// The quotas of a domain: the usual ones stand for those that are absent.
#[tactic(auto, unfolding(crate::specs::Entries::quotas_of))]
fn quotas_of(table: &Table) -> Result<Quotas, ConfigFault>
    ensures { result ≡ quotas_of (table_view table.now) }
{
    Ok(Quotas {
        sessions: number_at_or(table, Field::Sessions, 16, 1, 64)?,
        held: number_at_or(table, Field::Held, 256, 1, 1_024)?,
        outbox: number_at_or(table, Field::Outbox, 256, 1, 4_096)?,
        resend: number_at_or(table, Field::Resend, 200, 10, 60_000)?,
    })
}

/// Sites of these numbers.
pub fn sites_from(alloc: Global, numbers: &[u16]) -> Result<Vec<SiteNo>, NoMemory>
    ensures { IfOk result (λ sites. sites.items ≡ sites_from numbers.now) }
{
    numbers.iter().map(|number| SiteNo(*number)).collect(alloc)
}

// Groups of these numbers.
fn groups_from(alloc: Global, numbers: &[u16]) -> Result<Vec<GroupNo>, NoMemory>
    ensures { IfOk result (λ groups. groups.items ≡ groups_from numbers.now) }
{
    numbers.iter().map(|number| GroupNo(*number)).collect(alloc)
}

// What the table of a domain says.
#[tactic(auto, unfolding(crate::specs::Entries::domain_of))]
fn domain_of(alloc: Global, table: &Table) -> Result<DomainEntry, ConfigFault>
    ensures { Gives result (domain_of (table_view table.now)) }
{
    let number = number_at(table, Field::Number, 1, 255)?;
    let home = number_at(table, Field::Home, 1, 65_535)?;
    let sites = numbers_at(alloc, table, Field::Sites, MAX_SITES)?;
    let groups = numbers_at(alloc, table, Field::Groups, MAX_GROUPS)?;
    let socket = text_at(table, Field::Socket)?;
    let quotas = quotas_of(table)?;
    Ok(DomainEntry {
        config: DomainConfig {
            domain: DomainNo(number as u8),
            home: SiteNo(home as u16),
            sites: List::from_vec(sites_from(alloc, &sites)?),
            groups: List::from_vec(groups_from(alloc, &groups)?),
            quotas,
        },
        socket: Text::copy_of(alloc, socket)?,
    })
}

// What the tables of domains say, in their order.
fn all_domains(alloc: Global, tables: &[&Table]) -> Result<List<DomainEntry>, ConfigFault>
    ensures { Gives result (each domain_of (map (λ t. table_view t.now) tables.now)) }
{
    let mut domains = List::new(alloc);
    for table in tables {
        domains.push(domain_of(alloc, table)?)?;
    }
    Ok(domains)
}

// The numbers of domains.
fn numbers_of(alloc: Global, domains: &[DomainEntry]) -> Result<Vec<u16>, NoMemory>
    ensures { IfOk result (λ numbers. numbers.items ≡ domain_numbers domains.now) }
{
    domains
        .iter()
        .map(|entry| entry.config.domain.0 as u16)
        .collect(alloc)
}

// Whether each of a domain's sites is one of the document's.
fn are_listed(domain: &DomainEntry, sites: &[SiteAddress]) -> bool
    ensures { result ≡ are_listed domain.now sites.now }
{
    domain
        .config
        .sites
        .as_slice()
        .iter()
        .all(|site| is_listed(*site, sites))
}

// Whether a site is one of the domain's.
fn is_at(domain: &DomainEntry, site: SiteNo) -> bool
    ensures { result ≡ is_at site domain.now }
{
    domain
        .config
        .sites
        .as_slice()
        .iter()
        .any(|own| *own == site)
}

// Whether a domain's sites are in the document, and its home is one of them.
#[tactic(auto, unfolding(crate::specs::Documents::placed))]
fn check_sites(domain: &DomainEntry, sites: &[SiteAddress]) -> Result<(), ConfigFault>
    ensures { result ≡ placed sites.now domain.now }
{
    if !are_listed(domain, sites) {
        return Err(fault(Field::Sites, Cause::NotListed));
    }
    if is_at(domain, domain.config.home) {
        Ok(())
    } else {
        Err(fault(Field::Home, Cause::NotListed))
    }
}

// The same of each domain.
fn check_all_sites(domains: &[DomainEntry], sites: &[SiteAddress]) -> Result<(), ConfigFault>
    ensures { result ≡ all_pass (placed sites.now) domains.now }
{
    for domain in domains {
        check_sites(domain, sites)?;
    }
    Ok(())
}

// The domains, if their numbers are all different and each is placed.
#[tactic(auto, unfolding(crate::specs::Documents::checked_domains))]
fn checked_domains(
    alloc: Global,
    domains: List<DomainEntry>,
    sites: &[SiteAddress],
) -> Result<List<DomainEntry>, ConfigFault>
    ensures { Gives result (checked_domains sites.now domains) }
{
    let numbers = numbers_of(alloc, domains.as_slice())?;
    if !are_distinct(&numbers) {
        return Err(fault(Field::Number, Cause::Repeated));
    }
    check_all_sites(domains.as_slice(), sites)?;
    Ok(domains)
}

/// The domains of a document with these sites, from their tables.
#[tactic(auto, unfolding(crate::specs::Documents::domains_of))]
pub fn domains_of(
    alloc: Global,
    tables: &[&Table],
    sites: &[SiteAddress],
) -> Result<List<DomainEntry>, ConfigFault>
    ensures { Gives result (domains_of sites.now (map (λ t. table_view t.now) tables.now)) }
{
    let domains = all_domains(alloc, tables)?;
    checked_domains(alloc, domains, sites)
}

/// Of these domains those that a site has.
pub fn own_domains(
    alloc: Global,
    domains: List<DomainEntry>,
    own: SiteNo,
) -> Result<List<DomainEntry>, NoMemory>
    ensures { IfOk result (λ kept. kept ≡ own_domains own domains) }
{
    let mut kept = List::new(alloc);
    for domain in domains.into_vec() {
        if is_at(&domain, own) {
            kept.push(domain)?;
        }
    }
    Ok(kept)
}
