ghost use Rattle.std.specs.Prelude.{◌≡◌, IfOk, map};
ghost use Rattle.toml.specs.View.{table_view};
ghost use Rattle.cast_script.specs.WordReadings.{each};
ghost use Rattle.cast_config.specs.Faults.{Gives};
ghost use Rattle.cast_config.specs.Entries.{site_of};
ghost use Rattle.cast_config.specs.Documents.{checked_sites, is_listed, site_numbers, sites_of};

use crate::fault::{Cause, ConfigFault, Field};
use crate::fields::{are_distinct, boolean_at, fault, number_at, text_at};
use crate::text::Text;
use cast_types::{List, NoMemory, SiteNo};
use std::alloc::Global;
use toml::Table;

/// A site of the document.
#[derive(Drop)]
pub struct SiteAddress {
    pub site: SiteNo,
    /// `host:port`, as it stands there: it is resolved when the daemon starts.
    pub address: Text,
    /// Whether its frames come behind seals, where the other site is sealed too.
    pub is_sealed: bool,
}

// What the table of a site says.
#[tactic(auto, unfolding(crate::specs::Entries::site_of))]
fn site_of(alloc: Global, table: &Table) -> Result<SiteAddress, ConfigFault>
    ensures { Gives result (site_of (table_view table.now)) }
{
    let number = number_at(table, Field::Number, 1, 65_535)?;
    let address = text_at(table, Field::Address)?;
    let is_sealed = boolean_at(table, Field::Sealed)?;
    Ok(SiteAddress {
        site: SiteNo(number as u16),
        address: Text::copy_of(alloc, address)?,
        is_sealed,
    })
}

// What the tables of sites say, in their order.
fn all_sites(alloc: Global, tables: &[&Table]) -> Result<List<SiteAddress>, ConfigFault>
    ensures { Gives result (each site_of (map (λ t. table_view t.now) tables.now)) }
{
    let mut sites = List::new(alloc);
    for table in tables {
        sites.push(site_of(alloc, table)?)?;
    }
    Ok(sites)
}

/// Whether a site is one of these.
pub fn is_listed(site: SiteNo, sites: &[SiteAddress]) -> bool
    ensures { result ≡ is_listed site sites.now }
{
    sites.iter().any(|listed| listed.site == site)
}

// The numbers of sites.
fn numbers_of(alloc: Global, sites: &[SiteAddress]) -> Result<Vec<u16>, NoMemory>
    ensures { IfOk result (λ numbers. numbers.items ≡ site_numbers sites.now) }
{
    sites.iter().map(|listed| listed.site.0).collect(alloc)
}

// The sites, if their numbers are all different and the given one is among them.
#[tactic(auto, unfolding(crate::specs::Documents::checked_sites))]
fn checked_sites(
    alloc: Global,
    sites: List<SiteAddress>,
    own: SiteNo,
) -> Result<List<SiteAddress>, ConfigFault>
    ensures { Gives result (checked_sites own sites) }
{
    let numbers = numbers_of(alloc, sites.as_slice())?;
    if !are_distinct(&numbers) {
        return Err(fault(Field::Number, Cause::Repeated));
    }
    if is_listed(own, sites.as_slice()) {
        Ok(sites)
    } else {
        Err(fault(Field::Site, Cause::NotListed))
    }
}

/// The sites of a document, of which the given one has to be one, from their tables.
#[tactic(auto, unfolding(crate::specs::Documents::sites_of))]
pub fn sites_of(
    alloc: Global,
    tables: &[&Table],
    own: SiteNo,
) -> Result<List<SiteAddress>, ConfigFault>
    ensures { Gives result (sites_of own (map (λ t. table_view t.now) tables.now)) }
{
    let sites = all_sites(alloc, tables)?;
    checked_sites(alloc, sites, own)
}
