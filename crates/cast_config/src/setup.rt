ghost use Rattle.std.specs.Prelude.{◌≡◌, IfOk, map};
ghost use Rattle.toml.specs.View.{table_view, view};
ghost use Rattle.toml.specs.Parse.{parse_document};
ghost use Rattle.cast_script.specs.WordReadings.{each};
ghost use Rattle.cast_config.specs.Faults.{Gives, GivesAs};
ghost use Rattle.cast_config.specs.Fields.{table_of};
ghost use Rattle.cast_config.specs.Documents.{configs_of, document_gives, given, document_or_fault};
ghost use Rattle.cast_config.specs.Documents.{setup_of, sockets_of, tables_at, tables_give};

use crate::domains::{DomainEntry, domains_of, own_domains};
use crate::fault::{Cause, ConfigFault, Field};
use crate::fields::{check_count, fault, items_of, require, table_of};
use crate::network::network_at;
use crate::sites::{SiteAddress, sites_of};
use crate::text::Text;
use cast_events::{Config, DomainConfig};
use cast_types::limits::MAX_DOMAINS;
use cast_types::{DomainNo, List, NoMemory, SiteNo};
use std::alloc::Global;
use toml::{Table, Value};

/// The socket of a domain.
#[derive(Drop)]
pub struct DomainSocket {
    pub domain: DomainNo,
    /// The path of its file.
    pub path: Text,
}

/// What a daemon is to be at a site.
#[derive(Drop)]
pub struct Setup {
    /// The site, and its domains in the order of the document.
    pub config: Config,
    /// The address of each site of the document, in its order.
    pub addresses: List<SiteAddress>,
    /// The socket of each domain of the configuration, in the same order.
    pub sockets: List<DomainSocket>,
    /// The most bytes of a bundle, if frames are to share datagrams.
    pub bundle: Option<u32>,
    /// For how many microseconds messages may queue on their way to other sites before the programs
    /// of a domain wait. 0 if that is not looked at.
    pub delay: u32,
}

// Values that are tables.
fn all_tables<'a>(
    alloc: Global,
    items: &'a [Value],
    field: Field,
) -> Result<Vec<&'a Table>, ConfigFault>
    ensures { GivesAs (λ tables. map (λ t. table_view t.now) tables.items)
        result (each (table_of field) (map view items.now)) }
{
    let mut tables = Vec::new(alloc);
    for item in items {
        tables.push(table_of(item, field)?)?;
    }
    Ok(tables)
}

/// The tables of the array at a field of the document.
#[tactic(auto, unfolding(crate::specs::Documents::tables_at))]
pub fn tables_at<'a>(
    alloc: Global,
    document: &'a Table,
    field: Field,
) -> Result<Vec<&'a Table>, ConfigFault>
    ensures { GivesAs (λ tables. map (λ t. table_view t.now) tables.items)
        result (tables_at field (table_view document.now)) }
{
    all_tables(alloc, items_of(require(document, field)?, field)?, field)
}

/// The document that a text is.
pub fn document(alloc: Global, text: &str) -> Result<Table, ConfigFault>
    ensures { GivesAs (λ table. table_view table)
        result (document_or_fault (parse_document text.now)) }
{
    match toml::table_from_str(alloc, text) {
        Ok(table) => Ok(table),
        Err(error) if error.is_memory() => Err(fault(Field::Text, Cause::NoMemory)),
        Err(_) => Err(fault(Field::Text, Cause::NotToml)),
    }
}

// The configurations of domains.
fn configs_of(alloc: Global, domains: &[DomainEntry]) -> Result<List<DomainConfig>, NoMemory>
    ensures { IfOk result (λ configs. configs ≡ configs_of domains.now) }
{
    let mut configs = List::new(alloc);
    for domain in domains {
        configs.push(domain.config.copy()?)?;
    }
    Ok(configs)
}

// The sockets of domains.
fn sockets_of(alloc: Global, domains: &[DomainEntry]) -> Result<List<DomainSocket>, NoMemory>
    ensures { IfOk result (λ sockets. sockets ≡ sockets_of domains.now) }
{
    let mut sockets = List::new(alloc);
    for domain in domains {
        sockets.push(DomainSocket {
            domain: domain.config.domain,
            path: Text::copy_of(alloc, domain.socket.as_str())?,
        })?;
    }
    Ok(sockets)
}

// The set-up of a site with these domains, of which there have to be some, and with the network of
// the document.
#[tactic(auto, unfolding(crate::specs::Documents::given))]
fn build_setup(
    alloc: Global,
    own: SiteNo,
    document: &Table,
    addresses: List<SiteAddress>,
    domains: &[DomainEntry],
) -> Result<Setup, ConfigFault>
    ensures { Gives result (given own (table_view document.now) addresses domains.now) }
{
    if domains.is_empty() {
        return Err(fault(Field::Domain, Cause::Range));
    }
    let network = network_at(document)?;
    Ok(Setup {
        config: Config {
            site: own,
            domains: configs_of(alloc, domains)?,
        },
        addresses,
        sockets: sockets_of(alloc, domains)?,
        bundle: network.bundle,
        delay: network.delay,
    })
}

// The set-up that these tables of sites and of domains, and the network of their document, give a
// site.
#[tactic(auto, unfolding(crate::specs::Documents::tables_give))]
fn tables_give(
    alloc: Global,
    own: SiteNo,
    document: &Table,
    site_tables: &[&Table],
    domain_tables: &[&Table],
) -> Result<Setup, ConfigFault>
    ensures { Gives result
        (tables_give own (table_view document.now) (map (λ t. table_view t.now) site_tables.now)
        (map (λ t. table_view t.now) domain_tables.now)) }
{
    let sites = sites_of(alloc, site_tables, own)?;
    check_count(domain_tables.len(), Field::Domain, MAX_DOMAINS)?;
    let domains = domains_of(alloc, domain_tables, sites.as_slice())?;
    let domains = own_domains(alloc, domains, own)?;
    build_setup(alloc, own, document, sites, domains.as_slice())
}

// The set-up that a document gives a site.
#[tactic(auto, unfolding(crate::specs::Documents::document_gives))]
fn document_gives(alloc: Global, own: SiteNo, document: &Table) -> Result<Setup, ConfigFault>
    ensures { Gives result (document_gives own (table_view document.now)) }
{
    let sites = tables_at(alloc, document, Field::Site)?;
    let domains = tables_at(alloc, document, Field::Domain)?;
    tables_give(alloc, own, document, &sites, &domains)
}

/// Reads the configuration of a daemon at a site from the text of a TOML document.
///
/// The fault is the first of the tests in this order: the text; `site` and then `domain`, each an
/// array of tables; of each `site` its `number` and `address`; that their numbers are all
/// different, and the given site is among them; that there are 1 to 16 domains; of each `domain`
/// its `number`, `home`, `sites`, `groups` and `socket`, and `sessions`, `held`, `outbox` and
/// `resend` where it has them; that their numbers are all different; of each domain that its sites
/// are in the document and its home is one of them; that the given site has a domain; that
/// `network`, where the document has it, is a table, and of it `bundle`, `datagram` and `delay`
/// where it has them. A domain that the site has not is left out. `NoMemory` comes where an
/// allocation was refused, and says nothing of the text.
#[tactic(auto, unfolding(crate::specs::Documents::setup_of))]
pub fn read(alloc: Global, text: &str, site: SiteNo) -> Result<Setup, ConfigFault>
    // Which set-up, or the first fault.
    ensures exact { Gives result (setup_of site text.now) }
{
    document_gives(alloc, site, &document(alloc, text)?)
}
