ghost use Rattle.std.specs.Prelude.{◌≡◌, ◌++◌, OnOk, OnErr, map};
ghost use Rattle.std.specs.String.{string_bytes};
ghost use Rattle.cast_print.specs.Scripts.{domain_text, head_text, numbers_text};

use cast_events::{Config, DomainConfig};
use cast_quota::Quotas;
use cast_types::{GroupNo, NoMemory, SiteNo};
use std::alloc::Global;

/// Adds the lines of a configuration: the `site` line, and a `domain` line for each domain.
/// `NoMemory` changes nothing.
pub fn add_head(alloc: Global, text: &mut String, config: &Config) -> Result<(), NoMemory>
    ensures ok { OnOk result
        (string_bytes text.new ≡ string_bytes text.old ++ head_text config.now) }
    ensures err { OnErr result (string_bytes text.new ≡ string_bytes text.old) }
{
    let mut lines = String::new(alloc);
    let site = config.site.0;
    writeln!(lines, "site {site}")?;
    for domain in config.domains.as_slice() {
        put_domain(alloc, &mut lines, domain)?;
    }
    text.push_str(lines.as_str())
}

// `domain 1 home 1 sites 1,2 groups 1 quotas 16 256 256 200`
fn put_domain(alloc: Global, text: &mut String, config: &DomainConfig) -> Result<(), NoMemory>
    ensures { OnOk result
        (string_bytes text.new ≡ string_bytes text.old ++ domain_text config.now) }
{
    let domain = config.domain.0;
    let home = config.home.0;
    write!(text, "domain {domain} home {home} sites ")?;
    put_sites(alloc, text, config.sites.as_slice())?;
    text.push_str(" groups ")?;
    put_groups(alloc, text, config.groups.as_slice())?;
    let Quotas {
        sessions,
        held,
        outbox,
        resend,
    } = config.quotas;
    writeln!(text, " quotas {sessions} {held} {outbox} {resend}")
}

fn put_sites(alloc: Global, text: &mut String, sites: &[SiteNo]) -> Result<(), NoMemory>
    ensures { OnOk result
        (string_bytes text.new ≡ string_bytes text.old ++ numbers_text (map (λ s. s.0) sites.now)) }
{
    let numbers: Vec<u16> = sites.iter().map(|site| site.0).collect(alloc)?;
    put_numbers(text, &numbers)
}

fn put_groups(alloc: Global, text: &mut String, groups: &[GroupNo]) -> Result<(), NoMemory>
    ensures { OnOk result (string_bytes text.new
        ≡ string_bytes text.old ++ numbers_text (map (λ g. g.0) groups.now)) }
{
    let numbers: Vec<u16> = groups.iter().map(|group| group.0).collect(alloc)?;
    put_numbers(text, &numbers)
}

// `1,2,3`
fn put_numbers(text: &mut String, numbers: &[u16]) -> Result<(), NoMemory>
    ensures { OnOk result
        (string_bytes text.new ≡ string_bytes text.old ++ numbers_text numbers.now) }
{
    let [first, others @ ..] = numbers else {
        return Ok(());
    };
    write!(text, "{first}")?;
    for number in others {
        write!(text, ",{number}")?;
    }
    Ok(())
}
