ghost use Rattle.std.specs.Prelude.{◌≡◌, ◌&&◌, IfOk};
ghost use Rattle.std.specs.List.{list_all};
ghost use Rattle.std.specs.Ordering.{is_lt};
ghost use Rattle.cast_types.specs.Names.{group_cmp};
ghost use Rattle.cast_types.specs.Rising.{is_rising};
ghost use Rattle.cast_table.specs.Owns.{are_distinct, have_rising_groups, is_configured};

use cast_events::{Config, DomainConfig};
use cast_types::{DomainNo, GroupNo, List, NoMemory};
use std::alloc::Global;

/// Whether a table of this configuration can be kept: no two domains have one number, and each
/// names its groups in rising order.
pub fn can_keep(config: &Config) -> bool
    ensures { result ≡ are_distinct config.now.domains && have_rising_groups config.now.domains }
{
    let domains = config.domains.as_slice();
    are_distinct(domains) && have_rising_groups(domains)
}

// The same configuration once more.
pub(crate) fn copy_config(alloc: Global, config: &Config) -> Result<Config, NoMemory>
    ensures { IfOk result (λ copy. copy ≡ config.now) }
{
    Ok(Config {
        site: config.site,
        domains: List::from_vec(copy_domains(alloc, config.domains.as_slice())?),
    })
}

// The same domains once more.
fn copy_domains(alloc: Global, configs: &[DomainConfig]) -> Result<Vec<DomainConfig>, NoMemory>
    ensures { IfOk result (λ copy. copy.items ≡ configs.now) }
{
    let mut copied = Vec::new(alloc);
    for config in configs {
        copied.push(config.copy()?)?;
    }
    Ok(copied)
}

// Whether no two domains have one number.
fn are_distinct(configs: &[DomainConfig]) -> bool
    ensures { result ≡ are_distinct configs.now }
{
    match configs.split_first() {
        Some((first, rest)) => !is_configured(first.domain, rest) && are_distinct(rest),
        None => true,
    }
}

// Whether a domain of a number is among these.
fn is_configured(number: DomainNo, configs: &[DomainConfig]) -> bool
    ensures { result ≡ is_configured number configs.now }
{
    configs.iter().any(|config| config.domain == number)
}

// Whether each names its groups in rising order.
fn have_rising_groups(configs: &[DomainConfig]) -> bool
    ensures { result ≡ have_rising_groups configs.now }
{
    configs
        .iter()
        .all(|config| is_rising(config.groups.as_slice()))
}

// Whether each group is below all that come after it.
fn is_rising(groups: &[GroupNo]) -> bool
    ensures { result ≡ is_rising group_cmp groups.now }
{
    match groups.split_first() {
        Some((first, rest)) => is_below(*first, rest) && is_rising(rest),
        None => true,
    }
}

// Whether a group is below all of these.
fn is_below(group: GroupNo, groups: &[GroupNo]) -> bool
    ensures { result ≡ list_all (λ g. is_lt (group_cmp group g)) groups.now }
{
    groups.iter().all(|other| group < *other)
}
