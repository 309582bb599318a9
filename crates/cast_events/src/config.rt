ghost use Rattle.std.specs.Prelude.{◌≡◌, IfOk};

use cast_quota::Quotas;
use cast_types::{DomainNo, GroupNo, List, NoMemory, SiteNo};

/// A domain as it is configured: one tenant, with its own sites, groups and home.
#[derive(Drop)]
pub struct DomainConfig {
    pub domain: DomainNo,
    /// The site that decides the views of the domain's groups, one of `sites`.
    pub home: SiteNo,
    /// 1 to 16, rising.
    pub sites: List<SiteNo>,
    /// 1 to 32, rising.
    pub groups: List<GroupNo>,
    /// What it may use before its first event.
    pub quotas: Quotas,
}

impl DomainConfig {
    /// The same configuration once more.
    pub fn copy(&self) -> Result<Self, NoMemory>
        ensures { IfOk result (λ copy. copy ≡ self.now) }
    {
        Ok(DomainConfig {
            domain: self.domain,
            home: self.home,
            sites: self.sites.copy()?,
            groups: self.groups.copy()?,
            quotas: self.quotas,
        })
    }
}

/// A daemon as it is configured: its own site, and its domains in the order of their file.
#[derive(Drop)]
pub struct Config {
    pub site: SiteNo,
    pub domains: List<DomainConfig>,
}
