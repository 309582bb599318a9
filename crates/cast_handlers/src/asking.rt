ghost use Rattle.std.specs.Prelude.{◌≡◌, ◌<◌, ◌==◌};
ghost use Rattle.cast_types.specs.Names.{site_eq};
ghost use Rattle.cast_rules.specs.Rules.Asking.{is_from_home};

use cast_domain::Domain;
use cast_types::SiteNo;

// Whether a site is the one of the domain's home.
pub(crate) fn is_from_home(domain: &Domain, site: SiteNo) -> bool
    ensures { result ≡ site_eq site domain.now.config.home }
{
    site == domain.config.home
}
