ghost use Rattle.std.specs.Prelude.{◌≡◌, ◌<◌, ◌&&◌, ◌==◌, OnOk, vec_len, not};
ghost use Rattle.cast_types.specs.Sets.{is_among};
ghost use Rattle.cast_rules.specs.Rules.Home.{want_eq, wants, drop_want, drop_wants};
ghost use Rattle.cast_rules.specs.Rules.Home.{release_site, suspect, suspect_in};
ghost use Rattle.cast_domain.specs.Records.{GivesBack, KeepsBeside, Makes};
ghost use Rattle.cast_domain.specs.Calls.{records};
ghost use Rattle.std.specs.List.{fold};
ghost use Rattle.cast_rules.specs.Rules.Keys.{home_key, want_key};

use cast_domain::Domain;
use cast_domain::keys::{home_key, want_key};
use cast_domain::lent::Lent;
use cast_domain::record::suspect_at;
use cast_timer::OwedKind;
use cast_types::{NoMemory, Proc, SiteNo};
use cast_view::is_among;

// A site is suspected: at the home nothing is awaited from it any more.
pub fn suspect(domain: &mut Domain, site: SiteNo, lent: &mut Lent<'_>) -> Result<(), NoMemory>
    ensures stays { KeepsBeside domain.old lent.old domain.new lent.new }
    ensures made { OnOk result
        (Makes (λ r. suspect records r site) domain.old lent.old domain.new lent.new) }
{
    if domain.is_home() {
        for place in 0..domain.groups.len() {
            suspect_in(domain, place, site, lent)?;
        }
    }
    Ok(())
}

// At the home of the group at a place a site is suspected, and what is not wanted without it is
// owed no more.
fn suspect_in(
    domain: &mut Domain,
    place: usize,
    site: SiteNo,
    lent: &mut Lent<'_>,
) -> Result<(), NoMemory>
    requires { place < vec_len domain.old.groups }
    ensures stays { KeepsBeside domain.old lent.old domain.new lent.new }
    ensures made { OnOk result
        (Makes (λ r. suspect_in records site r place) domain.old lent.old domain.new lent.new) }
    ensures len { vec_len domain.new.groups ≡ vec_len domain.old.groups }
{
    let wanted = domain.wants(place)?;
    release_site(domain, place, site, lent);
    suspect_at(&mut domain.groups, place, site)?;
    drop_wants(domain, place, wanted.as_slice(), lent)?;
    Ok(())
}

// Prepare and Install are owed to a site no more.
fn release_site(domain: &Domain, place: usize, site: SiteNo, lent: &mut Lent<'_>)
    requires { place < vec_len domain.now.groups }
    ensures back { GivesBack domain.now.config.domain lent.old lent.new }
    ensures made { Makes (λ r. release_site records r place site)
        domain.now lent.old domain.now lent.new }
{
    let group = domain.record(place).name;
    domain.pay(&home_key(OwedKind::Prepare, group, site), lent);
    domain.pay(&home_key(OwedKind::Install, group, site), lent);
}

// Of messages that were wanted, those that are not any more are owed no more.
fn drop_wants(
    domain: &Domain,
    place: usize,
    before: &[(SiteNo, (Proc, u32))],
    lent: &mut Lent<'_>,
) -> Result<(), NoMemory>
    requires { place < vec_len domain.now.groups }
    ensures back { GivesBack domain.now.config.domain lent.old lent.new }
    ensures made { OnOk result (Makes (λ r. drop_wants records r place before.now)
        domain.now lent.old domain.now lent.new) }
{
    let still = domain.wants(place)?;
    drop_all(domain, place, still.as_slice(), before, lent);
    Ok(())
}

// Of messages that were wanted, those that are not among these are owed no more.
fn drop_all(
    domain: &Domain,
    place: usize,
    still: &[(SiteNo, (Proc, u32))],
    before: &[(SiteNo, (Proc, u32))],
    lent: &mut Lent<'_>,
)
    requires { place < vec_len domain.now.groups }
    ensures back { GivesBack domain.now.config.domain lent.old lent.new }
    ensures made { Makes (λ r. fold (drop_want records place still.now) r before.now)
        domain.now lent.old domain.now lent.new }
{
    for wanted in before {
        drop_want(domain, place, still, *wanted, lent);
    }
}

// A message that was wanted is owed no more, unless it is among these.
fn drop_want(
    domain: &Domain,
    place: usize,
    still: &[(SiteNo, (Proc, u32))],
    wanted: (SiteNo, (Proc, u32)),
    lent: &mut Lent<'_>,
)
    requires { place < vec_len domain.now.groups }
    ensures back { GivesBack domain.now.config.domain lent.old lent.new }
    ensures made { Makes (λ r. drop_want records place still.now r wanted)
        domain.now lent.old domain.now lent.new }
{
    if !is_wanted(wanted, still) {
        domain.pay(&want_key(domain.record(place).name, wanted), lent);
    }
}

// Whether a message is among those that are wanted, from the same site.
fn is_wanted(wanted: (SiteNo, (Proc, u32)), wants: &[(SiteNo, (Proc, u32))]) -> bool
    ensures { result ≡ is_among want_eq wanted wants.now }
{
    wants
        .iter()
        .any(|other| wanted.0 == other.0 && wanted.1 == other.1)
}
