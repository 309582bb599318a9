ghost use Rattle.std.specs.Prelude.{◌≡◌, IfOk, OnOk, OnErr};
ghost use Rattle.std.specs.List.{list_any};
ghost use Rattle.cast_types.specs.Names.{site_cmp, site_eq};
ghost use Rattle.cast_types.specs.Sets.{with_item, with_items, without, apart_from, is_among};
ghost use Rattle.cast_view.specs.Sites.{sites_of, other_sites, is_at, local_view};

use cast_message::Membership;
use cast_types::{List, NoMemory, Proc, SiteNo, sorted};
use std::alloc::Global;

/// Whether a site is one of these.
pub fn is_among(site: SiteNo, sites: &[SiteNo]) -> bool
    ensures { result ≡ is_among site_eq site sites.now }
{
    sites.iter().any(|other| site == *other)
}

/// The sites of processes, each once, in rising order.
pub fn sites_of(alloc: Global, processes: &[Proc]) -> Result<List<SiteNo>, NoMemory>
    ensures { IfOk result (λ l. l ≡ sites_of processes.now) }
{
    let mut sites = Vec::new(alloc);
    for process in processes {
        insert_site(&mut sites, process.site)?;
    }
    Ok(List::from_vec(sites))
}

/// The sites of processes but for one site, each once, in rising order.
pub fn other_sites(
    alloc: Global,
    site: SiteNo,
    processes: &[Proc],
) -> Result<List<SiteNo>, NoMemory>
    ensures { IfOk result (λ l. l ≡ other_sites site processes.now) }
{
    let sites = sites_of(alloc, processes)?;
    Ok(sites_without(sites, site))
}

/// A view, where a member of it is at this site.
pub fn local_view(here: SiteNo, members: &Membership) -> Result<Option<Membership>, NoMemory>
    ensures { IfOk result (λ v. v ≡ local_view here members.now) }
{
    if has_local(here, members.list()) {
        Ok(Some(members.copy()?))
    } else {
        Ok(None)
    }
}

// Whether one of these processes is at this site.
fn has_local(here: SiteNo, processes: &[Proc]) -> bool
    ensures { result ≡ list_any (is_at here) processes.now }
{
    processes.iter().any(|process| process.site == here)
}

/// The sites of processes, and other sites, each once, in rising order.
pub(crate) fn sites_and(
    alloc: Global,
    processes: &[Proc],
    others: &[SiteNo],
) -> Result<List<SiteNo>, NoMemory>
    ensures { IfOk result (λ l. l ≡ with_items site_cmp (sites_of processes.now) others.now) }
{
    let mut sites = sites_of(alloc, processes)?.into_vec();
    for site in others {
        insert_site(&mut sites, *site)?;
    }
    Ok(List::from_vec(sites))
}

/// The sites that are not among the others.
pub(crate) fn apart_from(sites: List<SiteNo>, others: &[SiteNo]) -> List<SiteNo>
    ensures { result ≡ apart_from site_eq sites others.now }
{
    let mut rest = sites.into_vec();
    rest.retain(|site| !is_among(*site, others));
    List::from_vec(rest)
}

/// The sites but for one.
pub(crate) fn sites_without(sites: List<SiteNo>, site: SiteNo) -> List<SiteNo>
    ensures { result ≡ without site_eq site sites }
{
    let mut rest = sites.into_vec();
    rest.retain(|other| !(site == *other));
    List::from_vec(rest)
}

/// Adds a site to a set that stands in rising order, where it lacks it. `NoMemory` changes nothing.
pub(crate) fn insert_site(sites: &mut Vec<SiteNo>, site: SiteNo) -> Result<(), NoMemory>
    ensures ok { OnOk result (sites.new.items ≡ with_item site_cmp site sites.old.items) }
    ensures err { OnErr result (sites.new.items ≡ sites.old.items) }
{
    sorted::insert(sites, site)?;
    Ok(())
}
