ghost use Rattle.std.specs.Prelude.{◌≡◌, ◌==◌, ◌<◌, true, false, OnOk, vec_len, ◌&&◌, ◌||◌, not};
ghost use Rattle.std.specs.List.{list_any};
ghost use Rattle.cast_view.specs.Sites.{is_at};
ghost use Rattle.cast_domain.specs.Records.{KeepsBeside, Makes};
ghost use Rattle.cast_domain.specs.Calls.{records, on_install_in};
ghost use Rattle.cast_view.specs.declared.member.Verdict.TheVariants.{Pends};
ghost use Rattle.cast_rules.specs.Rules.Asking.{is_from_home, request};
ghost use Rattle.cast_rules.specs.Rules.Views.{change_view, on_out};

use crate::asking::is_from_home;
use crate::flushes::pend;
use cast_domain::Domain;
use cast_domain::lent::Lent;
use cast_message::{Membership, SiteFrame, Tail};
use cast_types::{Counts, NoMemory, Proc, SiteNo};
use cast_view::Verdict;

// Install: answered again where the site knows its number; else completed where the site has no
// view, and where it skips a view. The Install of the next view of a site that has one waits,
// unless one does.
pub(crate) fn on_install(
    domain: &mut Domain,
    place: usize,
    from: SiteNo,
    view: u32,
    members: &Membership,
    request: u32,
    cut: &Counts,
    tail: &Tail,
    lent: &mut Lent<'_>,
) -> Result<(), NoMemory>
    requires { place < vec_len domain.old.groups }
    ensures stays { KeepsBeside domain.old lent.old domain.new lent.new }
    ensures made { OnOk result
        (Makes (λ r. on_install_in r place from view members.now request cut.now tail.now)
        domain.old lent.old domain.new lent.new) }
{
    if !is_from_home(domain, from) {
        return Ok(());
    }
    match domain.record(place).here.verdict(view) {
        Verdict::Again => {
            let group = domain.record(place).name;
            domain.send(lent.outs, from, SiteFrame::Installed { group, view })?;
        }
        Verdict::Skips => {
            domain.install_view(true, place, from, view, members, request, lent)?;
        }
        Verdict::Completes => {
            domain.install_view(false, place, from, view, members, request, lent)?;
        }
        Verdict::Pends => pend(domain, place, view, members, request, cut, tail)?,
        Verdict::Ignored => {}
    }
    Ok(())
}

// Out: a view of the group at a place has no member here. It counts where the site has not reached
// its number: then the members here are put out.
pub(crate) fn on_out(
    domain: &mut Domain,
    place: usize,
    view: u32,
    lent: &mut Lent<'_>,
) -> Result<(), NoMemory>
    requires { place < vec_len domain.old.groups }
    ensures stays { KeepsBeside domain.old lent.old domain.new lent.new }
    ensures made { OnOk result
        (Makes (λ r. on_out records r place view) domain.old lent.old domain.new lent.new) }
{
    if domain.record(place).here.number() < view {
        let nobody = Membership::new(*domain.groups.allocator());
        domain.change_view(true, place, view, &nobody, 0, lent)?;
    }
    Ok(())
}

// Whether one of these processes is at a site.
pub(crate) fn is_at(site: SiteNo, members: &[Proc]) -> bool
    ensures { result ≡ list_any (is_at site) members.now }
{
    members.iter().any(|member| member.site == site)
}
