ghost use Rattle.std.specs.Prelude.{◌≡◌, ◌<◌, true, IfOk, IfSome, OnOk, map, vec_len, length};
ghost use Rattle.std.specs.List.{position};
ghost use Rattle.cast_types.specs.Names.{group_eq};
ghost use Rattle.cast_types.specs.Places.{update};
ghost use Rattle.cast_view.specs.MemberSide.{answers_prepare, frozen_side, verdict_of};
ghost use Rattle.cast_view.specs.MemberSide.{with_answer, with_request, with_view};
ghost use Rattle.cast_view.specs.declared.member.Verdict.TheVariants.{Pends};
ghost use Rattle.cast_view.specs.Home.{answer_to, may_decide};
ghost use Rattle.cast_view.specs.Home.HomeMove.{Asked, Brought, Decided, Installed};
ghost use Rattle.cast_view.specs.Home.HomeMove.{Reported, Started, Suspected};
ghost use Rattle.cast_domain.specs.PartCalls.{moved_home, record_at, with_first_home};
ghost use Rattle.cast_domain.specs.FlushCalls.{pending_of, with_install};

use cast_flush::Report;
use cast_message::{Change, Membership, Message};
use cast_types::{Counts, GroupNo, NoMemory, Proc, SiteNo};
use cast_view::{HomeSide, MemberSide};
use std::alloc::Global;

/// What a domain keeps of a group: the site's side, and, at the home's site, the home's.
#[derive(Drop)]
pub struct GroupRecord {
    pub name: GroupNo,
    pub here: MemberSide,
    pub home: HomeSide,
}

impl GroupRecord {
    /// An equal value.
    pub fn copy(&self) -> Result<Self, NoMemory>
        ensures { IfOk result (λ copy. copy ≡ self.now) }
    {
        Ok(GroupRecord {
            name: self.name,
            here: self.here.copy()?,
            home: self.home.copy()?,
        })
    }
}

/// What is kept of groups, copied.
pub fn copy_groups(alloc: Global, groups: &[GroupRecord]) -> Result<Vec<GroupRecord>, NoMemory>
    ensures { IfOk result (λ copy. copy.items ≡ groups.now) }
{
    let mut copied = Vec::with_capacity(alloc, groups.len())?;
    for group in groups {
        copied.push(group.copy()?)?;
    }
    Ok(copied)
}

/// Drops what the homes of all groups keep: no view, no changes and no flush.
pub fn drop_homes(groups: &mut Vec<GroupRecord>)
    ensures { groups.new.items ≡ map with_first_home groups.old.items }
{
    let alloc = *groups.allocator();
    for group in groups.iter_mut() {
        group.home = HomeSide::new(alloc);
    }
}

/// Where a group stands.
pub fn place_among(groups: &[GroupRecord], group: GroupNo) -> Option<usize>
    ensures place { result ≡ position (λ x. group_eq x.name group) groups.now }
    ensures within { IfSome result (λ i. i < length groups.now) }
{
    groups.iter().position(|known| known.name == group)
}

/// Queues a request at the group of a place.
#[tactic(auto, using(cast_types::proofs::Updates::set_update))]
pub fn ask_at(
    groups: &mut Vec<GroupRecord>,
    place: usize,
    change: Change,
    process: Proc,
) -> Result<(), NoMemory>
    requires placed { place < vec_len groups.old }
    requires numbered { (record_at groups.old.items place).here.asked < 4294967295 }
    ensures items { OnOk result (groups.new.items ≡ update groups.old.items place
        (λ x. record x { here = with_request x.here change process })) }
    ensures len { vec_len groups.new ≡ vec_len groups.old }
{
    let record = &mut groups[place];
    record.here.ask(change, process)
}

/// Takes the first request of the group of a place off: it is answered.
#[tactic(auto, using(cast_types::proofs::Updates::set_update))]
pub fn answer_at(groups: &mut Vec<GroupRecord>, place: usize)
    requires { place < vec_len groups.old }
    ensures items { groups.new.items
        ≡ update groups.old.items place (λ x. record x { here = with_answer x.here }) }
    ensures len { vec_len groups.new ≡ vec_len groups.old }
{
    let record = &mut groups[place];
    record.here.take_answer();
}

/// Freezes the group of a place: the home asks what the site has of its view.
#[tactic(auto, using(cast_types::proofs::Updates::set_update))]
pub fn freeze_at(groups: &mut Vec<GroupRecord>, place: usize, view: u32)
    requires placed { place < vec_len groups.old }
    requires answered { answers_prepare (record_at groups.old.items place).here view ≡ true }
    ensures items { groups.new.items
        ≡ update groups.old.items place (λ x. record x { here = frozen_side x.here }) }
    ensures len { vec_len groups.new ≡ vec_len groups.old }
{
    let record = &mut groups[place];
    record.here.prepare(view);
}

/// Lets an Install wait at the group of a place, where it is to wait.
#[tactic(auto, using(cast_types::proofs::Updates::set_update))]
pub fn pend_at(
    groups: &mut Vec<GroupRecord>,
    place: usize,
    number: u32,
    members: &Membership,
    request: u32,
    cut: &Counts,
) -> Result<(), NoMemory>
    requires placed { place < vec_len groups.old }
    requires waits { verdict_of (record_at groups.old.items place).here number ≡ Pends }
    ensures items { OnOk result (groups.new.items
        ≡ update groups.old.items place (with_install (pending_of members.now request cut.now))) }
    ensures len { vec_len groups.new ≡ vec_len groups.old }
{
    let record = &mut groups[place];
    record.here.install(number, members, request, cut)?;
    Ok(())
}

/// Takes over a view at the group of a place.
#[tactic(auto, using(cast_types::proofs::Updates::set_update))]
pub fn view_at(
    groups: &mut Vec<GroupRecord>,
    place: usize,
    site: SiteNo,
    number: u32,
    members: &Membership,
) -> Result<(), NoMemory>
    requires { place < vec_len groups.old }
    ensures items { OnOk result (groups.new.items ≡ update groups.old.items place
        (λ x. record x { here = with_view site number members.now x.here })) }
    ensures len { vec_len groups.new ≡ vec_len groups.old }
{
    let record = &mut groups[place];
    record.here.complete(site, number, members)
}

/// Takes in a site's request at the home of the group of a place, and answers whether it is refused
/// because the group is full; `None` where it is not to be answered.
#[tactic(auto, using(cast_types::proofs::Updates::set_update))]
pub fn ask_home_at(
    groups: &mut Vec<GroupRecord>,
    place: usize,
    site: SiteNo,
    number: u32,
    change: Change,
    process: Proc,
) -> Result<Option<bool>, NoMemory>
    requires { place < vec_len groups.old }
    ensures value { IfOk result (λ full.
        full ≡ answer_to (record_at groups.old.items place).home site number change process) }
    ensures items { OnOk result (groups.new.items
        ≡ update groups.old.items place (moved_home (Asked site number change process))) }
    ensures len { vec_len groups.new ≡ vec_len groups.old }
{
    let record = &mut groups[place];
    record.home.ask(site, number, change, process)
}

/// Takes in at the home of the group of a place that a site has installed a view.
#[tactic(auto, using(cast_types::proofs::Updates::set_update))]
pub fn installed_at(groups: &mut Vec<GroupRecord>, place: usize, site: SiteNo, number: u32)
    requires { place < vec_len groups.old }
    ensures { groups.new.items
        ≡ update groups.old.items place (moved_home (Installed site number)) }
{
    let record = &mut groups[place];
    record.home.note_installed(site, number);
}

/// Takes in at the home of the group of a place what a site reports of a view.
#[tactic(auto, using(cast_types::proofs::Updates::set_update))]
pub fn report_at(
    groups: &mut Vec<GroupRecord>,
    place: usize,
    site: SiteNo,
    view: u32,
    report: Report,
) -> Result<(), NoMemory>
    requires { place < vec_len groups.old }
    ensures { OnOk result (groups.new.items
        ≡ update groups.old.items place (moved_home (Reported site view report))) }
{
    let record = &mut groups[place];
    record.home.reply(site, view, report)?;
    Ok(())
}

/// Takes in at the home of the group of a place a message that some sites lack.
#[tactic(auto, using(cast_types::proofs::Updates::set_update))]
pub fn body_at(
    groups: &mut Vec<GroupRecord>,
    place: usize,
    message: Message,
) -> Result<(), NoMemory>
    requires { place < vec_len groups.old }
    ensures { OnOk result
        (groups.new.items ≡ update groups.old.items place (moved_home (Brought message))) }
{
    let record = &mut groups[place];
    record.home.body(message)?;
    Ok(())
}

/// Takes in at the home of the group of a place that a site is suspected.
#[tactic(auto, using(cast_types::proofs::Updates::set_update))]
pub fn suspect_at(groups: &mut Vec<GroupRecord>, place: usize, site: SiteNo) -> Result<(), NoMemory>
    requires { place < vec_len groups.old }
    ensures items { OnOk result
        (groups.new.items ≡ update groups.old.items place (moved_home (Suspected site))) }
    ensures len { vec_len groups.new ≡ vec_len groups.old }
{
    let record = &mut groups[place];
    record.home.suspect(site)?;
    Ok(())
}

/// Starts a flush at the home of the group of a place, where one may start.
#[tactic(auto, using(cast_types::proofs::Updates::set_update))]
pub fn start_at(groups: &mut Vec<GroupRecord>, place: usize) -> Result<(), NoMemory>
    requires { place < vec_len groups.old }
    ensures items { OnOk result
        (groups.new.items ≡ update groups.old.items place (moved_home Started)) }
    ensures len { vec_len groups.new ≡ vec_len groups.old }
{
    let record = &mut groups[place];
    record.home.start()?;
    Ok(())
}

/// Decides the next view of the group of a place, where it is to be decided.
#[tactic(auto, using(cast_types::proofs::Updates::set_update))]
pub fn decide_at(groups: &mut Vec<GroupRecord>, place: usize) -> Result<(), NoMemory>
    requires placed { place < vec_len groups.old }
    requires due { may_decide (record_at groups.old.items place).name
        (record_at groups.old.items place).home ≡ true }
    ensures items { OnOk result
        (groups.new.items ≡ update groups.old.items place (moved_home Decided)) }
    ensures len { vec_len groups.new ≡ vec_len groups.old }
{
    let record = &mut groups[place];
    record.home.decide(record.name)?;
    Ok(())
}

/// Reckons once what some sites lack of the view that the home of the group of a place flushes,
/// where all have reported. Changes nothing that contracts see.
#[tactic(auto, using(crate::proofs::Unchanged::set_same))]
pub fn reckon_at(groups: &mut Vec<GroupRecord>, place: usize) -> Result<(), NoMemory>
    requires { place < vec_len groups.old }
    ensures items { groups.new.items ≡ groups.old.items }
    ensures len { vec_len groups.new ≡ vec_len groups.old }
{
    let record = &mut groups[place];
    record.home.reckon(record.name)
}
