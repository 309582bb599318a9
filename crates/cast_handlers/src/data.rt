ghost use Rattle.std.specs.Prelude.{◌≡◌, ◌<◌, true, false, None, ◌&&◌, ◌==◌, Some, OnOk, vec_len};
ghost use Rattle.std.specs.List.{list_all};
ghost use Rattle.cast_types.specs.Names.{group_eq};
ghost use Rattle.cast_types.specs.Sets.{is_among};
ghost use Rattle.cast_rules.specs.Rules.Data.{counts_itself, names_member, want_no_more};
ghost use Rattle.cast_rules.specs.Rules.Data.{is_used, is_well_formed, on_data};
ghost use Rattle.cast_rules.specs.Rules.Data.{use_data, acknowledge, is_outdated};
ghost use Rattle.cast_domain.specs.Records.{GivesBack, KeepsBeside, Makes, TellsAlone};
ghost use Rattle.cast_domain.specs.Calls.{records};
ghost use Rattle.cast_view.specs.Sites.{is_at};
ghost use Rattle.cast_rules.specs.Rules.Room.{may_take};
ghost use Rattle.cast_rules.specs.Rules.Keys.{message_key};
ghost use Rattle.cast_rules.specs.Rules.Owing.{owe};

use crate::room::may_take;
use crate::views::is_at;
use cast_domain::Domain;
use cast_domain::data::is_named;
use cast_domain::keys::message_key;
use cast_domain::lent::Lent;
use cast_message::{Body, Message, SiteFrame};
use cast_timer::OwedKind;
use cast_types::{Clock, GroupNo, NoMemory, Proc, SiteNo, Uid};
use cast_view::is_among;

// A message is wanted from the home no more.
pub(crate) fn want_no_more(domain: &Domain, id: Uid, lent: &mut Lent<'_>)
    ensures back { GivesBack domain.now.config.domain lent.old lent.new }
    ensures made { Makes (λ r. want_no_more records r id) domain.now lent.old domain.now lent.new }
{
    domain.pay(&message_key(OwedKind::Want, id, domain.config.home), lent);
}

// Data: a message of the site's view, from the process's own site, which is another; or one of an
// older view, from a site that has no part in it any more and is told so.
pub(crate) fn on_data(
    domain: &mut Domain,
    place: usize,
    from: SiteNo,
    message: &Message,
    lent: &mut Lent<'_>,
) -> Result<(), NoMemory>
    requires { place < vec_len domain.old.groups }
    ensures stays { KeepsBeside domain.old lent.old domain.new lent.new }
    ensures made { OnOk result (Makes (λ r. on_data records r place from message.now)
        domain.old lent.old domain.new lent.new) }
{
    if is_used(domain, place, from, message) {
        return use_data(domain, from, message, lent);
    }
    if is_outdated(domain, place, from, message) {
        let record = domain.record(place);
        let (group, view) = (record.name, record.here.number());
        domain.send(lent.outs, from, SiteFrame::Out { group, view })?;
    }
    Ok(())
}

// Whether a message is of the site's view and comes from the process's own site, which is another.
fn is_used(domain: &Domain, place: usize, from: SiteNo, message: &Message) -> bool
    requires { place < vec_len domain.now.groups }
    ensures { TellsAlone (λ r. is_used records r place from message.now) domain.now result }
{
    message.id.proc.site == from
        && !(from == domain.site)
        && message.id.view == domain.record(place).here.number()
        && is_well_formed(domain, domain.record(place).here.members(), message)
}

// A message is received once, if there is room for it. One that was received is acknowledged again.
fn use_data(
    domain: &mut Domain,
    from: SiteNo,
    message: &Message,
    lent: &mut Lent<'_>,
) -> Result<(), NoMemory>
    ensures stays { KeepsBeside domain.old lent.old domain.new lent.new }
    ensures made { OnOk result
        (Makes (λ r. use_data records r from message.now) domain.old lent.old domain.new lent.new) }
{
    if domain.acks.is_received(message.id) {
        domain.send(lent.outs, from, SiteFrame::Ack(message.id))?;
        return Ok(());
    }
    if !may_take(domain, &message.body, lent) {
        return Ok(());
    }
    domain.receive(message.copy()?, lent)?;
    acknowledge(domain, from, message.id, lent)?;
    want_no_more(domain, message.id, lent);
    Ok(())
}

// Whether all groups of the message's time are configured, its process is one of these members, and
// so is the one to which it hands the token over, and its own time counts it.
pub(crate) fn is_well_formed(domain: &Domain, members: &[Proc], message: &Message) -> bool
    ensures { TellsAlone (λ r. is_well_formed records r members.now message.now) domain.now result }
{
    knows_groups(domain, message)
        && is_named(message.id.proc, members)
        && names_member(members, &message.body)
        && counts_itself(message)
}

// Whether all groups of the message's time are configured.
fn knows_groups(domain: &Domain, message: &Message) -> bool
    ensures { result
        ≡ list_all (λ c. is_among group_eq c.0 domain.now.config.groups) message.now.times }
{
    are_known(domain.config.groups.as_slice(), message.times.clocks())
}

// Acknowledges a received message: its site is owed that until it tells that the message is stable.
fn acknowledge(domain: &Domain, to: SiteNo, id: Uid, lent: &mut Lent<'_>) -> Result<(), NoMemory>
    ensures back { GivesBack domain.now.config.domain lent.old lent.new }
    ensures made { OnOk result
        (Makes (λ r. acknowledge records r to id) domain.now lent.old domain.now lent.new) }
{
    if domain.acks.is_stable(id) {
        return domain.send(lent.outs, to, SiteFrame::Ack(id));
    }
    domain.owe(message_key(OwedKind::Ack, id, to), lent)
}

// Whether a message is of an older view than the one that the group at a place has here, in which
// its site has no member.
fn is_outdated(domain: &Domain, place: usize, from: SiteNo, message: &Message) -> bool
    requires { place < vec_len domain.now.groups }
    ensures { TellsAlone (λ r. is_outdated records r place from message.now) domain.now result }
{
    let here = &domain.record(place).here;
    here.view().is_some() && message.id.view < here.number() && !is_at(from, here.members())
}

// Whether the process to which a message hands the token over, if it does, is one of these.
fn names_member(members: &[Proc], body: &Body) -> bool
    ensures { result ≡ names_member members.now body.now }
{
    match body.new_holder() {
        Some(holder) => is_named(holder, members),
        None => true,
    }
}

// Whether a group is one of these.
fn is_known(group: GroupNo, groups: &[GroupNo]) -> bool
    ensures { result ≡ is_among group_eq group groups.now }
{
    groups.iter().any(|known| group == *known)
}

// Whether the groups of all clocks are among these.
fn are_known(groups: &[GroupNo], clocks: &[(GroupNo, Clock)]) -> bool
    ensures { result ≡ list_all (λ c. is_among group_eq c.0 groups.now) clocks.now }
{
    clocks.iter().all(|clock| is_known(clock.0, groups))
}

// Whether the message's own time has its view, and its count, from 1 on.
fn counts_itself(message: &Message) -> bool
    ensures { result ≡ counts_itself message.now }
{
    match message.times.get(message.id.group) {
        Some(clock) => {
            clock.view == message.id.view
                && 0 < message.id.count
                && clock.counts.get(message.id.proc) == message.id.count
        }
        None => false,
    }
}
