ghost use Rattle.std.specs.Prelude.{◌≡◌, false, ◌==◌, ◌<◌, None, OnOk, vec_len, ◌&&◌, not, Some};
ghost use Rattle.cast_rules.specs.Rules.Requests.{is_joining_by, deny, deny_if, on_asked};
ghost use Rattle.cast_rules.specs.Rules.Requests.{take_answer, answer_ask, on_ask};
ghost use Rattle.cast_rules.specs.Rules.Asking.{request, is_from_home, ask_home};
ghost use Rattle.cast_domain.specs.Records.{Keeps, KeepsBeside, Makes, MakesWithOuts};
ghost use Rattle.cast_domain.specs.Calls.{records};
ghost use Rattle.cast_rules.specs.Rules.Keys.{ask_key};
ghost use Rattle.cast_events.specs.declared.event.Outs.{Outs};
ghost use Rattle.cast_rules.specs.Rules.Leaving.{tell};

use crate::asking::is_from_home;
use cast_domain::Domain;
use cast_domain::keys::ask_key;
use cast_domain::lent::Lent;
use cast_domain::record::{answer_at, ask_home_at};
use cast_events::Outs;
use cast_message::{Change, Push, SiteFrame};
use cast_ready::ProcessUpdate;
use cast_types::{NoMemory, Proc, Refusal, SiteNo, Standing};
use cast_view::PendingRequest;

// Asked: the first request is answered, and the next one is asked. Where the group was full its
// process is told.
pub(crate) fn on_asked(
    domain: &mut Domain,
    place: usize,
    from: SiteNo,
    number: u32,
    full: bool,
    lent: &mut Lent<'_>,
) -> Result<(), NoMemory>
    requires { place < vec_len domain.old.groups }
    ensures stays { KeepsBeside domain.old lent.old domain.new lent.new }
    ensures made { OnOk result (Makes (λ r. on_asked records r place from number full)
        domain.old lent.old domain.new lent.new) }
{
    match domain.record(place).here.first_request() {
        Some(asking) => {
            if is_from_home(domain, from) && asking.number == number {
                take_answer(domain, place, lent)?;
                deny_if(domain, full, place, asking, lent)?;
            }
            Ok(())
        }
        None => Ok(()),
    }
}

// Takes the first request off, and asks the next one.
fn take_answer(domain: &mut Domain, place: usize, lent: &mut Lent<'_>) -> Result<(), NoMemory>
    requires { place < vec_len domain.old.groups }
    ensures stays { KeepsBeside domain.old lent.old domain.new lent.new }
    ensures made { OnOk result
        (Makes (λ r. take_answer records r place) domain.old lent.old domain.new lent.new) }
    ensures len { vec_len domain.new.groups ≡ vec_len domain.old.groups }
{
    let key = ask_key(domain.record(place).name, domain.config.home);
    domain.pay(&key, lent);
    answer_at(&mut domain.groups, place);
    domain.ask_home(place, lent)?;
    Ok(())
}

// The process of a request that was refused is outside, if it still joins by it, and is told.
fn deny_if(
    domain: &mut Domain,
    full: bool,
    place: usize,
    asking: PendingRequest,
    lent: &mut Lent<'_>,
) -> Result<(), NoMemory>
    requires { place < vec_len domain.old.groups }
    ensures stays { KeepsBeside domain.old lent.old domain.new lent.new }
    ensures made { OnOk result
        (Makes (λ r. deny_if records full r place asking) domain.old lent.old domain.new lent.new) }
{
    if full {
        deny(domain, place, asking, lent)?;
    }
    Ok(())
}

fn deny(
    domain: &mut Domain,
    place: usize,
    asking: PendingRequest,
    lent: &mut Lent<'_>,
) -> Result<(), NoMemory>
    requires { place < vec_len domain.old.groups }
    ensures stays { KeepsBeside domain.old lent.old domain.new lent.new }
    ensures made { OnOk result
        (Makes (λ r. deny records r place asking) domain.old lent.old domain.new lent.new) }
{
    let group = domain.record(place).name;
    let serial = asking.proc.serial;
    let process = domain.process(serial);
    if is_joining_by(domain.delay.standing(process, group), asking.number) {
        domain.tell(process, ProcessUpdate::Standing(group, Standing::Outside))?;
        let denied = Push::Denied {
            group,
            refusal: Refusal::GroupFull,
        };
        domain.push(serial, denied, lent)?;
    }
    Ok(())
}

// Ask: at the home a request is taken in, and answered where it is the next one of its site or was
// answered before.
pub(crate) fn on_ask(
    domain: &mut Domain,
    place: usize,
    from: SiteNo,
    number: u32,
    change: Change,
    process: Proc,
    outs: &mut Outs,
) -> Result<(), NoMemory>
    requires { place < vec_len domain.old.groups }
    ensures same { Keeps domain.old domain.new }
    ensures made { OnOk result
        (MakesWithOuts (λ r. on_ask records r place from number change process)
        domain.old outs.old domain.new outs.new) }
{
    if !domain.is_home() {
        return Ok(());
    }
    let full = ask_home_at(&mut domain.groups, place, from, number, change, process)?;
    answer_ask(domain, place, from, number, full, outs)?;
    Ok(())
}

// Answers a site's request, where it is answered, the group being full or not.
fn answer_ask(
    domain: &Domain,
    place: usize,
    to: SiteNo,
    number: u32,
    full: Option<bool>,
    outs: &mut Outs,
) -> Result<(), NoMemory>
    requires { place < vec_len domain.now.groups }
    ensures { OnOk result (MakesWithOuts (λ r. answer_ask records r place to number full)
        domain.now outs.old domain.now outs.new) }
{
    match full {
        Some(full) => {
            let group = domain.record(place).name;
            let frame = SiteFrame::Asked {
                group,
                number,
                full,
            };
            domain.send(outs, to, frame)?;
            Ok(())
        }
        None => Ok(()),
    }
}

// Whether a process still joins by a request.
fn is_joining_by(standing: Standing, number: u32) -> bool
    ensures { result ≡ is_joining_by standing number }
{
    match standing {
        Standing::Joining { request, .. } => request == number,
        Standing::Outside | Standing::Member => false,
    }
}
