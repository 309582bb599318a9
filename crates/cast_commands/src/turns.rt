ghost use Rattle.std.specs.Prelude.{◌≡◌, true, false, ◌<◌, None, ◌&&◌};
ghost use Rattle.std.specs.Prelude.{◌||◌, ◌==◌, min, not, vec_len, Some};
ghost use Rattle.cast_ready.specs.Ready.{is_member};
ghost use Rattle.cast_domain.specs.Records.{records_in, own_records};
ghost use Rattle.cast_domain.specs.Own.{AwaitsNoneOf, is_due_in, source_at};
ghost use Rattle.cast_order.specs.Log.{log_of, places_by};
ghost use Rattle.cast_domain.specs.PartCalls.{awaits_own_in};

use crate::release::is_current;
use crate::trim::message_id;
use cast_domain::Domain;
use cast_domain::lent::Lent;
use cast_domain::turns::is_member;
use cast_types::{GroupNo, Proc, Source, Uid};

// Whether a process has not delivered an ABCAST of its own, of the view of a group of which it is a
// member.
pub(crate) fn awaits_own(domain: &Domain, process: Proc, lent: &Lent<'_>) -> bool
    ensures { result ≡ awaits_own_in (records_in domain.now lent.now) process }
{
    for place in 0..domain.groups.len() {
        if awaits_own_at(domain, place, process, lent) {
            return true;
        }
    }
    false
}

// Whether a process has not delivered an ABCAST of its own, of the group at a place. A process
// delivers its own ABCASTs in their order. So if it has delivered those with the least and the
// greatest count that are kept, it has delivered all of them.
fn awaits_own_at(domain: &Domain, place: usize, process: Proc, lent: &Lent<'_>) -> bool
    requires { place < vec_len domain.now.groups }
    ensures some { result ≡ true → awaits_own_in (records_in domain.now lent.now) process ≡ true }
    ensures none { result ≡ false → AwaitsNoneOf (records_in domain.now lent.now)
        process (source_at domain.now.groups.items place process) }
{
    let group = domain.record(place);
    let source = Source {
        group: group.name,
        view: group.here.number(),
        process,
    };
    match lent
        .shared
        .store
        .atomic_counts(domain.config.domain, source)
    {
        Some((least, greatest)) => {
            is_due(domain, message_id(group, process, least))
                || is_due(domain, message_id(group, process, greatest))
        }
        None => false,
    }
}

// Whether a message is of the view of a group of which its process is a member, and that has not
// delivered it.
fn is_due(domain: &Domain, id: Uid) -> bool
    ensures { result ≡ is_due_in (own_records domain.now) id }
{
    is_current(domain, id)
        && is_member(domain.delay.standing(id.proc, id.group))
        && !domain.delay.has_delivered(id.proc, id)
}

// How many places there are up to the last id that a process has to list.
pub(crate) fn places_by(domain: &Domain, group: GroupNo, process: Proc) -> usize
    ensures { result
        ≡ min 18446744073709551615 (places_by (log_of domain.now.orders group) process) }
{
    match domain.orders.log(group) {
        Some(log) => log.places_by(process),
        None => 0,
    }
}
