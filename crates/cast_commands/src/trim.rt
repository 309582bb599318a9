ghost use Rattle.std.specs.Prelude.{◌≡◌, ◌==◌, ◌<◌, true, None, vec_len};
ghost use Rattle.std.specs.Prelude.{◌&&◌, ◌||◌, not, Some, position};
ghost use Rattle.cast_types.specs.Names.{uid_in};
ghost use Rattle.cast_domain.specs.Trims.{is_kept_among, count_first, is_counted_of};
ghost use Rattle.cast_domain.specs.Trims.{is_over_of, is_past_of, trim_all_in, trim_in};
ghost use Rattle.cast_domain.specs.Records.{Keeps, MakesAlone, own_records};
ghost use Rattle.cast_domain.specs.PartCalls.{record_at};
ghost use Rattle.cast_domain.specs.FlushCalls.{is_awaited_of, is_received_of};
ghost use Rattle.cast_ready.specs.Ready.{is_member};

use cast_domain::Domain;
use cast_domain::record::GroupRecord;
use cast_domain::turns::is_member;
use cast_store::Kept;
use cast_types::{Proc, Uid};

// Forgets the oldest ids of each group's order that are over. While few are kept that takes no more
// than to see so.
pub fn trim_orders(domain: &mut Domain, kept: &Kept<'_>)
    ensures same { Keeps domain.old domain.new }
    ensures made { MakesAlone (trim_all_in kept.now) domain.old domain.new }
{
    if !domain.orders.some_are_long() {
        return;
    }
    for place in 0..domain.groups.len() {
        trim_order(domain, place, kept);
    }
}

// Forgets the oldest ids of the order of the group at a place, those before the first that is not
// over.
fn trim_order(domain: &mut Domain, place: usize, kept: &Kept<'_>)
    requires { place < vec_len domain.old.groups }
    ensures same { Keeps domain.old domain.new }
    ensures groups { domain.new.groups ≡ domain.old.groups }
    ensures made { MakesAlone (λ r. trim_in kept.now r place) domain.old domain.new }
{
    let group = domain.record(place).name;
    let over = over_first(domain, place, domain.orders.oldest(group), kept);
    domain.orders.forget_first(group, over);
}

// How many of these ids of the view of the group at a place, the first ones, are over.
fn over_first(domain: &Domain, place: usize, ids: &[(Proc, u32)], kept: &Kept<'_>) -> usize
    requires { place < vec_len domain.now.groups }
    ensures { result ≡ count_first (is_over_of (own_records domain.now)
        (record_at domain.now.groups.items place) kept.now) ids.now }
{
    match first_to_stay(domain, domain.record(place), ids, kept) {
        Some(first) => first,
        None => ids.len(),
    }
}

// The place of the first of these ids of the view of a group that is not over.
fn first_to_stay(
    domain: &Domain,
    group: &GroupRecord,
    ids: &[(Proc, u32)],
    kept: &Kept<'_>,
) -> Option<usize>
    ensures { result
        ≡ position (λ e. not (is_over_of (own_records domain.now) group.now kept.now e)) ids.now }
{
    ids.iter().position(|(proc, count)| !is_over(domain, group, *proc, *count, kept))
}

// Whether a message of the view of a group is over: received, kept no longer, and passed by each
// member here.
fn is_over(domain: &Domain, group: &GroupRecord, proc: Proc, count: u32, kept: &Kept<'_>) -> bool
    ensures { result ≡ is_over_of (own_records domain.now) group.now kept.now (proc, count) }
{
    domain.is_received_of(group, proc, count)
        && !is_kept_among(kept, message_id(group, proc, count))
        && is_past(domain, group, proc, count)
}

// Whether each member of a group here is past a message of its view: it has delivered it, and
// counted it where it sent it.
fn is_past(domain: &Domain, group: &GroupRecord, proc: Proc, count: u32) -> bool
    ensures { result ≡ is_past_of (own_records domain.now) group.now (proc, count) }
{
    0 < count && !domain.is_awaited_of(group, proc, count) && is_counted(domain, group, proc, count)
}

// Whether a process has counted so many of its messages of a group, where it is a member of that
// here.
fn is_counted(domain: &Domain, group: &GroupRecord, process: Proc, count: u32) -> bool
    ensures { result ≡ is_counted_of (own_records domain.now) group.now (process, count) }
{
    if process.site != domain.site || !is_member(domain.delay.standing(process, group.name)) {
        return true;
    }
    match domain.delay.time(process) {
        Some(time) => count <= time.count(group.name, process),
        None => count == 0,
    }
}

/// The name of a message of the view of a group.
pub(crate) fn message_id(group: &GroupRecord, proc: Proc, count: u32) -> Uid
    ensures { result ≡ uid_in group.now.name group.now.here.number (proc, count) }
{
    Uid {
        group: group.name,
        view: group.here.number(),
        proc,
        count,
    }
}

// Whether a message is among those that are kept.
fn is_kept_among(kept: &Kept<'_>, id: Uid) -> bool
    ensures { result ≡ is_kept_among kept.now id }
{
    for position in 0..kept.len() {
        if kept.id(position) == id {
            return true;
        }
    }
    false
}
