ghost use Rattle.std.specs.Prelude.{◌≡◌, ◌<◌, false, None, ◌&&◌, Some};
ghost use Rattle.cast_domain.specs.Records.{own_records};
ghost use Rattle.cast_domain.specs.PartCalls.{is_current_in};

use cast_domain::Domain;
use cast_types::Uid;

// Whether a message is of the current view of its group.
pub(crate) fn is_current(domain: &Domain, id: Uid) -> bool
    ensures { result ≡ is_current_in (own_records domain.now) id }
{
    match domain.place_of(id.group) {
        Some(place) => domain.record(place).here.is_current(id.view),
        None => false,
    }
}
