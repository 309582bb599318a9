ghost use Rattle.std.specs.Prelude.{◌≡◌, ◌<◌};
ghost use Rattle.cast_rules.specs.Rules.Room.{may_take};
ghost use Rattle.cast_domain.specs.Records.{records_in};
ghost use Rattle.cast_domain.specs.Calls.{records};

use cast_domain::Domain;
use cast_domain::lent::Lent;
use cast_message::Body;
use cast_types::Kind;

// Whether a message of this body may be received from another site.
pub(crate) fn may_take(domain: &Domain, body: &Body, lent: &Lent<'_>) -> bool
    ensures { result ≡ may_take records (records_in domain.now lent.now) body.now }
{
    match body.kind() {
        Kind::Order => domain.has_order_room(lent),
        Kind::Causal | Kind::Atomic => domain.has_room(lent),
    }
}
