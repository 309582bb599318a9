use crate::domain::Domain;
use crate::lent::Lent;

impl Domain {
    ghost use Rattle.std.specs.Prelude.{◌≡◌, ◌<◌, length};
    ghost use Rattle.cast_rules.specs.Rules.Room.{may_receive, may_order};
    ghost use Rattle.cast_domain.specs.Records.{records_in};
    ghost use Rattle.cast_domain.specs.Shared.{part_of};
    ghost use Rattle.cast_domain.specs.Calls.{records};

    // How many messages the domain keeps.
    pub fn held_count(&self, lent: &Lent<'_>) -> usize
        ensures { result ≡ length (part_of self.now.config.domain lent.now.shared.now).kept }
    {
        lent.shared.store.held(self.config.domain)
    }

    // Whether one more message may be received beside those that are kept.
    pub fn has_room(&self, lent: &Lent<'_>) -> bool
        ensures { result ≡ may_receive records (records_in self.now lent.now) }
    {
        self.quotas.check_cast(self.held_count(lent))
    }

    // Whether a set-order message may be sent or received beside the messages that are kept, and a
    // holder may deliver an ABCAST.
    pub fn has_order_room(&self, lent: &Lent<'_>) -> bool
        ensures { result ≡ may_order records (records_in self.now lent.now) }
    {
        self.quotas.check_order(self.held_count(lent))
    }
}
