ghost use Rattle.std.specs.Prelude.{◌≡◌, ◌<◌, ◌≤◌, ◌&&◌, ◌==◌};

use crate::data::is_named;
use crate::domain::Domain;
use crate::record::GroupRecord;
use cast_types::{Proc, Uid};

impl Domain {
    ghost use Rattle.std.specs.Prelude.{◌||◌, ◌++◌, not, ◌+◌};
    ghost use Rattle.cast_domain.specs.Records.{own_records};
    ghost use Rattle.cast_domain.specs.FlushCalls.{is_awaited_of, is_received_of};

    // Whether some member here has not delivered a message of the view of a group.
    pub fn is_awaited_of(&self, group: &GroupRecord, proc: Proc, count: u32) -> bool
        ensures { result ≡ is_awaited_of (own_records self.now) group.now (proc, count) }
    {
        self.delay.is_awaited(Uid {
            group: group.name,
            view: group.here.number(),
            proc,
            count,
        })
    }

    // Whether a message of the view of a group was received: of a process that is no member, and of
    // another site, nothing was.
    pub fn is_received_of(&self, group: &GroupRecord, proc: Proc, count: u32) -> bool
        ensures { result ≡ is_received_of (own_records self.now) group.now (proc, count) }
    {
        let id = Uid {
            group: group.name,
            view: group.here.number(),
            proc,
            count,
        };
        (is_named(proc, group.here.members()) || proc.site == self.site)
            && self.acks.is_received(id)
    }
}
