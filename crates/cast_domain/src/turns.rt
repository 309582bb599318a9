ghost use Rattle.std.specs.Prelude.{◌≡◌, true, false};
ghost use Rattle.cast_ready.specs.Ready.{is_member};

use crate::domain::Domain;
use crate::record::GroupRecord;
use cast_types::{GroupNo, Proc, Standing, Uid};

impl Domain {
    ghost use Rattle.std.specs.Prelude.{◌<◌, length, ◌&&◌, ◌||◌, ◌==◌, min, filter};
    ghost use Rattle.cast_domain.specs.Records.{own_records};
    ghost use Rattle.cast_order.specs.Log.{log_of};
    ghost use Rattle.cast_types.specs.Names.{uid_in};
    ghost use Rattle.cast_delay.specs.Queue.{delivered_in};
    ghost use Rattle.cast_domain.specs.ReleaseCalls.{waiting_past, settled_at, unsettled_at};

    // How many places a process has settled.
    pub fn settled_to(&self, process: Proc, kept: &GroupRecord) -> usize
        ensures { result ≡ settled_at (own_records self.now) process kept.now }
    {
        let stable = self.stable_count(kept.name, kept.here.number(), process);
        self.orders.settled_places(kept.name, process, stable)
    }

    // How many ids past those places that it has settled a process has delivered.
    pub fn unsettled_count(&self, process: Proc, kept: &GroupRecord) -> usize
        ensures { result
            ≡ min 18446744073709551615 (unsettled_at (own_records self.now) process kept.now) }
    {
        let settled = self.settled_to(process, kept);
        let forgotten = self
            .orders
            .forgotten_count(kept.name)
            .saturating_sub(settled);
        let delivered = self.delivered_of(process, kept, self.orders.ids_past(kept.name, settled));
        forgotten
            .saturating_add(delivered)
            .saturating_add(self.waiting_past(process, kept.name, settled))
    }

    // How many ids that a process has to list will stand past so many places.
    pub fn waiting_past(&self, process: Proc, group: GroupNo, places: usize) -> usize
        ensures { result ≡ waiting_past (log_of self.now.orders group) process places }
    {
        let ahead = places.saturating_sub(self.orders.length(group));
        self.orders
            .ids_to_list(group, process)
            .len()
            .saturating_sub(ahead)
    }

    // How many of these ids of the view of a group a process has delivered.
    fn delivered_of(&self, process: Proc, kept: &GroupRecord, ids: &[(Proc, u32)]) -> usize
        ensures { result ≡ length (filter (λ e. delivered_in self.now.delay process
            (uid_in kept.now.name kept.now.here.number e)) ids.now) }
    {
        ids.iter()
            .filter(|id| self.has_delivered_of(process, kept, **id))
            .count()
    }

    // Whether a process has delivered an id of the view of a group.
    fn has_delivered_of(&self, process: Proc, kept: &GroupRecord, id: (Proc, u32)) -> bool
        ensures { result
            ≡ delivered_in self.now.delay process (uid_in kept.now.name kept.now.here.number id) }
    {
        self.delay.has_delivered(
            process,
            Uid {
                group: kept.name,
                view: kept.here.number(),
                proc: id.0,
                count: id.1,
            },
        )
    }
}

// Whether a process that is this in a group is a member.
pub fn is_member(standing: Standing) -> bool
    ensures { result ≡ is_member standing }
{
    match standing {
        Standing::Member => true,
        Standing::Outside | Standing::Joining { .. } => false,
    }
}
