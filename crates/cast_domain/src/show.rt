ghost use Rattle.std.specs.Prelude.{◌≡◌, IfOk};
ghost use Rattle.cast_domain.specs.Shows.{group_shown};

use crate::domain::Domain;
use crate::record::GroupRecord;
use crate::shared::Shared;
use cast_types::{GroupNo, List, NoMemory, Proc};
use std::alloc::Global;

/// What a domain shows of itself.
#[derive(Clone, Copy)]
pub struct Shown {
    /// How many sessions are not gone.
    pub sessions: usize,
    /// How many messages are kept.
    pub held: usize,
    /// How many casts of programs were accepted.
    pub casts: u64,
    /// In milliseconds.
    pub moment: u64,
    /// Whether want of memory has halted it.
    pub halted: bool,
}

/// What a domain shows of a group.
#[derive(Drop)]
pub struct GroupShown {
    pub group: GroupNo,
    /// The number of the last view that the site knows of, 0 where it knows of none.
    pub number: u32,
    /// The member of that view that sets the order of its ABCASTs; `None` where no member is at
    /// this site.
    pub holder: Option<Proc>,
    /// In rising order; none where no member is at this site.
    pub members: List<Proc>,
    /// Whether a flush of the view has begun here.
    pub frozen: bool,
}

impl Domain {
    ghost use Rattle.cast_domain.specs.Records.{number_of};
    ghost use Rattle.cast_domain.specs.Shared.{part_of};
    ghost use Rattle.cast_domain.specs.Shows.{groups_shown, shown_of};

    /// What the domain shows of itself and of its part of what is shared.
    pub fn show(&self, shared: &Shared) -> Shown
        ensures { result ≡ shown_of self.now (part_of (number_of self.now) shared.now) }
    {
        Shown {
            sessions: self.sessions.len(),
            held: shared.store.held(self.config.domain),
            casts: self.casts,
            moment: self.moment.millis(),
            halted: self.is_halted(),
        }
    }

    /// What the domain shows of its groups, in their order.
    pub fn show_groups(&self, alloc: Global) -> Result<List<GroupShown>, NoMemory>
        ensures { IfOk result (λ groups. groups ≡ groups_shown self.now) }
    {
        let mut groups = List::new(alloc);
        for group in &self.groups {
            groups.push(show_group(alloc, group)?)?;
        }
        Ok(groups)
    }
}

// What a domain shows of a group.
fn show_group(alloc: Global, group: &GroupRecord) -> Result<GroupShown, NoMemory>
    ensures { IfOk result (λ shown. shown ≡ group_shown group.now.name group.now.here) }
{
    let here = &group.here;
    let members = Vec::from_slice(alloc, here.members())?;
    Ok(GroupShown {
        group: group.name,
        number: here.number(),
        holder: here.holder(),
        members: List::from_vec(members),
        frozen: here.is_frozen(),
    })
}
