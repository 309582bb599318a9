ghost use Rattle.std.specs.Prelude.{IfOk};
ghost use Rattle.cast_domain.specs.Copies.{IsCopyOf};

use crate::domain::Domain;
use crate::record::copy_groups;
use cast_types::NoMemory;

impl Domain {
    /// A domain that keeps the same and so stands for the same histories, and is halted where this
    /// one is.
    pub fn copy(&self) -> Result<Self, NoMemory>
        ensures { IfOk result (λ copy. IsCopyOf self.now copy) }
    {
        let alloc = *self.groups.allocator();
        Ok(Domain {
            site: self.site,
            config: self.config.copy()?,
            quotas: self.quotas,
            moment: self.moment.copy(),
            casts: self.casts,
            sessions: self.sessions.copy()?,
            groups: copy_groups(alloc, &self.groups)?,
            delay: self.delay.copy()?,
            acks: self.acks.copy()?,
            orders: self.orders.copy()?,
            halted: self.halted,
        })
    }
}
