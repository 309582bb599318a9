ghost use Rattle.std.specs.Prelude.{◌≡◌, false, IfOk, OnOk, [], ◌∷◌, take};
ghost use Rattle.cast_timer.specs.Owed.{is_owed};
ghost use Rattle.cast_types.specs.declared.names.DomainNo.{DomainNo};
ghost use Rattle.cast_outbox.specs.Pending.{told_at};

use cast_message::{Message, Push};
use cast_outbox::{Outboxes, Pushed};
use cast_store::Store;
use cast_timer::{OwedKey, Timers};
use cast_types::{DomainNo, GroupNo, Key, List, NoMemory};
use std::alloc::{AllocError, Global};

/// What the domains of a daemon share: the messages that they keep, the frames that they owe and
/// the outboxes of their sessions. A domain is lent all of it for a step, and leaves the parts of
/// others as they are.
#[derive(Drop)]
pub struct Shared {
    pub store: Store,
    pub timers: Timers,
    pub outboxes: Outboxes,
}

impl Shared {
    ghost use Rattle.cast_domain.specs.Shared.{LeavesOthers, no_part, part_boxing, part_of};
    ghost use Rattle.cast_domain.specs.Shared.{part_taking, part_owing, part_paying};
    ghost use Rattle.cast_domain.specs.Shared.{part_paying_upto, part_paying_view};
    ghost use Rattle.cast_domain.specs.Shared.{part_renewing_due, part_with, part_without};
    ghost use Rattle.cast_domain.specs.Shared.{part_pushing_within};

    /// Nothing is kept, nothing is owed, and no outbox is open.
    pub fn new(alloc: Global) -> Self
        ensures { (d : DomainNo) → part_of d result ≡ no_part }
    {
        Shared {
            store: Store::new(alloc),
            timers: Timers::new(alloc),
            outboxes: Outboxes::new(alloc),
        }
    }

    /// An equal value, with the same keys.
    pub fn copy(&self) -> Result<Self, NoMemory>
        ensures { IfOk result (λ copy. copy ≡ self.now) }
    {
        Ok(Shared {
            store: self.store.copy()?,
            timers: self.timers.copy()?,
            outboxes: self.outboxes.copy()?,
        })
    }

    // Keeps a message for a domain, under the next key.
    pub fn put(&mut self, domain: DomainNo, message: Message) -> Result<(), NoMemory>
        ensures part { OnOk result
            (part_of domain self.new ≡ part_with (part_of domain self.old) message) }
        ensures others { LeavesOthers domain self.old self.new }
    {
        match self.store.put(domain, message) {
            Ok(_) => Ok(()),
            Err(_) => Err(AllocError),
        }
    }

    // Keeps the message under a key of a domain no longer.
    pub fn remove(&mut self, domain: DomainNo, key: Key)
        ensures part { part_of domain self.new ≡ part_without (part_of domain self.old) key }
        ensures others { LeavesOthers domain self.old self.new }
    {
        self.store.remove(domain, key);
    }

    // Owes a frame for a domain that does not owe it, to be sent again at a moment.
    pub fn owe(&mut self, domain: DomainNo, key: OwedKey, due: u64) -> Result<(), NoMemory>
        requires { is_owed (part_of domain self.old).owed key ≡ false }
        ensures part { OnOk result
            (part_of domain self.new ≡ part_owing (part_of domain self.old) key due) }
        ensures others { LeavesOthers domain self.old self.new }
    {
        self.timers.owe(domain, key, due)
    }

    // Owes all frames that are due at a moment for another one.
    pub fn renew_due(&mut self, domain: DomainNo, now: u64, due: u64) -> Result<(), NoMemory>
        ensures part { OnOk result
            (part_of domain self.new ≡ part_renewing_due (part_of domain self.old) now due) }
        ensures others { LeavesOthers domain self.old self.new }
    {
        self.timers.renew_due(domain, now, due)
    }

    // Owes a frame no more.
    pub fn pay(&mut self, domain: DomainNo, key: &OwedKey)
        ensures part { part_of domain self.new ≡ part_paying (part_of domain self.old) key.now }
        ensures others { LeavesOthers domain self.old self.new }
    {
        self.timers.pay(domain, key);
    }

    // Owes the frames of a key and of those with lower counts no more.
    pub fn pay_upto(&mut self, domain: DomainNo, key: &OwedKey)
        ensures part { part_of domain self.new
            ≡ part_paying_upto (part_of domain self.old) key.now }
        ensures others { LeavesOthers domain self.old self.new }
    {
        self.timers.pay_upto(domain, key);
    }

    // Owes no more what the site owes for a view of the group, which has ended.
    pub fn pay_view(&mut self, domain: DomainNo, group: GroupNo)
        ensures part { part_of domain self.new ≡ part_paying_view (part_of domain self.old) group }
        ensures others { LeavesOthers domain self.old self.new }
    {
        self.timers.pay_view(domain, group);
    }

    // Opens the outbox of a serial of a domain, with its first entry.
    pub fn begin_outbox(
        &mut self,
        domain: DomainNo,
        serial: u32,
        entry: Push,
    ) -> Result<(), NoMemory>
        ensures part { OnOk result
            (part_of domain self.new ≡ part_boxing (part_of domain self.old) serial (entry ∷ [])) }
        ensures others { LeavesOthers domain self.old self.new }
    {
        self.outboxes.open(domain, serial)?;
        self.outboxes.push(domain, serial, 1, entry)?;
        Ok(())
    }

    // Pushes an entry to the outbox of a serial of a domain, or, where it has that many entries,
    // that its program is too slow. Answers what was pushed.
    pub fn push(
        &mut self,
        domain: DomainNo,
        serial: u32,
        limit: u32,
        entry: Push,
    ) -> Result<Pushed, NoMemory>
        ensures value { IfOk result
            (λ p. p ≡ told_at limit ((part_of domain self.old).outboxes serial)) }
        ensures part { OnOk result (part_of domain self.new
            ≡ part_pushing_within limit (part_of domain self.old) serial entry) }
        ensures others { LeavesOthers domain self.old self.new }
    {
        self.outboxes.push(domain, serial, limit, entry)
    }

    // Takes the first entries of the outbox of a serial of a domain, at most so many.
    pub fn take(&mut self, domain: DomainNo, serial: u32, most: u32) -> Result<List<Push>, NoMemory>
        ensures value { IfOk result
            (λ entries. entries ≡ take most ((part_of domain self.old).outboxes serial)) }
        ensures part { OnOk result
            (part_of domain self.new ≡ part_taking (part_of domain self.old) serial most) }
        ensures others { LeavesOthers domain self.old self.new }
    {
        self.outboxes.take(domain, serial, most)
    }

    // Lets go of all that a domain keeps and owes, and of the outboxes of its sessions. Takes no
    // memory.
    pub fn drop_domain(&mut self, domain: DomainNo)
        ensures part { part_of domain self.new ≡ no_part }
        ensures others { LeavesOthers domain self.old self.new }
    {
        self.store.drop_domain(domain);
        self.timers.drop_domain(domain);
        self.outboxes.drop_domain(domain);
    }

    // Drops the outbox of a serial of a domain.
    pub fn close_outbox(&mut self, domain: DomainNo, serial: u32)
        ensures part { part_of domain self.new ≡ part_boxing (part_of domain self.old) serial [] }
        ensures others { LeavesOthers domain self.old self.new }
    {
        self.outboxes.close(domain, serial);
    }
}
