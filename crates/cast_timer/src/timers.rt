ghost use Rattle.std.specs.Prelude.{◌≡◌, ◌≢◌, [], None, false, IfOk};
ghost use Rattle.std.specs.Prelude.{IfSome, IsTrue, OnOk, OnErr, is_some};
ghost use Rattle.cast_types.specs.declared.names.DomainNo.{DomainNo};
ghost use Rattle.cast_types.specs.Rising.{is_rising};
ghost use Rattle.cast_timer.specs.declared.key.OwedKey.{OwedKey};
ghost use Rattle.cast_timer.specs.Owed.{owed_cmp, key_eq, with_owed, is_owed, paid};
ghost use Rattle.cast_timer.specs.Owed.{is_of_view, is_upto, due_frames, due_at, all_renewed};
ghost use Rattle.cast_timer.specs.Rows.{owed_in};
ghost use Rattle.cast_timer.specs.Index.{due_in, table_of};

use crate::frames::{Dues, drop_in, owe_in, pay_in, pay_upto_in, pay_view_in, renew_due_in};
use crate::key::{Owed, OwedKey};
use crate::moments::{Moments, due_keys};
use cast_types::{DomainNo, GroupNo, NoMemory};
use std::alloc::Global;
use std::collections::BTreeMap;
use std::marker::Model;

/// The frames that all domains owe. Contracts say `owed_in` of it and a domain: the list of what
/// that domain owes, in order of due moments and then of keys.
#[derive(Drop)]
pub struct Timers {
    alloc: Global,
    // The keys of the frames that all domains owe, by the moments at which they are due.
    moments: Moments,
    // The moment at which the frame of each key is due, for each domain.
    dues: BTreeMap<DomainNo, Dues>,
}

impl Model for Timers {
    ghost use Rattle.std.specs.Prelude.{List};
    ghost use Rattle.cast_timer.specs.Rows.{Row};
    ghost use Rattle.cast_timer.specs.Index.{IsIndexed};

    ghost Value = { List Row };

    ghost view = { λ t. t.moments.entries };

    ghost invariant = { λ t. IsIndexed t.moments.entries t.dues.entries };
}

impl Timers {
    /// An equal value.
    pub fn copy(&self) -> Result<Self, NoMemory>
        ensures { IfOk result (λ timers. timers ≡ self.now) }
    {
        Ok(Timers {
            alloc: self.alloc,
            moments: self.moments.clone()?,
            dues: self.dues.clone()?,
        })
    }

    /// No domain owes a frame.
    pub fn new(alloc: Global) -> Self
        ensures { (d : DomainNo) → owed_in result d ≡ [] }
    {
        Timers {
            alloc,
            moments: BTreeMap::new(alloc),
            dues: BTreeMap::new(alloc),
        }
    }

    /// Owes the domain's frame of a key that is not owed, to be sent again at the moment `due`, in
    /// milliseconds. `NoMemory` changes nothing.
    pub fn owe(&mut self, domain: DomainNo, key: OwedKey, due: u64) -> Result<(), NoMemory>
        requires { is_owed (owed_in self.old domain) key ≡ false }
        ensures own { OnOk result
            (owed_in self.new domain ≡ with_owed (owed_in self.old domain) key due) }
        ensures err { OnErr result (self.new ≡ self.old) }
        ensures others { (e : DomainNo) → e ≢ domain → owed_in self.new e ≡ owed_in self.old e }
    {
        let frame = Owed { due, key };
        open(&mut self.dues, self.alloc, domain)?;
        match self.dues.get_mut(&domain) {
            Some(dues) => owe_in(&mut self.moments, dues, self.alloc, domain, frame),
            None => Ok(()),
        }
    }

    /// Owes the domain's frame of a key no more, for whichever moments it was owed. Takes no
    /// memory.
    pub fn pay(&mut self, domain: DomainNo, key: &OwedKey)
        ensures own { owed_in self.new domain ≡ paid (key_eq key.now) (owed_in self.old domain) }
        ensures others { (e : DomainNo) → e ≢ domain → owed_in self.new e ≡ owed_in self.old e }
    {
        if let Some(dues) = self.dues.get_mut(&domain) {
            pay_in(&mut self.moments, dues, domain, key);
        }
    }

    /// Owes no more the domain's frames of this key and of all keys that differ from it only in a
    /// lower count. Takes no memory.
    pub fn pay_upto(&mut self, domain: DomainNo, key: &OwedKey)
        ensures own { owed_in self.new domain ≡ paid (is_upto key.now) (owed_in self.old domain) }
        ensures others { (e : DomainNo) → e ≢ domain → owed_in self.new e ≡ owed_in self.old e }
    {
        if let Some(dues) = self.dues.get_mut(&domain) {
            pay_upto_in(&mut self.moments, dues, domain, key);
        }
    }

    /// Owes no more what the domain's site owes for a view of the group, which has ended: Data,
    /// Acks, and the site's own Wants. Takes no memory.
    pub fn pay_view(&mut self, domain: DomainNo, group: GroupNo)
        ensures own { owed_in self.new domain ≡ paid (is_of_view group) (owed_in self.old domain) }
        ensures others { (e : DomainNo) → e ≢ domain → owed_in self.new e ≡ owed_in self.old e }
    {
        if let Some(dues) = self.dues.get_mut(&domain) {
            pay_view_in(&mut self.moments, dues, domain, group);
        }
    }

    /// Owes all of the domain's frames that are due at the moment `now` for the moment `due`, both
    /// in milliseconds, and for no other moment any more. `NoMemory`: some of them may be owed so.
    pub fn renew_due(&mut self, domain: DomainNo, now: u64, due: u64) -> Result<(), NoMemory>
        ensures own { OnOk result
            (owed_in self.new domain ≡ all_renewed now due (owed_in self.old domain)) }
        ensures others { (e : DomainNo) → e ≢ domain → owed_in self.new e ≡ owed_in self.old e }
    {
        match self.dues.get_mut(&domain) {
            Some(dues) => renew_due_in(&mut self.moments, dues, self.alloc, domain, now, due),
            None => Ok(()),
        }
    }

    /// Whether the domain owes the frame of a key, for whichever moment. Takes no memory.
    pub fn is_owed(&self, domain: DomainNo, key: &OwedKey) -> bool
        ensures { result ≡ is_owed (owed_in self.now domain) key.now }
    {
        match self.dues.get(&domain) {
            Some(dues) => dues.contains_key(key),
            None => false,
        }
    }

    /// The keys of the domain's frames that are due at the moment `now`, in milliseconds: those of
    /// that moment and of earlier ones, in order of their moments and then of their keys. They stay
    /// owed. `NoMemory`: the list was refused memory.
    pub fn due(&self, domain: DomainNo, now: u64) -> Result<Vec<OwedKey>, NoMemory>
        ensures value { IfOk result (λ keys. keys.items ≡ due_at now (owed_in self.now domain)) }
        ensures rising { IsTrue (is_rising owed_cmp (due_frames now (owed_in self.now domain))) }
    {
        due_keys(&self.moments, self.alloc, domain, now)
    }

    /// The domain owes nothing any more. Takes no memory.
    pub fn drop_domain(&mut self, domain: DomainNo)
        ensures own { owed_in self.new domain ≡ [] }
        ensures others { (e : DomainNo) → e ≢ domain → owed_in self.new e ≡ owed_in self.old e }
    {
        if let Some(mut dues) = self.dues.remove(&domain) {
            drop_in(&mut self.moments, &mut dues, domain);
        }
    }
}

// Sees to it that there is a map for a domain. `NoMemory` changes nothing.
fn open(
    tables: &mut BTreeMap<DomainNo, Dues>,
    alloc: Global,
    domain: DomainNo,
) -> Result<(), NoMemory>
    ensures ok { OnOk result (IsTrue (is_some (table_of tables.new.entries domain))) }
    ensures same { (d : DomainNo) (key : OwedKey)
        → due_in tables.new.entries d key ≡ due_in tables.old.entries d key }
{
    if !tables.contains_key(&domain) {
        tables.insert(domain, BTreeMap::new(alloc))?;
    }
    Ok(())
}
