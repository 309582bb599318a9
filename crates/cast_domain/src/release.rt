use crate::domain::Domain;
use crate::lent::Lent;
use cast_types::{Key, Source, Uid};

impl Domain {
    ghost use Rattle.std.specs.Prelude.{◌≡◌, ◌<◌, false, None, IfSome, ◌&&◌, not, Some, IfNone};
    ghost use Rattle.cast_domain.specs.Records.{Keeps, KeepsBeside, records_in, Makes, own_records};
    ghost use Rattle.cast_domain.specs.FlushCalls.{is_open_in};
    ghost use Rattle.cast_domain.specs.ReleaseCalls.{release_in};
    ghost use Rattle.cast_domain.specs.Calls.{records};
    ghost use Rattle.cast_domain.specs.RestCalls.{resting_records};
    ghost use Rattle.cast_rules.specs.Rules.Release.{is_free, let_go};
    ghost use Rattle.cast_domain.specs.Freed.{AreNotFree, AreNotFreeBut, IsFreeKey};
    ghost use Rattle.cast_delay.specs.Queue.{is_awaited};
    ghost use Rattle.cast_stable.specs.Acks.{is_stable_in};

    // Lets go of all free messages.
    pub fn let_go(&mut self, lent: &mut Lent<'_>)
        ensures stays { KeepsBeside self.old lent.old self.new lent.new }
        ensures made { Makes (let_go records resting_records) self.old lent.old self.new lent.new }
        ensures none { AreNotFree (records_in self.new lent.new) }
    {
        while let Some(key) = self.free_key(lent) {
            self.release(key, lent);
        }
    }

    // Lets go of the free messages of a source. Where no others are free, that is all.
    pub fn let_go_of(&mut self, source: Source, lent: &mut Lent<'_>)
        ensures stays { KeepsBeside self.old lent.old self.new lent.new }
        ensures made { AreNotFreeBut source (records_in self.old lent.old)
            → Makes (let_go records resting_records) self.old lent.old self.new lent.new }
        ensures none { AreNotFreeBut source (records_in self.old lent.old)
            → AreNotFree (records_in self.new lent.new) }
    {
        while let Some(key) = self.free_key_of(source, lent) {
            self.release(key, lent);
        }
    }

    // The key of a free message, where one is free. Of each process's messages only the first one
    // is looked at: where that is not free, none behind it is.
    fn free_key(&self, lent: &Lent<'_>) -> Option<Key>
        ensures some { IfSome result (IsFreeKey (records_in self.now lent.now)) }
        ensures none { IfNone result (AreNotFree (records_in self.now lent.now)) }
    {
        lent.shared
            .store
            .first_passing(self.config.domain, |id| self.is_free(id))
    }

    // The key of the first message of a source, if it is free. Where it is not, none behind it is.
    fn free_key_of(&self, source: Source, lent: &Lent<'_>) -> Option<Key>
        ensures some { IfSome result (IsFreeKey (records_in self.now lent.now)) }
        ensures none { IfNone result (AreNotFreeBut source (records_in self.now lent.now)
            → AreNotFree (records_in self.now lent.now)) }
    {
        let (id, key) = lent.shared.store.first_of(self.config.domain, source)?;
        if self.is_free(id) { Some(key) } else { None }
    }

    // Whether a message is of the current view, which is not frozen, stable, and delivered to each
    // member here.
    fn is_free(&self, id: Uid) -> bool
        ensures { result ≡ is_free records resting_records (own_records self.now) id }
    {
        self.is_open_to(id) && self.is_done_with(id)
    }

    // Whether a message is stable, and delivered to each member here. Only of a stable one it is
    // asked who awaits it.
    fn is_done_with(&self, id: Uid) -> bool
        ensures { result
            ≡ (is_stable_in self.now.acks id && not (is_awaited self.now.delay.rows id)) }
    {
        self.acks.is_stable(id) && self.acks.may_free(id, self.delay.is_awaited(id))
    }

    // Whether a message is of the current view of its group, which no flush has frozen.
    fn is_open_to(&self, id: Uid) -> bool
        ensures { result ≡ is_open_in (own_records self.now) id }
    {
        match self.place_of(id.group) {
            Some(place) => self.record(place).here.is_open(id.view),
            None => false,
        }
    }

    // Keeps the message under a key no longer.
    pub fn release(&mut self, key: Key, lent: &mut Lent<'_>)
        ensures stays { KeepsBeside self.old lent.old self.new lent.new }
        ensures made { Makes (λ r. release_in r key) self.old lent.old self.new lent.new }
    {
        lent.shared.remove(self.config.domain, key);
        self.delay.forget(key);
    }
}
