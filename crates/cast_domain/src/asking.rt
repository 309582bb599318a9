use crate::domain::Domain;
use crate::keys::ask_key;
use crate::lent::Lent;
use crate::record::ask_at;
use cast_message::Change;
use cast_types::{NoMemory, Proc};

impl Domain {
    ghost use Rattle.std.specs.Prelude.{◌≡◌, ◌<◌, OnOk, vec_len, ◌==◌};
    ghost use Rattle.cast_types.specs.Names.{site_eq};
    ghost use Rattle.cast_domain.specs.Records.{GivesBack, KeepsBeside, Makes};
    ghost use Rattle.cast_domain.specs.PartCalls.{record_at};
    ghost use Rattle.cast_domain.specs.Calls.{records};
    ghost use Rattle.cast_rules.specs.Rules.Asking.{ask_home, request};
    ghost use Rattle.cast_rules.specs.Rules.Keys.{ask_key};
    ghost use Rattle.cast_rules.specs.Rules.Owing.{owe};

    // Whether the domain's home is here.
    pub fn is_home(&self) -> bool
        ensures { result ≡ site_eq self.now.site self.now.config.home }
    {
        self.site == self.config.home
    }

    // Queues a request to the home, and asks it at once where it is the only one.
    pub fn request(
        &mut self,
        place: usize,
        change: Change,
        process: Proc,
        lent: &mut Lent<'_>,
    ) -> Result<(), NoMemory>
        requires placed { place < vec_len self.old.groups }
        requires numbered { (record_at self.old.groups.items place).here.asked < 4294967295 }
        ensures stays { KeepsBeside self.old lent.old self.new lent.new }
        ensures made { OnOk result (Makes (λ r. request records r place change process)
            self.old lent.old self.new lent.new) }
        ensures len { vec_len self.new.groups ≡ vec_len self.old.groups }
    {
        let is_first = self.record(place).here.requests().is_empty();
        ask_at(&mut self.groups, place, change, process)?;
        if is_first {
            return self.ask_home(place, lent);
        }
        Ok(())
    }

    // The first request of the group at a place, where there is one, is owed to the home.
    pub fn ask_home(&self, place: usize, lent: &mut Lent<'_>) -> Result<(), NoMemory>
        requires { place < vec_len self.now.groups }
        ensures back { GivesBack self.now.config.domain lent.old lent.new }
        ensures made { OnOk result
            (Makes (λ r. ask_home records r place) self.now lent.old self.now lent.new) }
    {
        let record = self.record(place);
        if record.here.requests().is_empty() {
            return Ok(());
        }
        self.owe(ask_key(record.name, self.config.home), lent)
    }
}
