ghost use Rattle.std.specs.Prelude.{◌≡◌, ◌<◌, ◌==◌};
ghost use Rattle.cast_domain.specs.PartCalls.{close_in};

use crate::domain::Domain;
use crate::lent::Lent;
use cast_message::{Change, Push};
use cast_ready::ProcessUpdate;
use cast_types::limits::MAX_NUMBER;
use cast_types::{GroupNo, NoMemory, Refusal, Standing};

impl Domain {
    ghost use Rattle.std.specs.Prelude.{false, None, IfOk, OnOk, vec_len, Some, ◌++◌, ◌∷◌, []};
    ghost use Rattle.cast_outbox.specs.Pending.{with_entry};
    ghost use Rattle.cast_domain.specs.Records.{GivesBack, KeepsBeside};
    ghost use Rattle.cast_domain.specs.Records.{records_in, Makes, Attempts};
    ghost use Rattle.cast_domain.specs.PartCalls.{push_in, reason_in};
    ghost use Rattle.cast_domain.specs.Calls.{records};
    ghost use Rattle.cast_rules.specs.Rules.Commands.{leave};
    ghost use Rattle.cast_rules.specs.Rules.Leaving.{leave_all, leave_at, leave_group};
    ghost use Rattle.cast_rules.specs.Rules.Leaving.{close_session, tell, tell_open};

    // Lets a process leave the group at a place.
    pub fn leave_at(
        &mut self,
        place: usize,
        serial: u32,
        group: GroupNo,
        lent: &mut Lent<'_>,
    ) -> Result<Option<Refusal>, NoMemory>
        requires { place < vec_len self.old.groups }
        ensures stays { KeepsBeside self.old lent.old self.new lent.new }
        ensures made { IfOk result (Attempts (λ r. leave_at records r serial group place)
            self.old lent.old self.new lent.new) }
        ensures len { vec_len self.new.groups ≡ vec_len self.old.groups }
    {
        match self.delay.standing(self.process(serial), group) {
            Standing::Outside => Ok(Some(Refusal::NotMember)),
            Standing::Joining { .. } | Standing::Member => {
                self.leave_group(place, serial, group, lent)?;
                Ok(None)
            }
        }
    }

    // A process is outside the group at a place from now on, and asks to leave it, while a number
    // is left.
    fn leave_group(
        &mut self,
        place: usize,
        serial: u32,
        group: GroupNo,
        lent: &mut Lent<'_>,
    ) -> Result<(), NoMemory>
        requires { place < vec_len self.old.groups }
        ensures stays { KeepsBeside self.old lent.old self.new lent.new }
        ensures made { OnOk result (Makes (λ r. leave_group records r serial group place)
            self.old lent.old self.new lent.new) }
        ensures len { vec_len self.new.groups ≡ vec_len self.old.groups }
    {
        let process = self.process(serial);
        let asked = self.record(place).here.request_count();
        self.tell(process, ProcessUpdate::Standing(group, Standing::Outside))?;
        if asked == MAX_NUMBER {
            return Ok(());
        }
        self.request(place, Change::Leave, process, lent)
    }

    // A process leaves all its groups.
    pub fn leave_all(&mut self, serial: u32, lent: &mut Lent<'_>) -> Result<(), NoMemory>
        ensures stays { KeepsBeside self.old lent.old self.new lent.new }
        ensures made { OnOk result
            (Makes (λ r. leave_all records r serial) self.old lent.old self.new lent.new) }
        ensures len { vec_len self.new.groups ≡ vec_len self.old.groups }
    {
        for place in 0..self.groups.len() {
            let group = self.record(place).name;
            self.leave_at(place, serial, group, lent)?;
        }
        Ok(())
    }

    // Pushes an entry to a session. Where the outbox is full, it says that the program is too slow.
    fn push_entry(&self, serial: u32, entry: Push, lent: &mut Lent<'_>) -> Result<(), NoMemory>
        requires { let entries = (records_in self.now lent.old).part.outboxes serial in
            with_entry self.now.quotas.outbox entry entries ≡ entries ++ entry ∷ [] }
        ensures back { GivesBack self.now.config.domain lent.old lent.new }
        ensures made { OnOk result
            (Makes (λ r. push_in r serial entry) self.now lent.old self.now lent.new) }
    {
        lent.outs.push(self.config.domain, serial, &entry)?;
        lent.shared
            .push(self.config.domain, serial, self.quotas.outbox, entry)?;
        Ok(())
    }

    // Tells the program of a session something, if it is open. Where its outbox is full, the
    // session is closed instead.
    pub fn push(&mut self, serial: u32, entry: Push, lent: &mut Lent<'_>) -> Result<(), NoMemory>
        ensures stays { KeepsBeside self.old lent.old self.new lent.new }
        ensures made { OnOk result
            (Makes (λ r. tell records r serial entry) self.old lent.old self.new lent.new) }
        ensures len { vec_len self.new.groups ≡ vec_len self.old.groups }
    {
        if !self.is_open(serial) {
            return Ok(());
        }
        self.push_open(serial, entry, lent)
    }

    // The same where it is open.
    fn push_open(&mut self, serial: u32, entry: Push, lent: &mut Lent<'_>) -> Result<(), NoMemory>
        ensures stays { KeepsBeside self.old lent.old self.new lent.new }
        ensures made { OnOk result
            (Makes (λ r. tell_open records r serial entry) self.old lent.old self.new lent.new) }
        ensures len { vec_len self.new.groups ≡ vec_len self.old.groups }
    {
        if self.is_full(serial, lent) {
            return self.close_session(serial, Refusal::Slow, lent);
        }
        self.push_entry(serial, entry, lent)
    }

    // Closes an open session: its program is told why, and its process leaves all its groups. Where
    // its outbox is full, it was too slow.
    pub fn close_session(
        &mut self,
        serial: u32,
        refusal: Refusal,
        lent: &mut Lent<'_>,
    ) -> Result<(), NoMemory>
        ensures stays { KeepsBeside self.old lent.old self.new lent.new }
        ensures made { OnOk result (Makes (λ r. close_session records r serial refusal)
            self.old lent.old self.new lent.new) }
        ensures len { vec_len self.new.groups ≡ vec_len self.old.groups }
    {
        self.close(serial, refusal, lent)?;
        self.leave_all(serial, lent)
    }

    // Closes a session: its program is told why, and nothing after that.
    pub fn close(
        &mut self,
        serial: u32,
        refusal: Refusal,
        lent: &mut Lent<'_>,
    ) -> Result<(), NoMemory>
        ensures stays { KeepsBeside self.old lent.old self.new lent.new }
        ensures made { OnOk result (Makes (λ r. close_in r serial (reason_in r serial refusal))
            self.old lent.old self.new lent.new) }
        ensures len { vec_len self.new.groups ≡ vec_len self.old.groups }
    {
        let why = self.reason(serial, refusal, lent);
        self.push_entry(serial, Push::Closed(why), lent)?;
        self.sessions.close(serial);
        Ok(())
    }

    // Why a session is closed.
    fn reason(&self, serial: u32, refusal: Refusal, lent: &Lent<'_>) -> Refusal
        ensures { result ≡ reason_in (records_in self.now lent.now) serial refusal }
    {
        if self.is_full(serial, lent) {
            return Refusal::Slow;
        }
        refusal
    }
}
