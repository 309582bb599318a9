use crate::domain::Domain;
use crate::keys::message_key;
use crate::lent::Lent;
use crate::order::learn;
use cast_clock::{ClockFault, Times};
use cast_message::{Body, Message, Placement};
use cast_ready::ProcessUpdate;
use cast_timer::OwedKind;
use cast_types::limits::MAX_NUMBER;
use cast_types::{GroupNo, NoMemory, Proc, SiteNo, Stamp, Uid};
use std::alloc::AllocError;

impl Domain {
    ghost use Rattle.std.specs.Prelude.{◌≡◌, ◌<◌, None, IfOk, OnOk, vec_len, ◌==◌, ◌+◌, Some};
    ghost use Rattle.cast_domain.specs.Records.{GivesBack, Keeps, KeepsBeside, Makes, MakesAlone};
    ghost use Rattle.cast_domain.specs.PartCalls.{settled_in, note_sent_by};
    ghost use Rattle.cast_domain.specs.PartCalls.{orders_sent, raised_in, receive_in};
    ghost use Rattle.cast_domain.specs.Calls.{records};
    ghost use Rattle.std.specs.List.{fold};
    ghost use Rattle.cast_rules.specs.Rules.Keys.{message_key};
    ghost use Rattle.cast_rules.specs.Rules.Owing.{owe, send_for};
    ghost use Rattle.cast_rules.specs.Rules.Sending.{send_data, send_message};
    ghost use Rattle.cast_rules.specs.Rules.Leaving.{tell};
    ghost use Rattle.cast_message.specs.declared.message.Body.TheVariants as body;

    // Takes in that a process here has sent a message, and has its time.
    pub fn note_sent(
        &mut self,
        process: Proc,
        time: Times,
        message: &Message,
    ) -> Result<(), NoMemory>
        requires { message.now.times ≡ time }
        ensures same { Keeps self.old self.new }
        ensures made { OnOk result
            (MakesAlone (λ r. note_sent_by r process message.now) self.old self.new) }
        ensures groups { self.new.groups ≡ self.old.groups }
    {
        self.note_order(message)?;
        self.tell(process, ProcessUpdate::Time(time))
    }

    // Takes in what a message that a process here has sent says of the order.
    fn note_order(&mut self, message: &Message) -> Result<(), NoMemory>
        ensures same { Keeps self.old self.new }
        ensures made { OnOk result
            (MakesAlone (λ r. record r {
              orders = orders_sent r.orders message.now.id (settled_in r
                  message.now.id.group message.now.id.view message.now.id.proc) message.now.body;
            })
            self.old self.new) }
        ensures groups { self.new.groups ≡ self.old.groups }
    {
        match &message.body {
            Body::Order(places) => self.note_places(message.id, places),
            Body::Causal(_) | Body::Atomic(_) => Ok(()),
        }
    }

    // Takes in that a process here has sent a set-order message of these places, and whether it
    // handed over the token.
    fn note_places(&mut self, id: Uid, places: &Placement) -> Result<(), NoMemory>
        ensures same { Keeps self.old self.new }
        ensures made { OnOk result (MakesAlone (λ r. record r {
          orders = orders_sent r.orders id
              (settled_in r id.group id.view id.proc) (body.Order places.now);
        }) self.old self.new) }
        ensures groups { self.new.groups ≡ self.old.groups }
    {
        let settled = self.stable_count(id.group, id.view, id.proc);
        let last = (places.first() as usize + places.ids().len()).saturating_sub(1);
        self.orders
            .note(id.group, id.proc, id.count, last, settled)?;
        if places.holder().is_some() {
            self.orders.hand_over(id.group, id.proc)?;
        }
        Ok(())
    }

    // The time of a process with one more message of its own, and the stamp that this message
    // bears. None where the count cannot be raised.
    pub fn next_time(
        &self,
        process: Proc,
        group: GroupNo,
    ) -> Result<Option<(Times, Stamp)>, NoMemory>
        ensures { IfOk result (λ r. r ≡ raised_in self.now.delay process group) }
    {
        let Some(time) = self.delay.time(process) else {
            return Ok(None);
        };
        if time.count(group, process) == MAX_NUMBER {
            return Ok(None);
        }
        let mut raised = time.copy()?;
        match raised.bump(group, process) {
            Ok(()) => {}
            Err(ClockFault::TooMany) => return Ok(None),
            Err(ClockFault::NoMemory) => return Err(AllocError),
        }
        match raised.stamp()? {
            Some(stamp) => Ok(Some((raised, stamp))),
            None => Ok(None),
        }
    }

    // Receives an own message here, and sends it to each other site of the view.
    pub fn send_message(&mut self, message: Message, lent: &mut Lent<'_>) -> Result<(), NoMemory>
        ensures stays { KeepsBeside self.old lent.old self.new lent.new }
        ensures made { OnOk result
            (Makes (λ r. send_message records r message) self.old lent.old self.new lent.new) }
        ensures len { vec_len self.new.groups ≡ vec_len self.old.groups }
    {
        let id = message.id;
        self.receive(message, lent)?;
        self.send_data(id, self.acks.others(id.group), lent)?;
        Ok(())
    }

    // Sends an own message to sites.
    fn send_data(&self, id: Uid, sites: &[SiteNo], lent: &mut Lent<'_>) -> Result<(), NoMemory>
        ensures back { GivesBack self.now.config.domain lent.old lent.new }
        ensures made { OnOk result (Makes (λ r. fold (send_data records id) r sites.now)
            self.now lent.old self.now lent.new) }
    {
        for site in sites {
            self.send_data_to(id, *site, lent)?;
        }
        Ok(())
    }

    // Sends an own message to a site, and owes it until that has acknowledged it, as it may have
    // done before.
    fn send_data_to(&self, id: Uid, to: SiteNo, lent: &mut Lent<'_>) -> Result<(), NoMemory>
        ensures back { GivesBack self.now.config.domain lent.old lent.new }
        ensures made { OnOk result
            (Makes (λ r. send_data records id r to) self.now lent.old self.now lent.new) }
    {
        let key = message_key(OwedKind::Data, id, to);
        if self.acks.has_acked(to, id) {
            return self.send_for(&key, lent);
        }
        self.owe(key, lent)
    }

    // Receives a message: it is the last one in order of receipt.
    pub fn receive(&mut self, message: Message, lent: &mut Lent<'_>) -> Result<(), NoMemory>
        ensures stays { KeepsBeside self.old lent.old self.new lent.new }
        ensures made { OnOk result
            (Makes (λ r. receive_in r message) self.old lent.old self.new lent.new) }
        ensures len { vec_len self.new.groups ≡ vec_len self.old.groups }
    {
        let key = lent.shared.store.next_key(self.config.domain);
        self.delay.offer(key, &message)?;
        self.acks.receive(message.id)?;
        learn(&mut self.orders, &message)?;
        lent.shared.put(self.config.domain, message)
    }
}
