ghost use Rattle.std.specs.Prelude.{◌≡◌, ◌++◌, ◌==◌, [], ◌∷◌, true, Ok};
ghost use Rattle.std.specs.Prelude.{IfOk, OnOk, if◌then◌else◌, map};
ghost use Rattle.cast_domain.specs.Records.{number_of};
ghost use Rattle.cast_table.specs.Tables.{InTable, IsApplied, domains_of};
ghost use Rattle.cast_world.specs.Ids.{ids_of};

use crate::step::Packet;
use cast_events::{Config, DomainConfig, Event, Fault, Outs, Taken};
use cast_message::SiteFrame;
use cast_table::Table;
use cast_types::{DomainNo, List, NoMemory, Proc, SiteNo, Uid};
use std::alloc::{AllocError, Global};

/// A daemon that serves one domain alone, at its site, and all that its processes delivered.
#[derive(Drop)]
pub(crate) struct Daemon {
    pub(crate) site: SiteNo,
    /// The number of its domain.
    pub(crate) number: DomainNo,
    table: Table,
    delivered: List<(DomainNo, Proc, Uid)>,
    ghost alone: { map number_of (domains_of table) ≡ number ∷ [] },
}

impl Daemon {
    ghost use Rattle.cast_world.specs.Network.{names};
    ghost use Rattle.cast_world.specs.Worlds.{IsNew, Serves};

    /// A daemon before its first event.
    pub(crate) fn new(alloc: Global, site: SiteNo, domain: DomainConfig) -> Result<Self, NoMemory>
        ensures { IfOk result (IsNew site domain) }
    {
        let number = domain.domain;
        let mut domains = List::new(alloc);
        domains.push(domain)?;
        Ok(Daemon {
            site,
            number,
            table: Table::new(alloc, &Config { site, domains })?,
            delivered: List::new(alloc),
        })
    }

    /// The daemon makes the step of an event that names its domain, or none, and what it sends is
    /// on the network. `NoMemory` also where the domain halts.
    pub(crate) fn serve(
        &mut self,
        alloc: Global,
        event: &Event,
        sent: &mut Vec<Packet>,
    ) -> Result<(), NoMemory>
        requires { names self.old.number event.now ≡ true }
        ensures { OnOk result (Serves event.now self.old self.new sent.old.items sent.new.items) }
    {
        let mut outs = Outs::new(alloc);
        self.apply(event, &mut outs)?;
        let Outs {
            frames,
            delivered,
            ..
        } = outs;
        self.delivered.append(delivered)?;
        send_all(self.site, frames, sent)
    }

    /// The messages that a process of a domain delivered, in order.
    pub(crate) fn ids_of(
        &self,
        alloc: Global,
        domain: DomainNo,
        process: Proc,
    ) -> Result<List<Uid>, NoMemory>
        ensures { IfOk result (λ ids. ids
            ≡ (if self.now.number.0 == domain.0 then ids_of process self.now.delivered else [])) }
    {
        if self.number == domain {
            ids_of(alloc, self.delivered.as_slice(), process)
        } else {
            Ok(List::new(alloc))
        }
    }

    // The table makes the step of an event that names its domain, or none. `NoMemory` also where
    // the domain halts.
    fn apply(&mut self, event: &Event, outs: &mut Outs) -> Result<Taken, NoMemory>
        requires { names self.old.number event.now ≡ true }
        ensures applied { IfOk result (λ taken. InTable (IsApplied (Ok taken) event.now)
            self.old.table outs.old self.new.table outs.new) }
        ensures rest { (self.new.site ≡ self.old.site)
            × (self.new.number ≡ self.old.number)
            × (self.new.delivered ≡ self.old.delivered) }
    {
        match self.table.apply(event, outs) {
            Ok(taken) => Ok(taken),
            Err(Fault::NoMemory | Fault::Halted(_)) => Err(AllocError),
            Err(Fault::NoDomain) => unreachable!(),
        }
    }
}

// Of these deliveries those of a process.
fn ids_of(
    alloc: Global,
    delivered: &[(DomainNo, Proc, Uid)],
    process: Proc,
) -> Result<List<Uid>, NoMemory>
    ensures { IfOk result (λ ids. ids ≡ ids_of process delivered.now) }
{
    let mut ids = List::new(alloc);
    for (_, by, id) in delivered {
        if *by == process {
            ids.push(*id)?;
        }
    }
    Ok(ids)
}

// What a site sends is on the network.
fn send_all(
    from: SiteNo,
    frames: List<(DomainNo, SiteNo, SiteFrame)>,
    sent: &mut Vec<Packet>,
) -> Result<(), NoMemory>
    ensures { OnOk result (sent.new.items
        ≡ sent.old.items ++ map (λ f. record { from = from; to = f.1; frame = f.2 }) frames) }
{
    for (_, to, frame) in frames.into_vec() {
        sent.push(Packet { from, to, frame })?;
    }
    Ok(())
}
