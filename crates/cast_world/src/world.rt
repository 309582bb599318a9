ghost use Rattle.std.specs.Prelude.{◌≡◌, ◌<◌, true, false, Some, IfSome};
ghost use Rattle.std.specs.Prelude.{IfOk, OnOk, OnErr, length, vec_len};
ghost use Rattle.cast_world.specs.Network.{is_local, names};
ghost use Rattle.cast_world.specs.Worlds.{Acts, Hands, NamesAt, Runs, ServesAt, Takes};
ghost use Rattle.cast_world.specs.Worlds.{TellsDelivered, has_failed, place_named, StandsAtStart};

use crate::daemon::Daemon;
use crate::step::{Happening, Packet, Step};
use cast_events::{Config, Event};
use cast_types::{DomainNo, List, NoMemory, Proc, SiteNo, Uid};
use std::alloc::{AllocError, Global};

/// Daemons that serve one domain, each alone and at a site of its own, and the network between
/// them, which has every frame ever sent.
#[derive(Drop)]
pub struct World {
    alloc: Global,
    daemons: Vec<Daemon>,
    sent: Vec<Packet>,
    failed: bool,
}

impl World {
    /// A daemon for each of these configurations, before its first event: at its site, and of its
    /// first domain. One without a domain has none.
    pub fn new(alloc: Global, configs: &[Config]) -> Result<Self, NoMemory>
        ensures { IfOk result (StandsAtStart configs.now) }
    {
        let mut daemons = Vec::new(alloc);
        for config in configs {
            if let Some(domain) = config.domains.as_slice().first() {
                daemons.push(Daemon::new(alloc, config.site, domain.copy()?)?)?;
            }
        }
        Ok(World {
            alloc,
            daemons,
            sent: Vec::new(alloc),
            failed: false,
        })
    }

    /// Takes these steps, one after another. `NoMemory` also where a domain halts; after it each
    /// later call answers it too.
    pub fn run(&mut self, steps: &[Step]) -> Result<(), NoMemory>
        ensures runs { OnOk result (Runs steps.now self.old self.new) }
        ensures fails { OnErr result (has_failed self.new ≡ true) }
        ensures failed { OnOk result (has_failed self.old ≡ false) }
    {
        if self.failed {
            return Err(AllocError);
        }
        match self.take_all(steps) {
            Ok(()) => Ok(()),
            Err(error) => {
                self.failed = true;
                Err(error)
            }
        }
    }

    /// The messages that a process of a domain delivered, in order: none where the network has no
    /// such domain or process. `NoMemory` also after `run` answered it.
    pub fn delivered(&self, domain: DomainNo, process: Proc) -> Result<List<Uid>, NoMemory>
        ensures ids { IfOk result (TellsDelivered self.now domain process) }
        ensures failed { OnOk result (has_failed self.now ≡ false) }
    {
        if self.failed {
            return Err(AllocError);
        }
        match place_of(&self.daemons, process.site) {
            Some(place) => self.daemons[place].ids_of(self.alloc, domain, process),
            None => Ok(List::new(self.alloc)),
        }
    }

    // Takes these steps.
    fn take_all(&mut self, steps: &[Step]) -> Result<(), NoMemory>
        ensures { OnOk result (Runs steps.now self.old self.new) }
    {
        for step in steps {
            self.take(step)?;
        }
        Ok(())
    }

    // Takes a step.
    fn take(&mut self, step: &Step) -> Result<(), NoMemory>
        ensures { OnOk result (Takes step.now self.old self.new) }
    {
        let Some(place) = place_of(&self.daemons, step.site) else {
            return Ok(());
        };
        match &step.what {
            Happening::Local(event) => self.act(step.site, place, event),
            Happening::Sent(number) => self.hand(step.site, place, *number),
        }
    }

    // The daemon at a site acts on an event of its own, where it is one.
    fn act(&mut self, site: SiteNo, place: usize, event: &Event) -> Result<(), NoMemory>
        requires named { place_named site self.old.daemons.items ≡ Some place }
        requires within { place < vec_len self.old.daemons }
        ensures { OnOk result (Acts site event.now self.old self.new) }
    {
        let number = self.daemons[place].number;
        if is_local(event) && names(number, event) {
            self.serve_at(site, place, event)
        } else {
            Ok(())
        }
    }

    // A frame is handed to the daemon at a site, where it is addressed to that.
    fn hand(&mut self, site: SiteNo, place: usize, number: usize) -> Result<(), NoMemory>
        requires named { place_named site self.old.daemons.items ≡ Some place }
        requires within { place < vec_len self.old.daemons }
        ensures { OnOk result (Hands site number self.old self.new) }
    {
        let domain = self.daemons[place].number;
        let Some(packet) = self.sent.get(number) else {
            return Ok(());
        };
        if packet.to != site {
            return Ok(());
        }
        let event = Event::Frame(domain, packet.from, packet.frame.copy()?);
        self.serve_at(site, place, &event)
    }

    // The daemon at a site makes the step of an event that names its domain, or none.
    fn serve_at(&mut self, site: SiteNo, place: usize, event: &Event) -> Result<(), NoMemory>
        requires named { place_named site self.old.daemons.items ≡ Some place }
        requires within { place < vec_len self.old.daemons }
        requires own { NamesAt place event.now self.old.daemons.items }
        ensures { OnOk result (ServesAt site event.now self.old self.new) }
    {
        let alloc = self.alloc;
        let daemon = &mut self.daemons[place];
        daemon.serve(alloc, event, &mut self.sent)
    }
}

// Where the first daemon at a site stands.
fn place_of(daemons: &[Daemon], site: SiteNo) -> Option<usize>
    ensures named { result ≡ place_named site daemons.now }
    ensures within { IfSome result (λ i. i < length daemons.now) }
{
    daemons.iter().position(|daemon| daemon.site == site)
}

// Whether an event is of a site's own, and no frame.
fn is_local(event: &Event) -> bool
    ensures { result ≡ is_local event.now }
{
    !matches!(event, Event::Frame(..))
}

// Whether an event names a domain, or none.
fn names(domain: DomainNo, event: &Event) -> bool
    ensures { result ≡ names domain event.now }
{
    match event.domain() {
        Some(named) => named == domain,
        None => true,
    }
}
