ghost use Rattle.std.specs.Prelude.{◌≡◌, ◌++◌, ◌∷◌, [], IfOk, OnOk, OnErr};

use cast_message::{Command, Push, SiteFrame};
use cast_quota::QuotaName;
use cast_types::{DomainNo, List, NoMemory, Proc, Refusal, SiteNo, Uid};
use std::alloc::Global;

/// What happens to a daemon.
#[derive(Drop)]
pub enum Event {
    /// A program connects.
    Open(DomainNo),
    /// The program of a session does something.
    Command {
        domain: DomainNo,
        serial: u32,
        command: Command,
    },
    /// The program of a session is gone.
    Gone {
        domain: DomainNo,
        serial: u32,
    },
    /// A frame comes from a site, which may be the own one.
    Frame(DomainNo, SiteNo, SiteFrame),
    /// A site of the domain is suspected to have stopped.
    Suspect(DomainNo, SiteNo),
    /// A quota of a domain is to have another value.
    Quota {
        domain: DomainNo,
        name: QuotaName,
        value: u32,
    },
    /// The first entries of a session's outbox are taken, at most so many, 1 to `MAX_TAKE`.
    Take {
        domain: DomainNo,
        serial: u32,
        most: u32,
    },
    /// Time passes in all domains: the moment, in milliseconds, is at least this.
    Tick(u64),
}

impl Event {
    ghost use Rattle.cast_events.specs.Events.{domain_of};

    /// The domain that the event names; `None` of an event of all domains.
    pub fn domain(&self) -> Option<DomainNo>
        ensures { result ≡ domain_of self.now }
    {
        match self {
            Event::Open(domain) => Some(*domain),
            Event::Command { domain, .. } | Event::Gone { domain, .. } => Some(*domain),
            Event::Frame(domain, _, _) => Some(*domain),
            Event::Suspect(domain, _) => Some(*domain),
            Event::Quota { domain, .. } | Event::Take { domain, .. } => Some(*domain),
            Event::Tick(_) => None,
        }
    }
}

/// What an event is answered.
#[derive(Drop)]
pub enum Taken {
    Nothing,
    /// The serial of the new session.
    Opened(u32),
    Refused(Refusal),
    /// The entries that were taken from a session's outbox, in order.
    Entries(List<Push>),
}

/// What comes of events, each list in order.
#[derive(Drop)]
pub struct Outs {
    /// The frames sent, each with its domain and the site that it goes to.
    pub frames: List<(DomainNo, SiteNo, SiteFrame)>,
    /// The domains that were halted.
    pub halted: List<DomainNo>,
    /// Each delivery of a message to a process.
    pub delivered: List<(DomainNo, Proc, Uid)>,
    /// Each entry that was pushed to a session, with its domain and the session's serial.
    pub pushed: List<(DomainNo, u32, Push)>,
}

impl Outs {
    ghost use Rattle.cast_events.specs.Outs.{no_outs, outs_then};

    /// Nothing.
    pub fn new(alloc: Global) -> Self
        ensures { result ≡ no_outs }
    {
        Outs {
            frames: List::new(alloc),
            halted: List::new(alloc),
            delivered: List::new(alloc),
            pushed: List::new(alloc),
        }
    }

    /// Adds a frame of a domain to a site.
    pub fn send(&mut self, domain: DomainNo, to: SiteNo, frame: SiteFrame) -> Result<(), NoMemory>
        ensures frames { OnOk result
            (self.new.frames ≡ self.old.frames ++ (domain, to, frame) ∷ []) }
        ensures halted { self.new.halted ≡ self.old.halted }
        ensures delivered { self.new.delivered ≡ self.old.delivered }
        ensures pushed { self.new.pushed ≡ self.old.pushed }
    {
        self.frames.push((domain, to, frame))
    }

    /// Adds an entry that was pushed to a session of a domain: an equal one.
    pub fn push(&mut self, domain: DomainNo, serial: u32, entry: &Push) -> Result<(), NoMemory>
        ensures pushed { OnOk result
            (self.new.pushed ≡ self.old.pushed ++ (domain, serial, entry.now) ∷ []) }
        ensures frames { self.new.frames ≡ self.old.frames }
        ensures halted { self.new.halted ≡ self.old.halted }
        ensures delivered { self.new.delivered ≡ self.old.delivered }
    {
        self.pushed.push((domain, serial, entry.copy()?))
    }

    /// Adds what a step sent, delivered and pushed. `NoMemory` changes nothing.
    pub fn append(&mut self, step: Outs) -> Result<(), NoMemory>
        ensures ok { OnOk result (self.new ≡ outs_then self.old step) }
        ensures err { OnErr result (self.new ≡ self.old) }
    {
        let Outs {
            frames,
            delivered,
            pushed,
            ..
        } = step;
        let told = self.pushed.len();
        self.pushed.append(pushed)?;
        match self.append_sent(frames, delivered) {
            Ok(()) => Ok(()),
            Err(error) => {
                self.pushed.truncate(told);
                Err(error)
            }
        }
    }

    // Adds frames that were sent, and deliveries. `NoMemory` changes nothing.
    fn append_sent(
        &mut self,
        frames: List<(DomainNo, SiteNo, SiteFrame)>,
        delivered: List<(DomainNo, Proc, Uid)>,
    ) -> Result<(), NoMemory>
        ensures ok { OnOk result (self.new ≡ record self.old {
          frames = self.old.frames
              ++ frames;
          delivered = self.old.delivered ++ delivered;
        }) }
        ensures err { OnErr result (self.new ≡ self.old) }
    {
        let sent = self.frames.len();
        self.frames.append(frames)?;
        match self.delivered.append(delivered) {
            Ok(()) => Ok(()),
            Err(error) => {
                self.frames.truncate(sent);
                Err(error)
            }
        }
    }
}
