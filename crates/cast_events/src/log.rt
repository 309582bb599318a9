use crate::event::Taken;
use cast_message::{Push, SiteFrame};
use cast_types::{DomainNo, List, SiteNo};

/// Why a table did not take an event.
#[derive(Clone, Copy, Debug, PartialEq, Eq)]
pub enum Fault {
    /// There is no memory to begin with. Nothing is changed.
    NoMemory,
    /// The step of this domain found no memory: it is halted. Of a tick, which is for all, it is
    /// the least number of the domains that it halted; the others have made their steps.
    Halted(DomainNo),
    /// No domain of this number is configured. Nothing is changed. No tick is answered so.
    NoDomain,
}

/// What a domain gave.
#[derive(Drop)]
pub struct Given {
    pub domain: DomainNo,
    /// For each serial from 1 on, everything that was pushed to its session, in order.
    pub pushes: List<List<Push>>,
    /// The frames that were sent for the domain, in order, each with the site that it goes to.
    pub sent: List<(SiteNo, SiteFrame)>,
    /// Whether want of memory halted the domain.
    pub halted: bool,
}

/// What came of a list of events.
#[derive(Drop)]
pub struct Log {
    /// The answer to each event.
    pub answers: List<Result<Taken, Fault>>,
    /// What each domain gave, in the order of the configuration.
    pub given: List<Given>,
}
