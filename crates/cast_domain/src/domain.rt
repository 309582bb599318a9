ghost use Rattle.std.specs.Prelude.{◌<◌};

use crate::record::{GroupRecord, place_among};
use crate::sessions::Sessions;
use crate::shared::Shared;
use cast_delay::Delay;
use cast_events::{DomainConfig, Moment, Outs, Quotas};
use cast_message::SiteFrame;
use cast_order::Orders;
use cast_ready::ProcessUpdate;
use cast_stable::Acks;
use cast_types::{DomainNo, GroupNo, NoMemory, Proc, SiteNo};
use cast_view::{HomeSide, MemberSide};
use std::alloc::Global;

mod copy;

/// One domain at one site: one tenant, alone.
#[derive(Drop)]
pub struct Domain {
    pub site: SiteNo,
    pub config: DomainConfig,
    /// What the domain may use now.
    pub quotas: Quotas,
    pub moment: Moment,
    /// How many casts of programs were accepted.
    pub casts: u64,
    pub sessions: Sessions,
    /// One for each configured group, in their order.
    pub groups: Vec<GroupRecord>,
    pub delay: Delay,
    pub acks: Acks,
    pub orders: Orders,
    pub halted: bool,
}

impl Domain {
    ghost use Rattle.std.specs.Prelude.{◌≡◌, true, false, IfSome, IfOk, OnOk, vec_len};
    ghost use Rattle.cast_types.specs.Names.{group_cmp};
    ghost use Rattle.cast_types.specs.Rising.{is_rising};
    ghost use Rattle.cast_rules.specs.State.{opening};
    ghost use Rattle.cast_domain.specs.Records.{number_of, quotas_of, is_halted, IsFor};
    ghost use Rattle.cast_domain.specs.Records.{Keeps, MakesAlone, MakesWithOuts};
    ghost use Rattle.cast_domain.specs.Shared.{no_part};
    ghost use Rattle.cast_domain.specs.Fits.{Represents};
    ghost use Rattle.cast_domain.specs.PartCalls.{place_among, record_at, send_in, tell_in};
    ghost use Rattle.cast_rules.specs.Rules.Home.{want};
    ghost use Rattle.cast_events.specs.declared.event.Outs.{Outs};
    ghost use Rattle.cast_rules.specs.Rules.Leaving.{tell};

    /// A domain before its first event.
    pub fn new(alloc: Global, site: SiteNo, config: DomainConfig) -> Result<Self, NoMemory>
        ensures number { IfOk result (λ d. number_of d ≡ config.domain) }
        ensures running { IfOk result (λ d. is_halted d ≡ false) }
        ensures placed { IfOk result (λ d. IsFor site config d) }
        ensures begins { IfOk result (λ d. is_rising group_cmp config.groups ≡ true
            → Represents d no_part (opening site config)) }
    {
        let mut groups = Vec::new(alloc);
        for group in config.groups.as_slice() {
            groups.push(GroupRecord {
                name: *group,
                here: MemberSide::new(alloc),
                home: HomeSide::new(alloc),
            })?;
        }
        Ok(Domain {
            site,
            quotas: config.quotas,
            config,
            moment: Moment::first(),
            casts: 0,
            sessions: Sessions::new(alloc),
            groups,
            delay: Delay::new(alloc),
            acks: Acks::new(alloc, site),
            orders: Orders::new(alloc),
            halted: false,
        })
    }

    /// The number of the domain.
    pub fn number(&self) -> DomainNo
        ensures { result ≡ number_of self.now }
    {
        self.config.domain
    }

    /// What the domain may use now.
    pub fn quotas(&self) -> Quotas
        ensures { result ≡ quotas_of self.now }
    {
        self.quotas
    }

    /// Whether want of memory has halted the domain.
    pub fn is_halted(&self) -> bool
        ensures { result ≡ is_halted self.now }
    {
        self.halted
    }

    /// The process of a session.
    pub fn process(&self, serial: u32) -> Proc
        ensures { result ≡ record { site = self.now.site; serial = serial } }
    {
        Proc {
            site: self.site,
            serial,
        }
    }

    // Where a group stands among those that are configured.
    pub fn place_of(&self, group: GroupNo) -> Option<usize>
        ensures place { result ≡ place_among group self.now.groups.items }
        ensures within { IfSome result (λ i. i < vec_len self.now.groups) }
    {
        place_among(&self.groups, group)
    }

    // The group at a place.
    pub fn record(&self, place: usize) -> &GroupRecord
        requires { place < vec_len self.now.groups }
        ensures { result.now ≡ record_at self.now.groups.items place }
    {
        &self.groups[place]
    }

    // Tells the delay queue of a process.
    pub fn tell(&mut self, process: Proc, fact: ProcessUpdate) -> Result<(), NoMemory>
        ensures kept { Keeps self.old self.new }
        ensures made { OnOk result (MakesAlone (λ r. tell_in r process fact) self.old self.new) }
        ensures groups { self.new.groups ≡ self.old.groups }
    {
        self.delay.tell(process, &fact)
    }

    // Sends a frame to a site.
    pub fn send(&self, outs: &mut Outs, to: SiteNo, frame: SiteFrame) -> Result<(), NoMemory>
        ensures { OnOk result
            (MakesWithOuts (λ r. send_in r to frame) self.now outs.old self.now outs.new) }
    {
        outs.send(self.config.domain, to, frame)
    }
}
