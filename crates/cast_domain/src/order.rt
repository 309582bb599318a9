ghost use Rattle.std.specs.Prelude.{◌≡◌, ◌<◌, OnOk};
ghost use Rattle.cast_domain.specs.PartCalls.{learn_in};

use crate::domain::Domain;
use cast_message::{Body, Message};
use cast_order::{OrderHand, Orders};
use cast_types::limits::MAX_NUMBER;
use cast_types::{GroupNo, NoMemory, Proc, Uid};

impl Domain {
    ghost use Rattle.std.specs.Prelude.{◌&&◌, ◌||◌};
    ghost use Rattle.cast_domain.specs.Records.{own_records, TellsAlone};
    ghost use Rattle.cast_domain.specs.PartCalls.{settled_in};
    ghost use Rattle.cast_domain.specs.FlushCalls.{holds_here};

    // Whether what is kept of a process is of one that was let in here, and that holds the token.
    pub fn holds_here(&self, hand: &OrderHand) -> bool
        ensures { result ≡ holds_here (own_records self.now) hand.now }
    {
        hand.first().is_some()
            && 0 < hand.process.serial
            && hand.process.serial <= self.sessions.used()
    }

    // How many messages of a process of this site are stable in a view: all in a view of this site
    // alone.
    pub fn stable_count(&self, group: GroupNo, view: u32, process: Proc) -> u32
        ensures { TellsAlone (λ r. settled_in r group view process) self.now result }
    {
        if self.acks.others(group).is_empty() {
            return MAX_NUMBER;
        }
        self.acks.stable_upto(Uid {
            group,
            view,
            proc: process,
            count: 0,
        })
    }
}

// Takes in what a received message tells of the order of its view.
pub fn learn(orders: &mut Orders, message: &Message) -> Result<(), NoMemory>
    ensures { OnOk result (orders.new ≡ learn_in orders.old message.now.id.group message.now.body) }
{
    match &message.body {
        Body::Order(places) => orders.learn(message.id.group, places),
        Body::Causal(_) | Body::Atomic(_) => Ok(()),
    }
}
