ghost use Rattle.std.specs.Prelude.{◌≡◌, true};
ghost use Rattle.std.specs.List.{list_all};
ghost use Rattle.cast_types.specs.Counts.{is_counts};
ghost use Rattle.cast_rules.specs.Lawful.{IsTypedFrame};

use cast_message::SiteFrame;
use cast_types::{Clock, GroupNo};

// What the types of a time's clocks promise of their counts, for the proofs: nothing is done.
fn promised_by_counts(clocks: &[(GroupNo, Clock)])
    ensures { list_all (λ c. is_counts c.1.counts) clocks.now ≡ true }
{
    for clock in clocks {
        clock.1.counts.entries();
    }
}

// What the types of a frame's parts promise, for the proofs: nothing is done.
pub(crate) fn promised_by_types(frame: &SiteFrame)
    ensures { IsTypedFrame frame.now }
{
    match frame {
        SiteFrame::Data(message) | SiteFrame::Forward(message) => {
            promised_by_counts(message.times.clocks());
        }
        SiteFrame::Install { members, .. } => {
            members.list();
        }
        SiteFrame::Ack(_)
        | SiteFrame::Stable(_)
        | SiteFrame::Ask { .. }
        | SiteFrame::Asked { .. }
        | SiteFrame::Prepare { .. }
        | SiteFrame::Flushed { .. }
        | SiteFrame::Want(_)
        | SiteFrame::Installed { .. }
        | SiteFrame::Out { .. } => {}
    }
}
