//! What a frame tells of the site that it is from.
ghost use Rattle.std.specs.Prelude.{◌≡◌};
ghost use Rattle.cast_sending.specs.Heard.{entered_by, heard_in};

use crate::acks::acknowledged_by;
use cast_events::Event;
use cast_message::SiteFrame;
use cast_types::{DomainNo, GroupNo, SiteNo, Uid};

/// What a frame tells of the site that it is from.
#[derive(Clone, Copy, Debug, PartialEq, Eq)]
pub struct Heard {
    /// The domain of the frame.
    pub domain: DomainNo,
    /// The site that sent it.
    pub site: SiteNo,
    /// The group that the frame is about.
    pub group: GroupNo,
    /// The site has entered this view of it.
    pub view: u32,
    /// The message that it acknowledges.
    pub acknowledged: Option<Uid>,
}

// The view of a group that a site has entered which sends this frame. `None` if the frame does not
// tell.
fn entered_by(frame: &SiteFrame) -> Option<(GroupNo, u32)>
    ensures { result ≡ entered_by frame.now }
{
    match frame {
        SiteFrame::Data(message) => Some((message.id.group, message.id.view)),
        SiteFrame::Ack(id) | SiteFrame::Stable(id) => Some((id.group, id.view)),
        SiteFrame::Installed { group, view } => Some((*group, *view)),
        _ => None,
    }
}

/// What an event tells of a site, if it is a frame that a site sends only of a view that it has
/// entered.
pub fn heard_in(event: &Event) -> Option<Heard>
    ensures { result ≡ heard_in event.now }
{
    let Event::Frame(domain, site, frame) = event else {
        return None;
    };
    let (group, view) = entered_by(frame)?;
    Some(Heard {
        domain: *domain,
        site: *site,
        group,
        view,
        acknowledged: acknowledged_by(frame),
    })
}
