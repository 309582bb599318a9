//! Frames that are to go to the wire.
ghost use Rattle.std.specs.Prelude.{◌≡◌, ◌++◌, ◌∷◌, [], if◌then◌else◌};

use cast_message::SiteFrame;
use cast_types::{DomainNo, SiteNo};

// A frame of a domain for a site.
pub(crate) type Outgoing = (DomainNo, SiteNo, SiteFrame);

// Adds a frame to the others. False if there is no memory for it.
pub(crate) fn push(frames: &mut Vec<Outgoing>, frame: Outgoing) -> bool
    ensures { frames.new.items
        ≡ (if result then frames.old.items ++ frame ∷ [] else frames.old.items) }
{
    frames.push(frame).is_ok()
}
