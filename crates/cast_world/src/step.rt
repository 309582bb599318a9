use cast_events::Event;
use cast_message::SiteFrame;
use cast_types::SiteNo;

/// A frame on the network.
#[derive(Drop)]
pub struct Packet {
    pub from: SiteNo,
    pub to: SiteNo,
    pub frame: SiteFrame,
}

/// What happens at a site.
#[derive(Drop)]
pub enum Happening {
    /// An event of the site's own, which is no frame. A frame given as one does nothing, and
    /// neither does an event that names another domain.
    Local(Event),
    /// The frame of this number, of all that were ever sent, the first of which has number 0, comes
    /// to the site that it is addressed to. Where there is none, or it is addressed to another
    /// site, nothing happens.
    Sent(usize),
}

/// A step of a network run. Where the site is none of the network's, nothing happens.
#[derive(Drop)]
pub struct Step {
    pub site: SiteNo,
    pub what: Happening,
}
