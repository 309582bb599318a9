ghost use Rattle.std.specs.Prelude.{◌≡◌};
ghost use Rattle.cast_timer.specs.Owed.{is_of_messages, is_of_view, is_same_message, is_upto};

use cast_types::{DomainNo, GroupNo, Proc, SiteNo};

/// What kind of frame is owed, in the order in which frames that are due at one moment are sent.
#[derive(Clone, Copy, Debug, PartialEq, Eq, PartialOrd, Ord)]
pub enum OwedKind {
    /// A request to the home.
    Ask,
    /// A message.
    Data,
    /// The beginning of a flush.
    Prepare,
    /// A call for messages that a site lacks.
    Want,
    /// A view that was decided.
    Install,
    /// What a site has received.
    Ack,
}

/// Who owes a frame: the site for itself, or as the home of the group.
#[derive(Clone, Copy, Debug, PartialEq, Eq, PartialOrd, Ord)]
pub enum Side {
    Site,
    Home,
}

/// Which frame is owed. Two keys are ordered by their parts from first to last; a part that a kind
/// lacks is 0.
#[derive(Clone, Copy, Debug, PartialEq, Eq, PartialOrd, Ord)]
pub struct OwedKey {
    pub kind: OwedKind,
    /// The group that the frame is about.
    pub group: GroupNo,
    /// The process that the frame is about.
    pub proc: Proc,
    /// The number of the message, request or view.
    pub count: u32,
    /// The site that the frame goes to.
    pub site: SiteNo,
    /// Who owes it.
    pub side: Side,
}

impl OwedKey {
    /// Whether both are of messages, and of the same one, to whichever sites.
    pub fn is_same_message(&self, other: &OwedKey) -> bool
        ensures { result ≡ is_same_message self.now other.now }
    {
        let here = OwedKey {
            site: self.site,
            ..*other
        };
        self.kind == OwedKind::Data && here == *self
    }
}

// Whether the second key differs from the first at most in its count, and has no higher one.
pub(crate) fn is_upto(key: &OwedKey, other: &OwedKey) -> bool
    ensures { result ≡ is_upto key.now other.now }
{
    let raised = OwedKey {
        count: key.count,
        ..*other
    };
    raised == *key && other.count <= key.count
}

// Whether a site owes a frame of the key for a view of the group, and no longer once that view has
// ended.
pub(crate) fn is_of_view(group: GroupNo, key: &OwedKey) -> bool
    ensures { result ≡ is_of_view group key.now }
{
    key.group == group && is_of_messages(key.kind, key.side)
}

// Whether a frame is about a message of the group, as a site owes it.
fn is_of_messages(kind: OwedKind, side: Side) -> bool
    ensures { result ≡ is_of_messages kind side }
{
    match kind {
        OwedKind::Data | OwedKind::Ack => true,
        OwedKind::Want => side == Side::Site,
        OwedKind::Ask | OwedKind::Prepare | OwedKind::Install => false,
    }
}

/// A frame that is owed. Frames are ordered by the moment at which they are due, and at one moment
/// by key.
#[derive(Clone, Copy, Debug, PartialEq, Eq, PartialOrd, Ord)]
pub struct Owed {
    /// The moment at which it is due to be sent again, in milliseconds.
    pub due: u64,
    /// Which frame it is.
    pub key: OwedKey,
}

/// A moment at which frames of a domain are due. Moments are ordered by time, and at one time by
/// domain.
#[derive(Clone, Copy, PartialEq, Eq, PartialOrd, Ord)]
pub(crate) struct Moment {
    /// In milliseconds.
    pub(crate) due: u64,
    pub(crate) domain: DomainNo,
}
