ghost use Rattle.std.specs.Prelude.{◌≡◌};

/// The number of a domain, 1 to 255.
#[derive(Clone, Copy, Debug, PartialEq, Eq, PartialOrd, Ord)]
pub struct DomainNo(pub u8);

/// The number of a site, 1 to 65,535. A daemon that is started again takes a number never used
/// before.
#[derive(Clone, Copy, Debug, PartialEq, Eq, PartialOrd, Ord)]
pub struct SiteNo(pub u16);

/// The number of a group in its domain, 1 to 65,535.
#[derive(Clone, Copy, Debug, PartialEq, Eq, PartialOrd, Ord)]
pub struct GroupNo(pub u16);

/// A process: one connection of a program to its daemon. Processes are ordered by site, then by
/// serial.
#[derive(Clone, Copy, Debug, PartialEq, Eq, PartialOrd, Ord)]
pub struct Proc {
    pub site: SiteNo,
    /// Counts the connections of a domain at a site from 1, and is never used again.
    pub serial: u32,
}

/// The name of a message: the count-th of its process in a view of a group. Views and counts begin
/// at 1.
#[derive(Clone, Copy, Debug, PartialEq, Eq, PartialOrd, Ord)]
pub struct Uid {
    pub group: GroupNo,
    pub view: u32,
    pub proc: Proc,
    pub count: u32,
}

/// How the messages of a kind are ordered, after Birman, Schiper and Stephenson, "Lightweight
/// Causal and Atomic Group Multicast", ACM TOCS 9(3), 1991.
#[derive(Clone, Copy, Debug, PartialEq, Eq)]
pub enum Kind {
    /// Delivered after all that happened before it (CBCAST).
    Causal,
    /// Also at one place of the view's total order (ABCAST).
    Atomic,
    /// Sets places of that order (a sets-order message).
    Order,
}

impl Kind {
    ghost use Rattle.cast_types.specs.Names.{is_atomic};

    /// Whether a message of this kind is an ABCAST.
    pub fn is_atomic(self) -> bool
        ensures { result ≡ is_atomic self }
    {
        match self {
            Kind::Atomic => true,
            Kind::Causal | Kind::Order => false,
        }
    }
}

/// The key under which a domain keeps a message.
#[derive(Clone, Copy, Debug, PartialEq, Eq)]
pub struct Key(pub usize);

/// What a process is in a group.
#[derive(Clone, Copy, Debug, PartialEq, Eq)]
pub enum Standing {
    /// Neither a member nor joining.
    Outside,
    /// Its join is not decided yet.
    Joining {
        /// The number of its request to the home.
        request: u32,
        /// The view of the group in its time when it asked.
        heard: u32,
    },
    /// In the group's view.
    Member,
}
