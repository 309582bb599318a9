ghost use Rattle.std.specs.Prelude.{◌≡◌, IfOk};

use crate::membership::Membership;
use crate::payload::Payload;
use bytes::Bytes;
use cast_types::{GroupNo, NoMemory, Proc, Refusal, Uid};

/// Most bytes of the payload of a cast that one frame holds. More than a message's are decoded, and
/// refused later.
pub const MAX_CAST: usize = 19_988;

/// How the deliveries of a cast are ordered.
#[derive(Clone, Copy, Debug, PartialEq, Eq)]
pub enum CastKind {
    /// After each message that happened before it.
    Causal,
    /// So, and among all atomic casts of the group in one order everywhere.
    Atomic,
}

/// What a program asks of its daemon. The reply to it bears its tag.
#[derive(Drop)]
pub enum Request {
    /// Into the group.
    Join {
        /// Any number.
        tag: u32,
        /// The group to join.
        group: GroupNo,
    },
    /// Out of the group.
    Leave {
        /// Any number.
        tag: u32,
        /// The group to leave.
        group: GroupNo,
    },
    /// Send to the group. The payload may be longer than a message's, and is then refused.
    Cast {
        /// Any number.
        tag: u32,
        /// The group to send to.
        group: GroupNo,
        /// How its deliveries are ordered.
        kind: CastKind,
        /// What is sent.
        payload: Bytes,
    },
    /// Hand over the token of the group's view.
    Pass {
        /// Any number.
        tag: u32,
        /// The group of the view.
        group: GroupNo,
        /// The process that is to hold the token.
        to: Proc,
    },
}

impl Request {
    ghost use Rattle.cast_message.specs.Fitting.{request_fits};
    ghost use Rattle.cast_message.specs.Replies.{reply_to, tag_of};

    /// Whether the request fits a frame: the payload of a cast has at most 19,988 bytes.
    pub fn fits(&self) -> bool
        ensures { result ≡ request_fits self.now }
    {
        match self {
            Request::Join { .. } | Request::Leave { .. } | Request::Pass { .. } => true,
            Request::Cast { payload, .. } => payload.len() <= MAX_CAST,
        }
    }

    /// The number that the reply bears, any.
    pub fn tag(&self) -> u32
        ensures { result ≡ tag_of self.now }
    {
        match self {
            Request::Join { tag, .. }
            | Request::Leave { tag, .. }
            | Request::Cast { tag, .. }
            | Request::Pass { tag, .. } => *tag,
        }
    }

    /// The reply: the request is done, or refused for this reason.
    pub fn reply(&self, refusal: Option<Refusal>) -> Push
        ensures { result ≡ reply_to self.now refusal }
    {
        let tag = self.tag();
        Push::Reply { tag, refusal }
    }
}

/// What a program does, as its daemon is told of it.
#[derive(Drop)]
pub enum Command {
    /// It asks for something.
    Request(Request),
    /// It sent bytes that are no request.
    Bad,
}

/// What a daemon tells a program.
#[derive(Drop)]
pub enum Push {
    /// The program is connected as this process.
    Opened(Proc),
    /// A request is done, or refused.
    Reply {
        /// The tag of the request.
        tag: u32,
        /// Why it is refused, `None` where it is done.
        refusal: Option<Refusal>,
    },
    /// A view of a group, of which the process is a member.
    View {
        /// The group of the view.
        group: GroupNo,
        /// The number of the view, from 1 on.
        view: u32,
        /// The members of the view.
        members: Membership,
    },
    /// A message is delivered.
    Deliver {
        /// The name of the message.
        id: Uid,
        /// How its delivery is ordered.
        kind: CastKind,
        /// What it holds.
        payload: Payload,
    },
    /// The process is a member no longer.
    Ejected {
        /// The group that it was in.
        group: GroupNo,
        /// The number of the first view without it.
        view: u32,
    },
    /// The process is joining no longer: the group did not take it.
    Denied {
        /// The group that it asked to join.
        group: GroupNo,
        /// Why.
        refusal: Refusal,
    },
    /// The session is over: nothing is pushed after this.
    Closed(Refusal),
}

impl Push {
    /// An equal value.
    pub fn copy(&self) -> Result<Self, NoMemory>
        ensures { IfOk result (λ p. p ≡ self.now) }
    {
        match self {
            Push::Opened(process) => Ok(Push::Opened(*process)),
            Push::Reply { tag, refusal } => Ok(Push::Reply {
                tag: *tag,
                refusal: *refusal,
            }),
            Push::View {
                group,
                view,
                members,
            } => Ok(Push::View {
                group: *group,
                view: *view,
                members: members.copy()?,
            }),
            Push::Deliver { id, kind, payload } => Ok(Push::Deliver {
                id: *id,
                kind: *kind,
                payload: payload.copy()?,
            }),
            Push::Ejected { group, view } => Ok(Push::Ejected {
                group: *group,
                view: *view,
            }),
            Push::Denied { group, refusal } => Ok(Push::Denied {
                group: *group,
                refusal: *refusal,
            }),
            Push::Closed(refusal) => Ok(Push::Closed(*refusal)),
        }
    }
}

/// A frame between a program and its daemon.
#[derive(Drop)]
pub enum ClientFrame {
    /// From the program.
    Request(Request),
    /// To the program.
    Push(Push),
}

impl ClientFrame {
    ghost use Rattle.cast_message.specs.Fitting.{client_fits};

    /// Whether the frame has at most 20,000 bytes. Each push has.
    pub fn fits(&self) -> bool
        ensures { result ≡ client_fits self.now }
    {
        match self {
            ClientFrame::Request(request) => request.fits(),
            ClientFrame::Push(_) => true,
        }
    }
}
