ghost use Rattle.std.specs.Prelude.{◌≡◌, IfOk};
ghost use Rattle.cast_message.specs.declared.site.SiteFrame.TheVariants.{Flushed, Install};

use crate::kept_ids::KeptIds;
use crate::membership::{Membership, Tail};
use crate::message::Message;
use cast_types::{Counts, GroupNo, NoMemory, Proc, Uid};

/// What a site asks of the home for a process.
#[derive(Clone, Copy, Debug, PartialEq, Eq)]
pub enum Change {
    /// Into the group.
    Join,
    /// Out of the group.
    Leave,
}

/// What one site tells another.
#[derive(Drop)]
pub enum SiteFrame {
    /// A message.
    Data(Message),
    /// The sender has this message.
    Ack(Uid),
    /// All sites of the view have the messages of this one's process up to its count.
    Stable(Uid),
    /// A site asks the home to change a group's members.
    Ask {
        /// Whose members are to change.
        group: GroupNo,
        /// Counts the requests of the site from 1.
        number: u32,
        /// What is to become of the process.
        change: Change,
        /// The process, at the site that asks.
        proc: Proc,
    },
    /// The home has decided a request.
    Asked {
        /// The group of the request.
        group: GroupNo,
        /// The number of the request.
        number: u32,
        /// Whether it is refused because the group is full.
        full: bool,
    },
    /// The home asks what the sites of a view have of it, to end it.
    Prepare {
        /// The group of the view.
        group: GroupNo,
        /// The number of the view, from 1 on.
        view: u32,
    },
    /// What the sender has of a view that ends.
    Flushed {
        /// The group of the view.
        group: GroupNo,
        /// The number of the view, from 1 on.
        view: u32,
        /// How many messages of each process are delivered there or were sent from there.
        counts: Counts,
        /// The end of the view's order as it is known there, at most 512 ids.
        tail: Tail,
        /// The messages that are kept there.
        kept: KeptIds,
    },
    /// The sender wants this message.
    Want(Uid),
    /// A message that was wanted.
    Forward(Message),
    /// The home installs a view.
    Install {
        /// The group of the view.
        group: GroupNo,
        /// The number of the new view, from 1 on.
        view: u32,
        /// The members of the new view.
        members: Membership,
        /// The number of the request that the view answers, 0 for none.
        request: u32,
        /// How many messages of each process belong to the view before.
        cut: Counts,
        /// The end of the order of the view before.
        tail: Tail,
    },
    /// The sender has installed a view.
    Installed {
        /// The group of the view.
        group: GroupNo,
        /// The number of the view, from 1 on.
        view: u32,
    },
    /// The sender's view of a group has no members at the site that it tells.
    Out {
        /// The group of the view.
        group: GroupNo,
        /// The number of the sender's view, from 1 on.
        view: u32,
    },
}

impl SiteFrame {
    /// An equal value.
    pub fn copy(&self) -> Result<Self, NoMemory>
        ensures { IfOk result (λ f. f ≡ self.now) }
    {
        match self {
            SiteFrame::Data(message) => Ok(SiteFrame::Data(message.copy()?)),
            SiteFrame::Ack(id) => Ok(SiteFrame::Ack(*id)),
            SiteFrame::Stable(id) => Ok(SiteFrame::Stable(*id)),
            SiteFrame::Ask {
                group,
                number,
                change,
                proc,
            } => Ok(SiteFrame::Ask {
                group: *group,
                number: *number,
                change: *change,
                proc: *proc,
            }),
            SiteFrame::Asked {
                group,
                number,
                full,
            } => Ok(SiteFrame::Asked {
                group: *group,
                number: *number,
                full: *full,
            }),
            SiteFrame::Prepare { group, view } => Ok(SiteFrame::Prepare {
                group: *group,
                view: *view,
            }),
            SiteFrame::Flushed {
                group,
                view,
                counts,
                tail,
                kept,
            } => copy_flushed(*group, *view, counts, tail, kept),
            SiteFrame::Want(id) => Ok(SiteFrame::Want(*id)),
            SiteFrame::Forward(message) => Ok(SiteFrame::Forward(message.copy()?)),
            SiteFrame::Install {
                group,
                view,
                members,
                request,
                cut,
                tail,
            } => copy_install(*group, *view, members, *request, cut, tail),
            SiteFrame::Installed { group, view } => Ok(SiteFrame::Installed {
                group: *group,
                view: *view,
            }),
            SiteFrame::Out { group, view } => Ok(SiteFrame::Out {
                group: *group,
                view: *view,
            }),
        }
    }
}

// A `Flushed` of equal parts.
fn copy_flushed(
    group: GroupNo,
    view: u32,
    counts: &Counts,
    tail: &Tail,
    kept: &KeptIds,
) -> Result<SiteFrame, NoMemory>
    ensures { IfOk result (λ f. f ≡ Flushed group view counts.now tail.now kept.now) }
{
    Ok(SiteFrame::Flushed {
        group,
        view,
        counts: counts.copy()?,
        tail: tail.copy()?,
        kept: kept.copy()?,
    })
}

// An `Install` of equal parts.
fn copy_install(
    group: GroupNo,
    view: u32,
    members: &Membership,
    request: u32,
    cut: &Counts,
    tail: &Tail,
) -> Result<SiteFrame, NoMemory>
    ensures { IfOk result (λ f. f ≡ Install group view members.now request cut.now tail.now) }
{
    Ok(SiteFrame::Install {
        group,
        view,
        members: members.copy()?,
        request,
        cut: cut.copy()?,
        tail: tail.copy()?,
    })
}
