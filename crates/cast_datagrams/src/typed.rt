ghost use Rattle.std.specs.List.{AllByRecursion};
ghost use Rattle.cast_datagrams.specs.Typed.{FitCounts, FitKept, FitMembers, FitPlaces, FitTimes};
ghost use Rattle.cast_datagrams.specs.Typed.{FitsBody, FitsClock, FitsEntry, FitsFlushed};
ghost use Rattle.cast_datagrams.specs.Typed.{FitsInstall, FitsMarked, FitsMessage};
ghost use Rattle.cast_datagrams.specs.Typed.{FitsNewHolder, FitsProc, FitsTail, FitsType};
ghost use Rattle.cast_datagrams.specs.Typed.{FitsSent, FitsUid, IsByte, IsShort, IsWord};

use cast_message::{Body, KeptIds, Membership, Message, Placement, SiteFrame, Tail};
use cast_types::{Clock, Counts, DomainNo, GroupNo, Proc, SiteNo, Stamp, Uid};

fn proc_fits(_proc: Proc)
    ensures { FitsProc _proc }
{}

fn entry_fits(_entry: (Proc, u32))
    ensures { FitsEntry _entry }
{}

fn id_fits(_id: Uid)
    ensures { FitsUid _id }
{}

fn entries_fit(entries: &[(Proc, u32)])
    ensures { AllByRecursion FitsEntry entries.now }
{
    for entry in entries {
        entry_fits(*entry);
    }
}

fn procs_fit(procs: &[Proc])
    ensures { AllByRecursion FitsProc procs.now }
{
    for proc in procs {
        proc_fits(*proc);
    }
}

fn marked_fit(entries: &[((Proc, u32), bool)])
    ensures { AllByRecursion FitsMarked entries.now }
{
    for entry in entries {
        entry_fits(entry.0);
    }
}

fn counts_fit(counts: &Counts)
    ensures { FitCounts counts.now }
{
    entries_fit(counts.entries());
}

fn clock_fits(entry: &(GroupNo, Clock))
    ensures { FitsClock entry.now }
{
    view_fits(entry.0, entry.1.view);
    counts_fit(&entry.1.counts);
}

fn clocks_fit(clocks: &[(GroupNo, Clock)])
    ensures { AllByRecursion FitsClock clocks.now }
{
    for entry in clocks {
        clock_fits(entry);
    }
}

fn times_fit(times: &Stamp)
    ensures { FitTimes times.now }
{
    clocks_fit(times.clocks());
}

fn new_holder_fits(holder: Option<Proc>)
    ensures { FitsNewHolder holder }
{
    if let Some(proc) = holder {
        proc_fits(proc);
    }
}

fn placement_fits(placement: &Placement)
    ensures { FitPlaces placement.now }
{
    entries_fit(placement.ids());
    new_holder_fits(placement.holder());
}

fn body_fits(body: &Body)
    ensures { FitsBody body.now }
{
    match body {
        Body::Causal(payload) | Body::Atomic(payload) => {
            payload.bytes();
        }
        Body::Order(placement) => placement_fits(placement),
    }
}

fn message_fits(message: &Message)
    ensures { FitsMessage message.now }
{
    id_fits(message.id);
    times_fit(&message.times);
    body_fits(&message.body);
}

fn members_fit(members: &Membership)
    ensures { FitMembers members.now }
{
    procs_fit(members.list());
}

fn tail_fits(tail: &Tail)
    ensures { FitsTail tail.now }
{
    entries_fit(tail.ids());
}

fn kept_fit(kept: &KeptIds)
    ensures { FitKept kept.now }
{
    marked_fit(kept.entries());
}

fn flushed_fits(_group: GroupNo, _view: u32, counts: &Counts, tail: &Tail, kept: &KeptIds)
    ensures { FitsFlushed _group _view counts.now tail.now kept.now }
{
    counts_fit(counts);
    tail_fits(tail);
    kept_fit(kept);
}

fn install_fits(
    _group: GroupNo,
    _view: u32,
    members: &Membership,
    _request: u32,
    cut: &Counts,
    tail: &Tail,
)
    ensures { FitsInstall _group _view members.now _request cut.now tail.now }
{
    members_fit(members);
    counts_fit(cut);
    tail_fits(tail);
}

fn numbers_fit(_domain: DomainNo, _site: SiteNo)
    ensures { IsByte _domain.0 × IsShort _site.0 }
{}

fn view_fits(_group: GroupNo, _view: u32)
    ensures { IsShort _group.0 × IsWord _view }
{}

fn frame_fits(frame: &SiteFrame)
    ensures { FitsType frame.now }
{
    match frame {
        SiteFrame::Data(message) | SiteFrame::Forward(message) => message_fits(message),
        SiteFrame::Ack(id) | SiteFrame::Stable(id) | SiteFrame::Want(id) => id_fits(*id),
        SiteFrame::Ask {
            group,
            number,
            proc,
            ..
        } => {
            view_fits(*group, *number);
            proc_fits(*proc);
        }
        SiteFrame::Asked { group, number, .. } => view_fits(*group, *number),
        SiteFrame::Prepare { group, view }
        | SiteFrame::Installed { group, view }
        | SiteFrame::Out { group, view } => view_fits(*group, *view),
        SiteFrame::Flushed {
            group,
            view,
            counts,
            tail,
            kept,
        } => flushed_fits(*group, *view, counts, tail, kept),
        SiteFrame::Install {
            group,
            view,
            members,
            request,
            cut,
            tail,
        } => install_fits(*group, *view, members, *request, cut, tail),
    }
}

fn sent_fits(sent: &(DomainNo, SiteNo, SiteFrame))
    ensures { FitsSent sent.now }
{
    numbers_fit(sent.0, sent.1);
    frame_fits(&sent.2);
}

/// Frames that are sent are values of their types, and so are their domains and the sites that they
/// are for.
pub fn frames_fit(frames: &[(DomainNo, SiteNo, SiteFrame)])
    ensures { AllByRecursion FitsSent frames.now }
{
    for sent in frames {
        sent_fits(sent);
    }
}
