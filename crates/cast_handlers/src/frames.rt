ghost use Rattle.std.specs.Prelude.{◌≡◌, ◌<◌, OnOk, vec_len, not, Some};
ghost use Rattle.cast_rules.specs.Rules.Frames.{group_of, on_site_frame, on_frame};
ghost use Rattle.cast_domain.specs.Records.{KeepsBeside, Makes};
ghost use Rattle.cast_domain.specs.Calls.{records};
ghost use Rattle.cast_types.specs.Sets.{is_among};
ghost use Rattle.cast_rules.specs.Rules.Asking.{request};
ghost use Rattle.cast_rules.specs.Rules.Views.{on_out};

use crate::data::on_data;
use crate::flushes::{on_prepare, on_wanted};
use crate::home::{on_flushed, on_forward, on_installed, on_want};
use crate::requests::{on_ask, on_asked};
use crate::stability::{on_ack, on_stable};
use crate::views::{on_install, on_out};
use cast_domain::Domain;
use cast_domain::lent::Lent;
use cast_message::SiteFrame;
use cast_types::{GroupNo, NoMemory, SiteNo};
use cast_view::is_among;

// A frame comes from a site. One from a site or for a group that is not configured is ignored.
pub fn on_frame(
    domain: &mut Domain,
    from: SiteNo,
    frame: &SiteFrame,
    lent: &mut Lent<'_>,
) -> Result<(), NoMemory>
    ensures stays { KeepsBeside domain.old lent.old domain.new lent.new }
    ensures made { OnOk result
        (Makes (λ r. on_site_frame records r from frame.now)
        domain.old lent.old domain.new lent.new) }
{
    if !is_among(from, domain.config.sites.as_slice()) {
        return Ok(());
    }
    let Some(place) = domain.place_of(group_of(frame)) else {
        return Ok(());
    };
    frame_at(domain, place, from, frame, lent)
}

// A frame about the group at a place. One that no rule uses is ignored.
fn frame_at(
    domain: &mut Domain,
    place: usize,
    from: SiteNo,
    frame: &SiteFrame,
    lent: &mut Lent<'_>,
) -> Result<(), NoMemory>
    requires { place < vec_len domain.old.groups }
    ensures stays { KeepsBeside domain.old lent.old domain.new lent.new }
    ensures made { OnOk result (Makes (λ r. on_frame records r place from frame.now)
        domain.old lent.old domain.new lent.new) }
{
    match frame {
        SiteFrame::Data(message) => on_data(domain, place, from, message, lent),
        SiteFrame::Ask {
            number,
            change,
            proc,
            ..
        } => on_ask(domain, place, from, *number, *change, *proc, lent.outs),
        SiteFrame::Asked { number, full, .. } => on_asked(
            domain, place, from, *number, *full, lent,
        ),
        SiteFrame::Install {
            view,
            members,
            request,
            cut,
            tail,
            ..
        } => {
            on_install(
                domain, place, from, *view, members, *request, cut, tail, lent,
            )?;
            Ok(())
        }
        SiteFrame::Installed { view, .. } => on_installed(domain, place, from, *view, lent),
        SiteFrame::Ack(id) => on_ack(domain, place, from, *id, lent),
        SiteFrame::Stable(id) => on_stable(domain, place, from, *id, lent),
        SiteFrame::Flushed {
            view,
            counts,
            tail,
            kept,
            ..
        } => on_flushed(domain, place, from, *view, counts, tail, kept, lent),
        SiteFrame::Want(id) => on_want(domain, place, from, *id, lent),
        SiteFrame::Forward(message) => {
            on_wanted(domain, place, from, message, lent)?;
            on_forward(domain, place, message, lent)
        }
        SiteFrame::Out { view, .. } => {
            on_out(domain, place, *view, lent)?;
            Ok(())
        }
        SiteFrame::Prepare { view, .. } => on_prepare(domain, place, from, *view, lent),
    }
}

// The group that a frame is about.
fn group_of(frame: &SiteFrame) -> GroupNo
    ensures { result ≡ group_of frame.now }
{
    match frame {
        SiteFrame::Data(message) | SiteFrame::Forward(message) => message.id.group,
        SiteFrame::Ack(id) | SiteFrame::Stable(id) | SiteFrame::Want(id) => id.group,
        SiteFrame::Ask { group, .. }
        | SiteFrame::Asked { group, .. }
        | SiteFrame::Prepare { group, .. }
        | SiteFrame::Flushed { group, .. }
        | SiteFrame::Install { group, .. }
        | SiteFrame::Installed { group, .. }
        | SiteFrame::Out { group, .. } => *group,
    }
}
