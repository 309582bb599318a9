ghost use Rattle.std.specs.Prelude.{◌≡◌, ◌++◌, IfOk, OnOk};
ghost use Rattle.cast_message.specs.declared.site.SiteFrame.TheVariants.{Ask, Asked, Flushed};
ghost use Rattle.cast_message.specs.declared.site.SiteFrame.TheVariants.{Install};
ghost use Rattle.cast_field.specs.Spelling.{short, word};
ghost use Rattle.cast_frame.specs.Spelling.{change_code, frame_code, full_code, is_handing};
ghost use Rattle.cast_frame.specs.Spelling.{spelled_fields, spelled_site, version_code};

use crate::header::{HANDING_VERSION, MAGIC, VERSION};
use bytes::{BufMut, Bytes};
use cast_field::writing::{
    put_counts, put_kept, put_members, put_message, put_proc, put_tail, put_uid, put_view,
};
use cast_message::{Change, KeptIds, Membership, SiteFrame, Tail};
use cast_types::{Counts, DomainNo, GroupNo, NoMemory, Proc, SiteNo};
use std::alloc::Global;

// Bytes for which most frames have room.
const USUAL_LEN: usize = 512;

fn code_of_change(change: Change) -> u8
    ensures { result ≡ change_code change }
{
    match change {
        Change::Join => 1,
        Change::Leave => 2,
    }
}

fn code_of_full(full: bool) -> u8
    ensures { result ≡ full_code full }
{
    if full { 14 } else { 0 }
}

// Whether the frame has a message, and this hands over the token.
fn is_handing(frame: &SiteFrame) -> bool
    ensures { result ≡ is_handing frame.now }
{
    match frame {
        SiteFrame::Data(message) | SiteFrame::Forward(message) => message.body.hands_over(),
        _ => false,
    }
}

fn code_of_version(frame: &SiteFrame) -> u8
    ensures { result ≡ version_code (is_handing frame.now) }
{
    if is_handing(frame) {
        HANDING_VERSION
    } else {
        VERSION
    }
}

fn code_of_frame(frame: &SiteFrame) -> u8
    ensures { result ≡ frame_code frame.now }
{
    match frame {
        SiteFrame::Data(_) => 1,
        SiteFrame::Ack(_) => 2,
        SiteFrame::Stable(_) => 3,
        SiteFrame::Ask { .. } => 4,
        SiteFrame::Asked { .. } => 5,
        SiteFrame::Prepare { .. } => 6,
        SiteFrame::Flushed { .. } => 7,
        SiteFrame::Want(_) => 8,
        SiteFrame::Forward(_) => 9,
        SiteFrame::Install { .. } => 10,
        SiteFrame::Installed { .. } => 11,
        SiteFrame::Out { .. } => 12,
    }
}

#[tactic(auto, unfolding(crate::specs::Spelling::spelled_fields, cast_field::specs::Spelling::byte, cast_field::specs::Spelling::short, cast_field::specs::Spelling::word))]
fn put_ask(
    out: &mut Vec<u8>,
    group: GroupNo,
    number: u32,
    change: Change,
    proc: Proc,
) -> Result<(), NoMemory>
    ensures { OnOk result
        (out.new.items ≡ out.old.items ++ spelled_fields (Ask group number change proc)) }
{
    out.put_u16(group.0)?;
    out.put_u32(number)?;
    out.put_u8(code_of_change(change))?;
    put_proc(out, proc)?;
    Ok(())
}

#[tactic(auto, unfolding(crate::specs::Spelling::spelled_fields, cast_field::specs::Spelling::byte, cast_field::specs::Spelling::short, cast_field::specs::Spelling::word))]
fn put_asked(out: &mut Vec<u8>, group: GroupNo, number: u32, full: bool) -> Result<(), NoMemory>
    ensures { OnOk result
        (out.new.items ≡ out.old.items ++ spelled_fields (Asked group number full)) }
{
    out.put_u16(group.0)?;
    out.put_u32(number)?;
    out.put_u8(code_of_full(full))?;
    Ok(())
}

#[tactic(auto, unfolding(crate::specs::Spelling::spelled_fields, cast_field::specs::Spelling::short, cast_field::specs::Spelling::word))]
fn put_flushed(
    out: &mut Vec<u8>,
    group: GroupNo,
    view: u32,
    counts: &Counts,
    tail: &Tail,
    kept: &KeptIds,
) -> Result<(), NoMemory>
    ensures { OnOk result (out.new.items
        ≡ out.old.items ++ spelled_fields (Flushed group view counts.now tail.now kept.now)) }
{
    out.put_u16(group.0)?;
    out.put_u32(view)?;
    put_counts(out, counts)?;
    put_tail(out, tail)?;
    put_kept(out, kept)?;
    Ok(())
}

#[tactic(auto, unfolding(crate::specs::Spelling::spelled_fields, cast_field::specs::Spelling::short, cast_field::specs::Spelling::word))]
fn put_install(
    out: &mut Vec<u8>,
    group: GroupNo,
    view: u32,
    members: &Membership,
    request: u32,
    cut: &Counts,
    tail: &Tail,
) -> Result<(), NoMemory>
    ensures { OnOk result (out.new.items ≡ out.old.items
        ++ spelled_fields (Install group view members.now request cut.now tail.now)) }
{
    out.put_u16(group.0)?;
    out.put_u32(view)?;
    put_members(out, members)?;
    out.put_u32(request)?;
    put_counts(out, cut)?;
    put_tail(out, tail)?;
    Ok(())
}

#[tactic(auto, unfolding(crate::specs::Spelling::spelled_fields))]
fn put_fields(out: &mut Vec<u8>, frame: &SiteFrame) -> Result<(), NoMemory>
    ensures { OnOk result (out.new.items ≡ out.old.items ++ spelled_fields frame.now) }
{
    match frame {
        SiteFrame::Data(message) | SiteFrame::Forward(message) => put_message(out, message),
        SiteFrame::Ack(id) | SiteFrame::Stable(id) | SiteFrame::Want(id) => put_uid(out, *id),
        SiteFrame::Ask {
            group,
            number,
            change,
            proc,
        } => put_ask(out, *group, *number, *change, *proc),
        SiteFrame::Asked {
            group,
            number,
            full,
        } => put_asked(out, *group, *number, *full),
        SiteFrame::Flushed {
            group,
            view,
            counts,
            tail,
            kept,
        } => put_flushed(out, *group, *view, counts, tail, kept),
        SiteFrame::Install {
            group,
            view,
            members,
            request,
            cut,
            tail,
        } => put_install(out, *group, *view, members, *request, cut, tail),
        SiteFrame::Prepare { group, view }
        | SiteFrame::Installed { group, view }
        | SiteFrame::Out { group, view } => put_view(out, *group, *view),
    }
}

/// The one spelling of a frame of a domain from a site, at most 60,000 bytes where its numbers are
/// in their ranges. Its version is 2 for `Data` and `Forward` of a message that hands over the
/// token, and 1 for every other frame. The frame is only read; `NoMemory` comes where an allocation
/// was refused.
#[tactic(auto, unfolding(crate::specs::Spelling::spelled_site, cast_field::specs::Spelling::byte, cast_field::specs::Spelling::short))]
pub fn encode_site(
    alloc: Global,
    domain: DomainNo,
    site: SiteNo,
    frame: &SiteFrame,
) -> Result<Bytes, NoMemory>
    ensures { IfOk result (λ b. b ≡ spelled_site domain site frame.now) }
{
    let mut out = Vec::with_capacity(alloc, USUAL_LEN)?;
    out.put_u16(MAGIC)?;
    out.put_u8(code_of_version(frame))?;
    out.put_u8(code_of_frame(frame))?;
    out.put_u8(domain.0)?;
    out.put_u16(site.0)?;
    put_fields(&mut out, frame)?;
    Ok(Bytes::from_vec(out)?)
}
