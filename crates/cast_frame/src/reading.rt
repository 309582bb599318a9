ghost use Rattle.std.specs.Prelude.{◌≡◌, Ok, IfOk};
ghost use Rattle.cast_field.specs.Reading.{Gives, GivesAs, GivesField};
ghost use Rattle.cast_frame.specs.Reading.{ack_at, ask_at, asked_at, change_of, data_at};
ghost use Rattle.cast_frame.specs.Reading.{fields_at, flushed_at, forward_at, frame_at, full_of};
ghost use Rattle.cast_frame.specs.Reading.{install_at, installed_at, magic_at, may_stand};
ghost use Rattle.cast_frame.specs.Reading.{out_at, prepare_at, site_frame_of, stable_at};
ghost use Rattle.cast_frame.specs.Reading.{type_at, type_of, version_at, version_of, want_at};
ghost use Rattle.cast_frame.specs.Spelled.{IsSpelled};
ghost use Rattle.cast_frame.specs.Spelling.{spelled_site};

use crate::header::{HANDING_VERSION, MAGIC, VERSION};
use cast_field::FrameFault;
use cast_field::reading::{
    read_byte, read_count, read_counts, read_domain, read_group, read_kept, read_members,
    read_message, read_proc, read_short, read_site, read_tail, read_uid, read_word,
};
use cast_message::{Change, SiteFrame};
use cast_types::limits::{MAX_NUMBER, MAX_ORDER, MAX_SITE_FRAME, MAX_TAIL};
use cast_types::{DomainNo, SiteNo};
use std::alloc::Global;

/// The types of the frames between sites.
#[derive(Clone, Copy)]
enum FrameType {
    Data,
    Ack,
    Stable,
    Ask,
    Asked,
    Prepare,
    Flushed,
    Want,
    Forward,
    Install,
    Installed,
    Out,
}

#[tactic(auto, unfolding(crate::specs::Reading::type_of))]
fn type_of_number(number: u8) -> Result<FrameType, FrameFault>
    ensures { Gives result (type_of number) }
{
    match number {
        1 => Ok(FrameType::Data),
        2 => Ok(FrameType::Ack),
        3 => Ok(FrameType::Stable),
        4 => Ok(FrameType::Ask),
        5 => Ok(FrameType::Asked),
        6 => Ok(FrameType::Prepare),
        7 => Ok(FrameType::Flushed),
        8 => Ok(FrameType::Want),
        9 => Ok(FrameType::Forward),
        10 => Ok(FrameType::Install),
        11 => Ok(FrameType::Installed),
        12 => Ok(FrameType::Out),
        _ => Err(FrameFault::WrongType),
    }
}

// Whether a frame of this type may be of the version whose messages hand over the token, or of the
// other one.
fn may_stand(handing: bool, frame_type: FrameType) -> bool
    ensures { result ≡ may_stand handing frame_type }
{
    match frame_type {
        FrameType::Data | FrameType::Forward => true,
        _ => !handing,
    }
}

#[tactic(auto, unfolding(crate::specs::Reading::type_at))]
fn read_type(handing: bool, bytes: &[u8]) -> Result<(FrameType, &[u8]), FrameFault>
    ensures { GivesField result (type_at handing bytes.now) }
{
    let (number, rest) = read_byte(0, 255, bytes)?;
    let frame_type = type_of_number(number)?;
    if !may_stand(handing, frame_type) {
        return Err(FrameFault::WrongType);
    }
    Ok((frame_type, rest))
}

#[tactic(auto, unfolding(crate::specs::Reading::data_at))]
fn read_data(alloc: Global, handing: bool, bytes: &[u8]) -> Result<(SiteFrame, &[u8]), FrameFault>
    ensures { GivesField result (data_at handing bytes.now) }
{
    let (message, rest) = read_message(alloc, handing, bytes)?;
    Ok((SiteFrame::Data(message), rest))
}

#[tactic(auto, unfolding(crate::specs::Reading::ack_at))]
fn read_ack(bytes: &[u8]) -> Result<(SiteFrame, &[u8]), FrameFault>
    ensures { GivesField result (ack_at bytes.now) }
{
    let (id, rest) = read_uid(bytes)?;
    Ok((SiteFrame::Ack(id), rest))
}

#[tactic(auto, unfolding(crate::specs::Reading::stable_at))]
fn read_stable(bytes: &[u8]) -> Result<(SiteFrame, &[u8]), FrameFault>
    ensures { GivesField result (stable_at bytes.now) }
{
    let (id, rest) = read_uid(bytes)?;
    Ok((SiteFrame::Stable(id), rest))
}

fn change_of_number(code: u8) -> Change
    ensures { result ≡ change_of code }
{
    if code == 1 {
        Change::Join
    } else {
        Change::Leave
    }
}

#[tactic(auto, unfolding(crate::specs::Reading::ask_at))]
fn read_ask(bytes: &[u8]) -> Result<(SiteFrame, &[u8]), FrameFault>
    ensures { GivesField result (ask_at bytes.now) }
{
    let (group, rest) = read_group(bytes)?;
    let (number, rest) = read_count(rest)?;
    let (code, rest) = read_byte(1, 2, rest)?;
    let (proc, rest) = read_proc(rest)?;
    let change = change_of_number(code);
    let frame = SiteFrame::Ask {
        group,
        number,
        change,
        proc,
    };
    Ok((frame, rest))
}

#[tactic(auto, unfolding(crate::specs::Reading::full_of))]
fn full_of_number(code: u8) -> Result<bool, FrameFault>
    ensures { Gives result (full_of code) }
{
    match code {
        0 => Ok(false),
        14 => Ok(true),
        _ => Err(FrameFault::Range),
    }
}

#[tactic(auto, unfolding(crate::specs::Reading::asked_at))]
fn read_asked(bytes: &[u8]) -> Result<(SiteFrame, &[u8]), FrameFault>
    ensures { GivesField result (asked_at bytes.now) }
{
    let (group, rest) = read_group(bytes)?;
    let (number, rest) = read_count(rest)?;
    let (code, rest) = read_byte(0, 255, rest)?;
    let full = full_of_number(code)?;
    let frame = SiteFrame::Asked {
        group,
        number,
        full,
    };
    Ok((frame, rest))
}

#[tactic(auto, unfolding(crate::specs::Reading::prepare_at))]
fn read_prepare(bytes: &[u8]) -> Result<(SiteFrame, &[u8]), FrameFault>
    ensures { GivesField result (prepare_at bytes.now) }
{
    let (group, rest) = read_group(bytes)?;
    let (view, rest) = read_count(rest)?;
    Ok((SiteFrame::Prepare { group, view }, rest))
}

#[tactic(auto, unfolding(crate::specs::Reading::flushed_at))]
fn read_flushed(alloc: Global, bytes: &[u8]) -> Result<(SiteFrame, &[u8]), FrameFault>
    ensures { GivesField result (flushed_at bytes.now) }
{
    let (group, rest) = read_group(bytes)?;
    let (view, rest) = read_count(rest)?;
    let (counts, rest) = read_counts(alloc, rest)?;
    let (tail, rest) = read_tail(alloc, MAX_TAIL as u16, rest)?;
    let (kept, rest) = read_kept(alloc, rest)?;
    let frame = SiteFrame::Flushed {
        group,
        view,
        counts,
        tail,
        kept,
    };
    Ok((frame, rest))
}

#[tactic(auto, unfolding(crate::specs::Reading::want_at))]
fn read_want(bytes: &[u8]) -> Result<(SiteFrame, &[u8]), FrameFault>
    ensures { GivesField result (want_at bytes.now) }
{
    let (id, rest) = read_uid(bytes)?;
    Ok((SiteFrame::Want(id), rest))
}

#[tactic(auto, unfolding(crate::specs::Reading::forward_at))]
fn read_forward(
    alloc: Global,
    handing: bool,
    bytes: &[u8],
) -> Result<(SiteFrame, &[u8]), FrameFault>
    ensures { GivesField result (forward_at handing bytes.now) }
{
    let (message, rest) = read_message(alloc, handing, bytes)?;
    Ok((SiteFrame::Forward(message), rest))
}

#[tactic(auto, unfolding(crate::specs::Reading::install_at))]
fn read_install(alloc: Global, bytes: &[u8]) -> Result<(SiteFrame, &[u8]), FrameFault>
    ensures { GivesField result (install_at bytes.now) }
{
    let (group, rest) = read_group(bytes)?;
    let (view, rest) = read_count(rest)?;
    let (members, rest) = read_members(alloc, rest)?;
    let (request, rest) = read_word(0, MAX_NUMBER, rest)?;
    let (cut, rest) = read_counts(alloc, rest)?;
    let (tail, rest) = read_tail(alloc, MAX_ORDER as u16, rest)?;
    let frame = SiteFrame::Install {
        group,
        view,
        members,
        request,
        cut,
        tail,
    };
    Ok((frame, rest))
}

#[tactic(auto, unfolding(crate::specs::Reading::installed_at))]
fn read_installed(bytes: &[u8]) -> Result<(SiteFrame, &[u8]), FrameFault>
    ensures { GivesField result (installed_at bytes.now) }
{
    let (group, rest) = read_group(bytes)?;
    let (view, rest) = read_count(rest)?;
    Ok((SiteFrame::Installed { group, view }, rest))
}

#[tactic(auto, unfolding(crate::specs::Reading::out_at))]
fn read_out(bytes: &[u8]) -> Result<(SiteFrame, &[u8]), FrameFault>
    ensures { GivesField result (out_at bytes.now) }
{
    let (group, rest) = read_group(bytes)?;
    let (view, rest) = read_count(rest)?;
    Ok((SiteFrame::Out { group, view }, rest))
}

#[tactic(auto, unfolding(crate::specs::Reading::fields_at))]
fn read_fields(
    alloc: Global,
    handing: bool,
    frame_type: FrameType,
    bytes: &[u8],
) -> Result<(SiteFrame, &[u8]), FrameFault>
    ensures { GivesField result (fields_at handing frame_type bytes.now) }
{
    match frame_type {
        FrameType::Data => read_data(alloc, handing, bytes),
        FrameType::Ack => read_ack(bytes),
        FrameType::Stable => read_stable(bytes),
        FrameType::Ask => read_ask(bytes),
        FrameType::Asked => read_asked(bytes),
        FrameType::Prepare => read_prepare(bytes),
        FrameType::Flushed => read_flushed(alloc, bytes),
        FrameType::Want => read_want(bytes),
        FrameType::Forward => read_forward(alloc, handing, bytes),
        FrameType::Install => read_install(alloc, bytes),
        FrameType::Installed => read_installed(bytes),
        FrameType::Out => read_out(bytes),
    }
}

#[tactic(auto, unfolding(crate::specs::Reading::magic_at))]
fn read_magic(bytes: &[u8]) -> Result<&[u8], FrameFault>
    ensures { GivesAs (λ x. x.now) result (magic_at bytes.now) }
{
    let (magic, rest) = read_short(0, u16::MAX, bytes)?;
    if magic != MAGIC {
        return Err(FrameFault::Magic);
    }
    Ok(rest)
}

// Whether the message of a frame of this version hands over the token.
#[tactic(auto, unfolding(crate::specs::Reading::version_of))]
fn version_of_number(number: u8) -> Result<bool, FrameFault>
    ensures { Gives result (version_of number) }
{
    match number {
        VERSION => Ok(false),
        HANDING_VERSION => Ok(true),
        _ => Err(FrameFault::Version),
    }
}

#[tactic(auto, unfolding(crate::specs::Reading::version_at))]
fn read_version(bytes: &[u8]) -> Result<(bool, &[u8]), FrameFault>
    ensures { GivesField result (version_at bytes.now) }
{
    let (number, rest) = read_byte(0, 255, bytes)?;
    let handing = version_of_number(number)?;
    Ok((handing, rest))
}

#[tactic(auto, unfolding(crate::specs::Reading::frame_at))]
fn read_frame(alloc: Global, bytes: &[u8]) -> Result<(DomainNo, SiteNo, SiteFrame), FrameFault>
    ensures { Gives result (frame_at bytes.now) }
{
    let rest = read_magic(bytes)?;
    let (handing, rest) = read_version(rest)?;
    let (frame_type, rest) = read_type(handing, rest)?;
    let (domain, rest) = read_domain(rest)?;
    let (site, rest) = read_site(rest)?;
    let (frame, rest) = read_fields(alloc, handing, frame_type, rest)?;
    if !rest.is_empty() {
        return Err(FrameFault::Length);
    }
    Ok((domain, site, frame))
}

#[tactic(auto, unfolding(crate::specs::Reading::site_frame_of))]
fn read_all(alloc: Global, bytes: &[u8]) -> Result<(DomainNo, SiteNo, SiteFrame), FrameFault>
    ensures { Gives result (site_frame_of bytes.now) }
{
    if bytes.len() > MAX_SITE_FRAME {
        return Err(FrameFault::Length);
    }
    read_frame(alloc, bytes)
}

/// Reads a frame between sites: its domain, the site that sends it, and the frame. The bytes are
/// the frame, all of them.
///
/// A frame is of version 2 if it is `Data` or `Forward` and its message hands over the token, and
/// of version 1 if not. Another version is `Version` (3). In version 2 another type is `WrongType`
/// (4), and a message of another kind than 3 is `Range` (7); the message has 0 to 64 ids, and the 6
/// bytes of its new holder stand last. In version 1 a set-order message has 1 to 64 ids.
///
/// The fault is the first one from left to right; more than 60,000 bytes are `Length` before
/// anything else. `NoMemory` comes where an allocation was refused, and says nothing of the bytes.
pub fn decode_site(alloc: Global, bytes: &[u8]) -> Result<(DomainNo, SiteNo, SiteFrame), FrameFault>
    // Which frame, or which fault.
    ensures exact { Gives result (site_frame_of bytes.now) }
    // What is read is spelled so.
    ensures found { IfOk result
        (λ x. IsSpelled x.0 x.1 x.2 × (bytes.now ≡ spelled_site x.0 x.1 x.2)) }
    // What is spelled so is read, unless memory runs out.
    ensures only { (d : DomainNo) (s : SiteNo) (f : SiteFrame) → IsSpelled d s f
        → bytes.now ≡ spelled_site d s f
        → Gives result (Ok (d, s, f)) }
{
    read_all(alloc, bytes)
}
