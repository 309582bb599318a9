//! Frames and scripts that were spelled by hand, a line each: whether a frame is written as it was
//! read, or why it is none, and why a text is no script.
//!
//! A line is `site HEX`, `client HEX` or `script TEXT`, where `|` stands for a line feed; empty
//! lines and lines that begin with `#` are passed over.

use cast_client::{ClientRead, decode_client, encode_client, encode_push, encode_request};
use cast_frame::{FrameFault, decode_site, encode_site};
use cast_message::{ClientFrame, SiteFrame};
use cast_script::{ScriptFault, parse};
use cast_types::{DomainNo, SiteNo};
use std::alloc::{AllocError, Global};
use std::io;

// What becomes of the bytes of a frame between sites: its domain and its sender, and whether a copy
// is written so again.
fn site_text(alloc: Global, bytes: &[u8]) -> Result<String, AllocError> {
    let (domain, site, frame) = match decode_site(alloc, bytes) {
        Ok(read) => read,
        Err(fault) => return fault_text(alloc, fault),
    };
    let same = word_of(is_copy_written(alloc, domain, site, &frame, bytes)?);
    let number = domain.0;
    let from = site.0;
    format!(in alloc; "domain {number} from {from} {same}")
}

// Whether a copy of a frame between sites is written as these bytes.
fn is_copy_written(
    alloc: Global,
    domain: DomainNo,
    site: SiteNo,
    frame: &SiteFrame,
    bytes: &[u8],
) -> Result<bool, AllocError> {
    let copied = frame.copy()?;
    let written = encode_site(alloc, domain, site, &copied)?;
    Ok(written.as_slice() == bytes)
}

fn fault_text(alloc: Global, fault: FrameFault) -> Result<String, AllocError> {
    let number = fault.number();
    format!(in alloc; "fault {number}")
}

fn word_of(is_same: bool) -> &'static str {
    if is_same { "same" } else { "other" }
}

// Whether a frame is written as these bytes, as a frame and as what it holds.
fn is_written(alloc: Global, frame: &ClientFrame, bytes: &[u8]) -> Result<bool, AllocError> {
    if !frame.fits() {
        return Ok(false);
    }
    let whole = encode_client(alloc, frame)?;
    Ok(whole.as_slice() == bytes && is_held(alloc, frame, bytes)?)
}

// Whether what a frame holds is written as these bytes.
fn is_held(alloc: Global, frame: &ClientFrame, bytes: &[u8]) -> Result<bool, AllocError> {
    let held = match frame {
        ClientFrame::Request(request) if request.fits() => encode_request(alloc, request)?,
        ClientFrame::Request(_) => return Ok(false),
        ClientFrame::Push(push) => encode_push(alloc, push)?,
    };
    Ok(held.as_slice() == bytes)
}

// What stands at the front of the bytes of a stream: how many bytes the frame has, and whether it
// is written so again, or how many are wanting.
fn client_text(alloc: Global, bytes: &[u8]) -> Result<String, AllocError> {
    match decode_client(alloc, bytes) {
        Ok(ClientRead::Frame(frame, len)) => {
            let front = &bytes[..len.min(bytes.len())];
            let same = word_of(is_written(alloc, &frame, front)?);
            format!(in alloc; "{len} bytes {same}")
        }
        Ok(ClientRead::More(wanting)) => format!(in alloc; "more {wanting}"),
        Err(fault) => fault_text(alloc, fault),
    }
}

// What becomes of a text in a line: the line and the reason of its first fault.
fn script_text(alloc: Global, text: &str) -> Result<String, AllocError> {
    match parse(alloc, lines_of(alloc, text)?.as_str()) {
        Ok(_) => String::from_str(alloc, "a script"),
        Err(ScriptFault::At { line, reason }) => {
            let why = reason.text();
            format!(in alloc; "line {line}: {why}")
        }
        Err(ScriptFault::NoMemory) => Err(AllocError),
    }
}

// The text with line feeds.
fn lines_of(alloc: Global, text: &str) -> Result<String, AllocError> {
    let mut lines = String::new(alloc);
    for (place, line) in text.split('|').enumerate() {
        if place > 0 {
            lines.push_str("\n")?;
        }
        lines.push_str(line)?;
    }
    Ok(lines)
}

// What becomes of the digits of a frame; `None` where they are none.
fn frame_text(alloc: Global, kind: &str, digits: &str) -> Result<Option<String>, AllocError> {
    let Ok(bytes) = hex::decode(alloc, digits) else {
        return Ok(None);
    };
    match kind {
        "site" => Ok(Some(site_text(alloc, &bytes)?)),
        "client" => Ok(Some(client_text(alloc, &bytes)?)),
        _ => Ok(None),
    }
}

// What becomes of a line; `None` of one that is passed over.
fn line_text(alloc: Global, line: &str) -> Result<Option<String>, AllocError> {
    match line.split_once(' ') {
        Some(("script", text)) => Ok(Some(script_text(alloc, text)?)),
        Some((kind, digits)) => frame_text(alloc, kind, digits),
        None => Ok(None),
    }
}

/// Reads frames and texts from the standard input, and prints what becomes of each.
pub fn try_all<R: Input + Print + AllocGlobal>(rt: &R) -> io::Result<()> {
    for line in rt.lines(rt.alloc()) {
        if let Some(text) = line_text(rt.alloc(), line?.as_str())? {
            println!(rt; "{text}")?;
        }
    }
    Ok(())
}
