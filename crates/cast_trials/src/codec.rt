//! How fast frames between sites are decoded and encoded. `bench/run` calls it beside a plain
//! program.

use anyhow::Result;
use cast_frame::{FrameFault, decode_site, encode_site};
use cast_message::{Body, SiteFrame};
use cast_types::{DomainNo, NoMemory, SiteNo};
use std::alloc::Global;
use std::fs;
use std::rt::{Clock, Files};
use std::time::Instant;

// What a frame adds to the sum that is printed, so that no call can be left out.
fn weight(frame: &SiteFrame) -> usize {
    match frame {
        SiteFrame::Data(message) => match &message.body {
            Body::Causal(payload) | Body::Atomic(payload) => payload.len(),
            Body::Order(_) => 0,
        },
        SiteFrame::Flushed { kept, .. } => kept.entries().len(),
        _ => 0,
    }
}

// Decodes the bytes. Answers the weight of the frame.
fn decode_once(alloc: Global, bytes: &[u8]) -> Result<usize, FrameFault> {
    let (_, _, frame) = decode_site(alloc, bytes)?;
    Ok(weight(&frame))
}

// Encodes a frame. Answers how many bytes it has.
fn encode_once(
    alloc: Global,
    domain: DomainNo,
    site: SiteNo,
    frame: &SiteFrame,
) -> Result<usize, NoMemory> {
    Ok(encode_site(alloc, domain, site, frame)?.len())
}

// Prints what was done, the nanoseconds since the start, and a sum.
fn print<R: Clock + Print>(rt: &R, what: &str, start: Instant, sum: usize) -> Result<()> {
    let nanos = start.elapsed(rt)?.as_nanos();
    println!(rt; "{what} {nanos} {sum}")?;
    Ok(())
}

// Decodes the bytes so many times, and prints how long that took.
fn decode_often<R: Clock + Print + AllocGlobal>(rt: &R, bytes: &[u8], rounds: u32) -> Result<()> {
    let start = Instant::now(rt)?;
    let mut sum: usize = 0;
    for _round in 0..rounds {
        sum = sum.wrapping_add(decode_once(rt.alloc(), bytes)?);
    }
    print(rt, "decode", start, sum)
}

// Encodes a frame so many times, and prints how long that took.
fn encode_often<R: Clock + Print + AllocGlobal>(
    rt: &R,
    domain: DomainNo,
    site: SiteNo,
    frame: &SiteFrame,
    rounds: u32,
) -> Result<()> {
    let start = Instant::now(rt)?;
    let mut sum: usize = 0;
    for _round in 0..rounds {
        sum = sum.wrapping_add(encode_once(rt.alloc(), domain, site, frame)?);
    }
    print(rt, "encode", start, sum)
}

/// Reads the bytes of one frame from a file, decodes them and encodes the frame that they are, each
/// so many times, and prints the nanoseconds that each took in all.
pub fn measure<R: Clock + Files + Print + AllocGlobal>(
    rt: &R,
    file: &str,
    rounds: &str,
) -> Result<()> {
    let bytes = fs::read(rt, file)?;
    let rounds: u32 = rounds.parse()?;
    decode_often(rt, &bytes, rounds)?;
    let (domain, site, frame) = decode_site(rt.alloc(), &bytes)?;
    encode_often(rt, domain, site, &frame, rounds)
}
