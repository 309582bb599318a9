ghost use Rattle.std.specs.Prelude.{◌≡◌, ◌+◌, ◌<◌, ◌≤◌, ◌++◌, IfOk, IsTrue};
ghost use Rattle.std.specs.Prelude.{OnOk, filter, length, map, not, take};
ghost use Rattle.std.specs.List.{flat_map};
ghost use Rattle.cast_types.specs.Names.{site_eq};
ghost use Rattle.cast_link.specs.Bundles.{IsBundle, fit, head, in_bundle};
ghost use Rattle.cast_link.specs.Packing.{Carry, Fits, IsCarried, IsPacked, to_site};

use crate::bundle::{FLAGS, HEAD, LENGTH, MAGIC, VERSION};
use bytes::{BufMut, Bytes};
use cast_types::{NoMemory, SiteNo};
use std::alloc::Global;

/// The most bytes of a frame that a bundle has room for.
const MOST_OF_FRAME: usize = 65_535;

// How many of these frames go in one datagram, from the first on: 1, or as many as a bundle of at
// most so many bytes has.
fn fitting_count(frames: &[Bytes], most: usize) -> usize
    requires { 1 ≤ length frames.now }
    ensures some { 1 ≤ result }
    ensures within { result ≤ length frames.now }
    ensures fits { 2 ≤ result → Fits most (take result frames.now) }
{
    let mut len = HEAD;
    let mut count = 0;
    for frame in frames {
        let added = frame.len();
        if added > MOST_OF_FRAME || most.saturating_sub(len) < LENGTH + added {
            break;
        }
        len += LENGTH + added;
        count += 1;
    }
    count.max(1)
}

// Adds a frame behind its length.
fn put_frame(out: &mut Vec<u8>, frame: &Bytes) -> Result<(), NoMemory>
    requires { length frame.now < 65536 }
    ensures { OnOk result (out.new.items ≡ out.old.items ++ in_bundle frame.now) }
{
    out.put_u16(frame.len() as u16)?;
    out.put_slice(frame.as_slice())
}

// The bundle of these frames.
fn bundle_of(alloc: Global, frames: &[Bytes]) -> Result<Bytes, NoMemory>
    requires some { 1 ≤ length frames.now }
    requires fitting { IsTrue (fit frames.now) }
    ensures { IfOk result (λ d. IsBundle d frames.now) }
{
    let mut out = Vec::new(alloc);
    out.put_slice(&MAGIC)?;
    out.put_u8(VERSION)?;
    out.put_u8(FLAGS)?;
    for frame in frames {
        put_frame(&mut out, frame)?;
    }
    Ok(Bytes::from_vec(out)?)
}

// The datagram that has these frames: one alone as itself.
fn datagram_with(alloc: Global, frames: &[Bytes], most: usize) -> Result<Bytes, NoMemory>
    requires some { 1 ≤ length frames.now }
    requires fits { 2 ≤ length frames.now → Fits most frames.now }
    ensures { IfOk result (λ d. IsCarried most d frames.now) }
{
    if frames.len() == 1 {
        Ok(frames[0].clone()?)
    } else {
        bundle_of(alloc, frames)
    }
}

// The datagrams that have these frames, all of them for one site.
fn datagrams_with(alloc: Global, frames: &[Bytes], most: usize) -> Result<Vec<Bytes>, NoMemory>
    ensures carried { IfOk result (λ d. Carry most d.items frames.now) }
    ensures few { IfOk result (λ d. length d.items ≤ length frames.now) }
{
    let mut datagrams = Vec::new(alloc);
    let mut rest = frames;
    while !rest.is_empty() {
        let (first, others) = rest.split_at(fitting_count(rest, most));
        datagrams.push(datagram_with(alloc, first, most)?)?;
        rest = others;
    }
    Ok(datagrams)
}

// What goes to a site, and the others.
fn part(
    alloc: Global,
    frames: Vec<(SiteNo, Bytes)>,
    site: SiteNo,
) -> Result<(Vec<Bytes>, Vec<(SiteNo, Bytes)>), NoMemory>
    ensures own { IfOk result (λ p. p.0.items ≡ to_site site frames.items) }
    ensures others { IfOk result
        (λ p. p.1.items ≡ filter (λ f. not (site_eq f.0 site)) frames.items) }
{
    let mut own = Vec::new(alloc);
    let mut others = Vec::new(alloc);
    for (to, frame) in frames {
        if to == site {
            own.push(frame)?;
        } else {
            others.push((to, frame))?;
        }
    }
    Ok((own, others))
}

// Adds datagrams for a site.
fn add_all(
    packed: &mut Vec<(SiteNo, Bytes)>,
    site: SiteNo,
    datagrams: Vec<Bytes>,
) -> Result<(), NoMemory>
    ensures { OnOk result
        (packed.new.items ≡ packed.old.items ++ map (λ d. (site, d)) datagrams.items) }
{
    for datagram in datagrams {
        packed.push((site, datagram))?;
    }
    Ok(())
}

/// The datagrams that carry these frames, in their order for each site. Frames for the same site
/// share datagrams: bundles of at most so many bytes. A frame that has none to share with, or no
/// room, goes as itself.
pub fn pack(
    alloc: Global,
    frames: Vec<(SiteNo, Bytes)>,
    most: usize,
) -> Result<Vec<(SiteNo, Bytes)>, NoMemory>
    ensures packed { IfOk result (λ d. IsPacked most frames.items d.items) }
    ensures few { IfOk result (λ d. length d.items ≤ length frames.items) }
{
    let mut packed = Vec::new(alloc);
    let mut rest = frames;
    while !rest.is_empty() {
        let site = rest[0].0;
        let (own, others) = part(alloc, rest, site)?;
        add_all(&mut packed, site, datagrams_with(alloc, &own, most)?)?;
        rest = others;
    }
    Ok(packed)
}
