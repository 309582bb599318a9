ghost use Rattle.std.specs.Prelude.{◌≡◌, ◌↔◌, IfOk, IsTrue, take};
ghost use Rattle.cast_link.specs.Bundles.{BeginsAsBundle, IsFirst, IsUnpacked, Splits, head};

use byteorder::{BigEndian, ByteOrder};
use bytes::Bytes;
use cast_types::{List, NoMemory};
use std::alloc::Global;

/// What a bundle begins with: `CB`.
pub const MAGIC: [u8; 2] = [0x43, 0x42];

/// The version of bundles.
pub const VERSION: u8 = 1;

/// The flags of a bundle: none.
pub const FLAGS: u8 = 0;

/// How many bytes stand before the first frame.
pub const HEAD: usize = 4;

/// How many bytes the length of a frame takes.
pub const LENGTH: usize = 2;

/// What a datagram has.
#[derive(Drop)]
pub enum Unpacked {
    /// These bytes, which are to be one frame.
    Alone(Bytes),
    /// The frames of a bundle, in their order.
    Bundle(List<Bytes>),
    /// It begins as a bundle, and is none.
    Bad,
}

// Whether bytes begin as a bundle of any version does.
fn begins_as_bundle(bytes: &[u8]) -> bool
    ensures { IsTrue result ↔ BeginsAsBundle bytes.now }
{
    bytes.len() >= 2 && bytes[0] == MAGIC[0] && bytes[1] == MAGIC[1]
}

// Whether bytes begin as a bundle of this version does.
fn has_head(bytes: &[u8]) -> bool
    ensures { IsTrue result ↔ (take 4 bytes.now ≡ head) }
{
    bytes.len() >= HEAD
        && bytes[0] == MAGIC[0]
        && bytes[1] == MAGIC[1]
        && bytes[2] == VERSION
        && bytes[3] == FLAGS
}

/// What a datagram has. Its bytes are not copied.
pub fn unpack(alloc: Global, datagram: Bytes) -> Result<Unpacked, NoMemory>
    ensures { IfOk result (IsUnpacked datagram) }
{
    if !begins_as_bundle(datagram.as_slice()) {
        return Ok(Unpacked::Alone(datagram));
    }
    if !has_head(datagram.as_slice()) {
        return Ok(Unpacked::Bad);
    }
    let mut rest = datagram;
    rest.advance(HEAD);
    let Some(frames) = split(alloc, rest)? else {
        return Ok(Unpacked::Bad);
    };
    if frames.is_empty() {
        return Ok(Unpacked::Bad);
    }
    Ok(Unpacked::Bundle(frames))
}

// How many bytes the first of frames has, each of which stands behind its length. `None` if there
// is none, or it is cut off.
fn first_len(bytes: &[u8]) -> Option<usize>
    ensures { IsFirst bytes.now result }
{
    if bytes.len() < LENGTH {
        return None;
    }
    let len = BigEndian::read_u16(bytes) as usize;
    if bytes.len() - LENGTH < len {
        return None;
    }
    Some(len)
}

// The frames of these bytes, each behind its length. `None` if one is cut off.
fn split(alloc: Global, bytes: Bytes) -> Result<Option<List<Bytes>>, NoMemory>
    ensures { IfOk result (Splits bytes) }
{
    let mut rest = bytes;
    let mut frames = List::new(alloc);
    while !rest.is_empty() {
        let Some(len) = first_len(rest.as_slice()) else {
            return Ok(None);
        };
        rest.advance(LENGTH);
        frames.push(rest.split_to(len)?)?;
    }
    Ok(Some(frames))
}
