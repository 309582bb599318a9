ghost use Rattle.std.specs.Prelude.{◌≡◌, ◌≤◌, ◌++◌, ◌↔◌, IsTrue, OnOk};
ghost use Rattle.std.specs.Prelude.{drop, length, option_map, take};
ghost use Rattle.byteorder.specs.Endian.{little_number};
ghost use Rattle.cast_seal.specs.Seals.{IsOpened, IsSealed, begins_with, head, seal_sum, sealed};

use crate::key::Key;
use crate::poly::one_time_sum;
use byteorder::{ByteOrder, LittleEndian};
use bytes::BufMut;
use cast_types::{NoMemory, SiteNo};

// What a sealed datagram begins with: `CS`.
const MAGIC: [u8; 2] = [0x43, 0x53];

// The version of seals.
const VERSION: u8 = 1;

// How many bytes stand before the sum.
const HEAD: usize = 22;

/// How many bytes a seal has. They stand before the body.
pub const SEAL_LEN: usize = 38;

/// A key that two hosts have, and the number by which datagrams name it.
#[derive(Drop)]
pub struct SealKey {
    pub number: u8,
    pub key: Key,
}

// Adds what stands before the sum.
fn put_head(out: &mut Vec<u8>, number: u8, from: SiteNo, nonce: &[u8; 16]) -> Result<(), NoMemory>
    ensures { OnOk result (out.new.items ≡ out.old.items ++ head number from nonce.now) }
{
    out.put_slice(&MAGIC)?;
    out.put_u8(VERSION)?;
    out.put_u8(number)?;
    out.put_u16(from.0)?;
    out.put_slice(nonce)
}

// The sum of a body behind this head, for a receiver.
fn sum_of(key: &Key, head: &[u8], to: SiteNo, body: &[u8]) -> u128
    ensures { result ≡ seal_sum key.now head.now to body.now }
{
    one_time_sum(&key.sum(head, &to.0.to_be_bytes()), body)
}

/// Puts a body with its seal into `out`, in place of what was there. The seal is for datagrams from
/// one site to another, under this key.
///
/// A nonce may be used once under a key, from this sender to this receiver. Who sees two bodies
/// under one nonce can make seals that open. At `NoMemory` nothing is said of `out`.
pub fn seal(
    out: &mut Vec<u8>,
    key: &SealKey,
    from: SiteNo,
    to: SiteNo,
    nonce: &[u8; 16],
    body: &[u8],
) -> Result<(), NoMemory>
    ensures { OnOk result (out.new.items ≡ sealed key.now from to nonce.now body.now) }
{
    out.clear();
    put_head(out, key.number, from, nonce)?;
    let sum = sum_of(&key.key, out, to, body);
    out.put_u128_le(sum)?;
    out.put_slice(body)
}

// Whether a datagram begins as what this key seals from this site does.
fn begins(datagram: &[u8], number: u8, from: SiteNo) -> bool
    requires { 38 ≤ length datagram.now }
    ensures { IsTrue result ↔ (take 6 datagram.now ≡ begins_with number from) }
{
    let sender = from.0.to_be_bytes();
    datagram[0] == MAGIC[0]
        && datagram[1] == MAGIC[1]
        && datagram[2] == VERSION
        && datagram[3] == number
        && datagram[4] == sender[0]
        && datagram[5] == sender[1]
}

// Whether the sum is that of the body behind it. It takes as long wherever the two differ.
fn has_sum(key: &Key, datagram: &[u8], to: SiteNo) -> bool
    requires { 38 ≤ length datagram.now }
    ensures { IsTrue result ↔ (little_number 16 (drop 22 datagram.now)
        ≡ seal_sum key.now (take 22 datagram.now) to (drop 38 datagram.now)) }
{
    let sum = sum_of(key, &datagram[..HEAD], to, &datagram[SEAL_LEN..]);
    LittleEndian::read_u128(&datagram[HEAD..]) == sum
}

// Whether a datagram is what this key seals: what is behind the seal, from one site to another.
fn is_sealed(key: &SealKey, from: SiteNo, to: SiteNo, datagram: &[u8]) -> bool
    ensures { IsTrue result
        ↔ IsSealed key.now from to (drop 38 datagram.now) datagram.now }
{
    if datagram.len() < SEAL_LEN {
        return false;
    }
    begins(datagram, key.number, from) && has_sum(&key.key, datagram, to)
}

/// The body of a datagram that one of these keys seals, from one site to another. `None` for any
/// other datagram. No byte is copied, and no memory is taken.
pub fn open<'a>(keys: &[SealKey], from: SiteNo, to: SiteNo, datagram: &'a [u8]) -> Option<&'a [u8]>
    ensures { IsOpened keys.now from to datagram.now (option_map (λ body. body.now) result) }
{
    for key in keys {
        if is_sealed(key, from, to, datagram) {
            return Some(&datagram[SEAL_LEN..]);
        }
    }
    None
}
