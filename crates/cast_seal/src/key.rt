ghost use Rattle.std.specs.Prelude.{◌≡◌, ◌≤◌, ◌++◌, IfOk, length};
ghost use Rattle.sha2.specs.Hashers.{Holds256};
ghost use Rattle.cast_seal.specs.Hmac.{padded, short_key, sum_under};

use cast_types::NoMemory;
use sha2::{Digest, Sha256};
use std::alloc::Global;
use std::marker::Model;

// How many bytes of a message SHA-256 takes at once.
const BLOCK: usize = 64;

// The bits of the key that are changed before the message, and before the digest of that.
const INNER: u8 = 0x36;

const OUTER: u8 = 0x5C;

/// A key for sums, with what each sum begins with. Contracts see its bytes: at most 64.
#[derive(Drop)]
pub struct Key {
    bytes: Vec<u8>,
    inner: Sha256,
    outer: Sha256,
}

impl Model for Key {
    ghost use Rattle.std.specs.Prelude.{◌≤◌, List, ℕ, length};
    ghost use Rattle.sha2.specs.Hashers.{Holds256};
    ghost use Rattle.cast_seal.specs.Hmac.{padded};

    ghost Value = { List ℕ };

    ghost view = { λ k. k.bytes.items };

    ghost invariant = { λ k. (length k.bytes.items ≤ 64)
        × Holds256 k.inner (padded 0x36 k.bytes.items)
        × Holds256 k.outer (padded 0x5C k.bytes.items) };
}

// What a sum begins with: a block, in which these bits of the key are changed.
fn begin(key: &[u8], bits: u8) -> Sha256
    requires { length key.now ≤ 64 }
    ensures { Holds256 result (padded bits key.now) }
{
    let mut hasher = Sha256::new();
    for byte in key {
        hasher.update(&[bits ^ *byte]);
    }
    for _place in key.len()..BLOCK {
        hasher.update(&[bits]);
    }
    hasher
}

// A key, or its digest where it is longer than a block.
fn short_key(alloc: Global, key: &[u8]) -> Result<Vec<u8>, NoMemory>
    ensures key { IfOk result (λ short. short.items ≡ short_key key.now) }
    ensures len { IfOk result (λ short. length short.items ≤ 64) }
{
    if key.len() > BLOCK {
        Ok(Vec::from_slice(alloc, &Sha256::digest(key))?)
    } else {
        Ok(Vec::from_slice(alloc, key)?)
    }
}

impl Key {
    /// A key of any number of bytes. One of more than 64 counts as its digest.
    pub fn new(alloc: Global, key: &[u8]) -> Result<Self, NoMemory>
        ensures { IfOk result (λ made. made ≡ short_key key.now) }
    {
        let bytes = short_key(alloc, key)?;
        let inner = begin(&bytes, INNER);
        let outer = begin(&bytes, OUTER);
        Ok(Key {
            bytes,
            inner,
            outer,
        })
    }

    /// The sum of a message in two parts: HMAC with SHA-256 (RFC 2104, FIPS 198-1).
    pub fn sum(&self, first: &[u8], second: &[u8]) -> [u8; 32]
        ensures { result ≡ sum_under self.now (first.now ++ second.now) }
    {
        let mut inner = self.inner.clone().unwrap();
        inner.update(first);
        inner.update(second);
        let mut outer = self.outer.clone().unwrap();
        outer.update(inner.finalize());
        outer.finalize()
    }
}
