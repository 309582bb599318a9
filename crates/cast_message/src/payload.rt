ghost use Rattle.std.specs.Prelude.{◌≡◌, ◌≤◌, IfOk, IsTrue, ◌↔◌, [], length};

use bytes::Bytes;
use cast_types::NoMemory;
use std::marker::Model;

/// What a program sends: at most 16,384 bytes. Contracts see the list of the bytes.
#[derive(Drop)]
pub struct Payload {
    bytes: Bytes,
}

impl Model for Payload {
    ghost use Rattle.std.specs.Prelude.{List, ℕ, ◌≤◌, length};

    ghost Value = { List ℕ };

    ghost view = { λ p. p.bytes };

    ghost invariant = { λ p. length p.bytes ≤ 16384 };
}

impl Payload {
    /// A payload of these bytes.
    pub fn from_bytes(bytes: Bytes) -> Self
        requires { length bytes ≤ 16384 }
        ensures { result ≡ bytes }
    {
        Payload { bytes }
    }

    /// The bytes.
    pub fn bytes(&self) -> &Bytes
        ensures value { result.now ≡ self.now }
        ensures bound { length self.now ≤ 16384 }
    {
        &self.bytes
    }

    /// The bytes.
    pub fn as_slice(&self) -> &[u8]
        ensures value { result.now ≡ self.now }
        ensures bound { length self.now ≤ 16384 }
    {
        self.bytes.as_slice()
    }

    /// How many bytes there are, at most 16,384.
    pub fn len(&self) -> usize
        ensures value { result ≡ length self.now }
        ensures bound { result ≤ 16384 }
    {
        self.bytes.len()
    }

    /// Whether there is no byte.
    pub fn is_empty(&self) -> bool
        ensures { IsTrue result ↔ (self.now ≡ []) }
    {
        self.bytes.is_empty()
    }

    /// An equal value.
    pub fn copy(&self) -> Result<Self, NoMemory>
        ensures { IfOk result (λ p. p ≡ self.now) }
    {
        Ok(Payload {
            bytes: self.bytes.clone()?,
        })
    }
}
