ghost use Rattle.std.specs.Prelude.{◌≡◌, IfOk};

use crate::payload::Payload;
use crate::placement::Placement;
use cast_types::{Key, Kind, NoMemory, Proc, Stamp, Uid};

/// What a message holds, by its kind.
#[derive(Drop)]
pub enum Body {
    /// The payload of a causal message.
    Causal(Payload),
    /// The payload of an atomic message.
    Atomic(Payload),
    /// The places that a message sets in the order of its view. It may hand over the token of the
    /// view too.
    Order(Placement),
}

impl Body {
    ghost use Rattle.cast_message.specs.Bodies.{hands_over, kind_of, new_holder};

    /// The kind of the message.
    pub fn kind(&self) -> Kind
        ensures { result ≡ kind_of self.now }
    {
        match self {
            Body::Causal(_) => Kind::Causal,
            Body::Atomic(_) => Kind::Atomic,
            Body::Order(_) => Kind::Order,
        }
    }

    /// The process to which the message hands over the token of its view, if it does.
    pub fn new_holder(&self) -> Option<Proc>
        ensures { result ≡ new_holder self.now }
    {
        match self {
            Body::Causal(_) | Body::Atomic(_) => None,
            Body::Order(placement) => placement.holder(),
        }
    }

    /// Whether the message hands over the token of its view.
    pub fn hands_over(&self) -> bool
        ensures { result ≡ hands_over self.now }
    {
        self.new_holder().is_some()
    }

    /// An equal value.
    pub fn copy(&self) -> Result<Self, NoMemory>
        ensures { IfOk result (λ b. b ≡ self.now) }
    {
        match self {
            Body::Causal(payload) => Ok(Body::Causal(payload.copy()?)),
            Body::Atomic(payload) => Ok(Body::Atomic(payload.copy()?)),
            Body::Order(placement) => Ok(Body::Order(placement.copy()?)),
        }
    }
}

/// A message with its name and the vector time that it bears.
#[derive(Drop)]
pub struct Message {
    pub id: Uid,
    pub times: Stamp,
    pub body: Body,
}

impl Message {
    ghost use Rattle.cast_message.specs.Bodies.{kind_of};

    /// The kind of the message.
    pub fn kind(&self) -> Kind
        ensures { result ≡ kind_of self.now.body }
    {
        self.body.kind()
    }

    /// An equal value.
    pub fn copy(&self) -> Result<Self, NoMemory>
        ensures { IfOk result (λ m. m ≡ self.now) }
    {
        Ok(Message {
            id: self.id,
            times: self.times.copy()?,
            body: self.body.copy()?,
        })
    }
}

/// A message under the key by which its domain knows it.
#[derive(Drop)]
pub struct Received {
    pub key: Key,
    pub message: Message,
}

impl Received {
    /// An equal value, under the same key.
    pub fn copy(&self) -> Result<Self, NoMemory>
        ensures { IfOk result (λ r. r ≡ self.now) }
    {
        Ok(Received {
            key: self.key,
            message: self.message.copy()?,
        })
    }
}
