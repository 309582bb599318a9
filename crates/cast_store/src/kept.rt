ghost use Rattle.std.specs.Prelude.{◌≡◌, ◌<◌, ◌++◌, [], Some, get_or, length, slice_get};
ghost use Rattle.std.specs.Option.{option_map};
ghost use Rattle.cast_store.specs.declared.receipt.Receipt.{Receipt};
ghost use Rattle.cast_store.specs.Ids.{is_abcast};
ghost use Rattle.cast_store.specs.Lines.{kept_by, IsHeld};
ghost use Rattle.slab.specs.Slab.{get as slot_at};

use crate::receipt::Receipt;
use crate::slot::Slot;
use cast_message::Message;
use cast_types::{Key, Uid};
use slab::Slab;
use std::collections::VecDeque;
use std::marker::Model;

/// The messages that a domain keeps, lent: a list of them with their keys, in order of receipt.
#[derive(Drop)]
pub struct Kept<'a> {
    /// The first receipts.
    front: &'a [Receipt],
    /// Those behind them.
    back: &'a [Receipt],
    slots: &'a Slab<Slot>,
}

impl<'a> Model for Kept<'a> {
    ghost use Rattle.std.specs.Prelude.{List, ◌++◌};
    ghost use Rattle.slab.specs.Slab.{get as slot_at};
    ghost use Rattle.cast_message.specs.declared.message.Received.{Received};

    ghost Value = { List Received };

    ghost use Rattle.cast_store.specs.Lines.{kept_by, IsHeld};

    ghost view = { λ k. kept_by (slot_at k.slots.now) (k.front.now ++ k.back.now) };

    ghost invariant = { λ k. IsHeld (slot_at k.slots.now) (k.front.now ++ k.back.now) };
}

impl<'a> Kept<'a> {
    /// No messages.
    pub(crate) fn empty(slots: &'a Slab<Slot>) -> Self
        ensures { result ≡ [] }
    {
        Kept {
            front: &[],
            back: &[],
            slots,
        }
    }

    /// The messages of these receipts.
    pub(crate) fn new(receipts: &'a VecDeque<Receipt>, slots: &'a Slab<Slot>) -> Self
        requires { IsHeld (slot_at slots.now) receipts.now.items }
        ensures { result ≡ kept_by (slot_at slots.now) receipts.now.items }
    {
        let (front, back) = receipts.as_slices();
        Kept { front, back, slots }
    }

    /// How many messages there are.
    pub fn len(&self) -> usize
        ensures { result ≡ length self.now }
    {
        self.front.len() + self.back.len()
    }

    /// The message of a place, counted from 0, with its key.
    pub fn at(&self, place: usize) -> (Key, &'a Message)
        requires { place < length self.now }
        ensures { slice_get self.now place
            ≡ Some (record { key = result.0; message = result.1.now }) }
    {
        let receipt = receipt_at(self.front, self.back, place);
        (Key(receipt.number), &self.slots[receipt.slot].message)
    }

    /// The id of the message of a place.
    pub fn id(&self, place: usize) -> Uid
        requires { place < length self.now }
        ensures { option_map (λ r. r.message.id) (slice_get self.now place) ≡ Some result }
    {
        receipt_at(self.front, self.back, place).id
    }

    /// Whether the message of a place is an ABCAST.
    pub fn is_atomic(&self, place: usize) -> bool
        requires { place < length self.now }
        ensures { option_map (λ r. is_abcast r.message) (slice_get self.now place) ≡ Some result }
    {
        receipt_at(self.front, self.back, place).atomic
    }
}

// The receipt of a place in two parts of a list.
fn receipt_at(front: &[Receipt], back: &[Receipt], place: usize) -> Receipt
    requires { place < length (front.now ++ back.now) }
    ensures { (r : Receipt) → result ≡ get_or (front.now ++ back.now) place r }
{
    match front.get(place) {
        Some(receipt) => *receipt,
        None => back[place - front.len()],
    }
}
