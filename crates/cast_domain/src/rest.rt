ghost use Rattle.std.specs.Prelude.{◌≡◌, ◌<◌};
ghost use Rattle.cast_domain.specs.declared.rest.Weight.TheVariants.{Hands};

use cast_message::Push;
use cast_types::{Proc, Uid};

/// What a delivery is to the order of its view.
#[derive(Clone, Copy)]
pub enum Weight {
    Nothing,
    /// An ABCAST was delivered.
    Placed,
    /// The token is handed over to this process, which orders from this place on.
    Hands(Proc, u32),
}

/// What the delivery of a message is to a domain: its id, what it is to the order of its view, and
/// what the program is told of it.
#[derive(Drop)]
pub struct Delivery {
    pub id: Uid,
    pub weight: Weight,
    pub push: Option<Push>,
}
