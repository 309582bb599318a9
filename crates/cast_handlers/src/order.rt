ghost use Rattle.std.specs.Prelude.{◌≡◌, ◌<◌, None, ◌&&◌, ◌||◌, Some};
ghost use Rattle.cast_domain.specs.Records.{own_records, TellsAlone};
ghost use Rattle.cast_domain.specs.FlushCalls.{holds_here, holder_in};
ghost use Rattle.std.specs.List.{find};
ghost use Rattle.std.specs.Option.{option_copied};

use cast_domain::Domain;
use cast_order::OrderHand;
use cast_types::{GroupNo, Proc};

// The first process here that holds the token of a group's view.
pub(crate) fn holder_here(domain: &Domain, group: GroupNo) -> Option<Proc>
    ensures { TellsAlone (λ r. holder_in r group) domain.now result }
{
    match first_holding(domain, domain.orders.hands(group)) {
        Some(hand) => Some(domain.process(hand.process.serial)),
        None => None,
    }
}

// The first of what is kept of processes that is of one that holds the token.
fn first_holding<'a>(domain: &Domain, hands: &'a [OrderHand]) -> Option<&'a OrderHand>
    ensures { option_copied result ≡ find (holds_here (own_records domain.now)) hands.now }
{
    hands.iter().find(|hand| domain.holds_here(hand))
}
