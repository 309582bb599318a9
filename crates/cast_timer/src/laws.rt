ghost use Rattle.cast_timer.specs.Laws.{OwingOwes, OwingLeaves, PayingPays, PayingLeaves};

/// A frame is owed from when a domain owes it until it is paid, and neither changes whether another
/// frame is owed.
pub fn owed_until_paid()
    ensures owed { OwingOwes }
    ensures owing_leaves { OwingLeaves }
    ensures paid { PayingPays }
    ensures paying_leaves { PayingLeaves }
{}
