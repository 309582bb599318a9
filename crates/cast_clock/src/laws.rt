ghost use Rattle.cast_clock.specs.Laws.{CountsJoin, ClocksJoin, OrderIsPointwise, OrderIsReflexive};
ghost use Rattle.cast_clock.specs.Laws.{OrderIsTransitive, JoinIsAbove, JoinIsLeast, BumpRaises};
ghost use Rattle.cast_clock.specs.Laws.{BumpLeavesCounts, BumpLeavesViews, EnterBegins};
ghost use Rattle.cast_clock.specs.Laws.{EnterLeaves, JoinIsTime, BumpIsTime, EnterIsTime};

/// Each clock of a join is the join of the two clocks, and each of its counts in a view the greater
/// of the two.
pub fn join_is_pointwise()
    ensures counts { CountsJoin }
    ensures clocks { ClocksJoin }
{}

/// A time is at most another exactly if each of its clocks is, and this is a preorder.
pub fn order_is_pointwise()
    ensures pointwise { OrderIsPointwise }
    ensures reflexive { OrderIsReflexive }
    ensures transitive { OrderIsTransitive }
{}

/// The join is the least time that both times are at most.
pub fn join_is_least()
    ensures above { JoinIsAbove }
    ensures least { JoinIsLeast }
{}

/// A bump raises one count by one, and leaves every other count and every view.
pub fn bump_raises_one()
    ensures raised { BumpRaises }
    ensures other_counts { BumpLeavesCounts }
    ensures views { BumpLeavesViews }
{}

/// Entering a view begins the clock of its group, and leaves every other group.
pub fn enter_begins_one()
    ensures begun { EnterBegins }
    ensures others { EnterLeaves }
{}

/// What is joined, bumped or entered of times is a time again, where no group has more than 64
/// counts.
pub fn times_stay_times()
    ensures joined { JoinIsTime }
    ensures bumped { BumpIsTime }
    ensures entered { EnterIsTime }
{}
