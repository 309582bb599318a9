ghost use Rattle.cast_pace.specs.Following.{WhoGoesOnHasRoom};
ghost use Rattle.cast_pace.specs.Lasting.{LongestIsOfTheLast};
ghost use Rattle.cast_pace.specs.Changes.{AsManyComeBetween, AsManyComeFirst};
ghost use Rattle.cast_pace.specs.Changes.{AWaitComesBetween, AWaitComesFirst};

/// Over all acknowledgements, the time that the slowest site takes at least is the longest among
/// those that came last: all of them, or more than 4,096 and no more than 8,192.
pub fn longest_is_of_the_last()
    ensures { LongestIsOfTheLast }
{}

/// Over all that happens, the window becomes less only once for as many acknowledgements as it has.
/// At least so many come before the first time, and from one time to the next.
pub fn less_once_for_as_many()
    ensures first { AsManyComeFirst }
    ensures between { AsManyComeBetween }
{}

/// Over all that happens, a cast has to wait before the window becomes greater, and again from one
/// time to the next. If an acknowledgement was late so far, at least as many acknowledgements come
/// from one time to the next as the window has.
pub fn greater_where_wanted()
    ensures first { AWaitComesFirst }
    ensures between { AWaitComesBetween }
{}

/// Where a cast waits for the key that `Casts::awaited` answered, and may go on, fewer casts follow
/// the oldest message that is kept than its window has.
pub fn who_goes_on_has_room()
    ensures { WhoGoesOnHasRoom }
{}
