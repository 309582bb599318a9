ghost use Rattle.cast_order.specs.Order.{KnownOrderInWords};
ghost use Rattle.cast_order.specs.Laws.{NewFits, LearnKeepsMeaning, HandKeepsMeaning};
ghost use Rattle.cast_order.specs.Laws.{PassKeepsMeaning, MoreKeepsMeaning, ForgetKeepsMeaning};
ghost use Rattle.cast_order.specs.Laws.{OldestMayBeForgotten, NextIsTheRule, LengthIsTheRule};
ghost use Rattle.cast_order.specs.Laws.{PastIsTheRule, AssignIsTheRule, WholeIsTheRule};
ghost use Rattle.cast_order.specs.Laws.{TailIsTheRule, NewHandFits, HoldKeepsHand};
ghost use Rattle.cast_order.specs.Laws.{HandOverKeepsHand, TellKeepsHand, FollowKeepsHand};
ghost use Rattle.cast_order.specs.Laws.{PlaceKeepsHand, NoteKeepsHand, SettledIsTheRule};
ghost use Rattle.cast_order.specs.Laws.{HandChangeIsOfOne, LearntIsOfAll, ChangeKeepsOrder};
ghost use Rattle.cast_order.specs.Laws.{PlaceKeepsOrder, CloseEndsTheOrder};
ghost use Rattle.cast_order.specs.Laws.{ClosedLearnsNothing, PassKeepsClosed, MoreKeepsClosed};
ghost use Rattle.cast_order.specs.Laws.{HandKeepsClosed, NextIsOfTheClosed, ChangeIsOfOneGroup};
ghost use Rattle.cast_order.specs.Laws.{ForgetFirstIsOfOneGroup, ForgetIsOfOneGroup};
ghost use Rattle.cast_order.specs.Sizes.{NewKeepsNone, LearnAddsItsFacts, PlacementTellsFew};
ghost use Rattle.cast_order.specs.Sizes.{CloseAddsItsIds, ForgetAddsNone};

/// The known order says what the rule says in words: each place has the first id told for it, and
/// the order ends only before a place of which nothing was told, or at the last place.
pub fn order_is_the_rule_in_words()
    ensures { KnownOrderInWords }
{}

/// By what a site keeps, the first id that a process which goes on through the order has not
/// delivered is that of the whole order known; as many ids are known as that has; and the ids past
/// a place are those of that, but for what is forgotten. The next set-order message of a process
/// sets the places behind the order known, of what it delivered and what is not in that. The two
/// make up the whole order, of which all but the first ids are kept, and the tail is that of it.
pub fn log_means_the_rule()
    ensures next { NextIsTheRule }
    ensures length { LengthIsTheRule }
    ensures past { PastIsTheRule }
    ensures assign { AssignIsTheRule }
    ensures whole { WholeIsTheRule }
    ensures tail { TailIsTheRule }
{}

/// What each call does to what is kept it does to what that means: a set-order message is received,
/// a process that orders does something (`hands_keep_their_meaning` says what), processes deliver
/// what the order names, and first ids are forgotten that each process which goes on has delivered
/// and that are not of the tail. The oldest ids are such first ids.
pub fn log_keeps_its_meaning()
    ensures new { NewFits }
    ensures learn { LearnKeepsMeaning }
    ensures hand { HandKeepsMeaning }
    ensures pass { PassKeepsMeaning }
    ensures more { MoreKeepsMeaning }
    ensures forget { ForgetKeepsMeaning }
    ensures oldest { OldestMayBeForgotten }
{}

/// What each call does to what is kept of a process that orders the view's ABCASTs it does to what
/// that means: the process holds the token from a place on, or hands it over; it delivers an ABCAST
/// that is in the order known or is not; ids join that order; and it sends a set-order message. By
/// what is kept it has settled the places before its first one, and those up to the last one that
/// its stable messages set. A call about one process changes what is kept of no other, and what is
/// learnt joins the order for each. What is kept stands in rising order of the processes.
pub fn hands_keep_their_meaning()
    ensures new { NewHandFits }
    ensures hold { HoldKeepsHand }
    ensures hand_over { HandOverKeepsHand }
    ensures tell { TellKeepsHand }
    ensures follow { FollowKeepsHand }
    ensures place { PlaceKeepsHand }
    ensures note { NoteKeepsHand }
    ensures settled { SettledIsTheRule }
    ensures one { HandChangeIsOfOne }
    ensures all { LearntIsOfAll }
    ensures rises { ChangeKeepsOrder }
    ensures rises_placed { PlaceKeepsOrder }
{}

/// When the end of a view's order is told, the order known becomes the closed one, but for the
/// first ids, which stay forgotten. Then nothing is learnt, processes deliver what the closed order
/// names, one that ordered may still do something, and the first id that a process which goes on
/// has not delivered is that of the whole closed order.
pub fn a_closed_order_stays()
    ensures close { CloseEndsTheOrder }
    ensures learn { ClosedLearnsNothing }
    ensures pass { PassKeepsClosed }
    ensures more { MoreKeepsClosed }
    ensures hand { HandKeepsClosed }
    ensures next { NextIsOfTheClosed }
{}

/// A call about one group changes what is kept of no other.
pub fn groups_do_not_mix()
    ensures change { ChangeIsOfOneGroup }
    ensures forget_first { ForgetFirstIsOfOneGroup }
    ensures forget { ForgetIsOfOneGroup }
{}

/// What the log of an order keeps is bounded by what it was told. A new log keeps no ids. A
/// set-order message adds at most as many as it tells, and it tells at most 64. The end of the
/// order adds at most those that are told with it. Forgetting first ids adds none.
pub fn what_is_kept_is_bounded()
    ensures new { NewKeepsNone }
    ensures learnt { LearnAddsItsFacts }
    ensures few { PlacementTellsFew }
    ensures closed { CloseAddsItsIds }
    ensures forgot { ForgetAddsNone }
{}
