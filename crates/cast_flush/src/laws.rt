ghost use Rattle.cast_flush.specs.Laws.{CutInWords, NeededInWords, KeeperInWords, LongestInWords};
ghost use Rattle.cast_flush.specs.Laws.{UnplacedInWords, OrderIsWhole, OrderIsWithinTheCut};
ghost use Rattle.cast_flush.specs.Laws.{EachBodyLeavesFewer, WantingIsNamed};

/// The cut says what the rule says in words: of each member as many messages belong to the view as
/// some awaited site has had, and no fewer than any of them.
pub fn cut_is_the_rule_in_words()
    ensures { CutInWords }
{}

/// Wanted are the messages within the cut that some site keeps and another does not, each from a
/// site that keeps it.
pub fn needed_is_the_rule_in_words()
    ensures needed { NeededInWords }
    ensures keeper { KeeperInWords }
{}

/// The order that a view ends with reaches as far as that of any report, and behind it stand
/// ABCASTs that some site keeps and knows no place for; all of it is within the cut. From reports
/// as sites send them nothing is cut off.
pub fn order_is_the_rule_in_words()
    ensures longest { LongestInWords }
    ensures unplaced { UnplacedInWords }
    ensures whole { OrderIsWhole }
    ensures within { OrderIsWithinTheCut }
{}

/// No more messages are wanted than the reports name, and each that comes leaves fewer. So with
/// these reports no more come than they name. A report that is taken away changes what is wanted.
pub fn what_comes_is_bounded()
    ensures fewer { EachBodyLeavesFewer }
    ensures named { WantingIsNamed }
{}
