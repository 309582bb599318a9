ghost use Rattle.cast_delay.specs.Rule.{RuleInWords, TurnInWords};
ghost use Rattle.cast_delay.specs.Laws.{RowMeansTheRule, TurnMeansTheRule, QueueMeansTheRule};
ghost use Rattle.cast_delay.specs.Laws.{AwaitedIsTheRule, DeliveredIsTheRule, NewFits};
ghost use Rattle.cast_delay.specs.Laws.{AdmitKeepsMeaning, DismissKeepsMeaning};
ghost use Rattle.cast_delay.specs.Laws.{TellKeepsMeaning, ViewKeepsMeaning, FreezeKeepsMeaning};
ghost use Rattle.cast_delay.specs.Laws.{PendKeepsMeaning, OfferKeepsMeaning};
ghost use Rattle.cast_delay.specs.Laws.{ForgetKeepsMeaning, DeliveryKeepsMeaning};

/// The test of readiness says what the delivery rule says in words: the process is a member of the
/// message's group in its current view, which no flush has frozen or whose cut has the message, has
/// not delivered the message, and has delivered all that happened before it. With the turns of
/// groups the test says also that an ABCAST stands at its turn: where its order is held here there
/// is room for one more place, and elsewhere it is the one that stands next.
pub fn readiness_is_the_rule_in_words()
    ensures causally { RuleInWords }
    ensures in_turn { TurnInWords }
{}

/// By what the queue keeps, a message is ready for a process, causally and with the turns of its
/// groups, exactly if the delivery rule over all that the process delivered says so, and the queue
/// names the first message in order of receipt that is ready. Of a message of a view that has not
/// ended: a process awaits it exactly if it is a member of its group that has not delivered it, and
/// has delivered it exactly if it is among what it delivered.
pub fn queue_means_the_rule()
    ensures row { RowMeansTheRule }
    ensures turn { TurnMeansTheRule }
    ensures next { QueueMeansTheRule }
    ensures awaited { AwaitedIsTheRule }
    ensures delivered { DeliveredIsTheRule }
{}

/// What each call does to the queue it does to what the queue means: a process that has not begun
/// is admitted, one that is in no group is dismissed, one takes in a fact, a group has a later
/// view, a flush freezes it, the Install of its next view waits, a message is received, one is let
/// go, and a process delivers a message that is causally ready for it.
pub fn queue_keeps_its_meaning()
    ensures new { NewFits }
    ensures admit { AdmitKeepsMeaning }
    ensures dismiss { DismissKeepsMeaning }
    ensures tell { TellKeepsMeaning }
    ensures view_changed { ViewKeepsMeaning }
    ensures freeze { FreezeKeepsMeaning }
    ensures pend { PendKeepsMeaning }
    ensures offer { OfferKeepsMeaning }
    ensures forget { ForgetKeepsMeaning }
    ensures delivered { DeliveryKeepsMeaning }
{}
