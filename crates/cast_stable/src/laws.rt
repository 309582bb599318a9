ghost use Rattle.cast_stable.specs.Stable.{StableIsGreatest};
ghost use Rattle.cast_stable.specs.Laws.{NewFits, TellKeepsMeaning, ReceiveKeepsMeaning};
ghost use Rattle.cast_stable.specs.Laws.{AckKeepsMeaning, LearnKeepsMeaning};
ghost use Rattle.cast_stable.specs.Laws.{UptoIsTheRule, StableIsTheRule};
ghost use Rattle.cast_stable.specs.Sizes.{NewKeepsNone, ReceiveAddsTwo, AckAddsTwo};
ghost use Rattle.cast_stable.specs.Sizes.{LearnAddsOne, TellAddsNone, TellLeavesNoneEnded};
ghost use Rattle.cast_stable.specs.Sizes.{AllAreInOrder, AllKeepFew};

/// The number of stable messages is the greatest one: each other site has acknowledged the messages
/// to it, and some other site has not acknowledged the next.
pub fn stable_is_greatest()
    ensures { StableIsGreatest }
{}

/// By what a site keeps, as many messages are stable as by all acknowledgements ever received, and
/// a message is known to be stable exactly if it is by all that was ever acknowledged and told.
pub fn records_mean_the_rule()
    ensures upto { UptoIsTheRule }
    ensures stable { StableIsTheRule }
{}

/// What each call does to the records it does to what they mean: a group has a new view, a message
/// is received, acknowledged, and told to be stable.
pub fn records_keep_their_meaning()
    ensures new { NewFits }
    ensures tell { TellKeepsMeaning }
    ensures receive { ReceiveKeepsMeaning }
    ensures ack { AckKeepsMeaning }
    ensures learn_stable { LearnKeepsMeaning }
{}

/// What is kept is bounded by what came in. A new ledger keeps nothing. Where the keys of its runs
/// rise, a receipt or an acknowledgement adds at most two numbers. News of stability adds at most
/// one. A group's next view adds none, and after it nothing is kept of the group's earlier views.
/// So after any calls the keys of runs rise, and at most two numbers are kept for each receipt,
/// acknowledgement and news of stability.
pub fn what_is_kept_is_bounded()
    ensures new { NewKeepsNone }
    ensures received { ReceiveAddsTwo }
    ensures acked { AckAddsTwo }
    ensures learnt { LearnAddsOne }
    ensures ended { TellAddsNone }
    ensures none_ended { TellLeavesNoneEnded }
    ensures order { AllAreInOrder }
    ensures all { AllKeepFew }
{}
