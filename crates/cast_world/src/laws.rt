ghost use Rattle.cast_world.specs.Bounds.{AllThatIsKeptIsCounted, WhatIsKeptIsBounded};
ghost use Rattle.cast_world.specs.Casts.{AllCastsAreApart, AllDeliveriesWereCast, AllSendOnce};
ghost use Rattle.cast_world.specs.Casts.{AllSentWereCast};
ghost use Rattle.cast_world.specs.Laws.{AllAbcastsAreActs, AllDeliverInOneOrder};
ghost use Rattle.cast_world.specs.Laws.{AllDeliverTheSame, AllDeliveriesWereSent};
ghost use Rattle.cast_world.specs.Laws.{AllJoinsGoForward, AllListsAreActs, AllListsAreInOrder};
ghost use Rattle.cast_world.specs.Laws.{AllNamesAreUnique, AllOrdersAgree, AllPassWithCut};
ghost use Rattle.cast_world.specs.Laws.{AllPushesAreActs, AllStampsRise, AllStampsRiseStrictly};
ghost use Rattle.cast_world.specs.Laws.{AllStartsAreKnown, AllViewsAreDecided, CausalDelivery};
ghost use Rattle.cast_world.specs.Programs.{AllAreTold, AllClosedAreLast, AllInsideAreOpen};
ghost use Rattle.cast_world.specs.Programs.{AllOpenAreTold, AllOrdersToldAgree};
ghost use Rattle.cast_world.specs.Programs.{AllShowInstalled, AllShowOneMembership};
ghost use Rattle.cast_world.specs.Programs.{AllShowRisingViews, AllToldCausally};
ghost use Rattle.cast_world.specs.Programs.{AllToldFirstInFirstOut, AllToldInOneOrder};
ghost use Rattle.cast_world.specs.Programs.{AllToldInSendingView, AllToldOnce, AllToldTheSame};
ghost use Rattle.cast_world.specs.Programs.{AllToldWhenDue, NothingFollows};
ghost use Rattle.cast_world.specs.Properties.{AllDeliverCausally, AllDeliverFirstInFirstOut};
ghost use Rattle.cast_world.specs.Properties.{AllDeliverInSendingView, AllDeliverInView};
ghost use Rattle.cast_world.specs.Properties.{AllDeliverOnce, AllDeliverOwn, AllEnterAsMembers};
ghost use Rattle.cast_world.specs.Properties.{AllEnterByInstalls, AllHoldersHoldTokens};
ghost use Rattle.cast_world.specs.Properties.{AllInstallsAgree, AllSendInView};
ghost use Rattle.cast_world.specs.Properties.{AllTokensAreHeldOnce, AllViewsRise};
ghost use Rattle.cast_world.specs.Refused.{AllRefusedLeave, AllRefusedReply};
ghost use Rattle.cast_world.specs.Worlds.{AllAnswersAreLists, AllRunsAreNetworks, AllTellInOrder};
ghost use Rattle.cast_world.specs.Worlds.{AllTellOneOrder, AllTellTheSame, AllToldOrdersAgree};

/// Where one message happened before another, and both are due to a process, the process does not
/// deliver the later one first: the earlier one stands before it among what the process did, and in
/// the list of what it delivered.
pub fn causal_delivery()
    ensures acts { CausalDelivery }
    ensures listed { AllListsAreInOrder }
{}

/// Causal delivery: who delivers a message and one that happened before it delivers that one first,
/// whichever groups they are of. FIFO delivery: who delivers two messages of one sender delivers
/// them in the order in which they were sent.
pub fn deliveries_keep_order()
    ensures causal { AllDeliverCausally }
    ensures first_in_first_out { AllDeliverFirstInFirstOut }
{}

/// No duplication: no process delivers two messages of one id, nor one twice.
pub fn no_duplication()
    ensures { AllDeliverOnce }
{}

/// Self delivery: who passes from one view to the next has delivered, in between, all that it sent
/// in the first, casts and set-order messages alike.
pub fn self_delivery()
    ensures { AllDeliverOwn }
{}

/// Sending view delivery: who sends a message, and who delivers it, is then in the view that the
/// message names. So a message that is delivered in a view was sent by its sender in that view.
pub fn messages_keep_to_views()
    ensures sent { AllSendInView }
    ensures delivered { AllDeliverInView }
    ensures sending_view { AllDeliverInSendingView }
{}

/// Local monotonicity: the views of a group that a process enters rise.
pub fn views_rise()
    ensures { AllViewsRise }
{}

/// Self inclusion: who enters a view does so by an Install of the view that was sent, and each
/// Install of the view names the process as a member. All Installs of a view name the same members,
/// and the same process to tell its order first.
pub fn views_have_one_membership()
    ensures installed { AllEnterByInstalls }
    ensures self_inclusion { AllEnterAsMembers }
    ensures same { AllInstallsAgree }
{}

/// Mutual exclusion: at most one process holds the token of a view, whatever views the sites have.
/// A process holds it if an Install of the view named it as the first holder, or if it delivered a
/// hand-over that names it, and if it has handed the token over to nobody since. Whom the rules
/// take for the holder holds it.
pub fn tokens_are_held_once()
    ensures once { AllTokensAreHeldOnce }
    ensures rules { AllHoldersHoldTokens }
{}

/// What a process delivered is, in order, what its acts say that it delivered; and the ABCASTs that
/// it delivered of a view are, in order, those among what it delivered of the view.
pub fn lists_are_acts()
    ensures delivered { AllListsAreActs }
    ensures abcasts { AllAbcastsAreActs }
{}

/// A stamp is at least that of each message that happened before. It covers all that the earlier
/// one covers, and the earlier one does not cover the later message.
pub fn stamps_rise()
    ensures at_most { AllStampsRise }
    ensures strictly { AllStampsRiseStrictly }
{}

/// A view number in any time was decided at the home before.
pub fn views_are_decided()
    ensures { AllViewsAreDecided }
{}

/// A step that takes in a joining process does so by a view above the one that it had heard of.
pub fn joins_go_forward()
    ensures { AllJoinsGoForward }
{}

/// No process sends two messages of one name.
pub fn names_are_unique()
    ensures { AllNamesAreUnique }
{}

/// What a process delivers was sent by its sender.
pub fn deliveries_were_sent()
    ensures { AllDeliveriesWereSent }
{}

/// Delivery integrity, from the cast command on. Who delivers a message that has a payload delivers
/// what the message's process cast: at a step of the run the process's program asked to cast this
/// payload, of this kind, in this group, and by this step the process sent the message. So it is of
/// each such message that a process sent, which bears the name of the process. Each step casts at
/// most one message, and no process sends one twice.
pub fn deliveries_were_cast()
    ensures delivered { AllDeliveriesWereCast }
    ensures sent { AllSentWereCast }
    ensures apart { AllCastsAreApart }
    ensures once { AllSendOnce }
{}

/// Who passes from one view to the next has delivered in it exactly the cut: each message within
/// it, and no other of that view.
pub fn passes_with_cut()
    ensures { AllPassWithCut }
{}

/// Views agree. Who passes from one view to the next delivered the same messages of the first as
/// all others who do, and its ABCASTs in the same order. Of two members of a view, until an Install
/// of the next one comes to their sites, one has delivered a prefix of the view's ABCASTs that the
/// other has delivered.
pub fn views_agree()
    ensures same_messages { AllDeliverTheSame }
    ensures same_order { AllDeliverInOneOrder }
    ensures prefix { AllOrdersAgree }
{}

/// An Install lists the end of the order of the view before it. All that comes before that end is
/// known, and known alike, at each site that has a member in that view.
pub fn starts_are_known()
    ensures { AllStartsAreKnown }
{}

/// What a program is told of its process is so: it entered the view that is pushed, delivered the
/// message that is pushed, and left the group or was put out of it where it is told that it is
/// ejected.
pub fn pushes_are_acts()
    ensures { AllPushesAreActs }
{}

/// Programs are told what their processes do. In every run the casts and views that a program is
/// pushed are those that its process delivered and entered, in that order, none missing and none
/// made up. At most the last one is missing, and only where the program is told that it was too
/// slow; while its session is open none is. The entry that closes a session is its last one. A
/// process is in a view only while its session is open, and once that is over it does nothing more
/// and its program is told nothing more.
pub fn programs_are_told()
    ensures all { AllAreTold }
    ensures while_open { AllOpenAreTold }
    ensures closed { AllClosedAreLast }
    ensures inside { AllInsideAreOpen }
    ensures over { NothingFollows }
{}

/// What programs are told keeps order. Causal delivery: who is told a cast and one that happened
/// before it is told that one first, and no program is told a cast before one that happened before
/// it and is due to its process. FIFO delivery: who is told two casts of one sender is told them in
/// the order in which they were sent. No duplication: no program is told two casts of one id, nor
/// one twice. Sending view delivery: a program is told a cast in the view that the cast names,
/// which is the last one that it was told of the group, and there the sender sent it. Local
/// monotonicity: the views of a group that a program is told rise.
pub fn programs_are_told_in_order()
    ensures causal { AllToldCausally }
    ensures due { AllToldWhenDue }
    ensures first_in_first_out { AllToldFirstInFirstOut }
    ensures once { AllToldOnce }
    ensures sending_view { AllToldInSendingView }
    ensures views_rise { AllShowRisingViews }
{}

/// What programs are told agrees. Each view that a program is told has the members of an Install of
/// it that was sent, and the process is one of them; so all programs are told one membership of a
/// view. The programs of processes that pass from one view to the next are told the same casts of
/// the first, and its ABCASTs in the same order. Of two members of a view, until an Install of the
/// next one comes to their sites, one is told a prefix of the view's ABCASTs that the other is
/// told.
pub fn programs_agree()
    ensures installed { AllShowInstalled }
    ensures same_members { AllShowOneMembership }
    ensures same_messages { AllToldTheSame }
    ensures same_order { AllToldInOneOrder }
    ensures prefix { AllOrdersToldAgree }
{}

/// Whoever forges frames, a domain keeps few messages. After any events, with any frames in the
/// name of any site, those that no waiting Install covers are at most twice the greatest quota of
/// kept messages that was in force. All that are kept are of the views that their groups have now,
/// and an order has at most 4,000,000,000 places.
///
/// Where the parts of frames are as their types say, no message is kept twice. So all that are kept
/// are at most twice that quota and, for each group in which an Install waits, as many as its cut
/// names.
pub fn what_is_kept_is_bounded()
    ensures uncovered { WhatIsKeptIsBounded }
    ensures counted { AllThatIsKeptIsCounted }
{}

/// A whole step whose event is refused leaves the history of its site as it was: nothing is sent,
/// delivered or pushed, no count and no moment changes, and nothing follows from it. So does a step
/// whose event is a request that is refused, of an open session whose outbox has room, but for the
/// reply: that is pushed to this session, and nothing else is. Where the outbox has no room, the
/// session is closed in place of the reply, since its program is too slow, and its process leaves
/// its groups.
pub fn refused_steps_leave()
    ensures leaves { AllRefusedLeave }
    ensures replies { AllRefusedReply }
{}

/// What daemons tell. After any list of steps the daemons of a [`World`](crate::World), all of one
/// home, stand for a network to which these steps lead, and what `World::delivered` answers of a
/// process is what the process delivered in it. So what holds of deliveries holds of these answers:
/// they are in causal order, and views agree.
pub fn answers_agree()
    ensures networks { AllRunsAreNetworks }
    ensures lists { AllAnswersAreLists }
    ensures causal { AllTellInOrder }
    ensures same_messages { AllTellTheSame }
    ensures same_order { AllTellOneOrder }
    ensures prefix { AllToldOrdersAgree }
{}
