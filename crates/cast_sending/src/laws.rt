ghost use Rattle.cast_sending.specs.Quiet.{SilentSitesAreSentFew};
ghost use Rattle.cast_sending.specs.HeldBack.{KnownIsWhatHappened, SevenAreHeldBackAtMost};
ghost use Rattle.cast_sending.specs.Laws.{NothingIsMadeUp, OthersGoOn, StablesAreCovered};

/// Over each list of moves from an empty machine on, in which nothing is lost, each Stable that
/// came is covered by one that went on then or later, or waits. Each other frame that came went on
/// once, in order. Nothing goes on that did not come, nor more often than it came.
pub fn what_comes_goes_on()
    ensures covered { StablesAreCovered }
    ensures others { OthersGoOn }
    ensures made_up { NothingIsMadeUp }
{}

/// Over all that happens to a site, a message for it passes unless the site has acknowledged
/// nothing for 50 ticks since it was sent the first message behind its last acknowledgement. Then
/// at most two pass from one tick to the next.
pub fn silent_sites_are_sent_few()
    ensures { SilentSitesAreSentFew }
{}

/// Of eight times in a row that the rules send a message, it goes to the wire once at least. This
/// holds whatever happens between them: messages are acknowledged, all are forgotten, or memory is
/// short. What is known of a message is when it went to the wire last, and how often the rules sent
/// it in vain since then.
pub fn none_is_held_back_for_ever()
    ensures seven { SevenAreHeldBackAtMost }
    ensures known { KnownIsWhatHappened }
{}
