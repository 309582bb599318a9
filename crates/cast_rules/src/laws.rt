ghost use Rattle.cast_rules.specs.Agreeing.{RunIsOne};
ghost use Rattle.cast_rules.specs.AtRest.{QuietStays, RestIsComputed, RestIsQuiet};
ghost use Rattle.cast_rules.specs.Endings.{EachComesToRest, PassMoves, RestIsOne};
ghost use Rattle.cast_rules.specs.Endings.{SettlesOne, TurnsAreEnough};
ghost use Rattle.cast_rules.specs.Noted.{ActsAreNoted};
ghost use Rattle.cast_rules.specs.Raising.{CountsCanBeRaised, CountsCanBeRaisedWithin};
ghost use Rattle.cast_rules.specs.Raising.{MembersAreCounted, RunsArePassed};
ghost use Rattle.cast_rules.specs.Refusing.{RefusedLeaves, RefusedReplies};

/// After each event, from whatever state, the rest ends, and in one state alone: a pass that
/// changes something leaves fewer Installs that wait, or less to be done, or fewer Wants to be
/// owed, and none of the numbers before it rises.
pub fn rest_ends()
    ensures passes { PassMoves }
    ensures ends { EachComesToRest }
    ensures one { RestIsOne }
{}

/// Once an event has come to rest nothing is left to be done: no message that is kept is free, and
/// none is ready for a process of the site; no holder has anything to list that it may list; an
/// Install waits only for what some member has not delivered, and what the site lacks of that is
/// wanted; and no home has a view to start or to decide, and what its sites lack is wanted. A state
/// of which all that holds stays as it is, and whether it holds can be computed.
pub fn rest_is_quiet()
    ensures quiet { RestIsQuiet }
    ensures stays { QuietStays }
    ensures computed { RestIsComputed }
{}

/// A process that has taken as many turns as messages were received has nothing ready, and however
/// many turns it took: where nothing is ready, those were all.
pub fn deliveries_end()
    ensures settled { SettlesOne }
    ensures turns { TurnsAreEnough }
{}

/// A member's count can always be raised, unless it is the last one: after each run, and in each
/// state that a run passes. For a member counts messages of members alone, and a view has no more
/// of these than a time has room for.
pub fn counts_can_be_raised()
    ensures raised { CountsCanBeRaised }
    ensures within { CountsCanBeRaisedWithin }
    ensures counted { MembersAreCounted }
    ensures passed { RunsArePassed }
{}

/// What a history notes of each process is what it did: in each state that a run passes, what it
/// noted as sent was received here under its name, in that order, and it has delivered what it
/// noted as delivered, in that order; its ABCASTs too. Beside what it sent, messages may bear its
/// name that a home forwarded here as a view ended.
pub fn acts_are_noted()
    ensures noted { ActsAreNoted }
{}

/// An event that is refused leaves the state as it was. A request that is refused leads to its
/// reply alone, with what a full outbox makes of that: then the session is closed, since its
/// program is too slow.
pub fn refused_leaves()
    ensures leaves { RefusedLeaves }
    ensures replies { RefusedReplies }
{}

/// The same events lead a domain that is served alone from the same state to the same answers,
/// frames, entries and state.
pub fn runs_are_one()
    ensures { RunIsOne }
{}
