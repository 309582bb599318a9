ghost use Rattle.cast_isolation.specs.Laws.{OwnEventsDecide};

/// Two lists of events, or two configurations, that agree on a domain and on its own events give it
/// the same: it answers, sends and pushes alike, whatever other domains there are and whatever
/// happens to them.
pub fn own_events_decide()
    ensures { OwnEventsDecide }
{}
