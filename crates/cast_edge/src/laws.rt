ghost use Rattle.cast_edge.specs.Ends.{NoEndIsForgotten, NoneIsAskedTwice};

/// Over all calls, once the program of a session is gone, the session's Gone is to be handed in or
/// is on the way, until the session is gone. While it is on the way, it is not handed in again.
pub fn sessions_end()
    ensures kept { NoEndIsForgotten }
    ensures once { NoneIsAskedTwice }
{}
