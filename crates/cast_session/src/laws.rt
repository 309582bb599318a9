ghost use Rattle.cast_session.specs.Laws.{CommandsStay, FaultEnds, RequestsThenBad};

/// What is heard of bytes does not depend on how they come: commands that were heard stay heard, in
/// their places, when more bytes come, and behind a fault nothing more is heard. `Bad` is the last
/// of the commands where there is a fault, and stands nowhere else.
pub fn commands_stay()
    ensures commands { CommandsStay }
    ensures fault { FaultEnds }
    ensures bad { RequestsThenBad }
{}
