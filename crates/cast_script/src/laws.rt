ghost use Rattle.cast_script.specs.Laws.{ReadIsSpelled, SpelledIsRead};

/// A text is read as the one script that its lines spell within the limits, if there is one.
pub fn scripts_are_read()
    // What is read is spelled so.
    ensures read { ReadIsSpelled }
    // What is spelled so is read: a fault comes only where nothing is spelled.
    ensures spelled { SpelledIsRead }
{}
