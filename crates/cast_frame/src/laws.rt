ghost use Rattle.cast_frame.specs.Laws.{SpelledFits, SpelledIsRead, SpellingsDiffer};

/// A frame whose numbers are in their ranges is read from its spelling.
pub fn spelled_is_read()
    ensures { SpelledIsRead }
{}

/// Two such frames with one spelling are one frame, of one domain and from one site.
pub fn spellings_differ()
    ensures { SpellingsDiffer }
{}

/// The spelling of such a frame has at most 60,000 bytes.
pub fn spelled_fits()
    ensures { SpelledFits }
{}
