ghost use Rattle.cast_client.specs.Laws.{ClientFits, ClientIsRead, ClientSpellingsDiffer};
ghost use Rattle.cast_client.specs.Laws.{FaultStays, FrameStays, PartWantsTheRest, WantingStays};

/// A frame whose numbers are in their ranges is read from its spelling, whatever comes behind it.
pub fn client_is_read()
    ensures { ClientIsRead }
{}

/// Two such frames have different spellings, and neither spelling is the beginning of the other.
pub fn client_spellings_differ()
    ensures { ClientSpellingsDiffer }
{}

/// A part of such a spelling wants the rest of its length, and then the rest of itself.
pub fn part_wants_the_rest()
    ensures { PartWantsTheRest }
{}

/// When more bytes come, a frame that was read stays read, a fault stays, and no less is wanted
/// than what has not come.
pub fn more_comes()
    ensures frame { FrameStays }
    ensures fault { FaultStays }
    ensures wanting { WantingStays }
{}

/// The spelling of such a frame has 5 to 20,000 bytes.
pub fn client_fits()
    ensures { ClientFits }
{}
