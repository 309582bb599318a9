ghost use Rattle.cast_print.specs.Laws.{PartsJoin, PrintedIsRead, ReadIsPrintable};

/// What is printed is read back as the configuration and the events that were printed.
pub fn printed_is_read()
    ensures { PrintedIsRead }
{}

/// What a script says can be printed: its configuration and its events are such that they are read
/// back.
pub fn read_is_printable()
    ensures { ReadIsPrintable }
{}

/// A script may be printed in parts: its configuration, and then its events in any number of lists.
pub fn parts_join()
    ensures { PartsJoin }
{}
