//! What holds of the pen of a program, whatever is done with it. What is done is a list, in the
//! order in which the pen's lock has it. Threads keep to what is for a thread with the pen.
ghost use Rattle.cast_pen.specs.Laws.{OneHolder, NoPushIsLeft, HolderGoesOn, MissedIsWanted};
ghost use Rattle.cast_pen.specs.Laws.{BytesAreKept, AllIsWritten, NothingBehindTheEnd};
ghost use Rattle.cast_pen.specs.Laws.{PuttingIsWriting};

/// At each moment at most one thread has the pen, or it is on its way to the writer.
pub fn one_has_the_pen()
    ensures { OneHolder }
{}

/// No push is left in the outbox: a claim or a call follows it, and once the pen is free, there is
/// behind that a Take that left nothing.
pub fn no_push_is_left()
    // Unless the stream was closed, or the last Take found no memory.
    ensures left { NoPushIsLeft }
    // Who has the pen when it comes keeps it until there is such a Take.
    ensures goes_on { HolderGoesOn }
    // After a Take without memory another is wanted, and whoever asks next gets the pen.
    ensures missed { MissedIsWanted }
{}

/// All that was taken comes to the stream as spelled, in the order of the Takes, none twice and
/// none left out: at each moment a beginning of it is there, and the rest is in the hand of who has
/// the pen, or is passed with it.
pub fn bytes_keep_their_order()
    ensures kept { BytesAreKept }
    // Once the pen is free all is there, unless the stream was closed.
    ensures all { AllIsWritten }
    // Once who has the pen has closed it, nothing more is written.
    ensures end { NothingBehindTheEnd }
    // What `put_entries` and `put_rest` do with bytes in hand is such a move.
    ensures put { PuttingIsWriting }
{}
