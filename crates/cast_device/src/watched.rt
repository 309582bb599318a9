ghost use Rattle.std.specs.Prelude.{◌≡◌, ◌+◌, ◌<◌, ◌↔◌, ◌⊎◌, IsTrue};
ghost use Rattle.std.specs.Io.{ReadsAtMost, WritesAtMost};
ghost use Rattle.std.specs.Io.KnownBytes.{ReadConsumes, WriteAppends};

use std::io;
use std::io::{ErrorKind, Read, Write};

/// Calls after which a device counts as failed: of `read` all that a pump makes, and of `write`
/// those in a row that were interrupted.
pub const PATIENCE: u64 = 4_294_967_296;

/// A reader or a writer, and what is noted of its calls since the notes were last cleared. Nothing
/// else writes the notes, so a contract can say that a fault is answered exactly where the device
/// failed.
#[derive(Drop)]
pub struct Watched<D> {
    /// The reader or the writer.
    pub device: D,
    calls: u64,
    interruptions: u64,
    has_failed: bool,
}

impl<D> Watched<D> {
    ghost use Rattle.cast_device.specs.Watching.{HasFailed, HasFailedOrStalled};
    ghost use Rattle.cast_device.specs.Watching.{calls_of, interruptions_of};

    /// A reader or a writer of which no call was made.
    pub fn new(device: D) -> Self
        ensures device { result.device ≡ device }
        ensures calls { calls_of result ≡ 0 }
        ensures interruptions { interruptions_of result ≡ 0 }
        ensures failed { ¬ HasFailed result }
    {
        Watched {
            device,
            calls: 0,
            interruptions: 0,
            has_failed: false,
        }
    }

    /// How many calls of `read` were made.
    pub fn calls(&self) -> u64
        ensures { result ≡ calls_of self.now }
    {
        self.calls
    }

    /// How many calls of `write` in a row were interrupted, up to the last one.
    pub fn interruptions(&self) -> u64
        ensures { result ≡ interruptions_of self.now }
    {
        self.interruptions
    }

    /// Whether a call failed: with an error other than an interruption, or one of `write` by taking
    /// no byte.
    pub fn has_failed(&self) -> bool
        ensures { IsTrue result ↔ HasFailed self.now }
    {
        self.has_failed
    }

    /// Whether a call failed, or so many calls of `write` in a row were interrupted that the writer
    /// counts as failed.
    pub fn has_failed_or_stalled(&self) -> bool
        ensures { IsTrue result ↔ HasFailedOrStalled self.now }
    {
        self.has_failed || self.interruptions >= PATIENCE
    }

    /// Clears the notes.
    pub fn begin(&mut self)
        ensures device { self.new.device ≡ self.old.device }
        ensures calls { calls_of self.new ≡ 0 }
        ensures interruptions { interruptions_of self.new ≡ 0 }
        ensures failed { ¬ HasFailed self.new }
    {
        self.calls = 0;
        self.interruptions = 0;
        self.has_failed = false;
    }
}

impl<R: Read> Watched<R> {
    ghost use Rattle.cast_device.specs.Watching.{HasFailed, ReadFails, calls_of, interruptions_of};

    /// One call of `read`.
    pub fn read(&mut self, room: &mut [u8]) -> io::Result<usize>
        requires { calls_of self.old < PATIENCE }
        ensures bound { ReadsAtMost result room.new }
        ensures bytes { ReadConsumes (R.remaining self.old.device) (R.remaining self.new.device)
            result room.new }
        ensures calls { calls_of self.new ≡ calls_of self.old + 1 }
        ensures interruptions { interruptions_of self.new ≡ interruptions_of self.old }
        ensures failed { HasFailed self.new ↔ (HasFailed self.old ⊎ ReadFails result) }
    {
        let answer = self.device.read(room);
        self.calls += 1;
        if let Err(error) = &answer
            && error.kind() != ErrorKind::Interrupted
        {
            self.has_failed = true;
        }
        answer
    }
}

impl<W: Write> Watched<W> {
    ghost use Rattle.cast_device.specs.Watching.{HasFailed, IsInterrupted, WriteFails};
    ghost use Rattle.cast_device.specs.Watching.{calls_of, interruptions_of};

    // One call of `write`. An interruption is counted, and any other call ends the count.
    pub(crate) fn write(&mut self, bytes: &[u8]) -> io::Result<usize>
        requires { interruptions_of self.old < PATIENCE }
        ensures bound { WritesAtMost result bytes.now }
        ensures bytes { WriteAppends (W.contents self.old.device) (W.contents self.new.device)
            result bytes.now }
        ensures calls { calls_of self.new ≡ calls_of self.old }
        ensures interrupted { IsInterrupted result
            → interruptions_of self.new ≡ interruptions_of self.old + 1 }
        ensures passed { ¬ IsInterrupted result → interruptions_of self.new ≡ 0 }
        ensures failed { HasFailed self.new ↔ (HasFailed self.old ⊎ WriteFails result) }
    {
        let answer = self.device.write(bytes);
        match &answer {
            Err(error) if error.kind() == ErrorKind::Interrupted => self.interruptions += 1,
            Ok(0) | Err(_) => {
                self.interruptions = 0;
                self.has_failed = true;
            }
            Ok(_) => self.interruptions = 0,
        }
        answer
    }
}
