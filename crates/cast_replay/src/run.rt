ghost use Rattle.std.specs.Prelude.{◌≡◌, ◌≢◌, [], IfOk, IfErr, Err};
ghost use Rattle.std.specs.IoError.{error_kind};
ghost use Rattle.std.specs.Str.{IsUtf8};
ghost use Rattle.std.specs.String.{string_bytes};
ghost use Rattle.cast_device.specs.Watching.{HasFailedOrStalled};
ghost use Rattle.cast_device.specs.Writing.{IsTold};
ghost use Rattle.cast_script.specs.declared.script.ScriptFault.{ScriptFault};
ghost use Rattle.cast_replay.specs.Ends.{Ends, EndsAs, EndsOn, IsEnd, fault_text};
ghost use Rattle.cast_replay.specs.Ends.{run_fault, status_of, unread_as, End, Reading};
ghost use Rattle.cast_replay.specs.declared.run.RunFault.TheVariants.{NoMemory, Unreadable};

use cast_device::{Watched, tell};
use cast_isolation::{Watch, replay_watched};
use cast_print::print;
use cast_script::{Reason, ScriptFault, parse};
use itoa::Buffer;
use std::alloc::{AllocError, Global};
use std::io::Write;
use std::rt::Files;
use std::{fs, io};
use thiserror::Error;

/// Why a file has no log.
#[derive(Clone, Copy, Debug, PartialEq, Eq, Error)]
pub enum RunFault {
    /// It cannot be read, or is not UTF-8.
    #[error("cannot read")]
    Unreadable,
    /// The first line that cannot be used, counted from 1, and why.
    #[error("line {0}: {1}")]
    BadLine(usize, Reason),
    /// Memory ran out, which says nothing of the file.
    #[error("no memory")]
    NoMemory,
}

impl From<AllocError> for RunFault {
    ghost from_gives = { λ _ fault. fault ≡ NoMemory };

    fn from(_error: AllocError) -> RunFault {
        RunFault::NoMemory
    }
}

impl From<ScriptFault> for RunFault {
    ghost from_gives = { λ fault end. end ≡ run_fault fault };

    fn from(fault: ScriptFault) -> RunFault {
        match fault {
            ScriptFault::At { line, reason } => RunFault::BadLine(line, reason),
            ScriptFault::NoMemory => RunFault::NoMemory,
        }
    }
}

impl RunFault {
    // The status of the program.
    fn status(self) -> u8
        ensures { result ≡ status_of (Err self) }
    {
        match self {
            RunFault::Unreadable => 3,
            RunFault::BadLine(_, _) => 4,
            RunFault::NoMemory => 5,
        }
    }

    // Says what it is, where the file has this name.
    fn say<E: Write>(self, name: &str, err: &mut Watched<E>)
        ensures { IsTold (E.contents err.old.device) (E.contents err.new.device)
            (fault_text name.now self) (HasFailedOrStalled err.new) }
    {
        match self {
            RunFault::Unreadable => tell(err, &["castd: cannot read ", name, "\n"]),
            RunFault::BadLine(line, reason) => {
                let mut buffer = Buffer::new();
                let number = buffer.format(line);
                let why = reason.text();
                tell(err, &["castd: line ", number, ": ", why, "\n"]);
            }
            RunFault::NoMemory => tell(err, &["castd: no memory\n"]),
        }
    }
}

/// Says that memory ran out, and answers the status of the program for it.
pub fn no_memory<E: Write>(err: &mut Watched<E>) -> u8
    ensures status { result ≡ status_of (Err NoMemory) }
    ensures told { IsTold (E.contents err.old.device) (E.contents err.new.device)
        (fault_text [] NoMemory) (HasFailedOrStalled err.new) }
{
    complain("", RunFault::NoMemory, err)
}

/// Says why the file of this name has no log, and answers the status of the program for it. Takes
/// no memory.
pub fn complain<E: Write>(name: &str, fault: RunFault, err: &mut Watched<E>) -> u8
    ensures status { result ≡ status_of (Err fault) }
    ensures told { IsTold (E.contents err.old.device) (E.contents err.new.device)
        (fault_text name.now fault) (HasFailedOrStalled err.new) }
{
    fault.say(name, err);
    fault.status()
}

// Says that a record lacks the events behind so many.
pub(crate) fn say_gap<E: Write>(events: u64, err: &mut Watched<E>) {
    let mut buffer = Buffer::new();
    let number = buffer.format(events);
    tell(
        err,
        &[
            "castd: the record lacks what came after event ",
            number,
            "\n",
        ],
    );
}

/// Replays the script in a file's bytes and writes its log, or why it has none, and answers the
/// status of the program. How far the replay is, is told meanwhile. A write that fails is passed
/// over. What was noted of earlier calls of the writers is cleared.
pub fn run_script<P: Watch, O: Write, E: Write>(
    alloc: Global,
    name: &str,
    bytes: &[u8],
    watch: &mut P,
    out: &mut Watched<O>,
    err: &mut Watched<E>,
) -> u8
    // The log, the status and the errors are those of one end.
    ensures ended { (end : End)
        × Ends bytes.now end
        × IsEnd O.contents out.old out.new E.contents err.old err.new name.now result end }
    // And no writer is called that has nothing to write.
    ensures done { result ≡ 0 → err.new.device ≡ err.old.device }
    ensures failed { result ≢ 0 → out.new.device ≡ out.old.device }
{
    out.begin();
    err.begin();
    match printed_log(alloc, bytes, watch) {
        Ok(text) => {
            tell(out, &[text.as_str()]);
            0
        }
        Err(fault) => complain(name, fault, err),
    }
}

/// Replays the script in what was read of a file, as `run_script` does. Where that is an error, the
/// file could not be read, or there was no memory to read it, and this is said.
pub fn replay_read<P: Watch, O: Write, E: Write>(
    alloc: Global,
    name: &str,
    read: io::Result<Vec<u8>>,
    watch: &mut P,
    out: &mut Watched<O>,
    err: &mut Watched<E>,
) -> u8
    ensures ended { (end : End)
        × EndsOn read end
        × IsEnd O.contents out.old out.new E.contents err.old err.new name.now result end }
    ensures done { result ≡ 0 → err.new.device ≡ err.old.device }
    ensures failed { result ≢ 0 → out.new.device ≡ out.old.device }
{
    match read {
        Ok(bytes) => run_script(alloc, name, &bytes, watch, out, err),
        Err(error) => complain(name, unread(&error), err),
    }
}

// Why a file has no log of which the reading gave this error.
fn unread(error: &io::Error) -> RunFault
    ensures { result ≡ unread_as (error_kind error.now) }
{
    match error.kind() {
        io::ErrorKind::OutOfMemory => RunFault::NoMemory,
        _ => RunFault::Unreadable,
    }
}

/// Replays the script in the file of this name, as `replay_read` does, and answers the status of
/// the program.
pub fn replay_file<R: Files + AllocGlobal, P: Watch, O: Write, E: Write>(
    files: &R,
    name: &str,
    watch: &mut P,
    out: &mut Watched<O>,
    err: &mut Watched<E>,
) -> u8
    // No clause can say that what was read is the file.
    ensures ended { (read : Reading)
        × (end : End)
        × EndsOn read end
        × IsEnd O.contents out.old out.new E.contents err.old err.new name.now result end }
    ensures done { result ≡ 0 → err.new.device ≡ err.old.device }
    ensures failed { result ≢ 0 → out.new.device ≡ out.old.device }
{
    replay_read(files.alloc(), name, fs::read(files, name), watch, out, err)
}

// The bytes as a text.
fn text_of(bytes: &[u8]) -> Result<&str, RunFault>
    ensures text { IfOk result (λ text. (text.now ≡ bytes.now) × IsUtf8 bytes.now) }
    ensures fault { IfErr result (λ fault. (fault ≡ Unreadable) × ¬ (IsUtf8 bytes.now)) }
{
    match str::from_utf8(bytes) {
        Ok(text) => Ok(text),
        Err(_) => Err(RunFault::Unreadable),
    }
}

/// The printed log of the script in a file's bytes, in which each domain is served as if alone, or
/// why there is none.
pub fn printed_log<P: Watch>(alloc: Global, bytes: &[u8], watch: &mut P) -> Result<String, RunFault>
    ensures ends { EndsAs string_bytes bytes.now result }
{
    let text = text_of(bytes)?;
    let script = parse(alloc, text)?;
    let site = script.config.site;
    let log = replay_watched(alloc, script.config, script.events.as_slice(), watch)?;
    Ok(print(alloc, site, &log)?)
}
