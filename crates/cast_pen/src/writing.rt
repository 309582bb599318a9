//! What is written to a program, and what is left of it.
ghost use Rattle.std.specs.Prelude.{◌≡◌, List, ℕ, None, IfOk, OnErr};
ghost use Rattle.std.specs.declared.option.Option.{Option};
ghost use Rattle.cast_session.specs.Outgoing.{spelled_pushes};
ghost use Rattle.cast_pen.specs.Writing.{Gives, GivesWhole, Puts, ends, is_full, left_of, next_of};

use cast_message::Push;
use cast_session::spell_out;
use cast_types::NoMemory;
use std::alloc::Global;
use std::mem;

/// Most entries that one Take of a session asks for.
pub const BATCH: u32 = 64;

/// How much of some bytes went out.
#[derive(Clone, Copy, Debug, PartialEq, Eq)]
pub enum Written {
    /// All of them.
    All,
    /// So many. The program takes no more for now.
    Part(usize),
    /// The stream is of no use. It may have taken some.
    Failed,
}

/// The stream to a program.
pub trait Stream {
    // All bytes that it took, at a type that tells of them.
    ghost took: { Self → Option (List ℕ) } = { λ _. None };

    // It is of no use, at a type that tells of it.
    ghost has_failed: { Self → Type 0 } = { λ _. Unit {0} };

    /// Writes as many of the bytes as the stream takes without waiting.
    fn write_now(&mut self, bytes: &[u8]) -> Written
        ensures { Gives (has_failed self.new) (took self.old) (took self.new) bytes.now result };

    /// Writes the bytes, and waits as long as the program takes some. False if the stream is of no
    /// use. Then it may have taken some.
    fn write_whole(&mut self, bytes: &[u8]) -> bool
        ensures { GivesWhole (has_failed self.new) (took self.old) (took self.new) bytes.now
            result };
}

/// Bytes that were taken for a program, and are not all written.
#[derive(Drop)]
pub struct Unwritten {
    /// All that was taken, spelled.
    pub bytes: Vec<u8>,
    /// How many of them are written.
    pub written: usize,
    /// The last of them tell the program that its session ends. After them the stream is closed.
    pub is_last: bool,
    /// The outbox may have more entries.
    pub is_more: bool,
}

/// What a program's writer has to do. It has the pen meanwhile.
#[derive(Drop)]
pub enum WriterTask {
    /// Take what the outbox has, and write it.
    Take,
    /// Write these bytes first.
    Write(Unwritten),
}

/// What is to be done once bytes were given to a stream.
#[derive(Drop)]
pub enum Next {
    /// All are written. Says whether the outbox may have more entries.
    GoOn(bool),
    /// These are still to be written.
    Rest(Unwritten),
    /// The stream is to be closed: the session has ended, or the stream is of no use.
    End,
}

/// Writes entries that were taken, as many as the stream takes without waiting. `NoMemory`: none is
/// written.
pub fn put_entries<S: Stream>(
    stream: &mut S,
    room: &mut Vec<u8>,
    alloc: Global,
    entries: &[Push],
) -> Result<Next, NoMemory>
    ensures ok { IfOk result (λ next. Puts (S.has_failed stream.new) (S.took stream.old)
        (S.took stream.new) (spelled_pushes entries.now) (ends entries.now) (is_full entries.now)
        next) }
    ensures err { OnErr result (stream.new ≡ stream.old) }
{
    room.clear();
    spell_out(room, entries)?;
    Ok(put(stream, room, alloc, has_end(entries), is_full(entries)))
}

// Writes as many bytes of the room as the stream takes without waiting.
fn put<S: Stream>(
    stream: &mut S,
    room: &mut Vec<u8>,
    alloc: Global,
    is_last: bool,
    is_more: bool,
) -> Next
    ensures { Puts (S.has_failed stream.new) (S.took stream.old) (S.took stream.new)
        room.old.items is_last is_more result }
{
    match stream.write_now(room.as_slice()) {
        Written::All => next_of(is_last, is_more),
        Written::Part(written) => Next::Rest(Unwritten {
            bytes: mem::replace(room, Vec::new(alloc)),
            written,
            is_last,
            is_more,
        }),
        Written::Failed => Next::End,
    }
}

/// Writes what is unwritten, and waits where it has to.
pub fn put_rest<S: Stream>(stream: &mut S, unwritten: Unwritten) -> Next
    ensures { Puts (S.has_failed stream.new) (S.took stream.old) (S.took stream.new)
        (left_of unwritten) unwritten.is_last unwritten.is_more result }
{
    let from = unwritten.written.min(unwritten.bytes.len());
    if stream.write_whole(&unwritten.bytes[from..]) {
        next_of(unwritten.is_last, unwritten.is_more)
    } else {
        Next::End
    }
}

// What is to be done once all is written.
fn next_of(is_last: bool, is_more: bool) -> Next
    ensures { result ≡ next_of is_last is_more }
{
    if is_last {
        Next::End
    } else {
        Next::GoOn(is_more)
    }
}

// Whether these entries tell a program that its session ends.
fn has_end(entries: &[Push]) -> bool
    ensures { result ≡ ends entries.now }
{
    entries.iter().any(|entry| matches!(entry, Push::Closed(_)))
}

// Whether a Take that had these entries may have left some.
fn is_full(entries: &[Push]) -> bool
    ensures { result ≡ is_full entries.now }
{
    entries.len() >= BATCH as usize
}
