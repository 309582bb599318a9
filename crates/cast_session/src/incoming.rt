ghost use Rattle.std.specs.Prelude.{◌≡◌, ◌↔◌, Some, None};
ghost use Rattle.cast_device.specs.Watching.{HasFailed, HasFailedOrLasted, calls_of};
ghost use Rattle.cast_session.specs.Ahead.{bytes_of};
ghost use Rattle.cast_session.specs.Handing.{HandsOn};
ghost use Rattle.cast_session.specs.Incoming.{EndsBad, GoesOn, PumpedIn};
ghost use Rattle.cast_session.specs.Pushes.{IsCut};

use crate::ahead::{Ahead, Filled};
use crate::sink::Sink;
use cast_client::{ClientRead, decode_client};
use cast_device::{PATIENCE, Watched};
use cast_field::FrameFault;
use cast_message::{ClientFrame, Command};
use std::alloc::Global;
use std::io::Read;
use std::sync::Wait;

/// What ended the commands of a program.
#[derive(Clone, Copy, Debug, PartialEq, Eq)]
pub enum InEnd {
    /// The reader's end. A frame that it cut is dropped.
    End,
    /// This fault in a frame's place. `Command::Bad` was handed on for it, as the last command.
    Bad(FrameFault),
    /// The reader failed, or `PATIENCE` calls of `read` were made.
    ReadFault,
    /// An allocation was refused, here or by the sink.
    NoMemory,
}

/// Reads the frames of a program to the reader's end, as many bytes at a time as there are, up to
/// 64 KiB. The command of each whole frame that was read is handed on before it reads further.
///
/// A push in a command's place is the fault `WrongType`. An interrupted call of `read` is made
/// again.
pub fn pump_in<R: Read, S: Sink>(alloc: Global, reader: &mut Watched<R>, sink: &mut S) -> InEnd
    // Which bytes were read, and which of the commands that they say were handed on.
    ensures pumped { PumpedIn (R.remaining reader.old.device) (R.remaining reader.new.device)
        (S.taken sink.old) (S.taken sink.new) result }
    // The reader's fault comes where a call failed, and else only at the last of them.
    ensures failed { HasFailed reader.new → result ≡ InEnd.ReadFault }
    ensures fault { result ≡ InEnd.ReadFault → HasFailedOrLasted reader.new }
{
    let mut ahead = Ahead::new(alloc);
    match pump_turns(alloc, &mut ahead, reader, sink) {
        Some(end) => end,
        None => InEnd::ReadFault,
    }
}

/// Reads the frames of a program as `pump_in` does, however many calls of `read` that takes.
pub fn pump_on<C: Wait, R: Read, S: Sink>(
    rt: &C,
    alloc: Global,
    reader: &mut Watched<R>,
    sink: &mut S,
) -> InEnd
    ensures pumped { PumpedIn (R.remaining reader.old.device) (R.remaining reader.new.device)
        (S.taken sink.old) (S.taken sink.new) result }
    // The reader's fault comes exactly where a call failed.
    ensures failed { HasFailed reader.new ↔ result ≡ InEnd.ReadFault }
{
    let mut ahead = Ahead::new(alloc);
    for _ in rt.forever() {
        if let Some(end) = pump_turns(alloc, &mut ahead, reader, sink) {
            return end;
        }
    }
    unreachable!()
}

// Makes `PATIENCE` calls of `read`, unless this ends the commands before. What is kept of the next
// frame stays in `ahead`.
fn pump_turns<R: Read, S: Sink>(
    alloc: Global,
    ahead: &mut Ahead,
    reader: &mut Watched<R>,
    sink: &mut S,
) -> Option<InEnd>
    requires cut { IsCut (bytes_of ahead.old) }
    // Whatever was pumped before goes on so.
    ensures pumped { GoesOn (R.remaining reader.old.device) (R.remaining reader.new.device)
        (S.taken sink.old) (S.taken sink.new) (bytes_of ahead.old) (bytes_of ahead.new) result }
    ensures failed { HasFailed reader.new ↔ result ≡ Some InEnd.ReadFault }
    ensures lasted { result ≡ None → calls_of reader.new ≡ PATIENCE }
{
    reader.begin();
    for _turn in 0..PATIENCE {
        if ahead.make_room().is_err() {
            return Some(InEnd::NoMemory);
        }
        match ahead.fill(reader) {
            Filled::More => match hand_on(alloc, ahead.bytes(), sink) {
                Ok(count) => ahead.drop_front(count),
                Err(end) => return Some(end),
            },
            Filled::End => return Some(InEnd::End),
            Filled::ReadFault => return Some(InEnd::ReadFault),
        }
    }
    None
}

// Hands on the commands of the whole frames at the front of the bytes: how many bytes these have,
// or what ended it.
fn hand_on<S: Sink>(alloc: Global, bytes: &[u8], sink: &mut S) -> Result<usize, InEnd>
    ensures { HandsOn (S.taken sink.old) (S.taken sink.new) bytes.now result }
{
    let mut done = 0;
    loop {
        match decode_client(alloc, &bytes[done..]) {
            Ok(ClientRead::More(_)) => return Ok(done),
            Ok(ClientRead::Frame(frame, len)) => match frame {
                ClientFrame::Request(request) => {
                    if sink.take(Command::Request(request)).is_err() {
                        return Err(InEnd::NoMemory);
                    }
                    done += len;
                }
                ClientFrame::Push(_) => return Err(end_bad(sink, FrameFault::WrongType)),
            },
            Err(fault) => return Err(end_bad(sink, fault)),
        }
    }
}

// The end at a fault. Where it is the bytes' own, it is handed on that they are bad.
fn end_bad<S: Sink>(sink: &mut S, fault: FrameFault) -> InEnd
    ensures { EndsBad (S.taken sink.old) (S.taken sink.new) fault result }
{
    if fault == FrameFault::NoMemory {
        return InEnd::NoMemory;
    }
    match sink.take(Command::Bad) {
        Ok(()) => InEnd::Bad(fault),
        Err(_) => InEnd::NoMemory,
    }
}
