ghost use Rattle.std.specs.Prelude.{◌≡◌, ◌↔◌, Err, IsTrue};
ghost use Rattle.cast_message.specs.Fitting.{client_fits};
ghost use Rattle.cast_client.specs.Spelling.{spelled_client};
ghost use Rattle.cast_device.specs.Watching.{HasFailed, HasFailedOrLasted, HasFailedOrStalled};
ghost use Rattle.cast_device.specs.Writing.{Writes};
ghost use Rattle.cast_session.specs.Known.{Between};
ghost use Rattle.cast_session.specs.Pushes.{ReadsPush};

use crate::frames::{Incoming, ReadStep};
use crate::outgoing::OutFault;
use cast_client::encode_client;
use cast_device::{PATIENCE, Watched, write_whole};
use cast_field::FrameFault;
use cast_message::{ClientFrame, Push};
use std::alloc::Global;
use std::io::{Read, Write};
use thiserror::Error;

/// Why no push was read.
#[derive(Clone, Copy, Debug, PartialEq, Eq, Error)]
pub enum PushFault {
    /// This fault stands in the push's place. An end within a frame is `Short`, a request is
    /// `WrongType`, and `NoMemory` says that an allocation was refused.
    #[error("no push: {0}")]
    Frame(FrameFault),
    /// The reader failed, or `PATIENCE` calls of `read` were made.
    #[error("the reader failed")]
    ReadFault,
}

/// Reads the first push, and no byte behind it. `None` is the reader's end before a frame. An
/// interrupted call of `read` is made again.
pub fn read_push<R: Read>(alloc: Global, reader: &mut Watched<R>) -> Result<Option<Push>, PushFault>
    // What stands at the front of the bytes that the reader had, and which bytes it has left.
    ensures read { Between (R.remaining reader.old.device) (R.remaining reader.new.device)
        (ReadsPush result) }
    // The reader's fault comes where a call failed, and else only at the last of them.
    ensures failed { HasFailed reader.new → result ≡ Err PushFault.ReadFault }
    ensures fault { result ≡ Err PushFault.ReadFault → HasFailedOrLasted reader.new }
{
    let mut incoming = Incoming::new(alloc);
    reader.begin();
    for _turn in 0..PATIENCE {
        match incoming.read_more(alloc, reader) {
            ReadStep::Part => {}
            ReadStep::Frame(ClientFrame::Push(push)) => return Ok(Some(push)),
            ReadStep::Frame(ClientFrame::Request(_)) => {
                return Err(PushFault::Frame(FrameFault::WrongType));
            }
            ReadStep::Fault(fault) => return Err(PushFault::Frame(fault)),
            ReadStep::End if incoming.is_empty() => return Ok(None),
            ReadStep::End => return Err(PushFault::Frame(FrameFault::Short)),
            ReadStep::ReadFault => return Err(PushFault::ReadFault),
        }
    }
    Err(PushFault::ReadFault)
}

/// Writes the spelling of a frame: what a program sends.
pub fn write_command<W: Write>(
    alloc: Global,
    writer: &mut Watched<W>,
    frame: &ClientFrame,
) -> Result<(), OutFault>
    requires { IsTrue (client_fits frame.now) }
    ensures written { Writes (W.contents writer.old.device) (W.contents writer.new.device)
        result (spelled_client frame.now) }
    ensures failed { (result ≡ Err OutFault.WriteFault) ↔ HasFailedOrStalled writer.new }
{
    writer.begin();
    let bytes = encode_client(alloc, frame)?;
    write_whole(writer, bytes.as_slice())?;
    Ok(())
}
