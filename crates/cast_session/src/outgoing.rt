ghost use Rattle.std.specs.Prelude.{◌≡◌, ◌++◌, ◌↔◌, [], Err, OnOk, OnErr};
ghost use Rattle.cast_device.specs.Watching.{HasFailedOrStalled};
ghost use Rattle.cast_device.specs.Writing.{Writes};
ghost use Rattle.cast_session.specs.Outgoing.{spelled_pushes};
ghost use Rattle.cast_session.specs.declared.outgoing.OutFault.TheVariants as faults;

use cast_client::add_push;
use cast_device::{Watched, WriteFault, write_whole};
use cast_message::Push;
use cast_types::NoMemory;
use std::alloc::{AllocError, Global};
use std::io::Write;
use thiserror::Error;

/// Why not all was written.
#[derive(Clone, Copy, Debug, PartialEq, Eq, Error)]
pub enum OutFault {
    /// The writer failed, or so many calls in a row were interrupted that it counts as failed.
    #[error("the writer failed")]
    WriteFault,
    /// An allocation was refused.
    #[error("no memory")]
    NoMemory,
}

impl From<WriteFault> for OutFault {
    ghost from_gives = { λ _ fault. fault ≡ faults.WriteFault };

    fn from(_fault: WriteFault) -> OutFault {
        OutFault::WriteFault
    }
}

impl From<AllocError> for OutFault {
    ghost from_gives = { λ _ fault. fault ≡ faults.NoMemory };

    fn from(_error: AllocError) -> OutFault {
        OutFault::NoMemory
    }
}

/// Writes the pushes' spellings in their order, each by calls of its own.
pub fn pump_out<W: Write>(
    alloc: Global,
    writer: &mut Watched<W>,
    pushes: &[Push],
) -> Result<(), OutFault>
    // All of their bytes at `Ok`, and a beginning of them at `Err`.
    ensures written { Writes (W.contents writer.old.device) (W.contents writer.new.device)
        result (spelled_pushes pushes.now) }
    // `WriteFault` comes exactly where a call failed, or too many in a row were interrupted.
    ensures failed { (result ≡ Err OutFault.WriteFault) ↔ HasFailedOrStalled writer.new }
{
    writer.begin();
    let mut bytes = Vec::new(alloc);
    for push in pushes {
        bytes.clear();
        add_push(&mut bytes, push)?;
        write_whole(writer, bytes.as_slice())?;
    }
    Ok(())
}

/// Adds the pushes' spellings behind other bytes, in their order, so that one write can take them
/// all. `NoMemory` comes where an allocation was refused; then nothing is left to be written.
pub fn spell_out(out: &mut Vec<u8>, pushes: &[Push]) -> Result<(), NoMemory>
    ensures ok { OnOk result (out.new.items ≡ out.old.items ++ spelled_pushes pushes.now) }
    ensures err { OnErr result (out.new.items ≡ []) }
{
    let result = add_pushes(out, pushes);
    if result.is_err() {
        out.clear();
    }
    result
}

fn add_pushes(out: &mut Vec<u8>, pushes: &[Push]) -> Result<(), NoMemory>
    ensures { OnOk result (out.new.items ≡ out.old.items ++ spelled_pushes pushes.now) }
{
    for push in pushes {
        add_push(out, push)?;
    }
    Ok(())
}
