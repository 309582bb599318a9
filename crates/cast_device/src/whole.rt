ghost use Rattle.std.specs.Prelude.{◌≡◌, ◌↔◌, IsErr, OnErr, flat_map};
ghost use Rattle.cast_device.specs.Watching.{HasFailedOrStalled, calls_of};
ghost use Rattle.cast_device.specs.Writing.{IsTold, Writes};

use crate::watched::Watched;
use std::io::Write;
use thiserror::Error;

/// The writer failed, or so many calls in a row were interrupted that it counts as failed.
#[derive(Clone, Copy, Debug, PartialEq, Eq, Error)]
#[error("the writer failed")]
pub struct WriteFault;

/// Writes the bytes, in as many calls as the writer needs. An interrupted call is made again. A
/// writer that counts as failed is called no more until its notes are cleared.
pub fn write_whole<W: Write>(writer: &mut Watched<W>, bytes: &[u8]) -> Result<(), WriteFault>
    // All of the bytes at `Ok`, and a beginning of them at `Err`.
    ensures written { Writes (W.contents writer.old.device) (W.contents writer.new.device)
        result bytes.now }
    // The fault comes exactly where the notes tell of one, which they do until they are cleared.
    ensures failed { IsErr result ↔ HasFailedOrStalled writer.new }
    ensures stays { HasFailedOrStalled writer.old → HasFailedOrStalled writer.new }
    ensures calls { calls_of writer.new ≡ calls_of writer.old }
{
    let mut rest = bytes;
    while !writer.has_failed_or_stalled() {
        if rest.is_empty() {
            return Ok(());
        }
        if let Ok(count) = writer.write(rest) {
            rest = &rest[count..];
        }
    }
    Err(WriteFault)
}

// Writes these texts one behind the other.
fn write_texts<W: Write>(writer: &mut Watched<W>, texts: &[&str]) -> Result<(), WriteFault>
    ensures written { Writes (W.contents writer.old.device) (W.contents writer.new.device)
        result (flat_map (λ text. text.now) texts.now) }
    ensures failed { OnErr result (HasFailedOrStalled writer.new) }
{
    for text in texts {
        write_whole(writer, text.as_bytes())?;
    }
    Ok(())
}

/// Writes these texts one behind the other, each as `write_whole` does, up to a fault, which is
/// passed over. Takes no memory.
pub fn tell<W: Write>(writer: &mut Watched<W>, texts: &[&str])
    ensures { IsTold (W.contents writer.old.device) (W.contents writer.new.device)
        (flat_map (λ text. text.now) texts.now) (HasFailedOrStalled writer.new) }
{
    let _ = write_texts(writer, texts);
}
