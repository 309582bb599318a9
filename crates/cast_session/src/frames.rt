ghost use Rattle.std.specs.Prelude.{◌≡◌, ◌+◌, ◌<◌, ◌++◌, ◌↔◌, ◌⊎◌, [], IsTrue, Ok};
ghost use Rattle.cast_client.specs.Reading.{client_of};
ghost use Rattle.cast_client.specs.declared.front.ClientRead.TheVariants.{More};

use cast_client::{ClientRead, decode_client};
use cast_device::{PATIENCE, Watched};
use cast_field::FrameFault;
use cast_message::ClientFrame;
use std::alloc::Global;
use std::io::{ErrorKind, Read};

/// Bytes of the length of a frame.
const LENGTH: usize = 4;

/// Most bytes that one call of `read` is asked for.
const CHUNK: usize = 4096;

/// What one call of `read` came to.
#[derive(Drop)]
pub enum ReadStep {
    /// The frame is whole.
    Frame(ClientFrame),
    /// It is not, and no fault stands there. Also where the call was interrupted.
    Part,
    /// The reader is at its end.
    End,
    /// A fault stands in the frame's place, or an allocation was refused.
    Fault(FrameFault),
    /// The reader failed.
    ReadFault,
}

/// The frame that is being read: the bytes of it that have come, and how many are wanting before
/// more can be said.
#[derive(Drop)]
pub struct Incoming {
    bytes: Vec<u8>,
    wanting: usize,
    ghost is_part: { client_of bytes.items ≡ Ok (More wanting) },
}

impl Incoming {
    ghost use Rattle.cast_device.specs.Watching.{HasFailed, calls_of};
    ghost use Rattle.cast_session.specs.ReadSteps.{Added, HasRead};

    /// No byte of a frame.
    #[tactic(auto, using(crate::proofs::Fronts::no_front))]
    pub fn new(alloc: Global) -> Self
        ensures { result.bytes.items ≡ [] }
    {
        Incoming {
            bytes: Vec::new(alloc),
            wanting: LENGTH,
        }
    }

    /// Whether no byte of the frame has come.
    pub fn is_empty(&self) -> bool
        ensures { IsTrue result ↔ (self.now.bytes.items ≡ []) }
    {
        self.bytes.is_empty()
    }

    /// One call of `read`, for no more bytes than are wanting.
    pub fn read_more<R: Read>(&mut self, alloc: Global, reader: &mut Watched<R>) -> ReadStep
        requires { calls_of reader.old < PATIENCE }
        ensures read { HasRead (R.remaining reader.old.device) (R.remaining reader.new.device)
            self.old.bytes.items self.new.bytes.items result }
        ensures calls { calls_of reader.new ≡ calls_of reader.old + 1 }
        ensures failed { HasFailed reader.new
            ↔ (HasFailed reader.old ⊎ (result ≡ ReadStep.ReadFault)) }
    {
        let mut chunk = [0; CHUNK];
        let room = &mut chunk[..self.wanting.min(CHUNK)];
        match reader.read(room) {
            Ok(0) => ReadStep::End,
            Ok(count) => self.add(alloc, &room[..count]),
            Err(error) if error.kind() == ErrorKind::Interrupted => ReadStep::Part,
            Err(_) => ReadStep::ReadFault,
        }
    }

    // Takes in bytes that came.
    #[tactic(auto, using(crate::proofs::Fronts::no_front))]
    fn add(&mut self, alloc: Global, bytes: &[u8]) -> ReadStep
        ensures { Added result (self.old.bytes.items ++ bytes.now) self.new.bytes.items }
    {
        if self.bytes.extend_from_slice(bytes).is_err() {
            return ReadStep::Fault(FrameFault::NoMemory);
        }
        match decode_client(alloc, &self.bytes) {
            Ok(ClientRead::More(wanting)) => {
                self.wanting = wanting;
                ReadStep::Part
            }
            Ok(ClientRead::Frame(frame, _)) => {
                self.bytes.clear();
                self.wanting = LENGTH;
                ReadStep::Frame(frame)
            }
            Err(fault) => {
                self.bytes.clear();
                self.wanting = LENGTH;
                ReadStep::Fault(fault)
            }
        }
    }
}
