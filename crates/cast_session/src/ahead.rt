ghost use Rattle.std.specs.Prelude.{◌≡◌, ◌+◌, ◌≤◌, ◌<◌, ◌↔◌, ◌⊎◌, [], OnOk, drop, length, false};

use cast_device::{PATIENCE, Watched};
use cast_types::NoMemory;
use std::alloc::Global;
use std::io::{ErrorKind, Read};

/// Bytes of the room at first, which are enough for a program that sends little.
const FIRST_ROOM: usize = 4096;

/// Bytes of the room in the end: more than any frame has.
pub const ROOM: usize = 65_536;

/// What one call of `read` came to.
#[derive(Clone, Copy, Debug, PartialEq, Eq)]
pub enum Filled {
    /// More bytes may come. Also where the call was interrupted.
    More,
    /// The reader is at its end.
    End,
    /// The reader failed.
    ReadFault,
}

/// The bytes that were read and not handed on, at the front of the room for them.
///
/// The room belongs to the session. It is made before the first call of `read`, and grows once,
/// after a call has filled it.
#[derive(Drop)]
pub struct Ahead {
    room: Vec<u8>,
    len: usize,
    was_filled: bool,
    ghost within: { len ≤ length room.items },
    ghost some_left: { was_filled ≡ false → len < length room.items },
}

impl Ahead {
    ghost use Rattle.cast_device.specs.Watching.{HasFailed, calls_of};
    ghost use Rattle.cast_session.specs.Ahead.{HasRoom, IsFilled, bytes_of};

    /// No bytes, and no room yet.
    pub fn new(alloc: Global) -> Self
        ensures { bytes_of result ≡ [] }
    {
        Ahead {
            room: Vec::new(alloc),
            len: 0,
            was_filled: true,
        }
    }

    /// The bytes.
    pub fn bytes(&self) -> &[u8]
        ensures { result.now ≡ bytes_of self.now }
    {
        &self.room[..self.len]
    }

    /// Makes room behind the bytes, where there is none or the last call of `read` filled it.
    pub fn make_room(&mut self) -> Result<(), NoMemory>
        requires { length (bytes_of self.old) < ROOM }
        ensures ok { OnOk result (HasRoom self.new) }
        ensures same { bytes_of self.new ≡ bytes_of self.old }
    {
        let most = if self.room.is_empty() {
            FIRST_ROOM
        } else {
            ROOM
        };
        if self.was_filled && self.room.len() < most {
            self.room.resize(most, 0)?;
            self.was_filled = false;
        }
        Ok(())
    }

    /// One call of `read`, into the room behind the bytes.
    pub fn fill<R: Read>(&mut self, reader: &mut Watched<R>) -> Filled
        requires calls { calls_of reader.old < PATIENCE }
        requires room { HasRoom self.old }
        ensures filled { IsFilled (R.remaining reader.old.device) (R.remaining reader.new.device)
            (bytes_of self.old) (bytes_of self.new) result }
        ensures calls { calls_of reader.new ≡ calls_of reader.old + 1 }
        ensures failed { HasFailed reader.new
            ↔ (HasFailed reader.old ⊎ (result ≡ Filled.ReadFault)) }
    {
        match reader.read(&mut self.room[self.len..]) {
            Ok(0) => Filled::End,
            Ok(count) => {
                self.len += count;
                self.was_filled = self.len == self.room.len();
                Filled::More
            }
            Err(error) if error.kind() == ErrorKind::Interrupted => Filled::More,
            Err(_) => Filled::ReadFault,
        }
    }

    /// Takes away the first bytes.
    pub fn drop_front(&mut self, count: usize)
        requires { count ≤ length (bytes_of self.old) }
        ensures { bytes_of self.new ≡ drop count (bytes_of self.old) }
    {
        self.room.copy_within(count..self.len, 0);
        self.len -= count;
    }
}
