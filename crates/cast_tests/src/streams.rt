use cast_field::FrameFault;
use cast_message::{Command, Push};
use cast_session::{InEnd, OutFault, Sink, Watched, pump_in, pump_out};
use cast_types::{NoMemory, Proc, SiteNo};
use std::alloc::{AllocError, Global};
use std::io;
use std::io::{ErrorKind, Read, Write};
use std::test::Fail;

// Request 7: into group 1. Request 8: a causal cast of `hi` to group 1.
const COMMANDS: [u8; 25] = [
    0, 0, 0, 11, 1, 0, 0, 0, 7, 0, 1, 0, 0, 0, 14, 3, 0, 0, 0, 8, 0, 1, 1, 104, 105,
];

// Connected as 1.1. Request 7 is done.
const PUSHES: [u8; 21] = [
    0, 0, 0, 11, 65, 0, 1, 0, 0, 0, 1, 0, 0, 0, 10, 66, 0, 0, 0, 7, 0,
];

const OPENED: Push = Push::Opened(Proc {
    site: SiteNo(1),
    serial: 1,
});

const REPLY: Push = Push::Reply {
    tag: 7,
    refusal: None,
};

// What a device does at one of its calls.
#[derive(Clone, Copy)]
enum Call {
    Passes,
    IsInterrupted,
    Fails,
}

// What becomes of the call of this number, counted from 0, where the second is this one and each
// other passes.
fn outcome(number: usize, second: Call) -> io::Result<()> {
    match second {
        Call::IsInterrupted if number == 1 => Err(io::Error::from(ErrorKind::Interrupted)),
        Call::Fails if number == 1 => Err(io::Error::from(ErrorKind::Other)),
        _ => Ok(()),
    }
}

// Gives its bytes in pieces of at most so many, and notes how many bytes each call asked for.
#[derive(Drop)]
struct Pieces<'a> {
    left: &'a [u8],
    step: usize,
    second: Call,
    asked: Vec<usize>,
}

impl<'a> Read for Pieces<'a> {
    fn read(&mut self, buf: &mut [u8]) -> io::Result<usize> {
        self.asked.push(buf.len())?;
        outcome(self.asked.len() - 1, self.second)?;
        let count = self.left.len().min(self.step).min(buf.len());
        let (now, later) = self.left.split_at(count);
        buf[..count].copy_from_slice(now);
        self.left = later;
        Ok(count)
    }
}

// Keeps what is written, at most so many bytes a call, and notes how many bytes each call was
// given.
#[derive(Drop)]
struct Kept {
    bytes: Vec<u8>,
    step: usize,
    second: Call,
    given: Vec<usize>,
}

impl Write for Kept {
    fn write(&mut self, buf: &[u8]) -> io::Result<usize> {
        self.given.push(buf.len())?;
        outcome(self.given.len() - 1, self.second)?;
        let count = buf.len().min(self.step);
        self.bytes.extend_from_slice(&buf[..count])?;
        Ok(count)
    }

    fn flush(&mut self) -> io::Result<()> {
        Ok(())
    }
}

// Counts commands, as many as it has room for.
#[derive(Drop)]
struct Counted {
    count: usize,
    room: usize,
}

impl Sink for Counted {
    fn take(&mut self, _command: Command) -> Result<(), NoMemory> {
        if self.count >= self.room {
            return Err(AllocError);
        }
        self.count += 1;
        Ok(())
    }
}

// What is read and what the sink has room for; then how the pump ends, how many commands were
// handed on, and how many bytes each call asked for.
#[derive(Clone, Copy)]
struct Reading<'a> {
    bytes: &'a [u8],
    step: usize,
    second: Call,
    room: usize,
    end: InEnd,
    count: usize,
    asked: &'a [usize],
}

// Whether a pump reads so.
fn reads(alloc: Global, row: &Reading<'_>) -> bool {
    let mut reader = Watched::new(Pieces {
        left: row.bytes,
        step: row.step,
        second: row.second,
        asked: Vec::new(alloc),
    });
    let mut sink = Counted {
        count: 0,
        room: row.room,
    };
    let end = pump_in(alloc, &mut reader, &mut sink);
    end == row.end && sink.count == row.count && reader.device.asked.as_slice() == row.asked
}

fn all_read(alloc: Global, rows: &[Reading<'_>]) -> bool {
    let mut well = true;
    for row in rows {
        well = reads(alloc, row) && well;
    }
    well
}

// Many times the first command.
fn many(alloc: Global) -> Result<Vec<u8>, AllocError> {
    let mut bytes = Vec::new(alloc);
    for _ in 0..455 {
        bytes.extend_from_slice(&COMMANDS[..11])?;
    }
    Ok(bytes)
}

// The sink without room ends the first pump before a second call, so commands come to it before
// that. What fails later takes back nothing, an interrupted call is made again, and a push is no
// command.
#[test]
fn commands_are_handed_on_before_more_is_read(rt: HostRuntime) {
    let rows = [
        Reading {
            bytes: &COMMANDS,
            step: 25,
            second: Call::Passes,
            room: 1,
            end: InEnd::NoMemory,
            count: 1,
            asked: &[4096],
        },
        Reading {
            bytes: &COMMANDS,
            step: 13,
            second: Call::Fails,
            room: 9,
            end: InEnd::ReadFault,
            count: 1,
            asked: &[4096, 4094],
        },
        Reading {
            bytes: &COMMANDS,
            step: 13,
            second: Call::IsInterrupted,
            room: 9,
            end: InEnd::End,
            count: 2,
            asked: &[4096, 4094, 4094, 4096],
        },
        Reading {
            bytes: &PUSHES,
            step: 25,
            second: Call::Passes,
            room: 9,
            end: InEnd::Bad(FrameFault::WrongType),
            count: 1,
            asked: &[4096],
        },
    ];
    assert!(rt; all_read(rt.alloc(), &rows));
}

#[test]
fn a_room_that_was_filled_grows(rt: HostRuntime) -> Result<(), Fail> {
    let bytes = many(rt.alloc())?;
    let row = Reading {
        bytes: &bytes,
        step: 99_999,
        second: Call::Passes,
        room: 455,
        end: InEnd::End,
        count: 455,
        asked: &[4096, 65_532, 65_536],
    };
    let well = reads(rt.alloc(), &row);
    assert!(rt; well);
    Ok(())
}

// How a writer takes both pushes; then how the pump ends, how many bytes were written, and how many
// each call was given.
#[derive(Clone, Copy)]
struct Writing<'a> {
    step: usize,
    second: Call,
    end: Result<(), OutFault>,
    count: usize,
    given: &'a [usize],
}

// Whether a pump writes so.
fn writes(alloc: Global, row: &Writing<'_>) -> bool {
    let mut writer = Watched::new(Kept {
        bytes: Vec::new(alloc),
        step: row.step,
        second: row.second,
        given: Vec::new(alloc),
    });
    let end = pump_out(alloc, &mut writer, &[OPENED, REPLY]);
    let written = &PUSHES[..PUSHES.len().min(row.count)];
    end == row.end
        && writer.device.bytes.as_slice() == written
        && writer.device.given.as_slice() == row.given
}

fn all_write(alloc: Global, rows: &[Writing<'_>]) -> bool {
    let mut well = true;
    for row in rows {
        well = writes(alloc, row) && well;
    }
    well
}

#[test]
fn pushes_go_out_one_by_one(rt: HostRuntime) {
    let rows = [
        Writing {
            step: 25,
            second: Call::Passes,
            end: Ok(()),
            count: 21,
            given: &[11, 10],
        },
        Writing {
            step: 3,
            second: Call::IsInterrupted,
            end: Ok(()),
            count: 21,
            given: &[11, 8, 8, 5, 2, 10, 7, 4, 1],
        },
        Writing {
            step: 3,
            second: Call::Fails,
            end: Err(OutFault::WriteFault),
            count: 3,
            given: &[11, 8],
        },
    ];
    assert!(rt; all_write(rt.alloc(), &rows));
}
