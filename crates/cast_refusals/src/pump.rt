//! The conversation of a program with its daemon, over readers and writers in memory.
use crate::growths::Pause;
use crate::verdict::{Verdict, allowed_if};
use cast_field::FrameFault;
use cast_message::{CastKind, ClientFrame, Command, Push, Request};
use cast_session::{
    InEnd, OutFault, PushFault, Sink, Watched, pump_in, pump_out, read_push, write_command,
};
use cast_types::{GroupNo, NoMemory};
use std::alloc::Global;

// A program joins group 1, and casts twice.
const REQUESTS: [u8; 35] = [
    0, 0, 0, 11, 1, 0, 0, 0, 0, 0, 1, 0, 0, 0, 12, 3, 0, 0, 0, 1, 0, 1, 1, 0, 0, 0, 12, 3, 0, 0, 0,
    2, 0, 1, 1,
];

// The same, and a length that no frame has.
const COMMANDS: [u8; 39] = [
    0, 0, 0, 11, 1, 0, 0, 0, 0, 0, 1, 0, 0, 0, 12, 3, 0, 0, 0, 1, 0, 1, 1, 0, 0, 0, 12, 3, 0, 0, 0,
    2, 0, 1, 1, 0, 0, 0, 4,
];

// It is connected as 1.1, and in a view with 2.1. The first cast is done and delivered, the second
// refused.
const PUSHES: [u8; 88] = [
    0, 0, 0, 11, 65, 0, 1, 0, 0, 0, 1, 0, 0, 0, 10, 66, 0, 0, 0, 0, 0, 0, 0, 0, 25, 67, 0, 1, 0, 0,
    0, 2, 2, 0, 1, 0, 0, 0, 1, 0, 2, 0, 0, 0, 1, 0, 0, 0, 0, 10, 66, 0, 0, 0, 1, 0, 0, 0, 0, 22,
    68, 0, 1, 0, 0, 0, 2, 0, 1, 0, 0, 0, 1, 0, 0, 0, 1, 1, 0, 0, 0, 10, 66, 0, 0, 0, 2, 9,
];

// How many pushes these are.
const PUSH_COUNT: usize = 6;

// Takes commands.
#[derive(Drop)]
struct Commands {
    list: Vec<Command>,
}

impl Sink for Commands {
    fn take(&mut self, command: Command) -> Result<(), NoMemory> {
        self.list.push(command)?;
        Ok(())
    }
}

// Whether a command is the one of this place.
fn is_at(place: usize, command: &Command) -> bool {
    match command {
        Command::Request(Request::Join { tag, group }) => {
            place == 0 && *tag == 0 && *group == GroupNo(1)
        }
        Command::Request(
            Request::Cast {
                tag,
                group,
                kind,
                payload,
            },
        ) => {
            (place == 1 || place == 2)
                && *tag as usize == place
                && *group == GroupNo(1)
                && *kind == CastKind::Causal
                && payload.is_empty()
        }
        Command::Bad => place == 3,
        _ => false,
    }
}

// Whether these are the first commands.
fn are_first(commands: &[Command]) -> bool {
    commands
        .iter()
        .enumerate()
        .all(|(place, command)| is_at(place, command))
}

// What is said of what a pump wrote of these bytes.
fn judge_written(written: &[u8], bytes: &[u8], end: Result<(), OutFault>) -> Verdict {
    match end {
        Ok(()) => allowed_if(written == bytes, Verdict::Ample, "what was written"),
        Err(OutFault::NoMemory) => allowed_if(
            bytes.starts_with(written),
            Verdict::NoMemory,
            "what was written first",
        ),
        Err(OutFault::WriteFault) => Verdict::NotAllowed("the writer did not fail"),
    }
}

// Reads the pushes, and writes them.
fn pump_pushes(alloc: Global) -> Result<Verdict, NoMemory> {
    let mut reader = Watched::new(PUSHES.as_slice());
    let mut pushes: Vec<Push> = Vec::new(alloc);
    for _push in 0..PUSH_COUNT {
        match read_push(alloc, &mut reader) {
            Ok(Some(push)) => pushes.push(push)?,
            Err(PushFault::Frame(FrameFault::NoMemory)) => return Ok(Verdict::NoMemory),
            _ => return Ok(Verdict::NotAllowed("what was read")),
        }
    }
    if !matches!(read_push(alloc, &mut reader), Ok(None)) {
        return Ok(Verdict::NotAllowed("what was read at the end"));
    }
    let mut writer = Watched::new(Vec::with_capacity(alloc, PUSHES.len())?);
    let end = pump_out(alloc, &mut writer, &pushes);
    Ok(judge_written(&writer.device, &PUSHES, end))
}

// Writes the requests among these commands.
fn write_requests(alloc: Global, commands: Vec<Command>) -> Result<Verdict, NoMemory> {
    let mut writer = Watched::new(Vec::with_capacity(alloc, REQUESTS.len())?);
    let mut end = Ok(());
    for command in commands {
        let Command::Request(request) = command else {
            continue;
        };
        let frame = ClientFrame::Request(request);
        if end.is_ok() && frame.fits() {
            end = write_command(alloc, &mut writer, &frame);
        }
    }
    Ok(judge_written(&writer.device, &REQUESTS, end))
}

// Reads the commands, and writes the requests among them.
fn pump_commands(alloc: Global) -> Result<Verdict, NoMemory> {
    let mut reader = Watched::new(COMMANDS.as_slice());
    let mut sink = Commands {
        list: Vec::new(alloc),
    };
    let end = pump_in(alloc, &mut reader, &mut sink);
    let Commands { list } = sink;
    if !are_first(&list) {
        return Ok(Verdict::NotAllowed("the commands"));
    }
    match end {
        InEnd::Bad(FrameFault::Length) if list.len() == 4 => write_requests(alloc, list),
        InEnd::NoMemory => Ok(Verdict::NoMemory),
        _ => Ok(Verdict::NotAllowed("how the commands ended")),
    }
}

/// What is said of the answers where a program and its daemon speak, both ways, behind this pause.
pub fn run(alloc: Global, pause: &mut Pause) -> Verdict {
    pause.pass(alloc);
    let read = pump_pushes(alloc).unwrap_or(Verdict::Elsewhere);
    read.then(pump_commands(alloc).unwrap_or(Verdict::Elsewhere))
}
