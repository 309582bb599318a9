//! The operator's lines.
use crate::keys::KeyFile;
use cast_config::Setup;
use cast_shared::{Instruction, Reply, Shared, SharedTable};
use crossbeam_channel::Sender;
use std::alloc::Global;
use std::fmt::Display;
use std::io::{BufRead, ErrorKind, Write};
use std::rt::{Clock, Files};
use std::sync::Wait;
use std::time::Duration;
use std::{str, thread};

// Says something on the console.
fn say<T: Display, W: Write>(what: &T, out: &mut W) {
    let _ = writeln!(out, "{what}");
    let _ = out.flush();
}

// Answers a line, and does what it asks, and hands on what its event came to. Answers whether the
// daemon is to stop.
fn answer_line<T: SharedTable, R: Wait + Files, W: Write>(
    rt: &R,
    shared: &Shared<'_, T>,
    share: &mut T::Share,
    setup: &Setup,
    keys: &KeyFile,
    line: Option<&str>,
    dones: &Sender<T::Done>,
    out: &mut W,
) -> bool {
    let told = shared.told(rt);
    let Reply {
        text,
        done,
        instruction,
    } = {
        let _way = shared.turnstile.way.lock(rt);
        shared.turnstile.close();
        let reply = shared.table.answer(rt, share, &told, line);
        shared.turnstile.open();
        reply
    };
    if let Some(done) = done {
        let _ = dones.send(rt, done);
    }
    if let Some(Instruction::Retire(domain)) = instruction {
        shared.desk.lock(rt).retire(rt, domain);
    }
    if instruction == Some(Instruction::Keys)
        && let Err(why) = keys.take(rt, shared.alloc, setup, shared.keyrings)
    {
        say(&why, out);
        return false;
    }
    match text {
        Ok(text) => say(&text, out),
        Err(_) => say(&"no memory", out),
    }
    instruction == Some(Instruction::Stop)
}

// What comes from the console.
#[derive(Drop)]
enum Typed {
    // A line, with its end where it has one.
    Line(Vec<u8>),
    // There was no memory for a line, which was passed over.
    NoMemory,
    End,
}

// Reads a line.
fn read_line<B: BufRead>(alloc: Global, console: &mut B) -> Typed {
    let mut line = Vec::new(alloc);
    match console.read_until(b'\n', &mut line) {
        Ok(0) => Typed::End,
        Ok(_) => Typed::Line(line),
        Err(error) if error.kind() == ErrorKind::OutOfMemory => {
            drop(line);
            match console.skip_until(b'\n') {
                Ok(_) => Typed::NoMemory,
                Err(_) => Typed::End,
            }
        }
        Err(_) => Typed::End,
    }
}

// The text of a line without its end. `None` where that is not UTF-8.
fn text_of(line: &[u8]) -> Option<&str> {
    let line = match line.strip_suffix(b"\n".as_slice()) {
        Some(line) => line.strip_suffix(b"\r".as_slice()).unwrap_or(line),
        None => line,
    };
    str::from_utf8(line).ok()
}

/// Answers the lines of a console, until one says `stop`. Then gives the share of the count back.
/// The end of the lines does not end the daemon.
pub fn run_console<T: SharedTable, R: Wait + Clock + Files, B: BufRead + Drop, W: Write>(
    rt: &R,
    shared: &Shared<'_, T>,
    share: T::Share,
    setup: &Setup,
    keys: &KeyFile,
    console: B,
    dones: Sender<T::Done>,
    out: &mut W,
) {
    let mut share = share;
    let mut console = console;
    say(&"ready", out);
    for _line in rt.forever() {
        match read_line(shared.alloc, &mut console) {
            Typed::Line(line) => {
                if answer_line(
                    rt,
                    shared,
                    &mut share,
                    setup,
                    keys,
                    text_of(line.as_slice()),
                    &dones,
                    out,
                ) {
                    shared.table.give_back(rt, share);
                    return;
                }
            }
            Typed::NoMemory => say(&"no memory", out),
            Typed::End => break,
        }
    }
    for _ in rt.forever() {
        thread::sleep(rt, Duration::from_secs(3_600));
    }
}
