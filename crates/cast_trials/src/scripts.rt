//! The worked examples of the whole program.

use cast_device::Watched;
use cast_replay::{Unwatched, run_script};
use std::alloc::Global;
use std::io::Write;
use std::rt::Files;
use std::{fs, io};

// What comes of a script: its log, what is said of an error, and the status.
#[derive(Drop)]
struct Replayed {
    log: Vec<u8>,
    told: Vec<u8>,
    status: u8,
}

// Replays a script of this name.
fn run(alloc: Global, name: &str, script: &[u8]) -> Replayed {
    let mut log = Watched::new(Vec::new(alloc));
    let mut told = Watched::new(Vec::new(alloc));
    let status = run_script(alloc, name, script, &mut Unwatched, &mut log, &mut told);
    Replayed {
        log: log.device,
        told: told.device,
        status,
    }
}

// Prints the name of a script and what came of it.
fn print<O: Write>(name: &str, run: &Replayed, out: &mut O) -> io::Result<()> {
    writeln!(out, "== {name}")?;
    out.write_all(&run.log)?;
    out.write_all(&run.told)?;
    writeln!(out, "status {}", run.status)
}

// A writer that takes nothing.
#[derive(Drop)]
struct Closed;

impl Write for Closed {
    fn write(&mut self, _buf: &[u8]) -> io::Result<usize> {
        Err(io::Error::from(io::ErrorKind::BrokenPipe))
    }

    fn flush(&mut self) -> io::Result<()> {
        Ok(())
    }
}

// The status of a script where nothing can be written.
fn status_closed(alloc: Global, name: &str, script: &[u8]) -> u8 {
    run_script(
        alloc,
        name,
        script,
        &mut Unwatched,
        &mut Watched::new(Closed),
        &mut Watched::new(Closed),
    )
}

// Replays the script in a file, and prints what comes of it.
fn replay<R: Files + AllocGlobal, O: Write>(rt: &R, name: &str, out: &mut O) -> io::Result<()> {
    let script = fs::read(rt, name)?;
    print(name, &run(rt.alloc(), name, &script), out)?;
    let status = status_closed(rt.alloc(), name, &script);
    writeln!(out, "status {status} where nothing can be written")
}

/// Replays the scripts of these names, and prints what comes of each.
pub fn replay_all<R: Files + AllocGlobal, O: Write>(
    rt: &R,
    names: &[String],
    out: &mut O,
) -> io::Result<()> {
    for name in names {
        replay(rt, name.as_str(), out)?;
    }
    Ok(())
}
