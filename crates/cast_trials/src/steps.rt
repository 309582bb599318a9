//! How long the steps of a script take by themselves, without what it takes to read it and to print
//! their log.

use anyhow::{Result, bail};
use cast_events::{Event, Outs};
use cast_script::{Script, parse};
use cast_table::Table;
use std::alloc::Global;
use std::fs;
use std::rt::{Clock, Files};
use std::time::Instant;

// Reads a script from a file.
fn script_in<R: Files + AllocGlobal>(rt: &R, file: &str) -> Result<Script> {
    let text = fs::read_to_string(rt, file)?;
    match parse(rt.alloc(), &text) {
        Ok(script) => Ok(script),
        Err(_) => bail!("{file} is no script"),
    }
}

// Applies events one after the other to a table. Answers how many frames were sent.
fn apply_all(alloc: Global, table: &mut Table, events: &[Event]) -> usize {
    let mut frames: usize = 0;
    for event in events {
        let mut outs = Outs::new(alloc);
        let _ = table.apply(event, &mut outs);
        frames = frames.wrapping_add(outs.frames.len());
    }
    frames
}

/// Applies the events of a script in a file, and prints how many frames were sent.
pub fn count<R: Files + Print + AllocGlobal>(rt: &R, file: &str) -> Result<()> {
    let script = script_in(rt, file)?;
    let mut table = Table::new(rt.alloc(), &script.config)?;
    let frames = apply_all(rt.alloc(), &mut table, script.events.as_slice());
    println!(rt; "sent {frames}")?;
    Ok(())
}

/// Applies the events of a script in a file, and prints the nanoseconds that this took in all, and
/// how many frames were sent.
pub fn measure<R: Clock + Files + Print + AllocGlobal>(rt: &R, file: &str) -> Result<()> {
    let script = script_in(rt, file)?;
    let mut table = Table::new(rt.alloc(), &script.config)?;
    let start = Instant::now(rt)?;
    let frames = apply_all(rt.alloc(), &mut table, script.events.as_slice());
    let nanos = start.elapsed(rt)?.as_nanos();
    println!(rt; "steps {nanos} {frames}")?;
    Ok(())
}
