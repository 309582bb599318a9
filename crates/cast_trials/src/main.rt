//! Trials of what lies below the daemon: what comes of the scripts in `data/`, one for each rule,
//! how many frames the first of them sends, and what becomes of the frames and texts in `stdin`.
//! `stdout` has what must be printed. `bench/run` measures steps and codec with it.
#![tactic(auto)]

mod codec;
mod frames;
mod scripts;
mod steps;

use anyhow::{Result, bail};
use std::rt::{Clock, Env, Files};
use std::{env, io};

// Replays these scripts, counts what the first of them sends, and reads frames and texts.
fn try_all<R>(rt: &R, names: &[String]) -> Result<()>
where
    R: Files + Input + Print + AllocGlobal,
{
    scripts::replay_all(rt, names, &mut io::writer(rt))?;
    if let Some(first) = names.first() {
        steps::count(rt, first)?;
    }
    frames::try_all(rt)?;
    Ok(())
}

// Does what the arguments name.
fn run<R>(rt: &R) -> Result<()>
where
    R: Clock + Env + Files + Input + Print + AllocGlobal,
{
    let words = env::args(rt)?.collect::<Vec<String>>(rt.alloc())?;
    match words.as_slice() {
        [_, job, names @ ..] if job.as_str() == "scripts" => try_all(rt, names),
        [_, job, file] if job.as_str() == "steps" => steps::measure(rt, file),
        [_, job, file, rounds] if job.as_str() == "codec" => codec::measure(rt, file, rounds),
        _ => { bail!("usage: cast_trials scripts SCRIPT.. | steps SCRIPT | codec FILE ROUNDS") }
    }
}

fn main(rt: HostRuntime) -> Result<()> {
    run(&rt)
}
