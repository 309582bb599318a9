//! What a program and its daemon say to each other, read and written over devices in memory while
//! `tools/refusals` has a request for memory refused, and whether what comes of it is allowed.
#![tactic(auto)]

mod growths;
mod pump;
mod verdict;

use anyhow::{Result, bail};
use growths::{Pause, granted};
use std::env;
use std::rt::Env;

// More requests for memory than are ever granted where one is refused.
const ALL: u32 = 1_000_000;

// Reads and writes behind so many requests for memory.
fn run_behind<R: Print + AllocGlobal>(rt: &R, requests: u32) -> Result<()> {
    let verdict = pump::run(rt.alloc(), &mut Pause::new(requests));
    println!(rt; "{verdict}")?;
    Ok(())
}

// Prints how many requests for memory are granted before the calls until one is refused.
fn count_before<R: Print + AllocGlobal>(rt: &R) -> Result<()> {
    let mut pause = Pause::new(ALL);
    pump::run(rt.alloc(), &mut pause);
    println!(rt; "{}", pause.granted())?;
    Ok(())
}

// Prints how many requests for memory are granted behind the calls until one is refused.
fn count_behind<R: Print + AllocGlobal>(rt: &R) -> Result<()> {
    pump::run(rt.alloc(), &mut Pause::new(0));
    println!(rt; "{}", granted(rt.alloc(), ALL))?;
    Ok(())
}

// Does what the arguments say.
fn run<R: Env + Print + AllocGlobal>(rt: &R) -> Result<()> {
    let words = env::args(rt)?.collect::<Vec<String>>(rt.alloc())?;
    match words.as_slice() {
        [_] => run_behind(rt, 0),
        [_, place] if place.as_str() == "before" => count_before(rt),
        [_, place] if place.as_str() == "behind" => count_behind(rt),
        [_, requests] => run_behind(rt, requests.parse()?),
        _ => bail!("usage: cast_refusals [REQUESTS | before | behind]"),
    }
}

fn main(rt: HostRuntime) -> Result<()> {
    run(&rt)
}
