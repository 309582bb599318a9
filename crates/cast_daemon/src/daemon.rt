//! A daemon from the making of its table to its end.
ghost use Rattle.std.specs.Prelude.{◌≡◌, true};
ghost use Rattle.cast_table.specs.Owns.{are_distinct, have_rising_groups};

use crate::lanes::Lanes;
use crate::share::SpareCount;
use crate::table::LockedTable;
use crate::trimmer::Trimmer;
use cast_config::{Cause, ConfigFault, Field, Setup, complain};
use cast_device::{Watched, tell};
use cast_edge::{Report, report_last};
use cast_pool::{Kept, can_keep};
use cast_shared::Tape;
use std::alloc::Global;
use std::io::{BufRead, Write};
use std::marker::Brand;
use std::net::Net;
use std::random::RandomSource;
use std::rt::{Clock, Files};
use std::sync::Wait;
use std::sync::ledger::{Blank, Ledger};
use std::thread::Threads;

// Into so many parts the count is cut: more than there will be threads.
const PARTS: u64 = 9_223_372_036_854_775_808;

// The status of a program that found no memory.
const NO_MEMORY: u8 = 5;

// Runs a daemon of this set-up over a count that begins with this blank, as `serve` does.
fn run<L, R, B, W, E, G, K>(
    rt: &R,
    alloc: Global,
    setup: &Setup,
    keys: Option<String>,
    blank: Blank,
    workers: u8,
    record: Option<K>,
    console: B,
    out: &mut W,
    err: &mut Watched<E>,
    log: G,
) -> u8
where
    L: Ledger + Send + Sync,
    R: Threads + Wait + Clock + Net + Files + RandomSource + Sync,
    B: BufRead + Drop,
    W: Write,
    E: Write,
    G: Write + Send + Drop,
    K: Write + Send + Drop,
    requires distinct { are_distinct setup.now.config.domains ≡ true }
    requires rising { have_rising_groups setup.now.config.domains ≡ true }
    requires name { blank.name ≡ L.name }
    requires parts { (blank.parts ≡ L.parts) × (blank.parts ≡ 9223372036854775808) }
{
    let Ok((kept, all)) = Kept::<L>::new(alloc, &setup.config, blank, PARTS) else {
        tell(err, &["castd: no memory\n"]);
        return NO_MEMORY;
    };
    let Ok(lanes) = Lanes::new(alloc, setup.config.domains.as_slice()) else {
        tell(err, &["castd: no memory\n"]);
        return NO_MEMORY;
    };
    let tape = Tape::new(alloc);
    let recorded = record.is_some().then_some(&tape);
    let spare = SpareCount::new(all, PARTS);
    let trimmer = Trimmer::new(recorded);
    let table = LockedTable::new(alloc, kept, lanes, spare, trimmer);
    let status = cast_serve::serve(
        rt, alloc, setup, keys, &table, &tape, workers, record, console, out, err, log,
    );
    if status == 0
        && let Some((_, count)) = table.end(PARTS)
    {
        report_last(&mut err.device, Report::Served(count));
    }
    status
}

/// Runs a daemon until the console says `stop`, and answers the status of the program. `ready` is
/// written once it serves. Why it does not run is written to `err`, and what an operator has to
/// know while it does to `log`. The keys are in the file of this name, if one is given. If there is
/// something to write a record to, each event that is served is written there, as a script that
/// replays.
///
/// The status is 0 after `stop`; 3 if the first lines of the record cannot be written; 7 if an
/// address cannot be resolved or bound, or a path cannot be bound, which is named; 5 if there is no
/// memory for the daemon or its threads; and 6 if the keys have a fault, or if two domains of the
/// set-up have one number, or a domain's groups do not rise, which no set-up has that was read.
pub fn serve<R, B, W, E, G, K>(
    rt: &R,
    alloc: Global,
    setup: &Setup,
    keys: Option<String>,
    workers: u8,
    record: Option<K>,
    console: B,
    out: &mut W,
    err: &mut Watched<E>,
    log: G,
) -> u8
where
    R: Threads + Wait + Clock + Net + Files + RandomSource + Sync,
    B: BufRead + Drop,
    W: Write,
    E: Write,
    G: Write + Send + Drop,
    K: Write + Send + Drop,
{
    if !can_keep(&setup.config) {
        let fault = ConfigFault {
            field: Field::Domain,
            cause: Cause::Repeated,
        };
        return complain(fault, err);
    }
    let blank = Blank::new(PARTS);
    run::<Brand, R, B, W, E, G, K>(
        rt, alloc, setup, keys, blank, workers, record, console, out, err, log,
    )
}
