//! A daemon by the name of its configuration.
use crate::daemon::serve;
use cast_config::{Setup, complain, read};
use cast_device::{Watched, tell};
use cast_print::add_head;
use cast_types::{NoMemory, SiteNo};
use std::alloc::Global;
use std::io::{BufRead, Write};
use std::net::Net;
use std::random::RandomSource;
use std::rt::{Clock, Files};
use std::sync::Wait;
use std::thread::Threads;
use std::{fs, io};

// The statuses of a program that has no configuration.
const UNREADABLE: u8 = 3;

const NO_MEMORY: u8 = 5;

// Reads the configuration in a file for a site, or says why there is none and answers the status of
// the program.
fn setup_of<R: Files + AllocGlobal, E: Write>(
    rt: &R,
    alloc: Global,
    name: &str,
    site: SiteNo,
    err: &mut Watched<E>,
) -> Result<Setup, u8> {
    let text = match fs::read_to_string(rt, name) {
        Ok(text) => text,
        Err(error) if error.kind() == io::ErrorKind::OutOfMemory => {
            tell(err, &["castd: no memory\n"]);
            return Err(NO_MEMORY);
        }
        Err(_) => {
            tell(err, &["castd: cannot read ", name, "\n"]);
            return Err(UNREADABLE);
        }
    };
    match read(alloc, text.as_str(), site) {
        Ok(setup) => Ok(setup),
        Err(fault) => Err(complain(fault, err)),
    }
}

/// Runs the daemon of a site by the configuration in the file of this name, with the keys in the
/// file of another name, if one is given, and with so many workers, as `serve` does. Answers the
/// status of the program: also 3 where the configuration cannot be read or is not UTF-8, 6 where it
/// has a fault, which is named with its field, and 5 where memory ran out.
pub fn serve_file<R, B, W, E, G, K>(
    rt: &R,
    name: &str,
    keys: Option<String>,
    site: SiteNo,
    workers: u8,
    record: Option<K>,
    console: B,
    out: &mut W,
    err: &mut Watched<E>,
    log: G,
) -> u8
where
    R: Threads + Wait + Clock + Net + Files + RandomSource + AllocGlobal + Sync,
    B: BufRead + Drop,
    W: Write,
    E: Write,
    G: Write + Send + Drop,
    K: Write + Send + Drop,
{
    let alloc = rt.alloc();
    match setup_of(rt, alloc, name, site, err) {
        Ok(setup) => serve(
            rt, alloc, &setup, keys, workers, record, console, out, err, log,
        ),
        Err(status) => status,
    }
}

// The lines of a set-up: those of its configuration, and as comments the addresses, the sockets,
// and what it says of the network.
fn text_of(alloc: Global, setup: &Setup) -> Result<String, NoMemory> {
    let mut text = String::new(alloc);
    add_head(alloc, &mut text, &setup.config)?;
    for one in setup.addresses.as_slice() {
        let site = one.site.0;
        let address = one.address.as_str();
        let sealed = if one.is_sealed { " sealed" } else { "" };
        writeln!(text, "# site {site} address {address}{sealed}")?;
    }
    for one in setup.sockets.as_slice() {
        let domain = one.domain.0;
        let path = one.path.as_str();
        writeln!(text, "# domain {domain} socket {path}")?;
    }
    if let Some(most) = setup.bundle {
        writeln!(text, "# bundles of at most {most} bytes")?;
    }
    let delay = setup.delay;
    if delay > 0 {
        writeln!(text, "# casts queue for {delay} microseconds")?;
    }
    Ok(text)
}

/// Writes what the daemon of a site would serve by the configuration in the file of this name, as
/// the first lines of a script, and answers the status of the program: 0, or 3, 5 or 6 as
/// `serve_file` does. Nothing is resolved or bound.
pub fn check_file<R, W, E>(
    rt: &R,
    name: &str,
    site: SiteNo,
    out: &mut Watched<W>,
    err: &mut Watched<E>,
) -> u8
where
    R: Files + AllocGlobal,
    W: Write,
    E: Write,
{
    let alloc = rt.alloc();
    let setup = match setup_of(rt, alloc, name, site, err) {
        Ok(setup) => setup,
        Err(status) => return status,
    };
    match text_of(alloc, &setup) {
        Ok(text) => {
            tell(out, &[text.as_str()]);
            0
        }
        Err(_) => {
            tell(err, &["castd: no memory\n"]);
            NO_MEMORY
        }
    }
}
