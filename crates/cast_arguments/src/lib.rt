//! The command line of `castd`: what its words ask for.
//!
//! Promised: every call is safe and returns.
#![tactic(auto)]

use cast_types::{DomainNo, SiteNo};
use clap::error::ErrorKind;
use clap::{Arg, ArgAction, ArgMatches, Command, value_parser};
use std::alloc::{AllocError, Global};
use std::rt::Env;
use std::{env, io};

// The status of a command line that is not understood.
const USAGE: u8 = 2;

// The version of the program.
const VERSION: &str = "0.1.0";

/// What a command line asks for.
pub enum Asked {
    /// To replay the script in the file of this name, or the record in the folder of this name: the
    /// first events, so many at most, of one domain if one is named.
    Replay {
        name: String,
        until: u64,
        domain: Option<DomainNo>,
    },
    /// To run the daemon of a site by the configuration in the file of this name, with so many
    /// workers, 1 to 64, with the keys in the file of this name, if one is named, and to record in
    /// this folder what it does, if one is named.
    Serve {
        config: String,
        site: SiteNo,
        workers: u8,
        keys: Option<String>,
        record: Option<String>,
    },
    /// To say what the daemon of a site would serve by the configuration in the file of this name.
    Check {
        config: String,
        site: SiteNo,
    },
    /// For no more than was printed: the program ends with this status, 0 where help or the version
    /// was asked for and 2 where something is not understood.
    Ended(u8),
}

// A command, as far as there was memory for it.
type Made<'a> = Result<Command<'a>, clap::Error>;

// The words that the program understands.
fn command<'a>(alloc: Global) -> Made<'a> {
    let command = with_command(Ok(castd(alloc)), serve_command(alloc));
    let command = with_command(command, check_command(alloc));
    with_command(command, replay_command(alloc))
}

// The program, without its commands.
fn castd<'a>(alloc: Global) -> Command<'a> {
    Command::new(alloc, "castd")
        .about("A group communication daemon")
        .version(VERSION)
        .subcommand_required(true)
}

// A program with one command more.
fn with_command<'a>(program: Made<'a>, command: Made<'a>) -> Made<'a> {
    Ok(program?.subcommand(command?)?)
}

// A command with one argument more.
fn with_argument<'a>(command: Made<'a>, argument: Arg<'a>) -> Made<'a> {
    Ok(command?.arg(argument)?)
}

// The words of `replay`.
fn replay_command<'a>(alloc: Global) -> Made<'a> {
    let command = Command::new(alloc, "replay").about(
        "Replays a script or a record and prints its log",
    );
    let command = with_argument(Ok(command), file_argument(alloc));
    let command = with_argument(command, until_argument(alloc));
    with_argument(command, domain_argument(alloc))
}

// The words of `serve`.
fn serve_command<'a>(alloc: Global) -> Made<'a> {
    let command = Command::new(alloc, "serve").about("Runs the daemon of a site");
    let command = with_site(alloc, command);
    let command = with_argument(command, workers_argument(alloc));
    let command = with_argument(command, keys_argument(alloc));
    with_argument(command, record_argument(alloc))
}

// The words of `check`.
fn check_command<'a>(alloc: Global) -> Made<'a> {
    let command = Command::new(alloc, "check").about("Says what the daemon of a site would serve");
    with_site(alloc, command)
}

// A command that reads the configuration of a site.
fn with_site<'a>(alloc: Global, command: Command<'a>) -> Made<'a> {
    let command = with_argument(Ok(command), config_argument(alloc));
    with_argument(command, site_argument(alloc))
}

// An argument that is given by its place.
fn placed<'a>(alloc: Global, name: &'a str, help: &'a str) -> Arg<'a> {
    Arg::new(alloc, name)
        .help(help)
        .required(true)
        .action(ArgAction::Set)
}

// An argument that is given by its name.
fn named<'a>(alloc: Global, name: &'a str, help: &'a str) -> Arg<'a> {
    Arg::new(alloc, name).long(name).help(help)
}

// The name of a configuration.
fn config_argument<'a>(alloc: Global) -> Arg<'a> {
    placed(alloc, "CONFIG", "The configuration")
}

// The name of a script or a record.
fn file_argument<'a>(alloc: Global) -> Arg<'a> {
    placed(alloc, "FILE", "The script, or the folder of a record")
}

// The number of the own site.
fn site_argument<'a>(alloc: Global) -> Arg<'a> {
    named(alloc, "site", "The number of the own site")
        .required(true)
        .value_parser(value_parser!(u16).range(1..65_536))
}

// How many threads serve.
fn workers_argument<'a>(alloc: Global) -> Arg<'a> {
    named(alloc, "workers", "How many threads serve, 1 to 64")
        .default_value("4")
        .value_parser(value_parser!(u8).range(1..65))
}

// Where the keys of the host are.
fn keys_argument<'a>(alloc: Global) -> Arg<'a> {
    named(alloc, "keys", "The keys of the host, for sealed sites")
        .value_name("FILE")
        .action(ArgAction::Set)
}

// Where what the daemon does is recorded.
fn record_argument<'a>(alloc: Global) -> Arg<'a> {
    named(
        alloc,
        "record",
        "The folder to record each event in, as scripts that replay",
    )
    .value_name("DIR")
    .action(ArgAction::Set)
}

// How many events are replayed.
fn until_argument<'a>(alloc: Global) -> Arg<'a> {
    named(alloc, "until", "Replays the first N events alone")
        .value_name("N")
        .value_parser(value_parser!(u64))
}

// Which domain is replayed.
fn domain_argument<'a>(alloc: Global) -> Arg<'a> {
    named(alloc, "domain", "Replays one domain alone")
        .value_name("D")
        .value_parser(value_parser!(u8).range(1..256))
}

// What these words say.
fn matches_of<'a>(alloc: Global, words: &'a [String]) -> Result<ArgMatches<'a>, clap::Error> {
    command(alloc)?.try_get_matches_from(words)
}

// What was asked for.
fn what_is_asked(alloc: Global, matches: &ArgMatches<'_>) -> Result<Option<Asked>, AllocError> {
    let Some((name, inner)) = matches.subcommand() else {
        return Ok(None);
    };
    if name == "replay" {
        return replay_arguments(alloc, inner);
    }
    if name == "check" {
        return check_arguments(alloc, inner);
    }
    serve_arguments(alloc, inner)
}

// What `check` was asked for.
fn check_arguments(alloc: Global, inner: &ArgMatches<'_>) -> Result<Option<Asked>, AllocError> {
    let (Some(config), Some(site)) = (inner.get_str("CONFIG"), inner.get_one::<u16>("site")) else {
        return Ok(None);
    };
    Ok(Some(Asked::Check {
        config: String::from_str(alloc, config)?,
        site: SiteNo(site),
    }))
}

// What `replay` was asked for.
fn replay_arguments(alloc: Global, inner: &ArgMatches<'_>) -> Result<Option<Asked>, AllocError> {
    let Some(name) = inner.get_str("FILE") else {
        return Ok(None);
    };
    Ok(Some(Asked::Replay {
        name: String::from_str(alloc, name)?,
        until: inner.get_one::<u64>("until").unwrap_or(u64::MAX),
        domain: inner.get_one::<u8>("domain").map(DomainNo),
    }))
}

// A word that may be left out.
fn optional(
    alloc: Global,
    inner: &ArgMatches<'_>,
    name: &str,
) -> Result<Option<String>, AllocError> {
    match inner.get_str(name) {
        Some(word) => Ok(Some(String::from_str(alloc, word)?)),
        None => Ok(None),
    }
}

// What `serve` was asked for.
fn serve_arguments(alloc: Global, inner: &ArgMatches<'_>) -> Result<Option<Asked>, AllocError> {
    let (Some(config), Some(site), Some(workers)) = (
        inner.get_str("CONFIG"),
        inner.get_one::<u16>("site"),
        inner.get_one::<u8>("workers"),
    ) else {
        return Ok(None);
    };
    Ok(Some(Asked::Serve {
        config: String::from_str(alloc, config)?,
        site: SiteNo(site),
        workers,
        keys: optional(alloc, inner, "keys")?,
        record: optional(alloc, inner, "record")?,
    }))
}

// Says what is wrong with the command line, or prints the help that it asks for.
fn usage<R: Print + Eprint>(rt: &R, error: &clap::Error) -> Result<Asked, AllocError> {
    if error.kind() == ErrorKind::OutOfMemory {
        return Err(AllocError);
    }
    let _ = error.print(rt);
    Ok(Asked::Ended(if error.use_stderr() { USAGE } else { 0 }))
}

/// What these words ask for, of which the first names the program. Help that is asked for is
/// printed, and what is not understood is said on standard error.
///
/// # Errors
/// `AllocError` where memory ran out.
pub fn read_words<R: Print + Eprint + AllocGlobal>(
    rt: &R,
    words: &[String],
) -> Result<Asked, AllocError> {
    let matches = match matches_of(rt.alloc(), words) {
        Ok(matches) => matches,
        Err(error) => return usage(rt, &error),
    };
    Ok(match what_is_asked(rt.alloc(), &matches)? {
        Some(asked) => asked,
        None => Asked::Ended(USAGE),
    })
}

// The words of the command line.
fn words<R: Env + AllocGlobal>(rt: &R) -> io::Result<Vec<String>> {
    Ok(env::args(rt)?.collect(rt.alloc())?)
}

/// What the program's own command line asks for, as `read_words` says.
///
/// # Errors
/// `AllocError` where memory ran out.
pub fn read_command_line<R: Env + Print + Eprint + AllocGlobal>(
    rt: &R,
) -> Result<Asked, AllocError> {
    match words(rt) {
        Ok(words) => read_words(rt, &words),
        Err(error) if error.kind() == io::ErrorKind::OutOfMemory => Err(AllocError),
        Err(_) => {
            let _ = eprintln!(rt; "error: the arguments cannot be read");
            Ok(Asked::Ended(USAGE))
        }
    }
}
