//! `castd`, a group communication daemon.
//!
//! `castd serve CONFIG --site N` runs it: programs connect by Unix sockets, daemons exchange
//! datagrams, and an operator uses lines of standard input. `castd replay FILE` replays a script
//! and prints what the daemon answers, pushes and sends. `castd check CONFIG --site N` says what
//! would be served.
#![tactic(auto)]

use cast_arguments::{Asked, read_command_line};
use cast_daemon::{Folder, check_file, serve_file};
use cast_device::Watched;
use cast_replay::{Meter, Part, is_on_terminal, no_memory, replay_part};
use std::alloc::AllocError;
use std::process::ExitCode;
use std::rt::Files;

// The folder of this name, in which the daemon of a site is to be recorded, if one is named.
fn folder_of<'a, R: Files + AllocGlobal>(
    rt: &'a R,
    name: Option<String>,
    site: u16,
) -> Result<Option<Folder<'a, R>>, AllocError> {
    match name {
        Some(name) => Ok(Some(Folder::new(rt, rt.alloc(), name.as_str(), site)?)),
        None => Ok(None),
    }
}

fn main(rt: HostRuntime) -> ExitCode {
    let mut out = Watched::new(rt.stdout());
    let mut err = Watched::new(rt.stderr());
    ExitCode::from(match read_command_line(&rt) {
        Ok(
            Asked::Replay {
                name,
                until,
                domain,
            },
        ) => {
            let terminal = if is_on_terminal(&rt) {
                Some(rt.stderr())
            } else {
                None
            };
            let part = Part { until, domain };
            let mut meter = Meter::new(&rt, terminal);
            replay_part(&rt, &name, part, &mut meter, &mut out, &mut err)
        }
        Ok(Asked::Check { config, site }) => check_file(&rt, &config, site, &mut out, &mut err),
        Ok(
            Asked::Serve {
                config,
                site,
                workers,
                keys,
                record,
            },
        ) => match folder_of(&rt, record, site.0) {
            Ok(folder) => serve_file(
                &rt,
                &config,
                keys,
                site,
                workers,
                folder,
                rt.reader(),
                &mut out.device,
                &mut err,
                rt.stderr(),
            ),
            Err(_) => no_memory(&mut err),
        },
        Ok(Asked::Ended(status)) => status,
        Err(_) => no_memory(&mut err),
    })
}
