//! The threads of a daemon, and their end.
ghost use Rattle.std.specs.Prelude.{◌<◌};

use crate::console::run_console;
use crate::keys::{KeyFile, NoKeys};
use cast_config::{DomainSocket, Setup};
use cast_device::{Watched, tell};
use cast_edge::{Acknowledgements, Count, Report, Unacknowledged, report_last, run_reporter};
use cast_events::{Config, DomainConfig, Raw};
use cast_seal::SEAL_LEN;
use cast_sending::{Silences, Stables};
use cast_shared::{
    Desk, Pace, Record, Shared, SharedTable, Tape, Traffic, Turnstile, run_recorder,
};
use cast_sockets::{
    Keyrings, Link, Listening, SocketFault, Sockets, are_sealed, bind, resolve_all, widen,
};
use cast_threads::{Server, run_dispatcher, run_program, run_receiver, server_of};
use cast_types::{NoMemory, SiteNo};
use crossbeam_channel::{Receiver, Sender};
use std::alloc::Global;
use std::io::{BufRead, ErrorKind, Write};
use std::net::Net;
use std::random::RandomSource;
use std::rt::{Clock, Files};
use std::sync::atomic::AtomicU64;
use std::sync::{Mutex, Wait};
use std::thread::{Scope, Threads};
use std::time::{Duration, Instant};
use std::{io, thread};

// After how many milliseconds the domains are told the time again.
const TICK: u64 = 20;

// After how many ticks more all outboxes are taken: every ten seconds. They are also after a domain
// was halted, whose programs learn so by that. At each tick those are whose Take found no memory.
const TICKS_TO_ALL: u32 = 499;

// How many milliseconds a thread waits after a call of the system failed, so that it does not turn
// in place.
const PAUSE: u64 = 10;

// So many jobs may wait for the workers: the tick, and the begin or the end of each session. What
// finds no room is refused.
const JOBS: usize = 1024;

// So many answers may wait for the dispatcher. If there is no room, the workers wait.
const ANSWERS: usize = 1024;

// So many reports may wait to be written. What finds no room is lost.
const REPORTS: usize = 256;

// Accepts programs, each with a thread of its own.
fn run_acceptor<'s, 'e, T: SharedTable + Sync, R: Threads + Wait + Clock + Sync>(
    scope: &'s Scope<'s, &'e ()>,
    rt: &'e R,
    shared: &'e Shared<'e, T>,
    listening: &'e Listening,
)
where
    T::Share: Send,
    T::Job: Send,
    T::Done: Send,
{
    let domain = listening.domain;
    let mut is_failing = false;
    for stream in listening.listener.incoming() {
        if shared.is_stopping(rt) {
            break;
        }
        match stream {
            Ok(stream) => {
                is_failing = false;
                let started = scope.spawn(move || run_program(scope, rt, shared, stream, domain));
                if started.is_err() {
                    shared.report(rt, Report::NotServed(domain));
                }
            }
            Err(_) => {
                if !is_failing {
                    shared.report(rt, Report::NotAccepting(domain));
                }
                is_failing = true;
                thread::sleep(rt, Duration::from_millis(PAUSE));
            }
        }
    }
}

// Takes outboxes, program by program: of all, or of those whose last Take found no memory.
fn take_outboxes<T: SharedTable, R: Wait>(rt: &R, server: &mut Server<'_, T>, all: bool) {
    let mut last = None;
    for _ in rt.forever() {
        let next = server.shared.desk.lock(rt).next_client(rt, last, all);
        let Some(client) = next else {
            break;
        };
        if let Some(hold) = client.claim(rt) {
            server.write(rt, &client, hold, false);
        }
        last = Some(client.session);
    }
}

// Sends again what seems to be lost, looks for the way to sites that had none, and notes that time
// goes by.
fn send_again<T: SharedTable, R: Wait>(rt: &R, server: &mut Server<'_, T>) {
    let shared = server.shared;
    for link in shared.links {
        link.connect();
    }
    shared.silences.lock(rt).tick();
    for unacknowledged in shared.unacknowledged {
        let mut again = unacknowledged.tick(rt);
        server.gather(rt, &mut again);
    }
    server.send_gathered(rt);
    server.send_stables(rt);
}

// Tells the operator how many datagrams for each site were not sent.
fn report_unsent<T: SharedTable, R: Wait>(rt: &R, shared: &Shared<'_, T>, counts: &mut [Count]) {
    for (link, count) in shared.links.iter().zip(counts.iter_mut()) {
        if let Some(unsent) = count.reach(link.unsent()) {
            shared.report(rt, Report::Unsent(link.site, unsent));
        }
    }
}

// Tells the operator how many datagrams by the link of each site were passed over.
fn report_passed_over<T: SharedTable, R: Wait>(
    rt: &R,
    shared: &Shared<'_, T>,
    counts: &mut [Count],
) {
    for (link, count) in shared.links.iter().zip(counts.iter_mut()) {
        if let Some(passed_over) = count.reach(link.passed_over()) {
            shared.report(rt, Report::PassedOver(link.site, passed_over));
        }
    }
}

// Tells the domains the time, and asks once more for what was refused, until the daemon stops.
fn tick_on<T: SharedTable, R: Wait + Clock>(
    rt: &R,
    server: &mut Server<'_, T>,
    unsent: &mut [Count],
    passed_over: &mut [Count],
) -> io::Result<()> {
    let shared = server.shared;
    let start = Instant::now(rt)?;
    let mut until_all = 0;
    for _ in rt.forever() {
        if shared.is_stopping(rt) {
            break;
        }
        let millis = u64::try_from(start.elapsed(rt)?.as_millis()).unwrap_or(u64::MAX);
        shared.desk.lock(rt).tick(rt, millis);
        shared.desk.lock(rt).hand_in_ends(rt);
        send_again(rt, server);
        report_unsent(rt, shared, unsent);
        report_passed_over(rt, shared, passed_over);
        let is_halted = shared.trim_after_halt(rt);
        take_outboxes(rt, server, is_halted || until_all == 0);
        until_all = if until_all == 0 {
            TICKS_TO_ALL
        } else {
            until_all - 1
        };
        thread::sleep(rt, Duration::from_millis(TICK));
    }
    Ok(())
}

// Tells the domains the time until the daemon stops, or there is no clock any more.
fn run_ticker<T: SharedTable, R: Wait + Clock>(
    rt: &R,
    server: Server<'_, T>,
    unsent: Vec<Count>,
    passed_over: Vec<Count>,
) {
    let (mut server, mut unsent, mut passed_over) = (server, unsent, passed_over);
    let _ = tick_on(
        rt,
        &mut server,
        unsent.as_mut_slice(),
        passed_over.as_mut_slice(),
    );
    server.end(rt);
}

// The ends of the channels that the threads take.
#[derive(Drop)]
struct Ends<D> {
    queue: Receiver<Raw>,
    answers: Sender<D>,
    answered: Receiver<D>,
    reports: Receiver<Report>,
}

// What the threads stand on.
#[derive(Drop)]
struct Ground<'a, T: SharedTable> {
    shared: Shared<'a, T>,
    sockets: &'a Sockets,
    setup: &'a Setup,
    keys: &'a KeyFile,
}

// A share of the count for a thread.
fn share_of<T: SharedTable, R: Wait>(rt: &R, shared: &Shared<'_, T>) -> io::Result<T::Share> {
    match shared.table.share(rt) {
        Some(share) => Ok(share),
        None => Err(io::Error::from(io::ErrorKind::OutOfMemory)),
    }
}

// Starts a worker.
fn start_worker<'s, 'e, T: SharedTable + Sync, R: Threads + Wait + Clock + Sync>(
    scope: &'s Scope<'s, &'e ()>,
    rt: &'e R,
    ground: &'e Ground<'e, T>,
    queue: &Receiver<Raw>,
    answers: &Sender<T::Done>,
) -> io::Result<()>
where
    T::Share: Send,
    T::Job: Send,
    T::Done: Send,
{
    let queue = queue.clone()?;
    let answers = answers.clone()?;
    let share = share_of(rt, &ground.shared)?;
    let table = ground.shared.table;
    let _ = scope.spawn(move || table.work(rt, share, queue, answers))?;
    Ok(())
}

// Starts the thread that hands out what the workers answer.
fn start_dispatcher<'s, 'e, T: SharedTable + Sync, R: Threads + Wait + Clock + Sync>(
    scope: &'s Scope<'s, &'e ()>,
    rt: &'e R,
    shared: &'e Shared<'e, T>,
    answered: Receiver<T::Done>,
) -> io::Result<()>
where
    T::Share: Send,
    T::Job: Send,
    T::Done: Send,
{
    let server = server_of(rt, shared)?;
    let _ = scope.spawn(move || run_dispatcher(rt, server, answered))?;
    Ok(())
}

// Starts the thread that receives datagrams.
fn start_receiver<'s, 'e, T: SharedTable + Sync, R: Threads + Wait + Clock + Sync>(
    scope: &'s Scope<'s, &'e ()>,
    rt: &'e R,
    shared: &'e Shared<'e, T>,
) -> io::Result<()>
where
    T::Share: Send,
    T::Job: Send,
    T::Done: Send,
{
    let server = server_of(rt, shared)?;
    let _ = scope.spawn(move || run_receiver(rt, shared, server))?;
    Ok(())
}

// Starts the thread that tells the domains the time.
fn start_ticker<'s, 'e, T: SharedTable + Sync, R: Threads + Wait + Clock + Sync>(
    scope: &'s Scope<'s, &'e ()>,
    rt: &'e R,
    shared: &'e Shared<'e, T>,
) -> io::Result<()>
where
    T::Share: Send,
    T::Job: Send,
    T::Done: Send,
{
    let unsent = vec![in shared.alloc; Count::new(); shared.links.len()]?;
    let passed_over = vec![in shared.alloc; Count::new(); shared.links.len()]?;
    let server = server_of(rt, shared)?;
    let _ = scope.spawn(move || run_ticker(rt, server, unsent, passed_over))?;
    Ok(())
}

// Starts the threads but that of the console.
fn start_all<
    's,
    'e,
    T: SharedTable + Sync,
    R: Threads + Wait + Clock + Sync,
    E: Write + Send + Drop + 'e,
    K: Write + Send + Drop + 'e,
>(
    scope: &'s Scope<'s, &'e ()>,
    rt: &'e R,
    ground: &'e Ground<'e, T>,
    workers: u8,
    ends: Ends<T::Done>,
    log: E,
    record: &'e Mutex<Option<Record<K>>>,
) -> io::Result<Sender<T::Done>>
where
    T::Share: Send,
    T::Job: Send,
    T::Done: Send,
{
    let Ends {
        queue,
        answers,
        answered,
        reports,
    } = ends;
    let shared = &ground.shared;
    let _ = scope.spawn(move || run_reporter(rt, log, reports))?;
    for _worker in 0..workers {
        start_worker(scope, rt, ground, &queue, &answers)?;
    }
    start_dispatcher(scope, rt, shared, answered)?;
    start_receiver(scope, rt, shared)?;
    start_ticker(scope, rt, shared)?;
    if shared.is_recorded {
        let _ = scope.spawn(move || run_recorder(rt, shared, record))?;
    }
    for listening in ground.sockets.listening.as_slice() {
        let _ = scope.spawn(move || run_acceptor(scope, rt, shared, listening))?;
    }
    Ok(answers)
}

// Ends the daemon: what was asked is still served, and nothing more is taken in.
fn stop<T: SharedTable, R: Wait + Files>(rt: &R, ground: &Ground<'_, T>, paths: &[DomainSocket]) {
    ground.shared.desk.lock(rt).stop(rt);
    for pace in ground.shared.paces {
        pace.end(rt);
    }
    ground.sockets.stop(rt, paths);
}

// Starts the threads, and runs the console in this one, until it says `stop`.
fn run_in<'s, 'e, T, R, B, W, E, K>(
    scope: &'s Scope<'s, &'e ()>,
    rt: &'e R,
    ground: &'e Ground<'e, T>,
    workers: u8,
    ends: Ends<T::Done>,
    paths: &'e [DomainSocket],
    console: B,
    out: &mut W,
    log: E,
    record: &'e Mutex<Option<Record<K>>>,
) -> io::Result<()>
where
    T: SharedTable + Sync,
    T::Share: Send,
    T::Job: Send,
    T::Done: Send,
    R: Threads + Wait + Clock + Net + Files + Sync,
    B: BufRead + Drop,
    W: Write,
    E: Write + Send + Drop + 'e,
    K: Write + Send + Drop + 'e,
{
    let started = start_all(scope, rt, ground, workers, ends, log, record);
    let ended = match started {
        Ok(dones) => match share_of(rt, &ground.shared) {
            Ok(share) => {
                run_console(
                    rt,
                    &ground.shared,
                    share,
                    ground.setup,
                    ground.keys,
                    console,
                    dones,
                    out,
                );
                Ok(())
            }
            Err(error) => Err(error),
        },
        Err(error) => Err(error),
    };
    stop(rt, ground, paths);
    if ended.is_err() {
        ground.shared.desk.lock(rt).end_reports();
    }
    ended
}

// Runs the threads, until the console says `stop`.
fn run_threads<'e, T, R, B, W, E, K>(
    rt: &'e R,
    ground: &'e Ground<'e, T>,
    workers: u8,
    ends: Ends<T::Done>,
    paths: &'e [DomainSocket],
    console: B,
    out: &mut W,
    log: E,
    record: &'e Mutex<Option<Record<K>>>,
) -> io::Result<()>
where
    T: SharedTable + Sync,
    T::Share: Send,
    T::Job: Send,
    T::Done: Send,
    R: Threads + Wait + Clock + Net + Files + Sync,
    B: BufRead + Drop,
    W: Write,
    E: Write + Send + Drop + 'e,
    K: Write + Send + Drop + 'e,
{
    thread::scope(
        thread::scope_env(),
        rt,
        move |scope| -> io::Result<()>
            requires { workers < 256 }
        {
            run_in(
                scope, rt, ground, workers, ends, paths, console, out, log, record,
            )
        },
    )
}

// The paces of the domains that have other sites.
fn paces_of(
    alloc: Global,
    domains: &[DomainConfig],
    room: u64,
    delay: u32,
) -> Result<Vec<Pace>, NoMemory> {
    let mut paces = Vec::new(alloc);
    for domain in domains {
        if domain.sites.len() > 1 {
            paces.push(Pace::new(alloc, domain, room, delay))?;
        }
    }
    Ok(paces)
}

// What other sites are sent and do not acknowledge: nothing of any domain yet.
fn unacknowledged_of(
    alloc: Global,
    own: SiteNo,
    domains: &[DomainConfig],
    is_timed: bool,
) -> Result<Vec<Unacknowledged>, NoMemory> {
    let mut all = Vec::new(alloc);
    for domain in domains {
        for site in domain.sites.as_slice() {
            if *site != own {
                all.push(Unacknowledged::new(alloc, domain.domain, *site, is_timed))?;
            }
        }
    }
    Ok(all)
}

// The other sites: none was sent anything yet.
fn silences_of(alloc: Global, own: SiteNo, links: &[Link]) -> Result<Silences, NoMemory> {
    let mut all = Silences::new(alloc);
    for link in links {
        if link.site != own {
            all.add(link.site)?;
        }
    }
    Ok(all)
}

// The most bytes of a bundle. The datagrams of a sealed site have a seal, too.
fn bundle_of(setup: &Setup) -> Option<usize> {
    let seal = if are_sealed(setup, setup.config.site) {
        SEAL_LEN
    } else {
        0
    };
    match setup.bundle {
        Some(most) => Some((most as usize).saturating_sub(seal)),
        None => None,
    }
}

// Runs a daemon over its sockets, until the console says `stop`. Answers what the operator has to
// know of the end of its record.
fn run<'a, T, R, B, W, E, K>(
    rt: &R,
    alloc: Global,
    setup: &'a Setup,
    table: &'a T,
    tape: &'a Tape,
    workers: u8,
    sockets: &'a Sockets,
    keyrings: &'a Keyrings,
    keys: &'a KeyFile,
    console: B,
    out: &mut W,
    log: E,
    record: Option<Record<K>>,
) -> io::Result<Option<Report>>
where
    T: SharedTable + Sync,
    T::Share: Send,
    T::Job: Send,
    T::Done: Send,
    R: Threads + Wait + Clock + Net + Files + Sync,
    B: BufRead + Drop,
    W: Write,
    E: Write + Send + Drop,
    K: Write + Send + Drop,
{
    let is_recorded = record.is_some();
    let record = Mutex::new(record);
    let (jobs, queue) = crossbeam_channel::bounded::<Raw, Global>(alloc, JOBS)?;
    let (answers, answered) = crossbeam_channel::bounded::<T::Done, Global>(alloc, ANSWERS)?;
    let (reporting, reports) = crossbeam_channel::bounded::<Report, Global>(alloc, REPORTS)?;
    let desk = Mutex::new(Desk::new(alloc, jobs, reporting));
    let halts = AtomicU64::new(0);
    let room = widen(sockets.links.as_slice());
    let paces = paces_of(alloc, setup.config.domains.as_slice(), room, setup.delay)?;
    let unacknowledged = unacknowledged_of(
        alloc,
        setup.config.site,
        setup.config.domains.as_slice(),
        setup.delay > 0,
    )?;
    let silences = Mutex::new(silences_of(alloc, setup.config.site, sockets.links.as_slice())?);
    let stables = Mutex::new(Stables::new(alloc));
    let acknowledgements = Acknowledgements::new(alloc);
    let turnstile = Turnstile::new();
    let traffic = Traffic::new();
    let ground = Ground {
        shared: Shared {
            alloc,
            desk: &desk,
            table,
            links: sockets.links.as_slice(),
            keyrings,
            paces: paces.as_slice(),
            unacknowledged: unacknowledged.as_slice(),
            silences: &silences,
            stables: &stables,
            acknowledgements: &acknowledgements,
            turnstile: &turnstile,
            traffic: &traffic,
            halts: &halts,
            tape,
            is_recorded,
            own: setup.config.site,
            bundle: bundle_of(setup),
        },
        sockets,
        setup,
        keys,
    };
    report_plain(rt, &ground.shared);
    let ends = Ends {
        queue,
        answers,
        answered,
        reports,
    };
    let ended = run_threads(
        rt,
        &ground,
        workers,
        ends,
        setup.sockets.as_slice(),
        console,
        out,
        log,
        &record,
    );
    let left = record.lock(rt).take();
    let report = match left {
        Some(record) => record.end(rt, tape, table),
        None => None,
    };
    ended?;
    Ok(report)
}

// The status of a program that cannot write what it is to record.
const UNWRITABLE: u8 = 3;

// The status of a program that found no memory.
const NO_MEMORY: u8 = 5;

// The status of a program whose keys are at fault.
const UNFIT: u8 = 6;

// The status of a program that cannot resolve or bind an address, or bind a path.
const UNBOUND: u8 = 7;

// Says why the sockets cannot be used, and answers the status of the program.
fn end_unbound<E: Write>(err: &mut Watched<E>, fault: SocketFault<'_>) -> u8 {
    match fault {
        SocketFault::Name(name) => {
            tell(err, &["castd: socket: ", name, "\n"]);
            UNBOUND
        }
        SocketFault::InUse(path) => {
            tell(err, &["castd: socket: ", path, ": in use\n"]);
            UNBOUND
        }
        SocketFault::Occupied(path) => {
            tell(err, &["castd: socket: ", path, ": the file is no socket\n"]);
            UNBOUND
        }
        SocketFault::NoMemory => {
            tell(err, &["castd: no memory\n"]);
            NO_MEMORY
        }
    }
}

// Says why there are no keys, and answers the status of the program.
fn end_unsealed<E: Write>(err: &mut Watched<E>, why: NoKeys<'_>) -> u8 {
    let _ = writeln!(err.device, "castd: {why}");
    if why == NoKeys::NoMemory {
        NO_MEMORY
    } else {
        UNFIT
    }
}

// Tells the operator with how many other sites the daemon exchanges datagrams without seals.
fn report_plain<T: SharedTable, R: Wait>(rt: &R, shared: &Shared<'_, T>) {
    let mut count: u64 = 0;
    for link in shared.links {
        if link.site != shared.own && !link.is_sealed() {
            count = count.saturating_add(1);
        }
    }
    if count > 0 {
        shared.report(rt, Report::Plain(count));
    }
}

// Begins a record, if there is something to write it to.
fn begin_record<K: Write + Drop>(
    alloc: Global,
    to: Option<K>,
    config: &Config,
) -> io::Result<Option<Record<K>>> {
    match to {
        Some(to) => Ok(Some(Record::begin(alloc, to, config)?)),
        None => Ok(None),
    }
}

// Says why nothing is recorded, and answers the status of the program.
fn end_unrecorded<E: Write>(err: &mut Watched<E>, error: &io::Error) -> u8 {
    if error.kind() == ErrorKind::OutOfMemory {
        tell(err, &["castd: no memory\n"]);
        return NO_MEMORY;
    }
    tell(err, &["castd: cannot write the record\n"]);
    UNWRITABLE
}

/// Runs a daemon of a table until the console says `stop`, and answers the status of the program.
/// `ready` is written once it serves. Why it does not run is written to `err`, and what an operator
/// has to know while it does to `log`. The keys are in the file of this name, if one is given. If
/// there is something to write a record to, each event that the table cuts off its trace for this
/// tape is written there, as a script that replays.
///
/// The status is 0 after `stop`; 3 if the first lines of the record cannot be written; 6 if the
/// keys cannot be read, have a fault, or lack one for a sealed site; 7 if an address cannot be
/// resolved or bound, or a path cannot be bound, which is named; and 5 if there is no memory for
/// the daemon or its threads.
pub fn serve<T, R, B, W, E, G, K>(
    rt: &R,
    alloc: Global,
    setup: &Setup,
    keys: Option<String>,
    table: &T,
    tape: &Tape,
    workers: u8,
    record: Option<K>,
    console: B,
    out: &mut W,
    err: &mut Watched<E>,
    log: G,
) -> u8
where
    T: SharedTable + Sync,
    T::Share: Send,
    T::Job: Send,
    T::Done: Send,
    R: Threads + Wait + Clock + Net + Files + RandomSource + Sync,
    B: BufRead + Drop,
    W: Write,
    E: Write,
    G: Write + Send + Drop,
    K: Write + Send + Drop,
{
    let Ok(keyrings) = Keyrings::new(alloc) else {
        return end_unsealed(err, NoKeys::NoMemory);
    };
    let keys = KeyFile { name: keys };
    let drawn = match keys.take_first(rt, alloc, setup, &keyrings) {
        Ok(drawn) => drawn,
        Err(why) => return end_unsealed(err, why),
    };
    let peers = match resolve_all(rt, alloc, setup.addresses.as_slice()) {
        Ok(peers) => peers,
        Err(fault) => return end_unbound(err, fault),
    };
    let sockets = match bind(rt, alloc, setup, &peers, drawn) {
        Ok(sockets) => sockets,
        Err(fault) => return end_unbound(err, fault),
    };
    let record = match begin_record(alloc, record, &setup.config) {
        Ok(record) => record,
        Err(error) => {
            sockets.remove_files(rt, setup.sockets.as_slice());
            return end_unrecorded(err, &error);
        }
    };
    match run(
        rt, alloc, setup, table, tape, workers, &sockets, &keyrings, &keys, console, out, log,
        record,
    ) {
        Ok(report) => {
            if let Some(what) = report {
                report_last(&mut err.device, what);
            }
            0
        }
        Err(_) => {
            sockets.remove_files(rt, setup.sockets.as_slice());
            tell(err, &["castd: no memory\n"]);
            NO_MEMORY
        }
    }
}
