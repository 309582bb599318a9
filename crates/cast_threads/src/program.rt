//! The threads of a program, from its session's begin to its end.
use crate::reader::{Reader, run_reader};
use crate::server::Server;
use cast_device::Watched;
use cast_edge::{Client, Report, Session};
use cast_message::Push;
use cast_pen::WriterTask;
use cast_session::pump_out;
use cast_shared::{Opened, Opening, Shared, SharedTable};
use cast_types::{DomainNo, NoMemory, Refusal};
use std::alloc::Global;
use std::io;
use std::net::Shutdown;
use std::os::unix::net::UnixStream;
use std::rt::Clock;
use std::sync::{Arc, Mutex, Wait};
use std::thread::{Scope, Threads};
use std::time::Duration;

// For how many seconds a program may take no byte of what it is told. Then its stream is closed.
const PATIENCE: u64 = 30;

// Writes what others leave to be written, until nothing more is written.
fn write_on<T: SharedTable, R: Wait>(rt: &R, client: &Client, server: &mut Server<'_, T>) {
    for _ in rt.forever() {
        match client.next_task(rt) {
            None => break,
            Some((hold, WriterTask::Take)) => server.write(rt, client, hold, true),
            Some((hold, WriterTask::Write(unwritten))) => {
                server.write_rest(rt, client, hold, unwritten);
            }
        }
    }
}

// Writes what others leave to be written, until nothing more is written. Without a share of the
// count nothing can be.
fn run_writer<T: SharedTable, R: Wait>(
    rt: &R,
    client: Arc<Client, Global>,
    shared: &Shared<'_, T>,
) {
    match server_of(rt, shared) {
        Ok(server) => {
            let mut server = server;
            write_on(rt, &client, &mut server);
            server.end(rt);
        }
        Err(_) => client.close(rt),
    }
}

// Tells a program that it has no session.
fn refuse(alloc: Global, stream: &UnixStream, refusal: Refusal) {
    let mut writer = Watched::new(stream);
    let _ = pump_out(alloc, &mut writer, &[Push::Closed(refusal)]);
}

// Asks for a session, and waits for it. A domain whose programs are no longer served counts as
// halted.
fn open<T: SharedTable, R: Wait>(
    rt: &R,
    shared: &Shared<'_, T>,
    domain: DomainNo,
) -> Result<Opening, NoMemory> {
    if shared.desk.lock(rt).is_retired(domain) {
        return Ok(Opening::Refused(Refusal::Halted));
    }
    let (to, opened) = crossbeam_channel::bounded::<Opening, Global>(shared.alloc, 1)?;
    if !shared.desk.lock(rt).open(rt, domain, to) {
        return Ok(Opening::Lost);
    }
    match opened.recv(rt) {
        Ok(opening) => Ok(opening),
        Err(_) => Ok(Opening::Lost),
    }
}

// A share of the count for one more thread. An error if there is none.
fn share_of<T: SharedTable, R: Wait>(rt: &R, shared: &Shared<'_, T>) -> io::Result<T::Share> {
    match shared.table.share(rt) {
        Some(share) => Ok(share),
        None => Err(io::Error::from(io::ErrorKind::OutOfMemory)),
    }
}

/// What a thread needs to serve events. An error if there is no share of the count for it.
pub fn server_of<'a, T: SharedTable, R: Wait>(
    rt: &R,
    shared: &'a Shared<'a, T>,
) -> io::Result<Server<'a, T>> {
    let share = share_of(rt, shared)?;
    Ok(Server::new(shared, share))
}

// The program of a session. Its stream is closed if it takes no byte for long.
fn client_of(
    alloc: Global,
    session: Session,
    stream: UnixStream,
) -> io::Result<Arc<Client, Global>> {
    stream.set_write_timeout(Some(Duration::from_secs(PATIENCE)))?;
    let client = Arc::new(alloc, Client::new(session, stream))?;
    Ok(client)
}

// Enters a program at the desk. False if the programs of its domain are no longer served.
fn enter<T: SharedTable, R: Wait>(
    rt: &R,
    shared: &Shared<'_, T>,
    client: &Arc<Client, Global>,
) -> io::Result<bool> {
    let entered = Arc::try_clone(client)?;
    let is_entered = shared.desk.lock(rt).add(entered)?;
    Ok(is_entered)
}

// Starts the thread that writes what the others would wait for. False if none can be started. It
// takes its share of the count itself: a share that a thread that does not start has is lost.
fn start_writer<'s, 'e, T: SharedTable + Sync, R: Threads + Wait + Clock + Sync>(
    scope: &'s Scope<'s, &'e ()>,
    rt: &'e R,
    shared: &'e Shared<'e, T>,
    client: Arc<Client, Global>,
) -> bool
where
    T::Share: Send,
    T::Job: Send,
    T::Done: Send,
{
    scope.spawn(move || run_writer(rt, client, shared)).is_ok()
}

// Serves what a program writes, until its stream ends.
fn read<T: SharedTable, R: Wait + Clock>(
    rt: &R,
    shared: &Shared<'_, T>,
    client: &Client,
) -> io::Result<()> {
    let server = server_of(rt, shared)?;
    let reader = Mutex::new(Reader::new(server, client));
    run_reader(rt, shared.alloc, client, &reader);
    reader.into_inner().end(rt);
    Ok(())
}

// Serves a program that was entered: this thread reads, and a second one writes what the others
// would wait for.
fn serve_entered<'s, 'e, T: SharedTable + Sync, R: Threads + Wait + Clock + Sync>(
    scope: &'s Scope<'s, &'e ()>,
    rt: &'e R,
    shared: &'e Shared<'e, T>,
    client: &Client,
    writing: Arc<Client, Global>,
) -> io::Result<()>
where
    T::Share: Send,
    T::Job: Send,
    T::Done: Send,
{
    if !start_writer(scope, rt, shared, writing) {
        return Err(io::Error::from(io::ErrorKind::OutOfMemory));
    }
    read(rt, shared, client)
}

// Serves a program that has a session. What it needs of memory is there before it is entered.
fn serve_session<'s, 'e, T: SharedTable + Sync, R: Threads + Wait + Clock + Sync>(
    scope: &'s Scope<'s, &'e ()>,
    rt: &'e R,
    shared: &'e Shared<'e, T>,
    stream: UnixStream,
    session: Session,
) -> io::Result<()>
where
    T::Share: Send,
    T::Job: Send,
    T::Done: Send,
{
    let client = client_of(shared.alloc, session, stream)?;
    let writing = Arc::try_clone(&client)?;
    if !enter(rt, shared, &client)? {
        return Ok(());
    }
    let ended = serve_entered(scope, rt, shared, &client, writing);
    client.close(rt);
    ended
}

/// Serves a program that connected to a domain, from its session's begin to its end.
pub fn run_program<'s, 'e, T: SharedTable + Sync, R: Threads + Wait + Clock + Sync>(
    scope: &'s Scope<'s, &'e ()>,
    rt: &'e R,
    shared: &'e Shared<'e, T>,
    stream: UnixStream,
    domain: DomainNo,
)
where
    T::Share: Send,
    T::Job: Send,
    T::Done: Send,
{
    match open(rt, shared, domain) {
        Ok(Opening::Opened(opened)) => {
            let Opened { session, number: _ } = opened;
            if serve_session(scope, rt, shared, stream, session).is_err() {
                shared.report(rt, Report::NotServed(domain));
            }
            shared.desk.lock(rt).leave(rt, opened);
        }
        Ok(Opening::Refused(refusal)) => {
            refuse(shared.alloc, &stream, refusal);
            let _ = stream.shutdown(Shutdown::Both);
        }
        Ok(Opening::Lost) | Err(_) => {
            if !shared.is_stopping(rt) {
                shared.report(rt, Report::NotServed(domain));
            }
        }
    }
}
