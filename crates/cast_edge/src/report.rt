//! What an operator has to know, as lines on standard error.
use cast_types::{DomainNo, SiteNo};
use crossbeam_channel::Receiver;
use libc::net as c;
use libc::types::pollfd;
use std::fmt;
use std::fmt::{Display, Formatter};
use std::io::Write;
use std::sync::Wait;

/// What an operator has to know.
#[derive(Clone, Copy, Debug, PartialEq, Eq)]
pub enum Report {
    /// Want of memory halted the domain.
    Halted(DomainNo),
    /// The programs of the domain are no longer served, as the operator said.
    Retired(DomainNo),
    /// A program that connected to the domain could not be served.
    NotServed(DomainNo),
    /// No more programs can connect to the domain for now: accepting one failed.
    NotAccepting(DomainNo),
    /// So many datagrams came that are no frame of the site that they came from, or that found no
    /// memory.
    Unread(u64),
    /// So many datagrams for the site were not sent: there was no room for them, or the system
    /// refused them. Most frames are sent again.
    Unsent(SiteNo, u64),
    /// The daemon began, and exchanges datagrams without seals with so many other sites.
    Plain(u64),
    /// So many datagrams for the site's link were passed over: they came from another address than
    /// the site's, or without its seal.
    PassedOver(SiteNo, u64),
    /// So many datagrams found no memory to be sent. Most frames are sent again.
    Unspelled(u64),
    /// The sockets of the datagrams failed.
    LinkFailed,
    /// More events wait to be recorded than may wait, and some were lost. The record says where.
    RecordBehind,
    /// The record could not be written any more, and ended after so many events.
    RecordEnded(u64),
    /// The daemon ended, and served so many events.
    Served(u64),
}

impl Display for Report {
    fn fmt<W: fmt::Write>(&self, f: &mut Formatter<W>) -> fmt::Result {
        match self {
            Report::Halted(domain) => {
                let number = domain.0;
                write!(f, "castd: domain {number}: halted")
            }
            Report::Retired(domain) => {
                let number = domain.0;
                write!(f, "castd: domain {number}: programs are no longer served")
            }
            Report::NotServed(domain) => {
                let number = domain.0;
                write!(f, "castd: domain {number}: a program was not served")
            }
            Report::NotAccepting(domain) => {
                let number = domain.0;
                write!(f, "castd: domain {number}: no program can connect")
            }
            Report::Unread(count) => write!(f, "castd: datagrams that could not be read: {count}"),
            Report::Unsent(site, count) => {
                let number = site.0;
                write!(
                    f,
                    "castd: site {number}: datagrams that could not be sent: {count}"
                )
            }
            Report::Plain(count) => {
                write!(
                    f,
                    "castd: other sites that exchange datagrams without seals: {count}"
                )
            }
            Report::PassedOver(site, count) => {
                let number = site.0;
                write!(
                    f,
                    "castd: site {number}: datagrams from elsewhere or without its seal: {count}"
                )
            }
            Report::Unspelled(count) => {
                write!(
                    f,
                    "castd: datagrams that found no memory to be sent: {count}"
                )
            }
            Report::LinkFailed => write!(f, "castd: datagrams cannot be received"),
            Report::RecordBehind => write!(f, "castd: the record lacks events"),
            Report::RecordEnded(events) => {
                write!(f, "castd: the record ended after event {events}")
            }
            Report::Served(events) => write!(f, "castd: events served: {events}"),
        }
    }
}

// For so many milliseconds a report waits for room in standard error.
const PATIENCE: i32 = 1_000;

// Whether standard error takes a line now, or within so many milliseconds.
fn has_room(milliseconds: i32) -> bool {
    let mut asked = [pollfd {
        fd: libc::STDERR_FILENO,
        events: c::POLLOUT,
        revents: 0,
    }];
    c::poll(&mut asked, milliseconds) > 0
}

/// Writes a report to `log`, which is standard error, after all others. If nobody reads there, it
/// is lost.
pub fn report_last<E: Write>(log: &mut E, what: Report) {
    if has_room(PATIENCE) {
        let _ = writeln!(log, "{what}");
    }
}

/// Writes each report to `log`, which is standard error, until nobody can report any more. If
/// nobody reads there, reports that find no room are lost, and the daemon stops all the same.
pub fn run_reporter<R: Wait, E: Write + Drop>(rt: &R, log: E, reports: Receiver<Report>) {
    let mut log = log;
    let mut is_read = true;
    for what in reports.iter(rt) {
        is_read = has_room(if is_read { PATIENCE } else { 0 });
        if is_read {
            let _ = writeln!(log, "{what}");
        }
    }
}
