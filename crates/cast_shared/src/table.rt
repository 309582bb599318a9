//! The table of a daemon behind its lock, as the threads use it.
use crate::pace::{Pace, Wakings, Wanted};
use cast_events::{Asked, Fault, Outs, Raw, Taken, Told};
use cast_sending::Heard;
use cast_types::{DomainNo, NoMemory, SiteNo};
use crossbeam_channel::{Receiver, Sender};
use std::sync::Wait;

/// An answer, and what came of its event.
pub type Came = (Result<Taken, Fault>, Outs);

/// What came of a job that is served.
#[derive(Drop)]
pub struct Served {
    /// Its answer, and what came of its event.
    pub came: Came,
    /// The place of its domain's pace if readers may go on now that waited for it, or else how many
    /// paces there are.
    pub due: usize,
    /// It received a message, and its domain has little room beside.
    pub is_crowded: bool,
}

/// What a line of the console asks of the threads.
#[derive(Clone, Copy, Debug, PartialEq, Eq)]
pub enum Instruction {
    /// The daemon is to stop.
    Stop,
    /// The programs of the domain are no longer to be served.
    Retire(DomainNo),
    /// The keys are to be read again.
    Keys,
}

/// What came of a line of the console.
#[derive(Drop)]
pub struct Reply<D> {
    /// The lines of the answer, parted by line feeds, without a last one.
    pub text: Result<String, NoMemory>,
    /// What came of the line's event, if it has one.
    pub done: Option<D>,
    /// What the line asks of the threads, if it does.
    pub instruction: Option<Instruction>,
}

/// A table that threads share.
///
/// Each call takes the table's lock for itself, where it needs it, and `work` for each job anew. If
/// the daemon is recorded, calls that serve cut the events off the trace once there are many.
pub trait SharedTable {
    /// A thread's share of the count of events. A thread needs one to serve events.
    type Share: Drop;

    /// What is to be done with the table.
    type Job: Drop;

    /// What came of what the workers or the console were asked.
    type Done: Drop;

    /// A share for one more thread. `None` if no parts are left for it.
    fn share<R: Wait>(&self, rt: &R) -> Option<Self::Share>;

    /// Takes back the share of a thread that serves no more.
    fn give_back<R: Wait>(&self, rt: &R, share: Self::Share);

    /// The job of what is asked. `None` for bytes that are no frame, and where memory ran out.
    fn job(&self, asked: Asked) -> Option<Self::Job>;

    /// The site that the frame of a job says it is from. `None` for what is no frame.
    fn sender(&self, job: &Self::Job) -> Option<SiteNo>;

    /// What the frame of a job tells of the site that it is from, if it does.
    fn heard(&self, job: &Self::Job) -> Option<Heard>;

    /// Does a job. Of these paces one may be its domain's.
    fn serve<R: Wait>(
        &self,
        rt: &R,
        share: &mut Self::Share,
        job: Self::Job,
        paces: &[Pace],
    ) -> Served;

    /// Does a job, and then another one of the same domain, without letting go of the table between
    /// them. Answers what came of the first, and what `serve` answers of the second.
    fn serve_both<R: Wait>(
        &self,
        rt: &R,
        share: &mut Self::Share,
        job: Self::Job,
        then: Self::Job,
        paces: &[Pace],
    ) -> (Came, Served);

    /// Does the job of a cast, unless its program has to wait: then the job comes back, with how
    /// often the readers were woken before. A cast of which it is not said what it asks for does
    /// not wait.
    fn cast<R: Wait>(
        &self,
        rt: &R,
        share: &mut Self::Share,
        job: Self::Job,
        pace: &Pace,
        asks: Option<Wanted>,
    ) -> Result<Came, (Self::Job, Wakings)>;

    /// Serves as a worker until nothing can be asked any more, and takes the share back.
    fn work<R: Wait>(
        &self,
        rt: &R,
        share: Self::Share,
        asked: Receiver<Raw>,
        dones: Sender<Self::Done>,
    );

    /// Answers a line of the console. `None` is a line that is not UTF-8.
    fn answer<R: Wait>(
        &self,
        rt: &R,
        share: &mut Self::Share,
        told: &Told,
        line: Option<&str>,
    ) -> Reply<Self::Done>;

    /// The number under which something was asked, and what came of it if it was an event. `None`
    /// for bytes that were no frame.
    fn parts(&self, done: Self::Done) -> (u64, Option<Came>);

    /// Trims the trace, or cuts its events off if the daemon is recorded.
    fn trim<R: Wait>(&self, rt: &R);
}
