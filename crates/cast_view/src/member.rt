ghost use Rattle.std.specs.Prelude.{◌≡◌, ◌<◌, ◌≤◌, IfOk, OnOk, OnErr, IsTrue, length};
ghost use Rattle.std.specs.Option.{option_copied};
ghost use Rattle.cast_types.specs.Names.{proc_cmp};
ghost use Rattle.cast_types.specs.Rising.{is_rising};
ghost use Rattle.cast_view.specs.MemberSide.{counts_by, greatest_of, is_taken_in};

use crate::sites::local_view;
use cast_flush::Report;
use cast_message::{Change, KeptIds, Membership, Tail};
use cast_types::{Counts, List, NoMemory, Proc, SiteNo, Standing};
use std::alloc::Global;
use std::marker::Model;
use std::mem;

/// A request that the home has not answered.
#[derive(Clone, Copy, Debug, PartialEq, Eq)]
pub struct PendingRequest {
    /// Counts the site's requests of the group from 1.
    pub number: u32,
    pub change: Change,
    pub proc: Proc,
}

/// The Install of the next view, while it waits. The order that the view ends with is no part of
/// it: the log of that order is closed when the Install comes.
#[derive(Drop)]
pub struct Pending {
    /// The members of the next view, and its holder.
    pub members: Membership,
    /// The number of the site's last request that the home had applied, 0 where none was.
    pub request: u32,
    /// How many messages of each process belong to the view that ends.
    pub cut: Counts,
}

impl Pending {
    /// An equal value.
    pub fn copy(&self) -> Result<Self, NoMemory>
        ensures { IfOk result (λ pending. pending ≡ self.now) }
    {
        Ok(Pending {
            members: self.members.copy()?,
            request: self.request,
            cut: self.cut.copy()?,
        })
    }
}

/// What a site does with an Install.
#[derive(Clone, Copy, Debug, PartialEq, Eq)]
pub enum Verdict {
    /// It answers it again: it has reached the number.
    Again,
    /// It puts its members out first, since the number is not the next one, and then completes it.
    Skips,
    /// It completes it: it has no view.
    Completes,
    /// The Install waits until the members here have delivered its cut.
    Pends,
    /// It does nothing: one waits already.
    Ignored,
}

/// A group at one site: the last view that the site knows of, how far a flush of it has come here,
/// and the requests of the site's processes. Contracts see the record of that name in `specs/`.
#[derive(Drop)]
pub struct MemberSide {
    number: u32,
    view: Option<Membership>,
    frozen: bool,
    pending: Option<Pending>,
    asked: u32,
    requests: List<PendingRequest>,
}

impl Model for MemberSide {
    ghost use Rattle.std.specs.Prelude.{IsTrue};
    ghost use Rattle.cast_view.specs.MemberSide.{MemberSide, is_sound};

    ghost Value = { MemberSide };

    ghost view = { λ g. record {
      number = g.number;
      view = g.view;
      frozen = g.frozen;
      pending = g.pending;
      asked = g.asked;
      requests = g.requests;
    } };

    ghost invariant = { λ g. IsTrue (is_sound
        (record {
          number = g.number;
          view = g.view;
          frozen = g.frozen;
          pending = g.pending;
          asked = g.asked;
          requests = g.requests;
        })) };
}

impl MemberSide {
    ghost use Rattle.std.specs.Prelude.{IfSome};
    ghost use Rattle.cast_types.specs.declared.limits.TheConstants.{MAX_NUMBER};
    ghost use Rattle.cast_view.specs.MemberSide.{no_group, members_of, holder_of, is_process};
    ghost use Rattle.cast_view.specs.MemberSide.{holder_at, is_current, is_open_to, is_pending};
    ghost use Rattle.cast_view.specs.MemberSide.{with_request, first_asking, with_answer};
    ghost use Rattle.cast_view.specs.MemberSide.{are_numbered_to, answers_prepare, after_prepare};
    ghost use Rattle.cast_view.specs.MemberSide.{report_of, verdict_of, after_install, with_end};
    ghost use Rattle.cast_view.specs.MemberSide.{with_view, is_put_out_by, after_out};

    /// A group of which the site knows no view.
    pub fn new(alloc: Global) -> Self
        ensures { result ≡ no_group }
    {
        MemberSide {
            number: 0,
            view: None,
            frozen: false,
            pending: None,
            asked: 0,
            requests: List::new(alloc),
        }
    }

    /// An equal value.
    pub fn copy(&self) -> Result<Self, NoMemory>
        ensures { IfOk result (λ side. side ≡ self.now) }
    {
        Ok(MemberSide {
            number: self.number,
            view: copy_view(&self.view)?,
            frozen: self.frozen,
            pending: copy_pending(&self.pending)?,
            asked: self.asked,
            requests: self.requests.copy()?,
        })
    }

    /// The number of the last view that the site knows of, first 0.
    pub fn number(&self) -> u32
        ensures { result ≡ self.now.number }
    {
        self.number
    }

    /// That view, while a member of it is at this site.
    pub fn view(&self) -> Option<&Membership>
        ensures { option_copied result ≡ self.now.view }
    {
        self.view.as_ref()
    }

    /// The members of the view in rising order, at most 64, none where there is no view.
    pub fn members(&self) -> &[Proc]
        ensures value { result.now ≡ members_of self.now }
        ensures rising { IsTrue (is_rising proc_cmp (members_of self.now)) }
        ensures few { length (members_of self.now) ≤ 64 }
    {
        match &self.view {
            Some(members) => members.list(),
            None => &[],
        }
    }

    /// The member that sets the order of the view's ABCASTs, `None` where there is no view.
    pub fn holder(&self) -> Option<Proc>
        ensures { result ≡ holder_of self.now }
    {
        match &self.view {
            Some(members) => members.holder(),
            None => None,
        }
    }

    /// Whether a process is the holder.
    pub fn is_held_by(&self, process: Proc) -> bool
        ensures { result ≡ is_process process (holder_of self.now) }
    {
        match self.holder() {
            Some(holder) => holder == process,
            None => false,
        }
    }

    /// The holder, where it is a process of a site.
    pub fn holder_at(&self, site: SiteNo) -> Option<Proc>
        ensures { result ≡ holder_at site self.now }
    {
        match self.holder() {
            Some(holder) if holder.site == site => Some(holder),
            _ => None,
        }
    }

    /// Whether the site has a view, and it has this number.
    pub fn is_current(&self, view: u32) -> bool
        ensures { result ≡ is_current self.now view }
    {
        self.view.is_some() && self.number == view
    }

    /// Whether the site has a view of this number, which no flush has frozen.
    pub fn is_open(&self, view: u32) -> bool
        ensures { result ≡ is_open_to self.now view }
    {
        self.is_current(view) && !self.frozen
    }

    /// Whether a flush of the view has begun here.
    pub fn is_frozen(&self) -> bool
        ensures { result ≡ self.now.frozen }
    {
        self.frozen
    }

    /// The Install that waits. Its number is the one after the site's, which is not the last.
    pub fn pending_install(&self) -> Option<&Pending>
        ensures value { option_copied result ≡ self.now.pending }
        ensures next { IfSome self.now.pending (λ _. self.now.number < MAX_NUMBER) }
        ensures frozen { IfSome self.now.pending (λ _. IsTrue self.now.frozen) }
    {
        self.pending.as_ref()
    }

    /// How many requests there were.
    pub fn request_count(&self) -> u32
        ensures { result ≡ self.now.asked }
    {
        self.asked
    }

    /// The requests that the home has not answered, in order. The first alone has been sent. They
    /// are numbered without a gap.
    pub fn requests(&self) -> &[PendingRequest]
        ensures value { result.now ≡ self.now.requests }
        ensures numbered { IsTrue (are_numbered_to self.now.asked self.now.requests) }
    {
        self.requests.as_slice()
    }

    /// The request that has been sent to the home.
    pub fn first_request(&self) -> Option<PendingRequest>
        ensures { result ≡ first_asking self.now.requests }
    {
        self.requests.as_slice().first().copied()
    }

    /// Queues a request. `NoMemory` changes nothing.
    pub fn ask(&mut self, change: Change, proc: Proc) -> Result<(), NoMemory>
        requires { self.old.asked < 4294967295 }
        ensures ok { OnOk result (self.new ≡ with_request self.old change proc) }
        ensures err { OnErr result (self.new ≡ self.old) }
    {
        let number = self.asked + 1;
        self.requests.push(PendingRequest {
            number,
            change,
            proc,
        })?;
        self.asked = number;
        Ok(())
    }

    /// Takes the first request off: it is answered. Takes no memory.
    pub fn take_answer(&mut self)
        ensures { self.new ≡ with_answer self.old }
    {
        if self.requests.is_empty() {
            return;
        }
        let none = List::new(self.requests.alloc());
        let mut requests = mem::replace(&mut self.requests, none).into_vec();
        requests.remove(0);
        self.requests = List::from_vec(requests);
    }

    /// Whether the home is to be told what the site has of a view: it is the site's view, and no
    /// Install waits.
    pub fn answers_prepare(&self, view: u32) -> bool
        ensures { result ≡ answers_prepare self.now view }
    {
        self.is_current(view) && !self.is_waiting()
    }

    // Whether an Install waits.
    fn is_waiting(&self) -> bool
        ensures { result ≡ is_pending self.now }
    {
        self.pending.is_some()
    }

    /// Takes in that the home asks what the site has of a view, and answers whether it is to be
    /// told: it is the site's view, and no Install waits. Then the group is frozen from now on;
    /// else nothing changes. Takes no memory.
    pub fn prepare(&mut self, view: u32) -> bool
        ensures value { result ≡ answers_prepare self.old view }
        ensures new { self.new ≡ after_prepare self.old view }
    {
        let answers = self.answers_prepare(view);
        if answers {
            self.frozen = true;
        }
        answers
    }

    /// What the home is told of the view: for each member the greatest count of what processes here
    /// had, where that is not
    /// 0. The caller lends the counts that each process of the site, also one that left, delivered
    ///    of the view, and those
    /// that it sent, in any order; the end of the view's order; and the messages kept of it.
    pub fn flush_report(
        &self,
        had: &[(Proc, u32)],
        tail: Tail,
        kept: KeptIds,
    ) -> Result<Report, NoMemory>
        ensures { IfOk result (λ report. report ≡ report_of self.now had.now tail kept) }
    {
        let counts = greatest_counts(self.requests.alloc(), self.members(), had)?;
        Ok(Report { counts, tail, kept })
    }

    /// What the site does with an Install of a number.
    pub fn verdict(&self, number: u32) -> Verdict
        ensures { result ≡ verdict_of self.now number }
    {
        if number <= self.number {
            Verdict::Again
        } else if self.number + 1 < number {
            Verdict::Skips
        } else if self.view.is_none() {
            Verdict::Completes
        } else if self.pending.is_some() {
            Verdict::Ignored
        } else {
            Verdict::Pends
        }
    }

    /// Takes in an Install, and answers what the site does with it. Where it is to wait, it waits
    /// from now on, and the group is frozen; else nothing changes. `NoMemory` changes nothing.
    pub fn install(
        &mut self,
        number: u32,
        members: &Membership,
        request: u32,
        cut: &Counts,
    ) -> Result<Verdict, NoMemory>
        ensures value { IfOk result (λ verdict. verdict ≡ verdict_of self.old number) }
        ensures new { OnOk result (self.new ≡ after_install self.old number
            (record { members = members.now; request = request; cut = cut.now })) }
        ensures err { OnErr result (self.new ≡ self.old) }
    {
        let verdict = self.verdict(number);
        if verdict == Verdict::Pends {
            let pending = Pending {
                members: members.copy()?,
                request,
                cut: cut.copy()?,
            };
            self.frozen = true;
            self.pending = Some(pending);
        }
        Ok(verdict)
    }

    /// Completes an Install: the site keeps its view where a member is here. No Install waits, and
    /// nothing is frozen. `NoMemory` changes nothing.
    pub fn complete(
        &mut self,
        here: SiteNo,
        number: u32,
        members: &Membership,
    ) -> Result<(), NoMemory>
        ensures ok { OnOk result (self.new ≡ with_view here number members.now self.old) }
        ensures err { OnErr result (self.new ≡ self.old) }
    {
        let view = local_view(here, members)?;
        self.end(number, view);
        Ok(())
    }

    /// Takes in that a view of this number has no member here, and answers whether that counts: the
    /// site has not reached the number. Then it has reached it, and has no view; else nothing
    /// changes. Takes no memory.
    pub fn note_outside(&mut self, number: u32) -> bool
        ensures value { result ≡ is_put_out_by self.old number }
        ensures new { self.new ≡ after_out self.old number }
    {
        let counts = self.number < number;
        if counts {
            self.end(number, None);
        }
        counts
    }

    // The view has ended: the site has reached this number, and has this view.
    fn end(&mut self, number: u32, view: Option<Membership>)
        ensures { self.new ≡ with_end self.old number view }
    {
        self.number = number;
        self.view = view;
        self.frozen = false;
        self.pending = None;
    }
}

/// Whether a process that a view names is taken in: it is a member, or joins by a request that the
/// home had applied.
pub fn is_taken_in(standing: Standing, request: u32) -> bool
    ensures { result ≡ is_taken_in request standing }
{
    match standing {
        Standing::Outside => false,
        Standing::Joining {
            request: number,
            ..
        } => number <= request,
        Standing::Member => true,
    }
}

// The greatest of the counts of a process.
fn greatest_of(had: &[(Proc, u32)], process: Proc) -> u32
    ensures { result ≡ greatest_of had.now process }
{
    let mut greatest = 0;
    for (other, count) in had {
        if *other == process {
            greatest = greatest.max(*count);
        }
    }
    greatest
}

// For each of these members, who rise and are at most 64, the greatest of its counts, where that is
// not 0.
fn greatest_counts(alloc: Global, members: &[Proc], had: &[(Proc, u32)]) -> Result<Counts, NoMemory>
    requires rising { IsTrue (is_rising proc_cmp members.now) }
    requires few { length members.now ≤ 64 }
    ensures { IfOk result (λ c. c ≡ counts_by (greatest_of had.now) members.now) }
{
    let mut entries = Vec::new(alloc);
    for member in members {
        let count = greatest_of(had, *member);
        if 0 < count {
            entries.push((*member, count))?;
        }
    }
    Ok(Counts::from_entries(entries))
}

// The members of a view, copied.
fn copy_view(view: &Option<Membership>) -> Result<Option<Membership>, NoMemory>
    ensures { IfOk result (λ copy. copy ≡ view.now) }
{
    match view {
        Some(members) => Ok(Some(members.copy()?)),
        None => Ok(None),
    }
}

// An Install that waits, copied.
fn copy_pending(pending: &Option<Pending>) -> Result<Option<Pending>, NoMemory>
    ensures { IfOk result (λ copy. copy ≡ pending.now) }
{
    match pending {
        Some(install) => Ok(Some(install.copy()?)),
        None => Ok(None),
    }
}
