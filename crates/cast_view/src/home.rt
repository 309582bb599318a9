ghost use Rattle.std.specs.Prelude.{◌≡◌, ◌+◌, ◌<◌, ◌≤◌, false, IfOk, IfSome, OnOk, IsTrue, length};
ghost use Rattle.cast_types.specs.declared.limits.TheConstants.{MAX_NUMBER};
ghost use Rattle.cast_types.specs.Names.{proc_cmp, proc_eq};
ghost use Rattle.cast_types.specs.Sets.{with_item, without};
ghost use Rattle.cast_message.specs.Membership.{is_held};
ghost use Rattle.cast_flush.specs.Reports.{cut_from, wanting};
ghost use Rattle.cast_view.specs.Home.{least_of};
ghost use Rattle.cast_view.specs.Flush.{lacking_in};

use crate::flush::Flush;
use crate::phase::{Answer, Decision, Phase, install_phase};
use crate::procs::{Procs, is_listed};
use crate::sites::{apart_from, insert_site, is_among, sites_and, sites_of};
use cast_flush::{Report, cut_from, is_complete, order_from, wanted_ids, wants_of};
use cast_message::{Change, Membership, Message};
use cast_types::limits::{MAX_MEMBERS, MAX_NUMBER};
use cast_types::{GroupNo, List, NoMemory, Proc, SiteNo, SortedMap};
use std::alloc::Global;
use std::marker::Model;
use std::mem;

/// A group at the home: its last decided view, what is to change, and the flush that runs. The next
/// view never has more than 64 members. Contracts see a `Home`.
#[derive(Drop)]
pub struct HomeSide {
    number: u32,
    members: Membership,
    joins: Procs,
    leavings: Procs,
    suspected: Vec<SiteNo>,
    answers: SortedMap<SiteNo, Answer>,
    flush: Flush,
}

impl Model for HomeSide {
    ghost use Rattle.std.specs.Prelude.{IsTrue};
    ghost use Rattle.cast_view.specs.Home.{Home, is_sound};

    ghost Value = { Home };

    ghost view = { λ h. record {
      number = h.number;
      members = h.members;
      joins = h.joins;
      leavings = h.leavings;
      suspected = h.suspected.items;
      answers = h.answers;
      phase = h.flush;
    } };

    ghost invariant = { λ h. IsTrue (is_sound
        (record {
          number = h.number;
          members = h.members;
          joins = h.joins;
          leavings = h.leavings;
          suspected = h.suspected.items;
          answers = h.answers;
          phase = h.flush;
        })) };
}

impl HomeSide {
    ghost use Rattle.cast_view.specs.Home.{first_home, answer_of, decision_of, answer_to};
    ghost use Rattle.cast_view.specs.Home.{is_refused, is_crowded, expected_members, stays};
    ghost use Rattle.cast_view.specs.Home.{marked_leaving, with_suspect, changed_by, after_request};
    ghost use Rattle.cast_view.specs.Home.{after_ask, after_suspicion, may_start, after_start};
    ghost use Rattle.cast_view.specs.Home.{takes_report, after_report, after_body, bodies_of};
    ghost use Rattle.cast_view.specs.Home.{wants_in, may_decide, decided_list, decided_holder};
    ghost use Rattle.cast_view.specs.Home.{decided_phase, decide_view, has_next_number};
    ghost use Rattle.cast_view.specs.Home.{after_decision, takes_installed, after_installed};

    /// No view, nothing to change and no requests.
    pub fn new(alloc: Global) -> Self
        ensures { result ≡ first_home }
    {
        HomeSide {
            number: 0,
            members: Membership::new(alloc),
            joins: Procs::new(alloc),
            leavings: Procs::new(alloc),
            suspected: Vec::new(alloc),
            answers: SortedMap::new(alloc),
            flush: Flush::new(Phase::Idle),
        }
    }

    /// An equal value.
    pub fn copy(&self) -> Result<Self, NoMemory>
        ensures { IfOk result (λ home. home ≡ self.now) }
    {
        Ok(HomeSide {
            number: self.number,
            members: self.members.copy()?,
            joins: self.joins.copy()?,
            leavings: self.leavings.copy()?,
            suspected: Vec::from_slice(*self.suspected.allocator(), &self.suspected)?,
            answers: self.answers.copy()?,
            flush: self.flush.copy()?,
        })
    }

    /// The number of the last decided view, first 0.
    pub fn number(&self) -> u32
        ensures { result ≡ self.now.number }
    {
        self.number
    }

    /// The members of the last decided view, and its holder.
    pub fn members(&self) -> &Membership
        ensures { result.now ≡ self.now.members }
    {
        &self.members
    }

    /// How far the flush has come.
    pub fn phase(&self) -> &Phase
        ensures { result.now ≡ self.now.phase }
    {
        self.flush.phase()
    }

    /// The messages that came for sites that lack them, in order of receipt.
    pub fn bodies(&self) -> &[Message]
        ensures { result.now ≡ bodies_of self.now.phase }
    {
        match self.phase() {
            Phase::Idle => &[],
            Phase::Gathering { bodies, .. } => bodies.as_slice(),
            Phase::Installing { bodies, .. } => bodies.as_slice(),
        }
    }

    /// The last request of a site that was applied, number 0 where none was.
    pub fn last_answer(&self, site: SiteNo) -> Answer
        ensures { result ≡ answer_of self.now site }
    {
        match self.answers.get(&site) {
            Some(answer) => *answer,
            None => Answer {
                number: 0,
                full: false,
            },
        }
    }

    /// Takes in a site's request, and answers whether it is refused because the group is full, or
    /// `None` where it is not to be answered. The request after the site's last one is applied: a
    /// join is refused where the next views would have more than 64 members with it, and a request
    /// for a process of another site changes nothing. The last one is answered again, and one
    /// before it as if it had been granted. `NoMemory` leaves the group of no further use, as in
    /// the next calls.
    pub fn ask(
        &mut self,
        site: SiteNo,
        number: u32,
        change: Change,
        process: Proc,
    ) -> Result<Option<bool>, NoMemory>
        ensures answer { IfOk result
            (λ full. full ≡ answer_to self.old site number change process) }
        ensures new { OnOk result (self.new ≡ after_ask self.old site number change process) }
    {
        let last = self.last_answer(site);
        if number <= last.number {
            return Ok(Some(number == last.number && last.full));
        }
        if number - last.number > 1 {
            return Ok(None);
        }
        let full = self.apply(site, number, change, process)?;
        Ok(Some(full))
    }

    // Applies the next request of a site, and answers whether it is refused.
    fn apply(
        &mut self,
        site: SiteNo,
        number: u32,
        change: Change,
        process: Proc,
    ) -> Result<bool, NoMemory>
        ensures value { IfOk result (λ full. full ≡ is_refused self.old site change process) }
        ensures new { OnOk result (self.new ≡ after_request self.old site number change process) }
    {
        let full = self.is_refused(site, change, process)?;
        if process.site == site && !full {
            self.change(change, process)?;
        }
        self.answers.put(site, Answer { number, full })?;
        Ok(full)
    }

    // Whether a request is refused: a join of a process of the asking site for which there is no
    // room.
    fn is_refused(&self, site: SiteNo, change: Change, process: Proc) -> Result<bool, NoMemory>
        ensures { IfOk result (λ full. full ≡ is_refused self.now site change process) }
    {
        match change {
            Change::Join if process.site == site => self.is_crowded(process),
            Change::Join | Change::Leave => Ok(false),
        }
    }

    // Whether with a process the next views would have more members than a view may have.
    fn is_crowded(&self, process: Proc) -> Result<bool, NoMemory>
        ensures { IfOk result (λ crowded. crowded ≡ is_crowded self.now process) }
    {
        let mut expected = self.expected_members()?;
        expected.remove(process);
        Ok(MAX_MEMBERS <= expected.as_slice().len())
    }

    // Whom the next views have, when nothing else changes.
    fn expected_members(&self) -> Result<Procs, NoMemory>
        ensures { IfOk result (λ procs. procs ≡ expected_members self.now) }
    {
        let mut procs = Procs::new(self.joins.alloc());
        for member in self.members.list() {
            if self.stays(*member) {
                procs.insert(*member)?;
            }
        }
        for process in self.joins.as_slice() {
            procs.insert(*process)?;
        }
        Ok(procs)
    }

    // Whether a process is neither leaving nor at a suspected site.
    fn stays(&self, process: Proc) -> bool
        ensures { result ≡ stays self.now process }
    {
        !self.leavings.contains(process) && !is_among(process.site, &self.suspected)
    }

    // Marks a member as leaving. Then a process that joins is to come, and one that leaves is not.
    fn change(&mut self, change: Change, process: Proc) -> Result<(), NoMemory>
        requires { is_refused self.old process.site change process ≡ false }
        ensures { OnOk result (self.new ≡ changed_by self.old change process) }
    {
        self.mark_leaving(process)?;
        match change {
            Change::Join => self.join(process)?,
            Change::Leave => self.leave(process),
        }
        Ok(())
    }

    // Marks a member as leaving.
    fn mark_leaving(&mut self, process: Proc) -> Result<(), NoMemory>
        ensures { OnOk result (self.new ≡ marked_leaving self.old process) }
    {
        if is_listed(process, self.members.list()) {
            self.leavings.insert(process)?;
        }
        Ok(())
    }

    // A process for which there is room is to come.
    fn join(&mut self, process: Proc) -> Result<(), NoMemory>
        requires { is_crowded self.old process ≡ false }
        ensures { OnOk result
            (self.new ≡ record self.old { joins = with_item proc_cmp process self.old.joins }) }
    {
        self.joins.insert(process)?;
        Ok(())
    }

    // A process is not to come. Takes no memory.
    fn leave(&mut self, process: Proc)
        ensures { self.new ≡ record self.old { joins = without proc_eq process self.old.joins } }
    {
        self.joins.remove(process);
    }

    // Sets the phase. Nothing is reckoned of it.
    fn set_phase(&mut self, phase: Phase)
        requires { IsTrue (has_next_number self.old.number phase) }
        ensures { self.new ≡ record self.old { phase = phase } }
    {
        self.set_flush(Flush::new(phase));
    }

    // Sets the flush.
    fn set_flush(&mut self, flush: Flush)
        requires { IsTrue (has_next_number self.old.number flush) }
        ensures { self.new ≡ record self.old { phase = flush } }
    {
        self.flush = flush;
    }

    /// Takes in that a site is suspected: its members, where the view has some, do not come into
    /// the next one, and the flush awaits nothing from it.
    pub fn suspect(&mut self, site: SiteNo) -> Result<(), NoMemory>
        ensures { OnOk result (self.new ≡ after_suspicion self.old site) }
    {
        self.mark_suspected(site)?;
        let flush = mem::replace(&mut self.flush, Flush::new(Phase::Idle));
        self.set_phase(flush.into_phase().without_site(site));
        Ok(())
    }

    // Marks a site as suspected, where some member is at it.
    fn mark_suspected(&mut self, site: SiteNo) -> Result<(), NoMemory>
        ensures { OnOk result (self.new ≡ with_suspect self.old site) }
    {
        let sites = sites_of(self.joins.alloc(), self.members.list())?;
        if is_among(site, sites.as_slice()) {
            insert_site(&mut self.suspected, site)?;
        }
        Ok(())
    }

    /// Whether a flush is wanted, and may start. Takes no memory.
    pub fn may_start(&self) -> bool
        ensures { result ≡ may_start self.now }
    {
        self.phase().is_idle()
            && self.number < MAX_NUMBER
            && !(self.joins.is_empty() && self.leavings.is_empty() && self.suspected.is_empty())
    }

    /// Starts a flush, where none runs and something is to change, and answers whether it did.
    pub fn start(&mut self) -> Result<bool, NoMemory>
        ensures value { IfOk result (λ started. started ≡ may_start self.old) }
        ensures new { OnOk result (self.new ≡ after_start self.old) }
    {
        if !self.may_start() {
            return Ok(false);
        }
        let alloc = self.joins.alloc();
        let sites = sites_of(alloc, self.members.list())?;
        self.flush = Flush::new(Phase::Gathering {
            awaited: apart_from(sites, &self.suspected),
            reports: List::new(alloc),
            bodies: List::new(alloc),
        });
        Ok(true)
    }

    /// Whether a report of a site counts: it is the first one of this view, and the site is
    /// awaited. Takes no memory.
    pub fn takes_report(&self, site: SiteNo, view: u32) -> bool
        ensures { result ≡ takes_report self.now site view }
    {
        view == self.number && self.phase().awaits_report(site)
    }

    /// Takes in what a site reports of a view, and answers whether it counts: it is the first
    /// report of this view from a site that is awaited.
    pub fn reply(&mut self, site: SiteNo, view: u32, report: Report) -> Result<bool, NoMemory>
        ensures value { IfOk result (λ taken. taken ≡ takes_report self.old site view) }
        ensures new { OnOk result (self.new ≡ after_report self.old site view report) }
    {
        if !self.takes_report(site, view) {
            return Ok(false);
        }
        let flush = mem::replace(&mut self.flush, Flush::new(Phase::Idle));
        let phase = flush.into_phase().with_report(site, report)?;
        self.set_phase(phase);
        Ok(true)
    }

    /// The messages that some of the sites lack, once all have reported: the first 64, each a
    /// process and a count, with the least site that has it.
    pub fn wants(&self, group: GroupNo) -> Result<List<(SiteNo, (Proc, u32))>, NoMemory>
        ensures { IfOk result (λ wants. wants ≡ wants_in group self.now self.now.phase) }
    {
        let alloc = self.joins.alloc();
        match self.phase() {
            Phase::Gathering {
                awaited,
                reports,
                bodies,
            } if is_complete(awaited.as_slice(), reports.as_slice()) => {
                if let Some(ids) = self.lacking(group) {
                    return wants_of(alloc, reports.as_slice(), ids);
                }
                let ids = self.wanted_ids(group, reports.as_slice(), bodies.as_slice())?;
                wants_of(alloc, reports.as_slice(), &ids)
            }
            _ => Ok(List::new(alloc)),
        }
    }

    /// Reckons what some of the sites lack, where all have reported and it was not reckoned yet.
    /// `wants` and `may_decide` need not reckon it then, until a report comes or a site is
    /// suspected.
    pub fn reckon(&mut self, group: GroupNo) -> Result<(), NoMemory>
        ensures { self.new ≡ self.old }
    {
        self.flush.reckon(group, self.number, self.members.list())
    }

    // What was reckoned to be lacking. Takes no memory.
    fn lacking(&self, group: GroupNo) -> Option<&[(Proc, u32)]>
        ensures { IfSome result (λ ids.
            ids.now ≡ lacking_in group self.now.number self.now.members.list self.now.phase) }
    {
        self.flush.lacking(group, self.number, self.members.list())
    }

    // The messages that some of the reporting sites lack and that did not come.
    fn wanted_ids(
        &self,
        group: GroupNo,
        reports: &[(SiteNo, Report)],
        bodies: &[Message],
    ) -> Result<Vec<(Proc, u32)>, NoMemory>
        ensures { IfOk result (λ l. l.items ≡ wanting group self.now.number
            (cut_from self.now.members.list reports.now) reports.now bodies.now) }
    {
        let alloc = self.joins.alloc();
        let cut = cut_from(alloc, self.members.list(), reports)?;
        wanted_ids(alloc, group, self.number, &cut, reports, bodies)
    }

    /// Takes in a message that was wanted, while reports are gathered.
    pub fn body(&mut self, message: Message) -> Result<(), NoMemory>
        ensures { OnOk result (self.new ≡ after_body self.old message) }
    {
        let flush = mem::replace(&mut self.flush, Flush::new(Phase::Idle));
        let flush = flush.with_body(message)?;
        self.set_flush(flush);
        Ok(())
    }

    /// Whether the next view is to be decided: all sites have reported, and no message is wanted.
    pub fn may_decide(&self, group: GroupNo) -> Result<bool, NoMemory>
        ensures { IfOk result (λ may. may ≡ may_decide group self.now) }
    {
        match self.phase() {
            Phase::Gathering {
                awaited,
                reports,
                bodies,
            } if is_complete(awaited.as_slice(), reports.as_slice()) => {
                if let Some(ids) = self.lacking(group) {
                    return Ok(ids.is_empty());
                }
                let ids = self.wanted_ids(group, reports.as_slice(), bodies.as_slice())?;
                Ok(ids.is_empty())
            }
            _ => Ok(false),
        }
    }

    /// Decides the next view, once all sites have reported and no message is wanted, and answers
    /// whether it did. Members are those that stay, and the joins that are not at suspected sites,
    /// which stay for the view after it. The holder stays if it was not leaving and is still a
    /// member; else it is the least member.
    pub fn decide(&mut self, group: GroupNo) -> Result<bool, NoMemory>
        ensures value { IfOk result (λ decided. decided ≡ may_decide group self.old) }
        ensures new { OnOk result (self.new ≡ after_decision group self.old) }
    {
        if !self.may_decide(group)? {
            return Ok(false);
        }
        let list = self.decided_list()?;
        let flush = mem::replace(&mut self.flush, Flush::new(Phase::Idle));
        let phase = self.decided_phase(flush.into_phase(), list.as_slice())?;
        self.pass_to(list);
        self.set_phase(phase);
        Ok(true)
    }

    // Passes to the next view, which has this list of members, in the phase as it is. Takes no
    // memory.
    fn pass_to(&mut self, list: Procs)
        requires number { self.old.number < MAX_NUMBER }
        requires list { list ≡ decided_list self.old }
        requires few { length list ≤ 64 }
        requires phase { IsTrue (has_next_number (self.old.number + 1) self.old.phase) }
        ensures { self.new ≡ record (decide_view self.old) { phase = self.old.phase } }
    {
        let holder = self.decided_holder(list.as_slice());
        let suspected = mem::replace(&mut self.suspected, Vec::new(self.joins.alloc()));
        self.joins.keep_at(&suspected);
        self.leavings = Procs::new(self.joins.alloc());
        self.members = Membership::from_parts(list.into_vec(), holder);
        self.number += 1;
    }

    // The members that stay, and the joins that are not at suspected sites.
    fn decided_list(&self) -> Result<Procs, NoMemory>
        ensures value { IfOk result (λ procs. procs ≡ decided_list self.now) }
        ensures few { IfOk result (λ procs. length procs ≤ 64) }
    {
        let mut procs = Procs::new(self.joins.alloc());
        for member in self.members.list() {
            if self.stays(*member) {
                procs.insert(*member)?;
            }
        }
        for process in self.joins.as_slice() {
            if !is_among(process.site, &self.suspected) {
                procs.insert(*process)?;
            }
        }
        Ok(procs)
    }

    // The holder of the next view.
    fn decided_holder(&self, list: &[Proc]) -> Option<Proc>
        ensures value { result ≡ decided_holder self.now list.now }
        ensures held { IsTrue (is_held list.now result) }
    {
        match self.members.holder() {
            Some(holder) => {
                if !self.leavings.contains(holder) && is_listed(holder, list) {
                    Some(holder)
                } else {
                    least_of(list)
                }
            }
            None => least_of(list),
        }
    }

    // The phase after the decision: the sites of the next view, and those that were awaited, are to
    // install it.
    fn decided_phase(&self, phase: Phase, list: &[Proc]) -> Result<Phase, NoMemory>
        ensures { IfOk result (λ p. p ≡ decided_phase self.now list.now phase) }
    {
        let Phase::Gathering {
            awaited,
            reports,
            bodies,
        } = phase
        else {
            return Ok(phase);
        };
        let decision = self.decision(reports.as_slice())?;
        let waiting = sites_and(self.joins.alloc(), list, awaited.as_slice())?;
        Ok(install_phase(waiting, decision, bodies))
    }

    // What goes with the next view.
    fn decision(&self, reports: &[(SiteNo, Report)]) -> Result<Decision, NoMemory>
        ensures { IfOk result (λ d. d ≡ decision_of self.now reports.now) }
    {
        let alloc = self.joins.alloc();
        let cut = cut_from(alloc, self.members.list(), reports)?;
        let tail = order_from(alloc, &cut, reports)?;
        let answers = List::from_vec(Vec::from_slice(alloc, self.answers.entries())?);
        Ok(Decision { cut, tail, answers })
    }

    /// Whether it is awaited that a site installs a view of a number. Takes no memory.
    pub fn takes_installed(&self, site: SiteNo, number: u32) -> bool
        ensures { result ≡ takes_installed self.now site number }
    {
        number == self.number && self.phase().awaits_installed(site)
    }

    /// Takes in that a site has installed a view, and answers whether that was awaited. Takes no
    /// memory.
    pub fn note_installed(&mut self, site: SiteNo, number: u32) -> bool
        ensures value { result ≡ takes_installed self.old site number }
        ensures new { self.new ≡ after_installed self.old site number }
    {
        if !self.takes_installed(site, number) {
            return false;
        }
        let flush = mem::replace(&mut self.flush, Flush::new(Phase::Idle));
        self.set_phase(flush.into_phase().without_site(site));
        true
    }
}

// The first of these processes, which is the least where they rise.
fn least_of(list: &[Proc]) -> Option<Proc>
    ensures value { result ≡ least_of list.now }
    ensures held { IsTrue (is_held list.now result) }
{
    list.first().copied()
}
