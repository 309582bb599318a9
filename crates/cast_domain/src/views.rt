ghost use Rattle.std.specs.Prelude.{◌≡◌, ◌==◌};

use crate::data::is_named;
use crate::domain::Domain;
use crate::lent::Lent;
use crate::record::view_at;
use crate::turns::is_member;
use cast_clock::Times;
use cast_message::{Membership, Push, SiteFrame};
use cast_ready::ProcessUpdate;
use cast_store::Kept;
use cast_types::{GroupNo, Key, NoMemory, Proc, SiteNo, Standing, Uid};
use cast_view::{is_taken_in, other_sites};

impl Domain {
    ghost use Rattle.std.specs.Prelude.{◌<◌, None, IfOk, OnOk, vec_len, ◌&&◌, ◌||◌, Some};
    ghost use Rattle.cast_domain.specs.Records.{Keeps, KeepsBeside, Makes, MakesAlone};
    ghost use Rattle.cast_domain.specs.Records.{own_records, MakesAtAnyCut, TellsAlone};
    ghost use Rattle.cast_domain.specs.PartCalls.{record_at, added_if};
    ghost use Rattle.cast_domain.specs.PartCalls.{standing_of, time_of, local_in};
    ghost use Rattle.cast_domain.specs.ViewCalls.{begin_view_in, enter_in, take_in, view_in};
    ghost use Rattle.cast_domain.specs.ViewCalls.{holding_from, is_member_in, is_put_out_in};
    ghost use Rattle.cast_domain.specs.ViewCalls.{pass_in, put_out_all_in, put_out_if_in};
    ghost use Rattle.cast_domain.specs.ViewCalls.{put_out_in, serials_put_out, serials_of_members};
    ghost use Rattle.cast_domain.specs.ReleaseCalls.{is_ended_in, keys_passing};
    ghost use Rattle.cast_domain.specs.Calls.{records};
    ghost use Rattle.std.specs.List.{fold};
    ghost use Rattle.cast_rules.specs.Rules.Asking.{request};
    ghost use Rattle.cast_view.specs.MemberSide.{holder_at, is_taken_in};
    ghost use Rattle.cast_clock.specs.Times.{entering};
    ghost use Rattle.cast_ready.specs.Ready.{is_member};
    ghost use Rattle.cast_rules.specs.Rules.Rest.{pass};
    ghost use Rattle.cast_rules.specs.Rules.Leaving.{tell};
    ghost use Rattle.cast_rules.specs.Rules.Views.{change_view, enter_and_tell};
    ghost use Rattle.cast_rules.specs.Rules.Views.{install, tell_out, tell_view};

    // A view is complete: the processes here that it takes in enter it.
    pub fn begin_view(
        &mut self,
        place: usize,
        view: u32,
        members: &Membership,
        request: u32,
    ) -> Result<(), NoMemory>
        requires { place < vec_len self.old.groups }
        ensures same { Keeps self.old self.new }
        ensures made { OnOk result
            (MakesAlone (λ r. begin_view_in r place view members.now request) self.old self.new) }
    {
        let group = self.record(place).name;
        self.take_view(place, view, members)?;
        self.take_all_in(group, view, members.list(), request)
    }

    // The site takes over a view.
    fn take_view(&mut self, place: usize, view: u32, members: &Membership) -> Result<(), NoMemory>
        requires { place < vec_len self.old.groups }
        ensures same { Keeps self.old self.new }
        ensures made { OnOk result
            (MakesAlone (λ r. view_in r place view members.now) self.old self.new) }
    {
        let group = self.record(place).name;
        view_at(&mut self.groups, place, self.site, view, members)?;
        self.delay.note_view(group, view)?;
        let alloc = *self.groups.allocator();
        let others = other_sites(alloc, self.site, self.record(place).here.members())?;
        self.acks.tell(group, view, others)?;
        self.orders.forget(group);
        self.hold_from(place, group)
    }

    // Takes in that the view of the group at a place has a holder, where that is a process here.
    fn hold_from(&mut self, place: usize, group: GroupNo) -> Result<(), NoMemory>
        requires { place < vec_len self.old.groups }
        ensures same { Keeps self.old self.new }
        ensures made { OnOk result (MakesAlone (λ r. record r {
          orders = holding_from group
              (holder_at r.site (record_at r.groups place).here) r.orders;
        }) self.old self.new) }
    {
        match self.record(place).here.holder_at(self.site) {
            Some(holder) => self.orders.hold(group, holder, 1),
            None => Ok(()),
        }
    }

    // Each process here that a view takes in enters it.
    fn take_all_in(
        &mut self,
        group: GroupNo,
        view: u32,
        members: &[Proc],
        request: u32,
    ) -> Result<(), NoMemory>
        ensures same { Keeps self.old self.new }
        ensures made { OnOk result
            (MakesAlone (λ r. fold (take_in group view request) r members.now) self.old self.new) }
    {
        for process in members {
            self.take_in(*process, group, view, request)?;
        }
        Ok(())
    }

    // A process that a view names enters it, if it is here and is taken in.
    fn take_in(
        &mut self,
        process: Proc,
        group: GroupNo,
        view: u32,
        request: u32,
    ) -> Result<(), NoMemory>
        ensures same { Keeps self.old self.new }
        ensures made { OnOk result
            (MakesAlone (λ r. take_in group view request r process) self.old self.new) }
    {
        if process.site == self.site && self.is_taken_in(process, group, request) {
            self.enter(process, group, view)?;
        }
        Ok(())
    }

    // Whether a process that a view names is taken in: it is a member, or joins by a request that
    // the home had applied.
    fn is_taken_in(&self, process: Proc, group: GroupNo, request: u32) -> bool
        ensures { result ≡ is_taken_in request (standing_of self.now.delay process group) }
    {
        is_taken_in(self.delay.standing(process, group), request)
    }

    // A process enters a view.
    fn enter(&mut self, process: Proc, group: GroupNo, view: u32) -> Result<(), NoMemory>
        ensures same { Keeps self.old self.new }
        ensures made { OnOk result
            (MakesAlone (λ r. enter_in group view r process) self.old self.new) }
    {
        let entered = self.entry_time(process, group, view)?;
        self.tell(process, ProcessUpdate::Time(entered))?;
        self.tell(process, ProcessUpdate::Standing(group, Standing::Member))
    }

    // The time of a process that enters a view.
    fn entry_time(&self, process: Proc, group: GroupNo, view: u32) -> Result<Times, NoMemory>
        ensures { IfOk result (λ t. t ≡ entering (time_of self.now.delay process) group view) }
    {
        let mut entered = match self.delay.time(process) {
            Some(time) => time.copy()?,
            None => Times::new(*self.groups.allocator()),
        };
        entered.enter(group, view)?;
        Ok(entered)
    }

    // The site passes to a view, and tells the home.
    pub fn install_view(
        &mut self,
        skips: bool,
        place: usize,
        from: SiteNo,
        view: u32,
        members: &Membership,
        request: u32,
        lent: &mut Lent<'_>,
    ) -> Result<(), NoMemory>
        requires { place < vec_len self.old.groups }
        ensures stays { KeepsBeside self.old lent.old self.new lent.new }
        ensures made { OnOk result
            (MakesAtAnyCut (λ r. install records skips r place from view members.now request)
            self.old lent.old self.new lent.new) }
    {
        let group = self.record(place).name;
        self.change_view(skips, place, view, members, request, lent)?;
        self.send(lent.outs, from, SiteFrame::Installed { group, view })
    }

    // The site passes to a view: messages of the one before it are kept no longer, and nothing is
    // owed for it.
    pub fn change_view(
        &mut self,
        skips: bool,
        place: usize,
        view: u32,
        members: &Membership,
        request: u32,
        lent: &mut Lent<'_>,
    ) -> Result<(), NoMemory>
        requires { place < vec_len self.old.groups }
        ensures stays { KeepsBeside self.old lent.old self.new lent.new }
        ensures made { OnOk result
            (MakesAtAnyCut (λ r. change_view records skips r place view members.now request)
            self.old lent.old self.new lent.new) }
    {
        let group = self.record(place).name;
        self.enter_and_tell(skips, place, view, members, request, lent)?;
        self.release_ended(place, lent)?;
        lent.shared.pay_view(self.config.domain, group);
        Ok(())
    }

    // All its processes pass to a view at once; then those that were put out are told, and then the
    // members.
    fn enter_and_tell(
        &mut self,
        skips: bool,
        place: usize,
        view: u32,
        members: &Membership,
        request: u32,
        lent: &mut Lent<'_>,
    ) -> Result<(), NoMemory>
        requires { place < vec_len self.old.groups }
        ensures stays { KeepsBeside self.old lent.old self.new lent.new }
        ensures made { OnOk result
            (MakesAtAnyCut (λ r. enter_and_tell records skips r place view members.now request)
            self.old lent.old self.new lent.new) }
        ensures len { OnOk result (vec_len self.new.groups ≡ vec_len self.old.groups) }
    {
        let group = self.record(place).name;
        let out = self.serials_put_out(group, skips, members)?;
        self.pass_to(skips, place, view, members, request)?;
        let here = self.serials_of_members(self.record(place).name)?;
        self.tell_out(group, view, out.as_slice(), lent)?;
        self.tell_view(group, view, members, here.as_slice(), lent)
    }

    // The serials of the members here that a view lacks, and of all where a view was skipped.
    fn serials_put_out(
        &self,
        group: GroupNo,
        skips: bool,
        members: &Membership,
    ) -> Result<Vec<u32>, NoMemory>
        ensures { IfOk result
            (λ out. out.items ≡ serials_put_out group skips members.now (own_records self.now)) }
    {
        let mut out = Vec::new(*self.groups.allocator());
        for place in 0..self.delay.admitted_count() {
            if let Some(process) = self.delay.process_at(place) {
                self.add_put_out(group, skips, members, process.serial, &mut out)?;
            }
        }
        Ok(out)
    }

    // Adds a serial, if its process is a member that a view lacks, or a member where a view was
    // skipped.
    fn add_put_out(
        &self,
        group: GroupNo,
        skips: bool,
        members: &Membership,
        serial: u32,
        out: &mut Vec<u32>,
    ) -> Result<(), NoMemory>
        ensures { OnOk result (out.new.items ≡ added_if (is_put_out_in group skips members.now
            (own_records self.now) serial) serial out.old.items) }
    {
        if self.is_put_out(group, skips, members, serial) {
            out.push(serial)?;
        }
        Ok(())
    }

    // The serials of the members here of a group.
    fn serials_of_members(&self, group: GroupNo) -> Result<Vec<u32>, NoMemory>
        ensures { IfOk result
            (λ here. here.items ≡ serials_of_members (own_records self.now) group) }
    {
        let mut here = Vec::new(*self.groups.allocator());
        for place in 0..self.delay.admitted_count() {
            if let Some(process) = self.delay.process_at(place) {
                self.add_member(group, process.serial, &mut here)?;
            }
        }
        Ok(here)
    }

    // Adds a serial, if its process is a member of a group.
    fn add_member(&self, group: GroupNo, serial: u32, here: &mut Vec<u32>) -> Result<(), NoMemory>
        ensures { OnOk result (here.new.items
            ≡ added_if (is_member_in (own_records self.now) group serial) serial here.old.items) }
    {
        if is_member(self.delay.standing(self.process(serial), group)) {
            here.push(serial)?;
        }
        Ok(())
    }

    // The programs of processes that were put out are told.
    fn tell_out(
        &mut self,
        group: GroupNo,
        view: u32,
        serials: &[u32],
        lent: &mut Lent<'_>,
    ) -> Result<(), NoMemory>
        ensures stays { KeepsBeside self.old lent.old self.new lent.new }
        ensures made { OnOk result (Makes (λ r. fold (tell_out records group view) r serials.now)
            self.old lent.old self.new lent.new) }
        ensures len { OnOk result (vec_len self.new.groups ≡ vec_len self.old.groups) }
    {
        for serial in serials {
            self.push(*serial, Push::Ejected { group, view }, lent)?;
        }
        Ok(())
    }

    // The programs of members are told of their view.
    fn tell_view(
        &mut self,
        group: GroupNo,
        view: u32,
        members: &Membership,
        serials: &[u32],
        lent: &mut Lent<'_>,
    ) -> Result<(), NoMemory>
        ensures stays { KeepsBeside self.old lent.old self.new lent.new }
        ensures made { OnOk result
            (Makes (λ r. fold (tell_view records group view members.now) r serials.now)
            self.old lent.old self.new lent.new) }
        ensures len { OnOk result (vec_len self.new.groups ≡ vec_len self.old.groups) }
    {
        for serial in serials {
            self.tell_member(group, view, members, *serial, lent)?;
        }
        Ok(())
    }

    // The program of a member is told of its view.
    fn tell_member(
        &mut self,
        group: GroupNo,
        view: u32,
        members: &Membership,
        serial: u32,
        lent: &mut Lent<'_>,
    ) -> Result<(), NoMemory>
        ensures stays { KeepsBeside self.old lent.old self.new lent.new }
        ensures made { OnOk result (Makes (λ r. tell_view records group view members.now r serial)
            self.old lent.old self.new lent.new) }
        ensures len { OnOk result (vec_len self.new.groups ≡ vec_len self.old.groups) }
    {
        let push = Push::View {
            group,
            view,
            members: members.copy()?,
        };
        self.push(serial, push, lent)
    }

    // The members here that a view lacks are put out, and those that it takes in enter it.
    fn pass_to(
        &mut self,
        skips: bool,
        place: usize,
        view: u32,
        members: &Membership,
        request: u32,
    ) -> Result<(), NoMemory>
        requires { place < vec_len self.old.groups }
        ensures same { Keeps self.old self.new }
        ensures made { OnOk result
            (MakesAlone (λ r. pass_in r place skips view members.now request) self.old self.new) }
        ensures len { OnOk result (vec_len self.new.groups ≡ vec_len self.old.groups) }
    {
        let group = self.record(place).name;
        self.put_out_all(group, skips, members)?;
        self.begin_view(place, view, members, request)
    }

    // Each member here that a view lacks is put out; all of them, where a view was skipped.
    fn put_out_all(
        &mut self,
        group: GroupNo,
        skips: bool,
        members: &Membership,
    ) -> Result<(), NoMemory>
        ensures same { Keeps self.old self.new }
        ensures made { OnOk result
            (MakesAlone (put_out_all_in group skips members.now) self.old self.new) }
    {
        for place in 0..self.delay.admitted_count() {
            if let Some(process) = self.delay.process_at(place) {
                self.put_out_if(group, skips, members, process.serial)?;
            }
        }
        Ok(())
    }

    // A process is put out, if it is a member that a view lacks, or a member where a view was
    // skipped.
    fn put_out_if(
        &mut self,
        group: GroupNo,
        skips: bool,
        members: &Membership,
        serial: u32,
    ) -> Result<(), NoMemory>
        ensures same { Keeps self.old self.new }
        ensures made { OnOk result
            (MakesAlone (λ r. put_out_if_in group skips members.now r serial) self.old self.new) }
    {
        if self.is_put_out(group, skips, members, serial) {
            self.put_out(group, serial)?;
        }
        Ok(())
    }

    // Whether a process is a member that a view lacks, or a member where a view was skipped.
    fn is_put_out(&self, group: GroupNo, skips: bool, members: &Membership, serial: u32) -> bool
        ensures { TellsAlone (λ r. is_put_out_in group skips members.now r serial) self.now result }
    {
        let process = self.process(serial);
        is_member(self.delay.standing(process, group))
            && (skips || !is_named(process, members.list()))
    }

    // A member is put out.
    fn put_out(&mut self, group: GroupNo, serial: u32) -> Result<(), NoMemory>
        ensures same { Keeps self.old self.new }
        ensures made { OnOk result
            (MakesAlone (λ r. put_out_in group r (local_in r serial)) self.old self.new) }
    {
        let process = self.process(serial);
        self.tell(process, ProcessUpdate::Standing(group, Standing::Outside))
    }

    // Messages of views of the group at a place that have ended are kept no longer.
    fn release_ended(&mut self, place: usize, lent: &mut Lent<'_>) -> Result<(), NoMemory>
        requires { place < vec_len self.old.groups }
        ensures stays { KeepsBeside self.old lent.old self.new lent.new }
        ensures made { OnOk result
            (Makes (λ r. records.release_ended r place) self.old lent.old self.new lent.new) }
    {
        let ended = self.ended_keys(place, &lent.shared.store.messages(self.config.domain))?;
        for key in ended.as_slice() {
            self.release(*key, lent);
        }
        Ok(())
    }

    // The keys of those among kept messages.
    fn ended_keys(&self, place: usize, kept: &Kept<'_>) -> Result<Vec<Key>, NoMemory>
        requires { place < vec_len self.now.groups }
        ensures { IfOk result (λ keys.
            keys.items ≡ keys_passing (is_ended_in (own_records self.now) place) kept.now) }
    {
        let mut ended = Vec::new(*self.groups.allocator());
        for position in 0..kept.len() {
            let (key, message) = kept.at(position);
            if self.is_ended(place, message.id) {
                ended.push(key)?;
            }
        }
        Ok(ended)
    }

    // Whether a message is of a view of the group at a place that has ended.
    fn is_ended(&self, place: usize, id: Uid) -> bool
        requires { place < vec_len self.now.groups }
        ensures { result ≡ is_ended_in (own_records self.now) place id }
    {
        let record = self.record(place);
        id.group == record.name && id.view < record.here.number()
    }
}
