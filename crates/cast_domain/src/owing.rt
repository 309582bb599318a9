ghost use Rattle.std.specs.Prelude.{◌≡◌, ◌<◌, None, IfOk, Some};
ghost use Rattle.cast_rules.specs.Rules.Owing.{install_frame};
ghost use Rattle.cast_rules.specs.Rules.Asking.{request};
ghost use Rattle.cast_rules.specs.Rules.Views.{install};

use crate::domain::Domain;
use crate::keys::id_in;
use crate::lent::Lent;
use cast_message::SiteFrame;
use cast_timer::{OwedKey, OwedKind, Side};
use cast_types::{GroupNo, NoMemory, SiteNo, Uid};
use cast_view::{HomeSide, Phase};

impl Domain {
    ghost use Rattle.std.specs.Prelude.{OnOk, vec_len, ◌+◌};
    ghost use Rattle.cast_domain.specs.Records.{GivesBack, records_in, Makes, TellsAlone};
    ghost use Rattle.cast_domain.specs.PartCalls.{record_at, message_in, pay_in};
    ghost use Rattle.cast_domain.specs.Calls.{records};
    ghost use Rattle.std.specs.List.{find};
    ghost use Rattle.cast_rules.specs.Rules.Home.{wants};
    ghost use Rattle.std.specs.Option.{option_map};
    ghost use Rattle.cast_view.specs.MemberSide.{first_asking};
    ghost use Rattle.cast_rules.specs.Rules.Keys.{id_in};
    ghost use Rattle.cast_rules.specs.Rules.Owing.{ask_frame, frame_for, frame_of_kind};
    ghost use Rattle.cast_rules.specs.Rules.Owing.{owe, send_for, wanted_view};
    ghost use Rattle.cast_message.specs.declared.site.SiteFrame.TheVariants as frame;

    // Sends a frame, and owes it from then on, unless it is owed already.
    pub fn owe(&self, key: OwedKey, lent: &mut Lent<'_>) -> Result<(), NoMemory>
        ensures back { GivesBack self.now.config.domain lent.old lent.new }
        ensures made { OnOk result
            (Makes (λ r. owe records r key) self.now lent.old self.now lent.new) }
    {
        if lent.shared.timers.is_owed(self.config.domain, &key) {
            return Ok(());
        }
        self.send_for(&key, lent)?;
        lent.shared.owe(self.config.domain, key, self.next_due())
    }

    // Owes a frame no more.
    pub fn pay(&self, key: &OwedKey, lent: &mut Lent<'_>)
        ensures back { GivesBack self.now.config.domain lent.old lent.new }
        ensures made { Makes (λ r. pay_in r key.now) self.now lent.old self.now lent.new }
    {
        lent.shared.pay(self.config.domain, key);
    }

    // The moment at which what is sent now is due again.
    pub fn next_due(&self) -> u64
        ensures { result ≡ self.now.moment + self.now.quotas.resend }
    {
        self.moment.after(self.quotas.resend)
    }

    // Sends the frame that a key stands for, where there is one.
    pub fn send_for(&self, key: &OwedKey, lent: &mut Lent<'_>) -> Result<(), NoMemory>
        ensures back { GivesBack self.now.config.domain lent.old lent.new }
        ensures made { OnOk result
            (Makes (λ r. send_for records r key.now) self.now lent.old self.now lent.new) }
    {
        match self.frame_for(key, lent)? {
            Some(frame) => self.send(lent.outs, key.site, frame),
            None => Ok(()),
        }
    }

    // The frame that a key of a configured group stands for.
    pub fn frame_for(&self, key: &OwedKey, lent: &Lent<'_>) -> Result<Option<SiteFrame>, NoMemory>
        ensures { IfOk result (λ f. f ≡ frame_for records (records_in self.now lent.now) key.now) }
    {
        match self.place_of(key.group) {
            Some(place) => self.frame_at_key(place, key, lent),
            None => Ok(None),
        }
    }

    // The frame that a key of the group at a place stands for.
    fn frame_at_key(
        &self,
        place: usize,
        key: &OwedKey,
        lent: &Lent<'_>,
    ) -> Result<Option<SiteFrame>, NoMemory>
        requires { place < vec_len self.now.groups }
        ensures { IfOk result (λ f.
            f ≡ frame_of_kind records (records_in self.now lent.now) place key.now key.now.kind) }
    {
        match key.kind {
            OwedKind::Ask => Ok(self.ask_frame(place, key.group)),
            OwedKind::Data => self.data_frame(id_in(self.record(place).here.number(), key), lent),
            OwedKind::Ack => Ok(Some(SiteFrame::Ack(id_in(self.record(place).here.number(), key)))),
            OwedKind::Prepare => Ok(Some(self.prepare_frame(place, key.group))),
            OwedKind::Install => install_frame(key.group, &self.record(place).home, key.site),
            OwedKind::Want => Ok(Some(SiteFrame::Want(id_in(
                self.wanted_view(place, key.side),
                key,
            )))),
        }
    }

    // The number of the view that a side of a flush of the group at a place wants messages of.
    fn wanted_view(&self, place: usize, side: Side) -> u32
        requires { place < vec_len self.now.groups }
        ensures { TellsAlone (λ r. wanted_view records r place side) self.now result }
    {
        match side {
            Side::Site => self.record(place).here.number(),
            Side::Home => self.record(place).home.number(),
        }
    }

    // The first request of the group at a place.
    fn ask_frame(&self, place: usize, group: GroupNo) -> Option<SiteFrame>
        requires { place < vec_len self.now.groups }
        ensures { result ≡ option_map (ask_frame group)
            (first_asking (record_at self.now.groups.items place).here.requests) }
    {
        let asking = self.record(place).here.first_request()?;
        Some(SiteFrame::Ask {
            group,
            number: asking.number,
            change: asking.change,
            proc: asking.proc,
        })
    }

    // The call for what the sites have of the view of the group at a place.
    fn prepare_frame(&self, place: usize, group: GroupNo) -> SiteFrame
        requires { place < vec_len self.now.groups }
        ensures { result ≡ frame.Prepare group (record_at self.now.groups.items place).home.number }
    {
        SiteFrame::Prepare {
            group,
            view: self.record(place).home.number(),
        }
    }

    // A kept message as it is sent.
    fn data_frame(&self, id: Uid, lent: &Lent<'_>) -> Result<Option<SiteFrame>, NoMemory>
        ensures { IfOk result
            (λ f. f ≡ option_map frame.Data (message_in (records_in self.now lent.now) id)) }
    {
        match lent.shared.store.find(self.config.domain, id) {
            Some(message) => Ok(Some(SiteFrame::Data(message.copy()?))),
            None => Ok(None),
        }
    }
}

// The view that the home decided as a site is to install it, where it is being installed.
fn install_frame(
    group: GroupNo,
    home: &HomeSide,
    site: SiteNo,
) -> Result<Option<SiteFrame>, NoMemory>
    ensures { IfOk result (λ f. f ≡ install_frame group home.now site home.now.phase) }
{
    match home.phase() {
        Phase::Installing { decision, .. } => Ok(Some(SiteFrame::Install {
            group,
            view: home.number(),
            members: home.members().copy()?,
            request: decision.last_answer(site).number,
            cut: decision.cut.copy()?,
            tail: decision.tail.copy()?,
        })),
        Phase::Idle | Phase::Gathering { .. } => Ok(None),
    }
}
