ghost use Rattle.std.specs.Prelude.{◌≡◌, ◌≤◌, IfOk, IfSome, IsTrue, length, not, filter};
ghost use Rattle.cast_types.specs.Names.{proc_cmp, uid_eq, uid_in};
ghost use Rattle.cast_types.specs.Rising.{is_rising};
ghost use Rattle.cast_view.specs.Home.{phase_with_body};
ghost use Rattle.cast_view.specs.Flush.{lacking_in, AreReckoned};
ghost use Rattle.cast_view.specs.declared.phase.Phase.{Phase};
ghost use Rattle.cast_message.specs.declared.message.Message.{Message};

use crate::phase::Phase;
use cast_flush::{cut_from, is_complete, wanted_ids};
use cast_message::Message;
use cast_types::{GroupNo, NoMemory, Proc, Uid};
use std::marker::Model;

/// How far a flush has come, and what some sites lack once that was reckoned. Contracts see the
/// phase alone.
#[derive(Drop)]
pub(crate) struct Flush {
    phase: Phase,
    lacking: Option<Lacking>,
}

/// The messages of a group's view with these members that some sites lack and that did not come.
#[derive(Drop)]
pub(crate) struct Lacking {
    group: GroupNo,
    view: u32,
    members: Vec<Proc>,
    ids: Vec<(Proc, u32)>,
}

impl Model for Flush {
    ghost use Rattle.cast_view.specs.declared.phase.Phase.{Phase};
    ghost use Rattle.cast_view.specs.Flush.{AreReckoned};

    ghost Value = { Phase };

    ghost view = { λ f. f.phase };

    ghost invariant = { λ f. AreReckoned f.lacking f.phase };
}

impl Flush {
    /// A phase of which nothing is reckoned. Takes no memory.
    pub(crate) fn new(phase: Phase) -> Self
        ensures { result ≡ phase }
    {
        Flush {
            phase,
            lacking: None,
        }
    }

    /// An equal value, of which nothing is reckoned.
    pub(crate) fn copy(&self) -> Result<Self, NoMemory>
        ensures { IfOk result (λ flush. flush ≡ self.now) }
    {
        Ok(Flush::new(self.phase.copy()?))
    }

    /// How far it has come.
    pub(crate) fn phase(&self) -> &Phase
        ensures { result.now ≡ self.now }
    {
        &self.phase
    }

    /// The phase. What was reckoned is forgotten.
    pub(crate) fn into_phase(self) -> Phase
        ensures { result ≡ self }
    {
        self.phase
    }

    /// The flush with a message that was wanted. What was reckoned is so but for this message.
    pub(crate) fn with_body(self, message: Message) -> Result<Self, NoMemory>
        ensures { IfOk result (λ flush. flush ≡ phase_with_body message self) }
    {
        let Flush { phase, lacking } = self;
        let lacking = lacking_but(lacking, message.id);
        let phase = phase.with_body(message)?;
        Ok(Flush { phase, lacking })
    }

    /// Reckons once what is lacking, where all sites have reported. Changes nothing that contracts
    /// see.
    pub(crate) fn reckon(
        &mut self,
        group: GroupNo,
        view: u32,
        members: &[Proc],
    ) -> Result<(), NoMemory>
        requires rising { IsTrue (is_rising proc_cmp members.now) }
        requires few { length members.now ≤ 64 }
        ensures { self.new ≡ self.old }
    {
        if self.lacking.is_some() {
            return Ok(());
        }
        let Phase::Gathering {
            awaited,
            reports,
            bodies,
        } = &self.phase
        else {
            return Ok(());
        };
        if !is_complete(awaited.as_slice(), reports.as_slice()) {
            return Ok(());
        }
        let alloc = reports.alloc();
        let cut = cut_from(alloc, members, reports.as_slice())?;
        let ids = wanted_ids(
            alloc,
            group,
            view,
            &cut,
            reports.as_slice(),
            bodies.as_slice(),
        )?;
        self.lacking = Some(Lacking {
            group,
            view,
            members: Vec::from_slice(alloc, members)?,
            ids,
        });
        Ok(())
    }

    /// What was reckoned to be lacking, if it was for the view of this number of a group with these
    /// members. Takes no memory.
    pub(crate) fn lacking(
        &self,
        group: GroupNo,
        view: u32,
        members: &[Proc],
    ) -> Option<&[(Proc, u32)]>
        ensures { IfSome result (λ ids. ids.now ≡ lacking_in group view members.now self.now) }
    {
        let Some(lacking) = &self.lacking else {
            return None;
        };
        if lacking.group == group && lacking.view == view && lacking.members.as_slice() == members {
            Some(lacking.ids.as_slice())
        } else {
            None
        }
    }
}

// What is lacking but for one message.
fn lacking_but(lacking: Option<Lacking>, id: Uid) -> Option<Lacking>
    ensures { (m : Message) (phase : Phase) → m.id ≡ id → AreReckoned lacking phase
        → AreReckoned result (phase_with_body m phase) }
{
    match lacking {
        Some(lacking) => Some(lacking.without(id)),
        None => None,
    }
}

impl Lacking {
    // But for one message.
    fn without(self, id: Uid) -> Self
        ensures group { result.group ≡ self.group }
        ensures view { result.view ≡ self.view }
        ensures members { result.members ≡ self.members }
        ensures ids { result.ids.items
            ≡ filter (λ e. not (uid_eq id (uid_in self.group self.view e))) self.ids.items }
    {
        let Lacking {
            group,
            view,
            members,
            mut ids,
        } = self;
        ids.retain(|entry| id != named(group, view, *entry));
        Lacking {
            group,
            view,
            members,
            ids,
        }
    }
}

// The message of a view that is named by its process and count.
fn named(group: GroupNo, view: u32, entry: (Proc, u32)) -> Uid
    ensures { result ≡ uid_in group view entry }
{
    Uid {
        group,
        view,
        proc: entry.0,
        count: entry.1,
    }
}
