ghost use Rattle.std.specs.Prelude.{◌≡◌, ◌++◌, ◌∷◌, [], not, filter, IfOk};
ghost use Rattle.cast_types.specs.Names.{site_eq, site_cmp};
ghost use Rattle.cast_types.specs.Sets.{is_among, without};
ghost use Rattle.std.specs.FinMap.Entries.{put};
ghost use Rattle.cast_view.specs.Home.{answer_in, awaited_of, waiting_of, is_idle};
ghost use Rattle.cast_view.specs.Home.{installing, phase_without, awaits_report};
ghost use Rattle.cast_view.specs.Home.{phase_with_report, phase_with_body, awaits_installed};

use crate::sites::{is_among, sites_without};
use cast_flush::{Report, has_report};
use cast_message::{Message, Tail};
use cast_types::{Counts, List, NoMemory, SiteNo, sorted};
use std::alloc::Global;

/// The last request of a site that was applied.
#[derive(Clone, Copy, Debug, PartialEq, Eq)]
pub struct Answer {
    /// Counts the requests of the site from 1.
    pub number: u32,
    /// Whether it was refused because the group was full.
    pub full: bool,
}

/// The last request of a site among answers that stand in rising order of their sites, number 0
/// where there is none.
pub(crate) fn answer_in(answers: &[(SiteNo, Answer)], site: SiteNo) -> Answer
    ensures { result ≡ answer_in answers.now site }
{
    match sorted::find(answers, &site) {
        Some(answer) => *answer,
        None => Answer {
            number: 0,
            full: false,
        },
    }
}

/// What is decided beside the members of the next view.
#[derive(Drop)]
pub struct Decision {
    /// How many messages of each process belong to the old view.
    pub cut: Counts,
    /// The end of the order of the old view.
    pub tail: Tail,
    /// The last request of each site that was applied, in rising order of the sites.
    pub answers: List<(SiteNo, Answer)>,
}

/// How far a flush has come.
#[derive(Drop)]
pub enum Phase {
    /// None runs.
    Idle,
    /// Reports are awaited, and then messages that some of the sites lack.
    Gathering {
        /// The sites that report, in rising order.
        awaited: List<SiteNo>,
        /// The reports that came, in rising order of the sites.
        reports: List<(SiteNo, Report)>,
        /// The messages that came, in order of receipt.
        bodies: List<Message>,
    },
    /// The next view is decided.
    Installing {
        /// The sites, one at least, that have not installed it yet, in rising order.
        waiting: List<SiteNo>,
        /// What goes with the new view.
        decision: Decision,
        /// Messages for sites that lack them.
        bodies: List<Message>,
    },
}

impl Decision {
    /// An equal value.
    pub fn copy(&self) -> Result<Self, NoMemory>
        ensures { IfOk result (λ decision. decision ≡ self.now) }
    {
        Ok(Decision {
            cut: self.cut.copy()?,
            tail: self.tail.copy()?,
            answers: self.answers.copy()?,
        })
    }

    /// The last request of a site that was applied before the decision, number 0 where none was.
    pub fn last_answer(&self, site: SiteNo) -> Answer
        ensures { result ≡ answer_in self.now.answers site }
    {
        answer_in(self.answers.as_slice(), site)
    }
}

impl Phase {
    /// An equal value.
    pub fn copy(&self) -> Result<Self, NoMemory>
        ensures { IfOk result (λ phase. phase ≡ self.now) }
    {
        match self {
            Phase::Idle => Ok(Phase::Idle),
            Phase::Gathering {
                awaited,
                reports,
                bodies,
            } => Ok(Phase::Gathering {
                awaited: awaited.copy()?,
                reports: copy_reports(reports)?,
                bodies: copy_bodies(bodies)?,
            }),
            Phase::Installing {
                waiting,
                decision,
                bodies,
            } => Ok(Phase::Installing {
                waiting: waiting.copy()?,
                decision: decision.copy()?,
                bodies: copy_bodies(bodies)?,
            }),
        }
    }

    /// Whether no flush runs.
    pub fn is_idle(&self) -> bool
        ensures { result ≡ is_idle self.now }
    {
        match self {
            Phase::Idle => true,
            Phase::Gathering { .. } | Phase::Installing { .. } => false,
        }
    }

    /// The sites whose reports are awaited, in rising order; none where no reports are gathered.
    pub fn awaited_sites(&self) -> &[SiteNo]
        ensures { result.now ≡ awaited_of self.now }
    {
        match self {
            Phase::Gathering { awaited, .. } => awaited.as_slice(),
            Phase::Idle | Phase::Installing { .. } => &[],
        }
    }

    /// The sites that are still to install the view that is decided, in rising order; none where
    /// none is.
    pub fn sites_to_install(&self) -> &[SiteNo]
        ensures { result.now ≡ waiting_of self.now }
    {
        match self {
            Phase::Installing { waiting, .. } => waiting.as_slice(),
            Phase::Idle | Phase::Gathering { .. } => &[],
        }
    }

    /// Whether a site's report is awaited, and has not come yet.
    pub fn awaits_report(&self, site: SiteNo) -> bool
        ensures { result ≡ awaits_report self.now site }
    {
        match self {
            Phase::Gathering {
                awaited,
                reports,
                ..
            } => is_among(site, awaited.as_slice()) && !has_report(reports.as_slice(), site),
            Phase::Idle | Phase::Installing { .. } => false,
        }
    }

    /// Whether a site is still to install the view that is decided.
    pub fn awaits_installed(&self, site: SiteNo) -> bool
        ensures { result ≡ awaits_installed self.now site }
    {
        match self {
            Phase::Installing { waiting, .. } => is_among(site, waiting.as_slice()),
            Phase::Idle | Phase::Gathering { .. } => false,
        }
    }

    /// The phase in which nothing is awaited from a site any more. Takes no memory.
    pub(crate) fn without_site(self, site: SiteNo) -> Self
        ensures { result ≡ phase_without site self }
    {
        match self {
            Phase::Idle => Phase::Idle,
            Phase::Gathering {
                awaited,
                reports,
                bodies,
            } => Phase::Gathering {
                awaited: sites_without(awaited, site),
                reports: reports_without(reports, site),
                bodies,
            },
            Phase::Installing {
                waiting,
                decision,
                bodies,
            } => install_phase(sites_without(waiting, site), decision, bodies),
        }
    }

    /// The phase with a site's report.
    pub(crate) fn with_report(self, site: SiteNo, report: Report) -> Result<Self, NoMemory>
        ensures { IfOk result (λ phase. phase ≡ phase_with_report site report self) }
    {
        match self {
            Phase::Gathering {
                awaited,
                reports,
                bodies,
            } => Ok(Phase::Gathering {
                awaited,
                reports: with_report(reports, site, report)?,
                bodies,
            }),
            other => Ok(other),
        }
    }

    /// The phase with a message that was wanted.
    pub(crate) fn with_body(self, message: Message) -> Result<Self, NoMemory>
        ensures { IfOk result (λ phase. phase ≡ phase_with_body message self) }
    {
        match self {
            Phase::Gathering {
                awaited,
                reports,
                bodies,
            } => Ok(Phase::Gathering {
                awaited,
                reports,
                bodies: with_message(bodies, message)?,
            }),
            other => Ok(other),
        }
    }
}

/// Installing goes on until no site is waited for.
pub(crate) fn install_phase(
    waiting: List<SiteNo>,
    decision: Decision,
    bodies: List<Message>,
) -> Phase
    ensures { result ≡ installing waiting decision bodies }
{
    if waiting.is_empty() {
        Phase::Idle
    } else {
        Phase::Installing {
            waiting,
            decision,
            bodies,
        }
    }
}

// The reports but for one site's.
fn reports_without(reports: List<(SiteNo, Report)>, site: SiteNo) -> List<(SiteNo, Report)>
    ensures { result ≡ filter (λ r. not (site_eq site r.0)) reports }
{
    let mut rest = reports.into_vec();
    rest.retain(|report| !(site == report.0));
    List::from_vec(rest)
}

// The messages and one more.
fn with_message(mut bodies: List<Message>, message: Message) -> Result<List<Message>, NoMemory>
    ensures { IfOk result (λ l. l ≡ bodies ++ message ∷ []) }
{
    bodies.push(message)?;
    Ok(bodies)
}

// The reports with one of a site.
fn with_report(
    reports: List<(SiteNo, Report)>,
    site: SiteNo,
    report: Report,
) -> Result<List<(SiteNo, Report)>, NoMemory>
    ensures { IfOk result (λ l. l ≡ put site_cmp site report reports) }
{
    let mut all = reports.into_vec();
    sorted::put(&mut all, site, report)?;
    Ok(List::from_vec(all))
}

// The reports of sites, copied.
fn copy_reports(reports: &List<(SiteNo, Report)>) -> Result<List<(SiteNo, Report)>, NoMemory>
    ensures { IfOk result (λ copy. copy ≡ reports.now) }
{
    let copied = copy_report_entries(reports.alloc(), reports.as_slice())?;
    Ok(List::from_vec(copied))
}

fn copy_report_entries(
    alloc: Global,
    reports: &[(SiteNo, Report)],
) -> Result<Vec<(SiteNo, Report)>, NoMemory>
    ensures { IfOk result (λ copy. copy.items ≡ reports.now) }
{
    let mut copied = Vec::with_capacity(alloc, reports.len())?;
    for (site, report) in reports {
        copied.push((*site, report.copy()?))?;
    }
    Ok(copied)
}

// Messages, copied.
fn copy_bodies(bodies: &List<Message>) -> Result<List<Message>, NoMemory>
    ensures { IfOk result (λ copy. copy ≡ bodies.now) }
{
    let copied = copy_messages(bodies.alloc(), bodies.as_slice())?;
    Ok(List::from_vec(copied))
}

fn copy_messages(alloc: Global, messages: &[Message]) -> Result<Vec<Message>, NoMemory>
    ensures { IfOk result (λ copy. copy.items ≡ messages.now) }
{
    let mut copied = Vec::with_capacity(alloc, messages.len())?;
    for message in messages {
        copied.push(message.copy()?)?;
    }
    Ok(copied)
}
