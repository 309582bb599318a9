ghost use Rattle.std.specs.Prelude.{◌≡◌};
ghost use Rattle.cast_pool.specs.Served.{halts};

use cast_events::{Event, Fault, Outs, Taken};
use cast_field::FrameFault;
use cast_table::Shown;
use cast_types::DomainNo;

/// What is to be done with the table.
#[derive(Drop)]
pub enum Task {
    /// It takes an event.
    Serve(Event),
    /// It shows a domain.
    Show(DomainNo),
}

/// What came of what was asked.
#[derive(Drop)]
pub enum Outcome {
    /// What the event was answered, and what came of it: the frames to be sent, the deliveries, and
    /// the domains that it halted. `NoMemory` and `NoDomain` changed nothing. A halted domain's
    /// event, and one past the last number of events, is `Refused(Halted)`.
    Answered(Result<Taken, Fault>, Outs),
    /// What the domain shows; `None` where no domain has the number.
    Shown(Option<Shown>),
    /// The bytes are no frame, for the first of its faults, or there was no memory to read them.
    Undecoded(FrameFault),
}

impl Outcome {
    /// Whether an event halted a domain.
    pub fn halts(&self) -> bool
        ensures { result ≡ halts self.now }
    {
        match self {
            Outcome::Answered(_, outs) => !outs.halted.as_slice().is_empty(),
            Outcome::Shown(_) | Outcome::Undecoded(_) => false,
        }
    }
}
