//! What is said of the answers.
use std::fmt::{Display, Formatter, Result, Write};

/// Whether the answers are allowed.
#[derive(Clone, Copy, Debug, PartialEq, Eq)]
pub enum Verdict {
    /// They are those of a run in which nothing is refused.
    Ample,
    /// One says that there is no memory, and what was read or written up to it is a beginning of
    /// that.
    NoMemory,
    /// The refused request was not one of the calls.
    Elsewhere,
    /// They are not allowed, for this reason.
    NotAllowed(&'static str),
}

impl Verdict {
    /// What is said of this and of what came then.
    pub fn then(self, next: Verdict) -> Verdict {
        match (self, next) {
            (Verdict::NotAllowed(_), _) => self,
            (_, Verdict::NotAllowed(_)) | (Verdict::Ample, _) => next,
            _ => self,
        }
    }
}

/// This, unless it does not hold: then that it is not allowed, for this reason.
pub fn allowed_if(holds: bool, verdict: Verdict, reason: &'static str) -> Verdict {
    if holds {
        verdict
    } else {
        Verdict::NotAllowed(reason)
    }
}

impl Display for Verdict {
    fn fmt<W: Write>(&self, f: &mut Formatter<W>) -> Result {
        match self {
            Verdict::Ample => f.write_str("allowed: as with ample memory"),
            Verdict::NoMemory => f.write_str("allowed: no memory"),
            Verdict::Elsewhere => f.write_str("allowed: refused outside the calls"),
            Verdict::NotAllowed(reason) => write!(f, "not allowed: {reason}"),
        }
    }
}
