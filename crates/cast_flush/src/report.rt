ghost use Rattle.std.specs.Prelude.{◌≡◌, IfOk};

use cast_message::{KeptIds, Tail};
use cast_types::{Counts, NoMemory};

/// What a site reports of the view that is flushed.
#[derive(Drop)]
pub struct Report {
    /// For each process how many of its messages the site has had.
    pub counts: Counts,
    /// The end of the order as the site knows it.
    pub tail: Tail,
    /// The messages that the site keeps, marked where they are ABCASTs without a place.
    pub kept: KeptIds,
}

impl Report {
    /// An equal value.
    pub fn copy(&self) -> Result<Self, NoMemory>
        ensures { IfOk result (λ r. r ≡ self.now) }
    {
        Ok(Report {
            counts: self.counts.copy()?,
            tail: self.tail.copy()?,
            kept: self.kept.copy()?,
        })
    }
}
