//! How often something happened that an operator has to know.
ghost use Rattle.std.specs.Prelude.{◌≡◌, ◌<◌, ◌≤◌, ◌^◌, ℕ, IfNone, IfSome};
ghost use Rattle.cast_edge.specs.Counts.{IsDue, counted, more_of, none_counted};

/// How often something happened. It is reported the first time, the tenth, the hundredth, and so
/// on.
#[derive(Clone, Copy)]
pub struct Count {
    so_far: u64,
    // What was reported last, 0 if nothing was.
    reported: u64,
}

impl Count {
    /// It has not happened.
    pub fn new() -> Self
        ensures { result ≡ none_counted }
    {
        Count {
            so_far: 0,
            reported: 0,
        }
    }

    /// How often it happened.
    pub fn so_far(&self) -> u64
        ensures { result ≡ self.now.so_far }
    {
        self.so_far
    }

    /// It happened so many times more. Answers the whole number if that is to be reported.
    pub fn add(&mut self, more: u64) -> Option<u64>
        ensures due { IfSome result (λ n. (n ≡ more_of self.old more) × IsDue self.old n) }
        ensures not_due { IfNone result (IsDue self.old (more_of self.old more) → ⊥) }
        ensures new { self.new ≡ counted self.old (more_of self.old more) result }
    {
        self.reach(self.so_far.saturating_add(more))
    }

    /// It happened so many times by now. Answers that number if it is to be reported: if a power of
    /// ten is reached or passed since the last report.
    pub fn reach(&mut self, so_far: u64) -> Option<u64>
        ensures due { IfSome result (λ n. (n ≡ so_far) × IsDue self.old n) }
        ensures not_due { IfNone result (IsDue self.old so_far → ⊥) }
        ensures new { self.new ≡ counted self.old so_far result }
    {
        self.so_far = so_far;
        if digits(so_far) <= digits(self.reported) {
            return None;
        }
        self.reported = so_far;
        Some(so_far)
    }
}

// How many digits a number has. 0 has none.
fn digits(number: u64) -> u32
    ensures below { number < 10 ^ result }
    ensures above { (k : ℕ) → k < result → 10 ^ k ≤ number }
{
    match number.checked_ilog10() {
        Some(power) => power + 1,
        None => 0,
    }
}
