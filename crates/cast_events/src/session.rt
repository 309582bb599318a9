ghost use Rattle.std.specs.Prelude.{◌≡◌};

/// How far a session has come.
#[derive(Clone, Copy, Debug, PartialEq, Eq)]
pub enum Status {
    Open,
    /// Its program was told why it ends, and is told nothing more. What it was told may still be
    /// taken.
    Closed,
    /// Its program is gone, and so is its outbox.
    Gone,
}

impl Status {
    ghost use Rattle.cast_events.specs.Session.{is_open_status};

    /// Whether the session is told what is pushed.
    pub fn is_open(self) -> bool
        ensures { result ≡ is_open_status self }
    {
        match self {
            Status::Open => true,
            Status::Closed | Status::Gone => false,
        }
    }
}
