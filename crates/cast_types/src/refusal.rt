ghost use Rattle.std.specs.Prelude.{◌≡◌};
ghost use Rattle.cast_types.specs.Refusals.{refusal_code, refusal_numbered};

/// Why a command, an event or a session is refused. Its number stands in frames and in printed
/// text.
#[derive(Clone, Copy, Debug, PartialEq, Eq)]
pub enum Refusal {
    /// 1: the program sent bytes that are no frame.
    BadFrame,
    /// 2: no session of this serial is open.
    NotOpen,
    /// 3: the domain has as many sessions as it may have, or no serial is left.
    TooManySessions,
    /// 4: the group is not configured.
    NoGroup,
    /// 5: the process is not a member of the group.
    NotMember,
    /// 6: the process is a member of the group, or is joining it.
    AlreadyMember,
    /// 7: the group's view is being changed.
    Flushing,
    /// 8: an ABCAST of the process itself is not delivered yet.
    OwnAbcast,
    /// 9: too many messages are kept, or a number is at its end.
    HeldFull,
    /// 10: the payload is longer than 16,384 bytes.
    TooLong,
    /// 11: the process does not hold the token.
    NotHolder,
    /// 12: the program took its entries too slowly.
    Slow,
    /// 13: the domain was halted by want of memory.
    Halted,
    /// 14: the group has as many members as a view may have.
    GroupFull,
    /// 15: a number is out of its range.
    OutOfRange,
}

impl Refusal {
    /// The number of the refusal, 1 to 15.
    pub fn number(self) -> u8
        ensures { result ≡ refusal_code self }
    {
        match self {
            Refusal::BadFrame => 1,
            Refusal::NotOpen => 2,
            Refusal::TooManySessions => 3,
            Refusal::NoGroup => 4,
            Refusal::NotMember => 5,
            Refusal::AlreadyMember => 6,
            Refusal::Flushing => 7,
            Refusal::OwnAbcast => 8,
            Refusal::HeldFull => 9,
            Refusal::TooLong => 10,
            Refusal::NotHolder => 11,
            Refusal::Slow => 12,
            Refusal::Halted => 13,
            Refusal::GroupFull => 14,
            Refusal::OutOfRange => 15,
        }
    }

    /// The refusal of a number, `None` outside 1 to 15.
    pub fn from_number(number: u8) -> Option<Refusal>
        ensures { result ≡ refusal_numbered number }
    {
        match number {
            1 => Some(Refusal::BadFrame),
            2 => Some(Refusal::NotOpen),
            3 => Some(Refusal::TooManySessions),
            4 => Some(Refusal::NoGroup),
            5 => Some(Refusal::NotMember),
            6 => Some(Refusal::AlreadyMember),
            7 => Some(Refusal::Flushing),
            8 => Some(Refusal::OwnAbcast),
            9 => Some(Refusal::HeldFull),
            10 => Some(Refusal::TooLong),
            11 => Some(Refusal::NotHolder),
            12 => Some(Refusal::Slow),
            13 => Some(Refusal::Halted),
            14 => Some(Refusal::GroupFull),
            15 => Some(Refusal::OutOfRange),
            _ => None,
        }
    }
}
