ghost use Rattle.std.specs.Prelude.{◌≡◌, true, false, OnOk, OnErr, IfErr};
ghost use Rattle.cast_quota.specs.Quotas.{is_in_range, may_open, may_order};
ghost use Rattle.cast_quota.specs.Quotas.{may_receive, usual, with_quota};

use crate::limits::{LEAST_RESEND, MOST_ENTRIES, MOST_HELD, MOST_RESEND, MOST_SESSIONS};
use cast_types::Refusal;

/// Which quota of a domain.
#[derive(Clone, Copy, Debug, PartialEq, Eq)]
pub enum QuotaName {
    Sessions,
    Held,
    Outbox,
    Resend,
}

/// What a domain may use of its daemon.
#[derive(Clone, Copy, Debug, PartialEq, Eq)]
pub struct Quotas {
    /// Most sessions, 1 to 64, usually 16.
    pub sessions: u32,
    /// Most kept messages, 1 to 1,024, usually 256.
    pub held: u32,
    /// Most entries of a session's outbox, 1 to 4,096, usually 256.
    pub outbox: u32,
    /// Milliseconds after which an owed frame is sent again, 10 to 60,000, usually 200.
    pub resend: u32,
}

impl Quotas {
    /// The usual quotas.
    pub fn new() -> Self
        ensures { result ≡ usual }
    {
        Quotas {
            sessions: 16,
            held: 256,
            outbox: 256,
            resend: 200,
        }
    }

    /// Whether one more session may be opened beside so many that are not gone.
    pub fn check_open(&self, sessions: usize) -> bool
        ensures { result ≡ may_open self.now sessions }
    {
        sessions < self.sessions as usize
    }

    /// Whether a cast, of a program or of another site, may be received beside so many messages
    /// that are kept.
    pub fn check_cast(&self, held: usize) -> bool
        ensures { result ≡ may_receive self.now held }
    {
        held < self.held as usize
    }

    /// Whether a set-order message may be sent or received, and a holder may deliver an ABCAST,
    /// beside so many messages that are kept: twice as many as a cast finds room beside.
    pub fn check_order(&self, held: usize) -> bool
        ensures { result ≡ may_order self.now held }
    {
        (held as u64) < 2 * self.held as u64
    }

    /// Gives a quota another value, which may be the one that it has. `OutOfRange` where the value
    /// is outside its range, which changes nothing.
    pub fn set(&mut self, name: QuotaName, value: u32) -> Result<(), Refusal>
        ensures ok { OnOk result (self.new ≡ with_quota name value self.old) }
        ensures inside { OnOk result (is_in_range name value ≡ true) }
        ensures outside { OnErr result (is_in_range name value ≡ false) }
        ensures named { IfErr result (λ refusal. refusal ≡ Refusal.OutOfRange) }
        ensures err { OnErr result (self.new ≡ self.old) }
    {
        if !is_in_range(name, value) {
            return Err(Refusal::OutOfRange);
        }
        match name {
            QuotaName::Sessions => self.sessions = value,
            QuotaName::Held => self.held = value,
            QuotaName::Outbox => self.outbox = value,
            QuotaName::Resend => self.resend = value,
        }
        Ok(())
    }
}

/// Whether a value is in the range of a quota.
pub fn is_in_range(name: QuotaName, value: u32) -> bool
    ensures { result ≡ is_in_range name value }
{
    match name {
        QuotaName::Sessions => 1 <= value && value <= MOST_SESSIONS,
        QuotaName::Held => 1 <= value && value <= MOST_HELD,
        QuotaName::Outbox => 1 <= value && value <= MOST_ENTRIES,
        QuotaName::Resend => LEAST_RESEND <= value && value <= MOST_RESEND,
    }
}
