ghost use Rattle.std.specs.Prelude.{◌≡◌, true};
ghost use Rattle.cast_device.specs.Watching.{HasFailedOrStalled};
ghost use Rattle.cast_device.specs.Writing.{IsTold};
ghost use Rattle.cast_config.specs.Faults.{cause_text, fault_text};
ghost use Rattle.cast_config.specs.Faults.{field_text, is_memory, status_of};

use cast_device::{Watched, tell};
use std::alloc::{AllocError, AllocFailed};
use std::io::Write;
use thiserror::Error;

/// A part of the document that may be at fault.
#[derive(Clone, Copy, Debug, PartialEq, Eq)]
pub enum Field {
    /// The whole text.
    Text,
    /// The tables of the sites, or the given site.
    Site,
    /// The tables of the domains.
    Domain,
    /// The number of a site or of a domain.
    Number,
    Address,
    Home,
    Sites,
    Groups,
    Socket,
    Sessions,
    Held,
    Outbox,
    Resend,
    /// The table of the network.
    Network,
    Bundle,
    Datagram,
    Delay,
    /// Whether a site is sealed.
    Sealed,
    /// The tables of keys.
    Key,
    Secret,
}

impl Field {
    /// Its name in the document, or `text`.
    pub fn name(self) -> &'static str
        ensures { result.now ≡ field_text self }
    {
        match self {
            Field::Text => "text",
            Field::Site => "site",
            Field::Domain => "domain",
            Field::Number => "number",
            Field::Address => "address",
            Field::Home => "home",
            Field::Sites => "sites",
            Field::Groups => "groups",
            Field::Socket => "socket",
            Field::Sessions => "sessions",
            Field::Held => "held",
            Field::Outbox => "outbox",
            Field::Resend => "resend",
            Field::Network => "network",
            Field::Bundle => "bundle",
            Field::Datagram => "datagram",
            Field::Delay => "delay",
            Field::Sealed => "sealed",
            Field::Key => "key",
            Field::Secret => "secret",
        }
    }
}

/// What is wrong with a field.
#[derive(Clone, Copy, Debug, PartialEq, Eq)]
pub enum Cause {
    /// The text is no TOML document.
    NotToml,
    /// The field is not there.
    Missing,
    /// It is not of the kind that is asked for: a text, a whole number, an array of these, an array
    /// of tables.
    WrongKind,
    /// A number is outside its range, or there are too few or too many of them.
    Range,
    /// A number stands there twice.
    Repeated,
    /// A number is not among those that it has to be of.
    NotListed,
    /// An allocation was refused, which says nothing of the document.
    NoMemory,
}

impl Cause {
    /// What is said of it.
    pub fn text(self) -> &'static str
        ensures { result.now ≡ cause_text self }
    {
        match self {
            Cause::NotToml => "not toml",
            Cause::Missing => "missing",
            Cause::WrongKind => "wrong kind",
            Cause::Range => "out of range",
            Cause::Repeated => "repeated",
            Cause::NotListed => "not listed",
            Cause::NoMemory => "no memory",
        }
    }
}

/// The first fault of a document. Where memory ran out, the field says nothing.
#[derive(Clone, Copy, Debug, PartialEq, Eq, Error)]
#[error("{}: {}", self.field.name(), self.cause.text())]
pub struct ConfigFault {
    pub field: Field,
    pub cause: Cause,
}

impl From<AllocError> for ConfigFault {
    ghost from_gives = { λ _ fault. is_memory fault ≡ true };

    fn from(_error: AllocError) -> ConfigFault {
        NO_MEMORY
    }
}

impl<T: Drop> From<AllocFailed<T>> for ConfigFault {
    ghost from_gives = { λ _ fault. is_memory fault ≡ true };

    fn from(_error: AllocFailed<T>) -> ConfigFault {
        NO_MEMORY
    }
}

// Want of memory.
const NO_MEMORY: ConfigFault = ConfigFault {
    field: Field::Text,
    cause: Cause::NoMemory,
};

/// Says what a fault is, and answers the status of the program for it: 5 where memory ran out, and
/// else 6. A write that fails is passed over. Takes no memory.
pub fn complain<E: Write>(fault: ConfigFault, err: &mut Watched<E>) -> u8
    ensures status { result ≡ status_of fault }
    ensures told { IsTold (E.contents err.old.device) (E.contents err.new.device) (fault_text fault)
        (HasFailedOrStalled err.new) }
{
    match fault.cause {
        Cause::NoMemory => {
            tell(err, &["castd: no memory\n"]);
            5
        }
        cause => {
            let field = fault.field.name();
            let why = cause.text();
            tell(err, &["castd: config: ", field, ": ", why, "\n"]);
            6
        }
    }
}
