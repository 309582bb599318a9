ghost use Rattle.std.specs.Prelude.{◌≡◌, ◌<◌, IfOk, OnOk, ◌&&◌, ◌||◌, ◌==◌, take, ◌+◌};
ghost use Rattle.cast_domain.specs.Records.{number_of, GivesBack, Keeps, KeepsBeside, records_in};
ghost use Rattle.cast_domain.specs.Records.{Makes, MakesAlone, own_records, TellsAlone};
ghost use Rattle.cast_domain.specs.Calls.{acted_in, records, answered_in};
ghost use Rattle.cast_domain.specs.Calls.{open_in, records_sessions};
ghost use Rattle.cast_rules.specs.Rules.Events.{may_open, on_open, on_take};
ghost use Rattle.cast_events.specs.declared.event.Event.TheVariants as event;

use crate::sessions::is_gone;
use cast_domain::Domain;
use cast_domain::lent::Lent;
use cast_events::limits::MAX_TAKE;
use cast_events::{QuotaName, Taken};
use cast_message::Push;
use cast_types::limits::MAX_NUMBER;
use cast_types::{NoMemory, Refusal};

// A program connects.
pub fn open(domain: &mut Domain, lent: &mut Lent<'_>) -> Result<Taken, NoMemory>
    ensures answer { IfOk result (λ t.
        t ≡ answered_in (records_in domain.old lent.old) (event.Open (number_of domain.old))) }
    ensures same { (domain.new.site ≡ domain.old.site)
        × (domain.new.config ≡ domain.old.config)
        × (domain.new.halted ≡ domain.old.halted) }
    ensures back { GivesBack domain.old.config.domain lent.old lent.new }
    ensures made { OnOk result
        (Makes (on_open records records_sessions) domain.old lent.old domain.new lent.new) }
{
    if !may_open(domain) {
        return Ok(Taken::Refused(Refusal::TooManySessions));
    }
    let serial = domain.sessions.used() + 1;
    open_next(domain, serial, lent)?;
    Ok(Taken::Opened(serial))
}

// Whether one more session may be opened.
fn may_open(domain: &Domain) -> bool
    ensures { TellsAlone (may_open records records_sessions) domain.now result }
{
    domain.quotas.check_open(domain.sessions.len()) && domain.sessions.used() != MAX_NUMBER
}

// Opens the session of the next serial: its outbox begins with the name of its process.
fn open_next(domain: &mut Domain, serial: u32, lent: &mut Lent<'_>) -> Result<(), NoMemory>
    requires { serial ≡ domain.old.sessions.used + 1 }
    ensures same { (domain.new.site ≡ domain.old.site)
        × (domain.new.config ≡ domain.old.config)
        × (domain.new.halted ≡ domain.old.halted) }
    ensures back { GivesBack domain.old.config.domain lent.old lent.new }
    ensures made { OnOk result (Makes open_in domain.old lent.old domain.new lent.new) }
{
    let process = domain.process(serial);
    let opened = Push::Opened(process);
    domain.sessions.open_next()?;
    domain.delay.admit(process)?;
    lent.outs.push(domain.config.domain, serial, &opened)?;
    lent.shared
        .begin_outbox(domain.config.domain, serial, opened)?;
    Ok(())
}

// Takes the first entries of an outbox.
pub fn take(
    domain: &mut Domain,
    serial: u32,
    most: u32,
    lent: &mut Lent<'_>,
) -> Result<Taken, NoMemory>
    ensures answer { IfOk result (λ t. t ≡ answered_in (records_in domain.old lent.old)
        (event.Take (number_of domain.old) serial most)) }
    ensures stays { KeepsBeside domain.old lent.old domain.new lent.new }
    ensures made { OnOk result (Makes (λ r. on_take records records_sessions r serial most)
        domain.old lent.old domain.new lent.new) }
{
    if is_gone(domain, serial) {
        return Ok(Taken::Refused(Refusal::NotOpen));
    }
    if most == 0 || MAX_TAKE < most {
        return Ok(Taken::Refused(Refusal::OutOfRange));
    }
    let entries = lent.shared.take(domain.config.domain, serial, most)?;
    Ok(Taken::Entries(entries))
}

// Gives a quota another value, if that is in its range.
pub fn set_quota(domain: &mut Domain, name: QuotaName, value: u32) -> Taken
    ensures answer { result
        ≡ answered_in (own_records domain.old) (event.Quota (number_of domain.old) name value) }
    ensures kept { Keeps domain.old domain.new }
    ensures made { MakesAlone (λ r. acted_in r (event.Quota (number_of domain.old) name value))
        domain.old domain.new }
{
    match domain.quotas.set(name, value) {
        Ok(()) => Taken::Nothing,
        Err(refusal) => Taken::Refused(refusal),
    }
}
