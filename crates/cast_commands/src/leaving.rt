ghost use Rattle.std.specs.Prelude.{◌≡◌, ◌<◌, ◌==◌, IfOk, OnOk, vec_len};
ghost use Rattle.cast_domain.specs.Records.{number_of, KeepsBeside, records_in, Makes};
ghost use Rattle.cast_domain.specs.PartCalls.{go_in};
ghost use Rattle.cast_domain.specs.Calls.{answered_in, end_in};
ghost use Rattle.cast_rules.specs.Rules.Leaving.{leave_all};
ghost use Rattle.cast_events.specs.declared.event.Event.TheVariants as event;

use crate::sessions::is_gone;
use cast_domain::Domain;
use cast_domain::lent::Lent;
use cast_events::Taken;
use cast_types::{NoMemory, Refusal};

// The program of a session is gone: its process leaves all its groups, and is dismissed, and its
// outbox is dropped.
pub fn end_session(domain: &mut Domain, serial: u32, lent: &mut Lent<'_>) -> Result<Taken, NoMemory>
    ensures answer { IfOk result (λ t. t
        ≡ answered_in (records_in domain.old lent.old) (event.Gone (number_of domain.old) serial)) }
    ensures stays { KeepsBeside domain.old lent.old domain.new lent.new }
    ensures made { OnOk result
        (Makes (λ r. end_in r serial) domain.old lent.old domain.new lent.new) }
{
    if is_gone(domain, serial) {
        return Ok(Taken::Refused(Refusal::NotOpen));
    }
    go(domain, serial, lent);
    domain.leave_all(serial, lent)?;
    let process = domain.process(serial);
    domain.delay.dismiss(process);
    Ok(Taken::Nothing)
}

// The program of a session is gone.
fn go(domain: &mut Domain, serial: u32, lent: &mut Lent<'_>)
    ensures stays { KeepsBeside domain.old lent.old domain.new lent.new }
    ensures made { Makes (λ r. go_in r serial) domain.old lent.old domain.new lent.new }
    ensures len { vec_len domain.new.groups ≡ vec_len domain.old.groups }
{
    lent.shared.close_outbox(domain.config.domain, serial);
    domain.sessions.remove(serial);
}
