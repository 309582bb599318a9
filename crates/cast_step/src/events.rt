ghost use Rattle.std.specs.Prelude.{◌≡◌, ◌<◌, IfOk, OnOk, ◌&&◌, ◌||◌, ◌==◌, take, ◌+◌};
ghost use Rattle.cast_domain.specs.Records.{GivesBack, records_in, Makes};
ghost use Rattle.cast_rules.specs.Lawful.{IsTyped};
ghost use Rattle.cast_domain.specs.Calls.{acted_in, answered_in};
ghost use Rattle.cast_rules.specs.Rules.Home.{suspect};
ghost use Rattle.cast_rules.specs.Rules.Owing.{tick};
ghost use Rattle.cast_events.specs.declared.event.Event.TheVariants as event;

use crate::frames::promised_by_types;
use cast_commands::commands;
use cast_commands::events::{open, set_quota, take};
use cast_commands::home::suspect;
use cast_commands::leaving::end_session;
use cast_commands::owing::tick;
use cast_domain::Domain;
use cast_domain::lent::Lent;
use cast_events::{Event, Taken};
use cast_handlers::frames::on_frame;
use cast_message::Command;
use cast_types::NoMemory;

// What the event does at once.
pub(crate) fn act(
    domain: &mut Domain,
    event: &Event,
    lent: &mut Lent<'_>,
) -> Result<Taken, NoMemory>
    ensures answer { IfOk result (λ t. t ≡ answered_in (records_in domain.old lent.old) event.now) }
    ensures same { (domain.new.site ≡ domain.old.site)
        × (domain.new.config ≡ domain.old.config)
        × (domain.new.halted ≡ domain.old.halted) }
    ensures back { GivesBack domain.old.config.domain lent.old lent.new }
    ensures made { OnOk result
        (Makes (λ r. acted_in r event.now) domain.old lent.old domain.new lent.new) }
    ensures typed { IsTyped event.now }
{
    match event {
        Event::Open(_) => open(domain, lent),
        Event::Command {
            serial,
            command,
            ..
        } => commands::command(domain, *serial, command, lent),
        Event::Gone { serial, .. } => end_session(domain, *serial, lent),
        Event::Suspect(_, site) => {
            suspect(domain, *site, lent)?;
            Ok(Taken::Nothing)
        }
        Event::Quota { name, value, .. } => Ok(set_quota(domain, *name, *value)),
        Event::Take { serial, most, .. } => take(domain, *serial, *most, lent),
        Event::Frame(_, from, frame) => {
            promised_by_types(frame);
            on_frame(domain, *from, frame, lent)?;
            Ok(Taken::Nothing)
        }
        Event::Tick(millis) => {
            tick(domain, *millis, lent)?;
            Ok(Taken::Nothing)
        }
    }
}
