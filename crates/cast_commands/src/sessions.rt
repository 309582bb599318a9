ghost use Rattle.std.specs.Prelude.{◌≡◌, ◌+◌, ◌<◌, ◌≤◌, ◌==◌, true, false};
ghost use Rattle.cast_events.specs.declared.session.Status.{Status};
ghost use Rattle.cast_domain.specs.GivenSessions.{status_in};
ghost use Rattle.cast_events.specs.Session.{is_gone_status};
ghost use Rattle.cast_rules.specs.Rules.Events.{on_open};

use cast_domain::Domain;
use cast_events::Status;

// Whether the session of a serial is gone, or was never opened.
pub(crate) fn is_gone(domain: &Domain, serial: u32) -> bool
    ensures { result ≡ is_gone_status (status_in domain.now.sessions.records serial) }
{
    match domain.sessions.status(serial) {
        Status::Gone => true,
        Status::Open | Status::Closed => false,
    }
}
