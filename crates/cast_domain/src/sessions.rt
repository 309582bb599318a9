ghost use Rattle.std.specs.Prelude.{◌≡◌, ◌+◌, ◌<◌, ◌≤◌, ◌==◌, [], IfOk};
ghost use Rattle.std.specs.Prelude.{OnOk, filter, length, map, not};
ghost use Rattle.cast_events.specs.declared.session.Status.{Status};
ghost use Rattle.cast_domain.specs.GivenSessions.{closed_if, status_in, with_next, without_serial};
ghost use Rattle.cast_domain.specs.PartCalls.{with_status};

use crate::domain::Domain;
use crate::lent::Lent;
use cast_events::Status;
use cast_types::NoMemory;
use indexmap::IndexMap;
use std::alloc::Global;
use std::marker::Model;

/// How many serials a domain gave to its sessions, which count from 1, and how the sessions stand
/// that are not gone, in the order of their serials. Contracts see `GivenSessions`.
#[derive(Drop)]
pub struct Sessions {
    used: u32,
    statuses: IndexMap<u32, Status>,
}

impl Model for Sessions {
    ghost use Rattle.std.specs.Prelude.{◌≡◌, true, map};
    ghost use Rattle.cast_domain.specs.GivenSessions.{GivenSessions, are_given, record_of};

    ghost Value = { GivenSessions };

    ghost view = { λ s. record { used = s.used; records = map record_of s.statuses.entries } };

    ghost invariant = { λ s. are_given s.used s.statuses.entries ≡ true };
}

impl Sessions {
    /// No serial is given.
    pub fn new(alloc: Global) -> Self
        ensures { result ≡ record { used = 0; records = [] } }
    {
        Sessions {
            used: 0,
            statuses: IndexMap::new(alloc),
        }
    }

    /// An equal value.
    pub fn copy(&self) -> Result<Self, NoMemory>
        ensures { IfOk result (λ sessions. sessions ≡ self.now) }
    {
        Ok(Sessions {
            used: self.used,
            statuses: copy_statuses(&self.statuses)?,
        })
    }

    /// How many serials were given.
    pub fn used(&self) -> u32
        ensures { result ≡ self.now.used }
    {
        self.used
    }

    /// How many sessions are not gone.
    pub fn len(&self) -> usize
        ensures { result ≡ length self.now.records }
    {
        self.statuses.len()
    }

    /// How the session of a serial stands.
    pub fn status(&self, serial: u32) -> Status
        ensures { result ≡ status_in self.now.records serial }
    {
        match self.statuses.get(&serial) {
            Some(status) => *status,
            None => Status::Gone,
        }
    }

    /// Opens the session of the next serial.
    pub fn open_next(&mut self) -> Result<(), NoMemory>
        requires { self.old.used + 1 ≤ 4294967295 }
        ensures { OnOk result (self.new ≡ with_next self.old) }
    {
        let serial = self.used + 1;
        self.statuses.insert(serial, Status::Open)?;
        self.used = serial;
        Ok(())
    }

    /// The session of a serial is closed.
    pub fn close(&mut self, serial: u32)
        ensures { self.new ≡ record self.old {
          records = map (with_status serial Status.Closed) self.old.records;
        } }
    {
        close_in(&mut self.statuses, serial);
    }

    /// The session of a serial is gone.
    pub fn remove(&mut self, serial: u32)
        ensures { self.new ≡ without_serial serial self.old }
    {
        remove_in(&mut self.statuses, serial);
    }
}

// How sessions stand, copied.
fn copy_statuses(statuses: &IndexMap<u32, Status>) -> Result<IndexMap<u32, Status>, NoMemory>
    ensures { IfOk result (λ copy. copy.entries ≡ statuses.now.entries) }
{
    statuses.clone()
}

// The session of a serial is closed.
fn close_in(statuses: &mut IndexMap<u32, Status>, serial: u32)
    ensures { statuses.new.entries ≡ map (λ e. (e.0, closed_if serial e)) statuses.old.entries }
{
    statuses.retain(|known, status| {
        *status = closed_if(*known, *status, serial);
        true
    });
}

// How a session stands once that of a serial is closed.
fn closed_if(known: u32, status: Status, serial: u32) -> Status
    ensures { result ≡ closed_if serial (known, status) }
{
    if known == serial {
        Status::Closed
    } else {
        status
    }
}

// The session of a serial is gone.
fn remove_in(statuses: &mut IndexMap<u32, Status>, serial: u32)
    ensures { statuses.new.entries ≡ filter (λ e. not (e.0 == serial)) statuses.old.entries }
{
    statuses.retain(|known, _| *known != serial);
}

impl Domain {
    ghost use Rattle.cast_domain.specs.Records.{records_in};
    ghost use Rattle.cast_events.specs.Session.{is_open_status};
    ghost use Rattle.cast_domain.specs.PartCalls.{is_full_in};

    // Whether the session of a serial is open.
    pub fn is_open(&self, serial: u32) -> bool
        ensures { result ≡ is_open_status (status_in self.now.sessions.records serial) }
    {
        self.sessions.status(serial).is_open()
    }

    // Whether the outbox of a serial has as many entries as it may have.
    pub fn is_full(&self, serial: u32, lent: &Lent<'_>) -> bool
        ensures { result ≡ is_full_in (records_in self.now lent.now) serial }
    {
        self.quotas.outbox as usize <= lent.shared.outboxes.len(self.config.domain, serial)
    }
}
