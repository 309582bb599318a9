//! The sessions that are not gone, and how far each is from its end.
//!
//! A session of a program that is gone has to end at the table: its Gone is handed in. The workers
//! may have no room for it just then, or find no memory for it. Then it is handed in again. What
//! this needs was made when the session was asked for, so an end takes no memory.
ghost use Rattle.std.specs.Prelude.{◌≡◌, ◌++◌, ◌∷◌, [], OnOk, OnErr, filter, length, map, not};
ghost use Rattle.std.specs.List.{list_any};
ghost use Rattle.cast_edge.specs.Endings.{ahead, asked_for, changed, due_again, ended, is_of};
ghost use Rattle.cast_edge.specs.Endings.{next_due};

use crate::client::Session;
use cast_types::NoMemory;
use std::alloc::Global;
use std::marker::Model;

/// How far a session is from its end.
#[derive(Clone, Copy, PartialEq, Eq)]
pub enum End {
    /// Its program is served, or it is not opened yet.
    Ahead,
    /// Its Gone is to be handed in.
    Due(Session),
    /// Its Gone is on the way.
    Asked(Session),
}

/// A session that is not gone, by the number under which it was asked for.
#[derive(Clone, Copy, PartialEq, Eq)]
pub struct Ending {
    pub number: u64,
    pub end: End,
}

/// The sessions that are not gone. Contracts see the list of them, in the order in which they were
/// asked for.
#[derive(Drop)]
pub struct Endings {
    list: Vec<Ending>,
}

impl Model for Endings {
    ghost use Rattle.std.specs.Prelude.{List};
    ghost use Rattle.cast_edge.specs.declared.endings.Ending.{Ending};

    ghost Value = { List Ending };

    ghost view = { λ e. e.list.items };
}

// What becomes of the end of a session.
#[derive(Clone, Copy)]
enum Change {
    Ended(Session),
    Asked,
    DueAgain,
}

impl Ending {
    // What becomes of it once the program of the session under a number is gone.
    fn ended(self, number: u64, session: Session) -> Self
        ensures { result ≡ ended number session self }
    {
        if self.number != number {
            return self;
        }
        Ending {
            number,
            end: End::Due(session),
        }
    }

    // What becomes of it once the Gone of the session under a number is on the way.
    fn asked_for(self, number: u64) -> Self
        ensures { result ≡ asked_for number self }
    {
        match self.end {
            End::Due(session) if self.number == number => Ending {
                number,
                end: End::Asked(session),
            },
            _ => self,
        }
    }

    // What becomes of it where the Gone of the session under a number came to nothing.
    fn due_again(self, number: u64) -> Self
        ensures { result ≡ due_again number self }
    {
        match self.end {
            End::Asked(session) if self.number == number => Ending {
                number,
                end: End::Due(session),
            },
            _ => self,
        }
    }

    // What becomes of it where this becomes of the session under a number.
    fn changed(self, number: u64, change: Change) -> Self
        ensures { result ≡ changed number change self }
    {
        match change {
            Change::Ended(session) => self.ended(number, session),
            Change::Asked => self.asked_for(number),
            Change::DueAgain => self.due_again(number),
        }
    }
}

// Changes the end of the session under a number.
fn change_each(endings: &mut [Ending], number: u64, change: Change)
    ensures { endings.new ≡ map (changed number change) endings.old }
{
    for one in endings.iter_mut() {
        *one = one.changed(number, change);
    }
}

// Forgets the session under a number.
fn forget(endings: &mut Vec<Ending>, number: u64)
    ensures { endings.new.items ≡ filter (λ e. not (is_of number e)) endings.old.items }
{
    endings.retain(|ending| ending.number != number);
}

impl Endings {
    /// No session.
    pub fn new(alloc: Global) -> Self
        ensures { result ≡ [] }
    {
        Endings {
            list: Vec::new(alloc),
        }
    }

    /// A session is asked for under a number that no other has. `NoMemory` changes nothing.
    pub fn add(&mut self, number: u64) -> Result<(), NoMemory>
        ensures ok { OnOk result (self.new ≡ self.old ++ ahead number ∷ []) }
        ensures err { OnErr result (self.new ≡ self.old) }
    {
        self.list.push(Ending {
            number,
            end: End::Ahead,
        })?;
        Ok(())
    }

    /// The session under a number is gone, or was not opened.
    pub fn remove(&mut self, number: u64)
        ensures { self.new ≡ filter (λ e. not (is_of number e)) self.old }
    {
        forget(&mut self.list, number);
    }

    /// Whether a session under this number is not gone.
    pub fn has(&self, number: u64) -> bool
        ensures { result ≡ list_any (is_of number) self.now }
    {
        self.list.iter().any(|ending| ending.number == number)
    }

    /// How many sessions are not gone.
    pub fn count(&self) -> usize
        ensures { result ≡ length self.now }
    {
        self.list.len()
    }

    /// The program of the session under a number is gone. The session's Gone is to be handed in.
    pub fn end(&mut self, number: u64, session: Session)
        ensures { self.new ≡ map (ended number session) self.old }
    {
        change_each(&mut self.list, number, Change::Ended(session));
    }

    /// The first session whose Gone is to be handed in, and its number.
    pub fn next_due(&self) -> Option<(u64, Session)>
        ensures { result ≡ next_due self.now }
    {
        for ending in self.list.iter() {
            if let End::Due(session) = ending.end {
                return Some((ending.number, session));
            }
        }
        None
    }

    /// The Gone of the session under a number is on the way, if it was to be handed in.
    pub fn ask(&mut self, number: u64)
        ensures { self.new ≡ map (asked_for number) self.old }
    {
        change_each(&mut self.list, number, Change::Asked);
    }

    /// The Gone of the session under a number found no memory. It is to be handed in again.
    pub fn ask_again(&mut self, number: u64)
        ensures { self.new ≡ map (due_again number) self.old }
    {
        change_each(&mut self.list, number, Change::DueAgain);
    }
}
