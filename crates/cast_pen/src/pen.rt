//! Who has the pen of a program.
ghost use Rattle.std.specs.Prelude.{◌≡◌, is_some};
ghost use Rattle.std.specs.Option.{option_map};
ghost use Rattle.cast_pen.specs.Pens.{opened, gets, is_taken, claimed, called, goes_on, went_on};
ghost use Rattle.cast_pen.specs.Pens.{given_up, turned, passed, task_of, fetched, is_missed};
ghost use Rattle.cast_pen.specs.Pens.{closed, ended, waits, waited};

use crate::writing::WriterTask;
use std::mem;

/// The right to take the outbox of a program and to write to its stream. Only a pen makes it, and
/// nobody can drop it: who has it gives it back to the pen.
pub struct Hold(());

/// Where a pen is.
#[derive(Drop)]
pub(crate) enum Place {
    /// Nobody has it.
    Free,
    /// Nobody has it, and the last Take found no memory.
    Missed,
    /// A thread has it.
    Held,
    /// It is passed to the program's writer, with what the writer has to do.
    Passed(WriterTask),
}

/// The pen of a program: who has it, and what is to be done with it.
#[derive(Drop)]
pub struct Pen {
    place: Place,
    // Who has it takes the outbox once more.
    is_wanted: bool,
    // Nothing more is written.
    is_over: bool,
    // The program's reader waits for a turn.
    is_awaited: bool,
    // How often the outbox was taken, or the pen was given back or passed. It may wrap.
    turns: u64,
}

impl Pen {
    /// A pen that nobody has.
    pub fn new() -> Self
        ensures { result ≡ opened }
    {
        Pen {
            place: Place::Free,
            is_wanted: false,
            is_over: false,
            is_awaited: false,
            turns: 0,
        }
    }

    /// Takes the pen. `None` if a thread has it, which then takes the outbox once more, or if
    /// nothing more is written.
    pub fn claim(&mut self) -> Option<Hold>
        ensures gets { is_some result ≡ gets self.old }
        ensures new { self.new ≡ claimed self.old }
    {
        if self.is_over {
            return None;
        }
        match self.place {
            Place::Free | Place::Missed => {
                self.place = Place::Held;
                self.is_wanted = false;
                Some(Hold(()))
            }
            Place::Held | Place::Passed(_) => {
                self.is_wanted = true;
                None
            }
        }
    }

    /// The session was pushed to: who has the pen takes the outbox once more. If nobody has it, it
    /// is passed to the writer. Answers whether it was.
    pub fn call(&mut self) -> bool
        ensures gets { result ≡ gets self.old }
        ensures new { self.new ≡ called self.old }
    {
        if self.is_over {
            return false;
        }
        match self.place {
            Place::Free | Place::Missed => {
                self.place = Place::Passed(WriterTask::Take);
                self.is_wanted = false;
                true
            }
            Place::Held | Place::Passed(_) => {
                self.is_wanted = true;
                false
            }
        }
    }

    /// The outbox was taken, and what it had is written. The pen is kept if the session was pushed
    /// to since. Else it is free.
    pub fn goes_on(&mut self, hold: Hold) -> Option<Hold>
        ensures goes_on { is_some result ≡ goes_on self.old }
        ensures new { self.new ≡ went_on self.old }
    {
        let goes_on = self.is_wanted && !self.is_over;
        self.is_wanted = false;
        self.turn();
        if goes_on {
            return Some(hold);
        }
        self.take_back(hold, Place::Free);
        None
    }

    /// Frees the pen after a Take that found no memory. The next tick wants another.
    pub fn gives_up(&mut self, hold: Hold)
        ensures { self.new ≡ given_up self.old }
    {
        self.take_back(hold, Place::Missed);
        self.is_wanted = false;
        self.turn();
    }

    /// Passes the pen to the writer, with a task.
    pub fn pass(&mut self, hold: Hold, task: WriterTask)
        ensures { self.new ≡ passed task self.old }
    {
        self.take_back(hold, Place::Passed(task));
        self.turn();
    }

    /// What the writer has to do next, and the right to do it. `None` if there is nothing for it to
    /// do yet, or if nothing more is written.
    pub fn next_task(&mut self) -> Option<(Hold, WriterTask)>
        ensures task { option_map (λ p. p.1) result ≡ task_of self.old }
        ensures new { self.new ≡ fetched self.old }
    {
        if self.is_over {
            return None;
        }
        match mem::replace(&mut self.place, Place::Held) {
            Place::Passed(task) => Some((Hold(()), task)),
            place => {
                self.place = place;
                None
            }
        }
    }

    /// The outbox was taken, and what it had is still to be written.
    pub fn was_taken(&mut self, _hold: &Hold)
        ensures { self.new ≡ turned self.old }
    {
        self.turn();
    }

    /// Nothing more is written.
    pub fn close(&mut self)
        ensures { self.new ≡ closed self.old }
    {
        self.is_over = true;
    }

    /// As `close`, by who has the pen.
    pub fn end(&mut self, hold: Hold)
        ensures { self.new ≡ ended self.old }
    {
        self.take_back(hold, Place::Free);
        self.is_over = true;
    }

    /// Whether nothing more is written.
    pub fn is_over(&self) -> bool
        ensures { result ≡ self.now.is_over }
    {
        self.is_over
    }

    /// Whether the last Take found no memory.
    pub fn is_missed(&self) -> bool
        ensures { result ≡ is_missed self.now }
    {
        !self.is_over && matches!(self.place, Place::Missed)
    }

    /// How often the outbox was taken, or the pen was given back or passed. It may wrap.
    pub fn turns(&self) -> u64
        ensures { result ≡ self.now.turns }
    {
        self.turns
    }

    /// Whether the program's reader waits for a turn.
    pub fn is_awaited(&self) -> bool
        ensures { result ≡ self.now.is_awaited }
    {
        self.is_awaited
    }

    /// Whether the program's reader goes on waiting, which began when there were `first` turns, and
    /// waits for so many: not if the pen is free, or if nothing more is written. As long as it
    /// waits, who has the pen takes the outbox once more.
    pub fn waits(&mut self, first: u64, times: u64) -> bool
        ensures waits { result ≡ waits first times self.old }
        ensures new { self.new ≡ waited first times self.old }
    {
        let waits = !self.is_over && self.is_taken() && self.turns.wrapping_sub(first) < times;
        self.is_awaited = waits;
        if waits {
            self.is_wanted = true;
        }
        waits
    }

    // Whether a thread has the pen, or it is passed to the writer.
    fn is_taken(&self) -> bool
        ensures { result ≡ is_taken self.now.place }
    {
        matches!(self.place, Place::Held | Place::Passed(_))
    }

    // Takes the right back.
    fn take_back(&mut self, hold: Hold, place: Place)
        ensures { self.new ≡ record self.old { place = place } }
    {
        let Hold(()) = hold;
        self.place = place;
    }

    // The reader that waits may go on.
    fn turn(&mut self)
        ensures { self.new ≡ turned self.old }
    {
        self.turns = self.turns.wrapping_add(1);
    }
}
