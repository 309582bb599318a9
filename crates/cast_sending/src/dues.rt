//! When messages are due that the rules send again.
ghost use Rattle.std.specs.Prelude.{◌≡◌, ◌≤◌, ◌<◌, [], Some, None, length};
ghost use Rattle.cast_sending.specs.Dues.{due_of, gone, gone_again, goes_again, goes_now};
ghost use Rattle.cast_sending.specs.Dues.{held_back, kept_beside, times_of, waited_long, Becomes};
ghost use Rattle.cast_sending.specs.Dues.{Learns, SendsAgain};

use cast_types::Uid;
use std::alloc::Global;
use std::collections::BTreeMap;
use std::marker::Model;

// The time between two times that the rules have a message go to the wire doubles so often: up to
// eight times `resend`.
const DOUBLINGS: u32 = 3;

// A message goes there once the rules have sent it so often, however few ticks went by.
const MOST_TIMES: u32 = 8;

// Of so many messages it is known when they are due. With one more, all are due when the rules say
// so.
const MOST_DUE: usize = 4_096;

// When a message is due that was sent and is not acknowledged.
#[derive(Clone, Copy, Debug, PartialEq, Eq)]
struct Due {
    // When it went to the wire last.
    tick: u64,
    // How often the rules had it go there, up to so often as the time between doubles.
    doublings: u32,
    // How often it did not go there since, although the rules sent it.
    waits: u32,
}

impl Due {
    // It goes to the wire.
    fn gone(tick: u64, doublings: u32) -> Self
        ensures { result ≡ gone tick doublings }
    {
        Due {
            tick,
            doublings,
            waits: 0,
        }
    }

    // It goes to the wire once more.
    fn gone_again(self, tick: u64) -> Self
        ensures { result ≡ gone_again self tick }
    {
        Due::gone(tick, self.doublings.min(DOUBLINGS - 1) + 1)
    }

    // The rules sent it, and it does not go to the wire.
    fn held_back(self) -> Self
        requires { self.waits < 8 }
        ensures { result ≡ held_back self }
    {
        Due {
            waits: self.waits + 1,
            ..self
        }
    }

    // How often the rules send it until it goes to the wire.
    fn times(self) -> u32
        ensures { result ≡ times_of self }
    {
        1 << self.doublings.min(DOUBLINGS)
    }

    // Whether the rules sent it so often, with this time, and so many times `late` ticks went by.
    fn waited_long(self, tick: u64, late: u64) -> bool
        ensures { result ≡ waited_long self tick late }
    {
        let times = self.times();
        self.waits.saturating_add(1) >= times
            && tick.saturating_sub(self.tick) >= late.saturating_mul(u64::from(times))
    }

    // Whether it goes to the wire now that the rules send it.
    fn goes_again(self, tick: u64, late: u64) -> bool
        ensures { result ≡ goes_again self tick late }
    {
        self.waits.saturating_add(1) >= MOST_TIMES || self.waited_long(tick, late)
    }
}

/// When the rules may have messages go to the wire. Contracts see what is known of each message.
#[derive(Drop)]
pub struct Dues {
    of: BTreeMap<Uid, Due>,
}

impl Model for Dues {
    ghost use Rattle.std.specs.Prelude.{◌≤◌, List, length};
    ghost use Rattle.cast_types.specs.declared.names.Uid.{Uid};
    ghost use Rattle.cast_sending.specs.declared.dues.Due.{Due};

    ghost Value = { List (Uid × Due) };

    ghost view = { λ d. d.of.entries };

    ghost invariant = { λ d. length d.of.entries ≤ 4096 };
}

// What is known of a message.
fn due_of(dues: &BTreeMap<Uid, Due>, id: Uid) -> Option<Due>
    ensures { result ≡ due_of dues.now.entries id }
{
    dues.get(&id).copied()
}

// Forgets all messages, if this one is not known and no more may be.
fn make_room(dues: &mut BTreeMap<Uid, Due>, id: Uid)
    ensures { dues.new.entries ≡ kept_beside dues.old.entries id }
{
    if dues.len() >= MOST_DUE && !dues.contains_key(&id) {
        dues.clear();
    }
}

// Remembers when a message is due. What finds no memory is due when the rules say so.
fn learn(dues: &mut BTreeMap<Uid, Due>, id: Uid, due: Due)
    requires { length dues.old.entries ≤ 4096 }
    ensures learns { Learns dues.old.entries id due dues.new.entries }
    ensures few { length dues.new.entries ≤ 4096 }
{
    make_room(dues, id);
    let _ = dues.insert(id, due);
}

// Remembers that a message was held back once more.
fn hold_back(dues: &mut BTreeMap<Uid, Due>, id: Uid, due: Due)
    requires known { due_of dues.old.entries id ≡ Some due }
    requires few { due.waits < 8 }
    ensures { Becomes dues.old.entries id (Some (held_back due)) dues.new.entries }
{
    let _ = dues.insert(id, due.held_back());
}

// Forgets a message.
fn forget(dues: &mut BTreeMap<Uid, Due>, id: Uid)
    ensures { Becomes dues.old.entries id None dues.new.entries }
{
    let _ = dues.remove(&id);
}

// The rules send a message. Answers whether it goes to the wire.
fn send_again(dues: &mut BTreeMap<Uid, Due>, id: Uid, tick: u64, late: u64) -> bool
    requires { length dues.old.entries ≤ 4096 }
    ensures goes { result ≡ goes_now dues.old.entries id tick late }
    ensures known { SendsAgain dues.old.entries id tick late dues.new.entries }
    ensures few { length dues.new.entries ≤ 4096 }
{
    let Some(due) = due_of(dues, id) else {
        learn(dues, id, Due::gone(tick, 0));
        return true;
    };
    if due.goes_again(tick, late) {
        learn(dues, id, due.gone_again(tick));
        return true;
    }
    hold_back(dues, id, due);
    false
}

impl Dues {
    /// All are due when the rules say so.
    pub fn new(alloc: Global) -> Self
        ensures { result ≡ [] }
    {
        Dues {
            of: BTreeMap::new(alloc),
        }
    }

    /// Remembers that a message goes to the wire at this tick, and how often the time until it goes
    /// there again is doubled: more than three times count as three. Where 4,096 others are known,
    /// they are forgotten. One that finds no memory is due when the rules send it next.
    pub fn note(&mut self, id: Uid, tick: u64, doublings: u32)
        ensures noted { Learns self.old id (gone tick doublings) self.new }
        ensures few { length self.new ≤ 4096 }
    {
        learn(&mut self.of, id, Due::gone(tick, doublings));
    }

    /// A message was acknowledged.
    pub fn forget(&mut self, id: Uid)
        ensures { Becomes self.old id None self.new }
    {
        forget(&mut self.of, id);
    }

    /// All are due when the rules say so.
    pub fn clear(&mut self)
        ensures { self.new ≡ [] }
    {
        self.of.clear();
    }

    /// The rules send a message at this tick, most likely again. Answers whether it goes to the
    /// wire. One that is not known goes at once. Each other goes once the rules sent it so often as
    /// the time is doubled, once, twice, four or eight times, and so many times `late` ticks went
    /// by since it went last. The eighth time it goes, however few ticks went by.
    pub fn is_due(&mut self, id: Uid, tick: u64, late: u64) -> bool
        ensures goes { result ≡ goes_now self.old id tick late }
        ensures known { SendsAgain self.old id tick late self.new }
        ensures few { length self.new ≤ 4096 }
    {
        send_again(&mut self.of, id, tick, late)
    }
}
