//! Acknowledgements that wait until their messages are delivered.
//!
//! A site acknowledges what it receives, and its senders then keep it no more, and cast on. Where
//! groups overlap, the site may receive much that depends on a message which it lacks, of senders
//! that do not keep that one: they are in none of its groups. All that would take the room that the
//! message needs. So once a site keeps much, it acknowledges a cast when it has delivered it, and
//! the pace of its sender holds. The rules cannot tell that from a network that is slow.
use cast_events::Outs;
use cast_sending::WaitingAcks;
use std::alloc::Global;
use std::sync::atomic::{AtomicU64, Ordering};
use std::sync::{Mutex, Wait};

/// The acknowledgements that wait.
#[derive(Drop)]
pub struct Acknowledgements {
    waiting: Mutex<WaitingAcks>,
    // How many wait, as far as a thread without the lock knows.
    count: AtomicU64,
}

impl Acknowledgements {
    /// None waits.
    pub fn new(alloc: Global) -> Self {
        Acknowledgements {
            waiting: Mutex::new(WaitingAcks::new(alloc)),
            count: AtomicU64::new(0),
        }
    }

    // Lets threads without the lock know how many wait.
    fn tell(&self, waiting: &WaitingAcks) {
        self.count.store(waiting.count() as u64, Ordering::SeqCst);
    }

    /// An event received a message where there is little room. Its acknowledgement waits, if the
    /// event did not deliver the message too; without memory it goes at once.
    pub fn hold<R: Wait>(&self, rt: &R, outs: &Outs) {
        let mut waiting = self.waiting.lock(rt);
        let _ = waiting.hold(outs);
        self.tell(&waiting);
    }

    /// Adds the acknowledgements of the messages that an event delivered to its frames, and leaves
    /// out those that wait still. Answers how many are lost for want of memory.
    pub fn pass<R: Wait>(&self, rt: &R, outs: &mut Outs) -> u64 {
        if self.count.load(Ordering::SeqCst) == 0 {
            return 0;
        }
        let mut waiting = self.waiting.lock(rt);
        let lost = waiting.pass(outs);
        self.tell(&waiting);
        lost
    }
}
