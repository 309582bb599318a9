//! Where a worker takes what is asked, and where it sends the answers.
ghost use Rattle.std.specs.Prelude.{[], ◌∷◌, List, None, IfSome, IfNone};
ghost use Rattle.std.specs.declared.option.Option.{Option};
ghost use Rattle.cast_pool.specs.declared.kept.Done.{Done};
ghost use Rattle.cast_events.specs.declared.asked.Raw.{Raw};
ghost use Rattle.cast_pool.specs.Posts.{Adds};

use crate::kept::Done;
use cast_events::Raw;
use crossbeam_channel::{Receiver, Sender};
use std::sync::Wait;

/// The two ends that a worker has: one from which it takes what is asked, one to which it sends
/// the answers.
pub trait Post {
    // All that was taken, at a type that tells of it.
    ghost taken: { Self → Option (List Raw) } = { λ _. None };

    // All that was sent, at a type that tells of it.
    ghost sent: { Self → Option (List Done) } = { λ _. None };

    // Nothing more can be taken, at a type that tells of it.
    ghost is_over: { Self → Type 0 } = { λ _. Unit {0} };

    /// Takes what is asked next, and waits for it. `None` where nothing more can come.
    fn take(&mut self) -> Option<Raw>
        ensures some { IfSome result (λ raw. Adds (taken self.old) (taken self.new) (raw ∷ [])) }
        ensures none { IfNone result (Adds (taken self.old) (taken self.new) []) }
        ensures over { IfNone result (is_over self.new) }
        ensures sent { Adds (sent self.old) (sent self.new) [] };

    /// Sends what came of something. What cannot be sent is dropped.
    fn send(&mut self, done: Done)
        ensures sent { Adds (sent self.old) (sent self.new) (done ∷ []) }
        ensures taken { Adds (taken self.old) (taken self.new) [] };
}

/// The ends of two channels.
#[derive(Drop)]
pub struct Channels<'a, R> {
    pub rt: &'a R,
    pub from: Receiver<Raw>,
    pub to: Sender<Done>,
}

impl<R: Wait> Post for Channels<'_, R> {
    fn take(&mut self) -> Option<Raw> {
        self.from.recv(self.rt).ok()
    }

    fn send(&mut self, done: Done) {
        hand_on(self.rt, &self.to, done);
    }
}

/// Hands something on. It is lost once nobody takes it.
// It is proved for any type at once: a call of the channel at a large type takes many times as long
// to prove.
pub fn hand_on<T: Drop, R: Wait>(rt: &R, to: &Sender<T>, what: T) {
    let _ = to.send(rt, what);
}
