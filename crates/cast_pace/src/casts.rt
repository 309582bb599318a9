ghost use Rattle.std.specs.Prelude.{◌≡◌, ◌+◌, ◌<◌, ◌≤◌, ◌++◌, [], ◌∷◌, Contains, length, true};
ghost use Rattle.std.specs.Prelude.{false, IfSome, IfNone};
ghost use Rattle.cast_index.specs.Rises.{all_below};
ghost use Rattle.cast_pace.specs.Following.{KeysRise, Remembers, following, may_go_on};

use std::alloc::Global;
use std::marker::Model;

/// The casts of a domain that a site served last, each by the key of its message. Contracts see the
/// list of keys, which rise.
#[derive(Drop)]
pub struct Casts {
    latest: Vec<u64>,
}

impl Model for Casts {
    ghost use Rattle.std.specs.Prelude.{ℕ, List};
    ghost use Rattle.cast_pace.specs.Following.{KeysRise};

    ghost Value = { List ℕ };

    ghost view = { λ c. c.latest.items };

    ghost invariant = { λ c. KeysRise c.latest.items };
}

// Whether a key is above all of these.
fn is_above(casts: &[u64], key: u64) -> bool
    requires { KeysRise casts.now }
    ensures { result ≡ true → all_below (λ k. k) key casts.now ≡ true }
{
    casts.is_empty() || casts[casts.len() - 1] < key
}

// Remembers a cast behind these, as `Casts::note` does.
fn note_in(casts: &mut Vec<u64>, key: u64, most: u32) -> bool
    requires { KeysRise casts.old.items }
    ensures rise { KeysRise casts.new.items }
    ensures noted { result ≡ true → Remembers key most casts.old.items casts.new.items }
    ensures refused { result ≡ false → casts.new.items ≡ casts.old.items }
{
    if !is_above(casts, key) || casts.push(key).is_err() {
        return false;
    }
    if casts.len() > most as usize {
        casts.remove(0);
    }
    true
}

// The one of these that the next cast awaits, as `Casts::awaited` says.
fn awaited_in(casts: &[u64], oldest: u64, window: u32) -> Option<u64>
    requires rise { KeysRise casts.now }
    requires some { 0 < window }
    ensures some { IfSome result (λ key. (window ≤ following oldest casts.now)
        × Contains casts.now key × (following key casts.now < window)) }
    ensures none { IfNone result (following oldest casts.now < window) }
{
    let window = window as usize;
    if casts.len() < window {
        return None;
    }
    let first = casts.len() - window;
    if casts[first] <= oldest {
        return None;
    }
    Some(casts[first + window / 4])
}

impl Casts {
    /// No cast was served.
    pub fn new(alloc: Global) -> Self
        ensures { result ≡ [] }
    {
        Casts {
            latest: Vec::new(alloc),
        }
    }

    /// Remembers a cast whose key is above all others. Where more than `most` are remembered then,
    /// the earliest is forgotten. False if the key is not above, or there is no memory: then
    /// nothing changes.
    pub fn note(&mut self, key: u64, most: u32) -> bool
        ensures noted { result ≡ true → Remembers key most self.old self.new }
        ensures refused { result ≡ false → self.new ≡ self.old }
    {
        note_in(&mut self.latest, key, most)
    }

    /// Where `window` casts or more follow the message under the key `oldest`, the next one has to
    /// wait: until no message is kept any more that is older than the one under this key. `None`
    /// where fewer follow.
    pub fn awaited(&self, oldest: u64, window: u32) -> Option<u64>
        requires { 0 < window }
        ensures some { IfSome result (λ key. (window ≤ following oldest self.now)
            × Contains self.now key × (following key self.now < window)) }
        ensures none { IfNone result (following oldest self.now < window) }
    {
        awaited_in(&self.latest, oldest, window)
    }
}

/// Whether casts wait that may go on: until no message is kept any more that is older than the one
/// under the key `awaited`, as `Casts::awaited` says. `None` where none waits. The oldest message
/// that is kept has the key `oldest`; `None` where none is kept.
pub fn may_go_on(awaited: Option<u64>, oldest: Option<u64>) -> bool
    ensures { result ≡ may_go_on awaited oldest }
{
    match (awaited, oldest) {
        (Some(awaited), Some(oldest)) => awaited <= oldest,
        (Some(_), None) => true,
        (None, _) => false,
    }
}
