ghost use Rattle.std.specs.Prelude.{◌≡◌};
ghost use Rattle.cast_domain.specs.Shared.{part_of};
ghost use Rattle.cast_table.specs.Backlogs.{oldest_of};

use cast_domain::Shared;
use cast_types::{DomainNo, Key};

// The key of the message that was received first of those that a domain keeps.
pub(crate) fn oldest_in(shared: &Shared, domain: DomainNo) -> Option<Key>
    ensures { result ≡ oldest_of (part_of domain shared.now) }
{
    let messages = shared.store.messages(domain);
    if messages.len() == 0 {
        return None;
    }
    let (key, _) = messages.at(0);
    Some(key)
}
