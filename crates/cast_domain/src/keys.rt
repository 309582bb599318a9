ghost use Rattle.std.specs.Prelude.{◌≡◌};
ghost use Rattle.cast_rules.specs.Rules.Home.{wants};
ghost use Rattle.cast_rules.specs.Rules.Keys.{ask_key, home_key, id_in, message_key, want_key};
ghost use Rattle.cast_rules.specs.Rules.Asking.{request};

use cast_timer::{OwedKey, OwedKind, Side};
use cast_types::{GroupNo, Proc, SiteNo, Uid};

/// The first request of a group, owed to the home.
pub fn ask_key(group: GroupNo, home: SiteNo) -> OwedKey
    ensures { result ≡ ask_key group home }
{
    OwedKey {
        kind: OwedKind::Ask,
        group,
        proc: Proc {
            site: SiteNo(0),
            serial: 0,
        },
        count: 0,
        site: home,
        side: Side::Site,
    }
}

/// A frame of a kind about a group alone, which the home owes to a site.
pub fn home_key(kind: OwedKind, group: GroupNo, to: SiteNo) -> OwedKey
    ensures { result ≡ home_key kind group to }
{
    OwedKey {
        kind,
        group,
        proc: Proc {
            site: SiteNo(0),
            serial: 0,
        },
        count: 0,
        site: to,
        side: Side::Home,
    }
}

/// A message of a group, by its process and its count, which the home wants from a site.
pub fn want_key(group: GroupNo, wanted: (SiteNo, (Proc, u32))) -> OwedKey
    ensures { result ≡ want_key group wanted }
{
    let (site, (proc, count)) = wanted;
    OwedKey {
        kind: OwedKind::Want,
        group,
        proc,
        count,
        site,
        side: Side::Home,
    }
}

/// A frame of a kind about a message, owed to a site.
pub fn message_key(kind: OwedKind, id: Uid, to: SiteNo) -> OwedKey
    ensures { result ≡ message_key kind id to }
{
    OwedKey {
        kind,
        group: id.group,
        proc: id.proc,
        count: id.count,
        site: to,
        side: Side::Site,
    }
}

// The message that a key is about, in a view of its group.
pub fn id_in(view: u32, key: &OwedKey) -> Uid
    ensures { result ≡ id_in view key.now }
{
    Uid {
        group: key.group,
        view,
        proc: key.proc,
        count: key.count,
    }
}
