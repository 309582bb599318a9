ghost use Rattle.std.specs.Prelude.{◌≡◌, ◌<◌, ◌≤◌, max, min};
ghost use Rattle.cast_pace.specs.Windows.{IsFittingWindow, IsRoomBeside, IsWindow, is_crowded};

// What a datagram takes of the room of a socket, beside its bytes.
const OVERHEAD: u64 = 1_024;

// So many casts may follow the oldest message, however long they are.
const LEAST: u64 = 2;

/// How many casts of each of so many sites may follow the oldest message that it keeps, where a
/// site keeps at most `held` casts. All sites together then take half of the room that one has, and
/// the other half is for messages that set their order.
pub fn window_of(held: u32, sites: u16) -> u32
    ensures window { IsWindow held sites result }
{
    let parts = 2 * (u32::from(sites) + 1);
    (held / parts).max(1)
}

/// As `window_of`, if the next cast has so many bytes: fewer where long ones would not find room in
/// sockets that hold so many bytes of datagrams, but at least 2 if `window_of` allows that.
pub fn window_for(held: u32, sites: u16, room: u64, len: u32) -> u32
    requires others { 1 < sites }
    ensures window { IsFittingWindow held sites room len result }
{
    let each = 2 * (len as u64) + OVERHEAD;
    let fitting = room / (each * (sites as u64 - 1));
    let window = (window_of(held, sites) as u64).min(fitting.max(LEAST));
    window as u32
}

/// The lower one of two windows, and at least 1: each of them bounds how many casts may follow.
pub fn least_window(window: u32, other: u32) -> u32
    ensures { result ≡ max (min window other) 1 }
{
    window.min(other).max(1)
}

/// So many messages a site may keep, and there is room beside them for the windows of all sites:
/// for the oldest cast that each keeps, those that may follow it, and a message that sets the order
/// of each. A site that keeps more acknowledges a cast only once it has delivered it.
pub fn room_beside(held: u32, sites: u16) -> u32
    ensures { IsRoomBeside held sites result }
{
    let windows = 2 * (sites as u64 * (window_of(held, sites) as u64 + 1));
    (held as u64).saturating_sub(windows) as u32
}

/// Whether an event received a message, and since the oldest one that is kept then, with the key
/// `oldest`, more were received than there is room for. The next message had the key `before` ahead
/// of the event, and has `after` behind it. `None` where no message is kept.
pub fn is_crowded(before: u64, after: u64, oldest: Option<u64>, room: u32) -> bool
    ensures { result ≡ is_crowded before after oldest room }
{
    match oldest {
        Some(oldest) => after > before && after.saturating_sub(oldest) > u64::from(room),
        None => false,
    }
}
