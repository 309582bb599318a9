/// Most members of a view, and so most counts of one group in a time.
pub const MAX_MEMBERS: usize = 64;

/// Most groups of a domain, and so most groups in a time.
pub const MAX_GROUPS: usize = 32;

/// Most sites of a domain.
pub const MAX_SITES: usize = 16;

/// Most domains of a daemon.
pub const MAX_DOMAINS: usize = 16;

/// Most bytes of a payload.
pub const MAX_PAYLOAD: usize = 16_384;

/// Most bytes of a frame between sites.
pub const MAX_SITE_FRAME: usize = 60_000;

/// Most bytes of a frame between a program and its daemon.
pub const MAX_CLIENT_FRAME: usize = 20_000;

/// Most ids of the order that an Install carries.
pub const MAX_ORDER: usize = 576;

/// Most ids of the order that a Flushed carries.
pub const MAX_TAIL: usize = 512;

/// Most kept messages that a Flushed names.
pub const MAX_KEPT: usize = 2_048;

/// Most ids whose places in a view's order one message sets.
pub const MAX_PLACED: usize = 64;

/// Most ABCASTs that a process delivers beyond the places that it has settled: those before its
/// first place, and those that its stable set-order messages set.
pub const MAX_UNSETTLED: usize = 512;

/// The last place of a view's order.
pub const MAX_POSITION: u32 = 4_000_000_000;

/// The last serial, view, count and request number. At it a number is not raised.
pub const MAX_NUMBER: u32 = 4_294_967_295;

/// Last moment of a domain, in milliseconds.
pub const MAX_MOMENT: u64 = 4_611_686_018_427_387_904;
