/// Most sessions that a domain may be allowed.
pub const MOST_SESSIONS: u32 = 64;

/// Most kept messages that a domain may be allowed.
pub const MOST_HELD: u32 = 1_024;

/// Most entries that an outbox may be allowed.
pub const MOST_ENTRIES: u32 = 4_096;

/// Least milliseconds after which an owed frame may be sent again.
pub const LEAST_RESEND: u32 = 10;

/// Most milliseconds after which an owed frame may be sent again.
pub const MOST_RESEND: u32 = 60_000;
