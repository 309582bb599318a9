/// Most entries that one Take takes.
pub const MAX_TAKE: u32 = 256;

/// The last number of accepted casts. At it the number stays.
pub const MAX_CASTS: u64 = 18_446_744_073_709_551_615;
