/// Events in a trace before it is trimmed.
pub const MAX_TRACE: usize = 4096;
