//! The exit statuses of a program that stops for a fault of a run.

/// The sources are refused.
pub const SOURCES_STATUS: u8 = 1;

/// Reading or writing fails, or the index would be too large.
pub const STREAM_STATUS: u8 = 3;

/// Memory ran out, or a thread could not be started.
pub const MEMORY_STATUS: u8 = 4;
