//! Codes of I/O errors of the system, so that a test compares a whole error, and not only its kind.

/// The code of a call that was interrupted.
pub const INTERRUPTED: i32 = 4;

/// The code of a call for which the system has no memory.
pub const OUT_OF_MEMORY: i32 = 12;

/// The code of a write to a pipe that nobody reads.
pub const BROKEN_PIPE: i32 = 32;

/// The code of a read from a connection that was reset.
pub const CONNECTION_RESET: i32 = 104;
