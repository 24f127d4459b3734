//! The exit statuses of the program.

/// The answer was written.
pub const DONE: u8 = 0;
/// The input is refused.
pub const REFUSED: u8 = 1;
/// The command line has a mistake.
pub const USAGE: u8 = 2;
/// Memory ran out, or a file could not be opened, read or written.
pub const FAILED: u8 = 3;
