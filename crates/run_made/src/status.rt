//! The statuses of a run that are looked at here.

/// Each operation succeeded.
pub const WELL: u8 = 0;
/// An operation was refused.
pub const REFUSED: u8 = 1;
/// The words of the command line are refused.
pub const WORDS_REFUSED: u8 = 2;
/// The source failed.
pub const READ_FAULT: u8 = 4;
/// The sink failed.
pub const WRITE_FAULT: u8 = 5;
/// The link is lost.
pub const LINK_LOST: u8 = 6;
/// Out of memory outside an operation.
pub const NO_MEMORY: u8 = 7;
