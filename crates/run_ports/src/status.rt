//! The statuses with which a session ends before it begins.

/// The words of the command line are refused.
pub const WORDS_REFUSED: u8 = 2;
/// The sink failed.
pub const WRITE_FAULT: u8 = 5;
/// The link to the port mapper is lost.
pub const LINK_LOST: u8 = 6;
/// Out of memory outside an operation.
pub const NO_MEMORY: u8 = 7;
/// The port mapper told no port.
pub const NO_PORT: u8 = 10;
