//! The statuses with which a run ends if no line of its script begins.

/// The words of the command line are refused.
pub const WORDS_REFUSED: u8 = 2;
/// The script is refused.
pub const SCRIPT_REFUSED: u8 = 3;
/// The source failed.
pub const READ_FAULT: u8 = 4;
/// The sink failed.
pub const WRITE_FAULT: u8 = 5;
/// Out of memory outside an operation.
pub const NO_MEMORY: u8 = 7;
/// The mount is refused.
pub const MOUNT_REFUSED: u8 = 8;
