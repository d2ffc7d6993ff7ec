//! The statuses with which a run of batches ends.

/// Each operation was done.
pub const WELL: u8 = 0;
/// The arguments are refused.
pub const WORDS_REFUSED: u8 = 2;
/// A batch is refused.
pub const BATCH_REFUSED: u8 = 3;
/// The source failed.
pub const READ_FAULT: u8 = 4;
/// The sink failed.
pub const WRITE_FAULT: u8 = 5;
/// The session is lost.
pub const LINK_LOST: u8 = 6;
/// Out of memory outside an operation.
pub const NO_MEMORY: u8 = 7;
