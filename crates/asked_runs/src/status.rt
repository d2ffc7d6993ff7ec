//! The statuses with which such a session ends.

/// Before the first script.
pub const WELL: u8 = 0;
/// The session is lost.
pub const LINK_LOST: u8 = 6;
/// Out of memory outside an operation.
pub const NO_MEMORY: u8 = 7;
/// The mount is refused.
pub const MOUNT_REFUSED: u8 = 8;
