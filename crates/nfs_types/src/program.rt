//! The numbers of the programs that a client calls.

/// The program NFS (RFC 1813, section 2.1).
pub const NFS_PROGRAM: u32 = 100_003;

/// The program MOUNT (RFC 1813, section 5.1).
pub const MOUNT_PROGRAM: u32 = 100_005;

/// The version of both.
pub const PROGRAM_VERSION: u32 = 3;
