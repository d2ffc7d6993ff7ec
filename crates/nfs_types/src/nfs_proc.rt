//! The numbers of the procedures of NFS version 3 (RFC 1813, section 3.3).

/// Section 3.3.0.
pub const NULL: u32 = 0;

/// Section 3.3.1.
pub const GETATTR: u32 = 1;

/// Section 3.3.2.
pub const SETATTR: u32 = 2;

/// Section 3.3.3.
pub const LOOKUP: u32 = 3;

/// Section 3.3.4.
pub const ACCESS: u32 = 4;

/// Section 3.3.5.
pub const READLINK: u32 = 5;

/// Section 3.3.6.
pub const READ: u32 = 6;

/// Section 3.3.7.
pub const WRITE: u32 = 7;

/// Section 3.3.8.
pub const CREATE: u32 = 8;

/// Section 3.3.9.
pub const MKDIR: u32 = 9;

/// Section 3.3.10.
pub const SYMLINK: u32 = 10;

/// Section 3.3.11.
pub const MKNOD: u32 = 11;

/// Section 3.3.12.
pub const REMOVE: u32 = 12;

/// Section 3.3.13.
pub const RMDIR: u32 = 13;

/// Section 3.3.14.
pub const RENAME: u32 = 14;

/// Section 3.3.15.
pub const LINK: u32 = 15;

/// Section 3.3.16.
pub const READDIR: u32 = 16;

/// Section 3.3.17.
pub const READDIRPLUS: u32 = 17;

/// Section 3.3.18.
pub const FSSTAT: u32 = 18;

/// Section 3.3.19.
pub const FSINFO: u32 = 19;

/// Section 3.3.20.
pub const PATHCONF: u32 = 20;

/// Section 3.3.21.
pub const COMMIT: u32 = 21;
