//! The numbers of the procedures of MOUNT version 3 that a client needs (RFC 1813, section 5.2).

/// Section 5.2.0.
pub const NULL: u32 = 0;

/// Section 5.2.1.
pub const MNT: u32 = 1;

/// Section 5.2.3.
pub const UMNT: u32 = 3;

/// Section 5.2.5.
pub const EXPORT: u32 = 5;
