//! The status of a reply.

/// The status of a reply (RFC 1813, section 2.5, nfsstat3): 0 if the call was done, another number if it
/// failed. Any number is kept as it is.
#[derive(Clone, Copy, Debug, PartialEq, Eq)]
pub struct Status(pub u32);
