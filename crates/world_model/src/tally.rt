//! How many calls a session made.

/// The numbers of a session's last line: all calls of NFS, each xid counted once, and those of five procedures among them.
#[derive(Clone, Copy, Debug, PartialEq, Eq)]
pub struct Tally {
    /// All calls.
    pub calls: u32,
    /// GETATTR.
    pub getattr: u32,
    /// LOOKUP.
    pub lookup: u32,
    /// READ.
    pub read: u32,
    /// WRITE.
    pub write: u32,
    /// COMMIT.
    pub commit: u32,
}
