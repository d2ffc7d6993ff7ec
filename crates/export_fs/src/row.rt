//! Entries of directories.

use nfs_types::Name;

/// A name in a directory, the place of the object that has it in order of making, and its cookie (RFC 1813, section
/// 3.3.17).
#[derive(Clone, Copy, Drop)]
pub struct Row {
    /// The name.
    pub name: Name,
    /// The place of the object, which is its number less 1.
    pub place: u32,
    /// The cookie, 1 or more.
    pub cookie: u64,
}
