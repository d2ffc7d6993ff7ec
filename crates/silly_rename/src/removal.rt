//! How a name is removed.

use nfs_types::Name;

/// How a name is removed. NFS version 3 has no open files (RFC 1813, section 1.5), so a server forgets a file with its
/// last name; a client that holds the file open gives it another name in place of removing it.
#[derive(Clone, Copy, Debug, PartialEq, Eq)]
pub enum Plan {
    /// By REMOVE.
    Direct,
    /// By RENAME to a name that no user chose.
    Rename {
        /// `.nfs` and eight hex digits.
        to: Name,
    },
}
