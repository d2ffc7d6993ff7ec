//! What is known of an open.

use nfs_types::{Handle, Mode, Name};

/// What is known of an open.
#[derive(Clone, Copy, Debug, PartialEq, Eq)]
pub struct Opened {
    /// The file.
    pub file: Handle,
    /// The directory in which its name was found or made.
    pub dir: Handle,
    /// That name.
    pub name: Name,
    /// What the open is for.
    pub mode: Mode,
    /// The moment of the open: replies to calls that were made at it or before say nothing of the file since then.
    pub mark: u64,
}
