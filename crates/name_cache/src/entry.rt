//! What is kept of a name.

ghost use Rattle.std.specs.Prelude.{◌≡◌};
ghost use Rattle.name_cache.specs.Names.{has_stamp};

use nfs_types::{Handle, Name, Stamp};

/// A name in a directory.
#[derive(Clone, Copy, Debug, PartialEq, Eq, Hash)]
pub struct Place {
    /// The directory.
    pub dir: Handle,
    /// The name.
    pub name: Name,
}

/// What a name stood for, and the state of its directory when that was told.
#[derive(Clone, Copy, Debug, PartialEq, Eq)]
pub struct KeptName {
    /// The directory's length and the times of its last changes.
    pub stamp: Stamp,
    /// The file or directory of that name.
    pub found: Handle,
}

impl KeptName {
    /// Whether the directory was in this state.
    pub(crate) fn has_stamp(&self, stamp: &Stamp) -> bool
        ensures { result ≡ has_stamp stamp.now self.now }
    {
        self.stamp == *stamp
    }
}
