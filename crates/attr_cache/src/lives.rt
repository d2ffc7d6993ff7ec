//! How long attributes are believed.

ghost use Rattle.std.specs.Prelude.{◌≡◌};
ghost use Rattle.attr_cache.specs.Attrs.{shortest, longest};

use nfs_types::Attr;

/// The bounds of the time for which attributes are believed, in milliseconds (nfs(5), acregmin, acregmax, acdirmin
/// and acdirmax).
#[derive(Clone, Copy, Debug, PartialEq, Eq)]
pub struct Lives {
    /// The first lifetime of what isn't a directory.
    pub reg_min: u64,
    /// The longest lifetime of what isn't a directory.
    pub reg_max: u64,
    /// The first lifetime of a directory.
    pub dir_min: u64,
    /// The longest lifetime of a directory.
    pub dir_max: u64,
}

impl Lives {
    /// The kind of a directory (RFC 1813, section 2.5, ftype3).
    const DIRECTORY: u32 = 2;

    /// The first lifetime of attributes.
    pub(crate) fn shortest(&self, attr: &Attr) -> u64
        ensures { result ≡ shortest self.now attr.now }
    {
        if attr.kind == Lives::DIRECTORY {
            self.dir_min
        } else {
            self.reg_min
        }
    }

    /// The longest lifetime of attributes.
    pub(crate) fn longest(&self, attr: &Attr) -> u64
        ensures { result ≡ longest self.now attr.now }
    {
        if attr.kind == Lives::DIRECTORY {
            self.dir_max
        } else {
            self.reg_max
        }
    }
}
