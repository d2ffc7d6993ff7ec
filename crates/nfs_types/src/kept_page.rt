//! A page of a file as a cache hands it out.

use crate::handle::Handle;
use crate::wcc::Stamp;

/// A kept page of a file.
#[derive(Clone, Copy, Debug, PartialEq, Eq)]
pub struct KeptPage<'a> {
    /// The file.
    pub file: Handle,
    /// The file's state under which the page is believed.
    pub stamp: Stamp,
    /// The page's number: it begins at 4,096 times this.
    pub index: u64,
    /// Its bytes.
    pub bytes: &'a [u8],
}
