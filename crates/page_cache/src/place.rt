//! Where a page is.

ghost use Rattle.std.specs.Prelude.{◌≡◌};
ghost use Rattle.std.specs.Cmp.Lexicographic.{pointwise};
ghost use Rattle.page_cache.specs.Pages.{is_place};

use nfs_types::Handle;

/// A page of a file.
#[derive(Clone, Copy, Debug, PartialEq, Eq)]
pub struct PagePlace {
    /// The file.
    pub file: Handle,
    /// The page's number: it begins at 4,096 times this.
    pub index: u64,
}
