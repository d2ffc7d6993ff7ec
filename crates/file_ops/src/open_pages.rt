//! What becomes of a file's kept pages when GETATTR shows its state.

ghost use Rattle.std.specs.Prelude.{◌≡◌, ◌≤◌};
ghost use Rattle.file_ops.specs.PagesOpened.{is_late, PagesOpened};

use client_shelf::Turn;
use nfs_types::{Attr, Handle, Wcc};
use page_cache::PageCache;
use xdr_codec::Memory;

/// An operation with its own moment is about to use a file in the state that a GETATTR showed. The step with the turn
/// `sent` made that call. If it was made too early to tell of the file, no state of the file is known.
pub(crate) fn open_pages(
    file: &Handle,
    attr: &Attr,
    moment: u64,
    sent: Turn,
    turn: Turn,
    pages: &mut PageCache,
) -> Result<(), Memory>
    requires { 1 ≤ turn.moment }
    ensures { PagesOpened file.now attr.now moment sent turn result pages.old pages.new }
{
    if is_late(file, sent.moment, pages) {
        let none = Wcc {
            before: None,
            after: None,
        };
        pages.wrote(file, &none, 0, &[], turn.moment - 1);
        return Ok(());
    }
    pages.opened(file, &attr.stamp(), moment)
}

/// Whether a GETATTR that was made at this moment is too old to tell of the file.
fn is_late(file: &Handle, sent: u64, pages: &PageCache) -> bool
    ensures { result ≡ is_late file.now sent pages.now }
{
    match pages.mark(file) {
        Some(mark) => sent <= mark,
        None => false,
    }
}
