//! What a WRITE or SETATTR that failed leaves of the kept pages of its file.

ghost use Rattle.std.specs.Prelude.{◌≡◌, []};
ghost use Rattle.page_cache.specs.Pages.{wrote};
ghost use Rattle.file_ops.specs.Saves.{untold, pages_failed};

use client_shelf::unmade::is_unmade;
use nfs_types::{Handle, Wcc};
use page_cache::PageCache;
use world_model::Fault;

/// The call failed: the pages are dropped, since it isn't known what the file has now. They stay if the call couldn't be
/// made.
pub(crate) fn note_failed(file: &Handle, fault: &Fault, moment: u64, pages: &mut PageCache)
    ensures { pages.new ≡ pages_failed file.now moment fault.now pages.old }
{
    if is_unmade(fault) {
        return;
    }
    drop_pages(file, moment, pages);
}

/// It isn't known what the file has now.
pub(crate) fn drop_pages(file: &Handle, moment: u64, pages: &mut PageCache)
    ensures { pages.new ≡ wrote file.now untold 0 [] moment pages.old }
{
    let untold = Wcc {
        before: None,
        after: None,
    };
    pages.wrote(file, &untold, 0, &[], moment);
}
