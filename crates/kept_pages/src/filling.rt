//! A cache that begins with the pages of a store.

ghost use Rattle.std.specs.Prelude.{◌≡◌, ◌≤◌, ℕ, List, Option, Some, length, IfOk};
ghost use Rattle.std.specs.Bool.{OnTrue};
ghost use Rattle.page_store.specs.Pages.{StoredPage, shows_page};
ghost use Rattle.page_store.specs.Store.{shown_at};
ghost use Rattle.kept_pages.specs.Comes.{Comes, ArePages, IsFit, IsIn};

use nfs_types::KeptPage;
use page_cache::PageCache;
use page_store::{Disk, PageStore};
use std::alloc::Global;
use xdr_codec::Memory;

/// The bytes of a whole page.
const PAGE: u64 = 4096;

/// A cache with room for as many pages as the store has slots. It keeps pages of the store, those of the first slots in front.
/// A page is left out in these cases: it is not whole and doesn't end where its file ends; a later slot has a page of its file under
/// another stamp. Each file is known under the stamp of its pages, with the mark 0.
pub fn cache_of<D: Disk + Drop>(alloc: Global, store: &PageStore<D>) -> Result<PageCache, Memory>
    ensures comes { IfOk result (λ cache. Comes store.now.pages cache) }
    ensures room { IfOk result (λ cache. cache.room ≡ length store.now.pages) }
{
    let count = store.count();
    let mut cache = PageCache::with_room(alloc, count as usize)?;
    for done in 0..count {
        offer_slot(&mut cache, store, count - 1 - done)?;
    }
    Ok(cache)
}

/// Offers the page of a slot to a cache.
fn offer_slot<D: Disk + Drop>(
    cache: &mut PageCache,
    store: &PageStore<D>,
    slot: u32,
) -> Result<(), Memory>
    ensures pages { ArePages store.now.pages cache.old → ArePages store.now.pages cache.new }
    ensures room { cache.new.room ≡ cache.old.room }
{
    match store.slot_page(slot) {
        Some(page) => offer(cache, &page),
        None => Ok(()),
    }
}

/// Offers a page to a cache.
fn offer(cache: &mut PageCache, page: &KeptPage<'_>) -> Result<(), Memory>
    ensures pages { (slots : List (Option StoredPage)) (k : ℕ) → shown_at k slots ≡ Some (shows_page page.now) → ArePages slots cache.old
        → ArePages slots cache.new }
    ensures room { cache.new.room ≡ cache.old.room }
{
    if !is_fit(page) {
        return Ok(());
    }
    match learn(cache, page) {
        Ok(()) => {}
        Err(fault) => return Err(fault),
    }
    keep(cache, page);
    Ok(())
}

/// A file whose stamp isn't known is known under the stamp of the page.
fn learn(cache: &mut PageCache, page: &KeptPage<'_>) -> Result<(), Memory>
    ensures pages { (slots : List (Option StoredPage)) → ArePages slots cache.old → ArePages slots cache.new }
    ensures room { cache.new.room ≡ cache.old.room }
{
    match cache.stamp(&page.file) {
        Some(_) => Ok(()),
        None => cache.opened(&page.file, &page.stamp, 0),
    }
}

/// Keeps a page, unless its file is known under another stamp.
fn keep(cache: &mut PageCache, page: &KeptPage<'_>)
    requires { length page.now.bytes.now ≤ 4096 }
    ensures pages { (slots : List (Option StoredPage)) → IsIn slots page.now.file page.now.stamp page.now.index page.now.bytes.now → ArePages slots cache.old
        → ArePages slots cache.new }
    ensures room { cache.new.room ≡ cache.old.room }
{
    cache.is_sound();
    cache.keep(&page.file, &page.stamp, page.index, page.bytes, 1);
}

/// Whether a page is whole, or ends where its file ends. Then it has at most 4,096 bytes.
fn is_fit(page: &KeptPage<'_>) -> bool
    ensures fit { OnTrue result (IsFit page.now.stamp page.now.index page.now.bytes.now) }
    ensures long { OnTrue result (length page.now.bytes.now ≤ 4096) }
{
    let count = page.bytes.len() as u64;
    if count == PAGE {
        return true;
    }
    if count > PAGE {
        return false;
    }
    match page.index.checked_mul(PAGE) {
        Some(start) => start.checked_add(count) == Some(page.stamp.size),
        None => false,
    }
}
