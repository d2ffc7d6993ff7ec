//! Storing the pages that a cache keeps.

ghost use Rattle.std.specs.Prelude.{◌≡◌, ◌≤◌, ℕ, List, length};
ghost use Rattle.page_store.specs.Disk.{LeavesOnly};
ghost use Rattle.page_store.specs.Slots.{IsSound};
ghost use Rattle.page_store.specs.Store.{Stands};
ghost use Rattle.page_store.specs.Faults.{HasStoreCause};
ghost use Rattle.page_store.specs.Rounds.{IsUnderWay};
ghost use Rattle.page_store.specs.Pages.{shows_page};
ghost use Rattle.page_cache.specs.Pages.{Pages};
ghost use Rattle.kept_pages.specs.Kept.{KeepsOrKept, IsKept, AreKept, Fills};

use crate::planning::plan_for;
use nfs_types::KeptPage;
use page_cache::PageCache;
use page_store::{Disk, PageStore, StoreFault};
use std::alloc::Global;

/// The most bytes of a page.
const PAGE: usize = 4096;

/// Stores the pages that a cache keeps, in one round. A page that a slot has stays there. The others go into the first slots that
/// have no page of the cache, as far as there are such slots: always, if the cache has room for at most as many pages as there
/// are slots. All other slots that show a page are closed. If nothing changes, no call of the disk is made. A crash at any moment
/// leaves in each slot a page that stood there before, or one that the cache keeps.
pub fn store_kept<D: Disk + Drop>(
    alloc: Global,
    cache: &PageCache,
    store: &mut PageStore<D>,
) -> Result<(), StoreFault>
    ensures safe { D.tells store.old.disk → (n : ℕ) → length store.old.pages ≤ n → IsSound n (D.may_leave store.old.disk)
        → IsSound n (D.may_leave store.new.disk) }
    ensures any_moment { D.tells store.old.disk → (n : ℕ) → length store.old.pages ≤ n → IsSound n (D.may_leave store.old.disk)
        → LeavesOnly D.moment D.left_since store.old.disk store.new.disk
        (KeepsOrKept n (length store.old.pages) cache.now (D.may_leave store.old.disk)) }
    ensures stands { D.tells store.old.disk → IsSound (length store.old.pages) (D.may_leave store.old.disk)
        → Stands (D.may_leave store.old.disk) store.old.pages → Stands (D.may_leave store.new.disk) store.new.pages }
    ensures count { length store.new.pages ≡ length store.old.pages }
    ensures label { store.new.label ≡ store.old.label }
    ensures goes_on { D.tells store.old.disk → D.tells store.new.disk }
    ensures cause { HasStoreCause (D.faults store.old.disk) (D.faults store.new.disk) result }
{
    let Ok(planned) = plan_for(alloc, cache, store) else {
        return Err(StoreFault::Memory);
    };
    if planned.slots.is_empty() {
        return Ok(());
    }
    match store.begin(planned.slots.as_slice()) {
        Ok(()) => {}
        Err(fault) => return Err(fault),
    }
    match fill_all(
        cache,
        store,
        planned.slots.as_slice(),
        planned.pages.as_slice(),
    ) {
        Ok(()) => {}
        Err(fault) => return Err(fault),
    }
    store.finish()
}

/// Fills each slot of a round with the page in the slot of the cache that stands at the same place of the second list.
fn fill_all<D: Disk + Drop>(
    cache: &PageCache,
    store: &mut PageStore<D>,
    slots: &[u32],
    pages: &[usize],
) -> Result<(), StoreFault>
    ensures fills { D.tells store.old.disk → (n : ℕ) → length store.old.pages ≤ n → IsSound n (D.may_leave store.old.disk)
        → IsUnderWay (D.seen store.old.disk) (D.may_leave store.old.disk) store.old.round
        → Fills D.seen D.may_leave D.moment D.left_since n store.old store.new }
    ensures kept { AreKept cache.now store.old.round → AreKept cache.now store.new.round }
    ensures short { length store.new.round ≤ length store.old.round }
    ensures pages { store.new.pages ≡ store.old.pages }
    ensures label { store.new.label ≡ store.old.label }
    ensures goes_on { D.tells store.old.disk → D.tells store.new.disk }
    ensures cause { HasStoreCause (D.faults store.old.disk) (D.faults store.new.disk) result }
{
    for at in 0..slots.len().min(pages.len()) {
        match fill_from(cache, store, slots[at], pages[at]) {
            Ok(()) => {}
            Err(fault) => return Err(fault),
        }
    }
    Ok(())
}

/// Fills a slot of a round with the page in a slot of the cache.
fn fill_from<D: Disk + Drop>(
    cache: &PageCache,
    store: &mut PageStore<D>,
    slot: u32,
    from: usize,
) -> Result<(), StoreFault>
    ensures fills { D.tells store.old.disk → (n : ℕ) → length store.old.pages ≤ n → IsSound n (D.may_leave store.old.disk)
        → IsUnderWay (D.seen store.old.disk) (D.may_leave store.old.disk) store.old.round
        → Fills D.seen D.may_leave D.moment D.left_since n store.old store.new }
    ensures kept { AreKept cache.now store.old.round → AreKept cache.now store.new.round }
    ensures short { length store.new.round ≤ length store.old.round }
    ensures pages { store.new.pages ≡ store.old.pages }
    ensures label { store.new.label ≡ store.old.label }
    ensures goes_on { D.tells store.old.disk → D.tells store.new.disk }
    ensures cause { HasStoreCause (D.faults store.old.disk) (D.faults store.new.disk) result }
{
    match cache.slot_page(from) {
        Some(page) => fill_with(store, slot, &page),
        None => Ok(()),
    }
}

/// Fills a slot of a round with a page, unless it is too long.
fn fill_with<D: Disk + Drop>(
    store: &mut PageStore<D>,
    slot: u32,
    page: &KeptPage<'_>,
) -> Result<(), StoreFault>
    ensures fills { D.tells store.old.disk → (n : ℕ) → length store.old.pages ≤ n → IsSound n (D.may_leave store.old.disk)
        → IsUnderWay (D.seen store.old.disk) (D.may_leave store.old.disk) store.old.round
        → Fills D.seen D.may_leave D.moment D.left_since n store.old store.new }
    ensures kept { (c : Pages) → IsKept c (shows_page page.now) → AreKept c store.old.round → AreKept c store.new.round }
    ensures short { length store.new.round ≤ length store.old.round }
    ensures pages { store.new.pages ≡ store.old.pages }
    ensures label { store.new.label ≡ store.old.label }
    ensures goes_on { D.tells store.old.disk → D.tells store.new.disk }
    ensures cause { HasStoreCause (D.faults store.old.disk) (D.faults store.new.disk) result }
{
    if page.bytes.len() > PAGE {
        return Ok(());
    }
    match store.fill(slot, &page.file, &page.stamp, page.index, page.bytes) {
        Ok(_) => Ok(()),
        Err(fault) => Err(fault),
    }
}
