//! Which pages of a cache go into which slots of a store.

use indexmap::IndexMap;
use nfs_types::{Handle, KeptPage};
use page_cache::PageCache;
use page_store::{Disk, PageStore};
use std::alloc::Global;
use xdr_codec::Memory;

/// What is to be stored.
#[derive(Drop)]
pub(crate) struct Plan {
    /// The slots that change. Those behind as many as there are pages are only closed.
    pub(crate) slots: Vec<u32>,
    /// The slots of the cache whose pages go into the first of them, in their order.
    pub(crate) pages: Vec<usize>,
}

/// The pages of a cache that no slot has, and slots for them: those that have no page of the cache, as far as there are any. A
/// slot whose page the cache doesn't keep changes in any case.
pub(crate) fn plan_for<D: Disk + Drop>(
    alloc: Global,
    cache: &PageCache,
    store: &PageStore<D>,
) -> Result<Plan, Memory> {
    let places = places_of(alloc, store)?;
    let mut stays = vec![in alloc; false; store.count() as usize]?;
    let mut pages = Vec::new(alloc);
    let room = cache.room();
    for done in 0..room {
        // Pages take the cache's slots from the first on, so the last ones mostly have the pages that were used last.
        choose(
            cache,
            store,
            &places,
            room - 1 - done,
            &mut stays,
            &mut pages,
        )?;
    }
    let slots = changing(alloc, store, &stays, pages.len())?;
    Ok(Plan { slots, pages })
}

/// The page in a slot of the cache: if a slot of the store has it, that one keeps it; else it is to be stored.
fn choose<D: Disk + Drop>(
    cache: &PageCache,
    store: &PageStore<D>,
    places: &IndexMap<(Handle, u64), u32>,
    from: usize,
    stays: &mut Vec<bool>,
    pages: &mut Vec<usize>,
) -> Result<(), Memory> {
    let Some(page) = cache.slot_page(from) else {
        return Ok(());
    };
    match slot_with(store, places, &page) {
        Some(slot) => mark(stays, slot as usize),
        None => pages.push(from)?,
    }
    Ok(())
}

/// Where each page is that a store shows, by its file and number.
fn places_of<D: Disk + Drop>(
    alloc: Global,
    store: &PageStore<D>,
) -> Result<IndexMap<(Handle, u64), u32>, Memory> {
    let mut places = IndexMap::new(alloc);
    for slot in 0..store.count() {
        if let Some(place) = place_in(store, slot) {
            places.insert(place, slot)?;
        }
    }
    Ok(places)
}

/// The file and the number of the page that a slot shows, if it shows one.
fn place_in<D: Disk + Drop>(store: &PageStore<D>, slot: u32) -> Option<(Handle, u64)> {
    match store.slot_page(slot) {
        Some(page) => Some((page.file, page.index)),
        None => None,
    }
}

/// The slot that shows this very page, if the table has it.
fn slot_with<D: Disk + Drop>(
    store: &PageStore<D>,
    places: &IndexMap<(Handle, u64), u32>,
    page: &KeptPage<'_>,
) -> Option<u32> {
    let slot = *places.get(&(page.file, page.index))?;
    if shows(store, slot, page) {
        Some(slot)
    } else {
        None
    }
}

/// Whether a slot shows a page with these bytes under this stamp.
fn shows<D: Disk + Drop>(store: &PageStore<D>, slot: u32, page: &KeptPage<'_>) -> bool {
    match store.slot_page(slot) {
        Some(shown) => shown.stamp == page.stamp && shown.bytes == page.bytes,
        None => false,
    }
}

/// A slot keeps its page.
fn mark(stays: &mut Vec<bool>, slot: usize) {
    if slot < stays.len() {
        stays[slot] = true;
    }
}

/// Whether a slot keeps its page.
fn is_marked(stays: &[bool], slot: u32) -> bool {
    match stays.get(slot as usize) {
        Some(stay) => *stay,
        None => false,
    }
}

/// The slots that don't keep their page, in their order: so many, and of the others those that show one.
fn changing<D: Disk + Drop>(
    alloc: Global,
    store: &PageStore<D>,
    stays: &[bool],
    most: usize,
) -> Result<Vec<u32>, Memory> {
    let mut slots = Vec::new(alloc);
    for slot in 0..store.count() {
        if !is_marked(stays, slot) && (slots.len() < most || place_in(store, slot).is_some()) {
            slots.push(slot)?;
        }
    }
    Ok(slots)
}
