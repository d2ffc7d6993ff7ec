//! Pages in slots, by their last use.

ghost use Rattle.std.specs.Bool.{OnFalse};
ghost use Rattle.std.specs.Prelude.{◌≡◌, ◌≤◌, ◌<◌, ℕ, None, Some, length, map, slice_get, option_map, IfOk, IfSome};
ghost use Rattle.std.specs.Borrow.{sem};
ghost use Rattle.std.specs.List.{IsDistinct};
ghost use Rattle.std.specs.Map.{lookup, keys_of};
ghost use Rattle.lru.specs.LruCache.{promoted};
ghost use Rattle.page_cache.specs.Bytes.{put_page, cut_page};
ghost use Rattle.page_cache.specs.Pages.{is_place, fronted, without_file, changed_page};
ghost use Rattle.page_cache.specs.Slots.{AreAll, IsSlotFor, no_pages};
ghost use Rattle.page_cache.specs.Full.{FullBelow};
ghost use Rattle.page_cache.specs.Sound.{same_place};

use crate::page::Page;
use crate::page_room::PageRoom;
use crate::place::PagePlace;
use crate::places::Places;
use lru::LruCache;
use nfs_types::Handle;
use std::alloc::Global;
use std::marker::Model;
use std::num::NonZeroUsize;
use xdr_codec::Memory;

/// At most so many pages as there are slots. A new one takes the slot of one that was dropped, or else of the one that wasn't
/// used for the longest time.
#[derive(Drop)]
pub(crate) struct Slots {
    // By their last use, free ones at the end. All slots are always there, so that no call adds one.
    order: LruCache<usize, ()>,
    places: Places,
    pages: PageRoom,
}

impl Model for Slots {
    ghost use Rattle.std.specs.Prelude.{◌<◌, length};
    ghost use Rattle.page_cache.specs.Slots.{shown, IsSound, SlotPages};

    ghost Value = { SlotPages };

    ghost view = { λ s. record { room = length s.places; pages = shown s.order.entries s.places s.pages } };

    ghost invariant = { λ s. IsSound (length s.places) s.order.entries s.places s.pages × (0 < length s.places) };
}

impl Slots {
    ghost use Rattle.page_cache.specs.Ends.{shows_with};

    /// So many slots, from 1 to 65,536: no page, and the memory of all.
    pub(crate) fn new(alloc: Global, room: usize) -> Result<Slots, Memory>
        requires least { 1 ≤ room }
        requires most { room ≤ 65536 }
        ensures { IfOk result (λ s. s ≡ no_pages room) }
    {
        Ok(Slots {
            order: all_slots(alloc, room)?,
            places: Places::new(alloc, room)?,
            pages: PageRoom::for_pages(alloc, room)?,
        })
    }

    /// How many slots there are.
    pub(crate) fn room(&self) -> usize
        ensures { result ≡ self.now.room }
    {
        self.pages.len()
    }

    /// No page is there twice, and there are at most so many as slots: a fact for proofs.
    pub(crate) fn are_apart(&self)
        ensures few { length self.now.pages ≤ self.now.room }
        ensures apart { IsDistinct same_place (keys_of self.now.pages) }
    {
        let _order = &self.order;
    }

    /// Shows a page, and moves it to the front; None exactly if it isn't there.
    pub(crate) fn show(&mut self, file: &Handle, index: u64) -> Option<&[u8]>
        ensures* ends { sem 𝓛 (shows_with self.entry (record self.old { pages = promoted (is_place file.now index) self.old.pages })) }
        ensures gives { option_map (λ bytes. bytes.now) result ≡ lookup (is_place file.now index) self.old.pages }
    {
        let slot = self.places.find(file, index)?;
        self.order.promote(&slot);
        Some(self.pages.bytes(slot))
    }

    /// Whether there is a page of a file with this number or a higher one.
    pub(crate) fn keeps_from(&mut self, file: &Handle, low: u64) -> bool
        ensures none { OnFalse result ((index : ℕ) → low ≤ index → lookup (is_place file.now index) self.old.pages ≡ None) }
        ensures same { self.new ≡ self.old }
    {
        self.places.keeps_from(file, low)
    }

    /// The n-th page from the front, from 0 on; None exactly if there are at most so many.
    pub(crate) fn nth(&self, n: usize) -> Option<(PagePlace, &[u8])>
        ensures { option_map (λ p. (p.0, p.1.now)) result ≡ slice_get self.now.pages n }
    {
        let slot = slot_at(&self.order, n)?;
        let place = self.places.at(slot)?;
        Some((place, self.pages.bytes(slot)))
    }

    /// The page in a slot, by its number from 0 on; None if the slot is free or isn't there.
    pub(crate) fn in_slot(&self, slot: usize) -> Option<(PagePlace, &[u8])>
        ensures { IfSome result (λ p. (n : ℕ) × (slice_get self.now.pages n ≡ Some (p.0, p.1.now))) }
    {
        if slot >= self.pages.len() {
            return None;
        }
        let place = self.places.at(slot)?;
        Some((place, self.pages.bytes(slot)))
    }

    /// Puts a page in front, in place of an earlier one. If each slot has another page, the last one goes.
    pub(crate) fn put_in_front(&mut self, place: PagePlace, bytes: &[u8])
        requires { length bytes.now ≤ 4096 }
        ensures { self.new ≡ record self.old { pages = fronted self.old.room place bytes.now self.old.pages } }
    {
        let slot = slot_for(&mut self.places, &self.order, &place);
        self.places.hold(slot, place);
        self.pages.put(slot, bytes);
        self.order.promote(&slot);
    }

    /// Drops all pages of a file.
    pub(crate) fn drop_file(&mut self, file: &Handle)
        ensures { self.new ≡ record self.old { pages = without_file file.now self.old.pages } }
    {
        let run = self.places.slots_of(file, 0, None);
        for slot in run {
            self.order.demote(&(*slot as usize));
        }
        self.places.free_file(file);
    }

    /// Changes each page of a file as a WRITE of these bytes at this offset does. Pages below `full_below` are whole. It
    /// looks at the pages from there, or from the first one written, up to the last one written.
    pub(crate) fn write_file(&mut self, file: &Handle, full_below: u64, offset: u64, bytes: &[u8])
        requires { FullBelow file.now full_below self.old.pages }
        ensures { self.new ≡ record self.old { pages = map (changed_page file.now (λ index. put_page index offset bytes.now)) self.old.pages } }
    {
        let low = full_below.min(Page::holding(offset));
        let high = Page::after(offset, bytes);
        let run = self.places.slots_of(file, low, Some(high));
        for slot in run {
            let slot = *slot as usize;
            let index = self.places.index_in(slot, file);
            self.pages.write_at(slot, index, offset, bytes);
        }
    }

    /// Changes each page of a file as a new size does. Pages below `full_below` are whole. It looks at the pages from there,
    /// or from the one in which the file ends.
    pub(crate) fn cut_file(&mut self, file: &Handle, full_below: u64, size: u64)
        requires { FullBelow file.now full_below self.old.pages }
        ensures { self.new ≡ record self.old { pages = map (changed_page file.now (λ index. cut_page index size)) self.old.pages } }
    {
        let low = full_below.min(Page::holding(size));
        let run = self.places.slots_of(file, low, None);
        for slot in run {
            let slot = *slot as usize;
            let index = self.places.index_in(slot, file);
            self.pages.cut_at(slot, index, size);
        }
    }
}

/// The slot that holds a page, or else the last one.
fn slot_for(places: &mut Places, order: &LruCache<usize, ()>, place: &PagePlace) -> usize
    requires { 0 < length order.now.entries }
    ensures chosen { IsSlotFor (length places.old) order.now.entries places.old place.now result }
    ensures same { places.new ≡ places.old }
{
    match places.find(&place.file, place.index) {
        Some(slot) => slot,
        None => *order.peek_lru().unwrap().0,
    }
}

/// The n-th slot from the front.
fn slot_at(order: &LruCache<usize, ()>, n: usize) -> Option<usize>
    ensures { result ≡ option_map (λ e. e.0) (slice_get order.now.entries n) }
{
    match order.iter().nth(n) {
        Some((slot, _)) => Some(*slot),
        None => None,
    }
}

/// All slots, in an order that says nothing.
fn all_slots(alloc: Global, count: usize) -> Result<LruCache<usize, ()>, Memory>
    requires { 1 ≤ count }
    ensures { IfOk result (λ order. AreAll count order.entries) }
{
    let most = NonZeroUsize::new(count).unwrap();
    let mut order = LruCache::new(alloc, most)?;
    for slot in 0..count {
        order.put(slot, ())?;
    }
    Ok(order)
}
