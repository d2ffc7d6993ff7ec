//! Which page of which file each slot holds.

ghost use Rattle.std.specs.Bool.{OnFalse};
ghost use Rattle.std.specs.Prelude.{◌≡◌, ◌≢◌, ◌<◌, ◌≤◌, ℕ, IfOk, IfSome, None, Some, get_or, length, set, replicate, map};
ghost use Rattle.page_cache.specs.Slots.{holds_page, index_in, FindsPage, HoldsNone};
ghost use Rattle.page_cache.specs.Sorted.{freed, IsRun};

use crate::place::PagePlace;
use crate::sorted::{
    count_near, free_run, free_slot, give_slot, holder_at, holds, is_of_file_at, run_of,
};
use nfs_types::Handle;
use std::alloc::Global;
use std::marker::Model;
use xdr_codec::Memory;

/// The page that each of some slots holds, if any. No two slots hold the same page.
#[derive(Drop)]
pub(crate) struct Places {
    by_slot: Vec<Option<PagePlace>>,
    // The slots that hold pages, in the order of the pages. It has room for all, so that it never takes memory. A new page
    // moves many of them, so they are small.
    sorted: Vec<u16>,
    // Guesses, which may be wrong, as pages come in order and go in order: where in `sorted` the page belongs that is
    // looked for next, and where the slot stands that is freed next.
    near: usize,
    oldest: usize,
}

impl Model for Places {
    ghost use Rattle.std.specs.Prelude.{◌≤◌, List, length, Option};
    ghost use Rattle.std.specs.Vec.{vec_capacity};
    ghost use Rattle.page_cache.specs.declared.place.PagePlace.{PagePlace};
    ghost use Rattle.page_cache.specs.Sorted.{IsSorted};

    ghost Value = { List (Option PagePlace) };

    ghost view = { λ p. p.by_slot.items };

    ghost invariant = { λ p. IsSorted (length p.by_slot.items) p.by_slot.items p.sorted.items
        × (length p.by_slot.items ≤ vec_capacity p.sorted) × (length p.by_slot.items ≤ 65536) };
}

impl Places {
    /// So many slots, at most 65,536. Every slot is free.
    pub(crate) fn new(alloc: Global, count: usize) -> Result<Places, Memory>
        requires { count ≤ 65536 }
        ensures { IfOk result (λ p. p ≡ replicate count None) }
    {
        let mut by_slot = Vec::new(alloc);
        by_slot.resize(count, None)?;
        Ok(Places {
            by_slot,
            sorted: Vec::with_capacity(alloc, count)?,
            near: 0,
            oldest: 0,
        })
    }

    /// The slot that holds a page; None exactly if none does.
    pub(crate) fn find(&mut self, file: &Handle, index: u64) -> Option<usize>
        ensures found { FindsPage (length self.old) file.now index self.old result }
        ensures same { self.new ≡ self.old }
    {
        let at = count_near(&self.by_slot, &self.sorted, file, Some(index), self.near);
        self.near = at;
        holder_at(&self.by_slot, &self.sorted, at, file, index)
    }

    /// Whether a slot holds a page of a file with this number or a higher one. It takes about as long as to find one page.
    pub(crate) fn keeps_from(&mut self, file: &Handle, low: u64) -> bool
        ensures none { OnFalse result ((index : ℕ) → low ≤ index → HoldsNone (length self.old) (holds_page file.now index) self.old) }
        ensures same { self.new ≡ self.old }
    {
        let at = count_near(&self.by_slot, &self.sorted, file, Some(low), self.near);
        self.near = at;
        is_of_file_at(&self.by_slot, &self.sorted, at, file)
    }

    /// The page that a slot holds.
    pub(crate) fn at(&self, slot: usize) -> Option<PagePlace>
        requires { slot < length self.now }
        ensures { result ≡ get_or self.now slot None }
    {
        self.by_slot[slot]
    }

    /// The slots that hold pages of a file with numbers from `low` on and below `high`, in the order of the pages. None is
    /// above all numbers.
    pub(crate) fn slots_of(&self, file: &Handle, low: u64, high: Option<u64>) -> &[u16]
        requires { IfSome high (λ h. low ≤ h) }
        ensures { IsRun (length self.now) file.now low high self.now result.now }
    {
        let (from, to) = run_of(&self.by_slot, &self.sorted, file, low, high);
        &self.sorted[from..to]
    }

    /// The number of the page of a file that a slot holds; None if it holds none of the file.
    pub(crate) fn index_in(&self, slot: usize, file: &Handle) -> Option<u64>
        requires { slot < length self.now }
        ensures { result ≡ index_in file.now (get_or self.now slot None) }
    {
        let place = self.by_slot[slot]?;
        if place.file == *file {
            Some(place.index)
        } else {
            None
        }
    }

    /// A slot holds this page from now on, which no other slot holds.
    pub(crate) fn hold(&mut self, slot: usize, place: PagePlace)
        requires low { slot < length self.old }
        requires alone { (t : ℕ) → t < length self.old → get_or self.old t None ≡ Some place → t ≡ slot }
        ensures { self.new ≡ set self.old slot (Some place) }
    {
        if holds(&self.by_slot, slot, &place.file, place.index) {
            return;
        }
        let left = free_slot(&mut self.by_slot, &mut self.sorted, slot, self.oldest);
        let near = after_removal(self.near, left);
        let at = give_slot(&mut self.by_slot, &mut self.sorted, slot, place, near);
        self.near = after_insertion(at, at);
        self.oldest = after_insertion(left, at);
    }

    /// Each slot that holds a page of a file is free from now on.
    pub(crate) fn free_file(&mut self, file: &Handle)
        ensures { self.new ≡ map (freed file.now) self.old }
    {
        free_run(&mut self.by_slot, &mut self.sorted, file);
    }
}

/// Where a place of the order is once the entry at another one is gone.
fn after_removal(place: usize, gone: usize) -> usize {
    if gone < place { place - 1 } else { place }
}

/// Where a place of the order is once an entry came at another one.
fn after_insertion(place: usize, come: usize) -> usize {
    if come <= place {
        place.saturating_add(1)
    } else {
        place
    }
}
