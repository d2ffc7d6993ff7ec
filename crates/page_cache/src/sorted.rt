//! Slots in the order of the pages that they hold: by the bytes of the file, then by the page's number.

ghost use Rattle.std.specs.Prelude.{◌≡◌, ◌≢◌, ◌<◌, ◌≤◌, ℕ, None, Some, IfSome, get_or, length, set, map, nat_eq, nat_lt, ◌&&◌};
ghost use Rattle.std.specs.List.{remove_range};
ghost use Rattle.std.specs.Vec.{vec_capacity};
ghost use Rattle.page_cache.specs.Slots.{holds_page, FindsPage};
ghost use Rattle.page_cache.specs.Sorted.{is_below, stands_before, is_before, is_before_at, is_of_file, is_of_file_at, freed, freeing, IsSorted, IsGap, AreEnds};

use crate::place::PagePlace;
use nfs_types::Handle;
use std::cmp::Ordering;

/// Whether a page's number is below a bound. None is above all numbers.
fn is_below(index: u64, bound: Option<u64>) -> bool
    ensures { result ≡ is_below index bound }
{
    match bound {
        Some(bound) => index < bound,
        None => true,
    }
}

impl PagePlace {
    /// Whether it stands before the page of this file and number; with no number, before the end of the file's pages.
    fn stands_before(&self, file: &Handle, bound: Option<u64>) -> bool
        ensures { result ≡ stands_before file.now bound self.now }
    {
        match self.file.cmp(file) {
            Ordering::Less => true,
            Ordering::Equal => is_below(self.index, bound),
            Ordering::Greater => false,
        }
    }
}

/// The same of the page that a slot holds.
fn is_before(by_slot: &[Option<PagePlace>], slot: usize, file: &Handle, bound: Option<u64>) -> bool
    ensures { result ≡ is_before file.now bound (get_or by_slot.now slot None) }
{
    match by_slot.get(slot) {
        Some(held) => match held {
            Some(place) => place.stands_before(file, bound),
            None => false,
        },
        None => false,
    }
}

/// How many of the slots stand before a page of a file; with no number, before the end of the file's pages.
pub(crate) fn count_before(
    by_slot: &[Option<PagePlace>],
    sorted: &[u16],
    file: &Handle,
    bound: Option<u64>,
) -> usize
    requires { IsSorted (length by_slot.now) by_slot.now sorted.now }
    ensures { IsGap by_slot.now sorted.now file.now bound result }
{
    sorted.partition_point(|slot| is_before(by_slot, *slot as usize, file, bound))
}

/// The same of the slot at a place of the order; false past the last one.
fn is_before_at(
    by_slot: &[Option<PagePlace>],
    sorted: &[u16],
    at: usize,
    file: &Handle,
    bound: Option<u64>,
) -> bool
    ensures { result ≡ is_before_at file.now bound by_slot.now sorted.now at }
{
    match sorted.get(at) {
        Some(slot) => is_before(by_slot, *slot as usize, file, bound),
        None => false,
    }
}

/// How many of the slots stand before a page, if that is a guess or one more than it. It takes two comparisons at most.
fn count_if_near(
    by_slot: &[Option<PagePlace>],
    sorted: &[u16],
    file: &Handle,
    bound: Option<u64>,
    near: usize,
) -> Option<usize>
    requires { IsSorted (length by_slot.now) by_slot.now sorted.now }
    ensures { IfSome result (λ at. IsGap by_slot.now sorted.now file.now bound at) }
{
    if is_before_at(by_slot, sorted, near, file, bound) {
        let next = near + 1;
        if is_before_at(by_slot, sorted, next, file, bound) {
            None
        } else {
            Some(next)
        }
    } else if near == 0 {
        Some(0)
    } else if is_before_at(by_slot, sorted, near - 1, file, bound) {
        Some(near)
    } else {
        None
    }
}

/// How many of the slots stand before a page of a file. A guess is tried first: pages mostly come in their order.
pub(crate) fn count_near(
    by_slot: &[Option<PagePlace>],
    sorted: &[u16],
    file: &Handle,
    bound: Option<u64>,
    near: usize,
) -> usize
    requires { IsSorted (length by_slot.now) by_slot.now sorted.now }
    ensures { IsGap by_slot.now sorted.now file.now bound result }
{
    match count_if_near(by_slot, sorted, file, bound, near) {
        Some(at) => at,
        None => count_before(by_slot, sorted, file, bound),
    }
}

/// Whether a slot holds a page of a file.
pub(crate) fn holds(by_slot: &[Option<PagePlace>], slot: usize, file: &Handle, index: u64) -> bool
    requires { slot < length by_slot.now }
    ensures { result ≡ holds_page file.now index (get_or by_slot.now slot None) }
{
    match by_slot[slot] {
        Some(place) => place.index == index && place.file == *file,
        None => false,
    }
}

/// The slot that holds a page, which can only be the first one that doesn't stand before it.
pub(crate) fn holder_at(
    by_slot: &[Option<PagePlace>],
    sorted: &[u16],
    at: usize,
    file: &Handle,
    index: u64,
) -> Option<usize>
    requires sorted { IsSorted (length by_slot.now) by_slot.now sorted.now }
    requires gap { IsGap by_slot.now sorted.now file.now (Some index) at }
    ensures { FindsPage (length by_slot.now) file.now index by_slot.now result }
{
    let slot = *sorted.get(at)? as usize;
    if holds(by_slot, slot, file, index) {
        Some(slot)
    } else {
        None
    }
}

/// Whether a slot holds a page of a file.
fn is_of_file(by_slot: &[Option<PagePlace>], slot: usize, file: &Handle) -> bool
    ensures { result ≡ is_of_file file.now (get_or by_slot.now slot None) }
{
    match by_slot.get(slot) {
        Some(held) => match held {
            Some(place) => place.file == *file,
            None => false,
        },
        None => false,
    }
}

/// The same of the slot at a place of the order; false past the last one.
pub(crate) fn is_of_file_at(
    by_slot: &[Option<PagePlace>],
    sorted: &[u16],
    at: usize,
    file: &Handle,
) -> bool
    ensures { result ≡ is_of_file_at file.now by_slot.now sorted.now at }
{
    match sorted.get(at) {
        Some(slot) => is_of_file(by_slot, *slot as usize, file),
        None => false,
    }
}

/// Whether a slot stands at a place of the order.
fn is_at(sorted: &[u16], at: usize, slot: usize) -> bool
    ensures { result ≡ (nat_lt at (length sorted.now) && nat_eq (get_or sorted.now at 0) slot) }
{
    match sorted.get(at) {
        Some(there) => *there as usize == slot,
        None => false,
    }
}

/// Where the slot of a page stands in the order. A guess is tried first.
fn place_of(
    by_slot: &[Option<PagePlace>],
    sorted: &[u16],
    slot: usize,
    page: &PagePlace,
    near: usize,
) -> usize
    requires sorted { IsSorted (length by_slot.now) by_slot.now sorted.now }
    requires low { slot < length by_slot.now }
    requires holds { get_or by_slot.now slot None ≡ Some page.now }
    ensures within { result < length sorted.now }
    ensures there { get_or sorted.now result 0 ≡ slot }
{
    if is_at(sorted, near, slot) {
        near
    } else {
        count_before(by_slot, sorted, &page.file, Some(page.index))
    }
}

/// Between which places the slots stand that hold pages of a file with numbers from `low` on and below `high`.
pub(crate) fn run_of(
    by_slot: &[Option<PagePlace>],
    sorted: &[u16],
    file: &Handle,
    low: u64,
    high: Option<u64>,
) -> (usize, usize)
    requires { IsSorted (length by_slot.now) by_slot.now sorted.now }
    ensures { AreEnds file.now low high by_slot.now sorted.now result.0 result.1 }
{
    let from = count_before(by_slot, sorted, file, Some(low));
    let to = count_before(by_slot, sorted, file, high);
    (from, to)
}

/// Frees a slot. It answers where it stood in the order, or else its end; a guess of that is tried first.
pub(crate) fn free_slot(
    by_slot: &mut Vec<Option<PagePlace>>,
    sorted: &mut Vec<u16>,
    slot: usize,
    near: usize,
) -> usize
    requires sorted { IsSorted (length by_slot.old.items) by_slot.old.items sorted.old.items }
    requires low { slot < length by_slot.old.items }
    ensures held { by_slot.new.items ≡ set by_slot.old.items slot None }
    ensures sorted { IsSorted (length by_slot.old.items) by_slot.new.items sorted.new.items }
    ensures room { vec_capacity sorted.new ≡ vec_capacity sorted.old }
{
    let Some(place) = by_slot[slot] else {
        return sorted.len();
    };
    let at = place_of(by_slot, sorted, slot, &place, near);
    sorted.remove(at);
    by_slot[slot] = None;
    at
}

/// Gives a page, which no slot holds, to a free slot. It answers where this stands in the order; a guess of that is
/// tried first.
pub(crate) fn give_slot(
    by_slot: &mut Vec<Option<PagePlace>>,
    sorted: &mut Vec<u16>,
    slot: usize,
    place: PagePlace,
    near: usize,
) -> usize
    requires sorted { IsSorted (length by_slot.old.items) by_slot.old.items sorted.old.items }
    requires low { slot < length by_slot.old.items }
    requires free { get_or by_slot.old.items slot None ≡ None }
    requires alone { (t : ℕ) → t < length by_slot.old.items → get_or by_slot.old.items t None ≢ Some place }
    requires room { length by_slot.old.items ≤ vec_capacity sorted.old }
    requires most { length by_slot.old.items ≤ 65536 }
    ensures held { by_slot.new.items ≡ set by_slot.old.items slot (Some place) }
    ensures sorted { IsSorted (length by_slot.old.items) by_slot.new.items sorted.new.items }
    ensures room { length by_slot.old.items ≤ vec_capacity sorted.new }
{
    let at = count_near(by_slot, sorted, &place.file, Some(place.index), near);
    let _ = sorted.insert(at, slot as u16);
    by_slot[slot] = Some(place);
    at
}

/// Frees the slots that hold pages of a file.
pub(crate) fn free_run(by_slot: &mut Vec<Option<PagePlace>>, sorted: &mut Vec<u16>, file: &Handle)
    requires { IsSorted (length by_slot.old.items) by_slot.old.items sorted.old.items }
    ensures held { by_slot.new.items ≡ map (freed file.now) by_slot.old.items }
    ensures sorted { IsSorted (length by_slot.old.items) by_slot.new.items sorted.new.items }
    ensures room { vec_capacity sorted.new ≡ vec_capacity sorted.old }
{
    let (from, to) = run_of(by_slot, sorted, file, 0, None);
    free_all(by_slot, &sorted[from..to]);
    take_out(sorted, from, to);
}

/// Takes the entries between two places out.
fn take_out(sorted: &mut Vec<u16>, from: usize, to: usize)
    requires order { from ≤ to }
    requires inside { to ≤ length sorted.old.items }
    ensures items { sorted.new.items ≡ remove_range sorted.old.items from to }
    ensures room { vec_capacity sorted.new ≡ vec_capacity sorted.old }
{
    sorted.drain(from..to);
}

/// Frees these slots.
fn free_all(by_slot: &mut [Option<PagePlace>], run: &[u16])
    requires { (i : ℕ) → i < length run.now → get_or run.now i 0 < length by_slot.old }
    ensures { by_slot.new ≡ freeing run.now by_slot.old }
{
    for slot in run {
        by_slot[*slot as usize] = None;
    }
}
