//! What a round does to the pages in memory.

ghost use Rattle.std.specs.Prelude.{◌≡◌, ◌≤◌, ℕ, List, None, Some, length, set, replicate, true, ◌↔◌, IfOk};
ghost use Rattle.page_store.specs.Labels.{AreNone};
ghost use Rattle.page_store.specs.Store.{shown_at};
ghost use Rattle.page_store.specs.Rounds.{IsIn, cleared, taken_in, shown_after, entry_at};

use crate::record::Stored;
use std::alloc::Global;
use xdr_codec::Memory;

/// Slots count as closed.
pub(crate) fn clear_slots(pages: &mut Vec<Option<Stored>>, slots: &[u32])
    ensures { pages.new.items ≡ cleared slots.now pages.old.items }
{
    for slot in slots {
        clear_one(pages, *slot as usize);
    }
}

/// All slots count as closed.
pub(crate) fn clear_all(pages: &mut Vec<Option<Stored>>)
    ensures none { AreNone pages.new.items }
    ensures length { length pages.new.items ≡ length pages.old.items }
{
    for slot in 0..pages.len() {
        clear_one(pages, slot);
    }
}

/// Whether no slot shows a page.
pub(crate) fn are_none(pages: &[Option<Stored>]) -> bool
    ensures { (result ≡ true) ↔ AreNone pages.now }
{
    for page in pages {
        if page.is_some() {
            return false;
        }
    }
    true
}

/// A slot counts as closed.
fn clear_one(pages: &mut Vec<Option<Stored>>, slot: usize)
    ensures { pages.new.items ≡ set pages.old.items slot None }
{
    if slot < pages.len() {
        pages[slot] = None;
    }
}

/// The round of these slots, out of those of the pages.
pub(crate) fn round_of(
    alloc: Global,
    pages: &[Option<Stored>],
    slots: &[u32],
) -> Result<Vec<Option<Option<Stored>>>, Memory>
    ensures round { IfOk result (λ round. round.items ≡ taken_in slots.now (replicate (length pages.now) None)) }
    ensures length { IfOk result (λ round. length round.items ≡ length pages.now) }
{
    let mut round = empty_round(alloc, pages.len())?;
    for slot in slots {
        take_in(&mut round, *slot as usize);
    }
    Ok(round)
}

/// A round of no slot, out of so many.
fn empty_round(alloc: Global, count: usize) -> Result<Vec<Option<Option<Stored>>>, Memory>
    ensures { IfOk result (λ round. round.items ≡ replicate count None) }
{
    let mut round = Vec::new(alloc);
    for slot in 0..count {
        round.push(None)?;
    }
    Ok(round)
}

/// A round of so many slots, from the first on.
pub(crate) fn whole_round(
    alloc: Global,
    count: usize,
) -> Result<Vec<Option<Option<Stored>>>, Memory>
    ensures { IfOk result (λ round. round.items ≡ replicate count (Some None)) }
{
    let mut round = Vec::new(alloc);
    for slot in 0..count {
        round.push(Some(None))?;
    }
    Ok(round)
}

/// Takes a slot into a round.
fn take_in(round: &mut Vec<Option<Option<Stored>>>, slot: usize)
    ensures { round.new.items ≡ set round.old.items slot (Some None) }
{
    if slot < round.len() {
        round[slot] = Some(None);
    }
}

/// Whether a slot is in a round.
pub(crate) fn is_in(round: &[Option<Option<Stored>>], slot: u32) -> bool
    ensures { (result ≡ true) ↔ IsIn round.now slot }
{
    match round.get(slot as usize) {
        Some(entry) => entry.is_some(),
        None => false,
    }
}

/// The slots of a round show the pages that they were filled with.
pub(crate) fn show_filled(pages: &mut Vec<Option<Stored>>, round: &mut Vec<Option<Option<Stored>>>)
    requires { length round.old.items ≤ length pages.old.items }
    ensures length { length pages.new.items ≡ length pages.old.items }
    ensures each { (k : ℕ) → shown_at k pages.new.items ≡ shown_after (entry_at k round.old.items) (shown_at k pages.old.items) }
{
    for slot in 0..round.len() {
        show_one(&mut pages[slot], &mut round[slot]);
    }
}

/// A slot shows the page that it was filled with, if there is one.
fn show_one(page: &mut Option<Stored>, entry: &mut Option<Option<Stored>>)
    ensures page { page.new ≡ shown_after entry.old page.old }
    ensures entry { entry.new ≡ None }
{
    if let Some(Some(stored)) = entry.take() {
        *page = Some(stored);
    }
}
