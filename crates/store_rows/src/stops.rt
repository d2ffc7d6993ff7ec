//! A store that a crash stops at each of its calls.

use crate::words::{fill, handle, show_label, show_slot, store};
use page_store::{Disk, MemDisk, PageStore, StoreFault};
use std::alloc::Global;
use std::io;

/// The slot that is stored into.
const SLOT: u32 = 5;

/// The last byte of all slots and the label.
const LAST: u64 = 1025 * 4224 - 1;

/// A store or a round of two slots makes at most this many calls of its disk, and one more doesn't fail.
const MOST_CALLS: u32 = 12;

/// Before the store that is stopped: a write and a sync, and 1,026 calls of `open`.
const BEFORE: u32 = 2 + 1026;

/// And 6 of a first store, which finds the gate closed.
const FIRST: u32 = 6;

/// The calls of a first label: 1,024 gates are read, and a sync; then as many as of a first store.
const LABEL: u32 = 1024 + 1 + 6;

/// Calls of a second label at which it is stopped: the write of the slot's gate, all behind the last slot's, and one that isn't made.
const WRITES: [u32; 10] = [7, 1026, 1027, 1028, 1029, 1030, 1031, 1032, 1033, 1034];

/// Stops a store of the second text at each of its calls, over the first text if that isn't `-`.
pub fn row(rt: &HostRuntime, alloc: Global, rest: &str) -> io::Result<()> {
    let (old, new) = rest.split_once(' ').unwrap_or(("-", rest));
    let before = if old == "-" { BEFORE } else { BEFORE + FIRST };
    for call in 1..=MOST_CALLS {
        let Some(disk) = stopped(alloc, old, new, before + call) else {
            return println!(rt; "= call {call}: the store is done");
        };
        println!(rt; "= call {call}")?;
        show_found(rt, alloc, disk)?;
    }
    Ok(())
}

/// Stops a round at each of its calls. It stores the second text into the slot, over the first text, and into the next one.
pub fn round(rt: &HostRuntime, alloc: Global, rest: &str) -> io::Result<()> {
    let (old, new) = rest.split_once(' ').unwrap_or((rest, rest));
    for call in 1..=MOST_CALLS {
        let Some(disk) = stopped_round(alloc, old, new, BEFORE + FIRST + call) else {
            return println!(rt; "= call {call}: the round is done");
        };
        println!(rt; "= call {call}")?;
        show_round(rt, alloc, disk)?;
    }
    Ok(())
}

/// Stops the writing of a label at its calls, over another label and a page in the slot.
pub fn relabel(rt: &HostRuntime, alloc: Global) -> io::Result<()> {
    for call in WRITES {
        let Some(disk) = stopped_label(alloc, BEFORE + LABEL + FIRST + call) else {
            return println!(rt; "= call {call}: the label is written");
        };
        println!(rt; "= call {call}")?;
        show_labelled(rt, alloc, disk)?;
    }
    Ok(())
}

/// The disk after a crash behind the call of that number, while a label was written; None if no call fails.
fn stopped_label(alloc: Global, fails: u32) -> Option<MemDisk> {
    let mut pages = with_page(alloc, "-", fails)?;
    pages.set_label(&handle(1), b"old").ok()?;
    store(&mut pages, SLOT, 1, 6, 0, "old")?.ok()?;
    if pages.set_label(&handle(2), b"new").is_ok() {
        return None;
    }
    let mut disk = pages.into_disk();
    disk.crash().ok()?;
    Some(disk)
}

/// The disk after a crash behind the call of that number; None if no call fails.
fn stopped_round(alloc: Global, old: &str, new: &str, fails: u32) -> Option<MemDisk> {
    let mut pages = with_page(alloc, old, fails)?;
    if rewritten(&mut pages, new).is_ok() {
        return None;
    }
    let mut disk = pages.into_disk();
    disk.crash().ok()?;
    Some(disk)
}

/// Stores a text into two slots, in a round.
fn rewritten(pages: &mut PageStore<MemDisk>, new: &str) -> Result<(), StoreFault> {
    pages.begin(&[SLOT, SLOT + 1])?;
    fill(pages, SLOT, 1, 6, 0, new).unwrap_or(Ok(false))?;
    fill(pages, SLOT + 1, 1, 6, 1, new).unwrap_or(Ok(false))?;
    pages.finish()
}

/// A store whose disk fails at the call of that number, with a text in the slot unless it is `-`.
fn with_page(alloc: Global, old: &str, fails: u32) -> Option<PageStore<MemDisk>> {
    let mut disk = MemDisk::new(alloc, &[fails]).ok()?;
    // Zeros up to the end of the last slot, as `format` leaves them.
    disk.write(LAST, &[0]).ok()?;
    disk.sync().ok()?;
    let mut pages = PageStore::open(alloc, disk).ok()?;
    if old != "-" {
        store(&mut pages, SLOT, 1, 6, 0, old)?.ok()?;
    }
    Some(pages)
}

/// The disk after a crash behind the call of that number; None if no call fails.
fn stopped(alloc: Global, old: &str, new: &str, fails: u32) -> Option<MemDisk> {
    let mut pages = with_page(alloc, old, fails)?;
    if store(&mut pages, SLOT, 1, 6, 0, new)?.is_ok() {
        return None;
    }
    let mut disk = pages.into_disk();
    disk.crash().ok()?;
    Some(disk)
}

/// Prints what a store finds in the slot.
fn show_found(rt: &HostRuntime, alloc: Global, disk: MemDisk) -> io::Result<()> {
    match PageStore::open(alloc, disk) {
        Ok(pages) => show_slot(rt, alloc, &pages, SLOT),
        Err(refused) => println!(rt; "= {:?}", refused.fault),
    }
}

/// Prints what a store finds in the slot and in the next one.
fn show_round(rt: &HostRuntime, alloc: Global, disk: MemDisk) -> io::Result<()> {
    match PageStore::open(alloc, disk) {
        Ok(pages) => show_slots(rt, alloc, &pages),
        Err(refused) => println!(rt; "= {:?}", refused.fault),
    }
}

fn show_slots(rt: &HostRuntime, alloc: Global, pages: &PageStore<MemDisk>) -> io::Result<()> {
    show_slot(rt, alloc, pages, SLOT)?;
    show_slot(rt, alloc, pages, SLOT + 1)
}

/// Prints what a store finds in the slot, and its label.
fn show_labelled(rt: &HostRuntime, alloc: Global, disk: MemDisk) -> io::Result<()> {
    match PageStore::open(alloc, disk) {
        Ok(pages) => show_slot_and_label(rt, alloc, &pages),
        Err(refused) => println!(rt; "= {:?}", refused.fault),
    }
}

fn show_slot_and_label(
    rt: &HostRuntime,
    alloc: Global,
    pages: &PageStore<MemDisk>,
) -> io::Result<()> {
    show_slot(rt, alloc, pages, SLOT)?;
    show_label(rt, alloc, pages)
}
