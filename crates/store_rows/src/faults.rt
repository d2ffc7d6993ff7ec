//! A disk that fails at each call of `format` or `open` in turn.

use crate::words::store;
use page_store::{MemDisk, PageStore, StoreFault};
use std::alloc::Global;
use std::io;

/// More calls than either makes.
const MANY: u32 = 2000;

/// The calls of `open` over an empty disk, and of a store into a closed slot.
const BEFORE: u32 = 1026 + 6;

/// Prints at how many calls in a row the disk's failure is a fault, and what the next number gives.
pub fn row(rt: &HostRuntime, alloc: Global, rest: &str) -> io::Result<()> {
    for call in 1..=MANY {
        let result = match rest {
            "format" => failing_format(alloc, call),
            _ => failing_open(alloc, call),
        };
        if result != Err(StoreFault::Fault) {
            return println!(rt; "= a fault at each call below {call}, then {result:?}");
        }
    }
    Ok(())
}

/// Formats a disk whose call of that number fails.
fn failing_format(alloc: Global, call: u32) -> Result<(), StoreFault> {
    let mut disk = MemDisk::new(alloc, &[call])?;
    PageStore::format(alloc, &mut disk)
}

/// Opens a disk with one page whose call of that number from there on fails.
fn failing_open(alloc: Global, call: u32) -> Result<(), StoreFault> {
    let disk = MemDisk::new(alloc, &[BEFORE.saturating_add(call)])?;
    let mut pages = opened(alloc, disk)?;
    store(&mut pages, 0, 1, 6, 0, "page").unwrap_or(Ok(()))?;
    opened(alloc, pages.into_disk())?;
    Ok(())
}

/// Opens a disk.
fn opened(alloc: Global, disk: MemDisk) -> Result<PageStore<MemDisk>, StoreFault> {
    match PageStore::open(alloc, disk) {
        Ok(pages) => Ok(pages),
        Err(refused) => Err(refused.fault),
    }
}
