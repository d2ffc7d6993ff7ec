//! A server and a store of pages, which outlast a session.

use page_store::{Disk, MemDisk, PageStore};
use std::alloc::Global;
use std::io;
use world_link::{World, parse_schedule};

/// The last byte of all slots and the label.
const LAST: u64 = 1025 * 4224 - 1;

/// A simulated server, and a store over a disk in memory.
#[derive(Drop)]
pub struct Ground {
    /// The server.
    pub world: World,
    /// How far the clock goes on at a reading, in milliseconds.
    pub tick: u64,
    /// The store.
    pub store: PageStore<MemDisk>,
}

impl Ground {
    /// The store. The server is dropped.
    pub fn into_store(self) -> PageStore<MemDisk> {
        self.store
    }
}

/// The server of a schedule, and a store of an empty disk whose calls of these numbers fail. None for a faulty schedule, and if
/// the disk fails before the store is there.
pub fn begin(alloc: Global, schedule: &[u8], fails: &[u32]) -> Option<Ground> {
    let store = empty_store(alloc, fails)?;
    ground_over(alloc, schedule, store)
}

/// The server of a schedule, beside this store.
pub fn ground_over(alloc: Global, schedule: &[u8], store: PageStore<MemDisk>) -> Option<Ground> {
    match parse_schedule(alloc, schedule) {
        Ok((world, tick)) => Some(Ground { world, tick, store }),
        Err(_) => None,
    }
}

/// A store of an empty disk whose calls of these numbers fail.
fn empty_store(alloc: Global, fails: &[u32]) -> Option<PageStore<MemDisk>> {
    let mut disk = MemDisk::new(alloc, fails).ok()?;
    // Zeros up to the end of the label, as `format` leaves them.
    disk.write(LAST, &[0]).ok()?;
    disk.sync().ok()?;
    PageStore::open(alloc, disk).ok()
}

/// Prints the pages of a store, how many there are, and the words of its label.
pub fn show_store(rt: &impl Print, alloc: Global, store: &PageStore<MemDisk>) -> io::Result<()> {
    let count = show_pages(rt, alloc, store)?;
    match store.words() {
        Some(words) => println!(rt;
            "  pages {count} label '{}'",
            str::from_utf8(words).unwrap_or("?")
        ),
        None => println!(rt; "  pages {count} no label"),
    }
}

/// Prints the pages of a store, and gives how many there are.
fn show_pages(rt: &impl Print, alloc: Global, store: &PageStore<MemDisk>) -> io::Result<u32> {
    let mut count = 0_u32;
    for slot in 0..store.count() {
        if let Some(page) = store.slot_page(slot) {
            show_page(rt, alloc, page.index, page.bytes)?;
            count = count.saturating_add(1);
        }
    }
    Ok(count)
}

/// Prints the number of a page in its file, and its bytes in hex.
fn show_page(rt: &impl Print, alloc: Global, index: u64, bytes: &[u8]) -> io::Result<()> {
    match hex::encode(alloc, bytes) {
        Ok(digits) => println!(rt; "  page {index} bytes {}", digits.as_str()),
        Err(_) => println!(rt; "  out of memory"),
    }
}
