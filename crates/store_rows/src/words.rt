//! What the words of a line stand for, and how results are shown.

use nfs_types::{Handle, KeptPage, Stamp, Time};
use page_store::{Disk, PageStore, StoreFault};
use std::alloc::Global;
use std::io;
use xdr_codec::Memory;

/// The first six numbers of a text; a word that isn't a number counts as 0.
pub fn numbers(text: &str) -> [u64; 6] {
    let mut found = [0; 6];
    for (at, word) in text.split_whitespace().enumerate() {
        if at < 6 {
            found[at] = word.parse::<u64>().unwrap_or(0);
        }
    }
    found
}

/// The last word of a text.
pub fn last(text: &str) -> &str {
    match text.rsplit_once(' ') {
        Some((_, word)) => word,
        None => text,
    }
}

/// A number below 2^32; 0 for a greater one.
pub fn small(number: u64) -> u32 {
    u32::try_from(number).unwrap_or(0)
}

/// The file of a number.
pub fn handle(number: u64) -> Handle {
    Handle::make(&number.to_be_bytes()).unwrap_or(Handle::make(&[]).unwrap())
}

/// The stamp of a file of this length.
pub fn stamp(size: u64) -> Stamp {
    let time = Time {
        seconds: 7,
        nanos: 9,
    };
    Stamp {
        size,
        mtime: time,
        ctime: time,
    }
}

/// Stores a page; None if the slot or the text is beyond its bound.
pub fn store<D: Disk + Drop>(
    store: &mut PageStore<D>,
    slot: u32,
    file: u64,
    size: u64,
    index: u64,
    text: &str,
) -> Option<Result<(), StoreFault>> {
    let bytes = text.as_bytes();
    if slot >= store.count() || bytes.len() > 4096 {
        return None;
    }
    Some(store.store(slot, &handle(file), &stamp(size), index, bytes))
}

/// The numbers of a text, as slots.
pub fn slots(alloc: Global, text: &str) -> Result<Vec<u32>, Memory> {
    let mut found = Vec::new(alloc);
    for word in text.split_whitespace() {
        found.push(small(word.parse::<u64>().unwrap_or(0)))?;
    }
    Ok(found)
}

/// Fills a slot of a round; None if the text is beyond its bound.
pub fn fill<D: Disk + Drop>(
    store: &mut PageStore<D>,
    slot: u32,
    file: u64,
    size: u64,
    index: u64,
    text: &str,
) -> Option<Result<bool, StoreFault>> {
    let bytes = text.as_bytes();
    if bytes.len() > 4096 {
        return None;
    }
    Some(store.fill(slot, &handle(file), &stamp(size), index, bytes))
}

/// Puts a label: the number of the root's file, and a text. None if the text is beyond its bound.
pub fn label<D: Disk + Drop>(
    store: &mut PageStore<D>,
    root: u64,
    text: &str,
) -> Option<Result<(), StoreFault>> {
    let words = text.as_bytes();
    if words.len() > 4096 {
        return None;
    }
    Some(store.set_label(&handle(root), words))
}

/// Prints a store's label: the root's handle in hex, and the words.
pub fn show_label<D: Disk + Drop>(
    rt: &impl Print,
    alloc: Global,
    pages: &PageStore<D>,
) -> io::Result<()> {
    let (Some(root), Some(words)) = (pages.root(), pages.words()) else {
        return println!(rt; "= no label");
    };
    let Ok(root) = hex::encode(alloc, root.bytes()) else {
        return println!(rt; "= memory");
    };
    let words = str::from_utf8(words).unwrap_or("?");
    println!(rt; "= root {} words {words}", root.as_str())
}

/// Prints what a call gave.
pub fn show_done(rt: &impl Print, outcome: Result<(), StoreFault>) -> io::Result<()> {
    match outcome {
        Ok(()) => println!(rt; "= done"),
        Err(fault) => println!(rt; "= {fault:?}"),
    }
}

/// Prints bytes in hex.
pub fn show_bytes(rt: &impl Print, alloc: Global, bytes: &[u8]) -> io::Result<()> {
    match hex::encode(alloc, bytes) {
        Ok(digits) => println!(rt; "= {}", digits.as_str()),
        Err(_) => println!(rt; "= memory"),
    }
}

/// Prints the page of a slot.
pub fn show_slot<D: Disk + Drop>(
    rt: &impl Print,
    alloc: Global,
    pages: &PageStore<D>,
    slot: u32,
) -> io::Result<()> {
    match pages.slot_page(slot) {
        Some(page) => show_page(rt, alloc, &page),
        None => println!(rt; "= none"),
    }
}

/// Prints a page: its file and its bytes in hex, the length in its stamp, and its number.
pub fn show_page(rt: &impl Print, alloc: Global, page: &KeptPage<'_>) -> io::Result<()> {
    let Ok(file) = hex::encode(alloc, page.file.bytes()) else {
        return println!(rt; "= memory");
    };
    let Ok(bytes) = hex::encode(alloc, page.bytes) else {
        return println!(rt; "= memory");
    };
    println!(rt;
        "= file {} size {} page {} bytes {}",
        file.as_str(),
        page.stamp.size,
        page.index,
        bytes.as_str()
    )
}
