//! A disk in memory, or a store over it.

use crate::kept;
use crate::words::{
    fill, handle, label, last, numbers, show_bytes, show_done, show_label, show_slot, slots, small,
    stamp, store,
};
use page_store::{Disk, DiskCall, MemDisk, OpenFault, PageStore, StoreFault};
use std::alloc::Global;
use std::{io, mem};

/// What the lines so far led to.
#[derive(Drop)]
pub enum Held {
    /// No disk.
    Nothing,
    /// A disk.
    Disk(MemDisk),
    /// A store.
    Store(PageStore<MemDisk>),
}

impl Held {
    /// Does a call.
    pub fn step(
        &mut self,
        rt: &HostRuntime,
        alloc: Global,
        word: &str,
        rest: &str,
    ) -> io::Result<()> {
        match word {
            "new" => self.renew(rt, alloc, rest),
            "open" => self.open(rt, alloc, rest),
            "close" => self.close(),
            _ => self.call(rt, alloc, word, rest),
        }
    }

    /// Does a call of what is held.
    fn call(&mut self, rt: &HostRuntime, alloc: Global, word: &str, rest: &str) -> io::Result<()> {
        match self {
            Held::Nothing => Ok(()),
            Held::Disk(disk) => on_disk(rt, alloc, disk, word, rest),
            Held::Store(store) => on_store(rt, alloc, store, word, rest),
        }
    }

    fn hold(&mut self, held: Held) {
        *self = held;
    }

    /// Makes a disk in place of what is held.
    fn renew(&mut self, rt: &HostRuntime, alloc: Global, rest: &str) -> io::Result<()> {
        match MemDisk::new(alloc, &numbers(rest).map(small)) {
            Ok(disk) => {
                self.hold(Held::Disk(disk));
                Ok(())
            }
            Err(_) => {
                self.hold(Held::Nothing);
                println!(rt; "= memory")
            }
        }
    }

    /// Opens the disk that is held, if one is.
    fn open(&mut self, rt: &HostRuntime, alloc: Global, rest: &str) -> io::Result<()> {
        match mem::replace(self, Held::Nothing) {
            Held::Disk(disk) => self.open_disk(rt, alloc, disk, rest),
            other => {
                self.hold(other);
                Ok(())
            }
        }
    }

    /// Holds the store of a disk, or the disk again if it is none.
    fn open_disk(
        &mut self,
        rt: &HostRuntime,
        alloc: Global,
        disk: MemDisk,
        rest: &str,
    ) -> io::Result<()> {
        let [slots, ..] = numbers(rest);
        match opened(alloc, disk, small(slots)) {
            Ok(store) => {
                self.hold(Held::Store(store));
                println!(rt; "= done")
            }
            Err(OpenFault { disk, fault }) => {
                self.hold(Held::Disk(disk));
                println!(rt; "= {fault:?}")
            }
        }
    }

    /// Closes the store that is held, if one is: its disk is held again.
    fn close(&mut self) -> io::Result<()> {
        let held = match mem::replace(self, Held::Nothing) {
            Held::Store(store) => Held::Disk(store.into_disk()),
            other => other,
        };
        self.hold(held);
        Ok(())
    }
}

/// Does a call of a disk.
fn on_disk(
    rt: &HostRuntime,
    alloc: Global,
    disk: &mut MemDisk,
    word: &str,
    rest: &str,
) -> io::Result<()> {
    let [a, b, ..] = numbers(rest);
    match word {
        "format" => show_done(rt, format(alloc, disk, small(a))),
        "sync" => println!(rt; "= {:?}", disk.sync()),
        "crash" => println!(rt; "= {:?}", disk.crash()),
        "write" => write(rt, alloc, disk, a, last(rest)),
        "bytes" => show_bytes(rt, alloc, part(disk.bytes(), a, b)),
        "last" => last_calls(rt, disk.calls(), a),
        _ => Ok(()),
    }
}

/// Formats a disk, for so many slots if a number from 1,024 to 65,536 is given.
fn format(alloc: Global, disk: &mut MemDisk, slots: u32) -> Result<(), StoreFault> {
    if slots >= 1024 && slots <= 65_536 {
        PageStore::format_sized(alloc, disk, slots)
    } else {
        PageStore::format(alloc, disk)
    }
}

/// Opens a disk, with so many slots if a number from 1,024 to 65,536 is given.
fn opened(
    alloc: Global,
    disk: MemDisk,
    slots: u32,
) -> Result<PageStore<MemDisk>, OpenFault<MemDisk>> {
    if slots >= 1024 && slots <= 65_536 {
        PageStore::open_sized(alloc, disk, slots)
    } else {
        PageStore::open(alloc, disk)
    }
}

/// Does a call of a store that may change it.
fn on_store(
    rt: &HostRuntime,
    alloc: Global,
    pages: &mut PageStore<MemDisk>,
    word: &str,
    rest: &str,
) -> io::Result<()> {
    let [a, b, c, d, ..] = numbers(rest);
    match word {
        "store" => show_stored(rt, store(pages, small(a), b, c, d, last(rest))),
        "begin" => begin(rt, alloc, pages, rest),
        "fill" => show_filled(rt, fill(pages, small(a), b, c, d, last(rest))),
        "finish" => show_done(rt, pages.finish()),
        "kept" => kept::row(rt, alloc, pages, rest),
        "label" if !rest.is_empty() => show_labelled(rt, label(pages, a, last(rest))),
        _ => ask(rt, alloc, pages, word, rest),
    }
}

/// Prints what a line asks of a store.
fn ask(
    rt: &HostRuntime,
    alloc: Global,
    pages: &PageStore<MemDisk>,
    word: &str,
    rest: &str,
) -> io::Result<()> {
    let [a, b, c, ..] = numbers(rest);
    match word {
        "empty" => println!(rt; "= {}", pages.is_empty()),
        "label" => show_label(rt, alloc, pages),
        "page" => show_slot(rt, alloc, pages, small(a)),
        "find" => match pages.find(&handle(a), &stamp(b), c) {
            Some(bytes) => show_bytes(rt, alloc, bytes),
            None => println!(rt; "= none"),
        },
        _ => Ok(()),
    }
}

fn show_stored(rt: &HostRuntime, stored: Option<Result<(), StoreFault>>) -> io::Result<()> {
    match stored {
        Some(result) => show_done(rt, result),
        None => println!(rt; "= no such slot or page"),
    }
}

fn show_filled(rt: &HostRuntime, filled: Option<Result<bool, StoreFault>>) -> io::Result<()> {
    match filled {
        Some(Ok(true)) => println!(rt; "= done"),
        Some(Ok(false)) => println!(rt; "= not in the round"),
        Some(Err(fault)) => println!(rt; "= {fault:?}"),
        None => println!(rt; "= no such page"),
    }
}

fn show_labelled(rt: &HostRuntime, labelled: Option<Result<(), StoreFault>>) -> io::Result<()> {
    match labelled {
        Some(result) => show_done(rt, result),
        None => println!(rt; "= no such label"),
    }
}

/// Begins a round of these slots.
fn begin(
    rt: &HostRuntime,
    alloc: Global,
    pages: &mut PageStore<MemDisk>,
    rest: &str,
) -> io::Result<()> {
    match slots(alloc, rest) {
        Ok(list) => show_done(rt, pages.begin(list.as_slice())),
        Err(_) => println!(rt; "= memory"),
    }
}

/// Writes bytes in hex to a disk.
fn write(
    rt: &HostRuntime,
    alloc: Global,
    disk: &mut MemDisk,
    at: u64,
    digits: &str,
) -> io::Result<()> {
    match hex::decode(alloc, digits) {
        Ok(bytes) => println!(rt; "= {:?}", disk.write(at, bytes.as_slice())),
        Err(_) => println!(rt; "= no hex"),
    }
}

/// So many bytes from a place on, as far as they are there.
fn part(bytes: &[u8], at: u64, count: u64) -> &[u8] {
    let from = usize::try_from(at).unwrap_or(usize::MAX).min(bytes.len());
    let (_, rest) = bytes.split_at(from);
    let count = usize::try_from(count).unwrap_or(usize::MAX).min(rest.len());
    let (front, _) = rest.split_at(count);
    front
}

/// Prints the last calls that a disk recorded.
fn last_calls(rt: &HostRuntime, calls: &[DiskCall], count: u64) -> io::Result<()> {
    let count = usize::try_from(count)
        .unwrap_or(usize::MAX)
        .min(calls.len());
    let (_, last) = calls.split_at(calls.len() - count);
    for call in last {
        match call {
            DiskCall::Wrote { at, bytes } => println!(rt; "= write {} bytes at {at}", bytes.len())?,
            DiskCall::Synced => println!(rt; "= sync")?,
            DiskCall::Crashed { .. } => println!(rt; "= crash")?,
        }
    }
    Ok(())
}
