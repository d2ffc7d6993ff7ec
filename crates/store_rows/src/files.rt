//! Stores over files of the system.

use crate::words::{show_done, show_slot, store};
use outside::Failed;
use page_store::{Disk, FileDisk, PageStore};
use std::alloc::Global;
use std::fs::File;
use std::os::unix::fs::PermissionsExt;
use std::{fs, io};

/// Makes a file, stores pages in it, opens it again, and shows that it is locked meanwhile.
pub fn row(rt: &HostRuntime, alloc: Global, path: &str) -> io::Result<()> {
    if FileDisk::open(rt, path).is_err() {
        println!(rt; "= no such file")?;
    }
    let Ok(disk) = FileDisk::make(rt, path) else {
        return println!(rt; "= not made");
    };
    if stored_in(rt, alloc, path, disk)? {
        show_again(rt, alloc, path)?;
        fs::remove_file(rt, path)
    } else {
        Ok(())
    }
}

/// Shows that a file that was made is locked, and stores pages in it; whether they are stored.
fn stored_in(
    rt: &HostRuntime,
    alloc: Global,
    path: &str,
    disk: FileDisk<File>,
) -> io::Result<bool> {
    show_locked(rt, path)?;
    let disk = filled(rt, alloc, disk)?;
    Ok(disk.is_some())
}

/// Prints the mode of a file, and that nobody else can open it.
fn show_locked(rt: &HostRuntime, path: &str) -> io::Result<()> {
    let mode = fs::metadata(rt, path)?.permissions().mode() & 0o777;
    println!(rt; "= made with mode {mode:o}")?;
    if FileDisk::open(rt, path).is_err() {
        println!(rt; "= in use")?;
    }
    Ok(())
}

/// Prints the length of a file, and what its pages are.
fn show_again(rt: &HostRuntime, alloc: Global, path: &str) -> io::Result<()> {
    let length = fs::metadata(rt, path)?.len();
    println!(rt; "= {length} bytes")?;
    match FileDisk::open(rt, path) {
        Ok(disk) => show(rt, alloc, disk),
        Err(Failed) => println!(rt; "= not opened"),
    }
}

/// Formats a disk and stores two pages; the disk, or None if that failed.
pub fn filled<D: Disk + Drop>(rt: &HostRuntime, alloc: Global, disk: D) -> io::Result<Option<D>> {
    let mut disk = disk;
    show_done(rt, PageStore::format(alloc, &mut disk))?;
    match PageStore::open(alloc, disk) {
        Ok(pages) => {
            let mut pages = pages;
            show_done(rt, store(&mut pages, 0, 1, 2, 0, "hi").unwrap_or(Ok(())))?;
            show_done(
                rt,
                store(&mut pages, 1023, 2, 5, 0, "there").unwrap_or(Ok(())),
            )?;
            Ok(Some(pages.into_disk()))
        }
        Err(refused) => {
            println!(rt; "= {:?}", refused.fault)?;
            Ok(None)
        }
    }
}

/// Opens a disk and shows both pages.
pub fn show<D: Disk + Drop>(rt: &HostRuntime, alloc: Global, disk: D) -> io::Result<()> {
    match PageStore::open(alloc, disk) {
        Ok(pages) => {
            show_slot(rt, alloc, &pages, 0)?;
            show_slot(rt, alloc, &pages, 1023)
        }
        Err(refused) => println!(rt; "= {:?}", refused.fault),
    }
}
