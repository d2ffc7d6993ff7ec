//! Pages of a listing.

use crate::end::end;
use nfs_dir_calls::{DirEntry, DirPage, PlusEntry, PlusPage, write_dir_entry, write_plus_entry};
use nfs_types::Name;
use std::alloc::Global;
use std::io;
use xdr_codec::{Memory, Writer, XdrFault};

/// Writes an entry whose name meets the rule, and else nothing.
fn write_dir(w: &mut Writer, entry: &DirEntry<'_>) -> Result<(), Memory> {
    if Name::make(entry.name).is_none() {
        return Ok(());
    }
    write_dir_entry(w, entry)
}

/// The same of an entry with attributes and a file handle.
fn write_plus(w: &mut Writer, entry: &PlusEntry<'_>) -> Result<(), Memory> {
    if Name::make(entry.name).is_none() {
        return Ok(());
    }
    write_plus_entry(w, entry)
}

/// Prints each entry of a page of READDIR.
pub fn dir_page(rt: &impl Print, alloc: Global, bytes: &[u8]) -> io::Result<()> {
    match DirPage::over(bytes) {
        Ok(mut page) => {
            let mut w = Writer::new(alloc);
            let mut wrote = true;
            let mut short = true;
            for len in 0..bytes.len() {
                if let Some(entry) = page.next() {
                    print!(rt; "{entry:?} ")?;
                    wrote = wrote && write_dir(&mut w, &entry).is_ok();
                }
                short = short && DirPage::over(&bytes[..len]).err() == Some(XdrFault::Short);
            }
            wrote = wrote && w.flag(false).is_ok();
            end(rt, w, wrote, bytes, short)
        }
        Err(fault) => println!(rt; "{fault:?}"),
    }
}

/// Prints each entry of a page of READDIRPLUS.
pub fn plus_page(rt: &impl Print, alloc: Global, bytes: &[u8]) -> io::Result<()> {
    match PlusPage::over(bytes) {
        Ok(mut page) => {
            let mut w = Writer::new(alloc);
            let mut wrote = true;
            let mut short = true;
            for len in 0..bytes.len() {
                if let Some(entry) = page.next() {
                    print!(rt; "{entry:?} ")?;
                    wrote = wrote && write_plus(&mut w, &entry).is_ok();
                }
                short = short && PlusPage::over(&bytes[..len]).err() == Some(XdrFault::Short);
            }
            wrote = wrote && w.flag(false).is_ok();
            end(rt, w, wrote, bytes, short)
        }
        Err(fault) => println!(rt; "{fault:?}"),
    }
}
