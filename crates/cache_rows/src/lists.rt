//! Listings of a directory.

use crate::words::{name, numbers, show_bytes};
use dir_list::Listing;
use nfs_dir_calls::{PlusEntry, PlusPage, write_plus_entry};
use nfs_types::{Name, Verf};
use std::alloc::Global;
use std::io;
use xdr_codec::{Blob, Memory, Writer};

const VERF: Verf = Verf([1, 2, 3, 4, 5, 6, 7, 8]);

/// Does a call.
pub fn row(
    rt: &impl Print,
    alloc: Global,
    listing: &mut Listing,
    word: &str,
    rest: &str,
) -> io::Result<()> {
    let [cookie, eof, ..] = numbers(rest);
    match word {
        "new" => renew(alloc, listing),
        "page" => match page(alloc, cookie, rest) {
            Ok(bytes) => take(rt, listing, bytes.bytes(), eof == 1),
            Err(_) => println!(rt; "= memory"),
        },
        "whole" => whole(rt, alloc, listing),
        "finish" => finish(rt, alloc, std::mem::replace(listing, Listing::new(alloc))),
        _ => println!(rt; "= no such call"),
    }
}

fn renew(alloc: Global, listing: &mut Listing) -> io::Result<()> {
    *listing = Listing::new(alloc);
    Ok(())
}

/// Appends an entry.
fn entry(w: &mut Writer, name: &Name, cookie: u64) -> Result<(), Memory> {
    let entry = PlusEntry {
        fileid: 9,
        name: name.bytes(),
        cookie,
        attr: None,
        found: None,
    };
    write_plus_entry(w, &entry)
}

/// A page in XDR with the names from the third word on, with cookies from this one on (RFC 1813, section 3.3.17).
fn page(alloc: Global, cookie: u64, rest: &str) -> Result<Blob, Memory> {
    let mut w = Writer::new(alloc);
    let mut cookie = cookie;
    for text in rest.split_whitespace().skip(2) {
        entry(&mut w, &name(text), cookie)?;
        cookie = cookie.wrapping_add(1);
    }
    w.flag(false)?;
    Ok(w.finish())
}

/// Takes a page, and prints the answer.
fn take(rt: &impl Print, listing: &mut Listing, bytes: &[u8], eof: bool) -> io::Result<()> {
    match PlusPage::over(bytes) {
        Ok(page) => println!(rt; "= {:?}", listing.page(page, VERF, eof)),
        Err(fault) => println!(rt; "= {fault:?}"),
    }
}

/// A page of 256 names, all with this number in front.
fn long_page(alloc: Global, front: u8) -> Result<Blob, Memory> {
    let mut w = Writer::new(alloc);
    for back in 0..=255u8 {
        let mut digits = [0; 4];
        if hex::encode_to_slice([front, back], &mut digits).is_ok() {
            let name = Name::make(&digits).unwrap_or(name("?"));
            entry(&mut w, &name, u64::from(back))?;
        }
    }
    w.flag(false)?;
    Ok(w.finish())
}

/// Takes 256 pages of 256 names each, of which each name stands twice, and prints how many were taken.
fn whole(rt: &impl Print, alloc: Global, listing: &mut Listing) -> io::Result<()> {
    let mut taken: u64 = 0;
    for front in 0..=255u8 {
        if let Ok(bytes) = long_page(alloc, front / 2) {
            if takes(listing, bytes.bytes()) {
                taken = taken.wrapping_add(1);
            }
        }
    }
    println!(rt; "= {taken} pages")
}

fn takes(listing: &mut Listing, bytes: &[u8]) -> bool {
    match PlusPage::over(bytes) {
        Ok(page) => listing.page(page, VERF, false).is_ok(),
        Err(_) => false,
    }
}

/// Prints how many names the listing has, and the first eight in hex.
fn finish(rt: &impl Print, alloc: Global, listing: Listing) -> io::Result<()> {
    let names = listing.finish();
    let names = names.names();
    println!(rt; "= {} names", names.len())?;
    for name in names.iter().take(8) {
        show_bytes(rt, alloc, name.bytes())?;
    }
    Ok(())
}
