//! A cache that begins with the pages of a store, and whose pages are stored.

use crate::words::{handle, last, numbers, show_done, show_page, stamp};
use kept_pages::{cache_of, store_kept};
use page_cache::PageCache;
use page_store::{MemDisk, PageStore};
use std::alloc::Global;
use std::io;

/// Makes a cache of the pages of a store, keeps in it the page of the line, if there is one, and stores its pages.
pub fn row(
    rt: &HostRuntime,
    alloc: Global,
    pages: &mut PageStore<MemDisk>,
    rest: &str,
) -> io::Result<()> {
    let Ok(mut cache) = cache_of(alloc, pages) else {
        return println!(rt; "= memory");
    };
    if !rest.is_empty() {
        keep(&mut cache, rest);
    }
    show_cache(rt, alloc, &cache)?;
    show_done(rt, store_kept(alloc, &cache, pages))
}

/// Opens a file in a cache, and keeps a page of it.
fn keep(cache: &mut PageCache, rest: &str) {
    let [file, size, index, ..] = numbers(rest);
    let bytes = last(rest).as_bytes();
    if bytes.len() <= 4096 && cache.opened(&handle(file), &stamp(size), 0).is_ok() {
        let _ = cache.keep(&handle(file), &stamp(size), index, bytes, 1);
    }
}

/// Prints the pages of a cache, from the front.
fn show_cache(rt: &HostRuntime, alloc: Global, cache: &PageCache) -> io::Result<()> {
    for n in 0..cache.room() {
        match cache.nth(n) {
            Some(page) => show_page(rt, alloc, &page)?,
            None => break,
        }
    }
    Ok(())
}
