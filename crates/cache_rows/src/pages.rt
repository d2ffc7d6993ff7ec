//! Kept pages.

use crate::words::{attr, handle, last, numbers, show_bytes, show_done, stamp};
use nfs_types::{Stamp, Wcc};
use page_cache::{Keep, PageCache};
use std::alloc::Global;
use std::io;

/// Does a call.
pub fn row(
    rt: &impl Print,
    alloc: Global,
    cache: &mut PageCache,
    word: &str,
    rest: &str,
) -> io::Result<()> {
    let [a, b, c, d, ..] = numbers(rest);
    match word {
        "new" => renew(rt, alloc, cache, 1_024),
        "room" => renew(rt, alloc, cache, a),
        "opened" => show_done(rt, cache.opened(&handle(a), &stamp(b, 0), c).is_ok()),
        "many" => open_many(rt, cache, a),
        "state" => state(rt, cache, a),
        "keep" => keep(rt, cache, a, &stamp(b, 0), c, d, last(rest)),
        "fill" => fill(rt, cache, a, &stamp(b, 0), c),
        "page" => page(rt, alloc, cache, a, b),
        _ => change(rt, cache, word, rest),
    }
}

/// Does a call that answers nothing.
fn change(rt: &impl Print, cache: &mut PageCache, word: &str, rest: &str) -> io::Result<()> {
    let [a, b, c, d, e, _] = numbers(rest);
    match word {
        "saw" => cache.saw(&handle(a), &stamp(b, 0), c),
        "wrote" => cache.wrote(&handle(a), &wcc(b, c), d, last(rest).as_bytes(), e),
        "cut" => cache.cut(&handle(a), &wcc(b, c), d, e),
        "closed" => cache.closed(&handle(a)),
        _ => return println!(rt; "= no such call"),
    }
    Ok(())
}

/// Makes a cache with room for so many pages.
fn renew(rt: &impl Print, alloc: Global, cache: &mut PageCache, room: u64) -> io::Result<()> {
    if room == 0 || room > 65_536 {
        return println!(rt; "= no such room");
    }
    match PageCache::with_room(alloc, room as usize) {
        Ok(fresh) => {
            *cache = fresh;
            show_done(rt, true)
        }
        Err(_) => show_done(rt, false),
    }
}

/// What a change tells that began and ended at these lengths.
fn wcc(before: u64, after: u64) -> Wcc {
    Wcc {
        before: Some(stamp(before, 0)),
        after: Some(attr(1, after, 0)),
    }
}

/// Opens the files below a number, each with its number as its length.
fn open_many(rt: &impl Print, cache: &mut PageCache, count: u64) -> io::Result<()> {
    let mut done = true;
    for file in 0..count {
        done = done && cache.opened(&handle(file), &stamp(file, 0), 0).is_ok();
    }
    show_done(rt, done)
}

/// Prints the length in a file's stamp, and its mark.
fn state(rt: &impl Print, cache: &PageCache, file: u64) -> io::Result<()> {
    let size = cache.stamp(&handle(file)).map(|stamp| stamp.size);
    let mark = cache.mark(&handle(file));
    println!(rt; "= {size:?} {mark:?}")
}

fn keep(
    rt: &impl Print,
    cache: &mut PageCache,
    file: u64,
    stamp: &Stamp,
    index: u64,
    sent: u64,
    text: &str,
) -> io::Result<()> {
    let bytes = text.as_bytes();
    if bytes.len() > 4_096 {
        return println!(rt; "= too long");
    }
    let kept = cache.keep(&handle(file), stamp, index, bytes, sent);
    println!(rt; "= {kept:?}")
}

/// Offers the pages below a number, each with its number as its bytes, and prints how many are kept.
fn fill(
    rt: &impl Print,
    cache: &mut PageCache,
    file: u64,
    stamp: &Stamp,
    count: u64,
) -> io::Result<()> {
    let mut kept: u64 = 0;
    for index in 0..count {
        let bytes = index.to_be_bytes();
        if cache.keep(&handle(file), stamp, index, &bytes, u64::MAX) == Keep::Kept {
            kept = kept.wrapping_add(1);
        }
    }
    println!(rt; "= {kept}")
}

/// Prints how many bytes a page has, and the first 16.
fn page(
    rt: &impl Print,
    alloc: Global,
    cache: &mut PageCache,
    file: u64,
    index: u64,
) -> io::Result<()> {
    match cache.page(&handle(file), index) {
        Some(bytes) => {
            println!(rt; "= {} bytes", bytes.len())?;
            show_bytes(rt, alloc, bytes.get(..16).unwrap_or(bytes))
        }
        None => println!(rt; "= none"),
    }
}
