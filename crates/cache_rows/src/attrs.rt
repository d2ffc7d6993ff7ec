//! Kept attributes.

use crate::words::{attr, handle, numbers, show_done};
use attr_cache::{AttrCache, Lives};
use std::alloc::Global;
use std::io;

/// Does a call.
pub fn row(
    rt: &impl Print,
    alloc: Global,
    cache: &mut AttrCache,
    word: &str,
    rest: &str,
) -> io::Result<()> {
    let [a, b, c, d, ..] = numbers(rest);
    match word {
        "new" => renew(cache, AttrCache::new(alloc)),
        "lives" => renew(cache, AttrCache::with_lives(alloc, lives(a, b, c, d))),
        "learn" => show_done(rt, cache.learn(&handle(a), &attr(b, c, 0), d).is_ok()),
        "many" => learn_many(rt, cache, a),
        "forget" => forget(cache, a),
        "look" => look(rt, cache, a, b),
        _ => println!(rt; "= no such call"),
    }
}

fn renew(cache: &mut AttrCache, fresh: AttrCache) -> io::Result<()> {
    *cache = fresh;
    Ok(())
}

fn forget(cache: &mut AttrCache, file: u64) -> io::Result<()> {
    cache.forget(&handle(file));
    Ok(())
}

fn lives(reg_min: u64, reg_max: u64, dir_min: u64, dir_max: u64) -> Lives {
    Lives {
        reg_min,
        reg_max,
        dir_min,
        dir_max,
    }
}

/// Learns the files below a number at 0, each with its number as its length.
fn learn_many(rt: &impl Print, cache: &mut AttrCache, count: u64) -> io::Result<()> {
    let mut done = true;
    for file in 0..count {
        done = done && cache.learn(&handle(file), &attr(1, file, 0), 0).is_ok();
    }
    show_done(rt, done)
}

/// Prints the length that is believed of a file at a moment.
fn look(rt: &impl Print, cache: &AttrCache, file: u64, now: u64) -> io::Result<()> {
    match cache.look(&handle(file), now) {
        Some(attr) => println!(rt; "= {}", attr.size),
        None => println!(rt; "= none"),
    }
}
