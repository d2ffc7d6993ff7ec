//! Kept names.

use crate::words::{handle, last, name, numbers, show_bytes, show_done, stamp};
use name_cache::NameCache;
use std::alloc::Global;
use std::io;

/// Does a call.
pub fn row(
    rt: &impl Print,
    alloc: Global,
    cache: &mut NameCache,
    word: &str,
    rest: &str,
) -> io::Result<()> {
    let [a, b, c, ..] = numbers(rest);
    match word {
        "new" => renew(rt, alloc, cache),
        "learn" => learn(rt, cache, a, b, c, last(rest)),
        "many" => learn_many(rt, cache, a),
        "look" => look(rt, alloc, cache, a, b, last(rest)),
        "drop" => drop_dir(cache, a),
        _ => println!(rt; "= no such call"),
    }
}

fn drop_dir(cache: &mut NameCache, dir: u64) -> io::Result<()> {
    cache.drop_dir(&handle(dir));
    Ok(())
}

fn renew(rt: &impl Print, alloc: Global, cache: &mut NameCache) -> io::Result<()> {
    match NameCache::new(alloc) {
        Ok(fresh) => {
            *cache = fresh;
            show_done(rt, true)
        }
        Err(_) => show_done(rt, false),
    }
}

fn learn(
    rt: &impl Print,
    cache: &mut NameCache,
    dir: u64,
    second: u64,
    found: u64,
    text: &str,
) -> io::Result<()> {
    let learnt = cache.learn(
        &handle(dir),
        &name(text),
        &stamp(4_096, second),
        &handle(found),
    );
    show_done(rt, learnt.is_ok())
}

/// Learns the name `a` of the directories below a number, at second 0.
fn learn_many(rt: &impl Print, cache: &mut NameCache, count: u64) -> io::Result<()> {
    let mut done = true;
    for dir in 0..count {
        let learnt = cache.learn(&handle(dir), &name("a"), &stamp(4_096, 0), &handle(9));
        done = done && learnt.is_ok();
    }
    show_done(rt, done)
}

/// Prints what a name stands for.
fn look(
    rt: &impl Print,
    alloc: Global,
    cache: &mut NameCache,
    dir: u64,
    second: u64,
    text: &str,
) -> io::Result<()> {
    match cache.look(&handle(dir), &name(text), &stamp(4_096, second)) {
        Some(found) => show_bytes(rt, alloc, found.bytes()),
        None => println!(rt; "= none"),
    }
}
