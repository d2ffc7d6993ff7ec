//! `PageCache` and the slow body answer the same calls alike.

ghost use Rattle.std.specs.Prelude.{◌≤◌};

use crate::fault::Fault;
use crate::made::Made;
use crate::pages::SlowPages;
use nfs_types::{Attr, Handle, Stamp, Time, Wcc};
use page_cache::PageCache;
use std::alloc::{AllocError, Global};

/// Both bodies, and what the calls are made of.
#[derive(Drop)]
struct Pair {
    alloc: Global,
    made: Made,
    moment: u64,
    cache: PageCache,
    slow: SlowPages,
}

/// For how many pages a line wants room, from 1 to 65,536; 0 stands for 1,024.
pub fn room_of(number: u64) -> usize
    ensures least { 1 ≤ result }
    ensures most { result ≤ 65536 }
{
    if number == 0 {
        1024
    } else {
        number.min(65_536) as usize
    }
}

/// One of a few files.
fn file(number: u64) -> Result<Handle, Fault> {
    Handle::make(&number.to_be_bytes()).ok_or(Fault::Odd)
}

/// A state of a file.
fn stamp(number: u64) -> Stamp {
    let time = Time {
        seconds: (number & 1) as u32,
        nanos: 0,
    };
    Stamp {
        size: number,
        mtime: time,
        ctime: time,
    }
}

/// Attributes with the stamp of that number.
fn attr(number: u64) -> Attr {
    let stamp = stamp(number);
    Attr {
        kind: 1,
        mode: 0o644,
        nlink: 1,
        uid: 0,
        gid: 0,
        size: stamp.size,
        used: 0,
        rdev_major: 0,
        rdev_minor: 0,
        fsid: 1,
        fileid: 1,
        atime: stamp.mtime,
        mtime: stamp.mtime,
        ctime: stamp.ctime,
    }
}

/// What a change tells: mostly where it began and ended.
fn wcc(made: &mut Made) -> Wcc {
    let before = made.below(4);
    let after = made.below(4);
    Wcc {
        before: if before == 3 {
            None
        } else {
            Some(stamp(before))
        },
        after: if after == 3 { None } else { Some(attr(after)) },
    }
}

/// So many bytes, at most 8,192.
fn bytes(alloc: Global, made: &mut Made, count: u64) -> Result<Vec<u8>, AllocError> {
    let first = made.below(256);
    let mut bytes = Vec::new(alloc);
    for at in 0..count.min(8192) {
        bytes.push((first.wrapping_add(at) & 255) as u8)?;
    }
    Ok(bytes)
}

/// Whether both show the same page of a file.
fn same_page(pair: &mut Pair, file: &Handle, index: u64) -> Result<bool, Fault> {
    let slow = pair.slow.page(file, index)?;
    let same = match pair.cache.page(file, index) {
        Some(fast) => match slow {
            Some(slow) => *fast == *slow,
            None => false,
        },
        None => slow.is_none(),
    };
    Ok(same)
}

/// Whether both know the same of a file.
fn same_state(pair: &Pair, file: &Handle) -> bool {
    pair.cache.stamp(file) == pair.slow.stamp(file) && pair.cache.mark(file) == pair.slow.mark(file)
}

/// A file is opened, in both.
fn open(pair: &mut Pair, file: &Handle) -> Result<bool, Fault> {
    let state = stamp(pair.made.below(3));
    let mark = pair.moment.saturating_sub(pair.made.below(4));
    pair.cache.opened(file, &state, mark)?;
    pair.slow.opened(file, &state, mark)?;
    Ok(same_state(pair, file))
}

/// A page is offered to both.
fn keep(pair: &mut Pair, file: &Handle) -> Result<bool, Fault> {
    let state = stamp(pair.made.below(3));
    let sent = pair.moment.saturating_sub(pair.made.below(3));
    let index = pair.made.below(3);
    let count = pair.made.below(3).saturating_mul(2048);
    let page = bytes(pair.alloc, &mut pair.made, count)?;
    if page.len() > 4096 {
        return Ok(true);
    }
    let slow = pair.slow.keep(file, &state, index, page.as_slice(), sent)?;
    let fast = pair.cache.keep(file, &state, index, page.as_slice(), sent);
    Ok(fast == slow)
}

/// Both see the state of a file.
fn saw(pair: &mut Pair, file: &Handle) -> bool {
    let state = stamp(pair.made.below(3));
    let sent = pair.moment.saturating_sub(pair.made.below(3));
    pair.cache.saw(file, &state, sent);
    pair.slow.saw(file, &state, sent);
    same_state(pair, file)
}

/// The client writes, with both.
fn write(pair: &mut Pair, file: &Handle) -> Result<bool, Fault> {
    let told = wcc(&mut pair.made);
    let offset = pair.made.below(9000);
    let count = pair.made.below(5000);
    let put = bytes(pair.alloc, &mut pair.made, count)?;
    pair.cache
        .wrote(file, &told, offset, put.as_slice(), pair.moment);
    pair.slow
        .wrote(file, &told, offset, put.as_slice(), pair.moment)?;
    Ok(same_state(pair, file))
}

/// The client sets a size, with both.
fn cut(pair: &mut Pair, file: &Handle) -> Result<bool, Fault> {
    let told = wcc(&mut pair.made);
    let size = pair.made.below(13000);
    pair.cache.cut(file, &told, size, pair.moment);
    pair.slow.cut(file, &told, size, pair.moment)?;
    Ok(same_state(pair, file))
}

/// One made call of both, and a look at one page. Whether they answered alike.
fn step(pair: &mut Pair) -> Result<bool, Fault> {
    let file = file(pair.made.below(3))?;
    let wanted = pair.made.below(3);
    pair.moment = pair.moment.saturating_add(1);
    let same = match pair.made.below(9) {
        0 => open(pair, &file)?,
        1 => saw(pair, &file),
        2 => cut(pair, &file)?,
        3 | 4 => write(pair, &file)?,
        _ => keep(pair, &file)?,
    };
    Ok(same && same_page(pair, &file, wanted)?)
}

/// Both bodies, with nothing kept and room for so many pages.
fn new_pair(alloc: Global, seed: u64, room: usize) -> Result<Pair, Fault>
    requires least { 1 ≤ room }
    requires most { room ≤ 65536 }
{
    Ok(Pair {
        alloc,
        made: Made::of(seed),
        moment: 4,
        cache: PageCache::with_room(alloc, room)?,
        slow: SlowPages::with_room(alloc, room),
    })
}

/// How many made calls were answered alike, of so many that begin with nothing kept.
fn run(alloc: Global, seed: u64, count: u64, room: usize) -> Result<u64, Fault>
    requires least { 1 ≤ room }
    requires most { room ≤ 65536 }
{
    let mut pair = new_pair(alloc, seed, room)?;
    step_all(&mut pair, count)
}

/// How many made calls of both were answered alike, of so many.
fn step_all(pair: &mut Pair, count: u64) -> Result<u64, Fault> {
    for done in 0..count {
        if !step(pair)? {
            return Ok(done);
        }
    }
    Ok(count)
}

/// Makes so many calls of each seed from one to another, the second left out: the first seed whose calls aren't all answered
/// alike, and how many of them are.
pub fn compare(
    alloc: Global,
    first: u64,
    last: u64,
    count: u64,
    room: usize,
) -> Result<Option<(u64, u64)>, Fault>
    requires least { 1 ≤ room }
    requires most { room ≤ 65536 }
{
    for seed in first..last {
        let alike = run(alloc, seed, count, room)?;
        if alike < count {
            return Ok(Some((seed, alike)));
        }
    }
    Ok(None)
}

/// Page by page, more than there is room for; then each is looked for.
fn fill(pair: &mut Pair, file: &Handle, count: u64) -> Result<bool, Fault> {
    let mut same = true;
    for index in 0..count {
        let page = bytes(pair.alloc, &mut pair.made, 3)?;
        if page.len() <= 4096 {
            let slow = pair.slow.keep(file, &stamp(1), index, page.as_slice(), 9)?;
            let fast = pair.cache.keep(file, &stamp(1), index, page.as_slice(), 9);
            same = same && fast == slow;
        }
        let shown = pair.made.below(count);
        same = same && same_page(pair, file, shown)?;
    }
    Ok(same)
}

/// Whether the same pages are kept once so many were offered, one after the other.
pub fn evicted(alloc: Global, count: u64, room: usize) -> Result<bool, Fault>
    requires least { 1 ≤ room }
    requires most { room ≤ 65536 }
{
    let mut pair = new_pair(alloc, 7, room)?;
    offer_all(&mut pair, count)
}

/// Offers so many pages of a file to both; whether they keep the same ones.
fn offer_all(pair: &mut Pair, count: u64) -> Result<bool, Fault> {
    let file = file(1)?;
    pair.cache.opened(&file, &stamp(1), 5)?;
    pair.slow.opened(&file, &stamp(1), 5)?;
    let mut same = fill(pair, &file, count)?;
    for index in 0..count {
        same = same_page(pair, &file, index)? && same;
    }
    Ok(same)
}
