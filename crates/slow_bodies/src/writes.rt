//! `WriteBack` and the slow body answer the same calls alike.

use crate::back::SlowBack;
use crate::fault::Fault;
use crate::kept_back::{FIRST_XID, KeptBack, LAST_XID};
use crate::made::Made;
use nfs_types::{Handle, Verf};
use std::alloc::{AllocError, Global};
use write_back::AddFault;
use xdr_codec::Blob;

/// How many files there are.
const FILES: u64 = 2;

/// How many places of a file are looked at: no byte of a made call lies at a higher one.
const PLACES: usize = 82;

/// Both bodies, and what the calls are made of.
#[derive(Drop)]
struct Pair {
    alloc: Global,
    made: Made,
    back: KeptBack,
    slow: SlowBack,
}

/// Both bodies, with nothing pending.
fn new_pair(alloc: Global, seed: u64) -> Pair {
    Pair {
        alloc,
        made: Made::of(seed),
        back: KeptBack::new(alloc),
        slow: SlowBack::new(alloc),
    }
}

/// One of a few files.
fn file(number: u64) -> Result<Handle, Fault> {
    Handle::make(&number.to_be_bytes()).ok_or(Fault::Odd)
}

/// One of a few verifiers.
fn verf(made: &mut Made) -> Verf {
    Verf([made.below(2) as u8; 8])
}

/// One of the xids, most of which are in flight.
fn xid(made: &mut Made) -> u32 {
    made.below(4) as u32 + FIRST_XID
}

/// An xid, mostly one under which a piece of the file is in flight.
fn flying(pair: &mut Pair, file: &Handle) -> Result<u32, Fault> {
    let any = xid(&mut pair.made);
    if pair.made.below(4) == 0 {
        return Ok(any);
    }
    for xid in FIRST_XID..=LAST_XID {
        if pair.slow.in_flight(file, xid)?.is_some() {
            return Ok(xid);
        }
    }
    Ok(any)
}

/// A number above all, that of the last write, or one of those shortly before.
fn upto(pair: &mut Pair) -> u64 {
    let last = pair.back.number();
    match pair.made.below(4) {
        0 => u64::MAX,
        1 => last,
        2 => last.saturating_sub(pair.made.below(4)),
        _ => last.saturating_sub(pair.made.below(10)),
    }
}

/// So many bytes.
fn bytes(alloc: Global, made: &mut Made, count: u64) -> Result<Vec<u8>, AllocError> {
    let first = made.below(256);
    let mut bytes = Vec::new(alloc);
    for at in 0..count {
        bytes.push((first.wrapping_add(at) & 255) as u8)?;
    }
    Ok(bytes)
}

/// Whether both show the same of a file:
/// - its bytes, and their end;
/// - what is in flight under each xid, and whether anything is;
/// - how many bytes are pending in all, and which file has the oldest.
fn same_file(pair: &Pair, file: &Handle) -> Result<bool, Fault> {
    let mut fast = [0xee; PLACES];
    let mut slow = [0xee; PLACES];
    pair.back.overlay(file, 0, &mut fast);
    pair.slow.overlay(file, 0, &mut slow);
    let still = is_still(pair, file)?;
    let mut same = fast == slow
        && pair.back.end(file) == pair.slow.end(file)
        && pair.back.pending() == pair.slow.pending()
        && pair.back.oldest() == pair.slow.oldest()
        && pair.back.is_quiet(file) == still;
    for xid in 0..=LAST_XID {
        same = same && pair.back.in_flight(file, xid)? == pair.slow.in_flight(file, xid)?;
    }
    Ok(same)
}

/// Whether both show the same of every file.
fn same_files(pair: &Pair) -> Result<bool, Fault> {
    let mut same = true;
    for number in 0..FILES {
        same = same && same_file(pair, &file(number)?)?;
    }
    Ok(same)
}

/// Whether nothing of a file is in flight.
fn is_still(pair: &Pair, file: &Handle) -> Result<bool, Fault> {
    let mut still = true;
    for xid in FIRST_XID..=LAST_XID {
        still = still && pair.slow.in_flight(file, xid)?.is_none();
    }
    Ok(still)
}

/// Bytes are written, in both.
fn add(pair: &mut Pair, file: &Handle) -> Result<bool, Fault> {
    let offset = pair.made.below(65);
    let count = pair.made.below(17);
    let put = bytes(pair.alloc, &mut pair.made, count)?;
    let put = Blob::shared(pair.alloc, put)?;
    let added = pair.back.add(file, offset, &put);
    let number = pair.back.number();
    let fits = pair.slow.add(file, offset, put.bytes(), number)?;
    Ok(match added {
        Ok(()) => fits,
        Err(AddFault::Full) => !fits,
        Err(AddFault::Memory) => false,
    })
}

/// A piece is sent, by both, unless one is in flight under the xid.
fn send(pair: &mut Pair, file: &Handle) -> Result<bool, Fault> {
    let upto = upto(pair);
    let wsize = pair.made.below(24) as u32 + 1;
    let xid = xid(&mut pair.made);
    if pair.slow.in_flight(file, xid)?.is_some() {
        return Ok(true);
    }
    let slow = pair.slow.next_to_send(file, upto, wsize, xid)?;
    let fast = pair.back.next_to_send(file, upto, wsize, xid)?;
    Ok(fast == slow)
}

/// The server has some of a piece, nothing of it, all of it, or more than that.
fn acked(pair: &mut Pair, file: &Handle) -> Result<bool, Fault> {
    let xid = flying(pair, file)?;
    let count = match pair.made.below(4) {
        0 => u32::MAX,
        1 => 24,
        _ => pair.made.below(10) as u32,
    };
    let committed = pair.made.below(5).saturating_sub(2) as u32;
    let verf = verf(&mut pair.made);
    pair.slow.acked(file, xid, count, committed, verf)?;
    pair.back.acked(file, xid, count, committed, verf)?;
    Ok(true)
}

/// The server has refused a piece.
fn refused(pair: &mut Pair, file: &Handle) -> Result<bool, Fault> {
    let xid = flying(pair, file)?;
    let status = pair.made.below(3) as u32;
    pair.slow.refused(file, xid, status)?;
    pair.back.refused(file, xid, status);
    Ok(true)
}

/// A piece is as it was before it was sent.
fn returned(pair: &mut Pair, file: &Handle) -> Result<bool, Fault> {
    let xid = flying(pair, file)?;
    pair.slow.returned(file, xid)?;
    pair.back.returned(file, xid);
    Ok(true)
}

/// A piece gets another xid, if there is one and that xid is free.
fn renumber(pair: &mut Pair, file: &Handle) -> Result<bool, Fault> {
    let from = flying(pair, file)?;
    let to = xid(&mut pair.made);
    let there = pair.slow.in_flight(file, from)?.is_some();
    let goes = there && pair.slow.in_flight(file, to)?.is_none();
    if goes {
        pair.slow.renumber(file, from, to);
    }
    Ok(pair.back.renumber(file, from, to) == goes)
}

/// What the server has is stable, or is to be sent again.
fn settle(pair: &mut Pair, file: &Handle) -> bool {
    let upto = upto(pair);
    let verf = verf(&mut pair.made);
    match pair.made.below(4) {
        0 => {
            pair.slow.settle(file, verf, upto);
            pair.back.settle(file, verf, upto);
            true
        }
        1 | 2 => pair.slow.mark_again(file, upto) == pair.back.mark_again(file, upto),
        _ => { pair.slow.decide(file, upto, verf) == pair.back.decide(file, upto, verf) }
    }
}

/// Bytes go that aren't to be written any more, if nothing is in flight.
fn cut(pair: &mut Pair, file: &Handle) -> Result<bool, Fault> {
    let still = is_still(pair, file)?;
    let upto = upto(pair);
    let size = pair.made.below(80);
    if pair.made.below(6) == 0 {
        if still {
            pair.slow.give_up(file);
        }
        return Ok(pair.back.give_up(file) == still);
    }
    if still {
        pair.slow.cut(file, size, upto)?;
    }
    Ok(pair.back.cut(file, size, upto) == still)
}

/// One made call of both. Whether they answered alike, and show the same of its file after it.
fn step(pair: &mut Pair) -> Result<bool, Fault> {
    let file = file(pair.made.below(FILES))?;
    let same = match pair.made.below(24) {
        0..=3 => add(pair, &file)?,
        4..=9 => send(pair, &file)?,
        10..=13 => acked(pair, &file)?,
        14 | 15 => refused(pair, &file)?,
        16 | 17 => returned(pair, &file)?,
        18 => renumber(pair, &file)?,
        19..=22 => settle(pair, &file),
        _ => cut(pair, &file)?,
    };
    Ok(same && same_file(pair, &file)?)
}

/// How many made calls were answered alike, of so many, and then one more if every file is as it was left.
fn run(alloc: Global, seed: u64, count: u64) -> Result<u64, Fault> {
    step_all(&mut new_pair(alloc, seed), count)
}

fn step_all(pair: &mut Pair, count: u64) -> Result<u64, Fault> {
    for done in 0..count {
        if !step(pair)? {
            return Ok(done);
        }
    }
    let alike = u64::from(same_files(pair)?);
    Ok(count.saturating_add(alike))
}

/// Makes so many calls of each seed from one to another, the second left out: the first seed whose calls aren't all answered
/// alike, and how many of them are.
pub fn compare(
    alloc: Global,
    first: u64,
    last: u64,
    count: u64,
) -> Result<Option<(u64, u64)>, Fault> {
    for seed in first..last {
        let alike = run(alloc, seed, count)?;
        if alike <= count {
            return Ok(Some((seed, alike)));
        }
    }
    Ok(None)
}

/// Whether both have room for so many bytes more, at an offset.
fn has_room(pair: &mut Pair, file: &Handle, offset: u64, count: usize) -> Result<bool, Fault> {
    let mut put = Vec::new(pair.alloc);
    put.resize(count, 0x5a)?;
    let put = Blob::shared(pair.alloc, put)?;
    let added = pair.back.add(file, offset, &put);
    let number = pair.back.number();
    let fits = pair.slow.add(file, offset, put.bytes(), number)?;
    match added {
        Ok(()) if fits => Ok(true),
        Err(AddFault::Full) if !fits => Ok(false),
        _ => Err(Fault::Odd),
    }
}

/// Where bytes are added to the rest, how many, and whether there is room for them.
const ADDED: [(u64, usize, bool); 5] = [
    (0, 4_194_300, true),
    (0, 5, false),
    (4_194_304, 4, true),
    (0, 1, false),
    (0, 0, true),
];

/// Whether both are full at the same byte, the last one of 4,194,304.
pub fn full(alloc: Global) -> Result<bool, Fault> {
    fill_up(&mut new_pair(alloc, 7))
}

fn fill_up(pair: &mut Pair) -> Result<bool, Fault> {
    let file = file(1)?;
    let mut same = true;
    for (offset, count, room) in ADDED {
        same = has_room(pair, &file, offset, count)? == room && same;
    }
    Ok(same_file(pair, &file)? && same)
}

/// Whether the file of the least number is this one, in both.
fn is_oldest(pair: &Pair, wanted: Option<Handle>) -> bool {
    pair.back.oldest() == wanted && pair.slow.oldest() == wanted
}

/// Bytes of a file from a size on go, in both.
fn cuts(pair: &mut Pair, file: &Handle, size: u64, upto: u64) -> Result<bool, Fault> {
    pair.slow.cut(file, size, upto)?;
    Ok(pair.back.cut(file, size, upto))
}

/// Whether both tell the same file as that of the least number, by hand, as bytes of two files are added, cut and given up.
pub fn oldest(alloc: Global) -> Result<bool, Fault> {
    oldest_of(&mut new_pair(alloc, 7))
}

fn oldest_of(pair: &mut Pair) -> Result<bool, Fault> {
    let (a, b) = (file(2)?, file(3)?);
    let before = is_oldest(pair, None);
    let added = add_by_hand(pair, a, b)?;
    let cut = cut_by_hand(pair, a, b)?;
    pair.slow.give_up(&a);
    let gone = pair.back.give_up(&a);
    Ok(is_oldest(pair, Some(b)) && pair.back.pending() == 1 && before && added && cut && gone)
}

/// Bytes of two files are added: the second one has the oldest.
fn add_by_hand(pair: &mut Pair, a: Handle, b: Handle) -> Result<bool, Fault> {
    let mut same = true;
    for (file, offset, count, oldest) in [
        (a, 0, 0, None),
        (b, 0, 4, Some(b)),
        (a, 0, 4, Some(b)),
        (b, 2, 3, Some(b)),
    ] {
        same = has_room(pair, &file, offset, count)? && same;
        same = is_oldest(pair, oldest) && same;
    }
    Ok(same)
}

/// Bytes of the second file go, the oldest last.
fn cut_by_hand(pair: &mut Pair, a: Handle, b: Handle) -> Result<bool, Fault> {
    let mut same = true;
    for (size, upto, oldest) in [(1, 3, b), (3, 4, b), (2, 2, b), (0, 2, a)] {
        same = cuts(pair, &b, size, upto)? && same;
        same = is_oldest(pair, Some(oldest)) && same;
    }
    Ok(same)
}
