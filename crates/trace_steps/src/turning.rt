//! One object before and after an entry, and what replies show of it.

ghost use Rattle.std.specs.Prelude.{◌≡◌};
ghost use Rattle.world_model.specs.Bytes.{committed_part};
ghost use Rattle.trace_steps.specs.TurnTests.{stays, turns, reads, looks, is_cut, is_sized, shows_part, is_read, is_steady_after, is_written, is_committed, is_begun, is_broken, is_broken_off, shows_attr, showed_attr, showed_stamp, shows_wcc, showed_wcc};

use crate::moments::{after, before, only};
use crate::ranges::{from, is_part, is_put, is_resized, up_to};
use nfs_types::{Attr, Handle, Stamp, Wcc};
use trace_data::{Contents, Object, Trace};
use trace_rules::{is_file, is_stamp, same_attr, same_bool, same_contents};

// ---- an object that is there before and after

/// Whether the object was there, and its kind, its number and its names stay.
#[tactic(auto, unfolding(crate::specs::TurnTests::stays))]
pub(crate) fn stays(old: &Object, new: &Object) -> bool
    ensures { result ≡ stays old.now new.now }
{
    !old.gone
        && same_bool(new.gone, old.gone)
        && new.attr.kind == old.attr.kind
        && new.attr.fileid == old.attr.fileid
}

/// Whether an object is read: it holds what it held.
#[tactic(auto, unfolding(crate::specs::TurnTests::turns, crate::specs::TurnTests::reads))]
pub(crate) fn reads(trace: &Trace, entry: usize, handle: &Handle) -> bool
    ensures { result ≡ reads trace.now entry handle.now }
{
    let Some(old) = before(trace, entry, handle) else {
        return false;
    };
    match after(trace, entry, handle) {
        Some(new) => stays(old, new) && same_contents(&old.contents, &new.contents),
        None => false,
    }
}

/// Whether one object is read, and nothing else happens.
#[tactic(auto, unfolding(crate::specs::TurnTests::looks))]
pub(crate) fn looks(trace: &Trace, entry: usize, handle: &Handle) -> bool
    ensures { result ≡ looks trace.now entry handle.now }
{
    reads(trace, entry, handle) && only(trace, entry, handle, handle, handle)
}

/// Whether an object's size is set, if there is one to set.
#[tactic(auto, unfolding(crate::specs::TurnTests::turns))]
pub(crate) fn is_set(trace: &Trace, entry: usize, handle: &Handle, size: Option<u64>) -> bool
    ensures { result ≡ turns (is_sized size) trace.now entry handle.now }
{
    let Some(old) = before(trace, entry, handle) else {
        return false;
    };
    match after(trace, entry, handle) {
        Some(new) => stays(old, new) && is_sized(size, &old.contents, &new.contents),
        None => false,
    }
}

/// Whether bytes are read from a file.
#[tactic(auto, unfolding(crate::specs::TurnTests::turns))]
pub(crate) fn gives(
    trace: &Trace,
    entry: usize,
    handle: &Handle,
    offset: u64,
    counted: u32,
    eof: bool,
    bytes: &[u8],
) -> bool
    ensures { result ≡ turns (is_read offset counted eof bytes.now) trace.now entry handle.now }
{
    let Some(old) = before(trace, entry, handle) else {
        return false;
    };
    match after(trace, entry, handle) {
        Some(new) => {
            stays(old, new) && is_read(offset, counted, eof, bytes, &old.contents, &new.contents)
        }
        None => false,
    }
}

/// Whether bytes are put into a file.
#[tactic(auto, unfolding(crate::specs::TurnTests::turns))]
pub(crate) fn takes(
    trace: &Trace,
    entry: usize,
    handle: &Handle,
    committed: u32,
    offset: u64,
    bytes: &[u8],
) -> bool
    ensures { result ≡ turns (is_written committed offset bytes.now) trace.now entry handle.now }
{
    let Some(old) = before(trace, entry, handle) else {
        return false;
    };
    match after(trace, entry, handle) {
        Some(new) => {
            stays(old, new) && is_written(committed, offset, bytes, &old.contents, &new.contents)
        }
        None => false,
    }
}

/// Whether a range of a file becomes stable.
#[tactic(auto, unfolding(crate::specs::TurnTests::turns))]
pub(crate) fn commits(trace: &Trace, entry: usize, handle: &Handle, offset: u64, count: u32) -> bool
    ensures { result ≡ turns (is_committed offset count) trace.now entry handle.now }
{
    let Some(old) = before(trace, entry, handle) else {
        return false;
    };
    match after(trace, entry, handle) {
        Some(new) => stays(old, new)
            && is_committed(offset, count as u64, &old.contents, &new.contents),
        None => false,
    }
}

/// Whether a prefix of the bytes is put into a file.
#[tactic(auto, unfolding(crate::specs::TurnTests::turns))]
pub(crate) fn begins(
    trace: &Trace,
    entry: usize,
    handle: &Handle,
    offset: u64,
    bytes: &[u8],
) -> bool
    ensures { result ≡ turns (is_broken_off offset bytes.now) trace.now entry handle.now }
{
    let Some(old) = before(trace, entry, handle) else {
        return false;
    };
    match after(trace, entry, handle) {
        Some(new) => stays(old, new) && is_broken_off(offset, bytes, &old.contents, &new.contents),
        None => false,
    }
}

// ---- what a file holds afterwards

/// Whether an object's size is set, if there is one to set; else it holds what it held.
pub(crate) fn is_sized(size: Option<u64>, old: &Contents, new: &Contents) -> bool
    ensures { result ≡ is_sized size old.now new.now }
{
    match size {
        Some(size) => is_cut(size, old, new),
        None => same_contents(old, new),
    }
}

/// Whether a file's bytes, the stable ones too, are cut to the size or grown to it.
fn is_cut(size: u64, old: &Contents, new: &Contents) -> bool
    ensures { result ≡ is_cut size old.now new.now }
{
    match old {
        Contents::File { now, stable } => match new {
            Contents::File {
                now: later,
                stable: steady,
            } => {
                is_resized(size, now.bytes(), later.bytes())
                    && is_resized(size, stable.bytes(), steady.bytes())
            }
            _ => false,
        },
        _ => false,
    }
}

/// Whether a file stays as it was, and holds the bytes at the offset.
fn is_read(
    offset: u64,
    counted: u32,
    eof: bool,
    bytes: &[u8],
    old: &Contents,
    new: &Contents,
) -> bool
    ensures { result ≡ is_read offset counted eof bytes.now old.now new.now }
{
    match old {
        Contents::File { now, stable } => {
            is_file(now.bytes(), stable.bytes(), new)
                && shows_part(offset, counted, eof, bytes, now.bytes())
        }
        _ => false,
    }
}

/// Whether the bytes are those of the file at the offset, and the end is said only if they reach it.
fn shows_part(offset: u64, counted: u32, eof: bool, bytes: &[u8], now: &[u8]) -> bool
    ensures { result ≡ shows_part offset counted eof bytes.now now.now }
{
    is_part(offset, counted as u64, now, bytes)
        && (!eof || now.len() as u64 <= offset.saturating_add(counted as u64))
}

/// Whether bytes are put into a file, and are stable if the reply says so.
fn is_written(committed: u32, offset: u64, bytes: &[u8], old: &Contents, new: &Contents) -> bool
    ensures { result ≡ is_written committed offset bytes.now old.now new.now }
{
    match old {
        Contents::File { now, stable } => match new {
            Contents::File {
                now: later,
                stable: steady,
            } => {
                is_put(offset, bytes, now.bytes(), later.bytes())
                    && is_steady_after(committed, offset, bytes, stable.bytes(), steady.bytes())
            }
            _ => false,
        },
        _ => false,
    }
}

#[tactic(auto, unfolding(crate::specs::TurnTests::is_steady_after))]
fn is_steady_after(committed: u32, offset: u64, bytes: &[u8], stable: &[u8], steady: &[u8]) -> bool
    ensures { result ≡ is_steady_after committed offset bytes.now stable.now steady.now }
{
    if committed == 0 {
        steady == stable
    } else {
        is_put(offset, bytes, stable, steady)
    }
}

/// Whether a file's bytes stay, and a range of them becomes stable.
pub(crate) fn is_committed(offset: u64, count: u64, old: &Contents, new: &Contents) -> bool
    ensures { result ≡ is_committed offset count old.now new.now }
{
    match old {
        Contents::File { now, stable } => match new {
            Contents::File {
                now: later,
                stable: steady,
            } => {
                later.bytes() == now.bytes()
                    && is_put(
                        offset,
                        committed_part(offset, count, now.bytes()),
                        stable.bytes(),
                        steady.bytes(),
                    )
            }
            _ => false,
        },
        _ => false,
    }
}

/// The bytes that a COMMIT speaks of.
pub(crate) fn committed_part(offset: u64, count: u64, now: &[u8]) -> &[u8]
    ensures { result.now ≡ committed_part offset count now.now }
{
    if count == 0 {
        from(now, offset)
    } else {
        up_to(from(now, offset), count)
    }
}

/// Whether a prefix of the bytes is put into a file, and perhaps stable.
fn is_broken_off(offset: u64, bytes: &[u8], old: &Contents, new: &Contents) -> bool
    ensures { result ≡ is_broken_off offset bytes.now old.now new.now }
{
    match old {
        Contents::File { now, stable } => match new {
            Contents::File {
                now: later,
                stable: steady,
            } => is_broken(
                offset,
                bytes,
                now.bytes(),
                stable.bytes(),
                later.bytes(),
                steady.bytes(),
            ),
            _ => false,
        },
        _ => false,
    }
}

/// The same of each length of a prefix.
#[tactic(auto, using(trace_rules::proofs::Below::any_below_steps), unfolding(crate::specs::TurnTests::is_broken))]
fn is_broken(
    offset: u64,
    bytes: &[u8],
    now: &[u8],
    stable: &[u8],
    later: &[u8],
    steady: &[u8],
) -> bool
    ensures { result ≡ is_broken offset bytes.now now.now stable.now later.now steady.now }
{
    let mut count = 0;
    while count <= bytes.len() {
        if is_begun(offset, bytes, now, stable, later, steady, count) {
            return true;
        }
        count += 1;
    }
    false
}

#[tactic(auto, unfolding(crate::specs::TurnTests::is_begun))]
fn is_begun(
    offset: u64,
    bytes: &[u8],
    now: &[u8],
    stable: &[u8],
    later: &[u8],
    steady: &[u8],
    count: usize,
) -> bool
    ensures { result ≡ is_begun offset bytes.now now.now stable.now later.now steady.now count }
{
    let first = up_to(bytes, count as u64);
    is_put(offset, first, now, later) && (steady == stable || is_put(offset, first, stable, steady))
}

// ---- what replies show

/// Whether attributes, if there are any, are those of the object after the entry.
#[tactic(auto, unfolding(crate::specs::TurnTests::shows_attr))]
pub(crate) fn shows_attr(trace: &Trace, entry: usize, handle: &Handle, attr: &Option<Attr>) -> bool
    ensures { result ≡ shows_attr trace.now entry handle.now attr.now }
{
    match attr {
        Some(attr) => match after(trace, entry, handle) {
            Some(object) => same_attr(&object.attr, attr),
            None => false,
        },
        None => true,
    }
}

/// The same of the object before the entry.
#[tactic(auto, unfolding(crate::specs::TurnTests::showed_attr))]
pub(crate) fn showed_attr(trace: &Trace, entry: usize, handle: &Handle, attr: &Option<Attr>) -> bool
    ensures { result ≡ showed_attr trace.now entry handle.now attr.now }
{
    match attr {
        Some(attr) => match before(trace, entry, handle) {
            Some(object) => same_attr(&object.attr, attr),
            None => false,
        },
        None => true,
    }
}

/// Whether a stamp, if there is one, is that of the object before the entry.
#[tactic(auto, unfolding(crate::specs::TurnTests::showed_stamp))]
fn showed_stamp(trace: &Trace, entry: usize, handle: &Handle, stamp: &Option<Stamp>) -> bool
    ensures { result ≡ showed_stamp trace.now entry handle.now stamp.now }
{
    match stamp {
        Some(stamp) => match before(trace, entry, handle) {
            Some(object) => is_stamp(&object.attr.stamp(), stamp),
            None => false,
        },
        None => true,
    }
}

/// Whether a reply says true things of the object before and after the entry.
#[tactic(auto, unfolding(crate::specs::TurnTests::shows_wcc))]
pub(crate) fn shows_wcc(trace: &Trace, entry: usize, handle: &Handle, wcc: &Wcc) -> bool
    ensures { result ≡ shows_wcc trace.now entry handle.now wcc.now }
{
    showed_stamp(trace, entry, handle, &wcc.before) && shows_attr(trace, entry, handle, &wcc.after)
}

/// The same, if both parts speak of the object before the entry.
#[tactic(auto, unfolding(crate::specs::TurnTests::showed_wcc))]
pub(crate) fn showed_wcc(trace: &Trace, entry: usize, handle: &Handle, wcc: &Wcc) -> bool
    ensures { result ≡ showed_wcc trace.now entry handle.now wcc.now }
{
    showed_stamp(trace, entry, handle, &wcc.before) && showed_attr(trace, entry, handle, &wcc.after)
}
