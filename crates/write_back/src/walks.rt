//! Walks over the segments of a file, in order.

ghost use Rattle.std.specs.Prelude.{◌≡◌, ◌+◌, ◌^◌, ◌<◌, ◌≤◌, [], ◌∷◌, ◌++◌, length, take, drop, IfOk, IfSome, OnOk, ◌&&◌, nat_eq, nat_lt, if◌then◌else◌, map as map_list};
ghost use Rattle.std.specs.Option.{option_map};
ghost use Rattle.write_back.specs.States.{is_ready};
ghost use Rattle.write_back.specs.Segments.{AreApart, head_of, shown, before, after};
ghost use Rattle.write_back.specs.Choice.{may_go, how_of_segment, run_from, how_at, gathered, with_run, part_of};
ghost use Rattle.write_back.specs.Pieces.{end_of_sent};
ghost use Rattle.write_back.specs.Ages.{Lessens, gone_by, is_gone};
ghost use Rattle.write_back.specs.Changes.{fate};
ghost use Rattle.write_back.specs.Walk.{first_that, from_key, one_of};
ghost use Rattle.write_back.specs.Cursor.{place_of, waits_upto};

use crate::ages::Ages;
use crate::change::Change;
use crate::segment::Segment;
use crate::segment_map::SegmentMap;
use crate::sent::{Part, SentPiece, overlaps};
use std::alloc::Global;
use xdr_codec::Memory;

/// Where the first segment begins, from a place on, that may be sent by its state. No two share a place.
pub fn first_ready(map: &SegmentMap, from: u64) -> Option<u64>
    requires { AreApart 0 map.now }
    ensures { result ≡ option_map (λ e. e.0) (first_that (λ e. is_ready e.1.state) from map.now) }
{
    for (at, segment) in map.from_place(from) {
        if segment.state().is_ready() {
            return Some(*at);
        }
    }
    None
}

/// Where the first segment begins, from a place on, that may be sent by its state and whose number is at most `upto`; past
/// all if there is none. No two share a place.
pub fn first_waiting(map: &SegmentMap, from: u64, upto: u64) -> u64
    requires { AreApart 0 map.now }
    ensures { result ≡ place_of (first_that (λ e. waits_upto upto e.1) from map.now) }
{
    for (at, segment) in map.from_place(from) {
        if waits(segment, upto) {
            return *at;
        }
    }
    u64::MAX
}

/// Whether a segment may be sent by its state, and its number is at most `upto`.
fn waits(segment: &Segment, upto: u64) -> bool
    ensures { result ≡ waits_upto upto segment.now }
{
    segment.state().is_ready() && segment.number() <= upto
}

/// Where the first segment begins, from a place on, that may go. No two share a place.
pub fn first_to_go(map: &SegmentMap, from: u64, upto: u64, sent: &[SentPiece]) -> Option<u64>
    requires { AreApart 0 map.now }
    ensures told { result ≡ option_map (λ e. e.0) (first_that (may_go sent.now upto) from map.now) }
    ensures small { IfSome result (λ at. at < 2 ^ 63) }
{
    for (at, segment) in map.from_place(from) {
        if may_go(*at, segment, upto, sent) {
            return Some(*at);
        }
    }
    None
}

/// The piece that begins at a segment that may go: it goes on through segments that touch it, may go and are to be sent
/// alike, until it has `room` bytes. No two share a place.
pub fn gather(
    map: &SegmentMap,
    alloc: Global,
    first: u64,
    upto: u64,
    room: usize,
    xid: u32,
    sent: &[SentPiece],
) -> Result<SentPiece, Memory>
    requires apart { AreApart 0 map.now }
    requires small { first < 2 ^ 63 }
    ensures { IfOk result (λ piece. piece ≡ gathered xid first (run_from sent.now upto (how_at first map.now) first room (from_key first map.now)) (how_at first map.now)) }
{
    let how = how_at(map, first);
    let mut piece = SentPiece::new(alloc, xid, first, how);
    while let Some(segment) = map.at(piece.end()) {
        let left = room - piece.bytes().len();
        if !goes_on(piece.end(), segment, how, left, upto, sent) {
            return Ok(piece);
        }
        take_from(alloc, &mut piece, segment, left)?;
    }
    Ok(piece)
}

/// Whether a segment may go, is to be sent as told, and there is room for some of it.
fn goes_on(at: u64, segment: &Segment, how: u32, room: usize, upto: u64, sent: &[SentPiece]) -> bool
    requires { at + length segment.now.bytes < 2 ^ 64 }
    ensures { result ≡ (may_go sent.now upto (at, segment.now) && nat_eq (how_of_segment (at, segment.now)) how && nat_lt 0 room) }
{
    may_go(at, segment, upto, sent) && segment.state().ready().how() == how && room > 0
}

/// Takes the first bytes of a segment, at most `room`, into a piece.
fn take_from(
    alloc: Global,
    piece: &mut SentPiece,
    segment: &Segment,
    room: usize,
) -> Result<(), Memory>
    ensures { OnOk result (piece.new ≡ with_run piece.old ((end_of_sent piece.old, head_of room segment.now) ∷ [])) }
{
    piece.take(
        segment.head(alloc, room)?,
        segment.number(),
        segment.state().ready(),
    )
}

/// How the segment at an offset is to be sent.
fn how_at(map: &SegmentMap, at: u64) -> u32
    ensures { result ≡ how_at at map.now }
{
    match map.at(at) {
        None => 0,
        Some(segment) => segment.state().ready().how(),
    }
}

/// Whether a segment may go: its state allows it, its number is at most `upto`, and it shares no place with what is in
/// flight.
fn may_go(at: u64, segment: &Segment, upto: u64, sent: &[SentPiece]) -> bool
    requires { at + length segment.now.bytes < 2 ^ 64 }
    ensures { result ≡ may_go sent.now upto (at, segment.now) }
{
    segment.state().is_ready()
        && segment.number() <= upto
        && !overlaps(sent, at, at + segment.len())
}

/// The parts that segments have from one place to another, in order. No two share a place.
pub fn covered(map: &SegmentMap, alloc: Global, low: u64, high: u64) -> Result<Vec<Part>, Memory>
    requires apart { AreApart 0 map.now }
    requires forward { low < high }
    ensures { IfOk result (λ parts. parts.items ≡ map_list part_of (before high (after low map.now))) }
{
    let mut parts = Vec::new(alloc);
    push_covered(&mut parts, map.last_before(low), low, high)?;
    let mut next = low;
    while let Some((at, segment)) = map.first_between(next, high) {
        push_covered(&mut parts, Some((at, segment)), low, high)?;
        next = at + 1;
    }
    Ok(parts)
}

/// Adds the part that a segment, if there is one, has from one place to another, if it has one there. The segment has
/// bytes.
fn push_covered(
    parts: &mut Vec<Part>,
    segment: Option<(u64, &Segment)>,
    low: u64,
    high: u64,
) -> Result<(), Memory>
    requires forward { low < high }
    requires some { IfSome segment (λ p. 0 < length p.1.now.bytes) }
    ensures { OnOk result (parts.new.items ≡ parts.old.items ++ map_list part_of (before high (after low (one_of (option_map (λ p. (p.0, p.1.now)) segment.entry))))) }
{
    let Some((at, segment)) = segment else {
        return Ok(());
    };
    let (start, end) = (at.max(low), at.saturating_add(segment.len()).min(high));
    if start < end {
        parts.push(Part {
            size: end - start,
            number: segment.number(),
            before: segment.state().ready(),
        })?;
    }
    Ok(())
}

/// What is kept of the writes loses the bytes of some segments. They begin between two places, the second left out, and a
/// change takes them away. No two share a place.
pub fn lessen_gone(map: &SegmentMap, low: u64, high: u64, change: Change, ages: &mut Ages)
    requires apart { AreApart 0 map.now }
    requires forward { low ≤ high }
    ensures { Lessens (λ n. gone_by change low high n map.now) ages.old ages.new }
{
    let mut next = low;
    while let Some((at, segment)) = map.first_between(next, high) {
        lessen_one(segment, change, ages);
        next = at + 1;
    }
}

/// What is kept of its write loses the bytes of a segment, if a change takes it away.
fn lessen_one(segment: &Segment, change: Change, ages: &mut Ages)
    ensures { Lessens (λ n. if is_gone (fate change segment.now.number segment.now.state) && nat_eq segment.now.number n then length segment.now.bytes else 0) ages.old ages.new }
{
    if change.fate(segment.number(), segment.state()).is_none() {
        ages.lessen(segment.number(), segment.len());
    }
}

/// Writes the newest byte over each place of `buf` that has one. The first place of `buf` is at `offset`. No two segments
/// share a place.
pub fn overlay(map: &SegmentMap, offset: u64, buf: &mut [u8])
    requires { AreApart 0 map.now }
    ensures { buf.new ≡ shown map.now offset buf.old }
{
    show_any(map.last_before(offset), offset, buf);
    let end = offset.saturating_add(buf.len() as u64);
    let mut next = offset;
    while let Some((at, segment)) = map.first_between(next, end) {
        show(at, segment, offset, buf);
        next = at + 1;
    }
}

/// Writes the bytes of a segment, if there is one, over those of `buf` that stand at the same places.
fn show_any(segment: Option<(u64, &Segment)>, offset: u64, buf: &mut [u8])
    ensures { buf.new ≡ shown (one_of (option_map (λ p. (p.0, p.1.now)) segment.entry)) offset buf.old }
{
    let Some((at, segment)) = segment else {
        return;
    };
    show(at, segment, offset, buf);
}

/// Writes the bytes of a segment that begins at a place over those of `buf` that stand at the same places.
fn show(at: u64, segment: &Segment, offset: u64, buf: &mut [u8])
    ensures { buf.new ≡ shown ((at, segment.now) ∷ []) offset buf.old }
{
    let bytes = segment.bytes();
    let skip = offset.saturating_sub(at) as usize;
    let start = at.saturating_sub(offset) as usize;
    let size = bytes
        .len()
        .saturating_sub(skip)
        .min(buf.len().saturating_sub(start));
    if size == 0 {
        return;
    }
    let part = &bytes[skip..skip + size];
    overwrite(buf, start, part);
}

/// Overwrites the bytes from a place on with others.
fn overwrite(bytes: &mut [u8], start: usize, others: &[u8])
    requires { start + length others.now ≤ length bytes.old }
    ensures { bytes.new ≡ take start bytes.old ++ others.now ++ drop (start + length others.now) bytes.old }
{
    bytes[start..start + others.len()].copy_from_slice(others);
}
