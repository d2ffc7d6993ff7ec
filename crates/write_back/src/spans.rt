//! The newest pending bytes of one file, as segments in order of their offsets.

ghost use Rattle.std.specs.Prelude.{◌≡◌, ◌+◌, ◌-◌, ◌^◌, ◌<◌, ◌≤◌, [], ◌∷◌, ℕ, List, length, Option, IfOk, IfSome, OnOk, OnErr, IsTrue, ◌↔◌, ◌&&◌, not, map};
ghost use Rattle.std.specs.Option.{option_map};
ghost use Rattle.write_back.specs.Segments.{Segments, Segment, added, before, after, split_flying, split, cut_from, last_end, shown, own_of};
ghost use Rattle.write_back.specs.Changes.{changed, count_changed, all_changed, count_all_changed};
ghost use Rattle.write_back.specs.States.{is_in_flight, is_ready};
ghost use Rattle.write_back.specs.Choice.{may_go, run_from, how_at, gathered, part_of};
ghost use Rattle.write_back.specs.Ages.{Lessens, gone_by, cut_by};
ghost use Rattle.write_back.specs.Cursor.{place_of, waits_upto};
ghost use Rattle.write_back.specs.Walk.{first_that, from_key, one_of, passing, passing_upto, tail_past, split_as};

use crate::ages::Ages;
use crate::change::Change;
use crate::segment::Segment;
use crate::segment_map::SegmentMap;
use crate::sent::{Part, SentPiece};
use crate::state::{Ready, State};
use crate::walks;
use std::alloc::Global;
use std::marker::Model;
use xdr_codec::{Blob, Memory};

/// The newest pending bytes of one file, as segments in order of their offsets. Each has bytes, and no two share a
/// place. A look-up takes time in the logarithm of their number.
#[derive(Drop)]
pub struct Spans {
    map: SegmentMap,
}

impl Model for Spans {
    ghost use Rattle.write_back.specs.Segments.{Segments, AreApart};

    ghost Value = { Segments };

    ghost view = { λ s. s.map };

    ghost invariant = { λ s. AreApart 0 s.map };
}

impl Spans {
    /// No segment.
    pub fn new(alloc: Global) -> Spans
        ensures { result ≡ [] }
    {
        Spans {
            map: SegmentMap::new(alloc),
        }
    }

    /// Whether there is no segment.
    pub fn is_empty(&self) -> bool
        ensures { IsTrue result ↔ (self.now ≡ []) }
    {
        self.map.is_empty()
    }

    /// How many bytes aren't in flight.
    pub fn own(&self) -> u64
        ensures { result ≡ own_of self.now }
    {
        self.map.own()
    }

    /// Where the last byte ends.
    pub fn end(&self) -> Option<u64>
        ensures { result ≡ last_end self.now }
    {
        self.map.end()
    }

    /// Writes the newest byte over each place of `buf` that has one. The first place of `buf` is at `offset`.
    pub fn overlay(&self, offset: u64, buf: &mut [u8])
        ensures { buf.new ≡ shown self.now offset buf.old }
    {
        walks::overlay(&self.map, offset, buf);
    }

    /// Lays new bytes at an offset, and takes away what older segments have there. When out of memory nothing is
    /// changed.
    pub fn put(
        &mut self,
        alloc: Global,
        offset: u64,
        bytes: &Blob,
        number: u64,
    ) -> Result<(), Memory>
        requires some { 0 < length bytes.now }
        requires last { offset + length bytes.now ≤ 2 ^ 63 - 1 }
        ensures ok { OnOk result (self.new ≡ added offset bytes.now number self.old) }
        ensures err { OnErr result (self.new ≡ self.old) }
    {
        let end = offset + bytes.len() as u64;
        let segment = Segment::of(alloc, bytes, number, State::Waiting(Ready::Unsent))?;
        let tail = self.tail_past(alloc, end)?;
        let cut = self.passing_at(offset);
        self.map.lay_both(offset, segment, end, tail)?;
        self.map.end_at(cut, offset);
        self.map.clear(offset + 1, end);
        Ok(())
    }

    /// The segment that goes on past a place.
    fn passing(&self, place: u64) -> Option<(u64, &Segment)>
        ensures told { option_map (λ p. (p.0, p.1.now)) result ≡ passing place self.now }
        ensures inside { IfSome result (λ p. (p.0 < place) × (place < p.0 + length p.1.now.bytes)) }
    {
        let (at, segment) = self.map.last_before(place)?;
        let (size, into) = (segment.len(), place - at);
        if size <= into {
            return None;
        }
        Some((at, segment))
    }

    /// Where that segment begins.
    fn passing_at(&self, place: u64) -> Option<u64>
        ensures told { result ≡ option_map (λ e. e.0) (passing place self.now) }
        ensures inside { IfSome result (λ at. at ≤ place) }
    {
        let (at, _) = self.passing(place)?;
        Some(at)
    }

    /// Where it begins, if its number is at most another.
    fn passing_upto(&self, place: u64, upto: u64) -> Option<u64>
        ensures told { result ≡ passing_upto place upto self.now }
        ensures inside { IfSome result (λ at. at ≤ place) }
    {
        let (at, segment) = self.passing(place)?;
        let number = segment.number();
        if upto < number {
            return None;
        }
        Some(at)
    }

    /// A copy of the bytes that it has past that place.
    fn tail_past(&self, alloc: Global, place: u64) -> Result<Option<Segment>, Memory>
        ensures { IfOk result (λ tail. tail ≡ tail_past place self.now) }
    {
        let Some((at, segment)) = self.passing(place) else {
            return Ok(None);
        };
        Ok(Some(segment.tail(alloc, (place - at) as usize)?))
    }

    /// The segment that goes on past a place is cut there. If it isn't in flight it stays if `flying` is said. When
    /// out of memory nothing is changed.
    pub fn split(&mut self, alloc: Global, place: u64, flying: bool) -> Result<(), Memory>
        ensures ok { OnOk result (self.new ≡ split_as flying place self.old) }
        ensures err { OnErr result (self.new ≡ self.old) }
    {
        let Some((at, segment)) = self.passing(place) else {
            return Ok(());
        };
        if stays_whole(segment, flying) {
            return Ok(());
        }
        let tail = segment.tail(alloc, (place - at) as usize)?;
        self.map.cut(at, place, tail)?;
        Ok(())
    }

    /// Changes the segments that begin between two places, the second left out, and counts those that went or have
    /// another kind of state.
    pub fn change(&mut self, low: u64, high: u64, change: Change) -> u64
        requires { low ≤ high }
        ensures after { self.new ≡ changed change low high self.old }
        ensures count { result ≡ count_changed change low high self.old }
    {
        self.map.change(low, high, change)
    }

    /// Changes every segment, and counts those that went or have another kind of state.
    pub fn change_all(&mut self, change: Change) -> u64
        ensures after { self.new ≡ all_changed change self.old }
        ensures count { result ≡ count_all_changed change self.old }
    {
        self.map.change(0, u64::MAX, change)
    }

    /// Bytes at a place and after it go, of segments with a number up to another.
    pub fn cut(&mut self, size: u64, upto: u64)
        ensures { self.new ≡ cut_from size upto self.old }
    {
        let cut = self.passing_upto(size, upto);
        self.map.end_at(cut, size);
        self.map.change(size, u64::MAX, Change::Drop(upto));
    }

    /// Where the first segment begins, from a place on, that may be sent by its state.
    pub fn first_ready(&self, from: u64) -> Option<u64>
        ensures { result ≡ option_map (λ e. e.0) (first_that (λ e. is_ready e.1.state) from self.now) }
    {
        walks::first_ready(&self.map, from)
    }

    /// Where the first segment begins, from a place on, that may be sent by its state and whose number is at most
    /// `upto`; past all if there is none.
    pub fn first_waiting(&self, from: u64, upto: u64) -> u64
        ensures { result ≡ place_of (first_that (λ e. waits_upto upto e.1) from self.now) }
    {
        walks::first_waiting(&self.map, from, upto)
    }

    /// Where the first segment begins, from a place on, that may go: its state allows it, its number is at most `upto`,
    /// and it shares no place with what is in flight.
    pub fn first_to_go(&self, from: u64, upto: u64, sent: &[SentPiece]) -> Option<u64>
        ensures told { result ≡ option_map (λ e. e.0) (first_that (may_go sent.now upto) from self.now) }
        ensures small { IfSome result (λ at. at < 2 ^ 63) }
    {
        walks::first_to_go(&self.map, from, upto, sent)
    }

    /// The piece that begins at a segment that may go: it goes on through segments that touch it, may go and are to be
    /// sent alike, until it has `room` bytes.
    pub fn gather(
        &self,
        alloc: Global,
        first: u64,
        upto: u64,
        room: usize,
        xid: u32,
        sent: &[SentPiece],
    ) -> Result<SentPiece, Memory>
        requires { first < 2 ^ 63 }
        ensures { IfOk result (λ piece. piece ≡ gathered xid first (run_from sent.now upto (how_at first self.now) first room (from_key first self.now)) (how_at first self.now)) }
    {
        walks::gather(&self.map, alloc, first, upto, room, xid, sent)
    }

    /// The parts that segments have from one place to another, in order.
    pub fn covered(&self, alloc: Global, low: u64, high: u64) -> Result<Vec<Part>, Memory>
        requires { low < high }
        ensures { IfOk result (λ parts. parts.items ≡ map part_of (before high (after low self.now))) }
    {
        walks::covered(&self.map, alloc, low, high)
    }

    /// What is kept of the writes loses the bytes of some segments. They begin between two places, the second left out,
    /// and a change takes them away.
    pub fn lessen_gone(&self, low: u64, high: u64, change: Change, ages: &mut Ages)
        requires { low ≤ high }
        ensures { Lessens (λ n. gone_by change low high n self.now) ages.old ages.new }
    {
        walks::lessen_gone(&self.map, low, high, change, ages);
    }

    /// What is kept of the writes loses the bytes at a place and after it, of segments with a number up to another.
    pub fn lessen_cut(&self, size: u64, upto: u64, ages: &mut Ages)
        ensures { Lessens (λ n. cut_by size upto n self.now) ages.old ages.new }
    {
        lessen_tail(self.passing(size), size, upto, ages);
        walks::lessen_gone(&self.map, size, u64::MAX, Change::Drop(upto), ages);
    }
}

/// What is kept of its write loses the bytes of a segment past a place, if there is one that goes on past it. That is
/// so if its number is at most another.
fn lessen_tail(segment: Option<(u64, &Segment)>, place: u64, upto: u64, ages: &mut Ages)
    requires { IfSome segment (λ p. (p.0 < place) × (place < p.0 + length p.1.now.bytes)) }
    ensures { Lessens (λ n. cut_by place upto n (one_of (option_map (λ p. (p.0, p.1.now)) segment.entry))) ages.old ages.new }
{
    let Some((at, segment)) = segment else {
        return;
    };
    if segment.number() <= upto {
        ages.lessen(segment.number(), segment.len() - (place - at));
    }
}

/// Whether a segment isn't cut, as it isn't in flight and only such are.
fn stays_whole(segment: &Segment, flying: bool) -> bool
    ensures { result ≡ (flying && not (is_in_flight segment.now.state)) }
{
    flying && !segment.state().is_in_flight()
}
