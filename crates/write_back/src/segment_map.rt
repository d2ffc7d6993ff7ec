//! Segments by offset, with a count of their bytes.

ghost use Rattle.std.specs.Prelude.{◌≡◌, ◌↔◌, IsTrue, ◌+◌, ◌-◌, ◌^◌, ◌<◌, ◌≤◌, [], ℕ, if◌then◌else◌, length, Option, None, IfSome, OnOk, OnErr};
ghost use Rattle.std.specs.Option.{option_map};
ghost use Rattle.write_back.specs.States.{is_changed};
ghost use Rattle.write_back.specs.Changes.{fate, changed, count_changed};
ghost use Rattle.write_back.specs.Segments.{Segments, Segment, AreApart, head_of, with_state, own_bytes, own_in, own_of, last_end};
ghost use Rattle.write_back.specs.Walk.{at_place, begun_from, ended_at, first_between, last_before, laid, laid_tail, left_at, taken_out, turned, shortened, without_between};

use crate::change::Change;
use crate::segment::Segment;
use crate::state::State;
use std::alloc::Global;
use std::collections::BTreeMap;
use std::collections::btree_map::Range;
use std::marker::Model;
use xdr_codec::Memory;

/// Segments by offset, and how many bytes they have that aren't in flight. Each call takes time in the logarithm of the
/// number of segments.
#[derive(Drop)]
pub struct SegmentMap {
    entries: BTreeMap<u64, Segment>,
    own: u64,
}

impl Model for SegmentMap {
    ghost use Rattle.std.specs.Prelude.{◌≡◌};
    ghost use Rattle.write_back.specs.Segments.{Segments, own_of};

    ghost Value = { Segments };

    ghost view = { λ m. m.entries.entries };

    ghost invariant = { λ m. m.own ≡ own_of m.entries.entries };
}

impl SegmentMap {
    /// No segment.
    pub fn new(alloc: Global) -> SegmentMap
        ensures { result ≡ [] }
    {
        SegmentMap {
            entries: BTreeMap::new(alloc),
            own: 0,
        }
    }

    /// How many bytes aren't in flight.
    pub fn own(&self) -> u64
        ensures { result ≡ own_of self.now }
    {
        self.own
    }

    /// Whether there is no segment.
    pub fn is_empty(&self) -> bool
        ensures { IsTrue result ↔ (self.now ≡ []) }
    {
        self.entries.is_empty()
    }

    /// Where the last segment ends. No two share a place.
    pub fn end(&self) -> Option<u64>
        requires { AreApart 0 self.now }
        ensures { result ≡ last_end self.now }
    {
        let (at, segment) = self.entries.last_key_value()?;
        Some(*at + segment.len())
    }

    /// The segment that begins at a place.
    pub fn at(&self, place: u64) -> Option<&Segment>
        ensures { option_map (λ s. s.now) result ≡ at_place place self.now }
    {
        self.entries.get(&place)
    }

    /// The first segment that begins between two places, the second left out.
    pub fn first_between(&self, low: u64, high: u64) -> Option<(u64, &Segment)>
        requires { low ≤ high }
        ensures { option_map (λ p. (p.0, p.1.now)) result ≡ first_between low high self.now }
    {
        let (at, segment) = self.entries.range(low..high).next()?;
        Some((*at, segment))
    }

    /// The segments that begin at a place or after it, in order. A step from one to the next takes the same time however
    /// many there are.
    pub fn from_place(&self, place: u64) -> Range<'_, u64, Segment>
        ensures { result ≡ begun_from place self.now }
    {
        self.entries.range(place..)
    }

    /// The last segment that begins before a place.
    pub fn last_before(&self, place: u64) -> Option<(u64, &Segment)>
        ensures { option_map (λ p. (p.0, p.1.now)) result ≡ last_before place self.now }
    {
        let (at, segment) = self.entries.range(..place).next_back()?;
        Some((*at, segment))
    }

    /// Lays a segment at a place, over the one that begins there. When out of memory nothing is changed.
    pub fn lay(&mut self, at: u64, segment: Segment) -> Result<(), Memory>
        requires { own_of self.old + own_bytes (at, segment) < 2 ^ 64 }
        ensures ok { OnOk result (self.new ≡ laid at segment self.old) }
        ensures err { OnErr result (self.new ≡ self.old) }
    {
        let size = segment.own_len();
        let older = self.entries.insert(at, segment)?;
        self.own = self.own + size - own_len_of(&older);
        Ok(())
    }

    /// The segment that begins at a place goes.
    pub fn take_out(&mut self, at: u64)
        ensures { self.new ≡ taken_out at self.old }
    {
        let older = self.entries.remove(&at);
        self.own -= own_len_of(&older);
    }

    /// Something else became of the segment that begins at a place.
    pub fn turn(&mut self, at: u64, state: State)
        requires { own_of self.old < 2 ^ 63 }
        ensures { self.new ≡ turned at state self.old }
    {
        let (before, after) = turn_at(&mut self.entries, at, state);
        self.own = self.own - before + after;
    }

    /// The segment that begins at a place keeps its first bytes alone.
    pub fn shorten(&mut self, at: u64, len: u64)
        ensures { self.new ≡ shortened at len self.old }
    {
        let (before, after) = shorten_at(&mut self.entries, at, len);
        self.own = self.own - before + after;
    }

    /// The segment that begins at a place, if one is named, ends at another.
    pub fn end_at(&mut self, at: Option<u64>, place: u64)
        requires { IfSome at (λ a. a ≤ place) }
        ensures { self.new ≡ ended_at at place self.old }
    {
        if let Some(at) = at {
            self.shorten(at, place - at);
        }
    }

    /// What is left of the segment that begins at a place. None: it goes.
    pub fn leave(&mut self, at: u64, left: Option<State>)
        requires { own_of self.old < 2 ^ 63 }
        ensures { self.new ≡ left_at at left self.old }
    {
        match left {
            None => self.take_out(at),
            Some(state) => self.turn(at, state),
        }
    }

    /// Lays a segment at a place, where another one ends then. When out of memory nothing is changed.
    pub fn cut(&mut self, at: u64, place: u64, tail: Segment) -> Result<(), Memory>
        requires order { at ≤ place }
        requires room { own_of self.old + own_bytes (place, tail) < 2 ^ 64 }
        ensures ok { OnOk result (self.new ≡ shortened at (place - at) (laid place tail self.old)) }
        ensures err { OnErr result (self.new ≡ self.old) }
    {
        self.lay(place, tail)?;
        self.shorten(at, place - at);
        Ok(())
    }

    /// Lays a segment at a place, and before that the tail of another one, if there is one, where none begins. When
    /// out of memory nothing is changed.
    pub fn lay_both(
        &mut self,
        at: u64,
        segment: Segment,
        end: u64,
        tail: Option<Segment>,
    ) -> Result<(), Memory>
        requires free { IfSome tail (λ _. at_place end self.old ≡ None) }
        requires room { own_of (laid_tail end tail self.old) + own_bytes (at, segment) < 2 ^ 64 }
        ensures ok { OnOk result (self.new ≡ laid at segment (laid_tail end tail self.old)) }
        ensures err { OnErr result (self.new ≡ self.old) }
    {
        let Some(tail) = tail else {
            return self.lay(at, segment);
        };
        self.lay(end, tail)?;
        if let Err(memory) = self.lay(at, segment) {
            self.take_out(end);
            return Err(memory);
        }
        Ok(())
    }

    /// The segments that begin between two places go, the second left out.
    pub fn clear(&mut self, low: u64, high: u64)
        requires { low ≤ high }
        ensures { self.new ≡ without_between low high self.old }
    {
        while let Some((at, _)) = self.first_between(low, high) {
            self.take_out(at);
        }
    }
    /// What a change leaves of the segment that begins at a place, with this number and state. Whether it goes or has
    /// another kind of state: 1 then, else 0.
    fn change_at(&mut self, at: u64, number: u64, state: State, change: Change) -> u64
        requires { own_of self.old < 2 ^ 63 }
        ensures after { self.new ≡ left_at at (fate change number state) self.old }
        ensures count { result ≡ (if is_changed state (fate change number state) then 1 else 0) }
        ensures small { result ≤ 1 }
    {
        let left = change.fate(number, state);
        self.leave(at, left);
        if state.is_changed(left) { 1 } else { 0 }
    }

    /// Changes the segments that begin between two places, the second left out, and counts those that went or have
    /// another kind of state. No two share a place.
    pub fn change(&mut self, low: u64, high: u64, change: Change) -> u64
        requires forward { low ≤ high }
        requires apart { AreApart 0 self.old }
        ensures after { self.new ≡ changed change low high self.old }
        ensures count { result ≡ count_changed change low high self.old }
    {
        let mut count = 0;
        let mut next = low;
        while let Some((at, segment)) = self.first_between(next, high) {
            let (number, state) = (segment.number(), segment.state());
            count += self.change_at(at, number, state, change);
            next = at + 1;
        }
        count
    }
}

/// How many bytes of a segment count for themselves; none if there is none.
fn own_len_of(segment: &Option<Segment>) -> u64
    ensures len { result ≡ own_in segment.now }
    ensures small { result < 2 ^ 63 }
{
    match segment {
        None => 0,
        Some(segment) => segment.own_len(),
    }
}

/// Something else became of the segment that begins at a place. How many of its bytes counted for themselves before and
/// after.
fn turn_at(entries: &mut BTreeMap<u64, Segment>, at: u64, state: State) -> (u64, u64)
    ensures entries { entries.new.entries ≡ turned at state entries.old.entries }
    ensures before { result.0 ≡ own_in (at_place at entries.old.entries) }
    ensures after { result.1 ≡ own_in (option_map (with_state state) (at_place at entries.old.entries)) }
    ensures small { result.1 < 2 ^ 63 }
{
    let Some(segment) = entries.get_mut(&at) else {
        return (0, 0);
    };
    let before = segment.own_len();
    segment.turn(state);
    (before, segment.own_len())
}

/// The segment that begins at a place keeps its first bytes alone. How many of its bytes counted for themselves before
/// and after.
fn shorten_at(entries: &mut BTreeMap<u64, Segment>, at: u64, len: u64) -> (u64, u64)
    ensures entries { entries.new.entries ≡ shortened at len entries.old.entries }
    ensures before { result.0 ≡ own_in (at_place at entries.old.entries) }
    ensures after { result.1 ≡ own_in (option_map (head_of len) (at_place at entries.old.entries)) }
    ensures less { result.1 ≤ result.0 }
{
    let Some(segment) = entries.get_mut(&at) else {
        return (0, 0);
    };
    let before = segment.own_len();
    segment.shorten(len as usize);
    (before, segment.own_len())
}
