//! Where the lanes of a session are in its script.

ghost use Rattle.std.specs.Prelude.{◌≡◌, ◌≤◌, ◌<◌, ◌-◌, ◌+◌, ◌^◌, IfOk, Some, None, slice_get, slice_set, option_map, replicate, length, MatchOption, ℕ};
ghost use Rattle.lane_session.specs.declared.lanes.Place.{Place as PlaceOf};
ghost use Rattle.std.specs.Bool.{OnFalse, OnTrue};
ghost use Rattle.lane_session.specs.Places.{AreBegun, AreIdle, Ends, IsNext, Seeks};

use limits::LANE_COUNT;
use nfs_script::Script;
use std::alloc::Global;
use std::marker::Model;
use xdr_codec::Memory;

/// Where a lane is in the script.
#[derive(Clone, Copy, Debug, PartialEq, Eq)]
pub struct Place {
    /// Its next line is looked for from here on.
    pub next: usize,
    /// The number of its line that is under way.
    pub line: Option<u32>,
}

/// The sixteen lanes, each with its place in the script.
#[derive(Debug, Drop)]
pub struct Lanes {
    places: Vec<Place>,
}

impl Model for Lanes {
    ghost use Rattle.std.specs.Prelude.{◌≡◌, List, length};
    ghost use Rattle.lane_session.specs.declared.lanes.Place.{Place};

    ghost Value = { List Place };

    ghost view = { λ l. l.places.items };

    ghost invariant = { λ l. length l.places.items ≡ 16 };
}

impl Lanes {
    /// No lane has begun a line.
    pub fn new(alloc: Global) -> Result<Lanes, Memory>
        ensures { IfOk result (λ lanes. lanes ≡ replicate 16 (record { next = 0; line = None })) }
    {
        let mut places = Vec::new(alloc);
        places.resize(
            LANE_COUNT,
            Place {
                next: 0,
                line: None,
            },
        )?;
        Ok(Lanes { places })
    }

    /// The number of the lane's line that is under way.
    pub fn line(&self, lane: u8) -> Option<u32>
        requires least { 1 ≤ lane }
        requires most { lane ≤ 16 }
        ensures { option_map (λ p. p.line) (slice_get self.now (lane - 1)) ≡ Some result }
    {
        self.places[usize::from(lane) - 1].line
    }

    /// The place of the lane's next line. None exactly if it has none left.
    pub fn seek(&mut self, lane: u8, script: &Script) -> Option<usize>
        requires least { 1 ≤ lane }
        requires most { lane ≤ 16 }
        requires within { (n : ℕ) (p : PlaceOf) → slice_get self.old n ≡ Some p → p.next ≤ length script.now }
        ensures { Seeks script.now lane self.old result self.new }
    {
        let before = self.place(lane);
        let next = next_of(script, lane, before.next);
        self.set_place(
            lane,
            Place {
                next,
                line: before.line,
            },
        );
        before_end(next, script.count())
    }

    /// Where the lane is.
    fn place(&self, lane: u8) -> Place
        requires least { 1 ≤ lane }
        requires most { lane ≤ 16 }
        ensures { slice_get self.now (lane - 1) ≡ Some result }
    {
        self.places[usize::from(lane) - 1]
    }

    /// The lane is there now.
    fn set_place(&mut self, lane: u8, place: Place)
        requires least { 1 ≤ lane }
        requires most { lane ≤ 16 }
        ensures { self.new ≡ slice_set self.old (lane - 1) place }
    {
        self.places[usize::from(lane) - 1] = place;
    }

    /// The lane has begun the line of that number at the place.
    pub fn begin(&mut self, lane: u8, place: usize, line: u32)
        requires least { 1 ≤ lane }
        requires most { lane ≤ 16 }
        requires place { place < 2 ^ 64 - 1 }
        ensures { self.new ≡ slice_set self.old (lane - 1) (record { next = place + 1; line = Some line }) }
    {
        self.places[usize::from(lane) - 1] = Place {
            next: place + 1,
            line: Some(line),
        };
    }

    /// The lane's line has its answer.
    pub fn end(&mut self, lane: u8)
        requires least { 1 ≤ lane }
        requires most { lane ≤ 16 }
        ensures { Ends lane self.old self.new }
    {
        self.places[usize::from(lane) - 1].line = None;
    }

    /// Each lane stands before its first line.
    pub fn restart(&mut self)
        ensures { self.new ≡ replicate 16 (record { next = 0; line = None }) }
    {
        self.places.fill(Place {
            next: 0,
            line: None,
        });
    }

    /// Whether each lane has a line under way, or stands at the end of a script of so many lines.
    pub fn have_begun(&self, count: usize) -> bool
        ensures { OnTrue result (AreBegun count self.now) }
    {
        self.places
            .iter()
            .all(|place| place.line.is_some() || place.next == count)
    }

    /// Whether a line is under way.
    pub fn are_busy(&self) -> bool
        ensures idle { OnFalse result (AreIdle self.now) }
        ensures busy { OnTrue result (AreIdle self.now → ⊥) }
    {
        self.places.iter().any(|place| place.line.is_some())
    }
}

/// The place of the first line of the lane from a place on, or the end of the script.
fn next_of(script: &Script, lane: u8, from: usize) -> usize
    requires { from ≤ length script.now }
    ensures { IsNext script.now lane from result }
{
    for place in from..script.count() {
        let (of, _, _) = script.op(place);
        if of == lane {
            return place;
        }
    }
    script.count()
}

/// The place, unless it is the end.
fn before_end(place: usize, end: usize) -> Option<usize>
    ensures { MatchOption result (end ≤ place) (λ at. (at ≡ place) × (place < end)) }
{
    if place < end { Some(place) } else { None }
}
