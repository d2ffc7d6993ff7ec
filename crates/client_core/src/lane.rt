//! A lane, in which operations run one after the other.

ghost use Rattle.std.specs.Prelude.{◌≡◌, None, position, map};
ghost use Rattle.std.specs.Bool.{OnTrue};
ghost use Rattle.client_shelf.specs.Coming.{reply_of};
ghost use Rattle.op_machines.specs.MayStep.{MayStep};
ghost use Rattle.client_core.specs.Lanes.{is_busy, is_over, least_by, least_answered, StateRests, LaneRests, lost_state, lost_lane, StateFits, LaneFits, StateResumes, StateTakes, LaneResumes, LaneTakes};
ghost use Rattle.client_core.specs.declared.lane.State.TheVariants as states;

use client_shelf::{Came, Shelf, Step, Turn};
use op_machines::Machine;
use std::alloc::Global;
use std::mem;
use world_model::{Answer, Fault};

/// What a call was made for.
#[derive(Clone, Copy, Debug, PartialEq, Eq)]
pub struct Purpose {
    /// The lane whose operation asked for it.
    pub lane: u8,
    /// The number of its procedure.
    pub proc: u32,
    /// The turn of the step that asked for it.
    pub sent: Turn,
}

/// How far the operation of a lane has come.
#[derive(Drop)]
pub enum State {
    /// It is under way.
    Busy(Machine),
    /// It has its answer.
    Over(Answer),
}

/// A lane with an operation that has begun and whose answer wasn't fetched.
#[derive(Drop)]
pub struct Lane {
    /// The lane, 1 to 16.
    pub number: u8,
    /// How far its operation has come.
    pub state: State,
}

impl State {
    /// Whether it waits for a call of its own or for its turn, or has its answer: a step that no reply made possible does
    /// nothing.
    fn rests(&self, shelf: &Shelf) -> bool
        ensures { OnTrue result (StateRests self.now shelf.now) }
    {
        match self {
            State::Busy(machine) => machine.rests(shelf),
            State::Over(_) => true,
        }
    }

    /// The operation goes on, as far as it can. One that has its answer waits.
    fn resume(&mut self, alloc: Global, wsize: u32, turn: Turn, shelf: &mut Shelf) -> Step
        requires may { MayStep wsize turn shelf.old }
        ensures { StateResumes wsize self.old turn shelf.old result self.new shelf.new }
    {
        match self {
            State::Busy(machine) => machine.resume(alloc, wsize, turn, shelf),
            State::Over(_) => Step::Wait,
        }
    }

    /// The operation takes what came of the call that its step with the turn `sent` asked for. One that has its answer
    /// waits.
    fn took(
        &mut self,
        alloc: Global,
        wsize: u32,
        sent: Turn,
        came: &Came<'_>,
        turn: Turn,
        shelf: &mut Shelf,
    ) -> Step
        requires fits { StateFits self.old }
        requires may { MayStep wsize turn shelf.old }
        ensures { StateTakes wsize self.old sent turn (reply_of came.now) shelf.old result self.new shelf.new }
    {
        match self {
            State::Busy(machine) => machine.took(alloc, wsize, sent, came, turn, shelf),
            State::Over(_) => Step::Wait,
        }
    }
}

impl Lane {
    /// Whether its operation waits for a call of its own or for its turn, or has its answer.
    pub(crate) fn rests(&self, shelf: &Shelf) -> bool
        ensures { OnTrue result (LaneRests self.now shelf.now) }
    {
        self.state.rests(shelf)
    }

    /// Its operation goes on, as far as it can.
    pub(crate) fn resume(
        &mut self,
        alloc: Global,
        wsize: u32,
        turn: Turn,
        shelf: &mut Shelf,
    ) -> Step
        requires may { MayStep wsize turn shelf.old }
        ensures { LaneResumes wsize self.old turn shelf.old result self.new shelf.new }
    {
        self.state.resume(alloc, wsize, turn, shelf)
    }

    /// Its operation takes what came of the call that its step with the turn `sent` asked for.
    pub(crate) fn took(
        &mut self,
        alloc: Global,
        wsize: u32,
        sent: Turn,
        came: &Came<'_>,
        turn: Turn,
        shelf: &mut Shelf,
    ) -> Step
        requires fits { LaneFits self.old }
        requires may { MayStep wsize turn shelf.old }
        ensures { LaneTakes wsize self.old sent turn (reply_of came.now) shelf.old result self.new shelf.new }
    {
        self.state.took(alloc, wsize, sent, came, turn, shelf)
    }

    /// Its operation has its answer.
    pub(crate) fn end(&mut self, answer: Answer)
        ensures { self.new ≡ record { number = self.old.number; state = states.Over answer } }
    {
        // Dropped by a call, since the prover takes a drop in place apart, field by field.
        drop(mem::replace(&mut self.state, State::Over(answer)));
    }

    /// The lesser of a number and its own, if it has its answer.
    fn least_with(&self, least: Option<u8>) -> Option<u8>
        ensures { result ≡ least_by least self.now.number self.now.state }
    {
        match self.state {
            State::Busy(_) => least,
            State::Over(_) => match least {
                Some(least) => Some(least.min(self.number)),
                None => Some(self.number),
            },
        }
    }

    /// Lost, unless it has its answer.
    fn lose(&mut self)
        ensures { self.new ≡ lost_lane self.old }
    {
        if let State::Busy(_) = self.state {
            self.end(Answer::Refused(Fault::Lost));
        }
    }
}

/// The place of the lane of a number, if its operation is under way.
pub(crate) fn busy_at(lanes: &[Lane], number: u8) -> Option<usize>
    ensures { result ≡ position (is_busy number) lanes.now }
{
    lanes.iter().position(|lane| match lane.state {
        State::Busy(_) => lane.number == number,
        State::Over(_) => false,
    })
}

/// The place of the lane of a number, if it has its answer.
pub(crate) fn over_at(lanes: &[Lane], number: u8) -> Option<usize>
    ensures { result ≡ position (is_over number) lanes.now }
{
    lanes.iter().position(|lane| match lane.state {
        State::Busy(_) => false,
        State::Over(_) => lane.number == number,
    })
}

/// The least number of those that have their answer.
pub(crate) fn least_answered(lanes: &[Lane]) -> Option<u8>
    ensures { result ≡ least_answered None lanes.now }
{
    let mut least = None;
    for lane in lanes {
        least = lane.least_with(least);
    }
    least
}

/// All that have no answer are answered `Lost`.
pub(crate) fn lose_all(lanes: &mut [Lane])
    ensures { lanes.new ≡ map lost_lane lanes.old }
{
    for lane in lanes.iter_mut() {
        lane.lose();
    }
}
