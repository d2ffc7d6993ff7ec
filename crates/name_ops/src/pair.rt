//! Two paths are walked, one after the other, and one call is made on the objects to which they lead.

ghost use Rattle.std.specs.Prelude.{◌≡◌, false};
ghost use Rattle.client_shelf.specs.Coming.{reply_of};
ghost use Rattle.name_ops.specs.Pairs.{pair_of, asks_next, asks_after, led_second, second_kept, second_next, second_after, second_shelf, led_first, first_kept, first_shelf, on_next, on_after, on_shelf, pair_next, pair_after, pair_shelf, TakesFirst, TakesSecond, PairTakes};

use crate::walk::{Walk, WalkStep};
use client_shelf::{Came, Shelf, Turn};
use nfs_types::Handle;
use world_model::{Call, Fault, Path};

/// What a step of two walks comes to.
#[derive(Debug, Drop)]
pub enum PairStep {
    /// It asks for this call of a walk.
    Look(Call),
    /// It waits for a reply or for room.
    Wait,
    /// The paths lead to these objects, and there is room for the call on them.
    Ask(Handle, Handle),
    /// It was refused.
    Refused(Fault),
}

/// Two walks, and then one call.
#[derive(Debug, Drop)]
pub struct Pair {
    /// Finds the first object.
    pub first: Walk,
    /// Finds the second one after it.
    pub second: Walk,
    /// Whether the call on the objects was asked for.
    pub asked: bool,
}

impl Pair {
    /// Both stand at the root.
    pub(crate) fn new(root: &Handle, first: Path, second: Path) -> Pair
        ensures { result ≡ pair_of root.now first second }
    {
        Pair {
            first: Walk::new(root, first),
            second: Walk::new(root, second),
            asked: false,
        }
    }

    /// A step that no reply made possible, the first one among them.
    pub(crate) fn go(&mut self, turn: Turn, shelf: &mut Shelf) -> PairStep
        ensures next { result ≡ pair_next self.old turn shelf.old }
        ensures machine { self.new ≡ pair_after self.old turn shelf.old }
        ensures shelf { shelf.new ≡ pair_shelf self.old turn shelf.old }
    {
        if self.asked || self.second.asked {
            return PairStep::Wait;
        }
        self.walk_on(turn, shelf)
    }

    /// The step at what came of a call of one of its walks.
    pub(crate) fn took(
        &mut self,
        sent: Turn,
        came: &Came<'_>,
        turn: Turn,
        shelf: &mut Shelf,
    ) -> PairStep
        ensures { PairTakes self.old.first.asked self.old sent turn (reply_of came.now) shelf.old result self.new shelf.new }
    {
        if self.first.asked {
            self.take_first(sent, came, turn, shelf)
        } else {
            self.take_second(sent, came, turn, shelf)
        }
    }

    /// The first walk takes what came of its call.
    fn take_first(&mut self, sent: Turn, came: &Came<'_>, turn: Turn, shelf: &mut Shelf) -> PairStep
        ensures { TakesFirst self.old sent turn (reply_of came.now) shelf.old result self.new shelf.new }
    {
        let step = self.first.took(sent, came, turn, shelf);
        self.follow_first(step, turn, shelf)
    }

    /// The second walk takes what came of its call.
    fn take_second(
        &mut self,
        sent: Turn,
        came: &Came<'_>,
        turn: Turn,
        shelf: &mut Shelf,
    ) -> PairStep
        ensures { TakesSecond self.old sent turn (reply_of came.now) shelf.old result self.new shelf.new }
    {
        let step = self.second.took(sent, came, turn, shelf);
        let first = self.first.spot.dir;
        self.follow_second(first, step, turn.room)
    }

    /// The first walk goes on.
    fn walk_on(&mut self, turn: Turn, shelf: &mut Shelf) -> PairStep
        ensures next { result ≡ on_next self.old turn shelf.old }
        ensures machine { self.new ≡ on_after self.old turn shelf.old }
        ensures shelf { shelf.new ≡ on_shelf self.old turn shelf.old }
    {
        let step = self.first.go(turn, shelf);
        self.follow_first(step, turn, shelf)
    }

    /// It does as its first walk does, and goes on with the second one from its end.
    fn follow_first(&mut self, step: WalkStep, turn: Turn, shelf: &mut Shelf) -> PairStep
        ensures next { result ≡ led_first step self.old turn shelf.old }
        ensures machine { self.new ≡ first_kept step self.old turn shelf.old }
        ensures shelf { shelf.new ≡ first_shelf step self.old turn shelf.old }
    {
        match step {
            WalkStep::Send(call) => PairStep::Look(call),
            WalkStep::Wait => PairStep::Wait,
            WalkStep::At(first) => self.walk_second(first, turn, shelf),
            WalkStep::Refused(fault) => PairStep::Refused(fault),
        }
    }

    /// The second walk goes on.
    fn walk_second(&mut self, first: Handle, turn: Turn, shelf: &mut Shelf) -> PairStep
        ensures next { result ≡ second_next first self.old turn shelf.old }
        ensures machine { self.new ≡ second_after self.old turn shelf.old }
        ensures shelf { shelf.new ≡ second_shelf self.old turn shelf.old }
    {
        let step = self.second.go(turn, shelf);
        self.follow_second(first, step, turn.room)
    }

    /// It does as its second walk does, until that has come to its end.
    fn follow_second(&mut self, first: Handle, step: WalkStep, room: bool) -> PairStep
        ensures next { result ≡ led_second first step room }
        ensures machine { self.new ≡ second_kept step room self.old }
    {
        match step {
            WalkStep::Send(call) => PairStep::Look(call),
            WalkStep::Wait => PairStep::Wait,
            WalkStep::At(second) => self.ask(first, second, room),
            WalkStep::Refused(fault) => PairStep::Refused(fault),
        }
    }

    /// At the objects it asks for the call as soon as there is room.
    fn ask(&mut self, first: Handle, second: Handle, room: bool) -> PairStep
        ensures next { result ≡ asks_next first second room }
        ensures machine { self.new ≡ asks_after room self.old }
    {
        if room {
            self.asked = true;
            PairStep::Ask(first, second)
        } else {
            PairStep::Wait
        }
    }
}
