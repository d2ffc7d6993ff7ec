//! A path is walked, and one call is made on the object to which it leads.

ghost use Rattle.std.specs.Prelude.{◌≡◌, false};
ghost use Rattle.client_shelf.specs.Coming.{reply_of};
ghost use Rattle.name_ops.specs.declared.walk.WalkStep.TheVariants.{At as at};
ghost use Rattle.name_ops.specs.Visiting.{visit_of, follow_next, follow_after, visit_next, visit_after, visit_shelf, VisitTakes};

use crate::walk::{Walk, WalkStep};
use client_shelf::{Came, Shelf, Turn};
use nfs_types::Handle;
use world_model::{Call, Fault, Path};

/// What a step of a visit comes to.
#[derive(Debug, Drop)]
pub enum VisitStep {
    /// It asks for this call of its walk.
    Look(Call),
    /// It waits for a reply or for room.
    Wait,
    /// The path leads to this object, and there is room for the call on it.
    Ask(Handle),
    /// It was refused.
    Refused(Fault),
}

/// A walk, and then one call.
#[derive(Debug, Drop)]
pub struct Visit {
    /// Finds the object.
    pub walk: Walk,
    /// Whether the call on the object was asked for.
    pub asked: bool,
}

impl Visit {
    /// It stands at the root.
    pub(crate) fn new(root: &Handle, path: Path) -> Visit
        ensures { result ≡ visit_of root.now path }
    {
        Visit {
            walk: Walk::new(root, path),
            asked: false,
        }
    }

    /// A step that no reply made possible, the first one among them.
    pub(crate) fn go(&mut self, turn: Turn, shelf: &mut Shelf) -> VisitStep
        ensures next { result ≡ visit_next self.old turn shelf.old }
        ensures machine { self.new ≡ visit_after self.old turn shelf.old }
        ensures shelf { shelf.new ≡ visit_shelf self.old turn shelf.old }
    {
        if self.asked {
            return VisitStep::Wait;
        }
        let step = self.walk.go(turn, shelf);
        self.follow(step, turn.room)
    }

    /// The step at what came of a call of its walk.
    pub(crate) fn took(
        &mut self,
        sent: Turn,
        came: &Came<'_>,
        turn: Turn,
        shelf: &mut Shelf,
    ) -> VisitStep
        ensures { VisitTakes self.old sent turn (reply_of came.now) shelf.old result self.new shelf.new }
    {
        let step = self.walk.took(sent, came, turn, shelf);
        self.follow(step, turn.room)
    }

    /// It does as its walk does, until that has come to its end.
    fn follow(&mut self, step: WalkStep, room: bool) -> VisitStep
        ensures next { result ≡ follow_next step room }
        ensures machine { self.new ≡ follow_after step room self.old }
    {
        match step {
            WalkStep::Send(call) => VisitStep::Look(call),
            WalkStep::Wait => VisitStep::Wait,
            WalkStep::At(object) => self.ask(object, room),
            WalkStep::Refused(fault) => VisitStep::Refused(fault),
        }
    }

    /// At the object it asks for the call as soon as there is room.
    fn ask(&mut self, object: Handle, room: bool) -> VisitStep
        ensures next { result ≡ follow_next (at object) room }
        ensures machine { self.new ≡ follow_after (at object) room self.old }
    {
        if room {
            self.asked = true;
            VisitStep::Ask(object)
        } else {
            VisitStep::Wait
        }
    }
}
