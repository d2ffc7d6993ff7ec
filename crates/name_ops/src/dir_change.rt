//! A directory is made or removed.

ghost use Rattle.std.specs.Prelude.{◌≡◌};
ghost use Rattle.client_shelf.specs.Coming.{reply_of};
ghost use Rattle.name_ops.specs.Changing.{TakesChange, Changes};
ghost use Rattle.name_ops.specs.DirChange.{deed_call, deed_told};
ghost use Rattle.name_ops.specs.Visiting.{next_by, visit_of, visit_next, visit_after, visit_shelf};

use crate::changing::go_again;
use crate::make_dir::{made_told, make_dir};
use crate::remove_dir::{remove_dir, removed_told};
use crate::told::Told;
use crate::visit::{Visit, VisitStep};
use client_shelf::{Came, Shelf, Step, Turn};
use nfs_types::{Handle, Name};
use world_model::{Answer, Call, Path};

/// What becomes of a directory.
#[derive(Clone, Copy, Debug, PartialEq, Eq)]
pub enum DirDeed {
    /// It is made.
    Make,
    /// It is removed.
    Remove,
}

/// Makes or removes a directory.
#[derive(Debug, Drop)]
pub struct DirChange {
    /// Finds the directory in which it has its name.
    pub visit: Visit,
    /// Its name.
    pub name: Name,
    /// What becomes of it.
    pub deed: DirDeed,
}

impl DirChange {
    /// It has, or is to get, this name in the directory to which the path leads.
    pub fn new(root: &Handle, path: Path, name: &Name, deed: DirDeed) -> DirChange
        ensures { result ≡ record { visit = visit_of root.now path; name = name.now; deed = deed } }
    {
        DirChange {
            visit: Visit::new(root, path),
            name: *name,
            deed,
        }
    }

    /// The first step.
    pub fn start(&mut self, turn: Turn, shelf: &mut Shelf) -> Step
        ensures next { result ≡ next_by (deed_call self.old.deed self.old.name) (visit_next self.old.visit turn shelf.old) }
        ensures machine { self.new ≡ record self.old { visit = visit_after self.old.visit turn shelf.old } }
        ensures shelf { shelf.new ≡ visit_shelf self.old.visit turn shelf.old }
    {
        self.resume(turn, shelf)
    }

    /// A step that no reply made possible.
    pub fn resume(&mut self, turn: Turn, shelf: &mut Shelf) -> Step
        ensures next { result ≡ next_by (deed_call self.old.deed self.old.name) (visit_next self.old.visit turn shelf.old) }
        ensures machine { self.new ≡ record self.old { visit = visit_after self.old.visit turn shelf.old } }
        ensures shelf { shelf.new ≡ visit_shelf self.old.visit turn shelf.old }
    {
        let step = self.visit.go(turn, shelf);
        self.next_of(step)
    }

    /// The step at what came of its call, which the step with the turn `sent` made.
    pub fn took(&mut self, sent: Turn, came: &Came<'_>, turn: Turn, shelf: &mut Shelf) -> Step
        ensures step { TakesChange self.old.visit.asked (deed_call self.old.deed self.old.name) (deed_told self.old.deed (reply_of came.now)) self.old.visit sent turn (reply_of came.now) shelf.old result self.new.visit shelf.new }
        ensures machine { self.new ≡ record self.old { visit = self.new.visit } }
    {
        if self.visit.asked {
            return self.take(sent, came, turn, shelf);
        }
        let step = self.visit.took(sent, came, turn, shelf);
        self.next_of(step)
    }

    /// Takes the reply to its call.
    fn take(&self, sent: Turn, came: &Came<'_>, turn: Turn, shelf: &mut Shelf) -> Step
        ensures { Changes self.now.visit.walk.spot.dir (deed_call self.now.deed self.now.name self.now.visit.walk.spot.dir) (deed_told self.now.deed (reply_of came.now)) sent turn shelf.old result shelf.new }
    {
        let dir = self.visit.walk.spot.dir;
        let told = deed_told(self.deed, came);
        go_again(self.call(dir), &dir, &told, sent, turn, shelf)
    }

    /// A step of the visit as one of the operation.
    fn next_of(&self, step: VisitStep) -> Step
        ensures { result ≡ next_by (deed_call self.now.deed self.now.name) step }
    {
        match step {
            VisitStep::Look(call) => Step::Send(call),
            VisitStep::Wait => Step::Wait,
            VisitStep::Ask(dir) => Step::Send(self.call(dir)),
            VisitStep::Refused(fault) => Step::Done(Answer::Refused(fault)),
        }
    }

    /// The call.
    fn call(&self, dir: Handle) -> Call
        ensures { result ≡ deed_call self.now.deed self.now.name dir }
    {
        match self.deed {
            DirDeed::Make => make_dir(dir, self.name),
            DirDeed::Remove => remove_dir(dir, self.name),
        }
    }
}

/// What the reply to the call tells.
fn deed_told(deed: DirDeed, came: &Came<'_>) -> Told
    ensures { result ≡ deed_told deed (reply_of came.now) }
{
    match deed {
        DirDeed::Make => made_told(came),
        DirDeed::Remove => removed_told(came),
    }
}
