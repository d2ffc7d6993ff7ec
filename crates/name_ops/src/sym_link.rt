//! A symbolic link is made.

ghost use Rattle.std.specs.Prelude.{◌≡◌, IfOk};
ghost use Rattle.client_shelf.specs.Coming.{reply_of};
ghost use Rattle.name_ops.specs.SymLink.{sym_link_call, sym_linked_told, SendsCopy, CopiesBy, ChangesByCopy, TakesSymLink};
ghost use Rattle.name_ops.specs.Visiting.{visit_of, visit_next, visit_after, visit_shelf};

use crate::changing::{end, go_again, mode_set};
use crate::told::Told;
use crate::visit::{Visit, VisitStep};
use client_shelf::{Came, Shelf, Step, Turn};
use nfs_dir_calls::{DirCall, DirReply};
use nfs_types::{Handle, Name};
use std::alloc::Global;
use world_model::{Answer, Call, Fault, Path};
use xdr_codec::{Blob, Memory};

/// Makes a symbolic link.
#[derive(Debug, Drop)]
pub struct SymLink {
    /// Finds the directory in which it is made.
    pub visit: Visit,
    /// Its name.
    pub name: Name,
    /// What it leads to.
    pub target: Blob,
}

impl SymLink {
    /// It is to be made in the directory to which the path leads.
    pub fn new(root: &Handle, path: Path, name: &Name, target: Blob) -> SymLink
        ensures { result ≡ record { visit = visit_of root.now path; name = name.now; target = target } }
    {
        SymLink {
            visit: Visit::new(root, path),
            name: *name,
            target,
        }
    }

    /// The first step.
    pub fn start(&mut self, alloc: Global, turn: Turn, shelf: &mut Shelf) -> Step
        ensures next { CopiesBy (sym_link_call self.old.name self.old.target) (visit_next self.old.visit turn shelf.old) result }
        ensures machine { self.new ≡ record self.old { visit = visit_after self.old.visit turn shelf.old } }
        ensures shelf { shelf.new ≡ visit_shelf self.old.visit turn shelf.old }
    {
        self.resume(alloc, turn, shelf)
    }

    /// A step that no reply made possible.
    pub fn resume(&mut self, alloc: Global, turn: Turn, shelf: &mut Shelf) -> Step
        ensures next { CopiesBy (sym_link_call self.old.name self.old.target) (visit_next self.old.visit turn shelf.old) result }
        ensures machine { self.new ≡ record self.old { visit = visit_after self.old.visit turn shelf.old } }
        ensures shelf { shelf.new ≡ visit_shelf self.old.visit turn shelf.old }
    {
        let step = self.visit.go(turn, shelf);
        self.next_of(alloc, step)
    }

    /// The step at what came of its call, which the step with the turn `sent` made.
    pub fn took(
        &mut self,
        alloc: Global,
        sent: Turn,
        came: &Came<'_>,
        turn: Turn,
        shelf: &mut Shelf,
    ) -> Step
        ensures step { TakesSymLink self.old.visit.asked self.old sent turn (reply_of came.now) shelf.old result self.new.visit shelf.new }
        ensures machine { self.new ≡ record self.old { visit = self.new.visit } }
    {
        if self.visit.asked {
            return self.take(alloc, sent, came, turn, shelf);
        }
        let step = self.visit.took(sent, came, turn, shelf);
        self.next_of(alloc, step)
    }

    /// Takes the reply to its SYMLINK.
    fn take(
        &self,
        alloc: Global,
        sent: Turn,
        came: &Came<'_>,
        turn: Turn,
        shelf: &mut Shelf,
    ) -> Step
        ensures { ChangesByCopy self.now.visit.walk.spot.dir (sym_link_call self.now.name self.now.target self.now.visit.walk.spot.dir) (sym_linked_told (reply_of came.now)) sent turn shelf.old result shelf.new }
    {
        let dir = self.visit.walk.spot.dir;
        let told = sym_linked_told(came);
        if !told.is_busy() {
            return end(&dir, &told, sent, turn, shelf);
        }
        match self.call(alloc, dir) {
            Ok(call) => go_again(call, &dir, &told, sent, turn, shelf),
            Err(Memory) => end(&dir, &told.lacking(), sent, turn, shelf),
        }
    }

    /// A step of the visit as one of the operation.
    fn next_of(&self, alloc: Global, step: VisitStep) -> Step
        ensures { CopiesBy (sym_link_call self.now.name self.now.target) step result }
    {
        match step {
            VisitStep::Look(call) => Step::Send(call),
            VisitStep::Wait => Step::Wait,
            VisitStep::Ask(dir) => self.ask(alloc, dir),
            VisitStep::Refused(fault) => Step::Done(Answer::Refused(fault)),
        }
    }

    /// Asks for the call, if there is memory for it.
    fn ask(&self, alloc: Global, dir: Handle) -> Step
        ensures { SendsCopy (sym_link_call self.now.name self.now.target dir) result }
    {
        match self.call(alloc, dir) {
            Ok(call) => Step::Send(call),
            Err(Memory) => Step::Done(Answer::Refused(Fault::Memory)),
        }
    }

    /// The call, with a copy of the target. The mode is 0777, and nothing else is set.
    fn call(&self, alloc: Global, dir: Handle) -> Result<Call, Memory>
        ensures { IfOk result (λ call. call ≡ sym_link_call self.now.name self.now.target dir) }
    {
        let target = Blob::copy(alloc, self.target.bytes())?;
        Ok(Call::Dir(DirCall::SymLink {
            dir,
            name: self.name,
            set: mode_set(0o777),
            target,
        }))
    }
}

/// What the reply to SYMLINK tells.
fn sym_linked_told(came: &Came<'_>) -> Told
    ensures { result ≡ sym_linked_told (reply_of came.now) }
{
    match came {
        Came::Dir(reply) => match reply {
            DirReply::SymLink { found, attr, wcc } => Told::made(found, attr, wcc),
            DirReply::SymLinkFail { status, wcc } => Told::failed(*status, wcc),
            _ => Told::refused(Fault::Bad(2)),
        },
        Came::File(_) => Told::refused(Fault::Bad(2)),
        Came::Refused(fault) => Told::refused(*fault),
    }
}
