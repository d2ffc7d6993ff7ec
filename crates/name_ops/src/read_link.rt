//! What a symbolic link leads to is shown.

ghost use Rattle.std.specs.Prelude.{◌≡◌};
ghost use Rattle.client_shelf.specs.Coming.{reply_of};
ghost use Rattle.name_ops.specs.ReadLink.{text_call, text_attr, Copies, TellsText, ShowsText, TakesText};
ghost use Rattle.name_ops.specs.Visiting.{next_by, visit_of, visit_next, visit_after, visit_shelf};

use crate::showing::show;
use crate::visit::{Visit, VisitStep};
use client_shelf::{Came, Shelf, Step, Turn};
use nfs_dir_calls::{DirCall, DirReply};
use nfs_types::{Attr, Handle};
use std::alloc::Global;
use world_model::{Answer, Call, Fault, Path, Value};
use xdr_codec::{Blob, Memory};

/// Shows what a symbolic link leads to.
#[derive(Debug, Drop)]
pub struct ReadLink {
    /// Finds the link.
    pub visit: Visit,
}

impl ReadLink {
    /// It is to show the text of the link to which the path leads.
    pub fn new(root: &Handle, path: Path) -> ReadLink
        ensures { result ≡ record { visit = visit_of root.now path } }
    {
        ReadLink {
            visit: Visit::new(root, path),
        }
    }

    /// The first step.
    pub fn start(&mut self, turn: Turn, shelf: &mut Shelf) -> Step
        ensures next { result ≡ next_by text_call (visit_next self.old.visit turn shelf.old) }
        ensures machine { self.new ≡ record self.old { visit = visit_after self.old.visit turn shelf.old } }
        ensures shelf { shelf.new ≡ visit_shelf self.old.visit turn shelf.old }
    {
        self.resume(turn, shelf)
    }

    /// A step that no reply made possible.
    pub fn resume(&mut self, turn: Turn, shelf: &mut Shelf) -> Step
        ensures next { result ≡ next_by text_call (visit_next self.old.visit turn shelf.old) }
        ensures machine { self.new ≡ record self.old { visit = visit_after self.old.visit turn shelf.old } }
        ensures shelf { shelf.new ≡ visit_shelf self.old.visit turn shelf.old }
    {
        let step = self.visit.go(turn, shelf);
        self.next_of(step)
    }

    /// The step at what came of its call, which the step with the turn `sent` made.
    pub fn took(
        &mut self,
        alloc: Global,
        sent: Turn,
        came: &Came<'_>,
        turn: Turn,
        shelf: &mut Shelf,
    ) -> Step
        ensures step { TakesText self.old.visit.asked self.old.visit sent turn (reply_of came.now) shelf.old result self.new.visit shelf.new }
        ensures machine { self.new ≡ record self.old { visit = self.new.visit } }
    {
        if self.visit.asked {
            return self.take(alloc, sent, came, turn, shelf);
        }
        let step = self.visit.took(sent, came, turn, shelf);
        self.next_of(step)
    }

    /// Takes the reply to its READLINK.
    fn take(
        &self,
        alloc: Global,
        sent: Turn,
        came: &Came<'_>,
        turn: Turn,
        shelf: &mut Shelf,
    ) -> Step
        ensures { ShowsText self.now.visit.walk.spot.dir sent turn (reply_of came.now) shelf.old result shelf.new }
    {
        let link = self.visit.walk.spot.dir;
        let attr = text_attr(came);
        let told = text_told(alloc, came);
        show(&link, &attr, told, ask_text(link), sent, turn, shelf)
    }

    /// A step of the visit as one of the operation.
    fn next_of(&self, step: VisitStep) -> Step
        ensures { result ≡ next_by text_call step }
    {
        match step {
            VisitStep::Look(call) => Step::Send(call),
            VisitStep::Wait => Step::Wait,
            VisitStep::Ask(object) => Step::Send(ask_text(object)),
            VisitStep::Refused(fault) => Step::Done(Answer::Refused(fault)),
        }
    }
}

/// The call.
fn ask_text(file: Handle) -> Call
    ensures { result ≡ text_call file }
{
    Call::Dir(DirCall::ReadLink { file })
}

/// The attributes in the reply.
fn text_attr(came: &Came<'_>) -> Option<Attr>
    ensures { result ≡ text_attr (reply_of came.now) }
{
    match came {
        Came::Dir(reply) => match reply {
            DirReply::ReadLink { attr, .. } => *attr,
            DirReply::ReadLinkFail { attr, .. } => *attr,
            _ => None,
        },
        Came::File(_) => None,
        Came::Refused(_) => None,
    }
}

/// The text, for whose copy there may be no memory.
fn text_told(alloc: Global, came: &Came<'_>) -> Result<Value, Fault>
    ensures { TellsText (reply_of came.now) result }
{
    match came {
        Came::Dir(reply) => match reply {
            DirReply::ReadLink { text, .. } => copy_text(alloc, text),
            DirReply::ReadLinkFail { status, .. } => Err(Fault::Nfs(status.0)),
            _ => Err(Fault::Bad(2)),
        },
        Came::File(_) => Err(Fault::Bad(2)),
        Came::Refused(fault) => Err(*fault),
    }
}

/// The text as a value of its own.
fn copy_text(alloc: Global, text: &[u8]) -> Result<Value, Fault>
    ensures { Copies text.now result }
{
    match Blob::copy(alloc, text) {
        Ok(text) => Ok(Value::Text(text)),
        Err(Memory) => Err(Fault::Memory),
    }
}
