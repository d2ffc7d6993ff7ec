//! The server is asked which rights it grants.

ghost use Rattle.std.specs.Prelude.{◌≡◌};
ghost use Rattle.client_shelf.specs.Coming.{reply_of};
ghost use Rattle.name_ops.specs.Access.{access_call, access_attr, access_told};
ghost use Rattle.name_ops.specs.Showing.{TakesShow, Shows};
ghost use Rattle.name_ops.specs.Visiting.{next_by, visit_of, visit_next, visit_after, visit_shelf};

use crate::showing::show;
use crate::visit::{Visit, VisitStep};
use client_shelf::{Came, Shelf, Step, Turn};
use nfs_file_calls::{FileCall, FileReply};
use nfs_types::{Attr, Handle};
use world_model::{Answer, Call, Fault, Path, Value};

/// Asks which rights are granted.
#[derive(Debug, Drop)]
pub struct Access {
    /// Finds the object.
    pub visit: Visit,
    /// The rights that are asked for, as the bits of ACCESS (RFC 1813, section 3.3.4).
    pub bits: u32,
}

impl Access {
    /// It is to ask of the object to which the path leads.
    pub fn new(root: &Handle, path: Path, bits: u32) -> Access
        ensures { result ≡ record { visit = visit_of root.now path; bits = bits } }
    {
        Access {
            visit: Visit::new(root, path),
            bits,
        }
    }

    /// The first step.
    pub fn start(&mut self, turn: Turn, shelf: &mut Shelf) -> Step
        ensures next { result ≡ next_by (access_call self.old.bits) (visit_next self.old.visit turn shelf.old) }
        ensures machine { self.new ≡ record self.old { visit = visit_after self.old.visit turn shelf.old } }
        ensures shelf { shelf.new ≡ visit_shelf self.old.visit turn shelf.old }
    {
        self.resume(turn, shelf)
    }

    /// A step that no reply made possible.
    pub fn resume(&mut self, turn: Turn, shelf: &mut Shelf) -> Step
        ensures next { result ≡ next_by (access_call self.old.bits) (visit_next self.old.visit turn shelf.old) }
        ensures machine { self.new ≡ record self.old { visit = visit_after self.old.visit turn shelf.old } }
        ensures shelf { shelf.new ≡ visit_shelf self.old.visit turn shelf.old }
    {
        let step = self.visit.go(turn, shelf);
        self.next_of(step)
    }

    /// The step at what came of its call, which the step with the turn `sent` made.
    pub fn took(&mut self, sent: Turn, came: &Came<'_>, turn: Turn, shelf: &mut Shelf) -> Step
        ensures step { TakesShow self.old.visit.asked (access_call self.old.bits) (access_attr (reply_of came.now)) (access_told (reply_of came.now)) self.old.visit sent turn (reply_of came.now) shelf.old result self.new.visit shelf.new }
        ensures machine { self.new ≡ record self.old { visit = self.new.visit } }
    {
        if self.visit.asked {
            return self.take(sent, came, turn, shelf);
        }
        let step = self.visit.took(sent, came, turn, shelf);
        self.next_of(step)
    }

    /// Takes the reply to its ACCESS.
    fn take(&self, sent: Turn, came: &Came<'_>, turn: Turn, shelf: &mut Shelf) -> Step
        ensures { Shows self.now.visit.walk.spot.dir (access_attr (reply_of came.now)) (access_told (reply_of came.now)) (access_call self.now.bits self.now.visit.walk.spot.dir) sent turn shelf.old result shelf.new }
    {
        let object = self.visit.walk.spot.dir;
        let attr = access_attr(came);
        let call = ask_access(object, self.bits);
        show(&object, &attr, access_told(came), call, sent, turn, shelf)
    }

    /// A step of the visit as one of the operation.
    fn next_of(&self, step: VisitStep) -> Step
        ensures { result ≡ next_by (access_call self.now.bits) step }
    {
        match step {
            VisitStep::Look(call) => Step::Send(call),
            VisitStep::Wait => Step::Wait,
            VisitStep::Ask(object) => Step::Send(ask_access(object, self.bits)),
            VisitStep::Refused(fault) => Step::Done(Answer::Refused(fault)),
        }
    }
}

/// The call.
fn ask_access(file: Handle, bits: u32) -> Call
    ensures { result ≡ access_call bits file }
{
    Call::File(FileCall::Access { file, bits })
}

/// The attributes in the reply.
fn access_attr(came: &Came<'_>) -> Option<Attr>
    ensures { result ≡ access_attr (reply_of came.now) }
{
    match came {
        Came::File(reply) => match reply {
            FileReply::Access { attr, .. } => *attr,
            FileReply::AccessFail { attr, .. } => *attr,
            _ => None,
        },
        Came::Dir(_) => None,
        Came::Refused(_) => None,
    }
}

/// The rights that are granted.
fn access_told(came: &Came<'_>) -> Result<Value, Fault>
    ensures { result ≡ access_told (reply_of came.now) }
{
    match came {
        Came::File(reply) => match reply {
            FileReply::Access { bits, .. } => Ok(Value::Bits(*bits)),
            FileReply::AccessFail { status, .. } => Err(Fault::Nfs(status.0)),
            _ => Err(Fault::Bad(2)),
        },
        Came::Dir(_) => Err(Fault::Bad(2)),
        Came::Refused(fault) => Err(*fault),
    }
}
