//! The attributes of an object are shown.

ghost use Rattle.std.specs.Prelude.{◌≡◌, length, false};
ghost use Rattle.client_shelf.specs.Coming.{reply_of};
ghost use Rattle.name_ops.specs.Showing.{Shows};
ghost use Rattle.name_ops.specs.Stat.{get_attr, got_attr, got_told, ask_next, ask_after, follow_next, follow_after, stat_next, stat_after, stat_shelf, StatTakes};

use crate::showing::show;
use crate::walk::{Walk, WalkStep};
use attr_cache::AttrCache;
use client_shelf::{Came, Shelf, Step, Turn};
use nfs_file_calls::{FileCall, FileReply};
use nfs_types::{Attr, Handle};
use world_model::{Answer, Call, Fault, Path, Value};

/// Shows the attributes of an object as the server has them.
#[derive(Debug, Drop)]
pub struct Stat {
    /// Finds the object.
    pub walk: Walk,
    /// Whether it asked for the object's attributes.
    pub asked: bool,
}

impl Stat {
    /// It is to show those of the object to which the path leads.
    pub fn new(root: &Handle, path: Path) -> Stat
        ensures { result ≡ record { walk = record { path = path; spot = record { dir = root.now; left = length path }; asked = false }; asked = false } }
    {
        Stat {
            walk: Walk::new(root, path),
            asked: false,
        }
    }

    /// The first step.
    pub fn start(&mut self, turn: Turn, shelf: &mut Shelf) -> Step
        ensures next { result ≡ stat_next self.old turn shelf.old }
        ensures machine { self.new ≡ stat_after self.old turn shelf.old }
        ensures shelf { shelf.new ≡ stat_shelf self.old turn shelf.old }
    {
        self.resume(turn, shelf)
    }

    /// A step that no reply made possible.
    pub fn resume(&mut self, turn: Turn, shelf: &mut Shelf) -> Step
        ensures next { result ≡ stat_next self.old turn shelf.old }
        ensures machine { self.new ≡ stat_after self.old turn shelf.old }
        ensures shelf { shelf.new ≡ stat_shelf self.old turn shelf.old }
    {
        if self.asked {
            return Step::Wait;
        }
        let step = self.walk.go(turn, shelf);
        self.follow(step, turn, &shelf.attrs)
    }

    /// The step at what came of its call, which the step with the turn `sent` made.
    pub fn took(&mut self, sent: Turn, came: &Came<'_>, turn: Turn, shelf: &mut Shelf) -> Step
        ensures { StatTakes self.old.asked self.old sent turn (reply_of came.now) shelf.old result self.new shelf.new }
    {
        if self.asked {
            return self.take(sent, came, turn, shelf);
        }
        let step = self.walk.took(sent, came, turn, shelf);
        self.follow(step, turn, &shelf.attrs)
    }

    /// Takes the reply to its GETATTR.
    fn take(&self, sent: Turn, came: &Came<'_>, turn: Turn, shelf: &mut Shelf) -> Step
        ensures { Shows self.now.walk.spot.dir (got_attr (reply_of came.now)) (got_told (reply_of came.now)) (get_attr self.now.walk.spot.dir) sent turn shelf.old result shelf.new }
    {
        let object = self.walk.spot.dir;
        let attr = got_attr(came);
        show(
            &object,
            &attr,
            got_told(came),
            get_attr(object),
            sent,
            turn,
            shelf,
        )
    }

    /// It does as its walk does, until that has come to its end.
    fn follow(&mut self, step: WalkStep, turn: Turn, attrs: &AttrCache) -> Step
        ensures next { result ≡ follow_next step turn attrs.now }
        ensures machine { self.new ≡ follow_after step turn attrs.now self.old }
    {
        match step {
            WalkStep::Send(call) => Step::Send(call),
            WalkStep::Wait => Step::Wait,
            WalkStep::At(object) => self.ask(object, turn.room, attrs.look(&object, turn.now)),
            WalkStep::Refused(fault) => Step::Done(Answer::Refused(fault)),
        }
    }

    /// Attributes that are believed are the answer. Others are asked for as soon as there is room.
    fn ask(&mut self, object: Handle, room: bool, known: Option<Attr>) -> Step
        ensures next { result ≡ ask_next known object room }
        ensures machine { self.new ≡ ask_after known room self.old }
    {
        if let Some(attr) = known {
            return Step::Done(Answer::Done(Value::Attrs(attr)));
        }
        if !room {
            return Step::Wait;
        }
        self.asked = true;
        Step::Send(get_attr(object))
    }
}

/// The call.
fn get_attr(file: Handle) -> Call
    ensures { result ≡ get_attr file }
{
    Call::File(FileCall::GetAttr { file })
}

/// The attributes in the reply.
fn got_attr(came: &Came<'_>) -> Option<Attr>
    ensures { result ≡ got_attr (reply_of came.now) }
{
    match came {
        Came::File(reply) => match reply {
            FileReply::GetAttr { attr } => Some(*attr),
            _ => None,
        },
        Came::Dir(_) => None,
        Came::Refused(_) => None,
    }
}

/// What the reply shows.
fn got_told(came: &Came<'_>) -> Result<Value, Fault>
    ensures { result ≡ got_told (reply_of came.now) }
{
    match came {
        Came::File(reply) => match reply {
            FileReply::GetAttr { attr } => Ok(Value::Attrs(*attr)),
            FileReply::GetAttrFail { status } => Err(Fault::Nfs(status.0)),
            _ => Err(Fault::Bad(2)),
        },
        Came::Dir(_) => Err(Fault::Bad(2)),
        Came::Refused(fault) => Err(*fault),
    }
}
