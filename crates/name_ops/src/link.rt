//! A file gets a further name.

ghost use Rattle.std.specs.Prelude.{◌≡◌};
ghost use Rattle.client_shelf.specs.Coming.{reply_of};
ghost use Rattle.name_ops.specs.Changing.{Changes};
ghost use Rattle.name_ops.specs.Link.{link_call, linked, linked_told, TakesLink};
ghost use Rattle.name_ops.specs.Pairs.{pair_of, next_by, pair_next, pair_after, pair_shelf};

use crate::changing::go_again;
use crate::pair::{Pair, PairStep};
use crate::told::Told;
use client_shelf::{Came, Shelf, Step, Turn};
use nfs_dir_calls::{DirCall, DirReply};
use nfs_types::{Attr, Handle, Name, Wcc};
use world_model::{Answer, Call, Fault, Path};

/// Gives a file a further name.
#[derive(Debug, Drop)]
pub struct Link {
    /// Finds the file, and the directory of the name that it gets.
    pub pair: Pair,
    /// The name that it gets.
    pub name: Name,
}

impl Link {
    /// The file to which the first path leads is to get a name in the directory to which the second one leads.
    pub fn new(root: &Handle, file: Path, dir: Path, name: &Name) -> Link
        ensures { result ≡ record { pair = pair_of root.now file dir; name = name.now } }
    {
        Link {
            pair: Pair::new(root, file, dir),
            name: *name,
        }
    }

    /// The first step.
    pub fn start(&mut self, turn: Turn, shelf: &mut Shelf) -> Step
        ensures next { result ≡ next_by (link_call self.old.name) (pair_next self.old.pair turn shelf.old) }
        ensures machine { self.new ≡ record self.old { pair = pair_after self.old.pair turn shelf.old } }
        ensures shelf { shelf.new ≡ pair_shelf self.old.pair turn shelf.old }
    {
        self.resume(turn, shelf)
    }

    /// A step that no reply made possible.
    pub fn resume(&mut self, turn: Turn, shelf: &mut Shelf) -> Step
        ensures next { result ≡ next_by (link_call self.old.name) (pair_next self.old.pair turn shelf.old) }
        ensures machine { self.new ≡ record self.old { pair = pair_after self.old.pair turn shelf.old } }
        ensures shelf { shelf.new ≡ pair_shelf self.old.pair turn shelf.old }
    {
        let step = self.pair.go(turn, shelf);
        self.next_of(step)
    }

    /// The step at what came of its call, which the step with the turn `sent` made.
    pub fn took(&mut self, sent: Turn, came: &Came<'_>, turn: Turn, shelf: &mut Shelf) -> Step
        ensures step { TakesLink self.old.pair.asked self.old sent turn (reply_of came.now) shelf.old result self.new.pair shelf.new }
        ensures machine { self.new ≡ record self.old { pair = self.new.pair } }
    {
        if self.pair.asked {
            return self.take(sent, came, turn, shelf);
        }
        let step = self.pair.took(sent, came, turn, shelf);
        self.next_of(step)
    }

    /// Takes the reply to its LINK.
    fn take(&self, sent: Turn, came: &Came<'_>, turn: Turn, shelf: &mut Shelf) -> Step
        ensures { Changes self.now.pair.second.spot.dir (link_call self.now.name self.now.pair.first.spot.dir self.now.pair.second.spot.dir) (linked_told self.now.pair.first.spot.dir (reply_of came.now)) sent turn shelf.old result shelf.new }
    {
        let file = self.pair.first.spot.dir;
        let dir = self.pair.second.spot.dir;
        let told = linked_told(file, came);
        let call = link_call(file, dir, self.name);
        go_again(call, &dir, &told, sent, turn, shelf)
    }

    /// A step of the walks as one of the operation.
    fn next_of(&self, step: PairStep) -> Step
        ensures { result ≡ next_by (link_call self.now.name) step }
    {
        match step {
            PairStep::Look(call) => Step::Send(call),
            PairStep::Wait => Step::Wait,
            PairStep::Ask(file, dir) => Step::Send(link_call(file, dir, self.name)),
            PairStep::Refused(fault) => Step::Done(Answer::Refused(fault)),
        }
    }
}

/// The call.
fn link_call(file: Handle, dir: Handle, name: Name) -> Call
    ensures { result ≡ link_call name file dir }
{
    Call::Dir(DirCall::Link { file, dir, name })
}

/// What the reply to LINK tells.
fn linked_told(file: Handle, came: &Came<'_>) -> Told
    ensures { result ≡ linked_told file (reply_of came.now) }
{
    match came {
        Came::Dir(reply) => match reply {
            DirReply::Link { attr, wcc } => linked(file, attr, wcc, None),
            DirReply::LinkFail { status, attr, wcc } => {
                linked(file, attr, wcc, Some(Fault::Nfs(status.0)))
            }
            _ => Told::refused(Fault::Bad(2)),
        },
        Came::File(_) => Told::refused(Fault::Bad(2)),
        Came::Refused(fault) => Told::refused(*fault),
    }
}

/// A reply of LINK.
fn linked(file: Handle, attr: &Option<Attr>, wcc: &Wcc, refusal: Option<Fault>) -> Told
    ensures { result ≡ linked file attr.now wcc.now refusal }
{
    Told {
        object: Some(file),
        attr: *attr,
        dir: wcc.after,
        refusal,
        unmade: false,
    }
}
