//! An object gets another name in place of one that it has.

ghost use Rattle.std.specs.Prelude.{◌≡◌};
ghost use Rattle.client_shelf.specs.Coming.{reply_of};
ghost use Rattle.name_ops.specs.Moving.{moved_told};
ghost use Rattle.name_ops.specs.Pairs.{pair_of, next_by, pair_next, pair_after, pair_shelf};
ghost use Rattle.name_ops.specs.Rename.{rename_call, Renames, TakesRename};

use crate::moving::{move_call, move_names, moved_told};
use crate::pair::{Pair, PairStep};
use client_shelf::{Came, Shelf, Step, Turn};
use nfs_types::{Handle, Name};
use world_model::{Answer, Path};

/// Renames an object.
#[derive(Debug, Drop)]
pub struct Rename {
    /// Finds the directory of the name that it has, and that of the one that it gets.
    pub pair: Pair,
    /// The name that it has.
    pub from: Name,
    /// The name that it gets.
    pub to: Name,
}

impl Rename {
    /// An object that has a name in the directory to which the first path leads is to get one in that of the second.
    pub fn new(root: &Handle, from_path: Path, from: &Name, to_path: Path, to: &Name) -> Rename
        ensures { result ≡ record { pair = pair_of root.now from_path to_path; from = from.now; to = to.now } }
    {
        Rename {
            pair: Pair::new(root, from_path, to_path),
            from: *from,
            to: *to,
        }
    }

    /// The first step.
    pub fn start(&mut self, turn: Turn, shelf: &mut Shelf) -> Step
        ensures next { result ≡ next_by (rename_call self.old.from self.old.to) (pair_next self.old.pair turn shelf.old) }
        ensures machine { self.new ≡ record self.old { pair = pair_after self.old.pair turn shelf.old } }
        ensures shelf { shelf.new ≡ pair_shelf self.old.pair turn shelf.old }
    {
        self.resume(turn, shelf)
    }

    /// A step that no reply made possible.
    pub fn resume(&mut self, turn: Turn, shelf: &mut Shelf) -> Step
        ensures next { result ≡ next_by (rename_call self.old.from self.old.to) (pair_next self.old.pair turn shelf.old) }
        ensures machine { self.new ≡ record self.old { pair = pair_after self.old.pair turn shelf.old } }
        ensures shelf { shelf.new ≡ pair_shelf self.old.pair turn shelf.old }
    {
        let step = self.pair.go(turn, shelf);
        self.next_of(step)
    }

    /// The step at what came of its call, which the step with the turn `sent` made.
    pub fn took(&mut self, sent: Turn, came: &Came<'_>, turn: Turn, shelf: &mut Shelf) -> Step
        ensures step { TakesRename self.old.pair.asked self.old sent turn (reply_of came.now) shelf.old result self.new.pair shelf.new }
        ensures machine { self.new ≡ record self.old { pair = self.new.pair } }
    {
        if self.pair.asked {
            return self.take(sent, came, turn, shelf);
        }
        let step = self.pair.took(sent, came, turn, shelf);
        self.next_of(step)
    }

    /// Takes the reply to its RENAME.
    fn take(&self, sent: Turn, came: &Came<'_>, turn: Turn, shelf: &mut Shelf) -> Step
        ensures { Renames self.now sent turn (moved_told (reply_of came.now)) shelf.old result shelf.new }
    {
        let from = self.pair.first.spot.dir;
        let to = self.pair.second.spot.dir;
        let told = moved_told(came);
        if move_names(&from, &to, &told, sent, turn, shelf) {
            return Step::Send(move_call(from, self.from, to, self.to));
        }
        Step::Done(told.answer())
    }

    /// A step of the walks as one of the operation.
    fn next_of(&self, step: PairStep) -> Step
        ensures { result ≡ next_by (rename_call self.now.from self.now.to) step }
    {
        match step {
            PairStep::Look(call) => Step::Send(call),
            PairStep::Wait => Step::Wait,
            PairStep::Ask(from, to) => Step::Send(move_call(from, self.from, to, self.to)),
            PairStep::Refused(fault) => Step::Done(Answer::Refused(fault)),
        }
    }
}
