//! An open or a put: a walk leads to the directory of its name, and then its machine goes on.

ghost use Rattle.std.specs.Prelude.{◌≡◌, true};
ghost use Rattle.client_shelf.specs.Coming.{reply_of};
ghost use Rattle.op_machines.specs.FileFits.{FileFits};
ghost use Rattle.op_machines.specs.MayStep.{MayStep};
ghost use Rattle.op_machines.specs.Openers.{file_of, placed};
ghost use Rattle.op_machines.specs.PathSteps.{ThenResumes, Follows, PathResumes, StartsIf, PathStarts, PathTakes};

use crate::opener::Opener;
use client_shelf::{Came, Shelf, Step, Turn};
use name_ops::{Walk, WalkStep};
use nfs_types::Handle;
use std::alloc::Global;
use world_model::{Answer, Fault};

/// An open or a put, with the walk that leads to its directory.
#[derive(Drop)]
pub struct PathMachine {
    /// Finds the directory.
    pub walk: Walk,
    /// The open or the put, which starts from the directory.
    pub opener: Opener,
    /// Whether the directory was found.
    pub arrived: bool,
}

impl PathMachine {
    /// The first step. An open whose slot holds an open is refused.
    pub fn start(&mut self, alloc: Global, wsize: u32, turn: Turn, shelf: &mut Shelf) -> Step
        requires may { MayStep wsize turn shelf.old }
        ensures { PathStarts wsize self.old turn shelf.old result self.new shelf.new }
    {
        let is_taken = self.opener.is_taken(&shelf.opens);
        self.begin(is_taken, alloc, wsize, turn, shelf)
    }

    /// The same, once it is known whether the slot holds an open. The operation's own moment is that of this step.
    fn begin(
        &mut self,
        is_taken: bool,
        alloc: Global,
        wsize: u32,
        turn: Turn,
        shelf: &mut Shelf,
    ) -> Step
        requires may { MayStep wsize turn shelf.old }
        ensures { StartsIf is_taken wsize self.old turn shelf.old result self.new shelf.new }
    {
        if is_taken {
            return Step::Done(Answer::Refused(Fault::Slot));
        }
        self.opener.begin_at(turn.moment - 1);
        self.resume(alloc, wsize, turn, shelf)
    }

    /// A step that no reply made possible.
    pub fn resume(&mut self, alloc: Global, wsize: u32, turn: Turn, shelf: &mut Shelf) -> Step
        requires may { MayStep wsize turn shelf.old }
        ensures { PathResumes self.old.arrived wsize self.old turn shelf.old result self.new shelf.new }
    {
        if self.arrived {
            return self.go_on(alloc, wsize, turn, shelf);
        }
        let step = self.walk.go(turn, shelf);
        self.follow(step, alloc, wsize, turn, shelf)
    }

    /// The step at what came of the call that the step with the turn `sent` asked for.
    pub fn took(
        &mut self,
        alloc: Global,
        wsize: u32,
        sent: Turn,
        came: &Came<'_>,
        turn: Turn,
        shelf: &mut Shelf,
    ) -> Step
        requires fits { FileFits (file_of self.old.opener) }
        requires may { MayStep wsize turn shelf.old }
        ensures { PathTakes self.old.arrived wsize self.old sent turn (reply_of came.now) shelf.old result self.new shelf.new }
    {
        if self.arrived {
            return self.opener.took(alloc, wsize, sent, came, turn, shelf);
        }
        let step = self.walk.took(sent, came, turn, shelf);
        self.follow(step, alloc, wsize, turn, shelf)
    }

    /// It does as its walk does, until that has come to its end.
    fn follow(
        &mut self,
        step: WalkStep,
        alloc: Global,
        wsize: u32,
        turn: Turn,
        shelf: &mut Shelf,
    ) -> Step
        requires may { MayStep wsize turn shelf.old }
        ensures { Follows step wsize self.old turn shelf.old result self.new shelf.new }
    {
        match step {
            WalkStep::Send(call) => Step::Send(call),
            WalkStep::Wait => Step::Wait,
            WalkStep::At(dir) => self.arrive(&dir, alloc, wsize, turn, shelf),
            WalkStep::Refused(fault) => Step::Done(Answer::Refused(fault)),
        }
    }

    /// Its own machine starts from the directory.
    fn arrive(
        &mut self,
        dir: &Handle,
        alloc: Global,
        wsize: u32,
        turn: Turn,
        shelf: &mut Shelf,
    ) -> Step
        requires may { MayStep wsize turn shelf.old }
        ensures { ThenResumes wsize (record self.old { opener = placed dir.now self.old.opener; arrived = true }) turn shelf.old result self.new shelf.new }
    {
        self.opener.place(dir);
        self.arrived = true;
        self.go_on(alloc, wsize, turn, shelf)
    }

    /// Its own machine goes on.
    fn go_on(&mut self, alloc: Global, wsize: u32, turn: Turn, shelf: &mut Shelf) -> Step
        requires may { MayStep wsize turn shelf.old }
        ensures { ThenResumes wsize self.old turn shelf.old result self.new shelf.new }
    {
        self.opener.resume(alloc, wsize, turn, shelf)
    }
}
