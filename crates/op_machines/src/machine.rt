//! An operation that is under way.

ghost use Rattle.client_shelf.specs.Coming.{reply_of};
ghost use Rattle.op_machines.specs.Fits.{Fits};
ghost use Rattle.op_machines.specs.MayStep.{MayStep};
ghost use Rattle.op_machines.specs.Steps.{Starts, Resumes, Takes};

use crate::file_machine::FileMachine;
use crate::name_machine::NameMachine;
use crate::path_machine::PathMachine;
use client_shelf::{Came, Shelf, Step, Turn};
use std::alloc::Global;

/// An operation that is under way.
#[derive(Drop)]
pub enum Machine {
    /// One on an open file.
    File(FileMachine),
    /// An open or a put.
    Path(PathMachine),
    /// One on names.
    Name(NameMachine),
}

impl Machine {
    /// The first step.
    pub fn start(&mut self, alloc: Global, wsize: u32, turn: Turn, shelf: &mut Shelf) -> Step
        requires fits { Fits self.old }
        requires may { MayStep wsize turn shelf.old }
        ensures { Starts wsize self.old turn shelf.old result self.new shelf.new }
    {
        match self {
            Machine::File(file) => file.start(alloc, wsize, turn, shelf),
            Machine::Path(path) => path.start(alloc, wsize, turn, shelf),
            Machine::Name(name) => name.go(alloc, turn, shelf),
        }
    }

    /// A step that no reply made possible.
    pub fn resume(&mut self, alloc: Global, wsize: u32, turn: Turn, shelf: &mut Shelf) -> Step
        requires may { MayStep wsize turn shelf.old }
        ensures { Resumes wsize self.old turn shelf.old result self.new shelf.new }
    {
        match self {
            Machine::File(file) => file.resume(alloc, wsize, turn, shelf),
            Machine::Path(path) => path.resume(alloc, wsize, turn, shelf),
            Machine::Name(name) => name.go(alloc, turn, shelf),
        }
    }

    /// The step at what came of the call that the step with the turn `sent` asked for.
    pub fn took(
        &mut self,
        alloc: Global,
        wsize: u32,
        sent: Turn,
        came: &Came<'_>,
        turn: Turn,
        shelf: &mut Shelf,
    ) -> Step
        requires fits { Fits self.old }
        requires may { MayStep wsize turn shelf.old }
        ensures { Takes wsize self.old sent turn (reply_of came.now) shelf.old result self.new shelf.new }
    {
        match self {
            Machine::File(file) => file.took(alloc, wsize, sent, came, turn, shelf),
            Machine::Path(path) => path.took(alloc, wsize, sent, came, turn, shelf),
            Machine::Name(name) => name.took(alloc, sent, came, turn, shelf),
        }
    }
}
