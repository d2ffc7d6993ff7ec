//! An operation on a file that is under way.

ghost use Rattle.client_shelf.specs.Coming.{reply_of};
ghost use Rattle.op_machines.specs.FileFits.{FileFits};
ghost use Rattle.op_machines.specs.MayStep.{MayStep};
ghost use Rattle.op_machines.specs.FileSteps.{Starts, Resumes, Takes};

use client_shelf::{Came, Shelf, Step, Turn};
use file_ops::{CloseFile, OpenFile, PutFile, ReadFile, SyncFile, TruncateFile, WriteFile};
use std::alloc::Global;

/// An operation on a file that is under way. An open and a put start from the directory of their name.
#[derive(Drop)]
pub enum FileMachine {
    /// A file is opened at a slot.
    Open(OpenFile),
    /// A range of an open file is read.
    Read(ReadFile),
    /// Bytes of a write or a fill become pending.
    Write(WriteFile),
    /// What is pending of an open file is made stable.
    Sync(SyncFile),
    /// A slot is freed.
    Close(CloseFile),
    /// An open file gets another size.
    Truncate(TruncateFile),
    /// Bytes are written to the file of a name, and made stable.
    Put(PutFile),
}

impl FileMachine {
    /// The first step.
    pub fn start(&mut self, alloc: Global, wsize: u32, turn: Turn, shelf: &mut Shelf) -> Step
        requires fits { FileFits self.old }
        requires may { MayStep wsize turn shelf.old }
        ensures { Starts wsize self.old turn shelf.old result self.new shelf.new }
    {
        match self {
            FileMachine::Open(open) => open.start(turn, shelf),
            FileMachine::Read(read) => read.start(alloc, turn, shelf),
            FileMachine::Write(write) => write.start(alloc, wsize, turn, shelf),
            FileMachine::Sync(sync) => sync.start(alloc, wsize, turn, shelf),
            FileMachine::Close(close) => close.start(alloc, wsize, turn, shelf),
            FileMachine::Truncate(truncate) => truncate.start(turn, shelf),
            FileMachine::Put(put) => put.start(turn),
        }
    }

    /// A step that no reply made possible.
    pub fn resume(&mut self, alloc: Global, wsize: u32, turn: Turn, shelf: &mut Shelf) -> Step
        requires may { MayStep wsize turn shelf.old }
        ensures { Resumes wsize self.old turn shelf.old result self.new shelf.new }
    {
        match self {
            FileMachine::Open(open) => open.resume(turn, shelf),
            FileMachine::Read(read) => read.resume(alloc, turn, shelf),
            FileMachine::Write(write) => write.resume(alloc, wsize, turn, shelf),
            FileMachine::Sync(sync) => sync.resume(alloc, wsize, turn, shelf),
            FileMachine::Close(close) => close.resume(alloc, wsize, turn, shelf),
            FileMachine::Truncate(truncate) => truncate.resume(turn, shelf),
            FileMachine::Put(put) => put.resume(alloc, wsize, turn, shelf),
        }
    }

    /// The step at what came of the call that the step with the turn `sent` asked for.
    pub fn took(
        &mut self,
        alloc: Global,
        wsize: u32,
        sent: Turn,
        came: &Came<'_>,
        turn: Turn,
        shelf: &mut Shelf,
    ) -> Step
        requires fits { FileFits self.old }
        requires may { MayStep wsize turn shelf.old }
        ensures { Takes wsize self.old sent turn (reply_of came.now) shelf.old result self.new shelf.new }
    {
        match self {
            FileMachine::Open(open) => open.took(sent, came, turn, shelf),
            FileMachine::Read(read) => read.took(alloc, sent, came, turn, shelf),
            FileMachine::Write(write) => write.took(alloc, wsize, sent, came, turn, shelf),
            FileMachine::Sync(sync) => sync.took(alloc, wsize, sent, came, turn, shelf),
            FileMachine::Close(close) => close.took(alloc, wsize, sent, came, turn, shelf),
            FileMachine::Truncate(truncate) => truncate.took(sent, came, turn, shelf),
            FileMachine::Put(put) => put.took(alloc, wsize, sent, came, turn, shelf),
        }
    }
}
