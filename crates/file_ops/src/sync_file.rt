//! A sync: what is pending of a file is made stable.

ghost use Rattle.std.specs.Prelude.{◌≡◌, ◌≤◌};
ghost use Rattle.std.specs.Bool.{OnTrue};
ghost use Rattle.client_shelf.specs.Coming.{reply_of};
ghost use Rattle.file_ops.specs.declared.sync_file.Syncing.TheVariants as states;
ghost use Rattle.file_ops.specs.Rests.{SyncRests};
ghost use Rattle.file_ops.specs.SlotFiles.{IsUnused};
ghost use Rattle.file_ops.specs.Syncs.{answer_of, Follows, Queues, Starts, Resumes, Takes};

use crate::saving::{Saving, SavingStep, rests_in_turn};
use crate::slots::file_at;
use client_shelf::{Came, LaneFiles, Shelf, Step, Turn};
use std::alloc::Global;
use world_model::{Answer, Fault, Value};

/// How far a sync is.
#[derive(Clone, Copy, Debug)]
pub enum Syncing {
    /// It holds no place in the order of its file.
    Idle,
    /// It holds one: it waits for its turn, or its save goes on.
    Saves(Saving),
}

/// Makes stable what is pending of the file of a slot.
#[derive(Clone, Copy, Debug)]
pub struct SyncFile {
    /// The lane that does it.
    pub lane: u8,
    /// The slot of that lane.
    pub slot: u8,
    /// How far it is.
    pub state: Syncing,
}

impl SyncFile {
    /// A sync that hasn't started.
    pub fn new(lane: u8, slot: u8) -> SyncFile
        ensures { result ≡ record { lane = lane; slot = slot; state = states.Idle } }
    {
        SyncFile {
            lane,
            slot,
            state: Syncing::Idle,
        }
    }

    /// The first step: it takes its place in the order of its file.
    pub fn start(&mut self, alloc: Global, wsize: u32, turn: Turn, shelf: &mut Shelf) -> Step
        requires size { 1 ≤ wsize }
        requires free { IsUnused turn.xid shelf.old.back }
        ensures step { Starts wsize self.old turn shelf.old result self.new.state shelf.new }
        ensures machine { self.new ≡ record self.old { state = self.new.state } }
    {
        match file_at(&shelf.opens, self.lane, self.slot) {
            Some(file) => {
                shelf.order.join(self.lane, &file);
                let saving = Saving::begin(&file, shelf.seq);
                self.queue(saving, alloc, wsize, turn, shelf)
            }
            None => Step::Done(Answer::Refused(Fault::Slot)),
        }
    }

    /// A step that no reply made possible.
    pub fn resume(&mut self, alloc: Global, wsize: u32, turn: Turn, shelf: &mut Shelf) -> Step
        requires size { 1 ≤ wsize }
        requires free { IsUnused turn.xid shelf.old.back }
        ensures step { Resumes self.old.state wsize self.old turn shelf.old result self.new.state shelf.new }
        ensures machine { self.new ≡ record self.old { state = self.new.state } }
    {
        let state = self.state;
        match state {
            Syncing::Saves(saving) => self.queue(saving, alloc, wsize, turn, shelf),
            Syncing::Idle => Step::Wait,
        }
    }

    /// Whether a step that no reply made possible does nothing: its save waits for its turn, or for calls of its own.
    pub fn rests(&self, shelf: &Shelf) -> bool
        ensures { OnTrue result (SyncRests self.now shelf.now) }
    {
        match &self.state {
            Syncing::Saves(saving) => rests_in_turn(self.lane, saving, shelf),
            Syncing::Idle => false,
        }
    }

    /// The step at what came of the call that it asked for in the step `sent`.
    pub fn took(
        &mut self,
        alloc: Global,
        wsize: u32,
        sent: Turn,
        came: &Came<'_>,
        turn: Turn,
        shelf: &mut Shelf,
    ) -> Step
        requires size { 1 ≤ wsize }
        requires free { IsUnused turn.xid shelf.old.back }
        requires moment { 1 ≤ turn.moment }
        ensures step { Takes self.old.state wsize self.old sent turn (reply_of came.now) shelf.old result self.new.state shelf.new }
        ensures machine { self.new ≡ record self.old { state = self.new.state } }
    {
        let state = self.state;
        match state {
            Syncing::Saves(mut saving) => {
                let next = saving.took(
                    alloc,
                    wsize,
                    sent,
                    came,
                    turn,
                    &mut shelf.attrs,
                    &mut shelf.pages,
                    &mut shelf.repeats,
                    &mut shelf.back,
                );
                self.follow(next, saving, &mut shelf.order)
            }
            Syncing::Idle => Step::Wait,
        }
    }

    /// It goes on once its turn has come.
    fn queue(
        &mut self,
        mut saving: Saving,
        alloc: Global,
        wsize: u32,
        turn: Turn,
        shelf: &mut Shelf,
    ) -> Step
        requires size { 1 ≤ wsize }
        requires free { IsUnused turn.xid shelf.old.back }
        ensures step { Queues wsize self.old.lane turn saving shelf.old result self.new.state shelf.new }
        ensures machine { self.new ≡ record self.old { state = self.new.state } }
    {
        if !shelf.order.is_first(self.lane) {
            self.state = Syncing::Saves(saving);
            return Step::Wait;
        }
        let next = saving.go(alloc, wsize, turn, false, &mut shelf.back);
        self.follow(next, saving, &mut shelf.order)
    }

    /// It does as its save does.
    fn follow(&mut self, next: SavingStep, saving: Saving, order: &mut LaneFiles) -> Step
        ensures follows { Follows self.old.lane next saving order.old result self.new.state order.new }
        ensures machine { self.new ≡ record self.old { state = self.new.state } }
    {
        self.state = Syncing::Saves(saving);
        match next {
            SavingStep::Send(call) => Step::Send(call),
            SavingStep::Wait => Step::Wait,
            SavingStep::Ended(result) => {
                order.leave(self.lane);
                self.state = Syncing::Idle;
                Step::Done(answer_of(result))
            }
        }
    }
}

/// The answer of what makes stable and does nothing else.
pub(crate) fn answer_of(ended: Result<(), Fault>) -> Answer
    ensures { result ≡ answer_of ended }
{
    match ended {
        Ok(()) => Answer::Done(Value::Nothing),
        Err(fault) => Answer::Refused(fault),
    }
}
