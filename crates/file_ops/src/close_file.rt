//! A close: what is pending of a file is made stable, and its slot is free.

ghost use Rattle.std.specs.Prelude.{◌≡◌, ◌≤◌};
ghost use Rattle.std.specs.Bool.{OnTrue};
ghost use Rattle.client_shelf.specs.Coming.{reply_of};
ghost use Rattle.file_ops.specs.declared.close_file.Closing.TheVariants as states;
ghost use Rattle.client_shelf.specs.LaneFiles.{is_first};
ghost use Rattle.file_ops.specs.Rests.{CloseRests};
ghost use Rattle.file_ops.specs.SlotFiles.{IsUnused};
ghost use Rattle.file_ops.specs.Closes.{waits_as, ask_next, ask_state, Ends, Frees, Follows, GoesOn, GoesOnIf, Queues, Starts, Resumes, TakesOne, Removed, Takes};

use crate::closing::{
    Removal, closed_answer, give_up_by, last_place, note_removal, refusal_of, remove_busy,
    remove_of,
};
use crate::saving::{Saving, SavingStep, rests_in_turn};
use crate::slots::file_at;
use client_shelf::busy::again;
use client_shelf::{Came, Shelf, Step, Turn};
use nfs_types::Handle;
use std::alloc::Global;
use world_model::{Answer, Fault};

/// How far a close is.
#[derive(Clone, Copy, Debug)]
pub enum Closing {
    /// It holds no place in the order of its file.
    Idle,
    /// It waits for its turn.
    Queued(Saving),
    /// Its save goes on.
    Saves(Saving),
    /// The slot is free, and the file is to be removed.
    ToRemove(Removal),
    /// It waits for the reply to its REMOVE.
    Removing(Removal),
}

/// Closes the file of a slot.
#[derive(Clone, Copy, Debug)]
pub struct CloseFile {
    /// The lane that does it.
    pub lane: u8,
    /// The slot of that lane.
    pub slot: u8,
    /// How far it is.
    pub state: Closing,
}

impl CloseFile {
    /// A close that hasn't started.
    pub fn new(lane: u8, slot: u8) -> CloseFile
        ensures { result ≡ record { lane = lane; slot = slot; state = states.Idle } }
    {
        CloseFile {
            lane,
            slot,
            state: Closing::Idle,
        }
    }

    /// The first step: it takes its place in the order of its file.
    pub fn start(&mut self, alloc: Global, wsize: u32, turn: Turn, shelf: &mut Shelf) -> Step
        requires size { 1 ≤ wsize }
        requires free { IsUnused turn.xid shelf.old.back }
        ensures step { Starts wsize self.old turn shelf.old result self.new.state shelf.new }
        ensures machine { self.new ≡ record self.old { state = self.new.state } }
    {
        match file_at(&shelf.opens, self.lane, self.slot) {
            Some(file) => {
                shelf.order.join(self.lane, &file);
                let saving = Saving::begin(&file, shelf.seq);
                self.queue(saving, alloc, wsize, turn, shelf)
            }
            None => Step::Done(Answer::Refused(Fault::Slot)),
        }
    }

    /// A step that no reply made possible.
    pub fn resume(&mut self, alloc: Global, wsize: u32, turn: Turn, shelf: &mut Shelf) -> Step
        requires size { 1 ≤ wsize }
        requires free { IsUnused turn.xid shelf.old.back }
        ensures step { Resumes self.old.state wsize self.old turn shelf.old result self.new.state shelf.new }
        ensures machine { self.new ≡ record self.old { state = self.new.state } }
    {
        let state = self.state;
        match state {
            Closing::Queued(saving) => self.queue(saving, alloc, wsize, turn, shelf),
            Closing::Saves(saving) => self.go_on(saving, alloc, wsize, turn, shelf),
            Closing::ToRemove(removal) => self.ask(removal, turn.room),
            Closing::Idle => Step::Wait,
            Closing::Removing(_) => Step::Wait,
        }
    }

    /// Whether a step that no reply made possible does nothing: it waits for its turn, its save for calls of its own, or it for the
    /// reply to its REMOVE.
    pub fn rests(&self, shelf: &Shelf) -> bool
        ensures { OnTrue result (CloseRests self.now shelf.now) }
    {
        match &self.state {
            Closing::Queued(_) => !shelf.order.is_first(self.lane),
            Closing::Saves(saving) => rests_in_turn(self.lane, saving, shelf),
            Closing::Removing(_) => true,
            Closing::Idle => false,
            Closing::ToRemove(_) => false,
        }
    }

    /// The step at what came of the call that it asked for in the step `sent`.
    pub fn took(
        &mut self,
        alloc: Global,
        wsize: u32,
        sent: Turn,
        came: &Came<'_>,
        turn: Turn,
        shelf: &mut Shelf,
    ) -> Step
        requires size { 1 ≤ wsize }
        requires free { IsUnused turn.xid shelf.old.back }
        requires moment { 1 ≤ turn.moment }
        ensures step { Takes self.old.state wsize self.old sent turn (reply_of came.now) shelf.old result self.new.state shelf.new }
        ensures machine { self.new ≡ record self.old { state = self.new.state } }
    {
        let state = self.state;
        match state {
            Closing::Saves(saving) => self.take_saving(
                saving, alloc, wsize, sent, came, turn, shelf,
            ),
            Closing::Removing(removal) => self.take_removal(&removal, sent, came, turn, shelf),
            Closing::Idle => Step::Wait,
            Closing::Queued(_) => Step::Wait,
            Closing::ToRemove(_) => Step::Wait,
        }
    }

    /// It begins once its turn has come. A file with no pending byte needs no sync.
    fn queue(
        &mut self,
        saving: Saving,
        alloc: Global,
        wsize: u32,
        turn: Turn,
        shelf: &mut Shelf,
    ) -> Step
        requires size { 1 ≤ wsize }
        requires free { IsUnused turn.xid shelf.old.back }
        ensures step { Queues wsize self.old.lane self.old.slot turn saving shelf.old result self.new.state shelf.new }
        ensures machine { self.new ≡ record self.old { state = self.new.state } }
    {
        if !shelf.order.is_first(self.lane) {
            self.state = Closing::Queued(saving);
            return Step::Wait;
        }
        if shelf.back.end(&saving.file).is_none() {
            let file = saving.file;
            return self.free(file, None, turn.room, shelf);
        }
        self.go(saving, false, alloc, wsize, turn, shelf)
    }

    /// Its save goes on if it is the first at its file.
    fn go_on(
        &mut self,
        saving: Saving,
        alloc: Global,
        wsize: u32,
        turn: Turn,
        shelf: &mut Shelf,
    ) -> Step
        requires size { 1 ≤ wsize }
        requires free { IsUnused turn.xid shelf.old.back }
        ensures step { GoesOnIf (is_first self.old.lane shelf.old.order) wsize self.old.lane self.old.slot turn saving shelf.old result self.new.state shelf.new }
        ensures machine { self.new ≡ record self.old { state = self.new.state } }
    {
        if !shelf.order.is_first(self.lane) {
            self.state = Closing::Saves(saving);
            return Step::Wait;
        }
        self.go(saving, true, alloc, wsize, turn, shelf)
    }

    /// Its save goes on, or begins.
    fn go(
        &mut self,
        mut saving: Saving,
        begun: bool,
        alloc: Global,
        wsize: u32,
        turn: Turn,
        shelf: &mut Shelf,
    ) -> Step
        requires size { 1 ≤ wsize }
        requires free { IsUnused turn.xid shelf.old.back }
        ensures step { GoesOn wsize self.old.lane self.old.slot turn begun saving shelf.old result self.new.state shelf.new }
        ensures machine { self.new ≡ record self.old { state = self.new.state } }
    {
        let next = saving.go(alloc, wsize, turn, false, &mut shelf.back);
        self.follow(next, begun, saving, turn.room, shelf)
    }

    /// Its save takes what came of its call.
    fn take_saving(
        &mut self,
        mut saving: Saving,
        alloc: Global,
        wsize: u32,
        sent: Turn,
        came: &Came<'_>,
        turn: Turn,
        shelf: &mut Shelf,
    ) -> Step
        requires size { 1 ≤ wsize }
        requires free { IsUnused turn.xid shelf.old.back }
        requires moment { 1 ≤ turn.moment }
        ensures step { TakesOne wsize self.old.lane self.old.slot sent turn (reply_of came.now) saving shelf.old result self.new.state shelf.new }
        ensures machine { self.new ≡ record self.old { state = self.new.state } }
    {
        let next = saving.took(
            alloc,
            wsize,
            sent,
            came,
            turn,
            &mut shelf.attrs,
            &mut shelf.pages,
            &mut shelf.repeats,
            &mut shelf.back,
        );
        self.follow(next, true, saving, turn.room, shelf)
    }

    /// It does as its save does, until that has ended. A save that waits may not have begun.
    fn follow(
        &mut self,
        next: SavingStep,
        begun: bool,
        saving: Saving,
        room: bool,
        shelf: &mut Shelf,
    ) -> Step
        ensures step { Follows next self.old.lane self.old.slot room begun saving shelf.old result self.new.state shelf.new }
        ensures machine { self.new ≡ record self.old { state = self.new.state } }
    {
        match next {
            SavingStep::Send(call) => {
                self.state = Closing::Saves(saving);
                Step::Send(call)
            }
            SavingStep::Wait => {
                self.state = waits_as(begun, saving);
                Step::Wait
            }
            SavingStep::Ended(result) => {
                let file = saving.file;
                self.free(file, refusal_of(result), room, shelf)
            }
        }
    }

    /// The slot is free. A file that is to be removed at its last close is.
    fn free(&mut self, file: Handle, refusal: Option<Fault>, room: bool, shelf: &mut Shelf) -> Step
        ensures step { Frees self.old.lane self.old.slot room file refusal shelf.old result self.new.state shelf.new }
        ensures machine { self.new ≡ record self.old { state = self.new.state } }
    {
        shelf.opens.close(self.lane, self.slot);
        match last_place(&file, &shelf.opens, &mut shelf.silly) {
            Some(place) => {
                let removal = Removal {
                    file,
                    dir: place.0,
                    name: place.1,
                    refusal,
                };
                self.ask(removal, room)
            }
            None => self.end(&file, refusal, shelf),
        }
    }

    /// Asks for the removal as soon as there is room.
    fn ask(&mut self, removal: Removal, room: bool) -> Step
        ensures next { result ≡ ask_next room removal }
        ensures machine { self.new ≡ record self.old { state = ask_state room removal } }
    {
        if room {
            self.state = Closing::Removing(removal);
            Step::Send(remove_of(&removal))
        } else {
            self.state = Closing::ToRemove(removal);
            Step::Wait
        }
    }

    /// After the REMOVE, whatever came of it; it is made again if the server is busy.
    fn take_removal(
        &mut self,
        removal: &Removal,
        sent: Turn,
        came: &Came<'_>,
        turn: Turn,
        shelf: &mut Shelf,
    ) -> Step
        ensures step { Removed self.old.lane sent turn (reply_of came.now) removal.now shelf.old result self.new.state shelf.new }
        ensures machine { self.new ≡ record self.old { state = self.new.state } }
    {
        note_removal(
            &removal.dir,
            came,
            sent.now,
            &mut shelf.attrs,
            &mut shelf.names,
        );
        if again(remove_busy(came), sent, turn, &mut shelf.repeats) {
            self.state = Closing::Removing(*removal);
            return Step::Send(remove_of(removal));
        }
        self.end(&removal.file, removal.refusal, shelf)
    }

    /// The last step: it leaves the order.
    fn end(&mut self, file: &Handle, refusal: Option<Fault>, shelf: &mut Shelf) -> Step
        ensures step { Ends self.old.lane file.now refusal shelf.old result self.new.state shelf.new }
        ensures machine { self.new ≡ record self.old { state = self.new.state } }
    {
        give_up_by(refusal, file, &shelf.opens, &mut shelf.back);
        shelf.order.leave(self.lane);
        self.state = Closing::Idle;
        Step::Done(closed_answer(refusal))
    }
}

/// How a save waits that has begun or not.
fn waits_as(begun: bool, saving: Saving) -> Closing
    ensures { result ≡ waits_as begun saving }
{
    if begun {
        Closing::Saves(saving)
    } else {
        Closing::Queued(saving)
    }
}
