//! A put: bytes are written to the file of a name, and made stable.

ghost use Rattle.std.specs.Prelude.{◌≡◌, ◌+◌, ◌-◌, ◌^◌, ◌<◌, ◌≤◌, length};
ghost use Rattle.std.specs.Bool.{OnTrue};
ghost use Rattle.client_shelf.specs.Coming.{reply_of};
ghost use Rattle.world_model.specs.declared.answer.Answer.TheVariants.{Done as WasDone};
ghost use Rattle.world_model.specs.declared.answer.Value.{Value as Told};
ghost use Rattle.client_shelf.specs.declared.step.Step.TheVariants.{Done};
ghost use Rattle.write_back.specs.Files.{IsNewest};
ghost use Rattle.file_ops.specs.declared.put_file.Putting.TheVariants as states;
ghost use Rattle.file_ops.specs.Opening.{go_next, go_after};
ghost use Rattle.file_ops.specs.OpenFile.{goes_as};
ghost use Rattle.file_ops.specs.WriteFile.{made_bytes};
ghost use Rattle.file_ops.specs.Rests.{PutRests};
ghost use Rattle.file_ops.specs.SlotFiles.{IsUnused};
ghost use Rattle.file_ops.specs.PutFile.{keeps_refused, GivesUpAlone, Ends, Follows, GoesOn, Queues, SavesFile, AfterWrite, TakesOne, not_begun, opening_at, AfterOpening, AddsBytes, TakesOpening, TakesRoom, ResumesRoom, Resumes, Takes};

use crate::closing::{closed_answer, give_up_by, refusal_of};
use crate::open_file::going;
use crate::opening::{Opening, OpeningStep};
use crate::saving::{Saving, SavingStep, rests_in_turn};
use crate::write_file::{Text, WriteFile};
use client_shelf::{Came, LaneFiles, Shelf, Step, Turn};
use nfs_types::{Handle, Mode, Name};
use open_files::OpenFiles;
use std::alloc::Global;
use world_model::{Answer, Fault};
use write_back::WriteBack;
use xdr_codec::Blob;

/// How far a put has come.
#[derive(Clone, Copy, Debug)]
pub enum Putting {
    /// It is at no file.
    Idle,
    /// It opens its file.
    Opens,
    /// It makes room for its bytes, which are to be written to this file.
    Adds(Handle),
    /// Its bytes are pending: it waits for its turn, or its save goes on.
    Saves(Saving),
}

/// Writes bytes to the file of a name, and makes them stable.
#[derive(Debug, Drop)]
pub struct PutFile {
    /// Finds the file.
    pub opening: Opening,
    /// Writes the bytes; it knows the lane, and its slot isn't used.
    pub write: WriteFile,
    /// How far it has come.
    pub state: Putting,
}

impl PutFile {
    /// A put that hasn't started. With `nocto` a file whose state is known isn't asked for its attributes.
    pub fn new(
        lane: u8,
        nocto: bool,
        dir: &Handle,
        name: &Name,
        offset: u64,
        bytes: Blob,
    ) -> PutFile
        ensures { result ≡ not_begun lane nocto dir.now name.now offset bytes }
    {
        PutFile {
            opening: Opening::new(dir, name, Mode::W, nocto, 0),
            write: WriteFile::new(lane, 0, offset, Text::Given(bytes)),
            state: Putting::Idle,
        }
    }

    /// The first step: it asks for its file.
    pub fn start(&mut self, turn: Turn) -> Step
        requires { 1 ≤ turn.moment }
        ensures next { result ≡ goes_as (go_next (opening_at turn self.old) turn) }
        ensures machine { self.new ≡ record self.old { opening = go_after (opening_at turn self.old) turn; state = states.Opens } }
    {
        self.opening.moment = turn.moment - 1;
        self.state = Putting::Opens;
        going(self.opening.go(turn))
    }

    /// A step that no reply made possible.
    pub fn resume(&mut self, alloc: Global, wsize: u32, turn: Turn, shelf: &mut Shelf) -> Step
        requires size { 1 ≤ wsize }
        requires free { IsUnused turn.xid shelf.old.back }
        ensures step { Resumes self.old.state wsize self.old turn shelf.old result self.new shelf.new }
    {
        let state = self.state;
        match state {
            Putting::Idle => Step::Wait,
            Putting::Opens => going(self.opening.go(turn)),
            Putting::Adds(file) => self.resume_room(alloc, wsize, &file, turn, shelf),
            Putting::Saves(saving) => self.queue(saving, alloc, wsize, turn, shelf),
        }
    }

    /// Whether a step that no reply made possible does nothing: its opening waits for a reply, or a save for its turn or for calls
    /// of its own.
    pub fn rests(&self, shelf: &Shelf) -> bool
        ensures { OnTrue result (PutRests self.now shelf.now) }
    {
        match &self.state {
            Putting::Opens => self.opening.asked,
            Putting::Adds(_) => self.write.rests(shelf),
            Putting::Saves(saving) => rests_in_turn(self.write.lane, saving, shelf),
            Putting::Idle => false,
        }
    }

    /// The step at what came of the call that it asked for in the step `sent`.
    pub fn took(
        &mut self,
        alloc: Global,
        wsize: u32,
        sent: Turn,
        came: &Came<'_>,
        turn: Turn,
        shelf: &mut Shelf,
    ) -> Step
        requires newest { IsNewest (shelf.old.seq + 1) shelf.old.back }
        requires last { self.old.write.offset + length (made_bytes self.old.write.text) ≤ 2 ^ 63 - 1 }
        requires size { 1 ≤ wsize }
        requires free { IsUnused turn.xid shelf.old.back }
        requires seq { shelf.old.seq < turn.moment }
        requires moment { turn.moment < 2 ^ 63 }
        ensures step { Takes self.old.state wsize self.old sent turn (reply_of came.now) shelf.old result self.new shelf.new }
    {
        let state = self.state;
        match state {
            Putting::Idle => Step::Wait,
            Putting::Opens => self.take_opening(alloc, wsize, sent, came, turn, shelf),
            Putting::Adds(file) => self.take_room(alloc, wsize, &file, sent, came, turn, shelf),
            Putting::Saves(saving) => self.take_saving(
                saving, alloc, wsize, sent, came, turn, shelf,
            ),
        }
    }

    /// The opening takes what came of its call.
    fn take_opening(
        &mut self,
        alloc: Global,
        wsize: u32,
        sent: Turn,
        came: &Came<'_>,
        turn: Turn,
        shelf: &mut Shelf,
    ) -> Step
        requires newest { IsNewest (shelf.old.seq + 1) shelf.old.back }
        requires last { self.old.write.offset + length (made_bytes self.old.write.text) ≤ 2 ^ 63 - 1 }
        requires size { 1 ≤ wsize }
        requires free { IsUnused turn.xid shelf.old.back }
        requires seq { shelf.old.seq < turn.moment }
        requires moment { turn.moment < 2 ^ 63 }
        ensures step { TakesOpening wsize self.old sent turn (reply_of came.now) shelf.old result self.new shelf.new }
    {
        let step = self.opening.took(sent, came, turn, shelf);
        self.opened(step, alloc, wsize, turn, shelf)
    }

    /// What follows a step of the opening.
    fn opened(
        &mut self,
        step: OpeningStep,
        alloc: Global,
        wsize: u32,
        turn: Turn,
        shelf: &mut Shelf,
    ) -> Step
        requires newest { IsNewest (shelf.old.seq + 1) shelf.old.back }
        requires last { self.old.write.offset + length (made_bytes self.old.write.text) ≤ 2 ^ 63 - 1 }
        requires size { 1 ≤ wsize }
        requires free { IsUnused turn.xid shelf.old.back }
        requires seq { shelf.old.seq < turn.moment }
        requires moment { turn.moment < 2 ^ 63 }
        ensures { AfterOpening step wsize self.old turn shelf.old result self.new shelf.new }
    {
        match step {
            OpeningStep::Send(call) => Step::Send(call),
            OpeningStep::Wait => Step::Wait,
            OpeningStep::Ended(Ok(file)) => self.add(alloc, wsize, &file, turn, shelf),
            OpeningStep::Ended(Err(fault)) => {
                self.state = Putting::Idle;
                Step::Done(Answer::Refused(fault))
            }
        }
    }

    /// It is at its file, and writes its bytes.
    fn add(
        &mut self,
        alloc: Global,
        wsize: u32,
        file: &Handle,
        turn: Turn,
        shelf: &mut Shelf,
    ) -> Step
        requires newest { IsNewest (shelf.old.seq + 1) shelf.old.back }
        requires last { self.old.write.offset + length (made_bytes self.old.write.text) ≤ 2 ^ 63 - 1 }
        requires size { 1 ≤ wsize }
        requires free { IsUnused turn.xid shelf.old.back }
        requires seq { shelf.old.seq < turn.moment }
        requires moment { turn.moment < 2 ^ 63 }
        ensures step { AddsBytes wsize self.old file.now turn shelf.old result self.new shelf.new }
    {
        shelf.puts.join(self.write.lane, file);
        let next = self.write.write(alloc, wsize, file, turn, shelf);
        self.wrote(next, alloc, wsize, file, turn, shelf)
    }

    /// The write, which makes room, takes what came of its call.
    fn take_room(
        &mut self,
        alloc: Global,
        wsize: u32,
        file: &Handle,
        sent: Turn,
        came: &Came<'_>,
        turn: Turn,
        shelf: &mut Shelf,
    ) -> Step
        requires newest { IsNewest (shelf.old.seq + 1) shelf.old.back }
        requires last { self.old.write.offset + length (made_bytes self.old.write.text) ≤ 2 ^ 63 - 1 }
        requires size { 1 ≤ wsize }
        requires free { IsUnused turn.xid shelf.old.back }
        requires seq { shelf.old.seq < turn.moment }
        requires moment { turn.moment < 2 ^ 63 }
        ensures step { TakesRoom wsize self.old file.now sent turn (reply_of came.now) shelf.old result self.new shelf.new }
    {
        let next = self.write.took(alloc, wsize, sent, came, turn, shelf);
        self.wrote(next, alloc, wsize, file, turn, shelf)
    }

    /// The write goes on to make room.
    fn resume_room(
        &mut self,
        alloc: Global,
        wsize: u32,
        file: &Handle,
        turn: Turn,
        shelf: &mut Shelf,
    ) -> Step
        requires size { 1 ≤ wsize }
        requires free { IsUnused turn.xid shelf.old.back }
        ensures step { ResumesRoom wsize self.old file.now turn shelf.old result self.new shelf.new }
    {
        let next = self.write.resume(alloc, wsize, turn, shelf);
        self.wrote(next, alloc, wsize, file, turn, shelf)
    }

    /// What follows a step of the write.
    fn wrote(
        &mut self,
        next: Step,
        alloc: Global,
        wsize: u32,
        file: &Handle,
        turn: Turn,
        shelf: &mut Shelf,
    ) -> Step
        requires size { 1 ≤ wsize }
        requires free { (value : Told) → next ≡ Done (WasDone value) → IsUnused turn.xid shelf.old.back }
        ensures step { AfterWrite next wsize self.old.write.lane file.now turn shelf.old result self.new.state shelf.new }
        ensures machine { self.new ≡ record self.old { state = self.new.state } }
    {
        self.state = Putting::Adds(*file);
        match next {
            Step::Send(call) => Step::Send(call),
            Step::Wait => Step::Wait,
            Step::Done(answer) => match answer {
                Answer::Done(_) => self.save(alloc, wsize, file, turn, shelf),
                Answer::Refused(fault) => self.end(file, Some(fault), shelf),
            },
        }
    }

    /// It takes its place in the order of its file, and saves.
    fn save(
        &mut self,
        alloc: Global,
        wsize: u32,
        file: &Handle,
        turn: Turn,
        shelf: &mut Shelf,
    ) -> Step
        requires size { 1 ≤ wsize }
        requires free { IsUnused turn.xid shelf.old.back }
        ensures step { SavesFile wsize self.old.write.lane file.now turn shelf.old result self.new.state shelf.new }
        ensures machine { self.new ≡ record self.old { state = self.new.state } }
    {
        shelf.order.join(self.write.lane, file);
        let saving = Saving::begin(file, shelf.seq);
        self.queue(saving, alloc, wsize, turn, shelf)
    }

    /// The save goes on once its turn has come.
    fn queue(
        &mut self,
        saving: Saving,
        alloc: Global,
        wsize: u32,
        turn: Turn,
        shelf: &mut Shelf,
    ) -> Step
        requires size { 1 ≤ wsize }
        requires free { IsUnused turn.xid shelf.old.back }
        ensures step { Queues wsize self.old.write.lane turn saving shelf.old result self.new.state shelf.new }
        ensures machine { self.new ≡ record self.old { state = self.new.state } }
    {
        if !shelf.order.is_first(self.write.lane) {
            self.state = Putting::Saves(saving);
            return Step::Wait;
        }
        self.go(saving, alloc, wsize, turn, shelf)
    }

    /// Its save goes on.
    fn go(
        &mut self,
        mut saving: Saving,
        alloc: Global,
        wsize: u32,
        turn: Turn,
        shelf: &mut Shelf,
    ) -> Step
        requires size { 1 ≤ wsize }
        requires free { IsUnused turn.xid shelf.old.back }
        ensures step { GoesOn wsize self.old.write.lane turn saving shelf.old result self.new.state shelf.new }
        ensures machine { self.new ≡ record self.old { state = self.new.state } }
    {
        let next = saving.go(alloc, wsize, turn, false, &mut shelf.back);
        self.follow(next, saving, shelf)
    }

    /// The save takes what came of its call.
    fn take_saving(
        &mut self,
        mut saving: Saving,
        alloc: Global,
        wsize: u32,
        sent: Turn,
        came: &Came<'_>,
        turn: Turn,
        shelf: &mut Shelf,
    ) -> Step
        requires size { 1 ≤ wsize }
        requires free { IsUnused turn.xid shelf.old.back }
        requires moment { 1 ≤ turn.moment }
        ensures step { TakesOne wsize self.old.write.lane sent turn (reply_of came.now) saving shelf.old result self.new.state shelf.new }
        ensures machine { self.new ≡ record self.old { state = self.new.state } }
    {
        let next = saving.took(
            alloc,
            wsize,
            sent,
            came,
            turn,
            &mut shelf.attrs,
            &mut shelf.pages,
            &mut shelf.repeats,
            &mut shelf.back,
        );
        self.follow(next, saving, shelf)
    }

    /// It does as its save does, until that has ended.
    fn follow(&mut self, next: SavingStep, saving: Saving, shelf: &mut Shelf) -> Step
        ensures step { Follows next self.old.write.lane saving shelf.old result self.new.state shelf.new }
        ensures machine { self.new ≡ record self.old { state = self.new.state } }
    {
        let file = saving.file;
        self.state = Putting::Saves(saving);
        match next {
            SavingStep::Send(call) => Step::Send(call),
            SavingStep::Wait => Step::Wait,
            SavingStep::Ended(result) => self.end(&file, refusal_of(result), shelf),
        }
    }

    /// The last step: it is at no file any more.
    fn end(&mut self, file: &Handle, refusal: Option<Fault>, shelf: &mut Shelf) -> Step
        ensures step { Ends self.old.write.lane file.now refusal shelf.old result self.new.state shelf.new }
        ensures machine { self.new ≡ record self.old { state = self.new.state } }
    {
        give_up_alone(
            self.write.lane,
            refusal,
            file,
            &shelf.puts,
            &shelf.order,
            &shelf.opens,
            &mut shelf.back,
        );
        shelf.order.leave(self.write.lane);
        shelf.puts.leave(self.write.lane);
        self.state = Putting::Idle;
        Step::Done(closed_answer(refusal))
    }
}

/// After its own save was refused, a put gives up the bytes of its file. It doesn't if the file is open or another put is at it. A
/// put that isn't the first in the order of its file was refused before: what is pending there isn't its own.
fn give_up_alone(
    lane: u8,
    refusal: Option<Fault>,
    file: &Handle,
    puts: &LaneFiles,
    order: &LaneFiles,
    opens: &OpenFiles,
    back: &mut WriteBack,
)
    ensures { GivesUpAlone (keeps_refused lane file.now puts.now order.now) refusal file.now opens.now back.old back.new }
{
    if puts.has_other(lane, file) {
        return;
    }
    if !order.is_first(lane) {
        return;
    }
    give_up_by(refusal, file, opens, back);
}
