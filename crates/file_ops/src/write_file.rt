//! A write or a fill: its bytes become pending.

ghost use Rattle.std.specs.Prelude.{◌≡◌, ◌+◌, ◌-◌, ◌^◌, ◌<◌, ◌≤◌, ℕ, List, [], length, replicate, ◌⊎◌, Ok, IfOk, OnOk, OnErr};
ghost use Rattle.std.specs.Bool.{OnTrue};
ghost use Rattle.client_shelf.specs.Coming.{reply_of};
ghost use Rattle.file_ops.specs.declared.saving.SavingStep.TheVariants.{Ended};
ghost use Rattle.write_back.specs.Files.{IsNewest};
ghost use Rattle.file_ops.specs.declared.write_file.Text.TheVariants.{Given};
ghost use Rattle.file_ops.specs.declared.write_file.Writing.TheVariants.{Idle, Room};
ghost use Rattle.client_shelf.specs.declared.step.Step.TheVariants.{Done};
ghost use Rattle.world_model.specs.declared.answer.Fault.TheVariants.{Memory as Lacks};
ghost use Rattle.world_model.specs.declared.answer.Answer.TheVariants.{Refused};
ghost use Rattle.file_ops.specs.WriteFile.{text_bytes, made_bytes, room_next, room_state, room_shelf, SavesInTurn, MakesRoom, Writes, WritesMade, RefusesUnmade, Starts, ResumesIn, Follows, TakesIn};
ghost use Rattle.file_ops.specs.Rests.{WriteRests};
ghost use Rattle.file_ops.specs.Saves.{begun};
ghost use Rattle.file_ops.specs.SlotFiles.{IsUnused, joined};

use crate::adding::add_written;
use crate::opens::file_to_write;
use crate::saving::{Saving, SavingStep, rests_in_turn};
use client_shelf::{Came, Shelf, Step, Turn};
use nfs_types::Handle;
use std::alloc::Global;
use world_model::{Answer, Fault, Value};
use write_back::AddFault;
use xdr_codec::{Blob, Memory};

/// What is to be written.
#[derive(Debug, Drop)]
pub enum Text {
    /// These bytes.
    Given(Blob),
    /// So many equal bytes, which are made at the start.
    Fill {
        /// How many.
        count: u32,
        /// Each of them.
        byte: u8,
    },
}

/// How far a write has come.
#[derive(Clone, Copy, Debug)]
pub enum Writing {
    /// It holds no place in an order.
    Idle,
    /// It makes room for bytes of a file.
    Room {
        /// The file that it writes to.
        file: Handle,
        /// The save of the oldest pending bytes.
        saving: Saving,
    },
}

/// Writes bytes to the file of a slot.
#[derive(Debug, Drop)]
pub struct WriteFile {
    /// The lane that does it.
    pub lane: u8,
    /// The slot of that lane.
    pub slot: u8,
    /// Where the first byte goes.
    pub offset: u64,
    /// What is written.
    pub text: Text,
    /// How far it has come.
    pub state: Writing,
}

impl Text {
    /// Makes the bytes. When out of memory nothing is changed.
    fn make(&mut self, alloc: Global) -> Result<(), Memory>
        ensures ok { OnOk result (self.new ≡ Given (text_bytes self.old)) }
        ensures err { OnErr result (self.new ≡ self.old) }
    {
        if let Text::Fill { count, byte } = self {
            *self = Text::Given(filled(alloc, *count, *byte)?);
        }
        Ok(())
    }

    /// The bytes that were made. Of a fill that made none, the argument, which has none.
    fn made<'a>(&'a self, none: &'a Blob) -> &'a Blob
        requires { none.now ≡ [] }
        ensures { result.now ≡ made_bytes self.now }
    {
        match self {
            Text::Given(bytes) => bytes,
            Text::Fill { .. } => none,
        }
    }
}

impl WriteFile {
    /// A write that hasn't started.
    pub fn new(lane: u8, slot: u8, offset: u64, text: Text) -> WriteFile
        ensures { result ≡ record { lane = lane; slot = slot; offset = offset; text = text; state = Idle } }
    {
        WriteFile {
            lane,
            slot,
            offset,
            text,
            state: Writing::Idle,
        }
    }

    /// The first step: its bytes are made and become pending.
    pub fn start(&mut self, alloc: Global, wsize: u32, turn: Turn, shelf: &mut Shelf) -> Step
        requires newest { IsNewest (shelf.old.seq + 1) shelf.old.back }
        requires last { self.old.offset + length (text_bytes self.old.text) ≤ 2 ^ 63 - 1 }
        requires size { 1 ≤ wsize }
        requires free { IsUnused turn.xid shelf.old.back }
        requires seq { shelf.old.seq < turn.moment }
        requires moment { turn.moment < 2 ^ 63 }
        ensures { Starts wsize self.old turn shelf.old result self.new shelf.new }
    {
        match file_to_write(&shelf.opens, self.lane, self.slot) {
            Ok(file) => self.begin(alloc, wsize, &file, turn, shelf),
            Err(fault) => self.refuse(fault),
        }
    }

    /// A step that no reply made possible.
    pub fn resume(&mut self, alloc: Global, wsize: u32, turn: Turn, shelf: &mut Shelf) -> Step
        requires size { 1 ≤ wsize }
        requires free { IsUnused turn.xid shelf.old.back }
        ensures machine { self.new ≡ record self.old { state = self.new.state } }
        ensures step { ResumesIn self.old.state wsize self.old.lane turn shelf.old result self.new.state shelf.new }
    {
        let state = self.state;
        match state {
            Writing::Idle => Step::Wait,
            Writing::Room { file, saving } => self.go(alloc, wsize, &file, saving, turn, shelf),
        }
    }

    /// Whether a step that no reply made possible does nothing: the save that makes room waits for its turn, or for calls of its
    /// own.
    pub fn rests(&self, shelf: &Shelf) -> bool
        ensures { OnTrue result (WriteRests self.now.state self.now.lane shelf.now) }
    {
        match &self.state {
            Writing::Room { saving, .. } => rests_in_turn(self.lane, saving, shelf),
            Writing::Idle => false,
        }
    }

    /// The step at what came of the call that it asked for in the step `sent`.
    pub fn took(
        &mut self,
        alloc: Global,
        wsize: u32,
        sent: Turn,
        came: &Came<'_>,
        turn: Turn,
        shelf: &mut Shelf,
    ) -> Step
        requires newest { IsNewest (shelf.old.seq + 1) shelf.old.back }
        requires last { self.old.offset + length (made_bytes self.old.text) ≤ 2 ^ 63 - 1 }
        requires size { 1 ≤ wsize }
        requires free { IsUnused turn.xid shelf.old.back }
        requires seq { shelf.old.seq < turn.moment }
        requires moment { turn.moment < 2 ^ 63 }
        ensures machine { self.new ≡ record self.old { state = self.new.state } }
        ensures step { TakesIn self.old.state wsize self.old sent turn (reply_of came.now) shelf.old result self.new.state shelf.new }
    {
        let state = self.state;
        match state {
            Writing::Idle => Step::Wait,
            Writing::Room { file, mut saving } => {
                let told = saving.took(
                    alloc,
                    wsize,
                    sent,
                    came,
                    turn,
                    &mut shelf.attrs,
                    &mut shelf.pages,
                    &mut shelf.repeats,
                    &mut shelf.back,
                );
                self.follow(alloc, wsize, &file, saving, told, turn, shelf)
            }
        }
    }

    /// Once the save has ended well, the bytes are written.
    fn follow(
        &mut self,
        alloc: Global,
        wsize: u32,
        file: &Handle,
        saving: Saving,
        told: SavingStep,
        turn: Turn,
        shelf: &mut Shelf,
    ) -> Step
        requires newest { told ≡ Ended (Ok tt) → IsNewest (shelf.old.seq + 1) shelf.old.back }
        requires last { self.old.offset + length (made_bytes self.old.text) ≤ 2 ^ 63 - 1 }
        requires size { 1 ≤ wsize }
        requires free { told ≡ Ended (Ok tt) → IsUnused turn.xid shelf.old.back }
        requires seq { shelf.old.seq < turn.moment }
        requires moment { turn.moment < 2 ^ 63 }
        ensures machine { self.new ≡ record self.old { state = self.new.state } }
        ensures step { Follows told wsize self.old file.now saving turn shelf.old result self.new.state shelf.new }
    {
        match told {
            SavingStep::Ended(Ok(())) => {
                shelf.order.leave(self.lane);
                self.write(alloc, wsize, file, turn, shelf)
            }
            SavingStep::Ended(Err(fault)) => {
                self.lead(file, saving, SavingStep::Ended(Err(fault)), shelf)
            }
            SavingStep::Send(call) => self.lead(file, saving, SavingStep::Send(call), shelf),
            SavingStep::Wait => self.lead(file, saving, SavingStep::Wait, shelf),
        }
    }

    /// Makes the bytes, and writes them.
    fn begin(
        &mut self,
        alloc: Global,
        wsize: u32,
        file: &Handle,
        turn: Turn,
        shelf: &mut Shelf,
    ) -> Step
        requires newest { IsNewest (shelf.old.seq + 1) shelf.old.back }
        requires last { self.old.offset + length (text_bytes self.old.text) ≤ 2 ^ 63 - 1 }
        requires size { 1 ≤ wsize }
        requires free { IsUnused turn.xid shelf.old.back }
        requires seq { shelf.old.seq < turn.moment }
        requires moment { turn.moment < 2 ^ 63 }
        ensures { WritesMade wsize self.old file.now turn shelf.old result self.new shelf.new ⊎ RefusesUnmade Lacks self.old shelf.old result self.new shelf.new }
    {
        match self.text.make(alloc) {
            Ok(()) => self.write(alloc, wsize, file, turn, shelf),
            Err(_memory) => self.refuse(Fault::Memory),
        }
    }

    /// It ends with a refusal.
    fn refuse(&mut self, fault: Fault) -> Step
        ensures next { result ≡ Done (Refused fault) }
        ensures machine { self.new ≡ record self.old { state = Idle } }
    {
        self.state = Writing::Idle;
        Step::Done(Answer::Refused(fault))
    }

    /// The bytes become pending, or room is made for them.
    pub(crate) fn write(
        &mut self,
        alloc: Global,
        wsize: u32,
        file: &Handle,
        turn: Turn,
        shelf: &mut Shelf,
    ) -> Step
        requires newest { IsNewest (shelf.old.seq + 1) shelf.old.back }
        requires last { self.old.offset + length (made_bytes self.old.text) ≤ 2 ^ 63 - 1 }
        requires size { 1 ≤ wsize }
        requires free { IsUnused turn.xid shelf.old.back }
        requires seq { shelf.old.seq < turn.moment }
        requires moment { turn.moment < 2 ^ 63 }
        ensures machine { self.new ≡ record self.old { state = self.new.state } }
        ensures step { Writes wsize self.old.lane file.now self.old.offset (made_bytes self.old.text) turn shelf.old result self.new.state shelf.new }
    {
        let none = Blob::of(Vec::new(alloc));
        match add_written(shelf, file, self.offset, self.text.made(&none)) {
            Ok(()) => {
                self.state = Writing::Idle;
                Step::Done(Answer::Done(Value::Nothing))
            }
            Err(fault) => match fault {
                AddFault::Full => self.make_room(alloc, wsize, file, turn, shelf),
                AddFault::Memory => self.refuse(Fault::Memory),
            },
        }
    }

    /// The file with the oldest pending byte is saved.
    fn make_room(
        &mut self,
        alloc: Global,
        wsize: u32,
        file: &Handle,
        turn: Turn,
        shelf: &mut Shelf,
    ) -> Step
        requires size { 1 ≤ wsize }
        requires free { IsUnused turn.xid shelf.old.back }
        ensures machine { self.new ≡ record self.old { state = self.new.state } }
        ensures step { MakesRoom wsize self.old.lane file.now turn shelf.old result self.new.state shelf.new }
    {
        match shelf.back.oldest() {
            Some(of) => self.save(alloc, wsize, file, &of, turn, shelf),
            None => self.refuse(Fault::Memory),
        }
    }

    /// A file is saved.
    fn save(
        &mut self,
        alloc: Global,
        wsize: u32,
        file: &Handle,
        of: &Handle,
        turn: Turn,
        shelf: &mut Shelf,
    ) -> Step
        requires size { 1 ≤ wsize }
        requires free { IsUnused turn.xid shelf.old.back }
        ensures machine { self.new ≡ record self.old { state = self.new.state } }
        ensures step { SavesInTurn wsize self.old.lane file.now (begun of.now shelf.old.seq) turn (joined self.old.lane of.now shelf.old) result self.new.state shelf.new }
    {
        shelf.order.join(self.lane, of);
        let saving = Saving::begin(of, shelf.seq);
        self.go(alloc, wsize, file, saving, turn, shelf)
    }

    /// The save goes on in its turn.
    fn go(
        &mut self,
        alloc: Global,
        wsize: u32,
        file: &Handle,
        saving: Saving,
        turn: Turn,
        shelf: &mut Shelf,
    ) -> Step
        requires size { 1 ≤ wsize }
        requires free { IsUnused turn.xid shelf.old.back }
        ensures machine { self.new ≡ record self.old { state = self.new.state } }
        ensures step { SavesInTurn wsize self.old.lane file.now saving turn shelf.old result self.new.state shelf.new }
    {
        if !shelf.order.is_first(self.lane) {
            self.wait(file, saving);
            return Step::Wait;
        }
        let mut saving = saving;
        let told = saving.go(alloc, wsize, turn, false, &mut shelf.back);
        self.lead(file, saving, told, shelf)
    }

    /// What a step of the save leads to.
    fn lead(&mut self, file: &Handle, saving: Saving, told: SavingStep, shelf: &mut Shelf) -> Step
        ensures next { result ≡ room_next told }
        ensures machine { self.new ≡ record self.old { state = room_state told file.now saving } }
        ensures shelf { shelf.new ≡ room_shelf told self.old.lane shelf.old }
    {
        match told {
            SavingStep::Send(call) => {
                self.wait(file, saving);
                Step::Send(call)
            }
            SavingStep::Wait | SavingStep::Ended(Ok(())) => {
                self.wait(file, saving);
                Step::Wait
            }
            SavingStep::Ended(Err(fault)) => {
                shelf.order.leave(self.lane);
                self.refuse(fault)
            }
        }
    }

    /// It makes room still.
    fn wait(&mut self, file: &Handle, saving: Saving)
        ensures { self.new ≡ record self.old { state = Room file.now saving } }
    {
        self.state = Writing::Room {
            file: *file,
            saving,
        };
    }
}

/// So many equal bytes, in memory that their segment shares.
fn filled(alloc: Global, count: u32, byte: u8) -> Result<Blob, Memory>
    ensures { IfOk result (λ bytes. bytes ≡ replicate count byte) }
{
    let mut bytes = Vec::new(alloc);
    bytes.resize(count as usize, byte)?;
    Ok(Blob::shared(alloc, bytes)?)
}
