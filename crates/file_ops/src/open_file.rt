//! A file is opened at a slot of a lane.

ghost use Rattle.std.specs.Prelude.{◌≡◌, ◌≤◌, false};
ghost use Rattle.client_shelf.specs.Coming.{reply_of};
ghost use Rattle.client_shelf.specs.Busy.{repeats_after};
ghost use Rattle.file_ops.specs.Opening.{first_step, NotesAttrs, NotesNames, told_led, may_again, opening_again};
ghost use Rattle.file_ops.specs.OpenFile.{goes_as, gone, start_next, start_after, is_taken, place_of, opened_of, Puts, Follows, took_after, OpenTakes};
ghost use Rattle.file_ops.specs.Opening.{go_next};

use crate::opening::{Opening, OpeningStep};
use client_shelf::{Came, Shelf, Step, Turn};
use nfs_types::{Handle, Mode, Name};
use open_files::{OpenFiles, Opened};
use world_model::{Answer, Fault, Value};
use xdr_codec::Memory;

/// A file is opened at a slot of a lane.
#[derive(Clone, Copy, Debug)]
pub struct OpenFile {
    /// The lane.
    pub lane: u8,
    /// The slot.
    pub slot: u8,
    /// Finds the file, or makes it.
    pub opening: Opening,
}

impl OpenFile {
    /// It is to open a name of a directory. With `nocto` a file whose state is known isn't asked for its attributes.
    pub fn new(lane: u8, slot: u8, mode: Mode, nocto: bool, dir: &Handle, name: &Name) -> OpenFile
        ensures { result ≡ record { lane = lane; slot = slot; opening = record { dir = dir.now; name = name.now; mode = mode; nocto = nocto; moment = 0; step = first_step mode; asked = false; put_off = 0 } } }
    {
        OpenFile {
            lane,
            slot,
            opening: Opening::new(dir, name, mode, nocto, 0),
        }
    }

    /// The first step.
    pub fn start(&mut self, turn: Turn, shelf: &mut Shelf) -> Step
        requires { 1 ≤ turn.moment }
        ensures next { result ≡ start_next self.old turn shelf.old.opens }
        ensures machine { self.new ≡ start_after self.old turn shelf.old.opens }
        ensures frame { shelf.new ≡ shelf.old }
    {
        if self.is_taken(&shelf.opens) {
            return Step::Done(Answer::Refused(Fault::Slot));
        }
        self.opening.moment = turn.moment - 1;
        going(self.opening.go(turn))
    }

    /// The reply to its call came, which the step with the turn `sent` made.
    pub fn took(&mut self, sent: Turn, came: &Came<'_>, turn: Turn, shelf: &mut Shelf) -> Step
        requires { 1 ≤ turn.moment }
        ensures steps { OpenTakes self.old sent turn (reply_of came.now) shelf.new.attrs shelf.old.repeats result shelf.old.pages shelf.new.pages shelf.old.opens shelf.new.opens }
        ensures machine { self.new ≡ took_after (opening_again self.old.opening sent turn (reply_of came.now) shelf.old.repeats) self.old turn (reply_of came.now) shelf.new.attrs shelf.old.pages }
        ensures attrs { NotesAttrs self.old.opening sent.now (reply_of came.now) self.old.opening.step shelf.old.attrs shelf.new.attrs }
        ensures names { NotesNames self.old.opening (reply_of came.now) self.old.opening.step shelf.old.names shelf.new.names }
        ensures repeats { shelf.new.repeats ≡ repeats_after (may_again self.old.opening (told_led self.old.opening (reply_of came.now))) sent turn shelf.old.repeats }
        ensures frame { shelf.new ≡ record shelf.old { pages = shelf.new.pages; attrs = shelf.new.attrs; names = shelf.new.names; opens = shelf.new.opens; repeats = shelf.new.repeats } }
    {
        let step = self.opening.took(sent, came, turn, shelf);
        self.follow(step, &mut shelf.opens)
    }

    /// It may go on: there is room.
    pub fn resume(&mut self, turn: Turn, shelf: &mut Shelf) -> Step
        ensures next { result ≡ goes_as (go_next self.old.opening turn) }
        ensures machine { self.new ≡ gone self.old turn }
        ensures frame { shelf.new ≡ shelf.old }
    {
        going(self.opening.go(turn))
    }

    /// Whether its slot holds an open.
    fn is_taken(&self, opens: &OpenFiles) -> bool
        ensures { result ≡ is_taken self.now opens.now }
    {
        opens.get(self.lane, self.slot).is_some()
    }

    /// What follows a step of the opening.
    fn follow(&self, step: OpeningStep, opens: &mut OpenFiles) -> Step
        ensures { Follows self.now step result opens.old opens.new }
    {
        match step {
            OpeningStep::Ended(Ok(file)) => self.put(&file, opens),
            OpeningStep::Ended(Err(fault)) => Step::Done(Answer::Refused(fault)),
            OpeningStep::Send(call) => Step::Send(call),
            OpeningStep::Wait => Step::Wait,
        }
    }

    /// Puts the open to its slot.
    fn put(&self, file: &Handle, opens: &mut OpenFiles) -> Step
        ensures { Puts (place_of self.now) (opened_of self.now.opening file.now) result opens.old opens.new }
    {
        if opens.get(self.lane, self.slot).is_some() {
            return Step::Done(Answer::Refused(Fault::Slot));
        }
        let of = Opened {
            file: *file,
            dir: self.opening.dir,
            name: self.opening.name,
            mode: self.opening.mode,
            mark: self.opening.moment,
        };
        match opens.put(self.lane, self.slot, of) {
            Ok(()) => Step::Done(Answer::Done(Value::Nothing)),
            Err(Memory) => Step::Done(Answer::Refused(Fault::Memory)),
        }
    }
}

/// A step of the opening as one of the operation.
pub(crate) fn going(step: OpeningStep) -> Step
    ensures { result ≡ goes_as step }
{
    match step {
        OpeningStep::Send(call) => Step::Send(call),
        OpeningStep::Wait => Step::Wait,
        OpeningStep::Ended(Ok(_)) => Step::Done(Answer::Done(Value::Nothing)),
        OpeningStep::Ended(Err(fault)) => Step::Done(Answer::Refused(fault)),
    }
}
