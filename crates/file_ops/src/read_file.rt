//! A range of an open file is read.

ghost use Rattle.std.specs.Prelude.{◌≡◌, ◌≤◌, None, Ok};
ghost use Rattle.std.specs.FinMap as finite;
ghost use Rattle.std.specs.Bool.{OnTrue};
ghost use Rattle.std.specs.Option.{option_copied};
ghost use Rattle.client_shelf.specs.Coming.{reply_of};
ghost use Rattle.client_shelf.specs.Learning.{Learns};
ghost use Rattle.file_ops.specs.Rests.{ReadRests};
ghost use Rattle.file_ops.specs.ReadFile.{begun, begun_in, begun_at, Begins, Starts, StartsWith, ResumesIn, TakesIn, file_of, attr_heard, repeats_heard, first_phase};

use crate::base::Base;
use crate::overlaid::WasPending;
use crate::reading::{Phase, Reading};
use crate::space::Space;
use client_shelf::{Came, Shelf, Step, Turn};
use nfs_types::{Handle, Mode};
use open_files::Opened;
use page_cache::PageCache;
use std::alloc::Global;
use world_model::{Answer, Fault};
use write_back::WriteBack;

/// A range of an open file is read.
#[derive(Drop)]
pub struct ReadFile {
    /// The lane.
    pub lane: u8,
    /// The slot.
    pub slot: u8,
    /// Where the range begins.
    pub offset: u64,
    /// How many bytes it has.
    pub count: u32,
    /// How many bytes a READ may ask for.
    pub rsize: u32,
    /// Whether it asks for the file's attributes before it takes a page.
    pub noac: bool,
    /// The read, once it has begun.
    pub reading: Option<Reading>,
}

impl ReadFile {
    /// It is to read a range of the file that is open at a slot. With `noac` it asks for the file's attributes first.
    pub fn new(lane: u8, slot: u8, offset: u64, count: u32, rsize: u32, noac: bool) -> ReadFile
        ensures { result ≡ record { lane = lane; slot = slot; offset = offset; count = count; rsize = rsize; noac = noac; reading = None } }
    {
        ReadFile {
            lane,
            slot,
            offset,
            count,
            rsize,
            noac,
            reading: None,
        }
    }

    /// The first step.
    pub fn start(&mut self, alloc: Global, turn: Turn, shelf: &mut Shelf) -> Step
        requires { 1 ≤ turn.moment }
        ensures step { Starts (finite.get shelf.old.opens (self.old.lane, self.old.slot)) turn self.old shelf.old.pages shelf.old.back result self.new shelf.new.pages }
        ensures frame { shelf.new ≡ record shelf.old { pages = shelf.new.pages } }
    {
        let begun = self.begin(
            alloc,
            shelf.opens.get(self.lane, self.slot),
            turn.moment - 1,
            &shelf.back,
        );
        self.start_with(alloc, begun, turn.room, &mut shelf.pages, &shelf.back)
    }

    /// The reply to its call came, which the step with the turn `sent` asked for.
    pub fn took(
        &mut self,
        alloc: Global,
        sent: Turn,
        came: &Came<'_>,
        turn: Turn,
        shelf: &mut Shelf,
    ) -> Step
        requires { 1 ≤ turn.moment }
        ensures step { TakesIn self.old.reading sent turn (reply_of came.now) shelf.old.repeats self.old shelf.old.pages shelf.old.back result self.new shelf.new.pages }
        ensures attrs { Learns (file_of self.old.reading) (attr_heard self.old.reading (reply_of came.now)) sent.now shelf.old.attrs shelf.new.attrs }
        ensures repeats { shelf.new.repeats ≡ repeats_heard self.old.reading sent turn (reply_of came.now) shelf.old.repeats }
        ensures frame { shelf.new ≡ record shelf.old { attrs = shelf.new.attrs; pages = shelf.new.pages; repeats = shelf.new.repeats } }
    {
        let Some(reading) = &mut self.reading else {
            return Step::Wait;
        };
        reading.took(
            alloc,
            sent,
            came,
            turn,
            &mut shelf.attrs,
            &mut shelf.pages,
            &mut shelf.repeats,
            &shelf.back,
        )
    }

    /// Whether a step that no reply made possible does nothing: it waits for the reply to its call.
    pub fn rests(&self) -> bool
        ensures { OnTrue result (ReadRests self.now) }
    {
        match &self.reading {
            Some(reading) => reading.has_asked(),
            None => false,
        }
    }

    /// It may go on.
    pub fn resume(&mut self, alloc: Global, turn: Turn, shelf: &mut Shelf) -> Step
        ensures step { ResumesIn self.old.reading turn.room self.old shelf.old.pages shelf.old.back result self.new shelf.new.pages }
        ensures frame { shelf.new ≡ record shelf.old { pages = shelf.new.pages } }
    {
        let Some(reading) = &mut self.reading else {
            return Step::Wait;
        };
        reading.go(alloc, turn.room, &mut shelf.pages, &shelf.back)
    }

    /// What it begins with.
    fn begin(
        &self,
        alloc: Global,
        opened: Option<&Opened>,
        moment: u64,
        back: &WriteBack,
    ) -> Result<Reading, Fault>
        ensures { Begins (begun_at (option_copied opened.entry) moment self.now back.now) result }
    {
        match opened {
            Some(opened) => self.begin_in(alloc, opened.mode, &opened.file, moment, back),
            None => Err(Fault::Slot),
        }
    }

    /// The same at a file that is open.
    fn begin_in(
        &self,
        alloc: Global,
        mode: Mode,
        file: &Handle,
        moment: u64,
        back: &WriteBack,
    ) -> Result<Reading, Fault>
        ensures { Begins (begun_in mode moment self.now file.now back.now) result }
    {
        match mode {
            Mode::W => Err(Fault::Mode),
            Mode::R => self.begun(alloc, file, moment, back),
            Mode::RW => self.begun(alloc, file, moment, back),
            Mode::C => self.begun(alloc, file, moment, back),
            Mode::X => self.begun(alloc, file, moment, back),
        }
    }

    /// The same if that may be read. All memory that the read needs is taken here.
    fn begun(
        &self,
        alloc: Global,
        file: &Handle,
        moment: u64,
        back: &WriteBack,
    ) -> Result<Reading, Fault>
        ensures { Begins (Ok (begun moment self.now file.now back.now)) result }
    {
        let Ok(space) = Space::new(alloc, self.count) else {
            return Err(Fault::Memory);
        };
        let Ok(base) = Base::new(alloc, self.offset, self.count) else {
            return Err(Fault::Memory);
        };
        let Ok(was) = WasPending::of(alloc, back, file, self.offset, self.count) else {
            return Err(Fault::Memory);
        };
        Ok(Reading {
            file: *file,
            offset: self.offset,
            space,
            rsize: self.rsize,
            moment,
            base,
            was,
            phase: self.first_phase(),
        })
    }

    /// What it does first.
    fn first_phase(&self) -> Phase
        ensures { result ≡ first_phase self.now.noac }
    {
        if self.noac {
            Phase::Attrs
        } else {
            Phase::Pages
        }
    }

    /// It goes on with what it begins with.
    fn start_with(
        &mut self,
        alloc: Global,
        begun: Result<Reading, Fault>,
        room: bool,
        pages: &mut PageCache,
        back: &WriteBack,
    ) -> Step
        ensures { StartsWith begun room self.old pages.old back.now result self.new pages.new }
    {
        match begun {
            Ok(mut reading) => {
                let next = reading.go(alloc, room, pages, back);
                self.reading = Some(reading);
                next
            }
            Err(fault) => Step::Done(Answer::Refused(fault)),
        }
    }
}
