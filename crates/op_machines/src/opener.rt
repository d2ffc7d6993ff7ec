//! What a walk leads to a directory for: an open or a put.

ghost use Rattle.std.specs.Prelude.{◌≡◌};
ghost use Rattle.client_shelf.specs.Coming.{reply_of};
ghost use Rattle.op_machines.specs.FileFits.{FileFits};
ghost use Rattle.op_machines.specs.FileSteps.{Resumes, Takes};
ghost use Rattle.op_machines.specs.MayStep.{MayStep};
ghost use Rattle.op_machines.specs.Openers.{file_of, slot_taken, begun_at, opening_in, placed};

use client_shelf::{Came, Shelf, Step, Turn};
use file_ops::{OpenFile, Opening, PutFile, Putting};
use nfs_types::Handle;
use open_files::OpenFiles;
use std::alloc::Global;

/// An open or a put. It starts from the directory of its name.
#[derive(Drop)]
pub enum Opener {
    /// A file is opened at a slot.
    Open(OpenFile),
    /// Bytes are written to the file of a name, and made stable.
    Put(PutFile),
}

impl Opener {
    /// Whether it is an open whose slot holds an open.
    pub(crate) fn is_taken(&self, opens: &OpenFiles) -> bool
        ensures { result ≡ slot_taken self.now opens.now }
    {
        match self {
            Opener::Open(open) => opens.get(open.lane, open.slot).is_some(),
            Opener::Put(_) => false,
        }
    }

    /// Its own moment is this one.
    pub(crate) fn begin_at(&mut self, moment: u64)
        ensures { self.new ≡ begun_at moment self.old }
    {
        match self {
            Opener::Open(open) => open.opening.moment = moment,
            Opener::Put(put) => put.opening.moment = moment,
        }
    }

    /// It starts from this directory.
    pub(crate) fn place(&mut self, dir: &Handle)
        ensures { self.new ≡ placed dir.now self.old }
    {
        match self {
            Opener::Open(open) => open.opening = opening_in(dir, &open.opening),
            Opener::Put(put) => {
                put.opening = opening_in(dir, &put.opening);
                put.state = Putting::Opens;
            }
        }
    }

    /// A step that no reply made possible.
    pub(crate) fn resume(
        &mut self,
        alloc: Global,
        wsize: u32,
        turn: Turn,
        shelf: &mut Shelf,
    ) -> Step
        requires may { MayStep wsize turn shelf.old }
        ensures { Resumes wsize (file_of self.old) turn shelf.old result (file_of self.new) shelf.new }
    {
        match self {
            Opener::Open(open) => open.resume(turn, shelf),
            Opener::Put(put) => put.resume(alloc, wsize, turn, shelf),
        }
    }

    /// The step at what came of the call that the step with the turn `sent` asked for.
    pub(crate) fn took(
        &mut self,
        alloc: Global,
        wsize: u32,
        sent: Turn,
        came: &Came<'_>,
        turn: Turn,
        shelf: &mut Shelf,
    ) -> Step
        requires fits { FileFits (file_of self.old) }
        requires may { MayStep wsize turn shelf.old }
        ensures { Takes wsize (file_of self.old) sent turn (reply_of came.now) shelf.old result (file_of self.new) shelf.new }
    {
        match self {
            Opener::Open(open) => open.took(sent, came, turn, shelf),
            Opener::Put(put) => put.took(alloc, wsize, sent, came, turn, shelf),
        }
    }
}

/// The opening in another directory, with no call made yet.
fn opening_in(dir: &Handle, opening: &Opening) -> Opening
    ensures { result ≡ opening_in dir.now opening.now }
{
    Opening::new(
        dir,
        &opening.name,
        opening.mode,
        opening.nocto,
        opening.moment,
    )
}
