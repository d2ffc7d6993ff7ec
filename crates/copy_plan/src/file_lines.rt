//! The lines that copy files: one file after the other, in the lanes 1 to 15 by turns. The lane 16 is that of folders and links.

ghost use Rattle.std.specs.Prelude.{◌≡◌, ◌≤◌, ◌+◌, [], All, None, OnOk, Some, is_some, length};
ghost use Rattle.nfs_types.specs.declared.mode.Mode.TheVariants as modes;
ghost use Rattle.nfs_script.specs.Asked.{IsAskedLine, IsFrom, IsNamed, IsPayload};
ghost use Rattle.copy_plan.specs.Files.{begins, ends, next_lane, opens, reads, writes};

use crate::lines::{Lines, PlanFault};
use nfs_script::ScriptLine;
use nfs_types::Mode;
use std::alloc::Global;
use std::marker::Model;
use world_model::{Op, Path};
use xdr_codec::Blob;

/// The last lane of files.
const LAST_LANE: u8 = 15;

/// The slot that each file is opened in.
const SLOT: u8 = 1;

/// The greatest offset of a read or a write.
const MOST_OFFSET: u64 = 4_611_686_018_427_387_904;

/// The lines that copy files, or compare them. A file is begun, goes on piece by piece, and ends; it may go on in the next script, in its lane.
#[derive(Drop)]
pub struct FileLines {
    lines: Lines,
    /// The lane of the file that was begun last.
    lane: u8,
    /// Where its next piece goes to, while it isn't ended.
    at: Option<u64>,
}

impl Model for FileLines {
    ghost use Rattle.nfs_script.specs.Asked.{IsFrom};
    ghost use Rattle.copy_plan.specs.Files.{FilesView, IsPlace};

    ghost Value = { FilesView };

    ghost view = { λ f. record { all = f.lines; lane = f.lane; at = f.at } };

    ghost invariant = { λ f. IsFrom 1 15 f.lane × IsPlace f.at };
}

impl FileLines {
    /// No file so far.
    pub fn new(alloc: Global) -> FileLines
        ensures { result ≡ record { all = record { lines = []; next = 1 }; lane = 15; at = None } }
    {
        FileLines {
            lines: Lines::new(alloc),
            lane: LAST_LANE,
            at: None,
        }
    }

    /// How many lines the script has so far, 16,384 at most.
    pub fn count(&self) -> usize
        ensures is { result ≡ length self.now.all.lines }
        ensures few { result ≤ 16384 }
    {
        self.lines.count()
    }

    /// The number of the next line.
    pub fn next(&self) -> u32
        ensures { result ≡ self.now.all.next }
    {
        self.lines.next()
    }

    /// Whether a file was begun and isn't ended.
    pub fn is_open(&self) -> bool
        ensures { result ≡ is_some self.now.at }
    {
        self.at.is_some()
    }

    /// Begins the copy of a file to the path: it is opened, and made if it isn't there, and gets the size 0.
    pub fn begin(&mut self, path: Path) -> Result<(), PlanFault>
        requires { IsNamed path }
        ensures { OnOk result (self.new ≡ begins path self.old) }
    {
        self.open(Mode::C, path)?;
        self.lines.add(
            self.lane,
            Op::Truncate {
                slot: SLOT,
                size: 0,
            },
        )
    }

    /// Begins to read the file that the path names.
    pub fn begin_read(&mut self, path: Path) -> Result<(), PlanFault>
        requires { IsNamed path }
        ensures { OnOk result (self.new ≡ opens modes.R path self.old) }
    {
        self.open(Mode::R, path)
    }

    /// Opens the file in the next lane.
    fn open(&mut self, mode: Mode, path: Path) -> Result<(), PlanFault>
        requires { IsNamed path }
        ensures { OnOk result (self.new ≡ opens mode path self.old) }
    {
        self.lane = next_lane(self.lane);
        self.at = Some(0);
        self.lines.add(
            self.lane,
            Op::OpenFile {
                slot: SLOT,
                mode,
                path,
            },
        )
    }

    /// The file goes on with these bytes, 1 to 65,536. If no file is open nothing is asked for.
    pub fn write(&mut self, bytes: Blob) -> Result<(), PlanFault>
        requires { IsPayload bytes }
        ensures { OnOk result (self.new ≡ writes bytes self.old) }
    {
        let Some(at) = self.at else {
            return Ok(());
        };
        let count = bytes.bytes().len() as u64;
        self.go_on(at, count)?;
        self.lines.add(
            self.lane,
            Op::Write {
                slot: SLOT,
                offset: at,
                bytes,
            },
        )
    }

    /// So many bytes that come next in the file are read, 1 to 65,536. If no file is open nothing is asked for.
    pub fn read(&mut self, count: u32) -> Result<(), PlanFault>
        requires { IsFrom 1 65536 count }
        ensures { OnOk result (self.new ≡ reads count self.old) }
    {
        let Some(at) = self.at else {
            return Ok(());
        };
        self.go_on(at, u64::from(count))?;
        self.lines.add(
            self.lane,
            Op::Read {
                slot: SLOT,
                offset: at,
                count,
            },
        )
    }

    /// The file goes on so many bytes behind the place.
    fn go_on(&mut self, at: u64, count: u64) -> Result<(), PlanFault>
        requires place { at ≤ 4611686018427387904 }
        requires few { count ≤ 65536 }
        ensures { OnOk result (self.new ≡ record self.old { at = Some (at + count) }) }
    {
        let next = at + count;
        if next > MOST_OFFSET {
            return Err(PlanFault::Full);
        }
        self.at = Some(next);
        Ok(())
    }

    /// The file is closed, which makes it stable. If no file is open nothing is asked for.
    pub fn end(&mut self) -> Result<(), PlanFault>
        ensures { OnOk result (self.new ≡ ends self.old) }
    {
        if self.at.is_none() {
            return Ok(());
        }
        self.at = None;
        self.lines.add(self.lane, Op::Close { slot: SLOT })
    }

    /// The lines of the script, which is done: the next one begins. A file that isn't ended goes on there.
    pub fn take(&mut self, alloc: Global) -> Vec<ScriptLine>
        ensures is { result.items ≡ self.old.all.lines }
        ensures asked { All IsAskedLine result.items }
        ensures few { length result.items ≤ 16384 }
        ensures rest { self.new ≡ record self.old { all = record { lines = []; next = self.old.all.next } } }
    {
        self.lines.take(alloc)
    }
}

/// The lane after this one.
fn next_lane(lane: u8) -> u8
    requires { IsFrom 1 15 lane }
    ensures is { result ≡ next_lane lane }
    ensures within { IsFrom 1 15 result }
{
    if lane < LAST_LANE { lane + 1 } else { 1 }
}
