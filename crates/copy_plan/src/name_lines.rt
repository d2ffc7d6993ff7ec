//! The lines that make folders and links, and those that show them. All are of the lane 16, so that one is done after the other.

ghost use Rattle.std.specs.Prelude.{◌≡◌, ◌≤◌, [], All, OnOk, length};
ghost use Rattle.world_model.specs.declared.op.Op.TheVariants as ops;
ghost use Rattle.nfs_script.specs.Asked.{IsAskedLine, IsNamed, IsPath, IsTarget};
ghost use Rattle.copy_plan.specs.Lines.{IsNameLine, asks};

use crate::lines::{Lines, PlanFault};
use nfs_script::ScriptLine;
use std::alloc::Global;
use std::marker::Model;
use world_model::{Op, Path};
use xdr_codec::Blob;

/// The lane of folders and links.
const LANE: u8 = 16;

/// The lines that make folders and links, a folder before what it holds, and those that show what stands at a path.
#[derive(Drop)]
pub struct NameLines {
    lines: Lines,
}

impl Model for NameLines {
    ghost use Rattle.std.specs.Prelude.{All};
    ghost use Rattle.copy_plan.specs.Lines.{IsNameLine, LinesView};

    ghost Value = { LinesView };

    ghost view = { λ n. n.lines };

    ghost invariant = { λ n. All IsNameLine n.lines.lines };
}

impl NameLines {
    /// None so far.
    pub fn new(alloc: Global) -> NameLines
        ensures { result ≡ record { lines = []; next = 1 } }
    {
        NameLines {
            lines: Lines::new(alloc),
        }
    }

    /// How many lines the script has so far, 16,384 at most.
    pub fn count(&self) -> usize
        ensures is { result ≡ length self.now.lines }
        ensures few { result ≤ 16384 }
    {
        self.lines.count()
    }

    /// The number of the next line.
    pub fn next(&self) -> u32
        ensures { result ≡ self.now.next }
    {
        self.lines.next()
    }

    /// Makes a folder.
    pub fn make_folder(&mut self, path: Path) -> Result<(), PlanFault>
        requires { IsNamed path }
        ensures { OnOk result (self.new ≡ asks 16 (ops.MakeDir path) self.old) }
    {
        self.lines.add(LANE, Op::MakeDir { path })
    }

    /// Makes a symbolic link that leads to the target, 1 to 1,024 bytes.
    pub fn make_link(&mut self, path: Path, target: Blob) -> Result<(), PlanFault>
        requires path { IsNamed path }
        requires target { IsTarget target }
        ensures { OnOk result (self.new ≡ asks 16 (ops.SymLink path target) self.old) }
    {
        self.lines.add(LANE, Op::SymLink { path, target })
    }

    /// Shows what stands at the path.
    pub fn show(&mut self, path: Path) -> Result<(), PlanFault>
        requires { IsPath path }
        ensures { OnOk result (self.new ≡ asks 16 (ops.Stat path) self.old) }
    {
        self.lines.add(LANE, Op::Stat { path })
    }

    /// Shows what a symbolic link leads to.
    pub fn show_link(&mut self, path: Path) -> Result<(), PlanFault>
        requires { IsNamed path }
        ensures { OnOk result (self.new ≡ asks 16 (ops.ReadLink path) self.old) }
    {
        self.lines.add(LANE, Op::ReadLink { path })
    }

    /// Shows the names of a folder.
    pub fn list(&mut self, path: Path) -> Result<(), PlanFault>
        requires { IsPath path }
        ensures { OnOk result (self.new ≡ asks 16 (ops.List path) self.old) }
    {
        self.lines.add(LANE, Op::List { path })
    }

    /// The lines of the script, which is done: the next one begins.
    pub fn take(&mut self, alloc: Global) -> Vec<ScriptLine>
        ensures is { result.items ≡ self.old.lines }
        ensures asked { All IsAskedLine result.items }
        ensures few { length result.items ≤ 16384 }
        ensures names { All IsNameLine result.items }
        ensures rest { self.new ≡ record { lines = []; next = self.old.next } }
    {
        self.lines.take(alloc)
    }
}
