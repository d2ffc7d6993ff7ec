//! The lines that show what stands at paths, list folders and read links.

ghost use Rattle.std.specs.Prelude.{◌≡◌, ◌≤◌, All, OnOk, Ok};
ghost use Rattle.copy_plan.specs.Lines.{IsNameLine};
ghost use Rattle.fetch_scripts.specs.Downloads.{IsScript};

use crate::blame::Blame;
use copy_plan::{NameLines, PlanFault};
use nfs_script::Script;
use std::alloc::Global;
use world_model::Path;
use xdr_codec::Memory;

/// A script has so many lines at most.
const MOST_LINES: usize = 4096;

/// A script lists so many folders at most.
const MOST_FOLDERS: usize = 16;

/// The lines of a script, and the paths that they are of, one after another.
#[derive(Drop)]
pub(crate) struct NameReads {
    lines: NameLines,
    asked: Vec<Path>,
}

impl NameReads {
    pub(crate) fn new(alloc: Global) -> NameReads {
        NameReads {
            lines: NameLines::new(alloc),
            asked: Vec::new(alloc),
        }
    }

    /// How many lines the script has.
    pub(crate) fn count(&self) -> usize
        ensures { result ≤ 16384 }
    {
        self.lines.count()
    }

    /// The number of the next line.
    pub(crate) fn next(&self) -> u32 {
        self.lines.next()
    }

    /// The script, which is done: the next one begins.
    pub(crate) fn take(&mut self, alloc: Global) -> Script
        ensures script { IsScript result }
        ensures names { All IsNameLine result }
    {
        Script::of(self.lines.take(alloc))
    }

    /// The paths that were asked for.
    pub(crate) fn asked(&mut self, alloc: Global) -> Vec<Path> {
        std::mem::replace(&mut self.asked, Vec::new(alloc))
    }

    /// Looks at the last of these paths below the one that is copied.
    pub(crate) fn show(
        &mut self,
        alloc: Global,
        blame: &mut Blame,
        unseen: &mut Vec<Path>,
    ) -> Result<(), Memory>
        ensures { blame.new.from ≡ blame.old.from }
    {
        for _ in 0..MOST_LINES {
            let Some(path) = unseen.pop() else {
                return Ok(());
            };
            self.show_one(alloc, blame, path)?;
        }
        Ok(())
    }

    fn show_one(&mut self, alloc: Global, blame: &mut Blame, path: Path) -> Result<(), Memory>
        ensures { blame.new.from ≡ blame.old.from }
    {
        let Some(full) = blame.full(alloc, &path)? else {
            return Ok(());
        };
        planned(self.lines.show(full))?;
        self.asked.push(path)?;
        Ok(())
    }

    /// Lists the last of these folders.
    pub(crate) fn list(
        &mut self,
        alloc: Global,
        blame: &mut Blame,
        folders: &mut Vec<Path>,
    ) -> Result<(), Memory>
        ensures { blame.new.from ≡ blame.old.from }
    {
        for _ in 0..MOST_FOLDERS {
            let Some(path) = folders.pop() else {
                return Ok(());
            };
            self.list_one(alloc, blame, path)?;
        }
        Ok(())
    }

    fn list_one(&mut self, alloc: Global, blame: &mut Blame, path: Path) -> Result<(), Memory>
        ensures { blame.new.from ≡ blame.old.from }
    {
        let Some(full) = blame.full(alloc, &path)? else {
            return Ok(());
        };
        planned(self.lines.list(full))?;
        self.asked.push(path)?;
        Ok(())
    }

    /// Reads the last of these links.
    pub(crate) fn read(
        &mut self,
        alloc: Global,
        blame: &mut Blame,
        links: &mut Vec<Path>,
    ) -> Result<(), Memory>
        ensures { blame.new.from ≡ blame.old.from }
    {
        for _ in 0..MOST_LINES {
            let Some(path) = links.pop() else {
                return Ok(());
            };
            self.read_one(alloc, blame, path)?;
        }
        Ok(())
    }

    fn read_one(&mut self, alloc: Global, blame: &mut Blame, path: Path) -> Result<(), Memory>
        ensures { blame.new.from ≡ blame.old.from }
    {
        let Some(full) = blame.named(alloc, &path)? else {
            return Ok(());
        };
        planned(self.lines.show_link(full))?;
        self.asked.push(path)?;
        Ok(())
    }
}

/// A line that was added to a script. One that there is no room for ends the session.
pub(crate) fn planned(added: Result<(), PlanFault>) -> Result<(), Memory>
    ensures { OnOk result (added ≡ Ok tt) }
{
    match added {
        Ok(()) => Ok(()),
        Err(_) => Err(Memory),
    }
}
