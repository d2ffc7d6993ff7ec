//! Where trees go to.

ghost use Rattle.std.specs.Prelude.{◌≡◌, List, [], Option, Bool, true, false};
ghost use Rattle.copy_targets.specs.Taking.{IfTaken, Takes, ended, is_taken, took_file, took_folder, took_link, took_piece};
ghost use Rattle.copy_targets.specs.declared.target.Took.{Took as TookOf};

use crate::why::Why;
use nfs_types::Name;
use std::alloc::Global;
use world_model::Path;
use xdr_codec::{Blob, Memory};

/// What a target took at a call.
#[derive(Drop)]
pub enum Took {
    /// A folder stands at the path.
    Folder(Path),
    /// A link to this stands at the path.
    Link(Path, Blob),
    /// A file was begun.
    File(Path),
    /// The file that was begun last went on with these bytes.
    Piece(Blob),
    /// It stands at its path, with all that came of it.
    End,
}

/// A place for a tree of files. It is given a folder before what that holds. What it can't take it says, and the rest goes on.
///
/// A file comes to its path by its end alone, behind a beginning and writes each of which was taken. So a fault leaves no part of it there: no further bytes of
/// it are taken, and what stood at its path stays.
///
/// A target that compares takes what is there already, and makes nothing.
pub trait Target {
    /// What it took so far, if it tells.
    ghost took: { Self → Option (List TookOf) };

    /// Whether a file was begun and goes on: all that came of it was taken.
    ghost writes: { Self → Bool };

    /// A folder is to stand at the path; why it doesn't.
    fn folder(&mut self, alloc: Global, path: &Path) -> Result<Option<Why>, Memory>
        ensures told { Takes (took self.old) (took self.new) (took_folder path.now result) }
        ensures same { writes self.new ≡ writes self.old };

    /// A link to this text is to stand at the path; why it doesn't.
    fn link(&mut self, alloc: Global, path: &Path, text: &[u8]) -> Result<Option<Why>, Memory>
        ensures told { Takes (took self.old) (took self.new) (took_link path.now text.now result) }
        ensures same { writes self.new ≡ writes self.old };

    /// A file is to stand at the path, and its bytes come next; why they can't. One that was begun before is left.
    fn begin(&mut self, alloc: Global, path: &Path) -> Result<Option<Why>, Memory>
        ensures told { Takes (took self.old) (took self.new) (took_file path.now result) }
        ensures begun { writes self.new ≡ is_taken result };

    /// The file goes on with these bytes; why it can't. Then it is left.
    fn write(&mut self, alloc: Global, bytes: &[u8]) -> Result<Option<Why>, Memory>
        ensures told { Takes (took self.old) (took self.new) (took_piece bytes.now result) }
        ensures begun { IfTaken result (writes self.old ≡ true) }
        ensures goes { writes self.new ≡ is_taken result };

    /// All bytes of the file came, and it is to stand at its path now; why it doesn't.
    fn end(&mut self, alloc: Global) -> Result<Option<Why>, Memory>
        ensures told { Takes (took self.old) (took self.new) (ended result) }
        ensures begun { IfTaken result (writes self.old ≡ true) }
        ensures over { writes self.new ≡ false };

    /// No further bytes of the file come, and what stood at its path stays there.
    fn leave(&mut self)
        ensures told { Takes (took self.old) (took self.new) [] }
        ensures over { writes self.new ≡ false };

    /// Whether a file of that size stands at the path.
    fn has_size(&self, alloc: Global, path: &Path, size: u64) -> Result<bool, Memory>;

    /// What stands in a folder beside these names, which are in byte order, if it compares; none if the folder can't be listed.
    fn others(
        &self,
        alloc: Global,
        path: &Path,
        names: &[Name],
    ) -> Result<Option<Vec<Name>>, Memory>;
}
