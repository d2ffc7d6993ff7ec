//! A target in memory.

ghost use Rattle.std.specs.Prelude.{◌≡◌, ◌++◌, [], false};
ghost use Rattle.copy_targets.specs.Taking.{if_taken};

use crate::target::{Target, Took};
use crate::why::Why;
use nfs_types::Name;
use std::alloc::Global;
use std::marker::Model;
use world_model::Path;
use xdr_codec::{Blob, Memory};

/// A call that is refused: the first one that gives something is 1.
#[derive(Clone, Copy, Debug, PartialEq, Eq)]
pub struct Refusal {
    /// Its number.
    pub call: u64,
    /// Why.
    pub why: Why,
}

/// A file that stands there already, and its size.
#[derive(Drop)]
pub struct FileSize {
    /// Its path.
    pub path: Path,
    /// So many bytes.
    pub size: u64,
}

/// A target in memory: it takes what it is given, but for the calls that it was told to refuse, and tells what it took.
#[derive(Drop)]
pub struct MemTarget {
    refusals: Vec<Refusal>,
    sizes: Vec<FileSize>,
    /// So many calls gave something.
    calls: u64,
    took: Vec<Took>,
    is_writing: bool,
}

impl Model for MemTarget {
    ghost use Rattle.copy_targets.specs.Memory.{MemTaken};

    ghost Value = { MemTaken };

    ghost view = { λ t. record { took = t.took.items; writes = t.is_writing } };
}

impl MemTarget {
    /// A target that took nothing yet, at which files of these sizes stand.
    pub fn new(alloc: Global, refusals: Vec<Refusal>, sizes: Vec<FileSize>) -> MemTarget
        ensures { result ≡ record { took = []; writes = false } }
    {
        MemTarget {
            refusals,
            sizes,
            calls: 0,
            took: Vec::new(alloc),
            is_writing: false,
        }
    }

    /// What it took, one after another.
    pub fn took(&self) -> &[Took]
        ensures { result.now ≡ self.now.took }
    {
        self.took.as_slice()
    }

    /// Takes this, unless the call is refused.
    fn take(&mut self, one: Took) -> Result<Option<Why>, Memory>
        ensures { self.new ≡ record self.old { took = self.old.took ++ if_taken result one } }
    {
        self.calls = self.calls.saturating_add(1);
        if let Some(why) = self.refusal() {
            return Ok(Some(why));
        }
        self.took.push(one)?;
        Ok(None)
    }

    /// Why this call is refused, if it is.
    fn refusal(&self) -> Option<Why> {
        for refusal in self.refusals.as_slice() {
            if refusal.call == self.calls {
                return Some(refusal.why);
            }
        }
        None
    }
}

impl Target for MemTarget {
    ghost use Rattle.std.specs.Prelude.{Some};

    ghost took = { λ t. Some t.took };

    ghost writes = { λ t. t.writes };

    fn folder(&mut self, alloc: Global, path: &Path) -> Result<Option<Why>, Memory> {
        let path = path.copy(alloc)?;
        self.take(Took::Folder(path))
    }

    fn link(&mut self, alloc: Global, path: &Path, text: &[u8]) -> Result<Option<Why>, Memory> {
        let path = path.copy(alloc)?;
        let text = Blob::copy(alloc, text)?;
        self.take(Took::Link(path, text))
    }

    fn begin(&mut self, alloc: Global, path: &Path) -> Result<Option<Why>, Memory> {
        self.is_writing = false;
        let path = path.copy(alloc)?;
        let why = self.take(Took::File(path))?;
        self.is_writing = why.is_none();
        Ok(why)
    }

    fn write(&mut self, alloc: Global, bytes: &[u8]) -> Result<Option<Why>, Memory> {
        if !self.is_writing {
            return Ok(Some(Why::Missing));
        }
        self.is_writing = false;
        let bytes = Blob::copy(alloc, bytes)?;
        let why = self.take(Took::Piece(bytes))?;
        self.is_writing = why.is_none();
        Ok(why)
    }

    fn end(&mut self, _alloc: Global) -> Result<Option<Why>, Memory> {
        if !self.is_writing {
            return Ok(Some(Why::Missing));
        }
        self.is_writing = false;
        self.take(Took::End)
    }

    fn leave(&mut self) {
        self.is_writing = false;
    }

    fn has_size(&self, _alloc: Global, path: &Path, size: u64) -> Result<bool, Memory> {
        for file in self.sizes.as_slice() {
            if file.size == size && is_same(&file.path, path) {
                return Ok(true);
            }
        }
        Ok(false)
    }

    fn others(
        &self,
        alloc: Global,
        _path: &Path,
        _names: &[Name],
    ) -> Result<Option<Vec<Name>>, Memory> {
        Ok(Some(Vec::new(alloc)))
    }
}

/// Whether two paths are the same.
fn is_same(one: &Path, other: &Path) -> bool {
    if one.names().len() != other.names().len() {
        return false;
    }
    for at in 0..one.names().len() {
        if one.names()[at].bytes() != other.names()[at].bytes() {
            return false;
        }
    }
    true
}
