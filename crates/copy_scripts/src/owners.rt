//! Which object each line of a script is of.

use crate::answers::Answer;
use script_text::decoded;
use std::alloc::Global;
use world_model::Path;
use xdr_codec::{Blob, Memory};

/// What a line is asked for.
#[derive(Drop)]
pub(crate) enum Kind {
    /// A folder that is to be there.
    Folder,
    /// A link that is to lead to this.
    Link(Blob),
    /// A file.
    File,
}

/// An object, and the number of its first line.
#[derive(Drop)]
struct Owner {
    first: u32,
    path: Path,
    kind: Kind,
    /// Whether it is told already that it wasn't copied.
    is_told: bool,
}

/// The objects of a script, in the order of their lines.
#[derive(Drop)]
pub(crate) struct Owners {
    all: Vec<Owner>,
}

impl Owners {
    /// No object.
    pub(crate) fn new(alloc: Global) -> Owners {
        Owners {
            all: Vec::new(alloc),
        }
    }

    /// The lines from this number on are of that object.
    pub(crate) fn add(&mut self, first: u32, path: Path, kind: Kind) -> Result<(), Memory> {
        self.all.push(Owner {
            first,
            path,
            kind,
            is_told: false,
        })?;
        Ok(())
    }

    /// How many.
    pub(crate) fn count(&self) -> usize {
        self.all.len()
    }

    /// The path of the object at a place, if it isn't there by what was found; none if it is.
    pub(crate) fn missing(
        &self,
        alloc: Global,
        at: usize,
        found: &Answer<'_>,
    ) -> Result<Option<Path>, Memory> {
        let Some(owner) = self.all.as_slice().get(at) else {
            return Ok(None);
        };
        if is_there(alloc, &owner.kind, found)? {
            return Ok(None);
        }
        Ok(Some(owner.path.copy(alloc)?))
    }

    /// The path of the object of a line, if it isn't told yet that it wasn't copied. It is told from then on.
    pub(crate) fn untold(&mut self, alloc: Global, number: u32) -> Result<Option<Path>, Memory> {
        let Some(at) = self.place(number) else {
            return Ok(None);
        };
        let Some(owner) = self.all.as_mut_slice().get_mut(at) else {
            return Ok(None);
        };
        if owner.is_told {
            return Ok(None);
        }
        owner.is_told = true;
        Ok(Some(owner.path.copy(alloc)?))
    }

    /// The place of the object of a line.
    fn place(&self, number: u32) -> Option<usize> {
        let behind = self
            .all
            .as_slice()
            .partition_point(|owner| owner.first <= number);
        behind.checked_sub(1)
    }

    /// Begins another script. With `keep` the last object goes on there.
    pub(crate) fn restart(&mut self, keep: bool) {
        let last = if keep { self.all.pop() } else { None };
        self.all.clear();
        if let Some(owner) = last {
            let _ = self.all.push(owner);
        }
    }
}

/// Whether what was found is what is to be there: a folder, or a link with this text.
fn is_there(alloc: Global, kind: &Kind, found: &Answer<'_>) -> Result<bool, Memory> {
    let Some(word) = found.shown() else {
        return Ok(false);
    };
    match kind {
        Kind::Folder => Ok(word == b"2".as_slice()),
        Kind::Link(target) => shows(alloc, target.bytes(), word),
        Kind::File => Ok(false),
    }
}

/// Whether a word shows these bytes: each as it is, or as `%` and its two hex digits.
fn shows(alloc: Global, bytes: &[u8], word: &[u8]) -> Result<bool, Memory> {
    match decoded(alloc, word)? {
        Some(shown) => Ok(shown.as_slice() == bytes),
        None => Ok(false),
    }
}
