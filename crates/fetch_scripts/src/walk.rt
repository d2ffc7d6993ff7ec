//! What is known of a tree on the server so far, and what is to be asked for.

use std::alloc::Global;
use world_model::Path;
use xdr_codec::Memory;

/// A file that is to be fetched, and its size as it was shown.
#[derive(Drop)]
pub(crate) struct Found {
    pub(crate) path: Path,
    pub(crate) size: u64,
}

/// Paths below the one that is copied, by what is to be asked for of them. Links are the last ones, so that nothing is written through one that came from the
/// server.
#[derive(Drop)]
pub(crate) struct Walk {
    /// What stands there isn't known yet.
    pub(crate) unseen: Vec<Path>,
    /// Folders that aren't listed yet.
    pub(crate) folders: Vec<Path>,
    /// Files that aren't fetched yet.
    pub(crate) files: Vec<Found>,
    /// Links that aren't read yet.
    pub(crate) links: Vec<Path>,
}

impl Walk {
    /// Only the path itself is to be looked at.
    pub(crate) fn new(alloc: Global) -> Result<Walk, Memory> {
        let mut unseen = Vec::new(alloc);
        unseen.push(Path::of(Vec::new(alloc)))?;
        Ok(Walk {
            unseen,
            folders: Vec::new(alloc),
            files: Vec::new(alloc),
            links: Vec::new(alloc),
        })
    }
}
