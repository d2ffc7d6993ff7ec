//! The tree.

use crate::listing::Listing;
use crate::opened::Opened;
use crate::unread::unread_node;
use file_trees::{Item, Node, Piece, Tree};
use nfs_types::Name;
use std::alloc::Global;
use std::fs::{self, File, Metadata, OpenFile};
use std::io;
use std::marker::Model;
use std::rt::Files;
use world_model::Path;
use xdr_codec::{Blob, Memory};

/// The system's number for text that isn't UTF-8 (EILSEQ).
const NOT_UTF8: u32 = 84;

/// A folder or a file of the system. A folder is listed once, and one folder at a time is open: those that it holds wait. It tells nothing of what it
/// gives.
///
/// The root may be reached through symbolic links; below it none is followed. A file is opened by its path after its kind was looked at: a link that takes
/// its place in between is followed.
#[derive(Drop)]
pub struct DiskTree<'a, R: Files> {
    files: &'a R,
    root: &'a str,
    /// Whether the root wasn't given yet.
    is_new: bool,
    /// Folders that are to be listed, by their paths below the root.
    waiting: Vec<String>,
    listing: Option<Listing<R>>,
    file: Option<Opened<R>>,
}

impl<'a, R: Files> Model for DiskTree<'a, R> {
    ghost Value = { Unit {0} };

    ghost view = { λ _. tt };
}

impl<'a, R: Files> DiskTree<'a, R> {
    /// What stands at that path. Nothing is asked of the system yet.
    pub fn new(files: &'a R, alloc: Global, root: &'a str) -> DiskTree<'a, R> {
        DiskTree {
            files,
            root,
            is_new: true,
            waiting: Vec::new(alloc),
            listing: None,
            file: None,
        }
    }

    /// The root itself.
    fn first(&mut self, alloc: Global) -> Result<Item, Memory> {
        let root = self.root;
        let below = String::new(alloc);
        let found = fs::metadata(self.files, root);
        let node = self.node(alloc, found, root, below)?;
        Ok(Item {
            path: Path::of(Vec::new(alloc)),
            node,
        })
    }

    /// The next one of the folder that is being listed; none at its end.
    fn next_listed(&mut self, alloc: Global) -> Result<Option<Item>, Memory> {
        let Some(listing) = &mut self.listing else {
            return Ok(None);
        };
        match listing.next() {
            Ok(name) => self.found(alloc, name),
            Err(error) => self.failed(alloc, &error),
        }
    }

    /// A name of the folder that is being listed, or its end.
    fn found(&mut self, alloc: Global, name: Option<Name>) -> Result<Option<Item>, Memory> {
        let Some(name) = name else {
            self.listing = None;
            return Ok(None);
        };
        let item = self.named(alloc, name)?;
        Ok(Some(item))
    }

    /// The folder that is being listed can't be read on.
    fn failed(&mut self, alloc: Global, error: &io::Error) -> Result<Option<Item>, Memory> {
        let node = unread_node(error)?;
        let Some(listing) = self.listing.take() else {
            return Ok(None);
        };
        let names = listing.path().to_vec(alloc)?;
        Ok(Some(Item {
            path: Path::of(names),
            node,
        }))
    }

    /// What stands under a name of the folder that is being listed.
    fn named(&mut self, alloc: Global, name: Name) -> Result<Item, Memory> {
        let (mut names, mut below) = self.place(alloc)?;
        names.push(name)?;
        let node = match str::from_utf8(name.bytes()) {
            Ok(text) => {
                below.push('/')?;
                below.push_str(text)?;
                self.below(alloc, below)?
            }
            Err(_) => Node::Unread(NOT_UTF8),
        };
        Ok(Item {
            path: Path::of(names),
            node,
        })
    }

    /// The folder that is being listed: the names along its path, and its path below the root.
    fn place(&self, alloc: Global) -> Result<(Vec<Name>, String), Memory> {
        let mut names = Vec::new(alloc);
        let mut below = String::new(alloc);
        if let Some(listing) = &self.listing {
            names.extend_from_slice(listing.path())?;
            below.push_str(listing.below())?;
        }
        Ok((names, below))
    }

    /// What stands at a path below the root. Links aren't followed.
    fn below(&mut self, alloc: Global, below: String) -> Result<Node, Memory> {
        let path = joined(alloc, self.root, below.as_str())?;
        let found = fs::symlink_metadata(self.files, path.as_str());
        self.node(alloc, found, path.as_str(), below)
    }

    /// What stands at a path, by what the system says of it. A folder is to be listed later, and a file is opened.
    fn node(
        &mut self,
        alloc: Global,
        found: io::Result<Metadata>,
        path: &str,
        below: String,
    ) -> Result<Node, Memory> {
        let metadata = match found {
            Ok(metadata) => metadata,
            Err(error) => return unread_node(&error),
        };
        if metadata.is_dir() {
            self.waiting.push(below)?;
            return Ok(Node::Folder);
        }
        if metadata.is_symlink() {
            return self.link(alloc, path);
        }
        if metadata.is_file() {
            return self.open(path);
        }
        Ok(Node::Other)
    }

    /// What a symbolic link leads to.
    fn link(&self, alloc: Global, path: &str) -> Result<Node, Memory> {
        match self.files.read_link(alloc, path) {
            Ok(target) => {
                let text = target.into_string();
                let bytes = Blob::copy(alloc, text.as_bytes())?;
                Ok(Node::Link(bytes))
            }
            Err(error) => unread_node(&error),
        }
    }

    /// Opens a file, whose bytes come next.
    fn open(&mut self, path: &str) -> Result<Node, Memory> {
        match File::open(self.files, path) {
            Ok(file) => self.opened(file),
            Err(error) => unread_node(&error),
        }
    }

    /// A file that was opened. Something else may have taken its place.
    fn opened(&mut self, file: R::File) -> Result<Node, Memory> {
        let metadata = match file.metadata() {
            Ok(metadata) => metadata,
            Err(error) => return unread_node(&error),
        };
        if !metadata.is_file() {
            return Ok(Node::Other);
        }
        self.file = Some(Opened::new(file, &metadata));
        Ok(Node::File)
    }

    /// Begins to list a folder that waits, or gives it as one that can't be read.
    fn begin(&mut self, alloc: Global, below: String) -> Result<Option<Item>, Memory> {
        let path = names_along(alloc, below.as_str())?;
        let folder = joined(alloc, self.root, folder_text(below.as_str()))?;
        match self.files.open_dir(folder.as_str()) {
            Ok(dir) => {
                self.listing = Some(Listing::new(alloc, dir, below, path));
                Ok(None)
            }
            Err(error) => {
                let node = unread_node(&error)?;
                Ok(Some(Item {
                    path: Path::of(path),
                    node,
                }))
            }
        }
    }

    /// The next one of a folder: of that which is being listed, or of one that waits.
    fn walk(&mut self, alloc: Global) -> Result<Option<Item>, Memory> {
        for _ in 0..u64::MAX {
            let listed = self.next_listed(alloc)?;
            if listed.is_some() {
                return Ok(listed);
            }
            let Some(below) = self.waiting.pop() else {
                return Ok(None);
            };
            let begun = self.begin(alloc, below)?;
            if begun.is_some() {
                return Ok(begun);
            }
        }
        Ok(None)
    }
}

impl<'a, R: Files> Tree for DiskTree<'a, R> {
    ghost use Rattle.std.specs.Prelude.{None};

    ghost given = { λ _. None };

    ghost over = { λ _. Unit {0} };

    fn next(&mut self, alloc: Global) -> Result<Option<Item>, Memory> {
        self.file = None;
        if self.is_new {
            self.is_new = false;
            let item = self.first(alloc)?;
            return Ok(Some(item));
        }
        self.walk(alloc)
    }

    fn read(&mut self, alloc: Global) -> Result<Piece, Memory> {
        let Some(file) = &mut self.file else {
            return Ok(Piece::End);
        };
        let piece = file.next(alloc)?;
        if !has_bytes(&piece) {
            self.file = None;
        }
        Ok(piece)
    }
}

/// Whether a piece is bytes of its file.
fn has_bytes(piece: &Piece) -> bool {
    match piece {
        Piece::Bytes(_) => true,
        Piece::End => false,
        Piece::Cut(_) => false,
    }
}

/// A folder's path below the root, to be listed. With a slash behind it the root is reached through links, and no other folder is.
fn folder_text<'a>(below: &'a str) -> &'a str {
    if below.is_empty() { "/" } else { below }
}

/// A path below a root.
fn joined(alloc: Global, root: &str, below: &str) -> Result<String, Memory> {
    let mut path = String::from_str(alloc, root)?;
    path.push_str(below)?;
    Ok(path)
}

/// The names along a path, each behind a slash.
fn names_along(alloc: Global, below: &str) -> Result<Vec<Name>, Memory> {
    let mut names = Vec::new(alloc);
    for piece in below.split('/') {
        if let Some(name) = Name::make(piece.as_bytes()) {
            names.push(name)?;
        }
    }
    Ok(names)
}
