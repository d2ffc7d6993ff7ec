//! What a tree gives.

ghost use Rattle.std.specs.Prelude.{◌≡◌, IfOk};

use std::alloc::Global;
use world_model::Path;
use xdr_codec::{Blob, Memory};

/// What stands at a path of a tree.
#[derive(Drop)]
pub enum Node {
    /// A folder. What it holds comes later.
    Folder,
    /// A file, whose bytes come next.
    File,
    /// A symbolic link that leads to this.
    Link(Blob),
    /// Something else: a device, a socket or a pipe.
    Other,
    /// It can't be read, or can't be named: the system's number of the error, or 0.
    Unread(u32),
}

impl Node {
    /// An equal node.
    pub fn copy(&self, alloc: Global) -> Result<Node, Memory>
        ensures { IfOk result (λ node. node ≡ self.now) }
    {
        Ok(match self {
            Node::Folder => Node::Folder,
            Node::File => Node::File,
            Node::Link(target) => Node::Link(Blob::copy(alloc, target.bytes())?),
            Node::Other => Node::Other,
            Node::Unread(error) => Node::Unread(*error),
        })
    }
}

/// A path, from the root of a tree on, and what stands there.
#[derive(Drop)]
pub struct Item {
    /// The names along the path; none is the root itself.
    pub path: Path,
    /// What stands there.
    pub node: Node,
}

impl Item {
    /// An equal item.
    pub fn copy(&self, alloc: Global) -> Result<Item, Memory>
        ensures { IfOk result (λ item. item ≡ self.now) }
    {
        Ok(Item {
            path: self.path.copy(alloc)?,
            node: self.node.copy(alloc)?,
        })
    }
}

/// Why not all of a file comes.
#[derive(Clone, Copy)]
pub enum Cut {
    /// It can't be read on: the system's number of the error.
    Unread(u32),
    /// Its size or the time of its last change was another one after its last byte was read.
    Changed,
}

/// What comes next of a file.
#[derive(Drop)]
pub enum Piece {
    /// Its next bytes, 1 to 65,536.
    Bytes(Blob),
    /// Nothing: all of its bytes came.
    End,
    /// Nothing: not all of its bytes came, or some may be older than others.
    Cut(Cut),
}

impl Piece {
    /// An equal piece.
    pub fn copy(&self, alloc: Global) -> Result<Piece, Memory>
        ensures { IfOk result (λ piece. piece ≡ self.now) }
    {
        Ok(match self {
            Piece::Bytes(bytes) => Piece::Bytes(Blob::copy(alloc, bytes.bytes())?),
            Piece::End => Piece::End,
            Piece::Cut(cut) => Piece::Cut(*cut),
        })
    }
}
