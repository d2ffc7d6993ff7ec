//! The operations of a script.

ghost use Rattle.std.specs.Prelude.{◌≡◌, IfOk};
ghost use Rattle.world_model.specs.Copying.{copied_as};

use nfs_types::{Mode, Name};
use std::alloc::Global;
use std::marker::Model;
use xdr_codec::{Blob, Memory};

/// A path from the root: the names along it, the last one last. No name is the root itself.
#[derive(Debug, Drop)]
pub struct Path {
    names: Vec<Name>,
}

impl Model for Path {
    ghost use Rattle.std.specs.Prelude.{List, ℕ};

    ghost Value = { List (List ℕ) };

    ghost view = { λ p. p.names.items };
}

impl Path {
    /// The path along these names. It takes no memory.
    pub fn of(names: Vec<Name>) -> Path
        ensures { result ≡ names.items }
    {
        Path { names }
    }

    /// The names along the path.
    pub fn names(&self) -> &[Name]
        ensures { result.now ≡ self.now }
    {
        self.names.as_slice()
    }

    /// An equal path.
    pub fn copy(&self, alloc: Global) -> Result<Path, Memory>
        ensures { IfOk result (λ p. p ≡ self.now) }
    {
        Ok(Path {
            names: self.names.as_slice().to_vec(alloc)?,
        })
    }
}

/// An operation, as a line of a script asks for it. A slot, 1 to 16, holds an open file of its lane.
#[derive(Debug, Drop)]
pub enum Op {
    /// Opens the file into the slot, which is free.
    OpenFile {
        slot: u8,
        mode: Mode,
        path: Path,
    },
    /// Reads so many bytes at the offset, at most 65,536, or those up to the end of the file.
    Read {
        slot: u8,
        offset: u64,
        count: u32,
    },
    /// Writes the bytes at the offset. They stay dirty until a sync, a close or want of room.
    Write {
        slot: u8,
        offset: u64,
        bytes: Blob,
    },
    /// As a write of so many equal bytes, 1 to 1,048,576.
    Fill {
        slot: u8,
        offset: u64,
        count: u32,
        byte: u8,
    },
    /// Writes the bytes at the offset of the file that the path names, and makes them stable.
    Put {
        path: Path,
        offset: u64,
        bytes: Blob,
    },
    /// Makes stable what was written to the file.
    Sync {
        slot: u8,
    },
    /// Makes stable what was written to the file, and frees the slot.
    Close {
        slot: u8,
    },
    /// Gives the file this size.
    Truncate {
        slot: u8,
        size: u64,
    },
    /// Shows an object's attributes.
    Stat {
        path: Path,
    },
    /// Asks which of these rights are granted, as the bits of ACCESS, 1 to 63 (RFC 1813, section 3.3.4).
    Access {
        path: Path,
        bits: u32,
    },
    /// Makes a directory.
    MakeDir {
        path: Path,
    },
    /// Removes a directory, which is empty.
    RemoveDir {
        path: Path,
    },
    /// Removes a name of a file. A file that this client has open keeps its bytes until the last close.
    Remove {
        path: Path,
    },
    /// Gives an object another name in place of this one.
    Rename {
        from: Path,
        to: Path,
    },
    /// Gives a file a further name.
    Link {
        from: Path,
        to: Path,
    },
    /// Makes a symbolic link that leads to the target, 1 to 1,024 bytes.
    SymLink {
        path: Path,
        target: Blob,
    },
    /// Shows what a symbolic link leads to.
    ReadLink {
        path: Path,
    },
    /// Shows the names of a directory.
    List {
        path: Path,
    },
}

impl Op {
    /// An equal operation.
    pub fn copy(&self, alloc: Global) -> Result<Op, Memory>
        ensures { IfOk result (λ op. op ≡ self.now) }
    {
        match *self {
            Op::Read {
                slot,
                offset,
                count,
            } => Ok(Op::Read {
                slot,
                offset,
                count,
            }),
            Op::Write {
                slot,
                offset,
                ref bytes,
            } => Ok(Op::Write {
                slot,
                offset,
                bytes: bytes.again(alloc)?,
            }),
            Op::Fill {
                slot,
                offset,
                count,
                byte,
            } => Ok(Op::Fill {
                slot,
                offset,
                count,
                byte,
            }),
            Op::Sync { slot } => Ok(Op::Sync { slot }),
            Op::Close { slot } => Ok(Op::Close { slot }),
            Op::Truncate { slot, size } => Ok(Op::Truncate { slot, size }),
            Op::OpenFile { .. } | Op::Put { .. } | Op::SymLink { .. } => self.copy_filled(alloc),
            Op::Stat { .. } | Op::Access { .. } | Op::ReadLink { .. } | Op::List { .. } => {
                self.copy_look(alloc)
            }
            Op::MakeDir { .. } | Op::RemoveDir { .. } | Op::Remove { .. } => {
                self.copy_change(alloc)
            }
            Op::Rename { .. } | Op::Link { .. } => self.copy_pair(alloc),
        }
    }

    /// The same of one that brings more than a path.
    fn copy_filled(&self, alloc: Global) -> Result<Op, Memory>
        requires { copied_as self.now ≡ 1 }
        ensures { IfOk result (λ op. op ≡ self.now) }
    {
        match *self {
            Op::OpenFile {
                slot,
                mode,
                ref path,
            } => Ok(Op::OpenFile {
                slot,
                mode,
                path: path.copy(alloc)?,
            }),
            Op::Put {
                ref path,
                offset,
                ref bytes,
            } => Ok(Op::Put {
                path: path.copy(alloc)?,
                offset,
                bytes: bytes.again(alloc)?,
            }),
            Op::SymLink {
                ref path,
                ref target,
            } => Ok(Op::SymLink {
                path: path.copy(alloc)?,
                target: Blob::copy(alloc, target.bytes())?,
            }),
            _ => unreachable!(),
        }
    }

    /// The same of one that looks at what a path leads to.
    fn copy_look(&self, alloc: Global) -> Result<Op, Memory>
        requires { copied_as self.now ≡ 2 }
        ensures { IfOk result (λ op. op ≡ self.now) }
    {
        match *self {
            Op::Stat { ref path } => Ok(Op::Stat {
                path: path.copy(alloc)?,
            }),
            Op::Access { ref path, bits } => Ok(Op::Access {
                path: path.copy(alloc)?,
                bits,
            }),
            Op::ReadLink { ref path } => Ok(Op::ReadLink {
                path: path.copy(alloc)?,
            }),
            Op::List { ref path } => Ok(Op::List {
                path: path.copy(alloc)?,
            }),
            _ => unreachable!(),
        }
    }

    /// The same of one that makes or removes what a path names.
    fn copy_change(&self, alloc: Global) -> Result<Op, Memory>
        requires { copied_as self.now ≡ 3 }
        ensures { IfOk result (λ op. op ≡ self.now) }
    {
        match *self {
            Op::MakeDir { ref path } => Ok(Op::MakeDir {
                path: path.copy(alloc)?,
            }),
            Op::RemoveDir { ref path } => Ok(Op::RemoveDir {
                path: path.copy(alloc)?,
            }),
            Op::Remove { ref path } => Ok(Op::Remove {
                path: path.copy(alloc)?,
            }),
            _ => unreachable!(),
        }
    }

    /// The same of one with two paths.
    fn copy_pair(&self, alloc: Global) -> Result<Op, Memory>
        requires { copied_as self.now ≡ 4 }
        ensures { IfOk result (λ op. op ≡ self.now) }
    {
        match *self {
            Op::Rename { ref from, ref to } => Ok(Op::Rename {
                from: from.copy(alloc)?,
                to: to.copy(alloc)?,
            }),
            Op::Link { ref from, ref to } => Ok(Op::Link {
                from: from.copy(alloc)?,
                to: to.copy(alloc)?,
            }),
            _ => unreachable!(),
        }
    }
}
