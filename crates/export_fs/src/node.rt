//! The objects of the export, and how calls change them.

ghost use Rattle.std.specs.Prelude.{◌≡◌, ◌∷◌, [], option_map, option_copied, MatchOption, IfOk, OnOk, OnErr, IfSome, length, ◌≤◌};
ghost use Rattle.export_fs.specs.Held.{Row};
ghost use Rattle.export_fs.specs.Names.{find_row};
ghost use Rattle.export_fs.specs.Refusals.{is_filled};
ghost use Rattle.export_fs.specs.Pages.{rows_after};
ghost use Rattle.export_fs.specs.Parts.{attr_of, kind_of, size_of, bytes_of, text_of, rows_of, last_of, parent_of};
ghost use Rattle.export_fs.specs.Changes as changes;
ghost use Rattle.export_fs.specs.Restart as restarts;

use crate::directory::Directory;
use crate::file_bytes::FileBytes;
use crate::link_text::LinkText;
use crate::places::ROOT;
use crate::row::Row;
use nfs_types::{Attr, Name, SetAttr, Time};
use std::alloc::Global;
use xdr_codec::Memory;

/// The kinds of objects (RFC 1813, section 2.5, ftype3).
pub(crate) const FILE: u32 = 1;

pub(crate) const DIRECTORY: u32 = 2;

pub(crate) const LINK: u32 = 5;

/// What an object holds.
#[derive(Drop)]
pub(crate) enum Holds {
    /// A file's bytes.
    File(FileBytes),
    /// A directory's names.
    Directory(Directory),
    /// A symbolic link's text.
    Link(LinkText),
}

/// An object of the export (RFC 1813, section 2.5, fattr3). Times are numbers of changes.
#[derive(Drop)]
pub(crate) struct Node {
    /// The permission bits.
    pub(crate) mode: u32,
    /// How many names it has; 2 of a directory.
    pub(crate) nlink: u32,
    /// The owner's number.
    pub(crate) uid: u32,
    /// The group's number.
    pub(crate) gid: u32,
    /// When it was made.
    pub(crate) atime: u32,
    /// When what it holds last changed.
    pub(crate) mtime: u32,
    /// When it last changed.
    pub(crate) ctime: u32,
    /// Whether its last name was removed.
    pub(crate) gone: bool,
    /// What it holds.
    pub(crate) holds: Holds,
}

impl Holds {
    /// The kind of object (RFC 1813, section 2.5, ftype3).
    pub(crate) fn kind(&self) -> u32
        ensures { result ≡ kind_of self.now }
    {
        match self {
            Holds::File(_) => FILE,
            Holds::Directory(_) => DIRECTORY,
            Holds::Link(_) => LINK,
        }
    }

    /// The bytes of a file; none of another object.
    pub(crate) fn bytes(&self) -> &[u8]
        ensures { result.now ≡ bytes_of self.now }
    {
        match self {
            Holds::File(content) => content.now(),
            _ => &[],
        }
    }

    /// The text of a link; None of another object.
    pub(crate) fn text(&self) -> Option<&[u8]>
        ensures text { option_copied result ≡ text_of self.now }
        ensures fits { IfSome result (λ text. length text.now ≤ 1024) }
    {
        match self {
            Holds::Link(text) => Some(text.bytes()),
            _ => None,
        }
    }

    /// The place of the object that has the name, if it is a directory.
    pub(crate) fn find(&self, name: &Name) -> Option<u32>
        ensures { result ≡ option_map (λ (row : Row). row.place) (find_row name.now (rows_of self.now)) }
    {
        match self {
            Holds::Directory(names) => names.find(name),
            _ => None,
        }
    }

    /// Whether it is a directory that has a name.
    pub(crate) fn is_filled(&self) -> bool
        ensures { result ≡ is_filled (rows_of self.now) }
    {
        match self {
            Holds::Directory(names) => names.is_filled(),
            _ => false,
        }
    }

    /// The last cookie that a directory gave; 0 of another object.
    pub(crate) fn last(&self) -> u64
        ensures { result ≡ last_of self.now }
    {
        match self {
            Holds::Directory(names) => names.last(),
            _ => 0,
        }
    }

    /// The place above a directory; that of the root for another object.
    pub(crate) fn parent(&self) -> u32
        ensures { result ≡ parent_of self.now }
    {
        match self {
            Holds::Directory(names) => names.parent(),
            _ => ROOT,
        }
    }

    /// The next entry of a directory after a cookie.
    pub(crate) fn next(&self, cookie: u64) -> Option<Row>
        ensures { MatchOption result (rows_after cookie (rows_of self.now) ≡ []) (λ row. rows_after cookie (rows_of self.now) ≡ row ∷ rows_after row.cookie (rows_of self.now)) }
    {
        match self {
            Holds::Directory(names) => names.next(cookie),
            _ => None,
        }
    }

    /// The length in bytes.
    fn size(&self) -> u64
        ensures { result ≡ size_of self.now }
    {
        match self {
            Holds::File(bytes) => bytes.now().len() as u64,
            Holds::Directory(_) => 0,
            Holds::Link(text) => text.bytes().len() as u64,
        }
    }
}

/// A number of a change as a time.
pub(crate) fn second(number: u32) -> Time
    ensures { result ≡ record { seconds = number; nanos = 0 } }
{
    Time {
        seconds: number,
        nanos: 0,
    }
}

/// A new object: what a call sets, and these permission bits if it sets none.
fn made(mode: u32, nlink: u32, number: u32, set: &SetAttr, holds: Holds) -> Node
    ensures { result ≡ changes.made mode nlink number set.now holds }
{
    Node {
        mode: set.mode.unwrap_or(mode),
        nlink,
        uid: set.uid.unwrap_or(0),
        gid: set.gid.unwrap_or(0),
        atime: number,
        mtime: number,
        ctime: number,
        gone: false,
        holds,
    }
}

impl Node {
    /// A file, empty or with zeros up to the size that is set (RFC 1813, section 3.3.8).
    pub(crate) fn new_file(alloc: Global, number: u32, set: &SetAttr) -> Result<Node, Memory>
        ensures { IfOk result (λ node. node ≡ changes.new_file number set.now) }
    {
        let mut bytes = FileBytes::new(alloc);
        if let Some(size) = set.size {
            bytes.resize(size as usize)?;
        }
        Ok(made(0o644, 1, number, set, Holds::File(bytes)))
    }

    /// A directory without names in the directory at a place (RFC 1813, section 3.3.9).
    pub(crate) fn new_dir(alloc: Global, parent: u32, number: u32, set: &SetAttr) -> Node
        ensures { result ≡ changes.new_dir parent number set.now }
    {
        let names = Directory::new(alloc, parent);
        made(0o755, 2, number, set, Holds::Directory(names))
    }

    /// A symbolic link (RFC 1813, section 3.3.10).
    pub(crate) fn new_link(text: LinkText, number: u32, set: &SetAttr) -> Node
        ensures { result ≡ changes.new_link text number set.now }
    {
        made(0o777, 1, number, set, Holds::Link(text))
    }

    /// A file with these bytes, all of them stable.
    pub(crate) fn placed_file(bytes: FileBytes, number: u32, set: &SetAttr) -> Node
        ensures { result ≡ changes.made 420 1 number set.now (changes.file_of bytes) }
    {
        made(0o644, 1, number, set, Holds::File(bytes))
    }

    /// Its attributes, if it is at that place.
    pub(crate) fn attr(&self, place: u32) -> Attr
        ensures { result ≡ attr_of place self.now }
    {
        let size = self.holds.size();
        Attr {
            kind: self.holds.kind(),
            mode: self.mode,
            nlink: self.nlink,
            uid: self.uid,
            gid: self.gid,
            size,
            used: size,
            rdev_major: 0,
            rdev_minor: 0,
            fsid: 1,
            fileid: place as u64 + 1,
            atime: second(self.atime),
            mtime: second(self.mtime),
            ctime: second(self.ctime),
        }
    }

    /// SETATTR (RFC 1813, section 3.3.2). When out of memory it is as it was.
    pub(crate) fn set_attr(&mut self, number: u32, set: &SetAttr) -> Result<(), Memory>
        ensures ok { OnOk result (self.new ≡ changes.with_set number set.now self.old) }
        ensures err { OnErr result (self.new ≡ self.old) }
    {
        if let Some(size) = set.size {
            self.holds.resize(size as usize)?;
        }
        self.mode = set.mode.unwrap_or(self.mode);
        self.uid = set.uid.unwrap_or(self.uid);
        self.gid = set.gid.unwrap_or(self.gid);
        self.mtime = number;
        self.ctime = number;
        Ok(())
    }

    /// WRITE (RFC 1813, section 3.3.7). When out of memory it is as it was.
    pub(crate) fn write(
        &mut self,
        number: u32,
        offset: usize,
        how: u32,
        bytes: &[u8],
    ) -> Result<(), Memory>
        ensures ok { OnOk result (self.new ≡ changes.written number offset how bytes.now self.old) }
        ensures err { OnErr result (self.new ≡ self.old) }
    {
        self.holds.write(offset, how, bytes)?;
        self.mtime = number;
        self.ctime = number;
        Ok(())
    }

    /// COMMIT (RFC 1813, section 3.3.21). When out of memory it is as it was.
    pub(crate) fn commit(&mut self, offset: usize, count: usize) -> Result<(), Memory>
        ensures ok { OnOk result (self.new ≡ changes.committed offset count self.old) }
        ensures err { OnErr result (self.new ≡ self.old) }
    {
        self.holds.commit(offset, count)
    }

    /// A name enters, if it is a directory. When out of memory it is as it was.
    pub(crate) fn enter(&mut self, number: u32, name: &Name, place: u32) -> Result<(), Memory>
        ensures ok { OnOk result (self.new ≡ changes.entered number name.now place self.old) }
        ensures err { OnErr result (self.new ≡ self.old) }
    {
        self.holds.put_name(name, place)?;
        self.mtime = number;
        self.ctime = number;
        Ok(())
    }

    /// A name leaves, if it is a directory.
    pub(crate) fn leave(&mut self, number: u32, name: &Name)
        ensures { self.new ≡ changes.left number name.now self.old }
    {
        self.holds.remove_name(name);
        self.mtime = number;
        self.ctime = number;
    }

    /// It loses a name: a directory is gone then, and another object if that was its last name.
    pub(crate) fn lose_name(&mut self)
        ensures { self.new ≡ changes.unnamed self.old }
    {
        if self.holds.kind() == DIRECTORY {
            self.gone = true;
        } else {
            self.gone = self.nlink <= 1;
            self.nlink = self.nlink.saturating_sub(1);
        }
    }

    /// REMOVE or RMDIR of a name (RFC 1813, sections 3.3.12 and 3.3.13).
    pub(crate) fn remove(&mut self, number: u32)
        ensures { self.new ≡ changes.removed number self.old }
    {
        self.lose_name();
        if !self.gone {
            self.ctime = number;
        }
    }

    /// LINK (RFC 1813, section 3.3.15).
    pub(crate) fn link(&mut self, number: u32)
        ensures { self.new ≡ changes.linked number self.old }
    {
        self.nlink = self.nlink.saturating_add(1);
        self.ctime = number;
    }

    /// It moves into the directory at a place.
    pub(crate) fn move_into(&mut self, parent: u32)
        ensures { self.new ≡ changes.moved parent self.old }
    {
        self.holds.set_parent(parent);
    }

    /// Whether a restart changes its bytes.
    pub(crate) fn is_unsteady(&self) -> bool
        ensures { result ≡ restarts.is_unsteady self.now }
    {
        match &self.holds {
            Holds::File(bytes) => !bytes.is_steady(),
            _ => false,
        }
    }

    /// A restart leaves its stable bytes.
    pub(crate) fn restart(&mut self, number: u32)
        ensures { self.new ≡ restarts.restarted number self.old }
    {
        self.holds.restart();
        self.mtime = number;
        self.ctime = number;
    }
}

impl Holds {
    /// Cuts a file to a size, or fills it with zeros. When out of memory it is as it was.
    fn resize(&mut self, size: usize) -> Result<(), Memory>
        ensures ok { OnOk result (self.new ≡ changes.sized size self.old) }
        ensures err { OnErr result (self.new ≡ self.old) }
    {
        match self {
            Holds::File(content) => content.resize(size),
            _ => Ok(()),
        }
    }

    /// Puts bytes into a file. When out of memory it is as it was.
    fn write(&mut self, offset: usize, how: u32, bytes: &[u8]) -> Result<(), Memory>
        ensures ok { OnOk result (self.new ≡ changes.with_bytes offset how bytes.now self.old) }
        ensures err { OnErr result (self.new ≡ self.old) }
    {
        match self {
            Holds::File(content) => content.write(offset, how, bytes),
            _ => Ok(()),
        }
    }

    /// Makes what a COMMIT speaks of stable. When out of memory it is as it was.
    fn commit(&mut self, offset: usize, count: usize) -> Result<(), Memory>
        ensures ok { OnOk result (self.new ≡ changes.with_stable offset count self.old) }
        ensures err { OnErr result (self.new ≡ self.old) }
    {
        match self {
            Holds::File(content) => content.commit(offset, count),
            _ => Ok(()),
        }
    }

    /// Gives a name in a directory. When out of memory it is as it was.
    fn put_name(&mut self, name: &Name, place: u32) -> Result<(), Memory>
        ensures ok { OnOk result (self.new ≡ changes.with_name name.now place self.old) }
        ensures err { OnErr result (self.new ≡ self.old) }
    {
        match self {
            Holds::Directory(names) => names.put(name, place),
            _ => Ok(()),
        }
    }

    /// Takes a name from a directory.
    fn remove_name(&mut self, name: &Name)
        ensures { self.new ≡ changes.without_name name.now self.old }
    {
        if let Holds::Directory(names) = self {
            names.remove(name);
        }
    }

    /// Sets what is above a directory.
    fn set_parent(&mut self, parent: u32)
        ensures { self.new ≡ changes.with_parent parent self.old }
    {
        if let Holds::Directory(names) = self {
            names.set_parent(parent);
        }
    }

    /// Leaves the stable bytes of a file.
    fn restart(&mut self)
        ensures { self.new ≡ restarts.steady self.old }
    {
        if let Holds::File(content) = self {
            content.restart();
        }
    }
}
