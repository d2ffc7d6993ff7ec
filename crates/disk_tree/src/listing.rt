//! The names of a folder.

ghost use Rattle.std.specs.Prelude.{◌≤◌, length};

use net_edge::read_again;
use nfs_types::Name;
use std::alloc::Global;
use std::io::{self, ErrorKind};
use std::rt::Files;

/// So many bytes of names are read at once.
const ROOM: usize = 16_384;

/// A folder that is being listed: its names are read piece by piece.
#[derive(Drop)]
pub struct Listing<R: Files> {
    dir: R::Dir,
    /// The path of the folder below the root, and nothing for the root itself.
    below: String,
    /// The names along it.
    path: Vec<Name>,
    /// Names that were read, each ended by a zero byte, and where the next one begins.
    names: Vec<u8>,
    at: usize,
}

impl<R: Files> Listing<R> {
    /// A folder that was opened, of which nothing is read yet.
    pub fn new(alloc: Global, dir: R::Dir, below: String, path: Vec<Name>) -> Listing<R> {
        Listing {
            dir,
            below,
            path,
            names: Vec::new(alloc),
            at: 0,
        }
    }

    /// The path of the folder below the root.
    pub(crate) fn below(&self) -> &str {
        self.below.as_str()
    }

    /// The names along the path of the folder.
    pub(crate) fn path(&self) -> &[Name] {
        self.path.as_slice()
    }

    /// The next name; none at the end. `.` and `..` are passed over.
    pub fn next(&mut self) -> io::Result<Option<Name>> {
        for _ in 0..u64::MAX {
            if self.at >= self.names.len() {
                let count = self.fill()?;
                if count == 0 {
                    return Ok(None);
                }
            }
            let name = self.take();
            if name.is_some() {
                return Ok(name);
            }
        }
        Ok(None)
    }

    /// Reads further names, and answers of how many bytes; 0 is the end. No read ends within a name.
    fn fill(&mut self) -> io::Result<usize> {
        self.at = 0;
        self.names.clear();
        if self.names.resize(ROOM, 0).is_err() {
            return Err(io::Error::from(ErrorKind::OutOfMemory));
        }
        let count = read_again(&mut self.dir, self.names.as_mut_slice())?;
        self.names.truncate(count);
        Ok(count)
    }

    /// Takes the first name of those that were read; none if it is `.` or `..`.
    fn take(&mut self) -> Option<Name> {
        if self.at > self.names.len() {
            return None;
        }
        let (_, rest) = self.names.as_slice().split_at(self.at);
        let count = before_zero(rest);
        let (bytes, _) = rest.split_at(count);
        let name = name_of(bytes);
        self.at = self.at.saturating_add(count).saturating_add(1);
        name
    }
}

/// How many bytes stand before the first zero byte.
fn before_zero(bytes: &[u8]) -> usize
    ensures { result ≤ length bytes.now }
{
    for at in 0..bytes.len() {
        if bytes[at] == 0 {
            return at;
        }
    }
    bytes.len()
}

/// A name other than `.` and `..`.
fn name_of(bytes: &[u8]) -> Option<Name> {
    if bytes == b".".as_slice() || bytes == b"..".as_slice() {
        return None;
    }
    Name::make(bytes)
}
