//! A place of the system that a tree is compared with.

ghost use Rattle.std.specs.Prelude.{◌≡◌};
ghost use Rattle.copy_targets.specs.Taking.{is_taken};

use crate::places::{is_file_of, place, refused, unfound};
use crate::target::{kind_unless, leads};
use copy_targets::{Target, Why};
use disk_tree::Listing;
use net_edge::read_again;
use nfs_types::Name;
use std::alloc::Global;
use std::fs::{self, File, Metadata};
use std::io::{self, Read};
use std::marker::Model;
use std::rt::Files;
use world_model::Path;
use xdr_codec::Memory;

/// So many bytes are read at once.
const ROOM: usize = 65_536;

/// A folder or a file of the system that a tree is compared with. Nothing is made or written. The root may be reached through a link, and below it none is
/// followed. It tells nothing of what it took.
#[derive(Drop)]
pub struct DiskCheck<'a, R: Files> {
    files: &'a R,
    root: &'a str,
    file: Option<R::File>,
    room: Vec<u8>,
}

impl<'a, R: Files> Model for DiskCheck<'a, R> {
    ghost use Rattle.std.specs.Prelude.{Bool, is_some};

    // whether a file is being compared
    ghost Value = { Bool };

    ghost view = { λ d. is_some d.file };
}

impl<'a, R: Files> DiskCheck<'a, R> {
    /// What stands at that path. Nothing is asked of the system yet.
    pub fn new(files: &'a R, alloc: Global, root: &'a str) -> Result<DiskCheck<'a, R>, Memory> {
        let mut room = Vec::new(alloc);
        room.resize(ROOM, 0)?;
        Ok(DiskCheck {
            files,
            root,
            file: None,
            room,
        })
    }

    /// What stands at a path. The root may be a link, which is followed.
    fn found(&self, path: &Path, text: &str) -> io::Result<Metadata> {
        if path.names().is_empty() {
            fs::metadata(self.files, text)
        } else {
            fs::symlink_metadata(self.files, text)
        }
    }

    /// Opens a file to compare it.
    fn open(&mut self, text: &str) -> Result<Option<Why>, Memory>
        ensures { self.new ≡ is_taken result }
    {
        self.file = None;
        match File::open(self.files, text) {
            Ok(file) => {
                self.file = Some(file);
                Ok(None)
            }
            Err(error) => Ok(Some(unfound(&error)?)),
        }
    }

    /// The names of a folder beside these; none if it can't be listed.
    fn list(&self, alloc: Global, text: &str, names: &[Name]) -> Result<Option<Vec<Name>>, Memory> {
        match self.files.open_dir(text) {
            Ok(dir) => {
                let listing = Listing::new(alloc, dir, String::new(alloc), Vec::new(alloc));
                names_beside::<R>(alloc, listing, names)
            }
            Err(_) => Ok(None),
        }
    }
}

impl<'a, R: Files> Target for DiskCheck<'a, R> {
    ghost use Rattle.std.specs.Prelude.{None};

    ghost took = { λ _. None };

    ghost writes = { λ d. d };

    fn folder(&mut self, alloc: Global, path: &Path) -> Result<Option<Why>, Memory> {
        let Some(text) = place(alloc, self.root, path)? else {
            return Ok(Some(Why::Unnamed));
        };
        match self.found(path, text.as_str()) {
            Ok(metadata) => Ok(kind_unless(metadata.is_dir())),
            Err(error) => Ok(Some(unfound(&error)?)),
        }
    }

    fn link(&mut self, alloc: Global, path: &Path, text: &[u8]) -> Result<Option<Why>, Memory> {
        let Some(at) = place(alloc, self.root, path)? else {
            return Ok(Some(Why::Unnamed));
        };
        let Ok(to) = str::from_utf8(text) else {
            return Ok(Some(Why::Other));
        };
        match fs::symlink_metadata(self.files, at.as_str()) {
            Ok(metadata) => {
                if !metadata.is_symlink() {
                    return Ok(Some(Why::Kind));
                }
                leads(self.files, alloc, at.as_str(), to)
            }
            Err(error) => Ok(Some(unfound(&error)?)),
        }
    }

    fn begin(&mut self, alloc: Global, path: &Path) -> Result<Option<Why>, Memory> {
        self.leave();
        let Some(text) = place(alloc, self.root, path)? else {
            return Ok(Some(Why::Unnamed));
        };
        match self.found(path, text.as_str()) {
            Ok(metadata) => {
                if !metadata.is_file() {
                    return Ok(Some(Why::Kind));
                }
                self.open(text.as_str())
            }
            Err(error) => Ok(Some(unfound(&error)?)),
        }
    }

    fn write(&mut self, _alloc: Global, bytes: &[u8]) -> Result<Option<Why>, Memory> {
        let Some(mut file) = self.file.take() else {
            return Ok(Some(Why::Missing));
        };
        match goes_on(&mut file, self.room.as_mut_slice(), bytes) {
            Ok(true) => {
                self.file = Some(file);
                Ok(None)
            }
            Ok(false) => Ok(Some(Why::Other)),
            Err(error) => Ok(Some(refused(&error)?)),
        }
    }

    fn end(&mut self, _alloc: Global) -> Result<Option<Why>, Memory> {
        let Some(mut file) = self.file.take() else {
            return Ok(Some(Why::Missing));
        };
        match is_over(&mut file) {
            Ok(true) => Ok(None),
            Ok(false) => Ok(Some(Why::Other)),
            Err(error) => Ok(Some(refused(&error)?)),
        }
    }

    fn leave(&mut self) {
        self.file = None;
    }

    fn has_size(&self, alloc: Global, path: &Path, size: u64) -> Result<bool, Memory> {
        let Some(text) = place(alloc, self.root, path)? else {
            return Ok(false);
        };
        Ok(is_file_of(self.found(path, text.as_str()), size))
    }

    fn others(
        &self,
        alloc: Global,
        path: &Path,
        names: &[Name],
    ) -> Result<Option<Vec<Name>>, Memory> {
        match place(alloc, self.root, path)? {
            Some(text) => self.list(alloc, text.as_str(), names),
            None => Ok(None),
        }
    }
}

/// Whether a file goes on with these bytes. It is read into a buffer.
fn goes_on<F: Read>(file: &mut F, room: &mut [u8], bytes: &[u8]) -> io::Result<bool> {
    let mut done = 0;
    for _ in 0..bytes.len() {
        if done >= bytes.len() {
            return Ok(true);
        }
        let count = (bytes.len() - done).min(room.len());
        let count = read_again(file, &mut room[..count])?;
        if count == 0 || !starts(&bytes[done..], room, count) {
            return Ok(false);
        }
        done += count;
    }
    Ok(done >= bytes.len())
}

/// Whether a file is at its end.
fn is_over<F: Read>(file: &mut F) -> io::Result<bool> {
    let mut one = [0u8; 1];
    let count = read_again(file, &mut one)?;
    Ok(count == 0)
}

/// The names that a listing gives beside these; none if it can't be read to its end.
fn names_beside<R: Files>(
    alloc: Global,
    mut listing: Listing<R>,
    names: &[Name],
) -> Result<Option<Vec<Name>>, Memory> {
    let mut others = Vec::new(alloc);
    for _ in 0..u64::MAX {
        match listing.next() {
            Ok(Some(name)) => {
                if !is_among(names, &name) {
                    others.push(name)?;
                }
            }
            Ok(None) => return Ok(Some(others)),
            Err(_) => return Ok(None),
        }
    }
    Ok(None)
}

/// Whether the first so many bytes are the same.
fn starts(bytes: &[u8], others: &[u8], count: usize) -> bool {
    if count > bytes.len() || count > others.len() {
        return false;
    }
    bytes[..count] == others[..count]
}

/// Whether a name is among these, which are in byte order.
fn is_among(names: &[Name], name: &Name) -> bool {
    names
        .binary_search_by(|other| other.bytes().cmp(name.bytes()))
        .is_ok()
}
