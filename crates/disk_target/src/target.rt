//! A place of the system that a tree is copied to.

ghost use Rattle.std.specs.Prelude.{◌≡◌, false};

use crate::places::{is_file_of, place, refused};
use crate::writing::Writing;
use copy_targets::{Target, Why};
use nfs_types::Name;
use std::alloc::Global;
use std::fs::{self, Metadata};
use std::io::{self, ErrorKind};
use std::marker::Model;
use std::rt::Files;
use world_model::Path;
use xdr_codec::Memory;

/// A folder or a file of the system that a tree is copied to. Folders are made if they aren't there, and files are written under a name of their own, which
/// they change for theirs at their end. So a link that stands there is replaced, and not written through. A folder isn't reached through a link, but the root
/// may be. It tells nothing of what it took.
#[derive(Drop)]
pub struct DiskTarget<'a, R: Files> {
    files: &'a R,
    root: &'a str,
    file: Option<Writing<R>>,
}

impl<'a, R: Files> Model for DiskTarget<'a, R> {
    ghost use Rattle.std.specs.Prelude.{Bool, is_some};

    // whether a file is being written
    ghost Value = { Bool };

    ghost view = { λ d. is_some d.file };
}

impl<'a, R: Files> DiskTarget<'a, R> {
    /// What is to stand at that path. Nothing is asked of the system yet.
    pub fn new(files: &'a R, root: &'a str) -> DiskTarget<'a, R>
        ensures { result ≡ false }
    {
        DiskTarget {
            files,
            root,
            file: None,
        }
    }

    /// What stands at a path. The root may be a link, which is followed.
    fn found(&self, path: &Path, text: &str) -> io::Result<Metadata> {
        if path.names().is_empty() {
            fs::metadata(self.files, text)
        } else {
            fs::symlink_metadata(self.files, text)
        }
    }

    /// Makes a folder where nothing stands.
    fn make_folder(&self, text: &str) -> Result<Option<Why>, Memory> {
        match self.files.create_dir(text) {
            Ok(()) => Ok(None),
            Err(error) => Ok(Some(refused(&error)?)),
        }
    }

    /// Makes a link where nothing stands.
    fn make_link(&self, text: &str, to: &str) -> Result<Option<Why>, Memory> {
        match self.files.symlink(to, text) {
            Ok(()) => Ok(None),
            Err(error) => Ok(Some(refused(&error)?)),
        }
    }
}

impl<'a, R: Files> Target for DiskTarget<'a, R> {
    ghost use Rattle.std.specs.Prelude.{None};

    ghost took = { λ _. None };

    ghost writes = { λ d. d };

    fn folder(&mut self, alloc: Global, path: &Path) -> Result<Option<Why>, Memory> {
        let Some(text) = place(alloc, self.root, path)? else {
            return Ok(Some(Why::Unnamed));
        };
        match self.found(path, text.as_str()) {
            Ok(metadata) => Ok(kind_unless(metadata.is_dir())),
            Err(error) => {
                if error.kind() == ErrorKind::NotFound {
                    return self.make_folder(text.as_str());
                }
                Ok(Some(refused(&error)?))
            }
        }
    }

    fn link(&mut self, alloc: Global, path: &Path, text: &[u8]) -> Result<Option<Why>, Memory> {
        let Some(at) = place(alloc, self.root, path)? else {
            return Ok(Some(Why::Unnamed));
        };
        let Ok(to) = str::from_utf8(text) else {
            return Ok(Some(Why::Unnamed));
        };
        match fs::symlink_metadata(self.files, at.as_str()) {
            Ok(metadata) => {
                if !metadata.is_symlink() {
                    return Ok(Some(Why::Kind));
                }
                leads(self.files, alloc, at.as_str(), to)
            }
            Err(error) => {
                if error.kind() == ErrorKind::NotFound {
                    return self.make_link(at.as_str(), to);
                }
                Ok(Some(refused(&error)?))
            }
        }
    }

    fn begin(&mut self, alloc: Global, path: &Path) -> Result<Option<Why>, Memory> {
        self.leave();
        let Some(text) = place(alloc, self.root, path)? else {
            return Ok(Some(Why::Unnamed));
        };
        match Writing::begin(self.files, alloc, text)? {
            Ok(file) => {
                self.file = Some(file);
                Ok(None)
            }
            Err(why) => Ok(Some(why)),
        }
    }

    fn write(&mut self, _alloc: Global, bytes: &[u8]) -> Result<Option<Why>, Memory> {
        let Some(mut file) = self.file.take() else {
            return Ok(Some(Why::Missing));
        };
        match file.write(bytes) {
            Ok(()) => {
                self.file = Some(file);
                Ok(None)
            }
            Err(error) => {
                file.leave(self.files);
                Ok(Some(refused(&error)?))
            }
        }
    }

    fn end(&mut self, _alloc: Global) -> Result<Option<Why>, Memory> {
        match self.file.take() {
            Some(file) => file.end(self.files),
            None => Ok(Some(Why::Missing)),
        }
    }

    fn leave(&mut self) {
        if let Some(file) = self.file.take() {
            file.leave(self.files);
        }
    }

    fn has_size(&self, alloc: Global, path: &Path, size: u64) -> Result<bool, Memory> {
        let Some(text) = place(alloc, self.root, path)? else {
            return Ok(false);
        };
        Ok(is_file_of(fs::symlink_metadata(self.files, text.as_str()), size))
    }

    fn others(
        &self,
        alloc: Global,
        _path: &Path,
        _names: &[Name],
    ) -> Result<Option<Vec<Name>>, Memory> {
        Ok(Some(Vec::new(alloc)))
    }
}

/// Nothing is wrong with the kind, if it is so.
pub(crate) fn kind_unless(is: bool) -> Option<Why> {
    if is { None } else { Some(Why::Kind) }
}

/// Whether a link leads there.
pub(crate) fn leads<R: Files>(
    files: &R,
    alloc: Global,
    at: &str,
    to: &str,
) -> Result<Option<Why>, Memory> {
    match files.read_link(alloc, at) {
        Ok(found) => {
            let found = found.into_string();
            Ok(if found.as_str() == to {
                None
            } else {
                Some(Why::Other)
            })
        }
        Err(error) => Ok(Some(refused(&error)?)),
    }
}
