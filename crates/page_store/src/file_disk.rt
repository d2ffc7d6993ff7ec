//! A disk that is a file of the system.

ghost use Rattle.std.specs.Prelude.{◌≡◌, ◌≤◌, ◌+◌, ◌-◌, ◌^◌, min, length, IfOk};

use crate::Disk;
use outside::{Failed, LinkFault};
use std::fs::{self, File, OpenFile, OpenOptions};
use std::io::{self, ErrorKind};
use std::marker::Model;
use std::os::unix::fs::{FileExt, OpenOptionsExt};
use std::path::Path;
use std::rt::Files;

/// Only the owner may read or write the file: it holds what stands in files of others.
const OWNER_ONLY: u32 = 0o600;

/// An open file as a disk. It tells nothing of what it holds; a contract sees how often the system failed. Each call is made
/// again if the system interrupts it.
#[derive(Drop)]
pub struct FileDisk<F: FileExt + OpenFile + Drop> {
    file: F,
    faults: u64,
}

impl<F: FileExt + OpenFile + Drop> Model for FileDisk<F> {
    ghost use Rattle.std.specs.Prelude.{ℕ};

    ghost Value = { ℕ };

    ghost view = { λ d. d.faults };
}

impl FileDisk<File> {
    /// Opens a file that is there, and locks it until it is dropped. `Failed` if the system refuses that, or another
    /// program holds the lock.
    pub fn open<R: Files<File = File>>(files: &R, path: &str) -> Result<FileDisk<File>, Failed>
        ensures { IfOk result (λ d. d ≡ 0) }
    {
        let mut how = OpenOptions::new();
        how.read(true).write(true);
        match opened(files, &how, path) {
            Ok(file) => Ok(FileDisk::over(file)),
            Err(_) => Err(Failed),
        }
    }

    /// Opens a file, locks it and takes its bytes away, or makes it if it isn't there. Only its owner may read or write it. Its
    /// name is on stable storage then. `Failed` if the system refuses that, or another program holds the lock.
    pub fn make<R: Files<File = File>>(files: &R, path: &str) -> Result<FileDisk<File>, Failed>
        ensures { IfOk result (λ d. d ≡ 0) }
    {
        let mut how = OpenOptions::new();
        how.read(true).write(true).create(true).mode(OWNER_ONLY);
        match opened(files, &how, path) {
            Ok(file) => match emptied(files, &file, path) {
                Ok(()) => Ok(FileDisk::over(file)),
                Err(_) => Err(Failed),
            },
            Err(_) => Err(Failed),
        }
    }
}

impl<F: FileExt + OpenFile + Drop> FileDisk<F> {
    /// A file that is open, of which no call has failed.
    pub fn over(file: F) -> FileDisk<F>
        ensures { result ≡ 0 }
    {
        FileDisk { file, faults: 0 }
    }

    /// The file.
    pub fn into_file(self) -> F {
        self.file
    }

    /// Counts a failure.
    fn count(&mut self)
        ensures rose { self.new ≡ min (self.old + 1) (2 ^ 64 - 1) }
        ensures later { self.old ≤ self.new }
    {
        self.faults = self.faults.saturating_add(1);
    }
}

/// Opens a file and takes the lock of the whole file, without waiting for it.
fn opened<R: Files<File = File>>(files: &R, how: &OpenOptions, path: &str) -> io::Result<File> {
    let file = how.open(files, path)?;
    file.try_lock()?;
    Ok(file)
}

/// Takes the file's bytes away, and waits until this and its name are on stable storage.
fn emptied<R: Files<File = File>>(files: &R, file: &File, path: &str) -> io::Result<()> {
    file.set_len(0)?;
    file.sync_all()?;
    let folder = match Path::new(path).parent() {
        Some(folder) if !folder.as_os_str().is_empty() => folder,
        _ => Path::new("."),
    };
    fs::open(files, folder)?.sync_all()
}

/// Reads into the front of the buffer until it is full or the file ends, and returns how many bytes came.
fn read_full<F: FileExt>(file: &F, at: u64, buf: &mut [u8]) -> io::Result<usize>
    ensures len { length buf.new ≡ length buf.old }
    ensures within { IfOk result (λ n. n ≤ length buf.new) }
{
    let mut done = 0;
    for _ in 0..u64::MAX {
        if done >= buf.len() {
            return Ok(done);
        }
        match file.read_at(&mut buf[done..], at.wrapping_add(done as u64)) {
            Ok(0) => return Ok(done),
            Ok(count) => done += count,
            Err(error) if error.kind() == ErrorKind::Interrupted => {}
            Err(error) => return Err(error),
        }
    }
    Err(io::Error::from(ErrorKind::TimedOut))
}

/// Waits until the file's bytes are on stable storage.
fn sync_again<F: OpenFile>(file: &F) -> io::Result<()> {
    for _ in 0..u64::MAX {
        match file.sync_data() {
            Ok(()) => return Ok(()),
            Err(error) if error.kind() == ErrorKind::Interrupted => {}
            Err(error) => return Err(error),
        }
    }
    Err(io::Error::from(ErrorKind::TimedOut))
}

impl<F: FileExt + OpenFile + Drop> Disk for FileDisk<F> {
    ghost use Rattle.std.specs.Prelude.{ℕ, List, []};

    ghost tells = { λ _. ⊥ };

    ghost seen = { λ _. [] };

    ghost may_leave = { λ _ _. ⊥ };

    ghost moment = { λ _. 0 };

    ghost left_since = { λ _ _ _. ⊥ };

    ghost faults = { λ count. count };

    ghost shows_one = { λ _ tells. absurd tells };

    ghost counts_now = { λ _ tells _ _ _ _. absurd tells };

    ghost only_now = { λ _ tells _ _. absurd tells };

    /// Reads until the buffer is full or the file ends. Any error of the system is a failure.
    fn read(&mut self, at: u64, buf: &mut [u8]) -> Result<usize, Failed> {
        match read_full(&self.file, at, buf) {
            Ok(count) => Ok(count),
            Err(_) => {
                self.count();
                Err(Failed)
            }
        }
    }

    /// Writes all bytes. Any error of the system is a failure, and so is that it takes no byte.
    fn write(&mut self, at: u64, bytes: &[u8]) -> Result<(), LinkFault> {
        match self.file.write_all_at(bytes, at) {
            Ok(()) => Ok(()),
            Err(_) => {
                self.count();
                Err(LinkFault::Failed)
            }
        }
    }

    /// Waits for the system to put the bytes on stable storage (fdatasync). Any error of it is a failure.
    fn sync(&mut self) -> Result<(), LinkFault> {
        match sync_again(&self.file) {
            Ok(()) => Ok(()),
            Err(_) => {
                self.count();
                Err(LinkFault::Failed)
            }
        }
    }
}
