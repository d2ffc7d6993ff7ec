//! A file that gives and takes few bytes at a time, and is interrupted each second time.

use crate::files::{filled, show};
use page_store::FileDisk;
use std::alloc::Global;
use std::cell::Cell;
use std::fs::{self, File, Metadata, OpenFile, OpenOptions};
use std::io::{self, ErrorKind};
use std::os::unix::fs::FileExt;

/// Where it is.
const PATH: &str = "chopped";

/// The most bytes of a call.
const FEW: usize = 1500;

/// A file whose calls do less than they are asked for.
#[derive(Drop)]
struct Chopped {
    file: File,
    calls: Cell<u32>,
}

impl Chopped {
    /// Whether this call is interrupted.
    fn interrupts(&self) -> bool {
        let calls = self.calls.get().wrapping_add(1);
        self.calls.set(calls);
        calls % 2 == 0
    }
}

impl FileExt for Chopped {
    fn read_at(&self, buf: &mut [u8], offset: u64) -> io::Result<usize> {
        if self.interrupts() {
            return Err(io::Error::from(ErrorKind::Interrupted));
        }
        let count = buf.len().min(FEW);
        self.file.read_at(&mut buf[..count], offset)
    }

    fn write_at(&self, buf: &[u8], offset: u64) -> io::Result<usize> {
        if self.interrupts() {
            return Err(io::Error::from(ErrorKind::Interrupted));
        }
        let count = buf.len().min(FEW);
        self.file.write_at(&buf[..count], offset)
    }
}

impl OpenFile for Chopped {
    fn metadata(&self) -> io::Result<Metadata> {
        self.file.metadata()
    }

    fn set_len(&self, size: u64) -> io::Result<()> {
        self.file.set_len(size)
    }

    fn sync_all(&self) -> io::Result<()> {
        self.file.sync_all()
    }

    fn sync_data(&self) -> io::Result<()> {
        if self.interrupts() {
            return Err(io::Error::from(ErrorKind::Interrupted));
        }
        self.file.sync_data()
    }
}

/// Stores pages in such a file, and opens it again.
pub fn row(rt: &HostRuntime, alloc: Global) -> io::Result<()> {
    let mut how = OpenOptions::new();
    how.read(true).write(true).create(true).truncate(true);
    let file = how.open(rt, PATH)?;
    let disk = FileDisk::over(Chopped {
        file,
        calls: Cell::new(0),
    });
    if let Some(disk) = filled(rt, alloc, disk)? {
        show(rt, alloc, disk)?;
    }
    fs::remove_file(rt, PATH)
}
