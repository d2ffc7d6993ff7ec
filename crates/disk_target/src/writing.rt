//! A file that is being written.

use crate::places::{beside, refused};
use copy_targets::Why;
use net_edge::write_again;
use std::alloc::Global;
use std::fs::{self, File, OpenFile};
use std::io::{self, ErrorKind, Write};
use std::rt::Files;
use xdr_codec::Memory;

/// So many names are tried for a file that isn't whole yet.
const MOST_NAMES: u64 = 1000;

/// A file that is being written, under a name of its own.
#[derive(Drop)]
pub(crate) struct Writing<R: Files> {
    file: R::File,
    /// Its name meanwhile, and the one that it gets.
    own: String,
    path: String,
}

impl<R: Files> Writing<R> {
    /// Makes a file beside a path, under a name that is free.
    pub(crate) fn begin(
        files: &R,
        alloc: Global,
        path: String,
    ) -> Result<Result<Writing<R>, Why>, Memory> {
        for number in 0..MOST_NAMES {
            let own = beside(alloc, path.as_str(), number)?;
            match File::create_new(files, own.as_str()) {
                Ok(file) => return Ok(Ok(Writing { file, own, path })),
                Err(error) => {
                    if error.kind() != ErrorKind::AlreadyExists {
                        return Ok(Err(refused(&error)?));
                    }
                }
            }
        }
        Ok(Err(Why::Refused(0)))
    }

    /// Writes these bytes.
    pub(crate) fn write(&mut self, bytes: &[u8]) -> io::Result<()> {
        write_whole(&mut self.file, bytes)
    }

    /// Gives it its name. What stood there before is gone then, and isn't written through.
    pub(crate) fn end(self, files: &R) -> Result<Option<Why>, Memory> {
        match files.rename(self.own.as_str(), self.path.as_str()) {
            Ok(()) => Ok(None),
            Err(error) => {
                let _ = files.remove_file(self.own.as_str());
                Ok(Some(refused(&error)?))
            }
        }
    }

    /// Takes it away.
    pub(crate) fn leave(self, files: &R) {
        let _ = files.remove_file(self.own.as_str());
    }
}

/// Writes until all bytes are taken.
fn write_whole<F: Write>(file: &mut F, bytes: &[u8]) -> io::Result<()> {
    let mut done = 0;
    for _ in 0..u64::MAX {
        if done >= bytes.len() {
            return Ok(());
        }
        match write_again(file, &bytes[done..]) {
            Ok(0) => return Err(io::Error::from(ErrorKind::WriteZero)),
            Ok(count) => done += count,
            Err(error) => return Err(error),
        }
    }
    Err(io::Error::from(ErrorKind::TimedOut))
}
