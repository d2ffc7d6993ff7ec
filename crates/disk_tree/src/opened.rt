//! A file that is being read.

ghost use Rattle.std.specs.Prelude.{◌≡◌, ◌≤◌, length, IfOk};
ghost use Rattle.file_trees.specs.Giving.{IsFew, IsPiece};

use crate::unread::unread_piece;
use file_trees::{Cut, Piece};
use net_edge::read_again;
use std::alloc::Global;
use std::fs::{Metadata, OpenFile};
use std::io::{self, ErrorKind, Read};
use std::os::unix::fs::MetadataExt;
use std::rt::Files;
use xdr_codec::{Blob, Memory};

/// The most bytes of a piece.
const MOST_BYTES: u64 = 65_536;

/// What tells whether a file was changed.
#[derive(Clone, Copy, PartialEq, Eq)]
struct Stamp {
    size: u64,
    seconds: i64,
    nanoseconds: i64,
}

/// The stamp of a file.
fn stamp_of(metadata: &Metadata) -> Stamp {
    Stamp {
        size: metadata.len(),
        seconds: metadata.mtime(),
        nanoseconds: metadata.mtime_nsec(),
    }
}

/// A file that is open, and is read from its beginning to its end.
#[derive(Drop)]
pub(crate) struct Opened<R: Files> {
    file: R::File,
    /// How it was when it was opened.
    stamp: Stamp,
    /// How many bytes were read.
    done: u64,
}

impl<R: Files> Opened<R> {
    /// A file that was opened, and how it was then.
    pub(crate) fn new(file: R::File, metadata: &Metadata) -> Opened<R> {
        Opened {
            file,
            stamp: stamp_of(metadata),
            done: 0,
        }
    }

    /// Its next bytes, or that there are none.
    pub(crate) fn next(&mut self, alloc: Global) -> Result<Piece, Memory>
        ensures { IfOk result IsPiece }
    {
        let mut bytes = Vec::new(alloc);
        bytes.resize(self.room(), 0)?;
        let count = match read_full(&mut self.file, bytes.as_mut_slice()) {
            Ok(count) => count,
            Err(error) => return unread_piece(&error),
        };
        if count == 0 {
            return self.end();
        }
        bytes.truncate(count);
        self.done = self.done.saturating_add(count as u64);
        piece_of(alloc, bytes)
    }

    /// How many bytes are asked for: those that are left by its size, but 1 at least and 65,536 at most. So a small file takes little memory.
    fn room(&self) -> usize
        ensures some { 1 ≤ result }
        ensures most { result ≤ 65536 }
    {
        let left = self.stamp.size.saturating_sub(self.done);
        if left == 0 {
            return 1;
        }
        left.min(MOST_BYTES) as usize
    }

    /// It is at its end: whether all of it came, of one state.
    fn end(&self) -> Result<Piece, Memory>
        ensures { IfOk result IsPiece }
    {
        match self.file.metadata() {
            Ok(metadata) => Ok(self.last(&metadata)),
            Err(error) => unread_piece(&error),
        }
    }

    /// What comes at its end, which is so now.
    fn last(&self, metadata: &Metadata) -> Piece
        ensures { IsPiece result }
    {
        if self.done == self.stamp.size && stamp_of(metadata) == self.stamp {
            return Piece::End;
        }
        Piece::Cut(Cut::Changed)
    }
}

/// These bytes as a piece.
fn piece_of(alloc: Global, bytes: Vec<u8>) -> Result<Piece, Memory>
    requires { IsFew bytes.items }
    ensures { IfOk result IsPiece }
{
    let bytes = Blob::shared(alloc, bytes)?;
    Ok(Piece::Bytes(bytes))
}

/// Reads until the buffer is full or the file ends, and answers how many bytes came.
fn read_full<F: Read>(file: &mut F, buf: &mut [u8]) -> io::Result<usize>
    ensures len { length buf.new ≡ length buf.old }
    ensures within { IfOk result (λ n. n ≤ length buf.new) }
{
    let mut done = 0;
    for _ in 0..u64::MAX {
        if done >= buf.len() {
            return Ok(done);
        }
        match read_again(file, &mut buf[done..]) {
            Ok(0) => return Ok(done),
            Ok(count) => done += count,
            Err(error) => return Err(error),
        }
    }
    Err(io::Error::from(ErrorKind::TimedOut))
}
