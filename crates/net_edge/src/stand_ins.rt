//! Standard streams that are closed when the program starts.

use std::fs::{File, OpenOptions};
use std::io::{self, Stderr, Stdin, Stdout};
use std::os::fd::AsFd;
use std::rt::Files;

/// The file that stands in for a stream.
const STAND_IN: &str = "/dev/null";

/// A standard stream.
#[derive(Clone, Copy, Debug, PartialEq, Eq)]
pub enum StandardStream {
    /// Standard input.
    Input,
    /// Standard output.
    Output,
    /// Standard error.
    Error,
}

/// Files in the places of the standard streams that were closed when the program started. Without them the next file or
/// connection would take such a place, and be read or written as that stream. The one for a stream to read can't be
/// read, and the one for a stream to write can't be written. So the calls of the stream fail, as those of a closed one
/// do.
#[derive(Drop)]
pub struct StandIns<R: Files> {
    input: Option<R::File>,
    output: Option<R::File>,
    error: Option<R::File>,
}

impl<R: Files> StandIns<R> {
    /// Opens a file in the place of each standard stream that is closed. `Err` names a stream for which that failed.
    pub fn open(
        files: &R,
        stdin: &Stdin,
        stdout: &Stdout,
        stderr: &Stderr,
    ) -> Result<StandIns<R>, StandardStream> {
        // A file that is opened takes the lowest descriptor that is free.
        let Ok(input) = unreadable(files, is_closed(stdin)) else {
            return Err(StandardStream::Input);
        };
        let Ok(output) = unwritable(files, is_closed(stdout)) else {
            return Err(StandardStream::Output);
        };
        let Ok(error) = unwritable(files, is_closed(stderr)) else {
            return Err(StandardStream::Error);
        };
        Ok(StandIns {
            input,
            output,
            error,
        })
    }
}

/// Whether the stream's descriptor is closed: it can't be copied then.
fn is_closed<S: AsFd>(stream: &S) -> bool {
    stream.as_fd().try_clone_to_owned().is_err()
}

/// A file that can't be read, if it is wanted.
fn unreadable<R: Files>(files: &R, is_wanted: bool) -> io::Result<Option<R::File>> {
    if !is_wanted {
        return Ok(None);
    }
    let file = OpenOptions::new().write(true).open(files, STAND_IN)?;
    Ok(Some(file))
}

/// A file that can't be written, if it is wanted.
fn unwritable<R: Files>(files: &R, is_wanted: bool) -> io::Result<Option<R::File>> {
    if !is_wanted {
        return Ok(None);
    }
    let file = File::open(files, STAND_IN)?;
    Ok(Some(file))
}
