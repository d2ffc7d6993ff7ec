//! Standard input, and files.

ghost use Rattle.std.specs.Prelude.{◌≡◌, IfOk};

use crate::again::read_again;
use outside::{Failed, Source};
use std::fs::File;
use std::io::{Read, Stdin};
use std::marker::Model;
use std::rt::Files;

/// A stream of the system as a source. A contract sees the number of reads that failed.
#[derive(Drop)]
pub struct ReaderSource<R: Read + Drop> {
    reader: R,
    faults: u64,
}

/// Standard input as a source.
pub type StandardInput = ReaderSource<Stdin>;

impl<R: Read + Drop> Model for ReaderSource<R> {
    ghost use Rattle.std.specs.Prelude.{ℕ};

    ghost Value = { ℕ };

    ghost view = { λ s. s.faults };
}

impl<R: Read + Drop> ReaderSource<R> {
    /// A source over that stream, of which no read has failed.
    pub fn new(reader: R) -> ReaderSource<R>
        ensures { result ≡ 0 }
    {
        ReaderSource { reader, faults: 0 }
    }
}

/// The file at that path as a source. `Failed` if it can't be opened to be read.
pub fn file_source<R: Files>(files: &R, path: &str) -> Result<ReaderSource<R::File>, Failed>
    ensures { IfOk result (λ source. source ≡ 0) }
{
    match File::open(files, path) {
        Ok(file) => Ok(ReaderSource::new(file)),
        Err(_) => Err(Failed),
    }
}

impl<R: Read + Drop> Source for ReaderSource<R> {
    ghost use Rattle.std.specs.Prelude.{◌≤◌, ◌<◌, None, length, IfOk};
    ghost use Rattle.outside.specs.Causes.{HasCauseFailed};
    ghost use Rattle.outside.specs.Source.{TakesFrom};
    ghost use Rattle.net_edge.specs.Counts.{CountsFailed};

    ghost left = { λ _. None };

    ghost faults = { λ count. count };

    /// Reads what there is. An error of the system is a failure, but a read that is interrupted is made again.
    fn read(&mut self, buf: &mut [u8]) -> Result<usize, Failed>
        requires { 0 < length buf.old }
        ensures fits { IfOk result (λ n. n ≤ length buf.new) }
        ensures told { TakesFrom None None buf.new result }
        ensures cause { HasCauseFailed self.old self.new result }
        ensures counts { CountsFailed self.old self.new result }
    {
        match read_again(&mut self.reader, buf) {
            Ok(count) => Ok(count),
            Err(_) => {
                self.faults = self.faults.saturating_add(1);
                Err(Failed)
            }
        }
    }
}
