//! The lines that read files.

ghost use Rattle.std.specs.Prelude.{◌≡◌, ◌≤◌, ◌+◌, ◌++◌, [], ℕ, List, None, OnOk, false};
ghost use Rattle.nfs_script.specs.Asked.{IsNamed};
ghost use Rattle.copy_plan.specs.Files.{FilesView, reads};
ghost use Rattle.fetch_scripts.specs.Downloads.{IsScript};
ghost use Rattle.fetch_scripts.specs.Fetches.{Asks, ReadsOn, read_all, sent};

use crate::name_reads::planned;
use crate::span::{PIECE, Span};
use copy_plan::FileLines;
use nfs_script::Script;
use std::alloc::Global;
use std::marker::Model;
use world_model::Path;
use xdr_codec::Memory;

/// A script reads so many bytes at most, and one piece more. Their answers are twice as long.
const MOST_BYTES: usize = 4_194_304;

/// A script has so many lines at most, and few more.
const MOST_LINES: usize = 4096;

/// A file that is open on the server.
#[derive(Drop)]
struct Open {
    path: Path,
    /// How many reads are left. The last one is to find the end.
    left: u64,
}

/// The lines of a script, and the files that they are of.
#[derive(Drop)]
pub(crate) struct FileReads {
    lines: FileLines,
    spans: Vec<Span>,
    /// How many bytes it reads.
    bytes: usize,
    /// The file that goes on in the next script.
    open: Option<Open>,
}

impl Model for FileReads {
    ghost use Rattle.fetch_scripts.specs.Fetches.{ReadsView};

    ghost Value = { ReadsView };

    ghost view = { λ f. record { files = f.lines; spans = f.spans.items } };
}

impl FileReads {
    /// No file so far.
    pub(crate) fn new(alloc: Global) -> FileReads
        ensures { result ≡ record { files = record { all = record { lines = []; next = 1 }; lane = 15; at = None }; spans = [] } }
    {
        FileReads {
            lines: FileLines::new(alloc),
            spans: Vec::new(alloc),
            bytes: 0,
            open: None,
        }
    }

    /// How many lines the script has.
    pub(crate) fn count(&self) -> usize
        ensures { result ≤ 16384 }
    {
        self.lines.count()
    }

    /// The number of the next line.
    pub(crate) fn next(&self) -> u32 {
        self.lines.next()
    }

    /// Whether a file goes on in the next script.
    pub(crate) fn is_open(&self) -> bool {
        self.open.is_some()
    }

    /// Whether the script is full.
    pub(crate) fn is_full(&self) -> bool {
        self.open.is_some() || self.bytes >= MOST_BYTES || self.lines.count() >= MOST_LINES
    }

    /// The script, which is done: the next one begins.
    pub(crate) fn take(&mut self, alloc: Global) -> Script
        ensures script { IsScript result }
        ensures is { result ≡ self.old.files.all.lines }
        ensures rest { self.new ≡ record self.old { files = sent self.old.files } }
    {
        self.bytes = 0;
        Script::of(self.lines.take(alloc))
    }

    /// The files whose lines were sent.
    pub(crate) fn spans(&mut self, alloc: Global) -> Vec<Span>
        ensures is { result.items ≡ self.old.spans }
        ensures rest { self.new ≡ record self.old { spans = [] } }
    {
        std::mem::replace(&mut self.spans, Vec::new(alloc))
    }

    /// Goes on with the file that is open, or closes it if the target takes no more of it.
    pub(crate) fn go_on(&mut self, alloc: Global, is_taken: bool) -> Result<(), Memory>
        ensures { OnOk result ((from : List (List ℕ)) → Asks from self.old.files self.old.spans self.new.files self.new.spans) }
    {
        let Some(open) = self.open.take() else {
            return Ok(());
        };
        let left = if is_taken { open.left } else { 0 };
        let span = Span {
            path: open.path.copy(alloc)?,
            first: self.lines.next(),
            opens: false,
            reads: 0,
            ends: false,
        };
        self.read_on(open.path, left, span)
    }

    /// Opens the file that stands at a path of the server, and reads it.
    pub(crate) fn open(
        &mut self,
        alloc: Global,
        path: Path,
        size: u64,
        full: Path,
    ) -> Result<(), Memory>
        requires { IsNamed full }
        ensures { OnOk result ((from : List (List ℕ)) → full ≡ from ++ path → Asks from self.old.files self.old.spans self.new.files self.new.spans) }
    {
        let span = Span {
            path: path.copy(alloc)?,
            first: self.lines.next(),
            opens: true,
            reads: 0,
            ends: false,
        };
        planned(self.lines.begin_read(full))?;
        self.read_on(path, reads_of(size), span)
    }

    /// Reads on until the file ends or the script is full.
    fn read_on(&mut self, path: Path, left: u64, mut span: Span) -> Result<(), Memory>
        requires none { span.reads ≡ 0 }
        requires goes { span.ends ≡ false }
        ensures { OnOk result (ReadsOn span self.old.files self.old.spans self.new.files self.new.spans) }
    {
        let left = self.read_pieces(left, &mut span)?;
        if left == 0 {
            span.ends = true;
            planned(self.lines.end())?;
        } else {
            self.open = Some(Open { path, left });
        }
        self.spans.push(span)?;
        Ok(())
    }

    /// Asks for pieces until none is left or the script is full: how many are left.
    fn read_pieces(&mut self, left: u64, span: &mut Span) -> Result<u64, Memory>
        ensures lines { OnOk result ((u : FilesView) → self.old.files ≡ read_all span.old.reads u → self.new.files ≡ read_all span.new.reads u) }
        ensures span { span.new ≡ record span.old { reads = span.new.reads } }
        ensures spans { self.new.spans ≡ self.old.spans }
    {
        let mut left = left;
        for _ in 0..MOST_LINES {
            if left == 0 || self.is_full() {
                return Ok(left);
            }
            self.read_piece(span)?;
            left -= 1;
        }
        Ok(left)
    }

    fn read_piece(&mut self, span: &mut Span) -> Result<(), Memory>
        ensures lines { OnOk result ((self.new.files ≡ reads 65536 self.old.files) × (span.new.reads ≡ span.old.reads + 1)) }
        ensures span { span.new ≡ record span.old { reads = span.new.reads } }
        ensures spans { self.new.spans ≡ self.old.spans }
    {
        let Some(count) = span.reads.checked_add(1) else {
            return Err(Memory);
        };
        planned(self.lines.read(PIECE))?;
        span.reads = count;
        self.bytes = self.bytes.saturating_add(PIECE as usize);
        Ok(())
    }
}

/// How many reads a file of that size takes: one of them isn't full, so that the end was seen.
fn reads_of(size: u64) -> u64 {
    (size / u64::from(PIECE)).saturating_add(1)
}
