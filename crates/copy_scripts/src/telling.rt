//! What is told of a copy while it goes on. It goes to a stream of its own, and the copy goes on if that can't be written.

use outside::{Clock, Sink};
use std::alloc::Global;
use world_model::Path;
use xdr_codec::{Memory, Writer};

/// A line of progress is written after so many milliseconds at the earliest.
const PAUSE_MS: u64 = 1000;

/// Whether progress is told.
#[derive(Clone, Copy, Debug, PartialEq, Eq)]
pub enum Progress {
    /// A line a second.
    Shown,
    /// None.
    Hidden,
}

/// Tells what wasn't copied, and how far the copy is.
#[derive(Drop)]
pub struct Teller<'a, K: Sink, C: Clock> {
    alloc: Global,
    out: &'a mut K,
    clock: &'a mut C,
    progress: Progress,
    /// When progress was told last.
    last_ms: u64,
    files: u64,
    bytes: u64,
}

impl<'a, K: Sink, C: Clock> Teller<'a, K, C> {
    /// One that has told nothing.
    pub fn new(
        alloc: Global,
        out: &'a mut K,
        clock: &'a mut C,
        progress: Progress,
    ) -> Teller<'a, K, C> {
        let last_ms = clock.now();
        Teller {
            alloc,
            out,
            clock,
            progress,
            last_ms,
            files: 0,
            bytes: 0,
        }
    }

    /// Why something wasn't copied, in words.
    pub fn complain(&mut self, path: &Path, why: &[u8]) -> Result<(), Memory> {
        let mut text = Writer::new(self.alloc);
        text.raw(b"nfs3: ")?;
        write_path(&mut text, path)?;
        text.raw(b": ")?;
        text.raw(why)?;
        text.raw(b"\n")?;
        self.say(text.finish().bytes());
        Ok(())
    }

    /// Writes a text as far as it can be written.
    pub fn say(&mut self, text: &[u8]) {
        let mut rest = text;
        for _ in 0..text.len() {
            if rest.is_empty() {
                return;
            }
            match self.out.write(rest) {
                Ok(count) => rest = behind(rest, count),
                Err(_) => return,
            }
        }
    }

    /// So many bytes of a file were taken.
    pub fn add_bytes(&mut self, count: usize) {
        self.bytes = self.bytes.saturating_add(count as u64);
    }

    /// A file was taken to its end.
    pub fn add_file(&mut self) {
        self.files = self.files.saturating_add(1);
    }

    /// Tells how far the copy is, if it is time to.
    pub fn tell_progress(&mut self) -> Result<(), Memory> {
        if self.progress == Progress::Hidden {
            return Ok(());
        }
        let now = self.clock.now();
        if now.saturating_sub(self.last_ms) < PAUSE_MS {
            return Ok(());
        }
        self.last_ms = now;
        self.tell_count()
    }

    /// How many files and bytes were taken.
    fn tell_count(&mut self) -> Result<(), Memory> {
        let (files, bytes) = (self.files, self.bytes);
        let line = format!(in self.alloc; "nfs3: {files} files, {bytes} bytes\n")?;
        self.say(line.as_bytes());
        Ok(())
    }
}

/// What stands behind so many bytes.
fn behind(bytes: &[u8], count: usize) -> &[u8] {
    if count >= bytes.len() {
        return &[];
    }
    let (_, rest) = bytes.split_at(count);
    rest
}

/// A path as answers show it.
fn write_path(text: &mut Writer, path: &Path) -> Result<(), Memory> {
    if path.names().is_empty() {
        return text.raw(b"/");
    }
    for name in path.names() {
        write_name(text, name.bytes())?;
    }
    Ok(())
}

/// A name behind its slash.
fn write_name(text: &mut Writer, name: &[u8]) -> Result<(), Memory> {
    text.raw(b"/")?;
    for byte in name {
        write_byte(text, *byte)?;
    }
    Ok(())
}

/// A byte as it is, or `%` and its two hex digits.
fn write_byte(text: &mut Writer, byte: u8) -> Result<(), Memory> {
    if (33..=126).contains(&byte) && byte != b'%' {
        return text.raw(&[byte]);
    }
    let (high, low) = (digit(byte / 16), digit(byte % 16));
    text.raw(&[b'%', high, low])
}

/// A number below 16 as a hex digit.
fn digit(number: u8) -> u8 {
    if number < 10 {
        b'0' + number
    } else {
        b'a' + number % 16 - 10
    }
}
