//! What lines describe: a session, or a link.

use crate::text::{bytes_of, number_of};
use std::alloc::{AllocError, Global};
use std::mem;

/// What some lines describe.
#[derive(Drop)]
pub struct Case {
    /// The words of a command line.
    pub words: Vec<String>,
    /// The text of a script.
    pub script: Vec<u8>,
    /// The text of a schedule.
    pub schedule: Vec<u8>,
    /// The readings of the clock, in milliseconds; none if it goes on by the schedule's tick.
    pub clock: Vec<u32>,
    /// The calls of the source that fail, counted from 1.
    pub reads: Vec<u32>,
    /// The calls of the sink that fail, counted from 1.
    pub writes: Vec<u32>,
    /// Records that a hostile link hands out, or the pieces that a wire does.
    pub records: Vec<Vec<u8>>,
    /// The calls of a wire that fail, counted from 1.
    pub fails: Vec<u32>,
}

impl Case {
    /// These words are described, and no others.
    fn take_words(&mut self, words: Vec<String>) {
        // Dropped by a call, since the prover takes a drop in place apart, field by field.
        drop(mem::replace(&mut self.words, words));
    }
}

/// Nothing is described yet.
pub fn empty(alloc: Global) -> Case {
    Case {
        words: Vec::new(alloc),
        script: Vec::new(alloc),
        schedule: Vec::new(alloc),
        clock: Vec::new(alloc),
        reads: Vec::new(alloc),
        writes: Vec::new(alloc),
        records: Vec::new(alloc),
        fails: Vec::new(alloc),
    }
}

/// The words of a line, parted by single spaces.
pub fn words_of(alloc: Global, line: &str) -> Result<Vec<String>, AllocError> {
    let mut words = Vec::new(alloc);
    for word in line.split(' ') {
        words.push(String::from_str(alloc, word)?)?;
    }
    Ok(words)
}

/// Adds a line to a text so many times.
fn add_lines(text: &mut Vec<u8>, count: u32, line: &str) -> Result<(), AllocError> {
    for _ in 0..count {
        text.extend_from_slice(line.as_bytes())?;
        text.push(b'\n')?;
    }
    Ok(())
}

/// Adds bytes to a text.
fn add_bytes(alloc: Global, text: &mut Vec<u8>, digits: &str) -> Result<(), AllocError> {
    let bytes = bytes_of(alloc, digits)?;
    text.extend_from_slice(bytes.as_slice())
}

/// Adds bytes in pieces of so many.
fn add_pieces(
    alloc: Global,
    records: &mut Vec<Vec<u8>>,
    size: u32,
    bytes: &[u8],
) -> Result<(), AllocError> {
    let mut left = bytes;
    for _ in 0..bytes.len() {
        if left.is_empty() {
            break;
        }
        let (piece, rest) = left.split_at((size as usize).max(1).min(left.len()));
        records.push(Vec::from_slice(alloc, piece)?)?;
        left = rest;
    }
    Ok(())
}

/// Takes what a line adds to the description; false if it adds nothing.
pub fn takes(alloc: Global, case: &mut Case, word: &str, rest: &str) -> Result<bool, AllocError> {
    match word {
        "script" => add_lines(&mut case.script, 1, rest)?,
        "script-bytes" => add_bytes(alloc, &mut case.script, rest)?,
        "schedule" => add_lines(&mut case.schedule, 1, rest)?,
        "schedule-bytes" => add_bytes(alloc, &mut case.schedule, rest)?,
        _ => return takes_item(alloc, case, word, rest),
    }
    Ok(true)
}

/// Takes the words of a line, or what it adds to a list.
fn takes_item(alloc: Global, case: &mut Case, word: &str, rest: &str) -> Result<bool, AllocError> {
    match word {
        "words" => case.take_words(words_of(alloc, rest)?),
        "clock" => case.clock.push(number_of(rest))?,
        "read" => case.reads.push(number_of(rest))?,
        "write" => case.writes.push(number_of(rest))?,
        "fail" => case.fails.push(number_of(rest))?,
        "reply" | "piece" => case.records.push(bytes_of(alloc, rest)?)?,
        _ => return takes_counted(alloc, case, word, rest),
    }
    Ok(true)
}

/// Takes what a line adds whose second word is a number.
fn takes_counted(
    alloc: Global,
    case: &mut Case,
    word: &str,
    rest: &str,
) -> Result<bool, AllocError> {
    let (count, text) = rest.split_once(' ').unwrap_or((rest, ""));
    match word {
        "lines" => add_lines(&mut case.script, number_of(count), text)?,
        "cut" => {
            let bytes = bytes_of(alloc, text)?;
            add_pieces(alloc, &mut case.records, number_of(count), bytes.as_slice())?;
        }
        _ => return Ok(false),
    }
    Ok(true)
}
