//! What lines describe: inputs, and the server that they are for.

use crate::text::{number_of, words_of};
use std::alloc::{AllocError, Global};

/// What a run is given, and what it meets.
#[derive(Drop)]
pub struct Case {
    /// The words of the command line.
    pub words: Vec<String>,
    /// The text of the schedule.
    pub schedule: Vec<u8>,
    /// The bytes of the input, which is client a's script where there are two.
    pub input: Vec<u8>,
    /// The text of client b's script.
    pub script_b: Vec<u8>,
    /// The calls of the source of the input that fail, counted from 1.
    pub reads: Vec<u32>,
    /// The same of b's script.
    pub reads_b: Vec<u32>,
    /// The calls of the sink that fail, counted from 1.
    pub writes: Vec<u32>,
}

/// Nothing is described yet.
pub fn empty(alloc: Global) -> Case {
    Case {
        words: Vec::new(alloc),
        schedule: Vec::new(alloc),
        input: Vec::new(alloc),
        script_b: Vec::new(alloc),
        reads: Vec::new(alloc),
        reads_b: Vec::new(alloc),
        writes: Vec::new(alloc),
    }
}

/// Adds a line to a text so many times.
fn add_lines(text: &mut Vec<u8>, count: u32, line: &str) -> Result<(), AllocError> {
    for _ in 0..count {
        text.extend_from_slice(line.as_bytes())?;
        text.push(b'\n')?;
    }
    Ok(())
}

/// Takes what a line adds to the description; false if it adds nothing.
pub fn takes(alloc: Global, case: &mut Case, word: &str, rest: &str) -> Result<bool, AllocError> {
    match word {
        "words" => case.words = words_of(alloc, rest)?,
        "schedule" => add_lines(&mut case.schedule, 1, rest)?,
        ">" | "a" => add_lines(&mut case.input, 1, rest)?,
        "b" => add_lines(&mut case.script_b, 1, rest)?,
        "end" => case.input.extend_from_slice(rest.as_bytes())?,
        "read" => case.reads.push(number_of(rest))?,
        "read_b" => case.reads_b.push(number_of(rest))?,
        "write" => case.writes.push(number_of(rest))?,
        "lines" => {
            let (count, line) = rest.split_once(' ').unwrap_or((rest, ""));
            add_lines(&mut case.input, number_of(count), line)?;
        }
        _ => return Ok(false),
    }
    Ok(true)
}
