//! What lines describe: a text, and which calls fail where it is read and its verdict is written.

use std::alloc::{AllocError, Global};

/// A text that may be a trace.
#[derive(Drop)]
pub struct Case {
    /// The bytes of the text.
    pub text: Vec<u8>,
    /// The calls of the source that fail, counted from 1.
    pub reads: Vec<u32>,
    /// The calls of the sink that fail, counted from 1.
    pub writes: Vec<u32>,
}

/// Nothing is described yet.
pub fn empty(alloc: Global) -> Case {
    Case {
        text: Vec::new(alloc),
        reads: Vec::new(alloc),
        writes: Vec::new(alloc),
    }
}

/// Adds a line to a text so many times.
fn add_lines(text: &mut Vec<u8>, count: u32, line: &str) -> Result<(), AllocError> {
    for _ in 0..count {
        text.extend_from_slice(line.as_bytes())?;
        text.push(b'\n')?;
    }
    Ok(())
}

/// The number that digits spell; 0 if it is none.
fn number_of(text: &str) -> u32 {
    text.parse::<u32>().unwrap_or(0)
}

/// Takes what a line adds to the description, and answers whether it adds something.
pub fn takes(case: &mut Case, word: &str, rest: &str) -> Result<bool, AllocError> {
    match word {
        "t" => add_lines(&mut case.text, 1, rest)?,
        "lines" => {
            let (count, line) = rest.split_once(' ').unwrap_or((rest, ""));
            add_lines(&mut case.text, number_of(count), line)?;
        }
        "read" => case.reads.push(number_of(rest))?,
        "write" => case.writes.push(number_of(rest))?,
        _ => return Ok(false),
    }
    Ok(true)
}
