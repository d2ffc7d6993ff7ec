//! What lines describe: a server, and a session.

use std::alloc::{AllocError, Global};

/// A server and a session.
#[derive(Drop)]
pub struct Case {
    /// The text of the schedule.
    pub schedule: Vec<u8>,
    /// The words of a command line.
    pub words: Vec<String>,
    /// The text of a script.
    pub script: Vec<u8>,
    /// The words of a label; none if the session isn't to have a label of its own.
    pub label: Vec<u8>,
}

/// Nothing is described yet.
pub fn empty(alloc: Global) -> Case {
    Case {
        schedule: Vec::new(alloc),
        words: Vec::new(alloc),
        script: Vec::new(alloc),
        label: Vec::new(alloc),
    }
}

/// The words of a line, parted by single spaces.
fn words_of(alloc: Global, line: &str) -> Result<Vec<String>, AllocError> {
    let mut words = Vec::new(alloc);
    for word in line.split(' ') {
        words.push(String::from_str(alloc, word)?)?;
    }
    Ok(words)
}

/// Adds a line to a text.
fn add_line(text: &mut Vec<u8>, line: &str) -> Result<(), AllocError> {
    text.extend_from_slice(line.as_bytes())?;
    text.push(b'\n')?;
    Ok(())
}

/// Takes what a line adds to the description.
pub fn takes(alloc: Global, case: &mut Case, word: &str, rest: &str) -> Result<(), AllocError> {
    match word {
        "schedule" => add_line(&mut case.schedule, rest),
        "words" => take_words(alloc, case, rest),
        "script" => add_line(&mut case.script, rest),
        "label" => take_label(alloc, case, rest),
        _ => Ok(()),
    }
}

fn take_words(alloc: Global, case: &mut Case, line: &str) -> Result<(), AllocError> {
    case.words = words_of(alloc, line)?;
    Ok(())
}

fn take_label(alloc: Global, case: &mut Case, line: &str) -> Result<(), AllocError> {
    case.label = Vec::from_slice(alloc, line.as_bytes())?;
    Ok(())
}
