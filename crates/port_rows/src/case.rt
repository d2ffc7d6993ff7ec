//! What lines describe.

use crate::text::{bytes_of, number_of, port_of, words_of};
use outside::MemDatagrams;
use std::alloc::{AllocError, Global};
use xdr_codec::Memory;

/// A datagram that is to come.
#[derive(Drop)]
pub struct Coming {
    /// The port that it comes from.
    pub port: u16,
    /// What it holds.
    pub bytes: Vec<u8>,
}

/// What some lines describe.
#[derive(Drop)]
pub struct Case {
    /// The words of a command line.
    pub words: Vec<String>,
    /// The text of a script.
    pub script: Vec<u8>,
    /// The text of a schedule.
    pub schedule: Vec<u8>,
    /// The calls of the sink that fail, counted from 1.
    pub writes: Vec<u32>,
    /// What is to come from the port mapper, in order.
    pub told: Vec<Coming>,
    /// The calls of a link that fail, counted from 1: that to the port mapper, or that to the server if none is asked.
    pub fails: Vec<u32>,
    /// What is to come from the server, in order.
    pub arrivals: Vec<Coming>,
}

/// Nothing is described yet.
pub fn empty(alloc: Global) -> Case {
    Case {
        words: Vec::new(alloc),
        script: Vec::new(alloc),
        schedule: Vec::new(alloc),
        writes: Vec::new(alloc),
        told: Vec::new(alloc),
        fails: Vec::new(alloc),
        arrivals: Vec::new(alloc),
    }
}

/// Takes what a line adds to the description; false if it adds nothing.
pub fn takes(alloc: Global, case: &mut Case, word: &str, rest: &str) -> Result<bool, AllocError> {
    let added = match word {
        "words" => take_words(alloc, case, rest),
        "script" => add_line(&mut case.script, rest),
        "schedule" => add_line(&mut case.schedule, rest),
        "write" => add_number(&mut case.writes, rest),
        "fail" => add_number(&mut case.fails, rest),
        "told" => add_coming(alloc, &mut case.told, rest),
        "arrival" => add_coming(alloc, &mut case.arrivals, rest),
        _ => return Ok(false),
    };
    added?;
    Ok(true)
}

/// The words are those of a line from now on.
fn take_words(alloc: Global, case: &mut Case, line: &str) -> Result<(), AllocError> {
    case.words = words_of(alloc, line)?;
    Ok(())
}

fn add_line(text: &mut Vec<u8>, line: &str) -> Result<(), AllocError> {
    text.extend_from_slice(line.as_bytes())?;
    text.push(b'\n')?;
    Ok(())
}

/// Adds the number of decimal digits.
fn add_number(numbers: &mut Vec<u32>, digits: &str) -> Result<(), AllocError> {
    numbers.push(number_of(digits))?;
    Ok(())
}

fn add_coming(alloc: Global, coming: &mut Vec<Coming>, rest: &str) -> Result<(), AllocError> {
    let (port, digits) = rest.split_once(' ').unwrap_or((rest, ""));
    let one = Coming {
        port: port_of(port),
        bytes: bytes_of(alloc, digits)?,
    };
    coming.push(one)?;
    Ok(())
}

/// Datagrams of which these are to come, and whose calls of these numbers fail.
pub fn datagrams(alloc: Global, coming: &[Coming], fails: &[u32]) -> Result<MemDatagrams, Memory> {
    let mut datagrams = MemDatagrams::new(alloc, fails)?;
    for one in coming {
        datagrams.arrival(one.port, one.bytes.as_slice())?;
    }
    Ok(datagrams)
}
