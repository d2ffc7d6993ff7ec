//! Runs what the lines of standard input describe, over simulated servers, and prints each line and what comes of it. A line is a word and what it needs:
//!
//! - `schedule LINE` is a line of the schedule, and `words WORDS` are the words of the command line.
//! - `> LINE` is a line of the input, `lines N LINE` that line so many times, and `end TEXT` a last one without its line feed.
//! - `a LINE` is a line of client a's script, which is the input too, and `b LINE` one of client b's.
//! - `read N`, `read_b N` and `write N` make that call of the source of the input, of that of b's script, and of the sink fail.
//! - `batches` runs the input as batches, and `pair` both scripts. Each prints the status and the lines that were written.
//! - `make N WORDS` runs the script that is made of that size with these words, and prints the same.
//! - `made N` prints how many lines that script has, and `line N AT` one of them, counted from 1.
//! - `summary TEXT` prints the line on these answers, which `/` parts.
//!
//! A run prints the line of the schedule that is at fault in place of its end. What comes after it begins anew. Any other line is only printed.
#![tactic(auto)]

mod case;
mod made;
mod runs;
mod show;
mod text;

use crate::case::{Case, empty, takes};
use std::alloc::Global;
use std::io;

/// Does what a line asks for; whether it ends the description.
fn row(rt: &impl Print, alloc: Global, case: &Case, word: &str, rest: &str) -> io::Result<bool> {
    match word {
        "batches" => runs::batches(rt, alloc, case)?,
        "pair" => runs::pair(rt, alloc, case)?,
        "make" => runs::make(rt, alloc, case, rest)?,
        "made" => made::show_made(rt, alloc, rest)?,
        "line" => made::show_line(rt, alloc, rest)?,
        "summary" => made::show_summary(rt, alloc, rest)?,
        _ => return Ok(false),
    }
    Ok(true)
}

/// Prints a line, and takes what it adds to the description, or does what it asks for.
fn step(rt: &impl Print, alloc: Global, case: &mut Case, line: &str) -> io::Result<()> {
    println!(rt; "{line}")?;
    let (word, rest) = line.split_once(' ').unwrap_or((line, ""));
    match takes(alloc, case, word, rest) {
        Ok(true) => Ok(()),
        Ok(false) => {
            if row(rt, alloc, case, word, rest)? {
                *case = empty(alloc);
            }
            Ok(())
        }
        Err(_) => println!(rt; "  out of memory"),
    }
}

/// Makes the step of each line of standard input.
fn step_all(rt: &HostRuntime, case: &mut Case) -> io::Result<()> {
    for line in rt.lines(rt.alloc()) {
        let line = line?;
        step(rt, rt.alloc(), case, line.as_str())?;
    }
    Ok(())
}

fn main(rt: HostRuntime) -> io::Result<()> {
    let mut case = empty(rt.alloc());
    step_all(&rt, &mut case)
}
