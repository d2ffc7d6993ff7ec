//! Runs what the lines of standard input describe, and prints each line and what comes of it. A line is a word and what
//! it needs:
//!
//! - `settings WORDS` prints the settings of a command line, and `modes WORDS` for how long it lets attributes be believed.
//! - `words WORDS`, `script LINE`, `schedule LINE` and `reply HEX` describe a session: its words, lines of its script, lines of
//!   the schedule of a simulated server, and records that a hostile link hands out.
//! - `read N` and `write N` make that call of the script's source or of the sink fail.
//! - `clock MS` gives the next reading of the clock, by which `run` goes in place of the schedule's tick.
//! - `lines N LINE` adds that line to the script so many times, and `script-bytes HEX` and `schedule-bytes HEX` add bytes.
//! - `parse` prints how many operations the script asks for, `plan` the schedule's tick, or what is wrong with it.
//! - `run` runs the session over the simulated server, `hostile` over the hostile link, and `streamed N` over a wire of pieces:
//!   it prints the N-th piece that was written.
//! - `world` makes a link to the simulated server; `stream` makes one over a wire that hands out pieces, `piece HEX` or
//!   `cut N HEX`, and whose calls `fail N` fail; `narrow N FAULT` makes one over a wire that takes ten bytes at a time, and
//!   whose write of that number fails.
//! - `dial PORT`, `send HEX`, `receive` and `note` are calls of the link; `receive N` prints so many bytes at most.
//! - `left` prints the bytes of the simulated server's first object, and those after a restart, and `wrote` what was
//!   written to the wire.
//!
//! `[N*TEXT]` in a line stands for so many copies of a text, and digits in hex may be parted by spaces. What makes something
//! begins anew after it. Any other line is only printed.
#![tactic(auto)]

mod case;
mod clock;
mod link;
mod narrow;
mod session;
mod settings;
mod text;

use crate::case::{Case, empty, takes};
use crate::link::{Current, at_link, make_link};
use crate::text::{number_of, spread};
use std::alloc::Global;
use std::{io, mem};

/// Does what a line asks for; whether it ends the description.
fn row(
    rt: &impl Print,
    alloc: Global,
    case: &Case,
    current: &mut Current,
    word: &str,
    rest: &str,
) -> io::Result<bool> {
    match word {
        "settings" => settings::show(rt, alloc, rest)?,
        "modes" => settings::show_modes(rt, alloc, rest)?,
        "parse" => session::show_parsed(rt, alloc, case)?,
        "plan" => session::show_planned(rt, alloc, case)?,
        "run" => session::run_over_world(rt, alloc, case)?,
        "hostile" => session::run_over_hostile(rt, alloc, case)?,
        "streamed" => session::run_over_stream(rt, alloc, case, number_of(rest))?,
        "world" | "stream" | "narrow" => replace(current, make_link(alloc, case, word, rest)),
        _ => {
            at_link(rt, alloc, current, word, rest)?;
            return Ok(false);
        }
    }
    Ok(true)
}

fn replace(current: &mut Current, made: Current) {
    // Dropped by a call, since the prover takes a drop in place apart, field by field.
    drop(mem::replace(current, made));
}

/// Takes what a line adds to the description, or does what it asks for.
fn step(
    rt: &impl Print,
    alloc: Global,
    case: &mut Case,
    current: &mut Current,
    line: &str,
) -> io::Result<()> {
    let (word, rest) = line.split_once(' ').unwrap_or((line, ""));
    match takes(alloc, case, word, rest) {
        Ok(true) => Ok(()),
        Ok(false) => {
            if row(rt, alloc, case, current, word, rest)? {
                drop(mem::replace(case, empty(alloc)));
            }
            Ok(())
        }
        Err(_) => println!(rt; "  out of memory"),
    }
}

/// Prints each line of standard input, and makes its step.
fn step_all(rt: &HostRuntime, case: &mut Case, current: &mut Current) -> io::Result<()> {
    let alloc = rt.alloc();
    for line in rt.lines(alloc) {
        let line = line?;
        println!(rt; "{}", line.as_str())?;
        let Ok(line) = spread(alloc, line.as_str()) else {
            return println!(rt; "  out of memory");
        };
        step(rt, alloc, case, current, line.as_str())?;
    }
    Ok(())
}

fn main(rt: HostRuntime) -> io::Result<()> {
    let mut case = empty(rt.alloc());
    let mut current = Current::None;
    let ended = step_all(&rt, &mut case, &mut current);
    drop(current);
    ended
}
