//! Runs what the lines of standard input describe, over a simulated server with two ends, and prints each line and what comes of it:
//!
//! - `schedule LINE` is a line of a schedule; `pair` begins a world by these lines, and prints its tick and its order, or the line that is at fault.
//! - `a dial PORT`, `a send HEX`, `a receive` and `a note` are calls at the end of client a, and `b ..` at that of client b.
//!
//! A received record is printed in words of four bytes. What begins a world begins anew after it. Any other line is only printed.
#![tactic(auto)]

mod show;
mod text;

ghost use Rattle.std.specs.Prelude.{◌<◌};

use crate::show::{show_answer, show_begun, show_bytes};
use crate::text::{port_of, record_of};
use outside::{PairLink, Received};
use std::alloc::{AllocError, Global};
use std::io;
use world_link::{PairWorld, parse_pair};
use world_model::Mark;

/// The end of client a.
const A: u8 = 0;
/// The end of client b.
const B: u8 = 1;

/// Makes a call at an end, and prints what it answers.
fn call(
    rt: &impl Print,
    alloc: Global,
    world: &mut PairWorld,
    end: u8,
    rest: &str,
) -> io::Result<()>
    requires { end < 2 }
{
    let (word, rest) = rest.split_once(' ').unwrap_or((rest, ""));
    match word {
        "dial" => show_answer(rt, world.dial(end, port_of(rest))),
        "send" => match record_of(alloc, rest) {
            Ok(record) => show_answer(rt, world.send(end, &record)),
            Err(_) => println!(rt; "  out of memory"),
        },
        "note" => match world.note(end, Mark::Clock { ms: 4 }) {
            Ok(()) => println!(rt; "  ok"),
            Err(_) => println!(rt; "  memory"),
        },
        "receive" => receive(rt, alloc, world, end),
        _ => Ok(()),
    }
}

/// Receives a record at an end, and prints it.
fn receive(rt: &impl Print, alloc: Global, world: &mut PairWorld, end: u8) -> io::Result<()>
    requires { end < 2 }
{
    let mut record = Vec::new(alloc);
    match world.receive(end, 15_000, &mut record) {
        Received::Whole => show_bytes(rt, record.as_slice()),
        Received::Silent => println!(rt; "  silent"),
        Received::Failed => println!(rt; "  failed"),
        Received::Memory => println!(rt; "  memory"),
    }
}

/// Does what a line asks of the world that there is.
fn at_world(
    rt: &impl Print,
    alloc: Global,
    current: &mut Option<PairWorld>,
    word: &str,
    rest: &str,
) -> io::Result<()> {
    let Some(world) = current else {
        return Ok(());
    };
    match word {
        "a" => call(rt, alloc, world, A, rest),
        "b" => call(rt, alloc, world, B, rest),
        _ => Ok(()),
    }
}

/// Adds a line to a schedule.
fn add(schedule: &mut String, line: &str) -> Result<(), AllocError> {
    schedule.push_str(line)?;
    schedule.push_str("\n")
}

/// Begins the world of a schedule, and prints what its text gives beside.
fn begin(rt: &impl Print, alloc: Global, schedule: &str) -> io::Result<Option<PairWorld>> {
    match parse_pair(alloc, schedule.as_bytes()) {
        Ok((world, tick, order)) => {
            show_begun(rt, tick, order.bytes())?;
            Ok(Some(world))
        }
        Err(fault) => {
            println!(rt; "  {fault}")?;
            Ok(None)
        }
    }
}

/// What the lines so far led to.
#[derive(Drop)]
struct State {
    schedule: String,
    current: Option<PairWorld>,
}

/// Begins the world of the schedule so far, in place of the one before.
fn renew(rt: &impl Print, alloc: Global, state: &mut State) -> io::Result<()> {
    let current = begin(rt, alloc, state.schedule.as_str())?;
    *state = State {
        schedule: String::new(alloc),
        current,
    };
    Ok(())
}

/// Prints a line, and does what it asks for.
fn step(rt: &impl Print, alloc: Global, state: &mut State, line: &str) -> io::Result<()> {
    println!(rt; "{line}")?;
    let (word, rest) = line.split_once(' ').unwrap_or((line, ""));
    match word {
        "schedule" => match add(&mut state.schedule, rest) {
            Ok(()) => Ok(()),
            Err(_) => println!(rt; "  out of memory"),
        },
        "pair" => renew(rt, alloc, state),
        _ => at_world(rt, alloc, &mut state.current, word, rest),
    }
}

/// Makes the step of each line of standard input.
fn step_all(rt: &HostRuntime, state: &mut State) -> io::Result<()> {
    for line in rt.lines(rt.alloc()) {
        let line = line?;
        step(rt, rt.alloc(), state, line.as_str())?;
    }
    Ok(())
}

fn main(rt: HostRuntime) -> io::Result<()> {
    let mut state = State {
        schedule: String::new(rt.alloc()),
        current: None,
    };
    step_all(&rt, &mut state)
}
