//! Runs sessions one after the other over one simulated server and one store of pages, whose disk is in memory. The lines of
//! standard input describe them. It prints each line and what comes of it:
//!
//! - `schedule LINE` is a line of the schedule; `begin` makes the server, and a store of an empty disk.
//! - `words WORDS`, `script LINE` and `label WORDS` describe a session; `run` runs it, and prints its status and the lines that
//!   were written.
//! - `pages` prints the pages of the store, and the words of its label.
//! - `stops FIRST LAST` runs the session over a new server and an empty store for each of these calls of the disk, counted
//!   from 1. That call fails; the disk crashes; it prints the pages that are found then, and what the session's next run comes to.
//!
//! A session is described anew after `run`. Any other line is only printed.
#![tactic(auto)]

mod case;
mod ground;
mod session;
mod stops;

use crate::case::{Case, empty, takes};
use crate::ground::{Ground, begin, show_store};
use std::alloc::Global;
use std::io;

/// What the lines so far led to.
#[derive(Drop)]
struct State {
    case: Case,
    ground: Option<Ground>,
}

/// Does what a line asks for.
fn row(
    rt: &impl Print,
    alloc: Global,
    state: &mut State,
    word: &str,
    rest: &str,
) -> io::Result<()> {
    match word {
        "begin" => renew(alloc, state),
        "stops" => stops::show(rt, alloc, &state.case, rest),
        "run" => run(rt, alloc, state),
        "pages" => pages(rt, alloc, &state.ground),
        _ => match takes(alloc, &mut state.case, word, rest) {
            Ok(()) => Ok(()),
            Err(_) => println!(rt; "  out of memory"),
        },
    }
}

/// Begins with a new server and an empty store.
fn renew(alloc: Global, state: &mut State) -> io::Result<()> {
    state.ground = begin(alloc, state.case.schedule.as_slice(), &[]);
    Ok(())
}

/// Runs a session over the server and the store. The next one is described anew.
fn run(rt: &impl Print, alloc: Global, state: &mut State) -> io::Result<()> {
    let Some(ground) = &mut state.ground else {
        return println!(rt; "  no store");
    };
    session::show_run(rt, alloc, &state.case, ground)?;
    state.case.words = Vec::new(alloc);
    state.case.script = Vec::new(alloc);
    state.case.label = Vec::new(alloc);
    Ok(())
}

/// Prints the pages of the store.
fn pages(rt: &impl Print, alloc: Global, ground: &Option<Ground>) -> io::Result<()> {
    match ground {
        Some(ground) => show_store(rt, alloc, &ground.store),
        None => println!(rt; "  no store"),
    }
}

/// Prints each line of standard input, and does what it asks for.
fn rows(rt: &HostRuntime, state: &mut State) -> io::Result<()> {
    let alloc = rt.alloc();
    for line in rt.lines(alloc) {
        let line = line?;
        println!(rt; "{}", line.as_str())?;
        let (word, rest) = line.as_str().split_once(' ').unwrap_or((line.as_str(), ""));
        row(rt, alloc, state, word, rest)?;
    }
    Ok(())
}

fn main(rt: HostRuntime) -> io::Result<()> {
    let mut state = State {
        case: empty(rt.alloc()),
        ground: None,
    };
    rows(&rt, &mut state)
}
