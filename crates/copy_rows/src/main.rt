//! Copies trees in memory to a simulated server, and from one to a target in memory. The lines of standard input describe both sides. Each line is printed, and
//! what comes of it:
//!
//! - `words WORDS` are the words of the command line, and `schedule LINE` is a line of the schedule.
//! - `folder PATH`, `file PATH`, `link PATH TARGET`, `other PATH` and `unread PATH N` are what the tree gives, one after another, each path from its root on.
//! - behind a file `bytes HEX` are its next bytes, `end` is its end, and `cut N` and `changed` are that not all of it comes.
//! - `to PATH` and `from PATH` are the path on the server.
//! - `refuse N WHY`: the target refuses the N-th call that gives it something, as `refused`, `unnamed`, `missing`, `kind` or `other`.
//! - `has PATH SIZE`: a file of that size stands at the target, and `sizes`: files of the same size are passed over.
//! - `< LINE` is a line of the script that is run before, and `> LINE` one of that which looks at the server afterwards. Each has a session of its own.
//! - `copy` copies to the server, and prints the status, what was told, and the answers to the script afterwards.
//! - `fetch` copies from it, and prints the status, what was told, and what the target took.
//!
//! What comes after `copy` or `fetch` begins anew. A line that is empty or begins with `#` is only printed, and any other one is at fault.
#![tactic(auto)]

mod case;
mod taken;

use crate::case::{Case, empty, takes};
use crate::taken::show_taken;
use copy_scripts::Progress;
use copy_targets::MemTarget;
use outside::{MemSink, MemSource, TickClock};
use std::alloc::Global;
use std::io;
use world_link::{World, parse_schedule};

/// Which way a case goes.
#[derive(Clone, Copy)]
enum Way {
    /// To the server.
    Up,
    /// From it.
    Down,
}

/// Copies, and prints what comes of it. The case gives up its tree, its path and its target.
fn run(rt: &impl Print, alloc: Global, case: &mut Case, way: Way) -> io::Result<()> {
    match parse_schedule(alloc, case.schedule.as_slice()) {
        Ok((mut world, tick)) => run_over(rt, alloc, case, way, &mut world, tick),
        Err(fault) => println!(rt; "  {fault}"),
    }
}

/// Runs the script before, if there is one, and copies.
fn run_over(
    rt: &impl Print,
    alloc: Global,
    case: &mut Case,
    way: Way,
    world: &mut World,
    tick: u64,
) -> io::Result<()> {
    let mut clock = TickClock::new(tick);
    if !case.before.is_empty() {
        let words = case.words.as_slice();
        look(rt, alloc, words, case.before.as_slice(), world, &mut clock)?;
    }
    match way {
        Way::Up => copy_to(rt, alloc, case, world, &mut clock, tick),
        Way::Down => copy_from(rt, alloc, case, world, &mut clock, tick),
    }
}

/// Copies to that server, and looks at it afterwards.
fn copy_to(
    rt: &impl Print,
    alloc: Global,
    case: &mut Case,
    world: &mut World,
    clock: &mut TickClock,
    tick: u64,
) -> io::Result<()> {
    let Ok(mut told) = MemSink::new(alloc, &[]) else {
        return println!(rt; "  out of memory");
    };
    let status = copy_tree(alloc, case, world, clock, tick, &mut told);
    show_end(rt, status, told.bytes())?;
    let words = case.words.as_slice();
    look(rt, alloc, words, case.script.as_slice(), world, clock)
}

/// Copies the tree to that server, and gives the status.
fn copy_tree(
    alloc: Global,
    case: &mut Case,
    world: &mut World,
    clock: &mut TickClock,
    tick: u64,
    told: &mut MemSink,
) -> u8 {
    let tree = case.take_tree(alloc);
    let place = case.take_place(alloc);
    let mut watch = TickClock::new(tick);
    let (status, _) = nfs_copy::run(
        alloc,
        case.words.as_slice(),
        tree,
        place,
        Progress::Hidden,
        world,
        clock,
        told,
        &mut watch,
    );
    status
}

/// Copies from that server, and prints what the target took.
fn copy_from(
    rt: &impl Print,
    alloc: Global,
    case: &mut Case,
    world: &mut World,
    clock: &mut TickClock,
    tick: u64,
) -> io::Result<()> {
    let Ok(mut told) = MemSink::new(alloc, &[]) else {
        return println!(rt; "  out of memory");
    };
    let (status, target) = fetch_tree(alloc, case, world, clock, tick, &mut told);
    show_end(rt, status, told.bytes())?;
    show_taken(rt, target.took())
}

/// Copies from that server, and gives the status and the target.
fn fetch_tree(
    alloc: Global,
    case: &mut Case,
    world: &mut World,
    clock: &mut TickClock,
    tick: u64,
    told: &mut MemSink,
) -> (u8, MemTarget) {
    let place = case.take_place(alloc);
    let target = case.take_target(alloc);
    let mut watch = TickClock::new(tick);
    nfs_fetch::run(
        alloc,
        case.words.as_slice(),
        place,
        case.skips,
        target,
        Progress::Hidden,
        world,
        clock,
        told,
        &mut watch,
    )
}

/// Prints the status, and what was told.
fn show_end(rt: &impl Print, status: u8, told: &[u8]) -> io::Result<()> {
    println!(rt; "  status {status}")?;
    show(rt, told)
}

/// Runs a script in a session of its own, and prints its answers.
fn look(
    rt: &impl Print,
    alloc: Global,
    words: &[String],
    script: &[u8],
    world: &mut World,
    clock: &mut TickClock,
) -> io::Result<()> {
    let (Ok(mut source), Ok(mut answers)) = (
        MemSource::new(alloc, script, &[]),
        MemSink::new(alloc, &[]),
    ) else {
        return println!(rt; "  out of memory");
    };
    script_runs::run(alloc, words, &mut source, world, clock, &mut answers);
    show(rt, answers.bytes())
}

fn show(rt: &impl Print, bytes: &[u8]) -> io::Result<()> {
    match std::str::from_utf8(bytes) {
        Ok(text) => show_lines(rt, text),
        Err(_) => println!(rt; "  no text"),
    }
}

fn show_lines(rt: &impl Print, text: &str) -> io::Result<()> {
    for line in text.lines() {
        println!(rt; "  {line}")?;
    }
    Ok(())
}

/// Which way a copy goes, if the word asks for one.
fn way_of(word: &str) -> Option<Way> {
    match word {
        "copy" => Some(Way::Up),
        "fetch" => Some(Way::Down),
        _ => None,
    }
}

/// Whether a line is only printed.
fn is_silent(line: &str) -> bool {
    line.is_empty() || line.starts_with('#')
}

/// Takes what a line adds to the description, or copies as it asks for.
fn step(rt: &impl Print, alloc: Global, case: &mut Case, line: &str) -> io::Result<()> {
    let (word, rest) = line.split_once(' ').unwrap_or((line, ""));
    if let Some(way) = way_of(word) {
        let ran = run(rt, alloc, case, way);
        *case = empty(alloc);
        return ran;
    }
    match takes(alloc, case, word, rest) {
        Ok(true) => Ok(()),
        Ok(false) => println!(rt; "  at fault"),
        Err(_) => println!(rt; "  out of memory"),
    }
}

/// Prints each line of standard input, and makes its step.
fn step_all(rt: &HostRuntime, case: &mut Case) -> io::Result<()> {
    let alloc = rt.alloc();
    for line in rt.lines(alloc) {
        let line = line?;
        println!(rt; "{}", line.as_str())?;
        if !is_silent(line.as_str()) {
            step(rt, alloc, case, line.as_str())?;
        }
    }
    Ok(())
}

fn main(rt: HostRuntime) -> io::Result<()> {
    let mut case = empty(rt.alloc());
    step_all(&rt, &mut case)
}
