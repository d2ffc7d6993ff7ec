//! A session over a server and a store.

use crate::case::Case;
use crate::ground::Ground;
use kept_runs::{run_kept, run_labelled};
use outside::{MemSink, MemSource, TickClock};
use std::alloc::Global;
use std::io;

/// The most bytes of a label.
const LABEL: usize = 4096;

/// What a session came to.
#[derive(Drop)]
pub struct Ran {
    status: u8,
    sink: MemSink,
}

/// Runs a session, and prints its status and the lines that it wrote.
pub fn show_run(
    rt: &impl Print,
    alloc: Global,
    case: &Case,
    ground: &mut Ground,
) -> io::Result<()> {
    show_ran(rt, &run(alloc, case, ground))
}

/// Runs a session. None if memory runs out before it begins.
pub fn run(alloc: Global, case: &Case, ground: &mut Ground) -> Option<Ran> {
    let mut source = MemSource::new(alloc, case.script.as_slice(), &[]).ok()?;
    let mut sink = MemSink::new(alloc, &[]).ok()?;
    let status = run_case(alloc, case, ground, &mut source, &mut sink);
    Some(Ran { status, sink })
}

/// Prints the status of a session and the lines that it wrote, if it was run.
pub fn show_ran(rt: &impl Print, ran: &Option<Ran>) -> io::Result<()> {
    match ran {
        Some(ran) => show_end(rt, ran.status, ran.sink.bytes()),
        None => println!(rt; "  out of memory"),
    }
}

fn show_end(rt: &impl Print, status: u8, bytes: &[u8]) -> io::Result<()> {
    println!(rt; "  status {status}")?;
    match std::str::from_utf8(bytes) {
        Ok(text) => show_lines(rt, text),
        Err(_) => println!(rt; "  no text"),
    }
}

/// Runs a session, with a label of its own if it has one.
fn run_case(
    alloc: Global,
    case: &Case,
    ground: &mut Ground,
    source: &mut MemSource,
    sink: &mut MemSink,
) -> u8 {
    let words = case.words.as_slice();
    let label = case.label.as_slice();
    let mut clock = TickClock::new(ground.tick);
    if label.is_empty() || label.len() > LABEL {
        return run_kept(
            alloc,
            words,
            source,
            &mut ground.world,
            &mut clock,
            sink,
            &mut ground.store,
        );
    }
    run_labelled(
        alloc,
        words,
        label,
        source,
        &mut ground.world,
        &mut clock,
        sink,
        &mut ground.store,
    )
}

fn show_lines(rt: &impl Print, text: &str) -> io::Result<()> {
    for line in text.lines() {
        println!(rt; "  {line}")?;
    }
    Ok(())
}
