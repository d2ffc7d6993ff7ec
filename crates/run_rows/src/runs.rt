//! Runs: of batches, of two clients, and of scripts that are made.

ghost use Rattle.pair_runs.specs.Clients.{AreLetters};

use crate::case::Case;
use crate::show::show_end;
use crate::text::{size_of, words_of};
use outside::{MemSink, MemSource, TickClock};
use pair_runs::run_pair;
use run_made::run_made;
use std::alloc::Global;
use std::io;
use world_link::{PairWorld, World, parse_pair, parse_schedule};

/// Runs the input as batches, and prints what comes of it.
pub fn batches(rt: &impl Print, alloc: Global, case: &Case) -> io::Result<()> {
    match parse_schedule(alloc, case.schedule.as_slice()) {
        Ok((mut world, tick)) => batches_over(rt, alloc, case, &mut world, tick),
        Err(fault) => println!(rt; "  {fault}"),
    }
}

/// Runs the batches over that server.
fn batches_over(
    rt: &impl Print,
    alloc: Global,
    case: &Case,
    world: &mut World,
    tick: u64,
) -> io::Result<()> {
    let (Ok(mut source), Ok(mut sink)) = (
        MemSource::new(alloc, case.input.as_slice(), case.reads.as_slice()),
        MemSink::new(alloc, case.writes.as_slice()),
    ) else {
        return println!(rt; "  out of memory");
    };
    let mut clock = TickClock::new(tick);
    let words = case.words.as_slice();
    let status = batch_runs::run(alloc, words, &mut source, world, &mut clock, &mut sink);
    show_end(rt, status, sink.bytes())
}

/// Runs the scripts of two clients, and prints what comes of them.
pub fn pair(rt: &impl Print, alloc: Global, case: &Case) -> io::Result<()> {
    match parse_pair(alloc, case.schedule.as_slice()) {
        Ok((mut world, tick, order)) => pair_over(rt, alloc, case, &mut world, tick, order.bytes()),
        Err(fault) => println!(rt; "  {fault}"),
    }
}

/// Runs both scripts over that server, with turns in that order first.
fn pair_over(
    rt: &impl Print,
    alloc: Global,
    case: &Case,
    world: &mut PairWorld,
    tick: u64,
    order: &[u8],
) -> io::Result<()>
    requires { AreLetters order.now }
{
    let (Ok(mut a), Ok(mut b), Ok(mut sink)) = (
        MemSource::new(alloc, case.input.as_slice(), case.reads.as_slice()),
        MemSource::new(alloc, case.script_b.as_slice(), case.reads_b.as_slice()),
        MemSink::new(alloc, case.writes.as_slice()),
    ) else {
        return println!(rt; "  out of memory");
    };
    let mut clock = TickClock::new(tick);
    let status = run_pair(alloc, order, &mut a, &mut b, world, &mut clock, &mut sink);
    show_end(rt, status, sink.bytes())
}

/// Runs the script of the size that stands first with the words after it, and prints what comes of it.
pub fn make(rt: &impl Print, alloc: Global, case: &Case, rest: &str) -> io::Result<()> {
    match parse_schedule(alloc, case.schedule.as_slice()) {
        Ok((mut world, _)) => make_over(rt, alloc, case, rest, &mut world),
        Err(fault) => println!(rt; "  {fault}"),
    }
}

/// Runs that script over that server.
fn make_over(
    rt: &impl Print,
    alloc: Global,
    case: &Case,
    rest: &str,
    world: &mut World,
) -> io::Result<()> {
    let (size, _) = rest.split_once(' ').unwrap_or((rest, ""));
    let (Ok(words), Ok(mut sink)) = (
        words_of(alloc, rest),
        MemSink::new(alloc, case.writes.as_slice()),
    ) else {
        return println!(rt; "  out of memory");
    };
    let (words, size) = (words.as_slice(), size_of(size));
    let mut clock = TickClock::new(0);
    let status = run_made(alloc, size, words, world, &mut clock, &mut sink);
    show_end(rt, status, sink.bytes())
}
