//! Sessions, scripts and schedules.

use crate::case::Case;
use crate::clock::GivenClock;
use crate::link::{show_bytes, wire};
use nfs_script::{ParseFault, parse};
use outside::{Clock, HostileLink, Link, MemSink, MemSource, TickClock, WireEntry};
use rpc_record::StreamLink;
use script_runs::run;
use std::alloc::Global;
use std::io;
use world_link::{ScheduleFault, World, parse_schedule};
use xdr_codec::Memory;

/// Prints how many operations the script asks for, or the line and kind of its fault.
pub fn show_parsed(rt: &impl Print, alloc: Global, case: &Case) -> io::Result<()> {
    match parse(alloc, case.script.as_slice()) {
        Ok(script) => println!(rt; "  operations {}", script.count()),
        Err(ParseFault::Script(fault)) => println!(rt; "  line {} kind {}", fault.line, fault.kind),
        Err(ParseFault::Memory) => println!(rt; "  out of memory"),
    }
}

/// Prints the tick of the schedule, or the line of its fault.
pub fn show_planned(rt: &impl Print, alloc: Global, case: &Case) -> io::Result<()> {
    match parse_schedule(alloc, case.schedule.as_slice()) {
        Ok((_, tick)) => println!(rt; "  tick {tick}"),
        Err(fault) => show_fault(rt, fault),
    }
}

fn show_fault(rt: &impl Print, fault: ScheduleFault) -> io::Result<()> {
    match fault {
        ScheduleFault::Line(line) => println!(rt; "  schedule {line}"),
        ScheduleFault::Memory => println!(rt; "  out of memory"),
    }
}

/// Runs the session over the simulated server, by the clock's readings if some are given, and prints its status and what
/// it wrote.
pub fn run_over_world(rt: &impl Print, alloc: Global, case: &Case) -> io::Result<()> {
    match parse_schedule(alloc, case.schedule.as_slice()) {
        Ok((mut world, tick)) => {
            let ran = run_by_clock(rt, alloc, case, &mut world, tick);
            // Dropped by a call, since the prover takes a drop in place apart, field by field.
            drop(world);
            ran
        }
        Err(fault) => show_fault(rt, fault),
    }
}

/// Runs the session over that server, by the clock's readings or by the tick.
fn run_by_clock(
    rt: &impl Print,
    alloc: Global,
    case: &Case,
    world: &mut World,
    tick: u64,
) -> io::Result<()> {
    if case.clock.is_empty() {
        return run_over(rt, alloc, case, world, &mut TickClock::new(tick));
    }
    run_over(
        rt,
        alloc,
        case,
        world,
        &mut GivenClock::new(case.clock.as_slice()),
    )
}

/// Runs the session over a link that hands out the records, whatever is sent.
pub fn run_over_hostile(rt: &impl Print, alloc: Global, case: &Case) -> io::Result<()> {
    match hostile(alloc, case) {
        Ok(mut link) => run_over(rt, alloc, case, &mut link, &mut TickClock::new(0)),
        Err(_) => println!(rt; "  out of memory"),
    }
}

/// Runs the session over a stream that hands out the pieces, and prints what was written in the write of that number, counted
/// from 1.
pub fn run_over_stream(rt: &impl Print, alloc: Global, case: &Case, number: u32) -> io::Result<()> {
    let Ok(wire) = wire(alloc, case) else {
        return println!(rt; "  out of memory");
    };
    let mut link = StreamLink::new(alloc, wire);
    let ran = run_over(rt, alloc, case, &mut link, &mut TickClock::new(0));
    let wire = link.into_wire();
    ran?;
    show_write(rt, wire.entries(), number)
}

/// Prints what was written in the write of that number, counted from 1.
fn show_write(rt: &impl Print, entries: &[WireEntry], number: u32) -> io::Result<()> {
    let mut writes = 0_u32;
    for entry in entries {
        if let WireEntry::Wrote { bytes } = entry {
            writes = writes.saturating_add(1);
            if writes == number {
                show_bytes(rt, bytes.bytes())?;
            }
        }
    }
    Ok(())
}

fn hostile(alloc: Global, case: &Case) -> Result<HostileLink, Memory> {
    let mut link = HostileLink::new(alloc);
    for record in case.records.as_slice() {
        link.reply(record.as_slice())?;
    }
    Ok(link)
}

fn run_over<L: Link, C: Clock>(
    rt: &impl Print,
    alloc: Global,
    case: &Case,
    link: &mut L,
    clock: &mut C,
) -> io::Result<()> {
    match ends_of(alloc, case) {
        Ok(mut ends) => run_between(rt, alloc, case, link, clock, &mut ends),
        Err(_) => println!(rt; "  out of memory"),
    }
}

/// Where a session reads its script, and where it writes.
#[derive(Drop)]
struct Ends {
    source: MemSource,
    sink: MemSink,
}

fn ends_of(alloc: Global, case: &Case) -> Result<Ends, Memory> {
    let source = MemSource::new(alloc, case.script.as_slice(), case.reads.as_slice())?;
    let sink = MemSink::new(alloc, case.writes.as_slice())?;
    Ok(Ends { source, sink })
}

fn run_between<L: Link, C: Clock>(
    rt: &impl Print,
    alloc: Global,
    case: &Case,
    link: &mut L,
    clock: &mut C,
    ends: &mut Ends,
) -> io::Result<()> {
    let words = case.words.as_slice();
    let status = run(alloc, words, &mut ends.source, link, clock, &mut ends.sink);
    println!(rt; "  status {status}")?;
    match std::str::from_utf8(ends.sink.bytes()) {
        Ok(text) => show_lines(rt, text),
        Err(_) => println!(rt; "  no text"),
    }
}

fn show_lines(rt: &impl Print, text: &str) -> io::Result<()> {
    for line in text.lines() {
        println!(rt; "  {line}")?;
    }
    Ok(())
}
