//! Sessions.

use crate::case::{Case, datagrams};
use crate::show::show_calls;
use nfs_client::run;
use outside::{Link, MemDatagrams, MemSink, MemSource, TickClock};
use port_words::udp_words;
use run_ports::run_found;
use std::alloc::Global;
use std::io;
use udp_link::UdpLink;
use world_link::{ScheduleFault, parse_schedule};
use xdr_codec::Memory;

/// What a session reads and writes.
#[derive(Drop)]
struct Streams {
    source: MemSource,
    sink: MemSink,
    clock: TickClock,
}

fn streams_of(alloc: Global, case: &Case) -> Result<Streams, Memory> {
    Ok(Streams {
        source: MemSource::new(alloc, case.script.as_slice(), &[])?,
        sink: MemSink::new(alloc, case.writes.as_slice())?,
        clock: TickClock::new(0),
    })
}

/// What a session came to.
#[derive(Drop)]
struct Ran {
    status: u8,
    sink: MemSink,
    /// The datagrams whose calls are printed.
    asked: MemDatagrams,
}

/// Runs the session by a port mapper over the simulated server, and prints what was asked of the port mapper.
pub fn run_over_world(rt: &impl Print, alloc: Global, case: &Case) -> io::Result<()> {
    match parse_schedule(alloc, case.schedule.as_slice()) {
        Ok((mut world, _)) => show_ran(rt, run_found_over(alloc, case, &mut world)),
        Err(ScheduleFault::Line(line)) => println!(rt; "  schedule {line}"),
        Err(ScheduleFault::Memory) => println!(rt; "  out of memory"),
    }
}

/// Runs the session by a port mapper over datagrams, and prints what was asked of the server.
pub fn run_by_portmap(rt: &impl Print, alloc: Global, case: &Case) -> io::Result<()> {
    show_ran(rt, run_found_by_datagrams(alloc, case))
}

/// Runs a session over datagrams, and prints what was asked of the server.
pub fn run_over_datagrams(rt: &impl Print, alloc: Global, case: &Case) -> io::Result<()> {
    show_ran(rt, run_by_datagrams(alloc, case))
}

/// Runs the session by a port mapper, and gives the datagrams of the port mapper.
fn run_found_over<L: Link>(alloc: Global, case: &Case, link: &mut L) -> Result<Ran, Memory> {
    let over = datagrams(alloc, case.told.as_slice(), case.fails.as_slice())?;
    let mut finder = UdpLink::new(over);
    let mut streams = streams_of(alloc, case)?;
    let status = run_found(
        alloc,
        case.words.as_slice(),
        &mut streams.source,
        &mut finder,
        link,
        &mut streams.clock,
        &mut streams.sink,
    );
    Ok(Ran {
        status,
        sink: streams.sink,
        asked: finder.into_datagrams(),
    })
}

/// Runs the session by a port mapper over datagrams, and gives those of the server.
fn run_found_by_datagrams(alloc: Global, case: &Case) -> Result<Ran, Memory> {
    let over = datagrams(alloc, case.arrivals.as_slice(), &[])?;
    let mut link = UdpLink::new(over);
    let ran = run_found_over(alloc, case, &mut link)?;
    Ok(Ran {
        status: ran.status,
        sink: ran.sink,
        asked: link.into_datagrams(),
    })
}

/// Runs a session over datagrams, and gives them.
fn run_by_datagrams(alloc: Global, case: &Case) -> Result<Ran, Memory> {
    let words = udp_words(alloc, case.words.as_slice())?;
    let over = datagrams(alloc, case.arrivals.as_slice(), case.fails.as_slice())?;
    let mut link = UdpLink::new(over);
    let mut streams = streams_of(alloc, case)?;
    let status = run(
        alloc,
        words.as_slice(),
        &mut streams.source,
        &mut link,
        &mut streams.clock,
        &mut streams.sink,
    );
    Ok(Ran {
        status,
        sink: streams.sink,
        asked: link.into_datagrams(),
    })
}

/// Prints the status of a session, what it wrote and what was asked, unless memory ran out.
fn show_ran(rt: &impl Print, ran: Result<Ran, Memory>) -> io::Result<()> {
    match ran {
        Ok(ran) => {
            show_end(rt, ran.status, &ran.sink)?;
            show_calls(rt, &ran.asked)
        }
        Err(_) => println!(rt; "  out of memory"),
    }
}

/// Prints the status and what was written.
fn show_end(rt: &impl Print, status: u8, sink: &MemSink) -> io::Result<()> {
    println!(rt; "  status {status}")?;
    match std::str::from_utf8(sink.bytes()) {
        Ok(text) => {
            for line in text.lines() {
                println!(rt; "  {line}")?;
            }
            Ok(())
        }
        Err(_) => println!(rt; "  no text"),
    }
}
