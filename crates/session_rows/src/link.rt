//! Links, call by call.

use crate::case::Case;
use crate::narrow::Narrow;
use crate::text::{number_of, record_of};
use export_fs::Export;
use nfs_file_calls::{FileCall, FileKept};
use nfs_types::Handle;
use outside::{Link, LinkFault, MemWire, Received, WireEntry};
use rpc_record::StreamLink;
use std::alloc::Global;
use std::{io, mem};
use world_link::{World, parse_schedule};
use world_model::{Call, Mark, Reply};
use xdr_codec::Memory;

/// The link that is called.
#[derive(Drop)]
pub enum Current {
    /// There is none.
    None,
    /// To a simulated server.
    World(World),
    /// Over a wire in memory.
    Stream(StreamLink<MemWire>),
    /// Over a wire that takes a part of what is written.
    Narrow(StreamLink<Narrow>),
}

/// Makes the link that the lines describe; none if they describe none.
pub fn make_link(alloc: Global, case: &Case, word: &str, rest: &str) -> Current {
    match word {
        "world" => match parse_schedule(alloc, case.schedule.as_slice()) {
            Ok((world, _)) => Current::World(world),
            Err(_) => Current::None,
        },
        "stream" => match wire(alloc, case) {
            Ok(wire) => Current::Stream(StreamLink::new(alloc, wire)),
            Err(_) => Current::None,
        },
        _ => Current::Narrow(StreamLink::new(alloc, narrow(rest))),
    }
}

/// The wire that hands out the pieces, and whose calls fail as described.
pub fn wire(alloc: Global, case: &Case) -> Result<MemWire, Memory> {
    let mut wire = MemWire::new(alloc, case.fails.as_slice())?;
    for piece in case.records.as_slice() {
        if !piece.is_empty() {
            wire.piece(piece.as_slice())?;
        }
    }
    Ok(wire)
}

/// The wire whose write of a number fails, by lack of memory if the word after it says so.
fn narrow(rest: &str) -> Narrow {
    let (number, word) = rest.split_once(' ').unwrap_or((rest, ""));
    let fault = if word == "memory" {
        LinkFault::Memory
    } else {
        LinkFault::Failed
    };
    Narrow::new(number_of(number), fault)
}

/// Does what a line asks of the link.
pub fn at_link(
    rt: &impl Print,
    alloc: Global,
    current: &mut Current,
    word: &str,
    rest: &str,
) -> io::Result<()> {
    if word == "left" || word == "wrote" {
        return show_end(rt, alloc, mem::replace(current, Current::None));
    }
    match current {
        Current::None => Ok(()),
        Current::World(world) => call(rt, alloc, world, word, rest),
        Current::Stream(link) => call(rt, alloc, link, word, rest),
        Current::Narrow(link) => call(rt, alloc, link, word, rest),
    }
}

/// Makes a call of a link, and prints what it answers.
fn call<L: Link>(
    rt: &impl Print,
    alloc: Global,
    link: &mut L,
    word: &str,
    rest: &str,
) -> io::Result<()> {
    match word {
        "dial" => show_answer(rt, link.dial(port_of(rest))),
        "send" => match record_of(alloc, rest) {
            Ok(record) => show_answer(rt, link.send(&record)),
            Err(_) => println!(rt; "  out of memory"),
        },
        "note" => match link.note(Mark::Clock { ms: 4 }) {
            Ok(()) => println!(rt; "  ok"),
            Err(_) => println!(rt; "  memory"),
        },
        "receive" => receive(rt, alloc, link, rest),
        _ => Ok(()),
    }
}

/// The number of a port; 0 if it is none.
fn port_of(text: &str) -> u16 {
    text.parse::<u16>().unwrap_or(0)
}

fn show_answer(rt: &impl Print, answer: Result<(), LinkFault>) -> io::Result<()> {
    match answer {
        Ok(()) => println!(rt; "  ok"),
        Err(LinkFault::Failed) => println!(rt; "  failed"),
        Err(LinkFault::Memory) => println!(rt; "  memory"),
    }
}

/// Receives a record, and prints so many of its bytes; without a number all of them.
fn receive<L: Link>(rt: &impl Print, alloc: Global, link: &mut L, most: &str) -> io::Result<()> {
    let mut record = Vec::new(alloc);
    match link.receive(15_000, &mut record) {
        Received::Whole if most.is_empty() => show_bytes(rt, record.as_slice()),
        Received::Whole => {
            let count = (number_of(most) as usize).min(record.len());
            let (front, _) = record.as_slice().split_at(count);
            show_bytes(rt, front)
        }
        Received::Silent => println!(rt; "  silent"),
        Received::Failed => println!(rt; "  failed"),
        Received::Memory => println!(rt; "  memory"),
    }
}

/// Prints bytes in words of four; of more than 1,024 how many there are.
pub fn show_bytes(rt: &impl Print, bytes: &[u8]) -> io::Result<()> {
    if bytes.is_empty() {
        return println!(rt; "  no bytes");
    }
    if bytes.len() > 1_024 {
        return println!(rt; "  {} bytes", bytes.len());
    }
    print!(rt; " ")?;
    for (at, byte) in bytes.iter().enumerate() {
        if at % 4 == 0 {
            print!(rt; " ")?;
        }
        print!(rt; "{byte:02x}")?;
    }
    println!(rt; "")
}

/// Prints what a link leaves: the bytes of the server's first object, or what was written to the wire.
fn show_end(rt: &impl Print, alloc: Global, current: Current) -> io::Result<()> {
    match current {
        Current::None => Ok(()),
        Current::World(world) => show_left(rt, &mut world.into_export()),
        Current::Stream(link) => show_writes(rt, link.into_wire().entries()),
        Current::Narrow(link) => println!(rt; "  {} writes", link.into_wire().writes()),
    }
}

/// Prints what was written to a wire.
fn show_writes(rt: &impl Print, entries: &[WireEntry]) -> io::Result<()> {
    for entry in entries {
        if let WireEntry::Wrote { bytes } = entry {
            show_bytes(rt, bytes.bytes())?;
        }
    }
    Ok(())
}

/// Prints the bytes of the file handle 2, and those after a restart.
fn show_left(rt: &impl Print, export: &mut Export) -> io::Result<()> {
    show_file(rt, export)?;
    if !export.reboot() {
        println!(rt; "  no restart")?;
    }
    show_file(rt, export)
}

fn show_file(rt: &impl Print, export: &mut Export) -> io::Result<()> {
    let Some(file) = Handle::make(&[0, 0, 0, 0, 0, 0, 0, 2]) else {
        return Ok(());
    };
    let call = Call::File(FileCall::Read {
        file,
        offset: 0,
        count: 99,
    });
    let came = export.execute(&call);
    // Dropped by a call, since the prover takes a drop in place apart, field by field.
    drop(call);
    match came {
        Ok(reply) => show_reply(rt, reply),
        Err(_) => println!(rt; "  out of memory"),
    }
}

fn show_reply(rt: &impl Print, reply: Reply) -> io::Result<()> {
    match reply {
        Reply::File(FileKept::Read { bytes, .. }) => show_bytes(rt, bytes.bytes()),
        other => {
            drop(other);
            println!(rt; "  refused")
        }
    }
}
