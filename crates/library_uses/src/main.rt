//! Small uses of the libraries, each with a contract of its own: the callers that CALLING.md of each library shows. The
//! program makes each once, and prints what came of it.
#![tactic(auto)]

mod dirty;
mod entries;
mod pages;
mod records;
mod replies;
mod worlds;

use crate::dirty::write_if_room;
use crate::entries::{read_entry, write_entry};
use crate::pages::keep_first;
use crate::records::exchange;
use crate::replies::answered;
use crate::worlds::dialed;
use nfs_types::{Handle, Stamp, Time};
use outside::{MemWire, Received};
use page_cache::PageCache;
use rpc_message::Cred;
use rpc_record::StreamLink;
use rpc_retry::Calls;
use std::alloc::Global;
use std::io;
use world_link::ScheduleFault;
use write_back::WriteBack;
use xdr_codec::{Blob, Memory, Reader, Record, Writer};

/// An entry that is written and read again.
fn show_entry(rt: &impl Print, alloc: Global) -> io::Result<()> {
    let mut text = Writer::new(alloc);
    if write_entry(&mut text, 7, b"notes").is_err() {
        return println!(rt; "out of memory");
    }
    let bytes = text.finish();
    let mut reader = Reader::new(bytes.bytes());
    match read_entry(&mut reader) {
        Ok((id, name)) => println!(rt; "entry {id} with {} bytes of name", name.len()),
        Err(_) => println!(rt; "no entry"),
    }
}

/// A record that answers no call.
fn show_answered(rt: &impl Print, alloc: Global) -> io::Result<()> {
    let mut calls = Calls::new(alloc, 1, 100, Cred::None);
    match answered(&mut calls, &[0, 0, 0, 1]) {
        Some(purpose) => println!(rt; "answers {purpose}"),
        None => println!(rt; "answers no call"),
    }
}

/// The stamp of a file of so many bytes.
fn stamp(size: u64) -> Stamp {
    let time = Time {
        seconds: 1,
        nanos: 0,
    };
    Stamp {
        size,
        mtime: time,
        ctime: time,
    }
}

/// A page of a file that was opened.
fn show_kept(rt: &impl Print, alloc: Global, file: &Handle) -> io::Result<()> {
    let stamp = stamp(5);
    let Ok(mut pages) = PageCache::new(alloc) else {
        return println!(rt; "out of memory");
    };
    if pages.opened(file, &stamp, 1).is_err() {
        return println!(rt; "out of memory");
    }
    let late = keep_first(&mut pages, file, &stamp, 2, b"hello");
    println!(rt; "kept {late}")
}

/// Bytes that are to be written.
fn greeting(alloc: Global) -> Result<Blob, Memory> {
    let mut bytes = Vec::new(alloc);
    bytes.extend_from_slice(b"hello")?;
    Blob::shared(alloc, bytes)
}

/// Bytes that have room.
fn show_dirty(rt: &impl Print, alloc: Global, file: &Handle) -> io::Result<()> {
    let mut back = WriteBack::new(alloc);
    let Ok(bytes) = greeting(alloc) else {
        return println!(rt; "out of memory");
    };
    let count = bytes.len();
    match write_if_room(&mut back, file, 0, &bytes, 1) {
        Ok(room) => println!(rt; "room {room} for {count} bytes"),
        Err(Memory) => println!(rt; "out of memory"),
    }
}

/// A wire that has one record of two bytes to be read, in one fragment.
fn wire_of_one(alloc: Global) -> Result<MemWire, Memory> {
    let mut wire = MemWire::new(alloc, &[])?;
    wire.piece(&[0x80, 0, 0, 2, 1, 2])?;
    Ok(wire)
}

/// A record that answers another.
fn show_exchange(rt: &impl Print, alloc: Global) -> io::Result<()> {
    let Ok(wire) = wire_of_one(alloc) else {
        return println!(rt; "out of memory");
    };
    let Ok(record) = Record::copy(alloc, &[7]) else {
        return println!(rt; "out of memory");
    };
    let mut link = StreamLink::new(alloc, wire);
    let mut reply = Vec::new(alloc);
    match exchange(&mut link, &record, &mut reply) {
        Received::Whole => println!(rt; "a record of {} bytes", reply.len()),
        _ => println!(rt; "no record"),
    }
}

/// The schedule whose second line is none.
fn show_dialed(rt: &impl Print, alloc: Global) -> io::Result<()> {
    match dialed(alloc, b"", 2049) {
        Ok(_) => println!(rt; "an empty world")?,
        Err(_) => println!(rt; "no world")?,
    }
    match dialed(alloc, b"tick 5\nwrong\n", 2049) {
        Ok(_) => println!(rt; "a world"),
        Err(ScheduleFault::Line(line)) => println!(rt; "line {line} is faulty"),
        Err(ScheduleFault::Memory) => println!(rt; "out of memory"),
    }
}

fn main(rt: HostRuntime) -> io::Result<()> {
    let alloc = rt.alloc();
    show_entry(&rt, alloc)?;
    show_answered(&rt, alloc)?;
    show_exchange(&rt, alloc)?;
    show_dialed(&rt, alloc)?;
    match Handle::make(b"file") {
        Some(file) => {
            show_kept(&rt, alloc, &file)?;
            show_dirty(&rt, alloc, &file)
        }
        None => println!(rt; "no handle"),
    }
}
