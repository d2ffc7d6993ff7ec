//! Calls of GETPORT, and their replies.

use portmap_calls::{Mapping, answer, get_port_call, read_mapping, read_port};
use std::alloc::Global;
use std::io;
use xdr_codec::{Blob, Memory};

/// Prints the record of the call under an xid that asks for the mapping which arguments hold.
pub fn call(rt: &impl Print, alloc: Global, xid: u32, bytes: &[u8]) -> io::Result<()> {
    match read_mapping(bytes) {
        Ok(wanted) => record(rt, alloc, call_bytes(alloc, xid, &wanted)),
        Err(fault) => println!(rt; "{fault:?}"),
    }
}

/// The record of the call under an xid.
fn call_bytes(alloc: Global, xid: u32, wanted: &Mapping) -> Result<Blob, Memory> {
    get_port_call(alloc, xid, wanted)?.share(alloc)
}

/// Prints the port that results hold.
pub fn reply(rt: &impl Print, bytes: &[u8]) -> io::Result<()> {
    match read_port(bytes) {
        Ok(port) => println!(rt; "{port}"),
        Err(fault) => println!(rt; "{fault:?}"),
    }
}

/// Prints what the port mapper of a server on this port answers a record with.
pub fn answered(rt: &impl Print, alloc: Global, port: u32, bytes: &[u8]) -> io::Result<()> {
    match answer(alloc, bytes, u16::try_from(port).unwrap_or(0)) {
        Ok(Some(reply)) => record(rt, alloc, Ok(reply)),
        Ok(None) => println!(rt; "none"),
        Err(_memory) => println!(rt; "memory"),
    }
}

/// Prints a record in hex.
fn record(rt: &impl Print, alloc: Global, made: Result<Blob, Memory>) -> io::Result<()> {
    let Ok(made) = made else {
        return println!(rt; "memory");
    };
    match hex::encode(alloc, made.bytes()) {
        Ok(digits) => println!(rt; "{digits}"),
        Err(_memory) => println!(rt; "memory"),
    }
}
