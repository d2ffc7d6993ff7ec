//! Records, and what a service answers.

use crate::digits::number_of;
use export_serve::{Service, asked};
use std::alloc::{AllocError, Global};
use std::io;

/// What stands after the xid in a call of NULL of NFS (RFC 5531, section 9, and RFC 1813, section 3.3.0).
const NULL: [u8; 36] =
    *b"\0\0\0\0\0\0\0\x02\0\x01\x86\xa3\0\0\0\x03\0\0\0\0\0\0\0\0\0\0\0\0\0\0\0\0\0\0\0\0";

/// What stands after the xid in the reply to it.
const ACCEPTED: [u8; 20] = *b"\0\0\0\x01\0\0\0\0\0\0\0\0\0\0\0\0\0\0\0\0";

/// Prints what a record asks for.
pub fn print_asked(rt: &impl Print, alloc: Global, record: &[u8]) -> io::Result<()> {
    match asked(alloc, record) {
        Ok(asked) => println!(rt; "  {asked:?}"),
        Err(_) => println!(rt; "  out of memory"),
    }
}

/// Prints the record of the answer to a record, in words of four bytes.
pub fn serve(rt: &impl Print, service: &mut Service, record: &[u8]) -> io::Result<()> {
    match service.serve(record) {
        Ok(Some(answer)) => print_words(rt, answer.bytes()),
        Ok(None) => println!(rt; "  no call"),
        Err(_) => println!(rt; "  out of memory"),
    }
}

fn print_words(rt: &impl Print, bytes: &[u8]) -> io::Result<()> {
    print!(rt; " ")?;
    for (at, byte) in bytes.iter().enumerate() {
        if at % 4 == 0 {
            print!(rt; " ")?;
        }
        print!(rt; "{byte:02x}")?;
    }
    println!(rt; "")
}

/// A record of that xid and the bytes after it.
fn record(alloc: Global, xid: u32, rest: &[u8]) -> Result<Vec<u8>, AllocError> {
    let mut record = Vec::from_slice(alloc, &xid.to_be_bytes())?;
    record.extend_from_slice(rest)?;
    Ok(record)
}

/// Serves calls of NULL, the first one's xid and how many, and prints how many of them were answered so.
pub fn serve_nulls(
    rt: &impl Print,
    alloc: Global,
    service: &mut Service,
    rest: &str,
) -> io::Result<()> {
    let Some((xid, count)) = rest.split_once(' ') else {
        return println!(rt; "  no count");
    };
    let mut answered = 0_u32;
    let first = number_of(xid);
    for step in 0..number_of(count) {
        if is_null_served(alloc, service, first.wrapping_add(step)) {
            answered = answered.wrapping_add(1);
        }
    }
    println!(rt; "  {answered} answered")
}

/// Serves a call of NULL; whether it is answered so.
fn is_null_served(alloc: Global, service: &mut Service, xid: u32) -> bool {
    let (Ok(call), Ok(reply)) = (record(alloc, xid, &NULL), record(alloc, xid, &ACCEPTED)) else {
        return false;
    };
    match service.serve(call.as_slice()) {
        Ok(Some(answer)) => answer.bytes() == reply.as_slice(),
        _ => false,
    }
}
