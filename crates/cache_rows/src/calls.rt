//! Calls that wait.

use crate::words::{numbers, show_bytes, small};
use rpc_message::Cred;
use rpc_retry::{Calls, Taken};
use std::alloc::Global;
use std::io;

/// The program of NFS (RFC 1813, section 2.1).
const NFS: u32 = 100_003;

/// No calls, with this first xid and limit; from 1 on and at most 100 if they are too large.
pub fn fresh(alloc: Global, first: u32, limit: u32) -> Calls<u32> {
    if first >= 1 && limit <= u32::MAX - first {
        Calls::new(alloc, first, limit, Cred::None)
    } else {
        Calls::new(alloc, 1, 100, Cred::None)
    }
}

/// Does a call.
pub fn row(
    rt: &impl Print,
    alloc: Global,
    calls: &mut Calls<u32>,
    word: &str,
    rest: &str,
) -> io::Result<()> {
    let [a, b, ..] = numbers(rest);
    match word {
        "new" => renew(alloc, calls, small(a), small(b)),
        "put" => put(rt, alloc, calls, rest),
        "many" => put_many(rt, calls, a),
        "check" => println!(rt; "= {:?}", calls.check()),
        "send" => send(rt, alloc, calls),
        "take" => take(rt, alloc, calls, rest),
        "failed" => println!(rt; "= {:?}", calls.failed()),
        "counts" => counts(rt, calls),
        _ => println!(rt; "= no such call"),
    }
}

fn renew(alloc: Global, calls: &mut Calls<u32>, first: u32, limit: u32) -> io::Result<()> {
    *calls = fresh(alloc, first, limit);
    Ok(())
}

/// Makes a call for the purpose of its procedure's number.
fn put(rt: &impl Print, alloc: Global, calls: &mut Calls<u32>, rest: &str) -> io::Result<()> {
    let (number, digits) = rest.split_once(' ').unwrap_or((rest, ""));
    let proc = number.parse::<u32>().unwrap_or(0);
    match hex::decode(alloc, digits) {
        Ok(args) => println!(rt; "= {:?}", calls.put(NFS, proc, args.as_slice(), proc)),
        Err(_) => println!(rt; "= no hex digits"),
    }
}

/// Makes so many NULL calls, and prints the last answer.
fn put_many(rt: &impl Print, calls: &mut Calls<u32>, count: u64) -> io::Result<()> {
    let mut answer = Ok(0);
    for _ in 0..count {
        answer = calls.put(NFS, 0, &[], 0);
    }
    println!(rt; "= {answer:?}")
}

fn send(rt: &impl Print, alloc: Global, calls: &mut Calls<u32>) -> io::Result<()> {
    match calls.next_send() {
        Some(call) => show_bytes(rt, alloc, call.bytes.bytes()),
        None => println!(rt; "= none"),
    }
}

fn take(rt: &impl Print, alloc: Global, calls: &mut Calls<u32>, digits: &str) -> io::Result<()> {
    match hex::decode(alloc, digits) {
        Ok(record) => show_taken(rt, calls, record.as_slice()),
        Err(_) => println!(rt; "= no hex digits"),
    }
}

fn show_taken(rt: &impl Print, calls: &mut Calls<u32>, record: &[u8]) -> io::Result<()> {
    match calls.take(record) {
        Taken::Took { xid, purpose, body } => {
            println!(rt; "= xid {xid} purpose {purpose} {body:?}")
        }
        Taken::Dropped => println!(rt; "= dropped"),
    }
}

fn counts(rt: &impl Print, calls: &Calls<u32>) -> io::Result<()> {
    let (made, waiting, next) = (calls.made(), calls.waiting(), calls.next_xid());
    println!(rt; "= made {made} waiting {waiting} next {next}")
}
