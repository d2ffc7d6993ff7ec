//! Reads the record of each line of standard input, and prints what it holds. A line is a kind, a number and the bytes in
//! hex, or `-` for none:
//!
//! - `file-call`, `file-reply`, `dir-call`, `dir-reply`, `mount-call` or `mount-reply` and the number of a procedure;
//! - `rpc-call`, `rpc-call-of-user` or `rpc-reply` and the xid;
//! - `port-call` and the xid, `port-reply` and any number, and `port-answer` and the port that a server is on;
//! - `dir-page` or `plus-page`, a page of a listing, and `name` or `handle`, with any number;
//! - `opaque` and how many bytes are written as one and read back, with no bytes.
//!
//! After what the record holds stands `same true` if it is written again to the same bytes. There stands `short true` if
//! each proper prefix of it is refused as too short. A line that begins with `#` is printed.
#![tactic(auto)]

mod dirs;
mod end;
mod files;
mod messages;
mod mounts;
mod opaques;
mod pages;
mod ports;

use nfs_types::{Handle, Name};
use std::alloc::Global;
use std::io;

/// Reads the record of a kind, and prints what it holds.
fn record(rt: &impl Print, alloc: Global, kind: &str, number: u32, bytes: &[u8]) -> io::Result<()> {
    match kind {
        "file-call" => files::call(rt, alloc, number, bytes),
        "file-reply" => files::reply(rt, alloc, number, bytes),
        "dir-call" => dirs::call(rt, alloc, number, bytes),
        "dir-reply" => dirs::reply(rt, alloc, number, bytes),
        "mount-call" => mounts::call(rt, alloc, number, bytes),
        "mount-reply" => mounts::reply(rt, alloc, number, bytes),
        "rpc-call" => messages::call_of_nobody(rt, alloc, bytes),
        "rpc-call-of-user" => messages::call_of_user(rt, alloc, bytes),
        "rpc-reply" => messages::reply(rt, alloc, bytes),
        "dir-page" => pages::dir_page(rt, alloc, bytes),
        "plus-page" => pages::plus_page(rt, alloc, bytes),
        "port-call" => ports::call(rt, alloc, number, bytes),
        "port-reply" => ports::reply(rt, bytes),
        "port-answer" => ports::answered(rt, alloc, number, bytes),
        "opaque" => opaques::opaque(rt, alloc, number),
        "name" => println!(rt; "{}", Name::make(bytes).is_some()),
        "handle" => println!(rt; "{}", Handle::make(bytes).is_some()),
        _ => println!(rt; "no such kind"),
    }
}

/// Reads the record of a line.
fn row(rt: &impl Print, alloc: Global, line: &str) -> io::Result<()> {
    let Some((kind, rest)) = line.split_once(' ') else {
        return println!(rt; "{line}");
    };
    let Some((number, digits)) = rest.split_once(' ') else {
        return println!(rt; "{line}");
    };
    print!(rt; "{kind} {number} ")?;
    let number = number.parse::<u32>().unwrap_or(0);
    let digits = if digits == "-" { "" } else { digits };
    let Ok(bytes) = hex::decode(alloc, digits) else {
        return println!(rt; "no hex digits");
    };
    record(rt, alloc, kind, number, bytes.as_slice())
}

fn main(rt: HostRuntime) -> io::Result<()> {
    for line in rt.lines(rt.alloc()) {
        let line = line?;
        let line = line.as_str();
        if line.starts_with('#') {
            println!(rt; "{line}")?;
        } else {
            row(&rt, rt.alloc(), line)?;
        }
    }
    Ok(())
}
