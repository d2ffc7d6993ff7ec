//! Runs what the lines of standard input describe: sessions whose ports a port mapper tells, and sessions over datagrams. It
//! prints each line and what comes of it:
//!
//! - `portmap WORDS` prints the port mapper that the words name, and the other words; `ports MOUNT NFS WORDS` prints the words
//!   with these ports.
//! - `udp WORDS` prints the words of a session over UDP, and `batches WORDS` those of a session of batches.
//! - `words WORDS`, `script LINE` and `schedule LINE` describe a session: its words, lines of its script, and lines of the schedule
//!   of a simulated server; `write N` makes that call of the sink fail.
//! - `told PORT HEX` is a datagram that comes from the port mapper, and `arrival PORT HEX` one that comes from the server.
//! - `fail N` is a call of the link that fails, counted from 1: to the port mapper, or with `datagrams` to the server.
//! - `found` runs the session by a port mapper over the simulated server. It prints its status, what it wrote and what was
//!   asked of the port mapper.
//! - `dialed` runs it over datagrams, and prints what was asked of the server.
//! - `datagrams` runs a session over datagrams, and prints its status, what it wrote and what was asked of the server.
//!
//! `[N*TEXT]` in a line stands for so many copies of a text, and digits in hex may be parted by spaces. What runs a session begins
//! anew after it. Any other line is only printed.
#![tactic(auto)]

mod case;
mod session;
mod show;
mod text;
mod words;

use crate::case::{Case, empty, takes};
use crate::text::spread;
use std::alloc::Global;
use std::io;

/// Does what a line asks for; whether it ends the description.
fn row(rt: &impl Print, alloc: Global, case: &Case, word: &str, rest: &str) -> io::Result<bool> {
    let shown = match word {
        "portmap" => words::show_portmap(rt, alloc, rest),
        "ports" => words::show_with_ports(rt, alloc, rest),
        "udp" => words::show_udp(rt, alloc, rest),
        "batches" => words::show_batches(rt, alloc, rest),
        "found" => session::run_over_world(rt, alloc, case),
        "dialed" => session::run_by_portmap(rt, alloc, case),
        "datagrams" => session::run_over_datagrams(rt, alloc, case),
        _ => return Ok(false),
    };
    shown?;
    Ok(true)
}

/// Takes what a line adds to the description, or does what it asks for.
fn step(rt: &impl Print, alloc: Global, case: &mut Case, line: &str) -> io::Result<()> {
    let (word, rest) = line.split_once(' ').unwrap_or((line, ""));
    match takes(alloc, case, word, rest) {
        Ok(true) => Ok(()),
        Ok(false) => {
            if row(rt, alloc, case, word, rest)? {
                *case = empty(alloc);
            }
            Ok(())
        }
        Err(_) => println!(rt; "  out of memory"),
    }
}

/// Prints each line of standard input, and makes its step.
fn step_all(rt: &HostRuntime, case: &mut Case) -> io::Result<()> {
    let alloc = rt.alloc();
    for line in rt.lines(alloc) {
        let line = line?;
        println!(rt; "{}", line.as_str())?;
        let Ok(line) = spread(alloc, line.as_str()) else {
            return println!(rt; "  out of memory");
        };
        step(rt, alloc, case, line.as_str())?;
    }
    Ok(())
}

fn main(rt: HostRuntime) -> io::Result<()> {
    let mut case = empty(rt.alloc());
    step_all(&rt, &mut case)
}
