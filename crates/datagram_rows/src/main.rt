//! Runs what the lines of standard input describe, over datagrams in memory, and prints each line and what comes of it:
//!
//! - `arrival PORT HEX` is a datagram that is to come from that port, and `arrivals N PORT HEX` so many of them.
//! - `fail N` is a call of the datagrams that is to fail, counted from 1.
//! - `link` makes a link over these datagrams; `dial PORT`, `send HEX`, `receive` and `note` are calls of it, and `calls` prints
//!   the calls of its datagrams.
//! - `find PORT XID PROTOCOL` asks the port mapper at the port over a link like that. It prints what comes of it and the
//!   calls of its datagrams.
//!
//! `[N*TEXT]` in a line stands for so many copies of a text, and digits in hex may be parted by spaces. What makes a link
//! begins anew after it. Any other line is only printed.
#![tactic(auto)]

mod case;
mod find;
mod show;
mod text;

use crate::case::{Case, datagrams, empty, takes};
use crate::show::{show_answer, show_bytes, show_calls};
use crate::text::{port_of, record_of, spread};
use outside::{Link, MemDatagrams, Received};
use std::alloc::Global;
use std::io;
use udp_link::UdpLink;
use world_model::Mark;

/// Makes a call of a link, and prints what it answers.
fn call(
    rt: &impl Print,
    alloc: Global,
    link: &mut UdpLink<MemDatagrams>,
    word: &str,
    rest: &str,
) -> io::Result<()> {
    match word {
        "dial" => show_answer(rt, link.dial(port_of(rest))),
        "send" => match record_of(alloc, rest) {
            Ok(record) => show_answer(rt, link.send(&record)),
            Err(_) => println!(rt; "  out of memory"),
        },
        "note" => match link.note(Mark::Clock { ms: 4 }) {
            Ok(()) => println!(rt; "  ok"),
            Err(_) => println!(rt; "  memory"),
        },
        "receive" => receive(rt, alloc, link),
        _ => Ok(()),
    }
}

/// Receives a record, and prints it.
fn receive(rt: &impl Print, alloc: Global, link: &mut UdpLink<MemDatagrams>) -> io::Result<()> {
    let mut record = Vec::new(alloc);
    match link.receive(15_000, &mut record) {
        Received::Whole => show_bytes(rt, record.as_slice()),
        Received::Silent => println!(rt; "  silent"),
        Received::Failed => println!(rt; "  failed"),
        Received::Memory => println!(rt; "  memory"),
    }
}

/// Does what a line asks of the link that there is.
fn at_link(
    rt: &impl Print,
    alloc: Global,
    current: &mut Option<UdpLink<MemDatagrams>>,
    word: &str,
    rest: &str,
) -> io::Result<()> {
    if word == "calls" {
        return match current.take() {
            Some(link) => show_calls(rt, &link.into_datagrams()),
            None => Ok(()),
        };
    }
    match current {
        Some(link) => call(rt, alloc, link, word, rest),
        None => Ok(()),
    }
}

/// Does what a line asks for; whether it ends the description.
fn row(
    rt: &impl Print,
    alloc: Global,
    case: &Case,
    current: &mut Option<UdpLink<MemDatagrams>>,
    word: &str,
    rest: &str,
) -> io::Result<bool> {
    match word {
        "link" => replace(current, link_of(alloc, case)),
        "find" => show_ports(rt, alloc, case, rest)?,
        _ => {
            at_link(rt, alloc, current, word, rest)?;
            return Ok(false);
        }
    }
    Ok(true)
}

/// A link over the datagrams that the lines describe.
fn link_of(alloc: Global, case: &Case) -> Option<UdpLink<MemDatagrams>> {
    match datagrams(alloc, case) {
        Ok(over) => Some(UdpLink::new(over)),
        Err(_) => None,
    }
}

fn replace(current: &mut Option<UdpLink<MemDatagrams>>, made: Option<UdpLink<MemDatagrams>>) {
    *current = made;
}

/// Finds ports over the datagrams that the lines describe.
fn show_ports(rt: &impl Print, alloc: Global, case: &Case, rest: &str) -> io::Result<()> {
    match datagrams(alloc, case) {
        Ok(over) => find::show_found(rt, alloc, over, rest),
        Err(_) => println!(rt; "  out of memory"),
    }
}

/// Takes what a line adds to the description, or does what it asks for.
fn step(
    rt: &impl Print,
    alloc: Global,
    case: &mut Case,
    current: &mut Option<UdpLink<MemDatagrams>>,
    line: &str,
) -> io::Result<()> {
    let (word, rest) = line.split_once(' ').unwrap_or((line, ""));
    match takes(alloc, case, word, rest) {
        Ok(true) => Ok(()),
        Ok(false) => {
            if row(rt, alloc, case, current, word, rest)? {
                *case = empty(alloc);
            }
            Ok(())
        }
        Err(_) => println!(rt; "  out of memory"),
    }
}

/// Prints each line of standard input, and makes its step.
fn step_all(
    rt: &HostRuntime,
    case: &mut Case,
    current: &mut Option<UdpLink<MemDatagrams>>,
) -> io::Result<()> {
    let alloc = rt.alloc();
    for line in rt.lines(alloc) {
        let line = line?;
        println!(rt; "{}", line.as_str())?;
        let Ok(line) = spread(alloc, line.as_str()) else {
            return println!(rt; "  out of memory");
        };
        step(rt, alloc, case, current, line.as_str())?;
    }
    Ok(())
}

fn main(rt: HostRuntime) -> io::Result<()> {
    let mut case = empty(rt.alloc());
    let mut current = None;
    step_all(&rt, &mut case, &mut current)
}
