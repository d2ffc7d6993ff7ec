//! Does what each line of standard input asks of an export and of a service, and prints the line and what comes of it. A
//! line is a word and what it needs:
//!
//! - `new` begins with a new export and a new service.
//! - `file PROC HEX`, `dir PROC HEX` and `mount PROC HEX` execute the call of that procedure with these arguments, of which
//!   NULL has none.
//! - `partial BYTES STATUS HEX` executes a WRITE of these arguments that breaks off after so many bytes.
//! - `place PATH HEX`, `place PATH -` and `mkdir PATH` place a file or a directory.
//! - `find PATH` finds an object, and the size of a file.
//! - `flush HEX OFFSET COUNT` makes bytes of a file stable, and `reboot` restarts the export.
//! - `names COUNT` makes, looks up and removes so many files.
//! - `asked HEX` prints what a record asks for, and `serve HEX` the record of the service's answer.
//! - `nulls XID COUNT` serves so many calls of NULL under xids from that one on.
//!
//! Digits in hex may be parted by spaces. Any other line is only printed.
#![tactic(auto)]

mod calls;
mod digits;
mod names;
mod objects;
mod records;

use crate::digits::{bytes_of, number_of};
use export_fs::Export;
use export_serve::Service;
use std::alloc::Global;
use std::io;
use xdr_codec::Memory;

/// What the lines speak of.
#[derive(Drop)]
struct State {
    export: Export,
    service: Service,
}

/// A new export, and a service of another one.
fn fresh(alloc: Global) -> Result<State, Memory> {
    Ok(State {
        export: Export::new(alloc)?,
        service: Service::new(alloc, Export::new(alloc)?),
    })
}

/// Does what a line asks of the export.
fn ask_export(
    rt: &impl Print,
    alloc: Global,
    export: &mut Export,
    word: &str,
    rest: &str,
) -> io::Result<()> {
    match word {
        "file" | "dir" | "mount" => calls::call(rt, alloc, export, word, rest),
        "partial" => calls::partial(rt, alloc, export, rest),
        "place" => objects::place(rt, alloc, export, rest),
        "mkdir" => objects::place_dir(rt, alloc, export, rest),
        "find" => objects::find(rt, alloc, export, rest),
        "flush" => objects::flush(rt, alloc, export, rest),
        "reboot" => objects::reboot(rt, export),
        "names" => names::make_and_remove(rt, export, number_of(rest)),
        _ => Ok(()),
    }
}

/// Does what a line with a record asks of the service.
fn ask_service(
    rt: &impl Print,
    alloc: Global,
    service: &mut Service,
    word: &str,
    rest: &str,
) -> io::Result<()> {
    let Some(record) = bytes_of(alloc, rest) else {
        return println!(rt; "  no hex digits");
    };
    match word {
        "asked" => records::print_asked(rt, alloc, record.as_slice()),
        _ => records::serve(rt, service, record.as_slice()),
    }
}

/// Begins anew.
fn renew(rt: &impl Print, alloc: Global, state: &mut State) -> io::Result<()> {
    match fresh(alloc) {
        Ok(new) => {
            *state = new;
            Ok(())
        }
        Err(_) => println!(rt; "  out of memory"),
    }
}

/// Prints a line, and does what it asks for.
fn row(rt: &impl Print, alloc: Global, state: &mut State, line: &str) -> io::Result<()> {
    println!(rt; "{line}")?;
    let (word, rest) = line.split_once(' ').unwrap_or((line, ""));
    match word {
        "new" => renew(rt, alloc, state),
        "asked" | "serve" => ask_service(rt, alloc, &mut state.service, word, rest),
        "nulls" => records::serve_nulls(rt, alloc, &mut state.service, rest),
        _ => ask_export(rt, alloc, &mut state.export, word, rest),
    }
}

fn main(rt: HostRuntime) -> io::Result<()> {
    let Ok(mut state) = fresh(rt.alloc()) else {
        return println!(rt; "out of memory");
    };
    rows(&rt, &mut state)
}

/// Prints each line of standard input, and does what it asks for.
fn rows(rt: &HostRuntime, state: &mut State) -> io::Result<()> {
    for line in rt.lines(rt.alloc()) {
        row(rt, rt.alloc(), state, line?.as_str())?;
    }
    Ok(())
}
