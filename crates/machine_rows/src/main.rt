//! Runs operations over made replies, and prints each line of standard input and what it comes to. A line is one of
//!
//! - `new`: nothing is kept, and no operation is under way.
//! - `rsize N`, `wsize N`: how many bytes a READ or a WRITE carries at most.
//! - `clock N`: the reading of the clock from now on.
//! - `full`, `room`: from now on there is no room for a call, or there is.
//! - `LANE OPERATION`: an operation of lane 1 or 2 begins, as in a script, but with bytes as text: `open SLOT MODE PATH`,
//!   `read SLOT OFFSET COUNT`, `write SLOT OFFSET TEXT`, `fill SLOT OFFSET COUNT BYTE`, `sync SLOT`, `close SLOT`, `truncate SLOT SIZE`,
//!   `put PATH OFFSET TEXT`, `stat PATH`, `access PATH BITS`, `readlink PATH`, `list PATH`, `mkdir PATH`, `rmdir PATH`, `remove PATH`,
//!   `rename PATH PATH`, `link PATH PATH`, `symlink PATH TARGET`; `open` and `put` may end in `nocto`, and `read` in `noac`.
//! - `LANE go`: its operation makes a step without a reply.
//! - `LANE REPLY`: its operation takes a reply to the call that it made last. It is in the words of `replies`, or
//!   `record PROCEDURE HEX`, or `zeros PROCEDURE COUNT` for a record of zeros.
//! - `LANE to N REPLY`: it takes a reply to its N-th call.
//!
//! Any other line is only printed.
#![tactic(auto)]

mod asked;
mod bench;
mod lanes;
mod operations;
mod replies;
mod shown;
mod words;

use crate::bench::{Bench, Setting};
use crate::lanes::{Lane, run};
use crate::words::{first_word, numbers, small};
use std::alloc::Global;
use std::io;

/// The bench, and the lanes that work on it.
#[derive(Drop)]
struct Rows {
    bench: Bench,
    first: Lane,
    second: Lane,
    setting: Setting,
}

/// Makes the step of a line, and prints what it comes to.
fn step(rt: &impl Print, alloc: Global, rows: &mut Rows, line: &str) -> io::Result<()> {
    println!(rt; "{line}")?;
    let (word, words) = first_word(line);
    match word {
        "1" => run(
            rt,
            alloc,
            1,
            &mut rows.first,
            &mut rows.bench,
            &rows.setting,
            words,
        ),
        "2" => run(
            rt,
            alloc,
            2,
            &mut rows.second,
            &mut rows.bench,
            &rows.setting,
            words,
        ),
        "new" => renew(alloc, rows),
        _ => set(rows, word, numbers(words)[0]),
    }
}

/// Nothing is kept any more.
fn renew(alloc: Global, rows: &mut Rows) -> io::Result<()> {
    rows.bench.renew(alloc);
    rows.first.rest();
    rows.second.rest();
    rows.setting = Setting::new();
    Ok(())
}

/// Takes a setting.
fn set(rows: &mut Rows, word: &str, number: u64) -> io::Result<()> {
    match word {
        "rsize" => rows.setting.rsize = small(number),
        "wsize" => rows.setting.wsize = small(number),
        "clock" => rows.setting.now = number,
        "full" => rows.setting.room = false,
        "room" => rows.setting.room = true,
        _ => {}
    }
    Ok(())
}

fn main(rt: HostRuntime) -> io::Result<()> {
    let Ok(bench) = Bench::new(rt.alloc()) else {
        return println!(rt; "memory");
    };
    let mut rows = Rows {
        bench,
        first: Lane::new(),
        second: Lane::new(),
        setting: Setting::new(),
    };
    let ended = step_all(&rt, &mut rows);
    // Dropped by a call, since the prover takes a drop in place apart, field by field.
    drop(rows);
    ended
}

/// Makes the step of each line of standard input.
fn step_all(rt: &HostRuntime, rows: &mut Rows) -> io::Result<()> {
    for line in rt.lines(rt.alloc()) {
        let line = line?;
        step(rt, rt.alloc(), rows, line.as_str())?;
    }
    Ok(())
}
