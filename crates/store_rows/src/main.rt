//! Does the calls of stores of pages that the lines of standard input list, over a disk in memory. It prints each line and
//! what the call gives. A page is a file's number, the length in its stamp, its own number, and a text. Any other line is only
//! printed.
//!
//! - `new N N ..`: an empty disk whose calls of these numbers fail; `format`, `open`, `close` (the store's disk again), `sync`,
//!   `crash`.
//! - `format N`, `open N`: the same for so many slots.
//! - `store SLOT FILE SIZE INDEX TEXT`, `page SLOT`, `find FILE SIZE INDEX`.
//! - `begin SLOT SLOT ..`, `fill SLOT FILE SIZE INDEX TEXT`, `finish`: a round.
//! - `label ROOT WORDS`, `label`, `empty`: puts a label, shows it, tells whether no slot shows a page.
//! - `kept FILE SIZE INDEX TEXT`, `kept`: shows a cache of the store's pages that keeps this one, too, and stores its pages.
//! - `write AT HEX`, `bytes AT COUNT`, `last COUNT`: writes to the disk, shows bytes of it, and the last calls that it recorded.
//! - `stops OLD NEW`: for each call of a store of the text NEW, over OLD if that isn't `-`: the call fails, the disk
//!   crashes, and what `open` finds.
//! - `round OLD NEW`: for each call of a round that stores NEW over OLD in a slot, and NEW in the next slot: the same.
//! - `relabel`: for calls of a label that is put over another one and a page: the same.
//! - `faults format`, `faults open`: at each of its calls in turn the disk fails.
//! - `file PATH`, `chopped`: stores pages in a file of the system, and in one that gives and takes few bytes at a time.
#![tactic(auto)]

mod chopped;
mod faults;
mod files;
mod held;
mod kept;
mod stops;
mod words;

use held::Held;
use std::alloc::Global;
use std::io;

/// Does what a line asks for that has disks of its own; whether it does.
fn stands_alone(rt: &HostRuntime, alloc: Global, word: &str, rest: &str) -> io::Result<bool> {
    match word {
        "stops" => stops::row(rt, alloc, rest)?,
        "round" => stops::round(rt, alloc, rest)?,
        "relabel" => stops::relabel(rt, alloc)?,
        "faults" => faults::row(rt, alloc, rest)?,
        "file" => files::row(rt, alloc, rest)?,
        "chopped" => chopped::row(rt, alloc)?,
        _ => return Ok(false),
    }
    Ok(true)
}

/// Prints a line, and does what it asks for.
fn step(rt: &HostRuntime, alloc: Global, held: &mut Held, line: &str) -> io::Result<()> {
    println!(rt; "{line}")?;
    let (word, rest) = line.split_once(' ').unwrap_or((line, ""));
    if stands_alone(rt, alloc, word, rest)? {
        return Ok(());
    }
    held.step(rt, alloc, word, rest)
}

/// Makes the step of each line of standard input.
fn step_all(rt: &HostRuntime, held: &mut Held) -> io::Result<()> {
    for line in rt.lines(rt.alloc()) {
        let line = line?;
        step(rt, rt.alloc(), held, line.as_str())?;
    }
    Ok(())
}

fn main(rt: HostRuntime) -> io::Result<()> {
    let mut held = Held::Nothing;
    step_all(&rt, &mut held)
}
