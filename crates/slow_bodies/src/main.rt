//! Compares what the caches answer with plain, slow bodies of theirs, in which lists are scanned, over made sequences of calls.
//! Each line of standard input asks for a comparison, and is printed with what came of it: `alike`, or the first seed whose
//! calls aren't answered alike and how many of them are. Any other line is only printed.
//!
//! - `writes FIRST LAST COUNT`: so many calls of `write_back` and `commit_verf` by each seed from the first to the last, which
//!   is left out
//! - `full`: at which byte no more may be pending
//! - `oldest`: which file has the oldest byte, as bytes are cut and given up
//! - `pages FIRST LAST COUNT ROOM`: so many calls of `page_cache` by each seed, with room for so many pages, or for 1,024 without
//!   that number
//! - `evicted COUNT ROOM`: which pages are kept once so many were offered
#![tactic(auto)]

mod back;
mod fault;
mod kept_back;
mod made;
mod page_rows;
mod pages;
mod piece;
mod segment;
mod writes;

use crate::fault::Fault;
use std::alloc::Global;
use std::io;

/// What came of a comparison.
#[derive(Clone, Copy, Debug)]
enum Told {
    Alike,
    Differ,
    /// By this seed so many calls are answered alike, and the next one isn't.
    From(u64, u64),
}

/// The first four numbers of a text; a word that isn't a number counts as 0, and so does one that isn't there.
fn numbers(text: &str) -> [u64; 4] {
    let mut found = [0; 4];
    for (at, word) in text.split_whitespace().enumerate() {
        if at < 4 {
            found[at] = word.parse::<u64>().unwrap_or(0);
        }
    }
    found
}

/// What came of made sequences.
fn by_seed(differs: Option<(u64, u64)>) -> Told {
    match differs {
        None => Told::Alike,
        Some((seed, alike)) => Told::From(seed, alike),
    }
}

/// What came of one sequence.
fn by_one(alike: bool) -> Told {
    if alike { Told::Alike } else { Told::Differ }
}

/// Makes the comparison that a line asks for. None if it asks for none.
fn compare(alloc: Global, word: &str, rest: &str) -> Result<Option<Told>, Fault> {
    let [first, last, count, room] = numbers(rest);
    Ok(match word {
        "writes" => Some(by_seed(writes::compare(alloc, first, last, count)?)),
        "full" => Some(by_one(writes::full(alloc)?)),
        "oldest" => Some(by_one(writes::oldest(alloc)?)),
        "pages" => Some(by_seed(page_rows::compare(
            alloc,
            first,
            last,
            count,
            page_rows::room_of(room),
        )?)),
        "evicted" => Some(by_one(page_rows::evicted(alloc, first, page_rows::room_of(last))?)),
        _ => None,
    })
}

/// Prints what came of a comparison.
fn show(rt: &impl Print, told: Result<Option<Told>, Fault>) -> io::Result<()> {
    match told {
        Ok(None) => Ok(()),
        Ok(Some(Told::Alike)) => println!(rt; "= alike"),
        Ok(Some(Told::Differ)) => println!(rt; "= differ"),
        Ok(Some(Told::From(seed, alike))) => println!(rt; "= seed {seed} differs after {alike}"),
        Err(Fault::Memory) => println!(rt; "= memory"),
        Err(Fault::Odd) => println!(rt; "= an answer that fits no call"),
    }
}

fn main(rt: HostRuntime) -> io::Result<()> {
    for line in rt.lines(rt.alloc()) {
        let line = line?;
        println!(rt; "{}", line.as_str())?;
        let (word, rest) = line.as_str().split_once(' ').unwrap_or((line.as_str(), ""));
        show(&rt, compare(rt.alloc(), word, rest))?;
    }
    Ok(())
}
