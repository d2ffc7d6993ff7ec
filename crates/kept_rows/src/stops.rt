//! A session whose store is stopped at one of its calls.

use crate::case::Case;
use crate::ground::{Ground, begin, ground_over, show_store};
use crate::session::{Ran, run, show_ran, show_run};
use page_store::{MemDisk, PageStore};
use std::alloc::Global;
use std::io;

/// Stops the session at each of the calls of the disk whose numbers the line gives.
pub fn show(rt: &impl Print, alloc: Global, case: &Case, rest: &str) -> io::Result<()> {
    let (first, last) = rest.split_once(' ').unwrap_or((rest, rest));
    for call in number_of(first)..=number_of(last) {
        println!(rt; "= call {call}")?;
        show_call(rt, alloc, case, call)?;
    }
    Ok(())
}

/// Runs the session over a disk whose call of that number fails, and then over what a crash leaves.
fn show_call(rt: &impl Print, alloc: Global, case: &Case, call: u32) -> io::Result<()> {
    match begin(alloc, case.schedule.as_slice(), &[call]) {
        Some(ground) => show_stopped(rt, alloc, case, ground),
        None => println!(rt; "  no store"),
    }
}

/// Runs the session over a disk one of whose calls fails, and then over what a crash leaves.
fn show_stopped(rt: &impl Print, alloc: Global, case: &Case, ground: Ground) -> io::Result<()> {
    let mut ground = ground;
    let ran = run(alloc, case, &mut ground);
    let mut left = left_of(alloc, case, ground);
    show_both(rt, alloc, case, &ran, &mut left)
}

/// Prints what the session came to, and then runs it over what the crash left.
fn show_both(
    rt: &impl Print,
    alloc: Global,
    case: &Case,
    ran: &Option<Ran>,
    left: &mut Option<Ground>,
) -> io::Result<()> {
    show_ran(rt, ran)?;
    match left {
        Some(left) => show_left(rt, alloc, case, left),
        None => println!(rt; "  no store"),
    }
}

/// A new server, and the store of what a crash leaves.
fn left_of(alloc: Global, case: &Case, ground: Ground) -> Option<Ground> {
    let store = crashed(alloc, ground.into_store())?;
    ground_over(alloc, case.schedule.as_slice(), store)
}

/// The store of what a crash leaves of its disk.
fn crashed(alloc: Global, store: PageStore<MemDisk>) -> Option<PageStore<MemDisk>> {
    let mut disk = store.into_disk();
    disk.crash().ok()?;
    PageStore::open(alloc, disk).ok()
}

/// Prints the store, and runs the session.
fn show_left(rt: &impl Print, alloc: Global, case: &Case, left: &mut Ground) -> io::Result<()> {
    show_store(rt, alloc, &left.store)?;
    show_run(rt, alloc, case, left)
}

/// The number of decimal digits; 0 if they aren't of a number below 2^32.
fn number_of(text: &str) -> u32 {
    text.parse::<u32>().unwrap_or(0)
}
