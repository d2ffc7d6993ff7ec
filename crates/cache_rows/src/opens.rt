//! Open files.

use crate::words::{handle, name, numbers, show_done, tiny};
use nfs_types::Mode;
use open_files::{OpenFiles, Opened};
use std::alloc::Global;
use std::io;
use xdr_codec::Memory;

/// Does a call.
pub fn row(
    rt: &impl Print,
    alloc: Global,
    opens: &mut OpenFiles,
    word: &str,
    rest: &str,
) -> io::Result<()> {
    let [a, b, c, d, e, _] = numbers(rest);
    match word {
        "new" => renew(alloc, opens),
        "put" => put_one(rt, opens, tiny(a), tiny(b), opened(c, d, e)),
        "many" => put_many(rt, opens, tiny(a)),
        "get" => get(rt, opens, tiny(a), tiny(b)),
        "close" => println!(rt; "= {:?}", opens.close(tiny(a), tiny(b))),
        "is" => println!(rt; "= {}", opens.is_open(&handle(a))),
        "any" => println!(rt; "= {}", opens.any()),
        _ => println!(rt; "= no such call"),
    }
}

fn renew(alloc: Global, opens: &mut OpenFiles) -> io::Result<()> {
    *opens = OpenFiles::new(alloc);
    Ok(())
}

/// An open of a file in this mode, by the name `a` in directory 1.
fn opened(file: u64, mode: u64, mark: u64) -> Opened {
    let mode = match mode {
        0 => Mode::R,
        1 => Mode::W,
        2 => Mode::RW,
        3 => Mode::C,
        _ => Mode::X,
    };
    Opened {
        file: handle(file),
        dir: handle(1),
        name: name("a"),
        mode,
        mark,
    }
}

/// Whether the slot was free, and holds the open now.
fn put(opens: &mut OpenFiles, lane: u8, slot: u8, of: Opened) -> Result<bool, Memory> {
    if opens.get(lane, slot).is_some() {
        return Ok(false);
    }
    opens.put(lane, slot, of)?;
    Ok(true)
}

fn put_one(
    rt: &impl Print,
    opens: &mut OpenFiles,
    lane: u8,
    slot: u8,
    of: Opened,
) -> io::Result<()> {
    match put(opens, lane, slot, of) {
        Ok(true) => println!(rt; "= held"),
        Ok(false) => println!(rt; "= taken"),
        Err(_) => println!(rt; "= memory"),
    }
}

/// Takes the slots below a number of the lanes below it, each lane with a file of its number.
fn put_many(rt: &impl Print, opens: &mut OpenFiles, count: u8) -> io::Result<()> {
    let mut done = true;
    for lane in 0..count {
        done = done && put_lane(opens, lane, count);
    }
    show_done(rt, done)
}

fn put_lane(opens: &mut OpenFiles, lane: u8, count: u8) -> bool {
    let mut done = true;
    for slot in 0..count {
        let of = opened(u64::from(lane), 2, u64::from(slot));
        done = done && put(opens, lane, slot, of).is_ok();
    }
    done
}

/// Prints the mode and the mark of an open.
fn get(rt: &impl Print, opens: &OpenFiles, lane: u8, slot: u8) -> io::Result<()> {
    match opens.get(lane, slot) {
        Some(of) => println!(rt; "= {:?} {}", of.mode, of.mark),
        None => println!(rt; "= none"),
    }
}
