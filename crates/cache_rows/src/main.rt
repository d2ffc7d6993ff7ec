//! Does the calls of the client's layers that the lines of standard input list, and prints each line and what the call gives.
//! A line is a layer, a call of it and what that takes: numbers, and at the end a name, a text or bytes in hex. Files and
//! directories are told apart by a number. `new` makes a layer anew. Any other line is only printed.
//!
//! - `calls` is `rpc_retry`: `new XID LIMIT`, `put PROC HEX`, `many N`, `check`, `send`, `take HEX`, `failed`, `counts`.
//! - `attrs` is `attr_cache`: `new`, `lives A B C D`, `learn FILE KIND SIZE SENT`, `many N`, `forget FILE`, `look FILE NOW`.
//! - `names` is `name_cache`: `new`, `learn DIR SECOND FOUND NAME`, `many N`, `look DIR SECOND NAME`, `drop DIR`.
//! - `pages` is `page_cache`: `new`, `room N`, `opened FILE SIZE MARK`, `many N`, `state FILE`, `keep FILE SIZE INDEX SENT TEXT`,
//!   `fill FILE SIZE N`, `page FILE INDEX`, `saw FILE SIZE SENT`, `wrote FILE BEFORE AFTER OFFSET MOMENT TEXT`,
//!   `cut FILE BEFORE AFTER SIZE MOMENT`, `closed FILE`.
//! - `opens` is `open_files`: `new`, `put LANE SLOT FILE MODE MARK`, `many N`, `get LANE SLOT`, `close LANE SLOT`, `is FILE`, `any`.
//! - `silly` is `silly_rename`: `new`, `plan OPEN COUNTER`, `put FILE DIR NAME`, `many N`, `close FILE`.
//! - `list` is `dir_list`: `new`, `page COOKIE EOF NAMES`, `whole`, `finish`.
#![tactic(auto)]

mod attrs;
mod calls;
mod lists;
mod names;
mod opens;
mod pages;
mod silly;
mod words;

use attr_cache::AttrCache;
use dir_list::Listing;
use name_cache::NameCache;
use open_files::OpenFiles;
use page_cache::PageCache;
use rpc_retry::Calls;
use silly_rename::Silly;
use std::alloc::Global;
use std::io;
use xdr_codec::Memory;

/// A layer of each kind.
#[derive(Drop)]
struct Layers {
    calls: Calls<u32>,
    attrs: AttrCache,
    names: NameCache,
    pages: PageCache,
    opens: OpenFiles,
    silly: Silly,
    list: Listing,
}

/// Layers that were just made.
fn fresh(alloc: Global) -> Result<Layers, Memory> {
    Ok(Layers {
        calls: calls::fresh(alloc, 1, 100),
        attrs: AttrCache::new(alloc),
        names: NameCache::new(alloc)?,
        pages: PageCache::new(alloc)?,
        opens: OpenFiles::new(alloc),
        silly: Silly::new(alloc),
        list: Listing::new(alloc),
    })
}

/// Does what a line asks for.
fn row(rt: &impl Print, alloc: Global, layers: &mut Layers, line: &str) -> io::Result<()> {
    let Some((layer, rest)) = line.split_once(' ') else {
        return Ok(());
    };
    let (word, rest) = rest.split_once(' ').unwrap_or((rest, ""));
    match layer {
        "calls" => calls::row(rt, alloc, &mut layers.calls, word, rest),
        "attrs" => attrs::row(rt, alloc, &mut layers.attrs, word, rest),
        "names" => names::row(rt, alloc, &mut layers.names, word, rest),
        "pages" => pages::row(rt, alloc, &mut layers.pages, word, rest),
        "opens" => opens::row(rt, alloc, &mut layers.opens, word, rest),
        "silly" => silly::row(rt, alloc, &mut layers.silly, word, rest),
        "list" => lists::row(rt, alloc, &mut layers.list, word, rest),
        _ => Ok(()),
    }
}

fn main(rt: HostRuntime) -> io::Result<()> {
    let Ok(mut layers) = fresh(rt.alloc()) else {
        return println!(rt; "memory");
    };
    rows(&rt, &mut layers)
}

/// Prints each line of standard input, and does what it asks for.
fn rows(rt: &HostRuntime, layers: &mut Layers) -> io::Result<()> {
    for line in rt.lines(rt.alloc()) {
        let line = line?;
        println!(rt; "{}", line.as_str())?;
        row(rt, rt.alloc(), layers, line.as_str())?;
    }
    Ok(())
}
