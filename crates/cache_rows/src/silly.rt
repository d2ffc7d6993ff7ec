//! Names of files that are removed while they are open.

use crate::words::{handle, last, name, numbers, show_bytes, show_done, small};
use silly_rename::{Plan, Silly, plan};
use std::alloc::Global;
use std::io;

/// Does a call.
pub fn row(
    rt: &impl Print,
    alloc: Global,
    silly: &mut Silly,
    word: &str,
    rest: &str,
) -> io::Result<()> {
    let [a, b, ..] = numbers(rest);
    match word {
        "new" => renew(alloc, silly),
        "plan" => show_plan(rt, alloc, &plan(a == 1, small(b))),
        "put" => show_done(
            rt,
            silly.put(&handle(a), &handle(b), &name(last(rest))).is_ok(),
        ),
        "many" => put_many(rt, silly, a),
        "close" => close(rt, alloc, silly, a),
        _ => println!(rt; "= no such call"),
    }
}

fn renew(alloc: Global, silly: &mut Silly) -> io::Result<()> {
    *silly = Silly::new(alloc);
    Ok(())
}

/// Prints a plan, with the new name in hex.
fn show_plan(rt: &impl Print, alloc: Global, plan: &Plan) -> io::Result<()> {
    match plan {
        Plan::Direct => println!(rt; "= direct"),
        Plan::Rename { to } => show_bytes(rt, alloc, to.bytes()),
    }
}

/// Keeps the files below a number, each by the name `a` in directory 1.
fn put_many(rt: &impl Print, silly: &mut Silly, count: u64) -> io::Result<()> {
    let mut done = true;
    for file in 0..count {
        done = done && silly.put(&handle(file), &handle(1), &name("a")).is_ok();
    }
    show_done(rt, done)
}

/// Prints the directory and the name that are to be removed, in hex.
fn close(rt: &impl Print, alloc: Global, silly: &mut Silly, file: u64) -> io::Result<()> {
    match silly.on_last_close(&handle(file)) {
        Some((dir, name)) => {
            show_bytes(rt, alloc, dir.bytes())?;
            show_bytes(rt, alloc, name.bytes())
        }
        None => println!(rt; "= none"),
    }
}
