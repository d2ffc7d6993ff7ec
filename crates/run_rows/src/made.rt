//! Scripts that are made.

use crate::show::show_text;
use crate::text::{number_of, size_of};
use made_script::{made, summary};
use std::alloc::Global;
use std::io;
use xdr_codec::Writer;

/// Prints how many lines the script of that size has, and how many bytes.
pub fn show_made(rt: &impl Print, alloc: Global, rest: &str) -> io::Result<()> {
    let Ok(text) = made(alloc, size_of(rest)) else {
        return println!(rt; "  out of memory");
    };
    let lines = text.bytes().split(|b| *b == b'\n').count();
    println!(rt;
        "  {} lines of {} bytes",
        lines.saturating_sub(1),
        text.bytes().len()
    )
}

/// Prints a line of the script of that size.
pub fn show_line(rt: &impl Print, alloc: Global, rest: &str) -> io::Result<()> {
    let (size, at) = rest.split_once(' ').unwrap_or((rest, ""));
    let Ok(text) = made(alloc, size_of(size)) else {
        return println!(rt; "  out of memory");
    };
    let before = (number_of(at) as usize).saturating_sub(1);
    match text.bytes().split(|b| *b == b'\n').nth(before) {
        Some(line) => show_text(rt, line),
        None => println!(rt; "  none"),
    }
}

/// Prints the line on these answers.
pub fn show_summary(rt: &impl Print, alloc: Global, rest: &str) -> io::Result<()> {
    let mut answers = Writer::new(alloc);
    for line in rest.split('/') {
        if answers.raw(line.as_bytes()).is_err() || answers.raw(b"\n").is_err() {
            return println!(rt; "  out of memory");
        }
    }
    let mut out = Writer::new(alloc);
    match summary(answers.finish().bytes(), &mut out) {
        Ok(()) => show_text(rt, out.finish().bytes()),
        Err(_) => println!(rt; "  out of memory"),
    }
}
