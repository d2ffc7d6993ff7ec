//! Judges the histories that the lines of standard input tell, and prints what comes of each. A line is a word and what it needs:
//!
//! - `t LINE` adds a line to the trace, and `lines N LINE` adds that line so many times.
//! - `read N` and `write N` make that call of the source and of the sink fail.
//! - `check` prints the verdict on the trace.
//! - `print` says whether what is printed of it is the same text.
//! - `run` reads it from a source, writes the verdict to a sink, and prints the status and what was written.
//!
//! After each of the last three the next trace begins. Any other line is only printed.
#![tactic(auto)]

mod case;

use crate::case::{Case, empty, takes};
use outside::{MemSink, MemSource};
use std::alloc::Global;
use std::io;
use trace_check::{Verdict, check};
use trace_runs::run_check;
use trace_text::{TraceFault, print, read};
use xdr_codec::Memory;

/// The word of a rule.
fn rule_word(rule: u8) -> &'static str {
    match rule {
        1 => "lawful",
        2 => "once",
        3 => "fresh",
        4 => "settled",
        5 => "read",
        _ => "short",
    }
}

/// Prints why a text is no trace.
fn show_fault(rt: &impl Print, fault: TraceFault) -> io::Result<()> {
    match fault {
        TraceFault::Line(line) => println!(rt; "  trace {line}"),
        TraceFault::Memory => println!(rt; "  out of memory"),
    }
}

/// Prints the verdict on a text.
fn show_verdict(rt: &impl Print, alloc: Global, text: &[u8]) -> io::Result<()> {
    match read(alloc, text) {
        Ok(trace) => match check(alloc, &trace) {
            Ok(Verdict::Yes) => println!(rt; "  yes"),
            Ok(Verdict::No { rule, entries }) => {
                let word = rule_word(rule);
                println!(rt; "  no {word} {entries}")
            }
            Err(Memory) => println!(rt; "  out of memory"),
        },
        Err(fault) => show_fault(rt, fault),
    }
}

/// Prints whether a text is what is printed of it.
fn show_text(rt: &impl Print, alloc: Global, text: &[u8]) -> io::Result<()> {
    match read(alloc, text) {
        Ok(trace) => match print(alloc, &trace) {
            Ok(Some(again)) => {
                if again.bytes() == text {
                    println!(rt; "  printed the same")
                } else {
                    println!(rt; "  printed otherwise")
                }
            }
            Ok(None) => println!(rt; "  too long"),
            Err(Memory) => println!(rt; "  out of memory"),
        },
        Err(fault) => show_fault(rt, fault),
    }
}

/// Prints the status of a run over a text, and what it wrote.
fn show_run(rt: &impl Print, alloc: Global, case: &Case) -> io::Result<()> {
    let (Ok(mut source), Ok(mut sink)) = (
        MemSource::new(alloc, case.text.as_slice(), case.reads.as_slice()),
        MemSink::new(alloc, case.writes.as_slice()),
    ) else {
        return println!(rt; "  out of memory");
    };
    let status = run_check(alloc, &mut source, &mut sink);
    println!(rt; "  status {status}")?;
    match std::str::from_utf8(sink.bytes()) {
        Ok(text) => show_lines(rt, text),
        Err(_) => println!(rt; "  no text"),
    }
}

fn show_lines(rt: &impl Print, text: &str) -> io::Result<()> {
    for line in text.lines() {
        println!(rt; "  {line}")?;
    }
    Ok(())
}

/// Judges what was described, and answers whether the word asks for it.
fn judges(rt: &impl Print, alloc: Global, case: &Case, word: &str) -> io::Result<bool> {
    match word {
        "check" => show_verdict(rt, alloc, case.text.as_slice())?,
        "print" => show_text(rt, alloc, case.text.as_slice())?,
        "run" => show_run(rt, alloc, case)?,
        _ => return Ok(false),
    }
    Ok(true)
}

/// Takes what a line adds to the description, or judges what was described; else the line is printed.
fn step(rt: &impl Print, alloc: Global, case: &mut Case, line: &str) -> io::Result<()> {
    let (word, rest) = line.split_once(' ').unwrap_or((line, ""));
    match takes(case, word, rest) {
        Ok(true) => Ok(()),
        Ok(false) => {
            if !judges(rt, alloc, case, word)? {
                return println!(rt; "{line}");
            }
            *case = empty(alloc);
            Ok(())
        }
        Err(_) => println!(rt; "  out of memory"),
    }
}

/// Makes the step of each line of standard input.
fn step_all(rt: &HostRuntime, case: &mut Case) -> io::Result<()> {
    for line in rt.lines(rt.alloc()) {
        let line = line?;
        step(rt, rt.alloc(), case, line.as_str())?;
    }
    Ok(())
}

fn main(rt: HostRuntime) -> io::Result<()> {
    let mut case = empty(rt.alloc());
    step_all(&rt, &mut case)
}
