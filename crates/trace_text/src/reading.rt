//! Reads a trace.

ghost use Rattle.std.specs.Prelude.{◌≤◌, IfOk, length};
ghost use Rattle.script_text.specs.Lines.{words};
ghost use Rattle.trace_text.specs.Reading.{IsRead, after_line, entry_line, line_by, text_told, told_after};
ghost use Rattle.trace_text.specs.Told.{Takes, told_by};

use crate::draft::Draft;
use crate::entry_lines;
use crate::fault::{LineFault, TraceFault};
use crate::head_lines::{lives_line, noac_line, nocto_line, root_line};
use crate::object_lines::{gone_line, name_line, obj_line, unname_line, verf_line};
use crate::words::first;
use script_text::{first_line, is_skipped, is_utf8};
use std::alloc::Global;
use trace_data::Trace;

/// The most bytes of a text.
const MOST_BYTES: usize = 1_048_576;

/// The trace that a text is. `Line` names the first line that isn't of the form, and 0 if the text has more than
/// 1,048,576 bytes; a trace has at most 4,096 entries.
pub fn read(alloc: Global, text: &[u8]) -> Result<Trace, TraceFault>
    ensures read { IsRead (text_told text.now) result }
    ensures few { IfOk result (λ trace. length trace.entries.items ≤ 4096) }
{
    if text.len() > MOST_BYTES {
        return Err(TraceFault::Line(0));
    }
    let mut draft = Draft::new(alloc);
    let mut number: u32 = 0;
    let mut left = text;
    while !left.is_empty() {
        let (line, rest) = first_line(left);
        number += 1;
        match take_line(alloc, &mut draft, line) {
            Ok(()) => {}
            Err(fault) => return Err(fault.at(number)),
        }
        left = rest;
    }
    Ok(draft.finish())
}

/// Takes a line, which may be one that is passed over.
fn take_line(alloc: Global, draft: &mut Draft, line: &[u8]) -> Result<(), LineFault>
    ensures { Takes result (told_by draft.new) (after_line (told_by draft.old) line.now) }
{
    if is_skipped(line) {
        return Ok(());
    }
    told_after(alloc, draft, line)
}

/// Takes a line that says something.
fn told_after(alloc: Global, draft: &mut Draft, line: &[u8]) -> Result<(), LineFault>
    ensures { Takes result (told_by draft.new) (told_after (told_by draft.old) line.now) }
{
    if !is_utf8(line) {
        return Err(LineFault::Form);
    }
    let (word, rest) = first(line)?;
    line_by(alloc, draft, word, rest)?;
    draft.begin();
    Ok(())
}

/// Takes a line by its first word.
fn line_by(alloc: Global, draft: &mut Draft, word: &[u8], rest: &[u8]) -> Result<(), LineFault>
    ensures { Takes result (told_by draft.new) (line_by (told_by draft.old) word.now (words rest.now)) }
{
    if word == b"root".as_slice() {
        return root_line(alloc, draft, rest);
    }
    if word == b"lives".as_slice() {
        return lives_line(draft, rest);
    }
    if word == b"noac".as_slice() {
        return noac_line(draft, rest);
    }
    if word == b"nocto".as_slice() {
        return nocto_line(draft, rest);
    }
    if word == b"verf".as_slice() {
        return verf_line(alloc, draft, rest);
    }
    if word == b"obj".as_slice() {
        return obj_line(alloc, draft, rest);
    }
    if word == b"gone".as_slice() {
        return gone_line(alloc, draft, rest);
    }
    if word == b"name".as_slice() {
        return name_line(alloc, draft, rest);
    }
    if word == b"unname".as_slice() {
        return unname_line(alloc, draft, rest);
    }
    entry_line(alloc, draft, word, rest)
}

/// Takes a line that is an entry.
fn entry_line(alloc: Global, draft: &mut Draft, word: &[u8], rest: &[u8]) -> Result<(), LineFault>
    ensures { Takes result (told_by draft.new) (entry_line (told_by draft.old) word.now (words rest.now)) }
{
    if word == b"began".as_slice() {
        return entry_lines::began(alloc, draft, rest);
    }
    if word == b"answered".as_slice() {
        return entry_lines::answered(alloc, draft, rest);
    }
    if word == b"dialed".as_slice() {
        return entry_lines::dialed(alloc, draft, rest);
    }
    if word == b"sent".as_slice() {
        return entry_lines::sent(alloc, draft, rest);
    }
    if word == b"delivered".as_slice() {
        return entry_lines::delivered(alloc, draft, rest);
    }
    if word == b"failed".as_slice() {
        return entry_lines::failed(alloc, draft, rest);
    }
    if word == b"clock".as_slice() {
        return entry_lines::clock(alloc, draft, rest);
    }
    if word == b"flushed".as_slice() {
        return entry_lines::flushed(alloc, draft, rest);
    }
    if word == b"reboot".as_slice() {
        return entry_lines::reboot(alloc, draft, rest);
    }
    if word == b"executed".as_slice() {
        return entry_lines::executed(alloc, draft, rest);
    }
    if word == b"foreign".as_slice() {
        return entry_lines::foreign(alloc, draft, rest);
    }
    Err(LineFault::Form)
}
