//! Scripts: the operations that are asked for, each with its lane and its line.

ghost use Rattle.std.specs.Prelude.{◌≡◌, ◌≤◌, ◌<◌, ◌+◌, ◌++◌, [], ◌∷◌, length, slice_get, All, IfOk, OnOk};
ghost use Rattle.std.specs.Str.{is_utf8};
ghost use Rattle.script_text.specs.Lines.{lines};
ghost use Rattle.nfs_script.specs.Asked.{IsAskedLine};
ghost use Rattle.nfs_script.specs.Script.{after_line, last_line, first_of_faults, lines_by, lines_fault, script_by, script_from, script_of, AreText, GoesOn, IsParsed, Takes};
ghost use Rattle.nfs_script.specs.declared.script.ScriptLine.{ScriptLine};

use crate::asked::asked;
use crate::fault::{Cause, LineFault, ParseFault, ScriptFault};
use script_text::{first_line, first_text, is_utf8};
use std::alloc::Global;
use std::marker::Model;
use world_model::Op;
use xdr_codec::Memory;

/// The most bytes of a script.
const MOST_BYTES: usize = 1_048_576;

/// The most lines of a script.
const MOST_LINES: u32 = 16_384;

/// The greatest number of a line, if lines are numbered on from script to script.
const LAST_LINE: u32 = 268_435_455;

/// An operation of a script.
#[derive(Debug, Drop)]
pub struct ScriptLine {
    /// Its lane, from 1 on.
    pub lane: u8,
    /// The number of its line, from 1 on.
    pub line: u32,
    /// What it asks for.
    pub op: Op,
}

/// A script that was read: its operations in the order of their lines.
#[derive(Debug, Drop)]
pub struct Script {
    lines: Vec<ScriptLine>,
}

impl Model for Script {
    ghost use Rattle.std.specs.Prelude.{List};
    ghost use Rattle.nfs_script.specs.declared.script.ScriptLine.{ScriptLine};

    ghost Value = { List ScriptLine };

    ghost view = { λ s. s.lines.items };
}

impl Script {
    /// How many operations it has.
    pub fn count(&self) -> usize
        ensures { result ≡ length self.now }
    {
        self.lines.len()
    }

    /// The lane, the line number and the operation at a place, counted from 0.
    pub fn op(&self, n: usize) -> (u8, u32, &Op)
        requires { n < length self.now }
        ensures { slice_get self.now n ≡ Some (record { lane = result.0; line = result.1; op = result.2.now }) }
    {
        let line = &self.lines[n];
        (line.lane, line.line, &line.op)
    }

    /// The script that asks for these operations, in this order. It takes no memory.
    pub fn of(lines: Vec<ScriptLine>) -> Script
        ensures { result ≡ lines.items }
    {
        Script { lines }
    }

    /// Nothing is asked for.
    fn new(alloc: Global) -> Script
        ensures { result ≡ [] }
    {
        Script {
            lines: Vec::new(alloc),
        }
    }

    /// Takes over the line of that number.
    fn read_line(&mut self, alloc: Global, number: u32, line: &[u8]) -> Result<(), ParseFault>
        ensures { Takes (after_line number self.old line.now) result self.new }
    {
        match asked(alloc, number, line) {
            Ok(Some(asked)) => Ok(self.add(asked)?),
            Ok(None) => Ok(()),
            Err(LineFault::Refused(cause)) => Err(ParseFault::Script(cause.at(number))),
            Err(LineFault::Memory) => Err(ParseFault::Memory),
        }
    }

    /// Takes over the line of that number. The fault is that of the line or of what follows it as text, or else what is wrong with the line.
    fn read_next(
        &mut self,
        alloc: Global,
        last: u32,
        number: u32,
        line: &[u8],
        is_text: bool,
        rest: &[u8],
    ) -> Result<(), ParseFault>
        requires text { is_text ≡ is_utf8 line.now }
        requires number { number ≤ 268435456 }
        requires within { last ≤ 268435455 }
        requires short { length rest.now ≤ 1048576 }
        ensures { GoesOn last number self.old line.now (lines rest.now) result self.new }
    {
        if !is_text {
            return Err(ParseFault::Script(Cause::Utf8.at(number)));
        }
        match self.read_line(alloc, number, line) {
            Ok(()) => Ok(()),
            Err(fault) => Err(first_fault(last, number, rest, fault)),
        }
    }

    /// Takes over the lines of a text, after so many lines. Those behind the last that there may be are only looked at as text.
    fn read_to_end(
        &mut self,
        alloc: Global,
        last: u32,
        before: u32,
        text: &[u8],
    ) -> Result<(), ParseFault>
        requires before { before ≤ 268435456 }
        requires within { last ≤ 268435455 }
        requires short { length text.now ≤ 1048576 }
        ensures { Takes (lines_by last before self.old (lines text.now)) result self.new }
    {
        let mut rest = text;
        let mut number = before;
        while number < last && !rest.is_empty() {
            let (line, after, is_text) = first_text(rest);
            number += 1;
            match self.read_next(alloc, last, number, line, is_text, after) {
                Ok(()) => {}
                Err(fault) => return Err(fault),
            }
            rest = after;
        }
        check_lines(last, number, rest)
    }

    /// Takes over what a line asks for.
    fn add(&mut self, asked: ScriptLine) -> Result<(), Memory>
        ensures { OnOk result (self.new ≡ self.old ++ asked ∷ []) }
    {
        self.lines.push(asked)?;
        Ok(())
    }
}

/// Reads a script of at most 1,048,576 bytes and 16,384 lines. Empty lines and lines that begin with `#` are skipped, and counted.
///
/// The fault is the first of these that there is:
/// - that of the text's length;
/// - the first line that isn't UTF-8;
/// - that there are too many lines;
/// - the first faulty line: in it the lane, then the command and how many words it has, then those words from left to right.
pub fn parse(alloc: Global, text: &[u8]) -> Result<Script, ParseFault>
    ensures read { IsParsed (script_of text.now) result }
    ensures asked { IfOk result (All IsAskedLine) }
    ensures few { IfOk result (λ script. length script ≤ 16384) }
{
    read_by(alloc, MOST_LINES, 0, text)
}

/// Reads a script as `parse` does, but its lines are numbered on from so many lines before it. The greatest number is
/// 268,435,455: a script whose lines go beyond it has too many.
pub fn parse_from(alloc: Global, before: u32, text: &[u8]) -> Result<Script, ParseFault>
    requires { before ≤ 268435456 }
    ensures read { IsParsed (script_from before text.now) result }
    ensures asked { IfOk result (All IsAskedLine) }
    ensures few { IfOk result (λ script. length script ≤ 16384) }
{
    let last = last_line(before);
    read_by(alloc, last, before, text)
}

/// The last line that a script may have after so many lines.
#[tactic(auto, unfolding(crate::specs::Script::last_line))]
fn last_line(before: u32) -> u32
    requires { before ≤ 268435456 }
    ensures is { result ≡ last_line before }
    ensures within { result ≤ 268435455 }
    ensures near { result ≤ before + 16384 }
{
    (before + MOST_LINES).min(LAST_LINE)
}

/// Reads a script after so many lines, none of which is behind the last one.
fn read_by(alloc: Global, last: u32, before: u32, text: &[u8]) -> Result<Script, ParseFault>
    requires before { before ≤ 268435456 }
    requires within { last ≤ 268435455 }
    requires near { last ≤ before + 16384 }
    ensures read { IsParsed (script_by last before text.now) result }
    ensures asked { IfOk result (All IsAskedLine) }
    ensures few { IfOk result (λ script. length script ≤ 16384) }
{
    if text.len() > MOST_BYTES {
        return Err(ParseFault::Script(Cause::Long.at(0)));
    }
    read_lines(alloc, last, before, text)
}

/// The first line that isn't UTF-8, or else that there are too many.
fn lines_fault(last: u32, before: u32, text: &[u8]) -> Option<ScriptFault>
    requires before { before ≤ 268435456 }
    requires within { last ≤ 268435455 }
    requires short { length text.now ≤ 1048576 }
    ensures { result ≡ lines_fault last before (lines text.now) }
{
    let mut rest = text;
    let mut number = before;
    while !rest.is_empty() {
        let (line, after) = first_line(rest);
        number += 1;
        if !is_utf8(line) {
            return Some(Cause::Utf8.at(number));
        }
        rest = after;
    }
    if number > last {
        return Some(Cause::ManyLines.at(last + 1));
    }
    None
}

/// What the lines ask for, after so many lines, or their fault.
fn read_lines(alloc: Global, last: u32, before: u32, text: &[u8]) -> Result<Script, ParseFault>
    requires before { before ≤ 268435456 }
    requires within { last ≤ 268435455 }
    requires short { length text.now ≤ 1048576 }
    ensures { IsParsed (lines_by last before [] (lines text.now)) result }
{
    let mut script = Script::new(alloc);
    match script.read_to_end(alloc, last, before, text) {
        Ok(()) => Ok(script),
        Err(fault) => Err(fault),
    }
}

/// The fault that what follows a faulty line has as text, or else that of the line.
fn first_fault(last: u32, number: u32, rest: &[u8], fault: ParseFault) -> ParseFault
    requires before { number ≤ 268435456 }
    requires within { last ≤ 268435455 }
    requires short { length rest.now ≤ 1048576 }
    ensures { result ≡ first_of_faults last number (lines rest.now) fault }
{
    match lines_fault(last, number, rest) {
        Some(text_fault) => ParseFault::Script(text_fault),
        None => fault,
    }
}

/// Whether lines have a fault as text, after so many lines.
fn check_lines(last: u32, before: u32, text: &[u8]) -> Result<(), ParseFault>
    requires before { before ≤ 268435456 }
    requires within { last ≤ 268435455 }
    requires short { length text.now ≤ 1048576 }
    ensures { AreText (lines_fault last before (lines text.now)) result }
{
    match lines_fault(last, before, text) {
        Some(fault) => Err(ParseFault::Script(fault)),
        None => Ok(()),
    }
}
