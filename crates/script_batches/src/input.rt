//! An input as a sequence of batches.

ghost use Rattle.std.specs.Prelude.{◌≡◌, ◌≤◌, ◌<◌, [], IfOk, IfSome, length};
ghost use Rattle.std.specs.Option.{option_map};
ghost use Rattle.outside.specs.Causes.{Rose};
ghost use Rattle.script_batches.specs.Batches.{work_left};
ghost use Rattle.script_batches.specs.Taking.{AddsLine, Gives, GivesLine, HasFault, IsCountedIn, IsUsed, TakesLine, TookLines, adds_line, batch_of, read_of, rest_of};

use crate::held::{Held, ReadFault};
use crate::lines::{extend_front, is_go, is_idle};
use outside::Source;
use std::alloc::Global;
use std::marker::Model;
use xdr_codec::Memory;

/// Lines are counted up to this number: one more than the greatest number of a line.
const MOST_COUNTED: u32 = 268_435_456;

/// A batch of an input, as it was read.
#[derive(Debug, Drop)]
pub struct Batch {
    /// How many lines of the input stand before it; 268,435,456 for that many and more.
    pub before: u32,
    /// How many lines were read with it, and with the line that ended it; counted likewise.
    pub last: u32,
    /// Its lines; of a batch with more than 1,048,576 bytes the first 1,048,577.
    pub text: Vec<u8>,
    /// Whether a line `go` ended it. Else the input ended first.
    pub ended: bool,
}

/// What came of a line.
#[derive(Clone, Copy)]
enum Taken {
    /// It is one of the batch.
    Line,
    /// It ended the batch.
    Go,
    /// There is none: the input ended.
    End,
}

/// The batches of an input that are left.
#[derive(Debug, Drop)]
pub struct Batches {
    held: Held,
    lines: u32,
}

impl Model for Batches {
    ghost use Rattle.std.specs.Prelude.{◌≤◌};
    ghost use Rattle.script_batches.specs.Batches.{InputView};

    ghost Value = { InputView };

    ghost view = { λ s. record { held = s.held; lines = s.lines } };

    ghost invariant = { λ s. s.lines ≤ 268435456 };
}

impl Batches {
    /// All batches of an input, of which nothing was read.
    pub fn new(alloc: Global) -> Batches
        ensures { result ≡ record { held = record { bytes = []; reads = 18446744073709551615 }; lines = 0 } }
    {
        Batches {
            held: Held::new(alloc),
            lines: 0,
        }
    }

    /// Reads the next batch up to its `go`; none at the end of the input. Lines that ask for nothing behind the last `go` are no batch.
    /// Memory is bounded: of a batch that is too long a front is kept.
    pub fn next<S: Source>(
        &mut self,
        alloc: Global,
        source: &mut S,
    ) -> Result<Option<Batch>, ReadFault>
        ensures gives { IfOk result (Gives (S.left source.old) (S.left source.new) self.old self.new) }
        ensures counted { IfOk result (λ r. IfSome r IsCountedIn) }
        ensures less { IfOk result (λ r. IfSome r (λ _. work_left self.new.held < work_left self.old.held)) }
        ensures later { S.faults source.old ≤ S.faults source.new }
        ensures cause { HasFault result (Rose (S.faults source.old) (S.faults source.new)) }
    {
        let before = self.lines;
        let mut text = Vec::new(alloc);
        match self.take_lines(alloc, source, &mut text) {
            Ok(ended) => Ok(self.batch_of(before, text, ended)),
            Err(fault) => Err(fault),
        }
    }

    /// Takes lines into the text of a batch, of which a front is kept, up to a `go` or to the end of the input. True if there was a `go`.
    fn take_lines<S: Source>(
        &mut self,
        alloc: Global,
        source: &mut S,
        text: &mut Vec<u8>,
    ) -> Result<bool, ReadFault>
        requires counted { self.old.lines ≤ 268435456 }
        requires empty { text.old.items ≡ [] }
        ensures took { IfOk result (TookLines (S.left source.old) (S.left source.new) self.old self.new text.new.items) }
        ensures later { S.faults source.old ≤ S.faults source.new }
        ensures cause { HasFault result (Rose (S.faults source.old) (S.faults source.new)) }
    {
        'reading: loop {
            match self.take_line(alloc, source, text) {
                Ok(Taken::Line) => {}
                Ok(Taken::Go) => return Ok(true),
                Ok(Taken::End) => return Ok(false),
                Err(fault) => return Err(fault),
            }
        }
    }

    /// Takes a line into the text of a batch.
    fn take_line<S: Source>(
        &mut self,
        alloc: Global,
        source: &mut S,
        text: &mut Vec<u8>,
    ) -> Result<Taken, ReadFault>
        requires { length text.old.items ≤ 1048577 }
        ensures took { IfOk result (TakesLine (S.left source.old) (S.left source.new) self.old self.new text.old.items text.new.items) }
        ensures kept { IfOk result (λ _. length text.new.items ≤ 1048577) }
        ensures later { S.faults source.old ≤ S.faults source.new }
        ensures cause { HasFault result (Rose (S.faults source.old) (S.faults source.new)) }
    {
        match self.next_line(alloc, source) {
            Ok(line) => match self.add(line.as_slice(), text) {
                Ok(taken) => Ok(taken),
                Err(_) => Err(ReadFault::Memory),
            },
            Err(fault) => Err(fault),
        }
    }

    /// Reads a line with its line feed, of which a front is kept; nothing at the end of the input.
    fn next_line<S: Source>(&mut self, alloc: Global, source: &mut S) -> Result<Vec<u8>, ReadFault>
        ensures gives { IfOk result (λ line. GivesLine (S.left source.old) (S.left source.new) self.old.held self.new.held line.items) }
        ensures lines { self.new.lines ≡ self.old.lines }
        ensures kept { IfOk result (λ line. length line.items ≤ 1048577) }
        ensures used { IfOk result (λ line. IsUsed self.old.held self.new.held line.items) }
        ensures later { S.faults source.old ≤ S.faults source.new }
        ensures cause { HasFault result (Rose (S.faults source.old) (S.faults source.new)) }
    {
        self.held.next_line(alloc, source)
    }

    /// Counts a line, and puts it behind the text of a batch, of which a front is kept, unless it ends the batch. Nothing is the end of the input.
    fn add(&mut self, line: &[u8], text: &mut Vec<u8>) -> Result<Taken, Memory>
        requires line { length line.now ≤ 1048577 }
        requires text { length text.old.items ≤ 1048577 }
        ensures adds { IfOk result (AddsLine self.old self.new line.now text.old.items text.new.items) }
        ensures kept { IfOk result (λ _. length text.new.items ≤ 1048577) }
    {
        if line.is_empty() {
            return Ok(Taken::End);
        }
        self.count();
        if is_go(line) {
            return Ok(Taken::Go);
        }
        extend_front(text, line)?;
        Ok(Taken::Line)
    }

    /// One more line was read.
    fn count(&mut self)
        ensures { self.new ≡ adds_line self.old }
    {
        if self.lines < MOST_COUNTED {
            self.lines += 1;
        }
    }

    /// The batch that was read: up to its end, or what there is at the end of the input.
    fn batch_of(&self, before: u32, text: Vec<u8>, ended: bool) -> Option<Batch>
        requires { length text.items ≤ 1048577 }
        ensures { option_map read_of result ≡ batch_of ended before self.now.lines text.items }
    {
        if ended {
            Some(self.batch(before, text, true))
        } else {
            self.rest(before, text)
        }
    }

    /// The batch that was read.
    fn batch(&self, before: u32, text: Vec<u8>, ended: bool) -> Batch
        ensures { result ≡ record { before = before; last = self.now.lines; text = text; ended = ended } }
    {
        Batch {
            before,
            last: self.lines,
            text,
            ended,
        }
    }

    /// What there is at the end of the input: a batch without its end, unless it asks for nothing.
    fn rest(&self, before: u32, text: Vec<u8>) -> Option<Batch>
        requires { length text.items ≤ 1048577 }
        ensures { option_map read_of result ≡ rest_of before self.now.lines text.items }
    {
        if is_idle(text.as_slice()) {
            None
        } else {
            Some(self.batch(before, text, false))
        }
    }
}
