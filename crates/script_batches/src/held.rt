//! Bytes that were read from the source and aren't taken yet.

ghost use Rattle.std.specs.Prelude.{◌≡◌, ◌≤◌, [], IfOk, OnOk, length};
ghost use Rattle.outside.specs.Causes.{Rose};
ghost use Rattle.script_batches.specs.Taking.{Fills, GivesLine, Goes, HasFault, HoldsSome, IsUsed, Reads, ReadsPiece, TakesPiece, UsesUp, is_none_left};

use crate::lines::{extend_front, feed};
use outside::{Failed, Source};
use std::alloc::{AllocError, Global};
use std::marker::Model;
use xdr_codec::Memory;

/// How many bytes are asked for at once.
const PIECE: usize = 4096;

/// Why a batch could not be read.
#[derive(Clone, Copy, Debug, PartialEq, Eq)]
pub enum ReadFault {
    /// The source failed.
    Failed,
    /// Out of memory.
    Memory,
}

impl From<Failed> for ReadFault {
    ghost use Rattle.std.specs.Prelude.{◌≡◌};
    ghost use Rattle.script_batches.specs.declared.held.ReadFault.TheVariants as faults;

    ghost from_gives = { λ _ e. e ≡ faults.Failed };

    fn from(_failed: Failed) -> ReadFault {
        ReadFault::Failed
    }
}

impl From<AllocError> for ReadFault {
    ghost use Rattle.std.specs.Prelude.{◌≡◌};
    ghost use Rattle.script_batches.specs.declared.held.ReadFault.TheVariants as faults;

    ghost from_gives = { λ _ e. e ≡ faults.Memory };

    fn from(_error: AllocError) -> ReadFault {
        ReadFault::Memory
    }
}

/// The bytes that are held, in their order.
#[derive(Debug, Drop)]
pub(crate) struct Held {
    bytes: Vec<u8>,
    at: usize,
    /// How many reads may still be made: an input has an end.
    reads: u64,
}

impl Model for Held {
    ghost use Rattle.std.specs.Prelude.{◌≤◌, drop, length};
    ghost use Rattle.script_batches.specs.Batches.{HeldView};

    ghost Value = { HeldView };

    ghost view = { λ s. record { bytes = drop s.at s.bytes.items; reads = s.reads } };

    ghost invariant = { λ s. s.at ≤ length s.bytes.items };
}

impl Held {
    /// Nothing is held.
    pub(crate) fn new(alloc: Global) -> Held
        ensures { result ≡ record { bytes = []; reads = 18446744073709551615 } }
    {
        Held {
            bytes: Vec::new(alloc),
            at: 0,
            reads: u64::MAX,
        }
    }

    /// Whether nothing is held.
    fn is_empty(&self) -> bool
        ensures { result ≡ is_none_left self.now.bytes }
    {
        self.at == self.bytes.len()
    }

    /// Takes the next piece of a line, and adds it to the line, of which a front is kept. True if the line is at its end: its line feed was taken, or the
    /// input ended.
    fn take_next<S: Source>(
        &mut self,
        alloc: Global,
        source: &mut S,
        line: &mut Vec<u8>,
    ) -> Result<bool, ReadFault>
        requires { length line.old.items ≤ 1048577 }
        ensures goes { IfOk result (Goes (S.left source.old) (S.left source.new) self.old self.new line.old.items line.new.items) }
        ensures uses { IfOk result (UsesUp self.old self.new line.old.items line.new.items) }
        ensures kept { IfOk result (λ _. length line.new.items ≤ 1048577) }
        ensures later { S.faults source.old ≤ S.faults source.new }
        ensures cause { HasFault result (Rose (S.faults source.old) (S.faults source.new)) }
    {
        match self.fill(alloc, source) {
            Ok(any) => {
                if any {
                    match self.take_piece(line) {
                        Ok(ends) => Ok(ends),
                        Err(_) => Err(ReadFault::Memory),
                    }
                } else {
                    Ok(true)
                }
            }
            Err(fault) => Err(fault),
        }
    }

    /// Reads a line with its line feed, of which a front is kept; nothing at the end of the input.
    pub(crate) fn next_line<S: Source>(
        &mut self,
        alloc: Global,
        source: &mut S,
    ) -> Result<Vec<u8>, ReadFault>
        ensures gives { IfOk result (λ line. GivesLine (S.left source.old) (S.left source.new) self.old self.new line.items) }
        ensures kept { IfOk result (λ line. length line.items ≤ 1048577) }
        ensures used { IfOk result (λ line. IsUsed self.old self.new line.items) }
        ensures later { S.faults source.old ≤ S.faults source.new }
        ensures cause { HasFault result (Rose (S.faults source.old) (S.faults source.new)) }
    {
        let mut line = Vec::new(alloc);
        'taking: loop {
            match self.take_next(alloc, source, &mut line) {
                Ok(ended) => {
                    if ended {
                        return Ok(line);
                    }
                }
                Err(fault) => return Err(fault),
            }
        }
    }

    /// Reads a piece from the source if nothing is held. Whether anything is held now: nothing is at the end of the input.
    fn fill<S: Source>(&mut self, alloc: Global, source: &mut S) -> Result<bool, ReadFault>
        ensures filled { IfOk result (Fills (S.left source.old) (S.left source.new) self.old.bytes self.new.bytes) }
        ensures holds { IfOk result (HoldsSome self.old self.new) }
        ensures later { S.faults source.old ≤ S.faults source.new }
        ensures cause { HasFault result (Rose (S.faults source.old) (S.faults source.new)) }
    {
        if !self.is_empty() {
            return Ok(true);
        }
        match self.read(alloc, source) {
            Ok(count) => Ok(count > 0),
            Err(fault) => Err(fault),
        }
    }

    /// Reads a piece from the source, and answers how many bytes it has; 0 is the end. After 2^64 - 1 reads none is made, as if memory had run out.
    fn read<S: Source>(&mut self, alloc: Global, source: &mut S) -> Result<usize, ReadFault>
        ensures read { IfOk result (Reads (S.left source.old) (S.left source.new) self.new.bytes) }
        ensures piece { IfOk result (ReadsPiece self.old self.new) }
        ensures later { S.faults source.old ≤ S.faults source.new }
        ensures cause { HasFault result (Rose (S.faults source.old) (S.faults source.new)) }
    {
        if self.reads == 0 {
            return Err(ReadFault::Memory);
        }
        self.reads -= 1;
        let mut buffer = [0; PIECE];
        let count = source.read(&mut buffer)?;
        let (piece, _) = buffer.split_at(count);
        self.hold(alloc, piece)?;
        Ok(count)
    }

    /// Holds these bytes.
    fn hold(&mut self, alloc: Global, piece: &[u8]) -> Result<(), AllocError>
        ensures { OnOk result (self.new ≡ record self.old { bytes = piece.now }) }
    {
        let mut bytes = Vec::new(alloc);
        bytes.extend_from_slice(piece)?;
        self.bytes = bytes;
        self.at = 0;
        Ok(())
    }

    /// Takes what is held up to the first line feed, with it, or all of it; and adds it to the line, of which a front is kept.
    /// True if that is the end of the line.
    fn take_piece(&mut self, line: &mut Vec<u8>) -> Result<bool, Memory>
        requires { length line.old.items ≤ 1048577 }
        ensures taken { IfOk result (TakesPiece self.old.bytes self.new.bytes line.old.items line.new.items) }
        ensures reads { self.new.reads ≡ self.old.reads }
    {
        let (_, left) = self.bytes.as_slice().split_at(self.at);
        match feed(left) {
            Some(at) => {
                let (piece, _) = left.split_at(at + 1);
                extend_front(line, piece)?;
                self.at += at + 1;
                Ok(true)
            }
            None => {
                extend_front(line, left)?;
                self.at = self.bytes.len();
                Ok(false)
            }
        }
    }
}
