//! A piece in flight: what was sent under an xid.

ghost use Rattle.std.specs.Prelude.{◌≡◌, ◌+◌, ◌^◌, ◌<◌, ◌≤◌, ◌++◌, [], ◌∷◌, length, IfOk, OnOk, OnErr};
ghost use Rattle.std.specs.Vec.{vec_capacity};
ghost use Rattle.write_back.specs.Pieces.{end_of_sent, overlaps};
ghost use Rattle.write_back.specs.Segments.{head_of};

use crate::run::Runs;
use crate::segment::Segment;
use crate::state::{Ready, State};
use std::alloc::Global;
use std::marker::Model;
use xdr_codec::{Blob, Memory};

/// A part of a piece: bytes of one segment.
#[derive(Clone, Copy, Debug)]
pub struct Part {
    /// How many bytes it has.
    pub size: u64,
    /// The number of the write that it came by.
    pub number: u64,
    /// What became of it before it was sent.
    pub before: Ready,
}

/// The bytes that were sent under an xid, and the parts that they came from, in order. They stay as they were sent when
/// newer bytes are written over them. It begins below 2^63.
#[derive(Drop)]
pub struct SentPiece {
    xid: u32,
    offset: u64,
    how: u32,
    bytes: Runs,
    parts: Vec<Part>,
}

impl Model for SentPiece {
    ghost use Rattle.write_back.specs.Pieces.{Sent};
    ghost use Rattle.std.specs.Prelude.{◌<◌, ◌^◌};

    ghost Value = { Sent };

    ghost view = { λ p. record { xid = p.xid; offset = p.offset; how = p.how; bytes = p.bytes; parts = p.parts.items } };

    ghost invariant = { λ p. p.offset < 2 ^ 63 };
}

impl SentPiece {
    /// A piece that begins at an offset and has no bytes yet.
    pub fn new(alloc: Global, xid: u32, offset: u64, how: u32) -> SentPiece
        requires { offset < 2 ^ 63 }
        ensures { result ≡ record { xid = xid; offset = offset; how = how; bytes = []; parts = [] } }
    {
        SentPiece {
            xid,
            offset,
            how,
            bytes: Runs::new(alloc),
            parts: Vec::new(alloc),
        }
    }

    /// The xid of the call that sent it (RFC 5531, section 9).
    pub fn xid(&self) -> u32
        ensures { result ≡ self.now.xid }
    {
        self.xid
    }

    /// Where its first byte stands in the file.
    pub fn offset(&self) -> u64
        ensures { result ≡ self.now.offset }
    {
        self.offset
    }

    /// How it was sent: 2 as stable, 0 otherwise (RFC 1813, section 3.3.7, stable_how).
    pub fn how(&self) -> u32
        ensures { result ≡ self.now.how }
    {
        self.how
    }

    /// The bytes as they were sent.
    pub fn bytes(&self) -> &[u8]
        ensures { result.now ≡ self.now.bytes }
    {
        self.bytes.bytes()
    }

    /// The bytes as a blob, in room that was taken for them if they have to be copied.
    pub fn blob(&self, alloc: Global, room: Vec<u8>) -> Blob
        requires empty { room.items ≡ [] }
        requires fits { length self.now.bytes ≤ vec_capacity room }
        ensures { result ≡ self.now.bytes }
    {
        self.bytes.blob(alloc, room)
    }

    /// The parts that they came from, in order.
    pub fn parts(&self) -> &[Part]
        ensures { result.now ≡ self.now.parts }
    {
        self.parts.as_slice()
    }

    /// How many bytes it has.
    pub fn len(&self) -> u64
        ensures len { result ≡ length self.now.bytes }
        ensures small { result < 2 ^ 63 }
    {
        self.bytes.len() as u64
    }

    /// Where its last byte ends.
    pub fn end(&self) -> u64
        ensures { result ≡ end_of_sent self.now }
    {
        self.offset + self.len()
    }

    /// Takes another xid.
    pub fn renumber(&mut self, to: u32)
        ensures { self.new ≡ record { xid = to; offset = self.old.offset; how = self.old.how; bytes = self.old.bytes; parts = self.old.parts } }
    {
        self.xid = to;
    }

    /// Takes bytes of one segment after those that it has. After an error it isn't to be used.
    pub fn take(&mut self, bytes: Blob, number: u64, before: Ready) -> Result<(), Memory>
        ensures { OnOk result (self.new ≡ record { xid = self.old.xid; offset = self.old.offset; how = self.old.how; bytes = self.old.bytes ++ bytes; parts = self.old.parts ++ record { size = length bytes; number = number; before = before } ∷ [] }) }
    {
        let size = bytes.len() as u64;
        self.bytes.add(bytes)?;
        self.parts.push(Part {
            size,
            number,
            before,
        })?;
        Ok(())
    }
}

/// Whether something in flight shares a place with those from one to another.
pub fn overlaps(sent: &[SentPiece], low: u64, high: u64) -> bool
    ensures { result ≡ overlaps sent.now low high }
{
    sent.iter()
        .any(|piece| piece.offset() < high && low < piece.end())
}
