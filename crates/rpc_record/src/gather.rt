//! A record that is put together from the fragments of a stream, however the stream is cut.

ghost use Rattle.std.specs.Prelude.{◌≡◌, ◌≤◌, ◌<◌, ◌+◌, ◌%◌, ◌^◌, ◌++◌, [], ℕ, List, length, drop, IfOk, IsErr};
ghost use Rattle.std.specs.Bool.{OnTrue, OnFalse};
ghost use Rattle.byteorder.specs.Endian.{big_number};
ghost use Rattle.rpc_record.specs.declared.gather.Phase.TheVariants as phases;
ghost use Rattle.rpc_record.specs.Gather.{Advances, IsOpen, begins, goes_on, unbegun};

use byteorder::{BigEndian, ByteOrder};
use limits::RECORD_BYTES;
use std::alloc::Global;
use std::marker::Model;
use std::mem;
use xdr_codec::Memory;

/// The most fragments of a record.
const MOST_FRAGMENTS: u32 = 4096;

/// The bytes of a fragment's header.
const HEADER: usize = 4;

/// The bit of a header that is set on the last fragment of a record.
const LAST: u32 = 0x8000_0000;

/// Where in a record the bytes that came end.
#[derive(Clone, Copy, Debug, PartialEq, Eq)]
pub enum Phase {
    /// In or before a header.
    Header,
    /// In a fragment of which so many bytes are to come, at least one; another fragment may follow.
    Body { left: usize, more: bool },
    /// At the end of the record.
    Whole,
    /// In a record that is past the limits.
    Long,
}

/// A record that is being put together.
#[derive(Debug, Drop)]
pub(crate) struct Gather {
    record: Vec<u8>,
    header: Vec<u8>,
    fragments: u32,
    phase: Phase,
}

impl Model for Gather {
    ghost use Rattle.std.specs.Prelude.{◌≤◌, length};
    ghost use Rattle.rpc_record.specs.Gather.{Gathered, IsGathered};

    ghost Value = { Gathered };

    ghost view = { λ g. record { front = g.record.items; header = g.header.items; fragments = g.fragments; phase = g.phase } };

    ghost invariant = { λ g. IsGathered g.phase g.record.items g.header.items };
}

/// The word of a header.
fn word(bytes: &[u8]) -> u32
    requires { 4 ≤ length bytes.now }
    ensures { result ≡ big_number 4 bytes.now }
{
    BigEndian::read_u32(bytes)
}

/// Where a record is after a header, by its word, the bytes before it and the fragments that may begin.
fn begun(word: u32, size: usize, fragments: u32) -> Phase
    requires { size ≤ 131072 }
    ensures { result ≡ begins word size fragments }
{
    let len = (word % LAST) as usize;
    if fragments == 0 || len > RECORD_BYTES - size {
        return Phase::Long;
    }
    if len > 0 {
        return Phase::Body {
            left: len,
            more: word < LAST,
        };
    }
    if word < LAST {
        Phase::Header
    } else {
        Phase::Whole
    }
}

/// Where a record is after so many bytes of a fragment.
fn gone_on(left: usize, more: bool, count: usize) -> Phase
    requires { count ≤ left }
    ensures { result ≡ goes_on left more count }
{
    if count < left {
        return Phase::Body {
            left: left - count,
            more,
        };
    }
    if more { Phase::Header } else { Phase::Whole }
}

impl Gather {
    /// No byte yet.
    pub(crate) fn new(alloc: Global) -> Gather
        ensures { result ≡ unbegun }
    {
        Gather {
            record: Vec::new(alloc),
            header: Vec::new(alloc),
            fragments: MOST_FRAGMENTS,
            phase: Phase::Header,
        }
    }

    /// Where it is.
    pub(crate) fn phase(&self) -> Phase
        ensures { result ≡ self.now.phase }
    {
        self.phase
    }

    /// Whether it takes no more bytes, since the record ended or is past the limits.
    pub(crate) fn is_closed(&self) -> bool
        ensures closed { OnTrue result (IsOpen self.now.phase → ⊥) }
        ensures open { OnFalse result (IsOpen self.now.phase) }
    {
        match self.phase {
            Phase::Header => false,
            Phase::Body { left: _, more: _ } => false,
            Phase::Whole => true,
            Phase::Long => true,
        }
    }

    /// Begins anew.
    pub(crate) fn clear(&mut self)
        ensures { self.new ≡ unbegun }
    {
        self.record.clear();
        self.header.clear();
        self.fragments = MOST_FRAGMENTS;
        self.phase = Phase::Header;
    }

    /// Hands the record out in place of what rec held, and begins anew.
    pub(crate) fn hand_out(&mut self, rec: &mut Vec<u8>)
        requires { self.old.phase ≡ phases.Whole }
        ensures rec { rec.new.items ≡ self.old.front }
        ensures anew { self.new ≡ unbegun }
    {
        mem::swap(&mut self.record, rec);
        self.clear();
    }

    /// Takes bytes from the front, and answers how many: at least one. When out of memory none was taken.
    pub(crate) fn take(&mut self, bytes: &[u8]) -> Result<usize, Memory>
        requires some { 0 < length bytes.now }
        requires on { IsOpen self.old.phase }
        ensures took { IfOk result (Advances self.old self.new bytes.now) }
        ensures err { IsErr result → self.new ≡ self.old }
    {
        match self.phase {
            Phase::Header => self.take_header(bytes),
            Phase::Body { left, more } => self.take_body(left, more, bytes),
            Phase::Whole | Phase::Long => unreachable!(),
        }
    }

    /// Takes bytes of a header.
    fn take_header(&mut self, bytes: &[u8]) -> Result<usize, Memory>
        requires some { 0 < length bytes.now }
        requires on { self.old.phase ≡ phases.Header }
        ensures took { IfOk result (Advances self.old self.new bytes.now) }
        ensures err { IsErr result → self.new ≡ self.old }
    {
        let count = bytes.len().min(HEADER - self.header.len());
        let (front, _) = bytes.split_at(count);
        self.header.extend_from_slice(front)?;
        if self.header.len() == HEADER {
            self.phase = begun(word(&self.header), self.record.len(), self.fragments);
            self.header.clear();
            self.fragments = self.fragments.saturating_sub(1);
        }
        Ok(count)
    }

    /// Takes bytes of a fragment.
    fn take_body(&mut self, left: usize, more: bool, bytes: &[u8]) -> Result<usize, Memory>
        requires some { 0 < length bytes.now }
        requires on { self.old.phase ≡ phases.Body left more }
        ensures took { IfOk result (Advances self.old self.new bytes.now) }
        ensures err { IsErr result → self.new ≡ self.old }
    {
        let count = bytes.len().min(left);
        let (front, _) = bytes.split_at(count);
        self.record.extend_from_slice(front)?;
        self.phase = gone_on(left, more, count);
        Ok(count)
    }
}
