//! Bytes of a file that stand next to each other and came by one write.

ghost use Rattle.std.specs.Prelude.{◌≡◌, ◌^◌, ◌<◌, ◌≤◌, length, take, IfOk};
ghost use Rattle.write_back.specs.Segments.{head_of, tail_of, with_state, own_size};

use crate::run::rest_of;
use crate::state::State;
use std::alloc::Global;
use std::marker::Model;
use xdr_codec::{Blob, Memory};

/// Bytes of a file that stand next to each other and came by one write.
#[derive(Drop)]
pub struct Segment {
    bytes: Blob,
    number: u64,
    state: State,
}

impl Model for Segment {
    ghost use Rattle.write_back.specs.Segments.{Segment};

    ghost Value = { Segment };

    ghost view = { λ s. record { bytes = s.bytes; number = s.number; state = s.state } };
}

impl Segment {
    /// These bytes, with the number of their write and what became of them. They are shared or copied as by `rest_of`.
    pub fn of(alloc: Global, bytes: &Blob, number: u64, state: State) -> Result<Segment, Memory>
        ensures { IfOk result (λ s. s ≡ record { bytes = bytes.now; number = number; state = state }) }
    {
        Ok(Segment {
            bytes: rest_of(alloc, bytes, 0)?,
            number,
            state,
        })
    }

    /// Its bytes.
    pub fn bytes(&self) -> &[u8]
        ensures { result.now ≡ self.now.bytes }
    {
        self.bytes.bytes()
    }

    /// How many bytes it has.
    pub fn len(&self) -> u64
        ensures len { result ≡ length self.now.bytes }
        ensures small { result < 2 ^ 63 }
    {
        self.bytes.len() as u64
    }

    /// How many of its bytes count for themselves: those in flight count with their piece.
    pub fn own_len(&self) -> u64
        ensures len { result ≡ own_size self.now }
        ensures small { result < 2 ^ 63 }
    {
        if self.state.is_in_flight() {
            0
        } else {
            self.len()
        }
    }

    /// The number of the write that it came by.
    pub fn number(&self) -> u64
        ensures { result ≡ self.now.number }
    {
        self.number
    }

    /// What became of it.
    pub fn state(&self) -> State
        ensures { result ≡ self.now.state }
    {
        self.state
    }

    /// Keeps the first bytes alone.
    pub fn shorten(&mut self, len: usize)
        ensures { self.new ≡ head_of len self.old }
    {
        self.bytes.shorten(len);
    }

    /// Its first bytes, which aren't copied.
    pub fn head(&self, alloc: Global, len: usize) -> Result<Blob, Memory>
        ensures { IfOk result (λ b. b ≡ take len self.now.bytes) }
    {
        let mut head = self.bytes.again(alloc)?;
        head.shorten(len);
        Ok(head)
    }

    /// Its bytes from a place on.
    pub fn tail(&self, alloc: Global, from: usize) -> Result<Segment, Memory>
        requires { from ≤ length self.now.bytes }
        ensures { IfOk result (λ s. s ≡ tail_of from self.now) }
    {
        Ok(Segment {
            bytes: rest_of(alloc, &self.bytes, from)?,
            number: self.number,
            state: self.state,
        })
    }

    /// Something else became of it.
    pub fn turn(&mut self, state: State)
        ensures { self.new ≡ with_state state self.old }
    {
        self.state = state;
    }
}
