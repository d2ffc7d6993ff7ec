//! Room for the bytes that a read answers with.

ghost use Rattle.std.specs.Prelude.{◌≡◌, [], ◌≤◌, IfOk};
ghost use Rattle.std.specs.Vec.{vec_capacity};

use std::alloc::Global;
use std::marker::Model;
use std::mem;
use xdr_codec::Memory;

/// Room for so many bytes, whose memory is taken at once.
#[derive(Drop)]
pub struct Space {
    size: u32,
    bytes: Vec<u8>,
}

impl Model for Space {
    ghost use Rattle.std.specs.Prelude.{◌≡◌, ◌≤◌, [], ℕ};
    ghost use Rattle.std.specs.Vec.{vec_capacity};

    ghost Value = { ℕ };

    ghost view = { λ s. s.size };

    ghost invariant = { λ s. (s.bytes.items ≡ []) × (s.size ≤ vec_capacity s.bytes) };
}

impl Space {
    /// Room for so many bytes.
    pub(crate) fn new(alloc: Global, size: u32) -> Result<Space, Memory>
        ensures { IfOk result (λ s. s ≡ size) }
    {
        Ok(Space {
            size,
            bytes: Vec::with_capacity(alloc, size as usize)?,
        })
    }

    /// For how many bytes there is room.
    pub(crate) fn size(&self) -> u32
        ensures { result ≡ self.now }
    {
        self.size
    }

    /// Gives the room away, which no byte is in yet.
    pub(crate) fn give(&mut self, alloc: Global) -> Vec<u8>
        ensures empty { result.items ≡ [] }
        ensures room { self.old ≤ vec_capacity result }
        ensures none { self.new ≡ 0 }
    {
        self.size = 0;
        mem::replace(&mut self.bytes, Vec::new(alloc))
    }
}
