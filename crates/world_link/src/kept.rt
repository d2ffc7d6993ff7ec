//! Records that were sent, as the server keeps them.

ghost use Rattle.std.specs.Prelude.{◌≡◌, IfOk};

use std::alloc::Global;
use std::marker::Model;
use xdr_codec::Memory;

/// The bytes of a record, and the end that sent it.
#[derive(Drop)]
pub(crate) struct Kept {
    end: u8,
    bytes: Vec<u8>,
}

impl Model for Kept {
    ghost use Rattle.world_link.specs.declared.routed.Routed.{Routed};

    ghost Value = { Routed };

    ghost view = { λ k. record { end = k.end; bytes = k.bytes.items } };
}

impl Kept {
    /// A copy of the bytes.
    pub(crate) fn copy(alloc: Global, end: u8, bytes: &[u8]) -> Result<Kept, Memory>
        ensures { IfOk result (λ k. k ≡ record { end = end; bytes = bytes.now }) }
    {
        let mut own = Vec::new(alloc);
        own.extend_from_slice(bytes)?;
        Ok(Kept { end, bytes: own })
    }

    /// The end that sent it.
    pub(crate) fn end(&self) -> u8
        ensures { result ≡ self.now.end }
    {
        self.end
    }

    /// The bytes.
    pub(crate) fn bytes(&self) -> &[u8]
        ensures { result.now ≡ self.now.bytes }
    {
        self.bytes.as_slice()
    }
}
