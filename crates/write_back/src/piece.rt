//! What is answered: why bytes weren't added, and what is to be sent.

use xdr_codec::Memory;

/// Why bytes weren't added.
#[derive(Clone, Copy, Debug, PartialEq, Eq)]
pub enum AddFault {
    /// With them more than 4,194,304 bytes would be pending.
    Full,
    /// Out of memory.
    Memory,
}

impl From<Memory> for AddFault {
    ghost use Rattle.std.specs.Prelude.{◌≡◌};
    ghost use Rattle.write_back.specs.declared.piece.AddFault.TheVariants as faults;

    ghost from_gives = { λ _ e. e ≡ faults.Memory };

    fn from(_memory: Memory) -> AddFault {
        AddFault::Memory
    }
}

/// Bytes that are sent by one WRITE call (RFC 1813, section 3.3.7).
#[derive(Clone, Copy, Debug)]
pub struct Piece<'a> {
    /// Where the first byte stands in the file.
    pub offset: u64,
    /// The bytes.
    pub bytes: &'a [u8],
    /// 2 if the server has to make them stable at once, else 0 (stable_how).
    pub how: u32,
}
