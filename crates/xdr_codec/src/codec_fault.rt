//! Why a value that owns its data could not be read.

use crate::blob::Memory;
use crate::reader::XdrFault;

/// Why a value that owns its data could not be read from bytes.
#[derive(Clone, Copy, Debug, PartialEq, Eq)]
pub enum CodecFault {
    /// The bytes spell no such value; the first fault in order of spelling.
    Xdr(XdrFault),
    /// Out of memory.
    Memory,
}

impl From<XdrFault> for CodecFault {
    ghost use Rattle.std.specs.Prelude.{◌≡◌};
    ghost use Rattle.xdr_codec.specs.declared.codec_fault.CodecFault.TheVariants.{Xdr};

    ghost from_gives = { λ f e. e ≡ Xdr f };

    fn from(fault: XdrFault) -> CodecFault {
        CodecFault::Xdr(fault)
    }
}

impl From<Memory> for CodecFault {
    ghost use Rattle.std.specs.Prelude.{◌≡◌};
    ghost use Rattle.xdr_codec.specs.declared.codec_fault.CodecFault.TheVariants as faults;

    ghost from_gives = { λ _ e. e ≡ faults.Memory };

    fn from(_fault: Memory) -> CodecFault {
        CodecFault::Memory
    }
}
