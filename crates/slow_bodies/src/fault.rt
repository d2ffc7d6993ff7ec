//! Why two bodies weren't compared.

use std::alloc::AllocError;
use write_back::AddFault;
use xdr_codec::Memory;

/// Why two bodies weren't compared.
#[derive(Clone, Copy, Debug)]
pub enum Fault {
    /// Out of memory.
    Memory,
    /// An answer that fits no call that was made.
    Odd,
}

impl From<AllocError> for Fault {
    fn from(_error: AllocError) -> Fault {
        Fault::Memory
    }
}

impl From<Memory> for Fault {
    fn from(_fault: Memory) -> Fault {
        Fault::Memory
    }
}

impl From<AddFault> for Fault {
    fn from(fault: AddFault) -> Fault {
        match fault {
            AddFault::Full => Fault::Odd,
            AddFault::Memory => Fault::Memory,
        }
    }
}
