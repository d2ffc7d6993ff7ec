//! Why a store did not do what it was asked.

ghost use Rattle.std.specs.Prelude.{◌≡◌};
ghost use Rattle.page_store.specs.Faults.{fault_for};

use outside::LinkFault;
use xdr_codec::Memory;

/// Why a store did not do what it was asked.
#[derive(Clone, Copy, Debug, PartialEq, Eq)]
pub enum StoreFault {
    /// The disk failed. It comes only if the disk's count of faults rose.
    Fault,
    /// Out of memory.
    Memory,
}

impl From<Memory> for StoreFault {
    ghost use Rattle.std.specs.Prelude.{◌≡◌};
    ghost use Rattle.page_store.specs.declared.fault.StoreFault.TheVariants as faults;

    ghost from_gives = { λ _ e. e ≡ faults.Memory };

    fn from(_memory: Memory) -> StoreFault {
        StoreFault::Memory
    }
}

/// The same fault of a disk.
pub(crate) fn store_fault(fault: LinkFault) -> StoreFault
    ensures { result ≡ fault_for fault }
{
    match fault {
        LinkFault::Failed => StoreFault::Fault,
        LinkFault::Memory => StoreFault::Memory,
    }
}
