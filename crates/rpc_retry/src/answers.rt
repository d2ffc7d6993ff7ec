//! What the calls on waiting calls answer.

ghost use Rattle.std.specs.Prelude.{◌≡◌};

use rpc_message::{Reply, ReplyFault};
use std::alloc::AllocFailed;
use xdr_codec::Memory;

/// Why no call can be made now.
#[derive(Clone, Copy, Debug, PartialEq, Eq)]
pub enum PutRefusal {
    /// As many calls were made as may be.
    Spent,
    /// 32 calls wait.
    Crowded,
}

/// Why no call was made.
#[derive(Clone, Copy, Debug, PartialEq, Eq)]
pub enum PutFault {
    /// As many calls were made as may be.
    Spent,
    /// 32 calls wait.
    Crowded,
    /// Out of memory.
    Memory,
}

impl From<PutRefusal> for PutFault {
    ghost use Rattle.std.specs.Prelude.{◌≡◌};
    ghost use Rattle.rpc_retry.specs.Faults.{fault_of};

    ghost from_gives = { λ r e. e ≡ fault_of r };

    fn from(refusal: PutRefusal) -> PutFault {
        match refusal {
            PutRefusal::Spent => PutFault::Spent,
            PutRefusal::Crowded => PutFault::Crowded,
        }
    }
}

impl From<Memory> for PutFault {
    ghost use Rattle.std.specs.Prelude.{◌≡◌};
    ghost use Rattle.rpc_retry.specs.declared.answers.PutFault.TheVariants as faults;

    ghost from_gives = { λ _ e. e ≡ faults.Memory };

    fn from(_memory: Memory) -> PutFault {
        PutFault::Memory
    }
}

impl<T: Drop> From<AllocFailed<T>> for PutFault {
    ghost use Rattle.std.specs.Prelude.{◌≡◌};
    ghost use Rattle.rpc_retry.specs.declared.answers.PutFault.TheVariants as faults;

    ghost from_gives = { λ _ e. e ≡ faults.Memory };

    fn from(_failed: AllocFailed<T>) -> PutFault {
        PutFault::Memory
    }
}

/// What became of a record that was received.
#[derive(Debug, Drop)]
pub enum Taken<'a, P> {
    /// No call waits for it.
    Dropped,
    /// It has the first word of a call that waited, and waits no more.
    Took {
        /// The number of the call.
        xid: u32,
        /// What the call was made for.
        purpose: P,
        /// The record, read as a reply.
        body: Result<Reply<'a>, ReplyFault>,
    },
}

/// What to do after the attempts that ran have failed.
#[derive(Clone, Copy, Debug, PartialEq, Eq)]
pub enum AfterFailure {
    /// Send the calls that wait again: all are due.
    Resend,
    /// Give up: the oldest call whose fourth attempt has ended is that of this xid.
    GivenUp(u32),
}
