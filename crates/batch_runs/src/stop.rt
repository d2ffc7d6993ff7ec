//! Why no further batch is run.

ghost use Rattle.std.specs.Prelude.{◌≡◌};
ghost use Rattle.batch_runs.specs.Stops.{of_halt, of_link, of_read, status_of};

use crate::status;
use lane_session::Halt;
use outside::LinkFault;
use script_batches::ReadFault;
use xdr_codec::Memory;

/// Why no further batch is run.
#[derive(Clone, Copy)]
pub(crate) enum Stop {
    /// The source failed.
    Source,
    /// The sink failed.
    Output,
    /// Out of memory outside an operation.
    Memory,
}

impl Stop {
    /// The status of the run.
    pub(crate) fn status(self) -> u8
        ensures { result ≡ status_of self }
    {
        match self {
            Stop::Source => status::READ_FAULT,
            Stop::Output => status::WRITE_FAULT,
            Stop::Memory => status::NO_MEMORY,
        }
    }
}

impl From<Memory> for Stop {
    ghost use Rattle.std.specs.Prelude.{◌≡◌};
    ghost use Rattle.batch_runs.specs.declared.stop.Stop.TheVariants as stops;

    ghost from_gives = { λ _ e. e ≡ stops.Memory };

    fn from(_fault: Memory) -> Stop {
        Stop::Memory
    }
}

/// A session that is cut off.
pub(crate) fn of_halt(halt: Halt) -> Stop
    ensures { result ≡ of_halt halt }
{
    match halt {
        Halt::Output => Stop::Output,
        Halt::Memory => Stop::Memory,
    }
}

/// A text that can't be written.
pub(crate) fn of_link(fault: LinkFault) -> Stop
    ensures { result ≡ of_link fault }
{
    match fault {
        LinkFault::Failed => Stop::Output,
        LinkFault::Memory => Stop::Memory,
    }
}

/// A batch that can't be read.
pub(crate) fn of_read(fault: ReadFault) -> Stop
    ensures { result ≡ of_read fault }
{
    match fault {
        ReadFault::Failed => Stop::Source,
        ReadFault::Memory => Stop::Memory,
    }
}
