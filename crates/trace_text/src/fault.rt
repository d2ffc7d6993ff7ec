//! Why a text gives no trace.

ghost use Rattle.std.specs.Prelude.{◌≡◌};
ghost use Rattle.trace_text.specs.Words.{fault_at};

use thiserror::Error;
use xdr_codec::Memory;

/// Why a text gave no trace.
#[derive(Clone, Copy, Debug, PartialEq, Eq, Error)]
pub enum TraceFault {
    /// The number of the first line that isn't of the form, from 1 on; 0 if the text is too long.
    #[error("line {0} is refused")]
    Line(u32),
    /// Out of memory.
    #[error("want of memory")]
    Memory,
}

impl From<Memory> for TraceFault {
    ghost use Rattle.std.specs.Prelude.{◌≡◌};
    ghost use Rattle.trace_text.specs.declared.fault.TraceFault.TheVariants as faults;

    ghost from_gives = { λ _ e. e ≡ faults.Memory };

    fn from(_fault: Memory) -> TraceFault {
        TraceFault::Memory
    }
}

/// Why a line gave nothing.
#[derive(Clone, Copy, Debug)]
pub(crate) enum LineFault {
    /// It isn't of the form.
    Form,
    /// Out of memory.
    Memory,
}

impl From<Memory> for LineFault {
    ghost use Rattle.std.specs.Prelude.{◌≡◌};
    ghost use Rattle.trace_text.specs.declared.fault.LineFault.TheVariants as faults;

    ghost from_gives = { λ _ e. e ≡ faults.Memory };

    fn from(_fault: Memory) -> LineFault {
        LineFault::Memory
    }
}

impl LineFault {
    /// The fault of a text that has this one in that line.
    pub(crate) fn at(self, line: u32) -> TraceFault
        ensures { result ≡ fault_at line self }
    {
        match self {
            LineFault::Form => TraceFault::Line(line),
            LineFault::Memory => TraceFault::Memory,
        }
    }
}
