//! Why a script is refused.

ghost use Rattle.std.specs.Prelude.{◌≡◌};
ghost use Rattle.nfs_script.specs.Faults.{kind_of, fault_at};

use thiserror::Error;
use xdr_codec::Memory;

/// A script that is refused.
#[derive(Clone, Copy, Debug, PartialEq, Eq)]
pub struct ScriptFault {
    /// The number of the line, from 1 on; 0 for the script as a whole.
    pub line: u32,
    /// What is wrong with it:
    /// - 1: it isn't UTF-8;
    /// - 2: the script is too long;
    /// - 3: it has too many lines;
    /// - 4: the lane;
    /// - 5: the command, its number of words or a mode;
    /// - 6: a number;
    /// - 7: hex digits;
    /// - 8: a path or a target;
    /// - 9: a slot.
    pub kind: u8,
}

/// Why a text gave no script.
#[derive(Clone, Copy, Debug, PartialEq, Eq, Error)]
pub enum ParseFault {
    /// The text is no script.
    #[error("line {} is refused with kind {}", .0.line, .0.kind)]
    Script(ScriptFault),
    /// Out of memory.
    #[error("want of memory")]
    Memory,
}

impl From<Memory> for ParseFault {
    ghost use Rattle.std.specs.Prelude.{◌≡◌};
    ghost use Rattle.nfs_script.specs.declared.fault.ParseFault.TheVariants as faults;

    ghost from_gives = { λ _ e. e ≡ faults.Memory };

    fn from(_fault: Memory) -> ParseFault {
        ParseFault::Memory
    }
}

/// What may be wrong with a script, in the order of its numbers.
#[derive(Clone, Copy)]
pub(crate) enum Cause {
    /// A line isn't UTF-8.
    Utf8,
    /// It has more than 1,048,576 bytes.
    Long,
    /// It has more than 16,384 lines.
    ManyLines,
    /// The lane isn't 1 to 16.
    Lane,
    /// There is no such command or mode, or a command has another number of words.
    Command,
    /// A word isn't a number in its range.
    Number,
    /// A word isn't so many bytes in hex digits.
    Hex,
    /// A word is no path that the command takes, or no target.
    Path,
    /// A word isn't a slot, 1 to 16.
    Slot,
}

impl Cause {
    /// Its number.
    fn kind(self) -> u8
        ensures { result ≡ kind_of self }
    {
        match self {
            Cause::Utf8 => 1,
            Cause::Long => 2,
            Cause::ManyLines => 3,
            Cause::Lane => 4,
            Cause::Command => 5,
            Cause::Number => 6,
            Cause::Hex => 7,
            Cause::Path => 8,
            Cause::Slot => 9,
        }
    }

    /// The fault of a script that has this one in that line.
    pub(crate) fn at(self, line: u32) -> ScriptFault
        ensures { result ≡ fault_at line self }
    {
        ScriptFault {
            line,
            kind: self.kind(),
        }
    }
}

/// Why a line gave nothing.
#[derive(Clone, Copy)]
pub(crate) enum LineFault {
    /// It is refused.
    Refused(Cause),
    /// Out of memory.
    Memory,
}

impl From<Memory> for LineFault {
    ghost use Rattle.std.specs.Prelude.{◌≡◌};
    ghost use Rattle.nfs_script.specs.declared.fault.LineFault.TheVariants as faults;

    ghost from_gives = { λ _ e. e ≡ faults.Memory };

    fn from(_fault: Memory) -> LineFault {
        LineFault::Memory
    }
}
