//! The script, as the source gives it.

ghost use Rattle.std.specs.Prelude.{◌≤◌, ◌<◌, IfOk};
ghost use Rattle.outside.specs.Causes.{Rose};
ghost use Rattle.script_runs.specs.Streams.{TakesAll, TakesPiece, HasFault};

use outside::{Failed, Source};
use std::alloc::{AllocError, Global};

/// The most bytes of a script that are read: one more than a script may have.
const SCRIPT_LIMIT: usize = 1_048_577;
/// How many bytes are asked for at once.
const PIECE: usize = 65_536;

/// Why a script could not be read.
#[derive(Clone, Copy, Debug, PartialEq, Eq)]
pub enum ReadFault {
    /// The source failed.
    Failed,
    /// Out of memory.
    Memory,
}

impl From<Failed> for ReadFault {
    ghost use Rattle.std.specs.Prelude.{◌≡◌};
    ghost use Rattle.script_runs.specs.declared.input.ReadFault.TheVariants as faults;

    ghost from_gives = { λ _ e. e ≡ faults.Failed };

    fn from(_failed: Failed) -> ReadFault {
        ReadFault::Failed
    }
}

impl From<AllocError> for ReadFault {
    ghost use Rattle.std.specs.Prelude.{◌≡◌};
    ghost use Rattle.script_runs.specs.declared.input.ReadFault.TheVariants as faults;

    ghost from_gives = { λ _ e. e ≡ faults.Memory };

    fn from(_error: AllocError) -> ReadFault {
        ReadFault::Memory
    }
}

/// Reads the source to its end, or up to the limit.
pub fn read_script<S: Source>(alloc: Global, source: &mut S) -> Result<Vec<u8>, ReadFault>
    ensures text { IfOk result (λ text. TakesAll (S.left source.old) text.items) }
    ensures later { S.faults source.old ≤ S.faults source.new }
    ensures cause { HasFault result (Rose (S.faults source.old) (S.faults source.new)) }
{
    let mut text = Vec::new(alloc);
    let mut buffer = [0; PIECE];
    let mut room = SCRIPT_LIMIT;
    while room > 0 {
        match read_piece(source, room, &mut buffer, &mut text) {
            Ok(count) => {
                if count == 0 {
                    break;
                }
                room -= count;
            }
            Err(fault) => return Err(fault),
        }
    }
    Ok(text)
}

/// Reads a piece of at most so many bytes by way of the buffer, and answers how many; 0 is the end.
fn read_piece<S: Source>(
    source: &mut S,
    room: usize,
    buffer: &mut [u8; PIECE],
    text: &mut Vec<u8>,
) -> Result<usize, ReadFault>
    requires { 0 < room }
    ensures taken { IfOk result (TakesPiece (S.left source.old) (S.left source.new) text.old.items text.new.items room) }
    ensures later { S.faults source.old ≤ S.faults source.new }
    ensures cause { HasFault result (Rose (S.faults source.old) (S.faults source.new)) }
{
    let (front, _) = buffer.split_at_mut(room.min(PIECE));
    let count = source.read(front)?;
    let (piece, _) = front.split_at(count);
    text.extend_from_slice(piece)?;
    Ok(count)
}
