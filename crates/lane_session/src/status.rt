//! The statuses with which a session ends.

ghost use Rattle.std.specs.Prelude.{◌≡◌};
ghost use Rattle.lane_session.specs.Statuses.{after_answer, of_halt};

use crate::halt::Halt;
use world_model::{Answer, Fault};

/// Each operation succeeded.
pub const WELL: u8 = 0;
/// An operation was refused.
pub const NOT_OK: u8 = 1;
/// The sink failed.
pub const WRITE_FAULT: u8 = 5;
/// The link is lost.
pub const LINK_LOST: u8 = 6;
/// Out of memory outside an operation.
pub const NO_MEMORY: u8 = 7;

/// The status after one more answer: a lost link decides, and else any refusal.
pub fn after_answer(status: u8, answer: &Answer) -> u8
    ensures { result ≡ after_answer status answer.now }
{
    match answer {
        Answer::Done(_) => status,
        Answer::Refused(Fault::Lost) => LINK_LOST,
        Answer::Refused(_) => status.max(NOT_OK),
    }
}

/// The status of a session that is cut off.
pub fn of_halt(halt: Halt) -> u8
    ensures { result ≡ of_halt halt }
{
    match halt {
        Halt::Output => WRITE_FAULT,
        Halt::Memory => NO_MEMORY,
    }
}
