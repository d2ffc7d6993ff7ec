//! The statuses of a run of two clients.

ghost use Rattle.lane_session.specs.Losing.{status_of};
ghost use Rattle.lane_session.specs.Statuses.{IsSessionStatus, of_halt};
ghost use Rattle.std.specs.Prelude.{◌≡◌, max};

use lane_session::Halt;
use nfs_script::Script;

/// Each operation succeeded.
pub(crate) const WELL: u8 = 0;
/// A script is refused.
pub(crate) const SCRIPT_REFUSED: u8 = 3;
/// A source failed.
pub(crate) const READ_FAULT: u8 = 4;
/// The sink failed.
pub(crate) const WRITE_FAULT: u8 = 5;
/// A client's link is lost.
pub(crate) const LINK_LOST: u8 = 6;
/// Out of memory outside an operation.
pub(crate) const NO_MEMORY: u8 = 7;

/// The status by the answers of both clients: a lost link decides, and else any refusal. Each is 0, 1 or 6.
pub(crate) fn of_both(a: u8, b: u8) -> u8
    requires first { IsSessionStatus a }
    requires second { IsSessionStatus b }
    ensures is { result ≡ max a b }
    ensures range { IsSessionStatus result }
{
    a.max(b)
}

/// The status of a client whose lines are all answered that its session is lost: an empty script has no answer.
pub(crate) fn of_lost(script: &Script) -> u8
    ensures { result ≡ status_of script.now }
{
    if script.count() == 0 { WELL } else { LINK_LOST }
}

/// The status of a run that is cut off.
pub(crate) fn of_halt(halt: Halt) -> u8
    ensures { result ≡ of_halt halt }
{
    match halt {
        Halt::Output => WRITE_FAULT,
        Halt::Memory => NO_MEMORY,
    }
}
