//! Calls that couldn't be made.

ghost use Rattle.std.specs.Prelude.{◌≡◌};
ghost use Rattle.client_shelf.specs.Coming.{reply_of};
ghost use Rattle.client_shelf.specs.Unmade.{is_unmade, came_unmade};

use crate::turn::Came;
use world_model::Fault;

/// Whether this is why a call couldn't be made: as many calls were made as may be, or there was no memory for it. Then the
/// server was asked for nothing, so what is kept of it stays as true as it was.
pub fn is_unmade(fault: &Fault) -> bool
    ensures { result ≡ is_unmade fault.now }
{
    match *fault {
        Fault::Spent => true,
        Fault::Memory => true,
        _ => false,
    }
}

/// The same of what came of a call.
pub fn came_unmade(came: &Came<'_>) -> bool
    ensures { result ≡ came_unmade (reply_of came.now) }
{
    match came {
        Came::File(_) => false,
        Came::Dir(_) => false,
        Came::Refused(fault) => is_unmade(fault),
    }
}
