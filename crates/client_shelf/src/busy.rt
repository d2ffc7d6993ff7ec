//! A server that is busy asks to be called again later.

ghost use Rattle.std.specs.Prelude.{◌≡◌};
ghost use Rattle.client_shelf.specs.Busy.{is_busy, fails_busy, goes_again, repeats_after};

use crate::repeats::Repeats;
use crate::turn::Turn;
use nfs_types::Verf;
use world_model::Fault;

/// The status of a server that is busy (RFC 1813, section 2.6, NFS3ERR_JUKEBOX).
pub const JUKEBOX: u32 = 10_008;

/// Whether a call was refused because the server is busy.
pub fn is_busy(fault: &Fault) -> bool
    ensures { result ≡ is_busy fault.now }
{
    match *fault {
        Fault::Nfs(status) => status == JUKEBOX,
        _ => false,
    }
}

/// The same of a call's result.
pub fn fails_busy(told: &Result<Verf, Fault>) -> bool
    ensures { result ≡ fails_busy told.now }
{
    match told {
        Ok(_) => false,
        Err(fault) => is_busy(fault),
    }
}

/// The call that the step with the turn `sent` made was answered. Whether it is made again: the server was busy, there is
/// room, and it was made again fewer than three times.
pub fn again(busy: bool, sent: Turn, turn: Turn, repeats: &mut Repeats) -> bool
    ensures told { result ≡ goes_again busy sent turn repeats.old }
    ensures after { repeats.new ≡ repeats_after busy sent turn repeats.old }
{
    repeats.answered(sent.xid, turn.xid, busy && turn.room)
}
