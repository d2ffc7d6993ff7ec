//! How many calls a session makes.

ghost use Rattle.std.specs.Prelude.{◌≡◌};
ghost use Rattle.lane_session.specs.Tallies.{with_attempt, with_proc};

use nfs_types::nfs_proc::{COMMIT, GETATTR, LOOKUP, READ, WRITE};
use std::marker::Model;
use world_model::Tally;

/// The calls of NFS that were sent, each once however often it was sent again.
#[derive(Clone, Copy, Debug)]
pub struct Counts {
    /// How many there are.
    pub tally: Tally,
}

impl Counts {
    /// An attempt of a call of this procedure is sent, so many with it. The call is counted by its first.
    pub fn count(&mut self, attempts: u32, proc: u32)
        ensures { self.new.tally ≡ with_attempt attempts proc self.old.tally }
    {
        if attempts == 1 {
            self.tally = with_call(&self.tally, proc);
        }
    }
}

/// The numbers with one more call of a procedure.
fn with_call(tally: &Tally, proc: u32) -> Tally
    ensures { result ≡ with_proc tally.now proc }
{
    Tally {
        calls: tally.calls.saturating_add(1),
        getattr: tally.getattr.saturating_add(u32::from(proc == GETATTR)),
        lookup: tally.lookup.saturating_add(u32::from(proc == LOOKUP)),
        read: tally.read.saturating_add(u32::from(proc == READ)),
        write: tally.write.saturating_add(u32::from(proc == WRITE)),
        commit: tally.commit.saturating_add(u32::from(proc == COMMIT)),
    }
}
