//! What becomes of segments that stay where they are.

ghost use Rattle.std.specs.Prelude.{◌≡◌};
ghost use Rattle.write_back.specs.Changes.{fate};

use crate::state::{Ready, State};
use nfs_types::Verf;

/// A change of the segments of a file that begin between two places.
#[derive(Clone, Copy, Debug)]
pub enum Change {
    /// What may be sent is sent.
    Send,
    /// The server has what was sent, under this verifier.
    Ack(Verf),
    /// The server has made stable what was sent.
    Store,
    /// What was sent is as it was before.
    Return,
    /// The server has refused what was sent, with this status.
    Refuse(u32),
    /// What the server has under this verifier is stable, up to a number.
    Settle(Verf, u64),
    /// The server may have lost what it has, up to a number.
    MarkAgain(u64),
    /// Everything goes, up to a number.
    Drop(u64),
    /// Everything goes.
    Clear,
}

impl Change {
    /// What it leaves of a segment with this number and state. None: the segment goes.
    pub fn fate(self, number: u64, state: State) -> Option<State>
        ensures { result ≡ fate self number state }
    {
        match self {
            Change::Send => Some(state.sent()),
            Change::Ack(verf) => state.answered(Some(State::Acked(verf))),
            Change::Store => state.answered(None),
            Change::Return => state.returned(),
            Change::Refuse(status) => state.answered(Some(State::Waiting(Ready::Refused(status)))),
            Change::Settle(verf, upto) => state.settled(verf, number <= upto),
            Change::MarkAgain(upto) => state.marked(number <= upto),
            Change::Drop(upto) => { if number <= upto { None } else { Some(state) } }
            Change::Clear => None,
        }
    }
}
