//! What became of bytes since they were written.

ghost use Rattle.std.specs.Prelude.{◌≡◌, ◌&&◌, IsTrue, Some, None, if◌then◌else◌};
ghost use Rattle.write_back.specs.declared.state.State.TheVariants.{Waiting, Acked};
ghost use Rattle.write_back.specs.declared.state.Ready.TheVariants as ready;
ghost use Rattle.write_back.specs.States.{sent, answered, committed, same_verf, is_ready, is_in_flight, is_changed, ready_of, how_of};

use nfs_types::Verf;

/// Why bytes may be sent.
#[derive(Clone, Copy, Debug, PartialEq, Eq)]
pub enum Ready {
    /// They weren't sent yet.
    Unsent,
    /// The server may have lost them, and they are to be sent as stable (RFC 1813, section 4.8).
    Again,
    /// The server refused them with this status.
    Refused(u32),
}

/// What became of bytes since they were written.
#[derive(Clone, Copy, Debug, PartialEq, Eq)]
pub enum State {
    /// They may be sent.
    Waiting(Ready),
    /// They were sent, and no reply was taken. Before that they were as told here.
    InFlight(Ready),
    /// The server has them under this verifier, not yet stable (RFC 1813, section 3.3.7).
    Acked(Verf),
}

impl Ready {
    /// How they are to be sent: 2 as stable, 0 otherwise (RFC 1813, section 3.3.7, stable_how).
    pub(crate) fn how(self) -> u32
        ensures { result ≡ how_of self }
    {
        match self {
            Ready::Again => 2,
            _ => 0,
        }
    }
}

impl State {
    /// Whether the bytes are in flight.
    pub(crate) fn is_in_flight(self) -> bool
        ensures { result ≡ is_in_flight self }
    {
        matches!(self, State::InFlight(_))
    }

    /// Whether the bytes may be sent.
    pub(crate) fn is_ready(self) -> bool
        ensures { result ≡ is_ready self }
    {
        matches!(self, State::Waiting(_))
    }

    /// What became of the bytes before they are or were sent.
    pub(crate) fn ready(self) -> Ready
        ensures { result ≡ ready_of self }
    {
        match self {
            State::Waiting(ready) | State::InFlight(ready) => ready,
            State::Acked(_) => Ready::Unsent,
        }
    }

    /// Whether a change takes bytes away or gives them another kind of state.
    pub(crate) fn is_changed(self, left: Option<State>) -> bool
        ensures { result ≡ is_changed self left }
    {
        let Some(left) = left else {
            return true;
        };
        match self {
            State::Waiting(_) => !left.is_ready(),
            State::InFlight(_) => !left.is_in_flight(),
            State::Acked(_) => left.is_ready() || left.is_in_flight(),
        }
    }

    /// What may be sent is sent.
    pub(crate) fn sent(self) -> State
        ensures { result ≡ sent self }
    {
        match self {
            State::Waiting(ready) => State::InFlight(ready),
            _ => self,
        }
    }

    /// What was sent becomes this.
    pub(crate) fn answered(self, by: Option<State>) -> Option<State>
        ensures { result ≡ answered (λ _. by) self }
    {
        match self {
            State::InFlight(_) => by,
            _ => Some(self),
        }
    }

    /// What was sent is as it was before.
    pub(crate) fn returned(self) -> Option<State>
        ensures { result ≡ answered (λ ready. Some (Waiting ready)) self }
    {
        match self {
            State::InFlight(ready) => Some(State::Waiting(ready)),
            _ => Some(self),
        }
    }

    /// What the server has under this verifier goes, if it is old enough.
    pub(crate) fn settled(self, verf: Verf, old: bool) -> Option<State>
        ensures { result ≡ committed (λ held. if old && same_verf held verf then None else Some (Acked held)) self }
    {
        match self {
            State::Acked(held) => {
                if old && held == verf {
                    None
                } else {
                    Some(self)
                }
            }
            _ => Some(self),
        }
    }

    /// What the server has is to be sent again, if it is old enough.
    pub(crate) fn marked(self, old: bool) -> Option<State>
        ensures { result ≡ committed (λ held. if old then Some (Waiting ready.Again) else Some (Acked held)) self }
    {
        match self {
            State::Acked(_) => {
                if old {
                    Some(State::Waiting(Ready::Again))
                } else {
                    Some(self)
                }
            }
            _ => Some(self),
        }
    }
}
