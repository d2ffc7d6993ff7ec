//! Datagrams to the server and back, each of them whole.

ghost use Rattle.std.specs.Prelude.{◌≡◌, ◌≤◌, [], ℕ, List, Option, None};
ghost use Rattle.std.specs.Bool.{OnTrue, OnFalse};
ghost use Rattle.outside.specs.Causes.{HasCause};
ghost use Rattle.outside.specs.Datagrams.{DatagramsTold, DatagramsTell, DatagramsNote, AreLawful, HasCauseArrived, aimed_as, datagram_as, arrived_as, remarked_as};
ghost use Rattle.outside.specs.Places.{KeepsPlace, PutsLast, TakesLast};
ghost use Rattle.outside.specs.declared.places.DatagramAdds.{DatagramAdds};
ghost use Rattle.outside.specs.declared.places.DatagramAdds.TheVariants as added;

use crate::link::LinkFault;
use crate::places::DatagramAdds;
use world_model::Mark;
use xdr_codec::{Blob, Memory};

/// What a call of datagrams did.
#[derive(Debug, Drop)]
pub enum DatagramEntry {
    /// Datagrams go to the port from now on, in place of the one before.
    Aimed { port: u16 },
    /// A datagram of these bytes went out.
    Sent { bytes: Blob },
    /// A datagram of these bytes came from the port.
    Came { port: u16, bytes: Blob },
    /// The mark was noted.
    Noted { mark: Mark },
    /// A datagram could not be sent, or a wait failed, or none came in time.
    Missed,
}

/// What came of waiting for a datagram.
#[derive(Clone, Copy, Debug, PartialEq, Eq)]
pub enum Arrived {
    /// One came whole from this port.
    From(u16),
    /// None came in time.
    Silent,
    /// The outside failed.
    Failed,
    /// Out of memory; no datagram was taken from those that came.
    Memory,
}

/// Datagrams to a server and those that come, from it or from others. Each call tells one entry of its own, and nothing
/// when out of memory; what the server did since the call before stands before that entry, but not before a mark.
pub trait Datagrams {
    /// The calls so far with the server at each moment, if they are told.
    ghost told: { Self → Option DatagramsTold };

    /// What a link over them placed behind each of the calls, if they are told.
    ghost placed: { Self → List DatagramAdds };

    /// How often the outside failed. It never falls.
    ghost faults: { Self → ℕ };

    /// Whether what is told is what an honest server and network make.
    ghost honest: { Self → Type 0 };

    /// Sends to that port from now on, in place of the one before.
    fn aim(&mut self, port: u16) -> Result<(), LinkFault>
        ensures told { DatagramsTell (told self.old) (told self.new) (aimed_as port result) }
        ensures placed { placed self.new ≡ placed self.old }
        ensures honest { honest self.old → honest self.new }
        ensures cause { HasCause (faults self.old) (faults self.new) result };

    /// Sends the bytes as one datagram. After a failure or when out of memory none was sent.
    fn send(&mut self, bytes: &[u8]) -> Result<(), LinkFault>
        ensures told { DatagramsTell (told self.old) (told self.new) (datagram_as bytes.now result) }
        ensures placed { placed self.new ≡ placed self.old }
        ensures honest { honest self.old → honest self.new }
        ensures cause { HasCause (faults self.old) (faults self.new) result };

    /// Waits for a datagram for at most so many milliseconds. One that came takes the place of what the buffer held,
    /// from whatever port it came.
    fn receive(&mut self, wait_ms: u32, buf: &mut Vec<u8>) -> Arrived
        requires { 15000 ≤ wait_ms }
        ensures told { DatagramsTell (told self.old) (told self.new) (arrived_as buf.new.items result) }
        ensures placed { placed self.new ≡ placed self.old }
        ensures honest { honest self.old → honest self.new }
        ensures cause { HasCauseArrived (faults self.old) (faults self.new) result };

    /// Whether they tell their calls. Those that don't keep no marks.
    fn tells(&self) -> bool
        ensures { OnFalse result (told self.now ≡ None) };

    /// Notes a mark among the calls, and nothing else.
    fn note(&mut self, mark: Mark) -> Result<(), Memory>
        ensures told { DatagramsNote (told self.old) (told self.new) (remarked_as mark result) }
        ensures placed { placed self.new ≡ placed self.old }
        ensures honest { honest self.old → honest self.new }
        ensures cause { faults self.old ≤ faults self.new };

    /// Forgets what a link placed, for another that begins.
    fn forget_places(&mut self)
        ensures placed { placed self.new ≡ [] }
        ensures told { told self.new ≡ told self.old }
        ensures honest { honest self.old → honest self.new }
        ensures cause { faults self.new ≡ faults self.old };

    /// Keeps a place behind all others, if the calls are told; if they aren't, it does nothing. When out of memory
    /// nothing is changed, and the answer is false.
    fn keep_place(&mut self, place: DatagramAdds) -> bool
        ensures yes { OnTrue result (KeepsPlace (told self.old) (placed self.old) (placed self.new) place) }
        ensures no { OnFalse result (placed self.new ≡ placed self.old) }
        ensures told { told self.new ≡ told self.old }
        ensures honest { honest self.old → honest self.new }
        ensures cause { faults self.new ≡ faults self.old };

    /// The same for a record that is to go out, as one that didn't. The record is copied only if the calls are told.
    fn keep_unsent(&mut self, rec: &[u8]) -> bool
        ensures yes { OnTrue result (KeepsPlace (told self.old) (placed self.old) (placed self.new) (added.Unsent rec.now)) }
        ensures no { OnFalse result (placed self.new ≡ placed self.old) }
        ensures told { told self.new ≡ told self.old }
        ensures honest { honest self.old → honest self.new }
        ensures cause { faults self.new ≡ faults self.old };

    /// Puts a place into that of the last, if there is one. It takes no memory.
    fn put_place(&mut self, place: DatagramAdds)
        ensures placed { PutsLast (placed self.old) (placed self.new) place }
        ensures told { told self.new ≡ told self.old }
        ensures honest { honest self.old → honest self.new }
        ensures cause { faults self.new ≡ faults self.old };

    /// Gives back the last place, if there is one.
    fn give_back(&mut self)
        ensures placed { TakesLast (placed self.old) (placed self.new) }
        ensures told { told self.new ≡ told self.old }
        ensures honest { honest self.old → honest self.new }
        ensures cause { faults self.new ≡ faults self.old };

    /// The history that is read from honest datagrams is lawful: one that went out is sent, and one that came from the
    /// port last aimed at is delivered.
    ghost lawful: { (x : Self) → honest x → AreLawful (told x) };
}
