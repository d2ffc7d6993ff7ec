//! Bytes to the server and back, in pieces that may be cut anywhere.

ghost use Rattle.std.specs.Prelude.{◌≡◌, ◌≤◌, ◌<◌, [], ℕ, List, Option, None, length, IfOk};
ghost use Rattle.std.specs.Bool.{OnTrue, OnFalse};
ghost use Rattle.outside.specs.Causes.{HasCause};
ghost use Rattle.outside.specs.Sink.{TakesSome};
ghost use Rattle.outside.specs.Reading.{IsLawfulWire};
ghost use Rattle.outside.specs.Places.{KeepsPlace, PutsLast};
ghost use Rattle.outside.specs.declared.places.WirePlace.{WirePlace};
ghost use Rattle.outside.specs.Wire.{WireTold, WireTells, WireNotes, GetsSome, IfGot, HasCauseRead, connected_as, wrote_as, read_as, marked_as};

use crate::link::LinkFault;
use crate::places::WirePlace;
use world_model::Mark;
use xdr_codec::{Blob, Memory};

/// What a call of a wire did.
#[derive(Debug, Drop)]
pub enum WireEntry {
    /// A connection to the port was asked for, in place of the one before.
    Connected { port: u16 },
    /// These bytes were taken.
    Wrote { bytes: Blob },
    /// These bytes came.
    Read { bytes: Blob },
    /// The mark was noted.
    Noted { mark: Mark },
    /// A write failed, or a wait did, or no byte came in time.
    Missed,
}

/// What came of waiting for bytes.
#[derive(Clone, Copy, Debug, PartialEq, Eq)]
pub enum WireRead {
    /// So many bytes came, at least one.
    Got(usize),
    /// No byte came in time.
    Silent,
    /// The outside failed.
    Failed,
    /// Out of memory; no byte was taken from what came.
    Memory,
}

/// A stream of bytes to a server and one back. Each call tells one entry of its own, and nothing when out of memory;
/// what the server did since the call before stands before that entry, but not before a mark.
pub trait Wire {
    /// The calls so far with the server at each moment, if the wire tells them.
    ghost told: { Self → Option WireTold };

    /// What a link over it placed behind its calls, if it tells them.
    ghost placed: { Self → List WirePlace };

    /// How often the outside failed. It never falls.
    ghost faults: { Self → ℕ };

    /// Whether what it tells is what an honest server and network make.
    ghost honest: { Self → Type 0 };

    /// Makes a connection to that port, in place of the one before.
    fn connect(&mut self, port: u16) -> Result<(), LinkFault>
        ensures told { WireTells (told self.old) (told self.new) (connected_as port result) }
        ensures placed { placed self.new ≡ placed self.old }
        ensures honest { honest self.old → honest self.new }
        ensures cause { HasCause (faults self.old) (faults self.new) result };

    /// Takes the front of the piece, and answers how many bytes: at least one of a piece that isn't empty. After a
    /// failure or when out of memory none was taken.
    fn write(&mut self, bytes: &[u8]) -> Result<usize, LinkFault>
        ensures takes { IfOk result (TakesSome bytes.now) }
        ensures told { WireTells (told self.old) (told self.new) (wrote_as bytes.now result) }
        ensures placed { placed self.new ≡ placed self.old }
        ensures honest { honest self.old → honest self.new }
        ensures cause { HasCause (faults self.old) (faults self.new) result };

    /// Waits for bytes for at most so many milliseconds, and puts them into the front of the buffer.
    fn read(&mut self, wait_ms: u32, buf: &mut [u8]) -> WireRead
        requires patient { 15000 ≤ wait_ms }
        requires room { 0 < length buf.old }
        ensures gets { IfGot result (GetsSome buf.new) }
        ensures told { WireTells (told self.old) (told self.new) (read_as buf.new result) }
        ensures placed { placed self.new ≡ placed self.old }
        ensures honest { honest self.old → honest self.new }
        ensures cause { HasCauseRead (faults self.old) (faults self.new) result };

    /// Whether it tells its calls. One that doesn't keeps no marks.
    fn tells(&self) -> bool
        ensures { OnFalse result (told self.now ≡ None) };

    /// Notes a mark among the calls, and nothing else.
    fn note(&mut self, mark: Mark) -> Result<(), Memory>
        ensures told { WireNotes (told self.old) (told self.new) (marked_as mark result) }
        ensures placed { placed self.new ≡ placed self.old }
        ensures honest { honest self.old → honest self.new }
        ensures cause { faults self.old ≤ faults self.new };

    /// Forgets what a link placed, for another that begins.
    fn forget_places(&mut self)
        ensures placed { placed self.new ≡ [] }
        ensures told { told self.new ≡ told self.old }
        ensures honest { honest self.old → honest self.new }
        ensures cause { faults self.new ≡ faults self.old };

    /// Keeps a place behind all others, if it tells its calls; if it doesn't, it does nothing. When out of memory
    /// nothing is changed, and the answer is false.
    fn keep_place(&mut self, place: WirePlace) -> bool
        ensures yes { OnTrue result (KeepsPlace (told self.old) (placed self.old) (placed self.new) place) }
        ensures no { OnFalse result (placed self.new ≡ placed self.old) }
        ensures told { told self.new ≡ told self.old }
        ensures honest { honest self.old → honest self.new }
        ensures cause { faults self.new ≡ faults self.old };

    /// Puts a place into that of the last, if there is one. It takes no memory.
    fn put_place(&mut self, place: WirePlace)
        ensures placed { PutsLast (placed self.old) (placed self.new) place }
        ensures told { told self.new ≡ told self.old }
        ensures honest { honest self.old → honest self.new }
        ensures cause { faults self.new ≡ faults self.old };

    /// The history that is read from what an honest wire tells is lawful: a record is sent where its last byte was
    /// written, and delivered where its last byte was read.
    ghost lawful: { (x : Self) → honest x → IsLawfulWire (told x) };
}
