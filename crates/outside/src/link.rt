//! The way to the server, by what happened on it.

ghost use Rattle.std.specs.Prelude.{◌≡◌, ◌≤◌, ℕ, Option, None};
ghost use Rattle.std.specs.Bool.{OnFalse};
ghost use Rattle.world_model.specs.History.{History};
ghost use Rattle.world_model.specs.Told.{Tells, IsLawful};
ghost use Rattle.outside.specs.Causes.{HasCause, HasCauseReceived};
ghost use Rattle.outside.specs.Link.{NotesOnly, dialed_as, sent_as, received_as, noted_as};

use world_model::Mark;
use xdr_codec::{Memory, Record};

/// Why the outside did not do what it was asked.
#[derive(Clone, Copy, Debug, PartialEq, Eq)]
pub enum LinkFault {
    /// The outside failed.
    Failed,
    /// Out of memory.
    Memory,
}

/// What came of waiting for a record.
#[derive(Clone, Copy, Debug, PartialEq, Eq)]
pub enum Received {
    /// A record came whole.
    Whole,
    /// No record came in time.
    Silent,
    /// The outside failed.
    Failed,
    /// Out of memory; no byte that came is lost.
    Memory,
}

/// A way to a server. Before, between and after the entries that a call adds, the server may add any number of its own.
/// It adds none when a mark is noted.
pub trait Link {
    /// The history, if the link tells it.
    ghost told: { Self → Option History };

    /// How often the outside failed. It never falls.
    ghost faults: { Self → ℕ };

    /// Whether what it tells is what an honest server and network make.
    ghost honest: { Self → Type 0 };

    /// What is so of two states of it between which only calls of it were made, beside what it tells.
    ghost stays: { Self → Self → Type 0 };

    /// Makes a connection to that port, in place of the one before.
    fn dial(&mut self, port: u16) -> Result<(), LinkFault>
        ensures told { Tells (told self.old) (told self.new) (dialed_as port result) }
        ensures stays { (first : Self) → stays first self.old → stays first self.new }
        ensures honest { honest self.old → honest self.new }
        ensures cause { HasCause (faults self.old) (faults self.new) result };

    /// Sends a record. When out of memory nothing was sent.
    fn send(&mut self, rec: &Record) -> Result<(), LinkFault>
        ensures told { Tells (told self.old) (told self.new) (sent_as rec.now result) }
        ensures stays { (first : Self) → stays first self.old → stays first self.new }
        ensures honest { honest self.old → honest self.new }
        ensures cause { HasCause (faults self.old) (faults self.new) result };

    /// Waits for a record for at most so many milliseconds. A whole one takes the place of what rec held.
    fn receive(&mut self, wait_ms: u32, rec: &mut Vec<u8>) -> Received
        requires { 15000 ≤ wait_ms }
        ensures told { Tells (told self.old) (told self.new) (received_as rec.new.items result) }
        ensures stays { (first : Self) → stays first self.old → stays first self.new }
        ensures honest { honest self.old → honest self.new }
        ensures cause { HasCauseReceived (faults self.old) (faults self.new) result };

    /// Whether it tells its history. One that doesn't keeps no marks.
    fn tells(&self) -> bool
        ensures { OnFalse result (told self.now ≡ None) };

    /// Notes a mark in the history, and nothing else. When out of memory nothing was noted.
    fn note(&mut self, mark: Mark) -> Result<(), Memory>
        ensures told { NotesOnly (told self.old) (told self.new) (noted_as mark result) }
        ensures stays { (first : Self) → stays first self.old → stays first self.new }
        ensures honest { honest self.old → honest self.new }
        ensures cause { faults self.old ≤ faults self.new };

    /// What an honest link tells is lawful.
    ghost lawful: { (x : Self) → honest x → IsLawful (told x) };
}
