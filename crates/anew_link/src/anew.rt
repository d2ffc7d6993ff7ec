//! A link whose history began before.

ghost use Rattle.std.specs.Prelude.{◌≡◌, ◌≤◌, length, List, ℕ};
ghost use Rattle.world_model.specs.declared.entry.Entry.{Entry};
ghost use Rattle.outside.specs.Link.{tried_as, received_as};

use outside::{Link, LinkFault, Received};
use world_model::Mark;
use xdr_codec::{Memory, Record};

/// The most entries that it counts, less those that one call adds.
const MOST: u64 = u64::MAX - 2;

/// A link, lent for a while. Of the history that it told before, nothing is told that the client did. What the server executed in it is told as calls
/// of another client.
#[derive(Drop)]
pub struct Anew<'a, L: Link> {
    /// The link.
    pub link: &'a mut L,
    /// How many entries of the client were added since: 0 at the beginning.
    pub own: u64,
}

impl<L: Link> Link for Anew<'_, L> {
    ghost use Rattle.std.specs.Prelude.{◌≡◌};
    ghost use Rattle.anew_link.specs.Anew.{KeepsCount, told_anew};

    ghost told = { λ a. told_anew a.own (L.told a.link.now) };

    ghost faults = { λ a. L.faults a.link.now };

    ghost honest = { λ a. ⊥ };

    ghost stays = { λ x y. (y.link.ghost_name ≡ x.link.ghost_name) × (L.honest x.link.now → L.honest y.link.now)
        × ((first : L) → L.stays first x.link.now → L.stays first y.link.now) × KeepsCount x.own y.own (L.told x.link.now) (L.told y.link.now) };

    ghost lawful = { λ a h. absurd h };

    fn dial(&mut self, port: u16) -> Result<(), LinkFault> {
        if self.own > MOST {
            return Err(LinkFault::Memory);
        }
        let result = self.link.dial(port);
        self.own += tried(&result);
        result
    }

    fn send(&mut self, rec: &Record) -> Result<(), LinkFault> {
        if self.own > MOST {
            return Err(LinkFault::Memory);
        }
        let result = self.link.send(rec);
        self.own += tried(&result);
        result
    }

    fn receive(&mut self, wait_ms: u32, rec: &mut Vec<u8>) -> Received {
        if self.own > MOST {
            return Received::Memory;
        }
        let result = self.link.receive(wait_ms, rec);
        self.own += came(result);
        result
    }

    fn tells(&self) -> bool {
        self.link.tells()
    }

    fn note(&mut self, mark: Mark) -> Result<(), Memory> {
        if self.own > MOST {
            return Err(Memory);
        }
        self.link.note(mark)?;
        self.own += 1;
        Ok(())
    }
}

/// How many entries a call adds.
fn tried(outcome: &Result<(), LinkFault>) -> u64
    ensures { (e : Entry) → result ≡ length (tried_as e outcome.now) }
{
    match outcome {
        Ok(()) => 1,
        Err(LinkFault::Failed) => 2,
        Err(LinkFault::Memory) => 0,
    }
}

/// How many entries a wait adds.
fn came(outcome: Received) -> u64
    ensures { (rec : List ℕ) → result ≡ length (received_as rec outcome) }
{
    match outcome {
        Received::Whole => 1,
        Received::Silent => 1,
        Received::Failed => 1,
        Received::Memory => 0,
    }
}
