//! A link in memory that hands out given records, whatever was sent.

ghost use Rattle.std.specs.Prelude.{◌≡◌, ◌++◌, ◌∷◌, [], OnOk, OnErr};

use crate::link::{Link, LinkFault, Received};
use std::alloc::Global;
use std::marker::Model;
use world_model::{Entry, Mark};
use xdr_codec::{Blob, Memory, Record};

/// A link that hands out given records, one at each wait, and is silent exactly after the last. It never fails, and
/// tells its history, with a server that has no objects. It isn't honest.
#[derive(Debug, Drop)]
pub struct HostileLink {
    alloc: Global,
    entries: Vec<Entry>,
    records: Vec<Blob>,
    next: usize,
    faults: u64,
}

impl Model for HostileLink {
    ghost use Rattle.std.specs.Prelude.{◌≤◌, drop, length};
    ghost use Rattle.outside.specs.Hostile.{HostileView};

    ghost Value = { HostileView };

    ghost view = { λ l. record { entries = l.entries.items; left = drop l.next l.records.items; faults = l.faults } };

    ghost invariant = { λ l. l.next ≤ length l.records.items };
}

impl HostileLink {
    /// A link with no records yet.
    pub fn new(alloc: Global) -> HostileLink
        ensures { result ≡ record { entries = []; left = []; faults = 0 } }
    {
        HostileLink {
            alloc,
            entries: Vec::new(alloc),
            records: Vec::new(alloc),
            next: 0,
            faults: 0,
        }
    }

    /// One more record at the end. When out of memory nothing is changed.
    pub fn reply(&mut self, rec: &[u8]) -> Result<(), Memory>
        ensures ok { OnOk result (self.new ≡ record self.old { left = self.old.left ++ rec.now ∷ [] }) }
        ensures err { OnErr result (self.new ≡ self.old) }
    {
        let record = Blob::copy(self.alloc, rec)?;
        self.records.push(record)?;
        Ok(())
    }
}

impl Link for HostileLink {
    ghost use Rattle.std.specs.Prelude.{◌≡◌, ◌≤◌, Some};
    ghost use Rattle.world_model.specs.Told.{Tells};
    ghost use Rattle.outside.specs.Causes.{HasCause, HasCauseReceived};
    ghost use Rattle.outside.specs.Link.{NotesOnly, dialed_as, sent_as, received_as, noted_as};
    ghost use Rattle.outside.specs.Hostile.{HandsOut, HandsOutNone, NeverFails};
    ghost use Rattle.world_model.specs.History.{history};

    ghost told = { λ l. Some (history l.entries) };

    ghost faults = { λ l. l.faults };

    // Any record may have been given, so nothing that it tells need be lawful.
    ghost honest = { λ l. ⊥ };

    ghost stays = { λ x y. Unit {0} };

    ghost lawful = { λ l h. absurd h };

    fn dial(&mut self, port: u16) -> Result<(), LinkFault>
        ensures told { Tells (Some (history self.old.entries)) (Some (history self.new.entries)) (dialed_as port result) }
        ensures cause { HasCause self.old.faults self.new.faults result }
        ensures never { NeverFails result }
        ensures given { HandsOutNone self.old self.new }
    {
        if tell(&mut self.entries, Entry::Dialed { port }).is_err() {
            return Err(LinkFault::Memory);
        }
        Ok(())
    }

    fn send(&mut self, rec: &Record) -> Result<(), LinkFault>
        ensures told { Tells (Some (history self.old.entries)) (Some (history self.new.entries)) (sent_as rec.now result) }
        ensures cause { HasCause self.old.faults self.new.faults result }
        ensures never { NeverFails result }
        ensures given { HandsOutNone self.old self.new }
    {
        let Ok(bytes) = rec.share(self.alloc) else {
            return Err(LinkFault::Memory);
        };
        if tell(&mut self.entries, Entry::Sent { bytes }).is_err() {
            return Err(LinkFault::Memory);
        }
        Ok(())
    }

    fn receive(&mut self, _wait_ms: u32, rec: &mut Vec<u8>) -> Received
        requires { 15000 ≤ _wait_ms }
        ensures told { Tells (Some (history self.old.entries)) (Some (history self.new.entries)) (received_as rec.new.items result) }
        ensures cause { HasCauseReceived self.old.faults self.new.faults result }
        ensures given { HandsOut self.old.left self.new.left rec.new.items result }
    {
        let Some(record) = self.records.as_slice().get(self.next) else {
            if tell(&mut self.entries, Entry::Failed).is_err() {
                return Received::Memory;
            }
            self.faults = self.faults.saturating_add(1);
            return Received::Silent;
        };
        let Ok(bytes) = Blob::copy(self.alloc, record.bytes()) else {
            return Received::Memory;
        };
        rec.clear();
        if rec.extend_from_slice(record.bytes()).is_err() {
            return Received::Memory;
        }
        if tell(&mut self.entries, Entry::Delivered { bytes }).is_err() {
            return Received::Memory;
        }
        self.next += 1;
        Received::Whole
    }

    fn tells(&self) -> bool {
        true
    }

    fn note(&mut self, mark: Mark) -> Result<(), Memory>
        ensures told { NotesOnly (Some (history self.old.entries)) (Some (history self.new.entries)) (noted_as mark result) }
        ensures cause { self.old.faults ≤ self.new.faults }
        ensures given { HandsOutNone self.old self.new }
    {
        let entry = match mark {
            Mark::Began { lane, line, op } => Entry::Began { lane, line, op },
            Mark::Answered { lane, line, answer } => Entry::Answered { lane, line, answer },
            Mark::Clock { ms } => Entry::Clock { ms },
        };
        tell(&mut self.entries, entry)
    }
}

/// Adds an entry to those that are told. When out of memory nothing is changed.
fn tell(entries: &mut Vec<Entry>, entry: Entry) -> Result<(), Memory>
    ensures ok { OnOk result (entries.new.items ≡ entries.old.items ++ entry ∷ []) }
    ensures err { OnErr result (entries.new.items ≡ entries.old.items) }
{
    entries.push(entry)?;
    Ok(())
}
