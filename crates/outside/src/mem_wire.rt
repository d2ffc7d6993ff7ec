//! A wire in memory.

ghost use Rattle.std.specs.Prelude.{◌≡◌, ◌++◌, ◌∷◌, ◌+◌, ◌≤◌, ◌<◌, [], ℕ, List, length, min, drop, IfOk, OnOk, OnErr, ◌==◌, if◌then◌else◌};
ghost use Rattle.std.specs.Bool.{OnTrue, OnFalse};
ghost use Rattle.outside.specs.declared.wire.WireEntry.TheVariants as entries;
ghost use Rattle.outside.specs.MemWire.{IsFilled};
ghost use Rattle.outside.specs.Views.{next_call};

use crate::link::LinkFault;
use crate::places::{WirePlace, put_last};
use crate::source::copy_front;
use crate::wire::{Wire, WireEntry, WireRead};
use std::alloc::Global;
use std::marker::Model;
use world_model::Mark;
use xdr_codec::{Blob, Memory};

/// A wire that takes each piece whole, and hands out given pieces in order, at most one at a read. It is silent exactly
/// after the last. The calls that are to fail are given, and no other call fails. It tells its calls, with a server
/// that has no objects, and isn't honest.
#[derive(Debug, Drop)]
pub struct MemWire {
    alloc: Global,
    entries: Vec<WireEntry>,
    pieces: Vec<Blob>,
    next: usize,
    at: usize,
    fails: Vec<u32>,
    calls: u32,
    faults: u64,
    placed: Vec<WirePlace>,
}

impl Model for MemWire {
    ghost use Rattle.std.specs.Prelude.{◌≤◌, ◌<◌, drop, length, All, ℕ, List};
    ghost use Rattle.outside.specs.MemWire.{WireView, IsPartOf, IsFilled};

    ghost Value = { WireView };

    ghost view = { λ w. record { told = w.entries.items; pieces = drop w.next w.pieces.items; at = w.at; fails = w.fails.items; calls = w.calls; faults = w.faults; placed = w.placed.items } };

    ghost invariant = { λ w. (w.next ≤ length w.pieces.items) × (All IsFilled w.pieces.items) × (IsPartOf w.at (drop w.next w.pieces.items)) };
}

impl MemWire {
    /// A wire with no pieces yet, whose calls of these numbers fail. Calls are counted from 1, and notes not at all.
    pub fn new(alloc: Global, fails: &[u32]) -> Result<MemWire, Memory>
        ensures { IfOk result (λ w. w ≡ record { told = []; pieces = []; at = 0; fails = fails.now; calls = 0; faults = 0; placed = [] }) }
    {
        Ok(MemWire {
            alloc,
            entries: Vec::new(alloc),
            pieces: Vec::new(alloc),
            next: 0,
            at: 0,
            fails: fails.to_vec(alloc)?,
            calls: 0,
            faults: 0,
            placed: Vec::new(alloc),
        })
    }

    /// One more piece at the end. When out of memory nothing is changed.
    pub fn piece(&mut self, bytes: &[u8]) -> Result<(), Memory>
        requires { 0 < length bytes.now }
        ensures ok { OnOk result (self.new ≡ record self.old { pieces = self.old.pieces ++ bytes.now ∷ [] }) }
        ensures err { OnErr result (self.new ≡ self.old) }
    {
        let piece = Blob::copy(self.alloc, bytes)?;
        self.pieces.push(piece)?;
        Ok(())
    }

    /// What its calls did, in order.
    pub fn entries(&self) -> &[WireEntry]
        ensures { result.now ≡ self.now.told }
    {
        self.entries.as_slice()
    }

    /// Makes the next call one that missed. When out of memory nothing is changed, and the answer is false.
    fn miss(&mut self) -> bool
        ensures yes { OnTrue result (self.new ≡ record self.old { told = self.old.told ++ entries.Missed ∷ []; calls = next_call self.old.calls; faults = min (self.old.faults + 1) 18446744073709551615 }) }
        ensures no { OnFalse result (self.new ≡ self.old) }
    {
        if !tell(&mut self.entries, WireEntry::Missed) {
            return false;
        }
        self.calls = self.calls.saturating_add(1);
        self.faults = self.faults.saturating_add(1);
        true
    }
}

impl Wire for MemWire {
    ghost use Rattle.std.specs.Prelude.{◌≡◌, ◌≤◌, ◌<◌, [], Some, length, IfOk};
    ghost use Rattle.std.specs.Bool.{OnTrue, OnFalse};
    ghost use Rattle.outside.specs.Causes.{HasCause};
    ghost use Rattle.outside.specs.Sink.{TakesSome};
    ghost use Rattle.outside.specs.Views.{is_to_fail};
    ghost use Rattle.outside.specs.Wire.{WireTells, WireNotes, GetsSome, IfGot, HasCauseRead, connected_as, wrote_as, read_as, marked_as};
    ghost use Rattle.outside.specs.Places.{KeepsPlace, PutsLast};
    ghost use Rattle.outside.specs.MemWire.{in_memory, HandsOutNothing, HandsOutPiece, FailsListed, ReadFailsListed, PutsBack};

    ghost told = { λ w. Some (in_memory w.told) };

    ghost placed = { λ w. w.placed };

    ghost faults = { λ w. w.faults };

    // Any bytes may have been given, so nothing that is read from them need be lawful.
    ghost honest = { λ w. ⊥ };

    ghost lawful = { λ w h. absurd h };

    #[tactic(auto, using(crate::proofs::Pieces::tells_alone))]
    fn connect(&mut self, port: u16) -> Result<(), LinkFault>
        ensures told { WireTells (Some (in_memory self.old.told)) (Some (in_memory self.new.told)) (connected_as port result) }
        ensures placed { self.new.placed ≡ self.old.placed }
        ensures cause { HasCause self.old.faults self.new.faults result }
        ensures listed { FailsListed result (is_to_fail self.old.fails self.old.calls) }
        ensures back { PutsBack self.old self.new result }
    {
        let call = self.calls.saturating_add(1);
        if !tell(&mut self.entries, WireEntry::Connected { port }) {
            return Err(LinkFault::Memory);
        }
        self.calls = call;
        self.at = 0;
        if self.fails.as_slice().contains(&call) {
            self.faults = self.faults.saturating_add(1);
            return Err(LinkFault::Failed);
        }
        Ok(())
    }

    #[tactic(auto, using(crate::proofs::Pieces::tells_alone))]
    fn write(&mut self, bytes: &[u8]) -> Result<usize, LinkFault>
        ensures takes { IfOk result (TakesSome bytes.now) }
        ensures told { WireTells (Some (in_memory self.old.told)) (Some (in_memory self.new.told)) (wrote_as bytes.now result) }
        ensures placed { self.new.placed ≡ self.old.placed }
        ensures cause { HasCause self.old.faults self.new.faults result }
        ensures whole { IfOk result (λ n. n ≡ length bytes.now) }
        ensures listed { FailsListed result (is_to_fail self.old.fails self.old.calls) }
        ensures given { HandsOutNothing self.old self.new }
    {
        let call = self.calls.saturating_add(1);
        if self.fails.as_slice().contains(&call) {
            if !self.miss() {
                return Err(LinkFault::Memory);
            }
            return Err(LinkFault::Failed);
        }
        let Ok(copy) = Blob::copy(self.alloc, bytes) else {
            return Err(LinkFault::Memory);
        };
        if !tell(&mut self.entries, WireEntry::Wrote { bytes: copy }) {
            return Err(LinkFault::Memory);
        }
        self.calls = call;
        Ok(bytes.len())
    }

    #[tactic(auto, using(crate::proofs::Pieces::tells_alone))]
    fn read(&mut self, _wait_ms: u32, buf: &mut [u8]) -> WireRead
        requires patient { 15000 ≤ _wait_ms }
        requires room { 0 < length buf.old }
        ensures gets { IfGot result (GetsSome buf.new) }
        ensures told { WireTells (Some (in_memory self.old.told)) (Some (in_memory self.new.told)) (read_as buf.new result) }
        ensures placed { self.new.placed ≡ self.old.placed }
        ensures cause { HasCauseRead self.old.faults self.new.faults result }
        ensures listed { ReadFailsListed result (is_to_fail self.old.fails self.old.calls) }
        ensures given { HandsOutPiece self.old self.new buf.new result }
    {
        let call = self.calls.saturating_add(1);
        if self.fails.as_slice().contains(&call) {
            if !self.miss() {
                return WireRead::Memory;
            }
            return WireRead::Failed;
        }
        let Some(piece) = self.pieces.as_slice().get(self.next) else {
            if !self.miss() {
                return WireRead::Memory;
            }
            return WireRead::Silent;
        };
        let (_, left) = piece.bytes().split_at(self.at);
        let count = copy_front(left, buf);
        let whole = count == left.len();
        let Ok(bytes) = Blob::copy(self.alloc, &buf[..count]) else {
            return WireRead::Memory;
        };
        if !tell(&mut self.entries, WireEntry::Read { bytes }) {
            return WireRead::Memory;
        }
        self.calls = call;
        if whole {
            self.next += 1;
            self.at = 0;
        } else {
            self.at += count;
        }
        WireRead::Got(count)
    }

    fn tells(&self) -> bool {
        true
    }

    #[tactic(auto, using(crate::proofs::Pieces::notes_alone))]
    fn note(&mut self, mark: Mark) -> Result<(), Memory>
        ensures told { WireNotes (Some (in_memory self.old.told)) (Some (in_memory self.new.told)) (marked_as mark result) }
        ensures placed { self.new.placed ≡ self.old.placed }
        ensures cause { self.old.faults ≤ self.new.faults }
        ensures given { HandsOutNothing self.old self.new }
    {
        if !tell(&mut self.entries, WireEntry::Noted { mark }) {
            return Err(Memory);
        }
        Ok(())
    }

    fn forget_places(&mut self)
        ensures placed { self.new.placed ≡ [] }
        ensures told { Some (in_memory self.new.told) ≡ Some (in_memory self.old.told) }
        ensures cause { self.new.faults ≡ self.old.faults }
        ensures given { HandsOutNothing self.old self.new }
    {
        self.placed.clear();
    }

    fn keep_place(&mut self, place: WirePlace) -> bool
        ensures yes { OnTrue result (KeepsPlace (Some (in_memory self.old.told)) self.old.placed self.new.placed place) }
        ensures no { OnFalse result (self.new.placed ≡ self.old.placed) }
        ensures told { Some (in_memory self.new.told) ≡ Some (in_memory self.old.told) }
        ensures cause { self.new.faults ≡ self.old.faults }
        ensures given { HandsOutNothing self.old self.new }
    {
        self.placed.push(place).is_ok()
    }

    fn put_place(&mut self, place: WirePlace)
        ensures placed { PutsLast self.old.placed self.new.placed place }
        ensures told { Some (in_memory self.new.told) ≡ Some (in_memory self.old.told) }
        ensures cause { self.new.faults ≡ self.old.faults }
        ensures given { HandsOutNothing self.old self.new }
    {
        put_last(&mut self.placed, place);
    }
}

/// Adds to what is told. When out of memory nothing is changed, and the answer is false.
fn tell(entries: &mut Vec<WireEntry>, entry: WireEntry) -> bool
    ensures yes { OnTrue result (entries.new.items ≡ entries.old.items ++ entry ∷ []) }
    ensures no { OnFalse result (entries.new.items ≡ entries.old.items) }
{
    entries.push(entry).is_ok()
}
