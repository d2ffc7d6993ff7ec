//! Datagrams in memory.

ghost use Rattle.std.specs.Prelude.{◌≡◌, ◌++◌, ◌∷◌, ◌+◌, [], List, min, IfOk, OnOk, OnErr};
ghost use Rattle.std.specs.Bool.{OnTrue, OnFalse};
ghost use Rattle.outside.specs.declared.datagrams.DatagramEntry.TheVariants as entries;
ghost use Rattle.outside.specs.Views.{next_call};

use crate::datagrams::{Arrived, DatagramEntry, Datagrams};
use crate::link::LinkFault;
use crate::places::{DatagramAdds, put_last, take_last};
use std::alloc::Global;
use std::marker::Model;
use world_model::Mark;
use xdr_codec::{Blob, Memory};

/// A datagram that is to come.
#[derive(Debug, Drop)]
pub struct Arrival {
    /// The port that it comes from.
    pub port: u16,
    /// What it holds.
    pub bytes: Blob,
}

/// Datagrams that all go out, and given ones that come, one at each wait, from whatever port was given with them. A
/// wait is silent exactly after the last. The calls that are to fail are given, and no other call fails. They tell
/// their calls, with a server that has no objects, and aren't honest.
#[derive(Debug, Drop)]
pub struct MemDatagrams {
    alloc: Global,
    entries: Vec<DatagramEntry>,
    arrivals: Vec<Arrival>,
    next: usize,
    fails: Vec<u32>,
    calls: u32,
    faults: u64,
    placed: Vec<DatagramAdds>,
}

impl Model for MemDatagrams {
    ghost use Rattle.std.specs.Prelude.{◌≤◌, drop, length};
    ghost use Rattle.outside.specs.MemDatagrams.{DatagramsView};

    ghost Value = { DatagramsView };

    ghost view = { λ d. record { told = d.entries.items; left = drop d.next d.arrivals.items; fails = d.fails.items; calls = d.calls; faults = d.faults; placed = d.placed.items } };

    ghost invariant = { λ d. d.next ≤ length d.arrivals.items };
}

impl MemDatagrams {
    /// No arrivals yet; the calls of these numbers fail. Calls are counted from 1, and notes not at all.
    pub fn new(alloc: Global, fails: &[u32]) -> Result<MemDatagrams, Memory>
        ensures { IfOk result (λ d. d ≡ record { told = []; left = []; fails = fails.now; calls = 0; faults = 0; placed = [] }) }
    {
        Ok(MemDatagrams {
            alloc,
            entries: Vec::new(alloc),
            arrivals: Vec::new(alloc),
            next: 0,
            fails: fails.to_vec(alloc)?,
            calls: 0,
            faults: 0,
            placed: Vec::new(alloc),
        })
    }

    /// One more arrival at the end, from that port. When out of memory nothing is changed.
    pub fn arrival(&mut self, port: u16, bytes: &[u8]) -> Result<(), Memory>
        ensures ok { OnOk result (self.new ≡ record self.old { left = self.old.left ++ record { port = port; bytes = bytes.now } ∷ [] }) }
        ensures err { OnErr result (self.new ≡ self.old) }
    {
        let arrival = Arrival {
            port,
            bytes: Blob::copy(self.alloc, bytes)?,
        };
        self.arrivals.push(arrival)?;
        Ok(())
    }

    /// What the calls did, in order.
    pub fn entries(&self) -> &[DatagramEntry]
        ensures { result.now ≡ self.now.told }
    {
        self.entries.as_slice()
    }

    /// Makes the next call one that missed. When out of memory nothing is changed, and the answer is false.
    fn miss(&mut self) -> bool
        ensures yes { OnTrue result (self.new ≡ record self.old { told = self.old.told ++ entries.Missed ∷ []; calls = next_call self.old.calls; faults = min (self.old.faults + 1) 18446744073709551615 }) }
        ensures no { OnFalse result (self.new ≡ self.old) }
    {
        if !tell(&mut self.entries, DatagramEntry::Missed) {
            return false;
        }
        self.calls = self.calls.saturating_add(1);
        self.faults = self.faults.saturating_add(1);
        true
    }
}

impl Datagrams for MemDatagrams {
    ghost use Rattle.std.specs.Prelude.{◌≡◌, ◌≤◌, [], Some};
    ghost use Rattle.std.specs.Bool.{OnTrue, OnFalse};
    ghost use Rattle.outside.specs.Causes.{HasCause};
    ghost use Rattle.outside.specs.Views.{is_to_fail};
    ghost use Rattle.outside.specs.Datagrams.{DatagramsTell, DatagramsNote, HasCauseArrived, aimed_as, datagram_as, arrived_as, remarked_as};
    ghost use Rattle.outside.specs.Places.{KeepsPlace, PutsLast, TakesLast};
    ghost use Rattle.outside.specs.declared.places.DatagramAdds.TheVariants as added;
    ghost use Rattle.outside.specs.MemWire.{FailsListed};
    ghost use Rattle.outside.specs.MemDatagrams.{of_memory, HandsArrival, ArrivalFailsListed};

    ghost told = { λ d. Some (of_memory d.told) };

    ghost placed = { λ d. d.placed };

    ghost faults = { λ d. d.faults };

    // Any bytes may have been given, so nothing that is read from them need be lawful.
    ghost honest = { λ d. ⊥ };

    ghost lawful = { λ d h. absurd h };

    #[tactic(auto, using(crate::proofs::Arrivals::tells_itself))]
    fn aim(&mut self, port: u16) -> Result<(), LinkFault>
        ensures told { DatagramsTell (Some (of_memory self.old.told)) (Some (of_memory self.new.told)) (aimed_as port result) }
        ensures placed { self.new.placed ≡ self.old.placed }
        ensures cause { HasCause self.old.faults self.new.faults result }
        ensures listed { FailsListed result (is_to_fail self.old.fails self.old.calls) }
        ensures given { self.new.left ≡ self.old.left }
    {
        let call = self.calls.saturating_add(1);
        if !tell(&mut self.entries, DatagramEntry::Aimed { port }) {
            return Err(LinkFault::Memory);
        }
        self.calls = call;
        if self.fails.as_slice().contains(&call) {
            self.faults = self.faults.saturating_add(1);
            return Err(LinkFault::Failed);
        }
        Ok(())
    }

    #[tactic(auto, using(crate::proofs::Arrivals::tells_itself))]
    fn send(&mut self, bytes: &[u8]) -> Result<(), LinkFault>
        ensures told { DatagramsTell (Some (of_memory self.old.told)) (Some (of_memory self.new.told)) (datagram_as bytes.now result) }
        ensures placed { self.new.placed ≡ self.old.placed }
        ensures cause { HasCause self.old.faults self.new.faults result }
        ensures listed { FailsListed result (is_to_fail self.old.fails self.old.calls) }
        ensures given { self.new.left ≡ self.old.left }
    {
        let call = self.calls.saturating_add(1);
        if self.fails.as_slice().contains(&call) {
            if !self.miss() {
                return Err(LinkFault::Memory);
            }
            return Err(LinkFault::Failed);
        }
        let Ok(copy) = Blob::copy(self.alloc, bytes) else {
            return Err(LinkFault::Memory);
        };
        if !tell(&mut self.entries, DatagramEntry::Sent { bytes: copy }) {
            return Err(LinkFault::Memory);
        }
        self.calls = call;
        Ok(())
    }

    #[tactic(auto, using(crate::proofs::Arrivals::tells_itself))]
    fn receive(&mut self, _wait_ms: u32, buf: &mut Vec<u8>) -> Arrived
        requires { 15000 ≤ _wait_ms }
        ensures told { DatagramsTell (Some (of_memory self.old.told)) (Some (of_memory self.new.told)) (arrived_as buf.new.items result) }
        ensures placed { self.new.placed ≡ self.old.placed }
        ensures cause { HasCauseArrived self.old.faults self.new.faults result }
        ensures listed { ArrivalFailsListed result (is_to_fail self.old.fails self.old.calls) }
        ensures given { HandsArrival self.old.left self.new.left buf.new.items result }
    {
        let call = self.calls.saturating_add(1);
        if self.fails.as_slice().contains(&call) {
            if !self.miss() {
                return Arrived::Memory;
            }
            return Arrived::Failed;
        }
        let Some(arrival) = self.arrivals.as_slice().get(self.next) else {
            if !self.miss() {
                return Arrived::Memory;
            }
            return Arrived::Silent;
        };
        let port = arrival.port;
        let Ok(bytes) = Blob::copy(self.alloc, arrival.bytes.bytes()) else {
            return Arrived::Memory;
        };
        buf.clear();
        if buf.extend_from_slice(arrival.bytes.bytes()).is_err() {
            return Arrived::Memory;
        }
        if !tell(&mut self.entries, DatagramEntry::Came { port, bytes }) {
            return Arrived::Memory;
        }
        self.calls = call;
        self.next += 1;
        Arrived::From(port)
    }

    fn tells(&self) -> bool {
        true
    }

    #[tactic(auto, using(crate::proofs::Arrivals::notes_itself))]
    fn note(&mut self, mark: Mark) -> Result<(), Memory>
        ensures told { DatagramsNote (Some (of_memory self.old.told)) (Some (of_memory self.new.told)) (remarked_as mark result) }
        ensures placed { self.new.placed ≡ self.old.placed }
        ensures cause { self.old.faults ≤ self.new.faults }
        ensures given { self.new.left ≡ self.old.left }
    {
        if !tell(&mut self.entries, DatagramEntry::Noted { mark }) {
            return Err(Memory);
        }
        Ok(())
    }

    fn forget_places(&mut self)
        ensures placed { self.new.placed ≡ [] }
        ensures told { Some (of_memory self.new.told) ≡ Some (of_memory self.old.told) }
        ensures cause { self.new.faults ≡ self.old.faults }
        ensures given { self.new.left ≡ self.old.left }
    {
        self.placed.clear();
    }

    fn keep_place(&mut self, place: DatagramAdds) -> bool
        ensures yes { OnTrue result (KeepsPlace (Some (of_memory self.old.told)) self.old.placed self.new.placed place) }
        ensures no { OnFalse result (self.new.placed ≡ self.old.placed) }
        ensures told { Some (of_memory self.new.told) ≡ Some (of_memory self.old.told) }
        ensures cause { self.new.faults ≡ self.old.faults }
        ensures given { self.new.left ≡ self.old.left }
    {
        self.placed.push(place).is_ok()
    }

    fn keep_unsent(&mut self, rec: &[u8]) -> bool
        ensures yes { OnTrue result (KeepsPlace (Some (of_memory self.old.told)) self.old.placed self.new.placed (added.Unsent rec.now)) }
        ensures no { OnFalse result (self.new.placed ≡ self.old.placed) }
        ensures told { Some (of_memory self.new.told) ≡ Some (of_memory self.old.told) }
        ensures cause { self.new.faults ≡ self.old.faults }
        ensures given { self.new.left ≡ self.old.left }
    {
        let Ok(bytes) = Blob::copy(self.alloc, rec) else {
            return false;
        };
        self.placed.push(DatagramAdds::Unsent { bytes }).is_ok()
    }

    fn put_place(&mut self, place: DatagramAdds)
        ensures placed { PutsLast self.old.placed self.new.placed place }
        ensures told { Some (of_memory self.new.told) ≡ Some (of_memory self.old.told) }
        ensures cause { self.new.faults ≡ self.old.faults }
        ensures given { self.new.left ≡ self.old.left }
    {
        put_last(&mut self.placed, place);
    }

    fn give_back(&mut self)
        ensures placed { TakesLast self.old.placed self.new.placed }
        ensures told { Some (of_memory self.new.told) ≡ Some (of_memory self.old.told) }
        ensures cause { self.new.faults ≡ self.old.faults }
        ensures given { self.new.left ≡ self.old.left }
    {
        take_last(&mut self.placed);
    }
}

/// Adds to what is told. When out of memory nothing is changed, and the answer is false.
fn tell(entries: &mut Vec<DatagramEntry>, entry: DatagramEntry) -> bool
    ensures yes { OnTrue result (entries.new.items ≡ entries.old.items ++ entry ∷ []) }
    ensures no { OnFalse result (entries.new.items ≡ entries.old.items) }
{
    entries.push(entry).is_ok()
}
