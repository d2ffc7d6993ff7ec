//! A link over datagrams.

ghost use Rattle.std.specs.Prelude.{◌≡◌, ◌≤◌, ◌<◌, ◌+◌, None};
ghost use Rattle.std.specs.Bool.{OnFalse};
ghost use Rattle.world_model.specs.Told.{Tells};
ghost use Rattle.outside.specs.Causes.{HasCause, HasCauseReceived};
ghost use Rattle.outside.specs.Link.{NotesOnly, dialed_as, sent_as, received_as, noted_as};
ghost use Rattle.outside.specs.Datagrams.{is_aimed};
ghost use Rattle.udp_link.specs.Honest.{HonestOver, IsFresh};
ghost use Rattle.udp_link.specs.Shown.{IsBegun, KeepsNone, DeliversExactly, Turned, Waited, told_by};

use outside::{Arrived, DatagramAdds, Datagrams, Link, LinkFault, Received};
use std::alloc::Global;
use std::marker::Model;
use world_model::Mark;
use xdr_codec::{Memory, Record};

/// The most datagrams from other ports that one wait passes over.
const MOST_PASSED: u32 = 1_024;

/// A link over datagrams, each of them one record. It delivers those that come from the port dialed last, and passes over
/// those from others. Each call keeps its place before the datagrams are called, so that nothing that happened is left
/// without one for lack of memory.
#[derive(Drop)]
pub struct UdpLink<D: Datagrams> {
    over: D,
    port: Option<u16>,
    faults: u64,
}

impl<D: Datagrams> Model for UdpLink<D> {
    ghost use Rattle.udp_link.specs.Placing.{IsPlaced};
    ghost use Rattle.udp_link.specs.Shown.{Held};

    ghost Value = { Held D };

    ghost view = { λ s. record { over = s.over; kept = D.placed s.over; below = D.faults s.over; own = s.faults; port = s.port } };

    ghost invariant = { λ s. IsPlaced (D.told s.over) (D.placed s.over) s.port };
}

/// Whether a datagram from that port is from the one dialed last.
fn is_dialed(port: Option<u16>, from: u16) -> bool
    ensures { result ≡ is_aimed port from }
{
    match port {
        Some(port) => port == from,
        None => false,
    }
}

impl<D: Datagrams + Drop> UdpLink<D> {
    /// A link over datagrams, with an empty history: what they did before is no part of it, and no port is dialed. Over
    /// honest datagrams that did nothing yet the link is honest.
    #[tactic(auto, using(crate::proofs::Begins::begins_placed, crate::proofs::Begins::begins_told))]
    pub fn new(over: D) -> UdpLink<D>
        ensures begun { IsBegun (D.told over) (told_by D.told result) }
        ensures honest { IsFresh (D.told over) → D.honest over → HonestOver D.told D.honest result.over result.kept }
        ensures faults { result.below + result.own ≡ D.faults over }
        ensures port { result.port ≡ None }
    {
        let mut over = over;
        over.forget_places();
        UdpLink {
            over,
            port: None,
            faults: 0,
        }
    }

    /// The datagrams.
    pub fn into_datagrams(self) -> D
        ensures { D.faults result ≡ self.below }
    {
        self.over
    }

    /// Over datagrams that don't tell their calls no place is kept, so that a call takes no memory that stays.
    pub fn keeps_none(&self)
        ensures { KeepsNone (D.told self.now.over) self.now.kept }
    {
        let _over = &self.over;
    }

    /// The records that were delivered are exactly the datagrams that came from the port dialed last, in order.
    pub fn delivers_exactly(&self)
        ensures { DeliversExactly (D.told self.now.over) self.now.kept }
    {
        let _port = &self.port;
    }

    /// One turn of a wait, after so many datagrams that were passed over. None if another one was.
    fn turn(&mut self, wait_ms: u32, rec: &mut Vec<u8>, passed: u32) -> Option<Received>
        requires patient { 15000 ≤ wait_ms }
        requires few { passed < 1024 }
        ensures turned { Turned D.told passed rec.new.items result self.old self.new }
        ensures honest { HonestOver D.told D.honest self.old.over self.old.kept → HonestOver D.told D.honest self.new.over self.new.kept }
    {
        if !self.over.keep_place(DatagramAdds::Failed) {
            return Some(Received::Memory);
        }
        match self.over.receive(wait_ms, rec) {
            Arrived::From(from) => {
                if is_dialed(self.port, from) {
                    self.over.put_place(DatagramAdds::Nothing);
                    return Some(Received::Whole);
                }
                if passed + 1 == MOST_PASSED {
                    self.faults = self.faults.saturating_add(1);
                    return Some(Received::Silent);
                }
                self.over.put_place(DatagramAdds::Nothing);
                None
            }
            Arrived::Silent => Some(Received::Silent),
            Arrived::Failed => Some(Received::Failed),
            Arrived::Memory => {
                self.over.give_back();
                Some(Received::Memory)
            }
        }
    }

    /// Waits for a record.
    fn wait(&mut self, wait_ms: u32, rec: &mut Vec<u8>) -> Received
        requires { 15000 ≤ wait_ms }
        ensures waited { Waited D.told rec.new.items result self.old self.new }
        ensures honest { HonestOver D.told D.honest self.old.over self.old.kept → HonestOver D.told D.honest self.new.over self.new.kept }
    {
        let mut passed = 0;
        while passed < MOST_PASSED {
            match self.turn(wait_ms, rec, passed) {
                Some(came) => return came,
                None => passed += 1,
            }
        }
        unreachable!()
    }
}

impl<D: Datagrams + Drop> Link for UdpLink<D> {
    ghost use Rattle.udp_link.specs.Shown.{Dials, Sends, Notes};

    ghost told = { λ s. told_by D.told s };

    ghost faults = { λ s. s.below + s.own };

    ghost honest = { λ s. HonestOver D.told D.honest s.over s.kept };

    ghost stays = { λ x y. Unit {0} };

    ghost lawful = { λ s h. h.lawful };

    fn dial(&mut self, port: u16) -> Result<(), LinkFault>
        ensures told { Tells (told_by D.told self.old) (told_by D.told self.new) (dialed_as port result) }
        ensures honest { HonestOver D.told D.honest self.old.over self.old.kept → HonestOver D.told D.honest self.new.over self.new.kept }
        ensures cause { HasCause (self.old.below + self.old.own) (self.new.below + self.new.own) result }
        ensures dials { Dials self.old self.new port result }
    {
        if !self.over.keep_place(DatagramAdds::Failed) {
            return Err(LinkFault::Memory);
        }
        match self.over.aim(port) {
            Ok(()) => {
                self.over.put_place(DatagramAdds::Nothing);
                self.port = Some(port);
                Ok(())
            }
            Err(LinkFault::Failed) => {
                self.port = Some(port);
                Err(LinkFault::Failed)
            }
            Err(LinkFault::Memory) => {
                self.over.give_back();
                Err(LinkFault::Memory)
            }
        }
    }

    fn send(&mut self, rec: &Record) -> Result<(), LinkFault>
        ensures told { Tells (told_by D.told self.old) (told_by D.told self.new) (sent_as rec.now result) }
        ensures honest { HonestOver D.told D.honest self.old.over self.old.kept → HonestOver D.told D.honest self.new.over self.new.kept }
        ensures cause { HasCause (self.old.below + self.old.own) (self.new.below + self.new.own) result }
        ensures sends { Sends D.told self.old self.new rec.now result }
    {
        let bytes = rec.bytes();
        if !self.over.keep_unsent(bytes) {
            return Err(LinkFault::Memory);
        }
        match self.over.send(bytes) {
            Ok(()) => {
                self.over.put_place(DatagramAdds::Nothing);
                Ok(())
            }
            Err(LinkFault::Failed) => Err(LinkFault::Failed),
            Err(LinkFault::Memory) => {
                self.over.give_back();
                Err(LinkFault::Memory)
            }
        }
    }

    fn receive(&mut self, wait_ms: u32, rec: &mut Vec<u8>) -> Received
        requires { 15000 ≤ wait_ms }
        ensures told { Tells (told_by D.told self.old) (told_by D.told self.new) (received_as rec.new.items result) }
        ensures honest { HonestOver D.told D.honest self.old.over self.old.kept → HonestOver D.told D.honest self.new.over self.new.kept }
        ensures cause { HasCauseReceived (self.old.below + self.old.own) (self.new.below + self.new.own) result }
        ensures waited { Waited D.told rec.new.items result self.old self.new }
    {
        self.wait(wait_ms, rec)
    }

    fn tells(&self) -> bool
        ensures { OnFalse result (told_by D.told self.now ≡ None) }
    {
        self.over.tells()
    }

    fn note(&mut self, mark: Mark) -> Result<(), Memory>
        ensures told { NotesOnly (told_by D.told self.old) (told_by D.told self.new) (noted_as mark result) }
        ensures honest { HonestOver D.told D.honest self.old.over self.old.kept → HonestOver D.told D.honest self.new.over self.new.kept }
        ensures cause { self.old.below + self.old.own ≤ self.new.below + self.new.own }
        ensures notes { Notes self.old self.new }
    {
        if !self.over.keep_place(DatagramAdds::Nothing) {
            return Err(Memory);
        }
        match self.over.note(mark) {
            Ok(()) => Ok(()),
            Err(_) => {
                self.over.give_back();
                Err(Memory)
            }
        }
    }
}
