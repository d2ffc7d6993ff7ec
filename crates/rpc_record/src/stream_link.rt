//! A link over a wire.

ghost use Rattle.std.specs.Prelude.{◌≡◌, ◌≤◌, ◌<◌, ◌+◌, ℕ, List};
ghost use Rattle.world_model.specs.Told.{Tells};
ghost use Rattle.outside.specs.Link.{NotesOnly, sent_as, received_as, dialed_as, noted_as};
ghost use Rattle.outside.specs.Causes.{HasCause, HasCauseReceived};
ghost use Rattle.rpc_record.specs.declared.gather.Phase.TheVariants as phases;
ghost use Rattle.rpc_record.specs.declared.sending.SendState.TheVariants as sendings;
ghost use Rattle.rpc_record.specs.Stream.{Goes, IsBegun, KeepsNone};
ghost use Rattle.rpc_record.specs.Honest.{HonestOver, IsFresh};
ghost use Rattle.rpc_record.specs.Shown.{Waits, Turned, Turns, GoesOn, Sends, left_by, shown_by, told_by, line_of};

use crate::gather::Phase;
use crate::inbox::Inbox;
use crate::line::Line;
use crate::sending::SendState;
use outside::{Link, LinkFault, Received, Wire, WireAdds, WireRead};
use std::alloc::Global;
use std::marker::Model;
use world_model::Mark;
use xdr_codec::{Memory, Record};

/// The most turns of a wait: a record within the limits has no more bytes with its headers, and each turn that goes on
/// brings one at least.
const MOST_TURNS: u32 = 147_461;

/// A link over a wire: records on a stream of bytes, each a list of fragments. It sends a record as one fragment, and
/// receives records of up to 131,072 bytes in up to 4,096 fragments, however the bytes are cut.
#[derive(Drop)]
pub struct StreamLink<W: Wire> {
    alloc: Global,
    line: Line<W>,
    inbox: Inbox,
    sending: SendState,
    faults: u64,
}

impl<W: Wire> Model for StreamLink<W> {
    ghost use Rattle.rpc_record.specs.Stream.{now_in};
    ghost use Rattle.rpc_record.specs.Shown.{Held, Follows, partly};

    ghost Value = { Held W };

    ghost view = { λ s. record { over = s.line.over; kept = s.line.kept; wire = s.line.faults; own = s.faults; sending = s.sending; phase = s.inbox.gather.phase } };

    ghost invariant = { λ s. Follows (now_in W.told s.line) s.inbox (partly s.sending) };
}

/// What a connection is good for after a transmission that failed, by how many bytes of the record were taken.
fn after(at: usize, fault: LinkFault) -> SendState
    ensures { result ≡ left_by at fault }
{
    if at == 0 {
        return SendState::Fine;
    }
    match fault {
        LinkFault::Failed => SendState::Broken,
        LinkFault::Memory => SendState::Starved,
    }
}

impl<W: Wire + Drop> StreamLink<W> {
    /// A link over a wire, with an empty history: what the wire did before is no part of it. Over an honest wire that
    /// did nothing yet the link is honest.
    #[tactic(auto, using(crate::proofs::LineSteps::begun_follows))]
    pub fn new(alloc: Global, wire: W) -> StreamLink<W>
        ensures begun { IsBegun (W.told wire) (shown_by W.told result).now }
        ensures honest { IsFresh (W.told wire) → W.honest wire → HonestOver W.told W.honest (line_of result) }
        ensures faults { result.wire + result.own ≡ W.faults wire }
        ensures sending { result.sending ≡ sendings.Fine }
    {
        StreamLink {
            alloc,
            line: Line::new(alloc, wire),
            inbox: Inbox::new(alloc),
            sending: SendState::Fine,
            faults: 0,
        }
    }

    /// The wire.
    pub fn into_wire(self) -> W
        ensures { W.faults result ≡ self.wire }
    {
        self.line.into_wire()
    }

    /// Over a wire that doesn't tell its calls no place is kept, so that a call takes no memory that stays.
    pub fn keeps_none(&self)
        ensures untold { KeepsNone (W.told self.now.over) self.now.kept }
    {
        self.line.keeps_none();
    }

    /// Delivers the record that ended.
    fn deliver(&mut self, rec: &mut Vec<u8>) -> Received
        requires { self.old.phase ≡ phases.Whole }
        ensures turned { Turned (shown_by W.told self.old) (shown_by W.told self.new) rec.new.items result }
        ensures honest { HonestOver W.told W.honest (line_of self.old) → HonestOver W.told W.honest (line_of self.new) }
    {
        if !self.line.place(WireAdds::Delivered) {
            return Received::Memory;
        }
        self.inbox.hand_out(rec);
        Received::Whole
    }

    /// Refuses a record that is past the limits.
    fn refuse_long(&mut self) -> Received
        requires { self.old.phase ≡ phases.Long }
        ensures turned { (rec : List ℕ) → Turned (shown_by W.told self.old) (shown_by W.told self.new) rec result }
        ensures honest { HonestOver W.told W.honest (line_of self.old) → HonestOver W.told W.honest (line_of self.new) }
    {
        if !self.line.place(WireAdds::Failed) {
            return Received::Memory;
        }
        self.faults = self.faults.saturating_add(1);
        Received::Failed
    }

    /// One turn of a wait: it works what came into the record, and ends with it or waits for bytes. None if bytes
    /// came.
    fn turn(&mut self, wait_ms: u32, rec: &mut Vec<u8>) -> Option<Received>
        requires { 15000 ≤ wait_ms }
        ensures turns { Turns (shown_by W.told self.old) (shown_by W.told self.new) rec.new.items result }
        ensures honest { HonestOver W.told W.honest (line_of self.old) → HonestOver W.told W.honest (line_of self.new) }
    {
        let Ok(()) = self.inbox.work() else {
            return Some(Received::Memory);
        };
        match self.inbox.phase() {
            Phase::Whole => Some(self.deliver(rec)),
            Phase::Long => Some(self.refuse_long()),
            Phase::Header => self.inbox.fill(&mut self.line, wait_ms),
            Phase::Body { left: _, more: _ } => self.inbox.fill(&mut self.line, wait_ms),
        }
    }

    /// Waits for a record.
    #[tactic(auto, using(crate::proofs::WaitTurns::turned_on, crate::proofs::WaitTurns::goes_on_then, crate::proofs::WaitTurns::goes_on_same, crate::proofs::WaitTurns::ended_on))]
    fn wait(&mut self, wait_ms: u32, rec: &mut Vec<u8>) -> Received
        requires { 15000 ≤ wait_ms }
        ensures turned { Turned (shown_by W.told self.old) (shown_by W.told self.new) rec.new.items result }
        ensures honest { HonestOver W.told W.honest (line_of self.old) → HonestOver W.told W.honest (line_of self.new) }
    {
        let mut turns = 0;
        while turns < MOST_TURNS {
            match self.turn(wait_ms, rec) {
                Some(came) => return came,
                None => turns += 1,
            }
        }
        Received::Memory
    }

    /// Sends a record on a connection on which all before it went out whole or not at all.
    fn send_fine(&mut self, rec: &Record) -> Result<(), LinkFault>
        requires { self.old.sending ≡ sendings.Fine }
        ensures told { Tells (told_by W.told self.old) (told_by W.told self.new) (sent_as rec.now result) }
        ensures honest { HonestOver W.told W.honest (line_of self.old) → HonestOver W.told W.honest (line_of self.new) }
        ensures sends { Sends (shown_by W.told self.old) (shown_by W.told self.new) rec.now result }
    {
        let size = rec.marked().len();
        let mut at = 0;
        while at < size {
            let left = size - at;
            match self.line.write(rec, at) {
                Ok(n) => {
                    if n == left {
                        return Ok(());
                    }
                    at += n;
                }
                Err(LinkFault::Failed) => {
                    self.sending = after(at, LinkFault::Failed);
                    return Err(LinkFault::Failed);
                }
                Err(LinkFault::Memory) => {
                    self.sending = after(at, LinkFault::Memory);
                    return Err(LinkFault::Memory);
                }
            }
        }
        unreachable!()
    }

    /// Refuses a record on a connection on which another went out in part.
    fn refuse_send(&mut self, rec: &Record) -> Result<(), LinkFault>
        requires { self.old.sending ≡ sendings.Broken }
        ensures told { Tells (told_by W.told self.old) (told_by W.told self.new) (sent_as rec.now result) }
        ensures honest { HonestOver W.told W.honest (line_of self.old) → HonestOver W.told W.honest (line_of self.new) }
        ensures sends { Sends (shown_by W.told self.old) (shown_by W.told self.new) rec.now result }
    {
        let Ok(bytes) = rec.share(self.alloc) else {
            return Err(LinkFault::Memory);
        };
        if !self.line.place(WireAdds::Part { bytes }) {
            return Err(LinkFault::Memory);
        }
        self.faults = self.faults.saturating_add(1);
        Err(LinkFault::Failed)
    }

    /// Sends a record, as the connection allows.
    fn send_on(&mut self, rec: &Record) -> Result<(), LinkFault>
        ensures told { Tells (told_by W.told self.old) (told_by W.told self.new) (sent_as rec.now result) }
        ensures honest { HonestOver W.told W.honest (line_of self.old) → HonestOver W.told W.honest (line_of self.new) }
        ensures sends { Sends (shown_by W.told self.old) (shown_by W.told self.new) rec.now result }
    {
        match self.sending {
            SendState::Fine => self.send_fine(rec),
            SendState::Broken => self.refuse_send(rec),
            SendState::Starved => Err(LinkFault::Memory),
        }
    }
}

impl<W: Wire + Drop> Link for StreamLink<W> {
    ghost use Rattle.std.specs.Prelude.{None};
    ghost use Rattle.std.specs.Bool.{OnFalse};
    ghost use Rattle.rpc_record.specs.Shown.{Dials, Hears, Notes};

    ghost told = { λ s. told_by W.told s };

    ghost faults = { λ s. s.wire + s.own };

    ghost honest = { λ s. HonestOver W.told W.honest (line_of s) };

    ghost stays = { λ x y. Unit {0} };

    ghost lawful = { λ s h. h.lawful };

    fn dial(&mut self, port: u16) -> Result<(), LinkFault>
        ensures told { Tells (told_by W.told self.old) (told_by W.told self.new) (dialed_as port result) }
        ensures honest { HonestOver W.told W.honest (line_of self.old) → HonestOver W.told W.honest (line_of self.new) }
        ensures cause { HasCause (self.old.wire + self.old.own) (self.new.wire + self.new.own) result }
        ensures dials { Dials (shown_by W.told self.old) (shown_by W.told self.new) result }
    {
        match self.line.connect(port) {
            Ok(()) => {
                self.inbox.clear();
                self.sending = SendState::Fine;
                Ok(())
            }
            Err(LinkFault::Failed) => {
                self.inbox.clear();
                self.sending = SendState::Fine;
                Err(LinkFault::Failed)
            }
            Err(LinkFault::Memory) => Err(LinkFault::Memory),
        }
    }

    fn send(&mut self, rec: &Record) -> Result<(), LinkFault>
        ensures told { Tells (told_by W.told self.old) (told_by W.told self.new) (sent_as rec.now result) }
        ensures honest { HonestOver W.told W.honest (line_of self.old) → HonestOver W.told W.honest (line_of self.new) }
        ensures cause { HasCause (self.old.wire + self.old.own) (self.new.wire + self.new.own) result }
        ensures sends { Sends (shown_by W.told self.old) (shown_by W.told self.new) rec.now result }
    {
        self.send_on(rec)
    }

    fn receive(&mut self, wait_ms: u32, rec: &mut Vec<u8>) -> Received
        requires { 15000 ≤ wait_ms }
        ensures told { Tells (told_by W.told self.old) (told_by W.told self.new) (received_as rec.new.items result) }
        ensures honest { HonestOver W.told W.honest (line_of self.old) → HonestOver W.told W.honest (line_of self.new) }
        ensures cause { HasCauseReceived (self.old.wire + self.old.own) (self.new.wire + self.new.own) result }
        ensures hears { Goes (shown_by W.told self.old).now (shown_by W.told self.new).now (Hears rec.new.items result) }
        ensures waits { Waits (shown_by W.told self.old) (shown_by W.told self.new) result }
    {
        self.wait(wait_ms, rec)
    }

    fn tells(&self) -> bool
        ensures { OnFalse result (told_by W.told self.now ≡ None) }
    {
        self.line.tells()
    }

    fn note(&mut self, mark: Mark) -> Result<(), Memory>
        ensures told { NotesOnly (told_by W.told self.old) (told_by W.told self.new) (noted_as mark result) }
        ensures honest { HonestOver W.told W.honest (line_of self.old) → HonestOver W.told W.honest (line_of self.new) }
        ensures cause { self.old.wire + self.old.own ≤ self.new.wire + self.new.own }
        ensures notes { Notes (shown_by W.told self.old) (shown_by W.told self.new) }
    {
        match self.line.note(mark) {
            Ok(()) => Ok(()),
            Err(_) => Err(Memory),
        }
    }
}
