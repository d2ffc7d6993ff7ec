//! The simulated world as a link of two clients.

ghost use Rattle.std.specs.Prelude.{◌≡◌, ◌≤◌, ◌<◌, [], None, OnOk, IfSome};
ghost use Rattle.std.specs.VecDeque.{deque_len};
ghost use Rattle.outside.specs.Causes.{HasCauseReceived};
ghost use Rattle.world_link.specs.Going.{GoesOn};
ghost use Rattle.world_link.specs.Honest.{IsHonestWorld};
ghost use Rattle.world_link.specs.Pairs.{seen_pair};
ghost use Rattle.world_link.specs.PairSteps.{GivesTurns, HandsTo, first_for};
ghost use Rattle.world_link.specs.Routes.{KeepsAllEnds};

use crate::server::Server;
use crate::world::World;
use outside::{LinkFault, PairLink, Received};
use world_model::Mark;
use xdr_codec::{Memory, Record};

/// A link of two clients to one simulated server that does what a schedule says, and tells the history of both. Transmissions and dials are counted over
/// both ends. A transmission of either end waits for its turn, which it has when a client waits and no reply for that client is ready.
///
/// A dial fails exactly if the schedule says so, and a transmission never. Waiting is silent exactly if no reply for that client is ready and no sending
/// of either is without its turn.
#[derive(Drop)]
pub struct PairWorld {
    world: World,
}

impl PairWorld {
    /// The world with two ends.
    pub(crate) fn of(world: World) -> PairWorld
        ensures { result.world ≡ world }
    {
        PairWorld { world }
    }

    /// Gives transmissions their turns until a reply for that end is ready or no sending is left.
    fn turn_all(&mut self, end: u8) -> Result<(), Memory>
        ensures turns { OnOk result (GivesTurns end (seen_pair self.old) (seen_pair self.new)) }
        ensures goes { GoesOn (seen_pair self.old).world (seen_pair self.new).world }
        ensures stays { IsHonestWorld (seen_pair self.old).world → IsHonestWorld (seen_pair self.new).world }
        ensures ends { KeepsAllEnds (seen_pair self.old).ends (seen_pair self.new).ends }
        ensures done { OnOk result (first_for end (seen_pair self.new).ends.server.ready ≡ None → (seen_pair self.new).world.waiting ≡ []) }
    {
        while self.world.server.first_ready(end).is_none() && !self.world.waiting.is_empty() {
            self.world.turn()?;
        }
        Ok(())
    }

    /// Hands out the first reply that is ready for that end, and tells it; if none is, it is silent, and tells that.
    fn hand_out(&mut self, end: u8, rec: &mut Vec<u8>) -> Received
        ensures hands { HandsTo end (seen_pair self.old) (seen_pair self.new) rec.new.items result }
        ensures cause { HasCauseReceived (seen_pair self.old).world.faults (seen_pair self.new).world.faults result }
    {
        match self.world.server.first_ready(end) {
            Some(place) => self.world.hand_out_at(place, rec),
            None => self.world.be_silent(end),
        }
    }
}

impl Server {
    /// The place of the first reply that is ready for that end.
    fn first_ready(&self, end: u8) -> Option<usize>
        ensures first { result ≡ first_for end self.now.ready.items }
        ensures within { IfSome result (λ place. place < deque_len self.now.ready) }
    {
        self.ready.iter().position(|reply| reply.end == end)
    }
}

impl PairLink for PairWorld {
    ghost use Rattle.std.specs.Prelude.{◌≡◌, ◌≤◌, ◌<◌, Some};
    ghost use Rattle.outside.specs.Causes.{HasCause, HasCauseReceived};
    ghost use Rattle.outside.specs.Link.{dialed_as, sent_as, received_as, noted_as};
    ghost use Rattle.outside.specs.Pairs.{PairTells, PairNotes};
    ghost use Rattle.world_link.specs.Pairs.{IsHonestPair, seen_pair, told_pair};
    ghost use Rattle.world_link.specs.PairSteps.{DialsAt, SendsAt, ReceivesAt, NotesAt};

    ghost told = { λ p. Some (told_pair (seen_pair p)) };

    ghost faults = { λ p. (seen_pair p).world.faults };

    ghost honest = { λ p. IsHonestPair (seen_pair p) };

    ghost lawful = { λ p h. h.lawful };

    fn dial(&mut self, end: u8, port: u16) -> Result<(), LinkFault>
        requires { end < 2 }
        ensures told { PairTells end (Some (told_pair (seen_pair self.old))) (Some (told_pair (seen_pair self.new))) (dialed_as port result) }
        ensures honest { IsHonestPair (seen_pair self.old) → IsHonestPair (seen_pair self.new) }
        ensures cause { HasCause (seen_pair self.old).world.faults (seen_pair self.new).world.faults result }
        ensures exact { DialsAt end (seen_pair self.old) (seen_pair self.new) port result }
    {
        self.world.dial_port(end, port)
    }

    fn send(&mut self, end: u8, rec: &Record) -> Result<(), LinkFault>
        requires { end < 2 }
        ensures told { PairTells end (Some (told_pair (seen_pair self.old))) (Some (told_pair (seen_pair self.new))) (sent_as rec.now result) }
        ensures honest { IsHonestPair (seen_pair self.old) → IsHonestPair (seen_pair self.new) }
        ensures cause { HasCause (seen_pair self.old).world.faults (seen_pair self.new).world.faults result }
        ensures exact { SendsAt end (seen_pair self.old) (seen_pair self.new) rec.now result }
    {
        self.world.send_record(end, rec.bytes())
    }

    fn receive(&mut self, end: u8, _wait_ms: u32, rec: &mut Vec<u8>) -> Received
        requires end { end < 2 }
        requires wait { 15000 ≤ _wait_ms }
        ensures told { PairTells end (Some (told_pair (seen_pair self.old))) (Some (told_pair (seen_pair self.new))) (received_as rec.new.items result) }
        ensures honest { IsHonestPair (seen_pair self.old) → IsHonestPair (seen_pair self.new) }
        ensures cause { HasCauseReceived (seen_pair self.old).world.faults (seen_pair self.new).world.faults result }
        ensures exact { ReceivesAt end (seen_pair self.old) (seen_pair self.new) rec.new.items result }
    {
        if self.turn_all(end).is_err() {
            return Received::Memory;
        }
        self.hand_out(end, rec)
    }

    fn tells(&self) -> bool {
        true
    }

    fn note(&mut self, end: u8, mark: Mark) -> Result<(), Memory>
        requires { end < 2 }
        ensures told { PairNotes end (Some (told_pair (seen_pair self.old))) (Some (told_pair (seen_pair self.new))) (noted_as mark result) }
        ensures honest { IsHonestPair (seen_pair self.old) → IsHonestPair (seen_pair self.new) }
        ensures cause { (seen_pair self.old).world.faults ≤ (seen_pair self.new).world.faults }
        ensures exact { NotesAt end (seen_pair self.old) (seen_pair self.new) mark result }
    {
        self.world.note_mark(end, mark)
    }
}
