//! A wire, with what the link placed behind each of its calls.

ghost use Rattle.std.specs.Prelude.{◌≡◌, ◌<◌, ◌≤◌, length, drop, IfOk, None, false, true, ◌==◌, if◌then◌else◌};
ghost use Rattle.std.specs.Bool.{OnTrue, OnFalse};
ghost use Rattle.outside.specs.Causes.{HasCause};
ghost use Rattle.outside.specs.Sink.{TakesSome};
ghost use Rattle.outside.specs.Wire.{connected_as, wrote_as, read_as, IfGot, GetsSome, HasCauseRead};
ghost use Rattle.outside.specs.declared.places.WireAdds.TheVariants as added;
ghost use Rattle.rpc_record.specs.Records.{one_fragment};
ghost use Rattle.rpc_record.specs.Honest.{HonestOver, EndsRecord, IsOwn, IsFresh};
ghost use Rattle.rpc_record.specs.Stream.{Goes, Did, Marked, KeepsNone, places, if_wrote, if_missed, if_dialed, IsBegun, now_in};

use outside::{LinkFault, Wire, WireAdds, WirePlace, WireRead};
use std::alloc::Global;
use std::marker::Model;
use world_model::Mark;
use xdr_codec::{Memory, Record};

/// A wire, with what is placed behind its calls. Each call keeps its place before the wire is called, so that nothing
/// that happened is left without one for lack of memory. The wire keeps the places; one that doesn't tell its calls has
/// none.
#[derive(Drop)]
pub(crate) struct Line<W: Wire> {
    alloc: Global,
    wire: W,
}

impl<W: Wire> Model for Line<W> {
    ghost use Rattle.rpc_record.specs.Stream.{Along, AllPlaced};

    ghost Value = { Along W };

    ghost view = { λ s. record { over = s.wire; kept = W.placed s.wire; faults = W.faults s.wire } };

    ghost invariant = { λ s. AllPlaced (W.told s.wire) (W.placed s.wire) };
}

/// What is placed after a write that took n bytes of len.
fn after_write(n: usize, len: usize) -> WireAdds
    ensures { result ≡ (if n == len then added.Whole else added.Nothing) }
{
    if n == len {
        WireAdds::Whole
    } else {
        WireAdds::Nothing
    }
}

impl<W: Wire + Drop> Line<W> {
    /// A line over a wire. What the wire did before is no part of it.
    #[tactic(auto, using(crate::proofs::LineBegins::fresh_placed, crate::proofs::LineBegins::fresh_begun))]
    pub(crate) fn new(alloc: Global, wire: W) -> Line<W>
        ensures begun { IsBegun (W.told wire) (now_in W.told result) }
        ensures honest { IsFresh (W.told wire) → W.honest wire → HonestOver W.told W.honest result }
        ensures faults { result.faults ≡ W.faults wire }
    {
        let mut wire = wire;
        wire.forget_places();
        Line { alloc, wire }
    }

    /// The wire.
    pub(crate) fn into_wire(self) -> W
        ensures { W.faults result ≡ self.faults }
    {
        self.wire
    }

    /// Over a wire that doesn't tell its calls no place is kept.
    pub(crate) fn keeps_none(&self)
        ensures { KeepsNone (W.told self.now.over) self.now.kept }
    {
        let _wire = &self.wire;
    }

    /// Places an entry after all that was done. When out of memory nothing is changed, and the answer is false.
    pub(crate) fn place(&mut self, adds: WireAdds) -> bool
        ensures yes { OnTrue result (Goes (now_in W.told self.old) (now_in W.told self.new) (λ s t. t ≡ places adds s)) }
        ensures no { OnFalse result (now_in W.told self.new ≡ now_in W.told self.old) }
        ensures honest { IsOwn adds → HonestOver W.told W.honest self.old → HonestOver W.told W.honest self.new }
        ensures faults { self.new.faults ≡ self.old.faults }
    {
        if !self.wire.keep_place(WirePlace { call: false, adds }) {
            return false;
        }
        true
    }

    /// Waits for bytes; if none came, that it failed is placed.
    pub(crate) fn read(&mut self, wait_ms: u32, buf: &mut [u8]) -> WireRead
        requires patient { 15000 ≤ wait_ms }
        requires room { 0 < length buf.old }
        ensures now { Goes (now_in W.told self.old) (now_in W.told self.new) (Did (read_as buf.new result) (if_missed result)) }
        ensures honest { HonestOver W.told W.honest self.old → HonestOver W.told W.honest self.new }
        ensures gets { IfGot result (GetsSome buf.new) }
        ensures cause { HasCauseRead self.old.faults self.new.faults result }
    {
        let nothing = WirePlace {
            call: false,
            adds: WireAdds::Nothing,
        };
        if !self.wire.keep_place(nothing) {
            return WireRead::Memory;
        }
        let got = self.wire.read(wait_ms, buf);
        let adds = match got {
            WireRead::Got(_) => WireAdds::Nothing,
            WireRead::Silent => WireAdds::Failed,
            WireRead::Failed => WireAdds::Failed,
            WireRead::Memory => return WireRead::Memory,
        };
        self.wire.put_place(WirePlace { call: true, adds });
        got
    }

    /// Writes a record behind its mark, from a place on. If the wire takes all that is left, the record is placed. If it
    /// fails, the record is placed as one that was not written whole.
    pub(crate) fn write(&mut self, rec: &Record, at: usize) -> Result<usize, LinkFault>
        requires { at ≤ length (one_fragment rec.now) }
        ensures now { Goes (now_in W.told self.old) (now_in W.told self.new) (Did (wrote_as (drop at (one_fragment rec.now)) result) (if_wrote (length (drop at (one_fragment rec.now))) rec.now result)) }
        ensures honest { EndsRecord (now_in W.told self.old) (drop at (one_fragment rec.now)) → HonestOver W.told W.honest self.old → HonestOver W.told W.honest self.new }
        ensures takes { IfOk result (TakesSome (drop at (one_fragment rec.now))) }
        ensures cause { HasCause self.old.faults self.new.faults result }
    {
        let nothing = WirePlace {
            call: false,
            adds: WireAdds::Nothing,
        };
        let Ok(bytes) = rec.share(self.alloc) else {
            return Err(LinkFault::Memory);
        };
        if !self.wire.keep_place(nothing) {
            return Err(LinkFault::Memory);
        }
        let (_, left) = rec.marked().split_at(at);
        match self.wire.write(left) {
            Ok(n) => {
                let adds = after_write(n, left.len());
                self.wire.put_place(WirePlace { call: true, adds });
                Ok(n)
            }
            Err(LinkFault::Failed) => {
                let adds = WireAdds::Part { bytes };
                self.wire.put_place(WirePlace { call: true, adds });
                Err(LinkFault::Failed)
            }
            Err(LinkFault::Memory) => Err(LinkFault::Memory),
        }
    }

    /// Makes a connection in place of the one before; if that fails, it is placed.
    pub(crate) fn connect(&mut self, port: u16) -> Result<(), LinkFault>
        ensures now { Goes (now_in W.told self.old) (now_in W.told self.new) (Did (connected_as port result) (if_dialed result)) }
        ensures honest { HonestOver W.told W.honest self.old → HonestOver W.told W.honest self.new }
        ensures cause { HasCause self.old.faults self.new.faults result }
    {
        let nothing = WirePlace {
            call: false,
            adds: WireAdds::Nothing,
        };
        if !self.wire.keep_place(nothing) {
            return Err(LinkFault::Memory);
        }
        match self.wire.connect(port) {
            Ok(()) => {
                let adds = WireAdds::Nothing;
                self.wire.put_place(WirePlace { call: true, adds });
                Ok(())
            }
            Err(LinkFault::Failed) => {
                let adds = WireAdds::Failed;
                self.wire.put_place(WirePlace { call: true, adds });
                Err(LinkFault::Failed)
            }
            Err(LinkFault::Memory) => Err(LinkFault::Memory),
        }
    }

    /// Whether the wire tells its calls.
    pub(crate) fn tells(&self) -> bool
        ensures { OnFalse result (now_in W.told self.now ≡ None) }
    {
        self.wire.tells()
    }

    /// Notes a mark.
    pub(crate) fn note(&mut self, mark: Mark) -> Result<(), Memory>
        ensures now { Goes (now_in W.told self.old) (now_in W.told self.new) (Marked mark result) }
        ensures honest { HonestOver W.told W.honest self.old → HonestOver W.told W.honest self.new }
        ensures cause { self.old.faults ≤ self.new.faults }
    {
        let nothing = WirePlace {
            call: false,
            adds: WireAdds::Nothing,
        };
        if !self.wire.keep_place(nothing) {
            return Err(Memory);
        }
        match self.wire.note(mark) {
            Ok(()) => {
                let adds = WireAdds::Nothing;
                self.wire.put_place(WirePlace { call: true, adds });
                Ok(())
            }
            Err(_) => Err(Memory),
        }
    }
}
