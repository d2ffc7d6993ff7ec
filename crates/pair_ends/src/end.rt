//! One end of a link that two clients share, as a link.

ghost use Rattle.std.specs.Prelude.{◌≡◌, ◌<◌, ◌≤◌};

use crate::side::Side;
use outside::{Link, LinkFault, PairLink, Received};
use world_model::Mark;
use xdr_codec::{Memory, Record};

/// One end of a link, lent for a while.
#[derive(Drop)]
pub struct End<'a, P> {
    /// The link.
    pub link: &'a mut P,
    /// Which end.
    pub side: Side,
}

impl<P: PairLink> Link for End<'_, P> {
    ghost use Rattle.std.specs.Option.{option_map};
    ghost use Rattle.outside.specs.Pairs.{side};
    ghost use Rattle.pair_ends.specs.Ends.{Spares, number_of, side-lawful};

    ghost told = { λ x. option_map (side (number_of x.side)) (P.told x.link.now) };

    ghost faults = { λ x. P.faults x.link.now };

    ghost honest = { λ x. P.honest x.link.now };

    ghost stays = { λ x y. (y.link.ghost_name ≡ x.link.ghost_name) × (y.side ≡ x.side) × Spares (number_of x.side) (P.told x.link.now) (P.told y.link.now) };

    ghost lawful = { λ x h. side-lawful x.side (P.told x.link.now) (P.lawful x.link.now h) };

    fn dial(&mut self, port: u16) -> Result<(), LinkFault> {
        self.link.dial(self.side.number(), port)
    }

    fn send(&mut self, rec: &Record) -> Result<(), LinkFault> {
        self.link.send(self.side.number(), rec)
    }

    fn receive(&mut self, wait_ms: u32, rec: &mut Vec<u8>) -> Received {
        self.link.receive(self.side.number(), wait_ms, rec)
    }

    fn tells(&self) -> bool {
        self.link.tells()
    }

    fn note(&mut self, mark: Mark) -> Result<(), Memory> {
        self.link.note(self.side.number(), mark)
    }
}
