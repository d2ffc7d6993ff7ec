//! A wire that takes a part of what is written.

use outside::{LinkFault, Wire, WirePlace, WireRead};
use world_model::Mark;
use xdr_codec::Memory;

/// A wire that takes ten bytes at a time, and whose write of one number fails or finds no memory. It tells nothing, and
/// nothing comes over it.
#[derive(Debug, Drop)]
pub struct Narrow {
    writes: u32,
    fault_at: u32,
    fault: LinkFault,
    faults: u64,
}

impl Narrow {
    /// The wire whose write of that number, counted from 1, ends so.
    pub fn new(fault_at: u32, fault: LinkFault) -> Narrow {
        Narrow {
            writes: 0,
            fault_at,
            fault,
            faults: 0,
        }
    }

    /// How many times it was written to.
    pub fn writes(&self) -> u32 {
        self.writes
    }
}

impl Wire for Narrow {
    ghost use Rattle.std.specs.Prelude.{None, []};

    ghost told = { λ w. None };

    ghost placed = { λ w. [] };

    ghost faults = { λ w. w.faults };

    // It tells nothing that could be unlawful.
    ghost honest = { λ w. Unit {0} };

    ghost lawful = { λ w h. tt };

    fn connect(&mut self, _port: u16) -> Result<(), LinkFault> {
        Ok(())
    }

    fn write(&mut self, bytes: &[u8]) -> Result<usize, LinkFault> {
        self.writes = self.writes.saturating_add(1);
        if self.writes == self.fault_at {
            self.faults = self.faults.saturating_add(1);
            return Err(self.fault);
        }
        Ok(bytes.len().min(10))
    }

    fn read(&mut self, _wait_ms: u32, _buf: &mut [u8]) -> WireRead {
        self.faults = self.faults.saturating_add(1);
        WireRead::Silent
    }

    fn tells(&self) -> bool {
        false
    }

    fn note(&mut self, _mark: Mark) -> Result<(), Memory> {
        Ok(())
    }

    fn forget_places(&mut self) {}

    fn keep_place(&mut self, _place: WirePlace) -> bool {
        true
    }

    fn put_place(&mut self, _place: WirePlace) {}
}
