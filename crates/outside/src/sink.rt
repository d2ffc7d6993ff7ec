//! Where bytes go to.

ghost use Rattle.std.specs.Prelude.{◌≡◌, [], ℕ, List, Option, IfOk};
ghost use Rattle.outside.specs.Causes.{HasCause};
ghost use Rattle.outside.specs.Sink.{TakesSome, WritesTo};

use crate::link::LinkFault;
use std::alloc::Global;
use std::marker::Model;
use xdr_codec::Memory;

/// A place that takes bytes one after another.
pub trait Sink {
    /// What was written, if the sink tells it.
    ghost written: { Self → Option (List ℕ) };

    /// How often the outside failed. It never falls.
    ghost faults: { Self → ℕ };

    /// Writes the front of the piece, and answers how many bytes it took: at least one of a piece that isn't empty.
    /// After a failure or when out of memory none was taken.
    fn write(&mut self, bytes: &[u8]) -> Result<usize, LinkFault>
        ensures takes { IfOk result (TakesSome bytes.now) }
        ensures told { WritesTo (written self.old) (written self.new) bytes.now result }
        ensures cause { HasCause (faults self.old) (faults self.new) result };
}

/// A sink in memory, which takes each piece whole. The calls that are to fail are given, and no other call fails.
#[derive(Debug, Drop)]
pub struct MemSink {
    written: Vec<u8>,
    fails: Vec<u32>,
    calls: u32,
    faults: u64,
}

impl Model for MemSink {
    ghost use Rattle.outside.specs.Views.{SinkView};

    ghost Value = { SinkView };

    ghost view = { λ s. record { written = s.written.items; fails = s.fails.items; calls = s.calls; faults = s.faults } };
}

impl MemSink {
    /// A sink that holds nothing, whose calls of these numbers fail; calls are counted from 1.
    pub fn new(alloc: Global, fails: &[u32]) -> Result<MemSink, Memory>
        ensures { IfOk result (λ s. s ≡ record { written = []; fails = fails.now; calls = 0; faults = 0 }) }
    {
        Ok(MemSink {
            written: Vec::new(alloc),
            fails: fails.to_vec(alloc)?,
            calls: 0,
            faults: 0,
        })
    }

    /// What was written.
    pub fn bytes(&self) -> &[u8]
        ensures { result.now ≡ self.now.written }
    {
        self.written.as_slice()
    }
}

impl Sink for MemSink {
    ghost use Rattle.std.specs.Prelude.{◌≡◌, Some, length, IfOk};
    ghost use Rattle.outside.specs.Causes.{HasCause};
    ghost use Rattle.outside.specs.Sink.{TakesSome, WritesTo, FailsWhere};
    ghost use Rattle.outside.specs.Views.{is_to_fail};

    ghost written = { λ s. Some s.written };

    ghost faults = { λ s. s.faults };

    fn write(&mut self, bytes: &[u8]) -> Result<usize, LinkFault>
        ensures takes { IfOk result (TakesSome bytes.now) }
        ensures told { WritesTo (Some self.old.written) (Some self.new.written) bytes.now result }
        ensures cause { HasCause self.old.faults self.new.faults result }
        ensures whole { IfOk result (λ n. n ≡ length bytes.now) }
        ensures listed { FailsWhere result (is_to_fail self.old.fails self.old.calls) }
    {
        let call = self.calls.saturating_add(1);
        if self.fails.as_slice().contains(&call) {
            self.calls = call;
            self.faults = self.faults.saturating_add(1);
            return Err(LinkFault::Failed);
        }
        if self.written.extend_from_slice(bytes).is_err() {
            return Err(LinkFault::Memory);
        }
        self.calls = call;
        Ok(bytes.len())
    }
}
