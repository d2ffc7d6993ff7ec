//! Lines that are asked for, one after the other.

ghost use Rattle.std.specs.Prelude.{◌≡◌, ◌≤◌, [], All, OnErr, OnOk, length};
ghost use Rattle.nfs_script.specs.Asked.{IsAsked, IsAskedLine, IsFrom};
ghost use Rattle.copy_plan.specs.Lines.{asks};

use nfs_script::ScriptLine;
use std::alloc::Global;
use std::marker::Model;
use world_model::Op;

/// The most lines of a script.
const MOST_LINES: usize = 16_384;

/// The greatest number of a line, if lines are numbered on from script to script.
const LAST_LINE: u32 = 268_435_455;

/// Why a line isn't added.
#[derive(Clone, Copy)]
pub enum PlanFault {
    /// Out of memory.
    Memory,
    /// The script has 16,384 lines, or the number of the line would be above 268,435,455, or its offset above 2^62.
    Full,
}

/// The lines of a script so far, and the number of the next one. Numbers go on from script to script.
#[derive(Drop)]
pub(crate) struct Lines {
    lines: Vec<ScriptLine>,
    next: u32,
}

impl Model for Lines {
    ghost use Rattle.std.specs.Prelude.{◌≤◌, All, length};
    ghost use Rattle.nfs_script.specs.Asked.{IsAskedLine, IsFrom};
    ghost use Rattle.copy_plan.specs.Lines.{LinesView};

    ghost Value = { LinesView };

    ghost view = { λ l. record { lines = l.lines.items; next = l.next } };

    ghost invariant = { λ l. IsFrom 1 268435456 l.next × All IsAskedLine l.lines.items × (length l.lines.items ≤ 16384) };
}

impl Lines {
    /// None so far. The first has the number 1.
    pub(crate) fn new(alloc: Global) -> Lines
        ensures { result ≡ record { lines = []; next = 1 } }
    {
        Lines {
            lines: Vec::new(alloc),
            next: 1,
        }
    }

    /// How many lines the script has so far.
    pub(crate) fn count(&self) -> usize
        ensures is { result ≡ length self.now.lines }
        ensures few { result ≤ 16384 }
    {
        self.lines.len()
    }

    /// The number of the next line.
    pub(crate) fn next(&self) -> u32
        ensures { result ≡ self.now.next }
    {
        self.next
    }

    /// Asks a lane, 1 to 16, for an operation. After a fault nothing is added.
    pub(crate) fn add(&mut self, lane: u8, op: Op) -> Result<(), PlanFault>
        requires lane { IsFrom 1 16 lane }
        requires op { IsAsked op }
        ensures ok { OnOk result (self.new ≡ asks lane op self.old) }
        ensures err { OnErr result (self.new ≡ self.old) }
    {
        if self.lines.len() >= MOST_LINES || self.next > LAST_LINE {
            // Dropped by a call, since the prover takes a drop in place apart, field by field.
            drop(op);
            return Err(PlanFault::Full);
        }
        let line = ScriptLine {
            lane,
            line: self.next,
            op,
        };
        match self.lines.push(line) {
            Ok(()) => {
                self.next += 1;
                Ok(())
            }
            Err(refused) => {
                drop(refused);
                Err(PlanFault::Memory)
            }
        }
    }

    /// The lines of the script, which is done: the next one begins.
    pub(crate) fn take(&mut self, alloc: Global) -> Vec<ScriptLine>
        ensures is { result.items ≡ self.old.lines }
        ensures asked { All IsAskedLine result.items }
        ensures few { length result.items ≤ 16384 }
        ensures rest { self.new ≡ record { lines = []; next = self.old.next } }
    {
        std::mem::replace(&mut self.lines, Vec::new(alloc))
    }
}
