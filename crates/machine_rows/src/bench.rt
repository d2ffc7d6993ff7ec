//! What the client keeps, the operations that are under way, and the number of the next step.

ghost use Rattle.std.specs.Prelude.{◌≡◌, ◌≤◌, ◌+◌};

use crate::asked::is_asked;
use client_shelf::{Came, Shelf, Step, Turn};
use op_machines::{Machine, Mounted, steps_number_writes, steps_stay_fit, steps_stay_ready};
use std::alloc::Global;
use std::marker::Model;
use std::mem;
use world_model::Op;
use xdr_codec::Memory;

/// What each step is told until it is changed.
#[derive(Clone, Copy, Debug)]
pub(crate) struct Setting {
    /// How many bytes a READ asks for at most.
    pub rsize: u32,
    /// How many bytes a WRITE carries at most; 0 counts as 1.
    pub wsize: u32,
    /// The reading of the clock.
    pub now: u64,
    /// Whether there is room for a call.
    pub room: bool,
}

impl Setting {
    /// At first.
    pub(crate) fn new() -> Setting {
        Setting {
            rsize: 65_536,
            wsize: 65_536,
            now: 0,
            room: true,
        }
    }
}

/// An operation that is under way.
#[derive(Drop)]
pub(crate) struct Running {
    machine: Machine,
}

impl Model for Running {
    ghost use Rattle.op_machines.specs.Fits.{Fits};

    ghost Value = { Unit {0} };

    ghost view = { λ _. tt };

    ghost invariant = { λ r. Fits r.machine };
}

impl Running {
    /// An operation that hasn't made a step yet. None if no script can ask for it, or there is no memory.
    pub(crate) fn new(alloc: Global, mounted: &Mounted, lane: u8, op: &Op) -> Option<Running> {
        if !is_asked(op) {
            return None;
        }
        let Ok(machine) = Machine::new(alloc, mounted, lane, op) else {
            return None;
        };
        Some(Running { machine })
    }
}

/// What the client keeps, and the number of the next step.
#[derive(Drop)]
pub(crate) struct Bench {
    shelf: Shelf,
    number: u32,
}

impl Model for Bench {
    ghost use Rattle.machine_rows.specs.Sound.{IsSound};

    ghost Value = { Unit {0} };

    ghost view = { λ _. tt };

    ghost invariant = { λ b. IsSound b.number b.shelf };
}

/// A step that was made: its turn, and what it came to.
#[derive(Drop)]
pub(crate) struct Stepped {
    /// Its number is the xid of the call that it makes.
    pub turn: Turn,
    /// What it came to.
    pub next: Step,
}

impl Bench {
    /// Nothing is kept, and the first step has the number 1.
    pub(crate) fn new(alloc: Global) -> Result<Bench, Memory> {
        let shelf = Shelf::new(alloc)?;
        Ok(Bench { shelf, number: 1 })
    }

    /// Nothing is kept any more, if there is memory for that.
    pub(crate) fn renew(&mut self, alloc: Global) {
        if let Ok(bench) = Bench::new(alloc) {
            // Dropped by a call, since the prover takes a drop in place apart, field by field.
            drop(mem::replace(self, bench));
        }
    }

    /// The first step of an operation. None if all numbers of steps were given.
    pub(crate) fn start(
        &mut self,
        alloc: Global,
        running: &mut Running,
        setting: &Setting,
    ) -> Option<Stepped> {
        steps_stay_ready();
        steps_stay_fit();
        steps_number_writes();
        if self.number == u32::MAX {
            return None;
        }
        let wsize = at_least_one(setting.wsize);
        let turn = turn_of(self.number, setting);
        let next = running.machine.start(alloc, wsize, turn, &mut self.shelf);
        self.number += 1;
        Some(Stepped { turn, next })
    }

    /// A step that no reply made possible. None if all numbers of steps were given.
    pub(crate) fn resume(
        &mut self,
        alloc: Global,
        running: &mut Running,
        setting: &Setting,
    ) -> Option<Stepped> {
        steps_stay_ready();
        steps_stay_fit();
        steps_number_writes();
        if self.number == u32::MAX {
            return None;
        }
        let wsize = at_least_one(setting.wsize);
        let turn = turn_of(self.number, setting);
        let next = running.machine.resume(alloc, wsize, turn, &mut self.shelf);
        self.number += 1;
        Some(Stepped { turn, next })
    }

    /// The step at what came of the call that the step with the turn `sent` asked for. None if all numbers of steps were given.
    pub(crate) fn took(
        &mut self,
        alloc: Global,
        running: &mut Running,
        sent: Turn,
        came: &Came<'_>,
        setting: &Setting,
    ) -> Option<Stepped> {
        steps_stay_ready();
        steps_stay_fit();
        steps_number_writes();
        if self.number == u32::MAX {
            return None;
        }
        let wsize = at_least_one(setting.wsize);
        let turn = turn_of(self.number, setting);
        let next = running
            .machine
            .took(alloc, wsize, sent, came, turn, &mut self.shelf);
        self.number += 1;
        Some(Stepped { turn, next })
    }
}

/// A WRITE carries one byte at least.
fn at_least_one(wsize: u32) -> u32
    ensures { 1 ≤ result }
{
    wsize.max(1)
}

/// The turn of the step with this number. Its moment is above those of all earlier steps.
fn turn_of(number: u32, setting: &Setting) -> Turn
    ensures xid { result.xid ≡ number }
    ensures moment { result.moment ≡ number + 1 }
{
    Turn {
        xid: number,
        moment: u64::from(number) + 1,
        now: setting.now,
        room: setting.room,
    }
}
