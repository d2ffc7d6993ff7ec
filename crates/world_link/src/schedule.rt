//! Schedules: what a simulated world begins with, as text.

ghost use Rattle.std.specs.Prelude.{IfOk};
ghost use Rattle.world_link.specs.Begins.{Begins};
ghost use Rattle.world_link.specs.Honest.{IsHonestWorld};
ghost use Rattle.world_link.specs.View.{seen};
ghost use Rattle.world_link.specs.Readings.{read_of};

use crate::reading::read_schedule;
use crate::world::World;
use std::alloc::Global;
use thiserror::Error;
use xdr_codec::Memory;

/// Why a text is no schedule.
#[derive(Clone, Copy, Debug, PartialEq, Eq, Error)]
pub enum ScheduleFault {
    /// The first line that isn't of the form, counted from 1; 0 if the text has more than 1,048,576 bytes.
    #[error("line {0} isn't of the form of a schedule")]
    Line(u32),
    /// Out of memory.
    #[error("want of memory")]
    Memory,
}

impl From<Memory> for ScheduleFault {
    ghost use Rattle.std.specs.Prelude.{◌≡◌};
    ghost use Rattle.world_link.specs.declared.schedule.ScheduleFault.TheVariants as faults;

    ghost from_gives = { λ _ e. e ≡ faults.Memory };

    fn from(_memory: Memory) -> ScheduleFault {
        ScheduleFault::Memory
    }
}

/// Reads a schedule of at most 1,048,576 bytes: the world that it begins, and the milliseconds from one reading of its
/// clock to the next. The world is honest. The faults are those of `read_schedule`.
pub fn parse_schedule(alloc: Global, text: &[u8]) -> Result<(World, u64), ScheduleFault>
    ensures begins { Begins (read_of text.now) result }
    ensures honest { IfOk result (λ begun. IsHonestWorld (seen begun.0)) }
{
    begin_world(alloc, text)
}

fn begin_world(alloc: Global, text: &[u8]) -> Result<(World, u64), ScheduleFault>
    ensures { Begins (read_of text.now) result }
{
    // The world keeps the export of the start beside the one that it changes, so the text is read twice.
    let start = read_schedule(alloc, text)?;
    let schedule = read_schedule(alloc, text)?;
    let tick = schedule.plan.tick() as u64;
    let world = World::of(alloc, schedule.plan, start.export, schedule.export);
    Ok((world, tick))
}
