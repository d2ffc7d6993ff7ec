//! A simulated server, by `world_link`.

ghost use Rattle.std.specs.Prelude.{IfOk};
ghost use Rattle.world_link.specs.Honest.{IsHonestWorld};
ghost use Rattle.world_link.specs.View.{seen};

use outside::Link;
use std::alloc::Global;
use world_link::{ScheduleFault, World, parse_schedule};

/// The world that a schedule begins, after a client dialed that port. It is honest, whether or not the dial failed.
pub fn dialed(alloc: Global, schedule: &[u8], port: u16) -> Result<World, ScheduleFault>
    ensures honest { IfOk result (λ world. IsHonestWorld (seen world)) }
{
    let (mut world, _) = parse_schedule(alloc, schedule)?;
    let _ = world.dial(port);
    Ok(world)
}
