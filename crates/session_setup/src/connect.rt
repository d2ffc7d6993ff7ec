//! Connecting to the server.

ghost use Rattle.world_model.specs.Told.{Relates};
ghost use Rattle.link_dials.specs.Dials.{DialsOnly, Reaches};
ghost use Rattle.session_setup.specs.Along.{Along};
ghost use Rattle.session_setup.specs.Exchanges.{Connects};

use crate::stop::Stop;
use limits::CONNECTS;
use outside::{Link, LinkFault};

/// Connects to a port of the server.
pub(crate) fn connect<L: Link>(port: u16, link: &mut L) -> Result<(), Stop>
    ensures goes { Along (L.told link.old) (L.told link.new) (Connects result) }
    ensures dials { DialsOnly port (L.told link.old) (L.told link.new) }
    ensures reaches { Relates (L.told link.old) (L.told link.new) (Reaches port result) }
    ensures stays { (first : L) → L.stays first link.old → L.stays first link.new }
    ensures honest { L.honest link.old → L.honest link.new }
{
    for _ in 0..CONNECTS {
        match link.dial(port) {
            Ok(()) => return Ok(()),
            Err(LinkFault::Memory) => return Err(Stop::Memory),
            Err(LinkFault::Failed) => {}
        }
    }
    Err(Stop::Lost)
}
