//! A script that is made, over a server without a file.

ghost use Rattle.std.specs.Prelude.{◌≤◌, [], map, IfOk};
ghost use Rattle.std.specs.String.{string_bytes};
ghost use Rattle.made_script.specs.Made.{IsSize};
ghost use Rattle.script_runs.specs.Run.{Says};
ghost use Rattle.world_link.specs.Readings.{read_of};
ghost use Rattle.world_link.specs.Replay.{told};
ghost use Rattle.world_link.specs.View.{seen};
ghost use Rattle.run_replay.specs.Replays.{IsRead, MadeReplayOf};

use outside::{Sink, TickClock};
use run_made::run_made;
use std::alloc::Global;
use world_link::{ScheduleFault, World, parse_schedule};

/// Runs the script that is made of this size, as `run_made::run_made` does, over the simulated server of an empty
/// schedule. The clock stands still. It answers the world as it is then and the status of the session; or a fault, for
/// lack of memory.
pub fn replay_made<K: Sink>(
    alloc: Global,
    n: u32,
    words: &[String],
    out: &mut K,
) -> Result<(World, u8), ScheduleFault>
    requires { IsSize n }
    ensures schedule { IsRead (read_of []) result }
    ensures statuses { IfOk result (λ ran. ran.1 ≤ 8) }

    // What a session of that script promises of the history that the world tells, as in `replay`.
    ensures headline { IfOk result (λ ran. Says (K.written out.old) (K.written out.new) (λ said.
        MadeReplayOf (told (seen ran.0)) (map string_bytes words.now) n ran.1 said)) }
{
    let (mut world, _) = parse_schedule(alloc, b"")?;
    let mut clock = TickClock::new(0);
    let status = run_made(alloc, n, words, &mut world, &mut clock, out);
    Ok((world, status))
}
