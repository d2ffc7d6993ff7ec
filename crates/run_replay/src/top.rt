//! The top call.

ghost use Rattle.std.specs.Prelude.{◌≤◌, map, IfOk};
ghost use Rattle.std.specs.String.{string_bytes};
ghost use Rattle.script_runs.specs.Run.{Says};
ghost use Rattle.world_link.specs.Readings.{read_of};
ghost use Rattle.world_link.specs.Replay.{told};
ghost use Rattle.world_link.specs.View.{seen};
ghost use Rattle.run_replay.specs.Replays.{IsRead, ReplayOf, StartsAs};

use nfs_client::run;
use outside::{Sink, Source, TickClock};
use std::alloc::Global;
use world_link::{ScheduleFault, World, parse_schedule};

/// Runs the script that the source gives, as `nfs_client::run` does, over the world that the schedule begins. The clock
/// goes on by the schedule's step. It answers the world as it is then, which tells what happened, and the status of the
/// session. A text that is no schedule is refused with its fault, and then nothing is read or written.
pub fn replay<S: Source, K: Sink>(
    alloc: Global,
    schedule: &[u8],
    words: &[String],
    script: &mut S,
    out: &mut K,
) -> Result<(World, u8), ScheduleFault>
    // A schedule is refused only for its first faulty line, or for lack of memory.
    ensures schedule { IsRead (read_of schedule.now) result }
    ensures statuses { IfOk result (λ ran. ran.1 ≤ 8) }

    // At the first moment the server holds the schedule's files and directories.
    ensures start { IfOk result (λ ran. StartsAs (read_of schedule.now) (told (seen ran.0))) }

    // What a session promises of the history that the world tells: `Headline` of nfs_client. The server is honest, its stamps
    // are fresh and its cookies rise; so of the premises only `Once` is left.
    ensures headline { IfOk result (λ ran. Says (K.written out.old) (K.written out.new) (λ text.
        ReplayOf (told (seen ran.0)) (map string_bytes words.now) (S.left script.old) ran.1 text)) }
{
    let (mut world, tick) = parse_schedule(alloc, schedule)?;
    let mut clock = TickClock::new(tick);
    let status = run(alloc, words, script, &mut world, &mut clock, out);
    Ok((world, status))
}
