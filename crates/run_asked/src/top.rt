//! The top call, and what it promises.

ghost use Rattle.std.specs.Prelude.{◌≡◌, ◌≤◌, ◌<◌, ◌^◌, []};
ghost use Rattle.world_model.specs.Told.{Relates};
ghost use Rattle.session_setup.specs.Outcomes.{IsOptions};
ghost use Rattle.script_runs.specs.Readings.{Reads};
ghost use Rattle.script_runs.specs.Run.{IsXidOption};
ghost use Rattle.asked_runs.specs.Runs.{RunsAsked};
ghost use Rattle.run_asked.specs.Ends.{Ends};
ghost use Rattle.run_asked.specs.Promised.{Promised};

use asked_runs::Asker;
use outside::{Clock, Link};
use session_words::Settings;
use std::alloc::Global;

/// Runs the scripts that are asked for, by settings that are known, and answers the status: that of the asker, 0 or 1; 6 if the session is lost; 7 for lack of
/// memory outside an operation; or 8 if the mount is refused. Without a script no call is made.
pub fn run_with<A: Asker, L: Link, C: Clock>(
    alloc: Global,
    settings: &Settings,
    asker: &mut A,
    link: &mut L,
    clock: &mut C,
) -> u8
    requires options { IsOptions settings.now }
    requires most { settings.now.calls < 2 ^ 31 }
    requires xid { IsXidOption settings.now.xid }
    ensures statuses { result ≤ 8 }

    // None of 2 to 5 comes.
    ensures taken { 2 ≤ result → 6 ≤ result }
    ensures stays { (first : L) → L.stays first link.old → L.stays first link.new }
    ensures honest { L.honest link.old → L.honest link.new }
    ensures asker { (first : A) → A.stays first asker.old → A.stays first asker.new }
    ensures tells { result ≤ 1 → A.tells asker.new result }

    // Why it ends with its status: `Ends` of specs/Ends.
    ensures ends { Relates (L.told link.old) (L.told link.new) (λ before h. before ≡ [] → Ends settings.now h result) }

    // What the session comes to, that the asker was asked for its scripts, and what it promises: `Promised` of specs/Promised.
    ensures headline { Reads (C.readings clock.old) (C.readings clock.new) (λ given.
        Relates (L.told link.old) (L.told link.new) (λ before h. before ≡ [] →
        RunsAsked Promised (λ rounds. A.asks asker.old rounds asker.new) settings.now given h result)) }
{
    asked_runs::run_with(alloc, settings, asker, link, clock)
}
