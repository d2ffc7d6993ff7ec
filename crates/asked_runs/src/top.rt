//! The top call.

ghost use Rattle.std.specs.Prelude.{◌≡◌, ◌≤◌, ◌<◌, ◌^◌, [], IfOk, Some};
ghost use Rattle.world_model.specs.Told.{Relates};
ghost use Rattle.core_facts.specs.Reaches.{MaySetUp};
ghost use Rattle.link_dials.specs.Dials.{DialsOnly};
ghost use Rattle.lane_session.specs.Bonds.{IsOpened};
ghost use Rattle.session_setup.specs.Outcomes.{IsOptions};
ghost use Rattle.script_runs.specs.LaneRuns.{Leaves, setup_of};
ghost use Rattle.script_runs.specs.Readings.{Reads};
ghost use Rattle.script_runs.specs.Run.{IsXidOption};
ghost use Rattle.asked_runs.specs.Asking.{MayRun};
ghost use Rattle.asked_runs.specs.Running.{RunsOver, Shows, first_round};
ghost use Rattle.asked_runs.specs.Runs.{RunsAsked};
ghost use Rattle.asked_runs.specs.Statuses.{IsOutcome, IsOwn, ended_with};

use crate::asker::Asker;
use crate::running::run_scripts;
use crate::status;
use client_core::Setup;
use nfs_script::Script;
use outside::{Clock, Link};
use page_cache::PageCache;
use script_runs::first_xid;
use session_setup::{SetUp, SetUpFault, set_up};
use session_words::Settings;
use std::alloc::Global;
use world_model::Fault;
use xdr_codec::Memory;

/// Runs the scripts that are asked for, by settings that are known, and answers the status: that of the asker, 0 or 1; 6 if the session is lost; 7 for lack of
/// memory outside an operation; or 8 if the mount is refused. Without a script no call is made.
pub fn run_with<A: Asker, L: Link, C: Clock>(
    alloc: Global,
    settings: &Settings,
    asker: &mut A,
    link: &mut L,
    clock: &mut C,
) -> u8
    requires options { IsOptions settings.now }
    requires most { settings.now.calls < 2 ^ 31 }
    requires xid { IsXidOption settings.now.xid }
    ensures statuses { result ≤ 8 }

    // None of 2 to 5 comes.
    ensures taken { 2 ≤ result → 6 ≤ result }
    ensures stays { (first : L) → L.stays first link.old → L.stays first link.new }
    ensures honest { L.honest link.old → L.honest link.new }
    ensures asker { (first : A) → A.stays first asker.old → A.stays first asker.new }
    ensures tells { result ≤ 1 → A.tells asker.new result }

    // What the session comes to, and that the asker was asked for its scripts.
    ensures runs { Reads (C.readings clock.old) (C.readings clock.new) (λ given.
        Relates (L.told link.old) (L.told link.new) (λ before h. before ≡ [] →
        RunsAsked Leaves (λ rounds. A.asks asker.old rounds asker.new) settings.now given h result)) }
{
    match run_all(alloc, settings, asker, link, clock) {
        Ok(status) => status,
        Err(_) => status::NO_MEMORY,
    }
}

/// The same, but want of memory is an error.
fn run_all<A: Asker, L: Link, C: Clock>(
    alloc: Global,
    settings: &Settings,
    asker: &mut A,
    link: &mut L,
    clock: &mut C,
) -> Result<u8, Memory>
    requires options { IsOptions settings.now }
    requires most { settings.now.calls < 2 ^ 31 }
    requires xid { IsXidOption settings.now.xid }
    ensures statuses { IfOk result IsOutcome }
    ensures stays { (first : L) → L.stays first link.old → L.stays first link.new }
    ensures honest { L.honest link.old → L.honest link.new }
    ensures asker { (first : A) → A.stays first asker.old → A.stays first asker.new }
    ensures tells { IfOk result (λ status. status ≤ 1 → A.tells asker.new status) }
    ensures runs { Reads (C.readings clock.old) (C.readings clock.new) (λ given.
        Relates (L.told link.old) (L.told link.new) (λ before h. before ≡ [] →
        RunsAsked Leaves (λ rounds. A.asks asker.old rounds asker.new) settings.now given h (ended_with result))) }
{
    match asker.next(alloc, &[], status::WELL) {
        Ok(Some(script)) => open(alloc, settings, script, asker, link, clock),
        Ok(None) => Ok(asker.status()),
        Err(memory) => Err(memory),
    }
}

/// Sets a session up, and runs the first script, and what follows.
fn open<A: Asker, L: Link, C: Clock>(
    alloc: Global,
    settings: &Settings,
    script: Script,
    asker: &mut A,
    link: &mut L,
    clock: &mut C,
) -> Result<u8, Memory>
    requires options { IsOptions settings.now }
    requires most { settings.now.calls < 2 ^ 31 }
    requires xid { IsXidOption settings.now.xid }
    requires run { MayRun script }
    ensures statuses { IfOk result IsOutcome }
    ensures stays { (first : L) → L.stays first link.old → L.stays first link.new }
    ensures honest { L.honest link.old → L.honest link.new }
    ensures asker { (first : A) → A.stays first asker.old → A.stays first asker.new }
    ensures tells { IfOk result (λ status. status ≤ 1 → A.tells asker.new status) }
    ensures runs { Reads (C.readings clock.old) (C.readings clock.new) (λ given.
        Relates (L.told link.old) (L.told link.new) (λ before h. before ≡ [] →
        RunsAsked Leaves (λ rounds. (x : A) → A.asks x (first_round script) asker.old → A.asks x rounds asker.new) settings.now given h (ended_with result))) }
{
    let first = first_xid(settings.xid, clock);
    match set_up(alloc, settings, first, link) {
        Ok(ready) => open_ready(alloc, settings, script, ready, asker, link, clock),
        Err(SetUpFault::Lost(_tally)) => Ok(status::LINK_LOST),
        Err(SetUpFault::Refused(fault)) => refuse(alloc, fault, asker),
        Err(SetUpFault::Memory) => Err(Memory),
    }
}

/// The mount was refused.
fn refuse<A: Asker>(alloc: Global, fault: Fault, asker: &mut A) -> Result<u8, Memory>
    ensures is { IfOk result (λ status. status ≡ 8) }
    ensures asker { (first : A) → A.stays first asker.old → A.stays first asker.new }
{
    match asker.refuse(alloc, fault) {
        Ok(()) => Ok(status::MOUNT_REFUSED),
        Err(memory) => Err(memory),
    }
}

/// Runs the first script, and what follows, in a session that is set up.
fn open_ready<A: Asker, L: Link, C: Clock>(
    alloc: Global,
    settings: &Settings,
    script: Script,
    ready: SetUp,
    asker: &mut A,
    link: &mut L,
    clock: &mut C,
) -> Result<u8, Memory>
    requires may { MaySetUp (setup_of settings.now ready) }
    requires run { MayRun script }
    ensures runs { Shows (C.readings clock.old) (C.readings clock.new) (L.told link.old) (L.told link.new)
        (λ given h k. IsOpened (Some (setup_of settings.now ready)) h
        → RunsOver (λ rounds. (x : A) → A.asks x (first_round script) asker.old → A.asks x rounds asker.new) settings.now
        (setup_of settings.now ready) result given h k) }
    ensures statuses { IfOk result IsOwn }
    ensures tells { IfOk result (λ status. status ≤ 1 → A.tells asker.new status) }
    ensures asker { (first : A) → A.stays first asker.old → A.stays first asker.new }
    ensures dials { DialsOnly settings.now.nfs_port (L.told link.old) (L.told link.new) }
    ensures stays { (first : L) → L.stays first link.old → L.stays first link.new }
    ensures honest { L.honest link.old → L.honest link.new }
{
    let Ok(pages) = PageCache::new(alloc) else {
        return Err(Memory);
    };
    let setup = Setup {
        root: ready.root,
        rsize: ready.rsize,
        wsize: ready.wsize,
        first_xid: ready.next_xid,
        limit: ready.left,
        cred: settings.cred,
        lives: settings.lives,
        pages,
    };
    run_scripts(
        alloc,
        settings,
        script,
        setup,
        ready.tally,
        asker,
        link,
        clock,
    )
}
