//! Scripts one after another in one session.

ghost use Rattle.std.specs.Prelude.{◌≡◌, ◌≤◌, ◌++◌, [], ◌∷◌, List, IfOk, IfSome, OnOk, Some, length};
ghost use Rattle.core_facts.specs.Reaches.{MaySetUp};
ghost use Rattle.link_dials.specs.Dials.{DialsOnly};
ghost use Rattle.lane_session.specs.Bonds.{IsOpened};
ghost use Rattle.lane_session.specs.Holding.{AreQuiet, IsHeld};
ghost use Rattle.lane_session.specs.Places.{AreIdle};
ghost use Rattle.lane_session.specs.Ports.{KeepsPort};
ghost use Rattle.asked_runs.specs.Asking.{MayRun, Round};
ghost use Rattle.asked_runs.specs.Running.{FindsNext, GoesOver, RunsIn, RunsNext, RunsOver, RunsScript, Shows, first_round};
ghost use Rattle.asked_runs.specs.Statuses.{EndsBy, IsOwn};

use crate::asker::Asker;
use crate::status;
use client_core::Setup;
use lane_session::Session;
use nfs_script::Script;
use outside::{Clock, Link, MemSink};
use session_words::Settings;
use std::alloc::Global;
use world_model::Tally;
use xdr_codec::Memory;

/// Runs a script, and those that the asker asks for by its answers, over a set-up. It answers the status.
pub(crate) fn run_scripts<A: Asker, L: Link, C: Clock>(
    alloc: Global,
    settings: &Settings,
    first: Script,
    setup: Setup,
    tally: Tally,
    asker: &mut A,
    link: &mut L,
    clock: &mut C,
) -> Result<u8, Memory>
    requires may { MaySetUp setup }
    requires run { MayRun first }
    ensures runs { Shows (C.readings clock.old) (C.readings clock.new) (L.told link.old) (L.told link.new) (λ given h k. IsOpened (Some setup) h
        → RunsOver (λ rounds. (x : A) → A.asks x (first_round first) asker.old → A.asks x rounds asker.new) settings.now setup result given h k) }
    ensures statuses { IfOk result IsOwn }
    ensures tells { IfOk result (λ status. status ≤ 1 → A.tells asker.new status) }
    ensures asker { (first : A) → A.stays first asker.old → A.stays first asker.new }
    ensures dials { DialsOnly settings.now.nfs_port (L.told link.old) (L.told link.new) }
    ensures stays { (first : L) → L.stays first link.old → L.stays first link.new }
    ensures honest { L.honest link.old → L.honest link.new }
{
    setup.pages.is_sound();
    match Session::new(alloc, settings, setup, tally) {
        Ok(mut session) => {
            let ran = run_in(alloc, &mut session, first, asker, link, clock);
            // Dropped by a call, since the prover takes a drop in place apart, field by field.
            drop(session);
            ran
        }
        Err(_) => Err(Memory),
    }
}

/// Runs a script, and those that the asker asks for by its answers, in a session that stands before its lines. It answers the status.
fn run_in<A: Asker, L: Link, C: Clock>(
    alloc: Global,
    session: &mut Session,
    first: Script,
    asker: &mut A,
    link: &mut L,
    clock: &mut C,
) -> Result<u8, Memory>
    requires run { MayRun first }
    requires held { IsHeld first session.old }
    ensures runs { Shows (C.readings clock.old) (C.readings clock.new) (L.told link.old) (L.told link.new)
        (RunsIn (λ rounds. (x : A) → A.asks x (first_round first) asker.old → A.asks x rounds asker.new) first session.old result) }
    ensures statuses { IfOk result IsOwn }
    ensures tells { IfOk result (λ status. status ≤ 1 → A.tells asker.new status) }
    ensures asker { (first : A) → A.stays first asker.old → A.stays first asker.new }
    ensures dials { KeepsPort session.old.port session.new.port (L.told link.old) (L.told link.new) }
    ensures stays { (first : L) → L.stays first link.old → L.stays first link.new }
    ensures honest { L.honest link.old → L.honest link.new }
{
    let mut script = first;
    for _ in 0..u64::MAX {
        match run_next(alloc, session, &script, asker, link, clock) {
            Ok(Some(next)) => script = next,
            Ok(None) => return Ok(ending(session, asker)),
            Err(memory) => return Err(memory),
        }
    }
    Err(Memory)
}

/// Runs the lines of a script, and asks for the next one, before whose lines the session stands then. None at the end, and once the session is lost.
fn run_next<A: Asker, L: Link, C: Clock>(
    alloc: Global,
    session: &mut Session,
    script: &Script,
    asker: &mut A,
    link: &mut L,
    clock: &mut C,
) -> Result<Option<Script>, Memory>
    requires run { MayRun script.now }
    requires held { IsHeld script.now session.old }
    ensures runs { Shows (C.readings clock.old) (C.readings clock.new) (L.told link.old) (L.told link.new)
        (RunsNext (λ round. (x : A) (rounds : List Round) → A.asks x rounds asker.old → A.asks x (rounds ++ round ∷ []) asker.new)
        script.now session.old session.new result) }
    ensures may { IfOk result (λ r. IfSome r MayRun) }
    ensures held { IfOk result (λ r. IfSome r (λ next. IsHeld next session.new)) }
    ensures asker { (first : A) → A.stays first asker.old → A.stays first asker.new }
    ensures dials { KeepsPort session.old.port session.new.port (L.told link.old) (L.told link.new) }
    ensures stays { (first : L) → L.stays first link.old → L.stays first link.new }
    ensures honest { L.honest link.old → L.honest link.new }
{
    match run_script(alloc, session, script, link, clock) {
        Ok(answers) => find_next(alloc, session, script, &answers, asker),
        Err(memory) => Err(memory),
    }
}

/// Runs the lines of a script. It answers the lines that are written of their answers.
fn run_script<L: Link, C: Clock>(
    alloc: Global,
    session: &mut Session,
    script: &Script,
    link: &mut L,
    clock: &mut C,
) -> Result<MemSink, Memory>
    requires run { MayRun script.now }
    requires held { IsHeld script.now session.old }
    ensures idle { OnOk result (AreIdle session.new.lanes) }
    ensures quiet { OnOk result (AreQuiet script.now session.new) }
    ensures held { OnOk result (IsHeld script.now session.new) }
    ensures runs { Shows (C.readings clock.old) (C.readings clock.new) (L.told link.old) (L.told link.new)
        (RunsScript script.now session.old session.new result) }
    ensures dials { KeepsPort session.old.port session.new.port (L.told link.old) (L.told link.new) }
    ensures stays { (first : L) → L.stays first link.old → L.stays first link.new }
    ensures honest { L.honest link.old → L.honest link.new }
{
    let Ok(mut answers) = MemSink::new(alloc, &[]) else {
        return Err(Memory);
    };
    match session.work(script, &[], link, clock, &mut answers) {
        Ok(()) => Ok(answers),
        // The answers are kept in memory, so that a halt of either kind is want of it.
        Err(_halt) => Err(Memory),
    }
}

/// Asks for the next script. The session then stands before its lines.
fn find_next<A: Asker>(
    alloc: Global,
    session: &mut Session,
    script: &Script,
    answers: &MemSink,
    asker: &mut A,
) -> Result<Option<Script>, Memory>
    requires held { IsHeld script.now session.old }
    requires idle { AreIdle session.old.lanes }
    requires quiet { AreQuiet script.now session.old }
    ensures finds { FindsNext (λ round. (x : A) (rounds : List Round) → A.asks x rounds asker.old → A.asks x (rounds ++ round ∷ []) asker.new)
        script.now answers.now.written session.old session.new result }
    ensures may { IfOk result (λ r. IfSome r MayRun) }
    ensures held { IfOk result (λ r. IfSome r (λ next. IsHeld next session.new)) }
    ensures asker { (first : A) → A.stays first asker.old → A.stays first asker.new }
    ensures port { session.new.port ≡ session.old.port }
{
    let status = session.status();
    match asker.next(alloc, answers.bytes(), status) {
        Ok(Some(next)) => go_over(session, script, next),
        Ok(None) => Ok(None),
        Err(memory) => Err(memory),
    }
}

/// The session goes on to the lines of the next script, if it isn't lost and has room for them.
fn go_over(session: &mut Session, script: &Script, next: Script) -> Result<Option<Script>, Memory>
    requires held { IsHeld script.now session.old }
    requires idle { AreIdle session.old.lanes }
    requires quiet { AreQuiet script.now session.old }
    requires few { length next ≤ 16384 }
    ensures goes { GoesOver script.now next session.old session.new result }
    ensures held { IfOk result (λ r. IfSome r (λ now. IsHeld now session.new)) }
    ensures port { session.new.port ≡ session.old.port }
{
    if session.status() == status::LINK_LOST {
        return Ok(None);
    }
    if !session.has_room(script, &next) {
        return Err(Memory);
    }
    session.next_script(script);
    Ok(Some(next))
}

/// The status at the end: that of a lost session, or the asker's.
fn ending<A: Asker>(session: &Session, asker: &A) -> u8
    ensures is { EndsBy session.now.status result }
    ensures tells { result ≤ 1 → A.tells asker.now result }
{
    if session.status() == status::LINK_LOST {
        return status::LINK_LOST;
    }
    asker.status()
}
