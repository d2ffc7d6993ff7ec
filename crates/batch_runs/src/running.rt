//! Scripts one after another in one session.

ghost use Rattle.std.specs.Prelude.{◌≡◌, ◌≤◌, ◌<◌, All, IfOk, IfSome, OnOk, Some, length};
ghost use Rattle.world_model.specs.Counts.{tally_of};
ghost use Rattle.link_dials.specs.Dials.{DialsOnly};
ghost use Rattle.outside.specs.Causes.{Rose};
ghost use Rattle.nfs_script.specs.Asked.{IsAskedLine};
ghost use Rattle.core_facts.specs.Reaches.{MaySetUp};
ghost use Rattle.lane_session.specs.Bonds.{IsOpened};
ghost use Rattle.lane_session.specs.Holding.{AreQuiet, IsHeld};
ghost use Rattle.lane_session.specs.Places.{AreIdle};
ghost use Rattle.lane_session.specs.Ports.{KeepsPort};
ghost use Rattle.lane_session.specs.Streams.{Passes};
ghost use Rattle.script_batches.specs.Batches.{work_left};
ghost use Rattle.script_runs.specs.Run.{Says};
ghost use Rattle.script_runs.specs.Scripts.{StandsBefore};
ghost use Rattle.batch_runs.specs.Parts.{IsWorst, RefusedFrom};
ghost use Rattle.batch_runs.specs.Reading.{FindsScript, MayRun, MayRunSome, StopsAt, left_in};
ghost use Rattle.batch_runs.specs.Running.{IfNext, IsRead, RunsIn, RunsNext, RunsOne, RunsOver};
ghost use Rattle.batch_runs.specs.Stops.{CausedBy};

use crate::answered::Answered;
use crate::reading::{finish, next_script};
use crate::stop::{Stop, of_halt};
use client_core::Setup;
use lane_session::Session;
use nfs_script::Script;
use outside::{Clock, Link, Sink, Source};
use script_batches::Batches;
use session_words::Settings;
use std::alloc::Global;
use world_model::Tally;

/// Runs a script, and those of the batches that follow, over a set-up. It answers the worst status of all batches.
pub(crate) fn run_scripts<S: Source, L: Link, C: Clock, K: Sink>(
    alloc: Global,
    settings: &Settings,
    first: Script,
    setup: Setup,
    tally: Tally,
    batches: &mut Batches,
    answered: &mut Answered,
    source: &mut S,
    link: &mut L,
    clock: &mut C,
    out: &mut K,
) -> Result<u8, Stop>
    requires may { MaySetUp setup }
    requires run { MayRun first }
    requires worst { IsWorst answered.old.status }
    ensures runs { Passes (C.readings clock.old) (C.readings clock.new) (L.told link.old) (L.told link.new) (K.written out.old) (K.written out.new)
        (λ given text h k. IsOpened (Some setup) h → tally ≡ tally_of h
        → IsRead first (left_in (S.left source.old) batches.old) (λ left. RunsOver settings.now setup answered.old left result given text h k)) }
    ensures statuses { IfOk result IsWorst }
    ensures dials { DialsOnly settings.now.nfs_port (L.told link.old) (L.told link.new) }
    ensures stays { (first : L) → L.stays first link.old → L.stays first link.new }
    ensures honest { L.honest link.old → L.honest link.new }
    ensures read { S.faults source.old ≤ S.faults source.new }
    ensures written { K.faults out.old ≤ K.faults out.new }
    ensures cause { CausedBy result (Rose (S.faults source.old) (S.faults source.new)) (Rose (K.faults out.old) (K.faults out.new)) }
{
    setup.pages.is_sound();
    match Session::new(alloc, settings, setup, tally) {
        Ok(mut session) => {
            let ran = run_in(
                alloc,
                settings.count,
                &mut session,
                first,
                batches,
                answered,
                source,
                link,
                clock,
                out,
            );
            // Dropped by a call, since the prover takes a drop in place apart, field by field.
            drop(session);
            ran
        }
        Err(_) => Err(Stop::Memory),
    }
}

/// Runs a script, and those of the batches that follow, in a session that stands before its lines. It answers the worst status of all batches.
fn run_in<S: Source, L: Link, C: Clock, K: Sink>(
    alloc: Global,
    count: bool,
    session: &mut Session,
    first: Script,
    batches: &mut Batches,
    answered: &mut Answered,
    source: &mut S,
    link: &mut L,
    clock: &mut C,
    out: &mut K,
) -> Result<u8, Stop>
    requires run { MayRun first }
    requires held { IsHeld first session.old }
    requires worst { IsWorst answered.old.status }
    ensures runs { Passes (C.readings clock.old) (C.readings clock.new) (L.told link.old) (L.told link.new) (K.written out.old) (K.written out.new)
        (λ given text h k. IsRead first (left_in (S.left source.old) batches.old)
        (λ left. RunsIn count first session.old answered.old left result given text h k)) }
    ensures statuses { IfOk result IsWorst }
    ensures dials { KeepsPort session.old.port session.new.port (L.told link.old) (L.told link.new) }
    ensures stays { (first : L) → L.stays first link.old → L.stays first link.new }
    ensures honest { L.honest link.old → L.honest link.new }
    ensures read { S.faults source.old ≤ S.faults source.new }
    ensures written { K.faults out.old ≤ K.faults out.new }
    ensures cause { CausedBy result (Rose (S.faults source.old) (S.faults source.new)) (Rose (K.faults out.old) (K.faults out.new)) }
{
    let mut script = first;
    'running: loop {
        match run_next(
            alloc, count, session, &script, batches, answered, source, link, clock, out,
        ) {
            Ok(Some(next)) => script = next,
            Ok(None) => return Ok(answered.status),
            Err(stop) => return Err(stop),
        }
    }
}

/// Runs the lines of a script, answers its batch, and reads up to the next script, before whose lines the session stands then.
fn run_next<S: Source, L: Link, C: Clock, K: Sink>(
    alloc: Global,
    count: bool,
    session: &mut Session,
    script: &Script,
    batches: &mut Batches,
    answered: &mut Answered,
    source: &mut S,
    link: &mut L,
    clock: &mut C,
    out: &mut K,
) -> Result<Option<Script>, Stop>
    requires run { MayRun script.now }
    requires held { IsHeld script.now session.old }
    requires worst { IsWorst answered.old.status }
    ensures runs { Passes (C.readings clock.old) (C.readings clock.new) (L.told link.old) (L.told link.new) (K.written out.old) (K.written out.new)
        (RunsNext count script.now session.old session.new answered.old answered.new
        (left_in (S.left source.old) batches.old) (left_in (S.left source.new) batches.new) result) }
    ensures asked { IfOk result MayRunSome }
    ensures held { IfOk result (λ r. IfSome r (λ next. IsHeld next session.new)) }
    ensures less { IfOk result (λ r. IfSome r (λ _. work_left batches.new.held < work_left batches.old.held)) }
    ensures worst { IsWorst answered.new.status }
    ensures dials { KeepsPort session.old.port session.new.port (L.told link.old) (L.told link.new) }
    ensures stays { (first : L) → L.stays first link.old → L.stays first link.new }
    ensures honest { L.honest link.old → L.honest link.new }
    ensures read { S.faults source.old ≤ S.faults source.new }
    ensures written { K.faults out.old ≤ K.faults out.new }
    ensures cause { CausedBy result (Rose (S.faults source.old) (S.faults source.new)) (Rose (K.faults out.old) (K.faults out.new)) }
{
    match run_one(alloc, count, session, script, answered, link, clock, out) {
        Ok(()) => find_next(alloc, session, script, batches, answered, source, out),
        Err(stop) => Err(stop),
    }
}

/// Reads up to the next script, and answers batches that are refused. The session then stands before its lines.
fn find_next<S: Source, K: Sink>(
    alloc: Global,
    session: &mut Session,
    script: &Script,
    batches: &mut Batches,
    answered: &mut Answered,
    source: &mut S,
    out: &mut K,
) -> Result<Option<Script>, Stop>
    requires held { IsHeld script.now session.old }
    requires idle { AreIdle session.old.lanes }
    requires quiet { AreQuiet script.now session.old }
    requires worst { IsWorst answered.old.status }
    ensures finds { Says (K.written out.old) (K.written out.new) (FindsScript RefusedFrom StopsAt answered.old answered.new
        (left_in (S.left source.old) batches.old) (left_in (S.left source.new) batches.new) result) }
    ensures asked { IfOk result MayRunSome }
    ensures stands { IfNext script.now result session.old session.new }
    ensures held { IfOk result (λ r. IfSome r (λ next. IsHeld next session.new)) }
    ensures port { session.new.port ≡ session.old.port }
    ensures less { IfOk result (λ r. IfSome r (λ _. work_left batches.new.held < work_left batches.old.held)) }
    ensures worst { IsWorst answered.new.status }
    ensures read { S.faults source.old ≤ S.faults source.new }
    ensures written { K.faults out.old ≤ K.faults out.new }
    ensures cause { CausedBy result (Rose (S.faults source.old) (S.faults source.new)) (Rose (K.faults out.old) (K.faults out.new)) }
{
    match next_script(alloc, batches, answered, source, out) {
        Ok(Some(next)) => go_to(session, script, next),
        Ok(None) => Ok(None),
        Err(stop) => Err(stop),
    }
}

/// The session goes on to the lines of the next script. A session can't have 2^28 lines: that ends it as want of memory does.
fn go_to(session: &mut Session, script: &Script, next: Script) -> Result<Option<Script>, Stop>
    requires held { IsHeld script.now session.old }
    requires idle { AreIdle session.old.lanes }
    requires quiet { AreQuiet script.now session.old }
    requires few { length next ≤ 16384 }
    ensures same { IfOk result (λ r. r ≡ Some next) }
    ensures stands { IfOk result (λ _. StandsBefore script.now next session.old session.new) }
    ensures held { IfOk result (λ _. IsHeld next session.new) }
    ensures port { session.new.port ≡ session.old.port }
    ensures memory { CausedBy result ⊥ ⊥ }
{
    if !session.has_room(script, &next) {
        return Err(Stop::Memory);
    }
    session.next_script(script);
    Ok(Some(next))
}

/// Runs the lines of a script, and answers its batch.
fn run_one<L: Link, C: Clock, K: Sink>(
    alloc: Global,
    count: bool,
    session: &mut Session,
    script: &Script,
    answered: &mut Answered,
    link: &mut L,
    clock: &mut C,
    out: &mut K,
) -> Result<(), Stop>
    requires asked { All IsAskedLine script.now }
    requires few { length script.now ≤ 16384 }
    requires held { IsHeld script.now session.old }
    requires worst { IsWorst answered.old.status }
    ensures idle { OnOk result (AreIdle session.new.lanes) }
    ensures quiet { OnOk result (AreQuiet script.now session.new) }
    ensures held { OnOk result (IsHeld script.now session.new) }
    ensures runs { Passes (C.readings clock.old) (C.readings clock.new) (L.told link.old) (L.told link.new) (K.written out.old) (K.written out.new)
        (RunsOne count script.now session.old session.new answered.old answered.new result) }
    ensures dials { KeepsPort session.old.port session.new.port (L.told link.old) (L.told link.new) }
    ensures stays { (first : L) → L.stays first link.old → L.stays first link.new }
    ensures honest { L.honest link.old → L.honest link.new }
    ensures worst { IsWorst answered.new.status }
    ensures written { K.faults out.old ≤ K.faults out.new }
    ensures cause { CausedBy result ⊥ (Rose (K.faults out.old) (K.faults out.new)) }
{
    match session.work(script, &[], link, clock, out) {
        Ok(()) => {}
        Err(halt) => return Err(of_halt(halt)),
    }
    finish(
        alloc,
        count,
        &session.tally(),
        session.status(),
        answered,
        out,
    )
}
