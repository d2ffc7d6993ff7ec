//! Batches of a session that its set-up lost.

ghost use Rattle.std.specs.Prelude.{◌≡◌, ◌≤◌, ◌<◌, ℕ, IfOk, IfSome};
ghost use Rattle.world_model.specs.Counts.{tally_of};
ghost use Rattle.link_dials.specs.Dials.{DialsOnly};
ghost use Rattle.outside.specs.Causes.{Rose};
ghost use Rattle.lane_session.specs.Losing.{status_of};
ghost use Rattle.lane_session.specs.Sessions.{IsUnmarked};
ghost use Rattle.lane_session.specs.Streams.{Passes};
ghost use Rattle.script_batches.specs.Batches.{work_left};
ghost use Rattle.batch_runs.specs.Parts.{IsWorst};
ghost use Rattle.batch_runs.specs.Reading.{MayRun, MayRunSome, left_in};
ghost use Rattle.batch_runs.specs.Running.{IsRead, LosesNext, LosesOne, LosesScripts};
ghost use Rattle.batch_runs.specs.Stops.{CausedBy};

use crate::answered::Answered;
use crate::reading::{finish, next_script};
use crate::status;
use crate::stop::{Stop, of_halt};
use lane_session::lose_lines;
use nfs_script::Script;
use outside::{Clock, Link, Sink, Source};
use script_batches::Batches;
use std::alloc::Global;
use world_model::Tally;

/// Answers each line of a script, and of the batches that follow, that the session is lost. It answers the worst status of all batches.
pub(crate) fn lose_scripts<S: Source, L: Link, C: Clock, K: Sink>(
    alloc: Global,
    count: bool,
    first: Script,
    tally: Tally,
    batches: &mut Batches,
    answered: &mut Answered,
    source: &mut S,
    link: &mut L,
    clock: &mut C,
    out: &mut K,
) -> Result<u8, Stop>
    requires run { MayRun first }
    requires worst { IsWorst answered.old.status }
    ensures runs { Passes (C.readings clock.old) (C.readings clock.new) (L.told link.old) (L.told link.new) (K.written out.old) (K.written out.new)
        (λ given text h k. IsUnmarked h → tally ≡ tally_of h
        → IsRead first (left_in (S.left source.old) batches.old) (λ left. LosesScripts count answered.old left result given text h k)) }
    ensures statuses { IfOk result IsWorst }
    ensures dials { (port : ℕ) → DialsOnly port (L.told link.old) (L.told link.new) }
    ensures stays { (first : L) → L.stays first link.old → L.stays first link.new }
    ensures honest { L.honest link.old → L.honest link.new }
    ensures read { S.faults source.old ≤ S.faults source.new }
    ensures written { K.faults out.old ≤ K.faults out.new }
    ensures cause { CausedBy result (Rose (S.faults source.old) (S.faults source.new)) (Rose (K.faults out.old) (K.faults out.new)) }
{
    let mut script = first;
    'losing: loop {
        match lose_next(
            alloc, count, &script, &tally, batches, answered, source, link, clock, out,
        ) {
            Ok(Some(next)) => script = next,
            Ok(None) => return Ok(answered.status),
            Err(stop) => return Err(stop),
        }
    }
}

/// Answers each line of a script so, and its batch, and reads up to the next script.
fn lose_next<S: Source, L: Link, C: Clock, K: Sink>(
    alloc: Global,
    count: bool,
    script: &Script,
    tally: &Tally,
    batches: &mut Batches,
    answered: &mut Answered,
    source: &mut S,
    link: &mut L,
    clock: &mut C,
    out: &mut K,
) -> Result<Option<Script>, Stop>
    requires run { MayRun script.now }
    requires worst { IsWorst answered.old.status }
    ensures loses { Passes (C.readings clock.old) (C.readings clock.new) (L.told link.old) (L.told link.new) (K.written out.old) (K.written out.new)
        (LosesNext count script.now tally.now answered.old answered.new
        (left_in (S.left source.old) batches.old) (left_in (S.left source.new) batches.new) result) }
    ensures asked { IfOk result MayRunSome }
    ensures less { IfOk result (λ r. IfSome r (λ _. work_left batches.new.held < work_left batches.old.held)) }
    ensures dials { (port : ℕ) → DialsOnly port (L.told link.old) (L.told link.new) }
    ensures stays { (first : L) → L.stays first link.old → L.stays first link.new }
    ensures honest { L.honest link.old → L.honest link.new }
    ensures worst { IsWorst answered.new.status }
    ensures read { S.faults source.old ≤ S.faults source.new }
    ensures written { K.faults out.old ≤ K.faults out.new }
    ensures cause { CausedBy result (Rose (S.faults source.old) (S.faults source.new)) (Rose (K.faults out.old) (K.faults out.new)) }
{
    match lose_one(alloc, count, script, tally, answered, link, clock, out) {
        Ok(()) => next_script(alloc, batches, answered, source, out),
        Err(stop) => Err(stop),
    }
}

/// Answers each line of a script so, and its batch.
fn lose_one<L: Link, C: Clock, K: Sink>(
    alloc: Global,
    count: bool,
    script: &Script,
    tally: &Tally,
    answered: &mut Answered,
    link: &mut L,
    clock: &mut C,
    out: &mut K,
) -> Result<(), Stop>
    requires run { MayRun script.now }
    requires worst { IsWorst answered.old.status }
    ensures runs { Passes (C.readings clock.old) (C.readings clock.new) (L.told link.old) (L.told link.new) (K.written out.old) (K.written out.new)
        (LosesOne count script.now tally.now answered.old answered.new result) }
    ensures dials { (port : ℕ) → DialsOnly port (L.told link.old) (L.told link.new) }
    ensures stays { (first : L) → L.stays first link.old → L.stays first link.new }
    ensures honest { L.honest link.old → L.honest link.new }
    ensures worst { IsWorst answered.new.status }
    ensures written { K.faults out.old ≤ K.faults out.new }
    ensures cause { CausedBy result ⊥ (Rose (K.faults out.old) (K.faults out.new)) }
{
    match lose_lines(alloc, script, &[], link, clock, out) {
        Ok(()) => {}
        Err(halt) => return Err(of_halt(halt)),
    }
    finish(alloc, count, tally, lost_status(script), answered, out)
}

/// The status of a batch whose lines are answered so.
fn lost_status(script: &Script) -> u8
    ensures is { result ≡ status_of script.now }
    ensures worst { IsWorst result }
{
    if script.count() == 0 {
        status::WELL
    } else {
        status::LINK_LOST
    }
}
