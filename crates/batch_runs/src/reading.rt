//! Which batch comes next.

ghost use Rattle.std.specs.Prelude.{◌≡◌, ◌≤◌, ◌<◌, ◌+◌, ◌++◌, IfOk, IfSome, Some};
ghost use Rattle.outside.specs.Causes.{Rose};
ghost use Rattle.script_batches.specs.Batches.{work_left};
ghost use Rattle.script_batches.specs.Taking.{IsCountedIn, read_of};
ghost use Rattle.nfs_script.specs.DoneText.{done_text};
ghost use Rattle.lane_session.specs.Endings.{counts_text};
ghost use Rattle.script_runs.specs.Run.{Says};
ghost use Rattle.batch_runs.specs.Parts.{AreIdleFrom, IsWorst, RefusedFrom, refused_text};
ghost use Rattle.batch_runs.specs.Reading.{AnswersIdle, AnswersNext, AnswersOne, FindsScript, HasLines, IfFurther, IsAskedNext, MayRunSome, NextIs, StopsAt, StopsIdle, TakesIdle, TakesNext, TakesOne, left_in};
ghost use Rattle.batch_runs.specs.Stops.{CausedBy};

use crate::answered::Answered;
use crate::output::{tell_done, tell_refused};
use crate::status;
use crate::stop::{Stop, of_read};
use nfs_script::{ParseFault, Script, ScriptFault, parse_from};
use outside::{Sink, Source};
use script_batches::{Batch, Batches};
use std::alloc::Global;
use world_model::Tally;

/// The kind of the fault of a batch whose input ended before its `go`.
const CUT: u8 = 10;

/// No call was made.
const NO_CALLS: Tally = Tally {
    calls: 0,
    getattr: 0,
    lookup: 0,
    read: 0,
    write: 0,
    commit: 0,
};

/// What comes next in an input.
#[derive(Drop)]
pub(crate) enum Next {
    /// A batch that asks for this.
    Script(Script),
    /// A batch that is refused.
    Refused(ScriptFault),
    /// There is no further batch.
    End,
}

/// Reads the next batch.
fn next_batch<S: Source>(alloc: Global, batches: &mut Batches, source: &mut S) -> Result<Next, Stop>
    ensures next { IfOk result (TakesNext (left_in (S.left source.old) batches.old) (left_in (S.left source.new) batches.new)) }
    ensures asked { IfOk result IsAskedNext }
    ensures less { IfOk result (IfFurther (work_left batches.new.held < work_left batches.old.held)) }
    ensures later { S.faults source.old ≤ S.faults source.new }
    ensures cause { CausedBy result (Rose (S.faults source.old) (S.faults source.new)) ⊥ }
{
    match batches.next(alloc, source) {
        Ok(Some(batch)) => script_in(alloc, &batch),
        Ok(None) => Ok(Next::End),
        Err(fault) => Err(of_read(fault)),
    }
}

/// What a batch asks for. One that wasn't ended is refused.
fn script_in(alloc: Global, batch: &Batch) -> Result<Next, Stop>
    requires { IsCountedIn batch.now }
    ensures is { IfOk result (NextIs (read_of batch.now)) }
    ensures asked { IfOk result IsAskedNext }
    ensures cause { CausedBy result ⊥ ⊥ }
{
    if !batch.ended {
        return Ok(Next::Refused(ScriptFault {
            line: batch.last,
            kind: CUT,
        }));
    }
    match parse_from(alloc, batch.before, batch.text.as_slice()) {
        Ok(script) => Ok(Next::Script(script)),
        Err(ParseFault::Script(fault)) => Ok(Next::Refused(fault)),
        Err(ParseFault::Memory) => Err(Stop::Memory),
    }
}

/// Reads up to the next batch that isn't refused, and answers those that are; none at the end of the input.
pub(crate) fn next_script<S: Source, K: Sink>(
    alloc: Global,
    batches: &mut Batches,
    answered: &mut Answered,
    source: &mut S,
    out: &mut K,
) -> Result<Option<Script>, Stop>
    requires worst { IsWorst answered.old.status }
    ensures finds { Says (K.written out.old) (K.written out.new) (FindsScript RefusedFrom StopsAt answered.old answered.new
        (left_in (S.left source.old) batches.old) (left_in (S.left source.new) batches.new) result) }
    ensures asked { IfOk result MayRunSome }
    ensures less { IfOk result (λ r. IfSome r (λ _. work_left batches.new.held < work_left batches.old.held)) }
    ensures read { S.faults source.old ≤ S.faults source.new }
    ensures worst { IsWorst answered.new.status }
    ensures written { K.faults out.old ≤ K.faults out.new }
    ensures cause { CausedBy result (Rose (S.faults source.old) (S.faults source.new)) (Rose (K.faults out.old) (K.faults out.new)) }
{
    'reading: loop {
        match take_batch(alloc, batches, answered, source, out) {
            Ok(Next::Script(script)) => return Ok(Some(script)),
            Ok(Next::Refused(_)) => {}
            Ok(Next::End) => return Ok(None),
            Err(stop) => return Err(stop),
        }
    }
}

/// Reads the next batch, and answers it if it is refused.
fn take_batch<S: Source, K: Sink>(
    alloc: Global,
    batches: &mut Batches,
    answered: &mut Answered,
    source: &mut S,
    out: &mut K,
) -> Result<Next, Stop>
    requires worst { IsWorst answered.old.status }
    ensures takes { Says (K.written out.old) (K.written out.new)
        (TakesOne answered.old answered.new (left_in (S.left source.old) batches.old) (left_in (S.left source.new) batches.new) result) }
    ensures asked { IfOk result IsAskedNext }
    ensures less { IfOk result (IfFurther (work_left batches.new.held < work_left batches.old.held)) }
    ensures worst { IsWorst answered.new.status }
    ensures read { S.faults source.old ≤ S.faults source.new }
    ensures written { K.faults out.old ≤ K.faults out.new }
    ensures cause { CausedBy result (Rose (S.faults source.old) (S.faults source.new)) (Rose (K.faults out.old) (K.faults out.new)) }
{
    match next_batch(alloc, batches, source) {
        Ok(next) => answer_next(alloc, next, answered, out),
        Err(stop) => Err(stop),
    }
}

/// Answers a batch that was read if it is refused.
fn answer_next<K: Sink>(
    alloc: Global,
    next: Next,
    answered: &mut Answered,
    out: &mut K,
) -> Result<Next, Stop>
    requires worst { IsWorst answered.old.status }
    ensures answers { Says (K.written out.old) (K.written out.new) (AnswersNext next answered.old answered.new result) }
    ensures same { IfOk result (λ now. now ≡ next) }
    ensures worst { IsWorst answered.new.status }
    ensures written { K.faults out.old ≤ K.faults out.new }
    ensures cause { CausedBy result ⊥ (Rose (K.faults out.old) (K.faults out.new)) }
{
    match next {
        Next::Script(script) => Ok(Next::Script(script)),
        Next::Refused(fault) => match refuse(alloc, &fault, answered, out) {
            Ok(()) => Ok(Next::Refused(fault)),
            Err(stop) => Err(stop),
        },
        Next::End => Ok(Next::End),
    }
}

/// Answers a batch that is refused.
pub(crate) fn refuse<K: Sink>(
    alloc: Global,
    fault: &ScriptFault,
    answered: &mut Answered,
    out: &mut K,
) -> Result<(), Stop>
    requires worst { IsWorst answered.old.status }
    ensures one { Says (K.written out.old) (K.written out.new)
        (AnswersOne 3 (refused_text (answered.old.count + 1) fault.now) answered.old answered.new result) }
    ensures worst { IsWorst answered.new.status }
    ensures written { K.faults out.old ≤ K.faults out.new }
    ensures cause { CausedBy result ⊥ (Rose (K.faults out.old) (K.faults out.new)) }
{
    let Ok(number) = answered.next() else {
        return Err(Stop::Memory);
    };
    match tell_refused(alloc, fault, number, out) {
        Ok(()) => {
            answered.add(number, status::BATCH_REFUSED);
            Ok(())
        }
        Err(stop) => Err(stop),
    }
}

/// Answers a batch whose lines have their answers.
pub(crate) fn finish<K: Sink>(
    alloc: Global,
    count: bool,
    tally: &Tally,
    status: u8,
    answered: &mut Answered,
    out: &mut K,
) -> Result<(), Stop>
    requires worst { IsWorst answered.old.status }
    requires status { IsWorst status }
    ensures one { Says (K.written out.old) (K.written out.new)
        (AnswersOne status (counts_text count tally.now ++ done_text (answered.old.count + 1) status) answered.old answered.new result) }
    ensures worst { IsWorst answered.new.status }
    ensures written { K.faults out.old ≤ K.faults out.new }
    ensures cause { CausedBy result ⊥ (Rose (K.faults out.old) (K.faults out.new)) }
{
    let Ok(number) = answered.next() else {
        return Err(Stop::Memory);
    };
    match tell_done(alloc, count, tally, number, status, out) {
        Ok(()) => {
            answered.add(number, status);
            Ok(())
        }
        Err(stop) => Err(stop),
    }
}

/// Reads up to the first batch that has a line, and answers those before it: they make no call.
pub(crate) fn first_script<S: Source, K: Sink>(
    alloc: Global,
    count: bool,
    batches: &mut Batches,
    answered: &mut Answered,
    source: &mut S,
    out: &mut K,
) -> Result<Option<Script>, Stop>
    requires worst { IsWorst answered.old.status }
    ensures finds { Says (K.written out.old) (K.written out.new) (FindsScript (AreIdleFrom count) (StopsIdle count) answered.old answered.new
        (left_in (S.left source.old) batches.old) (left_in (S.left source.new) batches.new) result) }
    ensures asked { IfOk result MayRunSome }
    ensures less { IfOk result (λ r. IfSome r (λ _. work_left batches.new.held < work_left batches.old.held)) }
    ensures some { IfOk result HasLines }
    ensures read { S.faults source.old ≤ S.faults source.new }
    ensures worst { IsWorst answered.new.status }
    ensures written { K.faults out.old ≤ K.faults out.new }
    ensures cause { CausedBy result (Rose (S.faults source.old) (S.faults source.new)) (Rose (K.faults out.old) (K.faults out.new)) }
{
    'reading: loop {
        match take_idle(alloc, count, batches, answered, source, out) {
            Ok(Some(script)) => {
                if script.count() > 0 {
                    return Ok(Some(script));
                }
            }
            Ok(None) => return Ok(None),
            Err(stop) => return Err(stop),
        }
    }
}

/// Reads up to the next batch that isn't refused, and answers it if it has no line.
fn take_idle<S: Source, K: Sink>(
    alloc: Global,
    count: bool,
    batches: &mut Batches,
    answered: &mut Answered,
    source: &mut S,
    out: &mut K,
) -> Result<Option<Script>, Stop>
    requires worst { IsWorst answered.old.status }
    ensures takes { Says (K.written out.old) (K.written out.new) (TakesIdle count answered.old answered.new
        (left_in (S.left source.old) batches.old) (left_in (S.left source.new) batches.new) result) }
    ensures asked { IfOk result MayRunSome }
    ensures less { IfOk result (λ r. IfSome r (λ _. work_left batches.new.held < work_left batches.old.held)) }
    ensures worst { IsWorst answered.new.status }
    ensures read { S.faults source.old ≤ S.faults source.new }
    ensures written { K.faults out.old ≤ K.faults out.new }
    ensures cause { CausedBy result (Rose (S.faults source.old) (S.faults source.new)) (Rose (K.faults out.old) (K.faults out.new)) }
{
    match next_script(alloc, batches, answered, source, out) {
        Ok(Some(script)) => answer_idle(alloc, count, script, answered, out),
        Ok(None) => Ok(None),
        Err(stop) => Err(stop),
    }
}

/// Answers the batch of a script that has no line.
fn answer_idle<K: Sink>(
    alloc: Global,
    count: bool,
    script: Script,
    answered: &mut Answered,
    out: &mut K,
) -> Result<Option<Script>, Stop>
    requires worst { IsWorst answered.old.status }
    ensures answers { Says (K.written out.old) (K.written out.new) (AnswersIdle count script answered.old answered.new result) }
    ensures same { IfOk result (λ r. r ≡ Some script) }
    ensures worst { IsWorst answered.new.status }
    ensures written { K.faults out.old ≤ K.faults out.new }
    ensures cause { CausedBy result ⊥ (Rose (K.faults out.old) (K.faults out.new)) }
{
    if script.count() > 0 {
        return Ok(Some(script));
    }
    match finish(alloc, count, &NO_CALLS, status::WELL, answered, out) {
        Ok(()) => Ok(Some(script)),
        Err(stop) => Err(stop),
    }
}
