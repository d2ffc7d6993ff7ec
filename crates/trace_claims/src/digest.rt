//! A history as the claims speak of it: its operations with their files, what other clients changed, and what reads may show.

ghost use Rattle.std.specs.Prelude.{◌≡◌, ◌&&◌, not, ◌++◌, ◌∷◌, [], List, IfOk, length};
ghost use Rattle.world_model.specs.Mounts.{Origin};
ghost use Rattle.world_model.specs.declared.entry.Entry as model;
ghost use Rattle.claims.specs.Modes.{Modes};
ghost use Rattle.trace_claims.specs.Assembled.{LeadsByOp, LeadsByEntry, LeadsOf, IsOperationOf};
ghost use Rattle.trace_claims.specs.Described.{Describes};
ghost use Rattle.trace_claims.specs.Hearing.{HasHeard};
ghost use Rattle.trace_claims.specs.Judging.{IsOrigin};
ghost use Rattle.trace_claims.specs.Modes.{modes_of};
ghost use Rattle.trace_claims.specs.Operations.{LeadsAll};
ghost use Rattle.trace_claims.specs.Slotted.{IsNamed, HasNamed};
ghost use Rattle.trace_claims.specs.Touching.{HasOperations};

use crate::changes::all_foreign;
use crate::coming::all_came;
use crate::courses::{Course, all_courses};
use crate::operations::{Lead, Operation};
use crate::paths::{first_mount, led_to, roots};
use crate::readings::{Reading, all_readings};
use crate::records::{Heard, all_heard};
use crate::slots::{Named, all_left, all_named, holds_of};
use crate::touched::{Foreign, Left};
use std::alloc::Global;
use trace_data::Trace;
use world_model::{Entry, Op};
use xdr_codec::Memory;

/// A history as the claims speak of it.
#[derive(Debug, Drop)]
pub(crate) struct Digest {
    pub(crate) operations: Vec<Operation>,
    pub(crate) foreign: Vec<Foreign>,
    pub(crate) left: Vec<Left>,
    /// The places of the records that came.
    pub(crate) came: Vec<usize>,
    pub(crate) readings: Vec<Reading>,
}

/// The digest of a history.
pub(crate) fn digest_of(alloc: Global, trace: &Trace) -> Result<Digest, Memory>
    ensures { (origin : Origin) → IsOrigin trace.now origin → IfOk result (Describes (modes_of trace.now) origin trace.now) }
{
    let entries = trace.entries.as_slice();
    let came = all_came(alloc, entries)?;
    let courses = all_courses(alloc, entries)?;
    let named = all_named(alloc, entries, courses.as_slice(), goes_by_kept(trace))?;
    let operations = all_operations(alloc, trace, named.as_slice())?;
    let left = all_left(
        alloc,
        named.as_slice(),
        operations.as_slice(),
        came.as_slice(),
        entries.len(),
    )?;
    let foreign = all_foreign(alloc, trace)?;
    let readings = all_readings(alloc, trace, operations.as_slice())?;
    Ok(Digest {
        operations,
        foreign,
        left,
        came,
        readings,
    })
}

/// Whether an open goes by the attributes that are kept.
fn goes_by_kept(trace: &Trace) -> bool
    ensures { result ≡ not trace.now.noac && trace.now.nocto }
{
    !trace.noac && trace.nocto
}

/// All operations, in order, with their files.
fn all_operations(alloc: Global, trace: &Trace, named: &[Named]) -> Result<Vec<Operation>, Memory>
    ensures { (m : Modes) (origin : Origin) → IsOrigin trace.now origin → HasNamed m trace.now.entries.items named.now
        → IfOk result (λ all. HasOperations m origin trace.now.entries.items all.items) }
{
    let entries = trace.entries.as_slice();
    let heard = all_heard(alloc, entries)?;
    let path = first_mount(alloc, entries)?;
    let roots = roots(alloc, trace, path.bytes(), heard.as_slice())?;
    with_files(alloc, entries, named, roots.as_slice(), heard.as_slice())
}

fn with_files(
    alloc: Global,
    entries: &[Entry],
    named: &[Named],
    roots: &[Lead],
    heard: &[Heard],
) -> Result<Vec<Operation>, Memory>
    ensures { (m : Modes) (origin : Origin) → HasNamed m entries.now named.now → HasHeard entries.now (length entries.now) heard.now
        → LeadsAll origin entries.now [] roots.now
        → IfOk result (λ all. HasOperations m origin entries.now all.items) }
{
    let mut all = Vec::new(alloc);
    let mut at = 0;
    while at < named.len() {
        let operation = operation_of(alloc, entries, named, &named[at], roots, heard)?;
        add_operation(&mut all, operation)?;
        at += 1;
    }
    Ok(all)
}

fn add_operation(all: &mut Vec<Operation>, operation: Operation) -> Result<(), Memory>
    ensures { IfOk result (λ done. all.new.items ≡ all.old.items ++ operation ∷ []) }
{
    all.push(operation)?;
    Ok(())
}

/// An operation with its files.
fn operation_of(
    alloc: Global,
    entries: &[Entry],
    all: &[Named],
    one: &Named,
    roots: &[Lead],
    heard: &[Heard],
) -> Result<Operation, Memory>
    ensures { (m : Modes) (origin : Origin) → HasNamed m entries.now all.now → IsNamed m entries.now one.now
        → HasHeard entries.now (length entries.now) heard.now → LeadsAll origin entries.now [] roots.now
        → IfOk result (IsOperationOf m origin entries.now one.now) }
{
    let holds = holds_of(alloc, all, &one.course)?;
    let leads = leads_of(alloc, entries, &one.course, roots, heard)?;
    Ok(Operation {
        course: one.course,
        named: one.file,
        holds,
        leads,
    })
}

/// The objects to which the path of a put leads.
fn leads_of(
    alloc: Global,
    entries: &[Entry],
    course: &Course,
    roots: &[Lead],
    heard: &[Heard],
) -> Result<Vec<Lead>, Memory>
    ensures { (origin : Origin) → HasHeard entries.now (length entries.now) heard.now → LeadsAll origin entries.now [] roots.now
        → IfOk result (λ leads. LeadsOf origin entries.now course.now leads.items) }
{
    match entries.get(course.place) {
        Some(entry) => leads_in(alloc, entry, roots, heard),
        None => Ok(Vec::new(alloc)),
    }
}

fn leads_in(
    alloc: Global,
    entry: &Entry,
    roots: &[Lead],
    heard: &[Heard],
) -> Result<Vec<Lead>, Memory>
    ensures { (origin : Origin) (h : List model.Entry) → HasHeard h (length h) heard.now → LeadsAll origin h [] roots.now
        → IfOk result (λ leads. LeadsByEntry origin h entry.now leads.items) }
{
    match entry {
        Entry::Began { op, .. } => leads_by(alloc, op, roots, heard),
        _ => Ok(Vec::new(alloc)),
    }
}

fn leads_by(alloc: Global, op: &Op, roots: &[Lead], heard: &[Heard]) -> Result<Vec<Lead>, Memory>
    ensures { (origin : Origin) (h : List model.Entry) → HasHeard h (length h) heard.now → LeadsAll origin h [] roots.now
        → IfOk result (λ leads. LeadsByOp origin h op.now leads.items) }
{
    match op {
        Op::Put { path, .. } => led_to(alloc, roots, heard, path.names()),
        _ => Ok(Vec::new(alloc)),
    }
}
