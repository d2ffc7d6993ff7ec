//! Reads that succeeded: which bytes they show, of which file, and what that was at the moments that they may show.

ghost use Rattle.std.specs.Prelude.{◌≡◌, ◌&&◌, ◌++◌, ◌∷◌, [], nat_lt, IfOk, MatchOption, length};
ghost use Rattle.trace_claims.specs.Clocks.{clock_at, later, after_within, young_by, is_young, LatestClock, NoneYoung, IsFirstYoung, SinceKept, IsSince};
ghost use Rattle.trace_claims.specs.Readings.{answer_bytes, value_bytes, done_bytes, entry_bytes, has_value, has_done, has_entry, has_bytes, reads};
ghost use Rattle.trace_claims.specs.Readings.{offset_of, count_of, ReadingSo, AddsOfHolds, AddsReadings, ReadingsOf};

use crate::courses::{Course, Work};
use crate::objects::window;
use crate::operations::{Hold, Operation};
use nfs_types::Handle;
use std::alloc::Global;
use trace_data::Trace;
use world_model::{Answer, Entry, Value};
use xdr_codec::Memory;

/// A read that succeeded, of a file in an open.
#[derive(Debug, Drop)]
pub(crate) struct Reading {
    /// The places of its begin and of its answer.
    pub(crate) place: usize,
    pub(crate) end: usize,
    pub(crate) file: Handle,
    pub(crate) offset: u64,
    pub(crate) count: u32,
    /// Moments at which the file was what it was at those that the read may show.
    pub(crate) window: Vec<usize>,
}

/// All reads that succeeded and whose answer has bytes, with each file that their slot held.
pub(crate) fn all_readings(
    alloc: Global,
    trace: &Trace,
    operations: &[Operation],
) -> Result<Vec<Reading>, Memory>
    ensures { IfOk result (λ all. ReadingsOf trace.now operations.now (length operations.now) all.items) }
{
    let mut all = Vec::new(alloc);
    let mut at = 0;
    while at < operations.len() {
        add_readings(alloc, trace, &mut all, &operations[at])?;
        at += 1;
    }
    Ok(all)
}

/// Adds the readings of an operation, if it is a read that succeeded.
fn add_readings(
    alloc: Global,
    trace: &Trace,
    all: &mut Vec<Reading>,
    operation: &Operation,
) -> Result<(), Memory>
    ensures { IfOk result (λ done. AddsReadings trace.now operation.now (length operation.now.holds.items) all.old.items all.new.items) }
{
    if reads(trace.entries.as_slice(), &operation.course) {
        add_of_holds(
            alloc,
            trace,
            all,
            &operation.course,
            operation.holds.as_slice(),
        )
    } else {
        Ok(())
    }
}

/// Adds the readings of a read, one for each file that its slot held.
fn add_of_holds(
    alloc: Global,
    trace: &Trace,
    all: &mut Vec<Reading>,
    course: &Course,
    holds: &[Hold],
) -> Result<(), Memory>
    ensures { IfOk result (λ done. AddsOfHolds trace.now course.now holds.now (length holds.now) all.old.items all.new.items) }
{
    let mut at = 0;
    while at < holds.len() {
        let reading = reading_of(alloc, trace, course, &holds[at])?;
        add_reading(all, reading)?;
        at += 1;
    }
    Ok(())
}

fn add_reading(all: &mut Vec<Reading>, reading: Reading) -> Result<(), Memory>
    ensures { IfOk result (λ done. all.new.items ≡ all.old.items ++ reading ∷ []) }
{
    all.push(reading)?;
    Ok(())
}

/// Whether an operation is a read that succeeded and whose answer has bytes.
fn reads(entries: &[Entry], course: &Course) -> bool
    ensures { result ≡ reads entries.now course.now }
{
    course.is_read() && course.is_done(entries.len()) && has_bytes(entries, course.ending.end)
}

/// Whether the answer at a place has bytes.
#[tactic(auto, unfolding(crate::specs::Readings::has_bytes))]
fn has_bytes(entries: &[Entry], place: usize) -> bool
    ensures { result ≡ has_bytes entries.now place }
{
    match entries.get(place) {
        Some(entry) => has_entry(entry),
        None => false,
    }
}

fn has_entry(entry: &Entry) -> bool
    ensures { result ≡ has_entry entry.now }
{
    match entry {
        Entry::Answered { answer, .. } => has_done(answer),
        _ => false,
    }
}

fn has_done(answer: &Answer) -> bool
    ensures { result ≡ has_done answer.now }
{
    match answer {
        Answer::Done(value) => has_value(value),
        Answer::Refused(_) => false,
    }
}

fn has_value(value: &Value) -> bool
    ensures { result ≡ has_value value.now }
{
    match value {
        Value::Bytes(_) => true,
        _ => false,
    }
}

/// The bytes of the answer at a place; none if it has none.
#[tactic(auto, unfolding(crate::specs::Readings::answer_bytes))]
pub(crate) fn answer_bytes(entries: &[Entry], place: usize) -> &[u8]
    ensures { result.now ≡ answer_bytes entries.entry.now place }
{
    match entries.get(place) {
        Some(entry) => entry_bytes(entry),
        None => &[],
    }
}

fn entry_bytes(entry: &Entry) -> &[u8]
    ensures { result.now ≡ entry_bytes entry.entry.now }
{
    match entry {
        Entry::Answered { answer, .. } => done_bytes(answer),
        _ => &[],
    }
}

fn done_bytes(answer: &Answer) -> &[u8]
    ensures { result.now ≡ done_bytes answer.entry.now }
{
    match answer {
        Answer::Done(value) => value_bytes(value),
        Answer::Refused(_) => &[],
    }
}

fn value_bytes(value: &Value) -> &[u8]
    ensures { result.now ≡ value_bytes value.entry.now }
{
    match value {
        Value::Bytes(bytes) => bytes.bytes(),
        _ => &[],
    }
}

fn reading_of(alloc: Global, trace: &Trace, course: &Course, hold: &Hold) -> Result<Reading, Memory>
    ensures { IfOk result (ReadingSo trace.now course.now hold.now) }
{
    let since = since(trace, course.place, hold.opened_at);
    let window = window(alloc, trace, &hold.file, since, course.ending.end)?;
    Ok(Reading {
        place: course.place,
        end: course.ending.end,
        file: hold.file,
        offset: offset_of(&course.work),
        count: count_of(&course.work),
        window,
    })
}

/// The offset of a read.
fn offset_of(work: &Work) -> u64
    ensures { result ≡ offset_of work.now }
{
    match *work {
        Work::Read { offset, .. } => offset,
        _ => 0,
    }
}

/// How many bytes a read asks for.
fn count_of(work: &Work) -> u32
    ensures { result ≡ count_of work.now }
{
    match *work {
        Work::Read { count, .. } => count,
        _ => 0,
    }
}

/// The first moment that a read may show:
/// - its own begin, if each read asks again;
/// - a moment for which attributes are kept, if an open may go by these;
/// - else the open's begin.
fn since(trace: &Trace, read: usize, opened: usize) -> usize
    ensures { IsSince trace.now read opened result }
{
    if asks_again(trace) {
        return read;
    }
    if may_keep(trace) {
        return since_kept(trace.entries.as_slice(), opened, trace.lives);
    }
    opened
}

/// Whether each read asks again.
fn asks_again(trace: &Trace) -> bool
    ensures { result ≡ trace.now.noac }
{
    trace.noac
}

/// Whether an open may go by what is kept.
fn may_keep(trace: &Trace) -> bool
    ensures { result ≡ trace.now.nocto && nat_lt 0 trace.now.lives }
{
    trace.nocto && trace.lives > 0
}

/// The lesser of an open's begin and a moment for which attributes are kept. This is the first moment after a reading of the
/// clock that is less than so long before each reading that the open began after.
fn since_kept(entries: &[Entry], opened: usize, longest: u64) -> usize
    ensures { SinceKept entries.now opened longest result }
{
    match first_young(entries, opened, longest) {
        Some(at) => after_within(at, opened),
        None => opened,
    }
}

/// The place after one, at most so far.
fn after_within(at: usize, most: usize) -> usize
    ensures { result ≡ after_within at most }
{
    if at < most { at + 1 } else { most }
}

/// The first reading of the clock that is less than so long before each one that an operation began after.
fn first_young(entries: &[Entry], opened: usize, longest: u64) -> Option<usize>
    ensures { MatchOption result (NoneYoung entries.now opened longest) (IsFirstYoung entries.now opened longest) }
{
    let latest = latest_clock(entries, opened);
    let mut at = 0;
    while at < entries.len() {
        if is_young(entries, at, latest, longest) {
            return Some(at);
        }
        at += 1;
    }
    None
}

/// Whether an entry is a reading of the clock that is less than so long before another one.
fn is_young(entries: &[Entry], at: usize, latest: Option<u64>, longest: u64) -> bool
    ensures { result ≡ is_young entries.now at latest longest }
{
    match clock_at(entries, at) {
        Some(ms) => young_by(ms, latest, longest),
        None => false,
    }
}

fn young_by(ms: u64, latest: Option<u64>, longest: u64) -> bool
    ensures { result ≡ young_by ms latest longest }
{
    match latest {
        Some(later) => later < ms || later - ms < longest,
        None => true,
    }
}

/// The latest reading of the clock before a place.
fn latest_clock(entries: &[Entry], before: usize) -> Option<u64>
    ensures { LatestClock entries.now before result }
{
    let mut latest = None;
    let mut at = 0;
    while at < before {
        latest = later(latest, clock_at(entries, at));
        at += 1;
    }
    latest
}

/// The reading of the clock at a place.
#[tactic(auto, unfolding(crate::specs::Clocks::clock_at))]
fn clock_at(entries: &[Entry], at: usize) -> Option<u64>
    ensures { result ≡ clock_at entries.now at }
{
    match entries.get(at) {
        Some(Entry::Clock { ms }) => Some(*ms),
        _ => None,
    }
}

/// The greater of two readings, if there is one.
fn later(a: Option<u64>, b: Option<u64>) -> Option<u64>
    ensures { result ≡ later a b }
{
    match a {
        Some(a) => match b {
            Some(b) => Some(a.max(b)),
            None => Some(a),
        },
        None => b,
    }
}
