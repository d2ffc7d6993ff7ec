//! Whether bytes that were made stable stay.

ghost use Rattle.std.specs.Prelude.{◌≡◌, ◌<◌, ◌+◌, true, Decides, length};
ghost use Rattle.trace_claims.specs.Staying.{held_in, is_held, holds_next, StaysFrom, outdated_in, is_outdated, StaysSo, StayNamed, StayHeld};
ghost use Rattle.trace_claims.specs.Staying.{StaysEverywhere, AllStay, AllStaySo, holds_last, LastSo, LastNamed, LastHeld, LastEverywhere, AllLast, AllLastSo};

use crate::courses::Course;
use crate::digest::Digest;
use crate::firm::settling;
use crate::keeping::{Question, Span, all_kept};
use crate::objects::{is_gone_at, is_named_at, now_at, stable_at};
use crate::operations::{Hold, Operation};
use nfs_types::Handle;
use trace_data::Trace;

/// Whether each byte that an operation wrote is held by the file at a moment and stable there, or may have been changed.
#[tactic(auto, unfolding(crate::specs::Staying::is_held))]
fn is_held(
    trace: &Trace,
    digest: &Digest,
    total: usize,
    written: &Course,
    moment: usize,
    file: &Handle,
) -> bool
    ensures { result ≡ is_held trace.now digest.now total written.now moment file.now }
{
    match written.range() {
        Some((from, to)) => held_in(trace, digest, total, written, moment, file, from, to),
        None => true,
    }
}

#[tactic(auto, unfolding(crate::specs::Staying::held_in))]
fn held_in(
    trace: &Trace,
    digest: &Digest,
    total: usize,
    written: &Course,
    moment: usize,
    file: &Handle,
    from: u128,
    to: u128,
) -> bool
    ensures { result ≡ held_in trace.now digest.now total written.now moment file.now from to }
{
    let question = Question {
        length: total,
        moment,
        file: *file,
        gone: is_gone_at(trace, moment, file),
    };
    let span = Span {
        offset: 0,
        from,
        to,
    };
    all_kept(
        trace.entries.as_slice(),
        digest,
        written,
        &question,
        now_at(trace, moment, file),
        stable_at(trace, moment, file),
        span,
    )
}

/// Whether all bytes that were settled before some moment of a beginning of so many entries are held there.
pub(crate) fn is_settled(trace: &Trace, digest: &Digest, total: usize) -> bool
    ensures { Decides result (AllStaySo trace.now digest.now total) }
{
    all_stay(trace, digest, total, digest.operations.as_slice())
}

fn all_stay(trace: &Trace, digest: &Digest, total: usize, operations: &[Operation]) -> bool
    ensures { Decides result (AllStay trace.now digest.now total operations.now (length operations.now)) }
{
    let mut at = 0;
    while at < operations.len() {
        if !stays_everywhere(trace, digest, total, &operations[at]) {
            return false;
        }
        at += 1;
    }
    true
}

/// Whether what an operation wrote stays, in each file that it may have written.
fn stays_everywhere(trace: &Trace, digest: &Digest, total: usize, written: &Operation) -> bool
    ensures { Decides result (StaysEverywhere trace.now digest.now total written.now) }
{
    stays_named(trace, digest, total, written)
        && stays_held(trace, digest, total, written, written.holds.as_slice())
}

fn stays_named(trace: &Trace, digest: &Digest, total: usize, written: &Operation) -> bool
    ensures { Decides result (StayNamed trace.now digest.now total written.now written.now.named) }
{
    match &written.named {
        Some(file) => stays(trace, digest, total, written, file),
        None => true,
    }
}

fn stays_held(
    trace: &Trace,
    digest: &Digest,
    total: usize,
    written: &Operation,
    holds: &[Hold],
) -> bool
    ensures { Decides result (StayHeld trace.now digest.now total written.now holds.now (length holds.now)) }
{
    let mut at = 0;
    while at < holds.len() {
        if !stays_hold(trace, digest, total, written, &holds[at]) {
            return false;
        }
        at += 1;
    }
    true
}

fn stays_hold(
    trace: &Trace,
    digest: &Digest,
    total: usize,
    written: &Operation,
    hold: &Hold,
) -> bool
    ensures { Decides result (StaysSo trace.now digest.now total written.now hold.now.file) }
{
    stays(trace, digest, total, written, &hold.file)
}

/// Whether what an operation wrote to a file stays, at each moment of a beginning.
fn stays(trace: &Trace, digest: &Digest, total: usize, written: &Operation, file: &Handle) -> bool
    ensures { Decides result (StaysSo trace.now digest.now total written.now file.now) }
{
    if !written.wrote_to(total, file) {
        return true;
    }
    match settling(digest.operations.as_slice(), total, &written.course, file) {
        Some(settled) => stays_from(trace, digest, total, &written.course, file, settled),
        None => true,
    }
}

/// Whether what an operation wrote to a file is held at each moment past a place: at the first, and then wherever the file changed.
fn stays_from(
    trace: &Trace,
    digest: &Digest,
    total: usize,
    written: &Course,
    file: &Handle,
    settled: usize,
) -> bool
    ensures { Decides result (StaysFrom trace.now digest.now total written.now file.now settled total) }
{
    let mut place = settled;
    while place < total {
        if !holds_next(trace, digest, total, written, file, settled, place) {
            return false;
        }
        if is_past(trace, digest, total, written, file, settled, place) {
            return true;
        }
        place += 1;
    }
    true
}

/// Whether an entry changed the file or settled what an operation wrote, and all of that may have been changed by then: so it may
/// have been at each later moment, and need not be looked at again.
fn is_past(
    trace: &Trace,
    digest: &Digest,
    total: usize,
    written: &Course,
    file: &Handle,
    settled: usize,
    place: usize,
) -> bool
    requires { place < total }
    ensures { result ≡ true → is_outdated trace.now digest.now total written.now (place + 1) file.now ≡ true }
{
    (place == settled || is_named_at(trace, place, file))
        && is_outdated(trace, digest, total, written, place + 1, file)
}

/// Whether each byte that an operation wrote may have been changed before a moment.
#[tactic(auto, unfolding(crate::specs::Staying::is_outdated))]
fn is_outdated(
    trace: &Trace,
    digest: &Digest,
    total: usize,
    written: &Course,
    moment: usize,
    file: &Handle,
) -> bool
    ensures { result ≡ is_outdated trace.now digest.now total written.now moment file.now }
{
    match written.range() {
        Some((from, to)) => outdated_in(trace, digest, total, written, moment, file, from, to),
        None => true,
    }
}

#[tactic(auto, unfolding(crate::specs::Staying::outdated_in))]
fn outdated_in(
    trace: &Trace,
    digest: &Digest,
    total: usize,
    written: &Course,
    moment: usize,
    file: &Handle,
    from: u128,
    to: u128,
) -> bool
    ensures { result ≡ outdated_in trace.now digest.now total written.now moment file.now from to }
{
    let question = Question {
        length: total,
        moment,
        file: *file,
        gone: false,
    };
    let span = Span {
        offset: 0,
        from,
        to,
    };
    all_kept(
        trace.entries.as_slice(),
        digest,
        written,
        &question,
        &[],
        &[],
        span,
    )
}

/// Whether what an operation wrote to a file is held after an entry, if the file may have changed there or the entry settled it.
fn holds_next(
    trace: &Trace,
    digest: &Digest,
    total: usize,
    written: &Course,
    file: &Handle,
    settled: usize,
    place: usize,
) -> bool
    requires { place < total }
    ensures { result ≡ holds_next trace.now digest.now total written.now file.now settled place }
{
    place != settled && !is_named_at(trace, place, file)
        || is_held(trace, digest, total, written, place + 1, file)
}

/// Whether all bytes that were settled by an entry are held after it. The entry is the last one of the beginning that is looked at.
/// Those bytes are passed over for which the beginning before says it: the file didn't change, and they weren't settled just then.
pub(crate) fn is_settled_last(trace: &Trace, digest: &Digest, entry: usize) -> bool
    requires { entry < 18446744073709551615 }
    ensures { Decides result (AllLastSo trace.now digest.now entry) }
{
    all_last(trace, digest, entry, digest.operations.as_slice())
}

fn all_last(trace: &Trace, digest: &Digest, entry: usize, operations: &[Operation]) -> bool
    requires { entry < 18446744073709551615 }
    ensures { Decides result (AllLast trace.now digest.now entry operations.now (length operations.now)) }
{
    let mut at = 0;
    while at < operations.len() {
        if !last_everywhere(trace, digest, entry, &operations[at]) {
            return false;
        }
        at += 1;
    }
    true
}

fn last_everywhere(trace: &Trace, digest: &Digest, entry: usize, written: &Operation) -> bool
    requires { entry < 18446744073709551615 }
    ensures { Decides result (LastEverywhere trace.now digest.now entry written.now) }
{
    last_named(trace, digest, entry, written)
        && last_held(trace, digest, entry, written, written.holds.as_slice())
}

fn last_named(trace: &Trace, digest: &Digest, entry: usize, written: &Operation) -> bool
    requires { entry < 18446744073709551615 }
    ensures { Decides result (LastNamed trace.now digest.now entry written.now written.now.named) }
{
    match &written.named {
        Some(file) => stays_last(trace, digest, entry, written, file),
        None => true,
    }
}

fn last_held(
    trace: &Trace,
    digest: &Digest,
    entry: usize,
    written: &Operation,
    holds: &[Hold],
) -> bool
    requires { entry < 18446744073709551615 }
    ensures { Decides result (LastHeld trace.now digest.now entry written.now holds.now (length holds.now)) }
{
    let mut at = 0;
    while at < holds.len() {
        if !last_hold(trace, digest, entry, written, &holds[at]) {
            return false;
        }
        at += 1;
    }
    true
}

fn last_hold(trace: &Trace, digest: &Digest, entry: usize, written: &Operation, hold: &Hold) -> bool
    requires { entry < 18446744073709551615 }
    ensures { Decides result (LastSo trace.now digest.now entry written.now hold.now.file) }
{
    stays_last(trace, digest, entry, written, &hold.file)
}

/// Whether what an operation wrote to a file is held after an entry, in the beginning of which that is the last one.
fn stays_last(
    trace: &Trace,
    digest: &Digest,
    entry: usize,
    written: &Operation,
    file: &Handle,
) -> bool
    requires { entry < 18446744073709551615 }
    ensures { Decides result (LastSo trace.now digest.now entry written.now file.now) }
{
    if !written.wrote_to(entry + 1, file) {
        return true;
    }
    match settling(
        digest.operations.as_slice(),
        entry + 1,
        &written.course,
        file,
    ) {
        Some(settled) => holds_last(trace, digest, &written.course, file, settled, entry),
        None => true,
    }
}

/// Whether what was settled by an entry is held after it, or nothing changed there.
fn holds_last(
    trace: &Trace,
    digest: &Digest,
    written: &Course,
    file: &Handle,
    settled: usize,
    entry: usize,
) -> bool
    requires { entry < 18446744073709551615 }
    ensures { result ≡ holds_last trace.now digest.now written.now file.now settled entry }
{
    settled > entry || holds_next(trace, digest, entry + 1, written, file, settled, entry)
}
