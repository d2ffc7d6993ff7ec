//! Whether reads show what they may.

ghost use Rattle.std.specs.Prelude.{◌≡◌, ◌<◌, ◌+◌, length};
ghost use Rattle.trace_claims.specs.Places.{all_places};
ghost use Rattle.trace_claims.specs.Reading.{shows_well, ends_well, is_current, is_current_at, was_held, is_short, is_own, is_pending_during};
ghost use Rattle.trace_claims.specs.Reading.{is_pending_past, is_before_pending, question_of, shows_own, shows_written, shows_from, shows_cuts};
ghost use Rattle.trace_claims.specs.Reading.{shows_cut, wrote_none_past, is_changed_past, is_changed_from};

use crate::bytes::{byte_from, byte_of, same_byte};
use crate::courses::Course;
use crate::digest::Digest;
use crate::keeping::{Question, Span, all_kept};
use crate::objects::{is_file_within, is_gone_at, now_at};
use crate::operations::Operation;
use crate::pending::{is_pending, none_pending_past};
use crate::readings::{Reading, answer_bytes};
use trace_data::Trace;

/// Whether, in a beginning of so many entries, each byte of a read is as it may be, if the beginning has its answer.
#[tactic(auto, unfolding(crate::specs::Reading::shows_well))]
pub(crate) fn shows_well(trace: &Trace, digest: &Digest, total: usize, read: &Reading) -> bool
    ensures { result ≡ shows_well trace.now digest.now total read.now }
{
    read.end >= total
        || is_current(trace, digest, total, read)
            && shows_own(trace, digest, total, read)
            && shows_cuts(trace, digest, total, read)
}

/// Whether, in a beginning of so many entries, a read ends where it may, if the beginning has its answer.
#[tactic(auto, unfolding(crate::specs::Reading::ends_well))]
pub(crate) fn ends_well(trace: &Trace, digest: &Digest, total: usize, read: &Reading) -> bool
    ensures { result ≡ ends_well trace.now digest.now total read.now }
{
    let count = answer_bytes(trace.entries.as_slice(), read.end).len();
    let stop = place_after(read.offset, count);
    read.end >= total
        || count >= read.count as usize
        || is_short(trace, read, stop) && wrote_none_past(trace, digest, total, read, stop)
}

/// The place after so many from an offset on.
fn place_after(offset: u64, count: usize) -> u128
    ensures { result ≡ offset + count }
{
    u128::from(offset) + count as u128
}

/// Whether each byte was pending during the read, was held at a moment that it may show, or is a zero in a hole.
fn is_current(trace: &Trace, digest: &Digest, total: usize, read: &Reading) -> bool
    ensures { result ≡ is_current trace.now digest.now total read.now }
{
    let bytes = answer_bytes(trace.entries.as_slice(), read.end);
    all_current(trace, digest, total, read, bytes)
}

fn all_current(trace: &Trace, digest: &Digest, total: usize, read: &Reading, bytes: &[u8]) -> bool
    ensures { result ≡ all_places (is_current_at trace.now digest.now total read.now bytes.now) 0 (length bytes.now) }
{
    let mut at = 0;
    while at < bytes.len() {
        if !is_current_at(trace, digest, total, read, bytes, at) {
            return false;
        }
        at += 1;
    }
    true
}

#[tactic(auto, unfolding(crate::specs::Reading::is_current_at))]
fn is_current_at(
    trace: &Trace,
    digest: &Digest,
    total: usize,
    read: &Reading,
    bytes: &[u8],
    at: usize,
) -> bool
    requires { at < length bytes.now }
    ensures { result ≡ is_current_at trace.now digest.now total read.now bytes.now at }
{
    let place = u128::from(read.offset) + at as u128;
    let byte = byte_from(bytes, 0, at as u128);
    was_held(trace, read, place, byte)
        || is_own(trace, digest, total, read, place, byte)
        || same_byte(byte, Some(0))
            && is_short(trace, read, place)
            && is_before_pending(digest, total, read, place)
}

/// Whether the file held a byte at a place at a moment that the read may show.
fn was_held(trace: &Trace, read: &Reading, place: u128, byte: Option<u8>) -> bool
    ensures { result ≡ was_held trace.now read.now place byte }
{
    read.window.iter().any(|moment| same_byte(
        byte_from(now_at(trace, *moment, &read.file), 0, place),
        byte,
    ))
}

/// Whether the file had at most so many bytes at a moment that the read may show.
fn is_short(trace: &Trace, read: &Reading, most: u128) -> bool
    ensures { result ≡ is_short trace.now read.now most }
{
    read.window
        .iter()
        .any(|moment| is_file_within(trace, *moment, &read.file, most))
}

/// Whether a byte at a place is pending during a read.
fn is_own(
    trace: &Trace,
    digest: &Digest,
    total: usize,
    read: &Reading,
    place: u128,
    byte: Option<u8>,
) -> bool
    ensures { result ≡ is_own trace.now digest.now total read.now place byte }
{
    digest.operations.iter().any(|written| {
        same_byte(
            byte_of(trace.entries.as_slice(), written.course.place, place),
            byte,
        ) && is_pending_during(digest, total, written, read, place)
    })
}

/// Whether what an operation writes at a place is pending at some moment of a read.
fn is_pending_during(
    digest: &Digest,
    total: usize,
    written: &Operation,
    read: &Reading,
    place: u128,
) -> bool
    ensures { result ≡ is_pending_during digest.now total read.now place written.now }
{
    written.course.place < read.end
        && is_pending(
            digest,
            total,
            written,
            &read.file,
            read.place.max(written.course.place + 1),
            place,
        )
}

/// Whether what an operation writes at a place past one is pending at some moment of a read.
fn is_pending_past(
    digest: &Digest,
    total: usize,
    written: &Operation,
    read: &Reading,
    place: u128,
) -> bool
    ensures { result ≡ is_pending_past digest.now total read.now place written.now }
{
    written.course.place < read.end
        && !none_pending_past(
            digest,
            total,
            written,
            &read.file,
            read.place.max(written.course.place + 1),
            place,
        )
}

/// Whether a byte past a place is pending at some moment of a read.
fn is_before_pending(digest: &Digest, total: usize, read: &Reading, place: u128) -> bool
    ensures { result ≡ is_before_pending digest.now total read.now place }
{
    digest.operations.iter().any(|written| is_pending_past(digest, total, written, read, place))
}

/// The question what may have been changed up to the end of a read.
fn question_of(trace: &Trace, total: usize, read: &Reading) -> Question
    ensures { result ≡ question_of trace.now total read.now }
{
    Question {
        length: total,
        moment: read.end,
        file: read.file,
        gone: is_gone_at(trace, read.end, &read.file),
    }
}

/// Whether what was written before the read began is shown in its range, unless it may have been changed.
fn shows_own(trace: &Trace, digest: &Digest, total: usize, read: &Reading) -> bool
    ensures { result ≡ shows_own trace.now digest.now total read.now }
{
    let question = question_of(trace, total, read);
    digest.operations.iter().all(|written| {
        !written.course.ended_before(read.place)
            || !written.wrote_to(total, &read.file)
            || shows_written(trace, digest, &question, read, &written.course)
    })
}

fn shows_written(
    trace: &Trace,
    digest: &Digest,
    question: &Question,
    read: &Reading,
    written: &Course,
) -> bool
    ensures { result ≡ shows_written trace.now digest.now question.now read.now written.now }
{
    let stop = u128::from(read.offset) + u128::from(read.count);
    match written.range() {
        Some((from, to)) => shows_from(trace, digest, question, read, written, from, to.min(stop)),
        None => true,
    }
}

/// Whether a read shows from one place on to before another what an operation left, unless that may have been changed.
#[tactic(auto, unfolding(crate::specs::Reading::shows_from))]
fn shows_from(
    trace: &Trace,
    digest: &Digest,
    question: &Question,
    read: &Reading,
    written: &Course,
    from: u128,
    to: u128,
) -> bool
    ensures { result ≡ shows_from trace.now digest.now question.now read.now written.now from to }
{
    let offset = u128::from(read.offset);
    let span = Span {
        offset,
        from: from.max(offset),
        to,
    };
    let bytes = answer_bytes(trace.entries.as_slice(), read.end);
    all_kept(
        trace.entries.as_slice(),
        digest,
        written,
        question,
        bytes,
        bytes,
        span,
    )
}

/// Whether places that a truncate cut off before the read began are zeros, unless they may have been changed.
fn shows_cuts(trace: &Trace, digest: &Digest, total: usize, read: &Reading) -> bool
    ensures { result ≡ shows_cuts trace.now digest.now total read.now }
{
    let question = question_of(trace, total, read);
    digest.operations.iter().all(|cut| {
        !cut.course.ended_before(read.place)
            || !cut.course.is_done(total)
            || !cut.is_of(&read.file)
            || shows_cut(trace, digest, &question, read, &cut.course)
    })
}

fn shows_cut(
    trace: &Trace,
    digest: &Digest,
    question: &Question,
    read: &Reading,
    cut: &Course,
) -> bool
    ensures { result ≡ shows_cut trace.now digest.now question.now read.now cut.now }
{
    let count = answer_bytes(trace.entries.as_slice(), read.end).len();
    let stop = place_after(read.offset, count);
    match cut.cut_size() {
        Some(size) => shows_from(trace, digest, question, read, cut, size, stop),
        None => true,
    }
}

/// Whether nothing was written past a place before the read began that can't have been changed.
fn wrote_none_past(trace: &Trace, digest: &Digest, total: usize, read: &Reading, stop: u128) -> bool
    ensures { result ≡ wrote_none_past trace.now digest.now total read.now stop }
{
    let question = question_of(trace, total, read);
    digest.operations.iter().all(|written| {
        !written.course.ended_before(read.place)
            || !written.wrote_to(total, &read.file)
            || is_changed_past(trace, digest, &question, &written.course, stop)
    })
}

fn is_changed_past(
    trace: &Trace,
    digest: &Digest,
    question: &Question,
    written: &Course,
    stop: u128,
) -> bool
    ensures { result ≡ is_changed_past trace.now digest.now question.now written.now stop }
{
    match written.range() {
        Some((from, to)) => is_changed_from(trace, digest, question, written, from.max(stop), to),
        None => true,
    }
}

#[tactic(auto, unfolding(crate::specs::Reading::is_changed_from))]
fn is_changed_from(
    trace: &Trace,
    digest: &Digest,
    question: &Question,
    written: &Course,
    from: u128,
    to: u128,
) -> bool
    ensures { result ≡ is_changed_from trace.now digest.now question.now written.now from to }
{
    let span = Span {
        offset: 0,
        from,
        to,
    };
    all_kept(
        trace.entries.as_slice(),
        digest,
        written,
        question,
        &[],
        &[],
        span,
    )
}
