//! Whether bytes are shown as an operation left them, or may have been changed.

ghost use Rattle.std.specs.Prelude.{◌≡◌, ◌<◌, true};
ghost use Rattle.trace_claims.specs.Places.{all_places, HoldsUntil, KeepsUntil};
ghost use Rattle.trace_claims.specs.Pieces.{IsPiece};
ghost use Rattle.trace_claims.specs.Keeping.{is_touched, is_kept};
ghost use Rattle.trace_claims.specs.Reaching.{range_end, reach_end};

use crate::bytes::shows;
use crate::courses::Course;
use crate::digest::Digest;
use crate::pieces::piece_end;
use crate::touched::{Reach, changer, is_foreign, is_given_up, is_rewritten, rewriter};
use nfs_types::Handle;
use world_model::Entry;

/// Of which beginning, up to which moment, and of which file it is asked what may have been changed.
#[derive(Clone, Copy, Debug)]
pub(crate) struct Question {
    /// How many entries the beginning has.
    pub(crate) length: usize,
    pub(crate) moment: usize,
    pub(crate) file: Handle,
    /// Whether the file is gone at the moment.
    pub(crate) gone: bool,
}

/// Whether a place of the file may have been changed after an operation and before the moment.
#[tactic(auto, unfolding(crate::specs::Keeping::is_touched))]
pub(crate) fn is_touched(
    digest: &Digest,
    written: &Course,
    question: &Question,
    place: u128,
) -> bool
    ensures { result ≡ is_touched digest.now written.now question.now place }
{
    let operations = digest.operations.as_slice();
    is_foreign(
        digest.foreign.as_slice(),
        written.place,
        question.moment,
        &question.file,
        place,
    ) || is_rewritten(
        operations,
        question.length,
        written,
        question.moment,
        &question.file,
        place,
    ) || question.gone
        || is_given_up(
            digest.left.as_slice(),
            operations,
            question.length,
            written,
            question.moment,
            &question.file,
        )
}

/// Places from one to before another, and the place of the first byte of a list.
#[derive(Clone, Copy, Debug)]
pub(crate) struct Span {
    pub(crate) offset: u128,
    pub(crate) from: u128,
    pub(crate) to: u128,
}

/// Whether both lists show at each place from one to before another what an operation left there, unless the place may have been
/// changed.
pub(crate) fn all_kept(
    entries: &[Entry],
    digest: &Digest,
    written: &Course,
    question: &Question,
    now: &[u8],
    stable: &[u8],
    span: Span,
) -> bool
    ensures { result ≡ all_places (is_kept entries.now digest.now written.now question.now now.now stable.now span.offset) span.from span.to }
{
    let mut at = span.from;
    while at < span.to {
        match kept_until(entries, digest, written, question, now, stable, span, at) {
            Some(next) => at = next,
            None => return false,
        }
    }
    true
}

/// Up to which place all is so from a place on: one place more if both lists show what was left, else the piece of what may have
/// been changed. None if neither is so.
fn kept_until(
    entries: &[Entry],
    digest: &Digest,
    written: &Course,
    question: &Question,
    now: &[u8],
    stable: &[u8],
    span: Span,
    at: u128,
) -> Option<u128>
    requires { at < span.to }
    ensures { KeepsUntil (is_kept entries.now digest.now written.now question.now now.now stable.now span.offset) at span.to result }
{
    if shows(entries, written.place, now, stable, span.offset, at) {
        return Some(at + 1);
    }
    if is_touched(digest, written, question, at) {
        return Some(touched_until(digest, written, question, at, span.to));
    }
    None
}

/// Up to which place all may have been changed, at most so far, if a place may have been: as far as that reaches by which it may
/// have been, or to the end of its piece.
fn touched_until(
    digest: &Digest,
    written: &Course,
    question: &Question,
    at: u128,
    most: u128,
) -> u128
    requires { at < most }
    ensures { is_touched digest.now written.now question.now at ≡ true → HoldsUntil (is_touched digest.now written.now question.now) at most result }
{
    let operations = digest.operations.as_slice();
    let foreign = digest.foreign.as_slice();
    let (moment, file) = (question.moment, &question.file);
    match rewriter(operations, question.length, written, moment, file, at) {
        Some(other) => range_end(operations[other].course.range(), most),
        None => match changer(foreign, written.place, moment, file, at) {
            Some(change) => reach_end(foreign[change].reach, most),
            None => next_piece(digest, at, most),
        },
    }
}

/// The end of the places that an operation writes, or so far if it writes none.
fn range_end(range: Option<(u128, u128)>, most: u128) -> u128
    ensures { result ≡ range_end range most }
{
    match range {
        Some((_, to)) => to.min(most),
        None => most,
    }
}

/// The end of what another client changed, at most so far.
fn reach_end(reach: Reach, most: u128) -> u128
    ensures { result ≡ reach_end reach most }
{
    match reach {
        Reach::Range { to, .. } => to.min(most),
        Reach::Past { .. } => most,
    }
}

/// Where the piece ends that begins at a place, at most so far.
pub(crate) fn next_piece(digest: &Digest, from: u128, most: u128) -> u128
    requires { from < most }
    ensures { IsPiece digest.now.operations.items digest.now.foreign.items from most result }
{
    piece_end(
        digest.operations.as_slice(),
        digest.foreign.as_slice(),
        from,
        most,
    )
}
