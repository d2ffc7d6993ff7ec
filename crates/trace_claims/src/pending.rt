//! Which bytes of the client may still be dirty.

ghost use Rattle.std.specs.Prelude.{◌≡◌, ◌<◌};
ghost use Rattle.trace_claims.specs.Pieces.{IsOwnPiece};
ghost use Rattle.trace_claims.specs.Places.{all_places, KeepsUntil};
ghost use Rattle.trace_claims.specs.Pendings.{is_pending, is_ended, is_left, is_left_alone, some_opens, opens_after, is_free, next_past, none_pending_past};

use crate::coming::none_came;
use crate::digest::Digest;
use crate::keeping::next_piece;
use crate::operations::Operation;
use crate::pieces::nearer_of_work;
use crate::touched::Left;
use nfs_types::Handle;

/// Whether, in a beginning of so many entries, what an operation writes at a place of the file is pending at a moment.
#[tactic(auto, unfolding(crate::specs::Pendings::is_pending))]
pub(crate) fn is_pending(
    digest: &Digest,
    length: usize,
    written: &Operation,
    file: &Handle,
    moment: usize,
    place: u128,
) -> bool
    ensures { result ≡ is_pending digest.now length written.now file.now moment place }
{
    written.course.place < moment
        && written.course.covers(place)
        && written.writes_to(length, file)
        && !(written.course.is_write() && written.course.is_refused(length))
        && !(written.course.is_put() && written.course.is_done(moment))
        && !is_ended(digest.operations.as_slice(), written, file, moment, place)
        && (written.course.is_put() && written.course.is_refused(length)
            || !is_left(digest, length, written, file, moment))
}

/// Whether, since an operation was answered, a later one that succeeded before the moment covers, cuts off or settles a place.
fn is_ended(
    operations: &[Operation],
    written: &Operation,
    file: &Handle,
    moment: usize,
    place: u128,
) -> bool
    ensures { result ≡ is_ended operations.now written.now.course file.now moment place }
{
    operations.iter().any(|other| {
        written.course.ended_before(other.course.place) && other.ends_pending(moment, file, place)
    })
}

/// Whether, since an operation was answered, a last close before the moment left the file alone.
fn is_left(
    digest: &Digest,
    length: usize,
    written: &Operation,
    file: &Handle,
    moment: usize,
) -> bool
    ensures { result ≡ is_left digest.now length written.now.course file.now moment }
{
    digest.left.iter().any(|left| {
        left.file == *file
            && left.place < moment
            && written.course.ended_before(left.place)
            && is_left_alone(digest, length, left)
    })
}

/// Whether the client holds nothing of the file back after a last close: no put is under way, and no open of the file
/// succeeds before the next record comes.
fn is_left_alone(digest: &Digest, length: usize, left: &Left) -> bool
    ensures { result ≡ is_left_alone digest.now length left.now }
{
    left.no_put && !some_opens(digest, length, left)
}

/// Whether an open of the file succeeded after a last close and before the next record came.
fn some_opens(digest: &Digest, length: usize, left: &Left) -> bool
    ensures { result ≡ some_opens digest.now length left.now }
{
    digest.operations.iter().any(|open| opens_after(digest.came.as_slice(), length, open, left))
}

/// Whether an operation is an open of the file that succeeded after a last close and before the next record came.
fn opens_after(came: &[usize], length: usize, open: &Operation, left: &Left) -> bool
    ensures { result ≡ opens_after came.now length left.now open.now }
{
    open.course.is_open()
        && open.course.is_done(length)
        && open.is_named(&left.file)
        && left.place < open.course.ending.end
        && none_came(came, left.place, open.course.ending.end)
}

/// Whether an operation writes no byte of the file past a place that is pending at a moment.
pub(crate) fn none_pending_past(
    digest: &Digest,
    length: usize,
    written: &Operation,
    file: &Handle,
    moment: usize,
    past: u128,
) -> bool
    ensures { result ≡ none_pending_past digest.now length written.now file.now moment past }
{
    match written.course.range() {
        Some((from, to)) => none_pending(digest, length, written, file, moment, past, from, to),
        None => true,
    }
}

/// Whether an operation writes no byte of the file from one place to before another, and past a third, that is pending at a moment.
fn none_pending(
    digest: &Digest,
    length: usize,
    written: &Operation,
    file: &Handle,
    moment: usize,
    past: u128,
    from: u128,
    to: u128,
) -> bool
    ensures { result ≡ all_places (is_free digest.now length written.now file.now moment past) from to }
{
    let mut at = from;
    while at < to {
        match free_until(digest, length, written, file, moment, past, at, to) {
            Some(next) => at = next,
            None => return false,
        }
    }
    true
}

/// Up to which place an operation writes no such byte from a place on. None if it writes one there.
fn free_until(
    digest: &Digest,
    length: usize,
    written: &Operation,
    file: &Handle,
    moment: usize,
    past: u128,
    at: u128,
    to: u128,
) -> Option<u128>
    requires { at < to }
    ensures { KeepsUntil (is_free digest.now length written.now file.now moment past) at to result }
{
    if at <= past {
        return Some(next_past(past, to));
    }
    if is_pending(digest, length, written, file, moment, at) {
        return None;
    }
    Some(own_piece(digest, written, at, to))
}

/// Where the piece ends that begins at a place, at most so far, and at the edges of an operation too.
fn own_piece(digest: &Digest, written: &Operation, from: u128, most: u128) -> u128
    requires { from < most }
    ensures { IsOwnPiece digest.now.operations.items digest.now.foreign.items written.now.course.work from most result }
{
    let end = next_piece(digest, from, most);
    nearer_of_work(from, end, written)
}

/// The place after one, at most so far.
fn next_past(past: u128, to: u128) -> u128
    ensures { result ≡ next_past past to }
{
    if past < to { past + 1 } else { to }
}
