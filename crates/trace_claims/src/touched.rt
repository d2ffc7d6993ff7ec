//! What may have changed a byte that was written.

ghost use Rattle.std.specs.Prelude.{◌≡◌, position};
ghost use Rattle.trace_claims.specs.Touching.{changes, touches, is_foreign, rewrites, is_rewritten, is_given_up, is_stable_since, no_put};

use crate::courses::Course;
use crate::operations::Operation;
use nfs_types::Handle;

/// Which places another client changed.
#[derive(Clone, Copy, Debug)]
pub(crate) enum Reach {
    /// Those of a WRITE.
    Range { from: u128, to: u128 },
    /// Those past a size that was set.
    Past { size: u128 },
}

/// A change of a file by another client.
#[derive(Clone, Copy, Debug)]
pub(crate) struct Foreign {
    pub(crate) place: usize,
    pub(crate) file: Handle,
    pub(crate) reach: Reach,
}

/// A close at whose answer no slot holds the file any more.
#[derive(Clone, Copy, Debug)]
pub(crate) struct Left {
    /// The place of the answer.
    pub(crate) place: usize,
    pub(crate) file: Handle,
    /// Whether this close was refused, or another one of the file just before it.
    pub(crate) gives_up: bool,
    /// Whether no put is under way.
    pub(crate) no_put: bool,
}

impl Foreign {
    /// Whether it changed a place.
    fn changes(&self, place: u128) -> bool
        ensures { result ≡ changes self.now.reach place }
    {
        match self.reach {
            Reach::Range { from, to } => from <= place && place < to,
            Reach::Past { size } => size <= place,
        }
    }
}

/// Whether another client changed a place of the file after an entry and before a moment.
pub(crate) fn is_foreign(
    foreign: &[Foreign],
    after: usize,
    moment: usize,
    file: &Handle,
    place: u128,
) -> bool
    ensures { result ≡ is_foreign foreign.now after moment file.now place }
{
    foreign.iter().any(|change| {
        after < change.place
            && change.place < moment
            && change.file == *file
            && change.changes(place)
    })
}

/// Whether, in a beginning of so many entries, another operation that wasn't answered before wrote the place or cut it off.
pub(crate) fn is_rewritten(
    operations: &[Operation],
    length: usize,
    written: &Course,
    moment: usize,
    file: &Handle,
    place: u128,
) -> bool
    ensures { result ≡ is_rewritten operations.now length written.now moment file.now place }
{
    operations.iter().any(|other| {
        other.course.place != written.place
            && other.course.place < moment
            && !other.course.ended_before(written.place)
            && other.writes_or_cuts(length, file, place)
    })
}

/// The first change by another client of a place of the file, after an entry and before a moment.
pub(crate) fn changer(
    foreign: &[Foreign],
    after: usize,
    moment: usize,
    file: &Handle,
    place: u128,
) -> Option<usize>
    ensures { result ≡ position (touches after moment file.now place) foreign.now }
{
    foreign.iter().position(|change| {
        after < change.place
            && change.place < moment
            && change.file == *file
            && change.changes(place)
    })
}

/// The first operation that, in a beginning of so many entries, wrote the place or cut it off and wasn't answered before another one.
pub(crate) fn rewriter(
    operations: &[Operation],
    length: usize,
    written: &Course,
    moment: usize,
    file: &Handle,
    place: u128,
) -> Option<usize>
    ensures { result ≡ position (rewrites length written.now moment file.now place) operations.now }
{
    operations.iter().position(|other| {
        other.course.place != written.place
            && other.course.place < moment
            && !other.course.ended_before(written.place)
            && other.writes_or_cuts(length, file, place)
    })
}

/// Whether, in a beginning of so many entries, a last close gave up what was pending of the operation.
pub(crate) fn is_given_up(
    left: &[Left],
    operations: &[Operation],
    length: usize,
    written: &Course,
    moment: usize,
    file: &Handle,
) -> bool
    ensures { result ≡ is_given_up left.now operations.now length written.now moment file.now }
{
    left.iter().any(|left| {
        written.place < left.place
            && left.place < moment
            && left.file == *file
            && left.gives_up
            && !is_stable_since(operations, length, written, left.place, file)
            && !(written.is_put() && written.ended_before(left.place))
    })
}

/// Whether, in a beginning of so many entries, the file was made stable by a place since the operation was answered.
pub(crate) fn is_stable_since(
    operations: &[Operation],
    length: usize,
    written: &Course,
    by: usize,
    file: &Handle,
) -> bool
    ensures { result ≡ is_stable_since operations.now length written.now by file.now }
{
    operations.iter().any(|other| {
        written.ended_before(other.course.place)
            && other.course.ending.end <= by
            && other.made_stable(length, file)
    })
}

/// Whether no put is under way at a place.
pub(crate) fn no_put(operations: &[Operation], place: usize) -> bool
    ensures { result ≡ no_put operations.now place }
{
    operations.iter().all(|put| {
        !put.course.is_put() || put.course.place >= place || put.course.ended_before(place)
    })
}
