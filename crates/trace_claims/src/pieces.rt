//! Places by pieces: between two edges each place is as the first.

ghost use Rattle.std.specs.Prelude.{◌≡◌, ◌<◌, ◌+◌, length};
ghost use Rattle.trace_claims.specs.Pieces.{nearer, nearer_of_work, nearer_of_reach, IsPieceOfWorks, IsPieceOfReaches, IsPiece};

use crate::courses::Work;
use crate::operations::Operation;
use crate::touched::{Foreign, Reach};

/// Where the piece ends that begins at a place, or at most so far. That is the next place at which a range or a size of an
/// operation, or of another client's change, begins or ends.
pub(crate) fn piece_end(
    operations: &[Operation],
    foreign: &[Foreign],
    from: u128,
    most: u128,
) -> u128
    requires { from < most }
    ensures { IsPiece operations.now foreign.now from most result }
{
    let end = end_by_works(operations, from, most);
    end_by_reaches(foreign, from, end)
}

/// The same by the operations alone.
fn end_by_works(operations: &[Operation], from: u128, most: u128) -> u128
    requires { from < most }
    ensures { IsPieceOfWorks operations.now (length operations.now) from most result }
{
    let mut end = most;
    let mut at = 0;
    while at < operations.len() {
        end = nearer_of_work(from, end, &operations[at]);
        at += 1;
    }
    end
}

/// The same by the changes of other clients alone.
fn end_by_reaches(foreign: &[Foreign], from: u128, most: u128) -> u128
    requires { from < most }
    ensures { IsPieceOfReaches foreign.now (length foreign.now) from most result }
{
    let mut end = most;
    let mut at = 0;
    while at < foreign.len() {
        end = nearer_of_reach(from, end, &foreign[at]);
        at += 1;
    }
    end
}

/// The end of a piece, cut at the edges of what an operation does.
pub(crate) fn nearer_of_work(from: u128, end: u128, operation: &Operation) -> u128
    ensures { result ≡ nearer_of_work from end operation.now.course.work }
{
    match operation.course.work {
        Work::Write { offset, length, .. } => nearer_of_range(from, end, offset, length),
        Work::Put { offset, length } => nearer_of_range(from, end, offset, length),
        Work::Truncate { size, .. } => nearer(from, end, u128::from(size)),
        _ => end,
    }
}

fn nearer_of_range(from: u128, end: u128, offset: u64, length: usize) -> u128
    ensures { result ≡ nearer from (nearer from end offset) (offset + length) }
{
    let first = u128::from(offset);
    nearer(from, nearer(from, end, first), first + length as u128)
}

/// The end of a piece, cut at the edges of another client's change.
fn nearer_of_reach(from: u128, end: u128, change: &Foreign) -> u128
    ensures { result ≡ nearer_of_reach from end change.now.reach }
{
    match change.reach {
        Reach::Range { from: first, to } => nearer(from, nearer(from, end, first), to),
        Reach::Past { size } => nearer(from, end, size),
    }
}

/// The end of a piece, cut at an edge.
fn nearer(from: u128, end: u128, edge: u128) -> u128
    ensures { result ≡ nearer from end edge }
{
    if from < edge { end.min(edge) } else { end }
}
