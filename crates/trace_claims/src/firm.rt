//! From which place on what an operation wrote is known to be stable.

ghost use Rattle.std.specs.Prelude.{◌≡◌, length};
ghost use Rattle.trace_claims.specs.Settling.{own_end, settles_after, settles_at, sooner, Settles};

use crate::courses::Course;
use crate::operations::Operation;
use nfs_types::Handle;

/// The least place at which what an operation wrote to a file is known to be stable, in a beginning of so many entries.
pub(crate) fn settling(
    operations: &[Operation],
    entries: usize,
    written: &Course,
    file: &Handle,
) -> Option<usize>
    ensures { Settles operations.now entries written.now file.now (length operations.now) result }
{
    let mut least = own_end(written);
    let mut at = 0;
    while at < operations.len() {
        least = sooner(least, settles_at(&operations[at], entries, written, file));
        at += 1;
    }
    least
}

/// The end of a put.
fn own_end(written: &Course) -> Option<usize>
    ensures { result ≡ own_end written.now }
{
    if written.is_put() {
        Some(written.ending.end)
    } else {
        None
    }
}

/// Where another operation ended, if it made the file stable after this one was answered.
fn settles_at(other: &Operation, entries: usize, written: &Course, file: &Handle) -> Option<usize>
    ensures { result ≡ settles_at other.now entries written.now file.now }
{
    if settles_after(other, entries, written, file) {
        Some(other.course.ending.end)
    } else {
        None
    }
}

/// Whether another operation made the file stable after this one was answered.
fn settles_after(other: &Operation, entries: usize, written: &Course, file: &Handle) -> bool
    ensures { result ≡ settles_after other.now entries written.now file.now }
{
    written.ended_before(other.course.place) && other.made_stable(entries, file)
}

/// The sooner of two places, if there is one.
fn sooner(a: Option<usize>, b: Option<usize>) -> Option<usize>
    ensures { result ≡ sooner a b }
{
    match a {
        Some(a) => match b {
            Some(b) => Some(a.min(b)),
            None => Some(a),
        },
        None => b,
    }
}
