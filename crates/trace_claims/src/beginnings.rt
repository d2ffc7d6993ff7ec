//! The first beginning of a history that breaks what is claimed of bytes.

ghost use Rattle.std.specs.Prelude.{◌≡◌, ◌<◌, ◌≤◌, ◌+◌, Decides, IfOk, length};
ghost use Rattle.world_model.specs.Mounts.{Origin};
ghost use Rattle.claims.specs.Modes.{Modes};
ghost use Rattle.trace_claims.specs.Described.{Describes};
ghost use Rattle.trace_claims.specs.Modes.{modes_of};
ghost use Rattle.trace_claims.specs.Judging.{IsOrigin, JudgesBeginning, KeepsUpTo, FindsFirst, FirstOf, KeepsWhole, KeepsClaims, beginning_of, most_of};
ghost use Rattle.trace_claims.specs.Reading.{all_show_well, all_end_well, last_shows_well, last_ends_well, refuses_write};

use crate::digest::{Digest, digest_of};
use crate::reads::{ends_well, shows_well};
use crate::settled::{is_settled, is_settled_last};
use std::alloc::Global;
use trace_data::Trace;
use xdr_codec::Memory;

/// What a beginning breaks.
#[derive(Clone, Copy, Debug, PartialEq, Eq)]
pub enum Broken {
    /// Bytes that were made stable are lost.
    Settled,
    /// A read shows bytes that it may not show.
    Read,
    /// A read ends too early.
    Short,
}

/// The fewest entries that break a claim, of beginnings of at most so many, and the first claim that they break. Without such a
/// limit it is None exactly if the whole keeps each claim, though a beginning may break one; with one exactly if each
/// beginning of at most so many entries does.
pub fn first_broken(
    alloc: Global,
    trace: &Trace,
    limit: Option<usize>,
) -> Result<Option<(usize, Broken)>, Memory>
    ensures { (origin : Origin) → IsOrigin trace.now origin → IfOk result (FirstOf (modes_of trace.now) origin trace.now limit) }
{
    let digest = digest_of(alloc, trace)?;
    Ok(first_of(trace, &digest, limit))
}

/// The same by the digest.
fn first_of(trace: &Trace, digest: &Digest, limit: Option<usize>) -> Option<(usize, Broken)>
    ensures { (m : Modes) (origin : Origin) → Describes m origin trace.now digest.now → FirstOf m origin trace.now limit result }
{
    let entries = trace.entries.as_slice();
    if keeps_whole(trace, digest, limit, entries.len()) {
        return None;
    }
    first_up_to(trace, digest, most_of(limit, entries.len()))
}

/// Whether the whole, of so many entries, keeps each claim; false if a limit is given.
fn keeps_whole(trace: &Trace, digest: &Digest, limit: Option<usize>, count: usize) -> bool
    ensures { (m : Modes) (origin : Origin) → Describes m origin trace.now digest.now → count ≡ length trace.now.entries.items
        → KeepsWhole m origin trace.now limit result }
{
    match limit {
        Some(_) => false,
        None => keeps_all(trace, digest, count),
    }
}

/// Whether a beginning of so many entries keeps each claim.
fn keeps_all(trace: &Trace, digest: &Digest, total: usize) -> bool
    ensures { (m : Modes) (origin : Origin) → Describes m origin trace.now digest.now → total ≤ length trace.now.entries.items
        → Decides result (KeepsClaims m origin (beginning_of trace.now total)) }
{
    match breaks(trace, digest, total) {
        Some(_) => false,
        None => true,
    }
}

/// The lesser of a limit, if there is one, and a number of entries.
fn most_of(limit: Option<usize>, count: usize) -> usize
    ensures { result ≡ most_of limit count }
{
    match limit {
        Some(limit) => limit.min(count),
        None => count,
    }
}

/// The fewest entries that break a claim, of beginnings of at most so many.
fn first_up_to(trace: &Trace, digest: &Digest, most: usize) -> Option<(usize, Broken)>
    ensures { (m : Modes) (origin : Origin) → Describes m origin trace.now digest.now → most ≤ length trace.now.entries.items
        → FindsFirst m origin trace.now most result }
{
    let mut entry = 0;
    while entry < most {
        match newly_broken(trace, digest, entry) {
            Some(broken) => return Some((entry + 1, broken)),
            None => entry += 1,
        }
    }
    None
}

/// The first claim that a beginning of so many entries breaks.
fn breaks(trace: &Trace, digest: &Digest, total: usize) -> Option<Broken>
    ensures { (m : Modes) (origin : Origin) → Describes m origin trace.now digest.now → total ≤ length trace.now.entries.items
        → JudgesBeginning m origin trace.now total result }
{
    if !is_settled(trace, digest, total) {
        return Some(Broken::Settled);
    }
    if !all_show_well(trace, digest, total) {
        return Some(Broken::Read);
    }
    if !all_end_well(trace, digest, total) {
        return Some(Broken::Short);
    }
    None
}

/// Whether each read shows what it may.
fn all_show_well(trace: &Trace, digest: &Digest, total: usize) -> bool
    ensures { result ≡ all_show_well trace.now digest.now total }
{
    digest
        .readings
        .iter()
        .all(|read| shows_well(trace, digest, total, read))
}

/// Whether each read ends where it may.
fn all_end_well(trace: &Trace, digest: &Digest, total: usize) -> bool
    ensures { result ≡ all_end_well trace.now digest.now total }
{
    digest
        .readings
        .iter()
        .all(|read| ends_well(trace, digest, total, read))
}

/// The first claim that the beginning with an entry as its last breaks, if each shorter one keeps all: only what its last entry
/// settles, changes or answers can break one; but a write that is refused may have hidden a loss.
fn newly_broken(trace: &Trace, digest: &Digest, entry: usize) -> Option<Broken>
    requires { entry < 18446744073709551615 }
    ensures { (m : Modes) (origin : Origin) → Describes m origin trace.now digest.now → entry < length trace.now.entries.items
        → KeepsUpTo m origin trace.now entry → JudgesBeginning m origin trace.now (entry + 1) result }
{
    if refuses_write(digest, entry) {
        return breaks(trace, digest, entry + 1);
    }
    if !is_settled_last(trace, digest, entry) {
        return Some(Broken::Settled);
    }
    if !last_shows_well(trace, digest, entry) {
        return Some(Broken::Read);
    }
    if !last_ends_well(trace, digest, entry) {
        return Some(Broken::Short);
    }
    None
}

/// Whether an entry refuses a write or fill.
fn refuses_write(digest: &Digest, entry: usize) -> bool
    requires { entry < 18446744073709551615 }
    ensures { result ≡ refuses_write digest.now entry }
{
    let total = entry + 1;
    digest.operations.iter().any(|operation| {
        operation.course.is_write()
            && operation.course.ending.end == entry
            && operation.course.is_refused(total)
    })
}

/// Whether each read that an entry answers shows what it may.
fn last_shows_well(trace: &Trace, digest: &Digest, entry: usize) -> bool
    requires { entry < 18446744073709551615 }
    ensures { result ≡ last_shows_well trace.now digest.now entry }
{
    let total = entry + 1;
    digest.readings.iter().all(|read| read.end != entry || shows_well(trace, digest, total, read))
}

/// Whether each read that an entry answers ends where it may.
fn last_ends_well(trace: &Trace, digest: &Digest, entry: usize) -> bool
    requires { entry < 18446744073709551615 }
    ensures { result ≡ last_ends_well trace.now digest.now entry }
{
    let total = entry + 1;
    digest.readings.iter().all(|read| read.end != entry || ends_well(trace, digest, total, read))
}
