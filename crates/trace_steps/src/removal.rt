//! Names that leave (RFC 1813, sections 3.3.12 and 3.3.13).

ghost use Rattle.std.specs.Prelude.{◌≡◌, ◌<◌, length};
ghost use Rattle.trace_data.specs.Histories.{objects_after};
ghost use Rattle.trace_rules.specs.Decided.{any_below};
ghost use Rattle.trace_steps.specs.TurnTests.{turns};
ghost use Rattle.trace_steps.specs.NameTests.{lists_with};
ghost use Rattle.trace_steps.specs.MoveTests.{names_by, names_among, is_named, is_gone_so, loses_so, loses, removes_row, removes_at, removes_among, removes};

use crate::lists::{entries_of, is_without, list_of, names_it};
use crate::moments::{after, before, only};
use crate::turning::{shows_wcc, stays};
use nfs_types::{Handle, Name, Wcc};
use trace_data::{Contents, DirEntry, Object, Trace, Updated, objects_after};
use trace_rules::{same_bool, same_contents};

// ---- an object that lost a name

/// Whether an update's object names it, and so does what stands under that handle after the entry.
#[tactic(auto, unfolding(crate::specs::MoveTests::names_by))]
fn names_by(trace: &Trace, entry: usize, handle: &Handle, updated: &Updated) -> bool
    ensures { result ≡ names_by trace.now entry handle.now updated.now }
{
    let Some(then) = entries_of(&updated.object.contents) else {
        return false;
    };
    if !names_it(handle, then) {
        return false;
    }
    match list_of(after(trace, entry, &updated.handle)) {
        Some(entries) => names_it(handle, entries),
        None => false,
    }
}

#[tactic(auto, unfolding(crate::specs::MoveTests::names_among))]
fn names_among(trace: &Trace, entry: usize, handle: &Handle, objects: &[Updated]) -> bool
    ensures { result ≡ names_among trace.now entry handle.now objects.now }
{
    for updated in objects {
        if names_by(trace, entry, handle, updated) {
            return true;
        }
    }
    false
}

/// Whether a directory has a name for the object after the entry, other than `.` and `..`.
#[tactic(auto, using(trace_rules::proofs::Below::any_below_steps), unfolding(crate::specs::MoveTests::is_named))]
fn is_named(trace: &Trace, entry: usize, handle: &Handle) -> bool
    ensures { result ≡ is_named trace.now entry handle.now }
{
    if names_among(trace, entry, handle, trace.start.objects.as_slice())
        || names_among(
            trace,
            entry,
            handle,
            objects_after(trace.updates.as_slice(), entry),
        )
    {
        return true;
    }
    named_before(trace, entry, handle)
}

/// The same of the updates before the entry.
#[tactic(auto, using(trace_rules::proofs::Below::any_below_steps))]
fn named_before(trace: &Trace, entry: usize, handle: &Handle) -> bool
    ensures { result ≡ any_below (λ j. names_among trace.now entry handle.now (objects_after trace.now.updates.items j)) entry }
{
    let mut at = 0;
    while at < entry {
        if names_among(
            trace,
            entry,
            handle,
            objects_after(trace.updates.as_slice(), at),
        ) {
            return true;
        }
        at += 1;
    }
    false
}

fn is_gone_so(named: bool, was: bool, is: bool) -> bool
    ensures { result ≡ is_gone_so named was is }
{
    if named { same_bool(is, was) } else { is }
}

#[tactic(auto, unfolding(crate::specs::MoveTests::loses_so))]
fn loses_so(trace: &Trace, entry: usize, handle: &Handle, old: &Object, new: &Object) -> bool
    ensures { result ≡ loses_so trace.now entry handle.now old.now new.now }
{
    same_contents(&old.contents, &new.contents)
        && new.attr.kind == old.attr.kind
        && new.attr.fileid == old.attr.fileid
        && is_gone_so(is_named(trace, entry, handle), old.gone, new.gone)
}

/// Whether an object holds what it held, and is gone if it has no name left.
#[tactic(auto, unfolding(crate::specs::MoveTests::loses))]
pub(crate) fn loses(trace: &Trace, entry: usize, handle: &Handle) -> bool
    ensures { result ≡ loses trace.now entry handle.now }
{
    let Some(old) = before(trace, entry, handle) else {
        return false;
    };
    match after(trace, entry, handle) {
        Some(new) => loses_so(trace, entry, handle, old, new),
        None => false,
    }
}

// ---- REMOVE and RMDIR

#[tactic(auto, unfolding(crate::specs::MoveTests::removes_row))]
fn removes_row(
    trace: &Trace,
    entry: usize,
    dir: &Handle,
    name: &Name,
    old: &[DirEntry],
    new: &[DirEntry],
    place: usize,
    row: &DirEntry,
) -> bool
    requires { place < length old.now }
    ensures { result ≡ removes_row trace.now entry dir.now name.now old.now new.now place row.now }
{
    row.name == *name
        && is_without(place, old, new)
        && loses(trace, entry, &row.object)
        && only(trace, entry, dir, &row.object, &row.object)
}

#[tactic(auto, unfolding(crate::specs::MoveTests::removes_at))]
fn removes_at(
    trace: &Trace,
    entry: usize,
    dir: &Handle,
    name: &Name,
    old: &[DirEntry],
    new: &[DirEntry],
    place: usize,
) -> bool
    requires { place < length old.now }
    ensures { result ≡ removes_at trace.now entry dir.now name.now old.now new.now place }
{
    removes_row(trace, entry, dir, name, old, new, place, &old[place])
}

/// Whether the name left the list at some place.
#[tactic(auto, using(trace_rules::proofs::Below::any_below_steps), unfolding(crate::specs::MoveTests::removes_among))]
fn removes_among(
    trace: &Trace,
    entry: usize,
    dir: &Handle,
    name: &Name,
    old: &[DirEntry],
    new: &[DirEntry],
) -> bool
    ensures { result ≡ removes_among trace.now entry dir.now name.now old.now new.now }
{
    let mut place = 0;
    while place < old.len() {
        if removes_at(trace, entry, dir, name, old, new, place) {
            return true;
        }
        place += 1;
    }
    false
}

fn removes_in(
    trace: &Trace,
    entry: usize,
    dir: &Handle,
    name: &Name,
    old: &Contents,
    new: &Contents,
) -> bool
    ensures { result ≡ lists_with (λ before after. removes_among trace.now entry dir.now name.now before after) old.now new.now }
{
    match old {
        Contents::Directory { entries: before } => match new {
            Contents::Directory { entries: after } => {
                removes_among(trace, entry, dir, name, before.as_slice(), after.as_slice())
            }
            _ => false,
        },
        _ => false,
    }
}

#[tactic(auto, unfolding(crate::specs::TurnTests::turns))]
fn drops_name(trace: &Trace, entry: usize, dir: &Handle, name: &Name) -> bool
    ensures { result ≡ turns (lists_with (λ before after. removes_among trace.now entry dir.now name.now before after)) trace.now entry dir.now }
{
    let Some(old) = before(trace, entry, dir) else {
        return false;
    };
    match after(trace, entry, dir) {
        Some(new) => {
            stays(old, new) && removes_in(trace, entry, dir, name, &old.contents, &new.contents)
        }
        None => false,
    }
}

/// Whether a name is removed.
#[tactic(auto, unfolding(crate::specs::MoveTests::removes))]
pub(crate) fn removes(trace: &Trace, entry: usize, dir: &Handle, name: &Name, wcc: &Wcc) -> bool
    ensures { result ≡ removes trace.now entry dir.now name.now wcc.now }
{
    drops_name(trace, entry, dir, name) && shows_wcc(trace, entry, dir, wcc)
}
