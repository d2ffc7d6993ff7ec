//! Names that move (RFC 1813, section 3.3.14).

ghost use Rattle.std.specs.Prelude.{◌≡◌, ◌<◌, length, IfOk};
ghost use Rattle.trace_data.specs.Histories.{objects_after};
ghost use Rattle.trace_rules.specs.Decided.{any_below};
ghost use Rattle.trace_steps.specs.MomentTests.{spares, spares_at, only};
ghost use Rattle.trace_steps.specs.TurnTests.{turns};
ghost use Rattle.trace_steps.specs.ListTests.{without, is_without};
ghost use Rattle.trace_steps.specs.NameTests.{lists_with};
ghost use Rattle.trace_steps.specs.MoveTests.{clears_at, clears, replaces_row, replaces_at, replaces, moves, is_moved, replaced, is_touched, renames_row, renames_at, renames_among, moves_name, keeps_row, keeps_one, keeps_names, renames, refuses_rename};

use crate::file_service::refuses;
use crate::lists::{
    all_in, has_entry, is_entry, is_without, lacks, list_there, same_entries, without,
};
use crate::moments::{after, before, only};
use crate::name_service::had_name;
use crate::removal::loses;
use crate::turning::{reads, showed_wcc, shows_wcc, stays};
use nfs_types::{Handle, Name, Status, Wcc};
use std::alloc::Global;
use trace_data::{Contents, DirEntry, Trace, Updated, objects_after};
use trace_rules::{keeps, keeps_verf, same_contents};
use xdr_codec::Memory;

// ---- lists

/// Whether `new` is `old` without the entry at a place, which has the name.
#[tactic(auto, unfolding(crate::specs::MoveTests::clears_at))]
fn clears_at(name: &Name, old: &[DirEntry], new: &[DirEntry], place: usize) -> bool
    requires { place < length old.now }
    ensures { result ≡ clears_at name.now old.now new.now place }
{
    old[place].name == *name && is_without(place, old, new)
}

/// The same at some place.
#[tactic(auto, using(trace_rules::proofs::Below::any_below_steps))]
fn clears_some(name: &Name, old: &[DirEntry], new: &[DirEntry]) -> bool
    ensures { result ≡ any_below (λ k. clears_at name.now old.now new.now k) (length old.now) }
{
    let mut place = 0;
    while place < old.len() {
        if clears_at(name, old, new, place) {
            return true;
        }
        place += 1;
    }
    false
}

/// Whether `new` is `old` without the name, if it has it.
#[tactic(auto, unfolding(crate::specs::MoveTests::clears))]
fn clears(name: &Name, old: &[DirEntry], new: &[DirEntry]) -> bool
    ensures { result ≡ clears name.now old.now new.now }
{
    lacks(name, old) && same_entries(new, old) || clears_some(name, old, new)
}

/// Whether the name entered at a place for the object, and what had it before left.
#[tactic(auto, unfolding(crate::specs::MoveTests::replaces_row))]
fn replaces_row(
    alloc: Global,
    name: &Name,
    handle: &Handle,
    old: &[DirEntry],
    new: &[DirEntry],
    place: usize,
    row: &DirEntry,
) -> Result<bool, Memory>
    requires { place < length new.now }
    ensures { IfOk result (λ b. b ≡ replaces_row name.now handle.now old.now new.now place row.now) }
{
    if !is_entry(name, handle, row) {
        return Ok(false);
    }
    let rest = without(alloc, place, new)?;
    Ok(lacks(name, rest.as_slice()) && clears(name, old, rest.as_slice()))
}

#[tactic(auto, unfolding(crate::specs::MoveTests::replaces_at))]
fn replaces_at(
    alloc: Global,
    name: &Name,
    handle: &Handle,
    old: &[DirEntry],
    new: &[DirEntry],
    place: usize,
) -> Result<bool, Memory>
    requires { place < length new.now }
    ensures { IfOk result (λ b. b ≡ replaces_at name.now handle.now old.now new.now place) }
{
    replaces_row(alloc, name, handle, old, new, place, &new[place])
}

#[tactic(auto, using(trace_rules::proofs::Below::any_below_steps), unfolding(crate::specs::MoveTests::replaces))]
fn replaces(
    alloc: Global,
    name: &Name,
    handle: &Handle,
    old: &[DirEntry],
    new: &[DirEntry],
) -> Result<bool, Memory>
    ensures { IfOk result (λ b. b ≡ replaces name.now handle.now old.now new.now) }
{
    let mut place = 0;
    while place < new.len() {
        if replaces_at(alloc, name, handle, old, new, place)? {
            return Ok(true);
        }
        place += 1;
    }
    Ok(false)
}

fn replaces_in(
    alloc: Global,
    name: &Name,
    handle: &Handle,
    old: &Contents,
    new: &Contents,
) -> Result<bool, Memory>
    ensures { IfOk result (λ b. b ≡ lists_with (λ before after. replaces name.now handle.now before after) old.now new.now) }
{
    match old {
        Contents::Directory { entries: before } => match new {
            Contents::Directory { entries: after } => {
                replaces(alloc, name, handle, before.as_slice(), after.as_slice())
            }
            _ => Ok(false),
        },
        _ => Ok(false),
    }
}

/// The same of a list from which the entry at a place has left.
fn moves_among(
    alloc: Global,
    name: &Name,
    handle: &Handle,
    place: usize,
    old: &[DirEntry],
    new: &[DirEntry],
) -> Result<bool, Memory>
    ensures { IfOk result (λ b. b ≡ replaces name.now handle.now (without place old.now) new.now) }
{
    let less = left(alloc, place, old)?;
    replaces(alloc, name, handle, less.as_slice(), new)
}

/// The list without the entry at a place, if there is one.
fn left(alloc: Global, place: usize, entries: &[DirEntry]) -> Result<Vec<DirEntry>, Memory>
    ensures { IfOk result (λ rest. rest.items ≡ without place entries.now) }
{
    if place < entries.len() {
        without(alloc, place, entries)
    } else {
        whole(alloc, entries)
    }
}

fn whole(alloc: Global, entries: &[DirEntry]) -> Result<Vec<DirEntry>, Memory>
    ensures { IfOk result (λ rest. rest.items ≡ entries.now) }
{
    let mut rest = Vec::new(alloc);
    rest.extend_from_slice(entries)?;
    Ok(rest)
}

fn moves_in(
    alloc: Global,
    name: &Name,
    handle: &Handle,
    place: usize,
    old: &Contents,
    new: &Contents,
) -> Result<bool, Memory>
    ensures { IfOk result (λ b. b ≡ lists_with (λ before after. replaces name.now handle.now (without place before) after) old.now new.now) }
{
    match old {
        Contents::Directory { entries: before } => match new {
            Contents::Directory { entries: after } => moves_among(
                alloc,
                name,
                handle,
                place,
                before.as_slice(),
                after.as_slice(),
            ),
            _ => Ok(false),
        },
        _ => Ok(false),
    }
}

fn drops_in(place: usize, old: &Contents, new: &Contents) -> bool
    ensures { result ≡ lists_with (λ before after. is_without place before after) old.now new.now }
{
    match old {
        Contents::Directory { entries: before } => match new {
            Contents::Directory { entries: after } => {
                is_left(place, before.as_slice(), after.as_slice())
            }
            _ => false,
        },
        _ => false,
    }
}

fn is_left(place: usize, long: &[DirEntry], short: &[DirEntry]) -> bool
    ensures { result ≡ is_without place long.now short.now }
{
    if place < long.len() {
        is_without(place, long, short)
    } else {
        same_entries(short, long)
    }
}

// ---- the directories

#[tactic(auto, unfolding(crate::specs::TurnTests::turns))]
fn turns_within(
    alloc: Global,
    trace: &Trace,
    entry: usize,
    dir: &Handle,
    name: &Name,
    handle: &Handle,
    place: usize,
) -> Result<bool, Memory>
    ensures { IfOk result (λ b. b ≡ turns (lists_with (λ old new. replaces name.now handle.now (without place old) new)) trace.now entry dir.now) }
{
    let Some(old) = before(trace, entry, dir) else {
        return Ok(false);
    };
    let Some(new) = after(trace, entry, dir) else {
        return Ok(false);
    };
    if !stays(old, new) {
        return Ok(false);
    }
    moves_in(alloc, name, handle, place, &old.contents, &new.contents)
}

#[tactic(auto, unfolding(crate::specs::TurnTests::turns))]
fn turns_target(
    alloc: Global,
    trace: &Trace,
    entry: usize,
    dir: &Handle,
    name: &Name,
    handle: &Handle,
) -> Result<bool, Memory>
    ensures { IfOk result (λ b. b ≡ turns (lists_with (λ old new. replaces name.now handle.now old new)) trace.now entry dir.now) }
{
    let Some(old) = before(trace, entry, dir) else {
        return Ok(false);
    };
    let Some(new) = after(trace, entry, dir) else {
        return Ok(false);
    };
    if !stays(old, new) {
        return Ok(false);
    }
    replaces_in(alloc, name, handle, &old.contents, &new.contents)
}

#[tactic(auto, unfolding(crate::specs::TurnTests::turns))]
fn turns_source(trace: &Trace, entry: usize, dir: &Handle, place: usize) -> bool
    ensures { result ≡ turns (lists_with (λ old new. is_without place old new)) trace.now entry dir.now }
{
    let Some(old) = before(trace, entry, dir) else {
        return false;
    };
    match after(trace, entry, dir) {
        Some(new) => stays(old, new) && drops_in(place, &old.contents, &new.contents),
        None => false,
    }
}

/// Whether the lists of the two directories are as a move leaves them.
#[tactic(auto, unfolding(crate::specs::MoveTests::moves))]
fn moves(
    alloc: Global,
    trace: &Trace,
    entry: usize,
    from_dir: &Handle,
    to_dir: &Handle,
    to: &Name,
    place: usize,
    handle: &Handle,
) -> Result<bool, Memory>
    ensures { IfOk result (λ b. b ≡ moves trace.now entry from_dir.now to_dir.now to.now place handle.now) }
{
    if *from_dir == *to_dir {
        return turns_within(alloc, trace, entry, from_dir, to, handle, place);
    }
    if !turns_source(trace, entry, from_dir, place) {
        return Ok(false);
    }
    turns_target(alloc, trace, entry, to_dir, to, handle)
}

// ---- the object that moves, and what it replaces

fn is_moved(old: &Contents, new: &Contents) -> bool
    ensures { result ≡ is_moved old.now new.now }
{
    match old {
        Contents::Directory { entries: before } => match new {
            Contents::Directory { entries: after } => {
                all_in(before.as_slice(), after.as_slice())
                    && all_in(after.as_slice(), before.as_slice())
            }
            _ => false,
        },
        _ => same_contents(old, new),
    }
}

#[tactic(auto, unfolding(crate::specs::TurnTests::turns))]
fn turns_moved(trace: &Trace, entry: usize, handle: &Handle) -> bool
    ensures { result ≡ turns is_moved trace.now entry handle.now }
{
    let Some(old) = before(trace, entry, handle) else {
        return false;
    };
    match after(trace, entry, handle) {
        Some(new) => stays(old, new) && is_moved(&old.contents, &new.contents),
        None => false,
    }
}

/// Whether each object that had the new name lost it, but the one that moves.
#[tactic(auto, unfolding(crate::specs::MoveTests::replaced))]
fn replaced(trace: &Trace, entry: usize, to: &Name, handle: &Handle, target: &[DirEntry]) -> bool
    ensures { result ≡ replaced trace.now entry to.now handle.now target.now }
{
    for row in target {
        if !(row.name != *to || row.object == *handle || loses(trace, entry, &row.object)) {
            return false;
        }
    }
    true
}

/// Whether the entry leaves each object as it was but the directories, the object and those that had the new name.
#[tactic(auto, using(trace_rules::proofs::Below::all_below_steps), unfolding(crate::specs::MomentTests::only))]
fn only_these(
    trace: &Trace,
    entry: usize,
    from_dir: &Handle,
    to_dir: &Handle,
    object: &Handle,
    to: &Name,
    target: &[DirEntry],
) -> bool
    ensures { result ≡ only (is_touched from_dir.now to_dir.now object.now to.now target.now) trace.now entry }
{
    if !keeps_verf(trace.start.verf, trace.updates.as_slice(), entry) {
        return false;
    }
    let objects = objects_after(trace.updates.as_slice(), entry);
    let mut place = 0;
    while place < objects.len() {
        if !spares_at(
            trace, entry, from_dir, to_dir, object, to, target, objects, place,
        ) {
            return false;
        }
        place += 1;
    }
    true
}

#[tactic(auto, unfolding(crate::specs::MomentTests::spares_at))]
fn spares_at(
    trace: &Trace,
    entry: usize,
    from_dir: &Handle,
    to_dir: &Handle,
    object: &Handle,
    to: &Name,
    target: &[DirEntry],
    objects: &[Updated],
    place: usize,
) -> bool
    requires within { place < length objects.now }
    requires of { objects.now ≡ objects_after trace.now.updates.items entry }
    ensures { result ≡ spares_at (is_touched from_dir.now to_dir.now object.now to.now target.now) trace.now entry place }
{
    spares(
        trace,
        entry,
        from_dir,
        to_dir,
        object,
        to,
        target,
        &objects[place].handle,
    )
}

#[tactic(auto, unfolding(crate::specs::MomentTests::spares))]
fn spares(
    trace: &Trace,
    entry: usize,
    from_dir: &Handle,
    to_dir: &Handle,
    object: &Handle,
    to: &Name,
    target: &[DirEntry],
    handle: &Handle,
) -> bool
    ensures { result ≡ spares (is_touched from_dir.now to_dir.now object.now to.now target.now) trace.now entry handle.now }
{
    *handle == *from_dir
        || *handle == *to_dir
        || *handle == *object
        || has_entry(to, handle, target)
        || keeps(
            trace.start.objects.as_slice(),
            trace.updates.as_slice(),
            entry,
            handle,
        )
}

// ---- RENAME

#[tactic(auto, unfolding(crate::specs::MoveTests::renames_row))]
fn renames_row(
    alloc: Global,
    trace: &Trace,
    entry: usize,
    from_dir: &Handle,
    from: &Name,
    to_dir: &Handle,
    to: &Name,
    target: &[DirEntry],
    place: usize,
    row: &DirEntry,
) -> Result<bool, Memory>
    ensures { IfOk result (λ b. b ≡ renames_row trace.now entry from_dir.now from.now to_dir.now to.now target.now place row.now) }
{
    if row.name != *from {
        return Ok(false);
    }
    if !moves(
        alloc,
        trace,
        entry,
        from_dir,
        to_dir,
        to,
        place,
        &row.object,
    )? {
        return Ok(false);
    }
    Ok(
        turns_moved(trace, entry, &row.object)
            && replaced(trace, entry, to, &row.object, target)
            && only_these(trace, entry, from_dir, to_dir, &row.object, to, target),
    )
}

#[tactic(auto, unfolding(crate::specs::MoveTests::renames_at))]
fn renames_at(
    alloc: Global,
    trace: &Trace,
    entry: usize,
    from_dir: &Handle,
    from: &Name,
    to_dir: &Handle,
    to: &Name,
    target: &[DirEntry],
    source: &[DirEntry],
    place: usize,
) -> Result<bool, Memory>
    requires { place < length source.now }
    ensures { IfOk result (λ b. b ≡ renames_at trace.now entry from_dir.now from.now to_dir.now to.now target.now source.now place) }
{
    renames_row(
        alloc,
        trace,
        entry,
        from_dir,
        from,
        to_dir,
        to,
        target,
        place,
        &source[place],
    )
}

#[tactic(auto, using(trace_rules::proofs::Below::any_below_steps), unfolding(crate::specs::MoveTests::renames_among))]
fn renames_among(
    alloc: Global,
    trace: &Trace,
    entry: usize,
    from_dir: &Handle,
    from: &Name,
    to_dir: &Handle,
    to: &Name,
    target: &[DirEntry],
    source: &[DirEntry],
) -> Result<bool, Memory>
    ensures { IfOk result (λ b. b ≡ renames_among trace.now entry from_dir.now from.now to_dir.now to.now target.now source.now) }
{
    let mut place = 0;
    while place < source.len() {
        if renames_at(
            alloc, trace, entry, from_dir, from, to_dir, to, target, source, place,
        )? {
            return Ok(true);
        }
        place += 1;
    }
    Ok(false)
}

/// Whether a name moves.
#[tactic(auto, unfolding(crate::specs::MoveTests::moves_name))]
fn moves_name(
    alloc: Global,
    trace: &Trace,
    entry: usize,
    from_dir: &Handle,
    from: &Name,
    to_dir: &Handle,
    to: &Name,
) -> Result<bool, Memory>
    ensures { IfOk result (λ b. b ≡ moves_name trace.now entry from_dir.now from.now to_dir.now to.now) }
{
    let Some(target) = list_there(before(trace, entry, to_dir)) else {
        return Ok(false);
    };
    let Some(source) = list_there(before(trace, entry, from_dir)) else {
        return Ok(false);
    };
    renames_among(
        alloc, trace, entry, from_dir, from, to_dir, to, target, source,
    )
}

#[tactic(auto, unfolding(crate::specs::MoveTests::keeps_row))]
fn keeps_row(
    trace: &Trace,
    entry: usize,
    from_dir: &Handle,
    from: &Name,
    to_dir: &Handle,
    to: &Name,
    row: &DirEntry,
) -> bool
    ensures { result ≡ keeps_row trace.now entry from_dir.now from.now to_dir.now to.now row.now }
{
    row.name == *from
        && had_name(trace, entry, to_dir, to, &row.object)
        && reads(trace, entry, &row.object)
        && only(trace, entry, from_dir, to_dir, &row.object)
}

#[tactic(auto, unfolding(crate::specs::MoveTests::keeps_one))]
fn keeps_one(
    trace: &Trace,
    entry: usize,
    from_dir: &Handle,
    from: &Name,
    to_dir: &Handle,
    to: &Name,
    rows: &[DirEntry],
) -> bool
    ensures { result ≡ keeps_one trace.now entry from_dir.now from.now to_dir.now to.now rows.now }
{
    for row in rows {
        if keeps_row(trace, entry, from_dir, from, to_dir, to, row) {
            return true;
        }
    }
    false
}

/// Whether both names are of one object, and nothing changes.
#[tactic(auto, unfolding(crate::specs::MoveTests::keeps_names))]
fn keeps_names(
    trace: &Trace,
    entry: usize,
    from_dir: &Handle,
    from: &Name,
    to_dir: &Handle,
    to: &Name,
) -> bool
    ensures { result ≡ keeps_names trace.now entry from_dir.now from.now to_dir.now to.now }
{
    match list_there(before(trace, entry, from_dir)) {
        Some(rows) => {
            keeps_one(trace, entry, from_dir, from, to_dir, to, rows)
                && reads(trace, entry, from_dir)
                && reads(trace, entry, to_dir)
        }
        None => false,
    }
}

/// Whether a name moves, or both names are of one object.
#[tactic(auto, unfolding(crate::specs::MoveTests::renames))]
pub(crate) fn renames(
    alloc: Global,
    trace: &Trace,
    entry: usize,
    from_dir: &Handle,
    from: &Name,
    to_dir: &Handle,
    to: &Name,
    source: &Wcc,
    target: &Wcc,
) -> Result<bool, Memory>
    ensures { IfOk result (λ b. b ≡ renames trace.now entry from_dir.now from.now to_dir.now to.now source.now target.now) }
{
    let moved = moves_name(alloc, trace, entry, from_dir, from, to_dir, to)?;
    Ok(
        (moved || keeps_names(trace, entry, from_dir, from, to_dir, to))
            && shows_wcc(trace, entry, from_dir, source)
            && shows_wcc(trace, entry, to_dir, target),
    )
}

/// Whether a RENAME is refused.
#[tactic(auto, unfolding(crate::specs::MoveTests::refuses_rename))]
pub(crate) fn refuses_rename(
    trace: &Trace,
    entry: usize,
    status: &Status,
    from_dir: &Handle,
    source: &Wcc,
    to_dir: &Handle,
    target: &Wcc,
) -> bool
    ensures { result ≡ refuses_rename trace.now entry status.now from_dir.now source.now to_dir.now target.now }
{
    refuses(trace, entry, status)
        && showed_wcc(trace, entry, from_dir, source)
        && showed_wcc(trace, entry, to_dir, target)
}
