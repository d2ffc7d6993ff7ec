//! What other clients changed.

ghost use Rattle.std.specs.Prelude.{◌≡◌, ◌<◌, ◌+◌, ◌++◌, IfOk, length};
ghost use Rattle.trace_claims.specs.Changes.{set_kept, is_set, cut_from, file_change, made_kept, is_made, size_of, made_as, made_by, entries_of};
ghost use Rattle.trace_claims.specs.Changes.{listing_of, listed_at, cut_of, change_list, ChangesUpTo, AddsChanges, AddsOfCall, AddsMade, AddsNamed};
ghost use Rattle.trace_claims.specs.Changes.{range_of};

use crate::touched::{Foreign, Reach};
use nfs_dir_calls::{DirCall, DirKept, Making};
use nfs_file_calls::{FileCall, FileKept};
use nfs_types::{Handle, Name};
use std::alloc::Global;
use trace_data::{Contents, DirEntry, Object, Trace, object_at};
use world_model::{Call, Entry, Reply};
use xdr_codec::Memory;

/// All changes by other clients, in order.
pub(crate) fn all_foreign(alloc: Global, trace: &Trace) -> Result<Vec<Foreign>, Memory>
    ensures { IfOk result (λ all. ChangesUpTo trace.now (length trace.now.entries.items) all.items) }
{
    collect(alloc, trace, trace.entries.as_slice())
}

fn collect(alloc: Global, trace: &Trace, entries: &[Entry]) -> Result<Vec<Foreign>, Memory>
    requires { entries.now ≡ trace.now.entries.items }
    ensures { IfOk result (λ all. ChangesUpTo trace.now (length entries.now) all.items) }
{
    let mut all = Vec::new(alloc);
    let mut place = 0;
    while place < entries.len() {
        let after = place + 1;
        add_changes(&mut all, trace, &entries[place], place, after)?;
        place = after;
    }
    Ok(all)
}

/// Adds the changes by a call of another client.
fn add_changes(
    all: &mut Vec<Foreign>,
    trace: &Trace,
    entry: &Entry,
    place: usize,
    after: usize,
) -> Result<(), Memory>
    ensures { IfOk result (λ done. AddsChanges trace.now entry.now place after all.old.items all.new.items) }
{
    match entry {
        Entry::Foreign { call, reply } => add_of_call(all, trace, place, after, call, reply),
        _ => Ok(()),
    }
}

fn add_of_call(
    all: &mut Vec<Foreign>,
    trace: &Trace,
    place: usize,
    after: usize,
    call: &Call,
    reply: &Reply,
) -> Result<(), Memory>
    ensures { IfOk result (λ done. AddsOfCall trace.now call.now reply.now place after all.old.items all.new.items) }
{
    match call {
        Call::File(call) => add_change(all, file_change(place, call, reply)),
        Call::Dir(call) => add_made(all, trace, place, after, made_by(call, reply)),
        Call::Mount(_) => Ok(()),
    }
}

fn add_change(all: &mut Vec<Foreign>, found: Option<Foreign>) -> Result<(), Memory>
    ensures { IfOk result (λ done. all.new.items ≡ all.old.items ++ change_list found) }
{
    if let Some(change) = found {
        all.push(change)?;
    }
    Ok(())
}

/// The change by a WRITE, whatever it was answered, or by a SETATTR of a size that succeeded.
fn file_change(place: usize, call: &FileCall, reply: &Reply) -> Option<Foreign>
    ensures { result ≡ file_change place call.now reply.now }
{
    match call {
        FileCall::Write {
            file,
            offset,
            bytes,
            ..
        } => Some(Foreign {
            place,
            file: *file,
            reach: range(*offset, bytes.bytes().len()),
        }),
        FileCall::SetAttr { file, set, .. } => {
            if is_set(reply) {
                cut_from(place, file, set.size)
            } else {
                None
            }
        }
        _ => None,
    }
}

fn range(offset: u64, length: usize) -> Reach
    ensures { result ≡ range_of offset length }
{
    let from = u128::from(offset);
    Reach::Range {
        from,
        to: from + length as u128,
    }
}

/// Whether a reply says that a SETATTR succeeded.
fn is_set(reply: &Reply) -> bool
    ensures { result ≡ is_set reply.now }
{
    match reply {
        Reply::File(reply) => set_kept(reply),
        _ => false,
    }
}

fn set_kept(reply: &FileKept) -> bool
    ensures { result ≡ set_kept reply.now }
{
    match reply {
        FileKept::SetAttr { .. } => true,
        _ => false,
    }
}

/// The cut of a file by a size that was set.
fn cut_from(place: usize, file: &Handle, size: Option<u64>) -> Option<Foreign>
    ensures { result ≡ cut_from place file.now size }
{
    match size {
        Some(size) => Some(Foreign {
            place,
            file: *file,
            reach: Reach::Past {
                size: u128::from(size),
            },
        }),
        None => None,
    }
}

/// A name that a CREATE gave, and the size that it set.
#[derive(Clone, Copy, Debug)]
struct Made {
    dir: Handle,
    name: Name,
    size: u64,
}

/// What a CREATE made that succeeded and set a size.
fn made_by(call: &DirCall, reply: &Reply) -> Option<Made>
    ensures { result ≡ made_by call.now reply.now }
{
    match call {
        DirCall::Create { dir, name, making } => {
            if is_made(reply) {
                made_as(dir, name, size_of(making))
            } else {
                None
            }
        }
        _ => None,
    }
}

/// Whether a reply says that a CREATE succeeded.
fn is_made(reply: &Reply) -> bool
    ensures { result ≡ is_made reply.now }
{
    match reply {
        Reply::Dir(reply) => made_kept(reply),
        _ => false,
    }
}

fn made_kept(reply: &DirKept) -> bool
    ensures { result ≡ made_kept reply.now }
{
    match reply {
        DirKept::Create { .. } => true,
        _ => false,
    }
}

fn size_of(making: &Making) -> Option<u64>
    ensures { result ≡ size_of making.now }
{
    match making {
        Making::Unchecked(set) => set.size,
        _ => None,
    }
}

fn made_as(dir: &Handle, name: &Name, size: Option<u64>) -> Option<Made>
    ensures { result ≡ made_as dir.now name.now size }
{
    match size {
        Some(size) => Some(Made {
            dir: *dir,
            name: *name,
            size,
        }),
        None => None,
    }
}

/// Adds the cut of each file that has the name after the entry.
fn add_made(
    all: &mut Vec<Foreign>,
    trace: &Trace,
    place: usize,
    after: usize,
    made: Option<Made>,
) -> Result<(), Memory>
    ensures { IfOk result (λ done. AddsMade trace.now made place after all.old.items all.new.items) }
{
    match made {
        Some(made) => add_named(all, listed_at(trace, after, &made.dir), place, &made),
        None => Ok(()),
    }
}

/// The entries of a directory that is there at a moment.
#[tactic(auto, unfolding(crate::specs::Changes::listed_at))]
fn listed_at<'a>(trace: &'a Trace, moment: usize, dir: &Handle) -> &'a [DirEntry]
    ensures { result.now ≡ listed_at trace.entry.now moment dir.now }
{
    match object_at(
        trace.start.objects.as_slice(),
        trace.updates.as_slice(),
        moment,
        dir,
    ) {
        Some(object) => listing_of(object),
        None => &[],
    }
}

fn listing_of(object: &Object) -> &[DirEntry]
    ensures { result.now ≡ listing_of object.entry.now }
{
    if object.gone {
        &[]
    } else {
        entries_of(&object.contents)
    }
}

fn entries_of(contents: &Contents) -> &[DirEntry]
    ensures { result.now ≡ entries_of contents.entry.now }
{
    match contents {
        Contents::Directory { entries } => entries.as_slice(),
        _ => &[],
    }
}

fn add_named(
    all: &mut Vec<Foreign>,
    listed: &[DirEntry],
    place: usize,
    made: &Made,
) -> Result<(), Memory>
    ensures { IfOk result (λ done. AddsNamed listed.now place made.now (length listed.now) all.old.items all.new.items) }
{
    let mut at = 0;
    while at < listed.len() {
        add_change(all, cut_of(&listed[at], place, made))?;
        at += 1;
    }
    Ok(())
}

/// The cut of the file of a directory's entry, if it has the name.
fn cut_of(entry: &DirEntry, place: usize, made: &Made) -> Option<Foreign>
    ensures { result ≡ cut_of entry.now place made.now }
{
    if entry.name == made.name {
        cut_from(place, &entry.object, Some(made.size))
    } else {
        None
    }
}
