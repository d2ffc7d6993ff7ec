//! The list of a directory after a line.

ghost use Rattle.std.specs.Prelude.{◌≡◌, IfOk, OnOk, map, position};
ghost use Rattle.std.specs.Option.{option_map};
ghost use Rattle.trace_data.specs.Histories.{listed_of, object_of};
ghost use Rattle.trace_data.specs.Histories.{holds_of as held};
ghost use Rattle.trace_text.specs.Objects.{comes_before, list_in, listed_in, listed_object_of, listing, placed, unlisted, unlisted_in, unlisted_object_of, with_list, without};
ghost use Rattle.trace_text.specs.Told.{object_now, told_by};
ghost use Rattle.trace_text.specs.Words.{Gives};

use crate::draft::Draft;
use crate::fault::LineFault;
use nfs_types::{Handle, Name};
use std::alloc::Global;
use trace_data::{Contents, DirEntry, Object};
use xdr_codec::Memory;

/// The directory with this entry, in place of the one of its name.
pub(crate) fn listed_object(
    alloc: Global,
    draft: &Draft,
    dir: &Handle,
    entry: &DirEntry,
) -> Result<Object, LineFault>
    ensures { Gives object_of result (listed_object_of (listed_of entry.now) (object_now (told_by draft.now) dir.now)) }
{
    if entry.cookie == 0 {
        return Err(LineFault::Form);
    }
    match draft.object(dir) {
        Some(was) => listed_in(alloc, was, entry),
        None => Err(LineFault::Form),
    }
}

fn listed_in(alloc: Global, was: &Object, entry: &DirEntry) -> Result<Object, LineFault>
    ensures { Gives object_of result (listed_in (listed_of entry.now) (object_of was.now)) }
{
    match entries_of(was) {
        Some(list) => Ok(directory(was, with(alloc, list, entry)?)),
        None => Err(LineFault::Form),
    }
}

/// The directory without the entry of a name that it has.
pub(crate) fn unlisted_object(
    alloc: Global,
    draft: &Draft,
    dir: &Handle,
    name: &Name,
) -> Result<Object, LineFault>
    ensures { Gives object_of result (unlisted_object_of name.now (object_now (told_by draft.now) dir.now)) }
{
    match draft.object(dir) {
        Some(was) => unlisted_in(alloc, was, name),
        None => Err(LineFault::Form),
    }
}

fn unlisted_in(alloc: Global, was: &Object, name: &Name) -> Result<Object, LineFault>
    ensures { Gives object_of result (unlisted_in name.now (object_of was.now)) }
{
    match entries_of(was) {
        Some(list) => Ok(directory(was, fewer(alloc, list, name)?)),
        None => Err(LineFault::Form),
    }
}

/// The list of a directory.
fn entries_of(object: &Object) -> Option<&[DirEntry]>
    ensures { option_map (λ list. map listed_of list.now) result ≡ list_in (held object.entry.now.contents) }
{
    match &object.contents {
        Contents::Directory { entries } => Some(entries.as_slice()),
        _ => None,
    }
}

/// A directory with another list.
fn directory(was: &Object, entries: Vec<DirEntry>) -> Object
    ensures { object_of result ≡ with_list (object_of was.now) (map listed_of entries.items) }
{
    Object {
        attr: was.attr,
        gone: was.gone,
        contents: Contents::Directory { entries },
    }
}

/// The list with this entry, in place of the one of its name.
fn with(alloc: Global, list: &[DirEntry], entry: &DirEntry) -> Result<Vec<DirEntry>, Memory>
    ensures { IfOk result (λ later. map listed_of later.items ≡ listing (listed_of entry.now) (map listed_of list.now)) }
{
    let mut later = without(alloc, list, &entry.name)?;
    place(&mut later, entry)?;
    Ok(later)
}

/// Puts an entry before the first that it comes before.
fn place(list: &mut Vec<DirEntry>, entry: &DirEntry) -> Result<(), Memory>
    ensures { OnOk result (map listed_of list.new.items ≡ placed (listed_of entry.now) (map listed_of list.old.items)) }
{
    match place_in(list.as_slice(), entry) {
        Some(at) => {
            list.insert(at, *entry)?;
            Ok(())
        }
        None => {
            list.push(*entry)?;
            Ok(())
        }
    }
}

/// Where the first stands that the entry comes before.
fn place_in(list: &[DirEntry], entry: &DirEntry) -> Option<usize>
    ensures { result ≡ position (λ other. comes_before (listed_of entry.now) (listed_of other)) list.now }
{
    list.iter().position(|other| comes_before(entry, other))
}

/// Whether an entry comes before another one in a list.
fn comes_before(entry: &DirEntry, other: &DirEntry) -> bool
    ensures { result ≡ comes_before (listed_of entry.now) (listed_of other.now) }
{
    entry.cookie < other.cookie
        || entry.cookie == other.cookie && entry.name.bytes().cmp(other.name.bytes()).is_lt()
}

/// The list without the entries of a name.
fn without(alloc: Global, list: &[DirEntry], name: &Name) -> Result<Vec<DirEntry>, Memory>
    ensures { IfOk result (λ left. map listed_of left.items ≡ without name.now (map listed_of list.now)) }
{
    let mut left = list.to_vec(alloc)?;
    left.retain(|entry| entry.name != *name);
    Ok(left)
}

/// The list without the entries of a name that it has.
fn fewer(alloc: Global, list: &[DirEntry], name: &Name) -> Result<Vec<DirEntry>, LineFault>
    ensures { Gives (λ left. map listed_of left.items) result (unlisted name.now (map listed_of list.now)) }
{
    let left = without(alloc, list, name)?;
    if left.len() == list.len() {
        return Err(LineFault::Form);
    }
    Ok(left)
}
