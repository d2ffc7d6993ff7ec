//! The list of a directory.

ghost use Rattle.std.specs.Prelude.{◌≡◌, ◌<◌, ◌≤◌, ◌++◌, length, take, drop, IfOk};
ghost use Rattle.trace_rules.specs.Freshness.{same_entries};
ghost use Rattle.std.specs.Option.{option_map};
ghost use Rattle.trace_steps.specs.ListTests.{is_entry, has_entry, lacks, is_dotted, is_bare, names_it, without, is_without, has_this, is_parent, all_in};
ghost use Rattle.trace_steps.specs.NameTests.{entries_of, list_of, list_there};

use nfs_types::{Handle, Name};
use std::alloc::Global;
use trace_data::{Contents, DirEntry, Object};
use xdr_codec::Memory;

/// The entries, if it is a directory.
pub(crate) fn entries_of(contents: &Contents) -> Option<&[DirEntry]>
    ensures { option_map (λ es. es.now) result ≡ entries_of contents.entry.now }
{
    match contents {
        Contents::Directory { entries } => Some(entries.as_slice()),
        _ => None,
    }
}

/// The list of an object, if it is a directory.
pub(crate) fn list_of<'a>(object: Option<&'a Object>) -> Option<&'a [DirEntry]>
    ensures { option_map (λ es. es.now) result ≡ list_of (option_map (λ o. o.now) object.entry) }
{
    match object {
        Some(object) => entries_of(&object.contents),
        None => None,
    }
}

/// The list of an object, if it is a directory that is there.
pub(crate) fn list_there<'a>(object: Option<&'a Object>) -> Option<&'a [DirEntry]>
    ensures { option_map (λ es. es.now) result ≡ list_there (option_map (λ o. o.now) object.entry) }
{
    match object {
        Some(object) => {
            if object.gone {
                None
            } else {
                entries_of(&object.contents)
            }
        }
        None => None,
    }
}

/// Whether the entry has this name and object.
pub(crate) fn is_entry(name: &Name, handle: &Handle, entry: &DirEntry) -> bool
    ensures { result ≡ is_entry name.now handle.now entry.now }
{
    entry.name == *name && entry.object == *handle
}

/// Whether the list has the name for the object.
#[tactic(auto, unfolding(crate::specs::ListTests::has_entry))]
pub(crate) fn has_entry(name: &Name, handle: &Handle, entries: &[DirEntry]) -> bool
    ensures { result ≡ has_entry name.now handle.now entries.now }
{
    for entry in entries {
        if is_entry(name, handle, entry) {
            return true;
        }
    }
    false
}

/// Whether the list doesn't have the name.
#[tactic(auto, unfolding(crate::specs::ListTests::lacks))]
pub(crate) fn lacks(name: &Name, entries: &[DirEntry]) -> bool
    ensures { result ≡ lacks name.now entries.now }
{
    for entry in entries {
        if entry.name == *name {
            return false;
        }
    }
    true
}

/// Whether the name is `.` or `..`.
fn is_dotted(name: &Name) -> bool
    ensures { result ≡ is_dotted name.now }
{
    let bytes = name.bytes();
    bytes == b".".as_slice() || bytes == b"..".as_slice()
}

/// Whether each name is `.` or `..`.
#[tactic(auto, unfolding(crate::specs::ListTests::is_bare))]
pub(crate) fn is_bare(entries: &[DirEntry]) -> bool
    ensures { result ≡ is_bare entries.now }
{
    for entry in entries {
        if !is_dotted(&entry.name) {
            return false;
        }
    }
    true
}

/// Whether the list has a name for the object, other than `.` and `..`.
#[tactic(auto, unfolding(crate::specs::ListTests::names_it))]
pub(crate) fn names_it(handle: &Handle, entries: &[DirEntry]) -> bool
    ensures { result ≡ names_it handle.now entries.now }
{
    for entry in entries {
        if entry.object == *handle && !is_dotted(&entry.name) {
            return true;
        }
    }
    false
}

/// Whether two lists are equal.
#[tactic(auto, unfolding(trace_rules::specs::Freshness::same_entries))]
pub(crate) fn same_entries(a: &[DirEntry], b: &[DirEntry]) -> bool
    ensures { result ≡ same_entries a.now b.now }
{
    a == b
}

fn head(entries: &[DirEntry], place: usize) -> &[DirEntry]
    requires { place ≤ length entries.now }
    ensures { result.now ≡ take place entries.now }
{
    entries.split_at(place).0
}

fn tail(entries: &[DirEntry], place: usize) -> &[DirEntry]
    requires { place ≤ length entries.now }
    ensures { result.now ≡ drop place entries.now }
{
    entries.split_at(place).1
}

/// Whether `short` is `long` without the entry at a place.
pub(crate) fn is_without(place: usize, long: &[DirEntry], short: &[DirEntry]) -> bool
    requires { place < length long.now }
    ensures { result ≡ is_without place long.now short.now }
{
    if short.len() < place {
        return false;
    }
    if !same_entries(head(short, place), head(long, place)) {
        return false;
    }
    same_entries(tail(short, place), tail(long, place + 1))
}

/// The list without the entry at a place.
pub(crate) fn without(
    alloc: Global,
    place: usize,
    entries: &[DirEntry],
) -> Result<Vec<DirEntry>, Memory>
    requires { place < length entries.now }
    ensures { IfOk result (λ rest. rest.items ≡ without place entries.now) }
{
    joined(alloc, head(entries, place), tail(entries, place + 1))
}

fn joined(alloc: Global, first: &[DirEntry], last: &[DirEntry]) -> Result<Vec<DirEntry>, Memory>
    ensures { IfOk result (λ all. all.items ≡ first.now ++ last.now) }
{
    let mut all = Vec::new(alloc);
    all.extend_from_slice(first)?;
    all.extend_from_slice(last)?;
    Ok(all)
}

/// Whether the list has this very entry.
#[tactic(auto, unfolding(crate::specs::ListTests::has_this))]
fn has_this(wanted: &DirEntry, entries: &[DirEntry]) -> bool
    ensures { result ≡ has_this wanted.now entries.now }
{
    for entry in entries {
        if *entry == *wanted {
            return true;
        }
    }
    false
}

/// Whether each entry of the first list but `..` stands in the second.
#[tactic(auto, unfolding(crate::specs::ListTests::all_in))]
pub(crate) fn all_in(entries: &[DirEntry], others: &[DirEntry]) -> bool
    ensures { result ≡ all_in entries.now others.now }
{
    for entry in entries {
        if !(is_parent(&entry.name) || has_this(entry, others)) {
            return false;
        }
    }
    true
}

fn is_parent(name: &Name) -> bool
    ensures { result ≡ is_parent name.now }
{
    name.bytes() == b"..".as_slice()
}
