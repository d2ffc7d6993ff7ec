//! Writes what a server is, and what an entry changes of it.

ghost use Rattle.std.specs.Prelude.{◌≡◌, ◌<◌, ◌∷◌, [], Some, OnOk, length};
ghost use Rattle.std.specs.List.{flat_map, list_any};
ghost use Rattle.std.specs.Option.{option_map};
ghost use Rattle.nfs_types.specs.Fields.{attr_bytes};
ghost use Rattle.trace_data.specs.declared.trace.Contents.TheVariants as holds;
ghost use Rattle.trace_text.specs.Pages.{put};
ghost use Rattle.trace_text.specs.Texts.{changed_text, contents_words, entries_in, entries_of, gone_text, has_name, hex_word, holds_same, is_again, is_directory, is_file, is_other};
ghost use Rattle.trace_text.specs.Texts.{lines_text, list_text, looks_same, name_text, names_text, obj_line, obj_text, object_before, objects_in, objects_text};
ghost use Rattle.trace_text.specs.Texts.{part_text, place_text, same_entry, spread, unname_text, verf_text, was_gone};

use crate::page::Page;
use nfs_types::{Attr, Handle, Verf, write_attr};
use std::alloc::Global;
use trace_data::{Contents, DirEntry, Object, Trace, Updated, named, object_at, objects_after};
use trace_rules::{same_attr, same_verf};
use xdr_codec::{Blob, Memory, Writer};

/// Writes the write verifier, if it is another one.
pub(crate) fn write_verf(
    page: &mut Page,
    alloc: Global,
    before: Verf,
    after: Verf,
) -> Result<(), Memory>
    ensures { OnOk result (page.new ≡ put page.old (verf_text before after)) }
{
    if same_verf(before, after) {
        return Ok(());
    }
    page.bytes_line(alloc, b"verf", &after.0)
}

/// Which lines of objects are written.
#[derive(Clone, Copy)]
pub(crate) enum Part {
    Attributes,
    Removals,
    Names,
}

/// Writes each object of the start, or each one that an entry changed: attributes and bytes, then which are gone, then names.
pub(crate) fn write_objects(
    page: &mut Page,
    alloc: Global,
    trace: &Trace,
    entry: Option<usize>,
) -> Result<(), Memory>
    ensures { OnOk result (page.new ≡ put page.old (objects_text (object_before trace.now entry) (objects_in trace.now entry))) }
{
    write_part(page, alloc, trace, entry, Part::Attributes)?;
    write_part(page, alloc, trace, entry, Part::Removals)?;
    write_part(page, alloc, trace, entry, Part::Names)
}

fn write_part(
    page: &mut Page,
    alloc: Global,
    trace: &Trace,
    entry: Option<usize>,
    part: Part,
) -> Result<(), Memory>
    ensures { OnOk result (page.new ≡ put page.old (lines_text (object_before trace.now entry) part (objects_in trace.now entry))) }
{
    let objects = objects_in(trace, entry);
    for place in 0..objects.len() {
        write_first(page, alloc, trace, entry, part, objects, place)?;
    }
    Ok(())
}

/// The objects of the start, or those that an entry may have changed.
fn objects_in<'a>(trace: &'a Trace, entry: Option<usize>) -> &'a [Updated]
    ensures { result.now ≡ objects_in trace.entry.now entry }
{
    match entry {
        Some(entry) => objects_after(trace.updates.as_slice(), entry),
        None => trace.start.objects.as_slice(),
    }
}

/// Writes the lines of the object at a place, unless one before it has its file handle.
fn write_first(
    page: &mut Page,
    alloc: Global,
    trace: &Trace,
    entry: Option<usize>,
    part: Part,
    objects: &[Updated],
    place: usize,
) -> Result<(), Memory>
    requires { place < length objects.now }
    ensures { OnOk result (page.new ≡ put page.old (place_text (object_before trace.now entry) part objects.now place)) }
{
    if is_again(objects, place) {
        return Ok(());
    }
    write_updated(page, alloc, trace, entry, part, &objects[place])?;
    Ok(())
}

/// Whether an object before the place has the file handle of the one there.
fn is_again(objects: &[Updated], place: usize) -> bool
    requires { place < length objects.now }
    ensures { result ≡ is_again objects.now place }
{
    named(&objects[..place], &objects[place].handle).is_some()
}

/// Writes the lines of an object.
fn write_updated(
    page: &mut Page,
    alloc: Global,
    trace: &Trace,
    entry: Option<usize>,
    part: Part,
    updated: &Updated,
) -> Result<(), Memory>
    ensures { OnOk result (page.new ≡ put page.old (changed_text (object_before trace.now entry) part updated.now)) }
{
    write_object(
        page,
        alloc,
        updated,
        before(trace, entry, &updated.handle),
        part,
    )
}

/// What was under a handle before an entry; nothing before the start.
fn before<'a>(trace: &'a Trace, entry: Option<usize>, handle: &Handle) -> Option<&'a Object>
    ensures { option_map (λ o. o.now) result ≡ object_before trace.entry.now entry handle.now }
{
    match entry {
        Some(entry) => object_at(
            trace.start.objects.as_slice(),
            trace.updates.as_slice(),
            entry,
            handle,
        ),
        None => None,
    }
}

/// Writes what of an object is another than before.
fn write_object(
    page: &mut Page,
    alloc: Global,
    updated: &Updated,
    before: Option<&Object>,
    part: Part,
) -> Result<(), Memory>
    ensures { OnOk result (page.new ≡ put page.old (part_text part (option_map (λ o. o.now) before.entry) updated.now)) }
{
    match part {
        Part::Attributes => write_attributes(page, alloc, updated, before),
        Part::Removals => write_gone(page, alloc, updated, before),
        Part::Names => write_names(page, alloc, updated, before),
    }
}

fn write_attributes(
    page: &mut Page,
    alloc: Global,
    updated: &Updated,
    before: Option<&Object>,
) -> Result<(), Memory>
    ensures { OnOk result (page.new ≡ put page.old (obj_text (option_map (λ o. o.now) before.entry) updated.now)) }
{
    match before {
        Some(old) => write_other(page, alloc, updated, old),
        None => write_obj(page, alloc, updated),
    }
}

/// Writes the attributes and bytes, if they aren't those of before.
fn write_other(
    page: &mut Page,
    alloc: Global,
    updated: &Updated,
    old: &Object,
) -> Result<(), Memory>
    ensures { OnOk result (page.new ≡ put page.old (obj_text (Some old.now) updated.now)) }
{
    if looks_same(old, &updated.object) {
        return Ok(());
    }
    write_obj(page, alloc, updated)
}

/// `gone HANDLE`, if it wasn't before.
fn write_gone(
    page: &mut Page,
    alloc: Global,
    updated: &Updated,
    before: Option<&Object>,
) -> Result<(), Memory>
    ensures { OnOk result (page.new ≡ put page.old (gone_text (option_map (λ o. o.now) before.entry) updated.now)) }
{
    if !updated.object.gone || was_gone(before) {
        return Ok(());
    }
    page.bytes_line(alloc, b"gone", updated.handle.bytes())
}

fn was_gone(before: Option<&Object>) -> bool
    ensures { result ≡ was_gone (option_map (λ o. o.now) before.entry) }
{
    match before {
        Some(old) => old.gone,
        None => false,
    }
}

fn write_names(
    page: &mut Page,
    alloc: Global,
    updated: &Updated,
    before: Option<&Object>,
) -> Result<(), Memory>
    ensures { OnOk result (page.new ≡ put page.old (names_text (option_map (λ o. o.now) before.entry) updated.now)) }
{
    match &updated.object.contents {
        Contents::Directory { entries } => {
            let old = entries_of(before);
            write_list(page, alloc, &updated.handle, old, entries.as_slice())
        }
        _ => Ok(()),
    }
}

/// Whether an `obj` line would say the same of both.
fn looks_same(old: &Object, new: &Object) -> bool
    ensures { result ≡ looks_same old.now new.now }
{
    same_attr(&old.attr, &new.attr) && holds_same(&old.contents, &new.contents)
}

/// Whether both are files of the same bytes, or directories, or others of the same text.
fn holds_same(old: &Contents, new: &Contents) -> bool
    ensures { result ≡ holds_same old.now new.now }
{
    match old {
        Contents::File { now, stable } => is_file(now.bytes(), stable.bytes(), new),
        Contents::Directory { .. } => is_directory(new),
        Contents::Other { text } => is_other(text.bytes(), new),
    }
}

fn is_file(now: &[u8], stable: &[u8], contents: &Contents) -> bool
    ensures { result ≡ is_file now.now stable.now contents.now }
{
    match contents {
        Contents::File {
            now: later,
            stable: steady,
        } => now == later.bytes() && stable == steady.bytes(),
        _ => false,
    }
}

fn is_directory(contents: &Contents) -> bool
    ensures { result ≡ is_directory contents.now }
{
    match contents {
        Contents::Directory { .. } => true,
        _ => false,
    }
}

fn is_other(text: &[u8], contents: &Contents) -> bool
    ensures { result ≡ is_other text.now contents.now }
{
    match contents {
        Contents::Other { text: later } => text == later.bytes(),
        _ => false,
    }
}

/// `obj HANDLE ATTR NOW STABLE`.
fn write_obj(page: &mut Page, alloc: Global, updated: &Updated) -> Result<(), Memory>
    ensures { OnOk result (page.new ≡ put page.old (obj_line updated.now)) }
{
    page.text(b"obj")?;
    page.next_bytes(alloc, updated.handle.bytes())?;
    write_attr_word(page, alloc, &updated.object.attr)?;
    write_contents(page, alloc, &updated.object.contents)?;
    page.text(b"\n")
}

/// Writes the spelling of attributes after a space.
fn write_attr_word(page: &mut Page, alloc: Global, attr: &Attr) -> Result<(), Memory>
    ensures { OnOk result (page.new ≡ put page.old (spread (hex_word (attr_bytes attr.now) ∷ []))) }
{
    let mut spelled = Writer::new(alloc);
    write_attr(&mut spelled, attr)?;
    page.next_bytes(alloc, spelled.finish().bytes())
}

/// Writes the bytes of a file and the stable ones, or a text and no bytes.
fn write_contents(page: &mut Page, alloc: Global, contents: &Contents) -> Result<(), Memory>
    ensures { OnOk result (page.new ≡ put page.old (spread (contents_words contents.now))) }
{
    match contents {
        Contents::File { now, stable } => write_both(page, alloc, now, stable),
        Contents::Directory { .. } => page.text(b" - -"),
        Contents::Other { text } => write_text(page, alloc, text),
    }
}

fn write_both(page: &mut Page, alloc: Global, now: &Blob, stable: &Blob) -> Result<(), Memory>
    ensures { OnOk result (page.new ≡ put page.old (spread (contents_words (holds.File now.now stable.now)))) }
{
    page.next_bytes(alloc, now.bytes())?;
    page.next_bytes(alloc, stable.bytes())
}

fn write_text(page: &mut Page, alloc: Global, text: &Blob) -> Result<(), Memory>
    ensures { OnOk result (page.new ≡ put page.old (spread (contents_words (holds.Other text.now)))) }
{
    page.next_bytes(alloc, text.bytes())?;
    page.text(b" -")
}

/// The list that an object has, if it is a directory.
fn entries_of<'a>(object: Option<&'a Object>) -> &'a [DirEntry]
    ensures { result.now ≡ entries_of (option_map (λ o. o.now) object.entry) }
{
    match object {
        Some(object) => entries_in(&object.contents),
        None => &[],
    }
}

fn entries_in(contents: &Contents) -> &[DirEntry]
    ensures { result.now ≡ entries_in contents.entry.now }
{
    match contents {
        Contents::Directory { entries } => entries.as_slice(),
        _ => &[],
    }
}

/// Writes which names left a directory, and which entered it.
fn write_list(
    page: &mut Page,
    alloc: Global,
    dir: &Handle,
    old: &[DirEntry],
    new: &[DirEntry],
) -> Result<(), Memory>
    ensures { OnOk result (page.new ≡ put page.old (list_text dir.now old.now new.now)) }
{
    write_left(page, alloc, dir, old, new)?;
    write_entered(page, alloc, dir, old, new)
}

fn write_left(
    page: &mut Page,
    alloc: Global,
    dir: &Handle,
    old: &[DirEntry],
    new: &[DirEntry],
) -> Result<(), Memory>
    ensures { OnOk result (page.new ≡ put page.old (flat_map (unname_text dir.now new.now) old.now)) }
{
    for entry in old {
        write_unname(page, alloc, dir, new, entry)?;
    }
    Ok(())
}

/// `unname DIR NAME`, if no new entry has the name.
fn write_unname(
    page: &mut Page,
    alloc: Global,
    dir: &Handle,
    new: &[DirEntry],
    entry: &DirEntry,
) -> Result<(), Memory>
    ensures { OnOk result (page.new ≡ put page.old (unname_text dir.now new.now entry.now)) }
{
    if has_name(new, entry) {
        return Ok(());
    }
    page.text(b"unname")?;
    page.next_bytes(alloc, dir.bytes())?;
    page.next_bytes(alloc, entry.name.bytes())?;
    page.text(b"\n")
}

/// Whether some entry has the name of this one.
fn has_name(entries: &[DirEntry], entry: &DirEntry) -> bool
    ensures { result ≡ list_any (has_name entry.now.name) entries.now }
{
    entries.iter().any(|other| other.name == entry.name)
}

fn write_entered(
    page: &mut Page,
    alloc: Global,
    dir: &Handle,
    old: &[DirEntry],
    new: &[DirEntry],
) -> Result<(), Memory>
    ensures { OnOk result (page.new ≡ put page.old (flat_map (name_text dir.now old.now) new.now)) }
{
    for entry in new {
        write_name(page, alloc, dir, old, entry)?;
    }
    Ok(())
}

/// `name DIR NAME HANDLE COOKIE`, if the entry wasn't there before.
fn write_name(
    page: &mut Page,
    alloc: Global,
    dir: &Handle,
    old: &[DirEntry],
    entry: &DirEntry,
) -> Result<(), Memory>
    ensures { OnOk result (page.new ≡ put page.old (name_text dir.now old.now entry.now)) }
{
    if has_entry(old, entry) {
        return Ok(());
    }
    page.text(b"name")?;
    page.next_bytes(alloc, dir.bytes())?;
    page.next_bytes(alloc, entry.name.bytes())?;
    page.next_bytes(alloc, entry.object.bytes())?;
    page.next_number(entry.cookie)?;
    page.text(b"\n")
}

/// Whether some entry equals this one.
fn has_entry(entries: &[DirEntry], entry: &DirEntry) -> bool
    ensures { result ≡ list_any (same_entry entry.now) entries.now }
{
    entries.iter().any(|other| *other == *entry)
}
