//! What a step changed of an export, by the objects as they were shown last.

ghost use Rattle.std.specs.Prelude.{◌≡◌, ◌<◌, ◌≤◌, ◌+◌, true, false, Some, List, IfOk, OnOk, length, option_map, slice_get};
ghost use Rattle.export_fs.specs.declared.node.Node.{Node};
ghost use Rattle.export_fs.specs.Parts.{kind_in};
ghost use Rattle.export_fs.specs.Seen.{seen_at};
ghost use Rattle.trace_data.specs.Histories.{holds_of, object_of};
ghost use Rattle.world_trace.specs.Mirrored.{Changes, IsShown, Mirrors, Renewed, held_in};

use crate::listing::lists;
use crate::objects::{DIRECTORY, FILE, again, object_made};
use export_fs::{Export, handle_of};
use nfs_types::Attr;
use std::alloc::Global;
use trace_data::{Contents, Object, Updated};
use xdr_codec::Memory;

/// The objects that changed, by places, if a step moved the export. If it didn't, all are as they were shown last.
pub(crate) fn changed_if(
    moved: bool,
    alloc: Global,
    export: &Export,
    shown: &mut Vec<Object>,
) -> Result<Vec<Updated>, Memory>
    ensures { IfOk result (λ objects. (old : List Node) → length old ≤ length export.now.nodes → (moved ≡ false → export.now.nodes ≡ old)
        → Mirrors old shown.old.items
        → Changes old export.now.nodes shown.new.items objects.items) }
{
    if !moved {
        return Ok(Vec::new(alloc));
    }
    changed_objects(alloc, export, shown)
}

/// The objects that are others than those that were shown last, by places. All of the export are shown then.
pub(crate) fn changed_objects(
    alloc: Global,
    export: &Export,
    shown: &mut Vec<Object>,
) -> Result<Vec<Updated>, Memory>
    ensures { IfOk result (λ objects. (old : List Node) → length old ≤ length export.now.nodes → Mirrors old shown.old.items
        → Changes old export.now.nodes shown.new.items objects.items) }
{
    let count = count(export);
    let mut objects = Vec::new(alloc);
    let mut place = 0;
    while place < count {
        renew(alloc, export, place, shown, &mut objects)?;
        place += 1;
    }
    Ok(objects)
}

/// How many objects were made.
fn count(export: &Export) -> u32
    ensures { result ≡ length export.now.nodes }
{
    export.is_kept();
    export.made() as u32
}

/// Shows the object at a place and names it among those that changed, unless it is as it was shown last.
fn renew(
    alloc: Global,
    export: &Export,
    place: u32,
    shown: &mut Vec<Object>,
    objects: &mut Vec<Updated>,
) -> Result<(), Memory>
    requires { place < length export.now.nodes }
    ensures { OnOk result ((old : List Node) → Renewed place old export.now.nodes shown.old.items objects.old.items
        → Renewed (place + 1) old export.now.nodes shown.new.items objects.new.items) }
{
    export.is_kept();
    if is_shown(shown.as_slice(), export, place) {
        return Ok(());
    }
    let object = object_made(alloc, export, place)?;
    objects.push(Updated {
        handle: handle_of(place),
        object: again(alloc, &object)?,
    })?;
    show(shown, place, object)
}

/// Puts an object at a place, which is at most the number of those that are there.
fn show(shown: &mut Vec<Object>, place: u32, object: Object) -> Result<(), Memory>
    ensures { OnOk result (place ≤ length shown.old.items → IsShown place object shown.old.items shown.new.items) }
{
    if (place as usize) < shown.len() {
        shown[place as usize] = object;
    } else {
        shown.push(object)?;
    }
    Ok(())
}

/// Whether the object at a place is as it was shown last.
fn is_shown(shown: &[Object], export: &Export, place: u32) -> bool
    ensures { result ≡ true → option_map object_of (slice_get shown.now place) ≡ seen_at export.now.nodes place }
{
    match shown.get(place as usize) {
        Some(object) => is_as_made(object, export, place),
        None => false,
    }
}

/// Whether the object at a place is this one.
fn is_as_made(object: &Object, export: &Export, place: u32) -> bool
    ensures { result ≡ true → Some (object_of object.now) ≡ seen_at export.now.nodes place }
{
    let Some(attr) = export.attr_made(place) else {
        return false;
    };
    if !is_attr(&object.attr, &attr) || object.gone != export.is_gone(place) {
        return false;
    }
    holds_as_made(&object.contents, attr.kind, export, place)
}

/// Whether all attributes are equal.
fn is_attr(a: &Attr, b: &Attr) -> bool
    ensures { result ≡ true → a.now ≡ b.now }
{
    *a == *b
}

/// Whether the object at a place, which is of the kind, holds this.
fn holds_as_made(contents: &Contents, kind: u32, export: &Export, place: u32) -> bool
    requires { kind ≡ kind_in (slice_get export.now.nodes place) }
    ensures { result ≡ true → holds_of contents.now ≡ held_in (slice_get export.now.nodes place) }
{
    match contents {
        Contents::File { now, stable } => {
            kind == FILE
                && now.bytes() == export.bytes_made(place)
                && stable.bytes() == export.stable_made(place)
        }
        Contents::Directory { entries } => {
            kind == DIRECTORY && lists(export, place, entries.as_slice())
        }
        Contents::Other { text } => match export.text_made(place) {
            Some(bytes) => text.bytes() == bytes,
            None => false,
        },
    }
}
