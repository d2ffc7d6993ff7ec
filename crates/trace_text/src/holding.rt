//! What an object holds after a line.

ghost use Rattle.std.specs.Prelude.{◌≡◌, true, IfOk, map};
ghost use Rattle.trace_data.specs.Histories.{listed_of, object_of};
ghost use Rattle.trace_data.specs.Histories.{holds_of as held};
ghost use Rattle.world_model.specs.Server.{Bytes};
ghost use Rattle.trace_text.specs.Objects.{file_of, directory_of, other_of, holds_of, list_in, list_of, or_empty, gone_object_of};
ghost use Rattle.trace_text.specs.Told.{object_now, told_by};
ghost use Rattle.trace_text.specs.Words.{Gives};

use crate::draft::Draft;
use crate::fault::LineFault;
use nfs_types::{Attr, Handle};
use std::alloc::Global;
use trace_data::{Contents, DirEntry, Object};
use xdr_codec::{Blob, Memory};

/// The kind of a file, and that of a directory (RFC 1813, section 2.5, ftype3).
const FILE: u32 = 1;

const DIRECTORY: u32 = 2;

/// What an object of these attributes and bytes holds, by its kind.
pub(crate) fn held_contents(
    alloc: Global,
    draft: &Draft,
    handle: &Handle,
    attr: &Attr,
    now: Vec<u8>,
    stable: Vec<u8>,
) -> Result<Contents, LineFault>
    ensures { Gives held result (holds_of attr.now now.items stable.items (object_now (told_by draft.now) handle.now)) }
{
    if attr.kind == FILE {
        return file_contents(alloc, attr.size, now, stable, draft.object(handle));
    }
    if attr.kind == DIRECTORY {
        return directory_contents(alloc, draft, handle, now.as_slice(), stable.as_slice());
    }
    other_contents(now, stable.as_slice())
}

/// A file of the size of its bytes, of which no more are stable. What it held is shared if it holds it still.
fn file_contents(
    alloc: Global,
    size: u64,
    now: Vec<u8>,
    stable: Vec<u8>,
    was: Option<&Object>,
) -> Result<Contents, LineFault>
    ensures { Gives held result (file_of size now.items stable.items) }
{
    if now.len() as u64 != size || stable.len() > now.len() {
        return Err(LineFault::Form);
    }
    let same = now.as_slice() == stable.as_slice();
    let now = shared(alloc, now, was)?;
    let stable = if same {
        now.again(alloc)?
    } else {
        shared(alloc, stable, was)?
    };
    Ok(Contents::File { now, stable })
}

/// These bytes, shared if the object held them.
fn shared(alloc: Global, bytes: Vec<u8>, was: Option<&Object>) -> Result<Blob, Memory>
    ensures { IfOk result (λ blob. blob ≡ bytes.items) }
{
    match was {
        Some(object) => shared_with(alloc, bytes, &object.contents),
        None => Blob::shared(alloc, bytes),
    }
}

fn shared_with(alloc: Global, bytes: Vec<u8>, was: &Contents) -> Result<Blob, Memory>
    ensures { IfOk result (λ blob. blob ≡ bytes.items) }
{
    if let Contents::File { now, stable } = was {
        if now.bytes() == bytes.as_slice() {
            return now.again(alloc);
        }
        if stable.bytes() == bytes.as_slice() {
            return stable.again(alloc);
        }
    }
    Blob::shared(alloc, bytes)
}

/// A directory, with the list that it had.
fn directory_contents(
    alloc: Global,
    draft: &Draft,
    handle: &Handle,
    now: &[u8],
    stable: &[u8],
) -> Result<Contents, LineFault>
    ensures { Gives held result (directory_of now.now stable.now (object_now (told_by draft.now) handle.now)) }
{
    if !now.is_empty() || !stable.is_empty() {
        return Err(LineFault::Form);
    }
    let entries = listed(alloc, draft, handle)?;
    Ok(Contents::Directory { entries })
}

/// The list that an object has, and an empty one if it is no directory.
fn listed(alloc: Global, draft: &Draft, handle: &Handle) -> Result<Vec<DirEntry>, Memory>
    ensures { IfOk result (λ list. map listed_of list.items ≡ or_empty (list_of (object_now (told_by draft.now) handle.now))) }
{
    match draft.object(handle) {
        Some(object) => list_copy(alloc, &object.contents),
        None => Ok(Vec::new(alloc)),
    }
}

/// A copy of a directory's list.
fn list_copy(alloc: Global, contents: &Contents) -> Result<Vec<DirEntry>, Memory>
    ensures { IfOk result (λ list. map listed_of list.items ≡ or_empty (list_in (held contents.now))) }
{
    match contents {
        Contents::Directory { entries } => Ok(entries.as_slice().to_vec(alloc)?),
        _ => Ok(Vec::new(alloc)),
    }
}

/// A link with its text, or an object of another kind.
fn other_contents(now: Vec<u8>, stable: &[u8]) -> Result<Contents, LineFault>
    ensures { Gives held result (other_of now.items stable.now) }
{
    if !stable.is_empty() {
        return Err(LineFault::Form);
    }
    Ok(Contents::Other {
        text: Blob::of(now),
    })
}

/// The object under the handle, which is gone.
pub(crate) fn gone_object(
    alloc: Global,
    draft: &Draft,
    handle: &Handle,
) -> Result<Object, LineFault>
    ensures { Gives object_of result (gone_object_of (object_now (told_by draft.now) handle.now)) }
{
    match draft.object(handle) {
        Some(object) => Ok(gone_copy(alloc, object)?),
        None => Err(LineFault::Form),
    }
}

/// An object that is equal but gone.
fn gone_copy(alloc: Global, object: &Object) -> Result<Object, Memory>
    ensures { IfOk result (λ copy. object_of copy ≡ record { attr = object.now.attr; gone = true; holds = held object.now.contents }) }
{
    let contents = contents_copy(alloc, &object.contents)?;
    Ok(Object {
        attr: object.attr,
        gone: true,
        contents,
    })
}

/// Equal contents.
fn contents_copy(alloc: Global, contents: &Contents) -> Result<Contents, Memory>
    ensures { IfOk result (λ copy. held copy ≡ held contents.now) }
{
    match contents {
        Contents::File { now, stable } => file_copy(alloc, now, stable),
        Contents::Directory { entries } => Ok(Contents::Directory {
            entries: entries.as_slice().to_vec(alloc)?,
        }),
        Contents::Other { text } => Ok(Contents::Other {
            text: text.again(alloc)?,
        }),
    }
}

fn file_copy(alloc: Global, now: &Blob, stable: &Blob) -> Result<Contents, Memory>
    ensures { IfOk result (λ copy. held copy ≡ Bytes now.now stable.now) }
{
    let now = now.again(alloc)?;
    let stable = stable.again(alloc)?;
    Ok(Contents::File { now, stable })
}
