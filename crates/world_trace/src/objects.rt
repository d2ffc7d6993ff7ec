//! The objects of an export as those of a trace.

ghost use Rattle.std.specs.Prelude.{◌≡◌, ◌<◌, [], Some, IfOk, length, option_copied, slice_get, unwrap_or};
ghost use Rattle.world_model.specs.Server.{Bytes, Text};
ghost use Rattle.export_fs.specs.Seen.{seen_at};
ghost use Rattle.export_fs.specs.Parts.{kind_in};
ghost use Rattle.trace_data.specs.Histories.{holds_of, object_of};
ghost use Rattle.world_trace.specs.Mirrored.{held_in};

use crate::listing::entries_made;
use export_fs::Export;
use std::alloc::Global;
use trace_data::{Contents, Object};
use xdr_codec::{Blob, Memory};

/// The kind of a file (RFC 1813, section 2.5, ftype3).
pub(crate) const FILE: u32 = 1;

/// The kind of a directory.
pub(crate) const DIRECTORY: u32 = 2;

/// The object at a place.
pub(crate) fn object_made(alloc: Global, export: &Export, place: u32) -> Result<Object, Memory>
    requires { place < length export.now.nodes }
    ensures { IfOk result (λ object. Some (object_of object) ≡ seen_at export.now.nodes place) }
{
    let attr = export.attr_made(place).unwrap();
    Ok(Object {
        attr,
        gone: export.is_gone(place),
        contents: contents_made(alloc, export, place, attr.kind)?,
    })
}

/// What the object at a place holds, which is of the kind.
fn contents_made(alloc: Global, export: &Export, place: u32, kind: u32) -> Result<Contents, Memory>
    requires { kind ≡ kind_in (slice_get export.now.nodes place) }
    ensures { IfOk result (λ contents. holds_of contents ≡ held_in (slice_get export.now.nodes place)) }
{
    match kind {
        FILE => file_made(alloc, export.bytes_made(place), export.stable_made(place)),
        DIRECTORY => {
            let entries = entries_made(alloc, export, place)?;
            Ok(Contents::Directory { entries })
        }
        _ => other_made(alloc, export.text_made(place)),
    }
}

/// A file of these bytes and these stable ones, which are held once if they are equal.
fn file_made(alloc: Global, now: &[u8], stable: &[u8]) -> Result<Contents, Memory>
    ensures { IfOk result (λ contents. holds_of contents ≡ Bytes now.now stable.now) }
{
    let held = Blob::shared(alloc, now.to_vec(alloc)?)?;
    let steady = if now == stable {
        held.again(alloc)?
    } else {
        Blob::shared(alloc, stable.to_vec(alloc)?)?
    };
    Ok(Contents::File {
        now: held,
        stable: steady,
    })
}

/// An object that is neither a file nor a directory, with the text of a link.
fn other_made(alloc: Global, text: Option<&[u8]>) -> Result<Contents, Memory>
    ensures { IfOk result (λ contents. holds_of contents ≡ Text (unwrap_or (option_copied text.entry) [])) }
{
    let bytes = text.unwrap_or(&[]);
    Ok(Contents::Other {
        text: Blob::copy(alloc, bytes)?,
    })
}

/// The same object again. Its bytes aren't copied.
pub(crate) fn again(alloc: Global, object: &Object) -> Result<Object, Memory>
    ensures { IfOk result (λ copy. object_of copy ≡ object_of object.now) }
{
    Ok(Object {
        attr: object.attr,
        gone: object.gone,
        contents: contents_again(alloc, &object.contents)?,
    })
}

fn contents_again(alloc: Global, contents: &Contents) -> Result<Contents, Memory>
    ensures { IfOk result (λ copy. holds_of copy ≡ holds_of contents.now) }
{
    match contents {
        Contents::File { now, stable } => Ok(Contents::File {
            now: now.again(alloc)?,
            stable: stable.again(alloc)?,
        }),
        Contents::Directory { entries } => Ok(Contents::Directory {
            entries: entries.as_slice().to_vec(alloc)?,
        }),
        Contents::Other { text } => Ok(Contents::Other {
            text: text.again(alloc)?,
        }),
    }
}
