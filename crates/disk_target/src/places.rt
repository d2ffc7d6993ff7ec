//! Paths of the system.

use copy_targets::Why;
use nfs_types::Name;
use std::alloc::Global;
use std::fs::Metadata;
use std::io::{self, ErrorKind};
use world_model::Path;
use xdr_codec::Memory;

/// A path below a root; none if a name in it isn't UTF-8, or is one that would lead elsewhere.
pub(crate) fn place(alloc: Global, root: &str, path: &Path) -> Result<Option<String>, Memory> {
    let mut text = String::from_str(alloc, root)?;
    for name in path.names() {
        let Some(name) = text_of(name) else {
            return Ok(None);
        };
        text.push('/')?;
        text.push_str(name)?;
    }
    Ok(Some(text))
}

/// A name as text.
fn text_of(name: &Name) -> Option<&str> {
    let bytes = name.bytes();
    if bytes == b".".as_slice() || bytes == b"..".as_slice() {
        return None;
    }
    str::from_utf8(bytes).ok()
}

/// A name of its own beside a path, for what isn't whole yet.
pub(crate) fn beside(alloc: Global, path: &str, number: u64) -> Result<String, Memory> {
    let folder = match path.rsplit_once('/') {
        Some((folder, _)) => folder,
        None => ".",
    };
    let text = format!(in alloc; "{folder}/.nfs3-copy-{number}")?;
    Ok(text)
}

/// Why the system refused a call. Out of memory is no such cause.
pub(crate) fn refused(error: &io::Error) -> Result<Why, Memory> {
    if error.kind() == ErrorKind::OutOfMemory {
        return Err(Memory);
    }
    match error.raw_os_error() {
        Some(number) => Ok(Why::Refused(number.unsigned_abs())),
        None => Ok(Why::Refused(0)),
    }
}

/// Why what was looked for wasn't found.
pub(crate) fn unfound(error: &io::Error) -> Result<Why, Memory> {
    if error.kind() == ErrorKind::NotFound {
        return Ok(Why::Missing);
    }
    refused(error)
}

/// Whether what was found is a file of that size.
pub(crate) fn is_file_of(found: io::Result<Metadata>, size: u64) -> bool {
    match found {
        Ok(metadata) => metadata.is_file() && metadata.len() == size,
        Err(_) => false,
    }
}
