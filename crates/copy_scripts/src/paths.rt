//! Paths of the server.

ghost use Rattle.std.specs.Bool.{OnFalse, OnTrue};
ghost use Rattle.std.specs.Prelude.{◌≡◌, ◌≤◌, ◌++◌, IfOk, IfSome, None, Ok};
ghost use Rattle.script_text.specs.Paths.{path_bytes};
ghost use Rattle.nfs_script.specs.Asked.{IsNamed};

use nfs_types::Name;
use std::alloc::Global;
use world_model::Path;
use xdr_codec::Memory;

/// The most bytes of a path, each name with its slash.
const MOST_BYTES: usize = 1024;

/// The path that a text of the command line stands for: it begins with a slash, and its names are parted by single ones; there may be one at
/// its end. None if it has another form, a name `.` or `..`, or more than 1,024 bytes.
pub fn server_path(alloc: Global, text: &str) -> Result<Option<Path>, Memory>
    ensures { IfOk result (λ path. IfSome path (λ p. path_bytes p ≤ 1024)) }
{
    let Some(rest) = text.strip_prefix('/') else {
        return Ok(None);
    };
    match names_in(alloc, rest)? {
        Some(names) => Ok(short_path(names)),
        None => Ok(None),
    }
}

/// The names between single slashes; none if there is another name, or too many.
fn names_in(alloc: Global, text: &str) -> Result<Option<Vec<Name>>, Memory> {
    let mut names = Vec::new(alloc);
    let mut rest = text;
    for _ in 0..MOST_BYTES {
        if rest.is_empty() {
            return Ok(Some(names));
        }
        let (piece, after) = first_piece(rest);
        let Some(name) = name_of(piece.as_bytes()) else {
            return Ok(None);
        };
        names.push(name)?;
        rest = after;
    }
    Ok(None)
}

/// What stands before the first slash, and what stands after it.
fn first_piece(text: &str) -> (&str, &str) {
    match text.split_once('/') {
        Some((piece, after)) => (piece, after),
        None => (text, ""),
    }
}

/// A name other than `.` and `..`.
fn name_of(bytes: &[u8]) -> Option<Name> {
    if bytes == b".".as_slice() || bytes == b"..".as_slice() {
        return None;
    }
    Name::make(bytes)
}

/// The path along these names, if it has 1,024 bytes at most.
fn short_path(names: Vec<Name>) -> Option<Path>
    ensures some { IfSome result (λ p. (p ≡ names.items) × (path_bytes p ≤ 1024)) }
    ensures none { result ≡ None → path_bytes names.items ≤ 1024 → ⊥ }
{
    if is_short(names.as_slice()) {
        Some(Path::of(names))
    } else {
        None
    }
}

/// The path below another one; none if it has no name, or more than 1,024 bytes.
pub fn below(alloc: Global, to: &Path, path: &Path) -> Result<Option<Path>, Memory>
    ensures some { IfOk result (λ found. IfSome found (λ p. (p ≡ to.now ++ path.now) × IsNamed p)) }
    ensures none { result ≡ Ok None → IsNamed (to.now ++ path.now) → ⊥ }
{
    let mut names = Vec::new(alloc);
    names.extend_from_slice(to.names())?;
    names.extend_from_slice(path.names())?;
    if names.is_empty() {
        return Ok(None);
    }
    Ok(short_path(names))
}

/// Whether these names have 1,024 bytes at most, each with its slash.
fn is_short(names: &[Name]) -> bool
    ensures short { OnTrue result (path_bytes names.now ≤ 1024) }
    ensures long { OnFalse result (path_bytes names.now ≤ 1024 → ⊥) }
{
    let mut count: usize = 0;
    for name in names {
        count += name.bytes().len() + 1;
        if count > MOST_BYTES {
            return false;
        }
    }
    true
}
