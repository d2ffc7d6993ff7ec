//! What the words of an answer show.

ghost use Rattle.std.specs.Prelude.{◌≡◌, ◌∷◌, IfOk, IfSome, Some, codes};
ghost use Rattle.script_text.specs.Lines.{words as text_words};
ghost use Rattle.fetch_scripts.specs.Answering.{bytes_of};

use nfs_types::Name;
use script_text::{decoded, long_number, next_word, number, payload};
use std::alloc::Global;
use xdr_codec::{Blob, Memory};

/// A regular file, a folder and a symbolic link, as attributes show them (RFC 1813, section 2.5).
const FILE: u32 = 1;

const FOLDER: u32 = 2;

const LINK: u32 = 5;

/// What stands at a path, as its attributes show it.
#[derive(Clone, Copy, PartialEq, Eq)]
pub(crate) enum Shown {
    /// A file of that size.
    File(u64),
    /// A folder.
    Folder,
    /// A symbolic link.
    Link,
    /// Something else.
    Other,
}

/// What follows `ok`; none if the answer is another one.
pub(crate) fn after_ok<'a>(words: &'a [u8]) -> Option<&'a [u8]>
    ensures { IfSome result (λ rest. text_words words.entry.now ≡ codes "ok" ∷ text_words rest.now) }
{
    let (word, rest) = next_word(words)?;
    if word == b"ok".as_slice() {
        Some(rest)
    } else {
        None
    }
}

/// What a `stat` shows: KIND MODE NLINK UID GID SIZE FILEID MTIME.
pub(crate) fn object_shown(words: &[u8]) -> Option<Shown> {
    let (kind, rest) = next_word(words)?;
    let (_mode, rest) = next_word(rest)?;
    let (_links, rest) = next_word(rest)?;
    let (_user, rest) = next_word(rest)?;
    let (_group, rest) = next_word(rest)?;
    let (size, _) = next_word(rest)?;
    match number(kind, 0, u32::MAX)? {
        FILE => Some(Shown::File(long_number(size, 0, u64::MAX)?)),
        FOLDER => Some(Shown::Folder),
        LINK => Some(Shown::Link),
        _ => Some(Shown::Other),
    }
}

/// The bytes that a `read` shows, which may be none.
pub(crate) fn bytes_shown(alloc: Global, words: &[u8]) -> Result<Option<Blob>, Memory>
    ensures { IfOk result (λ shown. IfSome shown (λ bytes. bytes_of (text_words words.now) ≡ Some bytes)) }
{
    match next_word(words) {
        Some((digits, _)) => payload(alloc, digits),
        None => Ok(Some(Blob::copy(alloc, &[])?)),
    }
}

/// The names that a `list` shows; none if one can't be read.
pub(crate) fn names_shown(alloc: Global, words: &[u8]) -> Result<Option<Vec<Name>>, Memory> {
    let mut names = Vec::new(alloc);
    let mut rest = words;
    for _ in 0..words.len() {
        let Some((word, after)) = next_word(rest) else {
            return Ok(Some(names));
        };
        let Some(name) = name_shown(alloc, word)? else {
            return Ok(None);
        };
        names.push(name)?;
        rest = after;
    }
    Ok(Some(names))
}

/// The name that a word shows; none if it is `.` or `..`, or has a slash or a zero byte.
fn name_shown(alloc: Global, word: &[u8]) -> Result<Option<Name>, Memory> {
    let Some(bytes) = decoded(alloc, word)? else {
        return Ok(None);
    };
    let bytes = bytes.as_slice();
    if bytes == b".".as_slice() || bytes == b"..".as_slice() {
        return Ok(None);
    }
    Ok(Name::make(bytes))
}

/// The text of a link that a `readlink` shows.
pub(crate) fn text_shown(alloc: Global, words: &[u8]) -> Result<Option<Vec<u8>>, Memory> {
    let Some((word, _)) = next_word(words) else {
        return Ok(None);
    };
    decoded(alloc, word)
}
