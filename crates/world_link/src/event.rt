//! What happens at the server beside the client's calls.

ghost use Rattle.std.specs.Prelude.{◌≡◌, IfOk};
ghost use Rattle.script_text.specs.Lines.{words};
ghost use Rattle.world_link.specs.Events.{offset_of, named_path_of, reboot_of, flush_of, write_of, truncate_of, create_of, remove_of, rename_of, event_named, event_of};

use script_text::{contents, long_number, next_word, one_word, path, three_words, two_words};
use std::alloc::Global;
use world_model::Path;
use xdr_codec::{Blob, Memory};

/// The greatest offset, and the greatest size.
const MOST_OFFSET: u64 = 4_611_686_018_427_387_904;

/// An event at the server: a restart, a file made stable, or a call of another client. The objects of its paths are those
/// at the moment when it happens.
#[derive(Debug, Drop)]
pub enum Event {
    /// The server restarts.
    Reboot,
    /// The whole file becomes stable.
    Flush(Path),
    /// Another client writes the bytes at the offset, and they are stable.
    Write {
        path: Path,
        offset: u64,
        bytes: Blob,
    },
    /// Another client sets the size.
    Truncate {
        path: Path,
        size: u64,
    },
    /// Another client makes the file, and writes the bytes if there are any.
    Create {
        path: Path,
        bytes: Blob,
    },
    /// Another client removes the name.
    Remove(Path),
    /// Another client renames.
    Rename {
        from: Path,
        to: Path,
    },
}

/// The event that a line's words ask for. None exactly if they are of no form.
pub(crate) fn read_event(alloc: Global, line: &[u8]) -> Result<Option<Event>, Memory>
    ensures { IfOk result (λ event. event ≡ event_of (words line.now)) }
{
    match next_word(line) {
        Some((kind, rest)) => event_named(alloc, kind, rest),
        None => Ok(None),
    }
}

/// The event of that kind.
fn event_named(alloc: Global, kind: &[u8], line: &[u8]) -> Result<Option<Event>, Memory>
    ensures { IfOk result (λ event. event ≡ event_named kind.now (words line.now)) }
{
    if kind == b"reboot".as_slice() {
        return Ok(reboot(line));
    }
    if kind == b"flush".as_slice() {
        return flush(alloc, line);
    }
    if kind == b"write".as_slice() {
        return write(alloc, line);
    }
    if kind == b"truncate".as_slice() {
        return truncate(alloc, line);
    }
    if kind == b"create".as_slice() {
        return create(alloc, line);
    }
    if kind == b"remove".as_slice() {
        return remove(alloc, line);
    }
    if kind == b"rename".as_slice() {
        return rename(alloc, line);
    }
    Ok(None)
}

fn reboot(line: &[u8]) -> Option<Event>
    ensures { result ≡ reboot_of (words line.now) }
{
    match next_word(line) {
        None => Some(Event::Reboot),
        Some(_) => None,
    }
}

fn flush(alloc: Global, line: &[u8]) -> Result<Option<Event>, Memory>
    ensures { IfOk result (λ event. event ≡ flush_of (words line.now)) }
{
    let Some(word) = one_word(line) else {
        return Ok(None);
    };
    match named_path(alloc, word)? {
        Some(path) => Ok(Some(Event::Flush(path))),
        None => Ok(None),
    }
}

fn remove(alloc: Global, line: &[u8]) -> Result<Option<Event>, Memory>
    ensures { IfOk result (λ event. event ≡ remove_of (words line.now)) }
{
    let Some(word) = one_word(line) else {
        return Ok(None);
    };
    match named_path(alloc, word)? {
        Some(path) => Ok(Some(Event::Remove(path))),
        None => Ok(None),
    }
}

fn write(alloc: Global, line: &[u8]) -> Result<Option<Event>, Memory>
    ensures { IfOk result (λ event. event ≡ write_of (words line.now)) }
{
    let Some((word, digits, hex)) = three_words(line) else {
        return Ok(None);
    };
    let Some(offset) = offset(digits) else {
        return Ok(None);
    };
    let Some(path) = named_path(alloc, word)? else {
        return Ok(None);
    };
    match contents(alloc, hex)? {
        Some(bytes) => Ok(Some(Event::Write {
            path,
            offset,
            bytes,
        })),
        None => Ok(None),
    }
}

fn truncate(alloc: Global, line: &[u8]) -> Result<Option<Event>, Memory>
    ensures { IfOk result (λ event. event ≡ truncate_of (words line.now)) }
{
    let Some((word, digits)) = two_words(line) else {
        return Ok(None);
    };
    let Some(size) = offset(digits) else {
        return Ok(None);
    };
    match named_path(alloc, word)? {
        Some(path) => Ok(Some(Event::Truncate { path, size })),
        None => Ok(None),
    }
}

fn create(alloc: Global, line: &[u8]) -> Result<Option<Event>, Memory>
    ensures { IfOk result (λ event. event ≡ create_of (words line.now)) }
{
    let Some((word, hex)) = two_words(line) else {
        return Ok(None);
    };
    let Some(path) = named_path(alloc, word)? else {
        return Ok(None);
    };
    match contents(alloc, hex)? {
        Some(bytes) => Ok(Some(Event::Create { path, bytes })),
        None => Ok(None),
    }
}

fn rename(alloc: Global, line: &[u8]) -> Result<Option<Event>, Memory>
    ensures { IfOk result (λ event. event ≡ rename_of (words line.now)) }
{
    let Some((from, to)) = two_words(line) else {
        return Ok(None);
    };
    let Some(from) = named_path(alloc, from)? else {
        return Ok(None);
    };
    match named_path(alloc, to)? {
        Some(to) => Ok(Some(Event::Rename { from, to })),
        None => Ok(None),
    }
}

/// A path other than `/` alone, which is no file and can't be renamed or removed.
fn named_path(alloc: Global, word: &[u8]) -> Result<Option<Path>, Memory>
    ensures { IfOk result (λ path. path ≡ named_path_of word.now) }
{
    let Some(path) = path(alloc, word)? else {
        return Ok(None);
    };
    if path.names().is_empty() {
        return Ok(None);
    }
    Ok(Some(path))
}

/// An offset or a size.
fn offset(digits: &[u8]) -> Option<u64>
    ensures { result ≡ offset_of digits.now }
{
    long_number(digits, 0, MOST_OFFSET)
}
