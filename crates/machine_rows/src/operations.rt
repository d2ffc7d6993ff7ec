//! The operations that lines begin.

use crate::words::{file, first_word, mode_of, number_at, small, text, tiny, word_at};
use op_machines::Mounted;
use std::alloc::Global;
use world_model::{Op, Path};
use xdr_codec::{Blob, Memory};

/// The export as a line sees it: its last word may be `noac` or `nocto`.
pub(crate) fn mounted(rsize: u32, words: &str) -> Mounted {
    Mounted {
        root: file(1),
        rsize,
        noac: text(words) == "noac",
        nocto: text(words) == "nocto",
    }
}

/// The operation that a line asks for. None if its first word is that of none, or there is no memory.
pub(crate) fn operation(alloc: Global, word: &str, words: &str) -> Option<Op> {
    let (first, rest) = first_word(words);
    match word {
        "stat" => Some(Op::Stat {
            path: path(alloc, first)?,
        }),
        "access" => Some(Op::Access {
            path: path(alloc, first)?,
            bits: small(number_at(rest, 0)),
        }),
        "readlink" => Some(Op::ReadLink {
            path: path(alloc, first)?,
        }),
        "list" => Some(Op::List {
            path: path(alloc, first)?,
        }),
        _ => change(alloc, word, first, rest),
    }
}

/// The operation that a line asks for, if it changes what stands at a path, or is on a slot.
fn change(alloc: Global, word: &str, first: &str, rest: &str) -> Option<Op> {
    match word {
        "mkdir" => Some(Op::MakeDir {
            path: path(alloc, first)?,
        }),
        "rmdir" => Some(Op::RemoveDir {
            path: path(alloc, first)?,
        }),
        "remove" => Some(Op::Remove {
            path: path(alloc, first)?,
        }),
        "rename" => Some(Op::Rename {
            from: path(alloc, first)?,
            to: path(alloc, rest)?,
        }),
        "link" => Some(Op::Link {
            from: path(alloc, first)?,
            to: path(alloc, rest)?,
        }),
        "symlink" => Some(Op::SymLink {
            path: path(alloc, first)?,
            target: bytes(alloc, rest)?,
        }),
        "put" => Some(Op::Put {
            path: path(alloc, first)?,
            offset: number_at(rest, 0),
            bytes: bytes(alloc, word_at(rest, 1))?,
        }),
        _ => on_slot(alloc, word, tiny(number_at(first, 0)), rest),
    }
}

/// The operation on a slot that a line asks for.
fn on_slot(alloc: Global, word: &str, slot: u8, words: &str) -> Option<Op> {
    let offset = number_at(words, 0);
    match word {
        "open" => Some(Op::OpenFile {
            slot,
            mode: mode_of(word_at(words, 0)),
            path: path(alloc, word_at(words, 1))?,
        }),
        "read" => Some(Op::Read {
            slot,
            offset,
            count: small(number_at(words, 1)),
        }),
        "write" => Some(Op::Write {
            slot,
            offset,
            bytes: bytes(alloc, word_at(words, 1))?,
        }),
        "fill" => Some(Op::Fill {
            slot,
            offset,
            count: small(number_at(words, 1)),
            byte: tiny(number_at(words, 2)),
        }),
        "sync" => Some(Op::Sync { slot }),
        "close" => Some(Op::Close { slot }),
        "truncate" => Some(Op::Truncate { slot, size: offset }),
        _ => None,
    }
}

/// A path.
fn path(alloc: Global, word: &str) -> Option<Path> {
    script_text::path(alloc, word.as_bytes()).unwrap_or(None)
}

/// The bytes of a word.
fn bytes(alloc: Global, word: &str) -> Option<Blob> {
    match Blob::copy(alloc, word.as_bytes()) {
        Ok(bytes) => Some(bytes),
        Err(Memory) => None,
    }
}
