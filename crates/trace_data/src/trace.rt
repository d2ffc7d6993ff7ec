//! A history as data: its entries, and the server at each moment by what each entry changes of it.

use nfs_types::{Attr, Handle, Name, Verf};
use world_model::Entry;
use xdr_codec::Blob;

/// An entry of a directory.
#[derive(Clone, Copy, Debug, PartialEq, Eq)]
pub struct DirEntry {
    /// The name.
    pub name: Name,
    /// The file handle of the object that has the name.
    pub object: Handle,
    /// The cookie (RFC 1813, section 3.3.16).
    pub cookie: u64,
}

/// What an object holds.
#[derive(Debug, Drop)]
pub enum Contents {
    /// A file: its bytes, and those that a restart leaves.
    File { now: Blob, stable: Blob },
    /// A directory: its entries.
    Directory { entries: Vec<DirEntry> },
    /// A symbolic link holds a text, any other object none.
    Other { text: Blob },
}

/// An object of a server.
#[derive(Debug, Drop)]
pub struct Object {
    /// Its attributes.
    pub attr: Attr,
    /// Whether its last name was removed.
    pub gone: bool,
    /// What it holds.
    pub contents: Contents,
}

/// An object under its file handle, as it is after an update.
#[derive(Debug, Drop)]
pub struct Updated {
    /// The file handle.
    pub handle: Handle,
    /// The object.
    pub object: Object,
}

/// What a server is after an entry. Each object that isn't named stays as it was.
#[derive(Debug, Drop)]
pub struct Update {
    /// The write verifier.
    pub verf: Verf,
    /// The objects that may have changed. Of two under one handle the first counts.
    pub objects: Vec<Updated>,
}

/// A history, and the server at each of its moments.
#[derive(Debug, Drop)]
pub struct Trace {
    /// The root's file handle, if it is known beforehand.
    pub root: Option<Handle>,
    /// The greatest lifetime of cached attributes, in milliseconds.
    pub lives: u64,
    /// Whether no attributes are cached.
    pub noac: bool,
    /// Whether an open doesn't ask for attributes anew.
    pub nocto: bool,
    /// The server before the first entry.
    pub start: Update,
    /// The entries.
    pub entries: Vec<Entry>,
    /// The server after each entry, in the order of entries. An entry that has none changes nothing.
    pub updates: Vec<Update>,
}
