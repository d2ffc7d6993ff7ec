//! Records, each with the end of the link that it is of.

use world_model::Entry;
use xdr_codec::Blob;

/// The end of entries that no client caused.
pub(crate) const NO_CLIENT: u8 = 2;

/// An entry of the history, and the end of the client that caused it.
#[derive(Drop)]
pub struct Told {
    /// The end: 0 or 1, and 2 of an entry that no client caused.
    pub end: u8,
    /// The entry.
    pub entry: Entry,
}

/// A record, and the end that sent it, or to which it goes.
#[derive(Drop)]
pub(crate) struct Routed {
    pub(crate) end: u8,
    pub(crate) bytes: Blob,
}
