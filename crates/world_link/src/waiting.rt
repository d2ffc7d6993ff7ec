//! Records that wait for their turns.

use crate::directive::RequestId;
use xdr_codec::Blob;

/// A record that was sent and had no turn yet.
#[derive(Drop)]
pub(crate) struct Waiting {
    /// Which sending of its procedure it is, if it is a call of NFS.
    pub(crate) name: Option<RequestId>,
    pub(crate) bytes: Blob,
}

/// A record that waits for its turn, and the end that sent it.
#[derive(Drop)]
pub(crate) struct Queued {
    pub(crate) end: u8,
    pub(crate) waiting: Waiting,
}
