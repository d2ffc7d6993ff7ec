//! What a history is made of. One entry is one atomic step: each claim holds for every order of entries.

use crate::answer::Answer;
use crate::message::{Call, Reply};
use crate::op::Op;
use nfs_types::{Handle, Verf};
use xdr_codec::Blob;

/// One step of the client, of the link or of the server.
#[derive(Debug, Drop)]
pub enum Entry {
    /// An operation began: the lane and the line of the script that ask for it.
    Began { lane: u8, line: u32, op: Op },
    /// The operation of that lane and line was answered.
    Answered { lane: u8, line: u32, answer: Answer },
    /// A connection to the port was asked for, in place of the one before.
    Dialed { port: u16 },
    /// A record was sent.
    Sent { bytes: Blob },
    /// The server executed a call of this client.
    Executed { xid: u32, call: Call, reply: Reply },
    /// The server executed a call of another client.
    Foreign { call: Call, reply: Reply },
    /// The server made a range of a file stable by itself.
    Flushed { file: Handle, from: u64, len: u64 },
    /// The server restarted with another write verifier.
    Reboot { verf: Verf },
    /// A record came.
    Delivered { bytes: Blob },
    /// The dial, the transmission or the waiting before this entry failed, or no record came in time.
    Failed,
    /// The clock was read: milliseconds.
    Clock { ms: u64 },
}

/// What the client notes in the history.
#[derive(Debug, Drop)]
pub enum Mark {
    /// As the entry.
    Began { lane: u8, line: u32, op: Op },
    /// As the entry.
    Answered { lane: u8, line: u32, answer: Answer },
    /// As the entry.
    Clock { ms: u64 },
}
