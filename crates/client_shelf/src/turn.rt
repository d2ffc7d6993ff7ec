//! What a step of an operation is told.

use nfs_dir_calls::DirReply;
use nfs_file_calls::FileReply;
use world_model::Fault;

/// What one step of an operation is told.
#[derive(Clone, Copy, Debug, PartialEq, Eq)]
pub struct Turn {
    /// The xid that a call gets which this step makes.
    pub xid: u32,
    /// The moment of such a call: a number that rises with each operation and each call.
    pub moment: u64,
    /// The latest reading of the clock, in milliseconds.
    pub now: u64,
    /// Whether a call may be made now.
    pub room: bool,
}

/// What came of a call.
#[derive(Debug, Drop)]
pub enum Came<'a> {
    /// A reply to a call on a file.
    File(FileReply<'a>),
    /// A reply to a call on a directory.
    Dir(DirReply<'a>),
    /// The call was refused by RPC, was answered badly, or couldn't be made.
    Refused(Fault),
}
