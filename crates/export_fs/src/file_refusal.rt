//! When a call on a file is refused.

ghost use Rattle.std.specs.Prelude.{◌≡◌, option_copied};
ghost use Rattle.export_fs.specs.Parts.{object};
ghost use Rattle.export_fs.specs.Refusals as refusals;

use crate::node::{DIRECTORY, LINK};
use crate::nodes::Nodes;
use crate::places::is_bad;
use crate::status::{BADHANDLE, FBIG, INVAL, ISDIR, NOSPC, NOT_SYNC, OK, STALE};
use crate::tree::Tree;
use nfs_file_calls::FileCall;
use nfs_types::{Handle, Time};

/// The most bytes of a file.
pub(crate) const MOST_SIZE: u64 = 16_777_216;

/// The file handle of a call; NULL has none.
pub(crate) fn file_of(call: &FileCall) -> Option<&Handle>
    ensures { option_copied result ≡ refusals.file_of call.entry.now }
{
    match call {
        FileCall::Null => None,
        FileCall::GetAttr { file }
        | FileCall::SetAttr { file, .. }
        | FileCall::Access { file, .. }
        | FileCall::Read { file, .. }
        | FileCall::Write { file, .. }
        | FileCall::FsStat { file }
        | FileCall::FsInfo { file }
        | FileCall::PathConf { file }
        | FileCall::Commit { file, .. } => Some(file),
    }
}

/// Whether the call is for files alone.
fn needs_file(call: &FileCall) -> bool
    ensures { result ≡ refusals.needs_file call.now }
{
    match call {
        FileCall::SetAttr { set, .. } => set.size.is_some(),
        FileCall::Read { .. } => true,
        FileCall::Write { .. } => true,
        FileCall::Commit { .. } => true,
        _ => false,
    }
}

/// Whether the ctime of a file isn't that time.
fn is_other_time(nodes: &Nodes, file: &Handle, guard: &Time) -> bool
    ensures { result ≡ refusals.is_other_time (object nodes.now file.now) guard.now }
{
    match nodes.object(file) {
        Some(node) => !(node.ctime == guard.seconds && guard.nanos == 0),
        None => false,
    }
}

/// Whether the guard of a SETATTR differs from the ctime.
fn is_out_of_sync(nodes: &Nodes, call: &FileCall) -> bool
    ensures { result ≡ refusals.is_out_of_sync nodes.now call.now }
{
    match call {
        FileCall::SetAttr { file, guard, .. } => match guard {
            Some(guard) => is_other_time(nodes, file, guard),
            None => false,
        },
        _ => false,
    }
}

/// Whether a file would end past its most bytes.
fn is_too_big(call: &FileCall) -> bool
    ensures { result ≡ refusals.is_too_big call.now }
{
    match call {
        FileCall::SetAttr { set, .. } => match set.size {
            Some(size) => size > MOST_SIZE,
            None => false,
        },
        FileCall::Write { offset, bytes, .. } => {
            let len = bytes.bytes().len() as u64;
            *offset > MOST_SIZE || len > MOST_SIZE - *offset
        }
        _ => false,
    }
}

/// Whether the call is a change that takes a number.
fn changes_file(call: &FileCall) -> bool
    ensures { result ≡ refusals.changes_file call.now }
{
    match call {
        FileCall::SetAttr { .. } => true,
        FileCall::Write { .. } => true,
        _ => false,
    }
}

impl Tree {
    /// The status of a call on a file that is refused, and 0 of another one: the first of these that holds.
    pub(crate) fn file_refusal(&self, call: &FileCall) -> u32
        ensures { result ≡ refusals.file_refusal self.now call.now }
    {
        match file_of(call) {
            Some(file) => self.refusal_on(call, file),
            None => OK,
        }
    }

    fn refusal_on(&self, call: &FileCall, file: &Handle) -> u32
        ensures { result ≡ refusals.refusal_on self.now call.now file.now }
    {
        if is_bad(file) {
            BADHANDLE
        } else if self.nodes.is_stale(file) {
            STALE
        } else if needs_file(call) && self.nodes.kind(file) == DIRECTORY {
            ISDIR
        } else if needs_file(call) && self.nodes.kind(file) == LINK {
            INVAL
        } else if is_out_of_sync(&self.nodes, call) {
            NOT_SYNC
        } else if is_too_big(call) {
            FBIG
        } else if changes_file(call) && self.is_full() {
            NOSPC
        } else {
            OK
        }
    }
}
