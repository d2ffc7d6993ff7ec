//! What the replies to WRITE and COMMIT say.

ghost use Rattle.std.specs.Prelude.{◌≡◌};
ghost use Rattle.client_shelf.specs.Coming.{reply_of};
ghost use Rattle.nfs_file_calls.specs.Replies.{kept_of};
ghost use Rattle.file_ops.specs.Judging.{written_by, write_told_by, write_told, commit_told_by, commit_told, after_by, after_of};

use client_shelf::Came;
use nfs_file_calls::FileReply;
use nfs_types::{Attr, Verf, Wcc};
use world_model::Fault;

/// What the reply to a WRITE says.
#[derive(Clone, Copy, Debug)]
pub(crate) enum WriteTold {
    /// The server has the first `count` bytes.
    Done {
        wcc: Wcc,
        count: u32,
        committed: u32,
        verf: Verf,
    },
    /// The server has refused them, with this status.
    Refused(u32),
    /// There is no such reply, or it breaks a rule.
    Fails(Fault),
}

/// What came of a WRITE of `size` bytes in this way.
pub(crate) fn write_told(came: &Came<'_>, how: u32, size: usize) -> WriteTold
    ensures { result ≡ write_told how size (reply_of came.now) }
{
    match came {
        Came::File(reply) => write_told_by(reply, how, size),
        Came::Dir(_) => WriteTold::Fails(Fault::Bad(2)),
        Came::Refused(fault) => WriteTold::Fails(*fault),
    }
}

fn write_told_by(reply: &FileReply<'_>, how: u32, size: usize) -> WriteTold
    ensures { result ≡ write_told_by how size (kept_of reply.now) }
{
    match *reply {
        FileReply::Write {
            wcc,
            count,
            committed,
            verf,
        } => written_by(how, size, wcc, count, committed, verf),
        FileReply::WriteFail { status, .. } => WriteTold::Refused(status.0),
        _ => WriteTold::Fails(Fault::Bad(2)),
    }
}

/// The rules of a WRITE that was done: its way is one that the call allows, and it counts some of the bytes.
fn written_by(how: u32, size: usize, wcc: Wcc, count: u32, committed: u32, verf: Verf) -> WriteTold
    ensures { result ≡ written_by how size wcc count committed verf }
{
    if committed < how || committed > 2 {
        return WriteTold::Fails(Fault::Bad(3));
    }
    if count == 0 || count as usize > size {
        return WriteTold::Fails(Fault::Bad(4));
    }
    WriteTold::Done {
        wcc,
        count,
        committed,
        verf,
    }
}

/// What came of a COMMIT: its verifier if it was done.
pub(crate) fn commit_told(came: &Came<'_>) -> Result<Verf, Fault>
    ensures { result ≡ commit_told (reply_of came.now) }
{
    match came {
        Came::File(reply) => commit_told_by(reply),
        Came::Dir(_) => Err(Fault::Bad(2)),
        Came::Refused(fault) => Err(*fault),
    }
}

fn commit_told_by(reply: &FileReply<'_>) -> Result<Verf, Fault>
    ensures { result ≡ commit_told_by (kept_of reply.now) }
{
    match *reply {
        FileReply::Commit { verf, .. } => Ok(verf),
        FileReply::CommitFail { status, .. } => Err(Fault::Nfs(status.0)),
        _ => Err(Fault::Bad(2)),
    }
}

/// The attributes of the file after a WRITE or a COMMIT, if the reply gives them.
pub(crate) fn after_of(came: &Came<'_>) -> Option<Attr>
    ensures { result ≡ after_of (reply_of came.now) }
{
    match came {
        Came::File(reply) => after_by(reply),
        Came::Dir(_) => None,
        Came::Refused(_) => None,
    }
}

fn after_by(reply: &FileReply<'_>) -> Option<Attr>
    ensures { result ≡ after_by (kept_of reply.now) }
{
    match *reply {
        FileReply::Write { wcc, .. } => wcc.after,
        FileReply::WriteFail { wcc, .. } => wcc.after,
        FileReply::Commit { wcc, .. } => wcc.after,
        FileReply::CommitFail { wcc, .. } => wcc.after,
        _ => None,
    }
}
