//! What a call and its reply say of the step that an entry tells.

ghost use Rattle.std.specs.Prelude.{◌≡◌, ℕ, IfOk, take, unwrap_or};
ghost use Rattle.nfs_types.specs.declared.verf.Verf.{Verf};
ghost use Rattle.nfs_types.specs.declared.wcc.Wcc.{Wcc};
ghost use Rattle.nfs_file_calls.specs.declared.owned.FileKept.TheVariants.{Write};
ghost use Rattle.world_link.specs.Replay.{cut, cut_file, dir_granted, file_granted, is_granted};
ghost use Rattle.world_trace.specs.Stepped.{may_change, may_change_dir, may_change_file};

use nfs_dir_calls::{DirCall, DirKept};
use nfs_file_calls::{FileCall, FileKept};
use std::alloc::Global;
use world_model::{Call, Reply};
use xdr_codec::{Blob, Memory};

/// Whether a reply grants a call of NFS: its status is 0 (RFC 1813, section 2.6).
pub(crate) fn is_granted(reply: &Reply) -> bool
    ensures { result ≡ is_granted reply.now }
{
    match reply {
        Reply::File(reply) => is_file_granted(reply),
        Reply::Dir(reply) => is_dir_granted(reply),
        Reply::Mount(_) => false,
    }
}

fn is_file_granted(reply: &FileKept) -> bool
    ensures { result ≡ file_granted reply.now }
{
    match reply {
        FileKept::GetAttrFail { .. } => false,
        FileKept::SetAttrFail { .. } => false,
        FileKept::AccessFail { .. } => false,
        FileKept::ReadFail { .. } => false,
        FileKept::WriteFail { .. } => false,
        FileKept::FsStatFail { .. } => false,
        FileKept::FsInfoFail { .. } => false,
        FileKept::PathConfFail { .. } => false,
        FileKept::CommitFail { .. } => false,
        _ => true,
    }
}

fn is_dir_granted(reply: &DirKept) -> bool
    ensures { result ≡ dir_granted reply.now }
{
    match reply {
        DirKept::LookupFail { .. } => false,
        DirKept::ReadLinkFail { .. } => false,
        DirKept::CreateFail { .. } => false,
        DirKept::MkDirFail { .. } => false,
        DirKept::SymLinkFail { .. } => false,
        DirKept::MkNodFail { .. } => false,
        DirKept::RemoveFail { .. } => false,
        DirKept::RmDirFail { .. } => false,
        DirKept::RenameFail { .. } => false,
        DirKept::LinkFail { .. } => false,
        DirKept::ReadDirFail { .. } => false,
        DirKept::ReadDirPlusFail { .. } => false,
        _ => true,
    }
}

/// Whether a call may change an object if it is granted.
pub(crate) fn may_change(call: &Call) -> bool
    ensures { result ≡ may_change call.now }
{
    match call {
        Call::File(call) => may_change_file(call),
        Call::Dir(call) => may_change_dir(call),
        Call::Mount(_) => false,
    }
}

fn may_change_file(call: &FileCall) -> bool
    ensures { result ≡ may_change_file call.now }
{
    match call {
        FileCall::SetAttr { .. } => true,
        FileCall::Write { .. } => true,
        FileCall::Commit { .. } => true,
        _ => false,
    }
}

fn may_change_dir(call: &DirCall) -> bool
    ensures { result ≡ may_change_dir call.now }
{
    match call {
        DirCall::Lookup { .. } => false,
        DirCall::ReadLink { .. } => false,
        DirCall::ReadDir { .. } => false,
        DirCall::ReadDirPlus { .. } => false,
        _ => true,
    }
}

/// A WRITE with the bytes alone that its reply counts. None if the call stays as it is.
pub(crate) fn cut(alloc: Global, call: &Call, reply: &Reply) -> Result<Option<Call>, Memory>
    ensures { IfOk result (λ made. unwrap_or made call.now ≡ cut call.now reply.now) }
{
    let Call::File(call) = call else {
        return Ok(None);
    };
    let Reply::File(reply) = reply else {
        return Ok(None);
    };
    match cut_file(alloc, call, reply)? {
        Some(call) => Ok(Some(Call::File(call))),
        None => Ok(None),
    }
}

fn cut_file(alloc: Global, call: &FileCall, reply: &FileKept) -> Result<Option<FileCall>, Memory>
    ensures { IfOk result (λ made. unwrap_or made call.now ≡ cut_file call.now reply.now) }
{
    let FileKept::Write { count, .. } = reply else {
        return Ok(None);
    };
    cut_write(alloc, call, *count as usize)
}

fn cut_write(alloc: Global, call: &FileCall, count: usize) -> Result<Option<FileCall>, Memory>
    ensures { (wcc : Wcc) (committed : ℕ) (verf : Verf)
        → IfOk result (λ made. unwrap_or made call.now ≡ cut_file call.now (Write wcc count committed verf)) }
{
    let FileCall::Write {
        file,
        offset,
        how,
        bytes,
    } = call
    else {
        return Ok(None);
    };
    match front(alloc, bytes.bytes(), count)? {
        Some(bytes) => Ok(Some(FileCall::Write {
            file: *file,
            offset: *offset,
            how: *how,
            bytes,
        })),
        None => Ok(None),
    }
}

/// The first bytes, so many. None if there are no more.
fn front(alloc: Global, bytes: &[u8], count: usize) -> Result<Option<Blob>, Memory>
    ensures { IfOk result (λ front. unwrap_or front bytes.now ≡ take count bytes.now) }
{
    if count >= bytes.len() {
        return Ok(None);
    }
    let (front, _) = bytes.split_at(count);
    Ok(Some(Blob::copy(alloc, front)?))
}
