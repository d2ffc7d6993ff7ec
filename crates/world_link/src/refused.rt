//! Calls that fail with a status that a schedule gives (RFC 1813, section 3.3).

ghost use Rattle.std.specs.Prelude.{◌≡◌, ◌<◌, Some, IfSome};
ghost use Rattle.mount_calls.specs.Replies.{HasSpellingReply as HasSpellingMount};
ghost use Rattle.nfs_dir_calls.specs.Replies.{HasSpellingDirReply};
ghost use Rattle.nfs_file_calls.specs.Replies.{HasSpellingReply as HasSpellingFile};
ghost use Rattle.export_fs.specs.Spelling.{HasSpellingReply};
ghost use Rattle.world_link.specs.Refused as refusals;

use mount_calls::{MountCall, MountReply};
use nfs_dir_calls::{DirCall, DirKept};
use nfs_file_calls::{FileCall, FileKept};
use nfs_types::{Status, Wcc};
use world_model::{Call, Reply};

/// Attributes that aren't given.
const NO_WCC: Wcc = Wcc {
    before: None,
    after: None,
};

/// The reply to a call that fails with this status, without attributes. None if the status is 0, or the call has none.
pub(crate) fn refused_by(status: u32, call: &Call) -> Option<Reply>
    ensures is { result ≡ refusals.refused_by (Some status) call.now }
    ensures spelled { IfSome result HasSpellingReply }
{
    if status == 0 {
        return None;
    }
    refused_with(status, call)
}

fn refused_with(status: u32, call: &Call) -> Option<Reply>
    requires { 0 < status }
    ensures is { result ≡ refusals.refused_with status call.now }
    ensures spelled { IfSome result HasSpellingReply }
{
    match call {
        Call::File(call) => match file_refused(status, call) {
            Some(reply) => Some(Reply::File(reply)),
            None => None,
        },
        Call::Dir(call) => Some(Reply::Dir(dir_refused(status, call))),
        Call::Mount(call) => match mount_refused(status, call) {
            Some(reply) => Some(Reply::Mount(reply)),
            None => None,
        },
    }
}

fn file_refused(number: u32, call: &FileCall) -> Option<FileKept>
    requires { 0 < number }
    ensures is { result ≡ refusals.file_refused number call.now }
    ensures spelled { IfSome result HasSpellingFile }
{
    let status = Status(number);
    let (attr, wcc) = (None, NO_WCC);
    match call {
        FileCall::Null => None,
        FileCall::GetAttr { .. } => Some(FileKept::GetAttrFail { status }),
        FileCall::SetAttr { .. } => Some(FileKept::SetAttrFail { status, wcc }),
        FileCall::Access { .. } => Some(FileKept::AccessFail { status, attr }),
        FileCall::Read { .. } => Some(FileKept::ReadFail { status, attr }),
        FileCall::Write { .. } => Some(FileKept::WriteFail { status, wcc }),
        FileCall::FsStat { .. } => Some(FileKept::FsStatFail { status, attr }),
        FileCall::FsInfo { .. } => Some(FileKept::FsInfoFail { status, attr }),
        FileCall::PathConf { .. } => Some(FileKept::PathConfFail { status, attr }),
        FileCall::Commit { .. } => Some(FileKept::CommitFail { status, wcc }),
    }
}

fn dir_refused(number: u32, call: &DirCall) -> DirKept
    requires { 0 < number }
    ensures is { result ≡ refusals.dir_refused number call.now }
    ensures spelled { HasSpellingDirReply result }
{
    let status = Status(number);
    let (attr, wcc) = (None, NO_WCC);
    match call {
        DirCall::Lookup { .. } => DirKept::LookupFail { status, dir: None },
        DirCall::ReadLink { .. } => DirKept::ReadLinkFail { status, attr },
        DirCall::Create { .. } => DirKept::CreateFail { status, wcc },
        DirCall::MkDir { .. } => DirKept::MkDirFail { status, wcc },
        DirCall::SymLink { .. } => DirKept::SymLinkFail { status, wcc },
        DirCall::MkNod { .. } => DirKept::MkNodFail { status, wcc },
        DirCall::Remove { .. } => DirKept::RemoveFail { status, wcc },
        DirCall::RmDir { .. } => DirKept::RmDirFail { status, wcc },
        DirCall::Rename { .. } => DirKept::RenameFail {
            status,
            from: NO_WCC,
            to: NO_WCC,
        },
        DirCall::Link { .. } => DirKept::LinkFail { status, attr, wcc },
        DirCall::ReadDir { .. } => DirKept::ReadDirFail { status, attr },
        DirCall::ReadDirPlus { .. } => DirKept::ReadDirPlusFail { status, attr },
    }
}

fn mount_refused(number: u32, call: &MountCall) -> Option<MountReply>
    requires { 0 < number }
    ensures is { result ≡ refusals.mount_refused number call.now }
    ensures spelled { IfSome result HasSpellingMount }
{
    match call {
        MountCall::Mnt { .. } => Some(MountReply::MntFail { stat: number }),
        MountCall::Null => None,
        MountCall::Umnt { .. } => None,
        MountCall::Export => None,
    }
}
