//! Which procedures replies answer.

ghost use Rattle.std.specs.Prelude.{◌≡◌, ◌↔◌, IsTrue};
ghost use Rattle.export_serve.specs.Spelling.{RepliesTo};
ghost use Rattle.mount_calls.specs.Replies.{reply_proc as mount_reply_proc};
ghost use Rattle.nfs_dir_calls.specs.Replies.{reply_proc as dir_reply_proc};
ghost use Rattle.nfs_file_calls.specs.Replies.{reply_proc as file_reply_proc};

use mount_calls::{MountReply, mount_proc};
use nfs_dir_calls::{DirKept, dir_proc};
use nfs_file_calls::{FileKept, file_proc};
use world_model::{Call, Reply};

/// Whether a reply is one of the procedure that a call asks for.
pub(crate) fn replies_to(call: &Call, reply: &Reply) -> bool
    ensures { IsTrue result ↔ RepliesTo call.now reply.now }
{
    match call {
        Call::File(call) => match reply {
            Reply::File(reply) => file_reply_proc(reply) == file_proc(call),
            _ => false,
        },
        Call::Dir(call) => match reply {
            Reply::Dir(reply) => dir_reply_proc(reply) == dir_proc(call),
            _ => false,
        },
        Call::Mount(call) => match reply {
            Reply::Mount(reply) => mount_reply_proc(reply) == mount_proc(call),
            _ => false,
        },
    }
}

fn file_reply_proc(reply: &FileKept) -> u32
    ensures { result ≡ file_reply_proc reply.now }
{
    match reply {
        FileKept::Null => 0,
        FileKept::GetAttr { .. } => 1,
        FileKept::GetAttrFail { .. } => 1,
        FileKept::SetAttr { .. } => 2,
        FileKept::SetAttrFail { .. } => 2,
        FileKept::Access { .. } => 4,
        FileKept::AccessFail { .. } => 4,
        FileKept::Read { .. } => 6,
        FileKept::ReadFail { .. } => 6,
        FileKept::Write { .. } => 7,
        FileKept::WriteFail { .. } => 7,
        FileKept::FsStat { .. } => 18,
        FileKept::FsStatFail { .. } => 18,
        FileKept::FsInfo { .. } => 19,
        FileKept::FsInfoFail { .. } => 19,
        FileKept::PathConf { .. } => 20,
        FileKept::PathConfFail { .. } => 20,
        FileKept::Commit { .. } => 21,
        FileKept::CommitFail { .. } => 21,
    }
}

fn dir_reply_proc(reply: &DirKept) -> u32
    ensures { result ≡ dir_reply_proc reply.now }
{
    match reply {
        DirKept::Lookup { .. } => 3,
        DirKept::LookupFail { .. } => 3,
        DirKept::ReadLink { .. } => 5,
        DirKept::ReadLinkFail { .. } => 5,
        DirKept::Create { .. } => 8,
        DirKept::CreateFail { .. } => 8,
        DirKept::MkDir { .. } => 9,
        DirKept::MkDirFail { .. } => 9,
        DirKept::SymLink { .. } => 10,
        DirKept::SymLinkFail { .. } => 10,
        DirKept::MkNod { .. } => 11,
        DirKept::MkNodFail { .. } => 11,
        DirKept::Remove { .. } => 12,
        DirKept::RemoveFail { .. } => 12,
        DirKept::RmDir { .. } => 13,
        DirKept::RmDirFail { .. } => 13,
        DirKept::Rename { .. } => 14,
        DirKept::RenameFail { .. } => 14,
        DirKept::Link { .. } => 15,
        DirKept::LinkFail { .. } => 15,
        DirKept::ReadDir { .. } => 16,
        DirKept::ReadDirFail { .. } => 16,
        DirKept::ReadDirPlus { .. } => 17,
        DirKept::ReadDirPlusFail { .. } => 17,
    }
}

fn mount_reply_proc(reply: &MountReply) -> u32
    ensures { result ≡ mount_reply_proc reply.now }
{
    match reply {
        MountReply::Null => 0,
        MountReply::MntOk { .. } => 1,
        MountReply::MntFail { .. } => 1,
        MountReply::Umnt => 3,
        MountReply::Export { .. } => 5,
    }
}
