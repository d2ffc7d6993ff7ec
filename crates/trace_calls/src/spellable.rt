//! Which calls and replies bytes can spell.

ghost use Rattle.std.specs.Prelude.{◌↔◌, IsTrue};
ghost use Rattle.export_fs.specs.Spelling.{HasSpellingCall, HasSpellingReply};
ghost use Rattle.mount_calls.specs.Calls.{HasSpellingCall as HasSpellingMountCall};
ghost use Rattle.mount_calls.specs.Exports.{AreExports, AreGroups, IsRow};
ghost use Rattle.mount_calls.specs.Replies.{HasSpellingReply as HasSpellingMountReply};
ghost use Rattle.nfs_dir_calls.specs.Calls.{HasSpellingDirCall};
ghost use Rattle.nfs_dir_calls.specs.Nodes.{IsNode};
ghost use Rattle.nfs_dir_calls.specs.Replies.{HasSpellingDirReply};
ghost use Rattle.nfs_file_calls.specs.Calls.{HasSpellingCall as HasSpellingFileCall};
ghost use Rattle.nfs_file_calls.specs.Replies.{HasSpellingReply as HasSpellingFileReply};

use mount_calls::{ExportList, ExportRow, Groups, MountCall, MountReply};
use nfs_dir_calls::{DirCall, DirKept, Node};
use nfs_file_calls::{FileCall, FileKept};
use world_model::{Call, Reply};

/// The most bytes of a path and of a link's text (RFC 1813, sections 5.1.2 and 2.4).
const MOST_TEXT: usize = 1024;

/// The most bytes of a READ and of a WRITE.
const MOST_DATA: usize = 65_536;

/// The most bytes of a group's name (RFC 1813, section 5.1.4).
const MOST_GROUP: usize = 255;

/// The most flavors of MNT's reply.
const MOST_FLAVORS: usize = 64;

/// Whether bytes can spell the call:
/// - a WRITE has at most 65,536 bytes and a known `how`;
/// - a path or text has at most 1,024 bytes;
/// - a node has the kind of what it is.
pub fn is_spellable(call: &Call) -> bool
    ensures { IsTrue result ↔ HasSpellingCall call.now }
{
    match call {
        Call::File(call) => is_file_call(call),
        Call::Dir(call) => is_dir_call(call),
        Call::Mount(call) => is_mount_call(call),
    }
}

fn is_file_call(call: &FileCall) -> bool
    ensures { IsTrue result ↔ HasSpellingFileCall call.now }
{
    match call {
        FileCall::Write { how, bytes, .. } => *how <= 2 && bytes.bytes().len() <= MOST_DATA,
        _ => true,
    }
}

fn is_dir_call(call: &DirCall) -> bool
    ensures { IsTrue result ↔ HasSpellingDirCall call.now }
{
    match call {
        DirCall::SymLink { target, .. } => target.bytes().len() <= MOST_TEXT,
        DirCall::MkNod { node, .. } => is_node(node),
        _ => true,
    }
}

fn is_node(node: &Node) -> bool
    ensures { IsTrue result ↔ IsNode node.now }
{
    match node {
        Node::Device { kind, .. } => *kind == 3 || *kind == 4,
        Node::Pipe { kind, .. } => *kind == 6 || *kind == 7,
        Node::Plain { kind } => *kind != 3 && *kind != 4 && *kind != 6 && *kind != 7,
    }
}

fn is_mount_call(call: &MountCall) -> bool
    ensures { IsTrue result ↔ HasSpellingMountCall call.now }
{
    match call {
        MountCall::Mnt { path } => path.bytes().len() <= MOST_TEXT,
        MountCall::Umnt { path } => path.bytes().len() <= MOST_TEXT,
        _ => true,
    }
}

/// Whether bytes can spell the reply: a failure's status isn't 0, and data, texts, flavors and exports have no more than
/// their bounds.
pub fn is_spellable_reply(reply: &Reply) -> bool
    ensures { IsTrue result ↔ HasSpellingReply reply.now }
{
    match reply {
        Reply::File(reply) => is_file_reply(reply),
        Reply::Dir(reply) => is_dir_reply(reply),
        Reply::Mount(reply) => is_mount_reply(reply),
    }
}

fn is_file_reply(reply: &FileKept) -> bool
    ensures { IsTrue result ↔ HasSpellingFileReply reply.now }
{
    match reply {
        FileKept::Read { bytes, .. } => bytes.bytes().len() <= MOST_DATA,
        FileKept::GetAttrFail { status } => status.0 > 0,
        FileKept::SetAttrFail { status, .. } => status.0 > 0,
        FileKept::AccessFail { status, .. } => status.0 > 0,
        FileKept::ReadFail { status, .. } => status.0 > 0,
        FileKept::WriteFail { status, .. } => status.0 > 0,
        FileKept::FsStatFail { status, .. } => status.0 > 0,
        FileKept::FsInfoFail { status, .. } => status.0 > 0,
        FileKept::PathConfFail { status, .. } => status.0 > 0,
        FileKept::CommitFail { status, .. } => status.0 > 0,
        _ => true,
    }
}

fn is_dir_reply(reply: &DirKept) -> bool
    ensures { IsTrue result ↔ HasSpellingDirReply reply.now }
{
    match reply {
        DirKept::ReadLink { text, .. } => text.bytes().len() <= MOST_TEXT,
        DirKept::LookupFail { status, .. } => status.0 > 0,
        DirKept::ReadLinkFail { status, .. } => status.0 > 0,
        DirKept::CreateFail { status, .. } => status.0 > 0,
        DirKept::MkDirFail { status, .. } => status.0 > 0,
        DirKept::SymLinkFail { status, .. } => status.0 > 0,
        DirKept::MkNodFail { status, .. } => status.0 > 0,
        DirKept::RemoveFail { status, .. } => status.0 > 0,
        DirKept::RmDirFail { status, .. } => status.0 > 0,
        DirKept::RenameFail { status, .. } => status.0 > 0,
        DirKept::LinkFail { status, .. } => status.0 > 0,
        DirKept::ReadDirFail { status, .. } => status.0 > 0,
        DirKept::ReadDirPlusFail { status, .. } => status.0 > 0,
        _ => true,
    }
}

fn is_mount_reply(reply: &MountReply) -> bool
    ensures { IsTrue result ↔ HasSpellingMountReply reply.now }
{
    match reply {
        MountReply::MntOk { flavors, .. } => flavors.list().len() <= MOST_FLAVORS,
        MountReply::MntFail { stat } => *stat > 0,
        MountReply::Export { list } => are_exports(list),
        _ => true,
    }
}

/// Whether each path and each group has no more than its bound.
fn are_exports(list: &ExportList) -> bool
    ensures { IsTrue result ↔ AreExports list.now }
{
    list.rows().iter().all(|row| is_row(row))
}

fn is_row(row: &ExportRow) -> bool
    ensures { IsTrue result ↔ IsRow row.now }
{
    row.path.bytes().len() <= MOST_TEXT && are_groups(&row.groups)
}

fn are_groups(groups: &Groups) -> bool
    ensures { IsTrue result ↔ AreGroups groups.now }
{
    groups
        .names()
        .iter()
        .all(|name| name.bytes().len() <= MOST_GROUP)
}
