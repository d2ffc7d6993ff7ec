//! The replies: what a server answers to a call on a directory.

ghost use Rattle.std.specs.Prelude.{◌≡◌, ◌++◌, OnOk, OnErr, IfOk};
ghost use Rattle.xdr_codec.specs.Spelling.{BeginsWith};
ghost use Rattle.xdr_codec.specs.Spells.{Wrote};
ghost use Rattle.xdr_codec.specs.Whole.{Gives, FindsWhole};
ghost use Rattle.nfs_dir_calls.specs.Calls.{IsDirProc};
ghost use Rattle.nfs_dir_calls.specs.Kept.{kept_of};
ghost use Rattle.nfs_dir_calls.specs.Replies.{dir_reply_at, dir_reply_bytes, HasSpellingDirReply, SpellsReply, SpellsDirReply};

use crate::changed::write_changed;
use crate::dir_page::DirPage;
use crate::failure::{write_attr_failure, write_wcc_failure};
use crate::new_object::write_new_object;
use crate::plus_page::PlusPage;
use crate::{
    create, link, lookup, mkdir, mknod, readdir, readdirplus, readlink, remove, rename, rmdir,
    symlink,
};
use nfs_types::nfs_proc::{
    CREATE, LINK, LOOKUP, MKDIR, MKNOD, READDIR, READDIRPLUS, READLINK, REMOVE, RENAME, RMDIR,
    SYMLINK,
};
use nfs_types::{Attr, Handle, Status, Verf, Wcc};
use xdr_codec::{Memory, Reader, Writer, XdrFault};

/// A reply to a call on a directory or a name, whose data lie in the record that it was read from. Each procedure
/// has one variant for status 0 and one, with the ending Fail, for any other status.
#[derive(Debug, Drop)]
pub enum DirReply<'a> {
    /// LOOKUP: the object of that name, its attributes and those of the directory.
    Lookup {
        found: Handle,
        attr: Option<Attr>,
        dir: Option<Attr>,
    },
    /// LOOKUP, refused: the directory's attributes.
    LookupFail {
        status: Status,
        dir: Option<Attr>,
    },
    /// READLINK: the link's attributes and its text, at most 1,024 bytes of any value.
    ReadLink {
        attr: Option<Attr>,
        text: &'a [u8],
    },
    /// READLINK, refused: the link's attributes.
    ReadLinkFail {
        status: Status,
        attr: Option<Attr>,
    },
    /// CREATE: the file handle and the attributes of what was made, and the directory before and after.
    Create {
        found: Option<Handle>,
        attr: Option<Attr>,
        wcc: Wcc,
    },
    /// CREATE, refused: the directory before and after.
    CreateFail {
        status: Status,
        wcc: Wcc,
    },
    /// MKDIR: the file handle and the attributes of what was made, and the directory before and after.
    MkDir {
        found: Option<Handle>,
        attr: Option<Attr>,
        wcc: Wcc,
    },
    /// MKDIR, refused: the directory before and after.
    MkDirFail {
        status: Status,
        wcc: Wcc,
    },
    /// SYMLINK: the file handle and the attributes of what was made, and the directory before and after.
    SymLink {
        found: Option<Handle>,
        attr: Option<Attr>,
        wcc: Wcc,
    },
    /// SYMLINK, refused: the directory before and after.
    SymLinkFail {
        status: Status,
        wcc: Wcc,
    },
    /// MKNOD: the file handle and the attributes of what was made, and the directory before and after.
    MkNod {
        found: Option<Handle>,
        attr: Option<Attr>,
        wcc: Wcc,
    },
    /// MKNOD, refused: the directory before and after.
    MkNodFail {
        status: Status,
        wcc: Wcc,
    },
    /// REMOVE: the directory before and after.
    Remove {
        wcc: Wcc,
    },
    /// REMOVE, refused: the directory before and after.
    RemoveFail {
        status: Status,
        wcc: Wcc,
    },
    /// RMDIR: the directory before and after.
    RmDir {
        wcc: Wcc,
    },
    /// RMDIR, refused: the directory before and after.
    RmDirFail {
        status: Status,
        wcc: Wcc,
    },
    /// RENAME: the two directories before and after.
    Rename {
        from: Wcc,
        to: Wcc,
    },
    /// RENAME, refused: the two directories before and after.
    RenameFail {
        status: Status,
        from: Wcc,
        to: Wcc,
    },
    /// LINK: the file's attributes, and the directory before and after.
    Link {
        attr: Option<Attr>,
        wcc: Wcc,
    },
    /// LINK, refused: the file's attributes, and the directory before and after.
    LinkFail {
        status: Status,
        attr: Option<Attr>,
        wcc: Wcc,
    },
    /// READDIR: the directory's attributes, a verifier of the cookies, a page of entries, and whether it is the last.
    ReadDir {
        attr: Option<Attr>,
        verf: Verf,
        page: DirPage<'a>,
        eof: bool,
    },
    /// READDIR, refused: the directory's attributes.
    ReadDirFail {
        status: Status,
        attr: Option<Attr>,
    },
    /// READDIRPLUS: the directory's attributes, a verifier of the cookies, a page of entries, and whether it is the
    /// last.
    ReadDirPlus {
        attr: Option<Attr>,
        verf: Verf,
        page: PlusPage<'a>,
        eof: bool,
    },
    /// READDIRPLUS, refused: the directory's attributes.
    ReadDirPlusFail {
        status: Status,
        attr: Option<Attr>,
    },
}

/// Reads the reply to a procedure from all of its results.
///
/// A fault is answered exactly if the bytes spell no reply of that procedure: the first one in order of spelling.
pub fn read_dir_reply<'a>(proc: u32, results: &'a [u8]) -> Result<DirReply<'a>, XdrFault>
    requires { IsDirProc proc }
    ensures exact { Gives kept_of result (dir_reply_at proc results.entry.now) }
    ensures spelled { FindsWhole kept_of (SpellsDirReply proc) results.entry.now result }
    ensures writable { IfOk result (λ v. HasSpellingDirReply (kept_of v)) }
{
    Reader::new(results).holds_bytes();
    reply_of(proc, results)
}

fn reply_of<'a>(proc: u32, results: &'a [u8]) -> Result<DirReply<'a>, XdrFault>
    ensures { Gives kept_of result (dir_reply_at proc results.entry.now) }
{
    match proc {
        LOOKUP => lookup::read_reply(results),
        READLINK => readlink::read_reply(results),
        CREATE => create::read_reply(results),
        MKDIR => mkdir::read_reply(results),
        SYMLINK => symlink::read_reply(results),
        MKNOD => mknod::read_reply(results),
        REMOVE => remove::read_reply(results),
        RMDIR => rmdir::read_reply(results),
        RENAME => rename::read_reply(results),
        LINK => link::read_reply(results),
        READDIR => readdir::read_reply(results),
        READDIRPLUS => readdirplus::read_reply(results),
        _ => Err(XdrFault::BadValue),
    }
}

/// Appends a reply's results: its status and what follows.
#[tactic(auto, unfolding(crate::specs::Replies::dir_reply_bytes))]
pub fn write_dir_reply(w: &mut Writer, reply: &DirReply<'_>) -> Result<(), Memory>
    requires { HasSpellingDirReply (kept_of reply.now) }
    ensures ok { OnOk result (w.new ≡ w.old ++ dir_reply_bytes (kept_of reply.now)) }
    ensures err { OnErr result (BeginsWith w.old w.new) }
    ensures spelled { OnOk result (Wrote (SpellsReply (kept_of reply.now)) w.old w.new) }
{
    match reply {
        DirReply::Lookup { found, attr, dir } => lookup::write_reply(w, found, attr, dir),
        DirReply::LookupFail { status, dir } => write_attr_failure(w, *status, dir),
        DirReply::ReadLink { attr, text } => readlink::write_reply(w, attr, text),
        DirReply::ReadLinkFail { status, attr } => write_attr_failure(w, *status, attr),
        DirReply::Create { found, attr, wcc } => write_new_object(w, found, attr, wcc),
        DirReply::CreateFail { status, wcc } => write_wcc_failure(w, *status, wcc),
        DirReply::MkDir { found, attr, wcc } => write_new_object(w, found, attr, wcc),
        DirReply::MkDirFail { status, wcc } => write_wcc_failure(w, *status, wcc),
        DirReply::SymLink { found, attr, wcc } => write_new_object(w, found, attr, wcc),
        DirReply::SymLinkFail { status, wcc } => write_wcc_failure(w, *status, wcc),
        DirReply::MkNod { found, attr, wcc } => write_new_object(w, found, attr, wcc),
        DirReply::MkNodFail { status, wcc } => write_wcc_failure(w, *status, wcc),
        DirReply::Remove { wcc } => write_changed(w, wcc),
        DirReply::RemoveFail { status, wcc } => write_wcc_failure(w, *status, wcc),
        DirReply::RmDir { wcc } => write_changed(w, wcc),
        DirReply::RmDirFail { status, wcc } => write_wcc_failure(w, *status, wcc),
        DirReply::Rename { from, to } => rename::write_reply(w, Status(0), from, to),
        DirReply::RenameFail { status, from, to } => rename::write_reply(w, *status, from, to),
        DirReply::Link { attr, wcc } => link::write_reply(w, Status(0), attr, wcc),
        DirReply::LinkFail { status, attr, wcc } => link::write_reply(w, *status, attr, wcc),
        DirReply::ReadDir {
            attr,
            verf,
            page,
            eof,
        } => readdir::write_reply(w, attr, verf, page, *eof),
        DirReply::ReadDirFail { status, attr } => write_attr_failure(w, *status, attr),
        DirReply::ReadDirPlus {
            attr,
            verf,
            page,
            eof,
        } => readdirplus::write_reply(w, attr, verf, page, *eof),
        DirReply::ReadDirPlusFail { status, attr } => write_attr_failure(w, *status, attr),
    }
}
