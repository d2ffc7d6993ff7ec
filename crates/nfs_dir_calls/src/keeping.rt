//! Replies with data of their own.

ghost use Rattle.std.specs.Prelude.{◌≡◌, IfOk};
ghost use Rattle.nfs_dir_calls.specs.Kept.{kept_of};

use crate::dir_page::DirRows;
use crate::plus_page::PlusRows;
use crate::reply::DirReply;
use nfs_types::{Attr, Handle, Status, Verf, Wcc};
use std::alloc::Global;
use xdr_codec::{Blob, Memory};

/// A reply with data of its own: the variants and fields of `DirReply`, with a `Blob` in place of each slice, and
/// rows in place of a page.
#[derive(Debug, Drop)]
pub enum DirKept {
    /// LOOKUP: the object of that name, its attributes and those of the directory.
    Lookup {
        found: Handle,
        attr: Option<Attr>,
        dir: Option<Attr>,
    },
    /// LOOKUP, refused: the directory's attributes.
    LookupFail {
        status: Status,
        dir: Option<Attr>,
    },
    /// READLINK: the link's attributes and its text, at most 1,024 bytes of any value.
    ReadLink {
        attr: Option<Attr>,
        text: Blob,
    },
    /// READLINK, refused: the link's attributes.
    ReadLinkFail {
        status: Status,
        attr: Option<Attr>,
    },
    /// CREATE: the file handle and the attributes of what was made, and the directory before and after.
    Create {
        found: Option<Handle>,
        attr: Option<Attr>,
        wcc: Wcc,
    },
    /// CREATE, refused: the directory before and after.
    CreateFail {
        status: Status,
        wcc: Wcc,
    },
    /// MKDIR: the file handle and the attributes of what was made, and the directory before and after.
    MkDir {
        found: Option<Handle>,
        attr: Option<Attr>,
        wcc: Wcc,
    },
    /// MKDIR, refused: the directory before and after.
    MkDirFail {
        status: Status,
        wcc: Wcc,
    },
    /// SYMLINK: the file handle and the attributes of what was made, and the directory before and after.
    SymLink {
        found: Option<Handle>,
        attr: Option<Attr>,
        wcc: Wcc,
    },
    /// SYMLINK, refused: the directory before and after.
    SymLinkFail {
        status: Status,
        wcc: Wcc,
    },
    /// MKNOD: the file handle and the attributes of what was made, and the directory before and after.
    MkNod {
        found: Option<Handle>,
        attr: Option<Attr>,
        wcc: Wcc,
    },
    /// MKNOD, refused: the directory before and after.
    MkNodFail {
        status: Status,
        wcc: Wcc,
    },
    /// REMOVE: the directory before and after.
    Remove {
        wcc: Wcc,
    },
    /// REMOVE, refused: the directory before and after.
    RemoveFail {
        status: Status,
        wcc: Wcc,
    },
    /// RMDIR: the directory before and after.
    RmDir {
        wcc: Wcc,
    },
    /// RMDIR, refused: the directory before and after.
    RmDirFail {
        status: Status,
        wcc: Wcc,
    },
    /// RENAME: the two directories before and after.
    Rename {
        from: Wcc,
        to: Wcc,
    },
    /// RENAME, refused: the two directories before and after.
    RenameFail {
        status: Status,
        from: Wcc,
        to: Wcc,
    },
    /// LINK: the file's attributes, and the directory before and after.
    Link {
        attr: Option<Attr>,
        wcc: Wcc,
    },
    /// LINK, refused: the file's attributes, and the directory before and after.
    LinkFail {
        status: Status,
        attr: Option<Attr>,
        wcc: Wcc,
    },
    /// READDIR: the directory's attributes, a verifier of the cookies, a page of entries, and whether it is the last.
    ReadDir {
        attr: Option<Attr>,
        verf: Verf,
        page: DirRows,
        eof: bool,
    },
    /// READDIR, refused: the directory's attributes.
    ReadDirFail {
        status: Status,
        attr: Option<Attr>,
    },
    /// READDIRPLUS: the directory's attributes, a verifier of the cookies, a page of entries, and whether it is the
    /// last.
    ReadDirPlus {
        attr: Option<Attr>,
        verf: Verf,
        page: PlusRows,
        eof: bool,
    },
    /// READDIRPLUS, refused: the directory's attributes.
    ReadDirPlusFail {
        status: Status,
        attr: Option<Attr>,
    },
}

// One arm a reply, field by field: longer than other functions, but a split would only hide the table.
/// A copy that owns its data.
pub fn kept(alloc: Global, reply: &DirReply<'_>) -> Result<DirKept, Memory>
    ensures { IfOk result (λ k. k ≡ kept_of reply.now) }
{
    Ok(match *reply {
        DirReply::Lookup { found, attr, dir } => DirKept::Lookup { found, attr, dir },
        DirReply::LookupFail { status, dir } => DirKept::LookupFail { status, dir },
        DirReply::ReadLink { attr, text } => DirKept::ReadLink {
            attr,
            text: Blob::copy(alloc, text)?,
        },
        DirReply::ReadLinkFail { status, attr } => DirKept::ReadLinkFail { status, attr },
        DirReply::Create { found, attr, wcc } => DirKept::Create { found, attr, wcc },
        DirReply::CreateFail { status, wcc } => DirKept::CreateFail { status, wcc },
        DirReply::MkDir { found, attr, wcc } => DirKept::MkDir { found, attr, wcc },
        DirReply::MkDirFail { status, wcc } => DirKept::MkDirFail { status, wcc },
        DirReply::SymLink { found, attr, wcc } => DirKept::SymLink { found, attr, wcc },
        DirReply::SymLinkFail { status, wcc } => DirKept::SymLinkFail { status, wcc },
        DirReply::MkNod { found, attr, wcc } => DirKept::MkNod { found, attr, wcc },
        DirReply::MkNodFail { status, wcc } => DirKept::MkNodFail { status, wcc },
        DirReply::Remove { wcc } => DirKept::Remove { wcc },
        DirReply::RemoveFail { status, wcc } => DirKept::RemoveFail { status, wcc },
        DirReply::RmDir { wcc } => DirKept::RmDir { wcc },
        DirReply::RmDirFail { status, wcc } => DirKept::RmDirFail { status, wcc },
        DirReply::Rename { from, to } => DirKept::Rename { from, to },
        DirReply::RenameFail { status, from, to } => DirKept::RenameFail { status, from, to },
        DirReply::Link { attr, wcc } => DirKept::Link { attr, wcc },
        DirReply::LinkFail { status, attr, wcc } => DirKept::LinkFail { status, attr, wcc },
        DirReply::ReadDir {
            attr,
            verf,
            ref page,
            eof,
        } => DirKept::ReadDir {
            attr,
            verf,
            page: page.rows(alloc)?,
            eof,
        },
        DirReply::ReadDirFail { status, attr } => DirKept::ReadDirFail { status, attr },
        DirReply::ReadDirPlus {
            attr,
            verf,
            ref page,
            eof,
        } => DirKept::ReadDirPlus {
            attr,
            verf,
            page: page.rows(alloc)?,
            eof,
        },
        DirReply::ReadDirPlusFail { status, attr } => DirKept::ReadDirPlusFail { status, attr },
    })
}
