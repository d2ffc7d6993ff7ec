//! Replies that own their data.

ghost use Rattle.std.specs.Prelude.{◌≡◌, IfOk};
ghost use Rattle.nfs_file_calls.specs.Replies.{kept_of, reply_proc};

use crate::reply::FileReply;
use nfs_types::{Attr, Status, Time, Verf, Wcc};
use std::alloc::Global;
use xdr_codec::{Blob, Memory};

/// A reply that owns its data: the variants and fields of FileReply, with a Blob in place of lent bytes.
#[derive(Debug, Drop)]
pub enum FileKept {
    /// As FileReply::Null.
    Null,
    /// As FileReply::GetAttr.
    GetAttr {
        attr: Attr,
    },
    /// As FileReply::GetAttrFail.
    GetAttrFail {
        status: Status,
    },
    /// As FileReply::SetAttr.
    SetAttr {
        wcc: Wcc,
    },
    /// As FileReply::SetAttrFail.
    SetAttrFail {
        status: Status,
        wcc: Wcc,
    },
    /// As FileReply::Access.
    Access {
        attr: Option<Attr>,
        bits: u32,
    },
    /// As FileReply::AccessFail.
    AccessFail {
        status: Status,
        attr: Option<Attr>,
    },
    /// As FileReply::Read.
    Read {
        attr: Option<Attr>,
        count: u32,
        eof: bool,
        bytes: Blob,
    },
    /// As FileReply::ReadFail.
    ReadFail {
        status: Status,
        attr: Option<Attr>,
    },
    /// As FileReply::Write.
    Write {
        wcc: Wcc,
        count: u32,
        committed: u32,
        verf: Verf,
    },
    /// As FileReply::WriteFail.
    WriteFail {
        status: Status,
        wcc: Wcc,
    },
    /// As FileReply::FsStat.
    FsStat {
        attr: Option<Attr>,
        tbytes: u64,
        fbytes: u64,
        abytes: u64,
        tfiles: u64,
        ffiles: u64,
        afiles: u64,
        invarsec: u32,
    },
    /// As FileReply::FsStatFail.
    FsStatFail {
        status: Status,
        attr: Option<Attr>,
    },
    /// As FileReply::FsInfo.
    FsInfo {
        attr: Option<Attr>,
        rtmax: u32,
        rtpref: u32,
        rtmult: u32,
        wtmax: u32,
        wtpref: u32,
        wtmult: u32,
        dtpref: u32,
        maxfilesize: u64,
        time_delta: Time,
        properties: u32,
    },
    /// As FileReply::FsInfoFail.
    FsInfoFail {
        status: Status,
        attr: Option<Attr>,
    },
    /// As FileReply::PathConf.
    PathConf {
        attr: Option<Attr>,
        linkmax: u32,
        name_max: u32,
        no_trunc: bool,
        chown_restricted: bool,
        case_insensitive: bool,
        case_preserving: bool,
    },
    /// As FileReply::PathConfFail.
    PathConfFail {
        status: Status,
        attr: Option<Attr>,
    },
    /// As FileReply::Commit.
    Commit {
        wcc: Wcc,
        verf: Verf,
    },
    /// As FileReply::CommitFail.
    CommitFail {
        status: Status,
        wcc: Wcc,
    },
}

/// A copy of a reply that owns its data.
pub fn kept(alloc: Global, reply: &FileReply<'_>) -> Result<FileKept, Memory>
    ensures { IfOk result (λ k. k ≡ kept_of reply.now) }
{
    Ok(match *reply {
        FileReply::Null => FileKept::Null,
        FileReply::GetAttr { attr } => FileKept::GetAttr { attr },
        FileReply::GetAttrFail { status } => FileKept::GetAttrFail { status },
        FileReply::SetAttr { wcc } => FileKept::SetAttr { wcc },
        FileReply::SetAttrFail { status, wcc } => FileKept::SetAttrFail { status, wcc },
        FileReply::Access { attr, bits } => FileKept::Access { attr, bits },
        FileReply::AccessFail { status, attr } => FileKept::AccessFail { status, attr },
        FileReply::Read {
            attr,
            count,
            eof,
            ref bytes,
        } => FileKept::Read {
            attr,
            count,
            eof,
            bytes: Blob::copy(alloc, bytes.bytes())?,
        },
        FileReply::ReadFail { status, attr } => FileKept::ReadFail { status, attr },
        FileReply::Write {
            wcc,
            count,
            committed,
            verf,
        } => FileKept::Write {
            wcc,
            count,
            committed,
            verf,
        },
        FileReply::WriteFail { status, wcc } => FileKept::WriteFail { status, wcc },
        FileReply::FsStat { .. } | FileReply::FsStatFail { .. } => kept_fs_stat(reply),
        FileReply::FsInfo { .. } | FileReply::FsInfoFail { .. } => kept_fs_info(reply),
        FileReply::PathConf { .. } | FileReply::PathConfFail { .. } => kept_path_conf(reply),
        FileReply::Commit { wcc, verf } => FileKept::Commit { wcc, verf },
        FileReply::CommitFail { status, wcc } => FileKept::CommitFail { status, wcc },
    })
}

/// A copy of a reply to FSSTAT (RFC 1813, section 3.3.18).
fn kept_fs_stat(reply: &FileReply<'_>) -> FileKept
    requires { reply_proc (kept_of reply.now) ≡ 18 }
    ensures { result ≡ kept_of reply.now }
{
    match *reply {
        FileReply::FsStat {
            attr,
            tbytes,
            fbytes,
            abytes,
            tfiles,
            ffiles,
            afiles,
            invarsec,
        } => FileKept::FsStat {
            attr,
            tbytes,
            fbytes,
            abytes,
            tfiles,
            ffiles,
            afiles,
            invarsec,
        },
        FileReply::FsStatFail { status, attr } => FileKept::FsStatFail { status, attr },
        _ => unreachable!(),
    }
}

/// A copy of a reply to FSINFO (RFC 1813, section 3.3.19).
fn kept_fs_info(reply: &FileReply<'_>) -> FileKept
    requires { reply_proc (kept_of reply.now) ≡ 19 }
    ensures { result ≡ kept_of reply.now }
{
    match *reply {
        FileReply::FsInfo {
            attr,
            rtmax,
            rtpref,
            rtmult,
            wtmax,
            wtpref,
            wtmult,
            dtpref,
            maxfilesize,
            time_delta,
            properties,
        } => FileKept::FsInfo {
            attr,
            rtmax,
            rtpref,
            rtmult,
            wtmax,
            wtpref,
            wtmult,
            dtpref,
            maxfilesize,
            time_delta,
            properties,
        },
        FileReply::FsInfoFail { status, attr } => FileKept::FsInfoFail { status, attr },
        _ => unreachable!(),
    }
}

/// A copy of a reply to PATHCONF (RFC 1813, section 3.3.20).
fn kept_path_conf(reply: &FileReply<'_>) -> FileKept
    requires { reply_proc (kept_of reply.now) ≡ 20 }
    ensures { result ≡ kept_of reply.now }
{
    match *reply {
        FileReply::PathConf {
            attr,
            linkmax,
            name_max,
            no_trunc,
            chown_restricted,
            case_insensitive,
            case_preserving,
        } => FileKept::PathConf {
            attr,
            linkmax,
            name_max,
            no_trunc,
            chown_restricted,
            case_insensitive,
            case_preserving,
        },
        FileReply::PathConfFail { status, attr } => FileKept::PathConfFail { status, attr },
        _ => unreachable!(),
    }
}
