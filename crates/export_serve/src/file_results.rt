//! The results of replies to calls on files (RFC 1813, section 3.3).

ghost use Rattle.std.specs.Prelude.{◌≡◌, ◌++◌, OnOk};
ghost use Rattle.xdr_codec.specs.Spells.{Wrote};
ghost use Rattle.nfs_file_calls.specs.Replies.{kept_of, reply_proc, HasSpellingReply, SpellsFileResults, file_reply_bytes};

use nfs_file_calls::{FileKept, FileReply, write_file_reply};
use xdr_codec::{Lent, Memory, Writer};

/// Appends the results of a reply.
pub(crate) fn write_file_results(w: &mut Writer, reply: &FileKept) -> Result<(), Memory>
    requires { HasSpellingReply reply.now }
    ensures ok { OnOk result (w.new ≡ w.old ++ file_reply_bytes reply.now) }
    ensures spelled { OnOk result (Wrote (SpellsFileResults reply.now) w.old w.new) }
{
    let reply = file_reply(reply);
    write_file_reply(w, &reply)
}

/// The reply with its data where they lie.
fn file_reply<'a>(reply: &'a FileKept) -> FileReply<'a>
    ensures { kept_of result ≡ reply.entry.now }
{
    match *reply {
        FileKept::Null => FileReply::Null,
        FileKept::GetAttr { attr } => FileReply::GetAttr { attr },
        FileKept::GetAttrFail { status } => FileReply::GetAttrFail { status },
        FileKept::SetAttr { wcc } => FileReply::SetAttr { wcc },
        FileKept::SetAttrFail { status, wcc } => FileReply::SetAttrFail { status, wcc },
        FileKept::Access { attr, bits } => FileReply::Access { attr, bits },
        FileKept::AccessFail { status, attr } => FileReply::AccessFail { status, attr },
        FileKept::Read {
            attr,
            count,
            eof,
            ref bytes,
        } => FileReply::Read {
            attr,
            count,
            eof,
            bytes: Lent::of(bytes.bytes()),
        },
        FileKept::ReadFail { status, attr } => FileReply::ReadFail { status, attr },
        FileKept::Write {
            wcc,
            count,
            committed,
            verf,
        } => FileReply::Write {
            wcc,
            count,
            committed,
            verf,
        },
        FileKept::WriteFail { status, wcc } => FileReply::WriteFail { status, wcc },
        FileKept::FsStat { .. } | FileKept::FsStatFail { .. } => fs_stat_reply(reply),
        FileKept::FsInfo { .. } | FileKept::FsInfoFail { .. } => fs_info_reply(reply),
        FileKept::PathConf { .. } | FileKept::PathConfFail { .. } => path_conf_reply(reply),
        FileKept::Commit { wcc, verf } => FileReply::Commit { wcc, verf },
        FileKept::CommitFail { status, wcc } => FileReply::CommitFail { status, wcc },
    }
}

/// A reply to FSSTAT (RFC 1813, section 3.3.18).
fn fs_stat_reply<'a>(reply: &'a FileKept) -> FileReply<'a>
    requires { reply_proc reply.now ≡ 18 }
    ensures { kept_of result ≡ reply.entry.now }
{
    match *reply {
        FileKept::FsStat {
            attr,
            tbytes,
            fbytes,
            abytes,
            tfiles,
            ffiles,
            afiles,
            invarsec,
        } => FileReply::FsStat {
            attr,
            tbytes,
            fbytes,
            abytes,
            tfiles,
            ffiles,
            afiles,
            invarsec,
        },
        FileKept::FsStatFail { status, attr } => FileReply::FsStatFail { status, attr },
        _ => unreachable!(),
    }
}

/// A reply to FSINFO (RFC 1813, section 3.3.19).
fn fs_info_reply<'a>(reply: &'a FileKept) -> FileReply<'a>
    requires { reply_proc reply.now ≡ 19 }
    ensures { kept_of result ≡ reply.entry.now }
{
    match *reply {
        FileKept::FsInfo {
            attr,
            rtmax,
            rtpref,
            rtmult,
            wtmax,
            wtpref,
            wtmult,
            dtpref,
            maxfilesize,
            time_delta,
            properties,
        } => FileReply::FsInfo {
            attr,
            rtmax,
            rtpref,
            rtmult,
            wtmax,
            wtpref,
            wtmult,
            dtpref,
            maxfilesize,
            time_delta,
            properties,
        },
        FileKept::FsInfoFail { status, attr } => FileReply::FsInfoFail { status, attr },
        _ => unreachable!(),
    }
}

/// A reply to PATHCONF (RFC 1813, section 3.3.20).
fn path_conf_reply<'a>(reply: &'a FileKept) -> FileReply<'a>
    requires { reply_proc reply.now ≡ 20 }
    ensures { kept_of result ≡ reply.entry.now }
{
    match *reply {
        FileKept::PathConf {
            attr,
            linkmax,
            name_max,
            no_trunc,
            chown_restricted,
            case_insensitive,
            case_preserving,
        } => FileReply::PathConf {
            attr,
            linkmax,
            name_max,
            no_trunc,
            chown_restricted,
            case_insensitive,
            case_preserving,
        },
        FileKept::PathConfFail { status, attr } => FileReply::PathConfFail { status, attr },
        _ => unreachable!(),
    }
}
