//! Replies to calls on files.

ghost use Rattle.std.specs.Prelude.{◌≡◌, ◌++◌, IfOk, OnOk, OnErr};
ghost use Rattle.xdr_codec.specs.Spelling.{BeginsWith, u32_bytes};
ghost use Rattle.nfs_types.specs.Fields.{opt_attr_bytes};
ghost use Rattle.xdr_codec.specs.Spells.{Wrote};
ghost use Rattle.xdr_codec.specs.Whole.{Gives, FindsWhole};
ghost use Rattle.nfs_file_calls.specs.Calls.{IsFileProc};
ghost use Rattle.nfs_file_calls.specs.Replies.{kept_of, reply_proc, HasSpellingReply, file_reply_at, file_reply_bytes, SpellsFileResults, SpellsFileReply};

use crate::attributes::{
    read_access_reply, read_get_attr_reply, read_null_reply, read_set_attr_reply, write_access_done,
};
use crate::file_system::{
    read_fs_info_reply, read_fs_stat_reply, read_path_conf_reply, write_amounts, write_bounds,
    write_limits, write_rules, write_sizes,
};
use crate::read_back::spells_reply;
use crate::transfer::{
    read_commit_reply, read_read_reply, read_write_reply, write_commit_done, write_read_done,
    write_write_done,
};
use nfs_types::nfs_proc::{
    ACCESS, COMMIT, FSINFO, FSSTAT, GETATTR, NULL, PATHCONF, READ, SETATTR, WRITE,
};
use nfs_types::{Attr, Status, Time, Verf, Wcc, write_attr, write_opt_attr, write_wcc};
use xdr_codec::{Lent, Memory, Reader, Writer, XdrFault};

/// A reply to a call on a file (RFC 1813, section 3.3): one variant for the status 0, and one, with the ending Fail,
/// for any other status. `attr` are the file's attributes after the call, if the server gives them, and `wcc`
/// those before and after it. Data lie in the record that the reply was read from.
#[derive(Debug, Drop)]
pub enum FileReply<'a> {
    /// To NULL, which has no results (section 3.3.0).
    Null,
    /// The attributes (section 3.3.1).
    GetAttr {
        attr: Attr,
    },
    /// The GETATTR failed.
    GetAttrFail {
        status: Status,
    },
    /// The attributes were set (section 3.3.2).
    SetAttr {
        wcc: Wcc,
    },
    /// The SETATTR failed.
    SetAttrFail {
        status: Status,
        wcc: Wcc,
    },
    /// The rights that there are, of those that were asked for (section 3.3.4).
    Access {
        attr: Option<Attr>,
        bits: u32,
    },
    /// The ACCESS failed.
    AccessFail {
        status: Status,
        attr: Option<Attr>,
    },
    /// What was read, at most 65,536 bytes, and whether the file ends there (section 3.3.6).
    Read {
        attr: Option<Attr>,
        count: u32,
        eof: bool,
        bytes: Lent<'a>,
    },
    /// The READ failed.
    ReadFail {
        status: Status,
        attr: Option<Attr>,
    },
    /// So many bytes were written, and `committed` says how stable they are (section 3.3.7). Any number of it is
    /// kept as it is.
    Write {
        wcc: Wcc,
        count: u32,
        committed: u32,
        verf: Verf,
    },
    /// The WRITE failed.
    WriteFail {
        status: Status,
        wcc: Wcc,
    },
    /// Total, free and available bytes, the same of files, and for how many seconds this holds (section 3.3.18).
    FsStat {
        attr: Option<Attr>,
        tbytes: u64,
        fbytes: u64,
        abytes: u64,
        tfiles: u64,
        ffiles: u64,
        afiles: u64,
        invarsec: u32,
    },
    /// The FSSTAT failed.
    FsStatFail {
        status: Status,
        attr: Option<Attr>,
    },
    /// What the server says of its sizes (section 3.3.19): the most, the preferred and the suggested multiple of the
    /// bytes of a READ, and the same of a WRITE. Then come the preferred bytes of a READDIR, the size of the
    /// greatest file, how fine times are, and properties.
    FsInfo {
        attr: Option<Attr>,
        rtmax: u32,
        rtpref: u32,
        rtmult: u32,
        wtmax: u32,
        wtpref: u32,
        wtmult: u32,
        dtpref: u32,
        maxfilesize: u64,
        time_delta: Time,
        properties: u32,
    },
    /// The FSINFO failed.
    FsInfoFail {
        status: Status,
        attr: Option<Attr>,
    },
    /// What the server says of files and names (section 3.3.20):
    /// - the most links of a file, and the most bytes of a name;
    /// - whether a longer name is refused;
    /// - whether only the superuser may change owners;
    /// - whether names in other case are the same, and whether they keep their case.
    PathConf {
        attr: Option<Attr>,
        linkmax: u32,
        name_max: u32,
        no_trunc: bool,
        chown_restricted: bool,
        case_insensitive: bool,
        case_preserving: bool,
    },
    /// The PATHCONF failed.
    PathConfFail {
        status: Status,
        attr: Option<Attr>,
    },
    /// What was written is stable, if the verifier is that of the WRITE's reply (section 3.3.21).
    Commit {
        wcc: Wcc,
        verf: Verf,
    },
    /// The COMMIT failed.
    CommitFail {
        status: Status,
        wcc: Wcc,
    },
}

/// Reads the reply to a procedure from all of its results, with the first fault in order of spelling. Data of a READ
/// have at most 65,536 bytes, else TooLong.
pub fn read_file_reply<'a>(proc: u32, results: &'a [u8]) -> Result<FileReply<'a>, XdrFault>
    requires { IsFileProc proc }
    ensures exact { Gives kept_of result (file_reply_at proc results.entry.now) }
    ensures spelled { FindsWhole kept_of (SpellsFileReply proc) results.entry.now result }
    ensures writable { IfOk result (λ v. HasSpellingReply (kept_of v)) }
{
    let reader = Reader::new(results);
    reader.holds_bytes();
    file_reply(proc, results)
}

fn file_reply<'a>(proc: u32, results: &'a [u8]) -> Result<FileReply<'a>, XdrFault>
    ensures { Gives kept_of result (file_reply_at proc results.entry.now) }
{
    match proc {
        NULL => read_null_reply(results),
        GETATTR => read_get_attr_reply(results),
        SETATTR => read_set_attr_reply(results),
        ACCESS => read_access_reply(results),
        READ => read_read_reply(results),
        WRITE => read_write_reply(results),
        FSSTAT => read_fs_stat_reply(results),
        FSINFO => read_fs_info_reply(results),
        PATHCONF => read_path_conf_reply(results),
        COMMIT => read_commit_reply(results),
        _ => Err(XdrFault::BadValue),
    }
}

/// Writes the results of a reply. After Memory a part of them may stand there.
pub fn write_file_reply(w: &mut Writer, reply: &FileReply<'_>) -> Result<(), Memory>
    requires { HasSpellingReply (kept_of reply.now) }
    ensures ok { OnOk result (w.new ≡ w.old ++ file_reply_bytes (kept_of reply.now)) }
    ensures err { OnErr result (BeginsWith w.old w.new) }
    ensures spelled { OnOk result (Wrote (SpellsFileResults (kept_of reply.now)) w.old w.new) }
{
    spells_reply(reply);
    file_reply_into(w, reply)
}

#[tactic(auto, using(xdr_codec::proofs::Begins::after_a, xdr_codec::proofs::Begins::after_b, xdr_codec::proofs::Begins::begins_c, std::proofs::Common::append_assoc), unfolding(crate::specs::Replies::file_reply_bytes))]
fn file_reply_into(w: &mut Writer, reply: &FileReply<'_>) -> Result<(), Memory>
    requires { HasSpellingReply (kept_of reply.now) }
    ensures ok { OnOk result (w.new ≡ w.old ++ file_reply_bytes (kept_of reply.now)) }
    ensures err { OnErr result (BeginsWith w.old w.new) }
{
    match *reply {
        FileReply::Null => Ok(()),
        FileReply::GetAttr { attr } => {
            w.u32(0)?;
            write_attr(w, &attr)
        }
        FileReply::SetAttr { wcc } => {
            w.u32(0)?;
            write_wcc(w, &wcc)
        }
        FileReply::Access { attr, bits } => {
            w.u32(0)?;
            write_access_done(w, &attr, bits)
        }
        FileReply::Read {
            attr,
            count,
            eof,
            ref bytes,
        } => {
            w.u32(0)?;
            write_read_done(w, &attr, count, eof, bytes.bytes())
        }
        FileReply::Write {
            wcc,
            count,
            committed,
            verf,
        } => {
            w.u32(0)?;
            write_write_done(w, &wcc, count, committed, &verf)
        }
        FileReply::FsStat { .. } | FileReply::FsStatFail { .. } => write_fs_stat(w, reply),
        FileReply::FsInfo { .. } | FileReply::FsInfoFail { .. } => write_fs_info(w, reply),
        FileReply::PathConf { .. } | FileReply::PathConfFail { .. } => write_path_conf(w, reply),
        FileReply::Commit { wcc, verf } => {
            w.u32(0)?;
            write_commit_done(w, &wcc, &verf)
        }
        FileReply::GetAttrFail { status } => {
            w.u32(status.0)?;
            Ok(())
        }
        FileReply::SetAttrFail { status, wcc }
        | FileReply::WriteFail { status, wcc }
        | FileReply::CommitFail { status, wcc } => {
            w.u32(status.0)?;
            write_wcc(w, &wcc)
        }
        FileReply::AccessFail { status, attr } | FileReply::ReadFail { status, attr } => {
            w.u32(status.0)?;
            write_opt_attr(w, &attr)
        }
    }
}

/// Appends a reply to FSSTAT (RFC 1813, section 3.3.18).
#[tactic(auto, using(xdr_codec::proofs::Begins::after_a, xdr_codec::proofs::Begins::after_b, xdr_codec::proofs::Begins::begins_c, std::proofs::Common::append_assoc), unfolding(crate::specs::Replies::file_reply_bytes, crate::specs::FileSystem::fs_stat_done_bytes))]
fn write_fs_stat(w: &mut Writer, reply: &FileReply<'_>) -> Result<(), Memory>
    requires { reply_proc (kept_of reply.now) ≡ 18 }
    ensures ok { OnOk result (w.new ≡ w.old ++ file_reply_bytes (kept_of reply.now)) }
    ensures err { OnErr result (BeginsWith w.old w.new) }
{
    match *reply {
        FileReply::FsStat {
            attr,
            tbytes,
            fbytes,
            abytes,
            tfiles,
            ffiles,
            afiles,
            invarsec,
        } => {
            write_done_attr(w, &attr)?;
            write_amounts(w, tbytes, fbytes, abytes)?;
            write_amounts(w, tfiles, ffiles, afiles)?;
            w.u32(invarsec)?;
            Ok(())
        }
        FileReply::FsStatFail { status, attr } => {
            w.u32(status.0)?;
            write_opt_attr(w, &attr)
        }
        _ => unreachable!(),
    }
}

/// Appends a reply to FSINFO (RFC 1813, section 3.3.19).
#[tactic(auto, using(xdr_codec::proofs::Begins::after_a, xdr_codec::proofs::Begins::after_b, xdr_codec::proofs::Begins::begins_c, std::proofs::Common::append_assoc), unfolding(crate::specs::Replies::file_reply_bytes, crate::specs::FileSystem::fs_info_done_bytes))]
fn write_fs_info(w: &mut Writer, reply: &FileReply<'_>) -> Result<(), Memory>
    requires { reply_proc (kept_of reply.now) ≡ 19 }
    ensures ok { OnOk result (w.new ≡ w.old ++ file_reply_bytes (kept_of reply.now)) }
    ensures err { OnErr result (BeginsWith w.old w.new) }
{
    match *reply {
        FileReply::FsInfo {
            attr,
            rtmax,
            rtpref,
            rtmult,
            wtmax,
            wtpref,
            wtmult,
            dtpref,
            maxfilesize,
            time_delta,
            properties,
        } => {
            write_done_attr(w, &attr)?;
            write_sizes(w, rtmax, rtpref, rtmult)?;
            write_sizes(w, wtmax, wtpref, wtmult)?;
            write_limits(w, dtpref, maxfilesize, &time_delta, properties)
        }
        FileReply::FsInfoFail { status, attr } => {
            w.u32(status.0)?;
            write_opt_attr(w, &attr)
        }
        _ => unreachable!(),
    }
}

/// Appends a reply to PATHCONF (RFC 1813, section 3.3.20).
#[tactic(auto, using(xdr_codec::proofs::Begins::after_a, xdr_codec::proofs::Begins::after_b, xdr_codec::proofs::Begins::begins_c, std::proofs::Common::append_assoc), unfolding(crate::specs::Replies::file_reply_bytes, crate::specs::FileSystem::path_conf_done_bytes))]
fn write_path_conf(w: &mut Writer, reply: &FileReply<'_>) -> Result<(), Memory>
    requires { reply_proc (kept_of reply.now) ≡ 20 }
    ensures ok { OnOk result (w.new ≡ w.old ++ file_reply_bytes (kept_of reply.now)) }
    ensures err { OnErr result (BeginsWith w.old w.new) }
{
    match *reply {
        FileReply::PathConf {
            attr,
            linkmax,
            name_max,
            no_trunc,
            chown_restricted,
            case_insensitive,
            case_preserving,
        } => {
            write_done_attr(w, &attr)?;
            write_bounds(w, linkmax, name_max)?;
            write_rules(
                w,
                no_trunc,
                chown_restricted,
                case_insensitive,
                case_preserving,
            )
        }
        FileReply::PathConfFail { status, attr } => {
            w.u32(status.0)?;
            write_opt_attr(w, &attr)
        }
        _ => unreachable!(),
    }
}

/// Appends the status 0, and attributes or none.
#[tactic(auto, using(xdr_codec::proofs::Begins::begins_then, std::proofs::Common::append_assoc))]
fn write_done_attr(w: &mut Writer, attr: &Option<Attr>) -> Result<(), Memory>
    ensures ok { OnOk result (w.new ≡ w.old ++ (u32_bytes 0 ++ opt_attr_bytes attr.now)) }
    ensures err { OnErr result (BeginsWith w.old w.new) }
{
    w.u32(0)?;
    write_opt_attr(w, attr)?;
    Ok(())
}
