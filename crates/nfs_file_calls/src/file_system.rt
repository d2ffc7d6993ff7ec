//! FSSTAT, FSINFO and PATHCONF: their arguments and results.

ghost use Rattle.std.specs.Prelude.{◌≡◌, ◌++◌, OnOk, OnErr};
ghost use Rattle.xdr_codec.specs.Spelling.{BeginsWith, u32_bytes};
ghost use Rattle.xdr_codec.specs.Whole.{Gives, GivesOwned};
ghost use Rattle.nfs_file_calls.specs.FileSystem.{amounts_bytes, sizes_bytes, limits_bytes, rules_bytes};
ghost use Rattle.nfs_file_calls.specs.Calls.{fs_stat_call_at, fs_info_call_at, path_conf_call_at};
ghost use Rattle.nfs_file_calls.specs.Replies.{kept_of, fs_stat_reply_at, fs_info_reply_at, path_conf_reply_at};

use crate::call::FileCall;
use crate::reply::FileReply;
use nfs_types::{Status, Time, read_handle, read_opt_attr, read_time, write_time};
use xdr_codec::{CodecFault, Memory, Reader, Writer, XdrFault};

/// The arguments of FSSTAT.
#[tactic(auto, unfolding(crate::specs::Calls::fs_stat_call_at))]
pub(crate) fn read_fs_stat_call(args: &[u8]) -> Result<FileCall, CodecFault>
    ensures { GivesOwned result (fs_stat_call_at args.now) }
{
    let mut r = Reader::new(args);
    let file = read_handle(&mut r)?;
    r.end()?;
    Ok(FileCall::FsStat { file })
}

/// The arguments of FSINFO.
#[tactic(auto, unfolding(crate::specs::Calls::fs_info_call_at))]
pub(crate) fn read_fs_info_call(args: &[u8]) -> Result<FileCall, CodecFault>
    ensures { GivesOwned result (fs_info_call_at args.now) }
{
    let mut r = Reader::new(args);
    let file = read_handle(&mut r)?;
    r.end()?;
    Ok(FileCall::FsInfo { file })
}

/// The arguments of PATHCONF.
#[tactic(auto, unfolding(crate::specs::Calls::path_conf_call_at))]
pub(crate) fn read_path_conf_call(args: &[u8]) -> Result<FileCall, CodecFault>
    ensures { GivesOwned result (path_conf_call_at args.now) }
{
    let mut r = Reader::new(args);
    let file = read_handle(&mut r)?;
    r.end()?;
    Ok(FileCall::PathConf { file })
}

/// The results of FSSTAT.
#[tactic(auto, unfolding(crate::specs::FileSystem::fs_stat_done_at, crate::specs::Replies::fs_stat_reply_at))]
pub(crate) fn read_fs_stat_reply<'a>(results: &'a [u8]) -> Result<FileReply<'a>, XdrFault>
    ensures { Gives kept_of result (fs_stat_reply_at results.entry.now) }
{
    let mut r = Reader::new(results);
    let status = r.u32()?;
    let attr = read_opt_attr(&mut r)?;
    if status != 0 {
        r.end()?;
        return Ok(FileReply::FsStatFail {
            status: Status(status),
            attr,
        });
    }
    let tbytes = r.u64()?;
    let fbytes = r.u64()?;
    let abytes = r.u64()?;
    let tfiles = r.u64()?;
    let ffiles = r.u64()?;
    let afiles = r.u64()?;
    let invarsec = r.u32()?;
    r.end()?;
    Ok(FileReply::FsStat {
        attr,
        tbytes,
        fbytes,
        abytes,
        tfiles,
        ffiles,
        afiles,
        invarsec,
    })
}

/// The results of FSINFO.
#[tactic(auto, unfolding(crate::specs::FileSystem::fs_info_done_at, crate::specs::Replies::fs_info_reply_at))]
pub(crate) fn read_fs_info_reply<'a>(results: &'a [u8]) -> Result<FileReply<'a>, XdrFault>
    ensures { Gives kept_of result (fs_info_reply_at results.entry.now) }
{
    let mut r = Reader::new(results);
    let status = r.u32()?;
    let attr = read_opt_attr(&mut r)?;
    if status != 0 {
        r.end()?;
        return Ok(FileReply::FsInfoFail {
            status: Status(status),
            attr,
        });
    }
    let rtmax = r.u32()?;
    let rtpref = r.u32()?;
    let rtmult = r.u32()?;
    let wtmax = r.u32()?;
    let wtpref = r.u32()?;
    let wtmult = r.u32()?;
    let dtpref = r.u32()?;
    let maxfilesize = r.u64()?;
    let time_delta = read_time(&mut r)?;
    let properties = r.u32()?;
    r.end()?;
    Ok(FileReply::FsInfo {
        attr,
        rtmax,
        rtpref,
        rtmult,
        wtmax,
        wtpref,
        wtmult,
        dtpref,
        maxfilesize,
        time_delta,
        properties,
    })
}

/// The results of PATHCONF.
#[tactic(auto, unfolding(crate::specs::FileSystem::path_conf_done_at, crate::specs::Replies::path_conf_reply_at))]
pub(crate) fn read_path_conf_reply<'a>(results: &'a [u8]) -> Result<FileReply<'a>, XdrFault>
    ensures { Gives kept_of result (path_conf_reply_at results.entry.now) }
{
    let mut r = Reader::new(results);
    let status = r.u32()?;
    let attr = read_opt_attr(&mut r)?;
    if status != 0 {
        r.end()?;
        return Ok(FileReply::PathConfFail {
            status: Status(status),
            attr,
        });
    }
    let linkmax = r.u32()?;
    let name_max = r.u32()?;
    let no_trunc = r.flag()?;
    let chown_restricted = r.flag()?;
    let case_insensitive = r.flag()?;
    let case_preserving = r.flag()?;
    r.end()?;
    Ok(FileReply::PathConf {
        attr,
        linkmax,
        name_max,
        no_trunc,
        chown_restricted,
        case_insensitive,
        case_preserving,
    })
}

/// Appends a total, what is free and what is available.
#[tactic(auto, using(xdr_codec::proofs::Begins::begins_a, xdr_codec::proofs::Begins::begins_b, xdr_codec::proofs::Begins::grown_c), unfolding(crate::specs::FileSystem::amounts_bytes))]
pub(crate) fn write_amounts(
    w: &mut Writer,
    total: u64,
    free: u64,
    available: u64,
) -> Result<(), Memory>
    ensures ok { OnOk result (w.new ≡ w.old ++ amounts_bytes total free available) }
    ensures err { OnErr result (BeginsWith w.old w.new) }
{
    w.u64(total)?;
    w.u64(free)?;
    w.u64(available)?;
    Ok(())
}

/// Appends the most, the preferred and the suggested multiple.
#[tactic(auto, using(xdr_codec::proofs::Begins::begins_a, xdr_codec::proofs::Begins::begins_b, xdr_codec::proofs::Begins::grown_c), unfolding(crate::specs::FileSystem::sizes_bytes))]
pub(crate) fn write_sizes(
    w: &mut Writer,
    most: u32,
    preferred: u32,
    multiple: u32,
) -> Result<(), Memory>
    ensures ok { OnOk result (w.new ≡ w.old ++ sizes_bytes most preferred multiple) }
    ensures err { OnErr result (BeginsWith w.old w.new) }
{
    w.u32(most)?;
    w.u32(preferred)?;
    w.u32(multiple)?;
    Ok(())
}

/// Appends the preferred bytes of a READDIR, the size of the greatest file, how fine times are, and properties.
#[tactic(auto, using(xdr_codec::proofs::Begins::begins_a, xdr_codec::proofs::Begins::after_b, xdr_codec::proofs::Begins::begins_c, xdr_codec::proofs::Begins::grown_d), unfolding(crate::specs::FileSystem::limits_bytes))]
pub(crate) fn write_limits(
    w: &mut Writer,
    dtpref: u32,
    maxfilesize: u64,
    time_delta: &Time,
    properties: u32,
) -> Result<(), Memory>
    ensures ok { OnOk result (w.new ≡ w.old ++ limits_bytes dtpref maxfilesize time_delta.now properties) }
    ensures err { OnErr result (BeginsWith w.old w.new) }
{
    w.u32(dtpref)?;
    w.u64(maxfilesize)?;
    write_time(w, time_delta)?;
    w.u32(properties)?;
    Ok(())
}

/// Appends the most links of a file and the most bytes of a name.
#[tactic(auto, using(xdr_codec::proofs::Begins::begins_then, std::proofs::Common::append_assoc))]
pub(crate) fn write_bounds(w: &mut Writer, linkmax: u32, name_max: u32) -> Result<(), Memory>
    ensures ok { OnOk result (w.new ≡ w.old ++ (u32_bytes linkmax ++ u32_bytes name_max)) }
    ensures err { OnErr result (BeginsWith w.old w.new) }
{
    w.u32(linkmax)?;
    w.u32(name_max)?;
    Ok(())
}

/// Appends the four rules for names and owners.
#[tactic(auto, using(xdr_codec::proofs::Begins::begins_a, xdr_codec::proofs::Begins::begins_b, xdr_codec::proofs::Begins::begins_c, xdr_codec::proofs::Begins::grown_d), unfolding(crate::specs::FileSystem::rules_bytes))]
pub(crate) fn write_rules(
    w: &mut Writer,
    no_trunc: bool,
    chown_restricted: bool,
    case_insensitive: bool,
    case_preserving: bool,
) -> Result<(), Memory>
    ensures ok { OnOk result (w.new ≡ w.old ++ rules_bytes no_trunc chown_restricted case_insensitive case_preserving) }
    ensures err { OnErr result (BeginsWith w.old w.new) }
{
    w.flag(no_trunc)?;
    w.flag(chown_restricted)?;
    w.flag(case_insensitive)?;
    w.flag(case_preserving)?;
    Ok(())
}
