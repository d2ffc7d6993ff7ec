//! READ, WRITE and COMMIT: their arguments and results.

ghost use Rattle.std.specs.Prelude.{◌≡◌, ◌≤◌, ◌<◌, ◌^◌, ◌++◌, length, OnOk, OnErr};
ghost use Rattle.xdr_codec.specs.Reading.{Reads};
ghost use Rattle.xdr_codec.specs.Spelling.{BeginsWith};
ghost use Rattle.xdr_codec.specs.Whole.{Gives, GivesOwned};
ghost use Rattle.nfs_file_calls.specs.Transfer.{how_at, write_args_bytes, range_args_bytes, read_done_bytes, write_done_bytes, commit_done_bytes};
ghost use Rattle.nfs_file_calls.specs.Calls.{read_call_at, write_call_at, commit_call_at};
ghost use Rattle.nfs_file_calls.specs.Replies.{kept_of, read_reply_at, write_reply_at, commit_reply_at};

use crate::call::FileCall;
use crate::reply::FileReply;
use nfs_types::{
    Attr, Handle, Status, Verf, Wcc, read_handle, read_opt_attr, read_verf, read_wcc, write_handle,
    write_opt_attr, write_verf, write_wcc,
};
use std::alloc::Global;
use xdr_codec::{Blob, CodecFault, Lent, Memory, Reader, Writer, XdrFault};

/// The most bytes of data that a call or a reply is read with.
const MAX_DATA: u32 = 65_536;

/// UNSTABLE, DATA_SYNC or FILE_SYNC, the words 0 to 2; another is BadValue.
#[tactic(auto, unfolding(crate::specs::Transfer::how_at))]
fn read_how(r: &mut Reader<'_>) -> Result<u32, XdrFault>
    ensures { Reads (λ x. x) r.old result r.new (how_at r.old) }
{
    let mut at = r.again();
    let how = at.u32()?;
    if how > 2 {
        return Err(XdrFault::BadValue);
    }
    *r = at;
    Ok(how)
}

/// The arguments of WRITE.
#[tactic(auto, unfolding(crate::specs::Transfer::write_args_at, crate::specs::Calls::write_call_at))]
pub(crate) fn read_write_call(alloc: Global, args: &[u8]) -> Result<FileCall, CodecFault>
    ensures { GivesOwned result (write_call_at args.now) }
{
    let mut r = Reader::new(args);
    let file = read_handle(&mut r)?;
    let offset = r.u64()?;
    let count = r.u32()?;
    let how = read_how(&mut r)?;
    let bytes = r.opaque(MAX_DATA)?;
    if bytes.len() != count as usize {
        return Err(CodecFault::Xdr(XdrFault::BadValue));
    }
    r.end()?;
    Ok(FileCall::Write {
        file,
        offset,
        how,
        bytes: Blob::copy(alloc, bytes)?,
    })
}

/// The arguments of READ.
#[tactic(auto, unfolding(crate::specs::Transfer::range_args_at, crate::specs::Calls::read_call_at))]
pub(crate) fn read_read_call(args: &[u8]) -> Result<FileCall, CodecFault>
    ensures { GivesOwned result (read_call_at args.now) }
{
    let mut r = Reader::new(args);
    let file = read_handle(&mut r)?;
    let offset = r.u64()?;
    let count = r.u32()?;
    r.end()?;
    Ok(FileCall::Read {
        file,
        offset,
        count,
    })
}

/// The arguments of COMMIT.
#[tactic(auto, unfolding(crate::specs::Transfer::range_args_at, crate::specs::Calls::commit_call_at))]
pub(crate) fn read_commit_call(args: &[u8]) -> Result<FileCall, CodecFault>
    ensures { GivesOwned result (commit_call_at args.now) }
{
    let mut r = Reader::new(args);
    let file = read_handle(&mut r)?;
    let offset = r.u64()?;
    let count = r.u32()?;
    r.end()?;
    Ok(FileCall::Commit {
        file,
        offset,
        count,
    })
}

/// Appends the arguments of WRITE.
#[tactic(auto, using(xdr_codec::proofs::Begins::begins_a, xdr_codec::proofs::Begins::begins_b, xdr_codec::proofs::Begins::begins_c, xdr_codec::proofs::Begins::begins_d, xdr_codec::proofs::Begins::grown_e), unfolding(crate::specs::Transfer::write_args_bytes))]
pub(crate) fn write_write_args(
    w: &mut Writer,
    file: &Handle,
    offset: u64,
    how: u32,
    bytes: &[u8],
) -> Result<(), Memory>
    requires { length bytes.now ≤ 65536 }
    ensures ok { OnOk result (w.new ≡ w.old ++ write_args_bytes file.now offset how bytes.now) }
    ensures err { OnErr result (BeginsWith w.old w.new) }
{
    write_handle(w, file)?;
    w.u64(offset)?;
    w.u32(bytes.len() as u32)?;
    w.u32(how)?;
    w.opaque(bytes)?;
    Ok(())
}

/// Appends the arguments of READ and COMMIT.
#[tactic(auto, using(xdr_codec::proofs::Begins::begins_a, xdr_codec::proofs::Begins::begins_b, xdr_codec::proofs::Begins::grown_c), unfolding(crate::specs::Transfer::range_args_bytes))]
pub(crate) fn write_range_args(
    w: &mut Writer,
    file: &Handle,
    offset: u64,
    count: u32,
) -> Result<(), Memory>
    ensures ok { OnOk result (w.new ≡ w.old ++ range_args_bytes file.now offset count) }
    ensures err { OnErr result (BeginsWith w.old w.new) }
{
    write_handle(w, file)?;
    w.u64(offset)?;
    w.u32(count)?;
    Ok(())
}

/// The results of READ.
#[tactic(auto, unfolding(crate::specs::Transfer::read_done_at, crate::specs::Replies::read_reply_at))]
pub(crate) fn read_read_reply<'a>(results: &'a [u8]) -> Result<FileReply<'a>, XdrFault>
    ensures { Gives kept_of result (read_reply_at results.entry.now) }
{
    let mut r = Reader::new(results);
    let status = r.u32()?;
    let attr = read_opt_attr(&mut r)?;
    if status != 0 {
        r.end()?;
        return Ok(FileReply::ReadFail {
            status: Status(status),
            attr,
        });
    }
    let count = r.u32()?;
    let eof = r.flag()?;
    let bytes = r.opaque(MAX_DATA)?;
    r.end()?;
    Ok(FileReply::Read {
        attr,
        count,
        eof,
        bytes: Lent::of(bytes),
    })
}

/// The results of WRITE.
#[tactic(auto, unfolding(crate::specs::Transfer::write_done_at, crate::specs::Replies::write_reply_at))]
pub(crate) fn read_write_reply<'a>(results: &'a [u8]) -> Result<FileReply<'a>, XdrFault>
    ensures { Gives kept_of result (write_reply_at results.entry.now) }
{
    let mut r = Reader::new(results);
    let status = r.u32()?;
    let wcc = read_wcc(&mut r)?;
    if status != 0 {
        r.end()?;
        return Ok(FileReply::WriteFail {
            status: Status(status),
            wcc,
        });
    }
    let count = r.u32()?;
    let committed = r.u32()?;
    let verf = read_verf(&mut r)?;
    r.end()?;
    Ok(FileReply::Write {
        wcc,
        count,
        committed,
        verf,
    })
}

/// The results of COMMIT.
#[tactic(auto, unfolding(crate::specs::Transfer::commit_done_at, crate::specs::Replies::commit_reply_at))]
pub(crate) fn read_commit_reply<'a>(results: &'a [u8]) -> Result<FileReply<'a>, XdrFault>
    ensures { Gives kept_of result (commit_reply_at results.entry.now) }
{
    let mut r = Reader::new(results);
    let status = r.u32()?;
    let wcc = read_wcc(&mut r)?;
    if status != 0 {
        r.end()?;
        return Ok(FileReply::CommitFail {
            status: Status(status),
            wcc,
        });
    }
    let verf = read_verf(&mut r)?;
    r.end()?;
    Ok(FileReply::Commit { wcc, verf })
}

/// Appends the results of a READ that was done, but for the status.
#[tactic(auto, using(xdr_codec::proofs::Begins::begins_a, xdr_codec::proofs::Begins::begins_b, xdr_codec::proofs::Begins::begins_c, xdr_codec::proofs::Begins::grown_d), unfolding(crate::specs::Transfer::read_done_bytes))]
pub(crate) fn write_read_done(
    w: &mut Writer,
    attr: &Option<Attr>,
    count: u32,
    eof: bool,
    bytes: &[u8],
) -> Result<(), Memory>
    requires { length bytes.now ≤ 65536 }
    ensures ok { OnOk result (w.new ≡ w.old ++ read_done_bytes attr.now count eof bytes.now) }
    ensures err { OnErr result (BeginsWith w.old w.new) }
{
    write_opt_attr(w, attr)?;
    w.u32(count)?;
    w.flag(eof)?;
    w.opaque(bytes)?;
    Ok(())
}

/// Appends the results of a WRITE that was done, but for the status.
#[tactic(auto, using(xdr_codec::proofs::Begins::begins_a, xdr_codec::proofs::Begins::begins_b, xdr_codec::proofs::Begins::after_c, xdr_codec::proofs::Begins::grown_d), unfolding(crate::specs::Transfer::write_done_bytes))]
pub(crate) fn write_write_done(
    w: &mut Writer,
    wcc: &Wcc,
    count: u32,
    committed: u32,
    verf: &Verf,
) -> Result<(), Memory>
    ensures ok { OnOk result (w.new ≡ w.old ++ write_done_bytes wcc.now count committed verf.now) }
    ensures err { OnErr result (BeginsWith w.old w.new) }
{
    write_wcc(w, wcc)?;
    w.u32(count)?;
    w.u32(committed)?;
    write_verf(w, verf)?;
    Ok(())
}

/// Appends the results of a COMMIT that was done, but for the status.
#[tactic(auto, using(xdr_codec::proofs::Begins::begins_then, std::proofs::Common::append_assoc), unfolding(crate::specs::Transfer::commit_done_bytes))]
pub(crate) fn write_commit_done(w: &mut Writer, wcc: &Wcc, verf: &Verf) -> Result<(), Memory>
    ensures ok { OnOk result (w.new ≡ w.old ++ commit_done_bytes wcc.now verf.now) }
    ensures err { OnErr result (BeginsWith w.old w.new) }
{
    write_wcc(w, wcc)?;
    write_verf(w, verf)?;
    Ok(())
}
