//! NULL, GETATTR, SETATTR and ACCESS: their arguments and results.

ghost use Rattle.std.specs.Prelude.{◌≡◌, ◌++◌, Option, OnOk, OnErr};
ghost use Rattle.xdr_codec.specs.Reading.{Reads};
ghost use Rattle.xdr_codec.specs.Spelling.{BeginsWith};
ghost use Rattle.xdr_codec.specs.Whole.{Gives, GivesOwned};
ghost use Rattle.nfs_file_calls.specs.Attributes.{guard_at, guard_bytes, set_attr_args_bytes, access_args_bytes, access_done_bytes};
ghost use Rattle.nfs_file_calls.specs.Replies.{kept_of, null_reply_at, get_attr_reply_at, set_attr_reply_at, access_reply_at};
ghost use Rattle.nfs_file_calls.specs.Calls.{null_call_at, get_attr_call_at, set_attr_call_at, access_call_at};

use crate::call::FileCall;
use crate::reply::FileReply;
use nfs_types::{
    Attr, Handle, SetAttr, Status, Time, read_attr, read_handle, read_opt_attr, read_set_attr,
    read_time, read_wcc, write_handle, write_opt_attr, write_set_attr, write_time,
};
use xdr_codec::{CodecFault, Memory, Reader, Writer, XdrFault};

/// The arguments of NULL.
#[tactic(auto, unfolding(crate::specs::Calls::null_call_at))]
pub(crate) fn read_null_call(args: &[u8]) -> Result<FileCall, CodecFault>
    ensures { GivesOwned result (null_call_at args.now) }
{
    Reader::new(args).end()?;
    Ok(FileCall::Null)
}

/// The arguments of GETATTR.
#[tactic(auto, unfolding(crate::specs::Calls::get_attr_call_at))]
pub(crate) fn read_get_attr_call(args: &[u8]) -> Result<FileCall, CodecFault>
    ensures { GivesOwned result (get_attr_call_at args.now) }
{
    let mut r = Reader::new(args);
    let file = read_handle(&mut r)?;
    r.end()?;
    Ok(FileCall::GetAttr { file })
}

/// The arguments of SETATTR.
#[tactic(auto, unfolding(crate::specs::Attributes::set_attr_args_at, crate::specs::Calls::set_attr_call_at))]
pub(crate) fn read_set_attr_call(args: &[u8]) -> Result<FileCall, CodecFault>
    ensures { GivesOwned result (set_attr_call_at args.now) }
{
    let mut r = Reader::new(args);
    let file = read_handle(&mut r)?;
    let set = read_set_attr(&mut r)?;
    let guard = read_guard(&mut r)?;
    r.end()?;
    Ok(FileCall::SetAttr { file, set, guard })
}

/// The ctime that a file must have, or none.
#[tactic(auto, unfolding(crate::specs::Attributes::guard_at))]
fn read_guard(r: &mut Reader<'_>) -> Result<Option<Time>, XdrFault>
    ensures { Reads (λ x. x) r.old result r.new (guard_at r.old) }
{
    let mut at = r.again();
    let guard = if at.flag()? {
        Some(read_time(&mut at)?)
    } else {
        None
    };
    *r = at;
    Ok(guard)
}

/// The arguments of ACCESS.
#[tactic(auto, unfolding(crate::specs::Attributes::access_args_at, crate::specs::Calls::access_call_at))]
pub(crate) fn read_access_call(args: &[u8]) -> Result<FileCall, CodecFault>
    ensures { GivesOwned result (access_call_at args.now) }
{
    let mut r = Reader::new(args);
    let file = read_handle(&mut r)?;
    let bits = r.u32()?;
    r.end()?;
    Ok(FileCall::Access { file, bits })
}

/// Appends the arguments of SETATTR.
#[tactic(auto, using(xdr_codec::proofs::Begins::after_a, xdr_codec::proofs::Begins::after_b, xdr_codec::proofs::Begins::grown_c), unfolding(crate::specs::Attributes::set_attr_args_bytes))]
pub(crate) fn write_set_attr_args(
    w: &mut Writer,
    file: &Handle,
    set: &SetAttr,
    guard: &Option<Time>,
) -> Result<(), Memory>
    ensures ok { OnOk result (w.new ≡ w.old ++ set_attr_args_bytes file.now set.now guard.now) }
    ensures err { OnErr result (BeginsWith w.old w.new) }
{
    write_handle(w, file)?;
    write_set_attr(w, set)?;
    write_guard(w, guard)?;
    Ok(())
}

#[tactic(auto, using(xdr_codec::proofs::Begins::begins_then, std::proofs::Common::append_assoc), unfolding(crate::specs::Attributes::guard_bytes))]
fn write_guard(w: &mut Writer, guard: &Option<Time>) -> Result<(), Memory>
    ensures ok { OnOk result (w.new ≡ w.old ++ guard_bytes guard.now) }
    ensures err { OnErr result (BeginsWith w.old w.new) }
{
    if let Some(time) = guard {
        w.flag(true)?;
        write_time(w, time)?;
    } else {
        w.flag(false)?;
    }
    Ok(())
}

/// Appends the arguments of ACCESS.
#[tactic(auto, using(xdr_codec::proofs::Begins::begins_then, std::proofs::Common::append_assoc), unfolding(crate::specs::Attributes::access_args_bytes))]
pub(crate) fn write_access_args(w: &mut Writer, file: &Handle, bits: u32) -> Result<(), Memory>
    ensures ok { OnOk result (w.new ≡ w.old ++ access_args_bytes file.now bits) }
    ensures err { OnErr result (BeginsWith w.old w.new) }
{
    write_handle(w, file)?;
    w.u32(bits)?;
    Ok(())
}

/// The results of NULL.
#[tactic(auto, unfolding(crate::specs::Replies::null_reply_at))]
pub(crate) fn read_null_reply<'a>(results: &'a [u8]) -> Result<FileReply<'a>, XdrFault>
    ensures { Gives kept_of result (null_reply_at results.entry.now) }
{
    Reader::new(results).end()?;
    Ok(FileReply::Null)
}

/// The results of GETATTR.
#[tactic(auto, unfolding(crate::specs::Replies::get_attr_reply_at))]
pub(crate) fn read_get_attr_reply<'a>(results: &'a [u8]) -> Result<FileReply<'a>, XdrFault>
    ensures { Gives kept_of result (get_attr_reply_at results.entry.now) }
{
    let mut r = Reader::new(results);
    let status = r.u32()?;
    if status != 0 {
        r.end()?;
        return Ok(FileReply::GetAttrFail {
            status: Status(status),
        });
    }
    let attr = read_attr(&mut r)?;
    r.end()?;
    Ok(FileReply::GetAttr { attr })
}

/// The results of SETATTR.
#[tactic(auto, unfolding(crate::specs::Replies::set_attr_reply_at))]
pub(crate) fn read_set_attr_reply<'a>(results: &'a [u8]) -> Result<FileReply<'a>, XdrFault>
    ensures { Gives kept_of result (set_attr_reply_at results.entry.now) }
{
    let mut r = Reader::new(results);
    let status = r.u32()?;
    let wcc = read_wcc(&mut r)?;
    r.end()?;
    if status == 0 {
        return Ok(FileReply::SetAttr { wcc });
    }
    Ok(FileReply::SetAttrFail {
        status: Status(status),
        wcc,
    })
}

/// The results of ACCESS.
#[tactic(auto, unfolding(crate::specs::Attributes::access_done_at, crate::specs::Replies::access_reply_at))]
pub(crate) fn read_access_reply<'a>(results: &'a [u8]) -> Result<FileReply<'a>, XdrFault>
    ensures { Gives kept_of result (access_reply_at results.entry.now) }
{
    let mut r = Reader::new(results);
    let status = r.u32()?;
    let attr = read_opt_attr(&mut r)?;
    if status != 0 {
        r.end()?;
        return Ok(FileReply::AccessFail {
            status: Status(status),
            attr,
        });
    }
    let bits = r.u32()?;
    r.end()?;
    Ok(FileReply::Access { attr, bits })
}

/// Appends the results of an ACCESS that was done, but for the status.
#[tactic(auto, using(xdr_codec::proofs::Begins::begins_then, std::proofs::Common::append_assoc), unfolding(crate::specs::Attributes::access_done_bytes))]
pub(crate) fn write_access_done(
    w: &mut Writer,
    attr: &Option<Attr>,
    bits: u32,
) -> Result<(), Memory>
    ensures ok { OnOk result (w.new ≡ w.old ++ access_done_bytes attr.now bits) }
    ensures err { OnErr result (BeginsWith w.old w.new) }
{
    write_opt_attr(w, attr)?;
    w.u32(bits)?;
    Ok(())
}
