//! The reply that a record is.

ghost use Rattle.std.specs.Prelude.{◌≡◌, ◌↔◌, true, false, IsTrue, IfOk, MatchOption};
ghost use Rattle.std.specs.Option.{option_map};
ghost use Rattle.rpc_message.specs.Reply.{reply_at};
ghost use Rattle.export_fs.specs.Spelling.{HasSpellingReply};
ghost use Rattle.export_serve.specs.Spelling.{RepliesTo};
ghost use Rattle.world_model.specs.declared.message.Call.TheVariants.{File, Dir, Mount};
ghost use Rattle.trace_calls.specs.Coming.{HasResults, NoResults, FindsResult, FindsReplyTo};
ghost use Rattle.trace_calls.specs.ReplyReading.{result_at, results_in, reply_by};

use crate::procedures::replies_to;
use crate::spellable::is_spellable_reply;
use export_serve::spelled;
use mount_calls::{MountCall, mount_proc, read_mount_reply};
use nfs_dir_calls::{DirCall, dir_proc, kept as kept_dir, read_dir_reply};
use nfs_file_calls::{FileCall, file_proc, kept as kept_file, read_file_reply};
use rpc_message::read_reply;
use std::alloc::Global;
use world_model::{Call, Reply};
use xdr_codec::{CodecFault, Memory};

/// The reply to a call that a record is under the xid. None exactly if it is none.
pub fn reply_to(alloc: Global, xid: u32, call: &Call, rec: &[u8]) -> Result<Option<Reply>, Memory>
    ensures finds { IfOk result (FindsReplyTo xid call.now rec.now) }
    ensures exact { IfOk result (λ reply. reply ≡ reply_by xid call.now rec.now) }
{
    match results_under(xid, rec) {
        Some(results) => results_of(alloc, call, results),
        None => Ok(None),
    }
}

/// The results of a record that is an accepted reply under the xid.
fn results_under<'a>(xid: u32, rec: &'a [u8]) -> Option<&'a [u8]>
    ensures finds { MatchOption result (NoResults xid rec.entry.now) (λ results. HasResults xid rec.entry.now results.now) }
    ensures exact { option_map (λ results. results.now) result ≡ results_in xid (reply_at rec.entry.now) }
{
    match read_reply(rec) {
        Ok(
            rpc_message::Reply::Accepted {
                xid: under,
                results,
            },
        ) => results_if(under == xid, results),
        Ok(rpc_message::Reply::Refused { .. }) => None,
        Ok(rpc_message::Reply::Denied { .. }) => None,
        Err(_) => None,
    }
}

/// The results, if they are those that are wanted.
fn results_if<'a>(wanted: bool, results: &'a [u8]) -> Option<&'a [u8]>
    ensures { MatchOption result (wanted ≡ false) (λ r. (wanted ≡ true) × (r.now ≡ results.entry.now)) }
{
    if wanted { Some(results) } else { None }
}

/// The reply to a call that results spell.
fn results_of(alloc: Global, call: &Call, results: &[u8]) -> Result<Option<Reply>, Memory>
    ensures finds { IfOk result (FindsResult call.now results.now) }
    ensures exact { IfOk result (λ reply. reply ≡ result_at call.now results.now) }
{
    match call {
        Call::File(call) => file_results(alloc, call, results),
        Call::Dir(call) => dir_results(alloc, call, results),
        Call::Mount(call) => mount_results(alloc, call, results),
    }
}

fn file_results(alloc: Global, call: &FileCall, results: &[u8]) -> Result<Option<Reply>, Memory>
    ensures finds { IfOk result (FindsResult (File call.now) results.now) }
    ensures exact { IfOk result (λ reply. reply ≡ result_at (File call.now) results.now) }
{
    match read_file_reply(file_proc(call), results) {
        Ok(reply) => Ok(Some(Reply::File(kept_file(alloc, &reply)?))),
        Err(_) => Ok(None),
    }
}

fn dir_results(alloc: Global, call: &DirCall, results: &[u8]) -> Result<Option<Reply>, Memory>
    ensures finds { IfOk result (FindsResult (Dir call.now) results.now) }
    ensures exact { IfOk result (λ reply. reply ≡ result_at (Dir call.now) results.now) }
{
    match read_dir_reply(dir_proc(call), results) {
        Ok(reply) => Ok(Some(Reply::Dir(kept_dir(alloc, &reply)?))),
        Err(_) => Ok(None),
    }
}

fn mount_results(alloc: Global, call: &MountCall, results: &[u8]) -> Result<Option<Reply>, Memory>
    ensures finds { IfOk result (FindsResult (Mount call.now) results.now) }
    ensures exact { IfOk result (λ reply. reply ≡ result_at (Mount call.now) results.now) }
{
    match read_mount_reply(alloc, mount_proc(call), results) {
        Ok(reply) => Ok(Some(Reply::Mount(reply))),
        Err(CodecFault::Xdr(_)) => Ok(None),
        Err(CodecFault::Memory) => Err(Memory),
    }
}

/// Whether two replies are equal, of which the first can be spelled and is one to this call.
pub(crate) fn same_reply(alloc: Global, call: &Call, a: &Reply, b: &Reply) -> Result<bool, Memory>
    requires spelled { HasSpellingReply a.now }
    requires answers { RepliesTo call.now a.now }
    ensures { IfOk result (λ same. IsTrue same ↔ (a.now ≡ b.now)) }
{
    if !replies_to(call, b) || !is_spellable_reply(b) {
        return Ok(false);
    }
    let one = spelled(alloc, 0, a)?;
    let other = spelled(alloc, 0, b)?;
    let _read = reply_to(alloc, 0, call, one.bytes())?;
    Ok(one.bytes() == other.bytes())
}
