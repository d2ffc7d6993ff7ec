//! The records of replies (RFC 5531, section 9).

ghost use Rattle.std.specs.Prelude.{◌≡◌, ◌++◌, IfOk, OnOk};
ghost use Rattle.xdr_codec.specs.Spells.{Wrote};
ghost use Rattle.mount_calls.specs.Replies.{HasSpellingReply as HasSpellingMount, SpellsMountResults, mount_reply_bytes};
ghost use Rattle.export_fs.specs.Spelling.{HasSpellingReply};
ghost use Rattle.world_model.specs.declared.message.Call.{Call};
ghost use Rattle.world_model.specs.Messages.{SpellsReply};
ghost use Rattle.export_serve.specs.Spelling.{RepliesTo, SpellsResultsOf, results_bytes, reply_bytes};

use crate::dir_results::write_dir_results;
use crate::file_results::write_file_results;
use mount_calls::{MountReply, write_mount_reply};
use rpc_message::write_accepted;
use std::alloc::Global;
use world_model::Reply;
use xdr_codec::{Blob, Memory, Writer};

/// The record of a reply under the xid, with zeros as padding. The condition is that the reply has a spelling: a status
/// other than 0 in a failure, and data within their bounds (RFC 1813).
#[tactic(auto, using(crate::proofs::Replies::reply_spelled))]
pub fn spelled(alloc: Global, xid: u32, reply: &Reply) -> Result<Blob, Memory>
    requires { HasSpellingReply reply.now }
    ensures exact { IfOk result (λ bytes. bytes ≡ reply_bytes xid reply.now) }
    ensures spells { IfOk result (λ bytes. (call : Call) → RepliesTo call reply.now → SpellsReply xid call reply.now bytes) }
{
    let mut w = Writer::new(alloc);
    write_accepted(&mut w, xid)?;
    write_results(&mut w, reply)?;
    Ok(w.finish())
}

/// Appends the results of a reply.
fn write_results(w: &mut Writer, reply: &Reply) -> Result<(), Memory>
    requires { HasSpellingReply reply.now }
    ensures ok { OnOk result (w.new ≡ w.old ++ results_bytes reply.now) }
    ensures spelled { OnOk result (Wrote (SpellsResultsOf reply.now) w.old w.new) }
{
    match reply {
        Reply::File(reply) => write_file_results(w, reply),
        Reply::Dir(reply) => write_dir_results(w, reply),
        Reply::Mount(reply) => write_mount_results(w, reply),
    }
}

#[tactic(auto, using(xdr_codec::proofs::Written::wrote))]
fn write_mount_results(w: &mut Writer, reply: &MountReply) -> Result<(), Memory>
    requires { HasSpellingMount reply.now }
    ensures ok { OnOk result (w.new ≡ w.old ++ mount_reply_bytes reply.now) }
    ensures spelled { OnOk result (Wrote (SpellsMountResults reply.now) w.old w.new) }
{
    write_mount_reply(w, reply)
}
