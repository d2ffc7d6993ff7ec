//! Whether a record that came answers a call.

ghost use Rattle.std.specs.Prelude.{◌≡◌, ◌↔◌, ◌≤◌, ◌<◌, IsTrue, IfOk, length};
ghost use Rattle.world_model.specs.Lawful.{IsReplied};
ghost use Rattle.world_model.specs.Messages.{SpellsReply};
ghost use Rattle.trace_calls.specs.Coming.{AnswersEntry, IsRefusal, Refuses};

use crate::replying::{reply_to, same_reply};
use rpc_message::{read_reply, xid_of};
use std::alloc::Global;
use world_model::{Call, Entry, Reply};
use xdr_codec::Memory;

/// Whether a record is the reply to a call that was executed under its xid, or refuses a call that was sent under it.
/// The call was executed, or sent, before the entry at a place, counted from 0 (RFC 5531, section 9).
pub fn is_replied(
    alloc: Global,
    entries: &[Entry],
    entry: usize,
    rec: &[u8],
) -> Result<bool, Memory>
    requires { entry ≤ length entries.now }
    ensures { IfOk result (λ b. IsTrue b ↔ IsReplied entries.now entry rec.now) }
{
    let mut place = 0;
    while place < entry {
        if is_answered_by(alloc, entries, place, rec)? {
            return Ok(true);
        }
        place += 1;
    }
    Ok(false)
}

/// Whether the record answers the call of an entry.
fn is_answered_by(
    alloc: Global,
    entries: &[Entry],
    place: usize,
    rec: &[u8],
) -> Result<bool, Memory>
    requires { place < length entries.now }
    ensures { IfOk result (λ b. IsTrue b ↔ AnswersEntry entries.now place rec.now) }
{
    match &entries[place] {
        Entry::Executed { xid, call, reply } => spells_reply(alloc, *xid, call, reply, rec),
        Entry::Sent { bytes } => Ok(refuses(bytes.bytes(), rec)),
        _ => Ok(false),
    }
}

/// Whether a record is this reply to the call under the xid.
fn spells_reply(
    alloc: Global,
    xid: u32,
    call: &Call,
    reply: &Reply,
    rec: &[u8],
) -> Result<bool, Memory>
    ensures { IfOk result (λ b. IsTrue b ↔ SpellsReply xid call.now reply.now rec.now) }
{
    if xid_of(rec) != Some(xid) {
        return Ok(false);
    }
    match reply_to(alloc, xid, call, rec)? {
        Some(came) => same_reply(alloc, call, &came, reply),
        None => Ok(false),
    }
}

/// Whether a record refuses by RPC the call that another one is.
fn refuses(sent: &[u8], rec: &[u8]) -> bool
    ensures { IsTrue result ↔ Refuses sent.now rec.now }
{
    match xid_of(sent) {
        Some(xid) => is_refusal(xid, rec),
        None => false,
    }
}

/// Whether a record is a refusal by RPC under the xid.
fn is_refusal(xid: u32, rec: &[u8]) -> bool
    ensures { IsTrue result ↔ IsRefusal xid rec.now }
{
    match read_reply(rec) {
        Ok(rpc_message::Reply::Refused { xid: under, .. }) => under == xid,
        Ok(rpc_message::Reply::Denied { xid: under, .. }) => under == xid,
        _ => false,
    }
}
