//! Which call was made under an xid, and the last one that a record came for.

ghost use Rattle.std.specs.Prelude.{◌≡◌, ◌≤◌, ◌<◌, IfOk, MatchOption, length};
ghost use Rattle.trace_answers.specs.Calling.{CalledAt, CameAt, FindsCall, IsCallBefore, LastCalled, NoCallAt, NoCallBefore, NoneCalled, call_in, called_so};
ghost use Rattle.trace_answers.specs.Tests.{came_bytes, sent_bytes};

use crate::records::{first_sent, last_record};
use export_serve::{Asked, asked};
use rpc_message::xid_of;
use std::alloc::Global;
use world_model::{Call, Entry};
use xdr_codec::Memory;

/// The call under an xid for which a record came.
#[derive(Debug, Drop)]
pub struct LastCall {
    /// The place of the record.
    pub at: usize,
    /// Its xid.
    pub xid: u32,
    /// The call that was first sent under the xid.
    pub call: Call,
}

/// The call of the last record that came before a place: the one that was first sent under its xid, before it. None exactly
/// if no record came, if it has no xid, or if no call was sent so.
pub fn last_call(alloc: Global, entries: &[Entry], place: usize) -> Result<Option<LastCall>, Memory>
    requires { place ≤ length entries.now }
    ensures { IfOk result (λ found. MatchOption found (NoneCalled entries.now place) (LastCalled entries.now place)) }
{
    match last_record(entries, place) {
        Some(at) => call_at(alloc, entries, at),
        None => Ok(None),
    }
}

/// The call of the record that came at a place.
fn call_at(alloc: Global, entries: &[Entry], at: usize) -> Result<Option<LastCall>, Memory>
    requires { CameAt entries.now at }
    ensures { IfOk result (λ found. MatchOption found (NoCallAt entries.now at) (CalledAt entries.now at)) }
{
    match xid_of(came_bytes(entries, at)) {
        Some(xid) => Ok(called(at, xid, call_before(alloc, entries, xid, at)?)),
        None => Ok(None),
    }
}

/// A call under an xid for which a record came, if there is one.
fn called(at: usize, xid: u32, call: Option<Call>) -> Option<LastCall>
    ensures { result ≡ called_so at xid call }
{
    match call {
        Some(call) => Some(LastCall { at, xid, call }),
        None => None,
    }
}

/// The bytes of the record that came at a place.
#[tactic(auto, unfolding(crate::specs::Tests::came_bytes))]
pub(crate) fn came_bytes(entries: &[Entry], place: usize) -> &[u8]
    requires { place < length entries.now }
    ensures { result.now ≡ came_bytes entries.entry.now place }
{
    match &entries[place] {
        Entry::Delivered { bytes } => bytes.bytes(),
        _ => &[],
    }
}

/// The bytes of the record that was sent at a place.
#[tactic(auto, unfolding(crate::specs::Tests::sent_bytes))]
fn sent_bytes(entries: &[Entry], place: usize) -> &[u8]
    requires { place < length entries.now }
    ensures { result.now ≡ sent_bytes entries.entry.now place }
{
    match &entries[place] {
        Entry::Sent { bytes } => bytes.bytes(),
        _ => &[],
    }
}

/// The call that was first sent under the xid, if that was before a place. None exactly if none was, or if it is no call.
pub fn call_before(
    alloc: Global,
    entries: &[Entry],
    xid: u32,
    place: usize,
) -> Result<Option<Call>, Memory>
    ensures { IfOk result (λ found. MatchOption found (NoCallBefore entries.now xid place) (IsCallBefore entries.now xid place)) }
{
    match first_sent(entries, xid) {
        Some(sent) => {
            if sent < place {
                call_of(alloc, xid, sent_bytes(entries, sent))
            } else {
                Ok(None)
            }
        }
        None => Ok(None),
    }
}

/// The call that a record is under the xid.
fn call_of(alloc: Global, xid: u32, rec: &[u8]) -> Result<Option<Call>, Memory>
    ensures { IfOk result (FindsCall xid rec.now) }
{
    Ok(call_in(xid, asked(alloc, rec)?))
}

/// The call that a record asks for, if it is under the xid.
fn call_in(xid: u32, asked: Asked) -> Option<Call>
    ensures { result ≡ call_in xid asked }
{
    match asked {
        Asked::Serve { xid: its, call } => { if its == xid { Some(call) } else { None } }
        Asked::Refuse { .. } => None,
        Asked::NoCall => None,
    }
}
