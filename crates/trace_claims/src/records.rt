//! The records that came, and what those say that were replies.

ghost use Rattle.std.specs.Prelude.{◌≡◌, ◌<◌, ◌++◌, IfOk, length};
ghost use Rattle.trace_claims.specs.Coming.{came_bytes};
ghost use Rattle.trace_claims.specs.Hearing.{heard_list, CameUnder, IsCalled, FindsHeard, HasHeard};

use crate::coming::came_at;
use rpc_message::xid_of;
use std::alloc::Global;
use trace_answers::{call_before, waits};
use trace_calls::reply_to;
use world_model::{Call, Entry, Reply};
use xdr_codec::Memory;

/// A reply that came while its xid waited, and the call that it answers.
#[derive(Debug, Drop)]
pub(crate) struct Heard {
    /// The place of the record, and the one after it.
    pub(crate) place: usize,
    pub(crate) after: usize,
    pub(crate) call: Call,
    pub(crate) reply: Reply,
}

/// The bytes of the record that came at a place.
#[tactic(auto, unfolding(crate::specs::Coming::came_bytes))]
fn came_bytes(entries: &[Entry], place: usize) -> &[u8]
    requires { place < length entries.now }
    ensures { result.now ≡ came_bytes entries.entry.now place }
{
    match &entries[place] {
        Entry::Delivered { bytes } => bytes.bytes(),
        _ => &[],
    }
}

/// All replies that came, in order.
pub(crate) fn all_heard(alloc: Global, entries: &[Entry]) -> Result<Vec<Heard>, Memory>
    ensures { IfOk result (λ all. HasHeard entries.now (length entries.now) all.items) }
{
    let mut all = Vec::new(alloc);
    let mut place = 0;
    while place < entries.len() {
        let after = place + 1;
        let heard = heard_at(alloc, entries, place, after)?;
        add_heard(&mut all, heard)?;
        place = after;
    }
    Ok(all)
}

fn add_heard(all: &mut Vec<Heard>, found: Option<Heard>) -> Result<(), Memory>
    ensures { IfOk result (λ done. all.new.items ≡ all.old.items ++ heard_list found) }
{
    if let Some(heard) = found {
        all.push(heard)?;
    }
    Ok(())
}

/// The reply that came at a place, with its call.
fn heard_at(
    alloc: Global,
    entries: &[Entry],
    place: usize,
    after: usize,
) -> Result<Option<Heard>, Memory>
    requires { place < length entries.now }
    ensures { IfOk result (FindsHeard entries.now place after) }
{
    if !came_at(entries, place) {
        return Ok(None);
    }
    match xid_of(came_bytes(entries, place)) {
        Some(xid) => heard_under(alloc, entries, place, after, xid),
        None => Ok(None),
    }
}

/// The reply that came at a place under an xid, if that waited.
fn heard_under(
    alloc: Global,
    entries: &[Entry],
    place: usize,
    after: usize,
    xid: u32,
) -> Result<Option<Heard>, Memory>
    requires { CameUnder entries.now place xid }
    ensures { IfOk result (FindsHeard entries.now place after) }
{
    if !waits(entries, xid, place) {
        return Ok(None);
    }
    match call_before(alloc, entries, xid, place)? {
        Some(call) => heard_of(alloc, entries, place, after, xid, call),
        None => Ok(None),
    }
}

/// The reply that came at a place to a call.
fn heard_of(
    alloc: Global,
    entries: &[Entry],
    place: usize,
    after: usize,
    xid: u32,
    call: Call,
) -> Result<Option<Heard>, Memory>
    requires { IsCalled entries.now place xid call }
    ensures { IfOk result (FindsHeard entries.now place after) }
{
    match reply_to(alloc, xid, &call, came_bytes(entries, place))? {
        Some(reply) => Ok(Some(Heard {
            place,
            after,
            call,
            reply,
        })),
        None => Ok(None),
    }
}
