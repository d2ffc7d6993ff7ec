//! Whether a call was sent.

ghost use Rattle.std.specs.Prelude.{◌≡◌, ◌↔◌, ◌≤◌, ◌<◌, IsTrue, IfOk, length};
ghost use Rattle.world_model.specs.Lawful.{WasSent};
ghost use Rattle.world_model.specs.Messages.{HasXid, SpellsCall};
ghost use Rattle.trace_calls.specs.Sending.{Sends};

use crate::calling::same_call;
use export_serve::{Asked, asked};
use rpc_message::xid_of;
use std::alloc::Global;
use world_model::{Call, Entry};
use xdr_codec::Memory;

/// Whether a record that is this call under the xid was sent before the entry at a place, counted from 0 (RFC 5531,
/// section 9).
pub fn was_sent(
    alloc: Global,
    entries: &[Entry],
    entry: usize,
    xid: u32,
    call: &Call,
) -> Result<bool, Memory>
    requires { entry ≤ length entries.now }
    ensures { IfOk result (λ b. IsTrue b ↔ WasSent entries.now entry xid call.now) }
{
    let mut place = 0;
    while place < entry {
        if sends(alloc, entries, place, xid, call)? {
            return Ok(true);
        }
        place += 1;
    }
    Ok(false)
}

/// Whether an entry sends a record that is this call.
fn sends(
    alloc: Global,
    entries: &[Entry],
    place: usize,
    xid: u32,
    call: &Call,
) -> Result<bool, Memory>
    requires { place < length entries.now }
    ensures { IfOk result (λ b. IsTrue b ↔ Sends entries.now place xid call.now) }
{
    match &entries[place] {
        Entry::Sent { bytes } => spells_call(alloc, bytes.bytes(), xid, call),
        _ => Ok(false),
    }
}

/// Whether a record is this call under the xid, whatever its credential.
pub fn spells_call(alloc: Global, rec: &[u8], xid: u32, call: &Call) -> Result<bool, Memory>
    ensures { IfOk result (λ b. IsTrue b ↔ SpellsCall xid call.now rec.now) }
{
    if xid_of(rec) != Some(xid) {
        return Ok(false);
    }
    spells_under(alloc, rec, xid, call)
}

/// The same of a record that has the xid.
fn spells_under(alloc: Global, rec: &[u8], xid: u32, call: &Call) -> Result<bool, Memory>
    requires { HasXid rec.now xid }
    ensures { IfOk result (λ b. IsTrue b ↔ SpellsCall xid call.now rec.now) }
{
    match asked(alloc, rec)? {
        Asked::Serve { call: sent, .. } => same_call(alloc, &sent, call),
        _ => Ok(false),
    }
}
