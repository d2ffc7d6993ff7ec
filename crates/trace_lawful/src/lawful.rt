//! The first beginning of a history that no honest server and network make.

ghost use Rattle.std.specs.Prelude.{◌≡◌, ◌↔◌, ◌<◌, IsTrue, IfOk, MatchOption, length, suc};
ghost use Rattle.world_model.specs.declared.entry.Entry.TheVariants.{Executed, Delivered};
ghost use Rattle.world_model.specs.Lawful.{Lawful, LawfulAt};
ghost use Rattle.trace_data.specs.Histories.{history_of};
ghost use Rattle.trace_rules.specs.Beginnings.{BreaksAt};
ghost use Rattle.trace_lawful.specs.Judged.{IsLawfulEntry, IsLawfulAt};

use limits::RECORD_BYTES;
use std::alloc::Global;
use trace_calls::{is_replied, was_sent};
use trace_data::{Trace, objects_after};
use trace_rules::{changes_nothing, is_restart, sound_all};
use trace_steps::{is_flush, is_served};
use world_model::{Call, Entry, Reply};
use xdr_codec::Memory;

/// How many entries are the fewest that aren't what an honest server and network make (RFC 1813, sections 3.3, 4.8 and
/// 4.9). It is 0 if the start is no server. None exactly if the whole history is what they make.
pub fn first_unlawful(alloc: Global, trace: &Trace) -> Result<Option<usize>, Memory>
    ensures { IfOk result (λ first. MatchOption first (Lawful (history_of trace.now)) (BreaksAt Lawful (history_of trace.now))) }
{
    if !sound_all(trace.start.objects.as_slice()) {
        return Ok(Some(0));
    }
    let mut entry = 0;
    while entry < trace.entries.len() {
        if !is_lawful_at(alloc, trace, entry)? {
            return Ok(Some(entry + 1));
        }
        entry += 1;
    }
    Ok(None)
}

/// Whether an entry is lawful and leaves a server.
fn is_lawful_at(alloc: Global, trace: &Trace, entry: usize) -> Result<bool, Memory>
    requires { entry < length trace.now.entries.items }
    ensures { IfOk result (λ b. IsTrue b ↔ IsLawfulAt trace.now entry) }
{
    if !sound_all(objects_after(trace.updates.as_slice(), entry)) {
        return Ok(false);
    }
    is_lawful_entry(alloc, trace, entry)
}

/// Whether an entry is what an honest server or network makes.
fn is_lawful_entry(alloc: Global, trace: &Trace, entry: usize) -> Result<bool, Memory>
    requires { entry < length trace.now.entries.items }
    ensures { IfOk result (λ b. IsTrue b ↔ IsLawfulEntry trace.now entry) }
{
    match &trace.entries[entry] {
        Entry::Executed { xid, call, reply } => is_executed(alloc, trace, entry, *xid, call, reply),
        Entry::Foreign { call, reply } => is_served(alloc, trace, entry, call, reply),
        Entry::Flushed { file, from, len } => Ok(is_flush(trace, entry, file, *from, *len)),
        Entry::Reboot { verf } => Ok(is_restart(trace, entry, *verf)),
        Entry::Delivered { bytes } => is_delivered(alloc, trace, entry, bytes.bytes()),
        _ => Ok(changes_nothing(trace, entry)),
    }
}

/// Whether a call was sent and is served so.
fn is_executed(
    alloc: Global,
    trace: &Trace,
    entry: usize,
    xid: u32,
    call: &Call,
    reply: &Reply,
) -> Result<bool, Memory>
    requires { entry < length trace.now.entries.items }
    ensures { IfOk result (λ b. IsTrue b
        ↔ LawfulAt (history_of trace.now) entry (Executed xid call.now reply.now) ((history_of trace.now).at entry) ((history_of trace.now).at (suc entry))) }
{
    if !was_sent(alloc, trace.entries.as_slice(), entry, xid, call)? {
        return Ok(false);
    }
    is_served(alloc, trace, entry, call, reply)
}

/// Whether a record that came answers a call, and nothing else happens.
fn is_delivered(alloc: Global, trace: &Trace, entry: usize, rec: &[u8]) -> Result<bool, Memory>
    requires { entry < length trace.now.entries.items }
    ensures { IfOk result (λ b. IsTrue b
        ↔ LawfulAt (history_of trace.now) entry (Delivered rec.now) ((history_of trace.now).at entry) ((history_of trace.now).at (suc entry))) }
{
    if rec.len() > RECORD_BYTES || !changes_nothing(trace, entry) {
        return Ok(false);
    }
    is_replied(alloc, trace.entries.as_slice(), entry, rec)
}
