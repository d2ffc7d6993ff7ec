//! Whether a call is served, and whether a range becomes stable by itself.

ghost use Rattle.std.specs.Prelude.{◌≡◌, ◌↔◌, IsTrue, IfOk, Some, suc};
ghost use Rattle.world_model.specs.Service.{Serves};
ghost use Rattle.world_model.specs.Lawful.{Flushes};
ghost use Rattle.trace_data.specs.Histories.{history_of};
ghost use Rattle.trace_steps.specs.MomentTests.{before, after};
ghost use Rattle.trace_steps.specs.StepTests.{serves_mount, serves, flushed_to, flushes};

use crate::dir_service::serves_dir;
use crate::file_service::serves_file;
use crate::moments::{after, before, is_same, only};
use crate::turning::is_committed;
use mount_calls::{MountCall, MountReply};
use nfs_types::Handle;
use std::alloc::Global;
use trace_data::{Object, Trace};
use trace_rules::{same_attr, same_bool};
use world_model::{Call, Reply};
use xdr_codec::Memory;

/// Whether the server may answer the call so (RFC 1813, sections 3.3 and 5.2). Afterwards it is what it is after the
/// entry at a place, counted from 0.
pub fn is_served(
    alloc: Global,
    trace: &Trace,
    entry: usize,
    call: &Call,
    reply: &Reply,
) -> Result<bool, Memory>
    ensures { IfOk result (λ b. IsTrue b ↔ Serves ((history_of trace.now).at entry) call.now reply.now ((history_of trace.now).at (suc entry))) }
{
    serves(alloc, trace, entry, call, reply)
}

/// Whether the entry makes a range of the file stable, and does nothing else. A count of 0 is to the end.
pub fn is_flush(trace: &Trace, entry: usize, file: &Handle, from: u64, count: u64) -> bool
    ensures { IsTrue result ↔ Flushes ((history_of trace.now).at entry) ((history_of trace.now).at (suc entry)) file.now from count }
{
    flushes(trace, entry, file, from, count)
}

fn serves(
    alloc: Global,
    trace: &Trace,
    entry: usize,
    call: &Call,
    reply: &Reply,
) -> Result<bool, Memory>
    ensures { IfOk result (λ b. b ≡ serves trace.now entry call.now reply.now) }
{
    match call {
        Call::File(call) => match reply {
            Reply::File(reply) => Ok(serves_file(trace, entry, call, reply)),
            _ => Ok(false),
        },
        Call::Dir(call) => match reply {
            Reply::Dir(reply) => serves_dir(alloc, trace, entry, call, reply),
            _ => Ok(false),
        },
        Call::Mount(call) => match reply {
            Reply::Mount(reply) => Ok(serves_mount(trace, entry, call, reply)),
            _ => Ok(false),
        },
    }
}

fn serves_mount(trace: &Trace, entry: usize, call: &MountCall, reply: &MountReply) -> bool
    ensures { result ≡ serves_mount trace.now entry call.now reply.now }
{
    match call {
        MountCall::Null => match reply {
            MountReply::Null => is_same(trace, entry),
            _ => false,
        },
        MountCall::Mnt { .. } => match reply {
            MountReply::MntOk { .. } => is_same(trace, entry),
            MountReply::MntFail { stat } => *stat != 0 && is_same(trace, entry),
            _ => false,
        },
        MountCall::Umnt { .. } => match reply {
            MountReply::Umnt => is_same(trace, entry),
            _ => false,
        },
        MountCall::Export => match reply {
            MountReply::Export { .. } => is_same(trace, entry),
            _ => false,
        },
    }
}

#[tactic(auto, unfolding(crate::specs::StepTests::flushes))]
fn flushes(trace: &Trace, entry: usize, file: &Handle, from: u64, count: u64) -> bool
    ensures { result ≡ flushes trace.now entry file.now from count }
{
    flushed(trace, entry, file, from, count) && only(trace, entry, file, file, file)
}

fn flushed(trace: &Trace, entry: usize, file: &Handle, from: u64, count: u64) -> bool
    ensures { result ≡ flushed_to from count (before trace.now entry file.now) (after trace.now entry file.now) }
{
    let Some(old) = before(trace, entry, file) else {
        return false;
    };
    match after(trace, entry, file) {
        Some(new) => is_flushed(from, count, old, new),
        None => false,
    }
}

/// Whether only stable bytes of the range are others.
fn is_flushed(from: u64, count: u64, old: &Object, new: &Object) -> bool
    ensures { result ≡ flushed_to from count (Some old.now) (Some new.now) }
{
    !old.gone
        && same_attr(&old.attr, &new.attr)
        && same_bool(new.gone, old.gone)
        && is_committed(from, count, &old.contents, &new.contents)
}
