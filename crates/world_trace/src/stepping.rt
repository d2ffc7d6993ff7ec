//! The export after each entry.

ghost use Rattle.std.specs.Prelude.{◌≡◌, ℕ, IfOk};
ghost use Rattle.export_fs.specs.Executed.{executed};
ghost use Rattle.export_fs.specs.Partial.{partly_executed};
ghost use Rattle.export_fs.specs.Restart.{after_restart};
ghost use Rattle.world_link.specs.Replay.{part_at, stepped, stepped_by};
ghost use Rattle.world_trace.specs.Stepped.{Moves};

use crate::calls::{cut, is_granted, may_change};
use export_fs::Export;
use nfs_file_calls::FileCall;
use std::alloc::Global;
use world_link::{Broken, PartialWrite};
use world_model::{Call, Entry, Reply};
use xdr_codec::Memory;

/// A status of a WRITE that fails: what the export is afterwards doesn't depend on which it is.
const ANY_FAILURE: u32 = 5;

/// How the WRITE that the entry at a place tells broke off, if it did.
pub(crate) fn part_at(partials: &[Broken], place: usize) -> Option<PartialWrite>
    ensures { result ≡ part_at partials.now place }
{
    for broken in partials {
        if broken.at == place {
            return Some(broken.part);
        }
    }
    None
}

/// Takes the export over an entry, and answers whether an object or the write verifier may be another one then. Memory
/// means out of memory, or a restart that the export can't make.
#[tactic(auto, using(crate::proofs::Moving::moved, crate::proofs::Moving::rested, crate::proofs::Resting::idle, crate::proofs::Resting::refused))]
pub(crate) fn step(
    alloc: Global,
    export: &mut Export,
    part: Option<PartialWrite>,
    entry: &Entry,
) -> Result<bool, Memory>
    ensures { IfOk result (λ moved. Moves moved export.old export.new (stepped part export.old entry.now)) }
{
    match entry {
        Entry::Executed { call, reply, .. } => match part {
            Some(part) => execute_part(export, call, part.bytes),
            None => execute(alloc, export, call, reply),
        },
        Entry::Foreign { call, reply } => execute(alloc, export, call, reply),
        Entry::Flushed { file, from, len } => {
            export.flush(file, *from, *len)?;
            Ok(true)
        }
        Entry::Reboot { .. } => restart(export),
        _ => Ok(false),
    }
}

/// Executes a call that is granted.
#[tactic(auto, using(crate::proofs::Moving::moved, crate::proofs::Moving::rested, crate::proofs::Resting::idle, crate::proofs::Resting::refused))]
fn execute(alloc: Global, export: &mut Export, call: &Call, reply: &Reply) -> Result<bool, Memory>
    ensures { IfOk result (λ moved. Moves moved export.old export.new (stepped_by export.old call.now reply.now)) }
{
    if !may_change(call) {
        return Ok(false);
    }
    if !is_granted(reply) {
        return Ok(false);
    }
    match cut(alloc, call, reply)? {
        Some(shorter) => execute_whole(export, &shorter),
        None => execute_whole(export, call),
    }
}

#[tactic(auto, using(crate::proofs::Moving::moved, crate::proofs::Moving::rested, crate::proofs::Resting::idle, crate::proofs::Resting::refused))]
fn execute_whole(export: &mut Export, call: &Call) -> Result<bool, Memory>
    ensures { IfOk result (λ moved. Moves moved export.old export.new (executed export.old call.now).0) }
{
    let _reply = export.execute(call)?;
    Ok(true)
}

/// Executes a WRITE that broke off after so many bytes.
#[tactic(auto, using(crate::proofs::Moving::moved, crate::proofs::Moving::rested, crate::proofs::Resting::idle, crate::proofs::Resting::refused))]
fn execute_part(export: &mut Export, call: &Call, bytes: u32) -> Result<bool, Memory>
    ensures { (status : ℕ) → IfOk result (λ moved. Moves moved export.old export.new (partly_executed export.old call.now bytes status).0) }
{
    match call {
        Call::File(FileCall::Write { .. }) => {
            let _reply = export.execute_partial(call, bytes, ANY_FAILURE)?;
            Ok(true)
        }
        _ => execute_whole(export, call),
    }
}

/// Restarts the export.
#[tactic(auto, using(crate::proofs::Moving::moved, crate::proofs::Moving::rested, crate::proofs::Resting::idle, crate::proofs::Resting::refused))]
fn restart(export: &mut Export) -> Result<bool, Memory>
    ensures { IfOk result (λ moved. Moves moved export.old export.new (after_restart export.old)) }
{
    if export.reboot() {
        Ok(true)
    } else {
        Err(Memory)
    }
}
