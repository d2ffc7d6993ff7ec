//! What the records that answer MNT and FSINFO say.

ghost use Rattle.std.specs.Prelude.{ℕ, List};
ghost use Rattle.world_model.specs.Messages.{HasXid};
ghost use Rattle.session_setup.specs.Replies.{MountHeard, InfoHeard, MountedBy, GrantedBy, InformedBy};

use crate::opening::SetUpFault;
use crate::sizes::Greatest;
use call_replies::results_of;
use mount_calls::{MountReply, read_mount_reply};
use nfs_file_calls::{FileReply, read_file_reply};
use nfs_types::Handle;
use nfs_types::mount_proc::MNT;
use nfs_types::nfs_proc::FSINFO;
use std::alloc::Global;
use world_model::Fault;
use xdr_codec::CodecFault;

/// The root that MNT gave (RFC 1813, section 5.2.1).
pub(crate) fn hear_mount(alloc: Global, record: &[u8]) -> Result<Handle, SetUpFault>
    ensures { (x : ℕ) → HasXid record.now x → (path : List ℕ) → MountHeard x path record.now result }
{
    match results_of(record) {
        Ok(results) => mounted(alloc, results),
        Err(fault) => Err(SetUpFault::Refused(fault)),
    }
}

/// The greatest READ and WRITE that FSINFO names (RFC 1813, section 3.3.19).
pub(crate) fn hear_sizes(record: &[u8]) -> Result<Greatest, Fault>
    ensures { (x : ℕ) → HasXid record.now x → (root : List ℕ) → InfoHeard x root record.now result }
{
    match results_of(record) {
        Ok(results) => informed(results),
        Err(fault) => Err(fault),
    }
}

fn mounted(alloc: Global, results: &[u8]) -> Result<Handle, SetUpFault>
    ensures { MountedBy results.now result }
{
    match read_mount_reply(alloc, MNT, results) {
        Ok(reply) => match granted(&reply) {
            Ok(root) => Ok(root),
            Err(fault) => Err(SetUpFault::Refused(fault)),
        },
        Err(CodecFault::Memory) => Err(SetUpFault::Memory),
        Err(CodecFault::Xdr(_)) => Err(SetUpFault::Refused(Fault::Bad(2))),
    }
}

/// The root that a reply to MNT gives.
fn granted(reply: &MountReply) -> Result<Handle, Fault>
    ensures { GrantedBy reply.now result }
{
    match reply {
        MountReply::MntOk { root, .. } => Ok(*root),
        MountReply::MntFail { stat } => Err(Fault::Nfs(*stat)),
        _ => Err(Fault::Bad(2)),
    }
}

fn informed(results: &[u8]) -> Result<Greatest, Fault>
    ensures { InformedBy results.now result }
{
    match read_file_reply(FSINFO, results) {
        Ok(FileReply::FsInfo { rtmax, wtmax, .. }) => Ok(Greatest { rtmax, wtmax }),
        Ok(FileReply::FsInfoFail { status, .. }) => Err(Fault::Nfs(status.0)),
        _ => Err(Fault::Bad(2)),
    }
}
