//! The calls of the set-up.

ghost use Rattle.std.specs.Prelude.{◌≤◌, length, OnOk};
ghost use Rattle.world_model.specs.Mounts.{mount_call, info_call};
ghost use Rattle.session_setup.specs.Exchanges.{Makes};
ghost use Rattle.session_setup.specs.Phases.{KeepsTerms};

use mount_calls::{MountCall, write_mount_call};
use nfs_file_calls::{FileCall, write_file_call};
use nfs_types::mount_proc::MNT;
use nfs_types::nfs_proc::FSINFO;
use nfs_types::{Handle, MOUNT_PROGRAM, NFS_PROGRAM};
use rpc_retry::Calls;
use std::alloc::Global;
use xdr_codec::{Blob, Memory, Writer};

/// Makes the call MNT of a path (RFC 1813, section 5.2.1).
pub(crate) fn ask_mount(alloc: Global, path: &Blob, calls: &mut Calls<()>) -> Result<(), Memory>
    requires mountable { length path.now ≤ 1024 }
    ensures makes { OnOk result (Makes (mount_call path.now) calls.old calls.new) }
    ensures keeps { KeepsTerms calls.old calls.new }
{
    let path = Blob::copy(alloc, path.bytes())?;
    let mut args = Writer::new(alloc);
    write_mount_call(&mut args, &MountCall::Mnt { path })?;
    let args = args.finish();
    match calls.put(MOUNT_PROGRAM, MNT, args.bytes(), ()) {
        Ok(_) => Ok(()),
        Err(_) => Err(Memory),
    }
}

/// Makes the call FSINFO of the root (RFC 1813, section 3.3.19).
pub(crate) fn ask_sizes(alloc: Global, root: Handle, calls: &mut Calls<()>) -> Result<(), Memory>
    ensures makes { OnOk result (Makes (info_call root) calls.old calls.new) }
    ensures keeps { KeepsTerms calls.old calls.new }
{
    let mut args = Writer::new(alloc);
    write_file_call(&mut args, &FileCall::FsInfo { file: root })?;
    let args = args.finish();
    match calls.put(NFS_PROGRAM, FSINFO, args.bytes(), ()) {
        Ok(_) => Ok(()),
        Err(_) => Err(Memory),
    }
}
