//! RMDIR and its reply.

ghost use Rattle.std.specs.Prelude.{◌≡◌};
ghost use Rattle.client_shelf.specs.Coming.{reply_of};
ghost use Rattle.name_ops.specs.RemoveDir.{remove_dir_call, removed_told};

use crate::told::Told;
use client_shelf::Came;
use nfs_dir_calls::{DirCall, DirReply};
use nfs_types::{Handle, Name};
use world_model::{Call, Fault};

/// The call.
pub(crate) fn remove_dir(dir: Handle, name: Name) -> Call
    ensures { result ≡ remove_dir_call name dir }
{
    Call::Dir(DirCall::RmDir { dir, name })
}

/// What the reply to RMDIR tells.
pub(crate) fn removed_told(came: &Came<'_>) -> Told
    ensures { result ≡ removed_told (reply_of came.now) }
{
    match came {
        Came::Dir(reply) => match reply {
            DirReply::RmDir { wcc } => Told::done(wcc),
            DirReply::RmDirFail { status, wcc } => Told::failed(*status, wcc),
            _ => Told::refused(Fault::Bad(2)),
        },
        Came::File(_) => Told::refused(Fault::Bad(2)),
        Came::Refused(fault) => Told::refused(*fault),
    }
}
