//! MKDIR and its reply.

ghost use Rattle.std.specs.Prelude.{◌≡◌};
ghost use Rattle.client_shelf.specs.Coming.{reply_of};
ghost use Rattle.name_ops.specs.MakeDir.{make_dir_call, made_told};

use crate::changing::mode_set;
use crate::told::Told;
use client_shelf::Came;
use nfs_dir_calls::{DirCall, DirReply};
use nfs_types::{Handle, Name};
use world_model::{Call, Fault};

/// The call. The mode is 0755, and nothing else is set.
pub(crate) fn make_dir(dir: Handle, name: Name) -> Call
    ensures { result ≡ make_dir_call name dir }
{
    let set = mode_set(0o755);
    Call::Dir(DirCall::MkDir { dir, name, set })
}

/// What the reply to MKDIR tells.
pub(crate) fn made_told(came: &Came<'_>) -> Told
    ensures { result ≡ made_told (reply_of came.now) }
{
    match came {
        Came::Dir(reply) => match reply {
            DirReply::MkDir { found, attr, wcc } => Told::made(found, attr, wcc),
            DirReply::MkDirFail { status, wcc } => Told::failed(*status, wcc),
            _ => Told::refused(Fault::Bad(2)),
        },
        Came::File(_) => Told::refused(Fault::Bad(2)),
        Came::Refused(fault) => Told::refused(*fault),
    }
}
