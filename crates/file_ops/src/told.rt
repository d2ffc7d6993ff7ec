//! What replies come to for an operation.

ghost use Rattle.std.specs.Prelude.{◌≡◌};
ghost use Rattle.client_shelf.specs.Coming.{reply_of};
ghost use Rattle.file_ops.specs.Told.{found_by, made_by, got_by};

use client_shelf::Came;
use nfs_dir_calls::DirReply;
use nfs_file_calls::FileReply;
use nfs_types::{Attr, Handle};
use world_model::Fault;

/// The object that LOOKUP found.
pub(crate) fn found_by(came: &Came<'_>) -> Result<Handle, Fault>
    ensures { result ≡ found_by (reply_of came.now) }
{
    match came {
        Came::Dir(reply) => match reply {
            DirReply::Lookup { found, .. } => Ok(*found),
            DirReply::LookupFail { status, .. } => Err(Fault::Nfs(status.0)),
            _ => Err(Fault::Bad(2)),
        },
        Came::File(_) => Err(Fault::Bad(2)),
        Came::Refused(fault) => Err(*fault),
    }
}

/// The file that CREATE made, if it gives the file handle.
pub(crate) fn made_by(came: &Came<'_>) -> Result<Option<Handle>, Fault>
    ensures { result ≡ made_by (reply_of came.now) }
{
    match came {
        Came::Dir(reply) => match reply {
            DirReply::Create { found, .. } => Ok(*found),
            DirReply::CreateFail { status, .. } => Err(Fault::Nfs(status.0)),
            _ => Err(Fault::Bad(2)),
        },
        Came::File(_) => Err(Fault::Bad(2)),
        Came::Refused(fault) => Err(*fault),
    }
}

/// The attributes that GETATTR got.
pub(crate) fn got_by(came: &Came<'_>) -> Result<Attr, Fault>
    ensures { result ≡ got_by (reply_of came.now) }
{
    match came {
        Came::File(reply) => match reply {
            FileReply::GetAttr { attr } => Ok(*attr),
            FileReply::GetAttrFail { status } => Err(Fault::Nfs(status.0)),
            _ => Err(Fault::Bad(2)),
        },
        Came::Dir(_) => Err(Fault::Bad(2)),
        Came::Refused(fault) => Err(*fault),
    }
}
